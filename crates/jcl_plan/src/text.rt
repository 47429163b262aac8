//! The texts of lines, to the byte.
ghost use Rattle.std.specs.Prelude.{◌≡◌, ◌≤◌, ◌++◌, ◌∷◌, ◌==◌, [], OnOk, codes, decimal, length, not, take, replicate};
ghost use Rattle.std.specs.List.{list_any};
ghost use Rattle.jcl_plan.specs.declared.entry.Entry.TheVariants as entry;
ghost use Rattle.jcl_plan.specs.declared.entry.JobLine.TheVariants as line;
ghost use Rattle.jcl_plan.specs.Lines.{entry_text, grown_text, job_line_text, line_text, text_of, written_text};
ghost use Rattle.jcl_plan.specs.Texts.{abend_text, back_text, behind_blank, cause_text, digits, disp_text, fate_text, fault_text, others_text, outcome_text, path_text, shown, step_shown, take_text, trimmed};

use crate::entry::{Entry, JobLine, Written};
use crate::fault::{Cause, Fault};
use crate::outcome::{Abend, Code, Fate, Outcome};
use crate::plan::Record;
use crate::words::{BackWord, DispWord, TakeWord};
use itoa::Buffer;
use jname_core::ds_name::DsName;
use jname_core::name8::Name8;
use jname_core::serial::Serial;
use plain::draft::Draft;
use std::alloc::AllocError;

fn push(out: &mut Draft, text: &[u8]) -> Result<(), AllocError>
    ensures kept { out.new.kept ≡ out.old.kept }
    ensures ok { OnOk result (out.new.begun ≡ out.old.begun ++ text.now) }
{
    out.push(text)
}

fn push_number(out: &mut Draft, number: u64) -> Result<(), AllocError>
    ensures kept { out.new.kept ≡ out.old.kept }
    ensures ok { OnOk result (out.new.begun ≡ out.old.begun ++ decimal number) }
{
    let mut buffer = Buffer::new();
    out.push(buffer.format(number).as_bytes())
}

/// A number in at least so many digits.
fn push_digits(out: &mut Draft, width: usize, number: u16) -> Result<(), AllocError>
    ensures kept { out.new.kept ≡ out.old.kept }
    ensures ok { OnOk result (out.new.begun ≡ out.old.begun ++ digits width number) }
{
    let mut buffer = Buffer::new();
    let text = buffer.format(number).as_bytes();
    push_zeros(out, width.saturating_sub(text.len()))?;
    out.push(text)
}

fn push_zeros(out: &mut Draft, count: usize) -> Result<(), AllocError>
    ensures kept { out.new.kept ≡ out.old.kept }
    ensures ok { OnOk result (out.new.begun ≡ out.old.begun ++ replicate count 48) }
{
    for _ in 0..count {
        out.push_byte(b'0')?;
    }
    Ok(())
}

/// Whether some character of the text is no blank.
fn has_other(text: &[u8]) -> bool
    ensures { result ≡ list_any (λ c. not (c == 32)) text.now }
{
    let mut found = false;
    for c in text.iter() {
        found |= *c != b' ';
    }
    found
}

/// How long a text is without blanks at its end that make up whole eights.
fn len_by_eights(text: &[u8]) -> usize
    ensures within { result ≤ length text.now }
    ensures trimmed { trimmed (take result text.now) ≡ trimmed text.now }
{
    let mut len = text.len();
    while len >= 8 && !has_other(&text[len - 8..len]) {
        len -= 8;
    }
    len
}

/// How long a text is without the blanks at its end, each looked at by itself.
fn len_by_ones(text: &[u8]) -> usize
    ensures within { result ≤ length text.now }
    ensures trimmed { take result text.now ≡ trimmed text.now }
{
    let mut len = text.len();
    while len > 0 && text[len - 1] == b' ' {
        len -= 1;
    }
    len
}

/// How long a text is without the blanks at its end.
pub fn trimmed_len(text: &[u8]) -> usize
    ensures within { result ≤ length text.now }
    ensures trimmed { take result text.now ≡ trimmed text.now }
{
    len_by_ones(&text[..len_by_eights(text)])
}

fn push_record(out: &mut Draft, text: &Record) -> Result<(), AllocError>
    ensures kept { out.new.kept ≡ out.old.kept }
    ensures ok { OnOk result (out.new.begun ≡ out.old.begun ++ behind_blank (trimmed text.now)) }
{
    let len = trimmed_len(text);
    if len == 0 {
        return Ok(());
    }
    out.push_byte(b' ')?;
    out.push(&text[..len])
}

fn push_shown(out: &mut Draft, name: &Option<Name8>) -> Result<(), AllocError>
    ensures kept { out.new.kept ≡ out.old.kept }
    ensures ok { OnOk result (out.new.begun ≡ out.old.begun ++ shown name.now) }
{
    match name {
        None => push(out, b"-"),
        Some(name) => push(out, name.as_slice()),
    }
}

fn push_step(
    out: &mut Draft,
    name: &Option<Name8>,
    procedure_step: &Option<Name8>,
) -> Result<(), AllocError>
    ensures kept { out.new.kept ≡ out.old.kept }
    ensures ok { OnOk result (out.new.begun ≡ out.old.begun ++ step_shown name.now procedure_step.now) }
{
    match procedure_step {
        None => push_shown(out, name),
        Some(step) => {
            push_shown(out, name)?;
            push(out, b".")?;
            push(out, step.as_slice())
        }
    }
}

fn fate_bytes(fate: Fate) -> &'static [u8]
    ensures { result.now ≡ fate_text fate }
{
    match fate {
        Fate::Run => b"RUN",
        Fate::Bypassed => b"BYPASSED",
        Fate::Flushed => b"FLUSHED",
    }
}

fn fault_bytes(fault: Fault) -> &'static [u8]
    ensures { result.now ≡ fault_text fault }
{
    match fault {
        Fault::F1 => b"F1",
        Fault::F2 => b"F2",
        Fault::F3 => b"F3",
        Fault::F4 => b"F4",
        Fault::F5 => b"F5",
        Fault::F6 => b"F6",
        Fault::F7 => b"F7",
        Fault::F8 => b"F8",
        Fault::F9 => b"F9",
        Fault::F10 => b"F10",
    }
}

fn push_cause(out: &mut Draft, cause: Cause) -> Result<(), AllocError>
    ensures kept { out.new.kept ≡ out.old.kept }
    ensures ok { OnOk result (out.new.begun ≡ out.old.begun ++ cause_text cause) }
{
    match cause {
        Cause::C(number) => push_lettered(out, b"C", number),
        Cause::N(number) => push_lettered(out, b"N", number),
        Cause::P(fault) => push_lettered(out, b"P", fault.number()),
        Cause::Q(fault) => push_lettered(out, b"Q", fault.number()),
        Cause::B(number) => push_lettered(out, b"B", number),
        Cause::A(fault) => push_lettered(out, b"A", fault.number()),
    }
}

fn push_lettered(out: &mut Draft, letter: &[u8], number: u8) -> Result<(), AllocError>
    ensures kept { out.new.kept ≡ out.old.kept }
    ensures ok { OnOk result (out.new.begun ≡ out.old.begun ++ (letter.now ++ decimal number)) }
{
    push(out, letter)?;
    push_number(out, u64::from(number))
}

fn push_abend(out: &mut Draft, abend: Abend) -> Result<(), AllocError>
    ensures kept { out.new.kept ≡ out.old.kept }
    ensures ok { OnOk result (out.new.begun ≡ out.old.begun ++ abend_text abend) }
{
    match abend {
        Abend::S222 => push(out, b"S222"),
        Abend::S806 => push(out, b"S806"),
        Abend::SB37 => push(out, b"SB37"),
        Abend::SD37 => push(out, b"SD37"),
        Abend::SFF0 => push(out, b"SFF0"),
        Abend::SFF1 => push(out, b"SFF1"),
        Abend::User(code) => {
            push(out, b"U")?;
            push_digits(out, 4, code.number())
        }
    }
}

fn push_outcome(out: &mut Draft, outcome: Outcome) -> Result<(), AllocError>
    ensures kept { out.new.kept ≡ out.old.kept }
    ensures ok { OnOk result (out.new.begun ≡ out.old.begun ++ outcome_text outcome) }
{
    match outcome {
        Outcome::Code(code) => {
            push(out, b"C")?;
            push_digits(out, 4, code.number())
        }
        Outcome::Abend(abend) => push_abend(out, abend),
        Outcome::Bypassed => push(out, b"B"),
        Outcome::Flushed => push(out, b"F"),
    }
}

fn push_path(out: &mut Draft, path: &[Outcome]) -> Result<(), AllocError>
    ensures kept { out.new.kept ≡ out.old.kept }
    ensures ok { OnOk result (out.new.begun ≡ out.old.begun ++ path_text path.now) }
{
    let Some((first, others)) = path.split_first() else {
        return push(out, b"-");
    };
    push_outcome(out, *first)?;
    push_others(out, others)
}

fn push_others(out: &mut Draft, others: &[Outcome]) -> Result<(), AllocError>
    ensures kept { out.new.kept ≡ out.old.kept }
    ensures ok { OnOk result (out.new.begun ≡ out.old.begun ++ others_text others.now) }
{
    for outcome in others {
        push(out, b",")?;
        push_outcome(out, *outcome)?;
    }
    Ok(())
}

fn push_take(out: &mut Draft, word: &TakeWord) -> Result<(), AllocError>
    ensures kept { out.new.kept ≡ out.old.kept }
    ensures ok { OnOk result (out.new.begun ≡ out.old.begun ++ take_text word.now) }
{
    match word {
        TakeWord::Made(serial) => push_two(out, b"MADE ", serial.as_slice()),
        TakeWord::Found(serial) => push_two(out, b"FOUND ", serial.as_slice()),
        TakeWord::Received(serial) => push_two(out, b"RECEIVED ", serial.as_slice()),
        TakeWord::Sysout(class) => push_two(out, b"SYSOUT ", &[*class]),
        TakeWord::Dummy => push(out, b"DUMMY"),
        TakeWord::Cards(cards) => {
            push(out, b"CARDS ")?;
            push_number(out, *cards as u64)
        }
    }
}

fn push_two(out: &mut Draft, first: &[u8], second: &[u8]) -> Result<(), AllocError>
    ensures kept { out.new.kept ≡ out.old.kept }
    ensures ok { OnOk result (out.new.begun ≡ out.old.begun ++ (first.now ++ second.now)) }
{
    push(out, first)?;
    push(out, second)
}

fn push_disp(out: &mut Draft, word: DispWord) -> Result<(), AllocError>
    ensures kept { out.new.kept ≡ out.old.kept }
    ensures ok { OnOk result (out.new.begun ≡ out.old.begun ++ disp_text word) }
{
    match word {
        DispWord::Kept => push(out, b"KEPT"),
        DispWord::Deleted => push(out, b"DELETED"),
        DispWord::Passed => push(out, b"PASSED"),
        DispWord::Cataloged => push(out, b"CATALOGED"),
        DispWord::Uncataloged => push(out, b"UNCATALOGED"),
        DispWord::Unexpired => push(out, b"UNEXPIRED"),
        DispWord::F3 => push(out, b"F3"),
        DispWord::F4 => push(out, b"F4"),
        DispWord::F8 => push(out, b"F8"),
        DispWord::Spooled(records) => {
            push(out, b"SPOOLED ")?;
            push_number(out, records as u64)
        }
        DispWord::Nothing => push(out, b"NONE"),
    }
}

fn back_bytes(word: BackWord) -> &'static [u8]
    ensures { result.now ≡ back_text word }
{
    match word {
        BackWord::Deleted => b"DELETED",
        BackWord::Kept => b"KEPT",
    }
}

/// A verb, a DD's number, its name and a blank: what TAKE, BACK, DISP and LEFT lines begin with.
fn push_dd(out: &mut Draft, verb: &[u8], dd: usize, name: &Option<Name8>) -> Result<(), AllocError>
    ensures kept { out.new.kept ≡ out.old.kept }
    ensures ok { OnOk result (out.new.begun ≡ out.old.begun ++ (verb.now ++ decimal dd ++ codes " " ++ shown name.now ++ codes " ")) }
{
    push(out, verb)?;
    push_number(out, dd as u64)?;
    push(out, b" ")?;
    push_shown(out, name)?;
    push(out, b" ")
}

/// ` STEP s DD d`.
fn push_place(out: &mut Draft, step: usize, dd: usize) -> Result<(), AllocError>
    ensures kept { out.new.kept ≡ out.old.kept }
    ensures ok { OnOk result (out.new.begun ≡ out.old.begun ++ (codes " STEP " ++ decimal step ++ codes " DD " ++ decimal dd)) }
{
    push(out, b" STEP ")?;
    push_number(out, step as u64)?;
    push(out, b" DD ")?;
    push_number(out, dd as u64)
}

fn push_text_and_number(out: &mut Draft, text: &[u8], number: u64) -> Result<(), AllocError>
    ensures kept { out.new.kept ≡ out.old.kept }
    ensures ok { OnOk result (out.new.begun ≡ out.old.begun ++ (text.now ++ decimal number)) }
{
    push(out, text)?;
    push_number(out, number)
}

fn push_grown(out: &mut Draft, grown: &Option<u16>) -> Result<(), AllocError>
    ensures kept { out.new.kept ≡ out.old.kept }
    ensures ok { OnOk result (out.new.begun ≡ out.old.begun ++ grown_text grown.now) }
{
    match grown {
        None => Ok(()),
        Some(tracks) => push_text_and_number(out, b" GROWN ", u64::from(*tracks)),
    }
}

/// A request's word, its DD's name and what the request did.
fn push_request(out: &mut Draft, verb: &[u8], name: &Name8, did: &[u8]) -> Result<(), AllocError>
    ensures kept { out.new.kept ≡ out.old.kept }
    ensures ok { OnOk result (out.new.begun ≡ out.old.begun ++ (verb.now ++ name.now ++ did.now)) }
{
    push(out, verb)?;
    push(out, name.as_slice())?;
    push(out, did)
}

fn push_read(out: &mut Draft, name: &Name8, class: u8, priority: u8) -> Result<(), AllocError>
    ensures kept { out.new.kept ≡ out.old.kept }
    ensures ok { OnOk result (out.new.begun ≡ out.old.begun ++ line_text (line.Read name.now class priority)) }
{
    push_request(out, b"READ ", name, b" CLASS ")?;
    out.push_byte(class)?;
    push(out, b" PRTY ")?;
    push_digits(out, 2, u16::from(priority))
}

fn push_wait(out: &mut Draft, holder: u16, name: &DsName) -> Result<(), AllocError>
    ensures kept { out.new.kept ≡ out.old.kept }
    ensures ok { OnOk result (out.new.begun ≡ out.old.begun ++ line_text (line.WaitNames holder name.now)) }
{
    push(out, b"WAIT NAMES ")?;
    push_digits(out, 4, holder)?;
    push_two(out, b" ", name.as_slice())
}

fn push_assured(out: &mut Draft, tracks: usize, actions: usize) -> Result<(), AllocError>
    ensures kept { out.new.kept ≡ out.old.kept }
    ensures ok { OnOk result (out.new.begun ≡ out.old.begun ++ line_text (line.Assured tracks actions)) }
{
    push_text_and_number(out, b"ASSURED ", tracks as u64)?;
    push_text_and_number(out, b" TRACKS ", actions as u64)?;
    push(out, b" ACTIONS")
}

fn push_risk(
    out: &mut Draft,
    fault: Fault,
    step: usize,
    dd: usize,
    path: &[Outcome],
) -> Result<(), AllocError>
    ensures kept { out.new.kept ≡ out.old.kept }
    ensures ok { OnOk result (out.new.begun ≡ out.old.begun ++ line_text (line.Risk fault step dd path.now)) }
{
    push_two(out, b"RISK ", fault_bytes(fault))?;
    push_place(out, step, dd)?;
    push(out, b" PATH ")?;
    push_path(out, path)
}

fn push_step_line(
    out: &mut Draft,
    step: usize,
    name: &Option<Name8>,
    procedure_step: &Option<Name8>,
    fate: Fate,
) -> Result<(), AllocError>
    ensures kept { out.new.kept ≡ out.old.kept }
    ensures ok { OnOk result (out.new.begun ≡ out.old.begun ++ line_text (line.Step step name.now procedure_step.now fate)) }
{
    push_text_and_number(out, b"STEP ", step as u64)?;
    push(out, b" ")?;
    push_step(out, name, procedure_step)?;
    push_two(out, b" ", fate_bytes(fate))
}

fn push_take_line(
    out: &mut Draft,
    dd: usize,
    name: &Option<Name8>,
    word: &TakeWord,
) -> Result<(), AllocError>
    ensures kept { out.new.kept ≡ out.old.kept }
    ensures ok { OnOk result (out.new.begun ≡ out.old.begun ++ line_text (line.Take dd name.now word.now)) }
{
    push_dd(out, b"TAKE ", dd, name)?;
    push_take(out, word)
}

fn push_fault(out: &mut Draft, fault: Fault, step: usize, dd: usize) -> Result<(), AllocError>
    ensures kept { out.new.kept ≡ out.old.kept }
    ensures ok { OnOk result (out.new.begun ≡ out.old.begun ++ line_text (line.Fault fault step dd)) }
{
    push_two(out, b"FAULT ", fault_bytes(fault))?;
    push_place(out, step, dd)
}

fn push_get_data(out: &mut Draft, name: &Name8, text: &Record) -> Result<(), AllocError>
    ensures kept { out.new.kept ≡ out.old.kept }
    ensures ok { OnOk result (out.new.begun ≡ out.old.begun ++ line_text (line.GetData name.now text.now)) }
{
    push_request(out, b"GET ", name, b" DATA")?;
    push_record(out, text)
}

fn push_put_start(
    out: &mut Draft,
    name: &Name8,
    serial: &Serial,
    grown: &Option<u16>,
) -> Result<(), AllocError>
    ensures kept { out.new.kept ≡ out.old.kept }
    ensures ok { OnOk result (out.new.begun ≡ out.old.begun ++ line_text (line.PutStart name.now serial.now grown.now)) }
{
    push_request(out, b"PUT ", name, b" START ")?;
    push(out, serial.as_slice())?;
    push_grown(out, grown)
}

fn push_left(
    out: &mut Draft,
    step: usize,
    dd: usize,
    name: &Option<Name8>,
    word: DispWord,
) -> Result<(), AllocError>
    ensures kept { out.new.kept ≡ out.old.kept }
    ensures ok { OnOk result (out.new.begun ≡ out.old.begun ++ line_text (line.Left step dd name.now word)) }
{
    push_text_and_number(out, b"LEFT ", step as u64)?;
    push_dd(out, b".", dd, name)?;
    push_disp(out, word)
}

fn push_disp_line(
    out: &mut Draft,
    dd: usize,
    name: &Option<Name8>,
    word: DispWord,
) -> Result<(), AllocError>
    ensures kept { out.new.kept ≡ out.old.kept }
    ensures ok { OnOk result (out.new.begun ≡ out.old.begun ++ line_text (line.Disp dd name.now word)) }
{
    push_dd(out, b"DISP ", dd, name)?;
    push_disp(out, word)
}

fn push_back(
    out: &mut Draft,
    dd: usize,
    name: &Option<Name8>,
    word: BackWord,
) -> Result<(), AllocError>
    ensures kept { out.new.kept ≡ out.old.kept }
    ensures ok { OnOk result (out.new.begun ≡ out.old.begun ++ line_text (line.Back dd name.now word)) }
{
    push_dd(out, b"BACK ", dd, name)?;
    push(out, back_bytes(word))
}

fn push_code(out: &mut Draft, code: Code) -> Result<(), AllocError>
    ensures kept { out.new.kept ≡ out.old.kept }
    ensures ok { OnOk result (out.new.begun ≡ out.old.begun ++ line_text (line.Code code)) }
{
    push(out, b"CODE ")?;
    push_digits(out, 4, code.number())
}

impl JobLine {
    /// Puts the line's text, behind the job's number, at the end. An `Err` may leave a part of it.
    pub fn write_to(&self, out: &mut Draft) -> Result<(), AllocError>
        ensures kept { out.new.kept ≡ out.old.kept }
        ensures ok { OnOk result (out.new.begun ≡ out.old.begun ++ line_text self.now) }
    {
        match self {
            JobLine::Read {
                name,
                class,
                priority,
            } => push_read(out, name, *class, *priority),
            JobLine::Rejected(cause) => push_rejected(out, *cause),
            JobLine::Selected(initiator) => push_text_and_number(
                out,
                b"SELECTED ",
                u64::from(*initiator),
            ),
            JobLine::Broken(number) => push_text_and_number(out, b"BROKEN B", u64::from(*number)),
            JobLine::Names(names) => push_text_and_number(out, b"NAMES ", *names as u64),
            JobLine::WaitNames { holder, name } => push_wait(out, *holder, name),
            JobLine::WaitSpace(serial) => push_two(out, b"WAIT SPACE ", serial.as_slice()),
            JobLine::Assured { tracks, actions } => push_assured(out, *tracks, *actions),
            JobLine::Risk {
                fault,
                step,
                dd,
                path,
            } => push_risk(out, *fault, *step, *dd, path.as_slice()),
            JobLine::TooMany(step) => push_text_and_number(out, b"TOOMANY STEP ", *step as u64),
            JobLine::Refused => push(out, b"REFUSED"),
            JobLine::Cancelled => push(out, b"CANCELLED"),
            JobLine::Step {
                step,
                name,
                procedure_step,
                fate,
            } => push_step_line(out, *step, name, procedure_step, *fate),
            JobLine::Take { dd, name, word } => push_take_line(out, *dd, name, word),
            JobLine::Fault { fault, step, dd } => push_fault(out, *fault, *step, *dd),
            JobLine::Back { dd, name, word } => push_back(out, *dd, name, *word),
            JobLine::GetStart { name, serial } => push_get_start(out, name, serial),
            JobLine::GetData { name, text } => push_get_data(out, name, text),
            JobLine::GetEnd { name } => push_request(out, b"GET ", name, b" END"),
            JobLine::PutStart {
                name,
                serial,
                grown,
            } => push_put_start(out, name, serial, grown),
            JobLine::PutDone { name } => push_request(out, b"PUT ", name, b" DONE"),
            JobLine::Code(code) => push_code(out, *code),
            JobLine::Abend(abend) => push_abend_line(out, *abend),
            JobLine::Disp { dd, name, word } => push_disp_line(out, *dd, name, *word),
            JobLine::Left {
                step,
                dd,
                name,
                word,
            } => push_left(out, *step, *dd, name, *word),
            JobLine::End => push(out, b"END"),
        }
    }
}

fn push_rejected(out: &mut Draft, cause: Cause) -> Result<(), AllocError>
    ensures kept { out.new.kept ≡ out.old.kept }
    ensures ok { OnOk result (out.new.begun ≡ out.old.begun ++ line_text (line.Rejected cause)) }
{
    push(out, b"REJECTED ")?;
    push_cause(out, cause)
}

fn push_get_start(out: &mut Draft, name: &Name8, serial: &Serial) -> Result<(), AllocError>
    ensures kept { out.new.kept ≡ out.old.kept }
    ensures ok { OnOk result (out.new.begun ≡ out.old.begun ++ line_text (line.GetStart name.now serial.now)) }
{
    push_request(out, b"GET ", name, b" START ")?;
    push(out, serial.as_slice())
}

fn push_abend_line(out: &mut Draft, abend: Abend) -> Result<(), AllocError>
    ensures kept { out.new.kept ≡ out.old.kept }
    ensures ok { OnOk result (out.new.begun ≡ out.old.begun ++ line_text (line.Abend abend)) }
{
    push(out, b"ABEND ")?;
    push_abend(out, abend)
}

/// A job's line with the job's number.
fn push_job_line(out: &mut Draft, job: u16, line: &JobLine) -> Result<(), AllocError>
    ensures kept { out.new.kept ≡ out.old.kept }
    ensures ok { OnOk result (out.new.begun ≡ out.old.begun ++ job_line_text job line.now) }
{
    push_digits(out, 4, job)?;
    push(out, b" ")?;
    line.write_to(out)
}

fn push_written(out: &mut Draft, job: u16, written: &Written) -> Result<(), AllocError>
    ensures kept { out.new.kept ≡ out.old.kept }
    ensures ok { OnOk result (out.new.begun ≡ out.old.begun ++ written_text job written.now) }
{
    match written {
        Written::Line(line) => {
            push(out, b" ")?;
            push_job_line(out, job, line)
        }
        Written::Record(text) => push_record(out, text),
    }
}

fn push_writer(out: &mut Draft, class: u8, job: u16, written: &Written) -> Result<(), AllocError>
    ensures kept { out.new.kept ≡ out.old.kept }
    ensures ok { OnOk result (out.new.begun ≡ out.old.begun ++ entry_text (entry.Writer class job written.now)) }
{
    push_two(out, b"-- WRITER ", &[class])?;
    push(out, b" ")?;
    push_digits(out, 4, job)?;
    push_written(out, job, written)
}

fn push_volume(out: &mut Draft, serial: &Serial, free: usize, kept: usize) -> Result<(), AllocError>
    ensures kept { out.new.kept ≡ out.old.kept }
    ensures ok { OnOk result (out.new.begun ≡ out.old.begun ++ entry_text (entry.Volume serial.now free kept)) }
{
    push_two(out, b"-- ", serial.as_slice())?;
    push_text_and_number(out, b" FREE ", free as u64)?;
    push_text_and_number(out, b" KEPT ", kept as u64)
}

fn push_queue(
    out: &mut Draft,
    queued: usize,
    running: usize,
    records: usize,
) -> Result<(), AllocError>
    ensures kept { out.new.kept ≡ out.old.kept }
    ensures ok { OnOk result (out.new.begun ≡ out.old.begun ++ entry_text (entry.Queue queued running records)) }
{
    push_text_and_number(out, b"-- QUEUED ", queued as u64)?;
    push_text_and_number(out, b" RUNNING ", running as u64)?;
    push_text_and_number(out, b" RECORDS ", records as u64)
}

fn push_date(out: &mut Draft, year: u16, day: u16) -> Result<(), AllocError>
    ensures kept { out.new.kept ≡ out.old.kept }
    ensures ok { OnOk result (out.new.begun ≡ out.old.begun ++ entry_text (entry.Date year day)) }
{
    push(out, b"-- DATE ")?;
    push_digits(out, 4, year)?;
    push(out, b"/")?;
    push_digits(out, 3, day)
}

fn push_explained(out: &mut Draft, job: u16, line: &JobLine) -> Result<(), AllocError>
    ensures kept { out.new.kept ≡ out.old.kept }
    ensures ok { OnOk result (out.new.begun ≡ out.old.begun ++ entry_text (entry.Path job line.now)) }
{
    push(out, b"-- PATH ")?;
    push_job_line(out, job, line)
}

fn push_cancel(out: &mut Draft, job: u16) -> Result<(), AllocError>
    ensures kept { out.new.kept ≡ out.old.kept }
    ensures ok { OnOk result (out.new.begun ≡ out.old.begun ++ entry_text (entry.Cancel job)) }
{
    push(out, b"-- CANCEL ")?;
    push_digits(out, 4, job)
}

fn push_refused(out: &mut Draft, cause: Cause) -> Result<(), AllocError>
    ensures kept { out.new.kept ≡ out.old.kept }
    ensures ok { OnOk result (out.new.begun ≡ out.old.begun ++ entry_text (entry.Refused cause)) }
{
    push(out, b"-- REFUSED ")?;
    push_cause(out, cause)
}

fn push_entry(out: &mut Draft, entry: &Entry) -> Result<(), AllocError>
    ensures kept { out.new.kept ≡ out.old.kept }
    ensures ok { OnOk result (out.new.begun ≡ out.old.begun ++ entry_text entry.now) }
{
    match entry {
        Entry::Job(job, line) => push_job_line(out, *job, line),
        Entry::Path(job, line) => push_explained(out, *job, line),
        Entry::Cancel(job) => push_cancel(out, *job),
        Entry::Writer {
            class,
            job,
            written,
        } => push_writer(out, *class, *job, written),
        Entry::Refused(cause) => push_refused(out, *cause),
        Entry::Volume { serial, free, kept } => push_volume(out, serial, *free, *kept),
        Entry::Queue {
            queued,
            running,
            records,
        } => push_queue(out, *queued, *running, *records),
        Entry::Date { year, day } => push_date(out, *year, *day),
    }
}

impl Entry {
    /// Puts the line's text and a line feed at the end. An `Err` may leave a part of it.
    pub fn write_to(&self, out: &mut Draft) -> Result<(), AllocError>
        ensures kept { out.new.kept ≡ out.old.kept }
        ensures ok { OnOk result (out.new.begun ≡ out.old.begun ++ text_of self.now) }
    {
        push_entry(out, self)?;
        push(out, b"\n")
    }
}
