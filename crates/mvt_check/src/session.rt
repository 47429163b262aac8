//! All decks of a session, looked at.
ghost use Rattle.std.specs.Prelude.{◌≡◌, ◌≤◌, ◌++◌, ◌||◌, IfOk, OnOk, Some, decimal, false, is_err, is_some, true, All};
ghost use Rattle.std.specs.List.{list_any};
ghost use Rattle.jcl_job.specs.Jobs.{job_of};
ghost use Rattle.session_core.specs.Opening.{IsOpened};
ghost use Rattle.mvt_check.specs.Above.{told_at, told_line};
ghost use Rattle.mvt_check.specs.Checking.{AddsDecks, GoesOn, IsFound, IsLookedAt, TellsFault, TellsStop, fault_at, fault_of, fault_text, has_refused, is_refused, is_refused_event, is_refused_so, is_risk, one, refused_decks, risks_in, some_refused, sums_text, warnings_text, AddsLooked, deck_for, decks_left, AddsDeckOf, AddsEventOf, AddsReadOf, AddsStatementOf, AddsStatementsOf};
ghost use Rattle.mvt_check.specs.Cards.{HasAside, HasOrigins, TellsLooked, TellsTaken};

use crate::above::{is_above, text_above, told_line};
use crate::answers::answer::{Answer, Answers, DeckRead};
use crate::answers::session::answers_of;
use crate::asides::{Aside, Taken, job_asides};
use crate::brief::count_warnings;
use crate::known::{Known, Site, rooms_of, trials_of, turns_of};
use check_core::deck::{Sources, check_deck};
use check_core::report::Checked;
use check_core::text::push_found;
use check_core::warnings::{Warned, push_warned};
use itoa::Buffer;
use plain::lent::Lent;
use plain::text::Text;
use play_core::play::added_events;
use proc_library::library::ProcLibrary;
use run_options::Options;
use session_core::SessionFault;
use session_core::open::{Opened, open};
use session_input::event::Event;
use session_input::statement::ConfigStatement;
use session_text::fault::Fault;
use session_text::statement::{Says, Statement};
use session_words::words::push_fault_words;
use std::alloc::{AllocError, Global};

/// What is found of a session, as text, whether a deck is refused or the session has a fault, and whether a job may fail.
#[derive(Drop)]
pub(crate) struct Found {
    pub(crate) text: Vec<u8>,
    pub(crate) refused: bool,
    pub(crate) at_risk: bool,
}

impl Found {
    /// Whether a deck is refused, the session has a fault, or a job may fail.
    pub(crate) fn fails(&self) -> bool
        ensures { result ≡ (self.now.refused || self.now.at_risk) }
    {
        self.refused || self.at_risk
    }
}

fn push_number(text: &mut Vec<u8>, number: u64) -> Result<(), AllocError>
    ensures { OnOk result (text.new.items ≡ text.old.items ++ decimal number) }
{
    let mut buffer = Buffer::new();
    text.extend_from_slice(buffer.format(number).as_bytes())?;
    Ok(())
}

/// The line of this number, which counts from 1.
fn line_at(text: &[u8], number: usize) -> &[u8] {
    let mut left = number;
    for line in text.split(|c| *c == b'\n') {
        left = left.saturating_sub(1);
        if left == 0 {
            return line;
        }
    }
    b""
}

/// Writes a fault of a session.
fn fault_line(alloc: Global, fault: Fault, line: usize) -> Result<Vec<u8>, AllocError>
    ensures { IfOk result (λ text. text.items ≡ fault_text (Some (fault, line))) }
{
    let mut text = Vec::new(alloc);
    text.extend_from_slice(b"line ")?;
    push_number(&mut text, line as u64)?;
    text.extend_from_slice(b": session fault S")?;
    push_number(&mut text, u64::from(fault.number()))?;
    text.extend_from_slice(b"; nothing of the session after it is run (docs/SESSION.md)\n")?;
    Ok(text)
}

/// The fault of a statement behind the first event, with its line; of all configuration there the same is told.
fn fault_at(late: Option<Fault>, statement: &Statement<'_>) -> Option<(Fault, usize)>
    ensures { result ≡ fault_at late statement.now }
{
    match &statement.says {
        Says::Events(_, _) => None,
        Says::Refused(fault) => Some((*fault, statement.line)),
        Says::Config { .. } => match late {
            Some(fault) => Some((fault, statement.line)),
            None => None,
        },
    }
}

/// The fault of a session that is opened, with its line: its configuration has none.
fn later_fault(opened: &Opened, statements: &[Statement<'_>]) -> Option<(Fault, usize)>
    requires { IsOpened statements.now opened.now }
    ensures { result ≡ fault_of statements.now }
{
    let (_, behind) = statements.split_at(opened.from);
    for statement in behind {
        if let Some(fault) = fault_at(opened.late, statement) {
            return Some(fault);
        }
    }
    None
}

/// Writes what is told of a line: where that is above a deck that stands alone, it says so.
fn told_at(alloc: Global, above: usize, line: usize, own: Vec<u8>) -> Result<Vec<u8>, AllocError>
    ensures { IfOk result (λ text. text.items ≡ told_at above line own.items) }
{
    if is_above(above, line) {
        text_above(alloc, own.as_slice())
    } else {
        Ok(own)
    }
}

/// Writes a fault of a session, and behind it its line of this text and the reason.
fn fault_words(
    alloc: Global,
    input: &[u8],
    above: usize,
    fault: Fault,
    line: usize,
) -> Result<Vec<u8>, AllocError>
    ensures { IfOk result (λ text. GoesOn (fault_text (Some (fault, told_line above line))) text.items) }
{
    let mut text = fault_line(alloc, fault, told_line(above, line))?;
    push_fault_words(&mut text, fault.number(), line_at(input, line))?;
    Ok(text)
}

/// Writes what is told of a fault of a session, on this line of the text.
fn told_fault(
    alloc: Global,
    input: &[u8],
    above: usize,
    fault: Fault,
    line: usize,
) -> Result<Vec<u8>, AllocError>
    ensures { IfOk result (λ text. TellsFault above (Some (fault, line)) text.items) }
{
    let own = fault_words(alloc, input, above, fault, line)?;
    told_at(alloc, above, line, own)
}

/// What is found of a session of this text that has this fault.
fn found_stopped(
    alloc: Global,
    input: &[u8],
    above: usize,
    fault: Fault,
    line: usize,
) -> Result<Found, AllocError>
    ensures text { IfOk result (λ found. TellsFault above (Some (fault, line)) found.text.items) }
    ensures refused { IfOk result (λ found. found.refused ≡ true) }
    ensures calm { IfOk result (λ found. found.at_risk ≡ false) }
{
    Ok(Found {
        text: told_fault(alloc, input, above, fault, line)?,
        refused: true,
        at_risk: false,
    })
}

/// What is found of a session that is not opened, by the fault at which it stops.
fn found_unopened(
    alloc: Global,
    input: &[u8],
    above: usize,
    why: SessionFault,
) -> Result<Found, AllocError>
    ensures { IfOk result (TellsStop above why) }
{
    match why {
        SessionFault::Stopped(fault, line) => found_stopped(alloc, input, above, fault, line),
        SessionFault::WriteFailed(_) => Err(AllocError),
        SessionFault::Memory => Err(AllocError),
    }
}

/// What is found of a session by its own fault, if it has one.
fn found_by(
    alloc: Global,
    input: &[u8],
    above: usize,
    fault: Option<(Fault, usize)>,
) -> Result<Found, AllocError>
    ensures text { IfOk result (λ found. TellsFault above fault found.text.items) }
    ensures refused { IfOk result (λ found. found.refused ≡ is_some fault) }
    ensures calm { IfOk result (λ found. found.at_risk ≡ false) }
{
    match fault {
        None => Ok(Found {
            text: Vec::new(alloc),
            refused: false,
            at_risk: false,
        }),
        Some((fault, line)) => {
            let found = found_stopped(alloc, input, above, fault, line)?;
            Ok(found)
        }
    }
}

/// How many warnings in front are of cards up to this one.
fn count_up_to(warned: &[Warned], card: usize) -> usize {
    warned
        .iter()
        .take_while(|warning| warning.card <= card)
        .count()
}

/// Writes warnings of cards, and what is told of the job, in the order of cards.
fn push_in_order(
    text: &mut Vec<u8>,
    first: usize,
    warned: &[Warned],
    asides: &[Aside],
) -> Result<(), AllocError>
    ensures { OnOk result (All (HasAside text.new.items) asides.now) }
{
    let mut left = warned;
    for aside in asides {
        let count = count_up_to(left, aside.card).min(left.len());
        let (due, behind) = left.split_at(count);
        push_warned(text, first, due)?;
        text.extend_from_slice(aside.text.as_slice())?;
        left = behind;
    }
    push_warned(text, first, left)
}

/// A deck that was looked at: the line of the session on which its first card stands, its lines, the procedures of the session, and what was found.
#[derive(Clone, Copy)]
struct Looked<'a, 'b> {
    first: usize,
    lines: &'a [Lent<'b>],
    library: &'a ProcLibrary,
    checked: &'a Checked,
}

/// What is told of a deck that denotes a job: what it warns of, and what is told of its job, in the order of cards.
fn taken_asides(
    alloc: Global,
    known: Known<'_, '_, '_, '_, '_>,
    taken: Taken<'_, '_>,
    warned: &[Warned],
    deck: Option<DeckRead>,
) -> Result<Vec<u8>, AllocError>
    ensures { IfOk result (λ text. TellsTaken taken.entry known.entry.answers.now deck text.items) }
{
    let asides = job_asides(alloc, known, taken, deck)?;
    let mut text = Vec::new(alloc);
    push_in_order(&mut text, taken.first, warned, asides.as_slice())?;
    Ok(text)
}

/// What else is told of a deck, if it denotes a job.
fn asides_of(
    alloc: Global,
    known: Known<'_, '_, '_, '_, '_>,
    found: Looked<'_, '_>,
    warned: &[Warned],
    deck: Option<DeckRead>,
) -> Result<Vec<u8>, AllocError>
    requires { HasOrigins found }
    ensures { IfOk result (λ text. TellsLooked found.entry known.entry.answers.now deck text.items) }
{
    match found.checked {
        Checked::Taken(plan, origins) => {
            let taken = Taken {
                first: found.first,
                lines: found.lines,
                plan,
                origins: origins.as_slice(),
            };
            taken_asides(alloc, known, taken, warned, deck)
        }
        Checked::Refused { .. } => Ok(Vec::new(alloc)),
    }
}

/// Whether the deck of which this is told is refused.
fn is_refused(checked: &Checked) -> bool
    ensures { result ≡ is_refused_so checked.now }
{
    match checked {
        Checked::Taken(_, _) => false,
        _ => true,
    }
}

/// Writes what was found of a deck, whose first card stands on this line of the session, and tells whether it is refused.
fn tell_deck(
    alloc: Global,
    known: Known<'_, '_, '_, '_, '_>,
    found: Looked<'_, '_>,
    deck: Option<DeckRead>,
    text: &mut Vec<u8>,
) -> Result<bool, AllocError>
    requires { HasOrigins found }
    ensures refused { IfOk result (λ refused. refused ≡ is_refused_so found.entry.checked.now) }
    ensures added { OnOk result (AddsLooked found.entry known.entry.answers.now deck text.old.items text.new.items) }
{
    let warned = push_found(alloc, text, found.first, found.lines, found.checked)?;
    let asides = asides_of(alloc, known, found, warned.as_slice(), deck)?;
    text.extend_from_slice(asides.as_slice())?;
    Ok(is_refused(found.checked))
}

/// Looks at a deck, whose first card stands on this line of the session, and tells whether it is refused.
fn check_lines(
    alloc: Global,
    sources: &Sources<'_>,
    known: Known<'_, '_, '_, '_, '_>,
    first: usize,
    lines: &[Lent<'_>],
    deck: Option<DeckRead>,
    text: &mut Vec<u8>,
) -> Result<bool, AllocError>
    ensures refused { IfOk result (λ refused. refused ≡ is_err (job_of sources.now.units.now sources.now.library.now lines.now)) }
    ensures added { OnOk result (AddsDeckOf sources.now known.entry deck first lines.now text.old.items text.new.items) }
{
    let checked = check_deck(alloc, sources, lines)?;
    let found = Looked {
        first,
        lines,
        library: sources.library,
        checked: &checked,
    };
    tell_deck(alloc, known, found, deck, text)
}

/// Looks at the deck of an event, if it has one, and tells whether it is refused.
fn check_event(
    alloc: Global,
    sources: &Sources<'_>,
    known: Known<'_, '_, '_, '_, '_>,
    first: usize,
    event: &Event<'_>,
    deck: Option<DeckRead>,
    text: &mut Vec<u8>,
) -> Result<bool, AllocError>
    ensures refused { IfOk result (λ refused. refused ≡ is_refused_event sources.now.units.now sources.now.library.now event.now) }
    ensures added { OnOk result (AddsEventOf sources.now known.entry deck first event.now text.old.items text.new.items) }
{
    match event {
        Event::Read(cards) => {
            let lines = cards.get().as_slice();
            check_lines(alloc, sources, known, first, lines, deck, text)
        }
        _ => Ok(false),
    }
}

/// Looks at the deck of an event on this line, if it has one, and tells whether it is refused.
fn check_read(
    alloc: Global,
    sources: &Sources<'_>,
    known: Known<'_, '_, '_, '_, '_>,
    line: usize,
    event: &Event<'_>,
    deck: Option<DeckRead>,
    text: &mut Vec<u8>,
) -> Result<bool, AllocError>
    ensures refused { IfOk result (λ refused. refused ≡ is_refused_event sources.now.units.now sources.now.library.now event.now) }
    ensures added { OnOk result (AddsReadOf sources.now known.entry deck line event.now text.old.items text.new.items) }
{
    let Some(behind) = line.checked_add(1) else {
        return Err(AllocError);
    };
    if is_above(known.above, line) {
        let mut own = Vec::new(alloc);
        let refused = check_event(alloc, sources, known, behind, event, deck, &mut own)?;
        text.extend_from_slice(text_above(alloc, own.as_slice())?.as_slice())?;
        Ok(refused)
    } else {
        let first = behind.saturating_sub(known.above);
        check_event(alloc, sources, known, first, event, deck, text)
    }
}

/// Looks at the deck of a statement, if it has one, and tells whether it is refused.
fn check_statement(
    alloc: Global,
    sources: &Sources<'_>,
    known: Known<'_, '_, '_, '_, '_>,
    statement: &Statement<'_>,
    deck: Option<DeckRead>,
    text: &mut Vec<u8>,
) -> Result<bool, AllocError>
    ensures refused { IfOk result (λ refused. refused ≡ is_refused sources.now.units.now sources.now.library.now statement.now.says) }
    ensures added { OnOk result (AddsStatementOf sources.now known.entry deck statement.now text.old.items text.new.items) }
{
    match &statement.says {
        Says::Events(event, _) => {
            check_read(alloc, sources, known, statement.line, event, deck, text)
        }
        _ => Ok(false),
    }
}

/// Whether one of two things is so.
fn either(one: bool, other: bool) -> bool
    ensures { result ≡ (one || other) }
{
    one || other
}

/// One for what is so.
fn one(refused: bool) -> usize
    ensures number { result ≡ one refused }
    ensures bound { result ≤ 1 }
{
    if refused { 1 } else { 0 }
}

/// The first of these decks, if it is that of the statement at this place.
fn deck_for(decks: &[DeckRead], at: usize) -> Option<DeckRead>
    ensures { result ≡ deck_for decks.now at }
{
    match decks.split_first() {
        Some((deck, _)) if deck.statement == at => Some(*deck),
        _ => None,
    }
}

/// The decks of the statements behind this place.
fn decks_left<'a>(decks: &'a [DeckRead], at: usize) -> &'a [DeckRead]
    ensures { result.now ≡ decks_left decks.now at }
{
    match decks.split_first() {
        Some((deck, behind)) if deck.statement == at => behind,
        _ => decks,
    }
}

/// Looks at all decks, and tells whether one of them is refused, and how many are.
fn check_statements(
    alloc: Global,
    sources: &Sources<'_>,
    known: Known<'_, '_, '_, '_, '_>,
    statements: &[Statement<'_>],
    text: &mut Vec<u8>,
) -> Result<(bool, usize), AllocError>
    ensures refused { IfOk result (λ r. r.0 ≡ some_refused sources.now.units.now sources.now.library.now statements.now) }
    ensures counted { IfOk result (λ r. r.1 ≡ refused_decks sources.now.units.now sources.now.library.now statements.now) }
    ensures added { OnOk result (AddsStatementsOf sources.now known.entry statements.now text.old.items text.new.items) }
{
    let mut refused = false;
    let mut count = 0;
    let mut decks = known.answers.decks.as_slice();
    for (n, statement) in statements.iter().enumerate() {
        let deck = deck_for(decks, n);
        decks = decks_left(decks, n);
        let own = check_statement(alloc, sources, known, statement, deck, text)?;
        refused = either(refused, own);
        count += one(own);
    }
    Ok((refused, count))
}

/// Whether a job may fail, or has too many paths.
fn is_risk(answer: &Option<Answer>) -> bool
    ensures { result ≡ is_risk answer.now }
{
    matches!(answer, Some(Answer::Risk { .. } | Answer::TooMany(_)))
}

/// Whether one of the jobs may fail, or has too many paths.
fn some_risk(answers: &[Option<Answer>]) -> bool
    ensures { result ≡ list_any is_risk answers.now }
{
    answers.iter().any(is_risk)
}

/// How many of the jobs may fail, or have too many paths.
fn count_risks(answers: &[Option<Answer>]) -> usize
    ensures { result ≡ risks_in answers.now }
{
    let mut count = 0;
    for n in 0..answers.len() {
        count += one(is_risk(&answers[n]));
    }
    count
}

fn warnings_text(n: usize) -> &'static [u8]
    ensures { result.now ≡ warnings_text n }
{
    if n == 1 {
        b" warning\n"
    } else {
        b" warnings\n"
    }
}

/// Writes the last line.
fn push_sums(
    text: &mut Vec<u8>,
    refused: usize,
    risks: usize,
    warnings: usize,
) -> Result<(), AllocError>
    ensures { OnOk result (text.new.items ≡ text.old.items ++ sums_text refused risks warnings) }
{
    push_number(text, refused as u64)?;
    text.extend_from_slice(b" refused, ")?;
    push_number(text, risks as u64)?;
    text.extend_from_slice(b" at risk, ")?;
    push_number(text, warnings as u64)?;
    text.extend_from_slice(warnings_text(warnings))
}

/// The names of the units and of the procedures that a session configures.
#[derive(Drop)]
struct Names {
    units: Vec<Text>,
    procedures: Vec<Text>,
    /// The lines of the session on which the procedures begin.
    lines: Vec<usize>,
}

fn names_in(alloc: Global, statements: &[Statement<'_>]) -> Result<Names, AllocError> {
    let mut units = Vec::new(alloc);
    let mut procedures = Vec::new(alloc);
    let mut lines = Vec::new(alloc);
    for statement in statements {
        let Says::Config {
            statement: configured,
            ..
        } = &statement.says
        else {
            continue;
        };
        match configured.get() {
            ConfigStatement::Unit { name, .. } => {
                units.push(Text::copy_of(alloc, name.as_slice())?)?;
            }
            ConfigStatement::Procedure { name, .. } => {
                procedures.push(Text::copy_of(alloc, name.as_slice())?)?;
                lines.push(statement.line)?;
            }
            _ => {}
        }
    }
    Ok(Names {
        units,
        procedures,
        lines,
    })
}

/// Looks at the decks of a session whose configuration has no fault, behind what is found of it already.
fn check_opened(
    alloc: Global,
    known: &Known<'_, '_, '_, '_, '_>,
    statements: &[Statement<'_>],
    found: &mut Found,
) -> Result<(), AllocError>
    ensures text { OnOk result (AddsDecks known.now.fixed.now known.now.answers.now known.now.above statements.now found.old.text.items found.new.text.items) }
    ensures refused { OnOk result (found.new.refused ≡ (found.old.refused || has_refused known.now.fixed.now statements.now)) }
    ensures risk { OnOk result (found.new.at_risk ≡ list_any is_risk known.now.answers.now.by_job.items) }
{
    let names = names_in(alloc, statements)?;
    let sources = Sources {
        units: known.fixed.units.names(),
        library: &known.fixed.library,
        unit_names: names.units.as_slice(),
        procedure_names: names.procedures.as_slice(),
        procedure_lines: names.lines.as_slice(),
    };
    let (own, refused) = check_statements(alloc, &sources, *known, statements, &mut found.text)?;
    let warnings = count_warnings(alloc, found.text.as_slice())?;
    let jobs = known.answers.by_job.as_slice();
    push_sums(&mut found.text, refused, count_risks(jobs), warnings)?;
    found.refused = found.refused || own;
    found.at_risk = some_risk(jobs);
    Ok(())
}

/// What the jobs of a session that is opened are compared with.
fn site_of(
    alloc: Global,
    opened: &Opened,
    answers: &Answers,
    statements: &[Statement<'_>],
    options: Options,
    again: bool,
) -> Result<Site, AllocError> {
    let trials = trials_of(alloc, answers, statements, options, again)?;
    let given = if trials.is_empty() {
        Vec::new(alloc)
    } else {
        added_events(alloc, statements, options)?
    };
    let Names {
        units,
        procedures: _,
        lines: _,
    } = names_in(alloc, statements)?;
    Ok(Site {
        rooms: rooms_of(alloc, opened.store.volumes.as_slice())?,
        turns: turns_of(alloc, statements, opened.from)?,
        units,
        given,
        options,
        trials,
    })
}

/// Looks at the decks of a session that is opened. Its own fault, if it has one, is told first.
fn found_opened(
    alloc: Global,
    input: &[u8],
    opened: &Opened,
    above: usize,
    statements: &[Statement<'_>],
    options: Options,
    again: bool,
) -> Result<Found, AllocError>
    requires { IsOpened statements.now opened.now }
    ensures { IfOk result (IsLookedAt options above statements.now) }
{
    let answers = answers_of(alloc, statements, options)?;
    let site = site_of(alloc, opened, &answers, statements, options, again)?;
    let mut found = found_by(alloc, input, above, later_fault(opened, statements))?;
    let known = Known {
        fixed: &opened.fixed,
        answers: &answers,
        site: &site,
        statements,
        above,
    };
    check_opened(alloc, &known, statements, &mut found)?;
    Ok(found)
}

/// Looks at the decks of a session of this text, where so many lines are above a deck that stands alone. Its own fault, if it has one, is told first.
pub(crate) fn check_session(
    alloc: Global,
    input: &[u8],
    above: usize,
    statements: &[Statement<'_>],
    options: Options,
    again: bool,
) -> Result<Found, AllocError>
    ensures { IfOk result (IsFound options above statements.now) }
{
    match open(alloc, statements) {
        Ok(opened) => found_opened(alloc, input, &opened, above, statements, options, again),
        Err(why) => found_unopened(alloc, input, above, why),
    }
}
