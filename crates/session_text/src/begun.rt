//! A block as far as its lines are taken.
ghost use Rattle.std.specs.Prelude.{◌≡◌, not, IfOk, OnOk};
ghost use Rattle.session_text.specs.Begun.{begun_of, has_request, is_kept, lines_of_block, lines_told, lines_told_open, lines_with, program_told, program_with, records_with, told_at_end, told_cut, told_open, with_line};
ghost use Rattle.session_text.specs.Records.{is_no_record, record_in};
ghost use Rattle.session_text.specs.declared.statement.Says.TheVariants as says;

use crate::fault::Fault;
use crate::programs::{is_ending, request_of};
use crate::sets::is_no_record;
use crate::statement::{Block, Ending, Says};
use boxed_core::Boxed;
use jname_core::name8::Name8;
use kept_requests::requests::{Requests, SharedRequests};
use plain::lent::Lent;
use plain::listed::Listed;
use session_input::event::Event;
use session_input::statement::{ConfigStatement, SetStatement};
use set_core::records::Records;
use std::alloc::{AllocError, Global};

/// The requests of a program so far, and whether the last of them is its end.
#[derive(Drop)]
pub(crate) struct ProgramLines {
    pub(crate) name: Name8,
    pub(crate) requests: Requests,
    pub(crate) ended: bool,
}

/// What the lines of a block gave.
#[derive(Drop)]
pub(crate) enum BlockLines<'a> {
    Deck(Listed<Lent<'a>>),
    Procedure {
        name: Name8,
        lines: Listed<Lent<'a>>,
    },
    Set(SetStatement),
    Program(ProgramLines),
}

/// A block as far as its lines are taken: what they gave, or its fault, behind which no line is kept.
#[derive(Drop)]
pub(crate) struct Begun<'a> {
    pub(crate) lines: BlockLines<'a>,
    pub(crate) fault: Option<Fault>,
}

/// What no line gives.
fn lines_of_block<'a>(alloc: Global, block: &Block) -> BlockLines<'a>
    ensures { result ≡ lines_of_block block.now }
{
    match block {
        Block::Deck => BlockLines::Deck(Listed::empty(alloc)),
        Block::Procedure(name) => BlockLines::Procedure {
            name: *name,
            lines: Listed::empty(alloc),
        },
        Block::Set(boxed) => {
            let set = boxed.get();
            BlockLines::Set(SetStatement {
                name: set.name,
                serial: set.serial,
                tracks: set.tracks,
                catalogued: set.catalogued,
                expires: set.expires,
                records: Records::new(alloc),
            })
        }
        Block::Program(name) => BlockLines::Program(ProgramLines {
            name: *name,
            requests: Requests::new(alloc),
            ended: false,
        }),
        Block::Faulty(_) => BlockLines::Deck(Listed::empty(alloc)),
    }
}

/// The block with no line yet.
pub(crate) fn opened<'a>(alloc: Global, block: &Block) -> Begun<'a>
    ensures { result ≡ begun_of block.now }
{
    let lines = lines_of_block(alloc, block);
    match block {
        Block::Faulty(own) => Begun {
            lines,
            fault: Some(*own),
        },
        _ => Begun { lines, fault: None },
    }
}

/// Puts the request of a line behind the others, where it spells one and none ended them, and tells whether it did.
fn push_request(program: &mut ProgramLines, line: &[u8]) -> Result<bool, AllocError>
    ensures kept { IfOk result (λ kept. kept ≡ has_request program.old line.now) }
    ensures lines { OnOk result (program.new ≡ program_with program.old line.now) }
{
    if program.ended {
        return Ok(false);
    }
    let Some(request) = request_of(line) else {
        return Ok(false);
    };
    let ended = is_ending(&request);
    program.requests.push(request)?;
    program.ended = ended;
    Ok(true)
}

/// Puts the record of a line behind the others, where it spells one, and tells whether it did.
fn push_record(records: &mut Records, line: &[u8]) -> Result<bool, AllocError>
    ensures kept { IfOk result (λ kept. kept ≡ not (is_no_record line.now)) }
    ensures records { OnOk result (records.new ≡ records_with records.old (record_in line.now)) }
{
    if is_no_record(line) {
        return Ok(false);
    }
    records.append_text(line)?;
    Ok(true)
}

/// Puts a line behind the others, where it is of their form, and tells whether it did.
fn push_line<'a>(lines: &mut BlockLines<'a>, line: &'a [u8]) -> Result<bool, AllocError>
    ensures kept { IfOk result (λ kept. kept ≡ is_kept lines.old line.now) }
    ensures lines { OnOk result (lines.new ≡ lines_with lines.old line.now) }
{
    match lines {
        BlockLines::Deck(cards) => {
            cards.push(Lent::new(line))?;
            Ok(true)
        }
        BlockLines::Procedure { lines: cards, .. } => {
            cards.push(Lent::new(line))?;
            Ok(true)
        }
        BlockLines::Set(set) => push_record(&mut set.records, line),
        BlockLines::Program(program) => push_request(program, line),
    }
}

/// Takes one line more.
pub(crate) fn take_line<'a>(begun: &mut Begun<'a>, line: &'a [u8]) -> Result<(), AllocError>
    ensures { OnOk result (begun.new ≡ with_line begun.old line.now) }
{
    if begun.fault.is_some() {
        return Ok(());
    }
    if !push_line(&mut begun.lines, line)? {
        begun.fault = Some(Fault::BadValue);
    }
    Ok(())
}

/// Configuration that a block holds, and whether the block has an END.
fn config_told<'a>(
    alloc: Global,
    statement: ConfigStatement<'a>,
    has_end: bool,
) -> Result<Says<'a>, AllocError>
    ensures { IfOk result (λ s. s ≡ says.Config statement.entry has_end) }
{
    Ok(Says::Config {
        statement: Boxed::new(alloc, statement)?,
        has_end,
    })
}

fn program_told<'a>(
    alloc: Global,
    program: ProgramLines,
    has_end: bool,
) -> Result<Says<'a>, AllocError>
    ensures { IfOk result (λ s. s ≡ program_told program has_end) }
{
    let ProgramLines {
        name,
        requests,
        ended,
    } = program;
    if ended {
        let requests = SharedRequests::new(alloc, requests)?;
        config_told(alloc, ConfigStatement::Program { name, requests }, has_end)
    } else {
        Ok(Says::Refused(Fault::BadValue))
    }
}

fn lines_told<'a>(alloc: Global, lines: BlockLines<'a>) -> Result<Says<'a>, AllocError>
    ensures { IfOk result (λ s. s ≡ lines_told lines.entry) }
{
    match lines {
        BlockLines::Deck(cards) => Ok(Says::Events(Event::Read(Boxed::new(alloc, cards)?), 1)),
        BlockLines::Procedure { name, lines: cards } => config_told(
            alloc,
            ConfigStatement::Procedure { name, lines: cards },
            true,
        ),
        BlockLines::Set(set) => config_told(alloc, ConfigStatement::Set(set), true),
        BlockLines::Program(program) => program_told(alloc, program, true),
    }
}

fn lines_told_open<'a>(alloc: Global, lines: BlockLines<'_>) -> Result<Says<'a>, AllocError>
    ensures { IfOk result (λ s. s ≡ lines_told_open lines.entry) }
{
    match lines {
        BlockLines::Deck(_cards) => Ok(Says::Refused(Fault::NoEnd)),
        BlockLines::Procedure {
            name,
            lines: _cards,
        } => config_told(
            alloc,
            ConfigStatement::Procedure {
                name,
                lines: Listed::empty(alloc),
            },
            false,
        ),
        BlockLines::Set(set) => config_told(alloc, ConfigStatement::Set(set), false),
        BlockLines::Program(program) => program_told(alloc, program, false),
    }
}

/// What a block says at its END.
pub(crate) fn told_at_end<'a>(alloc: Global, begun: Begun<'a>) -> Result<Says<'a>, AllocError>
    ensures { IfOk result (λ s. s ≡ told_at_end begun.entry) }
{
    let Begun { lines, fault } = begun;
    match fault {
        Some(own) => Ok(Says::Refused(own)),
        None => lines_told(alloc, lines),
    }
}

/// What a block says that the end of a whole text leaves open.
fn told_open<'a>(alloc: Global, begun: Begun<'_>) -> Result<Says<'a>, AllocError>
    ensures { IfOk result (λ s. s ≡ told_open begun.entry) }
{
    let Begun { lines, fault } = begun;
    match fault {
        Some(own) => Ok(Says::Refused(own)),
        None => lines_told_open(alloc, lines),
    }
}

/// What a block says that the text's end leaves open.
pub(crate) fn told_cut<'a>(
    alloc: Global,
    ending: Ending,
    begun: Begun<'_>,
) -> Result<Says<'a>, AllocError>
    ensures { IfOk result (λ s. s ≡ told_cut ending begun.entry) }
{
    match ending {
        Ending::Whole => told_open(alloc, begun),
        Ending::TooLong => Ok(Says::Refused(Fault::TooLong)),
        Ending::ReadFailed => Ok(Says::Refused(Fault::ReadFailed)),
    }
}
