//! Lines to statements.
ghost use Rattle.std.specs.Prelude.{◌≡◌, ◌≤◌, ◌+◌, ◌++◌, ◌∷◌, [], drop, length, position, take, IfNone, IfOk, IfSome, None, OnOk, Some};
ghost use Rattle.session_text.specs.Blocks.{block_says, open_says};
ghost use Rattle.session_text.specs.Lines.{lines_of};
ghost use Rattle.session_text.specs.Statements.{TakesBlock, TakesStatement, at_end, block_with, is_end, statements_from, statements_of};

use crate::begun::{opened, take_line, told_at_end, told_cut};
use crate::fault::Fault;
use crate::lines::next_line;
use crate::says::line_says;
use crate::statement::{Block, Ending, LineSays, Says, Statement};
use plain::listed::Listed;
use std::alloc::{AllocError, Global};

/// Lines that are not taken yet, and the number of the first of them.
#[derive(Clone, Copy)]
struct Place<'a> {
    rest: &'a [u8],
    line: usize,
}

/// The END of a block: how many lines stand before it, and what stands behind it.
#[derive(Clone, Copy)]
struct End<'a> {
    count: usize,
    behind: &'a [u8],
}

/// What a block says, and its END, where it has one.
#[derive(Drop)]
struct Taken<'a> {
    says: Says<'a>,
    end: Option<End<'a>>,
}

/// The block up to the first END, or up to the text's end.
fn block_in<'a>(
    alloc: Global,
    text: &'a [u8],
    block: &Block,
    ending: Ending,
) -> Result<Taken<'a>, AllocError>
    ensures end { IfOk result (λ t. IfSome t.end (λ e. position is_end (lines_of ending text.now) ≡ Some e.count)) }
    ensures says { IfOk result (λ t. IfSome t.end (λ e. t.says ≡ block_says block.now (take e.count (lines_of ending text.now)))) }
    ensures behind { IfOk result (λ t. IfSome t.end (λ e. lines_of ending e.behind.now ≡ drop (e.count + 1) (lines_of ending text.now))) }
    ensures bound { IfOk result (λ t. IfSome t.end (λ e. e.count + 1 + length e.behind.now ≤ length text.now)) }
    ensures none { IfOk result (λ t. IfNone t.end (position is_end (lines_of ending text.now) ≡ None)) }
    ensures left { IfOk result (λ t. IfNone t.end (t.says ≡ open_says ending block.now (lines_of ending text.now))) }
{
    let mut begun = opened(alloc, block);
    let mut rest = text;
    let mut count = 0;
    while let Some((row, behind)) = next_line(rest, ending) {
        if row.is_end() {
            let says = told_at_end(alloc, begun)?;
            let end = Some(End { count, behind });
            return Ok(Taken { says, end });
        }
        take_line(&mut begun, row.bytes)?;
        count += 1;
        rest = behind;
    }
    let says = told_cut(alloc, ending, begun)?;
    Ok(Taken { says, end: None })
}

/// Puts a block behind the statements, which begins at this line and before this text, and tells what stands behind it. With `None` it was the last.
fn push_block<'a>(
    alloc: Global,
    out: &mut Listed<Statement<'a>>,
    text: &'a [u8],
    line: usize,
    block: &Block,
    ending: Ending,
) -> Result<Option<Place<'a>>, AllocError>
    requires { line + length text.now + 1 ≤ usize.MAX }
    ensures next { IfOk result (λ r. IfSome r (λ next. TakesBlock ending out.old line block.now text.now out.new next.line next.rest.now)) }
    ensures last { IfOk result (λ r. IfNone r (out.new ≡ out.old ++ block_with ending line block.now (lines_of ending text.now))) }
    ensures lines { IfOk result (λ r. IfSome r (λ next. next.line + length next.rest.now ≤ line + 1 + length text.now)) }
    ensures shorter { IfOk result (λ r. IfSome r (λ next. length next.rest.now ≤ length text.now)) }
{
    let Taken { says, end } = block_in(alloc, text, block, ending)?;
    out.push(Statement { line, says })?;
    match end {
        None => Ok(None),
        Some(end) => Ok(Some(Place {
            rest: end.behind,
            line: line + end.count + 2,
        })),
    }
}

/// Puts what begins with a line behind the statements, and tells what stands behind it. With `None` it was the last.
fn push_statement<'a>(
    alloc: Global,
    out: &mut Listed<Statement<'a>>,
    row: &[u8],
    text: &'a [u8],
    line: usize,
    ending: Ending,
) -> Result<Option<Place<'a>>, AllocError>
    requires { line + length text.now + 1 ≤ usize.MAX }
    ensures next { IfOk result (λ r. IfSome r (λ next. TakesStatement ending out.old line row.now text.now out.new next.line next.rest.now)) }
    ensures last { IfOk result (λ r. IfNone r (out.new ≡ out.old ++ statements_from ending line (row.now ∷ lines_of ending text.now))) }
    ensures lines { IfOk result (λ r. IfSome r (λ next. next.line + length next.rest.now ≤ line + 1 + length text.now)) }
    ensures shorter { IfOk result (λ r. IfSome r (λ next. length next.rest.now ≤ length text.now)) }
{
    let behind = Place {
        rest: text,
        line: line + 1,
    };
    match line_says(alloc, row)? {
        LineSays::Blank => Ok(Some(behind)),
        LineSays::One(says) => {
            out.push(Statement { line, says })?;
            Ok(Some(behind))
        }
        LineSays::Opens(block) => push_block(alloc, out, text, line, &block, ending),
    }
}

/// Puts the fault behind the statements that stands where the text was cut.
fn push_end(out: &mut Listed<Statement<'_>>, line: usize, ending: Ending) -> Result<(), AllocError>
    ensures { OnOk result (out.new ≡ out.old ++ at_end ending line) }
{
    match ending {
        Ending::Whole => {}
        Ending::TooLong => out.push(Statement {
            line,
            says: Says::Refused(Fault::TooLong),
        })?,
        Ending::ReadFailed => out.push(Statement {
            line,
            says: Says::Refused(Fault::ReadFailed),
        })?,
    }
    Ok(())
}

/// The statements of a text.
pub fn statements<'a>(
    alloc: Global,
    text: &'a [u8],
    ending: Ending,
) -> Result<Listed<Statement<'a>>, AllocError>
    ensures { IfOk result (λ v. v ≡ statements_of ending text.now) }
{
    let mut out = Listed::empty(alloc);
    let mut rest = text;
    let mut line = 1;
    while let Some((row, behind)) = next_line(rest, ending) {
        match push_statement(alloc, &mut out, row.bytes, behind, line, ending)? {
            Some(next) => {
                rest = next.rest;
                line = next.line;
            }
            None => return Ok(out),
        }
    }
    push_end(&mut out, line, ending)?;
    Ok(out)
}
