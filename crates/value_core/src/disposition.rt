//! The DISP parameter. (GC28-6704, "DISP parameter")
ghost use Rattle.std.specs.Prelude.{◌≡◌, drop};
ghost use Rattle.value_core.specs.Dispositions.{conditional_of, disposition, place, status_of, word_of};
ghost use Rattle.value_core.specs.Reads.{IsRead};

use crate::reads::{both, with_fault};
use crate::set::Disposition;
use jcl_plan::fault::{Cause, StatementFault};
use jcl_plan::plan::{ConditionalWord, Status, Word};
use operand_core::fault::when;
use operand_core::places::Places;

fn status_of(text: &[u8]) -> Result<Status, Cause>
    ensures { IsRead result (status_of text.now) }
{
    match text {
        b"" | b"NEW" => Ok(Status::New),
        b"OLD" => Ok(Status::Old),
        b"SHR" => Ok(Status::Shr),
        b"MOD" => Ok(Status::Mod),
        _ => Err(Cause::P(StatementFault::BadValue)),
    }
}

fn word_of(text: &[u8]) -> Result<Option<Word>, Cause>
    ensures { IsRead result (word_of text.now) }
{
    match text {
        b"" => Ok(None),
        b"DELETE" => Ok(Some(Word::Delete)),
        b"KEEP" => Ok(Some(Word::Keep)),
        b"PASS" => Ok(Some(Word::Pass)),
        b"CATLG" => Ok(Some(Word::Catlg)),
        b"UNCATLG" => Ok(Some(Word::Uncatlg)),
        _ => Err(Cause::P(StatementFault::BadValue)),
    }
}

fn conditional_of(text: &[u8]) -> Result<Option<ConditionalWord>, Cause>
    ensures { IsRead result (conditional_of text.now) }
{
    match text {
        b"" => Ok(None),
        b"DELETE" => Ok(Some(ConditionalWord::Delete)),
        b"KEEP" => Ok(Some(ConditionalWord::Keep)),
        b"CATLG" => Ok(Some(ConditionalWord::Catlg)),
        b"UNCATLG" => Ok(Some(ConditionalWord::Uncatlg)),
        _ => Err(Cause::P(StatementFault::BadValue)),
    }
}

/// The next place, empty where there is none.
fn next_place<'a>(places: &mut Places<'a>) -> &'a [u8]
    ensures place { result.now ≡ place places.old 0 }
    ensures rest { places.new ≡ drop 1 places.old }
{
    match places.next() {
        Some(text) => text,
        None => &[],
    }
}

/// The words of DISP.
pub fn disposition(text: &[u8]) -> Result<Disposition, Cause>
    ensures { IsRead result (disposition text.now) }
{
    let mut places = Places::of_value(text);
    let status = status_of(next_place(&mut places));
    let normal = word_of(next_place(&mut places));
    let conditional = conditional_of(next_place(&mut places));
    let fourth = when(places.next().is_some(), Cause::P(StatementFault::BadValue));
    let words = both(status, both(normal, with_fault(conditional, fourth)));
    let (status, (normal, conditional)) = words?;
    Ok(Disposition {
        status,
        normal,
        conditional,
    })
}
