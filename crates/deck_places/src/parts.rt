//! The part of its operand for which a statement is refused.
ghost use Rattle.std.specs.Prelude.{◌≡◌, ◌<◌, ◌+◌, IfOk, length};
ghost use Rattle.jcl_deck.specs.Places.{denoted};
ghost use Rattle.operand_core.specs.Operands.{places_of};
ghost use Rattle.deck_places.specs.Parts.{IsPart, joined, start_of, statement_without, without};

use crate::copies::copy_of;
use crate::same::is_same;
use card_core::statement::Statement;
use jcl_deck::place::Place;
use jcl_plan::fault::Cause;
use operand_core::places::Places;
use plain::lent::Lent;
use plain::small::SmallText;
use plain::text::Text;
use std::alloc::{AllocError, Global};
use value_core::refusal::ReadError;

/// As many parts as an operand may have that is not too long to be read.
const MOST_PARTS: usize = 1_025;

/// The parts of an operand.
pub(crate) fn parts_of<'a>(alloc: Global, operand: &'a [u8]) -> Result<Vec<Lent<'a>>, AllocError>
    ensures { IfOk result (λ parts. parts.items ≡ places_of operand.now) }
{
    let mut parts = Vec::new(alloc);
    let mut places = Places::of_text(operand);
    while let Some(part) = places.next() {
        parts.push(Lent::new(part))?;
    }
    Ok(parts)
}

/// Parts with a comma between each two.
fn joined(alloc: Global, parts: &[Lent<'_>]) -> Result<Text, AllocError>
    ensures { IfOk result (λ text. text ≡ joined parts.now) }
{
    let mut text = Vec::new(alloc);
    let Some((first, behind)) = parts.split_first() else {
        return Ok(Text::new(text));
    };
    text.extend_from_slice(first.as_slice())?;
    for part in behind {
        text.push(b',')?;
        text.extend_from_slice(part.as_slice())?;
    }
    Ok(Text::new(text))
}

/// An operand without one of its parts.
fn without(alloc: Global, parts: &[Lent<'_>], n: usize) -> Result<Text, AllocError>
    requires { n < length parts.now }
    ensures { IfOk result (λ text. text ≡ without parts.now n) }
{
    let mut left = Vec::new(alloc);
    for part in parts {
        left.push(Lent::new(part.as_slice()))?;
    }
    left.remove(n);
    joined(alloc, left.as_slice())
}

/// A statement without a part of its operand.
fn statement_without(
    alloc: Global,
    statement: &Statement,
    parts: &[Lent<'_>],
    n: usize,
) -> Result<Statement, AllocError>
    requires parts { parts.now ≡ places_of statement.now.operand }
    requires there { n < length parts.now }
    ensures { IfOk result (λ changed. changed ≡ statement_without n statement.now) }
{
    let mut changed = copy_of(alloc, statement)?;
    let operand = without(alloc, parts, n)?;
    changed.operand = SmallText::new(operand.into_bytes());
    Ok(changed)
}

/// The first part of a statement's operand without which it is refused otherwise, or not at all.
pub(crate) fn refused_part(
    alloc: Global,
    place: Place,
    statement: &Statement,
    parts: &[Lent<'_>],
    cause: Cause,
) -> Result<Option<usize>, AllocError>
    requires { parts.now ≡ places_of statement.now.operand }
    ensures { IfOk result (IsPart (denoted place) statement.now cause) }
{
    if parts.len() > MOST_PARTS {
        return Ok(None);
    }
    let mut place = place;
    for n in 0..parts.len() {
        let changed = statement_without(alloc, statement, parts, n)?;
        match place.take(alloc, changed) {
            Ok(()) => return Ok(Some(n)),
            Err(ReadError::Memory) => return Err(AllocError),
            Err(ReadError::Refused(other)) => {
                if !is_same(other, cause) {
                    return Ok(Some(n));
                }
            }
        }
    }
    Ok(None)
}

/// Where the next part begins.
fn next_start(start: usize, len: usize) -> Result<usize, AllocError>
    ensures { IfOk result (λ next. next ≡ start + (len + 1)) }
{
    let Some(more) = len.checked_add(1) else {
        return Err(AllocError);
    };
    match start.checked_add(more) {
        Some(next) => Ok(next),
        None => Err(AllocError),
    }
}

/// Where a part begins in its operand.
pub(crate) fn start_of(parts: &[Lent<'_>], n: usize) -> Result<usize, AllocError>
    requires { n < length parts.now }
    ensures { IfOk result (λ start. start ≡ start_of parts.now n) }
{
    let mut start = 0;
    for m in 0..n {
        start = next_start(start, parts[m].as_slice().len())?;
    }
    Ok(start)
}
