//! The keywords among the places of a value.
ghost use Rattle.std.specs.Prelude.{◌≡◌, ◌||◌, ◌&&◌, nat_lt, min};
ghost use Rattle.operand_core.specs.Faults.{told};
ghost use Rattle.operand_core.specs.Operands.{keyword_of};
ghost use Rattle.operand_core.specs.Subparameters.{subparameters_of};
ghost use Rattle.value_core.specs.Places.{counts_faults, has_key, times, together_faults};

use jcl_plan::fault::{Cause, StatementFault};
use operand_core::fault::{earlier, when};
use operand_core::parts::keyword_of;
use operand_core::places::Places;

/// Whether a place has this keyword.
fn has_key(key: &[u8], place: &[u8]) -> bool
    ensures { result ≡ has_key key.now (keyword_of place.now) }
{
    match keyword_of(place) {
        None => false,
        Some((found, _)) => found == key,
    }
}

/// How many places of a value have this keyword.
fn times(key: &[u8], text: &[u8]) -> usize
    ensures { result ≡ min 18446744073709551615 (times key.now (subparameters_of text.now)) }
{
    let mut count: usize = 0;
    let mut places = Places::of_value(text);
    while let Some(place) = places.next() {
        if has_key(key, place) {
            count = count.saturating_add(1);
        }
    }
    count
}

fn is_twice(one: usize, other: usize) -> bool
    ensures { result ≡ (nat_lt 1 one || nat_lt 1 other) }
{
    one > 1 || other > 1
}

fn are_both(one: usize, other: usize) -> bool
    ensures { result ≡ (nat_lt 0 one && nat_lt 0 other) }
{
    one > 0 && other > 0
}

/// The fault of two keywords that exclude one another and stand so often.
#[tactic(auto, using(operand_core::proofs::Told::told_append))]
fn counts_fault(one: usize, other: usize) -> Option<Cause>
    ensures { result ≡ told (counts_faults one other) }
{
    let twice = when(is_twice(one, other), Cause::P(StatementFault::KeywordTwice));
    let both = when(
        are_both(one, other),
        Cause::P(StatementFault::ExcludeOneAnother),
    );
    earlier(twice, both)
}

/// The fault of two keywords of a value, where one stands twice or both stand.
pub(crate) fn together_fault(one: &[u8], other: &[u8], text: &[u8]) -> Option<Cause>
    ensures { result ≡ told (together_faults one.now other.now (subparameters_of text.now)) }
{
    counts_fault(times(one, text), times(other, text))
}
