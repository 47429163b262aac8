//! The places of a value in parentheses.
ghost use Rattle.std.specs.Prelude.{◌≡◌, ◌≤◌, length, false};
ghost use Rattle.operand_core.specs.Operands.{places_of};
ghost use Rattle.operand_core.specs.Subparameters.{closes_last, first_place, inside, is_wrapped, subparameters_of};

use crate::parts::first_part;
use crate::scan::{depth_after, quoted_after};

/// Whether the parenthesis that is open closes with the last character, and not before.
fn closes_last(text: &[u8]) -> bool
    ensures { result ≡ closes_last false 1 text.now }
{
    let mut quoted = false;
    let mut depth = 1;
    let mut rest = text;
    while let Some((c, behind)) = rest.split_first() {
        let closes = !quoted && depth == 1 && *c == b')';
        if behind.is_empty() {
            return closes;
        }
        if closes {
            return false;
        }
        depth = depth_after(quoted, depth, *c);
        quoted = quoted_after(quoted, *c);
        rest = behind;
    }
    false
}

/// Whether one pair of parentheses stands round a text.
pub fn is_wrapped(text: &[u8]) -> bool
    ensures { result ≡ is_wrapped text.now }
{
    match text.split_first() {
        Some((c, behind)) => *c == b'(' && closes_last(behind),
        None => false,
    }
}

/// What stands within the parentheses of a text.
pub fn inside(text: &[u8]) -> &[u8]
    requires { 2 ≤ length text.now }
    ensures { result.now ≡ inside text.now }
{
    let (_, behind) = text.split_at(1);
    let (inside, _) = behind.split_at(behind.len() - 1);
    inside
}

/// How many places stand between commas.
fn place_count(text: &[u8]) -> usize
    ensures { result ≡ length (places_of text.now) }
{
    let mut count = 1;
    let mut rest = text;
    while let Some((_, behind)) = first_part(rest) {
        count += 1;
        rest = behind;
    }
    count
}

/// How many places a value has, 1 where it stands in no parentheses.
pub fn subparameter_count(value: &[u8]) -> usize
    ensures { result ≡ length (subparameters_of value.now) }
{
    if is_wrapped(value) {
        place_count(inside(value))
    } else {
        1
    }
}

/// The first place of a value, or the whole of one that stands in no parentheses.
pub fn first_subparameter(value: &[u8]) -> &[u8]
    ensures { result.now ≡ first_place (subparameters_of value.now) }
{
    if !is_wrapped(value) {
        return value;
    }
    let text = inside(value);
    match first_part(text) {
        Some((first, _)) => first,
        None => text,
    }
}
