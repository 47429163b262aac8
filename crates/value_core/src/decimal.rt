//! Numbers in decimal digits that may be larger than is asked for.
ghost use Rattle.std.specs.Prelude.{◌≡◌, min};
ghost use Rattle.std.specs.List.{list_all};
ghost use Rattle.jname_core.specs.Characters.{is_digit};
ghost use Rattle.jname_core.specs.Decimals.{decimal_value};
ghost use Rattle.value_core.specs.Capped.{capped};

use jname_core::character::is_digit;

pub(crate) fn are_digits(text: &[u8]) -> bool
    ensures { result ≡ list_all is_digit text.now }
{
    text.iter().all(|c| is_digit(*c))
}

/// The value of digits, or 30,000,000 where it is above that: so many tracks, cylinders or blocks are too many.
fn capped_value(digits: &[u8]) -> u32
    ensures { result ≡ min 30000000 (decimal_value digits.now) }
{
    let mut value = 0;
    for c in digits {
        value = (10 * value + u32::from(c.saturating_sub(b'0'))).min(30_000_000);
    }
    value
}

/// The number that the text is in decimal, or 30,000,000 where it is above that.
pub(crate) fn capped(text: &[u8]) -> Option<u32>
    ensures { result ≡ capped text.now }
{
    if text.is_empty() || !are_digits(text) {
        None
    } else {
        Some(capped_value(text))
    }
}
