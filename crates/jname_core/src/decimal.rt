//! Numbers in decimal digits.
ghost use Rattle.std.specs.Prelude.{◌≡◌, ◌≤◌, ◌^◌, IfSome, min};
ghost use Rattle.std.specs.List.{list_all};
ghost use Rattle.jname_core.specs.Characters.{is_digit};
ghost use Rattle.jname_core.specs.Decimals.{decimal_value, is_decimal, number_within};

use crate::character::is_digit;

/// The value of digits, or this one where it is above that.
fn capped_value(digits: &[u8], cap: u64) -> u64
    requires { cap ≤ 2 ^ 32 }
    ensures { result ≡ min cap (decimal_value digits.now) }
{
    let mut value = 0;
    for c in digits {
        value = (10 * value + u64::from(c.saturating_sub(b'0'))).min(cap);
    }
    value
}

fn are_digits(text: &[u8]) -> bool
    ensures { result ≡ list_all is_digit text.now }
{
    text.iter().all(|c| is_digit(*c))
}

fn is_decimal(text: &[u8]) -> bool
    ensures { result ≡ is_decimal text.now }
{
    !text.is_empty() && are_digits(text)
}

/// The number that the text is in decimal, where it lies within these; zeros may stand before it.
pub fn long_number_within(low: u32, high: u32, text: &[u8]) -> Option<u32>
    ensures value { result ≡ number_within low high text.now }
    ensures bound { IfSome result (λ n. n ≤ high) }
{
    if !is_decimal(text) {
        return None;
    }
    let value = capped_value(text, u64::from(high) + 1);
    if u64::from(low) <= value && value <= u64::from(high) {
        Some(value as u32)
    } else {
        None
    }
}

/// The same, of a number below 65,536.
pub fn number_within(low: u16, high: u16, text: &[u8]) -> Option<u16>
    ensures value { result ≡ number_within low high text.now }
    ensures bound { IfSome result (λ n. n ≤ high) }
{
    match long_number_within(u32::from(low), u32::from(high), text) {
        None => None,
        Some(number) => Some(number as u16),
    }
}
