//! The DSNAME parameter. (GC28-6704, "DSNAME parameter")
ghost use Rattle.std.specs.Prelude.{◌≡◌, ◌≤◌, length};
ghost use Rattle.std.specs.Option.{option_copied};
ghost use Rattle.operand_core.specs.Faults.{told};
ghost use Rattle.value_core.specs.Reads.{IsRead};
ghost use Rattle.value_core.specs.SetNames.{amount, base, before_parenthesis, begins_amount, behind_ampersands, digits_of, ds_name, is_signed, key_of, member_faults, named_part, of_dd, of_key, plain, relative, set_name, sign_of, sign_with, temporary, within_parentheses};

use crate::decimal::capped;
use crate::reads::{both, name, with_fault};
use crate::reference::{dd_reference, is_reference};
use crate::set::SetName;
use jcl_plan::fault::{Cause, StatementFault};
use jname_core::character::is_digit;
use jname_core::ds_name::{DsName, read_base, read_ds_name};
use jname_core::key::{Key, Sign};
use operand_core::fault::name_fault;
use operand_core::value::value_or_nothing;

/// The most generations that an amount counts.
const MOST_GENERATIONS: u32 = 255;

/// How many characters stand before the first parenthesis.
fn name_len(text: &[u8]) -> usize
    ensures count { result ≡ length (before_parenthesis text.now) }
    ensures bound { result ≤ length text.now }
{
    text.iter().take_while(|c| **c != b'(').count()
}

/// What stands before the first parenthesis, and within it where it closes at the end; else the whole text.
fn split_name(text: &[u8]) -> (&[u8], Option<&[u8]>)
    ensures name { result.0.now ≡ named_part text.now }
    ensures within { option_copied result.1 ≡ within_parentheses text.now }
{
    let (before, behind) = text.split_at(name_len(text));
    let Some((last, inside)) = behind.split_last() else {
        return (text, None);
    };
    if *last != b')' {
        return (text, None);
    }
    match inside.split_first() {
        Some((_, within)) => (before, Some(within)),
        None => (text, None),
    }
}

/// The fault of what stands in parentheses behind a name, where it is no amount.
fn member_fault(within: Option<&[u8]>) -> Option<Cause>
    ensures { result ≡ told (member_faults (option_copied within.entry)) }
{
    let member = within?;
    match name_fault(member) {
        None => Some(Cause::P(StatementFault::MemberName)),
        Some(_) => Some(Cause::P(StatementFault::BadValue)),
    }
}

/// What stands behind one ampersand or two.
fn behind_ampersands(text: &[u8]) -> &[u8]
    ensures { result.now ≡ behind_ampersands text.now }
{
    match text {
        [b'&', b'&', behind @ ..] => behind,
        [_, behind @ ..] => behind,
        [] => &[],
    }
}

fn temporary(text: &[u8], within: Option<&[u8]>) -> Result<Key, Cause>
    ensures { IsRead result (temporary text.now (option_copied within.entry)) }
{
    let name = with_fault(name(text), member_fault(within))?;
    Ok(Key::Temporary(name))
}

/// Whether a sign or a digit stands first in parentheses.
fn begins_amount(within: Option<&[u8]>) -> bool
    ensures { result ≡ begins_amount (option_copied within.entry) }
{
    match within {
        Some([c, ..]) => *c == b'+' || *c == b'-' || is_digit(*c),
        _ => false,
    }
}

fn sign_of(text: &[u8]) -> Sign
    ensures { result ≡ sign_of text.now }
{
    match text {
        [b'-', ..] => Sign::Minus,
        _ => Sign::Plus,
    }
}

/// The sign of a number: 0 is the newest, whatever sign stands before it.
fn sign_with(text: &[u8], number: u32) -> Sign
    ensures { result ≡ sign_with text.now number }
{
    if number == 0 {
        Sign::Plus
    } else {
        sign_of(text)
    }
}

fn is_signed(text: &[u8]) -> bool
    ensures { result ≡ is_signed text.now }
{
    match text {
        [c, ..] => *c == b'+' || *c == b'-',
        [] => false,
    }
}

/// What stands behind the sign, where there is one.
fn digits_of(text: &[u8]) -> &[u8]
    ensures { result.now ≡ digits_of text.now }
{
    match text.split_first() {
        Some((_, digits)) if is_signed(text) => digits,
        _ => text,
    }
}

/// The sign and the number of a relative generation, to 255.
fn amount(text: &[u8]) -> Result<(Sign, u8), Cause>
    ensures { IsRead result (amount text.now) }
{
    let Some(number) = capped(digits_of(text)) else {
        return Err(Cause::P(StatementFault::BadValue));
    };
    if number > MOST_GENERATIONS {
        return Err(Cause::N(4));
    }
    let needs_sign = number > 0;
    if needs_sign && !is_signed(text) {
        return Err(Cause::P(StatementFault::BadValue));
    }
    Ok((sign_with(text, number), number as u8))
}

fn base(text: &[u8]) -> Result<DsName, Cause>
    ensures { IsRead result (base text.now) }
{
    match read_base(text) {
        Ok(base) => Ok(base),
        Err(fault) => Err(Cause::N(fault.number())),
    }
}

fn relative(text: &[u8], within: &[u8]) -> Result<Key, Cause>
    ensures { IsRead result (relative text.now within.now) }
{
    let (base, (sign, amount)) = both(base(text), amount(within))?;
    Ok(Key::Relative { base, sign, amount })
}

/// The data set name that the text is.
pub(crate) fn ds_name(text: &[u8]) -> Result<DsName, Cause>
    ensures { IsRead result (ds_name text.now) }
{
    match read_ds_name(text) {
        Ok(name) => Ok(name),
        Err(fault) => Err(Cause::N(fault.number())),
    }
}

fn plain(text: &[u8], within: Option<&[u8]>) -> Result<Key, Cause>
    ensures { IsRead result (plain text.now (option_copied within.entry)) }
{
    let name = with_fault(ds_name(text), member_fault(within))?;
    Ok(Key::Named(name))
}

fn key_of(text: &[u8]) -> Result<Key, Cause>
    ensures { IsRead result (key_of text.now) }
{
    let (name, within) = split_name(text);
    if text.starts_with(b"&") {
        return temporary(behind_ampersands(name), within);
    }
    if !begins_amount(within) {
        return plain(name, within);
    }
    relative(name, value_or_nothing(within))
}

fn of_dd(text: &[u8]) -> Result<SetName, Cause>
    ensures { IsRead result (of_dd text.now) }
{
    let dd = dd_reference(text)?;
    Ok(SetName::OfDd(dd))
}

fn of_key(text: &[u8]) -> Result<SetName, Cause>
    ensures { IsRead result (of_key text.now) }
{
    let key = key_of(text)?;
    Ok(SetName::Of(key))
}

/// What DSNAME names.
pub fn set_name(text: &[u8]) -> Result<SetName, Cause>
    ensures { IsRead result (set_name text.now) }
{
    if text == b"NULLFILE".as_slice() {
        return Ok(SetName::Null);
    }
    if is_reference(text) {
        return of_dd(text);
    }
    of_key(text)
}
