//! Operands with the values of symbols. (GC28-6704, "Symbolic parameters")
ghost use Rattle.std.specs.Prelude.{◌≡◌, ◌≤◌, ◌∷◌, ◌++◌, ◌&&◌, false, [], IfOk, OnOk, MatchOption, codes, length, nat_eq, nat_lt, not, if◌then◌else◌};
ghost use Rattle.std.specs.List.{list_any, starts_with};
ghost use Rattle.operand_core.specs.Operands.{keyword_of, places_of};
ghost use Rattle.value_core.specs.Reads.{Gives, answer};
ghost use Rattle.jcl_symbols.specs.Substitutions.{begins_symbol, is_set_name, lacks_value, nothing, substituted, substituted_in, text_with};
ghost use Rattle.jcl_symbols.specs.Writing.{Stores, Writes, WritesNext, without_period, WritesSymbol};

use crate::symbol::Symbol;
use crate::symbols::{Symbols, name_len};
use crate::writing::{MOST_CHARACTERS, is_over, write, write_character, write_value};
use jcl_plan::fault::{Cause, StatementFault};
use operand_core::keyword::is_long;
use operand_core::parts::keyword_of;
use operand_core::places::Places;
use operand_core::scan::quoted_after;
use plain::text::Text;
use std::alloc::{AllocError, Global};
use value_core::refusal::ReadError;

/// What stands behind a symbol: a period is dropped where the symbol has a value.
fn without_period(has_value: bool, text: &[u8]) -> &[u8]
    ensures value { result.now ≡ without_period has_value text.now }
    ensures shorter { length result.now ≤ length text.now }
{
    match text.split_first() {
        Some((b'.', behind)) if has_value => behind,
        _ => text,
    }
}

/// What stands behind an ampersand, where a text begins with one.
fn behind_ampersand(text: &[u8]) -> Option<&[u8]>
    ensures { MatchOption result (starts_with nat_eq text.now (codes "&") ≡ false) (λ behind. text.now ≡ 38 ∷ behind.now) }
{
    match text {
        [b'&', behind @ ..] => Some(behind),
        _ => None,
    }
}

/// Writes what an ampersand begins. Gives what stands behind it, and whether it is a symbol that lacks a value.
fn write_symbol<'a>(
    text: &mut Vec<u8>,
    symbols: &Symbols<'_>,
    behind: &'a [u8],
) -> Result<(&'a [u8], bool), AllocError>
    ensures text { IfOk result (λ r. WritesSymbol symbols.now behind.now text.old.items text.new.items r.0.now r.1) }
    ensures shorter { IfOk result (λ r. length r.0.now ≤ length behind.now) }
{
    if let Some(after) = behind_ampersand(behind) {
        write(text, b"&&")?;
        return Ok((after, false));
    }
    let (name, rest) = behind.split_at(name_len(behind));
    let value = symbols.value_of(name);
    let has_value = value.is_some();
    let lacks_value = write_value(text, name, value)?;
    Ok((without_period(has_value, rest), lacks_value))
}

/// Whether a character is an ampersand outside apostrophes.
fn begins_symbol(quoted: bool, c: u8) -> bool
    ensures { result ≡ begins_symbol quoted c }
{
    !quoted && c == b'&'
}

/// Writes a place with the values of its symbols, and tells whether one of them lacks a value.
fn write_place(text: &mut Vec<u8>, symbols: &Symbols<'_>, place: &[u8]) -> Result<bool, AllocError>
    ensures { IfOk result (Writes text.old.items text.new.items (substituted_in symbols.now place.now) nothing) }
{
    let mut lacks_value = false;
    let mut quoted = false;
    let mut rest = place;
    while let Some((c, behind)) = rest.split_first() {
        if begins_symbol(quoted, *c) {
            let (left, lacks) = write_symbol(text, symbols, behind)?;
            lacks_value = lacks_value || lacks;
            rest = left;
        } else {
            write_character(text, *c)?;
            quoted = quoted_after(quoted, *c);
            rest = behind;
        }
    }
    Ok(lacks_value)
}

/// Whether a place gives the name of a data set, where a symbol without a value names a temporary set.
fn names_set(place: &[u8]) -> bool
    ensures { result ≡ is_set_name (keyword_of place.now) }
{
    match keyword_of(place) {
        Some((key, _)) => key == b"DSNAME".as_slice() || key == b"DSN".as_slice(),
        None => false,
    }
}

/// Whether a symbol has to have a value in a place.
fn needs_values(dd: bool, place: &[u8]) -> bool
    ensures { result ≡ not (dd && is_set_name (keyword_of place.now)) }
{
    !(dd && names_set(place))
}

/// Writes the comma before a place, where one stands before it.
fn write_comma(text: &mut Vec<u8>, begun: bool) -> Result<(), AllocError>
    ensures { let had = text.old.items in OnOk result (text.new.items ≡ (if begun && not (nat_lt 1024 (length had)) then had ++ 44 ∷ [] else had)) }
{
    if begun {
        write_character(text, b',')
    } else {
        Ok(())
    }
}

/// Writes the next place, and tells whether a symbol lacks a value that it has to have there.
fn write_next(
    text: &mut Vec<u8>,
    symbols: &Symbols<'_>,
    dd: bool,
    begun: bool,
    place: &[u8],
) -> Result<bool, AllocError>
    ensures text { OnOk result (WritesNext symbols.now text.old.items text.new.items begun place.now) }
    ensures lacks { IfOk result (λ lacks. lacks ≡ lacks_value symbols.now dd place.now) }
{
    write_comma(text, begun)?;
    let lacks_value = write_place(text, symbols, place)?;
    Ok(needs_values(dd, place) && lacks_value)
}

/// The operand with the values of its symbols, and whether one of them lacks a value that it has to have.
fn written(
    alloc: Global,
    symbols: &Symbols<'_>,
    dd: bool,
    operand: &[u8],
) -> Result<(Vec<u8>, bool), AllocError>
    ensures text { IfOk result (λ r. Stores r.0.items [] (text_with symbols.now operand.now)) }
    ensures lacks { IfOk result (λ r. r.1 ≡ list_any (lacks_value symbols.now dd) (places_of operand.now)) }
{
    let mut text = Vec::with_capacity(alloc, operand.len().min(MOST_CHARACTERS))?;
    let mut lacks_value = false;
    let mut begun = false;
    let mut places = Places::of_text(operand);
    while let Some(place) = places.next() {
        let lacks = write_next(&mut text, symbols, dd, begun, place)?;
        lacks_value = lacks_value || lacks;
        begun = true;
    }
    Ok((text, lacks_value))
}

/// The operand with the values of symbols, those of the call before those of the procedure. `dd` tells whether it is a DD statement's.
pub fn substituted(
    alloc: Global,
    call: &[Symbol],
    own: &[Symbol],
    dd: bool,
    operand: &[u8],
) -> Result<Text, ReadError>
    ensures { Gives result (answer (substituted (call.now ++ own.now) dd operand.now)) }
{
    let symbols = Symbols { call, own };
    let (text, lacks_value) = written(alloc, &symbols, dd, operand)?;
    if lacks_value {
        return Err(ReadError::Refused(Cause::P(StatementFault::SymbolWithoutValue)));
    }
    if is_long(operand) || is_over(text.as_slice()) {
        return Err(ReadError::Refused(Cause::P(StatementFault::OperandTooLong)));
    }
    Ok(Text::new(text))
}
