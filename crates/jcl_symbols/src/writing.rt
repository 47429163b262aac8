//! Text that is written as far as an operand is read.
ghost use Rattle.std.specs.Prelude.{◌≡◌, [], ◌∷◌, ◌++◌, OnOk, IfOk, length, nat_lt, if◌then◌else◌};
ghost use Rattle.std.specs.Option.{option_copied};
ghost use Rattle.jcl_symbols.specs.Substitutions.{Substituted};
ghost use Rattle.jcl_symbols.specs.Writing.{Writes, ended_with};

use std::alloc::AllocError;

/// The most characters of an operand that is read.
pub(crate) const MOST_CHARACTERS: usize = 1024;

/// Whether a text has over 1,024 characters.
pub(crate) fn is_over(text: &[u8]) -> bool
    ensures { result ≡ nat_lt 1024 (length text.now) }
{
    text.len() > MOST_CHARACTERS
}

/// Puts a piece behind a text, where that is not yet longer than it may be.
pub(crate) fn write(text: &mut Vec<u8>, piece: &[u8]) -> Result<(), AllocError>
    ensures { let had = text.old.items in OnOk result (text.new.items ≡ (if nat_lt 1024 (length had) then had else had ++ piece.now)) }
{
    if is_over(text.as_slice()) {
        return Ok(());
    }
    text.extend_from_slice(piece)
}

/// Puts a character behind a text, where that is not yet longer than it may be.
pub(crate) fn write_character(text: &mut Vec<u8>, c: u8) -> Result<(), AllocError>
    ensures { let had = text.old.items in OnOk result (text.new.items ≡ (if nat_lt 1024 (length had) then had else had ++ c ∷ [])) }
{
    if is_over(text.as_slice()) {
        return Ok(());
    }
    text.push(c)?;
    Ok(())
}

/// Writes the value of a symbol, or the symbol as it stands, and tells whether it lacks a value; an ampersand without a name is none.
pub(crate) fn write_value(
    text: &mut Vec<u8>,
    name: &[u8],
    value: Option<&[u8]>,
) -> Result<bool, AllocError>
    ensures { (s : Substituted) → IfOk result (Writes text.old.items text.new.items (ended_with (option_copied value.entry) name.now s) s) }
{
    if name.is_empty() {
        write_character(text, b'&')?;
        return Ok(false);
    }
    match value {
        Some(value) => {
            write(text, value)?;
            Ok(false)
        }
        None => {
            write_character(text, b'&')?;
            write(text, name)?;
            Ok(true)
        }
    }
}
