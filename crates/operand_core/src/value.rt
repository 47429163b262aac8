//! The values of keywords.
ghost use Rattle.std.specs.Prelude.{◌≡◌, [], false, unwrap_or, IfOk};
ghost use Rattle.std.specs.Option.{option_copied};
ghost use Rattle.operand_core.specs.Values.{class_of, coded, enclosed, is_output_class, unquoted};

use jname_core::character::is_letter_or_digit;
use plain::text::Text;
use std::alloc::{AllocError, Global};

/// The value, where one is coded.
pub fn coded(value: Option<&[u8]>) -> Option<&[u8]>
    ensures { option_copied result ≡ coded (option_copied value.entry) }
{
    match value {
        Some(value) if !value.is_empty() => Some(value),
        _ => None,
    }
}

/// The value, or an empty text.
pub fn value_or_nothing<'a>(value: Option<&'a [u8]>) -> &'a [u8]
    ensures { result.now ≡ unwrap_or (option_copied value.entry) [] }
{
    match value {
        Some(text) => text,
        None => &[],
    }
}

/// The text up to the apostrophe that ends it, two within being one.
fn enclosed(alloc: Global, text: &[u8]) -> Result<Option<Text>, AllocError>
    ensures { IfOk result (λ found. found ≡ enclosed false text.now) }
{
    let mut found = Vec::new(alloc);
    let mut begun = false;
    for c in text {
        let is_apostrophe = *c == b'\'';
        if begun && !is_apostrophe {
            return Ok(None);
        }
        if begun || !is_apostrophe {
            found.push(*c)?;
        }
        begun = is_apostrophe && !begun;
    }
    if begun {
        Ok(Some(Text::new(found)))
    } else {
        Ok(None)
    }
}

/// A value without apostrophes that enclose it whole.
pub fn unquoted(alloc: Global, value: &[u8]) -> Result<Text, AllocError>
    ensures { IfOk result (λ text. text ≡ unquoted value.now) }
{
    if let Some((b'\'', behind)) = value.split_first() {
        if let Some(text) = enclosed(alloc, behind)? {
            return Ok(text);
        }
    }
    Text::copy_of(alloc, value)
}

/// Whether a value is one letter or digit.
pub fn is_output_class(value: &[u8]) -> bool
    ensures { result ≡ is_output_class value.now }
{
    match value {
        [c] => is_letter_or_digit(*c),
        _ => false,
    }
}

/// The class that a value begins with, A where none is coded.
pub fn class_of(value: Option<&[u8]>) -> u8
    ensures { result ≡ class_of (option_copied value.entry) }
{
    match value {
        Some([c, ..]) => *c,
        _ => b'A',
    }
}
