//! Keywords by their keys.
ghost use Rattle.std.specs.Prelude.{◌≡◌, if◌then◌else◌};
ghost use Rattle.std.specs.Option.{option_copied};
ghost use Rattle.operand_core.specs.Keywords.{has_key, is_long, value_of};

use crate::operand::Keyword;
use jcl_plan::fault::{Cause, StatementFault};

/// The most characters of an operand that is read.
const MOST_CHARACTERS: usize = 1024;

/// Whether an operand has over 1,024 characters, and so is not read.
pub fn is_long(operand: &[u8]) -> bool
    ensures { result ≡ is_long operand.now }
{
    operand.len() > MOST_CHARACTERS
}

/// Whether a keyword has this key.
pub fn has_key(keywords: &[Keyword<'_>], key: &[u8]) -> bool
    ensures { result ≡ has_key key.now keywords.now }
{
    keywords.iter().any(|keyword| keyword.key() == key)
}

/// The value of the first keyword with this key, where it is read.
pub fn value_of<'a>(keywords: &[Keyword<'a>], key: &[u8]) -> Option<&'a [u8]>
    ensures { option_copied result ≡ value_of key.now keywords.now }
{
    for keyword in keywords {
        if keyword.key() == key {
            return keyword.value();
        }
    }
    None
}

/// The fault of a keyword that the statement does not take.
pub fn unknown_fault(is_left_out: bool) -> Cause
    ensures { result ≡ (if is_left_out then (Cause.P StatementFault.LeftOut) else (Cause.P StatementFault.UnknownKeyword)) }
{
    if is_left_out {
        Cause::P(StatementFault::LeftOut)
    } else {
        Cause::P(StatementFault::UnknownKeyword)
    }
}
