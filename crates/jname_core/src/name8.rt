//! Names of one to eight characters.
ghost use Rattle.std.specs.Prelude.{◌≡◌, ◌||◌, ◌≤◌, Bool, not, Some, None, MatchResult, length, nat_lt, ◌==◌};
ghost use Rattle.std.specs.List.{list_any};
ghost use Rattle.jname_core.specs.Characters.{is_first, is_name_character, is_component_character};
ghost use Rattle.jname_core.specs.Faults.{begins_badly, first_fault, has_other_than, name8_fault, unit_name_fault};
ghost use Rattle.jname_core.specs.Grammar.{IsName8, IsUnitName};

use crate::character::{is_digit, is_letter};
use crate::fault::NameFault;
use plain::short::Short;
use std::marker::Model;

/// A letter or one of `#`, `@`, `$`.
pub fn is_first(c: u8) -> bool
    ensures { result ≡ is_first c }
{
    is_letter(c) || (c == b'#' || c == b'@' || c == b'$')
}

/// A letter, a digit or one of `#`, `@`, `$`.
pub fn is_name_character(c: u8) -> bool
    ensures { result ≡ is_name_character c }
{
    is_first(c) || is_digit(c)
}

/// As a name's character, or a hyphen.
pub(crate) fn is_component_character(c: u8) -> bool
    ensures { result ≡ is_component_character c }
{
    is_name_character(c) || c == b'-'
}

/// Whether there is a first character, and a name does not begin with it.
pub(crate) fn begins_badly(text: &[u8]) -> bool
    ensures { result ≡ begins_badly text.now }
{
    match text.first() {
        Some(c) => !is_first(*c),
        None => false,
    }
}

pub(crate) fn has_no_name_character(text: &[u8]) -> bool
    ensures { result ≡ has_other_than is_name_character text.now }
{
    text.iter().any(|c| !is_name_character(*c))
}

pub(crate) fn has_no_component_character(text: &[u8]) -> bool
    ensures { result ≡ has_other_than is_component_character text.now }
{
    text.iter().any(|c| !is_component_character(*c))
}

/// The fault of the lowest number of those that hold.
pub(crate) fn first_fault(
    empty: bool,
    long: bool,
    character: bool,
    generation: bool,
) -> Option<NameFault>
    ensures { result ≡ first_fault empty long character generation }
{
    if empty {
        Some(NameFault::Empty)
    } else if long {
        Some(NameFault::TooLong)
    } else if character {
        Some(NameFault::BadCharacter)
    } else if generation {
        Some(NameFault::BadGeneration)
    } else {
        None
    }
}

fn name8_fault(text: &[u8]) -> Option<NameFault>
    ensures { result ≡ name8_fault text.now }
{
    let bad = begins_badly(text) || has_no_name_character(text);
    first_fault(text.is_empty(), text.len() > 8, bad, false)
}

fn unit_name_fault(text: &[u8]) -> Option<NameFault>
    ensures { result ≡ unit_name_fault text.now }
{
    let bad = has_no_name_character(text);
    first_fault(text.is_empty(), text.len() > 8, bad, false)
}

/// A name of a job, a step, a DD, a program or a temporary set.
#[derive(Clone, Copy, PartialEq, Eq, PartialOrd, Ord)]
pub struct Name8 {
    text: Short<8>,
}

impl Model for Name8 {
    ghost use Rattle.std.specs.Prelude.{ℕ, List};
    ghost use Rattle.jname_core.specs.Grammar.{IsName8};

    ghost Value = { List ℕ };

    ghost view = { λ n. n.text };

    ghost invariant = { λ n. IsName8 n.text };

    ghost inverse = { λ t. record { text = t } };
}

impl Name8 {
    /// The name that the text is, or its first fault. (Coding conventions: name field)
    pub fn read(text: &[u8]) -> Result<Name8, NameFault>
        ensures read { MatchResult result (λ n. (n ≡ text.now) × IsName8 text.now) (λ fault. name8_fault text.now ≡ Some fault) }
    {
        match name8_fault(text) {
            Some(fault) => Err(fault),
            None => Ok(Name8::of(text)),
        }
    }

    /// The name that the text is known to be, with no look at it.
    pub fn of(text: &[u8]) -> Name8
        requires { IsName8 text.now }
        ensures { result ≡ text.now }
    {
        Name8 {
            text: Short::new(text),
        }
    }

    pub fn as_slice(&self) -> &[u8]
        ensures value { result.now ≡ self.now }
        ensures name { IsName8 self.now }
        ensures short { length result.now ≤ 8 }
    {
        self.text.as_slice()
    }
}

/// The name of a list of volumes, which may begin with a digit.
#[derive(Clone, Copy, PartialEq, Eq, PartialOrd, Ord)]
pub struct UnitName {
    name: Short<8>,
}

impl Model for UnitName {
    ghost use Rattle.std.specs.Prelude.{ℕ, List};
    ghost use Rattle.jname_core.specs.Grammar.{IsUnitName};

    ghost Value = { List ℕ };

    ghost view = { λ n. n.name };

    ghost invariant = { λ n. IsUnitName n.name };

    ghost inverse = { λ t. record { name = t } };
}

impl UnitName {
    /// The unit name that the text is, or its first fault. (This profile)
    pub fn read(text: &[u8]) -> Result<UnitName, NameFault>
        ensures read { MatchResult result (λ n. (n ≡ text.now) × IsUnitName text.now) (λ fault. unit_name_fault text.now ≡ Some fault) }
    {
        match unit_name_fault(text) {
            Some(fault) => Err(fault),
            None => Ok(UnitName {
                name: Short::new(text),
            }),
        }
    }

    pub fn as_slice(&self) -> &[u8]
        ensures value { result.now ≡ self.now }
        ensures name { IsUnitName self.now }
    {
        self.name.as_slice()
    }
}
