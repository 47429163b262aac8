//! Names of data sets, and of the generations of a group.
ghost use Rattle.std.specs.Prelude.{◌≡◌, ◌↔◌, ◌+◌, ◌≤◌, ◌<◌, ◌&&◌, ◌++◌, ℕ, List, false, Some, None, IsSome, IsTrue, is_some, IfSome, MatchResult, MatchOption, codes, length, take, drop};
ghost use Rattle.jname_core.specs.Characters.{is_digit};
ghost use Rattle.jname_core.specs.Faults.{ds_name_fault, has_bad_component, has_empty_component, has_long_component, name8_fault, unit_name_fault};
ghost use Rattle.jname_core.specs.Generations.{above_generations, base_of, below_generations, generation_name, generation_of, has_generation_form, is_bad_generation, before_suffix, is_suffix, suffix_number, suffix_version, number_of_digits, four_digits};
ghost use Rattle.jname_core.specs.Grammar.{IsDotted, IsDsNameWithin, IsName8, IsUnitName};

use crate::character::is_digit;
use crate::fault::NameFault;
use crate::name8::{begins_badly, first_fault, has_no_component_character};
use plain::short::Short;
use std::marker::Model;

/// The most characters of a data set name. (Data set names)
pub const MOST_CHARACTERS: usize = 44;

/// The most characters of a group's base, behind which `.GnnnnV00` still fits. (Generation data sets)
pub const MOST_OF_A_BASE: usize = 35;

/// Components joined by periods: the name of a permanent data set, or the base of one that has the form of a generation.
#[derive(Clone, Copy, PartialEq, Eq, PartialOrd, Ord)]
pub struct DsName {
    text: Short<44>,
}

impl Model for DsName {
    ghost use Rattle.std.specs.Prelude.{ℕ, List};
    ghost use Rattle.jname_core.specs.Grammar.{IsDotted};

    ghost Value = { List ℕ };

    ghost view = { λ n. n.text };

    ghost invariant = { λ n. IsDotted 44 n.text };

    ghost inverse = { λ t. record { text = t } };
}

fn has_empty_component(text: &[u8]) -> bool
    ensures { result ≡ has_empty_component text.now }
{
    text.split(|c| *c == b'.').any(|part| part.is_empty())
}

fn has_long_component(text: &[u8]) -> bool
    ensures { result ≡ has_long_component text.now }
{
    text.split(|c| *c == b'.').any(|part| part.len() > 8)
}

fn has_bad_component(text: &[u8]) -> bool
    ensures { result ≡ has_bad_component text.now }
{
    text.split(|c| *c == b'.').any(|part| begins_badly(part) || has_no_component_character(part))
}

/// The base and the nine characters of a name that has the form of a generation.
fn split_generation(text: &[u8]) -> Option<(&[u8], &[u8])>
    ensures form { is_some result ≡ has_generation_form text.now }
    ensures parts { IfSome result (λ r. (r.0.now ≡ take (before_suffix text.now) text.now) × (r.1.now ≡ drop (before_suffix text.now) text.now)) }
    ensures suffix { IfSome result (λ r. IsTrue (is_suffix r.1.now)) }
{
    if text.len() <= 9 {
        return None;
    }
    let (base, suffix) = text.split_at(text.len() - 9);
    if is_suffix(suffix) {
        Some((base, suffix))
    } else {
        None
    }
}

fn are_digits(a: u8, b: u8, c: u8, d: u8) -> bool
    ensures { result ≡ (is_digit a && is_digit b && is_digit c && is_digit d) }
{
    is_digit(a) && is_digit(b) && is_digit(c) && is_digit(d)
}

fn is_suffix(text: &[u8]) -> bool
    ensures { result ≡ is_suffix text.now }
{
    match text {
        [period, g, a, b, c, d, v, e, f] => {
            *period == b'.'
                && *g == b'G'
                && are_digits(*a, *b, *c, *d)
                && *v == b'V'
                && is_digit(*e)
                && is_digit(*f)
        }
        _ => false,
    }
}

fn number_of_digits(a: u8, b: u8, c: u8, d: u8) -> u16
    requires { IsTrue (is_digit a && is_digit b && is_digit c && is_digit d) }
    ensures value { result ≡ number_of_digits a b c d }
    ensures range { result ≤ 9999 }
{
    u16::from(a - b'0') * 1000
        + u16::from(b - b'0') * 100
        + u16::from(c - b'0') * 10
        + u16::from(d - b'0')
}

fn suffix_number(suffix: &[u8]) -> u16
    requires { IsTrue (is_suffix suffix.now) }
    ensures value { result ≡ suffix_number suffix.now }
    ensures range { result ≤ 9999 }
{
    number_of_digits(suffix[2], suffix[3], suffix[4], suffix[5])
}

fn suffix_version(suffix: &[u8]) -> u16
    requires { IsTrue (is_suffix suffix.now) }
    ensures { result ≡ suffix_version suffix.now }
{
    number_of_digits(b'0', b'0', suffix[7], suffix[8])
}

fn is_bad_generation(text: &[u8]) -> bool
    ensures { result ≡ is_bad_generation text.now }
{
    match split_generation(text) {
        Some((_, suffix)) => suffix_number(suffix) == 0 || suffix_version(suffix) > 0,
        None => false,
    }
}

/// The nine characters of a generation.
fn suffix_of(number: u16) -> [u8; 9]
    requires { number ≤ 9999 }
    ensures { result ≡ codes ".G" ++ four_digits number ++ codes "V00" }
{
    let digit = |n: u16| -> u8
        requires { n < 10 }
        ensures { result ≡ 48 + n }
    { n as u8 + b'0' };
    [
        b'.',
        b'G',
        digit(number / 1000),
        digit(number / 100 % 10),
        digit(number / 10 % 10),
        digit(number % 10),
        b'V',
        b'0',
        b'0',
    ]
}

fn ds_name_fault(text: &[u8], limit: usize) -> Option<NameFault>
    ensures { result ≡ ds_name_fault limit text.now }
{
    let long = text.len() > limit || has_long_component(text);
    first_fault(
        has_empty_component(text),
        long,
        has_bad_component(text),
        is_bad_generation(text),
    )
}

fn joined(base: &[u8], suffix: &[u8; 9]) -> Short<44>
    requires { length base.now ≤ 35 }
    ensures { result ≡ base.now ++ suffix.now }
{
    let mut text = [0u8; 44];
    let len = base.len();
    text[..len].copy_from_slice(base);
    text[len..len + 9].copy_from_slice(suffix);
    Short::new(&text[..len + 9])
}

/// The data set name that the text is, or its first fault. (Data set names)
pub fn read_ds_name(text: &[u8]) -> Result<DsName, NameFault>
    ensures read { MatchResult result (λ n. (n ≡ text.now) × IsDsNameWithin 44 text.now) (λ fault. ds_name_fault 44 text.now ≡ Some fault) }
{
    read_within(text, MOST_CHARACTERS)
}

/// The base of a group that the text is, or its first fault. (Generation data sets)
pub fn read_base(text: &[u8]) -> Result<DsName, NameFault>
    ensures read { MatchResult result (λ n. (n ≡ text.now) × IsDsNameWithin 35 text.now) (λ fault. ds_name_fault 35 text.now ≡ Some fault) }
{
    read_within(text, MOST_OF_A_BASE)
}

fn read_within(text: &[u8], limit: usize) -> Result<DsName, NameFault>
    requires { limit ≤ 44 }
    ensures read { MatchResult result (λ n. (n ≡ text.now) × IsDsNameWithin limit text.now) (λ fault. ds_name_fault limit text.now ≡ Some fault) }
{
    match ds_name_fault(text, limit) {
        Some(fault) => Err(fault),
        None => Ok(DsName::of(text)),
    }
}

impl DsName {
    /// The data set name that the text is known to be, with no look at it.
    pub fn of(text: &[u8]) -> DsName
        requires { IsDsNameWithin 44 text.now }
        ensures { result ≡ text.now }
    {
        DsName {
            text: Short::new(text),
        }
    }

    /// The base of a group that the text is known to be, with no look at it.
    pub fn of_base(base: &[u8]) -> DsName
        requires { IsDsNameWithin 35 base.now }
        ensures { result ≡ base.now }
    {
        DsName::of(base)
    }

    pub fn as_slice(&self) -> &[u8]
        ensures value { result.now ≡ self.now }
        ensures name { IsDotted 44 self.now }
        ensures short { length result.now ≤ 44 }
    {
        self.text.as_slice()
    }

    /// The name under which the set is held: a generation's base, and else the name itself.
    pub fn base_of(&self) -> DsName
        ensures base { result ≡ base_of self.now }
        ensures short { IsSome (generation_of self.now) → length result ≤ 35 }
    {
        let text = self.as_slice();
        if let Some((base, _)) = split_generation(text) {
            return DsName {
                text: Short::new(base),
            };
        }
        *self
    }

    /// The number of a generation, or none of another name. A name that was read has none of number 0, but its base may.
    pub fn generation_of(&self) -> Option<u16>
        ensures number { result ≡ generation_of self.now }
        ensures range { IfSome result (λ n. n ≤ 9999) }
    {
        let (_, suffix) = split_generation(self.as_slice())?;
        Some(suffix_number(suffix))
    }

    /// The generation of this base with a number, or none where the number is not 1 to 9999 or the base has over 35 characters.
    pub fn generation(&self, number: u16) -> Option<DsName>
        ensures name { MatchOption result ((0 < number) × (number ≤ 9999) × (length self.now ≤ 35) → ⊥) (λ n. n ≡ generation_name self.now number) }
        ensures range { IfSome result (λ _. (0 < number) × (number ≤ 9999)) }
    {
        let base = self.as_slice();
        if number == 0 || number > 9999 || base.len() > MOST_OF_A_BASE {
            return None;
        }
        Some(DsName {
            text: joined(base, &suffix_of(number)),
        })
    }

    /// Two names between which each generation of this base stands. Behind a base of over 35 characters nothing makes a name.
    pub fn generation_bounds(&self) -> Option<(DsName, DsName)>
        ensures below { IfSome result (λ bounds. bounds.0 ≡ below_generations self.now) }
        ensures above { IfSome result (λ bounds. bounds.1 ≡ above_generations self.now) }
    {
        let base = self.as_slice();
        if base.len() > MOST_OF_A_BASE {
            return None;
        }
        let below = DsName {
            text: joined(base, b".G0000V0#"),
        };
        let above = DsName {
            text: joined(base, b".G9999V9A"),
        };
        Some((below, above))
    }
}

/// A text keeps to the grammar exactly where no fault holds of it.
pub fn faults_are_exact()
    ensures name8 { (text : List ℕ) → (name8_fault text ≡ None) ↔ IsName8 text }
    ensures unit { (text : List ℕ) → (unit_name_fault text ≡ None) ↔ IsUnitName text }
    ensures ds_name { (limit : ℕ) (text : List ℕ) → (ds_name_fault limit text ≡ None) ↔ IsDsNameWithin limit text }
{}

/// A generation's base and number, and the name of a base and a number, are one another's inverse.
pub fn generations_are_exact()
    ensures base { (base : List ℕ) (n : ℕ) → 0 < length base → n ≤ 9999 → base_of (generation_name base n) ≡ base }
    ensures number { (base : List ℕ) (n : ℕ) → 0 < length base → n ≤ 9999 → generation_of (generation_name base n) ≡ Some n }
    ensures name { (text : List ℕ) (n : ℕ) → is_bad_generation text ≡ false → generation_of text ≡ Some n → text ≡ generation_name (base_of text) n }
    ensures plain { (text : List ℕ) → generation_of text ≡ None → base_of text ≡ text }
{}
