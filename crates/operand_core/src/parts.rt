//! The parts of an operand.
ghost use Rattle.std.specs.Prelude.{◌≡◌, ◌∷◌, [], take_while, ◌<◌, ◌≤◌, length, Some, None, IfOk, IfSome, IfNone, MatchOption};
ghost use Rattle.operand_core.specs.Faults.{told};
ghost use Rattle.operand_core.specs.Operands.{places_of, part_faults, keyword_of, is_key_character};

use crate::fault::when;
use crate::scan::{depth_after, ends_part, is_balanced, is_closed, plain_len, quoted_after};
use jcl_plan::fault::{Cause, StatementFault};
use jname_core::name8::is_name_character;
use std::marker::Model;

/// A part of an operand that a clause sees as its bytes.
#[derive(Drop)]
pub struct Part<'a> {
    text: &'a [u8],
    /// Its keyword and what stands behind its `=`, both or neither.
    key: Option<&'a [u8]>,
    value: Option<&'a [u8]>,
    /// The fault of its form: a part without one is read.
    fault: Option<Cause>,
}

impl<'a> Model for Part<'a> {
    ghost use Rattle.std.specs.Prelude.{ℕ, List};

    ghost Value = { List ℕ };

    ghost view = { λ p. p.text.now };

    ghost use Rattle.std.specs.Prelude.{◌≡◌};
    ghost use Rattle.std.specs.Option.{option_copied};
    ghost use Rattle.operand_core.specs.Calm.{pair_of};
    ghost use Rattle.operand_core.specs.Faults.{told};
    ghost use Rattle.operand_core.specs.Operands.{keyword_of, part_faults};

    ghost invariant = { λ p.
        (pair_of (option_copied p.key) (option_copied p.value) ≡ keyword_of p.text.now) × (p.fault ≡ told (part_faults p.text.now)) };
}

impl<'a> Part<'a> {
    /// The part of these characters, of which so many are a key's, and whose form has this fault.
    fn of(text: &'a [u8], key_len: usize, fault: Option<Cause>) -> Part<'a>
        requires key { key_len ≡ length (take_while is_key_character text.now) }
        requires fault { fault ≡ told (part_faults text.now) }
        ensures { result ≡ text.entry.now }
    {
        match keyed(text, key_len) {
            Some((key, value)) => Part {
                text,
                key: Some(key),
                value: Some(value),
                fault,
            },
            None => Part {
                text,
                key: None,
                value: None,
                fault,
            },
        }
    }

    /// The part of these characters, whose keyword and fault are looked for once.
    fn new(text: &'a [u8]) -> Part<'a>
        ensures { result ≡ text.entry.now }
    {
        Part::of(text, key_len(text), part_fault(text))
    }

    /// Its characters.
    pub(crate) fn text(&self) -> &'a [u8]
        ensures { result.now ≡ self.now }
    {
        self.text
    }

    /// The fault of its form.
    pub(crate) fn fault(&self) -> Option<Cause>
        ensures { result ≡ told (part_faults self.now) }
    {
        self.fault
    }

    /// Its keyword and what stands behind its `=`.
    pub(crate) fn keyword(&self) -> Option<(&'a [u8], &'a [u8])>
        ensures { MatchOption result (keyword_of self.now ≡ None) (λ r. keyword_of self.now ≡ Some (r.0.now, r.1.now)) }
    {
        match (self.key, self.value) {
            (Some(key), Some(value)) => Some((key, value)),
            _ => None,
        }
    }
}

fn part_fault(part: &[u8]) -> Option<Cause>
    ensures { result ≡ told (part_faults part.now) }
{
    if is_balanced(part) {
        when(!is_closed(part), Cause::P(StatementFault::BadValue))
    } else {
        Some(Cause::P(StatementFault::UnbalancedParentheses))
    }
}

/// The first of several parts, and what stands behind its comma. Most have neither parentheses nor apostrophes before it.
pub(crate) fn first_part(text: &[u8]) -> Option<(&[u8], &[u8])>
    ensures some { IfSome result (λ r. places_of text.now ≡ r.0.now ∷ places_of r.1.now) }
    ensures shorter { IfSome result (λ r. length r.1.now < length text.now) }
    ensures none { IfNone result (places_of text.now ≡ text.now ∷ []) }
{
    let (front, rest) = text.split_at(plain_len(text));
    match rest.split_first() {
        None => None,
        Some((b',', behind)) => Some((front, behind)),
        Some(_) => part_by_characters(text),
    }
}

/// The same, character by character.
fn part_by_characters(text: &[u8]) -> Option<(&[u8], &[u8])>
    ensures some { IfSome result (λ r. places_of text.now ≡ r.0.now ∷ places_of r.1.now) }
    ensures shorter { IfSome result (λ r. length r.1.now < length text.now) }
    ensures none { IfNone result (places_of text.now ≡ text.now ∷ []) }
{
    let mut quoted = false;
    let mut depth = 0;
    for (at, c) in text.iter().enumerate() {
        if ends_part(quoted, depth, *c) {
            let (part, _) = text.split_at(at);
            let (_, behind) = text.split_at(at + 1);
            return Some((part, behind));
        }
        depth = depth_after(quoted, depth, *c);
        quoted = quoted_after(quoted, *c);
    }
    None
}

fn is_key_character(c: u8) -> bool
    ensures { result ≡ is_key_character c }
{
    is_name_character(c) || c == b'.'
}

fn key_len(part: &[u8]) -> usize
    ensures count { result ≡ length (take_while is_key_character part.now) }
    ensures bound { result ≤ length part.now }
{
    part.iter().take_while(|c| is_key_character(**c)).count()
}

/// A keyword of so many characters and what stands behind its `=`.
fn keyed(part: &[u8], key_len: usize) -> Option<(&[u8], &[u8])>
    requires { key_len ≡ length (take_while is_key_character part.now) }
    ensures { MatchOption result (keyword_of part.now ≡ None) (λ r. keyword_of part.now ≡ Some (r.0.now, r.1.now)) }
{
    let (key, behind) = part.split_at(key_len);
    match behind.split_first() {
        Some((b'=', value)) if !key.is_empty() => Some((key, value)),
        _ => None,
    }
}

/// A keyword and what stands behind its `=`.
pub fn keyword_of(part: &[u8]) -> Option<(&[u8], &[u8])>
    ensures { MatchOption result (keyword_of part.now ≡ None) (λ r. keyword_of part.now ≡ Some (r.0.now, r.1.now)) }
{
    keyed(part, key_len(part))
}

/// The part that a text begins with, and what stands behind its comma, where one ends it.
pub(crate) fn begun_part<'a>(text: &'a [u8]) -> (Part<'a>, Option<&'a [u8]>)
    ensures some { IfSome result.1 (λ behind. places_of text.now ≡ result.0 ∷ places_of behind.now) }
    ensures shorter { IfSome result.1 (λ behind. length behind.now < length text.now) }
    ensures none { IfNone result.1 (places_of text.now ≡ result.0 ∷ []) }
{
    let key_len = key_len(text);
    let (_, value) = text.split_at(key_len);
    let (front, rest) = text.split_at(key_len + plain_len(value));
    let part = Part::of(front, key_len, None);
    match rest.split_first() {
        None => (part, None),
        Some((b',', behind)) => (part, Some(behind)),
        Some(_) => marked_part(text),
    }
}

/// The same, where parentheses or apostrophes stand in the part.
fn marked_part<'a>(text: &'a [u8]) -> (Part<'a>, Option<&'a [u8]>)
    ensures some { IfSome result.1 (λ behind. places_of text.now ≡ result.0 ∷ places_of behind.now) }
    ensures shorter { IfSome result.1 (λ behind. length behind.now < length text.now) }
    ensures none { IfNone result.1 (places_of text.now ≡ result.0 ∷ []) }
{
    match part_by_characters(text) {
        Some((part, behind)) => (Part::new(part), Some(behind)),
        None => (Part::new(text), None),
    }
}
