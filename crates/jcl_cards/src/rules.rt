//! The rules that statements have for their keywords.
ghost use Rattle.std.specs.Prelude.{◌≡◌, Some, None, IfOk};
ghost use Rattle.std.specs.List.{flat_map};
ghost use Rattle.std.specs.Str.{bytes_eq};
ghost use Rattle.operand_core.specs.Faults.{earlier, told};
ghost use Rattle.jname_core.specs.Characters.{is_name_character};
ghost use Rattle.jname_core.specs.Faults.{has_other_than};
ghost use Rattle.jcl_cards.specs.Keywords.{stands_twice, symbol_faults, symbol_of, twice_faults};
ghost use Rattle.jcl_cards.specs.Reading.{has_spelled, spelled_by};

use jcl_plan::fault::{Cause, StatementFault};
use jcl_symbols::symbol::Symbol;
use jname_core::name8::is_name_character;
use operand_core::fault::{earlier, lower, when};
use operand_core::operand::Keyword;
use operand_core::value::{unquoted, value_or_nothing};
use plain::short::Short;
use std::alloc::{AllocError, Global};

/// Whether two texts are the same, from the front: most keys differ in the first character or the second.
pub fn is_same(text: &[u8], other: &[u8]) -> bool
    ensures { result ≡ bytes_eq text.now other.now }
{
    let mut rest = other;
    for c in text {
        match rest.split_first() {
            Some((first, behind)) if *first == *c => rest = behind,
            _ => return false,
        }
    }
    rest.is_empty()
}

/// How many spellings the keywords of a statement have.
#[derive(Clone, Copy)]
pub enum Spelling {
    One,
    /// DSN and DSNAME, VOL and VOLUME.
    Two,
}

/// The keyword that a key is.
pub(crate) fn spelled_by<'a>(spelling: Spelling, key: &'a [u8]) -> &'a [u8]
    ensures { result.now ≡ spelled_by spelling key.now }
{
    match spelling {
        Spelling::One => key,
        Spelling::Two => match key {
            b"DSN" => b"DSNAME",
            b"VOL" => b"VOLUME",
            _ => key,
        },
    }
}

/// Whether a key is this one, however it is spelled: most differ in the first character.
pub fn is_key(spelling: Spelling, key: &[u8], wanted: &[u8]) -> bool
    ensures { result ≡ bytes_eq (spelled_by spelling key.now) wanted.now }
{
    match (key.first(), wanted.first()) {
        (Some(first), Some(other)) if *first != *other => false,
        _ => is_same(spelled_by(spelling, key), wanted),
    }
}

/// Whether a keyword has this key, however it is spelled.
pub(crate) fn has_spelled(spelling: Spelling, keywords: &[Keyword<'_>], key: &[u8]) -> bool
    ensures { result ≡ has_spelled spelling key.now keywords.now }
{
    keywords
        .iter()
        .any(|keyword| is_key(spelling, keyword.key(), key))
}

/// Whether a keyword is given twice.
fn stands_twice(spelling: Spelling, keywords: &[Keyword<'_>]) -> bool
    ensures { result ≡ stands_twice (spelled_by spelling) keywords.now }
{
    for (at, keyword) in keywords.iter().enumerate() {
        let (_, behind) = keywords.split_at(at + 1);
        if has_spelled(spelling, behind, spelled_by(spelling, keyword.key())) {
            return true;
        }
    }
    false
}

/// The fault of a keyword that stands twice.
pub fn twice_fault(spelling: Spelling, keywords: &[Keyword<'_>]) -> Option<Cause>
    ensures { result ≡ told (twice_faults (spelled_by spelling) keywords.now) }
{
    when(
        stands_twice(spelling, keywords),
        Cause::P(StatementFault::KeywordTwice),
    )
}

/// The rule that a statement has for each of its keywords.
pub(crate) trait KeywordRule {
    ghost use Rattle.std.specs.Prelude.{◌≡◌, List};
    ghost use Rattle.jcl_plan.specs.declared.fault.Cause.{Cause};
    ghost use Rattle.operand_core.specs.Faults.{told};
    ghost use Rattle.operand_core.specs.Operands.{Keyword};

    ghost faults: { Self → Keyword → List Cause };

    fn fault(&self, keyword: &Keyword<'_>) -> Option<Cause>
        ensures { result ≡ told (faults self.now keyword.now) };
}

/// The fault of the keywords, each by itself.
pub(crate) fn each_fault<R: KeywordRule>(rule: &R, keywords: &[Keyword<'_>]) -> Option<Cause>
    ensures { result ≡ told (flat_map (R.faults rule.now) keywords.now) }
{
    let mut fault = None;
    for keyword in keywords {
        fault = earlier(fault, rule.fault(keyword));
    }
    fault
}

/// The fault of a statement whose operand is too long, by that of its name.
pub fn long_operand(name: Option<Cause>) -> Cause
    ensures { Some result ≡ earlier name (Some (Cause.P StatementFault.OperandTooLong)) }
{
    let long = Cause::P(StatementFault::OperandTooLong);
    match name {
        None => long,
        Some(fault) => lower(fault, long),
    }
}

fn has_other_character(key: &[u8]) -> bool
    ensures { result ≡ has_other_than is_name_character key.now }
{
    key.iter().any(|c| !is_name_character(*c))
}

/// The fault of a key that has to be a symbol's name.
pub(crate) fn symbol_fault(key: &[u8]) -> Option<Cause>
    ensures { result ≡ told (symbol_faults key.now) }
{
    if key.is_empty() {
        Some(Cause::N(1))
    } else if key.len() > 7 {
        Some(Cause::N(2))
    } else if has_other_character(key) {
        Some(Cause::N(3))
    } else {
        None
    }
}

/// The symbol that a keyword gives a value to.
pub(crate) fn symbol_of(alloc: Global, keyword: &Keyword<'_>) -> Result<Symbol, AllocError>
    requires { told (symbol_faults keyword.now.key) ≡ None }
    ensures { IfOk result (λ symbol. symbol ≡ symbol_of keyword.now) }
{
    Ok(Symbol {
        name: Short::new(keyword.key()),
        value: unquoted(alloc, value_or_nothing(keyword.value()))?,
    })
}
