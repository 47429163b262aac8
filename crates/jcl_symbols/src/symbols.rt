//! The symbols that an operand is read with.
ghost use Rattle.std.specs.Prelude.{◌≡◌, ◌≤◌, length, take, take_while};
ghost use Rattle.std.specs.Option.{option_copied};
ghost use Rattle.jname_core.specs.Characters.{is_name_character};
ghost use Rattle.jcl_symbols.specs.Substitutions.{value_of};

use crate::symbol::Symbol;
use jname_core::name8::is_name_character;
use std::marker::Model;

/// The most characters of a symbol's name.
const MOST_CHARACTERS: usize = 7;

/// The symbols of a call, and behind them those of the procedure.
#[derive(Drop)]
pub(crate) struct Symbols<'a> {
    pub(crate) call: &'a [Symbol],
    pub(crate) own: &'a [Symbol],
}

impl<'a> Model for Symbols<'a> {
    ghost use Rattle.std.specs.Prelude.{List, ◌++◌};
    ghost use Rattle.jcl_symbols.specs.declared.symbol.Symbol.{Symbol};

    ghost Value = { List Symbol };

    ghost view = { λ s. s.call.now ++ s.own.now };
}

fn value_among<'a>(symbols: &'a [Symbol], name: &[u8]) -> Option<&'a [u8]>
    ensures { option_copied result ≡ value_of symbols.now name.now }
{
    for symbol in symbols {
        if symbol.name.as_slice() == name {
            return Some(symbol.value.as_slice());
        }
    }
    None
}

impl<'a> Symbols<'a> {
    /// The value of a symbol, where it has one.
    #[tactic(auto, using(crate::proofs::Lookup::value_of_both))]
    pub(crate) fn value_of(&self, name: &[u8]) -> Option<&'a [u8]>
        ensures { option_copied result ≡ value_of self.now name.now }
    {
        match value_among(self.call, name) {
            Some(value) => Some(value),
            None => value_among(self.own, name),
        }
    }
}

/// How many characters of a text are a symbol's name.
pub(crate) fn name_len(text: &[u8]) -> usize
    ensures count { result ≡ length (take_while is_name_character (take 7 text.now)) }
    ensures bound { result ≤ length text.now }
{
    let (front, _) = text.split_at(text.len().min(MOST_CHARACTERS));
    front.iter().take_while(|c| is_name_character(**c)).count()
}
