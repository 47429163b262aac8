//! The places of a value, one after another.
ghost use Rattle.std.specs.Prelude.{◌≡◌, ◌∷◌, [], MatchOption};
ghost use Rattle.operand_core.specs.Operands.{places_of};
ghost use Rattle.operand_core.specs.Subparameters.{subparameters_of};

use crate::parts::first_part;
use crate::subparameter::{inside, is_wrapped};
use std::marker::Model;

/// The places of a text, from the next one on.
#[derive(Drop)]
pub struct Places<'a> {
    rest: Option<&'a [u8]>,
    /// Whether a comma ends a place; if not, what is left is one place.
    splits: bool,
}

impl<'a> Model for Places<'a> {
    ghost use Rattle.std.specs.Prelude.{ℕ, List};
    ghost use Rattle.std.specs.Option.{option_copied};
    ghost use Rattle.operand_core.specs.Subparameters.{places_left};

    ghost Value = { List (List ℕ) };

    ghost view = { λ p. places_left p.splits (option_copied p.rest) };
}

impl<'a> Places<'a> {
    /// The places between the commas of a text.
    pub fn of_text(text: &'a [u8]) -> Places<'a>
        ensures { result ≡ places_of text.now }
    {
        Places {
            rest: Some(text),
            splits: true,
        }
    }

    /// The places of a value: of `(a,b)` a and b, of `a` a alone.
    pub fn of_value(value: &'a [u8]) -> Places<'a>
        ensures { result ≡ subparameters_of value.now }
    {
        if is_wrapped(value) {
            Places::of_text(inside(value))
        } else {
            Places {
                rest: Some(value),
                splits: false,
            }
        }
    }

    /// The next place, or none behind the last.
    pub fn next(&mut self) -> Option<&'a [u8]>
        ensures { MatchOption result ((self.old ≡ []) × (self.new ≡ [])) (λ place. self.old ≡ place.now ∷ self.new) }
    {
        let text = self.rest.take()?;
        if self.splits {
            if let Some((place, behind)) = first_part(text) {
                self.rest = Some(behind);
                return Some(place);
            }
        }
        Some(text)
    }
}
