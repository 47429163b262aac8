//! The COND parameter. (GC28-6704, "COND parameter")
ghost use Rattle.std.specs.Prelude.{◌≡◌, ◌∷◌, []};
ghost use Rattle.value_core.specs.Reads.{IsRead};
ghost use Rattle.list_values.specs.Conditions.{begins_list, condition, condition_of_places};

use crate::condition::{CodedTests, Condition};
use crate::found::{Found, word_of};
use jcl_plan::fault::{Cause, StatementFault};
use operand_core::places::Places;
use operand_core::subparameter::{first_subparameter, inside, is_wrapped};

/// Whether a list of tests and words begins with this place.
fn begins_list(first: &[u8]) -> bool
    ensures { result ≡ begins_list (first.now ∷ []) }
{
    first.starts_with(b"(") || first == b"EVEN".as_slice() || first == b"ONLY".as_slice()
}

fn condition_of_places(steps: bool, mut places: Places<'_>) -> Result<Condition, Cause>
    ensures { IsRead result (condition_of_places steps places.entry) }
{
    let mut found = Found::new();
    while let Some(place) = places.next() {
        found.take(steps, place);
    }
    found.condition()
}

fn condition_of_test(steps: bool, text: &[u8]) -> Result<Condition, Cause>
    ensures { IsRead result (condition_of_places steps (text.now ∷ [])) }
{
    let mut found = Found::new();
    found.take(steps, text);
    found.condition()
}

/// What COND says; `steps` tells whether tests may name steps, and EVEN and ONLY are known: on an EXEC statement.
pub fn condition(steps: bool, text: &[u8]) -> Result<Condition, Cause>
    ensures { IsRead result (condition steps text.now) }
{
    if let Some(after_abend) = word_of(steps, text) {
        return Ok(Condition {
            tests: CodedTests::new(),
            after_abend,
        });
    }
    if !is_wrapped(text) {
        return Err(Cause::P(StatementFault::BadValue));
    }
    if begins_list(first_subparameter(text)) {
        condition_of_places(steps, Places::of_text(inside(text)))
    } else {
        condition_of_test(steps, text)
    }
}
