//! The PARM parameter. (GC28-6704, "PARM parameter")
ghost use Rattle.std.specs.Prelude.{◌≡◌, false};
ghost use Rattle.operand_core.specs.Faults.{told};
ghost use Rattle.value_core.specs.Parms.{characters_from, characters_of, parm_faults};

use jcl_plan::fault::{Cause, StatementFault};
use operand_core::fault::when;
use operand_core::subparameter::{inside, is_wrapped};

/// The most characters of PARM.
const MOST_CHARACTERS: usize = 100;

/// How many characters a text has without its apostrophes, of which a doubled one is one.
fn characters_from(text: &[u8]) -> usize
    ensures { result ≡ characters_from false false text.now }
{
    let mut count = 0;
    let mut within = false;
    // one within apostrophes may have been the first of two
    let mut first = false;
    for c in text {
        let is_apostrophe = *c == b'\'';
        if !is_apostrophe || within && first {
            count += 1;
        }
        if is_apostrophe {
            first = within && !first;
            within = true;
        } else {
            within = within && !first;
            first = false;
        }
    }
    count
}

fn characters_of(text: &[u8]) -> usize
    ensures { result ≡ characters_of text.now }
{
    if is_wrapped(text) {
        characters_from(inside(text))
    } else {
        characters_from(text)
    }
}

/// The fault of a PARM that is too long.
pub fn parm_fault(text: &[u8]) -> Option<Cause>
    ensures { result ≡ told (parm_faults text.now) }
{
    when(
        characters_of(text) > MOST_CHARACTERS,
        Cause::P(StatementFault::BadValue),
    )
}
