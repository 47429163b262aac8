//! The order of a job's wants.
ghost use Rattle.std.specs.Prelude.{IsTrue, ◌↔◌};
ghost use Rattle.enq_core.specs.Holds.{AreWants};

use crate::table::Want;

/// Whether wants stand in byte order of their names, each name once.
pub fn are_wants(wants: &[Want]) -> bool
    ensures { IsTrue result ↔ AreWants wants.now }
{
    for i in 1..wants.len() {
        if wants[i - 1].name >= wants[i].name {
            return false;
        }
    }
    true
}
