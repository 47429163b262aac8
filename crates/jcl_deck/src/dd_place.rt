//! The place of a DD statement.
ghost use Rattle.std.specs.Prelude.{◌≡◌};
ghost use Rattle.operand_core.specs.Faults.{told};
ghost use Rattle.jcl_deck.specs.Places.{faults_where};

use jcl_plan::fault::{Cause, StatementFault};
use operand_core::fault::{earlier, when};

/// The fault of a DD of this name by its place: whether a JOBLIB stands before the first step, whether no step does,
/// and whether the last step has a DD.
#[tactic(auto, using(operand_core::proofs::Told::told_append))]
pub fn dd_place_fault(job_library: bool, no_step: bool, has_dd: bool, name: &[u8]) -> Option<Cause>
    ensures { result ≡ told (faults_where job_library no_step has_dd name.now) }
{
    let nothing = Cause::P(StatementFault::NothingToContinue);
    if !no_step {
        return when(name.is_empty() && !has_dd, nothing);
    }
    if name == b"JOBLIB".as_slice() || name.is_empty() && job_library {
        return None;
    }
    let early = Cause::P(StatementFault::DdBeforeExec);
    earlier(Some(early), when(name.is_empty(), nothing))
}
