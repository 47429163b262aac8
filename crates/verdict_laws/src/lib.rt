//! That all analyses of one job say the same of it, whichever way each keeps its views. A law has no code: it is a function that does nothing, and its
//! contract is the law.
#![tactic(auto)]

ghost use Rattle.verdict_laws.specs.Agreement.{VerdictsAgree};

use path_laws::is_one_answer;
use path_meaning::is_never_two;

/// Two verdicts of one job, for one limit and one store, say the same: that it is free of faults and makes sets at the same places, that a fault comes
/// first at the same place, or that the same step has too many views. Only how the steps end on the path to a fault, and which fault it leads to, may
/// differ.
pub fn verdicts_agree()
    ensures { VerdictsAgree }
{
    is_never_two();
    is_one_answer();
}
