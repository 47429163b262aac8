//! Laws of machines that are the same but for what is open in records. They have no code: a law is a function that does nothing, and its contract is the law.
#![tactic(auto)]

ghost use Rattle.alike_laws.specs.Alike.{EventsGoAlike};

use open_laws::{first_fault_stays, sameness_is_kept};
use world_laws::denotes_still;

/// No event looks at what is open in records.
pub fn events_go_alike()
    ensures { EventsGoAlike }
{
    sameness_is_kept();
    first_fault_stays();
    denotes_still();
}
