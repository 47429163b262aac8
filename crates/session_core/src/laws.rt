//! Laws of sessions. They have no code: the contract of such a function is the law, and it calls the laws that it rests on.
ghost use Rattle.session_core.specs.Opening.{ConfigurationsHaveMachines};
ghost use Rattle.session_core.specs.Promises.{ListingsAreRuns, PromisesOfSession};

use config_core::laws::configuration_is_start;
use sched_core::laws::{chains_are_runs, chains_keep_promises};
use sched_core::start::queue_layout_is_for_machine;

/// From any listing of a session, each ASSURED line among its entries is kept.
pub fn promises_of_a_session()
    ensures { PromisesOfSession }
{
    chains_keep_promises();
}

/// The chain of machines of a listing is a run of the machine's definitions, from what the session's statements configure.
pub fn listings_are_runs()
    ensures { ListingsAreRuns }
{
    chains_are_runs();
}

/// Each configuration has a machine before its first event, a whole one, with whichever options it is started.
pub fn configuration_has_a_machine()
    ensures { ConfigurationsHaveMachines }
{
    configuration_is_start();
    queue_layout_is_for_machine();
}
