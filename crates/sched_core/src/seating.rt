//! An initiator takes a job.
ghost use Rattle.std.specs.Prelude.{◌≡◌, None};

use crate::state::Initiator;
use init_core::running::Running;
use std::mem;

/// An initiator without a job takes one, or none.
pub(crate) fn seat(x: &mut Initiator, running: Option<Running>)
    requires { x.old.running ≡ None }
    ensures { x.new ≡ record x.old { running = running } }
{
    match mem::replace(&mut x.running, running) {
        None => {}
        Some(_) => unreachable!(),
    }
}
