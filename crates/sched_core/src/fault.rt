//! Why an event was not done.
use jcl_plan::fault::Cause;
use std::alloc::AllocError;

/// Why an event was not done.
#[derive(Clone, Copy, PartialEq, Eq)]
pub enum ApplyFault {
    /// The event changes the count of events alone.
    Refused(Cause),
    /// What is shown of the machine is as before, and the event may be repeated.
    Memory,
}

impl From<AllocError> for ApplyFault {
    ghost use Rattle.std.specs.Prelude.{◌≡◌};
    ghost use Rattle.sched_core.specs.declared.fault.ApplyFault.TheVariants.{Memory};

    ghost from_gives = { λ _ e. e ≡ Memory };

    fn from(_error: AllocError) -> ApplyFault {
        ApplyFault::Memory
    }
}
