//! What is refused of the operations on volumes.
ghost use Rattle.std.specs.Prelude.{◌≡◌};
ghost use Rattle.prog_core.specs.RefusalNumbers.{number_of};

use thiserror::Error;

/// Why a call on the operations was refused. They are as before.
#[derive(Clone, Copy, Debug, PartialEq, Eq, Error)]
pub enum UnitFault {
    #[error("an operation is under way on the volume")]
    Busy,
    #[error("no operation is under way on the volume")]
    NotStarted,
    #[error("the job's operation is still under way")]
    NotEnded,
}

impl UnitFault {
    /// Its number.
    pub fn number(self) -> u8
        ensures { result ≡ number_of self }
    {
        match self {
            UnitFault::Busy => 1,
            UnitFault::NotStarted => 2,
            UnitFault::NotEnded => 3,
        }
    }
}
