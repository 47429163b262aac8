//! Why nothing was read, where reading takes memory.
use jcl_plan::fault::Cause;
use std::alloc::AllocError;

/// Why a value, a statement or a deck was not read.
#[derive(Clone, Copy, PartialEq, Eq)]
pub enum ReadError {
    /// The fault that is told: of a statement names before all others, then the lowest number.
    Refused(Cause),
    Memory,
}

impl From<AllocError> for ReadError {
    ghost use Rattle.std.specs.Prelude.{◌≡◌};
    ghost use Rattle.value_core.specs.declared.refusal.ReadError.TheVariants.{Memory};

    ghost from_gives = { λ _ e. e ≡ Memory };

    fn from(_error: AllocError) -> ReadError {
        ReadError::Memory
    }
}

impl From<Cause> for ReadError {
    ghost use Rattle.std.specs.Prelude.{◌≡◌};
    ghost use Rattle.value_core.specs.declared.refusal.ReadError.TheVariants.{Refused};

    ghost from_gives = { λ cause e. e ≡ Refused cause };

    fn from(cause: Cause) -> ReadError {
        ReadError::Refused(cause)
    }
}
