//! Why a text is no name.
ghost use Rattle.std.specs.Prelude.{◌≡◌};
ghost use Rattle.jname_core.specs.RefusalNumbers.{number_of};

use thiserror::Error;

/// The first fault of a text, in this order.
#[derive(Clone, Copy, Debug, PartialEq, Eq, PartialOrd, Ord, Error)]
pub enum NameFault {
    #[error("a name or a component of it is empty")]
    Empty,
    #[error("a name or a component of it is too long")]
    TooLong,
    #[error("a character does not belong in a name, or not at its beginning")]
    BadCharacter,
    #[error("a generation is numbered from 0001 and has version 00, and an amount is at most 255")]
    BadGeneration,
}

impl NameFault {
    /// Its number, n of `Nn`.
    pub fn number(self) -> u8
        ensures { result ≡ number_of self }
    {
        match self {
            NameFault::Empty => 1,
            NameFault::TooLong => 2,
            NameFault::BadCharacter => 3,
            NameFault::BadGeneration => 4,
        }
    }
}
