//! Why a session ends before its text does.
ghost use Rattle.std.specs.Prelude.{◌≡◌};
ghost use Rattle.session_text.specs.FaultNumbers.{number_of};

use thiserror::Error;

/// A fault of a session.
#[derive(Clone, Copy, Debug, PartialEq, Eq, Error)]
pub enum Fault {
    #[error("the statement is unknown")]
    UnknownStatement,
    #[error("a value is missing, of wrong form or out of its range")]
    BadValue,
    #[error("a name or a number is defined twice")]
    DefinedTwice,
    #[error("a block has no END")]
    NoEnd,
    #[error("the text has over 1,048,576 bytes")]
    TooLong,
    #[error("the text cannot be read further")]
    ReadFailed,
    #[error("the listing cannot be written further")]
    WriteFailed,
    #[error("configuration comes after the first event")]
    LateConfiguration,
}

impl Fault {
    /// Its number, n of `Sn`.
    pub fn number(self) -> u8
        ensures { result ≡ number_of self }
    {
        match self {
            Fault::UnknownStatement => 1,
            Fault::BadValue => 2,
            Fault::DefinedTwice => 3,
            Fault::NoEnd => 4,
            Fault::TooLong => 5,
            Fault::ReadFailed => 6,
            Fault::WriteFailed => 7,
            Fault::LateConfiguration => 8,
        }
    }
}
