//! Why cards are no statements.
ghost use Rattle.std.specs.Prelude.{◌≡◌};
ghost use Rattle.card_core.specs.RefusalNumbers.{number_of};

use thiserror::Error;

/// A fault of cards.
#[derive(Clone, Copy, Debug, PartialEq, Eq, PartialOrd, Ord, Error)]
pub enum CardFault {
    #[error("a line has over 80 columns")]
    LineTooLong,
    #[error("a line has a byte that is no printable character")]
    BadByte,
    #[error("an operand ends with a comma and is not continued")]
    NotContinued,
    #[error("a continued operand does not resume in columns 4 to 16")]
    ResumedOutside,
    #[error("apostrophes are open at the card's end")]
    OpenApostrophe,
    #[error("a statement has a name and no operation")]
    NoOperation,
    #[error("there are data cards before the first EXEC statement")]
    DataBeforeExec,
}

impl CardFault {
    /// Its number, n of `Cn`.
    pub fn number(self) -> u8
        ensures { result ≡ number_of self }
    {
        match self {
            CardFault::LineTooLong => 1,
            CardFault::BadByte => 2,
            CardFault::NotContinued => 3,
            CardFault::ResumedOutside => 4,
            CardFault::OpenApostrophe => 5,
            CardFault::NoOperation => 6,
            CardFault::DataBeforeExec => 7,
        }
    }
}
