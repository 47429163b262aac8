//! What the catalog refuses.
ghost use Rattle.std.specs.Prelude.{◌≡◌, Some, None};
ghost use Rattle.cat_core.specs.RefusalNumbers.{number_of};

use thiserror::Error;

/// Why a call on the catalog was refused. The catalog is as before.
#[derive(Clone, Copy, Debug, PartialEq, Eq, Error)]
pub enum CatFault {
    #[error("the name is entered already")]
    There,
    #[error("the name is not entered")]
    NotThere,
    #[error("there is no group of that base")]
    NoGroup,
    #[error("the group has no such generation")]
    NoGeneration,
    #[error("a generation's number would be above 9999")]
    TooHigh,
    #[error("memory is missing")]
    Memory,
}

impl CatFault {
    /// Its number, n of `Kn`; want of memory has none.
    pub fn number(self) -> Option<u8>
        ensures { result ≡ number_of self }
    {
        match self {
            CatFault::There => Some(1),
            CatFault::NotThere => Some(2),
            CatFault::NoGroup => Some(3),
            CatFault::NoGeneration => Some(4),
            CatFault::TooHigh => Some(5),
            CatFault::Memory => None,
        }
    }
}
