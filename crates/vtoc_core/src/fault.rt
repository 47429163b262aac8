//! What a volume refuses.
ghost use Rattle.std.specs.Prelude.{◌≡◌, Some, None};
ghost use Rattle.vtoc_core.specs.RefusalNumbers.{number_of};

use thiserror::Error;

/// Why a call on a volume was refused. The volume is as before.
#[derive(Clone, Copy, Debug, PartialEq, Eq, Error)]
pub enum VolumeFault {
    #[error("a set of that name is on the volume")]
    NameThere,
    #[error("no set of that name is on the volume")]
    NameMissing,
    #[error("the volume has no space for it in five extents")]
    NoSpace,
    #[error("a set would have more than sixteen extents")]
    TooManyExtents,
    #[error("memory is missing")]
    Memory,
}

impl VolumeFault {
    /// Its number, n of `Vn`; want of memory has none.
    pub fn number(self) -> Option<u8>
        ensures { result ≡ number_of self }
    {
        match self {
            VolumeFault::NameThere => Some(1),
            VolumeFault::NameMissing => Some(2),
            VolumeFault::NoSpace => Some(3),
            VolumeFault::TooManyExtents => Some(4),
            VolumeFault::Memory => None,
        }
    }
}
