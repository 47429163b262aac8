//! What a DD goes for, and what taking it decides.
use crate::state::Passed;
use jcl_plan::fault::Fault;
use jname_core::serial::Serial;

/// The volume that VOL names.
#[derive(Clone, Copy)]
pub enum Where {
    /// VOL is not coded.
    Anywhere,
    At(Serial),
    /// It refers to a volume that is not there.
    Lost,
}

/// What a DD goes for.
#[derive(Clone, Copy)]
pub enum Target {
    /// A set to be made, on a volume if there is one.
    Makes(Option<Serial>),
    Finds(Serial),
    Receives(Passed),
    FindsByCatalog(Serial),
    Misses,
}

/// How a set was taken.
#[derive(Clone, Copy, PartialEq, Eq)]
pub enum How {
    Made,
    Found,
    FoundByCatalog,
    /// With the marks of the pass.
    Received { made: bool, by_catalog: bool },
}

/// What taking a set decides.
#[derive(Clone, Copy)]
pub enum Decision {
    Refuses(Fault),
    Takes(Serial, How),
}
