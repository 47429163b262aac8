//! The words of the listing.
use jname_core::serial::Serial;

/// What taking a DD did.
#[derive(Clone, Copy)]
pub enum TakeWord {
    Made(Serial),
    Found(Serial),
    Received(Serial),
    /// Output of this class.
    Sysout(u8),
    Dummy,
    /// So many cards.
    Cards(usize),
}

/// What a disposition did.
#[derive(Clone, Copy, PartialEq, Eq)]
pub enum DispWord {
    Kept,
    Deleted,
    Passed,
    Cataloged,
    Uncataloged,
    /// A set that is not to be deleted yet was kept.
    Unexpired,
    /// The catalog has an entry for another volume.
    F3,
    /// The catalog has no entry to remove.
    F4,
    /// The set is gone.
    F8,
    /// Output with so many records.
    Spooled(usize),
    /// Nothing is to be done.
    Nothing,
}

/// What became of a DD that was given back.
#[derive(Clone, Copy, PartialEq, Eq)]
pub enum BackWord {
    Deleted,
    Kept,
}
