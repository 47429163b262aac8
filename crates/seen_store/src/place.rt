//! Where a set stands.
use jname_core::key::Key;
use jname_core::serial::Serial;

/// A key and the serial of a volume. They stand in the order of keys, those of one key in the order of serials.
#[derive(Clone, Copy, PartialEq, Eq, PartialOrd, Ord)]
pub struct SetPlace {
    pub key: Key,
    pub serial: Serial,
}
