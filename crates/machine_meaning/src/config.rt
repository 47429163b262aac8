//! The configuration of a machine.
use jname_core::name8::UnitName;
use jname_core::serial::Serial;
use plain::listed::Listed;
use plain::short::Short;

/// The most volumes.
pub const MOST_VOLUMES: usize = 16;

/// The most unit names.
pub const MOST_UNITS: usize = 65_535;

/// The highest number of an initiator.
pub const LAST_INITIATOR: u16 = 15;

/// A unit name, and its volumes in order.
#[derive(Drop)]
pub struct ConfiguredUnit {
    pub name: UnitName,
    pub serials: Listed<Serial>,
}

/// An initiator, and the classes that it selects from, in their order.
#[derive(Clone, Copy)]
pub struct ConfiguredInitiator {
    pub number: u8,
    pub classes: Short<8>,
}

/// Why a statement of the configuration is refused. It changes nothing.
#[derive(Clone, Copy, PartialEq, Eq)]
pub enum ConfigFault {
    BadValue,
    DefinedTwice,
}
