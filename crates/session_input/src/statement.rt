//! The statements of the configuration.
use extent_core::extent::Extent;
use jcl_plan::day::Day;
use jname_core::ds_name::DsName;
use jname_core::name8::{Name8, UnitName};
use jname_core::serial::Serial;
use kept_requests::requests::SharedRequests;
use plain::lent::Lent;
use plain::listed::Listed;
use plain::text::Text;
use set_core::records::Records;

/// The most generations of a group.
pub const MOST_GENERATIONS: u16 = 255;

/// The most requests of a program, its end counted.
pub const MOST_REQUESTS: usize = 4_096;

/// A set that is there at the start, whether it is catalogued, and the day before which it is not to be deleted, if it has one.
#[derive(Drop)]
pub struct SetStatement {
    pub name: DsName,
    pub serial: Serial,
    pub tracks: u16,
    pub catalogued: bool,
    pub expires: Option<Day>,
    pub records: Records,
}

/// A statement of the configuration.
#[derive(Drop)]
pub enum ConfigStatement<'a> {
    /// A volume, and the tracks of it that are never free.
    Volume {
        serial: Serial,
        tracks: u16,
        used: Listed<Extent>,
    },
    Unit {
        name: UnitName,
        serials: Listed<Serial>,
    },
    /// A generation group; it scratches what rolls off, or does not.
    Group {
        base: DsName,
        limit: u16,
        scratch: bool,
    },
    Set(SetStatement),
    /// A procedure of the library, and its lines.
    Procedure {
        name: Name8,
        lines: Listed<Lent<'a>>,
    },
    Program {
        name: Name8,
        requests: SharedRequests,
    },
    Initiator {
        number: u16,
        classes: Text,
    },
}
