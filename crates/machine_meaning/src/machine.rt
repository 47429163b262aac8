//! The limits of the machine, and the sets of its writers.
use jcl_plan::entry::Written;
use plain::listed::Listed;

/// The most events that a machine takes.
pub const MOST_EVENTS: u16 = 65_535;

/// The most jobs that it takes.
pub const MOST_JOBS: u16 = 9_999;

/// Lines of one class and one job for a writer.
#[derive(Drop)]
pub struct SpoolSet {
    pub class: u8,
    pub job: u16,
    pub lines: Listed<Written>,
}
