//! What is seen of the machine after an event.
use enq_core::table::Hold;
use jcl_plan::entry::Entry;
use jname_core::serial::Serial;

/// An initiator and the job that it has.
#[derive(Clone, Copy)]
pub struct InitiatorSeen {
    pub number: u8,
    pub job: Option<u16>,
}

/// A volume: its free tracks, those that are kept for jobs, and whether an operation is under way on it.
#[derive(Clone, Copy)]
pub struct VolumeSeen {
    pub serial: Serial,
    pub free: usize,
    pub kept: usize,
    pub busy: bool,
}

/// An event's lines, and the machine after it.
#[derive(Clone, Copy)]
pub struct Moment<'a> {
    pub lines: &'a [Entry],
    pub initiators: &'a [InitiatorSeen],
    pub holds: &'a [Hold],
    pub volumes: &'a [VolumeSeen],
    /// Whether the event did anything.
    pub acts: bool,
}
