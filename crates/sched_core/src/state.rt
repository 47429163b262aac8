//! The machine between two events.
use cb_queue::store::RecordStore;
use init_core::running::Running;
use machine_core::parts::Parts;
use plain::short::Short;
use queued_job::backlog::Backlog;

/// An initiator, the classes that it selects from, in their order, and its job.
pub struct Initiator {
    pub number: u8,
    pub classes: Short<8>,
    pub running: Option<Running>,
}

/// What changes from event to event: what jobs change, the initiators with their jobs, the listings of the jobs that wait, how many job numbers were given
/// and how many events came.
pub struct State<Q: RecordStore> {
    pub parts: Parts<Q>,
    pub initiators: Vec<Initiator>,
    pub backlog: Backlog,
    pub jobs: u16,
    pub events: u16,
}
