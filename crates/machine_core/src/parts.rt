//! What all jobs change.
use cb_queue::store::RecordStore;
use enq_core::table::EnqTable;
use jcl_plan::day::Day;
use prog_core::units::Units;
use queued_job::cancels::Cancels;
use shared_core::store::SharedStore;
use spool_core::spool::Spool;

/// The store of all jobs, the queue with its records, the names that are held, the operations under way, the cancels that have not acted, what the
/// writers have to write, and the date.
#[derive(Drop)]
pub struct Parts<Q: RecordStore> {
    pub store: SharedStore,
    pub queue: Q,
    pub names: EnqTable,
    pub units: Units,
    pub cancels: Cancels,
    pub spool: Spool,
    pub date: Day,
}
