//! Reading a job's plan from its records.
ghost use Rattle.cb_meaning.specs.Layouts.{HasOwnFields};
ghost use Rattle.cb_read.specs.Reads.{ReadsJob};

use crate::head::plan_read;
use crate::records::are_records;
use cb_queue::store::RecordStore;
use cb_walk::first_fault::first_fault;
use jcl_plan::plan::JobPlan;
use std::alloc::{AllocError, Global};
use thiserror::Error;
use walk_laws::faultless_denotes;

/// Why a job is not read.
#[derive(Clone, Copy, Debug, PartialEq, Eq, Error)]
pub enum ReadFault {
    #[error("the records have the fault B{0}")]
    Broken(u8),
    #[error("memory is missing")]
    Memory,
}

impl From<AllocError> for ReadFault {
    ghost use Rattle.std.specs.Prelude.{◌≡◌};
    ghost use Rattle.cb_read.specs.declared.read.ReadFault.TheVariants.{Memory};

    ghost from_gives = { λ _ fault. fault ≡ Memory };

    fn from(_error: AllocError) -> ReadFault {
        ReadFault::Memory
    }
}

/// The plan that the records of a job denote, or the number of the fault that strict reading tells first. The job's JCT is record `first`, and as many
/// lists of volumes are configured as `units`. It returns over every content of the store.
pub fn read_chain<S: RecordStore>(
    alloc: Global,
    store: &S,
    units: u16,
    job: u16,
    first: u32,
) -> Result<JobPlan, ReadFault>
    requires { HasOwnFields (S.queue store.now).layout }
    ensures { ReadsJob (S.queue store.now) units job first result }
{
    if let Some(fault) = first_fault(alloc, store, units, job, first)? {
        return Err(ReadFault::Broken(fault));
    }
    are_records(store);
    faultless_denotes();
    Ok(plan_read(alloc, store, first)?)
}
