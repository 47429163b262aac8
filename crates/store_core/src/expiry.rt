//! The day of a data set, as a job names it. (GC28-6704: LABEL)
ghost use Rattle.std.specs.Prelude.{◌≡◌};
ghost use Rattle.store_core.specs.Expiries.{expiry_of};

use crate::job_store::JobStore;
use crate::meanings::{SeenBy, resolution_of};
use jcl_meaning::state::Resolution;
use jname_core::key::Key;
use jname_core::serial::Serial;

/// The day before which the data set that a job names so is not to be deleted, counted from 1900/001 as 0. There is none where the name means nothing, where
/// the data set is not on that volume, and where it has no such day. It takes no memory.
pub fn expiry_of<S: JobStore>(store: &S, job: u16, key: &Key, serial: Serial) -> Option<u32>
    ensures { result ≡ expiry_of (S.seen job store.now) key.now serial }
{
    match resolution_of(&SeenBy { store, job }, key) {
        Resolution::Means(key) => store.set(job, &key, serial)?.expires,
        Resolution::Fails(_) => None,
    }
}
