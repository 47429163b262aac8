//! A job that was admitted is over.
ghost use Rattle.std.specs.Prelude.{◌≡◌};
ghost use Rattle.enq_core.specs.Holds.{without_job};
ghost use Rattle.place_core.specs.Keepings.{GivesBackAll};
ghost use Rattle.shared_core.specs.Tracks.{ConservesTracks};
ghost use Rattle.admit_core.specs.Admissions.{named_of};

use crate::admission::AdmittedJob;
use enq_core::table::EnqTable;
use place_core::keep::give_all_back_for;
use shared_core::laws::tracks_are_conserved;
use shared_core::store::SharedStore;
use shared_core::sums::volumes_add_up;

/// A job of this number that is over gives back the tracks that are kept for it, and its names. It takes no memory.
pub fn end_job(store: &mut SharedStore, names: &mut EnqTable, number: u16, job: AdmittedJob)
    requires { (named_of job).held ≡ number }
    ensures back { GivesBackAll number store.old store.new }
    ensures conserves { ConservesTracks store.old store.new }
    ensures names { names.new ≡ without_job number names.old }
{
    tracks_are_conserved();
    volumes_add_up(&*store);
    give_all_back_for(store, number);
    volumes_add_up(&*store);
    let held = job.into_held();
    names.release(held);
}
