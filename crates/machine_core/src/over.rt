//! A job that is over gives back what it has.
ghost use Rattle.std.specs.Prelude.{◌≡◌, ◌≢◌, All};
ghost use Rattle.enq_core.specs.Holds.{HoldsNone};
ghost use Rattle.world_meaning.specs.Holdings.{cancels_without};
ghost use Rattle.world_meaning.specs.Worlds.{Config};
ghost use Rattle.queued_job.specs.Releases.{Releases};
ghost use Rattle.place_core.specs.Keepings.{GivesBackAll};
ghost use Rattle.shared_core.specs.Tracks.{ConservesTracks};
ghost use Rattle.machine_core.specs.Released.{GivesBack, IsReleased};

use crate::parts::Parts;
use cb_queue::store::RecordStore;
use enq_core::table::Held;
use place_core::keep::give_all_back_for;
use queued_job::records::release_records;
use shared_core::laws::tracks_are_conserved;
use shared_core::store::SharedStore;
use shared_core::sums::volumes_add_up;

/// Gives back the tracks that are kept for a job.
fn leave_volumes(store: &mut SharedStore, job: u16)
    ensures back { GivesBackAll job store.old store.new }
    ensures conserves { ConservesTracks store.old store.new }
{
    tracks_are_conserved();
    volumes_add_up(&*store);
    give_all_back_for(store, job);
    volumes_add_up(&*store);
}

/// What a job that is over, and does not wait, gives back beside its kept tracks and its names: its records, and a cancel that did not act. It takes no memory.
pub fn release_rest<Q: RecordStore>(parts: &mut Parts<Q>, job: u16)
    requires some { job ≢ 0 }
    requires unqueued { All (λ x. x.job ≢ job) (Q.queue parts.old.queue).waiting }
    ensures records { Releases job (Q.queue parts.old.queue) (Q.queue parts.new.queue) }
    ensures rest { parts.new ≡ record parts.old { queue = parts.new.queue; cancels = cancels_without parts.old.cancels job } }
{
    release_records(&mut parts.queue, job);
    parts.cancels.remove(job);
}

/// Gives back all but the names.
fn leave<Q: RecordStore>(parts: &mut Parts<Q>, job: u16)
    requires some { job ≢ 0 }
    requires unqueued { All (λ x. x.job ≢ job) (Q.queue parts.old.queue).waiting }
    ensures records { Releases job (Q.queue parts.old.queue) (Q.queue parts.new.queue) }
    ensures back { GivesBackAll job parts.old.store parts.new.store }
    ensures conserves { ConservesTracks parts.old.store parts.new.store }
    ensures rest { parts.new ≡ record parts.old { store = parts.new.store; queue = parts.new.queue; cancels = cancels_without parts.old.cancels job } }
{
    leave_volumes(&mut parts.store, job);
    release_rest(parts, job);
}

/// A job whose names are held gives them back, its kept tracks, its records, and a cancel that did not act. It takes no memory.
pub fn release<Q: RecordStore>(parts: &mut Parts<Q>, job: u16, held: Held)
    requires some { job ≢ 0 }
    requires its_own { held ≡ job }
    requires unqueued { All (λ x. x.job ≢ job) (Q.queue parts.old.queue).waiting }
    ensures back { GivesBack Q.queue job parts.old parts.new }
    ensures released { (c : Config) → c.layout ≡ (Q.queue parts.old.queue).layout → IsReleased Q.queue c job parts.old parts.new }
{
    leave(parts, job);
    parts.names.release(held);
}

/// The same of a job that holds no name.
pub fn release_unnamed<Q: RecordStore>(parts: &mut Parts<Q>, job: u16)
    requires some { job ≢ 0 }
    requires unnamed { HoldsNone parts.old.names job }
    requires unqueued { All (λ x. x.job ≢ job) (Q.queue parts.old.queue).waiting }
    ensures back { GivesBack Q.queue job parts.old parts.new }
    ensures released { (c : Config) → c.layout ≡ (Q.queue parts.old.queue).layout → IsReleased Q.queue c job parts.old parts.new }
{
    leave(parts, job);
}
