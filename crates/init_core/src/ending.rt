//! An admitted job that is over gives back what it has.
ghost use Rattle.std.specs.Prelude.{◌≡◌, ◌≢◌, All};
ghost use Rattle.world_meaning.specs.Worlds.{Config};
ghost use Rattle.admit_core.specs.Admissions.{named_of};
ghost use Rattle.machine_core.specs.Released.{GivesBack, IsReleased};

use admit_core::admission::AdmittedJob;
use admit_core::ending::end_job;
use cb_queue::store::RecordStore;
use machine_core::over::release_rest;
use machine_core::parts::Parts;

/// An admitted job gives back its kept tracks, its names, its records, and a cancel that did not act. It takes no memory.
pub fn release_admitted<Q: RecordStore>(parts: &mut Parts<Q>, job: u16, admitted: AdmittedJob)
    requires some { job ≢ 0 }
    requires its_own { (named_of admitted).held ≡ job }
    requires unqueued { All (λ x. x.job ≢ job) (Q.queue parts.old.queue).waiting }
    ensures back { GivesBack Q.queue job parts.old parts.new }
    ensures released { (c : Config) → c.layout ≡ (Q.queue parts.old.queue).layout → IsReleased Q.queue c job parts.old parts.new }
{
    end_job(&mut parts.store, &mut parts.names, job, admitted);
    release_rest(parts, job);
}
