//! A job's records are given back.
ghost use Rattle.std.specs.Prelude.{◌≢◌, All};
ghost use Rattle.queued_job.specs.Releases.{Releases};

use cb_queue::laws::shows_records;
use cb_queue::store::RecordStore;

/// Gives every record of a job that does not wait back, whether or not its chains reach it.
pub fn release_records<Q: RecordStore>(queue: &mut Q, job: u16)
    requires some { job ≢ 0 }
    requires unqueued { All (λ x. x.job ≢ job) (Q.queue queue.old).waiting }
    ensures { Releases job (Q.queue queue.old) (Q.queue queue.new) }
{
    let _layout = queue.layout();
    shows_records();
    queue.give_back_all(job);
}
