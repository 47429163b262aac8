//! An initiator's next job.
ghost use Rattle.std.specs.Prelude.{All, IfSome, take};
ghost use Rattle.queue_core.specs.Queues.{HasNoneOf, IsFirstOf};
ghost use Rattle.queued_job.specs.Selecting.{SelectsOf};

use cb_queue::store::RecordStore;
use queue_core::queue::Queued;

/// The first job of the first of these classes that has one.
pub fn select<Q: RecordStore>(queue: &Q, classes: &[u8]) -> Option<Queued>
    ensures value { SelectsOf (Q.queue queue.now).waiting classes.now result }
    ensures first { IfSome result (λ queued. IsFirstOf (Q.queue queue.now).waiting queued.class queued) }
{
    for class in classes {
        if let Some(queued) = queue.first(*class) {
            return Some(queued);
        }
    }
    None
}
