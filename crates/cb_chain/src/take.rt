//! Records are taken one by one.
ghost use Rattle.std.specs.Prelude.{◌≡◌, ◌≢◌, ◌+◌, ◌≤◌, IsTrue, length};
ghost use Rattle.cb_chain.specs.Taking.{IsReady, TakesIf, is_more};

use cb_queue::store::RecordStore;

/// Takes the next record for a job where there is more to write. Tells its number, 0 where there is no more.
pub(crate) fn take_if<S: RecordStore>(store: &mut S, job: u16, more: bool) -> u32
    requires owner { job ≢ 0 }
    requires ready { IsReady (S.queue store.old) }
    requires room { IsTrue more → S.lacking store.old + 1 ≤ length (S.queue store.old).free }
    ensures value { TakesIf job more (S.queue store.old) (S.queue store.new) result }
    ensures room { S.lacking store.new ≡ S.lacking store.old }
{
    if more {
        store.take_free(job).unwrap()
    } else {
        0
    }
}

/// Whether there is anything.
pub(crate) fn is_more<T>(items: &[T]) -> bool
    ensures { result ≡ is_more items.now }
{
    !items.is_empty()
}
