//! What any store of records does.
ghost use Rattle.std.specs.Prelude.{◌≡◌, ◌≢◌, ℕ, ◌+◌, ◌<◌, ◌≤◌, ◌==◌, ◌++◌, ◌∷◌, [], Some, All, IfNone, IfSome, IsSome, OnErr, OnOk, filter, length, not};
ghost use Rattle.std.specs.Option.{option_copied};
ghost use Rattle.cb_meaning.specs.Fields.{field, number_at};
ghost use Rattle.cb_queue.specs.RecordQueues.{IsLent, IsQueued, IsSoundQueue, RecordQueue, all_given_back, given_back, last_in_use, next_free, owner_at, record_at, taken, unlinked, with_record_at, with_status};
ghost use Rattle.queue_core.specs.Queues.{HasNoneOf, IsFirstOf, IsJobOf};

use cb_meaning::layout::Layout;
use cb_records::rec::Rec;
use queue_core::queue::Queued;
use std::alloc::AllocError;

/// A store of records that are taken and given back, each by its number from 1, and of the jobs that wait. Only `make_room` and `enter` take memory.
pub trait RecordStore {
    /// What the store means.
    ghost queue: { Self → RecordQueue };

    /// For how many of its free records it still has to get memory.
    ghost lacking: { Self → ℕ };

    /// Where the fields of its records stand, and how many there are.
    fn layout(&self) -> &Layout
        ensures value { result.now ≡ (queue self.now).layout }
        ensures sound { IsSoundQueue (queue self.now) };

    /// A record in use. Its link is the store's own.
    fn get(&self, n: u32) -> Option<&Rec>
        ensures { IsLent (queue self.now).layout (record_at (queue self.now) n) (option_copied result) };

    /// Writes a record in use anew, but for its owner, which stays. What stands in its link does not matter.
    fn put(&mut self, n: u32, rec: &Rec)
        requires used { IsSome (record_at (queue self.old) n) }
        requires owner { number_at rec.now (field 2 2) ≡ owner_at (queue self.old) n }
        ensures value { queue self.new ≡ with_record_at (queue self.old) n (Some (unlinked (queue self.old).layout rec.now)) }
        ensures room { lacking self.new ≡ lacking self.old };

    /// Writes the status of a record in use: bytes 168 to 175.
    fn write_status(&mut self, n: u32, status: &[u8; 8])
        requires { IsSome (record_at (queue self.old) n) }
        ensures value { queue self.new ≡ with_status (queue self.old) n status.now }
        ensures room { lacking self.new ≡ lacking self.old };

    /// A number behind which no record is in use. It is a number of the layout, or 0.
    fn last_in_use(&self) -> u32
        ensures reaches { last_in_use (queue self.now).records ≤ result }
        ensures few { result ≤ (queue self.now).layout.most_records };

    /// How many records are free.
    fn free_count(&self) -> u32
        ensures { result ≡ length (queue self.now).free };

    /// The record that is taken next, if one is free.
    fn next_free(&self) -> Option<u32>
        ensures { result ≡ next_free (queue self.now) };

    /// Gets memory for so many of the free records. The queue stays as it is, also where there is no memory.
    fn make_room(&mut self, count: u32) -> Result<(), AllocError>
        requires { count ≤ length (queue self.old).free }
        ensures room { OnOk result (lacking self.new + count ≤ length (queue self.new).free) }
        ensures same { queue self.new ≡ queue self.old };

    /// Takes the next free record for a job, or tells that none is free. The record is of zeros but for its owner. Where one is free, there has to be memory for
    /// it.
    fn take_free(&mut self, owner: u16) -> Option<u32>
        requires owner { owner ≢ 0 }
        requires room { 1 ≤ length (queue self.old).free → lacking self.old + 1 ≤ length (queue self.old).free }
        ensures answer { result ≡ next_free (queue self.old) }
        ensures taken { queue self.new ≡ taken (queue self.old) owner }
        ensures room { lacking self.new ≡ lacking self.old };

    /// Gives a record in use back. It is taken next. No job waits whose first record it is.
    fn give_back(&mut self, n: u32)
        requires used { IsSome (record_at (queue self.old) n) }
        requires unqueued { All (λ x. x.jct ≢ n) (queue self.old).waiting }
        ensures value { queue self.new ≡ given_back (queue self.old) n }
        ensures room { lacking self.new ≡ lacking self.old };

    /// Gives every record of a job back, the one with the highest number first. The job does not wait.
    fn give_back_all(&mut self, owner: u16)
        requires owner { owner ≢ 0 }
        requires unqueued { All (λ x. x.job ≢ owner) (queue self.old).waiting }
        ensures value { queue self.new ≡ all_given_back (queue self.old) owner }
        ensures room { lacking self.new ≡ lacking self.old };

    /// A job that was read after all others waits too. Its first record is in use.
    fn enter(&mut self, queued: Queued) -> Result<(), AllocError>
        requires later { All (λ x. x.job < queued.job) (queue self.old).waiting }
        requires queued { IsQueued (queue self.old) queued }
        ensures ok { OnOk result (queue self.new ≡ record (queue self.old) { waiting = (queue self.old).waiting ++ queued ∷ [] }) }
        ensures err { OnErr result (queue self.new ≡ queue self.old) }
        ensures room { lacking self.new ≡ lacking self.old };

    /// The job of a class that is selected next.
    fn first(&self, class: u8) -> Option<Queued>
        ensures some { IfSome result (IsFirstOf (queue self.now).waiting class) }
        ensures none { IfNone result (HasNoneOf (queue self.now).waiting class) };

    /// The job that is selected next of its class waits no longer. Its records stay.
    fn remove_first(&mut self, queued: Queued)
        requires { IsFirstOf (queue self.old).waiting queued.class queued }
        ensures left { queue self.new ≡ record (queue self.old) { waiting = filter (λ x. not (x.job == queued.job)) (queue self.old).waiting } }
        ensures room { lacking self.new ≡ lacking self.old };

    /// A job waits no longer. Tells which it was. Its records stay.
    fn remove(&mut self, job: u16) -> Option<Queued>
        ensures left { queue self.new ≡ record (queue self.old) { waiting = filter (λ x. not (x.job == job)) (queue self.old).waiting } }
        ensures some { IfSome result (IsJobOf (queue self.old).waiting job) }
        ensures none { IfNone result (All (λ x. x.job ≢ job) (queue self.old).waiting) }
        ensures room { lacking self.new ≡ lacking self.old };

    /// How many jobs wait.
    fn waiting_count(&self) -> usize
        ensures { result ≡ length (queue self.now).waiting };
}
