//! Jobs that wait, and which of them is selected.
ghost use Rattle.std.specs.Prelude.{◌≡◌, ◌≢◌, ◌≤◌, [], true};
ghost use Rattle.cb_queue.specs.RecordQueues.{IsQueued};

use crate::store::nobody_waits;
use cb_queue::store::RecordStore;
use queue_core::queue::Queued;
use queued_job::selecting::select;
use row_table::desk::Line;
use row_table::told::Told;
use std::alloc::Global;

#[derive(Clone, Copy)]
pub(crate) enum WaitingVerb {
    Wait,
    Waiting,
    First,
    Select,
    Remove,
}

/// A job that waits: its number and that of its first record, its class and its priority.
fn tell_queued(told: &mut Told, queued: Option<Queued>) {
    let Some(queued) = queued else {
        return told.line(b"NONE");
    };
    told.numbered(b"JOB ", u64::from(queued.job));
    told.numbered(b" RECORD ", u64::from(queued.jct));
    told.two(b" CLASS ", &[queued.class]);
    told.numbered_line(b" PRTY ", u64::from(queued.priority));
}

/// The first byte of what is left of a line.
fn class_of(alloc: Global, line: &mut Line<'_>) -> u8 {
    let text = line.told.got(line.words.text(alloc));
    if let Some(text) = text
        && let Some(class) = text.first()
    {
        return *class;
    }
    line.words.refuse();
    0
}

/// Whether a job may wait so: its first record is its own, and its class and its priority are those that a job can have.
fn may_wait<S: RecordStore>(store: &S, queued: Queued) -> bool
    ensures { result ≡ true → IsQueued (S.queue store.now) queued }
{
    let _layout = store.layout();
    match store.get(queued.jct) {
        None => false,
        Some(rec) => rec.owner() == queued.job && can_be_of_a_job(queued),
    }
}

/// Whether a job has a number, and its class and its priority are those that a job can have.
fn can_be_of_a_job(queued: Queued) -> bool
    ensures { result ≡ true → (queued.job ≢ 0) × (65 ≤ queued.class) × (queued.class ≤ 79) × (queued.priority ≤ 13) }
{
    queued.job != 0 && 65 <= queued.class && queued.class <= 79 && queued.priority <= 13
}

/// Lets a job wait, if it may.
fn wait_first<S: RecordStore>(store: &mut S, queued: Queued, told: &mut Told)
    requires { (S.queue store.old).waiting ≡ [] }
{
    if may_wait(store, queued) {
        told.over(store.enter(queued));
    } else {
        told.not_allowed();
    }
}

/// Lets a job wait where nobody waits yet, which is all that a text can be sure of: each job has to be after all others.
fn wait<S: RecordStore>(alloc: Global, store: &mut S, line: &mut Line<'_>) {
    let job = line.words.short();
    let jct = line.words.number();
    let priority = line.words.byte();
    let class = class_of(alloc, line);
    let queued = Queued {
        job,
        jct,
        class,
        priority,
    };
    if nobody_waits(store) {
        wait_first(store, queued, &mut line.told);
    } else {
        line.told.not_allowed();
    }
}

/// Does a command about the jobs that wait.
pub(crate) fn on_waiting<S: RecordStore>(
    alloc: Global,
    store: &mut S,
    verb: WaitingVerb,
    line: &mut Line<'_>,
) {
    match verb {
        WaitingVerb::Wait => wait(alloc, store, line),
        WaitingVerb::Waiting => line
            .told
            .numbered_line(b"WAITING ", store.waiting_count() as u64),
        WaitingVerb::First => {
            let class = class_of(alloc, line);
            tell_queued(&mut line.told, store.first(class));
        }
        WaitingVerb::Select => tell_queued(&mut line.told, select(store, line.words.next_word())),
        WaitingVerb::Remove => tell_queued(&mut line.told, store.remove(line.words.short())),
    }
}
