//! The jobs that wait.
ghost use Rattle.std.specs.Prelude.{◌≡◌, ◌≢◌, ◌<◌, ◌==◌, ◌++◌, ◌∷◌, [], All, IfNone, IfSome, OnErr, OnOk, filter, length, not};
ghost use Rattle.queue_core.specs.Queues.{HasNoneOf, IsFirstOf, IsJobOf};
ghost use Rattle.queue_core.specs.Ranks.{AreBounded, IsLeast, IsVacant, rank_of};

use std::alloc::{AllocError, Global};
use std::cmp::Reverse;
use std::collections::{BTreeMap, BTreeSet};
use std::marker::Model;

/// A job that waits, by its number, its class and its priority.
#[derive(Clone, Copy, PartialEq, Eq)]
pub struct Queued {
    pub job: u16,
    /// The number of its first record.
    pub jct: u32,
    pub class: u8,
    pub priority: u8,
}

/// A job by its turn: those of a class together, the highest priority first, and of these the one that was read first.
/// The number of its first record goes along.
#[derive(Clone, Copy, PartialEq, Eq, PartialOrd, Ord)]
struct Rank {
    class: u8,
    priority: Reverse<u8>,
    job: u16,
    jct: u32,
}

/// The jobs that wait, in the order of reading, which is that of their numbers.
#[derive(Drop)]
pub struct JobQueue {
    jobs: BTreeMap<u16, Queued>,
    ranks: BTreeSet<Rank>,
    /// The classes of which a job waits.
    occupied: [bool; 256],
}

impl Model for JobQueue {
    ghost use Rattle.std.specs.BTreeMap.{values};
    ghost use Rattle.std.specs.Prelude.{List};
    ghost use Rattle.queue_core.specs.declared.queue.Queued.{Queued};
    ghost use Rattle.queue_core.specs.Ranks.{IsRanked};

    ghost Value = { List Queued };

    ghost view = { λ q. values q.jobs };

    ghost invariant = { λ q. IsRanked q.jobs q.ranks q.occupied };
}

impl JobQueue {
    /// No job waits.
    pub fn new(alloc: Global) -> JobQueue
        ensures { result ≡ [] }
    {
        JobQueue {
            jobs: BTreeMap::new(alloc),
            ranks: BTreeSet::new(alloc),
            occupied: [false; 256],
        }
    }

    /// How many jobs wait.
    pub fn len(&self) -> usize
        ensures { result ≡ length self.now }
    {
        self.jobs.len()
    }

    /// A job that was read behind all others waits too.
    pub fn enter(&mut self, queued: Queued) -> Result<(), AllocError>
        requires later { All (λ x. x.job < queued.job) self.old }
        ensures ok { OnOk result (self.new ≡ self.old ++ queued ∷ []) }
        ensures err { OnErr result (self.new ≡ self.old) }
    {
        let Ok(_) = self.ranks.insert(rank_of(queued)) else {
            return Err(AllocError);
        };
        let Ok(_) = self.jobs.insert(queued.job, queued) else {
            self.ranks.remove(&rank_of(queued));
            return Err(AllocError);
        };
        self.occupied[usize::from(queued.class)] = true;
        Ok(())
    }

    /// The job of a class that is selected next.
    pub fn first(&self, class: u8) -> Option<Queued>
        ensures some { IfSome result (IsFirstOf self.now class) }
        ensures none { IfNone result (HasNoneOf self.now class) }
    {
        if !self.occupied[usize::from(class)] {
            return None;
        }
        first_of(&self.ranks, class)
    }

    /// Takes a job out, and tells which. It takes no memory.
    pub fn remove(&mut self, job: u16) -> Option<Queued>
        ensures left { self.new ≡ filter (λ x. not (x.job == job)) self.old }
        ensures some { IfSome result (IsJobOf self.old job) }
        ensures none { IfNone result (All (λ x. x.job ≢ job) self.old) }
    {
        let queued = self.jobs.remove(&job)?;
        self.ranks.remove(&rank_of(queued));
        if first_of(&self.ranks, queued.class).is_none() {
            self.occupied[usize::from(queued.class)] = false;
        }
        Some(queued)
    }
}

fn rank_of(queued: Queued) -> Rank
    ensures { result ≡ rank_of queued }
{
    Rank {
        class: queued.class,
        priority: Reverse(queued.priority),
        job: queued.job,
        jct: queued.jct,
    }
}

/// The first rank of a class, as its job.
fn first_of(ranks: &BTreeSet<Rank>, class: u8) -> Option<Queued>
    requires { AreBounded ranks.now }
    ensures some { IfSome result (IsLeast ranks.now class) }
    ensures none { IfNone result (IsVacant ranks.now class) }
{
    let lowest = Rank {
        class,
        priority: Reverse(u8::MAX),
        job: 0,
        jct: 0,
    };
    let rank = ranks.range(lowest..).next()?;
    if rank.class != class {
        return None;
    }
    Some(Queued {
        job: rank.job,
        jct: rank.jct,
        class,
        priority: rank.priority.0,
    })
}
