//! Cancels of admitted jobs that have not acted yet.
ghost use Rattle.std.specs.Prelude.{◌≡◌, [], OnErr, OnOk};
ghost use Rattle.world_meaning.specs.Holdings.{cancels_without};
ghost use Rattle.world_meaning.specs.Turns.{has_cancel};
ghost use Rattle.queued_job.specs.Cancelled.{with_job};

use std::alloc::{AllocError, Global};
use std::marker::Model;

/// The jobs whose cancel has not acted yet, in the order of coming.
#[derive(Drop)]
pub struct Cancels {
    jobs: Vec<u16>,
}

impl Model for Cancels {
    ghost use Rattle.std.specs.Prelude.{ℕ, List};

    ghost Value = { List ℕ };

    ghost view = { λ c. c.jobs.items };
}

impl Cancels {
    /// No cancel.
    pub fn new(alloc: Global) -> Cancels
        ensures { result ≡ [] }
    {
        Cancels {
            jobs: Vec::new(alloc),
        }
    }

    /// Whether a cancel of the job has not acted yet.
    pub fn has(&self, job: u16) -> bool
        ensures { result ≡ has_cancel self.now job }
    {
        self.jobs.iter().any(|other| *other == job)
    }

    /// The job is cancelled. While one cancel has not acted another adds nothing. An `Err` changes nothing.
    pub fn add(&mut self, job: u16) -> Result<(), AllocError>
        ensures ok { OnOk result (self.new ≡ with_job self.old job) }
        ensures err { OnErr result (self.new ≡ self.old) }
    {
        if self.has(job) {
            return Ok(());
        }
        self.jobs.push(job)?;
        Ok(())
    }

    /// The job's cancel has acted, or the job is over.
    pub fn remove(&mut self, job: u16)
        ensures { self.new ≡ cancels_without self.old job }
    {
        self.jobs.retain(|other| *other != job);
    }
}
