//! The listings of the jobs that wait.
ghost use Rattle.std.specs.Prelude.{◌≡◌, ◌≢◌, ◌<◌, ◌==◌, ◌++◌, ◌∷◌, [], All, IfNone, IfOk, IfSome, OnErr, OnOk, filter, not};
ghost use Rattle.std.specs.List.{list_any};
ghost use Rattle.queued_job.specs.Backlogs.{IsListingOf, IsTakenWith, IsTold};

use jcl_plan::entry::JobLine;
use plain::listed::Listed;
use std::alloc::{AllocError, Global};
use std::collections::BTreeMap;
use std::marker::Model;

/// A job's lines so far.
#[derive(Drop)]
pub struct Listing {
    pub job: u16,
    pub lines: Listed<JobLine>,
}

/// The listings of the jobs that wait, in the order of reading, which is that of their numbers.
#[derive(Drop)]
pub struct Backlog {
    listings: BTreeMap<u16, Listing>,
}

impl Model for Backlog {
    ghost use Rattle.std.specs.BTreeMap.{values};
    ghost use Rattle.std.specs.Prelude.{List};
    ghost use Rattle.queued_job.specs.declared.backlog.Listing.{Listing};
    ghost use Rattle.queued_job.specs.Backlogs.{AreListings};

    ghost Value = { List Listing };

    ghost view = { λ b. values b.listings };

    ghost invariant = { λ b. AreListings b.listings };
}

/// A line more of a job that waits, if it does. An `Err` changes nothing.
fn tell(listings: &mut BTreeMap<u16, Listing>, job: u16, line: JobLine) -> Result<(), AllocError>
    ensures ok { OnOk result (IsTold listings.old job line listings.new) }
    ensures err { OnErr result (listings.new.entries ≡ listings.old.entries) }
{
    match listings.get_mut(&job) {
        None => Ok(()),
        Some(listing) => listing.lines.push(line),
    }
}

impl Backlog {
    /// No job waits.
    pub fn new(alloc: Global) -> Backlog
        ensures { result ≡ [] }
    {
        Backlog {
            listings: BTreeMap::new(alloc),
        }
    }

    /// Whether a job waits.
    pub fn has(&self, job: u16) -> bool
        ensures { result ≡ list_any (λ x. x.job == job) self.now }
    {
        self.listings.contains_key(&job)
    }

    /// The listing of a job that was read behind all others. An `Err` changes nothing.
    pub fn enter(&mut self, listing: Listing) -> Result<(), AllocError>
        requires later { All (λ x. x.job < listing.job) self.old }
        ensures ok { OnOk result (self.new ≡ self.old ++ listing ∷ []) }
        ensures err { OnErr result (self.new ≡ self.old) }
    {
        let Ok(_) = self.listings.insert(listing.job, listing) else {
            return Err(AllocError);
        };
        Ok(())
    }

    /// Takes the listing of a job out. It takes no memory.
    pub fn take(&mut self, job: u16) -> Option<Listing>
        ensures left { self.new ≡ filter (λ x. not (x.job == job)) self.old }
        ensures some { IfSome result (IsListingOf self.old job) }
        ensures none { IfNone result (All (λ x. x.job ≢ job) self.old) }
    {
        self.listings.remove(&job)
    }
    /// Takes the listing of a job out, with this line behind its others. An `Err` changes nothing.
    pub fn take_with(&mut self, job: u16, line: JobLine) -> Result<Option<Listing>, AllocError>
        ensures ok { IfOk result (IsTakenWith self.old job line) }
        ensures left { OnOk result (self.new ≡ filter (λ x. not (x.job == job)) self.old) }
        ensures err { OnErr result (self.new ≡ self.old) }
    {
        tell(&mut self.listings, job, line)?;
        let listing = self.listings.remove(&job);
        Ok(listing)
    }
}
