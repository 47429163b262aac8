//! What became of decks.
ghost use Rattle.std.specs.Prelude.{◌≡◌, None, option_map, slice_index_or};

use crate::answers::stays::Days;
use jcl_plan::entry::JobLine;
use jcl_plan::fault::Fault;
use jcl_plan::outcome::Outcome;
use jname_core::serial::Serial;
use plain::listed::Listed;

/// What admission answers a job.
#[derive(Drop)]
pub enum Answer {
    /// It cannot fail by its JCL: so many tracks are kept for it, and it writes at most so many lines from there on.
    Assured {
        tracks: usize,
        actions: usize,
    },
    /// It may fail: the earliest fault, the step and the DD that meet it, which count from 1, outcomes of the steps before that lead there, and the lines
    /// that the job would write alone by them, of which the last tells the fault.
    Risk {
        fault: Fault,
        step: usize,
        dd: usize,
        path: Listed<Outcome>,
        lines: Listed<JobLine>,
    },
    /// There are more views than the limit behind this step, which counts from 1, and up to there no path meets a fault.
    TooMany(usize),
    /// Its sets have no room on this volume, and it asks again.
    SpaceWait(Serial),
}

/// A deck of a session.
#[derive(Clone, Copy)]
pub struct DeckRead {
    /// Which statement of the session reads it, counted from 0.
    pub statement: usize,
    /// The number of its job. A deck that is not read, since its event is never reached or is refused, has none.
    pub job: Option<u16>,
}

/// What became of the decks of a session.
#[derive(Drop)]
pub struct Answers {
    /// In the order of their statements.
    pub decks: Vec<DeckRead>,
    /// What admission answered each job last, at the place of the job's number.
    pub by_job: Vec<Option<Answer>>,
    /// The days of data sets that jobs kept on the way to their faults, by the jobs' numbers.
    pub days: Days,
}

impl Answers {
    /// What admission answered this job last, if it came so far.
    pub fn of_job(&self, job: u16) -> Option<&Answer>
        ensures { option_map (λ a. a.now) result ≡ slice_index_or self.now.by_job.items job None }
    {
        match self.by_job.as_slice().get(usize::from(job)) {
            Some(Some(answer)) => Some(answer),
            _ => None,
        }
    }
}
