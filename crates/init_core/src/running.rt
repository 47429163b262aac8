//! A job at an initiator, and what is fixed for all jobs.
ghost use Rattle.std.specs.Prelude.{◌≡◌, ◌≤◌, drop, length, true};
ghost use Rattle.std.specs.Str.{bytes_eq};
ghost use Rattle.init_core.specs.declared.running.Progress.TheVariants as progress;
ghost use Rattle.machine_meaning.specs.declared.config.TheConstants.{MOST_UNITS};
ghost use Rattle.plain.specs.Lists.{all_different};

use admit_core::admission::AdmittedJob;
pub use admit_core::admission::NamedJob;
use enq_core::table::Want;
use jcl_plan::entry::JobLine;
use jcl_plan::plan::JobPlan;
use jname_core::serial::Serial;
use plain::listed::Listed;
use prog_core::library::ProgramLibrary;
use turn_core::walk::Walk;

/// How far an initiator is with its job.
pub enum Stage {
    /// Its records are to be read; its JCT is this record.
    Selected { first: u32 },
    /// They are read, and it waits for these names.
    Wanting { plan: JobPlan, wants: Listed<Want> },
    /// Its names are held.
    Named(NamedJob),
    /// It is admitted.
    Admitted(AdmittedJob),
}

/// A job at an initiator: its number, its place in its agenda with its own part and its listing so far, and how far the initiator is with it.
pub struct Running {
    pub job: u16,
    pub walk: Walk,
    pub stage: Stage,
}

impl Running {
    /// The lines of its listing from a place on.
    pub fn lines_from(&self, from: usize) -> &[JobLine]
        ensures { result.now ≡ drop from self.now.walk.course.lines }
    {
        let lines = self.walk.course.lines.as_slice();
        if from < lines.len() {
            &lines[from..]
        } else {
            &[]
        }
    }
}

/// What is fixed for all jobs: the serials of the volumes, of which no two are the same, the volumes of each unit name, the programs, whether jobs that may
/// fail are refused, the limit of views, and whether a risk's path is shown.
#[derive(Clone, Copy)]
pub struct Profile<'c> {
    pub volumes: &'c [Serial],
    pub units: &'c [Listed<Serial>],
    pub programs: &'c ProgramLibrary,
    pub refuses: bool,
    pub most_views: usize,
    pub explains: bool,
    pub ghost few_units: { length units.now ≤ MOST_UNITS },
    pub ghost apart: { all_different bytes_eq volumes.now ≡ true },
}

/// What a job was answered: its line, and the lines of the path that this tells, where they are asked for.
#[derive(Drop)]
pub struct Told {
    pub line: JobLine,
    pub path: Listed<JobLine>,
}

/// What a job's turn came to.
pub enum Progress {
    /// The job goes on. It wrote the lines of its listing from this place on.
    GoesOn { job: Running, from: usize },
    /// The job was answered so, and goes on.
    Answered { job: Running, told: Told },
    /// It is over, with this last line, and what it was answered before in the same turn.
    Over { before: Option<Told>, last: JobLine },
}

/// A job that is over: what it had is let go here, at one place.
pub(crate) fn over(walk: Walk, before: Option<Told>, last: JobLine) -> Progress
    ensures { result ≡ progress.Over before last }
{
    Progress::Over { before, last }
}
