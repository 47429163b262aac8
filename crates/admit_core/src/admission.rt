//! What a job is answered whose names are held, and the jobs that then go on. Whoever has one of these jobs has its names, and must spend it.
ghost use Rattle.std.specs.Prelude.{◌≡◌};
ghost use Rattle.jcl_plan.specs.declared.entry.JobLine.TheVariants as line;
ghost use Rattle.admit_core.specs.Admissions.{behind, given_to, is_assured, line_of, named_of};

use enq_core::table::Held;
use jcl_meaning::meanings::Meanings;
use jcl_meaning::places::Places;
use jcl_plan::day::Day;
use jcl_plan::entry::JobLine;
use jcl_plan::plan::JobPlan;
use jname_core::serial::Serial;
use path_search::verdict::RiskReport;
use plain::listed::Listed;
use verdict_core::known::KnownPlan;

/// A job that is read and whose names are held: its plan, with what was found of it while it waits for space. It must be spent.
pub struct NamedJob {
    pub plan: KnownPlan,
    pub held: Held,
}

impl NamedJob {
    /// A job of which nothing is found yet.
    pub fn new(plan: JobPlan, held: Held) -> NamedJob
        ensures { result ≡ record { plan = plan; held = held } }
    {
        NamedJob {
            plan: KnownPlan::new(plan),
            held,
        }
    }

    pub fn plan(&self) -> &JobPlan
        ensures { result.now ≡ self.now.plan }
    {
        self.plan.plan()
    }
}

/// What is fixed for a job by its admission: where its sets are placed, what its keys mean, its date.
#[derive(Drop)]
pub struct Provision {
    pub places: Places,
    pub meanings: Meanings,
    pub date: Day,
}

/// A job that cannot fail: the primary of each set that some path makes is kept for it, so many tracks in all, and it writes so many lines at most. It
/// must be spent.
pub struct AssuredJob {
    pub named: NamedJob,
    pub given: Provision,
    pub tracks: usize,
    pub actions: usize,
}

/// A job that may fail, or of which that is not found; it runs with checks. It must be spent.
pub struct RiskyJob {
    pub named: NamedJob,
    pub given: Provision,
}

/// What a job is answered whose names are held.
pub enum Admission {
    /// ASSURED: it goes on, and cannot fail.
    Assured(AssuredJob),
    /// RISK: it goes on, and may fail so.
    Risky(RiskyJob, RiskReport),
    /// TOOMANY: it goes on, and may fail; its analysis ended behind this step.
    TooMany(RiskyJob, usize),
    /// WAIT SPACE: it waits as it was, since this volume has no room for all that would be kept on it.
    SpaceWait(NamedJob, Serial),
}

/// An admission, with the lines of the path to its risk, where they are asked for.
pub struct Answer {
    pub admission: Admission,
    pub path: Listed<JobLine>,
}

/// A job from its admission to its end. It must be spent.
pub enum AdmittedJob {
    Assured(AssuredJob),
    Risky(RiskyJob),
}

/// A job behind its answer: it is admitted, or it waits with its names.
pub enum Behind {
    Admitted(AdmittedJob),
    Waits(NamedJob),
}

fn risk_line(report: RiskReport) -> JobLine
    ensures { result ≡ line.Risk report.fault report.step report.dd report.path.items }
{
    let RiskReport {
        fault,
        step,
        dd,
        path,
    } = report;
    JobLine::Risk {
        fault,
        step,
        dd,
        path: Listed::new(path),
    }
}

impl Admission {
    /// The line that tells of it, and the job.
    pub fn told(self) -> (JobLine, Behind)
        ensures line { result.0 ≡ line_of self }
        ensures job { result.1 ≡ behind self }
    {
        match self {
            Admission::Assured(job) => (
                JobLine::Assured {
                    tracks: job.tracks,
                    actions: job.actions,
                },
                Behind::Admitted(AdmittedJob::Assured(job)),
            ),
            Admission::Risky(job, report) => {
                (risk_line(report), Behind::Admitted(AdmittedJob::Risky(job)))
            }
            Admission::TooMany(job, step) => (
                JobLine::TooMany(step),
                Behind::Admitted(AdmittedJob::Risky(job)),
            ),
            Admission::SpaceWait(job, serial) => (JobLine::WaitSpace(serial), Behind::Waits(job)),
        }
    }
}

impl AdmittedJob {
    /// Its number, by which its names are held.
    pub fn number(&self) -> u16
        ensures { result ≡ (named_of self.now).held }
    {
        match self {
            AdmittedJob::Assured(job) => job.named.held.job(),
            AdmittedJob::Risky(job) => job.named.held.job(),
        }
    }

    /// Its plan.
    pub fn plan(&self) -> &JobPlan
        ensures { result.now ≡ (named_of self.now).plan }
    {
        match self {
            AdmittedJob::Assured(job) => job.named.plan(),
            AdmittedJob::Risky(job) => job.named.plan(),
        }
    }

    /// What is fixed for it.
    pub fn provision(&self) -> &Provision
        ensures { result.now ≡ given_to self.now }
    {
        match self {
            AdmittedJob::Assured(job) => &job.given,
            AdmittedJob::Risky(job) => &job.given,
        }
    }

    /// Whether it cannot fail.
    pub fn is_assured(&self) -> bool
        ensures { result ≡ is_assured self.now }
    {
        matches!(self, AdmittedJob::Assured(_))
    }

    /// Its names, where nothing is fixed for it any more.
    pub fn into_held(self) -> Held
        ensures { result ≡ (named_of self).held }
    {
        let named = match self {
            AdmittedJob::Assured(
                AssuredJob {
                    named,
                    given: _,
                    tracks: _,
                    actions: _,
                },
            ) => named,
            AdmittedJob::Risky(RiskyJob { named, given: _ }) => named,
        };
        let NamedJob { plan: _, held } = named;
        held
    }
}
