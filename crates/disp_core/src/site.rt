//! Where a job acts.
ghost use Rattle.std.specs.Prelude.{◌≡◌, ◌-◌};
ghost use Rattle.job_text.specs.Places.{IsDd, dd_at, step_at};

use jname_core::name8::Name8;
use job_text::text::JobText;

/// The DD at which a job acts: the job's number, the step and the DD, which count from 1, and the DD's name, if it has one.
#[derive(Clone, Copy)]
pub struct Site {
    pub job: u16,
    pub step: usize,
    pub dd: usize,
    pub name: Option<Name8>,
}

/// The place of a DD, from 1, in a job.
pub fn site_of<T: JobText>(text: &T, job: u16, step: usize, dd: usize) -> Site
    requires reads { T.reads text.now }
    requires dd { IsDd (T.plan text.now).steps step dd }
    ensures { result ≡ record { job = job; step = step; dd = dd; name = (dd_at (step_at (T.plan text.now).steps (step - 1)).dds (dd - 1)).name } }
{
    Site {
        job,
        step,
        dd,
        name: text.dd_name(step - 1, dd - 1),
    }
}
