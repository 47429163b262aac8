//! Whether numbers are those of jobs, each given once.
ghost use Rattle.std.specs.Prelude.{◌≡◌, ◌<◌, ◌&&◌, false, length, map, nat_le, not, slice_index_or};
ghost use Rattle.machine_meaning.specs.declared.machine.TheConstants.{MOST_JOBS};
ghost use Rattle.queue_images.specs.Images.{are_job_numbers};

use crate::image::WaitingJob;
use machine_meaning::machine::MOST_JOBS;

/// How many numbers there are with 0.
pub(crate) const NUMBERS: usize = 10_000;

/// Whether a number is that of a job, and has no mark.
fn is_new(met: &[bool], job: u16) -> bool
    requires { MOST_JOBS < length met.now }
    ensures { result ≡ (nat_le 1 job && nat_le job MOST_JOBS && not (slice_index_or met.now job false)) }
{
    job >= 1 && job <= MOST_JOBS && !met[usize::from(job)]
}

/// Whether the numbers of jobs are 1 to 9,999, and no two the same.
pub(crate) fn are_job_numbers(jobs: &[WaitingJob]) -> bool
    ensures { result ≡ are_job_numbers (map (λ w. w.job) jobs.now) }
{
    let mut met = [false; NUMBERS];
    let mut n = jobs.len();
    while n > 0 {
        let job = jobs[n - 1].job;
        if !is_new(&met, job) {
            return false;
        }
        met[usize::from(job)] = true;
        n -= 1;
    }
    true
}
