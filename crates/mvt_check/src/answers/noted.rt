//! What an event answers a job is noted at the job's number.
ghost use Rattle.std.specs.Prelude.{◌≡◌, ◌≤◌, ℕ, None, OnOk, length, slice_index_or};
ghost use Rattle.mvt_check.specs.Answers.{AreNoted, answered_by};

use crate::answers::answer::Answer;
use crate::answers::told::answer_by;
use jcl_plan::entry::JobLine;
use plain::listed::Listed;
use std::alloc::AllocError;

/// Makes places for the jobs below this number, without answers.
fn make_places(by_job: &mut Vec<Option<Answer>>, count: usize) -> Result<(), AllocError>
    ensures enough { OnOk result (count ≤ length by_job.new.items) }
    ensures same { OnOk result ((job : ℕ) → slice_index_or by_job.new.items job None ≡ slice_index_or by_job.old.items job None) }
{
    for place in by_job.len()..count {
        let _ = place;
        by_job.push(None)?;
    }
    Ok(())
}

/// Notes what admission answers a job, by a line and those that explain it.
pub(crate) fn note_answer(
    by_job: &mut Vec<Option<Answer>>,
    told: Option<(u16, JobLine)>,
    path: Listed<JobLine>,
) -> Result<(), AllocError>
    ensures { OnOk result (AreNoted (answered_by path told) by_job.old.items by_job.new.items) }
{
    let Some((job, line)) = told else {
        return Ok(());
    };
    let Some(answer) = answer_by(line, path) else {
        return Ok(());
    };
    let place = usize::from(job);
    make_places(by_job, place + 1)?;
    by_job[place] = Some(answer);
    Ok(())
}
