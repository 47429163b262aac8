//! A job whose names are held is answered: it is admitted, waits for space, or is not run.
ghost use Rattle.std.specs.Prelude.{◌≡◌, ◌≢◌, All, List, IfErr, IfOk, OnErr};
ghost use Rattle.jcl_plan.specs.declared.plan.JobPlan.{JobPlan};
ghost use Rattle.jcl_meaning.specs.declared.program.SoloProgram.{SoloProgram};
ghost use Rattle.turn_core.specs.Standing.{Stands, count_at};
ghost use Rattle.init_core.specs.Answering.{is_turned_away, terms_of};
ghost use Rattle.init_core.specs.Going.{WentUnder};
ghost use Rattle.init_core.specs.Naming.{begun};
ghost use Rattle.init_core.specs.Providing.{IsProvidedUnder};
ghost use Rattle.init_core.specs.Running.{IsGood, config_of};
ghost use Rattle.init_core.specs.declared.running.Stage.TheVariants as stage;

use crate::ending::release_admitted;
use crate::running::{Profile, Progress, Running, Stage, Told, over};
use admit_core::admission::{AdmittedJob, Answer, Behind, NamedJob};
use admit_core::admit::{Terms, admit};
use cb_queue::store::RecordStore;
use disp_core::course::Course;
use jcl_plan::entry::JobLine;
use machine_core::parts::Parts;
use std::alloc::Global;
use turn_core::walk::{Walk, first_walk};

fn terms<'a>(profile: &Profile<'a>) -> Terms<'a>
    ensures { result ≡ terms_of profile.now }
{
    Terms {
        units: profile.units,
        programs: profile.programs,
        most_views: profile.most_views,
        explains: profile.explains,
    }
}

/// The job at its first action, with its listing.
fn begun(alloc: Global, walk: Walk) -> Walk
    ensures is { result ≡ begun walk }
    ensures first { (plan : JobPlan) (programs : List SoloProgram) → Stands plan programs result.todo × (count_at plan programs result.todo ≡ 0) }
{
    let Walk { todo: _, course } = walk;
    let Course { own: _, lines } = course;
    first_walk(alloc, lines)
}

/// Whether a job that may fail is not run.
fn is_turned_away(refuses: bool, admitted: &AdmittedJob) -> bool
    ensures { result ≡ is_turned_away refuses admitted.now }
{
    refuses && !admitted.is_assured()
}

/// A turn of a job whose names are held. Where memory is missing the job is given back as it was, and nothing has changed.
#[inline(never)]
pub(crate) fn admit_job<Q: RecordStore>(
    alloc: Global,
    parts: &mut Parts<Q>,
    profile: &Profile<'_>,
    job: u16,
    mut walk: Walk,
    named: NamedJob,
) -> Result<Progress, Running>
    requires some { job ≢ 0 }
    requires its_own { named.held ≡ job }
    requires good { IsGood Q.queue (config_of profile.now (Q.queue parts.old.queue).layout) parts.old }
    requires provided { IsProvidedUnder Q.queue profile.now parts.old (record { job = job; walk = walk; stage = stage.Named named }) }
    requires unqueued { All (λ x. x.job ≢ job) (Q.queue parts.old.queue).waiting }
    ensures ok { IfOk result (WentUnder Q.queue profile.now parts.old (record { job = job; walk = walk; stage = stage.Named named }) parts.new) }
    ensures err { IfErr result (λ r. r ≡ record { job = job; walk = walk; stage = stage.Named named }) }
    ensures same { OnErr result (parts.new ≡ parts.old) }
{
    let date = parts.date;
    let terms = terms(profile);
    match admit(
        alloc,
        &mut parts.store,
        &terms,
        job,
        named,
        date,
        &mut walk.course.lines,
    ) {
        Ok(Answer { admission, path }) => {
            let (line, behind) = admission.told();
            let told = Told { line, path };
            match behind {
                Behind::Admitted(admitted) => {
                    if is_turned_away(profile.refuses, &admitted) {
                        release_admitted(parts, job, admitted);
                        Ok(over(walk, Some(told), JobLine::Refused))
                    } else {
                        let walk = begun(alloc, walk);
                        let stage = Stage::Admitted(admitted);
                        Ok(Progress::Answered {
                            job: Running { job, walk, stage },
                            told,
                        })
                    }
                }
                Behind::Waits(named) => {
                    let stage = Stage::Named(named);
                    Ok(Progress::Answered {
                        job: Running { job, walk, stage },
                        told,
                    })
                }
            }
        }
        Err(named) => Err(Running {
            job,
            walk,
            stage: Stage::Named(named),
        }),
    }
}
