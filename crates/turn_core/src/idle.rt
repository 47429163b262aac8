//! Actions that say nothing and leave the job's own part as it is.
ghost use Rattle.std.specs.Prelude.{◌≡◌, ◌-◌, is_some, slice_get};
ghost use Rattle.jcl_plan.specs.declared.plan.DdKind.{DdKind};
ghost use Rattle.jcl_meaning.specs.EndActs.{passed_by};
ghost use Rattle.jcl_meaning.specs.States.{asks_open};
ghost use Rattle.job_text.specs.Texts.{source_text};
ghost use Rattle.turn_core.specs.Passing.{is_idle, is_left};
ghost use Rattle.turn_core.specs.Places.{IsThere, action_of};

use crate::todo::Task;
use jcl_meaning::state::{DdState, Own, Passed};
use job_text::text::JobText;
use job_text::texts::SourceText;

/// Whether the program of the step at hand goes on.
pub(crate) fn is_open(own: &Own) -> bool
    ensures { result ≡ asks_open own.now }
{
    own.runs && own.over.is_none()
}

/// Whether a DD, from 1, was taken.
fn is_taken(dds: &[DdState], dd: usize) -> bool
    ensures { result ≡ is_some (slice_get dds.now (dd - 1)) }
{
    dds.get(dd.saturating_sub(1)).is_some()
}

/// What a DD passed and no DD received.
fn passed_by(passed: &[Passed], n: usize, dd: usize) -> Option<Passed>
    ensures { result ≡ passed_by passed.now n dd }
{
    for p in passed {
        if p.step == n && p.dd == dd {
            return Some(*p);
        }
    }
    None
}

/// Whether something that a DD passed was not received.
fn is_left(source: &SourceText, passed: &[Passed], n: usize, dd: usize) -> bool
    ensures { (d : DdKind) → source_text d ≡ source.now → result ≡ is_left d (passed_by passed.now n dd) }
{
    match source {
        SourceText::Nothing => false,
        SourceText::Cards(_) => false,
        SourceText::Set => passed_by(passed, n, dd).is_some(),
    }
}

/// Whether a turn passes over an action.
pub(crate) fn is_idle<T: JobText>(text: &T, task: &Task, own: &Own) -> bool
    requires reads { T.reads text.now }
    requires there { IsThere (T.plan text.now).steps task.now }
    ensures { result ≡ is_idle (action_of (T.plan text.now).steps task.now) own.now }
{
    match task {
        Task::Start { .. } => false,
        Task::Take { .. } => !own.runs,
        Task::Ask { .. } => !is_open(own),
        Task::Receive => !(is_open(own) && own.due.is_some()),
        Task::Finish { .. } => !own.runs,
        Task::Dispose { dd, .. } => !(own.runs && is_taken(own.dds.as_slice(), *dd)),
        Task::Left { n, dd } => {
            !is_left(
                &text.source(*n - 1, *dd - 1),
                own.passed.as_slice(),
                *n,
                *dd,
            )
        }
    }
}
