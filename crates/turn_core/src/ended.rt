//! The end of a step whose program is over already, and how it is taken back.
ghost use Rattle.std.specs.Prelude.{◌≡◌, ◌<◌, List, IfOk, OnErr, OnOk, is_some, length, true};
ghost use Rattle.jcl_plan.specs.declared.plan.StepPlan.{StepPlan};
ghost use Rattle.turn_core.specs.Ending.{course_ended, ended_at, kept_of, own_before};
ghost use Rattle.turn_core.specs.Places.{action_of};

use crate::todo::Task;
use disp_core::course::Course;
use disp_core::step::finish;
use jcl_meaning::state::{Due, Own, Passed};
use jcl_plan::outcome::{Code, Outcome};
use plain::listed::Listed;
use std::alloc::{AllocError, Global};

/// What the end of a step changes of a job's own part, as it was before.
#[derive(Drop)]
pub(crate) struct BeforeEnd {
    passed: Listed<Passed>,
    over: Option<Outcome>,
    due: Option<Due>,
    lines: usize,
}

/// The number of the step that an action ends whose program is over already.
pub(crate) fn ended_step(task: &Task, own: &Own) -> Option<usize>
    ensures { (steps : List StepPlan) → result ≡ ended_at (action_of steps task.now) own.now }
{
    match task {
        Task::Start { .. } => None,
        Task::Take { .. } => None,
        Task::Ask { .. } => None,
        Task::Receive => None,
        Task::Finish { n } => match own.over {
            None => None,
            Some(_) => Some(*n),
        },
        Task::Dispose { .. } => None,
        Task::Left { .. } => None,
    }
}

/// Enters how a step ended whose program is over already. An `Err` changes nothing.
pub(crate) fn end_step(alloc: Global, course: &mut Course, n: usize) -> Result<(), AllocError>
    requires runs { course.old.own.runs ≡ true }
    requires over { is_some course.old.own.over ≡ true }
    ensures ok { OnOk result (course.new ≡ course_ended n course.old) }
    ensures err { OnErr result (course.new ≡ course.old) }
{
    let unsaid = Outcome::Code(Code::zero());
    finish(alloc, course, n, &unsaid, false)?;
    Ok(())
}

/// What a step's end will change.
pub(crate) fn before_end(own: &Own) -> Result<BeforeEnd, AllocError>
    ensures { IfOk result (λ before. before ≡ kept_of own.now) }
{
    Ok(BeforeEnd {
        passed: own.passed.clone()?,
        over: own.over,
        due: own.due,
        lines: own.lines,
    })
}

/// Takes a step's end back.
pub(crate) fn take_back(own: &mut Own, before: BeforeEnd)
    requires { 0 < length own.old.ended }
    ensures { own.new ≡ own_before own.old before }
{
    let BeforeEnd {
        passed,
        over,
        due,
        lines,
    } = before;
    own.passed = passed;
    own.ended.remove(0);
    own.over = over;
    own.due = due;
    own.lines = lines;
}
