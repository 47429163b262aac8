//! The start of a step, its end, and the job's end. (GC28-6704, COND parameter)
ghost use Rattle.std.specs.Prelude.{◌≡◌, ◌-◌, ◌<◌, ◌∷◌, [], OnErr, OnOk, length};
ghost use Rattle.jcl_plan.specs.declared.entry.JobLine.TheVariants as line;
ghost use Rattle.jcl_meaning.specs.EndActs.{end_line, finished};
ghost use Rattle.jcl_meaning.specs.History.{some_satisfied};
ghost use Rattle.jcl_meaning.specs.States.{at_step, goes};
ghost use Rattle.jcl_meaning.specs.TakeActs.{started};
ghost use Rattle.job_text.specs.Places.{IsStep, step_at};
ghost use Rattle.disp_core.specs.Acting.{ActsAside};
ghost use Rattle.disp_core.specs.Courses.{CarriedAside, CarriedEnd, course_ended_by, fixed_by, own_ended};

use crate::course::{Course, Given};
use cond_core::history::{History, fate};
use jcl_meaning::ending::{as_ending, end_line, marked_later};
use jcl_meaning::history::{is_abend, is_run, satisfied};
use jcl_meaning::state::{Ended, Own};
use jcl_plan::entry::JobLine;
use jcl_plan::outcome::{Abend, Outcome};
use job_text::text::JobText;
use std::alloc::{AllocError, Global};

/// A step begins, or is passed over.
fn enter_step(own: &mut Own, runs: bool)
    ensures { own.new ≡ at_step own.old runs }
{
    own.runs = runs;
    own.over = None;
    own.dds.clear();
    own.due = None;
    own.lines = 0;
}

/// Whether a test of a step, from 0, is met by a step that ended.
fn is_met<T: JobText>(text: &T, step: usize, ended: &[Ended]) -> bool
    requires reads { T.reads text.now }
    requires step { step < length (T.plan text.now).steps }
    ensures { result ≡ some_satisfied ended.now (step_at (T.plan text.now).steps step).tests.items }
{
    for test in 0..text.test_count(step) {
        if satisfied(ended, &text.test(step, test)) {
            return true;
        }
    }
    false
}

/// The start of the n-th step. An `Err` changes nothing.
pub fn begin<T: JobText>(
    text: &T,
    given: &Given,
    course: &mut Course,
    n: usize,
) -> Result<(), AllocError>
    requires reads { T.reads text.now }
    requires step { IsStep (T.plan text.now).steps n }
    ensures { ActsAside (CarriedAside (started (fixed_by given.now) n (step_at (T.plan text.now).steps (n - 1)))) result course.old course.new }
{
    let step = text.step(n - 1);
    let ended = course.own.ended.as_slice();
    let history = History {
        job_tests: given.job_tests,
        ended,
        faulted: course.own.faulted,
    };
    let fate = fate(step.after_abend, is_met(text, n - 1, ended), &history);
    course.say(JobLine::Step {
        step: n,
        name: step.name,
        procedure_step: step.procedure_step,
        fate,
    })?;
    enter_step(&mut course.own, is_run(fate));
    Ok(())
}

/// Enters how a step ended. An `Err` changes nothing.
fn end_with(alloc: Global, own: &mut Own, n: usize, outcome: &Outcome) -> Result<(), AllocError>
    ensures ok { OnOk result (own.new ≡ own_ended n outcome.now own.old) }
    ensures err { OnErr result (own.new ≡ own.old) }
{
    if is_abend(*outcome) {
        let marked = marked_later(alloc, n, own.passed.as_slice())?;
        own.ended.push_front(Ended {
            step: n,
            outcome: *outcome,
        })?;
        own.passed = marked;
    } else {
        own.ended.push_front(Ended {
            step: n,
            outcome: *outcome,
        })?;
    }
    own.over = Some(*outcome);
    own.due = None;
    own.lines = 0;
    Ok(())
}

/// Enters how a program ended, with its line. An `Err` changes nothing.
fn end_by(alloc: Global, course: &mut Course, n: usize, outcome: &Outcome) -> Result<(), AllocError>
    ensures ok { OnOk result (course.new ≡ course_ended_by n outcome.now course.old) }
    ensures err { OnErr result (course.new ≡ course.old) }
{
    course.say(end_line(outcome))?;
    match end_with(alloc, &mut course.own, n, outcome) {
        Ok(()) => Ok(()),
        Err(error) => {
            course.unsay();
            Err(error)
        }
    }
}

/// The end of a step: of its program, if that has not ended, by this outcome, or by a cancel in its place. An `Err` changes nothing.
pub fn finish(
    alloc: Global,
    course: &mut Course,
    n: usize,
    outcome: &Outcome,
    cancelled: bool,
) -> Result<(), AllocError>
    ensures { ActsAside (CarriedEnd (finished n) outcome.now cancelled) result course.old course.new }
{
    if !course.own.runs {
        return Ok(());
    }
    let over = course.own.over;
    match &over {
        Some(over) => end_with(alloc, &mut course.own, n, over),
        None => {
            if cancelled {
                end_by(alloc, course, n, &Outcome::Abend(Abend::S222))
            } else {
                end_by(alloc, course, n, &as_ending(outcome))
            }
        }
    }
}

/// The job's end. An `Err` changes nothing.
pub fn end(course: &mut Course) -> Result<(), AllocError>
    ensures { ActsAside (CarriedAside (goes (line.End ∷ []))) result course.old course.new }
{
    course.say(JobLine::End)
}
