//! The lines of a job.
mod dds;

ghost use Rattle.std.specs.Prelude.{◌≡◌, ◌<◌, length};
ghost use Rattle.job_text.specs.Places.{step_at};

use crate::plan::dds::tell_dd;
use jcl_plan::plan::{AfterAbend, DdPlan, JobPlan, Operator, StepPlan, Test};
use jname_core::name8::Name8;
use job_text::text::JobText;
use row_table::told::Told;

/// A name, if there is one.
fn tell_name(told: &mut Told, name: &Option<Name8>) {
    match name {
        None => {}
        Some(name) => told.word(name.as_slice()),
    }
}

fn operator_number(operator: &Operator) -> u64 {
    match operator {
        Operator::Gt => 1,
        Operator::Ge => 2,
        Operator::Eq => 3,
        Operator::Lt => 4,
        Operator::Le => 5,
        Operator::Ne => 6,
    }
}

fn after_abend_number(after: &AfterAbend) -> u64 {
    match after {
        AfterAbend::Unsaid => 0,
        AfterAbend::Even => 1,
        AfterAbend::Only => 2,
    }
}

/// A test's operator and code, behind a word.
fn tell_compared(told: &mut Told, word: &[u8], test: &Test) {
    told.numbered(word, operator_number(&test.operator));
    told.numbered(b" ", u64::from(test.code.number()))
}

/// A test of the JOB statement, behind a word.
fn tell_job_test(told: &mut Told, word: &[u8], test: &Test) {
    tell_compared(told, word, test);
    told.word(b")")
}

/// A test of a step, behind a word, with the step that it names, or 0.
fn tell_step_test(told: &mut Told, word: &[u8], test: &Test) {
    tell_compared(told, word, test);
    told.numbered(b" ", u64::from(test.step.unwrap_or(0)));
    told.word(b")")
}

fn tell_job_tests(told: &mut Told, tests: &[Test]) {
    told.word(b" tests (");
    if let Some((first, others)) = tests.split_first() {
        tell_job_test(told, b"(", first);
        for test in others {
            tell_job_test(told, b" (", test);
        }
    }
    told.line(b")")
}

/// What stands before the test of a place, from 0.
fn opening(place: usize) -> &'static [u8] {
    if place == 0 { b"(" } else { b" (" }
}

/// The tests of a step, which counts from 0.
fn tell_step_tests<T: JobText>(told: &mut Told, step: usize, text: &T)
    requires reads { T.reads text.now }
    requires step { step < length (T.plan text.now).steps }
{
    told.word(b" tests (");
    for place in 0..text.test_count(step) {
        tell_step_test(told, opening(place), &text.test(step, place));
    }
    told.line(b")")
}

fn tell_dds<T: JobText>(told: &mut Told, step: usize, dds: &[DdPlan], text: &T)
    requires reads { T.reads text.now }
    requires step { step < length (T.plan text.now).steps }
    requires same { (step_at (T.plan text.now).steps step).dds ≡ dds.now }
{
    for place in 0..dds.len() {
        tell_dd(told, step, place, &dds[place].kind, text);
    }
}

/// The lines of a step, which counts from 0.
fn tell_step<T: JobText>(told: &mut Told, place: usize, step: &StepPlan, text: &T)
    requires reads { T.reads text.now }
    requires step { place < length (T.plan text.now).steps }
    requires same { step_at (T.plan text.now).steps place ≡ step.now }
{
    let own = text.step(place);
    told.numbered(b"step ", (place as u64).saturating_add(1));
    told.word(b" ");
    tell_name(told, &own.name);
    told.word(b" ");
    tell_name(told, &own.procedure_step);
    told.two(b" program ", own.program.as_slice());
    told.numbered(b" even/only ", after_abend_number(&own.after_abend));
    tell_step_tests(told, place, text);
    tell_dds(told, place, step.dds.as_slice(), text)
}

/// The line of a job, without its steps.
fn tell_head(told: &mut Told, job: &JobPlan) {
    told.two(b"job ", job.name.as_slice());
    told.two(b" class ", &[job.class]);
    told.numbered(b" priority ", u64::from(job.priority));
    told.two(b" message class ", &[job.message_class]);
    tell_job_tests(told, job.tests.as_slice())
}

/// The lines of a job, as it answers what turns ask of it; what none asks, as its plan says.
pub(crate) fn tell_job<T: JobText>(told: &mut Told, job: &JobPlan, text: &T)
    requires reads { T.reads text.now }
    requires same { T.plan text.now ≡ job.now }
{
    tell_head(told, job);
    for place in 0..job.steps.len() {
        tell_step(told, place, &job.steps.as_slice()[place], text);
    }
}
