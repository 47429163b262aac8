//! Steps of a plan that stand several times, one behind the other: so a plan has more steps than a deck may.
ghost use Rattle.std.specs.Prelude.{◌≤◌, All, IfOk, OnOk};
ghost use Rattle.jcl_plan.specs.declared.outcome.TheConstants.{GREATEST_CODE};
ghost use Rattle.jcl_meaning.specs.WellFormed.{AreTests, IsDdKind, IsKey, IsStep, IsVolumePlan, IsWellFormedPlan};

use crate::case::Unread;
use jcl_plan::outcome::Code;
use jcl_plan::plan::{
    DdKind, DdPlan, JobPlan, SetPlan, StepPlan, Test, Tests, VolumePlan, no_tests,
};
use jname_core::key::Key;
use plain::listed::Listed;
use std::alloc::{AllocError, Global};

/// The most steps of a plan.
const MOST_STEPS: usize = 255;

/// How often a step of the deck stands, and by how much the codes of its tests rise from each time to the next. Steps count from 1.
#[derive(Clone, Copy)]
pub struct Repeat {
    pub step: u16,
    pub times: u16,
    pub rise: u16,
}

/// A step of the deck and the number under which it stands in the plan, and of each step of the deck the number under which it stands last.
#[derive(Clone, Copy)]
struct Numbers<'a> {
    step: u16,
    here: u16,
    last: &'a [u16],
}

impl<'a> Numbers<'a> {
    /// The number in the plan of the step that the deck's number means: that of this time, or that of the last.
    fn of(&self, step: u16) -> u16 {
        if step == self.step {
            return self.here;
        }
        match self.last.get(usize::from(step.saturating_sub(1))) {
            Some(last) => *last,
            None => step,
        }
    }

    fn of_test(&self, step: Option<u16>) -> Option<u16> {
        match step {
            Some(step) => Some(self.of(step)),
            None => None,
        }
    }

    fn of_key(&self, key: Key) -> Key
        requires { IsKey key }
        ensures { IsKey result }
    {
        match key {
            Key::Unnamed { step, dd } => Key::Unnamed {
                step: self.of(step),
                dd,
            },
            other => other,
        }
    }

    fn of_volume(&self, volume: VolumePlan) -> VolumePlan
        requires { IsVolumePlan volume }
        ensures { IsVolumePlan result }
    {
        match volume {
            VolumePlan::OfDd { step, dd } => VolumePlan::OfDd {
                step: self.of(step),
                dd,
            },
            other => other,
        }
    }

    fn of_set(&self, set: &SetPlan) -> SetPlan
        requires { IsKey set.now.key × IsVolumePlan set.now.volume }
        ensures { IsKey result.key × IsVolumePlan result.volume }
    {
        SetPlan {
            key: self.of_key(set.key),
            volume: self.of_volume(set.volume),
            ..*set
        }
    }
}

/// How often a step of the deck stands: once where nothing else is told of it.
fn repeat_of(repeats: &[Repeat], step: u16) -> Repeat {
    for repeat in repeats {
        if repeat.step == step {
            return *repeat;
        }
    }
    Repeat {
        step,
        times: 1,
        rise: 0,
    }
}

/// Of so many steps of a deck the numbers under which they stand last.
fn last_numbers(alloc: Global, repeats: &[Repeat], steps: usize) -> Result<Vec<u16>, AllocError> {
    let mut last = Vec::new(alloc);
    let mut number = 0u16;
    let mut step = 0u16;
    for _ in 0..steps {
        step = step.saturating_add(1);
        number = number.saturating_add(repeat_of(repeats, step).times);
        last.push(number)?;
    }
    Ok(last)
}

/// A test whose code is raised; it has to be a code still.
fn raised(test: &Test, numbers: &Numbers<'_>, by: u16) -> Result<Test, Unread>
    ensures { IfOk result (λ test. test.code ≤ GREATEST_CODE) }
{
    match Code::new(test.code.number().saturating_add(by)) {
        Some(code) => Ok(Test {
            code,
            operator: test.operator,
            step: numbers.of_test(test.step),
        }),
        None => Err(Unread::Wrong),
    }
}

/// Tests whose codes are raised.
fn all_raised(tests: &[Test], numbers: &Numbers<'_>, by: u16) -> Result<Tests, Unread>
    ensures { IfOk result (λ tests. AreTests tests.items) }
{
    let mut found = no_tests();
    for test in tests {
        let test = raised(test, numbers, by)?;
        if found.try_push(test).is_err() {
            return Err(Unread::Wrong);
        }
    }
    Ok(found)
}

fn kind_again(kind: &DdKind, numbers: &Numbers<'_>) -> Result<DdKind, AllocError>
    requires { IsDdKind kind.now }
    ensures { IfOk result IsDdKind }
{
    match kind {
        DdKind::Sysout(class) => Ok(DdKind::Sysout(*class)),
        DdKind::Dummy => Ok(DdKind::Dummy),
        DdKind::Cards(cards) => Ok(DdKind::Cards(cards.share()?)),
        DdKind::Set(set) => Ok(DdKind::Set(numbers.of_set(set))),
    }
}

fn dds_again(
    alloc: Global,
    dds: &[DdPlan],
    numbers: &Numbers<'_>,
) -> Result<Listed<DdPlan>, AllocError>
    requires { All (λ dd. IsDdKind dd.kind) dds.now }
    ensures { IfOk result (λ dds. All (λ dd. IsDdKind dd.kind) dds) }
{
    let mut again = Listed::empty(alloc);
    for dd in dds {
        again.push(DdPlan {
            name: dd.name,
            kind: kind_again(&dd.kind, numbers)?,
        })?;
    }
    Ok(again)
}

/// A step once more.
fn step_again(
    alloc: Global,
    step: &StepPlan,
    numbers: &Numbers<'_>,
    by: u16,
) -> Result<StepPlan, Unread>
    requires { IsStep step.now }
    ensures { IfOk result IsStep }
{
    let tests = all_raised(step.tests.as_slice(), numbers, by)?;
    Ok(StepPlan {
        name: step.name,
        procedure_step: step.procedure_step,
        program: step.program,
        after_abend: step.after_abend,
        tests,
        dds: dds_again(alloc, step.dds.as_slice(), numbers)?,
    })
}

/// A number of steps, which are few.
fn count_of(steps: usize) -> u16 {
    match u16::try_from(steps) {
        Ok(count) => count,
        Err(_) => u16::MAX,
    }
}

/// Puts a step behind others, as often as it stands.
fn push_step(
    alloc: Global,
    steps: &mut Listed<StepPlan>,
    step: &StepPlan,
    repeat: Repeat,
    last: &[u16],
) -> Result<(), Unread>
    requires others { All IsStep steps.old }
    requires step { IsStep step.now }
    ensures { OnOk result (All IsStep steps.new) }
{
    let before = count_of(steps.len());
    for time in 0..repeat.times {
        let numbers = Numbers {
            step: repeat.step,
            here: before.saturating_add(time).saturating_add(1),
            last,
        };
        let by = repeat.rise.saturating_mul(time);
        steps.push(step_again(alloc, step, &numbers, by)?)?;
    }
    Ok(())
}

/// The steps of a deck, each as often as it stands.
fn steps_again(
    alloc: Global,
    steps: &[StepPlan],
    repeats: &[Repeat],
) -> Result<Listed<StepPlan>, Unread>
    requires { All IsStep steps.now }
    ensures { IfOk result (λ steps. All IsStep steps) }
{
    let last = last_numbers(alloc, repeats, steps.len())?;
    let mut all = Listed::empty(alloc);
    for (before, step) in steps.iter().enumerate() {
        let repeat = repeat_of(repeats, count_of(before).saturating_add(1));
        push_step(alloc, &mut all, step, repeat, last.as_slice())?;
    }
    Ok(all)
}

/// How many steps a plan has with these repeats, where a deck has so many.
fn count_with(repeats: &[Repeat], steps: usize) -> usize {
    let mut count = steps;
    for repeat in repeats {
        count = count.saturating_add(usize::from(repeat.times).saturating_sub(1));
    }
    count
}

/// Whether each of them is of a step that the deck has, and the plan has not too many steps.
fn are_good(repeats: &[Repeat], steps: usize) -> bool {
    for repeat in repeats {
        if repeat.times == 0 || repeat.step == 0 || usize::from(repeat.step) > steps {
            return false;
        }
    }
    count_with(repeats, steps) <= MOST_STEPS
}

/// The plan in which steps stand so often. What names a step by its number names it still: where it stands several times, the last of them.
pub(crate) fn with_repeats(
    alloc: Global,
    plan: JobPlan,
    repeats: &[Repeat],
) -> Result<JobPlan, Unread>
    requires { IsWellFormedPlan plan }
    ensures { IfOk result IsWellFormedPlan }
{
    if !are_good(repeats, plan.steps.len()) {
        return Err(Unread::Wrong);
    }
    let steps = steps_again(alloc, plan.steps.as_slice(), repeats)?;
    Ok(JobPlan { steps, ..plan })
}
