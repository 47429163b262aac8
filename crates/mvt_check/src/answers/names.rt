//! Numbers, and steps, DDs and data sets as who wrote the deck knows them.
ghost use Rattle.std.specs.Prelude.{◌≡◌, ◌++◌, OnOk, decimal};

use date_core::calendar::date_of;
use itoa::Buffer;
use jcl_plan::day::Day;
use jcl_plan::entry::JobLine;
use jcl_plan::plan::{DdKind, DdPlan, JobPlan, SetPlan, StepPlan};
use jname_core::key::{Key, Sign};
use jname_core::name8::Name8;
use std::alloc::AllocError;

pub(crate) fn push_number(text: &mut Vec<u8>, number: u64) -> Result<(), AllocError>
    ensures { OnOk result (text.new.items ≡ text.old.items ++ decimal number) }
{
    let mut buffer = Buffer::new();
    text.extend_from_slice(buffer.format(number).as_bytes())?;
    Ok(())
}

/// A number of things, of which each has this name: `1 track`, `12 tracks`.
pub(crate) fn push_count(text: &mut Vec<u8>, count: usize, name: &[u8]) -> Result<(), AllocError> {
    push_number(text, count as u64)?;
    text.push(b' ')?;
    text.extend_from_slice(name)?;
    if count != 1 {
        text.push(b's')?;
    }
    Ok(())
}

/// A date: `1975/001`.
pub(crate) fn push_date(text: &mut Vec<u8>, day: Day) -> Result<(), AllocError> {
    let date = date_of(day);
    push_number(text, u64::from(date.year))?;
    text.push(b'/')?;
    if date.of_year < 100 {
        text.push(b'0')?;
    }
    if date.of_year < 10 {
        text.push(b'0')?;
    }
    push_number(text, u64::from(date.of_year))
}

/// The step of this number, which counts from 1.
fn step_at(plan: &JobPlan, number: usize) -> Option<&StepPlan> {
    let place = number.checked_sub(1)?;
    plan.steps.as_slice().get(place)
}

/// The DD of this number, which counts from 1, of that step.
fn dd_at(plan: &JobPlan, step: usize, dd: usize) -> Option<&DdPlan> {
    let place = dd.checked_sub(1)?;
    step_at(plan, step)?.dds.as_slice().get(place)
}

/// What that DD says of its data set, where it is for one.
pub(crate) fn set_at(plan: &JobPlan, step: usize, dd: usize) -> Option<&SetPlan> {
    match &dd_at(plan, step, dd)?.kind {
        DdKind::Set(set) => Some(set),
        _ => None,
    }
}

/// What that DD names, where it is for a data set.
pub(crate) fn key_at(plan: &JobPlan, step: usize, dd: usize) -> Option<&Key> {
    Some(&set_at(plan, step, dd)?.key)
}

fn push_shown(text: &mut Vec<u8>, name: &Option<Name8>) -> Result<(), AllocError> {
    match name {
        None => text.push(b'-')?,
        Some(name) => text.extend_from_slice(name.as_slice())?,
    }
    Ok(())
}

/// A job as its steps are named: by the lines that it writes on a path, which have the names of its records, and for steps without a line there by its deck.
#[derive(Clone, Copy)]
pub(crate) struct Shown<'a, 'b> {
    pub(crate) plan: &'a JobPlan,
    pub(crate) lines: &'b [JobLine],
}

/// The names of a step: its own, and that of its step in a procedure.
#[derive(Clone, Copy, PartialEq, Eq)]
struct StepNames {
    own: Option<Name8>,
    procedure_step: Option<Name8>,
}

impl StepNames {
    fn is_empty(&self) -> bool {
        self.own.is_none() && self.procedure_step.is_none()
    }
}

/// What the deck names a step.
fn named_by(step: &StepPlan) -> StepNames {
    StepNames {
        own: step.name,
        procedure_step: step.procedure_step,
    }
}

/// What a line names the step of this number, if it begins that step.
fn named_on(line: &JobLine, number: usize) -> Option<StepNames> {
    match line {
        JobLine::Step {
            step,
            name,
            procedure_step,
            fate: _,
        } if *step == number => Some(StepNames {
            own: *name,
            procedure_step: *procedure_step,
        }),
        _ => None,
    }
}

impl<'a, 'b> Shown<'a, 'b> {
    /// The names of the step of this number, which counts from 1. A step that is not there has none.
    fn names_of(&self, number: usize) -> StepNames {
        for line in self.lines {
            if let Some(names) = named_on(line, number) {
                return names;
            }
        }
        match step_at(self.plan, number) {
            Some(step) => named_by(step),
            None => StepNames {
                own: None,
                procedure_step: None,
            },
        }
    }

    /// Whether more than one step has these names.
    fn are_of_several(&self, names: StepNames) -> bool {
        let steps = self.plan.steps.as_slice();
        steps.iter().filter(|step| named_by(step) == names).count() > 1
    }
}

/// The name of a step as the listing shows it, with its number after it where others have that name too; or its number where it has none.
fn push_step_name(
    text: &mut Vec<u8>,
    shown: Shown<'_, '_>,
    names: StepNames,
    number: usize,
) -> Result<(), AllocError> {
    if names.is_empty() {
        return push_number(text, number as u64);
    }
    push_shown(text, &names.own)?;
    if let Some(procedure_step) = &names.procedure_step {
        text.push(b'.')?;
        text.extend_from_slice(procedure_step.as_slice())?;
    }
    if shown.are_of_several(names) {
        text.extend_from_slice(b" (")?;
        push_number(text, number as u64)?;
        text.push(b')')?;
    }
    Ok(())
}

/// A step, as the subject of a sentence: `S1`, `CALL.S1`, `step 3`.
pub(crate) fn push_subject(
    text: &mut Vec<u8>,
    shown: Shown<'_, '_>,
    number: usize,
) -> Result<(), AllocError> {
    let names = shown.names_of(number);
    if names.is_empty() {
        text.extend_from_slice(b"step ")?;
    }
    push_step_name(text, shown, names, number)
}

/// A step: `step S1`, `step CALL.S1`, `step 3`.
pub(crate) fn push_step(
    text: &mut Vec<u8>,
    shown: Shown<'_, '_>,
    number: usize,
) -> Result<(), AllocError> {
    text.extend_from_slice(b"step ")?;
    push_step_name(text, shown, shown.names_of(number), number)
}

/// A name, or a number in the place of one.
fn push_name_or(text: &mut Vec<u8>, name: &Option<Name8>, number: usize) -> Result<(), AllocError> {
    match name {
        Some(name) => text.extend_from_slice(name.as_slice()),
        None => push_number(text, number as u64),
    }
}

/// A DD of that step: `DD OUT`, `DD 2`.
pub(crate) fn push_dd(
    text: &mut Vec<u8>,
    plan: &JobPlan,
    step: usize,
    dd: usize,
) -> Result<(), AllocError> {
    text.extend_from_slice(b"DD ")?;
    match dd_at(plan, step, dd) {
        Some(found) => push_name_or(text, &found.name, dd),
        None => push_number(text, dd as u64),
    }
}

/// What stands between the parentheses of a relative generation: `0`, `+1`, `-2`.
fn push_relative(text: &mut Vec<u8>, sign: Sign, amount: u8) -> Result<(), AllocError> {
    if amount > 0 {
        text.push(match sign {
            Sign::Plus => b'+',
            Sign::Minus => b'-',
        })?;
    }
    push_number(text, u64::from(amount))
}

/// A data set by its name.
pub(crate) fn push_named_set(text: &mut Vec<u8>, name: &[u8]) -> Result<(), AllocError> {
    text.extend_from_slice(b"the data set ")?;
    text.extend_from_slice(name)
}

/// A data set by the name that the deck gives it. One without a name of its own is `the data set`.
pub(crate) fn push_data_set(text: &mut Vec<u8>, key: Option<&Key>) -> Result<(), AllocError> {
    text.extend_from_slice(b"the data set")?;
    match key {
        Some(Key::Named(name)) => {
            text.push(b' ')?;
            text.extend_from_slice(name.as_slice())?;
        }
        Some(Key::Relative { base, sign, amount }) => {
            text.push(b' ')?;
            text.extend_from_slice(base.as_slice())?;
            text.push(b'(')?;
            push_relative(text, *sign, *amount)?;
            text.push(b')')?;
        }
        Some(Key::Temporary(name)) => {
            text.extend_from_slice(b" &&")?;
            text.extend_from_slice(name.as_slice())?;
        }
        Some(Key::Unnamed { .. }) | None => {}
    }
    Ok(())
}
