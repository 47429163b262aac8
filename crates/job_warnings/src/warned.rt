//! What a job warns of.
use crate::names::{is_same_step, push_step_name, same_dd};
use crate::requests::{Denied, first_denied};
use crate::spaces::{Room, never_fits};
use jcl_plan::plan::{DdKind, JobPlan, Status, StepPlan};
use jname_core::serial::Serial;
use plain::listed::Listed;
use prog_core::library::ProgramLibrary;
use std::alloc::{AllocError, Global};

/// What a job warns of: at a step, or at a DD of it, which both count from 1, and in words.
#[derive(Drop)]
pub struct JobWarning {
    pub step: usize,
    pub dd: Option<usize>,
    pub words: Vec<u8>,
}

/// What a session configures that a job is compared with.
#[derive(Clone, Copy)]
pub struct Configured<'a, 'b, 'c> {
    pub programs: &'a ProgramLibrary,
    /// The volumes of each unit.
    pub units: &'b [Listed<Serial>],
    /// How many tracks a volume has for sets.
    pub rooms: &'c [Room],
}

/// The most warnings of one job.
pub const MOST_WARNINGS: usize = 100;

/// What is written of a DD that is only read.
fn only_read(step: &StepPlan, dd: usize) -> &'static [u8] {
    match step.dds.as_slice().get(dd) {
        Some(plan) => match &plan.kind {
            DdKind::Cards(_) => b", which has cards: ABEND SFF1",
            DdKind::Set(set) => match set.status {
                Status::Shr => b", which DISP=SHR allows only to read: ABEND SFF1",
                _ => b", which is a concatenation: ABEND SFF1",
            },
            _ => b", which is a concatenation: ABEND SFF1",
        },
        None => b": ABEND SFF1",
    }
}

fn name_of(step: &StepPlan, dd: usize) -> &[u8] {
    match step.dds.as_slice().get(dd) {
        Some(plan) => match &plan.name {
            Some(name) => name.as_slice(),
            None => b"",
        },
        None => b"",
    }
}

/// Warns of a request that ends the step.
fn warn_of_request(
    alloc: Global,
    plan: &JobPlan,
    n: usize,
    step: &StepPlan,
    programs: &ProgramLibrary,
) -> Result<Option<JobWarning>, AllocError> {
    if n >= plan.steps.len() {
        return Ok(None);
    }
    let Some(denied) = first_denied(plan, n, programs) else {
        return Ok(None);
    };
    let mut words = Vec::from_slice(alloc, b"program ")?;
    words.extend_from_slice(step.program.as_slice())?;
    let dd = match &denied {
        Denied::NoDd(name) => {
            words.extend_from_slice(b" asks for DD ")?;
            words.extend_from_slice(name.as_slice())?;
            words.extend_from_slice(b", which the step lacks: ABEND SFF0")?;
            None
        }
        Denied::OnlyRead(dd) => {
            words.extend_from_slice(b" writes to DD ")?;
            words.extend_from_slice(name_of(step, *dd))?;
            words.extend_from_slice(only_read(step, *dd))?;
            Some(dd.saturating_add(1))
        }
    };
    Ok(Some(JobWarning {
        step: n.saturating_add(1),
        dd,
        words,
    }))
}

/// Warns of a step whose name an earlier one has.
fn warn_of_step(
    alloc: Global,
    plan: &JobPlan,
    n: usize,
    step: &StepPlan,
) -> Result<Option<JobWarning>, AllocError> {
    if !is_same_step(plan.steps.as_slice(), n, step) {
        return Ok(None);
    }
    let mut words = Vec::from_slice(alloc, b"a step before it is ")?;
    push_step_name(&mut words, step)?;
    words.extend_from_slice(
        b" too: a reference or a test means the last of them that is before it",
    )?;
    Ok(Some(JobWarning {
        step: n.saturating_add(1),
        dd: None,
        words,
    }))
}

/// Warns of a DD whose name one before it in the step has.
fn warn_of_dd(
    alloc: Global,
    n: usize,
    step: &StepPlan,
    d: usize,
) -> Result<Option<JobWarning>, AllocError> {
    let Some(name) = same_dd(step.dds.as_slice(), d) else {
        return Ok(None);
    };
    let mut words = Vec::from_slice(alloc, b"a DD of the step before it is ")?;
    words.extend_from_slice(name.as_slice())?;
    words.extend_from_slice(b" too: a program and a reference mean the first of them")?;
    Ok(Some(JobWarning {
        step: n.saturating_add(1),
        dd: Some(d.saturating_add(1)),
        words,
    }))
}

fn put(warned: &mut Vec<JobWarning>, warning: Option<JobWarning>) -> Result<(), AllocError> {
    if let Some(warning) = warning {
        warned.push(warning)?;
    }
    Ok(())
}

/// What a step warns of.
fn warn_of(
    alloc: Global,
    plan: &JobPlan,
    n: usize,
    step: &StepPlan,
    configured: Configured<'_, '_, '_>,
    warned: &mut Vec<JobWarning>,
) -> Result<(), AllocError> {
    put(warned, warn_of_step(alloc, plan, n, step)?)?;
    put(
        warned,
        warn_of_request(alloc, plan, n, step, configured.programs)?,
    )?;
    for d in 0..step.dds.len() {
        put(warned, warn_of_dd(alloc, n, step, d)?)?;
    }
    let Some((d, words)) = never_fits(alloc, step, configured.units, configured.rooms)? else {
        return Ok(());
    };
    let warning = JobWarning {
        step: n.saturating_add(1),
        dd: Some(d.saturating_add(1)),
        words,
    };
    put(warned, Some(warning))
}

/// What a job of this plan warns of, step by step, a hundred warnings at most.
pub fn warnings_of(
    alloc: Global,
    plan: &JobPlan,
    configured: Configured<'_, '_, '_>,
) -> Result<Vec<JobWarning>, AllocError> {
    let mut warned = Vec::new(alloc);
    for (n, step) in plan.steps.as_slice().iter().enumerate() {
        warn_of(alloc, plan, n, step, configured, &mut warned)?;
        if warned.len() >= MOST_WARNINGS {
            break;
        }
    }
    warned.truncate(MOST_WARNINGS);
    Ok(warned)
}
