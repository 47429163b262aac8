//! The fault that a job may meet.
use crate::answers::cause::{
    Deed, Done, Until, explains, last_done, push_done, push_left, volume_of,
};
use crate::answers::names::{
    Shown, push_data_set, push_dd, push_named_set, push_number, push_step, set_at,
};
use crate::answers::path::push_path;
use jcl_plan::entry::JobLine;
use jcl_plan::fault::Fault;
use jcl_plan::outcome::Outcome;
use jcl_plan::plan::{JobPlan, SetPlan, Status, VolumePlan};
use jname_core::key::Key;
use jname_core::serial::Serial;
use refusal_text::table::row_of;
use std::alloc::{AllocError, Global};

/// The number of a fault.
fn number_of(fault: Fault) -> u8 {
    match fault {
        Fault::F1 => 1,
        Fault::F2 => 2,
        Fault::F3 => 3,
        Fault::F4 => 4,
        Fault::F5 => 5,
        Fault::F6 => 6,
        Fault::F7 => 7,
        Fault::F8 => 8,
        Fault::F9 => 9,
        Fault::F10 => 10,
    }
}

/// What is wrong with a data set.
fn wrong_of(fault: Fault) -> &'static [u8] {
    match fault {
        Fault::F1 => b" is missing",
        Fault::F2 => b" is on the volume already",
        Fault::F3 => {
            b" cannot be cataloged, as the catalog has its name for another volume or a group"
        }
        Fault::F4 => b" cannot be uncataloged, as the catalog has no entry of its name",
        Fault::F5 => b" is missing, as there is no such generation or no such group",
        Fault::F6 => b" finds no primary space",
        Fault::F7 => b" is to be made without SPACE",
        Fault::F8 => b" is gone at its disposition",
        Fault::F9 => b" would be a generation above 9999",
        Fault::F10 => b" is asked for on an unknown volume",
    }
}

/// A fault, where it is met, and the lines that a job writes up to it.
#[derive(Clone, Copy)]
pub(crate) struct Met<'a> {
    pub(crate) fault: Fault,
    /// The step and the DD, which count from 1.
    pub(crate) step: usize,
    pub(crate) dd: usize,
    pub(crate) path: &'a [Outcome],
    pub(crate) lines: &'a [JobLine],
    /// The lines that name its steps: those, or none where they are of a deck that was made for a trial.
    pub(crate) naming: &'a [JobLine],
    /// The lines of the run before, where the job is run again.
    pub(crate) before: &'a [JobLine],
    /// The day before which its data set is not to be deleted, where the machine was asked for it.
    pub(crate) day: Option<u32>,
}

impl<'a> Met<'a> {
    /// The job as its steps are named on that way.
    fn shown<'p>(&self, plan: &'p JobPlan) -> Shown<'p, 'a> {
        Shown {
            plan,
            lines: self.naming,
        }
    }
}

/// What the fault of a DD is about.
#[derive(Clone, Copy)]
enum Subject {
    /// The DD's own set; where it is asked for on a volume, that one.
    Own(Option<Serial>),
    /// The set of the name to which VOL=REF refers.
    Named,
    /// The set of the DD to which it refers, which was not taken.
    OfDd(usize, usize),
}

/// What a missing set is whose volume is that of another one.
fn missing_by(set: &SetPlan, lines: &[JobLine]) -> Subject {
    match set.volume {
        VolumePlan::NotCoded => Subject::Own(None),
        VolumePlan::Serial(serial) => Subject::Own(Some(serial)),
        VolumePlan::OfName(_) if set.status == Status::New => Subject::Named,
        VolumePlan::OfName(_) => Subject::Own(None),
        VolumePlan::OfDd { step, dd } => {
            let (step, dd) = (usize::from(step), usize::from(dd));
            match volume_of(lines, step, dd) {
                Some(serial) => Subject::Own(Some(serial)),
                None => Subject::OfDd(step, dd),
            }
        }
    }
}

fn subject_of(fault: Fault, set: &SetPlan, lines: &[JobLine]) -> Subject {
    match (fault, set.volume) {
        (Fault::F1, _) => missing_by(set, lines),
        (_, VolumePlan::Serial(serial)) => Subject::Own(Some(serial)),
        _ => Subject::Own(None),
    }
}

/// The number of a fault: ` (F1)`.
fn push_fault_number(text: &mut Vec<u8>, fault: Fault) -> Result<(), AllocError> {
    text.extend_from_slice(b" (F")?;
    push_number(text, u64::from(number_of(fault)))?;
    text.push(b')')?;
    Ok(())
}

/// The DD of the fault, and where it stands: `step S3, DD T: `.
fn push_place(text: &mut Vec<u8>, plan: &JobPlan, met: &Met<'_>) -> Result<(), AllocError> {
    push_step(text, met.shown(plan), met.step)?;
    text.extend_from_slice(b", ")?;
    push_dd(text, plan, met.step, met.dd)?;
    text.extend_from_slice(b": ")
}

/// What to do, on a line of its own.
fn push_cure(text: &mut Vec<u8>, fault: Fault) -> Result<(), AllocError> {
    match row_of(b'F', number_of(fault)) {
        Some(row) => {
            text.extend_from_slice(b"\n    ")?;
            text.extend_from_slice(row.to_do.as_bytes())
        }
        None => Ok(()),
    }
}

/// Whether a set that was done with so is there, and not in the catalog: the volume on which it is.
fn kept_on(met: &Met<'_>, set: &SetPlan, done: &Option<Done>) -> Option<Serial> {
    let Some(done) = done else {
        return None;
    };
    let is_kept = match done.deed {
        Deed::Makes | Deed::Keeps | Deed::KeepsUnexpired | Deed::Uncatalogs => true,
        _ => false,
    };
    match (met.fault, set.volume) {
        (Fault::F1, VolumePlan::NotCoded) if is_kept => done.volume,
        _ => None,
    }
}

/// A set that is there, on this volume, and not in the catalog.
fn push_uncataloged(
    text: &mut Vec<u8>,
    plan: &JobPlan,
    met: &Met<'_>,
    done: &Done,
    volume: &Serial,
) -> Result<(), AllocError> {
    text.extend_from_slice(b" is not in the catalog")?;
    push_fault_number(text, met.fault)?;
    push_path(text, met.shown(plan), met.path)?;
    push_done(text, met.shown(plan), done, met.day)?;
    text.extend_from_slice(b" on ")?;
    text.extend_from_slice(volume.as_slice())?;
    text.extend_from_slice(if done.deed == Deed::Makes {
        b"\n    code VOL=SER="
    } else {
        b"\n    code CATLG there, or VOL=SER="
    })?;
    text.extend_from_slice(volume.as_slice())?;
    text.extend_from_slice(b" here")
}

/// Why a set is there already, where the run before left it.
fn push_before(
    text: &mut Vec<u8>,
    plan: &JobPlan,
    met: &Met<'_>,
    key: &Key,
    wanted: &Option<Serial>,
) -> Result<(), AllocError> {
    if met.fault != Fault::F2 {
        return Ok(());
    }
    match last_done(*text.allocator(), plan, met.before, key, wanted)? {
        Some(done) => push_left(text, &done, met.day),
        None => Ok(()),
    }
}

/// The fault of a DD's own set, and what was done last with it.
fn push_wrong(
    text: &mut Vec<u8>,
    plan: &JobPlan,
    met: &Met<'_>,
    key: &Key,
    wanted: &Option<Serial>,
    done: &Option<Done>,
) -> Result<(), AllocError> {
    text.extend_from_slice(wrong_of(met.fault))?;
    match wanted {
        Some(serial) if met.fault == Fault::F1 => {
            text.extend_from_slice(b" on ")?;
            text.extend_from_slice(serial.as_slice())?;
        }
        _ => {}
    }
    push_fault_number(text, met.fault)?;
    push_path(text, met.shown(plan), met.path)?;
    match done {
        Some(done) if explains(done.deed, met.fault) => push_done(
            text,
            met.shown(plan),
            done,
            met.day,
        )?,
        Some(_) => {}
        None => push_before(text, plan, met, key, wanted)?,
    }
    push_cure(text, met.fault)
}

/// What is wrong with a DD's own set.
fn push_own(
    text: &mut Vec<u8>,
    plan: &JobPlan,
    met: &Met<'_>,
    set: &SetPlan,
    wanted: &Option<Serial>,
) -> Result<(), AllocError> {
    push_data_set(text, Some(&set.key))?;
    let last = last_done(*text.allocator(), plan, met.lines, &set.key, wanted)?;
    let volume = kept_on(met, set, &last);
    match (&last, &volume) {
        (Some(done), Some(volume)) => push_uncataloged(text, plan, met, done, volume),
        _ => push_wrong(text, plan, met, &set.key, wanted, &last),
    }
}

/// A data set, by the name that the deck has for it, and the volume on which it is.
#[derive(Clone, Copy)]
pub(crate) struct UnexpiredSet {
    pub(crate) key: Key,
    pub(crate) volume: Serial,
}

/// The volume of a data set that was kept since it has not expired, where no DD on the way tells its day.
fn unexpired_on(done: &Done) -> Option<Serial> {
    match (done.deed, done.until) {
        (Deed::KeepsUnexpired, Until::Untold) => done.volume,
        _ => None,
    }
}

/// The data set of the fault, where it was kept since it has not expired, and no DD on the way tells its day.
pub(crate) fn unexpired_set(
    alloc: Global,
    plan: &JobPlan,
    met: &Met<'_>,
) -> Result<Option<UnexpiredSet>, AllocError> {
    let Some(set) = set_at(plan, met.step, met.dd) else {
        return Ok(None);
    };
    let Subject::Own(wanted) = subject_of(met.fault, set, met.lines) else {
        return Ok(None);
    };
    let last = match last_done(alloc, plan, met.lines, &set.key, &wanted)? {
        Some(done) => Some(done),
        None => last_done(alloc, plan, met.before, &set.key, &wanted)?,
    };
    let Some(done) = last else {
        return Ok(None);
    };
    match unexpired_on(&done) {
        Some(volume) => Ok(Some(UnexpiredSet {
            key: set.key,
            volume,
        })),
        None => Ok(None),
    }
}

/// A reference of VOL that leads to nothing.
fn push_reference(
    text: &mut Vec<u8>,
    plan: &JobPlan,
    met: &Met<'_>,
    set: &SetPlan,
    subject: &Subject,
) -> Result<(), AllocError> {
    text.extend_from_slice(b"VOL=REF leads to ")?;
    match (subject, &set.volume) {
        (Subject::OfDd(step, dd), _) => {
            push_dd(text, plan, *step, *dd)?;
            text.extend_from_slice(b" of ")?;
            push_step(text, met.shown(plan), *step)?;
            text.extend_from_slice(b", whose data set was not taken")?;
        }
        (_, VolumePlan::OfName(name)) => {
            push_named_set(text, name.as_slice())?;
            text.extend_from_slice(b", which is not in the catalog")?;
        }
        _ => text.extend_from_slice(b"nothing")?,
    }
    push_fault_number(text, met.fault)?;
    push_path(text, met.shown(plan), met.path)?;
    text.extend_from_slice(b"\n    name a set that is there, or code VOL=SER")
}

/// A fault, the outcomes that lead to it, what was done last with the data set on that way, and what to do.
pub(crate) fn push_risk(
    text: &mut Vec<u8>,
    plan: &JobPlan,
    met: &Met<'_>,
) -> Result<(), AllocError> {
    push_place(text, plan, met)?;
    let Some(set) = set_at(plan, met.step, met.dd) else {
        text.extend_from_slice(b"the data set")?;
        text.extend_from_slice(wrong_of(met.fault))?;
        push_fault_number(text, met.fault)?;
        return push_path(text, met.shown(plan), met.path);
    };
    let subject = subject_of(met.fault, set, met.lines);
    match &subject {
        Subject::Own(wanted) => push_own(text, plan, met, set, wanted),
        _ => push_reference(text, plan, met, set, &subject),
    }
}
