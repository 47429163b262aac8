//! Where sets are made that have no place of their own.
use crate::case::Case;
use jcl_meaning::places::Places;
use jcl_meaning::state::Place;
use jcl_plan::plan::{DdKind, DdPlan, JobPlan, SetPlan, Status, VolumePlan};
use jname_core::serial::Serial;
use std::alloc::{AllocError, Global};

/// The volume on which a set may be made: its own, or else this one.
fn volume_of(set: &SetPlan, serial: Serial) -> Option<Serial> {
    match (set.status, set.volume) {
        (Status::New, VolumePlan::Serial(own)) => Some(own),
        (Status::New, VolumePlan::NotCoded) => Some(serial),
        (Status::Mod, VolumePlan::NotCoded) => Some(serial),
        _ => None,
    }
}

/// Puts the places of a step's sets behind others.
fn add_step(
    places: &mut Places,
    step: usize,
    dds: &[DdPlan],
    serial: Serial,
) -> Result<(), AllocError> {
    for (before, dd) in dds.iter().enumerate() {
        if let DdKind::Set(set) = &dd.kind {
            if let Some(serial) = volume_of(set, serial) {
                places.push(Place {
                    step,
                    dd: before + 1,
                    serial,
                })?;
            }
        }
    }
    Ok(())
}

/// The places of a case, and behind them those of all sets that its plan may make.
pub(crate) fn places_of(case: &Case<'_>, plan: &JobPlan) -> Result<Places, AllocError> {
    let mut places = case.places.clone()?;
    if let Some(serial) = case.every_place {
        for (before, step) in plan.steps.as_slice().iter().enumerate() {
            add_step(&mut places, before + 1, step.dds.as_slice(), serial)?;
        }
    }
    Ok(places)
}
