//! What a job met along given outcomes.
ghost use Rattle.std.specs.Prelude.{◌≡◌, IfOk, map};
ghost use Rattle.solo_core.specs.Meets.{faults_of, met_of};

use jcl_meaning::solo::SoloRun;
use jcl_plan::fault::Fault;
use plain::listed::Listed;
use std::alloc::{AllocError, Global};

/// A fault that a job met, and how many actions of its agenda come before the one that met it, those that wrote nothing too.
#[derive(Clone, Copy)]
pub struct MetFault {
    pub place: usize,
    pub fault: Fault,
}

/// What a job alone did, and the faults that it met, the earliest first.
#[derive(Drop)]
pub struct PathRun {
    pub run: SoloRun,
    pub faults: Listed<MetFault>,
}

/// The faults that actions met, each with its place.
pub(crate) fn faults_in(
    alloc: Global,
    meets: &[Option<Fault>],
) -> Result<Listed<MetFault>, AllocError>
    ensures { IfOk result (λ faults. map met_of faults ≡ faults_of meets.now) }
{
    let mut faults = Listed::empty(alloc);
    for (place, met) in meets.iter().enumerate() {
        match met {
            Some(fault) => faults.push(MetFault {
                place,
                fault: *fault,
            })?,
            None => {}
        }
    }
    Ok(faults)
}
