//! Checking a path that is told with a fault.
ghost use Rattle.std.specs.Prelude.{◌≡◌, ◌↔◌, Any, IfOk, IsTrue};
ghost use Rattle.path_core.specs.MarksMet.{IsMetBy};
ghost use Rattle.path_core.specs.Reports.{TakesReport};

use crate::fates::{are_of_fates, fates_in};
use crate::marks::{Spot, mark_at, marks_of};
use crate::start::StartView;
use jcl_plan::fault::Fault;
use jcl_plan::plan::JobPlan;
use path_search::verdict::RiskReport;
use solo_core::path::MetFault;
use solo_core::path_run;
use std::alloc::{AllocError, Global};

fn same_fault(a: Fault, b: Fault) -> bool
    ensures { IsTrue result ↔ (a ≡ b) }
{
    a == b
}

/// Whether it is this fault, met by an action that is marked.
fn is_met_by(met: &MetFault, fault: Fault, marks: &[bool]) -> bool
    ensures { IsTrue result ↔ IsMetBy met.now fault marks.now }
{
    same_fault(met.fault, fault) && mark_at(marks, met.place)
}

/// Whether this fault was met by an action that is marked.
fn is_met(faults: &[MetFault], fault: Fault, marks: &[bool]) -> bool
    ensures { IsTrue result ↔ Any (λ met. IsMetBy met fault marks.now) faults.now }
{
    for met in faults {
        if is_met_by(met, fault, marks) {
            return true;
        }
    }
    false
}

/// Whether a report is founded: the job, run along the path, comes to the step and the DD that are told, and meets the fault there. It is not where
/// the path has another length than some such place wants, or an outcome that its step cannot have: a step that does not run has its fate.
///
/// Who reads a report need not trust what made it.
pub fn check_path(
    alloc: Global,
    plan: &JobPlan,
    start: &StartView,
    report: &RiskReport,
) -> Result<bool, AllocError>
    ensures { IfOk result (λ yes. IsTrue yes ↔ TakesReport start.now plan.now report.now) }
{
    let path = report.path.as_slice();
    let ran = path_run(alloc, plan, &start.store, &start.places, path, start.date)?;
    let fates = fates_in(alloc, ran.run.lines.as_slice())?;
    if !are_of_fates(fates.as_slice(), path) {
        return Ok(false);
    }
    let spot = Spot {
        step: report.step,
        dd: report.dd,
        ended: path.len(),
    };
    let marks = marks_of(alloc, plan, &spot)?;
    Ok(is_met(ran.faults.as_slice(), report.fault, marks.as_slice()))
}
