//! Up to which step DDs refer to volumes of other DDs.
ghost use Rattle.std.specs.Prelude.{◌≡◌};
ghost use Rattle.std.specs.List.{list_any};
ghost use Rattle.packed_core.specs.Asking.{AskUpTo, kind_asks};

use jcl_plan::plan::{DdKind, DdPlan, StepPlan, VolumePlan};

/// A DD asks for the volume of another DD.
fn is_asking(d: &DdPlan) -> bool
    ensures { result ≡ kind_asks d.now.kind }
{
    match &d.kind {
        DdKind::Set(p) => match p.volume {
            VolumePlan::OfDd { .. } => true,
            _ => false,
        },
        _ => false,
    }
}

fn any_asking(dds: &[DdPlan]) -> bool
    ensures { result ≡ list_any (λ d. kind_asks d.kind) dds.now }
{
    dds.iter().any(|d| is_asking(d))
}

/// How many steps come up to the last of which a DD asks for the volume of another DD.
pub fn asking_steps(steps: &[StepPlan]) -> usize
    ensures { AskUpTo steps.now result }
{
    let all = steps.len();
    for i in 0..all {
        let left = all - i;
        if any_asking(steps[left - 1].dds.as_slice()) {
            return left;
        }
    }
    0
}
