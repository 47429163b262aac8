//! Whether a job is another one with IEFBR14 in place of its programs.
use jcl_meaning::program::is_iefbr14;
use jcl_plan::plan::{DdKind, DdPlan, JobPlan, SetPlan, StepPlan, Test, VolumePlan};

fn is_same_test(one: &Test, other: &Test) -> bool {
    one.code == other.code && one.operator == other.operator && one.step == other.step
}

fn are_same_tests(one: &[Test], other: &[Test]) -> bool {
    one.len() == other.len()
        && one
            .iter()
            .zip(other)
            .all(|(test, of_other)| is_same_test(test, of_other))
}

fn is_same_volume(one: &VolumePlan, other: &VolumePlan) -> bool {
    match (one, other) {
        (VolumePlan::NotCoded, VolumePlan::NotCoded) => true,
        (VolumePlan::Serial(serial), VolumePlan::Serial(of_other)) => *serial == *of_other,
        (VolumePlan::OfName(name), VolumePlan::OfName(of_other)) => *name == *of_other,
        (
            VolumePlan::OfDd { step, dd },
            VolumePlan::OfDd {
                step: other_step,
                dd: other_dd,
            },
        ) => *step == *other_step && *dd == *other_dd,
        _ => false,
    }
}

fn is_same_set(one: &SetPlan, other: &SetPlan) -> bool {
    one.key == other.key
        && one.status == other.status
        && one.normal == other.normal
        && one.conditional == other.conditional
        && is_same_volume(&one.volume, &other.volume)
        && one.units == other.units
        && one.space == other.space
        && one.expiry == other.expiry
}

/// Whether two DDs do the same. Cards of data may be left out, since IEFBR14 reads none.
fn is_same_dd(one: &DdPlan, other: &DdPlan) -> bool {
    one.name.is_some() == other.name.is_some()
        && match (&one.kind, &other.kind) {
            (DdKind::Sysout(class), DdKind::Sysout(of_other)) => *class == *of_other,
            (DdKind::Dummy | DdKind::Cards(_), DdKind::Dummy) => true,
            (DdKind::Set(set), DdKind::Set(of_other)) => is_same_set(set, of_other),
            _ => false,
        }
}

fn are_same_dds(one: &[DdPlan], other: &[DdPlan]) -> bool {
    one.len() == other.len()
        && one
            .iter()
            .zip(other)
            .all(|(dd, of_other)| is_same_dd(dd, of_other))
}

fn is_same_step(one: &StepPlan, other: &StepPlan) -> bool {
    is_iefbr14(&other.program)
        && one.after_abend == other.after_abend
        && are_same_tests(one.tests.as_slice(), other.tests.as_slice())
        && are_same_dds(one.dds.as_slice(), other.dds.as_slice())
}

fn are_same_steps(one: &[StepPlan], other: &[StepPlan]) -> bool {
    one.len() == other.len()
        && one
            .iter()
            .zip(other)
            .all(|(step, of_other)| is_same_step(step, of_other))
}

/// Whether the second job is the first with IEFBR14 in place of its programs, but for names of steps and DDs, and for cards of data.
pub(crate) fn is_idle_of(one: &JobPlan, other: &JobPlan) -> bool {
    one.class == other.class
        && one.priority == other.priority
        && are_same_tests(one.tests.as_slice(), other.tests.as_slice())
        && are_same_steps(one.steps.as_slice(), other.steps.as_slice())
}
