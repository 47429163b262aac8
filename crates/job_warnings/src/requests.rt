//! Requests of programs that the DDs of their steps do not allow.
ghost use Rattle.std.specs.Prelude.{◌≡◌, ◌<◌, drop, length};
ghost use Rattle.jcl_meaning.specs.Programs.{moves_of};
ghost use Rattle.job_text.specs.Places.{step_at};
ghost use Rattle.job_warnings.specs.Requests.{first_denied, is_denied, put_denied};

use jcl_meaning::program::Move;
use jcl_plan::plan::JobPlan;
use jname_core::name8::Name8;
use job_text::text::JobText;
use prog_core::library::ProgramLibrary;
use request_core::ask::{dd_name, is_read_only};
use store_core::source::is_concatenated;

/// Why a request ends its step.
#[derive(Clone, Copy)]
pub enum Denied {
    /// No DD of the step has this name: SFF0.
    NoDd(Name8),
    /// A record is put to the DD of this number, from 0, which is only read: SFF1.
    OnlyRead(usize),
}

/// Whether no record may be put to a DD. Steps and DDs count from 0.
fn put_denied(plan: &JobPlan, step: usize, dd: usize) -> bool
    requires step { step < length plan.now.steps }
    requires dd { dd < length (step_at plan.now.steps step).dds }
    ensures { result ≡ put_denied (drop dd (step_at plan.now.steps step).dds) }
{
    is_read_only(&plan.put_text(step, dd)) || is_concatenated(plan, step, dd)
}

/// Why a request of a step ends it, if it does so by the step's DDs alone.
fn is_denied(plan: &JobPlan, step: usize, wants: &Move) -> Option<Denied>
    requires { step < length plan.now.steps }
    ensures { result ≡ is_denied (step_at plan.now.steps step).dds wants.now }
{
    let name = dd_name(wants);
    let Some(dd) = plan.dd_named(step, name) else {
        return Some(Denied::NoDd(*name));
    };
    match wants {
        Move::From(_) => None,
        Move::To { .. } => {
            if put_denied(plan, step, dd) {
                Some(Denied::OnlyRead(dd))
            } else {
                None
            }
        }
    }
}

/// Why the first request of a step's program that its DDs do not allow ends the step. Steps count from 0.
pub fn first_denied(plan: &JobPlan, step: usize, programs: &ProgramLibrary) -> Option<Denied>
    requires { step < length plan.now.steps }
    ensures { result ≡ first_denied (step_at plan.now.steps step).dds (moves_of programs.now (step_at plan.now.steps step).program) }
{
    let program = plan.program(step);
    for place in 0..programs.move_count(&program) {
        let Some(wants) = programs.move_at(&program, place) else {
            unreachable!();
        };
        let denied = is_denied(plan, step, &wants);
        if denied.is_some() {
            return denied;
        }
    }
    None
}
