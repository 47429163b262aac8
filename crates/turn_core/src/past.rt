//! Stretches of a job's agenda that a turn passes over at once.
ghost use Rattle.std.specs.Prelude.{◌≡◌, ◌<◌, ◌≤◌, ℕ, IfSome, IsTrue, false, length, true};
ghost use Rattle.jcl_meaning.specs.Programs.{moves_of};
ghost use Rattle.turn_core.specs.Passing.{PassesTo};
ghost use Rattle.turn_core.specs.declared.todo.Todo.TheVariants as todo;

use crate::todo::Todo;
use jcl_meaning::state::Own;
use job_text::text::JobText;
use prog_core::library::ProgramLibrary;

/// Whether this is a step of the job, which does not run.
fn is_at_rest<T: JobText>(text: &T, own: &Own, step: usize) -> bool
    requires { T.reads text.now }
    ensures rests { IsTrue result → (own.now.runs ≡ false) × (step < length (T.plan text.now).steps) }
    ensures fits { IsTrue result → step < usize.MAX }
{
    !own.runs && step < text.step_count()
}

/// Where the requests of a step end that are not made: behind a step that does not run, and at the end of one whose program is over.
fn requests_end<T: JobText>(
    text: &T,
    programs: &ProgramLibrary,
    own: &Own,
    step: usize,
) -> Option<Todo>
    requires { T.reads text.now }
    ensures asks { IfSome result (λ to. (r : ℕ) → PassesTo (moves_of programs.now) (T.plan text.now).steps own.now (todo.Ask step r) to) }
    ensures receives { IfSome result (λ to. (r : ℕ) → PassesTo (moves_of programs.now) (T.plan text.now).steps own.now (todo.Receive step r) to) }
{
    if step >= text.step_count() {
        return None;
    }
    if !own.runs {
        return Some(Todo::Start { step: step + 1 });
    }
    if own.over.is_none() {
        return None;
    }
    let request = programs.move_count(&text.program(step));
    Some(Todo::Ask { step, request })
}

/// Whether no disposition of a step is left: it does not run, or its DDs were taken up to an earlier one.
fn has_disposed<T: JobText>(text: &T, own: &Own, step: usize, dd: usize) -> bool
    requires { T.reads text.now }
    ensures there { IsTrue result → step < length (T.plan text.now).steps }
    ensures idle { IsTrue result → own.now.runs ≡ true → length own.now.dds ≤ dd }
    ensures fits { IsTrue result → step < usize.MAX }
{
    step < text.step_count() && (!own.runs || own.dds.len() <= dd)
}

/// The place up to which a turn passes over all actions, as far as is seen at once.
pub(crate) fn past<T: JobText>(text: &T, programs: &ProgramLibrary, own: &Own, place: Todo) -> Todo
    requires { T.reads text.now }
    ensures { PassesTo (moves_of programs.now) (T.plan text.now).steps own.now place result }
{
    match place {
        Todo::Start { .. } => place,
        Todo::Take { step, .. } => {
            if is_at_rest(text, own, step) {
                Todo::Start { step: step + 1 }
            } else {
                place
            }
        }
        Todo::Ask { step, .. } => requests_end(text, programs, own, step).unwrap_or(place),
        Todo::Receive { step, .. } => requests_end(text, programs, own, step).unwrap_or(place),
        Todo::Dispose { step, dd } => {
            if has_disposed(text, own, step, dd) {
                Todo::Start { step: step + 1 }
            } else {
                place
            }
        }
        Todo::Left { .. } => {
            if own.passed.len() == 0 {
                Todo::Left {
                    step: text.step_count(),
                    dd: 0,
                }
            } else {
                place
            }
        }
    }
}
