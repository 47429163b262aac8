//! The next action of a job's agenda, at a place of it.
ghost use Rattle.std.specs.Prelude.{◌≡◌, ◌+◌, ◌<◌, [], ℕ, List, IfNone, IfSome, drop, length};
ghost use Rattle.jcl_meaning.specs.declared.program.Move.{Move};
ghost use Rattle.jcl_meaning.specs.Agendas.{lefts_in};
ghost use Rattle.jcl_meaning.specs.Programs.{moves_of};
ghost use Rattle.job_text.specs.Places.{step_at};
ghost use Rattle.turn_core.specs.Places.{IsNext, LeavesFirst};
ghost use Rattle.turn_core.specs.declared.todo.Todo.TheVariants as todo;

use crate::todo::{Next, Task, Todo};
use job_text::text::JobText;
use prog_core::library::ProgramLibrary;

/// The first DD of a step from this one on, from 0, that may have passed a set.
fn passing_from<T: JobText>(text: &T, step: usize, from: usize) -> Option<usize>
    requires reads { T.reads text.now }
    requires step { step < length (T.plan text.now).steps }
    ensures found { IfSome result (λ i. LeavesFirst (step_at (T.plan text.now).steps step).dds from i) }
    ensures fits { IfSome result (λ i. i < usize.MAX) }
    ensures none { IfNone result ((n : ℕ) → lefts_in n (from + 1) (drop from (step_at (T.plan text.now).steps step).dds) ≡ []) }
{
    for i in from..text.dd_count(step) {
        if text.passes(step, i) {
            return Some(i);
        }
    }
    None
}

/// What a DD passed and no DD received, or the job's end.
fn next_left<T: JobText>(text: &T, k: usize, d: usize) -> Next
    requires { T.reads text.now }
    ensures { (moves : List ℕ → List Move) → IsNext moves (T.plan text.now).steps (todo.Left k d) result }
{
    let mut from = d;
    for i in k..text.step_count() {
        match passing_from(text, i, from) {
            Some(dd) => {
                let task = Task::Left {
                    n: i + 1,
                    dd: dd + 1,
                };
                let behind = Todo::Left {
                    step: i,
                    dd: dd + 1,
                };
                return Next::Does(task, behind);
            }
            None => from = 0,
        }
    }
    Next::Over
}

/// The start of a step, or what the steps' DDs passed.
fn next_start<T: JobText>(text: &T, k: usize) -> Next
    requires { T.reads text.now }
    ensures { (moves : List ℕ → List Move) → IsNext moves (T.plan text.now).steps (todo.Start k) result }
{
    if k < text.step_count() {
        return Next::Does(Task::Start { n: k + 1 }, Todo::Take { step: k, dd: 0 });
    }
    next_left(text, 0, 0)
}

/// The disposition of a DD, or the next step.
fn next_dispose<T: JobText>(text: &T, k: usize, d: usize) -> Next
    requires { T.reads text.now }
    ensures { (moves : List ℕ → List Move) → IsNext moves (T.plan text.now).steps (todo.Dispose k d) result }
{
    if k >= text.step_count() {
        return Next::Over;
    }
    if d < text.dd_count(k) {
        let task = Task::Dispose {
            n: k + 1,
            dd: d + 1,
        };
        return Next::Does(task, Todo::Dispose { step: k, dd: d + 1 });
    }
    next_start(text, k + 1)
}

/// A request, or the end of its step.
fn next_ask<T: JobText>(text: &T, programs: &ProgramLibrary, k: usize, request: usize) -> Next
    requires { T.reads text.now }
    ensures { IsNext (moves_of programs.now) (T.plan text.now).steps (todo.Ask k request) result }
{
    if k >= text.step_count() {
        return Next::Over;
    }
    match programs.move_at(&text.program(k), request) {
        Some(wants) => Next::Does(
            Task::Ask { n: k + 1, wants },
            Todo::Receive {
                step: k,
                request: request + 1,
            },
        ),
        None => Next::Does(Task::Finish { n: k + 1 }, Todo::Dispose { step: k, dd: 0 }),
    }
}

/// The taking of a DD, or the first request.
fn next_take<T: JobText>(text: &T, programs: &ProgramLibrary, k: usize, d: usize) -> Next
    requires { T.reads text.now }
    ensures { IsNext (moves_of programs.now) (T.plan text.now).steps (todo.Take k d) result }
{
    if k >= text.step_count() {
        return Next::Over;
    }
    if d < text.dd_count(k) {
        let task = Task::Take {
            n: k + 1,
            dd: d + 1,
        };
        return Next::Does(task, Todo::Take { step: k, dd: d + 1 });
    }
    next_ask(text, programs, k, 0)
}

/// The action at a place of the agenda, and the place behind it.
pub(crate) fn next<T: JobText>(text: &T, programs: &ProgramLibrary, place: Todo) -> Next
    requires { T.reads text.now }
    ensures { IsNext (moves_of programs.now) (T.plan text.now).steps place result }
{
    match place {
        Todo::Start { step } => next_start(text, step),
        Todo::Take { step, dd } => next_take(text, programs, step, dd),
        Todo::Ask { step, request } => next_ask(text, programs, step, request),
        Todo::Receive { step, request } => {
            Next::Does(Task::Receive, Todo::Ask { step, request })
        }
        Todo::Dispose { step, dd } => next_dispose(text, step, dd),
        Todo::Left { step, dd } => next_left(text, step, dd),
    }
}
