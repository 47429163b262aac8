//! A turn of an admitted job: its actions up to the first that writes.
ghost use Rattle.std.specs.Prelude.{◌≡◌, ◌<◌, IfOk, OnErr, false, length};
ghost use Rattle.disp_core.specs.Grants.{made_of};
ghost use Rattle.turn_core.specs.Ending.{own_before};
ghost use Rattle.turn_core.specs.Turning.{TellsFrom, acts, made_in};

use crate::ended::{BeforeEnd, before_end, end_step, ended_step, take_back};
use crate::find::find;
use crate::perform::perform;
use crate::todo::{Next, Todo};
use crate::wait::must_wait;
use crate::walk::{Setting, Turned, Walk};
use job_text::text::JobText;
use std::alloc::{AllocError, Global};
use store_core::job_store::JobStore;

/// Takes the end of a step back, and the place behind it.
fn go_back(walk: &mut Walk, place: Todo, before: BeforeEnd)
    requires { 0 < length walk.old.course.own.ended }
    ensures { walk.new ≡ record { todo = place; course = record walk.old.course { own = own_before walk.old.course.own before } } }
{
    walk.todo = place;
    take_back(&mut walk.course.own, before);
}

/// The turn of a job that stands at a place of its agenda: its actions up to the first that writes. Where the job waits, or where END is due, nothing
/// changes, and an `Err` changes nothing.
pub fn turn<T: JobText, S: JobStore>(
    alloc: Global,
    text: &T,
    setting: &Setting<'_>,
    store: &mut S,
    walk: &mut Walk,
) -> Result<Turned, AllocError>
    requires { T.reads text.now }
    ensures ok { IfOk result (TellsFrom S.JobStore setting.now (T.plan text.now).steps store.old walk.old store.new walk.new) }
    ensures kept { IfOk result (λ told. acts told ≡ false → (store.new ≡ store.old) × (walk.new ≡ walk.old)) }
    ensures rest { IfOk result (λ told.
        S.takes setting.now.job (made_of (made_in told)) (S.rest setting.now.job store.old) (S.rest setting.now.job store.new)) }
    ensures err { OnErr result ((store.new ≡ store.old) × (walk.new ≡ walk.old)) }
{
    match find(text, setting.programs, &walk.course.own, walk.todo) {
        Next::Over => Ok(Turned::Ends),
        Next::Does(task, behind) => match ended_step(&task, &walk.course.own) {
            None => {
                if must_wait(text, setting, &*store, &walk.course.own, &task) {
                    return Ok(Turned::Waits);
                }
                let acted = perform(alloc, text, setting, store, &mut walk.course, &task)?;
                walk.todo = behind;
                Ok(Turned::Acts(acted))
            }
            Some(n) => {
                let place = walk.todo;
                let before = before_end(&walk.course.own)?;
                end_step(alloc, &mut walk.course, n)?;
                walk.todo = behind;
                match turn(alloc, text, setting, store, walk) {
                    Ok(Turned::Acts(acted)) => Ok(Turned::Acts(acted)),
                    Ok(Turned::Waits) => {
                        go_back(walk, place, before);
                        Ok(Turned::Waits)
                    }
                    Ok(Turned::Ends) => {
                        go_back(walk, place, before);
                        Ok(Turned::Ends)
                    }
                    Err(error) => {
                        go_back(walk, place, before);
                        Err(error)
                    }
                }
            }
        },
    }
}
