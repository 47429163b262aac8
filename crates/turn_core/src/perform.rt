//! An action carried out.
ghost use Rattle.std.specs.Prelude.{◌≡◌, ◌∷◌, [], IfOk, None, OnErr, drop, false};
ghost use Rattle.disp_core.specs.Grants.{made_of};
ghost use Rattle.turn_core.specs.Ending.{ended_at};
ghost use Rattle.turn_core.specs.Passing.{is_idle};
ghost use Rattle.turn_core.specs.Performing.{PerformsOver, volume_started};
ghost use Rattle.turn_core.specs.Places.{IsThere, action_of};

use crate::todo::Task;
use crate::walk::{Acted, Setting};
use disp_core::course::Course;
use disp_core::site::site_of;
use disp_core::{dispose, step, take};
use jcl_meaning::state::Place;
use jcl_plan::entry::JobLine;
use jname_core::serial::Serial;
use job_text::text::JobText;
use request_core::here::Asking;
use request_core::{ask, request};
use std::alloc::{AllocError, Global};
use store_core::job_store::JobStore;

/// The volume on which the operation of a request starts, by its line, which stands at a place.
fn started_at(lines: &[JobLine], place: usize) -> Option<Serial>
    ensures { result ≡ volume_started (drop place lines.now) }
{
    match lines.get(place) {
        Some(JobLine::GetStart { serial, .. }) => Some(*serial),
        Some(JobLine::PutStart { serial, .. }) => Some(*serial),
        _ => None,
    }
}

/// What is to be done for an action that starts no operation.
fn acted(made: Option<Place>, cancelled: bool) -> Acted
    ensures { result ≡ record { made = made; starts = None; cancelled = cancelled } }
{
    Acted {
        made,
        starts: None,
        cancelled,
    }
}

/// Carries out an action that is not passed over, with the answers of the store; it tells what is to be done for it. An `Err` changes nothing.
pub(crate) fn perform<T: JobText, S: JobStore>(
    alloc: Global,
    text: &T,
    setting: &Setting<'_>,
    store: &mut S,
    course: &mut Course,
    task: &Task,
) -> Result<Acted, AllocError>
    requires reads { T.reads text.now }
    requires there { IsThere (T.plan text.now).steps task.now }
    requires acts { is_idle (action_of (T.plan text.now).steps task.now) course.old.own ≡ false }
    requires goes_on { ended_at (action_of (T.plan text.now).steps task.now) course.old.own ≡ None }
    ensures ok { IfOk result (PerformsOver S.JobStore setting.now (T.plan text.now).steps task.now store.old course.old store.new course.new) }
    ensures rest { IfOk result (λ told. S.takes setting.now.job (made_of told.made) (S.rest setting.now.job store.old) (S.rest setting.now.job store.new)) }
    ensures err { OnErr result ((store.new ≡ store.old) × (course.new ≡ course.old)) }
{
    let job = setting.job;
    let given = &setting.given;
    let cancelled = setting.cancelled;
    match task {
        Task::Start { n } => {
            step::begin(text, given, course, *n)?;
            Ok(acted(None, false))
        }
        Task::Take { n, dd } => {
            let at = site_of(text, job, *n, *dd);
            let reads = text.take_text(*n - 1, *dd - 1);
            let taken = take::take(alloc, store, given, course, &at, &reads)?;
            Ok(acted(taken.made, false))
        }
        Task::Ask { n, wants } => {
            let asking = Asking {
                job,
                step: *n - 1,
                wants,
                cancelled,
            };
            let place = course.lines.len();
            ask::ask(alloc, text, store, course, &asking)?;
            Ok(Acted {
                made: None,
                starts: started_at(course.lines.as_slice(), place),
                cancelled,
            })
        }
        Task::Receive => {
            request::receive(store, job, course, cancelled)?;
            Ok(acted(None, cancelled))
        }
        Task::Finish { n } => {
            let program = text.program(*n - 1);
            let outcome = setting.programs.ending_of(&program);
            step::finish(alloc, course, *n, &outcome, cancelled)?;
            Ok(acted(None, cancelled))
        }
        Task::Dispose { n, dd } => {
            let at = site_of(text, job, *n, *dd);
            let reads = text.disp_text(*n - 1, *dd - 1);
            dispose::dispose(store, given, course, &at, &reads)?;
            Ok(acted(None, false))
        }
        Task::Left { n, dd } => {
            let at = site_of(text, job, *n, *dd);
            let reads = text.disp_text(*n - 1, *dd - 1);
            dispose::leave(store, given, course, &at, &reads)?;
            Ok(acted(None, false))
        }
    }
}
