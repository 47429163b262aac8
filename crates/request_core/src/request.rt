//! What a program's requests do. (This profile)
ghost use Rattle.std.specs.Prelude.{◌≡◌, ◌+◌, ◌^◌, ◌<◌, ◌≤◌, ◌++◌, ◌∷◌, [], IfOk, OnErr, OnOk, length, slice_get};
ghost use Rattle.jcl_plan.specs.declared.entry.JobLine.TheVariants as line;
ghost use Rattle.jcl_meaning.specs.RequestActs.{store_appended};
ghost use Rattle.jcl_meaning.specs.States.{asks_open, wrote};
ghost use Rattle.job_text.specs.Places.{step_at};
ghost use Rattle.disp_core.specs.Acting.{Acts};
ghost use Rattle.request_core.specs.Requests.{GetsOver, IsReceived, IsReceivedNow, course_abended, got, moved, with_dd};

use crate::here::{Asking, Here};
use crate::read::reads;
use disp_core::course::Course;
use jcl_meaning::source::FoundRecord;
use jcl_meaning::state::{DdState, Due, Own};
use jcl_plan::entry::JobLine;
use jcl_plan::outcome::{Abend, Outcome};
use jcl_plan::plan::Record;
use jname_core::name8::Name8;
use job_text::text::JobText;
use plain::listed::Listed;
use std::alloc::{AllocError, Global};
use std::mem;
use store_core::job_store::JobStore;

/// The next number of lines. One past a machine word, and no other, is answered as want of memory.
pub(crate) fn one_more(lines: usize) -> Result<usize, AllocError>
    ensures sum { IfOk result (λ n. n ≡ lines + 1) }
    ensures past { OnErr result (2 ^ 64 ≤ lines + 1) }
{
    match lines.checked_add(1) {
        Some(n) => Ok(n),
        None => Err(AllocError),
    }
}

/// Whether the program of the step at hand goes on.
pub(crate) fn is_open(own: &Own) -> bool
    ensures { result ≡ asks_open own.now }
{
    own.runs && own.over.is_none()
}

/// The program ends by an ABEND. An `Err` changes nothing.
pub(crate) fn abend(course: &mut Course, abend: &Abend) -> Result<(), AllocError>
    ensures ok { OnOk result (course.new ≡ course_abended course.old abend.now) }
    ensures err { OnErr result (course.new ≡ course.old) }
{
    let lines = one_more(course.own.lines)?;
    course.say(JobLine::Abend(*abend))?;
    course.own.over = Some(Outcome::Abend(*abend));
    course.own.due = None;
    course.own.lines = lines;
    Ok(())
}

/// Where a DD reads next.
fn move_to(alloc: Global, dds: &mut Listed<DdState>, d: usize, member: usize, position: usize)
    ensures { dds.new ≡ with_dd (moved member position) dds.old d }
{
    let mut states = mem::replace(dds, Listed::empty(alloc)).into_vec();
    if let Some(x) = states.get_mut(d) {
        x.member = member;
        x.position = position;
    }
    *dds = Listed::new(states);
}

/// What a GET does that reads there. An `Err` changes nothing.
fn get_at(
    alloc: Global,
    course: &mut Course,
    name: &Name8,
    d: usize,
    found: &FoundRecord,
) -> Result<(), AllocError>
    ensures ok { OnOk result (course.new ≡ got course.old name.now d found.now) }
    ensures err { OnErr result (course.new ≡ course.old) }
{
    let lines = one_more(course.own.lines)?;
    let (line, due, position) = match &found.text {
        None => (JobLine::GetEnd { name: *name }, None, found.position),
        Some(text) => {
            let next = one_more(found.position)?;
            match &found.serial {
                None => {
                    let line = JobLine::GetData {
                        name: *name,
                        text: *text,
                    };
                    (line, None, next)
                }
                Some(serial) => {
                    let line = JobLine::GetStart {
                        name: *name,
                        serial: *serial,
                    };
                    let due = Due::Data {
                        name: *name,
                        text: *text,
                    };
                    (line, Some(due), next)
                }
            }
        }
    };
    course.say(line)?;
    move_to(alloc, &mut course.own.dds, d, found.member, position);
    course.own.due = due;
    course.own.lines = lines;
    Ok(())
}

/// A GET's first action, at a DD whose state is this. An `Err` changes nothing.
pub(crate) fn get<T: JobText, S: JobStore>(
    alloc: Global,
    text: &T,
    store: &S,
    course: &mut Course,
    asking: &Asking<'_>,
    name: &Name8,
    here: &Here,
) -> Result<(), AllocError>
    requires reads { T.reads text.now }
    requires step { asking.now.step < length (T.plan text.now).steps }
    requires dd { here.now.d < length (step_at (T.plan text.now).steps asking.now.step).dds }
    ensures ok { OnOk result (GetsOver (T.plan text.now).steps asking.now name.now here.now (S.seen asking.now.job store.now) course.old course.new) }
    ensures err { OnErr result (course.new ≡ course.old) }
{
    let states = course.own.dds.as_slice();
    let found = reads(text, store, asking.job, asking.step, states, here);
    get_at(alloc, course, name, here.d, &found)
}

/// A record behind those of the set that a DD took, if it took one. An `Err` changes nothing.
fn append<S: JobStore>(
    store: &mut S,
    job: u16,
    dds: &[DdState],
    d: usize,
    text: &Record,
) -> Result<(), AllocError>
    ensures ok { OnOk result (S.seen job store.new ≡ store_appended (slice_get dds.now d) text.now (S.seen job store.old)) }
    ensures err { OnErr result (store.new ≡ store.old) }
    ensures rest { S.rest job store.new ≡ S.rest job store.old }
{
    let Some(x) = dds.get(d) else {
        return Ok(());
    };
    match &x.taken {
        None => Ok(()),
        Some(t) => store.append(job, &t.key, t.serial, text),
    }
}

/// Writes a line of the program behind which nothing is due. An `Err` changes nothing.
pub(crate) fn say_done(course: &mut Course, line: JobLine) -> Result<(), AllocError>
    ensures ok { OnOk result (course.new ≡ record { own = wrote course.old.own; lines = course.old.lines ++ line ∷ [] }) }
    ensures err { OnErr result (course.new ≡ course.old) }
{
    let lines = one_more(course.own.lines)?;
    course.say(line)?;
    course.own.due = None;
    course.own.lines = lines;
    Ok(())
}

/// The record of a PUT goes into its set, and the line is written. An `Err` changes nothing.
fn receive_put<S: JobStore>(
    store: &mut S,
    job: u16,
    course: &mut Course,
    name: &Name8,
    d: usize,
    text: &Record,
) -> Result<(), AllocError>
    ensures seen { OnOk result (S.seen job store.new ≡ store_appended (slice_get course.old.own.dds d) text.now (S.seen job store.old)) }
    ensures course { OnOk result (course.new ≡ record { own = wrote course.old.own; lines = course.old.lines ++ line.PutDone name.now ∷ [] }) }
    ensures err { OnErr result ((store.new ≡ store.old) × (course.new ≡ course.old)) }
    ensures rest { S.rest job store.new ≡ S.rest job store.old }
{
    let lines = one_more(course.own.lines)?;
    course.say(JobLine::PutDone { name: *name })?;
    match append(store, job, course.own.dds.as_slice(), d, text) {
        Ok(()) => {}
        Err(error) => {
            course.unsay();
            return Err(error);
        }
    }
    course.own.due = None;
    course.own.lines = lines;
    Ok(())
}

/// What is due at the device's end. An `Err` changes nothing.
fn receive_due<S: JobStore>(
    store: &mut S,
    job: u16,
    course: &mut Course,
    due: &Due,
) -> Result<(), AllocError>
    ensures { Acts S.JobStore job (IsReceivedNow due.now) result store.old course.old store.new course.new }
{
    match due {
        Due::Data { name, text } => say_done(
            course,
            JobLine::GetData {
                name: *name,
                text: *text,
            },
        ),
        Due::Put { name, dd, text } => receive_put(store, job, course, name, *dd, text),
    }
}

/// What is due of a request, unless a cancel stands in its place. An `Err` changes nothing.
pub fn receive<S: JobStore>(
    store: &mut S,
    job: u16,
    course: &mut Course,
    cancelled: bool,
) -> Result<(), AllocError>
    ensures { Acts S.JobStore job (IsReceived cancelled) result store.old course.old store.new course.new }
{
    if !is_open(&course.own) {
        return Ok(());
    }
    let due = course.own.due;
    let Some(due) = &due else {
        return Ok(());
    };
    if cancelled {
        return abend(course, &Abend::S222);
    }
    receive_due(store, job, course, due)
}
