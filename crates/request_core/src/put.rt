//! PUT. (This profile)
ghost use Rattle.std.specs.Prelude.{◌≡◌, [], IfOk, None, OnErr, OnOk, Some, is_some};
ghost use Rattle.jcl_plan.specs.declared.entry.JobLine.TheVariants as line;
ghost use Rattle.jcl_meaning.specs.Programs.{emptied, empties, is_full, or_nothing};
ghost use Rattle.jcl_meaning.specs.declared.state.Due.TheVariants as due;
ghost use Rattle.job_text.specs.Texts.{put_as};
ghost use Rattle.store_core.specs.Actions.{changed_at};
ghost use Rattle.request_core.specs.Requests.{AsksGrowthAs, GrowsCourse, GrowsStore, PutsAs, PutsInOver, course_due, course_put};
ghost use Rattle.request_core.specs.Requests.{course_with, growth_in, with_dd, with_mark, with_spooled};

use crate::here::Here;
use crate::request::{abend, one_more, say_done};
use disp_core::course::Course;
use jcl_meaning::state::{DdState, Due, TakenSet};
use jcl_plan::entry::JobLine;
use jcl_plan::outcome::Abend;
use jcl_plan::plan::{RECORDS_A_TRACK, Record, Status};
use jname_core::name8::Name8;
use job_text::texts::{PutSet, PutText};
use plain::listed::Listed;
use std::alloc::{AllocError, Global};
use std::mem;
use store_core::job_store::{JobStore, RoomFault};
use store_core::laws::{grown_and_emptied_in_either_order, not_emptied_stays};

/// A PUT: of which job, the name of its DD, its record, and the DD, from 0.
#[derive(Clone, Copy)]
pub(crate) struct Putting<'a> {
    pub(crate) job: u16,
    pub(crate) name: &'a Name8,
    pub(crate) text: &'a Record,
    pub(crate) d: usize,
}

/// A record was put by a DD.
fn mark(alloc: Global, dds: &mut Listed<DdState>, d: usize)
    ensures { dds.new ≡ with_dd with_mark dds.old d }
{
    let mut states = mem::replace(dds, Listed::empty(alloc)).into_vec();
    if let Some(x) = states.get_mut(d) {
        x.written = true;
    }
    *dds = Listed::new(states);
}

/// A record behind those of a DD for SYSOUT. An `Err` changes nothing.
fn spool(
    alloc: Global,
    dds: &mut Listed<DdState>,
    d: usize,
    text: &Record,
) -> Result<(), AllocError>
    ensures ok { OnOk result (dds.new ≡ with_dd (with_spooled text.now) dds.old d) }
    ensures err { OnErr result (dds.new ≡ dds.old) }
{
    let mut states = mem::replace(dds, Listed::empty(alloc)).into_vec();
    let told = match states.get_mut(d) {
        None => Ok(()),
        Some(x) => x.spooled.push(*text),
    };
    *dds = Listed::new(states);
    told
}

/// Whether a PUT empties the set first.
fn empties(status: Status, written: bool) -> bool
    ensures { result ≡ empties status written }
{
    match status {
        Status::New => !written,
        Status::Old => !written,
        Status::Shr => false,
        Status::Mod => false,
    }
}

/// Whether the records fill the tracks of a set, once it is emptied or not.
fn is_full<S: JobStore>(store: &S, job: u16, t: &TakenSet, wipes: bool) -> bool
    ensures { result ≡ is_full (emptied wipes (or_nothing ((S.seen job store.now).set t.now.key t.now.serial))) }
{
    match store.set(job, &t.key, t.serial) {
        None => true,
        Some(facts) => {
            let records = if wipes { 0 } else { facts.records };
            facts.tracks <= (records / RECORDS_A_TRACK) as u64
        }
    }
}

/// Takes the records of a set away, or leaves it.
fn wipe<S: JobStore>(store: &mut S, job: u16, t: &TakenSet, wipes: bool)
    ensures seen { S.seen job store.new ≡ changed_at (emptied wipes) (S.seen job store.old) t.now.key t.now.serial }
    ensures rest { S.rest job store.new ≡ S.rest job store.old }
{
    not_emptied_stays();
    if wipes {
        store.empty(job, &t.key, t.serial);
    }
}

/// The operation of a PUT is due, behind its line.
fn begin_put(alloc: Global, course: &mut Course, d: usize, due: Due, lines: usize)
    ensures { course.new ≡ course_due d due lines course.old }
{
    mark(alloc, &mut course.own.dds, d);
    course.own.due = Some(due);
    course.own.lines = lines;
}

fn due_of(putting: &Putting<'_>) -> Due
    ensures { result ≡ due.Put putting.now.name.now putting.now.d putting.now.text.now }
{
    Due::Put {
        name: *putting.name,
        dd: putting.d,
        text: *putting.text,
    }
}

/// The start of a PUT to a set that has room. An `Err` changes nothing.
fn put_starts(
    alloc: Global,
    course: &mut Course,
    putting: &Putting<'_>,
    t: &TakenSet,
) -> Result<(), AllocError>
    ensures ok { OnOk result (course.new ≡ course_put course.old putting.now.name.now putting.now.text.now putting.now.d t.now None) }
    ensures err { OnErr result (course.new ≡ course.old) }
{
    let lines = one_more(course.own.lines)?;
    course.say(JobLine::PutStart {
        name: *putting.name,
        serial: t.serial,
        grown: None,
    })?;
    begin_put(alloc, course, putting.d, due_of(putting), lines);
    Ok(())
}

/// The start of a PUT to a set that is to grow: where it may not, it is an ABEND. An `Err` changes nothing.
fn put_grows<S: JobStore>(
    alloc: Global,
    store: &mut S,
    course: &mut Course,
    putting: &Putting<'_>,
    t: &TakenSet,
    secondary: u16,
    wipes: bool,
) -> Result<(), AllocError>
    ensures seen { OnOk result (GrowsStore S.JobStore putting.now t.now secondary wipes store.old store.new) }
    ensures course { OnOk result (GrowsCourse S.JobStore putting.now t.now secondary store.old course.old course.new) }
    ensures err { OnErr result ((store.new ≡ store.old) × (course.new ≡ course.old)) }
    ensures rest { OnOk result (S.takes putting.now.job [] (S.rest putting.now.job store.old) (S.rest putting.now.job store.new)) }
{
    grown_and_emptied_in_either_order();
    let lines = one_more(course.own.lines)?;
    course.say(JobLine::PutStart {
        name: *putting.name,
        serial: t.serial,
        grown: Some(secondary),
    })?;
    match store.grow(putting.job, &t.key, t.serial, secondary) {
        Ok(()) => {
            begin_put(alloc, course, putting.d, due_of(putting), lines);
            wipe(store, putting.job, t, wipes);
            Ok(())
        }
        Err(RoomFault::NotGranted) => {
            course.unsay();
            abend(course, &Abend::SB37)?;
            wipe(store, putting.job, t, wipes);
            Ok(())
        }
        Err(RoomFault::Memory) => {
            course.unsay();
            Err(AllocError)
        }
    }
}

/// PUT to a set: at the start of the operation it is emptied, if it is the first, and grows, if it is full; it tells whether it asked for tracks. An
/// `Err` changes nothing.
fn put_in<S: JobStore>(
    alloc: Global,
    store: &mut S,
    course: &mut Course,
    putting: &Putting<'_>,
    here: &Here,
    p: &PutSet,
    t: &TakenSet,
) -> Result<bool, AllocError>
    requires { here.now.d ≡ putting.now.d }
    ensures asked { IfOk result (λ asked. asked ≡ is_some (growth_in (put_as p.now) here.now.written (Some t.now) (S.seen putting.now.job store.old))) }
    ensures ok { OnOk result (PutsInOver S.JobStore putting.now here.now (put_as p.now) t.now store.old course.old store.new course.new) }
    ensures err { OnErr result ((store.new ≡ store.old) × (course.new ≡ course.old)) }
    ensures rest { OnOk result (S.takes putting.now.job [] (S.rest putting.now.job store.old) (S.rest putting.now.job store.new)) }
{
    let wipes = empties(p.status, here.written);
    if !is_full(store, putting.job, t, wipes) {
        put_starts(alloc, course, putting, t)?;
        wipe(store, putting.job, t, wipes);
        return Ok(false);
    }
    if p.secondary == 0 {
        abend(course, &Abend::SD37)?;
        wipe(store, putting.job, t, wipes);
        return Ok(false);
    }
    put_grows(alloc, store, course, putting, t, p.secondary, wipes)?;
    Ok(true)
}

/// PUT to a DD for SYSOUT. An `Err` changes nothing.
fn put_out(alloc: Global, course: &mut Course, putting: &Putting<'_>) -> Result<(), AllocError>
    ensures ok { OnOk result (course.new ≡ course_with course.old (with_spooled putting.now.text.now) putting.now.d None (line.PutDone putting.now.name.now)) }
    ensures err { OnErr result (course.new ≡ course.old) }
{
    let lines = one_more(course.own.lines)?;
    course.say(JobLine::PutDone {
        name: *putting.name,
    })?;
    match spool(alloc, &mut course.own.dds, putting.d, putting.text) {
        Ok(()) => {}
        Err(error) => {
            course.unsay();
            return Err(error);
        }
    }
    course.own.due = None;
    course.own.lines = lines;
    Ok(())
}

/// PUT, where it is not refused; it tells whether it asked for tracks. An `Err` changes nothing.
pub(crate) fn put<S: JobStore>(
    alloc: Global,
    store: &mut S,
    course: &mut Course,
    putting: &Putting<'_>,
    here: &Here,
    text: &PutText,
) -> Result<bool, AllocError>
    requires { here.now.d ≡ putting.now.d }
    ensures asked { IfOk result (AsksGrowthAs text.now here.now (S.seen putting.now.job store.old)) }
    ensures ok { OnOk result (PutsAs S.JobStore text.now putting.now here.now store.old course.old store.new course.new) }
    ensures err { OnErr result ((store.new ≡ store.old) × (course.new ≡ course.old)) }
    ensures rest { OnOk result (S.takes putting.now.job [] (S.rest putting.now.job store.old) (S.rest putting.now.job store.new)) }
{
    match text {
        PutText::Sysout => {
            put_out(alloc, course, putting)?;
            Ok(false)
        }
        PutText::Dummy => {
            let name = *putting.name;
            say_done(course, JobLine::PutDone { name })?;
            Ok(false)
        }
        PutText::Cards => {
            abend(course, &Abend::SFF1)?;
            Ok(false)
        }
        PutText::Set(p) => match &here.taken {
            None => {
                abend(course, &Abend::SFF1)?;
                Ok(false)
            }
            Some(t) => put_in(alloc, store, course, putting, here, p, t),
        },
    }
}
