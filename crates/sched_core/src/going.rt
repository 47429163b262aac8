//! An initiator goes on with its job.
ghost use Rattle.std.specs.Prelude.{◌≡◌, ◌≢◌, ◌+◌, ◌^◌, ◌<◌, ◌≤◌, ◌++◌, ◌∷◌, [], All, Err, IfOk, None, OnErr, Some, length, map, OnOk};
ghost use Rattle.std.specs.Vec.{vec_capacity, vec_len};
ghost use Rattle.jcl_plan.specs.declared.entry.Entry.TheVariants as entry;
ghost use Rattle.jcl_plan.specs.declared.fault.Cause.{Cause};
ghost use Rattle.world_meaning.specs.Transitions.{told_with};
ghost use Rattle.world_meaning.specs.Worlds.{of_job};
ghost use Rattle.init_core.specs.Extents.{ExtentsFollow};
ghost use Rattle.init_core.specs.Running.{IsGood, config_of, path_before, told_before};
ghost use Rattle.init_core.specs.declared.running.Running.{Running};
ghost use Rattle.sched_core.specs.Copies.{unless_risk};
ghost use Rattle.sched_core.specs.Done.{EventDone};
ghost use Rattle.sched_core.specs.Events.{ActsAt};
ghost use Rattle.sched_core.specs.Explaining.{most_explained, most_lines};
ghost use Rattle.sched_core.specs.Fits.{IsKept};
ghost use Rattle.sched_core.specs.Going.{HasRoomFor, IsToLeave, TurnsJob};
ghost use Rattle.sched_core.specs.Machines.{RunsIn, config_in};
ghost use Rattle.sched_core.specs.declared.fault.ApplyFault.TheVariants.{Refused};

use crate::copies::copied;
use crate::fault::ApplyFault;
use crate::seating::seat;
use crate::state::{Initiator, State};
use cb_queue::store::RecordStore;
use init_core::go_on::{go_on, go_on_in_place};
use init_core::running::{Profile, Progress, Running, Stage, Told};
use jcl_plan::entry::{Entry, JobLine};
use machine_core::parts::Parts;
use plain::listed::Listed;
use prog_core::budget::budget_of;
use start_laws::explanation_is_few;
use std::alloc::{AllocError, Global};
use std::mem;

/// A line that is no RISK.
fn copied_line(line: &JobLine) -> JobLine
    requires { unless_risk line.now ≡ Some line.now }
    ensures { result ≡ line.now }
{
    match copied(line) {
        Some(line) => line,
        None => unreachable!(),
    }
}

/// Puts lines of a job behind the entries, in the room that is there for them.
fn tell(entries: &mut Vec<Entry>, job: u16, lines: &[JobLine])
    requires room { vec_len entries.old + length lines.now ≤ vec_capacity entries.old }
    requires no_risk { All (λ l. unless_risk l ≡ Some l) lines.now }
    ensures { entries.new.items ≡ entries.old.items ++ of_job job lines.now }
{
    for line in lines {
        entries.push_reserved(Entry::Job(job, copied_line(line)));
    }
}

/// Puts the lines of a job's path behind the entries, in the room that is there for them.
fn explain(entries: &mut Vec<Entry>, job: u16, path: Listed<JobLine>)
    requires room { vec_len entries.old + length path ≤ vec_capacity entries.old }
    ensures items { entries.new.items ≡ entries.old.items ++ map (entry.Path job) path }
    ensures room { (vec_len entries.new ≡ vec_len entries.old + length path) × (vec_capacity entries.new ≡ vec_capacity entries.old) }
{
    for line in path.into_vec() {
        entries.push_reserved(Entry::Path(job, line));
    }
}

/// Puts what a job was answered, with the lines of its path, behind the entries, in the room that is there for them.
fn tell_answer(entries: &mut Vec<Entry>, job: u16, told: Told)
    requires { vec_len entries.old + length told.path < vec_capacity entries.old }
    ensures items { entries.new.items ≡ entries.old.items ++ told_with job (told.line ∷ []) told.path }
    ensures room { (vec_len entries.new ≡ vec_len entries.old + length told.path + 1) × (vec_capacity entries.new ≡ vec_capacity entries.old) }
{
    let Told { line, path } = told;
    entries.push_reserved(Entry::Job(job, line));
    explain(entries, job, path);
}

/// Puts a job's last line behind the entries, and before it what it was answered, in the room that is there for them.
fn tell_end(entries: &mut Vec<Entry>, job: u16, before: Option<Told>, last: JobLine)
    requires { vec_len entries.old + length (path_before before) + 1 < vec_capacity entries.old }
    ensures { entries.new.items ≡ entries.old.items ++ told_with job (told_before before ++ last ∷ []) (path_before before) }
{
    if let Some(told) = before {
        tell_answer(entries, job, told);
    }
    entries.push_reserved(Entry::Job(job, last));
}

/// The most lines by which what a job is answered next may be explained.
fn most_explained(profile: &Profile<'_>, running: &Running) -> Result<usize, AllocError>
    ensures count { IfOk result (λ count. count ≡ most_explained profile.now running.now) }
    ensures past { OnErr result (2 ^ 64 ≤ most_explained profile.now running.now) }
{
    if !profile.explains {
        return Ok(0);
    }
    match &running.stage {
        Stage::Selected { .. } => Ok(0),
        Stage::Wanting { .. } => Ok(0),
        Stage::Named(named) => budget_of(named.plan(), profile.programs),
        Stage::Admitted(_) => Ok(0),
    }
}

/// The most lines of a turn: two, with those that explain the first, or that of a fault and one for each DD that the step took. It takes no memory; a
/// number past a machine word, and no other, is answered as want of it.
fn most_lines(profile: &Profile<'_>, running: &Running) -> Result<usize, AllocError>
    ensures count { IfOk result (λ count. count ≡ most_lines profile.now running.now) }
    ensures past { OnErr result (2 ^ 64 ≤ most_lines profile.now running.now) }
{
    let explained = most_explained(profile, running)?;
    let lines = running.walk.course.own.dds.as_slice().len() + 2;
    match lines.checked_add(explained) {
        Some(count) => Ok(count),
        None => Err(AllocError),
    }
}

/// Room for the lines of a turn. It is this memory where it is enough.
fn room_for(
    profile: &Profile<'_>,
    running: &Running,
    mut room: Vec<Entry>,
) -> Result<Vec<Entry>, AllocError>
    ensures { IfOk result (HasRoomFor profile.now running.now) }
{
    let count = most_lines(profile, running)?;
    room.clear();
    room.reserve(count)?;
    Ok(room)
}

/// A turn of the job of an initiator by which it may leave: it is read, is admitted, or its END is due. An `Err` changes nothing.
fn turn_away<Q: RecordStore>(
    alloc: Global,
    parts: &mut Parts<Q>,
    profile: &Profile<'_>,
    x: &mut Initiator,
    mut entries: Vec<Entry>,
) -> Result<Listed<Entry>, AllocError>
    requires good { IsGood Q.queue (config_of profile.now (Q.queue parts.old.queue).layout) parts.old }
    requires runs { IsToLeave Q.queue profile.now parts.old x.old entries }
    ensures ok { IfOk result (TurnsJob Q.queue (config_of profile.now (Q.queue parts.old.queue).layout) parts.old x.old parts.new x.new) }
    ensures err { OnErr result ((parts.new ≡ parts.old) × (x.new ≡ x.old)) }
{
    let Some(running) = mem::replace(&mut x.running, None) else {
        unreachable!();
    };
    explanation_is_few();
    let job = running.job;
    match go_on(alloc, parts, profile, running) {
        Ok(Progress::GoesOn { job: running, from }) => {
            tell(&mut entries, job, running.lines_from(from));
            seat(x, Some(running));
            Ok(Listed::new(entries))
        }
        Ok(Progress::Answered { job: running, told }) => {
            tell_answer(&mut entries, job, told);
            seat(x, Some(running));
            Ok(Listed::new(entries))
        }
        Ok(Progress::Over { before, last }) => {
            tell_end(&mut entries, job, before, last);
            Ok(Listed::new(entries))
        }
        Err(running) => {
            seat(x, Some(running));
            Err(AllocError)
        }
    }
}

/// The initiator at a place goes on with its job. Its lines are in the room, where that is enough.
pub(crate) fn go_on_at<Q: RecordStore>(
    alloc: Global,
    state: &mut State<Q>,
    profile: &Profile<'_>,
    place: usize,
    room: &mut Vec<Entry>,
) -> Result<Listed<Entry>, ApplyFault>
    requires kept { IsKept Q.queue (config_in Q.queue profile.now state.old) state.old }
    requires runs { (r : Running) × RunsIn state.old.initiators.items place r }
    ensures done { EventDone Q.queue profile.now state.old result state.new (λ w. ActsAt state.old.parts.store w place) }
    ensures never_refused { (cause : Cause) → result ≢ Err (Refused cause) }
    ensures extents { OnOk result (ExtentsFollow state.old.parts.store state.new.parts.store) }
{
    let x = &mut state.initiators[place];
    let Some(running) = &mut x.running else {
        unreachable!();
    };
    let Ok(mut entries) = room_for(profile, running, mem::replace(room, Vec::new(alloc))) else {
        return Err(ApplyFault::Memory);
    };
    match go_on_in_place(alloc, &mut state.parts, profile, running) {
        Ok(Some(from)) => {
            tell(&mut entries, running.job, running.lines_from(from));
            Ok(Listed::new(entries))
        }
        Ok(None) => match turn_away(alloc, &mut state.parts, profile, x, entries) {
            Ok(lines) => Ok(lines),
            Err(_) => Err(ApplyFault::Memory),
        },
        Err(_) => Err(ApplyFault::Memory),
    }
}
