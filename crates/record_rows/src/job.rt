//! Jobs in the records of a store: how they are written, and what is read of them.
ghost use Rattle.std.specs.Prelude.{◌≡◌, ◌≢◌, ◌+◌, ◌≤◌, ◌∷◌, IfOk, List, ℕ, length, true};
ghost use Rattle.cb_meaning.specs.Spelled.{Denotes};
ghost use Rattle.cb_queue.specs.RecordQueues.{shown};
ghost use Rattle.cb_meaning.specs.Writable.{IsWritable};
ghost use Rattle.cb_chain.specs.Written.{HoldsDds, HoldsExpiry, HoldsJobs, HoldsKind, HoldsSteps};
ghost use Rattle.cb_meaning.specs.Layouts.{HasOwnFields};
ghost use Rattle.cb_meaning.specs.declared.layout.TheConstants.{LAYOUT_1, LAYOUT_2};
ghost use Rattle.jcl_plan.specs.declared.plan.TheConstants.{MOST_STEPS};

use crate::deck::next_job;
use crate::plan::tell_job;
use crate::store::{nobody_waits, put, set_bytes};
use cb_chain::laws::the_layouts_hold_jobs;
use cb_chain::room::{is_room, records_of};
use cb_chain::write::write_job;
use cb_meaning::layout::{LAYOUT_1, LAYOUT_2};
use cb_queue::store::RecordStore;
use cb_read::laws::the_layouts_have_own_fields;
use cb_read::records::are_records;
use cb_walk::first_fault::first_fault;
use jcl_plan::fault::QueueFault;
use jcl_plan::plan::{DdKind, DdPlan, Expiry, JobPlan, StepPlan};
use job_records::laws::denoted_is_recorded;
use job_records::records::{JobRecords, none_at_hand};
use queued_job::read::{Read, read_job};
use queued_job::reading::{EnterFault, enter_job};
use queued_job::records::release_records;
use row_table::desk::Line;
use row_table::told::Told;
use row_table::words::Words;
use std::alloc::{AllocError, Global};

/// What is done with the job of a deck.
#[derive(Clone, Copy)]
pub(crate) enum DeckVerb {
    Plan,
    Room,
    Write,
    Enter,
}

/// What is done with a job in records.
#[derive(Clone, Copy)]
pub(crate) enum JobVerb {
    Read,
    Fault,
    Try,
    Release,
}

/// Whether all of a store's layout is that of the first one.
fn is_first<S: RecordStore>(store: &S) -> bool
    ensures { result ≡ true → (S.queue store.now).layout ≡ LAYOUT_1 }
{
    *store.layout() == LAYOUT_1
}

/// Whether it is that of the second.
fn is_second<S: RecordStore>(store: &S) -> bool
    ensures { result ≡ true → (S.queue store.now).layout ≡ LAYOUT_2 }
{
    *store.layout() == LAYOUT_2
}

/// Whether the layout of a store is one of those that hold jobs.
fn is_known<S: RecordStore>(store: &S) -> bool
    ensures holds { result ≡ true → HoldsJobs (S.queue store.now).layout }
    ensures own { result ≡ true → HasOwnFields (S.queue store.now).layout }
{
    the_layouts_hold_jobs();
    the_layouts_have_own_fields();
    if is_first(store) {
        return true;
    }
    is_second(store)
}

/// Whether a job has no more steps than the layout of a store allows.
fn are_few_steps<S: RecordStore>(store: &S, plan: &JobPlan) -> bool
    ensures { result ≡ true → length plan.now.steps ≤ (S.queue store.now).layout.most_steps }
{
    plan.steps.len() <= usize::from(store.layout().most_steps)
}

fn is_not_coded(expiry: Expiry) -> bool
    ensures { result ≡ true → HoldsExpiry LAYOUT_1 expiry }
{
    match expiry {
        Expiry::NotCoded => true,
        Expiry::Day(_) => false,
        Expiry::DaysFromToday(_) => false,
    }
}

fn has_no_day(kind: &DdKind) -> bool
    ensures { result ≡ true → HoldsKind LAYOUT_1 kind.now }
{
    match kind {
        DdKind::Set(set) => is_not_coded(set.expiry),
        DdKind::Sysout(_) => true,
        DdKind::Dummy => true,
        DdKind::Cards(_) => true,
    }
}

fn dds_have_no_day(dds: &[DdPlan]) -> bool
    ensures { result ≡ true → HoldsDds LAYOUT_1 dds.now }
{
    match dds.split_first() {
        None => true,
        Some((dd, behind)) => has_no_day(&dd.kind) && dds_have_no_day(behind),
    }
}

fn steps_have_no_day(steps: &[StepPlan]) -> bool
    ensures { result ≡ true → HoldsSteps LAYOUT_1 steps.now }
{
    match steps.split_first() {
        None => true,
        Some((step, behind)) => {
            dds_have_no_day(step.dds.as_slice()) && steps_have_no_day(behind)
        }
    }
}

/// Whether a store's layout has a place for the days of a job's sets: the first has none.
fn has_places<S: RecordStore>(store: &S, plan: &JobPlan) -> bool
    requires { (units : ℕ) × IsWritable MOST_STEPS units plan.now }
    ensures { result ≡ true → HoldsSteps (S.queue store.now).layout plan.now.steps }
{
    the_layouts_hold_jobs();
    if is_second(store) {
        return true;
    }
    is_first(store) && steps_have_no_day(plan.steps.as_slice())
}

/// Whether a job can be written into a store: its number is one, its layout is known, and has room for its steps and its days.
fn can_be_written<S: RecordStore>(store: &S, job: u16, plan: &JobPlan) -> bool
    requires { (units : ℕ) × IsWritable MOST_STEPS units plan.now }
    ensures number { result ≡ true → job ≢ 0 }
    ensures holds { result ≡ true → HoldsJobs (S.queue store.now).layout }
    ensures few { result ≡ true → length plan.now.steps ≤ (S.queue store.now).layout.most_steps }
    ensures days { result ≡ true → HoldsSteps (S.queue store.now).layout plan.now.steps }
{
    if job == 0 || !is_known(store) || !are_few_steps(store, plan) {
        return false;
    }
    has_places(store, plan)
}

/// Writes a job's records, and tells the first.
fn write<S: RecordStore>(store: &mut S, job: u16, plan: &JobPlan, told: &mut Told)
    requires { (units : ℕ) × IsWritable MOST_STEPS units plan.now }
{
    if !can_be_written(store, job, plan) {
        return told.not_allowed();
    }
    let Some(count) = records_of(plan, store.free_count()) else {
        return told.line(b"FULL");
    };
    let Ok(()) = store.make_room(count) else {
        return told.want();
    };
    match write_job(store, job, plan) {
        Ok(first) => told.numbered_line(b"FIRST RECORD ", u64::from(first)),
        Err(_) => told.line(b"FULL"),
    }
}

/// Writes a job's records and lets it wait, where nobody waits yet. Tells the first record.
fn enter<S: RecordStore>(store: &mut S, job: u16, plan: &JobPlan, told: &mut Told)
    requires { (units : ℕ) × IsWritable MOST_STEPS units plan.now }
{
    if store.waiting_count() != 0 || !can_be_written(store, job, plan) {
        return told.not_allowed();
    }
    match enter_job(store, job, plan) {
        Ok(first) => told.numbered_line(b"FIRST RECORD ", u64::from(first)),
        Err(EnterFault::Full) => told.line(b"FULL"),
        Err(EnterFault::Memory) => told.want(),
    }
}

/// Whether so many free records are enough for a job.
fn tell_room(told: &mut Told, plan: &JobPlan, free: u32) {
    told.line(if is_room(plan, free) {
        b"ROOM"
    } else {
        b"FULL"
    });
}

/// A job as its records answer what turns ask of it.
fn tell_recorded<S: RecordStore>(
    store: &S,
    units: u16,
    job: u16,
    first: u32,
    plan: &JobPlan,
    told: &mut Told,
)
    requires own { HasOwnFields (S.queue store.now).layout }
    requires denoted { (behind : List ℕ) × Denotes (S.queue store.now).layout units (shown (S.queue store.now)) job (first ∷ behind) plan.now }
{
    are_records(store);
    denoted_is_recorded();
    let records = JobRecords {
        store,
        jct: first,
        at_hand: none_at_hand(),
    };
    tell_job(told, plan, &records)
}

/// The plan that a job's records denote, or the fault that is told.
pub(crate) fn tell_read<S: RecordStore>(
    alloc: Global,
    store: &S,
    units: u16,
    job: u16,
    first: u32,
    told: &mut Told,
) {
    if !is_known(store) {
        return told.not_allowed();
    }
    match told.got(read_job(alloc, store, units, job, first)) {
        Some(Read::Plan(plan)) => tell_recorded(store, units, job, first, &plan, told),
        Some(Read::Broken(fault)) => told.numbered_line(b"B", u64::from(fault)),
        None => {}
    }
}

fn tell_fault(told: &mut Told, fault: Result<Option<u8>, AllocError>) {
    match told.got(fault) {
        Some(Some(fault)) => told.numbered_line(b"B", u64::from(fault)),
        Some(None) => told.line(b"NO FAULT"),
        None => {}
    }
}

/// Tells the first fault of job 1 from record 1 on, with one list of volumes, where these bytes stand in a record, which is as it was again.
fn tell_tried<S: RecordStore>(alloc: Global, store: &mut S, line: &mut Line<'_>) {
    let n = line.words.number();
    let at = line.words.byte();
    let Some(bytes) = line.told.got(line.words.text(alloc)) else {
        return;
    };
    let was = match store.get(n) {
        None => return line.told.not_allowed(),
        Some(rec) => *rec,
    };
    if !set_bytes(store, n, at, bytes.as_slice()) {
        return line.told.not_allowed();
    }
    tell_fault(&mut line.told, first_fault(alloc, store, 1, 1, 1));
    put(store, n, &was);
}

/// Does a command about the job of the deck that comes next.
pub(crate) fn on_deck<S: RecordStore>(
    alloc: Global,
    store: &mut S,
    verb: DeckVerb,
    line: &mut Line<'_>,
) {
    let Some(plan) = next_job(alloc, line) else {
        return;
    };
    match verb {
        DeckVerb::Plan => tell_job(&mut line.told, &plan, &plan),
        DeckVerb::Room => tell_room(&mut line.told, &plan, line.words.number()),
        DeckVerb::Write => write(store, line.words.short(), &plan, &mut line.told),
        DeckVerb::Enter => enter(store, line.words.short(), &plan, &mut line.told),
    }
}

/// Tells the plan that a job's records denote, or its first fault alone.
fn tell_strictly<S: RecordStore>(alloc: Global, store: &S, whole: bool, line: &mut Line<'_>) {
    let job = line.words.short();
    let first = line.words.number();
    let units = line.words.short();
    if whole {
        tell_read(alloc, store, units, job, first, &mut line.told);
    } else {
        tell_fault(&mut line.told, first_fault(alloc, store, units, job, first));
    }
}

/// Gives every record of a job back, where nobody waits.
fn release<S: RecordStore>(store: &mut S, words: &mut Words<'_>) {
    let job = words.short();
    if job == 0 {
        return words.refuse();
    }
    if nobody_waits(store) {
        release_records(store, job);
    } else {
        words.refuse();
    }
}

/// Does a command about a job in records.
pub(crate) fn on_job<S: RecordStore>(
    alloc: Global,
    store: &mut S,
    verb: JobVerb,
    line: &mut Line<'_>,
) {
    match verb {
        JobVerb::Read => tell_strictly(alloc, store, true, line),
        JobVerb::Fault => tell_strictly(alloc, store, false, line),
        JobVerb::Try => tell_tried(alloc, store, line),
        JobVerb::Release => release(store, &mut line.words),
    }
}
