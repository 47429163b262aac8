//! Where a GET reads: which record of which member. (This profile)
ghost use Rattle.std.specs.Prelude.{◌≡◌, ◌≤◌, ◌<◌, length, slice_get};
ghost use Rattle.jcl_plan.specs.declared.plan.DdKind.{DdKind};
ghost use Rattle.jcl_meaning.specs.Programs.{source_of, taken_at};
ghost use Rattle.job_text.specs.Places.{dd_at, step_at};
ghost use Rattle.job_text.specs.Texts.{source_text};
ghost use Rattle.request_core.specs.Requests.{is_read_on, located_at, located_from};

use crate::here::Here;
use jcl_meaning::source::FoundRecord;
use jcl_meaning::state::{DdState, TakenSet};
use jcl_plan::plan::Record;
use jname_core::serial::Serial;
use job_text::text::JobText;
use job_text::texts::SourceText;
use store_core::job_store::JobStore;

/// The members of a concatenation: the step's DDs from the first on, up to an end, from 0, with the states of those that were taken.
#[derive(Clone, Copy)]
struct Members<'a> {
    step: usize,
    first: usize,
    end: usize,
    states: &'a [DdState],
}

fn taken_at(states: &[DdState], place: usize) -> Option<TakenSet>
    ensures { result ≡ taken_at states.now place }
{
    match states.get(place) {
        None => None,
        Some(state) => state.taken,
    }
}

/// How many records a member has to read.
fn records_in<S: JobStore>(store: &S, job: u16, source: &SourceText, t: &Option<TakenSet>) -> usize
    ensures { (dd : DdKind) → source_text dd ≡ source.now → result ≡ length (source_of (S.seen job store.now) dd t.now).records }
{
    match source {
        SourceText::Nothing => 0,
        SourceText::Cards(count) => *count,
        SourceText::Set => match t {
            None => 0,
            Some(t) => match store.set(job, &t.key, t.serial) {
                None => 0,
                Some(facts) => facts.records,
            },
        },
    }
}

/// Whether a member is left for the next at its end.
fn is_read_past<S: JobStore>(store: &S, job: u16, source: &SourceText, t: &Option<TakenSet>) -> bool
    ensures { (dd : DdKind) → source_text dd ≡ source.now → result ≡ (source_of (S.seen job store.now) dd t.now).read_past }
{
    match source {
        SourceText::Nothing => false,
        SourceText::Cards(_) => true,
        SourceText::Set => t.is_some(),
    }
}

/// The record of a member, the n-th DD of its step, from 0, if it has so many.
fn text_at<T: JobText, S: JobStore>(
    text: &T,
    store: &S,
    job: u16,
    step: usize,
    n: usize,
    t: &Option<TakenSet>,
    position: usize,
) -> Option<Record>
    requires reads { T.reads text.now }
    requires step { step < length (T.plan text.now).steps }
    requires dd { n < length (step_at (T.plan text.now).steps step).dds }
    ensures { result ≡ slice_get (source_of (S.seen job store.now) (dd_at (step_at (T.plan text.now).steps step).dds n).kind t.now).records position }
{
    match text.source(step, n) {
        SourceText::Nothing => None,
        SourceText::Cards(count) => {
            if position < count {
                Some(text.card(step, n, position))
            } else {
                None
            }
        }
        SourceText::Set => match t {
            None => None,
            Some(t) => store.record(job, &t.key, t.serial, position),
        },
    }
}

/// The volume of a member that is a set.
fn serial_of<S: JobStore>(
    store: &S,
    job: u16,
    source: &SourceText,
    t: &Option<TakenSet>,
) -> Option<Serial>
    ensures { (dd : DdKind) → source_text dd ≡ source.now → result ≡ (source_of (S.seen job store.now) dd t.now).serial }
{
    match source {
        SourceText::Nothing => None,
        SourceText::Cards(_) => None,
        SourceText::Set => match t {
            None => None,
            Some(t) => Some(t.serial),
        },
    }
}

/// Whether a GET behind a member's records goes on to the next, if there are more members.
fn is_read_on<S: JobStore>(
    store: &S,
    job: u16,
    source: &SourceText,
    t: &Option<TakenSet>,
    more: bool,
    position: usize,
) -> bool
    ensures { (dd : DdKind) → source_text dd ≡ source.now → result ≡ is_read_on (source_of (S.seen job store.now) dd t.now) more position }
{
    more && position >= records_in(store, job, source, t) && is_read_past(store, job, source, t)
}

/// Where a GET reads in the members from the n-th DD of the step on, from 0.
fn located<T: JobText, S: JobStore>(
    text: &T,
    store: &S,
    job: u16,
    of: &Members<'_>,
    n: usize,
    position: usize,
) -> FoundRecord
    requires reads { T.reads text.now }
    requires step { of.now.step < length (T.plan text.now).steps }
    requires members { (of.now.first ≤ n) × (n < of.now.end) × (of.now.end ≤ length (step_at (T.plan text.now).steps of.now.step).dds) }
    ensures { result ≡ located_from (S.seen job store.now) (step_at (T.plan text.now).steps of.now.step).dds of.now.states.now
        of.now.first of.now.end n position }
{
    let t = taken_at(of.states, n);
    let source = text.source(of.step, n);
    if is_read_on(store, job, &source, &t, n + 1 < of.end, position) {
        return located(text, store, job, of, n + 1, 0);
    }
    FoundRecord {
        member: n - of.first,
        position,
        text: text_at(text, store, job, of.step, n, &t, position),
        serial: serial_of(store, job, &source, &t),
    }
}

/// Where a GET of a DD of a step, from 0, reads next.
pub fn reads<T: JobText, S: JobStore>(
    text: &T,
    store: &S,
    job: u16,
    step: usize,
    states: &[DdState],
    here: &Here,
) -> FoundRecord
    requires reads { T.reads text.now }
    requires step { step < length (T.plan text.now).steps }
    requires dd { here.now.d < length (step_at (T.plan text.now).steps step).dds }
    ensures { result ≡ located_at (S.seen job store.now) (step_at (T.plan text.now).steps step).dds states.now here.now }
{
    let end = text.members_end(step, here.d);
    if here.member < end - here.d {
        let of = Members {
            step,
            first: here.d,
            end,
            states,
        };
        located(text, store, job, &of, here.d + here.member, here.position)
    } else {
        FoundRecord {
            member: here.member,
            position: here.position,
            text: None,
            serial: None,
        }
    }
}
