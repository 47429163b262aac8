//! The names that jobs hold, cancels that have not acted yet, and the listings of jobs that wait.
ghost use Rattle.std.specs.Prelude.{◌≡◌, true};
ghost use Rattle.enq_core.specs.Holds.{HoldsNone};

use crate::deck::next_job;
use enq_core::table::{Blocked, EnqTable, Held, HoldFault};
use jcl_plan::entry::JobLine;
use jcl_plan::plan::JobPlan;
use plain::listed::Listed;
use queued_job::backlog::{Backlog, Listing};
use queued_job::cancels::Cancels;
use queued_job::laws::wants_are_in_order;
use queued_job::wants::wants_of;
use row_table::desk::Line;
use row_table::told::Told;
use std::alloc::Global;

#[derive(Clone, Copy)]
pub(crate) enum CancelVerb {
    Cancel,
    Acted,
    Cancelled,
}

fn holds_none(table: &EnqTable, job: u16) -> bool
    ensures { result ≡ true → HoldsNone table.now job }
{
    table.holds().iter().all(|hold| hold.job() != job)
}

fn tell_blocked(told: &mut Told, blocked: &Blocked) {
    told.numbered(b"BLOCKED ", u64::from(blocked.job));
    told.line_of_two(b" ", blocked.name.as_slice());
}

/// Holds the names of a plan for a job that holds none, and tells how many they are, or what stands in the way.
fn hold(
    alloc: Global,
    table: &mut EnqTable,
    job: u16,
    plan: &JobPlan,
    told: &mut Told,
) -> Option<Held>
    requires { HoldsNone table.old job }
{
    let wants = told.got(wants_of(alloc, plan))?;
    wants_are_in_order();
    match table.hold_all(job, wants.as_slice()) {
        Ok(held) => {
            told.numbered_line(b"HOLDS ", wants.len() as u64);
            Some(held)
        }
        Err(HoldFault::Blocked(blocked)) => {
            tell_blocked(told, &blocked);
            None
        }
        Err(HoldFault::Memory) => {
            told.want();
            None
        }
    }
}

/// Tells how many names a plan's job holds, or what stands in its way, and gives them free again.
fn tell_tried(alloc: Global, table: &mut EnqTable, job: u16, plan: &JobPlan, told: &mut Told) {
    if !holds_none(table, job) {
        return told.not_allowed();
    }
    if let Some(held) = hold(alloc, table, job, plan, told) {
        table.release(held);
    }
}

/// A job holds the names of a plan, another tries to, and then the first gives them free: what is told of each, and how many are held then.
fn tell_both(alloc: Global, first: u16, second: u16, plan: &JobPlan, told: &mut Told) {
    let mut table = EnqTable::new(alloc);
    if !holds_none(&table, first) {
        return;
    }
    if let Some(held) = hold(alloc, &mut table, first, plan, told) {
        tell_tried(alloc, &mut table, second, plan, told);
        table.release(held);
    }
    told.numbered_line(b"LEFT ", table.holds().len() as u64);
}

/// Two jobs in turn hold the names of the deck that comes next.
pub(crate) fn tell_held(alloc: Global, line: &mut Line<'_>) {
    let first = line.words.short();
    let second = line.words.short();
    if let Some(plan) = next_job(alloc, line) {
        tell_both(alloc, first, second, &plan, &mut line.told);
    }
}

/// A backlog of the listing of a job, of one line.
fn backlog_of(alloc: Global, job: u16, told: &mut Told) -> Backlog {
    let mut lines = Listed::empty(alloc);
    told.over(lines.push(JobLine::Cancelled));
    let mut backlog = Backlog::new(alloc);
    told.over(backlog.enter(Listing { job, lines }));
    backlog
}

fn tell_taken(told: &mut Told, taken: Option<Listing>) {
    let Some(listing) = taken else {
        return told.line(b"NONE");
    };
    told.numbered(b"LISTING ", u64::from(listing.job));
    told.numbered_line(b" LINES ", listing.lines.len() as u64);
}

/// Enters the listing of a job, and tells of each other number what is taken under it.
pub(crate) fn tell_listings(alloc: Global, line: &mut Line<'_>) {
    let mut backlog = backlog_of(alloc, line.words.short(), &mut line.told);
    for _ in 0..8u8 {
        if line.words.is_empty() {
            break;
        }
        tell_taken(&mut line.told, backlog.take(line.words.short()));
    }
}

/// Does a command about cancels.
pub(crate) fn on_cancels(cancels: &mut Cancels, verb: CancelVerb, line: &mut Line<'_>) {
    let job = line.words.short();
    match verb {
        CancelVerb::Cancel => line.told.over(cancels.add(job)),
        CancelVerb::Acted => cancels.remove(job),
        CancelVerb::Cancelled => line
            .told
            .line(if cancels.has(job) { b"YES" } else { b"NO" }),
    }
}
