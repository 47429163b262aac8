//! The first of a job's wants that a hold stands in the way of.
ghost use Rattle.std.specs.Prelude.{◌≡◌, ◌≤◌, ◌<◌, ◌⊎◌, All, IfNone, IfSome, MatchResult, Some, false, length, take};
ghost use Rattle.std.specs.Cmp.Lexicographic.{slice_cmp};
ghost use Rattle.std.specs.Ordering.{nat_cmp};
ghost use Rattle.std.specs.declared.cmp.Ordering.TheVariants.{Equal};
ghost use Rattle.enq_core.specs.Holds.{AreWants, IsFirstBlock, conflicts, is_blocked};
ghost use Rattle.enq_core.specs.Lowest.{IsLowestHolder};
ghost use Rattle.enq_core.specs.Order.{AreBehind, AreInOrder, ArePassed, ComesFirst, IsFirst, IsNamed, Meets};

use crate::marked::{MARKS, MarkedHold, mark_of, mark_wants};
use crate::table::{Blocked, Hold, Want};
use jname_core::ds_name::DsName;
use std::cmp::Ordering;

/// The place of a want among a job's wants, and a job that holds its name in conflict with it.
#[derive(Clone, Copy)]
struct Conflict {
    place: usize,
    job: u16,
}

/// Whether a hold stands in the way of a want of its name.
fn conflicts(want: &Want, hold: &Hold) -> bool
    requires { slice_cmp nat_cmp want.now.name hold.now.name ≡ Equal }
    ensures { result ≡ conflicts want.now hold.now }
{
    hold.exclusive || want.exclusive
}

/// The place of the want of a name, or else of the first want behind it. Those before `from` are known to stand before the name.
fn search_from(wants: &[Want], from: usize, name: &DsName) -> Result<usize, usize>
    requires within { from ≤ length wants.now }
    requires passed { ArePassed wants.now name.now from }
    requires order { AreWants wants.now }
    ensures within { MatchResult result (λ place. place < length wants.now) (λ place. place ≤ length wants.now) }
    ensures passed { MatchResult result (ArePassed wants.now name.now) (ArePassed wants.now name.now) }
    ensures found { MatchResult result (IsNamed wants.now name.now) (AreBehind wants.now name.now) }
{
    for place in from..wants.len() {
        match wants[place].name.cmp(name) {
            Ordering::Less => {}
            Ordering::Equal => return Ok(place),
            Ordering::Greater => return Err(place),
        }
    }
    Err(wants.len())
}

/// The first of two conflicts: that of the earlier want, and of two of one want that with the lower job.
fn first_of(found: Option<Conflict>, met: Conflict) -> Conflict
    ensures is { (result ≡ met) ⊎ (Some result ≡ found) }
    ensures met { ComesFirst result met.place met.job }
    ensures found { IfSome found (λ conflict. ComesFirst result conflict.place conflict.job) }
{
    match found {
        Some(first) => {
            if first.place < met.place || first.place == met.place && first.job <= met.job {
                first
            } else {
                met
            }
        }
        None => met,
    }
}

/// The first conflict. The wants and the holds of each job are gone through side by side, each once, and no hold is looked at whose mark
/// no want has.
fn first_conflict(holds: &[MarkedHold], wants: &[Want]) -> Option<Conflict>
    requires holds { AreInOrder holds.now }
    requires wants { AreWants wants.now }
    ensures { IsFirst (Meets holds.now wants.now (length holds.now)) result }
{
    let mut marks = [false; MARKS];
    mark_wants(&mut marks, wants);
    let mut found = None;
    let mut job = 0;
    let mut place = 0;
    for marked in holds {
        if !marks[usize::from(marked.mark())] {
            continue;
        }
        let hold = marked.hold();
        if hold.job != job {
            job = hold.job;
            place = 0;
        }
        match search_from(wants, place, &hold.name) {
            Ok(named) => {
                place = named;
                if conflicts(&wants[named], hold) {
                    found = Some(first_of(found, Conflict { place, job }));
                }
            }
            Err(next) => place = next,
        }
    }
    found
}

/// The lower of a job and the lowest so far.
fn lower_of(lowest: Option<u16>, job: u16) -> u16
    ensures is { (result ≡ job) ⊎ (Some result ≡ lowest) }
    ensures job { result ≤ job }
    ensures lowest { IfSome lowest (λ other. result ≤ other) }
{
    match lowest {
        Some(other) => other.min(job),
        None => job,
    }
}

/// Whether a hold stands in the way of a want.
fn stands_in_the_way(want: &Want, hold: &Hold) -> bool
    ensures { result ≡ conflicts want.now hold.now }
{
    hold.name == want.name && (hold.exclusive || want.exclusive)
}

/// The lowest job whose hold conflicts with a want.
fn lowest_holder(holds: &[MarkedHold], want: &Want) -> Option<u16>
    ensures none { IfNone result (is_blocked holds.now want.now ≡ false) }
    ensures some { IfSome result (IsLowestHolder holds.now want.now) }
{
    let mark = mark_of(&want.name);
    let mut lowest = None;
    for marked in holds {
        if marked.mark() == mark && stands_in_the_way(want, marked.hold()) {
            lowest = Some(lower_of(lowest, marked.job()));
        }
    }
    lowest
}

/// What stands in the way of the first want of all: a job that waits for all that another holds waits there.
pub(crate) fn block_at_first(holds: &[MarkedHold], wants: &[Want]) -> Option<Blocked>
    ensures none { IfNone result (All (λ want. is_blocked holds.now want ≡ false) (take 1 wants.now)) }
    ensures some { IfSome result (IsFirstBlock holds.now (take 1 wants.now)) }
{
    let Some((first, _)) = wants.split_first() else {
        return None;
    };
    match lowest_holder(holds, first) {
        Some(job) => Some(Blocked {
            job,
            name: first.name,
        }),
        None => None,
    }
}

/// The first want that a hold conflicts with, where none conflicts with the first of all.
pub(crate) fn block_behind_first(holds: &[MarkedHold], wants: &[Want]) -> Option<Blocked>
    requires holds { AreInOrder holds.now }
    requires wants { AreWants wants.now }
    requires first { All (λ want. is_blocked holds.now want ≡ false) (take 1 wants.now) }
    ensures none { IfNone result (All (λ want. is_blocked holds.now want ≡ false) wants.now) }
    ensures some { IfSome result (IsFirstBlock holds.now wants.now) }
{
    let Some((_, others)) = wants.split_first() else {
        return None;
    };
    if others.is_empty() {
        return None;
    }
    let Some(Conflict { place, job }) = first_conflict(holds, others) else {
        return None;
    };
    Some(Blocked {
        job,
        name: others[place].name,
    })
}
