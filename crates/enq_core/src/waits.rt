//! What stands in the way of jobs that wait, noted as long as no hold changes: a job that waits asks again in each of its turns.
ghost use Rattle.std.specs.Prelude.{◌≡◌, List, [], All, IfNone, IfSome, false, length, take};
ghost use Rattle.std.specs.Bool.{OnTrue};
ghost use Rattle.enq_core.specs.declared.table.Hold.{Hold};
ghost use Rattle.enq_core.specs.Holds.{AreWants, IsFirstBlock, is_blocked};
ghost use Rattle.enq_core.specs.Order.{AreInOrder};
ghost use Rattle.enq_core.specs.Waits.{AreRight};

use crate::conflict::{block_at_first, block_behind_first};
use crate::marked::MarkedHold;
use crate::table::{Blocked, Want};
use plain::listed::Listed;

/// A job that waits: what it wants first, up to the blocked name or beyond it, and what stands in its way.
#[derive(Drop)]
pub(crate) struct Wait {
    job: u16,
    wants: Listed<Want>,
    blocked: Blocked,
}

fn same_want(a: &Want, b: &Want) -> bool
    ensures { OnTrue result (a.now ≡ b.now) }
{
    a.exclusive == b.exclusive && a.name == b.name
}

/// Whether wants begin with what is noted.
fn begin_with(wants: &[Want], noted: &[Want]) -> bool
    ensures { OnTrue result (take (length noted.now) wants.now ≡ noted.now) }
{
    if noted.len() > wants.len() {
        return false;
    }
    for i in 0..noted.len() {
        if !same_want(&wants[i], &noted[i]) {
            return false;
        }
    }
    true
}

/// What is noted for a job whose wants begin so.
fn noted(waits: &[Wait], job: u16, wants: &[Want]) -> Option<Blocked>
    ensures { (holds : List Hold) → AreRight holds waits.now → IfSome result (IsFirstBlock holds wants.now) }
{
    for wait in waits {
        if wait.job == job && begin_with(wants, wait.wants.as_slice()) {
            return Some(wait.blocked);
        }
    }
    None
}

/// Notes what stands in the way of a job whose wants begin with these. Without memory nothing is noted.
fn note(waits: &mut Vec<Wait>, job: u16, wants: &[Want], blocked: &Blocked)
    ensures { (holds : List Hold) → AreRight holds waits.old.items → IsFirstBlock holds wants.now blocked.now → AreRight holds waits.new.items }
{
    waits.retain(|wait| wait.job != job);
    match Listed::copy_of(*waits.allocator(), wants) {
        Ok(wants) => {
            let _ = waits.push(Wait {
                job,
                wants,
                blocked: *blocked,
            });
        }
        Err(_) => {}
    }
}

/// Forgets what is noted, before a hold changes.
pub(crate) fn forget(waits: &mut Vec<Wait>)
    ensures { waits.new.items ≡ [] }
{
    waits.clear();
}

/// Finds the first want that a hold conflicts with, where none conflicts with the first of all, and notes it.
fn find(holds: &[MarkedHold], waits: &mut Vec<Wait>, job: u16, wants: &[Want]) -> Option<Blocked>
    requires holds { AreInOrder holds.now }
    requires wants { AreWants wants.now }
    requires first { All (λ want. is_blocked holds.now want ≡ false) (take 1 wants.now) }
    ensures none { IfNone result (All (λ want. is_blocked holds.now want ≡ false) wants.now) }
    ensures some { IfSome result (IsFirstBlock holds.now wants.now) }
    ensures right { AreRight holds.now waits.old.items → AreRight holds.now waits.new.items }
{
    match block_behind_first(holds, wants) {
        Some(blocked) => {
            note(waits, job, wants, &blocked);
            Some(blocked)
        }
        None => None,
    }
}

/// The first want that a hold conflicts with: what is noted for the job, or else what is found, the first of all before those behind it. It is noted
/// then, with no more wants than need be: a job that waits at its first name compares one name in its next turn.
pub(crate) fn what_blocks(
    holds: &[MarkedHold],
    waits: &mut Vec<Wait>,
    job: u16,
    wants: &[Want],
) -> Option<Blocked>
    requires holds { AreInOrder holds.now }
    requires wants { AreWants wants.now }
    requires right { AreRight holds.now waits.old.items }
    ensures none { IfNone result (All (λ want. is_blocked holds.now want ≡ false) wants.now) }
    ensures some { IfSome result (IsFirstBlock holds.now wants.now) }
    ensures right { AreRight holds.now waits.new.items }
{
    if let Some(blocked) = noted(waits.as_slice(), job, wants) {
        return Some(blocked);
    }
    match block_at_first(holds, wants) {
        Some(blocked) => {
            note(waits, job, &wants[..wants.len().min(1)], &blocked);
            Some(blocked)
        }
        None => find(holds, waits, job, wants),
    }
}
