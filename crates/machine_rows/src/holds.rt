//! Names that jobs hold.
ghost use Rattle.std.specs.Prelude.{◌≡◌, true, vec_len};
ghost use Rattle.enq_core.specs.Holds.{HoldsNone};

use enq_core::order::are_wants;
use enq_core::table::{Blocked, EnqTable, Held, HoldFault, Want};
use jname_core::ds_name::read_ds_name;
use row_table::desk::Line;
use row_table::told::Told;
use std::alloc::{AllocFailed, Global};

#[derive(Clone, Copy)]
pub(crate) enum HoldVerb {
    Hold,
    Release,
    Holds,
}

fn holds_none(table: &EnqTable, job: u16) -> bool
    ensures { result ≡ true → HoldsNone table.now job }
{
    table.holds().iter().all(|hold| hold.job() != job)
}

/// Takes the next word as a name that a job wants, or as SHR or OLD: whether what stands behind it is for the job alone.
fn add_want(wants: &mut Vec<Want>, exclusive: bool, line: &mut Line<'_>) -> bool {
    let mut ahead = line.words;
    if let Some(exclusive) = ahead.one_of(&[("SHR", false), ("OLD", true)]) {
        line.words = ahead;
        return exclusive;
    }
    let name = read_ds_name(line.words.next_word()).ok();
    if let Some(name) = line.words.some(name)
        && wants.push(Want { name, exclusive }).is_err()
    {
        line.told.want();
    }
    exclusive
}

/// The names behind the words SHR and OLD, shared and for the job alone.
fn wants_in(alloc: Global, line: &mut Line<'_>) -> Vec<Want> {
    let mut wants = Vec::new(alloc);
    let mut exclusive = false;
    for _ in 0..64u8 {
        if line.words.is_empty() {
            break;
        }
        exclusive = add_want(&mut wants, exclusive, line);
    }
    wants
}

/// Keeps what a job holds until it is released, or gives it free at once where memory is missing.
fn keep(table: &mut EnqTable, held: &mut Vec<Held>, own: Held, told: &mut Told) {
    if let Err(AllocFailed { value }) = held.push(own) {
        table.release(value);
        told.want();
    }
}

fn tell_blocked(told: &mut Told, blocked: &Blocked) {
    told.numbered(b"BLOCKED ", u64::from(blocked.job));
    told.line_of_two(b" ", blocked.name.as_slice());
}

/// A job holds these names, or none of them, and what stands in its way is told.
fn hold(table: &mut EnqTable, held: &mut Vec<Held>, job: u16, wants: &[Want], told: &mut Told) {
    if !are_wants(wants) || !holds_none(table, job) {
        return told.not_allowed();
    }
    match table.hold_all(job, wants) {
        Ok(own) => keep(table, held, own, told),
        Err(HoldFault::Blocked(blocked)) => tell_blocked(told, &blocked),
        Err(HoldFault::Memory) => told.want(),
    }
}

/// Gives the names of a job free, if it holds some.
fn release(table: &mut EnqTable, held: &mut Vec<Held>, job: u16, told: &mut Told) {
    match held.as_slice().iter().position(|own| own.job() == job) {
        None => told.not_allowed(),
        Some(at) => table.release(held.swap_remove(at)),
    }
}

/// Gives all names free.
pub(crate) fn release_all(table: &mut EnqTable, mut held: Vec<Held>) {
    while let Some(own) = held.pop() {
        table.release(own);
    }
    held.destroy_empty();
}

/// The held names in the order in which they were held, each behind the job and SHR or OLD.
fn tell_holds(told: &mut Told, table: &EnqTable) {
    for marked in table.holds() {
        let hold = marked.hold();
        told.numbered(b"", u64::from(hold.job));
        let word: &[u8] = if hold.exclusive { b" OLD " } else { b" SHR " };
        told.line_of_two(word, hold.name.as_slice());
    }
}

/// Does a command about held names.
pub(crate) fn on_holds(
    alloc: Global,
    table: &mut EnqTable,
    held: &mut Vec<Held>,
    verb: HoldVerb,
    line: &mut Line<'_>,
) {
    match verb {
        HoldVerb::Hold => {
            let job = line.words.short();
            let wants = wants_in(alloc, line);
            hold(table, held, job, wants.as_slice(), &mut line.told);
        }
        HoldVerb::Release => release(table, held, line.words.short(), &mut line.told),
        HoldVerb::Holds => tell_holds(&mut line.told, table),
    }
}
