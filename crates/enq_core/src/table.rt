//! The table of held names.
ghost use Rattle.std.specs.Prelude.{◌≡◌, ◌++◌, ◌+◌, ◌≤◌, [], Err, ◌<◌, IfOk, IfNone, IfSome, OnOk, OnErr, false, length, map, min, vec_capacity, vec_len};
ghost use Rattle.std.specs.List.{All, filter, reduce};
ghost use Rattle.enq_core.specs.Holds.{AnswersHold, AreWants, HoldsNone, holds_of, without_job};

use crate::marked::MarkedHold;
use crate::waits::{Wait, forget, what_blocks};
use jname_core::ds_name::DsName;
use std::alloc::{AllocError, Global};
use std::marker::Model;

/// A name that a job wants, shared with others that share it or for itself alone.
#[derive(Clone, Copy, PartialEq, Eq)]
pub struct Want {
    pub name: DsName,
    pub exclusive: bool,
}

/// A name that is held, and for which job.
#[derive(Clone, Copy, PartialEq, Eq)]
pub struct Hold {
    pub job: u16,
    pub name: DsName,
    pub exclusive: bool,
}

/// Why a job cannot have its names: the first of them, in byte order, at which another holder conflicts, and of its holders the lowest
/// job number that conflicts.
#[derive(Clone, Copy, PartialEq, Eq)]
pub struct Blocked {
    pub job: u16,
    pub name: DsName,
}

/// Why no name was held. The table is as before.
#[derive(Clone, Copy, PartialEq, Eq)]
pub enum HoldFault {
    Blocked(Blocked),
    Memory,
}

/// All names that a job holds. It must be released.
pub struct Held {
    job: u16,
}

impl Model for Held {
    ghost use Rattle.std.specs.Prelude.{ℕ};

    ghost Value = { ℕ };

    ghost view = { λ h. h.job };

    ghost inverse = { λ job. record { job = job } };
}

impl Held {
    /// The job that holds.
    pub fn job(&self) -> u16
        ensures { result ≡ self.now }
    {
        self.job
    }
}

/// The held names, in the order in which they were held.
#[derive(Drop)]
pub struct EnqTable {
    holds: Vec<MarkedHold>,
    waits: Vec<Wait>,
}

impl Model for EnqTable {
    ghost use Rattle.std.specs.Prelude.{List};
    ghost use Rattle.enq_core.specs.declared.table.Hold.{Hold};
    ghost use Rattle.enq_core.specs.Waits.{IsTable};

    ghost Value = { List Hold };

    ghost view = { λ t. t.holds.items };

    ghost invariant = { λ t. IsTable t.holds.items t.waits.items };
}

/// Holds the names of all these wants for a job, in room that is reserved.
fn append(holds: &mut Vec<MarkedHold>, job: u16, wants: &[Want])
    requires { vec_len holds.old + length wants.now ≤ vec_capacity holds.old }
    ensures { holds.new.items ≡ holds.old.items ++ holds_of job wants.now }
{
    for want in wants {
        let hold = Hold {
            job,
            name: want.name,
            exclusive: want.exclusive,
        };
        if holds.push(MarkedHold::new(hold)).is_err() {
            unreachable!();
        }
    }
}

/// Gives the names of a job free, which takes no memory.
fn release_job(holds: &mut Vec<MarkedHold>, job: u16)
    ensures { holds.new.items ≡ without_job job holds.old.items }
{
    holds.retain(|hold| hold.job() != job);
}

impl EnqTable {
    pub fn new(alloc: Global) -> EnqTable
        ensures { result ≡ [] }
    {
        EnqTable {
            holds: Vec::new(alloc),
            waits: Vec::new(alloc),
        }
    }

    /// The held names, in the order in which they were held.
    pub fn holds(&self) -> &[MarkedHold]
        ensures { result.now ≡ self.now }
    {
        self.holds.as_slice()
    }

    /// Holds all these names for a job that holds none, or none of them. The wants stand in byte order of their names, each name once.
    pub fn hold_all(&mut self, job: u16, wants: &[Want]) -> Result<Held, HoldFault>
        requires none { HoldsNone self.old job }
        requires order { AreWants wants.now }
        ensures answer { AnswersHold result self.old job wants.now }
        ensures ok { OnOk result (self.new ≡ self.old ++ holds_of job wants.now) }
        ensures held { IfOk result (λ held. held ≡ job) }
        ensures err { OnErr result (self.new ≡ self.old) }
        ensures memory { result ≡ Err HoldFault.Memory → 0 < length wants.now }
    {
        if let Some(blocked) = what_blocks(self.holds.as_slice(), &mut self.waits, job, wants) {
            return Err(HoldFault::Blocked(blocked));
        }
        if self.holds.reserve(wants.len()).is_err() {
            return Err(HoldFault::Memory);
        }
        forget(&mut self.waits);
        append(&mut self.holds, job, wants);
        Ok(Held { job })
    }

    /// Gives all names of a job free.
    pub fn release(&mut self, held: Held)
        ensures { self.new ≡ without_job held self.old }
    {
        let Held { job } = held;
        forget(&mut self.waits);
        release_job(&mut self.holds, job);
    }
}
