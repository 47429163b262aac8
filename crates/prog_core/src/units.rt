//! The operations under way on the volumes.
ghost use Rattle.std.specs.Prelude.{◌≡◌, ◌↔◌, ◌==◌, ◌++◌, ◌∷◌, [], true, false, Some, IsErr, IfErr, OnOk, OnErr, length, map};
ghost use Rattle.prog_core.specs.Operations.{has_operation, is_busy, is_owner, without_operation, without_owner, IsRoomFor, OneEach};

use crate::fault::UnitFault;
use arrayvec::ArrayVec;
use jname_core::serial::Serial;
use std::marker::Model;

/// How many operations can be under way: one on each volume of a configuration.
pub const MOST_OPERATIONS: usize = 16;

/// An operation under way on a volume, from its start to the device's end, and the job that waits for it, if one still does.
#[derive(Clone, Copy, PartialEq, Eq)]
pub struct Operation {
    pub serial: Serial,
    pub owner: Option<u16>,
}

/// What stands in a place that no operation uses.
impl Default for Operation {
    fn default() -> Operation {
        let Some(serial) = Serial::read(b"0") else {
            unreachable!();
        };
        Operation {
            serial,
            owner: None,
        }
    }
}

/// The operations in the order in which they were started, on each volume one at most.
#[derive(Drop)]
pub struct Units {
    operations: ArrayVec<Operation, MOST_OPERATIONS>,
}

impl Model for Units {
    ghost use Rattle.std.specs.Prelude.{List, ◌≤◌, length};
    ghost use Rattle.prog_core.specs.declared.units.Operation.{Operation};
    ghost use Rattle.prog_core.specs.Operations.{OneEach};

    ghost Value = { List Operation };

    ghost view = { λ u. u.operations.items };

    ghost invariant = { λ u. OneEach u.operations.items × (length u.operations.items ≤ 16) };
}

/// Whether the operation is one that the job waits for.
fn is_owner(job: u16, operation: &Operation) -> bool
    ensures { result ≡ is_owner job operation.now.owner }
{
    operation.owner == Some(job)
}

/// The operation, without its owner where that is the job.
fn without_owner(job: u16, operation: Operation) -> Operation
    ensures { result ≡ without_owner job operation }
{
    if is_owner(job, &operation) {
        Operation {
            serial: operation.serial,
            owner: None,
        }
    } else {
        operation
    }
}

/// The operations that the job waits for go on without an owner.
fn abandon_all(operations: &mut [Operation], job: u16)
    ensures { operations.new ≡ map (without_owner job) operations.old }
{
    for operation in operations.iter_mut() {
        *operation = without_owner(job, *operation);
    }
}

impl Units {
    /// No operation is under way.
    pub fn new() -> Units
        ensures { result ≡ [] }
    {
        Units {
            operations: ArrayVec::new(),
        }
    }

    /// Whether no operation is under way.
    pub fn is_idle(&self) -> bool
        ensures { result ≡ (length self.now == 0) }
    {
        self.operations.is_empty()
    }

    /// Whether an operation is under way on the volume.
    pub fn is_busy(&self, serial: Serial) -> bool
        ensures { result ≡ is_busy self.now (Some serial) }
    {
        self.operations
            .as_slice()
            .iter()
            .any(|o| o.serial.as_slice() == serial.as_slice())
    }

    /// Whether the job waits for an operation.
    fn waits(&self, job: u16) -> bool
        ensures { result ≡ has_operation self.now job }
    {
        self.operations.as_slice().iter().any(|o| is_owner(job, o))
    }

    /// Starts an operation of a job on a volume, or tells that one is under way there.
    pub fn start(&mut self, serial: Serial, job: u16) -> Result<(), UnitFault>
        requires { IsRoomFor self.old serial }
        ensures ok { OnOk result ((is_busy self.old (Some serial) ≡ false) × (self.new ≡ self.old ++ record { serial = serial; owner = Some job } ∷ [])) }
        ensures err { IfErr result (λ fault. (fault ≡ UnitFault.Busy) × (is_busy self.old (Some serial) ≡ true)) }
        ensures unchanged { OnErr result (self.new ≡ self.old) }
    {
        if self.is_busy(serial) {
            return Err(UnitFault::Busy);
        }
        self.operations.push(Operation {
            serial,
            owner: Some(job),
        });
        Ok(())
    }

    /// The device's end: the operation on the volume is over, or none was under way there.
    pub fn device_end(&mut self, serial: Serial) -> Result<(), UnitFault>
        ensures ok { OnOk result (self.new ≡ without_operation self.old serial) }
        ensures missing { IsErr result ↔ (is_busy self.old (Some serial) ≡ false) }
        ensures fault { IfErr result (λ fault. fault ≡ UnitFault.NotStarted) }
        ensures err { OnErr result (self.new ≡ self.old) }
    {
        if !self.is_busy(serial) {
            return Err(UnitFault::NotStarted);
        }
        self.operations
            .retain(|o| o.serial.as_slice() != serial.as_slice());
        Ok(())
    }

    /// The job takes the result of its operation, or this is still under way. Nothing changes.
    pub fn finish(&self, job: u16) -> Result<(), UnitFault>
        ensures missing { IsErr result ↔ (has_operation self.now job ≡ true) }
        ensures fault { IfErr result (λ fault. fault ≡ UnitFault.NotEnded) }
    {
        if self.waits(job) {
            return Err(UnitFault::NotEnded);
        }
        Ok(())
    }

    /// The job waits for no operation any more; one that is under way goes on without an owner.
    pub fn abandon(&mut self, job: u16)
        ensures { self.new ≡ map (without_owner job) self.old }
    {
        abandon_all(self.operations.as_mut_slice(), job);
    }
}

/// On each volume one operation at most is under way.
pub fn operations_are_apart(units: &Units)
    ensures { OneEach units.now }
{
    let _ = &units.operations;
}
