//! Holds with marks, by which most names that differ are told apart without a look at them.
ghost use Rattle.std.specs.Prelude.{◌≡◌, ◌<◌, true, All, length, slice_index_or, false};
ghost use Rattle.enq_core.specs.Marks.{mark_of};
ghost use Rattle.enq_core.specs.declared.marked.TheConstants.{MARKS};

use crate::table::{Hold, Want};
use jname_core::ds_name::DsName;
use std::marker::Model;

/// How many marks there are.
pub(crate) const MARKS: usize = 8192;

/// A hold that keeps the mark of its name.
#[derive(Drop)]
pub struct MarkedHold {
    hold: Hold,
    mark: u16,
}

impl Model for MarkedHold {
    ghost use Rattle.std.specs.Prelude.{◌≡◌, ◌<◌};
    ghost use Rattle.enq_core.specs.declared.table.Hold.{Hold};
    ghost use Rattle.enq_core.specs.Marks.{mark_of};
    ghost use Rattle.enq_core.specs.declared.marked.TheConstants.{MARKS};

    ghost Value = { Hold };

    ghost view = { λ h. h.hold };

    ghost invariant = { λ h. (h.mark ≡ mark_of h.hold.name) × (h.mark < MARKS) };
}

impl MarkedHold {
    pub(crate) fn new(hold: Hold) -> MarkedHold
        ensures { result ≡ hold }
    {
        let mark = mark_of(&hold.name);
        MarkedHold { hold, mark }
    }

    pub fn hold(&self) -> &Hold
        ensures { result.now ≡ self.now }
    {
        &self.hold
    }

    pub fn job(&self) -> u16
        ensures { result ≡ self.now.job }
    {
        self.hold.job
    }

    /// The mark of its name.
    pub(crate) fn mark(&self) -> u16
        ensures mark { result ≡ mark_of self.now.name }
        ensures within { result < MARKS }
    {
        self.mark
    }
}

/// A number that two names have in common only seldom, unless they are the same.
pub(crate) fn mark_of(name: &DsName) -> u16
    ensures mark { result ≡ mark_of name.now }
    ensures within { result < MARKS }
{
    let mut mark: u32 = 0;
    for byte in name.as_slice() {
        mark = (mark * 9 + u32::from(*byte)) % 8192;
    }
    mark as u16
}

/// Sets what stands at the mark of each want.
pub(crate) fn mark_wants(marks: &mut [bool; MARKS], wants: &[Want])
    ensures { All (λ want. slice_index_or marks.new (mark_of want.name) false ≡ true) wants.now }
{
    for want in wants {
        marks[usize::from(mark_of(&want.name))] = true;
    }
}
