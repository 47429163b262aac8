//! Masks of one step that serve for the next too, but for the bits of tests that are behind.
ghost use Rattle.std.specs.Prelude.{◌≡◌, ◌<◌, ◌≤◌, ◌+◌, ◌*◌, ◌^◌, [], ℕ, All, IfOk, IfSome, Some, length, slice_get};
ghost use Rattle.packed_core.specs.Classes.{IsMask, Serves};
ghost use Rattle.packed_core.specs.Rooms.{IsSmall};
ghost use Rattle.packed_core.specs.Words.{AreWords, IsCleared};

use crate::classes::Class;
use crate::masks::mask_of;
use crate::room::Room;
use crate::words::clear;
use jcl_plan::outcome::Code;
use jcl_plan::plan::Test;
use std::alloc::{AllocError, Global};

/// Classes by which the step before may end, and which bits of their masks are of tests that are behind: so many, from one of them on.
#[derive(Clone, Copy)]
pub struct Served<'m> {
    pub list: &'m [Class],
    pub from: usize,
    pub count: usize,
}

/// A mask with so many bits clear.
fn cleared(alloc: Global, mask: &[u64], from: usize, count: usize) -> Result<Vec<u64>, AllocError>
    requires there { from + count + 64 ≤ 64 * length mask.now }
    requires small { from + count < 2 ^ 64 }
    requires within { AreWords mask.now }
    ensures { IfOk result (λ row. IsCleared from count mask.now row.items) }
{
    let mut row = Vec::from_slice(alloc, mask)?;
    clear(row.as_mut_slice(), from, count);
    Ok(row)
}

impl<'m> Served<'m> {
    /// No class.
    pub(crate) fn none() -> Served<'m>
        ensures { result.list.now ≡ [] }
    {
        Served {
            list: &[],
            from: 0,
            count: 0,
        }
    }

    /// The place of the first class from a place on that has no lower code.
    pub(crate) fn seek(&self, from: usize, code: Code) -> usize {
        for at in from..self.list.len() {
            if self.list[at].code.number() >= code.number() {
                return at;
            }
        }
        self.list.len()
    }

    /// The class at a place, if it has this code.
    fn class_at(&self, at: usize, code: Code) -> Option<&'m Class>
        ensures there { IfSome result (λ class. slice_get self.now.list.now at ≡ Some class.now) }
        ensures code { IfSome result (λ class. class.now.code ≡ code) }
    {
        let class = self.list.get(at)?;
        if class.code.number() == code.number() {
            Some(class)
        } else {
            None
        }
    }

    /// The tests that step n meets, which ends by a code, as bits, which may be had from the class at a place.
    pub(crate) fn mask(
        &self,
        alloc: Global,
        at: usize,
        n: usize,
        tests: &[Test],
        room: Room,
        code: Code,
    ) -> Result<Vec<u64>, AllocError>
        requires small { IsSmall room }
        requires kept { length tests.now ≡ room.job + room.left }
        requires serve { All (Serves n tests.now room self.now.from self.now.count) self.now.list.now }
        ensures { IfOk result (λ mask. IsMask n tests.now room code mask.items) }
    {
        match self.class_at(at, code) {
            Some(class) => cleared(alloc, class.mask.as_slice(), self.from, self.count),
            None => mask_of(alloc, n, tests, room, code),
        }
    }
}
