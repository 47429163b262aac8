//! The tests that a step meets, by the code with which it ends.
ghost use Rattle.std.specs.Prelude.{◌≡◌, ◌<◌, ◌+◌, ◌/◌, ℕ, All, IfOk, length, slice_index_or, true};
ghost use Rattle.packed_core.specs.Classes.{AreMasks, IsMask, LooksAlike, Serves, bit_at};
ghost use Rattle.packed_core.specs.Rooms.{IsSmall};

use crate::classes::Class;
use crate::room::Room;
use crate::rooms::words_of;
use crate::served::Served;
use crate::words::mark;
use jcl_plan::outcome::{Code, Outcome};
use jcl_plan::plan::Test;
use std::alloc::{AllocError, Global};
use view_core::bits::{codes_at, met_by};

/// The bit of a test that is kept, by its place among them.
fn bit_at(room: Room, i: usize) -> usize
    requires small { IsSmall room }
    requires place { i < room.job + room.left }
    ensures { result ≡ bit_at room i }
{
    if i < room.job {
        i + 1
    } else {
        i + room.passed + 1
    }
}

/// A row without bits, of no scene.
pub(crate) fn blank(alloc: Global, room: Room) -> Result<Vec<u64>, AllocError>
    requires { IsSmall room }
    ensures size { IfOk result (λ row. length row.items ≡ 2 + (room.job + room.passed + room.left) / 64) }
    ensures zeros { IfOk result (λ row. (j : ℕ) → slice_index_or row.items j 0 ≡ 0) }
{
    vec![in alloc; 0u64; words_of(room)]
}

/// The tests that step n meets, which ends by a code, as bits.
pub(crate) fn mask_of(
    alloc: Global,
    n: usize,
    tests: &[Test],
    room: Room,
    code: Code,
) -> Result<Vec<u64>, AllocError>
    requires small { IsSmall room }
    requires kept { length tests.now ≡ room.job + room.left }
    ensures { IfOk result (λ mask. IsMask n tests.now room code mask.items) }
{
    let mut mask = blank(alloc, room)?;
    for (i, test) in tests.iter().enumerate() {
        let met = met_by(test, n, Outcome::Code(code));
        mark(mask.as_mut_slice(), bit_at(room, i), met);
    }
    Ok(mask)
}

/// The classes of codes by which step n may end, where these tests are kept behind it. Masks may be had from those that serve.
pub(crate) fn classes_of(
    alloc: Global,
    n: usize,
    tests: &[Test],
    room: Room,
    served: Served<'_>,
) -> Result<Vec<Class>, AllocError>
    requires small { IsSmall room }
    requires kept { length tests.now ≡ room.job + room.left }
    requires serve { All (Serves n tests.now room served.from served.count) served.list.now }
    ensures { IfOk result (λ classes. AreMasks n tests.now room classes.items) }
{
    let codes = codes_at(alloc, n, tests)?;
    let mut classes = Vec::new(alloc);
    let mut at = 0;
    for code in codes.representatives() {
        at = served.seek(at, *code);
        let mask = served.mask(alloc, at, n, tests, room, *code)?;
        classes.push(Class { code: *code, mask })?;
    }
    Ok(classes)
}

/// Whether a test looks at step n and at the next, or at neither of both.
fn looks_alike(test: &Test, n: usize) -> bool
    requires { n < usize.MAX }
    ensures { result ≡ true → LooksAlike n test.now }
{
    match test.step {
        None => true,
        Some(named) => {
            let named = usize::from(named);
            named != n && named != n + 1
        }
    }
}

/// Whether all of these tests do.
pub(crate) fn look_alike(tests: &[Test], n: usize) -> bool
    requires { n < usize.MAX }
    ensures { result ≡ true → All (LooksAlike n) tests.now }
{
    for test in tests {
        if !looks_alike(test, n) {
            return false;
        }
    }
    true
}
