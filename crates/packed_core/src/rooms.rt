//! The bits before a part of a job.
ghost use Rattle.std.specs.Prelude.{◌≡◌, ◌≤◌, ◌+◌, ◌*◌, ◌/◌, length};
ghost use Rattle.packed_core.specs.Rooms.{IsSmall, count_in, room_at};

use crate::room::Room;
use jcl_plan::plan::{JobPlan, StepPlan};
use view_core::same::{drop_first, take_first};

/// How many tests these steps have: a step has eight at most.
fn count_of(steps: &[StepPlan]) -> usize
    ensures count { result ≡ count_in steps.now }
    ensures few { result ≤ 8 * length steps.now }
{
    match steps.split_first() {
        None => 0,
        Some((step, later)) => step.tests.as_slice().len() + count_of(later),
    }
}

/// The bits before a part.
pub(crate) fn room_of(plan: &JobPlan, part: usize) -> Room
    ensures room { result ≡ room_at plan.now part }
    ensures small { IsSmall result }
{
    let steps = plan.steps.as_slice();
    Room {
        job: plan.tests.as_slice().len(),
        passed: count_of(take_first(steps, part)),
        left: count_of(drop_first(steps, part)),
    }
}

/// The first bit of the steps to come.
pub(crate) fn next_bit(room: Room) -> usize
    requires { IsSmall room }
    ensures { result ≡ room.job + room.passed + 1 }
{
    room.job + room.passed + 1
}

/// How many words a row has.
pub(crate) fn words_of(room: Room) -> usize
    requires { IsSmall room }
    ensures { result ≡ 2 + (room.job + room.passed + room.left) / 64 }
{
    2 + (room.job + room.passed + room.left) / 64
}
