//! The lines of an event.
ghost use Rattle.std.specs.Prelude.{◌≡◌, ◌<◌, ◌∷◌, [], IfOk};
ghost use Rattle.std.specs.Vec.{vec_capacity, vec_len};
ghost use Rattle.world_meaning.specs.Cancels.{cancelled_lines};

use jcl_plan::entry::{Entry, JobLine};
use plain::listed::Listed;
use std::alloc::{AllocError, Global};

/// Room for one line, in this memory where there is some.
pub(crate) fn room_for_one(mut room: Vec<Entry>) -> Result<Vec<Entry>, AllocError>
    ensures items { IfOk result (λ v. v.items ≡ []) }
    ensures room { IfOk result (λ v. vec_len v < vec_capacity v) }
{
    room.clear();
    room.reserve(1)?;
    Ok(room)
}

/// One line, in this memory where there is some.
pub(crate) fn one(room: Vec<Entry>, entry: Entry) -> Result<Listed<Entry>, AllocError>
    ensures { IfOk result (λ lines. lines ≡ entry ∷ []) }
{
    let mut lines = room_for_one(room)?;
    lines.push_reserved(entry);
    Ok(Listed::new(lines))
}

/// What is written where a job is cancelled before its admission.
pub(crate) fn cancelled(alloc: Global, job: u16) -> Result<Listed<Entry>, AllocError>
    ensures { IfOk result (λ lines. lines ≡ cancelled_lines job) }
{
    let mut lines = Listed::empty(alloc);
    lines.push(Entry::Cancel(job))?;
    lines.push(Entry::Job(job, JobLine::Cancelled))?;
    Ok(lines)
}
