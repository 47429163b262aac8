//! A view as a row.
ghost use Rattle.packed_core.specs.Rooms.{room_at};
ghost use Rattle.packed_core.specs.Words.{IsRow};

use crate::job::Job;
use std::marker::PhantomData;

/// A view before a part, told and not yet put among others.
#[derive(Drop)]
pub struct PackedView<J: Job> {
    pub part: usize,
    pub row: Vec<u64>,
    pub job: PhantomData<J>,
    pub ghost packed: { IsRow (room_at J.plan part) row.items },
}
