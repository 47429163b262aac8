//! For what tracks are kept, and which.
use arrayvec::ArrayVec;
use extent_core::extent::Extent;
use std::marker::Model;

/// The set that a DD of a step of a job is to make. In order by job, step and DD.
#[derive(Clone, Copy, PartialEq, Eq, PartialOrd, Ord)]
pub struct KeptPlace {
    pub job: u16,
    pub step: usize,
    pub dd: usize,
}

/// The tracks that are kept for one set: five extents at most.
#[derive(Drop)]
pub(crate) struct KeptExtents {
    pub(crate) extents: ArrayVec<Extent, 5>,
}

impl Model for KeptExtents {
    ghost use Rattle.std.specs.Prelude.{List};
    ghost use Rattle.extent_core.specs.declared.extent.Extent.{Extent};

    ghost Value = { List Extent };

    ghost view = { λ k. k.extents.items };
}
