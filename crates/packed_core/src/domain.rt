//! The packed domain: the plain one, of a job that a type tells.
ghost use Rattle.std.specs.Prelude.{◌≡◌};
ghost use Rattle.disp_core.specs.Courses.{fixed_by};
ghost use Rattle.packed_core.specs.Asking.{AskUpTo};
ghost use Rattle.packed_core.specs.Sights.{AreSeals};

use crate::job::Job;
use crate::sights::Seal;
use std::marker::PhantomData;
use view_core::domain::PlainDomain;

/// A job that is analysed, as the plain domain has it, and as a type tells it.
#[derive(Drop)]
pub struct PackedDomain<'a, J: Job> {
    pub plain: PlainDomain<'a>,
    /// No step behind so many asks for the volume of a DD.
    pub asked: usize,
    /// Where the scenes before each part are told.
    pub seals: &'a [Seal],
    pub job: PhantomData<J>,
    pub ghost planned: { plain.plan.now ≡ J.plan },
    pub ghost so_fixed: { fixed_by plain.given ≡ J.fixed },
    pub ghost asking: { AskUpTo plain.plan.now.steps asked },
    pub ghost sealed: { AreSeals J.seals seals.now },
}
