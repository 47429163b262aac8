//! Which scenes stand before a part, told once for a job: whoever knows what was told knows the same.
ghost use Rattle.std.specs.Prelude.{◌≡◌, ◌<◌, IfOk, IfSome, map};
ghost use Rattle.packed_core.specs.Entries.{scenes_of};
ghost use Rattle.packed_core.specs.Sights.{AreSeals, scenes_in};

use crate::entries::Entry;
use crate::job::Job;
use std::alloc::{AllocError, Global};
use std::marker::{Model, PhantomData};
use std::rc::{Rc, Weak};
use std::sync::{OnceLock, OnceToken};
use view_core::scene::Scene;

/// Scenes, by their numbers.
#[derive(Drop)]
pub struct Cast {
    pub scenes: Vec<Rc<Scene>>,
}

/// Where the scenes before a part are told. They are not kept there.
pub type Seal = OnceLock<Weak<Cast>>;

/// The scenes before a part, as they were told for it. A contract sees the part and the scenes.
#[derive(Drop)]
pub struct Sight<'a, J: Job> {
    part: usize,
    token: OnceToken<'a, Weak<Cast>>,
    job: PhantomData<J>,
}

impl<'a, J: Job> Model for Sight<'a, J> {
    ghost use Rattle.std.specs.Prelude.{◌≡◌};
    ghost use Rattle.std.specs.Rc.{weak_target};
    ghost use Rattle.packed_core.specs.Sights.{Sight, scenes_told};

    ghost Value = { Sight };

    ghost view = { λ s. record { part = s.part; scenes = scenes_told (weak_target s.token.value) } };

    ghost invariant = { λ s. s.token.of ≡ J.seals s.part };
}

/// The scenes of these entries.
fn cast_of<J: Job>(alloc: Global, entries: &[Entry<J>]) -> Result<Cast, AllocError>
    ensures { IfOk result (λ cast. scenes_in cast ≡ scenes_of entries.now) }
{
    let mut scenes = Vec::with_capacity(alloc, entries.len())?;
    for entry in entries {
        scenes.push(entry.scene.clone()?)?;
    }
    Ok(Cast { scenes })
}

/// Tells that these scenes stand before a part, unless that was told before.
pub(crate) fn sight_of<'a, J: Job>(
    alloc: Global,
    seals: &'a [Seal],
    part: usize,
    entries: &[Entry<J>],
) -> Result<Option<Sight<'a, J>>, AllocError>
    requires seals { AreSeals J.seals seals.now }
    ensures { IfOk result (λ sight. IfSome sight (λ s. s ≡ record { part = part; scenes = scenes_of entries.now })) }
{
    let Some(seal) = seals.get(part) else {
        return Ok(None);
    };
    let cast = match Rc::new(alloc, cast_of(alloc, entries)?) {
        Ok(cast) => cast,
        Err(_) => return Err(AllocError),
    };
    match seal.try_set(Rc::downgrade(&cast)?) {
        Ok(token) => Ok(Some(Sight {
            part,
            token,
            job: PhantomData,
        })),
        Err(_) => Ok(None),
    }
}

impl<'a, J: Job> Sight<'a, J> {
    pub(crate) fn again(&self) -> Sight<'a, J>
        ensures { result ≡ self.now }
    {
        Sight {
            part: self.part,
            token: self.token.again(),
            job: PhantomData,
        }
    }

    /// What is told of one part is the same.
    pub(crate) fn agrees(&self, other: &Sight<'a, J>)
        requires { self.now.part ≡ other.now.part }
        ensures { self.now ≡ other.now }
    {
        self.token.agrees(&other.token)
    }
}

/// Places to tell of so many parts.
pub fn seals_of(alloc: Global, count: usize) -> Result<Vec<Seal>, AllocError> {
    let mut seals = Vec::with_capacity(alloc, count)?;
    for _part in 0..count {
        seals.push(OnceLock::new())?;
    }
    Ok(seals)
}
