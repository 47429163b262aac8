//! What is known of the scenes in front of views.
ghost use Rattle.std.specs.Prelude.{◌≡◌, ◌+◌, IfSome};
ghost use Rattle.packed_core.specs.Placed.{AreKnown, IsPlacedFrom};
ghost use Rattle.packed_core.specs.Scenes.{HasSceneFrom};
ghost use Rattle.packed_core.specs.Sights.{AreSeals};

use crate::job::Job;
use crate::placed::{Known, Placed, nothing_known};
use crate::sights::{Seal, Sight, sight_of};
use crate::views::PackedViews;
use std::alloc::{AllocError, Global};
use std::mem;

/// Of so few views little is found twice, and nothing is noted.
const FEW_VIEWS: usize = 2;

impl<'a, J: Job> PackedViews<'a, J> {
    /// Whether there are so few views that nothing is noted.
    pub(crate) fn are_few(&self) -> bool {
        self.rows.len() <= FEW_VIEWS
    }

    /// Tells which scenes stand here, unless it was told.
    pub(crate) fn tell(&mut self, alloc: Global, seals: &'a [Seal]) -> Result<(), AllocError>
        requires seals { AreSeals J.seals seals.now }
        ensures same { self.new ≡ self.old }
    {
        if self.sight.is_none() {
            self.sight = sight_of(alloc, seals, self.part, self.entries.as_slice())?;
        }
        Ok(())
    }

    /// The number of a scene in front, where that is known.
    pub(crate) fn idle_on(&self, before: &PackedViews<'a, J>, n: usize) -> Option<usize>
        requires behind { self.now.part ≡ before.now.part + 1 }
        ensures { IfSome result (λ number. HasSceneFrom J.plan J.fixed.date self.now.part before.now.scenes self.now.scenes n number) }
    {
        let Some(sight) = &before.sight else {
            return None;
        };
        let Some(from) = &self.from else {
            return None;
        };
        sight.agrees(from);
        self.known.idle_at(n)
    }

    /// What the step in front, which runs, comes to on a scene, where that is known.
    pub(crate) fn placed_on(
        &self,
        before: &PackedViews<'a, J>,
        n: usize,
        abended: bool,
    ) -> Option<&Placed>
        requires behind { self.now.part ≡ before.now.part + 1 }
        ensures { IfSome result (λ it. IsPlacedFrom J.plan J.fixed before.now.part before.now.scenes self.now.scenes n abended it.now) }
    {
        let Some(sight) = &before.sight else {
            return None;
        };
        let Some(from) = &self.from else {
            return None;
        };
        sight.agrees(from);
        match abended {
            true => self.known.abended_at(n),
            false => self.known.calm_at(n),
        }
    }

    /// Takes out what is known of scenes in front that are told.
    fn take_known(&mut self, alloc: Global, sight: &Sight<'a, J>) -> Known
        requires behind { self.old.part ≡ sight.now.part + 1 }
        ensures same { self.new ≡ self.old }
        ensures known { AreKnown J.plan J.fixed sight.now.part sight.now.scenes self.old.scenes result }
    {
        match self.from.take() {
            Some(from) => {
                sight.agrees(&from);
                mem::replace(&mut self.known, nothing_known(alloc))
            }
            None => nothing_known(alloc),
        }
    }

    /// Keeps it.
    fn keep_known(&mut self, sight: Sight<'a, J>, known: Known)
        requires behind { self.old.part ≡ sight.part + 1 }
        requires known { AreKnown J.plan J.fixed sight.part sight.scenes self.old.scenes known }
        ensures same { self.new ≡ self.old }
    {
        self.known = known;
        self.from = Some(sight);
    }

    /// Notes the number of a scene in front.
    pub(crate) fn note_idle(
        &mut self,
        alloc: Global,
        before: &PackedViews<'a, J>,
        n: usize,
        number: usize,
    ) -> Result<(), AllocError>
        requires behind { self.old.part ≡ before.now.part + 1 }
        requires so { HasSceneFrom J.plan J.fixed.date self.old.part before.now.scenes self.old.scenes n number }
        ensures same { self.new ≡ self.old }
    {
        let Some(sight) = &before.sight else {
            return Ok(());
        };
        let mut known = self.take_known(alloc, sight);
        known.put_idle(n, number)?;
        self.keep_known(sight.again(), known);
        Ok(())
    }

    /// Notes what the step in front comes to on a scene.
    pub(crate) fn note_placed(
        &mut self,
        alloc: Global,
        before: &PackedViews<'a, J>,
        n: usize,
        abended: bool,
        placed: Placed,
    ) -> Result<(), AllocError>
        requires behind { self.old.part ≡ before.now.part + 1 }
        requires so { IsPlacedFrom J.plan J.fixed before.now.part before.now.scenes self.old.scenes n abended placed }
        ensures same { self.new ≡ self.old }
    {
        let Some(sight) = &before.sight else {
            return Ok(());
        };
        let mut known = self.take_known(alloc, sight);
        known.put_placed(n, abended, placed)?;
        self.keep_known(sight.again(), known);
        Ok(())
    }
}
