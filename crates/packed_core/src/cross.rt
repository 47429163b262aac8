//! A view led over a part.
ghost use Rattle.std.specs.Prelude.{◌≡◌, ◌<◌, ◌≤◌, ◌+◌, ◌∷◌, [], IfOk, OnOk, drop, length, slice_index_or};
ghost use Rattle.jcl_plan.specs.declared.outcome.Fate.TheVariants as fates;
ghost use Rattle.view_core.specs.declared.scene.Scene.{Scene};
ghost use Rattle.view_core.specs.Bits.{fate_shown};
ghost use Rattle.packed_core.specs.Crossing.{HasSameBits, IsPassed, IsPlaced, IsRenumbered, IsRowCrossed, IsStep, LeadsByFate, LeadsFromRow};
ghost use Rattle.packed_core.specs.Crossing.{LeadsPlacedByAbend, LeadsPlacedByCode, LeadsRunning, row_shows};
ghost use Rattle.packed_core.specs.Rooms.{room_at};
ghost use Rattle.packed_core.specs.Rows.{row_at};
ghost use Rattle.packed_core.specs.Placed.{ArePlacedFrom};
ghost use Rattle.packed_core.specs.Scenes.{HasSceneFrom};
ghost use Rattle.packed_core.specs.Views.{HasMoreScenes};
ghost use Rattle.packed_core.specs.Ways.{AreWays};
ghost use Rattle.packed_core.specs.Words.{IsRow};

use crate::domain::PackedDomain;
use crate::job::Job;
use crate::placed::{Placed, placed_again};
use crate::rooms::next_bit;
use crate::view::PackedView;
use crate::views::PackedViews;
use crate::ways::Ways;
use crate::words::{bit_of, clear, number_in, some_bit};
use jcl_meaning::history::fate;
use jcl_plan::outcome::Fate;
use jcl_plan::plan::StepPlan;
use plain::listed::Listed;
use plain::shared::Shared;
use std::alloc::{AllocError, Global};
use std::marker::PhantomData;
use view_core::legs::{Legs, legs_of};
use view_core::same::drop_first;
use view_core::scene::Scene;
use view_domain::crossed::{Branch, Crossed, Stop};

/// A row with another scene's number.
pub(crate) fn renumbered(row: Vec<u64>, number: usize) -> Vec<u64>
    requires { 0 < length row.items }
    ensures { IsRenumbered row.items number result.items }
{
    let mut row = row;
    row[0] = number as u64;
    row
}

/// A view by its row.
pub(crate) fn view_of<J: Job>(part: usize, row: Vec<u64>) -> PackedView<J>
    requires { IsRow (room_at J.plan part) row.items }
    ensures part { result.part ≡ part }
    ensures row { result.row ≡ row }
{
    PackedView {
        part,
        row,
        job: PhantomData,
    }
}

impl<'a, J: Job + Drop> PackedDomain<'a, J> {
    /// What becomes of the part's step, by a row before it.
    fn fate_of(&self, views: &PackedViews<'a, J>, step: &StepPlan, row: &[u64]) -> Fate
        requires step { IsStep J.plan views.now.part step.now }
        requires row { IsRow (room_at J.plan views.now.part) row.now }
        ensures { (scene : Scene) → result ≡ fate_shown (length J.plan.tests.items) step.now (row_shows J.plan views.now.part scene row.now) }
    {
        fate(
            false,
            some_bit(row, 1, views.room.job),
            step.after_abend,
            bit_of(row, 0),
            some_bit(row, next_bit(views.room), step.tests.as_slice().len()),
        )
    }

    /// A row behind the part's step, which meets no test: the bits of the step's own tests are cleared.
    fn passed(&self, views: &PackedViews<'a, J>, step: &StepPlan, row: Vec<u64>) -> Vec<u64>
        requires step { IsStep J.plan views.now.part step.now }
        requires row { IsRow (room_at J.plan views.now.part) row.items }
        ensures row { IsRow (room_at J.plan (views.now.part + 1)) result.items }
        ensures first { slice_index_or result.items 0 0 ≡ slice_index_or row.items 0 0 }
        ensures passed { (scene : Scene) → IsPassed J.plan step.now views.now.part (row_shows J.plan views.now.part scene row.items) result.items }
    {
        let mut row = row;
        clear(
            row.as_mut_slice(),
            next_bit(views.room),
            step.tests.as_slice().len(),
        );
        row
    }

    /// The number of the scene that a step leaves, or the fault that it meets.
    fn place_end(
        &self,
        alloc: Global,
        behind: &mut PackedViews<'a, J>,
        end: Result<Scene, Stop>,
        hint: usize,
    ) -> Result<Result<usize, Stop>, AllocError>
        ensures more { OnOk result (HasMoreScenes behind.old behind.new) }
        ensures placed { IfOk result (IsPlaced J.plan J.fixed.date behind.new end) }
    {
        match end {
            Err(stop) => Ok(Err(stop)),
            Ok(scene) => Ok(Ok(self.put_new(alloc, behind, scene, hint)?)),
        }
    }

    /// Where the step's end by a code leads.
    fn branch_by_code(
        &self,
        alloc: Global,
        ways: &mut Ways,
        end: Result<usize, Stop>,
        row: Vec<u64>,
        behind: &PackedViews<'a, J>,
    ) -> Result<(Branch<PackedView<J>>, Vec<u64>), AllocError>
        requires ways { AreWays J.plan behind.now.part behind.now.rows ways.old }
        requires row { IsRow (room_at J.plan behind.now.part) row.items }
        ensures ways { OnOk result (AreWays J.plan behind.now.part behind.now.rows ways.new) }
        ensures leads { IfOk result (λ r. LeadsPlacedByCode (λ v. v.row.items) J.plan J.fixed.date behind.now row.items end r.0) }
        ensures row { IfOk result (λ r. IsRow (room_at J.plan behind.now.part) r.1.items × HasSameBits row.items r.1.items) }
    {
        match end {
            Err(stop) => Ok((Branch::Stops(stop), row)),
            Ok(number) => {
                let row = renumbered(row, number);
                let moves = self.leads_by_code(alloc, ways, row.as_slice(), behind)?;
                Ok((Branch::Leads(moves), row))
            }
        }
    }

    /// Where its end by an ABEND leads.
    fn branch_by_abend(
        &self,
        alloc: Global,
        end: Result<usize, Stop>,
        row: Vec<u64>,
        behind: &PackedViews<'a, J>,
    ) -> Result<Branch<PackedView<J>>, AllocError>
        requires row { IsRow (room_at J.plan behind.now.part) row.items }
        ensures leads { IfOk result (λ told. LeadsPlacedByAbend (λ v. v.row.items) J.plan J.fixed.date behind.now row.items end told) }
    {
        match end {
            Err(stop) => Ok(Branch::Stops(stop)),
            Ok(number) => {
                let row = renumbered(row, number);
                Ok(Branch::Leads(self.moves_by_abend(alloc, row, behind)?))
            }
        }
    }

    /// Carries out the part's step, which runs, on the scene of this number, and puts what it leaves behind the part.
    fn place_step(
        &self,
        alloc: Global,
        before: &PackedViews<'a, J>,
        n: usize,
        step: &StepPlan,
        abended: bool,
        behind: &mut PackedViews<'a, J>,
    ) -> Result<Placed, AllocError>
        requires part { before.now.part < usize.MAX }
        requires behind { behind.old.part ≡ before.now.part + 1 }
        requires number { n < length before.now.scenes }
        ensures behind { OnOk result (HasMoreScenes behind.old behind.new) }
        ensures placed { IfOk result (λ it. ArePlacedFrom J.plan J.fixed before.now.part before.now.scenes behind.new.scenes step.now n abended it) }
    {
        let given = &self.plain.given;
        let scene: &Scene = before.scene(n);
        let legs = legs_of(alloc, given, before.part + 1, step, scene, abended)?;
        match legs {
            Legs::Refused(stop) => Ok(Placed::Refused(stop)),
            Legs::Ended {
                made,
                by_code,
                by_abend,
            } => {
                let code = self.place_end(alloc, behind, by_code, n)?;
                let abend = self.place_end(alloc, behind, by_abend, n)?;
                Ok(Placed::Ended {
                    made: Shared::new(alloc, Listed::new(made))?,
                    by_code: code,
                    by_abend: abend,
                })
            }
        }
    }

    /// The same, which is noted.
    fn step_placed(
        &self,
        alloc: Global,
        before: &mut PackedViews<'a, J>,
        n: usize,
        step: &StepPlan,
        abended: bool,
        behind: &mut PackedViews<'a, J>,
    ) -> Result<Placed, AllocError>
        requires part { before.old.part < usize.MAX }
        requires step { IsStep J.plan before.old.part step.now }
        requires behind { behind.old.part ≡ before.old.part + 1 }
        requires number { n < length before.old.scenes }
        ensures before { OnOk result (before.new ≡ before.old) }
        ensures behind { OnOk result (HasMoreScenes behind.old behind.new) }
        ensures placed { IfOk result (λ it. ArePlacedFrom J.plan J.fixed before.old.part before.old.scenes behind.new.scenes step.now n abended it) }
    {
        if let Some(known) = behind.placed_on(before, n, abended) {
            return placed_again(known);
        }
        let placed = self.place_step(alloc, before, n, step, abended, behind)?;
        if before.are_few() {
            return Ok(placed);
        }
        before.tell(alloc, self.seals)?;
        let again = placed_again(&placed)?;
        behind.note_placed(alloc, before, n, abended, again)?;
        Ok(placed)
    }

    /// The number of the scene behind the part's step, which does not run.
    fn idle_placed(
        &self,
        alloc: Global,
        before: &mut PackedViews<'a, J>,
        n: usize,
        behind: &mut PackedViews<'a, J>,
    ) -> Result<usize, AllocError>
        requires behind { behind.old.part ≡ before.old.part + 1 }
        requires number { n < length before.old.scenes }
        ensures before { OnOk result (before.new ≡ before.old) }
        ensures behind { OnOk result (HasMoreScenes behind.old behind.new) }
        ensures there { IfOk result (λ number. HasSceneFrom J.plan J.fixed.date behind.new.part before.old.scenes behind.new.scenes n number) }
    {
        if let Some(number) = behind.idle_on(before, n) {
            return Ok(number);
        }
        let number = self.put_scene(behind, before.scene(n), n)?;
        if before.are_few() {
            return Ok(number);
        }
        before.tell(alloc, self.seals)?;
        behind.note_idle(alloc, before, n, number)?;
        Ok(number)
    }

    /// The part's step, which runs.
    fn cross_running(
        &self,
        alloc: Global,
        before: &mut PackedViews<'a, J>,
        step: &StepPlan,
        later: &[StepPlan],
        row: Vec<u64>,
        behind: &mut PackedViews<'a, J>,
    ) -> Result<Crossed<PackedView<J>>, AllocError>
        requires part { before.old.part < usize.MAX }
        requires step { drop before.old.part J.plan.steps ≡ step.now ∷ later.now }
        requires behind { behind.old.part ≡ before.old.part + 1 }
        requires row { IsRow (room_at J.plan (before.old.part + 1)) row.items }
        requires numbered { slice_index_or row.items 0 0 < length before.old.scenes }
        ensures before { OnOk result (before.new ≡ before.old) }
        ensures behind { OnOk result (HasMoreScenes behind.old behind.new) }
        ensures crossed { IfOk result (λ crossed. LeadsRunning (λ w. w.row.items) J.plan J.fixed before.old step.now row.items behind.new crossed) }
    {
        let n = number_in(row.as_slice());
        let abended = bit_of(row.as_slice(), 0);
        let placed = self.step_placed(alloc, before, n, step, abended, behind)?;
        match placed {
            Placed::Refused(stop) => Ok(Crossed::Stops(stop)),
            Placed::Ended {
                made,
                by_code,
                by_abend,
            } => {
                let mut ways = self.take_ways(alloc, before, step, later, behind)?;
                let (by_code, row) = self.branch_by_code(alloc, &mut ways, by_code, row, behind)?;
                behind.keep_ways(ways);
                let by_abend = self.branch_by_abend(alloc, by_abend, row, behind)?;
                Ok(Crossed::Runs {
                    made,
                    by_code,
                    by_abend,
                })
            }
        }
    }

    /// The part's step, which does not run.
    fn cross_idle(
        &self,
        alloc: Global,
        before: &mut PackedViews<'a, J>,
        fate: Fate,
        row: Vec<u64>,
        behind: &mut PackedViews<'a, J>,
    ) -> Result<Crossed<PackedView<J>>, AllocError>
        requires behind { behind.old.part ≡ before.old.part + 1 }
        requires row { IsRow (room_at J.plan (before.old.part + 1)) row.items }
        requires numbered { slice_index_or row.items 0 0 < length before.old.scenes }
        requires idle { fate ≡ fates.Run → ⊥ }
        ensures before { OnOk result (before.new ≡ before.old) }
        ensures behind { OnOk result (HasMoreScenes behind.old behind.new) }
        ensures crossed { IfOk result (λ crossed. LeadsByFate (λ w. w.row.items) J.plan J.fixed before.old fate row.items behind.new crossed) }
    {
        let n = number_in(row.as_slice());
        let number = self.idle_placed(alloc, before, n, behind)?;
        let view = view_of(behind.part, renumbered(row, number));
        Ok(Crossed::Passes { fate, view })
    }

    /// The part's step.
    fn cross_step(
        &self,
        alloc: Global,
        before: &mut PackedViews<'a, J>,
        step: &StepPlan,
        later: &[StepPlan],
        row: Vec<u64>,
        behind: &mut PackedViews<'a, J>,
    ) -> Result<Crossed<PackedView<J>>, AllocError>
        requires part { before.old.part < usize.MAX }
        requires step { drop before.old.part J.plan.steps ≡ step.now ∷ later.now }
        requires behind { behind.old.part ≡ before.old.part + 1 }
        requires row { IsRow (room_at J.plan before.old.part) row.items }
        requires numbered { slice_index_or row.items 0 0 < length before.old.scenes }
        ensures before { OnOk result (before.new ≡ before.old) }
        ensures behind { OnOk result (HasMoreScenes behind.old behind.new) }
        ensures crossed { IfOk result (λ crossed. LeadsFromRow (λ w. w.row.items) J.plan J.fixed before.old row.items behind.new crossed) }
    {
        let fate = self.fate_of(before, step, row.as_slice());
        let row = self.passed(before, step, row);
        match fate {
            Fate::Run => self.cross_running(alloc, before, step, later, row, behind),
            _ => self.cross_idle(alloc, before, fate, row, behind),
        }
    }

    /// The job's end, from the view of this number.
    fn cross_end(
        &self,
        alloc: Global,
        before: &mut PackedViews<'a, J>,
        number: usize,
        behind: &PackedViews<'a, J>,
    ) -> Result<Crossed<PackedView<J>>, AllocError>
        requires end { drop before.old.part J.plan.steps ≡ [] }
        requires number { number < length before.old.rows }
        ensures before { OnOk result (before.new ≡ before.old) }
        ensures crossed { IfOk
            result
            (λ crossed. LeadsFromRow (λ w. w.row.items) J.plan J.fixed before.old (row_at before.old.rows number) behind.now crossed) }
    {
        let row = before.row(number);
        let n = number_in(row);
        let abended = bit_of(row, 0);
        match before.end(alloc, &self.plain, n, abended)? {
            None => Ok(Crossed::Ends),
            Some(stop) => Ok(Crossed::Stops(stop)),
        }
    }

    /// The part, from the view of this number.
    pub(crate) fn cross(
        &self,
        alloc: Global,
        before: &mut PackedViews<'a, J>,
        number: usize,
        behind: &mut PackedViews<'a, J>,
    ) -> Result<Crossed<PackedView<J>>, AllocError>
        requires part { before.old.part ≤ length J.plan.steps }
        requires behind { behind.old.part ≡ before.old.part + 1 }
        requires number { number < length before.old.rows }
        ensures before { OnOk result (before.new ≡ before.old) }
        ensures behind { OnOk result (HasMoreScenes behind.old behind.new) }
        ensures crossed { IfOk result (IsRowCrossed (λ w. w.row.items) J.plan J.fixed before.old (row_at before.old.rows number) behind.new) }
    {
        let left = drop_first(self.plain.plan.steps.as_slice(), before.part);
        match left.split_first() {
            Some((step, later)) => {
                let row = Vec::from_slice(alloc, before.row(number))?;
                self.cross_step(alloc, before, step, later, row, behind)
            }
            None => self.cross_end(alloc, before, number, behind),
        }
    }
}
