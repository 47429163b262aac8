//! The views before a part: their rows, what the part comes to on their scenes, and the ways into them.
ghost use Rattle.std.specs.Prelude.{◌≡◌, ◌<◌, ◌+◌, ◌∷◌, ℕ, All, List, IfOk, IfSome, drop, length, slice_get, slice_index_or, Some};
ghost use Rattle.disp_core.specs.Courses.{fixed_by};
ghost use Rattle.view_core.specs.declared.scene.Scene.{Scene};
ghost use Rattle.view_core.specs.Legs.{EndsJob};
ghost use Rattle.packed_core.specs.Classes.{AreMasksAt, Serves, ServesAt, tests_before};
ghost use Rattle.packed_core.specs.Crossing.{IsStep};
ghost use Rattle.packed_core.specs.Rooms.{room_at};
ghost use Rattle.packed_core.specs.Rows.{row_at};
ghost use Rattle.packed_core.specs.Ways.{AreCompared, AreKept, AreWays};
ghost use Rattle.packed_core.specs.Words.{IsRow};

use crate::apart::compared;
use crate::classes::Classes;
use crate::domain::PackedDomain;
use crate::job::Job;
use crate::masks::{classes_of, look_alike};
use crate::rooms::next_bit;
use crate::row_list::RowList;
use crate::served::Served;
use crate::views::PackedViews;
use crate::ways::Ways;
use jcl_plan::plan::{StepPlan, Test};
use std::alloc::{AllocError, Global};
use std::rc::Rc;
use view_core::bits::kept_tests;
use view_core::domain::PlainDomain;
use view_core::scene::Scene;
use view_domain::crossed::Stop;

/// Ways by these classes, of which nothing is noted.
fn begun(alloc: Global, classes: Rc<Classes>) -> Ways
    requires { AreCompared classes.value }
    ensures classes { result.classes ≡ classes }
    ensures kept { (rows : List (List ℕ)) → AreKept rows result }
{
    Ways {
        classes,
        notes: Vec::new(alloc),
        pending: None,
    }
}

impl<'a, J: Job> PackedViews<'a, J> {
    /// The row of this number.
    pub(crate) fn row(&self, number: usize) -> &[u64]
        requires { number < length self.now.rows }
        ensures is { result.now ≡ row_at self.now.rows number }
        ensures numbered { slice_index_or result.now 0 0 < length self.now.scenes }
        ensures packed { IsRow (room_at J.plan self.now.part) result.now }
    {
        self.rows.at(number)
    }

    /// The scene of this number.
    pub(crate) fn scene(&self, n: usize) -> &Rc<Scene>
        requires { n < length self.now.scenes }
        ensures { slice_get self.now.scenes n ≡ Some result.now.value }
    {
        &self.entries[n].scene
    }

    /// What the job's end comes to on the scene of this number.
    pub(crate) fn end(
        &mut self,
        alloc: Global,
        plain: &PlainDomain<'_>,
        n: usize,
        abended: bool,
    ) -> Result<Option<Stop>, AllocError>
        requires planned { plain.now.plan.now ≡ J.plan }
        requires so_fixed { fixed_by plain.now.given ≡ J.fixed }
        requires number { n < length self.old.scenes }
        ensures same { self.new ≡ self.old }
        ensures end { IfOk result (λ stop. (scene : Scene) → slice_get self.old.scenes n ≡ Some scene → EndsJob J.fixed J.plan scene abended stop) }
    {
        self.entries[n].end(alloc, plain, abended)
    }

    /// The rows of these views.
    pub(crate) fn standing(&self) -> &RowList
        ensures { result.now ≡ self.now.rows }
    {
        &self.rows
    }

    /// Keeps the ways into these views.
    pub(crate) fn keep_ways(&mut self, ways: Ways)
        requires { AreWays J.plan self.old.part self.old.rows ways }
        ensures same { self.new ≡ self.old }
    {
        self.ways = Some(ways);
    }

    /// The classes by which the step before these views may end, where they serve for the part's own step, behind which these tests are kept.
    fn serving(&self, step: &StepPlan, kept: &[Test]) -> Option<&Rc<Classes>>
        requires part { self.now.part < usize.MAX }
        requires step { IsStep J.plan self.now.part step.now }
        requires kept { kept.now ≡ tests_before J.plan (self.now.part + 1) }
        ensures masks { IfSome result (λ classes. AreMasksAt J.plan (self.now.part + 1) classes.now.value.list.items) }
        ensures compared { IfSome result (λ classes. AreCompared classes.now.value) }
    {
        let Some(ways) = &self.ways else {
            return None;
        };
        if !step.tests.as_slice().is_empty() {
            return None;
        }
        if !look_alike(kept, self.part) {
            return None;
        }
        Some(&ways.classes)
    }

    /// The classes by which the step before these views may end, if their masks serve for the part's own step, behind which these tests are kept.
    fn served(&self, step: &StepPlan, kept: &[Test]) -> Served<'_>
        requires part { self.now.part < usize.MAX }
        requires step { IsStep J.plan self.now.part step.now }
        requires kept { kept.now ≡ tests_before J.plan (self.now.part + 1) }
        ensures serve { All (ServesAt J.plan (self.now.part + 1) result.from result.count) result.list.now }
    {
        let Some(ways) = &self.ways else {
            return Served::none();
        };
        if !look_alike(kept, self.part) {
            return Served::none();
        }
        Served {
            list: ways.classes.list.as_slice(),
            from: next_bit(self.room),
            count: step.tests.as_slice().len(),
        }
    }

    /// The classes by which the step before these views may end, before which these tests are kept. Masks may be had from those that serve.
    fn new_classes(
        &self,
        alloc: Global,
        kept: &[Test],
        served: Served<'_>,
    ) -> Result<Rc<Classes>, AllocError>
        requires kept { kept.now ≡ tests_before J.plan self.now.part }
        requires serve { All (Serves self.now.part kept.now (room_at J.plan self.now.part) served.from served.count) served.list.now }
        ensures masks { IfOk result (λ classes. AreMasksAt J.plan self.now.part classes.value.list.items) }
        ensures compared { IfOk result (λ classes. AreCompared classes.value) }
    {
        let list = classes_of(alloc, self.part, kept, self.room, served)?;
        let classes = compared(alloc, list)?;
        match Rc::new(alloc, classes) {
            Ok(classes) => Ok(classes),
            Err(_) => Err(AllocError),
        }
    }
}

impl<'a, J: Job + Drop> PackedDomain<'a, J> {
    /// The classes of codes by which the part's step may end.
    fn classes_behind(
        &self,
        alloc: Global,
        before: &PackedViews<'a, J>,
        step: &StepPlan,
        later: &[StepPlan],
        behind: &PackedViews<'a, J>,
    ) -> Result<Rc<Classes>, AllocError>
        requires part { before.now.part < usize.MAX }
        requires step { drop before.now.part J.plan.steps ≡ step.now ∷ later.now }
        requires behind { behind.now.part ≡ before.now.part + 1 }
        ensures masks { IfOk result (λ classes. AreMasksAt J.plan behind.now.part classes.value.list.items) }
        ensures compared { IfOk result (λ classes. AreCompared classes.value) }
    {
        let kept = kept_tests(alloc, self.plain.plan.tests.as_slice(), later)?;
        let tests = kept.as_slice();
        match before.serving(step, tests) {
            Some(classes) => classes.clone(),
            None => behind.new_classes(alloc, tests, before.served(step, tests)),
        }
    }

    /// The ways into the views behind a part, taken from where they are kept, or begun.
    pub(crate) fn take_ways(
        &self,
        alloc: Global,
        before: &PackedViews<'a, J>,
        step: &StepPlan,
        later: &[StepPlan],
        behind: &mut PackedViews<'a, J>,
    ) -> Result<Ways, AllocError>
        requires part { before.now.part < usize.MAX }
        requires step { drop before.now.part J.plan.steps ≡ step.now ∷ later.now }
        requires behind { behind.old.part ≡ before.now.part + 1 }
        ensures same { behind.new ≡ behind.old }
        ensures ways { IfOk result (AreWays J.plan behind.old.part behind.old.rows) }
    {
        match behind.ways.take() {
            Some(ways) => Ok(ways),
            None => {
                let classes = self.classes_behind(alloc, before, step, later, behind)?;
                Ok(begun(alloc, classes))
            }
        }
    }
}
