//! Scenes by their numbers.
ghost use Rattle.std.specs.Prelude.{◌≡◌, Decides, OnOk, IfOk};
ghost use Rattle.view_core.specs.Same.{shown_alone};
ghost use Rattle.packed_core.specs.Scenes.{FindsScene, HasScene};
ghost use Rattle.packed_core.specs.Views.{HasMoreScenes};
ghost use Rattle.packed_core.specs.Shown.{ShowsAlike, alone};

use crate::domain::PackedDomain;
use crate::find::entry_of;
use crate::job::Job;
use crate::views::PackedViews;
use jcl_meaning::names::HeldName;
use jcl_plan::day::Day;
use jcl_plan::plan::StepPlan;
use plain::listed::Listed;
use std::alloc::{AllocError, Global};
use std::rc::Rc;
use view_core::same::{drop_first, same_scene, take_first};
use view_core::scene::Scene;

/// The steps that are looked through where two scenes are compared: none if neither knows a volume for which a step could ask.
fn asking<'p>(later: &'p [StepPlan], a: &Scene, b: &Scene) -> &'p [StepPlan]
    ensures first { ShowsAlike later.now result.now a.now }
    ensures other { ShowsAlike later.now result.now b.now }
{
    if !a.volumes.as_slice().is_empty() {
        return later;
    }
    if !b.volumes.as_slice().is_empty() {
        return later;
    }
    &[]
}

/// Two scenes show a job with these names the same, before these steps.
fn same_before(names: &[HeldName], date: Day, later: &[StepPlan], a: &Scene, b: &Scene) -> bool
    ensures { Decides result (shown_alone names.now date later.now a.now ≡ shown_alone names.now date later.now b.now) }
{
    let asked = asking(later, a, b);
    same_scene(names, date, asked, a, b)
}

impl<'a, J: Job + Drop> PackedDomain<'a, J> {
    /// Two scenes show the job the same before a part.
    fn is_same(&self, part: usize, a: &Scene, b: &Scene) -> bool
        ensures { Decides result (alone J.plan J.fixed.date part a.now ≡ alone J.plan J.fixed.date part b.now) }
    {
        let asking = take_first(self.plain.plan.steps.as_slice(), self.asked);
        let later = drop_first(asking, part);
        same_before(self.plain.names, self.plain.given.date, later, a, b)
    }

    /// The number of a scene that shows the same as another.
    fn number_of(&self, views: &PackedViews<'_, J>, scene: &Scene) -> Option<usize>
        ensures { FindsScene J.plan J.fixed.date views.now.part views.now.scenes scene.now result }
    {
        for n in 0..views.entries.len() {
            if self.is_same(views.part, &views.entries[n].scene, scene) {
                return Some(n);
            }
        }
        None
    }

    /// The same, where it may stand at the place that is told.
    fn number_near(&self, views: &PackedViews<'_, J>, scene: &Scene, hint: usize) -> Option<usize>
        ensures { FindsScene J.plan J.fixed.date views.now.part views.now.scenes scene.now result }
    {
        if hint < views.entries.len()
            && self.is_same(views.part, &views.entries[hint].scene, scene)
        {
            return Some(hint);
        }
        self.number_of(views, scene)
    }

    /// Puts a scene behind the others, of which none shows the same, and tells its number.
    fn push_scene(
        &self,
        views: &mut PackedViews<'_, J>,
        scene: Rc<Scene>,
    ) -> Result<usize, AllocError>
        requires new { FindsScene J.plan J.fixed.date views.old.part views.old.scenes scene.value None }
        ensures more { OnOk result (HasMoreScenes views.old views.new) }
        ensures there { IfOk result (HasScene J.plan J.fixed.date views.new.part views.new.scenes scene.value) }
    {
        let number = views.entries.len();
        views.sight = None;
        views.entries.push(entry_of(scene))?;
        Ok(number)
    }

    /// The number of a scene, which is put behind the others if none of them shows the same.
    pub(crate) fn put_scene(
        &self,
        views: &mut PackedViews<'_, J>,
        scene: &Rc<Scene>,
        hint: usize,
    ) -> Result<usize, AllocError>
        ensures more { OnOk result (HasMoreScenes views.old views.new) }
        ensures there { IfOk result (HasScene J.plan J.fixed.date views.new.part views.new.scenes scene.now.value) }
    {
        match self.number_near(views, scene, hint) {
            Some(number) => Ok(number),
            None => self.push_scene(views, scene.clone()?),
        }
    }

    /// A scene without the volumes of DDs, where no step behind the part asks for one: it shows the job the same there.
    fn lean(&self, alloc: Global, part: usize, scene: Scene) -> Scene
        ensures { alone J.plan J.fixed.date part result ≡ alone J.plan J.fixed.date part scene }
    {
        if part < self.asked {
            return scene;
        }
        let Scene { store, passed, .. } = scene;
        Scene {
            store,
            passed,
            volumes: Listed::empty(alloc),
        }
    }

    /// The same of a scene that a step leaves. As much of it is kept as it shows.
    pub(crate) fn put_new(
        &self,
        alloc: Global,
        views: &mut PackedViews<'_, J>,
        scene: Scene,
        hint: usize,
    ) -> Result<usize, AllocError>
        ensures more { OnOk result (HasMoreScenes views.old views.new) }
        ensures there { IfOk result (HasScene J.plan J.fixed.date views.new.part views.new.scenes scene) }
    {
        match self.number_near(views, &scene, hint) {
            Some(number) => Ok(number),
            None => {
                let kept = self.lean(alloc, views.part, scene);
                self.push_scene(views, Rc::new(alloc, kept)?)
            }
        }
    }
}
