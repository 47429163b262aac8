//! The plain domain meets what a search asks of a way to keep views.
ghost use Rattle.std.specs.Prelude.{◌≡◌, [], IfOk, map};
ghost use Rattle.jcl_meaning.specs.Stores.{store_of};
ghost use Rattle.view_core.specs.PlainViews.{no_bits};

use crate::bits::kept_tests;
use crate::domain::PlainDomain;
use crate::moves::shared;
use crate::same::{drop_first, is_shown};
use crate::scene::{PlainView, PlainViews, Scene};
use plain::listed::Listed;
use seen_store::store::SeenStore;
use std::alloc::{AllocError, Global};
use std::rc::Rc;
use view_domain::crossed::Crossed;
use view_domain::domain::ViewDomain;

/// So many bits of tests that are not met.
fn no_bits(alloc: Global, count: usize) -> Result<Vec<bool>, AllocError>
    ensures { IfOk result (λ bits. bits.items ≡ no_bits count) }
{
    vec![in alloc; false; count]
}

impl<'a> PlainDomain<'a> {
    /// The scene before the first step.
    pub fn first_scene(&self, alloc: Global) -> Result<Rc<Scene>, AllocError>
        ensures store { IfOk result (λ scene. store_of scene.value.store ≡ store_of self.now.store.now) }
        ensures nothing { IfOk result (λ scene. (scene.value.passed ≡ []) × (scene.value.volumes ≡ [])) }
    {
        let scene = Scene {
            store: SeenStore::of_solo(alloc, self.store)?,
            passed: Listed::empty(alloc),
            volumes: Listed::empty(alloc),
        };
        shared(alloc, scene)
    }
}

impl<'a> ViewDomain for PlainDomain<'a> {
    ghost use Rattle.std.specs.Prelude.{map};
    ghost use Rattle.disp_core.specs.Courses.{fixed_by};
    ghost use Rattle.jcl_meaning.specs.Stores.{store_of};
    ghost use Rattle.view_core.specs.Domains.{shown_before};

    type View = PlainView;

    type Views = PlainViews;

    ghost plan = { λ d. d.plan.now };

    ghost fixed = { λ d. fixed_by d.given };

    ghost store = { λ d. store_of d.store.now };

    ghost members = { λ d views. map (shown_before d views.part) views.views.items };

    ghost meaning = { λ d views view. shown_before d views.part view };

    ghost stands = { λ d views. views.part };

    fn start(&self, alloc: Global) -> Result<PlainViews, AllocError> {
        let job = self.plan.tests.as_slice();
        let tests = kept_tests(alloc, job, self.plan.steps.as_slice())?;
        let mut views = Vec::new(alloc);
        views.push(PlainView {
            scene: self.first_scene(alloc)?,
            abended: false,
            met: no_bits(alloc, tests.as_slice().len())?,
        })?;
        Ok(PlainViews { part: 0, views })
    }

    fn none(&self, alloc: Global, part: usize) -> Result<PlainViews, AllocError> {
        Ok(PlainViews {
            part,
            views: Vec::new(alloc),
        })
    }

    fn transfer(
        &self,
        alloc: Global,
        part: usize,
        before: &mut PlainViews,
        number: usize,
        behind: &mut PlainViews,
    ) -> Result<Crossed<PlainView>, AllocError> {
        let _behind = behind.part;
        self.cross(alloc, part, &before.views[number])
    }

    fn merge(
        &self,
        _alloc: Global,
        behind: &mut PlainViews,
        view: PlainView,
    ) -> Result<bool, AllocError> {
        let later = drop_first(self.plan.steps.as_slice(), behind.part);
        let stood = is_shown(
            self.names,
            self.given.date,
            self.plan.tests.as_slice().len(),
            later,
            behind.views.as_slice(),
            &view,
        );
        if !stood {
            behind.views.push(view)?;
        }
        Ok(stood)
    }
}
