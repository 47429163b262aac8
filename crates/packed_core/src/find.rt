//! What the job's end comes to on a scene is found once.
ghost use Rattle.std.specs.Prelude.{◌≡◌, IfOk, IfSome};
ghost use Rattle.disp_core.specs.Courses.{fixed_by};
ghost use Rattle.view_core.specs.Legs.{EndsJob};

use crate::entries::Entry;
use crate::job::Job;
use std::alloc::{AllocError, Global};
use std::marker::PhantomData;
use std::rc::Rc;
use view_core::domain::PlainDomain;
use view_core::scene::Scene;
use view_domain::crossed::Stop;

/// A scene of which nothing is known.
pub(crate) fn entry_of<J: Job>(scene: Rc<Scene>) -> Entry<J>
    ensures { result ≡ record { scene = scene.value } }
{
    Entry {
        scene,
        calm: None,
        abended: None,
        job: PhantomData,
    }
}

/// What the job's end comes to on a scene. It is noted.
fn noted_end(
    alloc: Global,
    plain: &PlainDomain<'_>,
    scene: &Scene,
    abended: bool,
    note: &mut Option<Option<Stop>>,
) -> Result<Option<Stop>, AllocError>
    requires so { IfSome note.old (EndsJob (fixed_by plain.now.given) plain.now.plan.now scene.now abended) }
    ensures so { IfSome note.new (EndsJob (fixed_by plain.now.given) plain.now.plan.now scene.now abended) }
    ensures end { IfOk result (EndsJob (fixed_by plain.now.given) plain.now.plan.now scene.now abended) }
{
    if let Some(stop) = *note {
        return Ok(stop);
    }
    let stop = plain.end_on(alloc, scene, abended)?;
    *note = Some(stop);
    Ok(stop)
}

impl<J: Job> Entry<J> {
    /// What the job's end comes to on this scene.
    pub(crate) fn end(
        &mut self,
        alloc: Global,
        plain: &PlainDomain<'_>,
        abended: bool,
    ) -> Result<Option<Stop>, AllocError>
        requires planned { plain.now.plan.now ≡ J.plan }
        requires so_fixed { fixed_by plain.now.given ≡ J.fixed }
        ensures same { self.new ≡ self.old }
        ensures end { IfOk result (EndsJob J.fixed J.plan self.old.scene abended) }
    {
        if abended {
            noted_end(alloc, plain, &self.scene, true, &mut self.abended)
        } else {
            noted_end(alloc, plain, &self.scene, false, &mut self.calm)
        }
    }
}
