//! A scene of the views before a part.
use crate::job::Job;
use std::marker::{Model, PhantomData};
use std::rc::Rc;
use view_core::scene::Scene;
use view_domain::crossed::Stop;

/// A scene, and what the job's end comes to on it while no ABEND came and after one, where that was asked. A contract sees the scene.
#[derive(Drop)]
pub struct Entry<J: Job> {
    pub(crate) scene: Rc<Scene>,
    pub(crate) calm: Option<Option<Stop>>,
    pub(crate) abended: Option<Option<Stop>>,
    pub(crate) job: PhantomData<J>,
}

impl<J: Job> Model for Entry<J> {
    ghost use Rattle.std.specs.Prelude.{false, true, IfSome};
    ghost use Rattle.view_core.specs.Legs.{EndsJob};
    ghost use Rattle.packed_core.specs.Entries.{Entry};

    ghost Value = { Entry };

    ghost view = { λ e. record { scene = e.scene.value } };

    ghost invariant = { λ e. IfSome e.calm (EndsJob J.fixed J.plan e.scene.value false) × IfSome e.abended (EndsJob J.fixed J.plan e.scene.value true) };
}
