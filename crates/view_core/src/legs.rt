//! What a step that runs comes to on a scene, whatever tests are met, and what the job's end does.
ghost use Rattle.std.specs.Prelude.{◌<◌, IfOk};
ghost use Rattle.disp_core.specs.Courses.{fixed_by};
ghost use Rattle.view_core.specs.Legs.{AreLegs, EndsJob};

use crate::again::again;
use crate::domain::PlainDomain;
use crate::leave::{leave_all, lefts_of};
use crate::scene::Scene;
use crate::walk::{end_by, take_all, under_of};
use disp_core::course::Given;
use jcl_meaning::state::Place;
use jcl_plan::outcome::{Abend, Code, Outcome};
use jcl_plan::plan::StepPlan;
use std::alloc::{AllocError, Global};
use view_domain::crossed::Stop;

/// What a step that runs comes to on a scene: the same for all views that show it after an ABEND or none.
#[derive(Drop)]
pub enum Legs {
    /// A take meets this fault, however the step would have ended.
    Refused(Stop),
    /// It made these sets, and by a code and by an ABEND left a scene each, or a disposition met a fault.
    Ended {
        made: Vec<Place>,
        by_code: Result<Scene, Stop>,
        by_abend: Result<Scene, Stop>,
    },
}

/// Carries out step n, which runs, on a scene: its DDs are taken once, and then it ends by code 0, and by an ABEND.
pub fn legs_of(
    alloc: Global,
    given: &Given<'_>,
    n: usize,
    step: &StepPlan,
    scene: &Scene,
    abended: bool,
) -> Result<Legs, AllocError>
    requires { 0 < n }
    ensures { IfOk result (AreLegs (fixed_by given.now) n step.now scene.now abended) }
{
    let dds = step.dds.as_slice();
    let mut under = under_of(alloc, scene, abended, dds.len())?;
    let mut made = Vec::new(alloc);
    if let Some(stop) = take_all(alloc, given, n, dds, &mut under, &mut made)? {
        return Ok(Legs::Refused(stop));
    }
    let other = again(alloc, &under, dds.len().saturating_add(1))?;
    let code = Outcome::Code(Code::zero());
    let by_code = end_by(alloc, given, n, dds, under, &code)?;
    let abend = Outcome::Abend(Abend::User(Code::zero()));
    let by_abend = end_by(alloc, given, n, dds, other, &abend)?;
    Ok(Legs::Ended {
        made,
        by_code,
        by_abend,
    })
}

impl<'a> PlainDomain<'a> {
    /// Deals with what was passed and not received at the job's end, on a scene, and tells the first fault.
    pub fn end_on(
        &self,
        alloc: Global,
        scene: &Scene,
        abended: bool,
    ) -> Result<Option<Stop>, AllocError>
        ensures { IfOk result (EndsJob (fixed_by self.now.given) self.now.plan.now scene.now abended) }
    {
        let steps = self.plan.steps.as_slice();
        let lefts = lefts_of(alloc, steps)?;
        let mut under = under_of(alloc, scene, abended, 0)?;
        let stop = leave_all(&self.given, steps.len(), lefts.as_slice(), &mut under)?;
        Ok(stop)
    }
}
