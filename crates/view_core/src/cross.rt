//! A part of a job's path led over from a view.
ghost use Rattle.std.specs.Prelude.{◌≡◌, ◌<◌, ◌≤◌, ◌∷◌, [], IfOk, drop, length};
ghost use Rattle.jcl_plan.specs.declared.outcome.Fate.TheVariants as fate;
ghost use Rattle.view_core.specs.Bits.{bits_kept, fate_shown};
ghost use Rattle.view_core.specs.Domains.{IsLedOver};
ghost use Rattle.view_core.specs.Shows.{shows};

use crate::bits::{bits_kept, fate_of, kept_tests};
use crate::domain::PlainDomain;
use crate::legs::{Legs, legs_of};
use crate::moves::{by_abend, by_code};
use crate::same::drop_first;
use crate::scene::PlainView;
use jcl_plan::outcome::Fate;
use jcl_plan::plan::StepPlan;
use plain::listed::Listed;
use plain::shared::Shared;
use std::alloc::{AllocError, Global};
use view_domain::crossed::Crossed;

impl<'a> PlainDomain<'a> {
    /// The step of part `part`, which runs, carried out twice on the scene that the view shows: by code 0, and by an ABEND.
    fn cross_running(
        &self,
        alloc: Global,
        part: usize,
        step: &StepPlan,
        later: &[StepPlan],
        view: &PlainView,
        bits: Vec<bool>,
    ) -> Result<Crossed<PlainView>, AllocError>
        requires part { part < usize.MAX }
        requires step { drop part self.now.plan.now.steps ≡ step.now ∷ later.now }
        requires runs { fate_shown (length self.now.plan.now.tests.items) step.now (shows view.now) ≡ fate.Run }
        requires bits { bits.items ≡ bits_kept (length self.now.plan.now.tests.items) (length step.now.tests.items) view.now.met.items }
        ensures { IfOk result (IsLedOver self.now part view.now) }
    {
        let n = part + 1;
        let (made, end, abend_end) = match legs_of(
            alloc,
            &self.given,
            n,
            step,
            &view.scene,
            view.abended,
        )? {
            Legs::Refused(stop) => return Ok(Crossed::Stops(stop)),
            Legs::Ended {
                made,
                by_code,
                by_abend,
            } => (made, by_code, by_abend),
        };
        let kept = kept_tests(alloc, self.plan.tests.as_slice(), later)?;
        let by_code = by_code(
            alloc,
            n,
            kept.as_slice(),
            bits.as_slice(),
            view.abended,
            end,
        )?;
        let by_abend = by_abend(alloc, bits, abend_end)?;
        Ok(Crossed::Runs {
            made: Shared::new(alloc, Listed::new(made))?,
            by_code,
            by_abend,
        })
    }

    /// A step.
    fn cross_step(
        &self,
        alloc: Global,
        part: usize,
        step: &StepPlan,
        later: &[StepPlan],
        view: &PlainView,
    ) -> Result<Crossed<PlainView>, AllocError>
        requires part { part < usize.MAX }
        requires step { drop part self.now.plan.now.steps ≡ step.now ∷ later.now }
        ensures { IfOk result (IsLedOver self.now part view.now) }
    {
        let tests = self.plan.tests.as_slice().len();
        let own = step.tests.as_slice().len();
        let bits = bits_kept(alloc, tests, own, view.met.as_slice())?;
        let fate = fate_of(tests, step, view);
        match fate {
            Fate::Run => self.cross_running(alloc, part, step, later, view, bits),
            _ => Ok(Crossed::Passes {
                fate,
                view: PlainView {
                    scene: view.scene.clone()?,
                    abended: view.abended,
                    met: bits,
                },
            }),
        }
    }

    /// The job's end.
    fn cross_end(
        &self,
        alloc: Global,
        part: usize,
        view: &PlainView,
    ) -> Result<Crossed<PlainView>, AllocError>
        requires { drop part self.now.plan.now.steps ≡ [] }
        ensures { IfOk result (IsLedOver self.now part view.now) }
    {
        match self.end_on(alloc, &view.scene, view.abended)? {
            Some(stop) => Ok(Crossed::Stops(stop)),
            None => Ok(Crossed::Ends),
        }
    }

    /// A part.
    pub(crate) fn cross(
        &self,
        alloc: Global,
        part: usize,
        view: &PlainView,
    ) -> Result<Crossed<PlainView>, AllocError>
        requires { part ≤ length self.now.plan.now.steps }
        ensures { IfOk result (IsLedOver self.now part view.now) }
    {
        let left = drop_first(self.plan.steps.as_slice(), part);
        match left.split_first() {
            Some((step, later)) => self.cross_step(alloc, part, step, later, view),
            None => self.cross_end(alloc, part, view),
        }
    }
}
