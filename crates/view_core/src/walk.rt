//! A step carried out on a scene, from its start to its end: its DDs are taken, and then it ends by an outcome.
ghost use Rattle.std.specs.Prelude.{◌≡◌, ◌<◌, ◌++◌, IfOk, OnOk};
ghost use Rattle.disp_core.specs.Courses.{fixed_by};
ghost use Rattle.disp_core.specs.Grants.{made_of};
ghost use Rattle.view_core.specs.Scenes.{IsBegun};
ghost use Rattle.view_core.specs.Walks.{DisposesAll, EndsFrom, TakesAll};

use crate::scene::{Scene, course_of};
use disp_core::course::{Course, Given};
use disp_core::site::Site;
use disp_core::{dispose, step, take};
use jcl_meaning::state::Place;
use jcl_plan::outcome::Outcome;
use jcl_plan::plan::DdPlan;
use job_text::texts::{disp_text, take_text};
use seen_store::store::SeenStore;
use std::alloc::{AllocError, Global};
use view_domain::crossed::Stop;

/// The number of a job that has its store alone.
pub(crate) const JOB: u16 = 1;

/// A step under way.
#[derive(Drop)]
pub(crate) struct Under {
    pub(crate) store: SeenStore,
    pub(crate) course: Course,
}

/// A step of so many DDs that begins to run on a scene.
pub(crate) fn under_of(
    alloc: Global,
    scene: &Scene,
    abend: bool,
    dds: usize,
) -> Result<Under, AllocError>
    ensures { IfOk result (λ under. (under.store ≡ scene.now.store) × IsBegun scene.now abend under.course.own) }
{
    Ok(Under {
        store: scene.store.copy_of()?,
        course: course_of(alloc, scene, abend, dds)?,
    })
}

/// The scene that a step leaves.
fn scene_of(under: Under) -> Scene
    ensures { result ≡ record { store = under.store; passed = under.course.own.passed; volumes = under.course.own.volumes } }
{
    let Under { store, course } = under;
    Scene {
        store,
        passed: course.own.passed,
        volumes: course.own.volumes,
    }
}

fn push_made(made: &mut Vec<Place>, taken: Option<Place>) -> Result<(), AllocError>
    ensures { OnOk result (made.new.items ≡ made.old.items ++ made_of taken) }
{
    match taken {
        Some(place) => {
            made.push(place)?;
            Ok(())
        }
        None => Ok(()),
    }
}

/// Takes the DDs of step n, and tells where sets are made, or the first fault.
pub(crate) fn take_all(
    alloc: Global,
    given: &Given<'_>,
    n: usize,
    dds: &[DdPlan],
    under: &mut Under,
    made: &mut Vec<Place>,
) -> Result<Option<Stop>, AllocError>
    requires { 0 < n }
    ensures { IfOk result (λ stop. TakesAll (fixed_by given.now) n dds.now under.old made.old.items stop under.new made.new.items) }
{
    for (i, d) in dds.iter().enumerate() {
        let at = Site {
            job: JOB,
            step: n,
            dd: i + 1,
            name: d.name,
        };
        let taken = take::take(
            alloc,
            &mut under.store,
            given,
            &mut under.course,
            &at,
            &take_text(&d.kind),
        )?;
        if let Some(fault) = taken.meets {
            return Ok(Some(Stop {
                at: i + 1,
                step: n,
                dd: i + 1,
                ended: n - 1,
                fault,
            }));
        }
        push_made(made, taken.made)?;
    }
    Ok(None)
}

/// Does the dispositions of step n, and tells the first fault.
fn dispose_all(
    given: &Given<'_>,
    n: usize,
    dds: &[DdPlan],
    under: &mut Under,
) -> Result<Option<Stop>, AllocError>
    ensures { IfOk result (λ stop. DisposesAll (fixed_by given.now) n dds.now under.old stop under.new) }
{
    for (i, d) in dds.iter().enumerate() {
        let at = Site {
            job: JOB,
            step: n,
            dd: i + 1,
            name: d.name,
        };
        let text = disp_text(&d.kind);
        let meets = dispose::dispose(&mut under.store, given, &mut under.course, &at, &text)?;
        if let Some(fault) = meets {
            return Ok(Some(Stop {
                at: dds.len() + 2 + i,
                step: n,
                dd: i + 1,
                ended: n,
                fault,
            }));
        }
    }
    Ok(None)
}

/// Ends step n, whose DDs are taken, by this outcome: the scene that it leaves, or the fault that a disposition meets.
pub(crate) fn end_by(
    alloc: Global,
    given: &Given<'_>,
    n: usize,
    dds: &[DdPlan],
    under: Under,
    outcome: &Outcome,
) -> Result<Result<Scene, Stop>, AllocError>
    ensures { IfOk result (EndsFrom (fixed_by given.now) n dds.now under outcome.now) }
{
    let mut under = under;
    step::finish(alloc, &mut under.course, n, outcome, false)?;
    match dispose_all(given, n, dds, &mut under)? {
        Some(stop) => Ok(Err(stop)),
        None => Ok(Ok(scene_of(under))),
    }
}
