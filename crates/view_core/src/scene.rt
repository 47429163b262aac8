//! A state that shows a view, and views over it.

ghost use Rattle.std.specs.Prelude.{◌≡◌, IfOk};
ghost use Rattle.jcl_meaning.specs.History.{abended};
ghost use Rattle.view_core.specs.Scenes.{IsBegun};

use disp_core::course::Course;
use jcl_meaning::state::{DdVolume, Ended, Own, Passed};
use jcl_plan::outcome::{Abend, Code, Outcome};
use plain::listed::Listed;
use seen_store::store::SeenStore;
use std::alloc::{AllocError, Global};
use std::rc::Rc;

/// What a job has between two parts, but for the steps that ended: the sets and entries that it sees, what is passed, and the volumes of its DDs.
#[derive(Drop)]
pub struct Scene {
    pub store: SeenStore,
    pub passed: Listed<Passed>,
    pub volumes: Listed<DdVolume>,
}

/// A view: what stands between two parts, whether an ABEND came, and which tests are met so far, those of the JOB statement first, then those of each step to come.
#[derive(Drop)]
pub struct PlainView {
    pub scene: Rc<Scene>,
    pub abended: bool,
    pub met: Vec<bool>,
}

/// The views before a part.
#[derive(Drop)]
pub struct PlainViews {
    pub part: usize,
    pub views: Vec<PlainView>,
}

/// The steps that ended, as far as a scene goes: one by an ABEND, if one came.
fn ended_of(alloc: Global, abend: bool) -> Result<Listed<Ended>, AllocError>
    ensures { IfOk result (λ ended. abended ended ≡ abend) }
{
    let mut ended = Listed::empty(alloc);
    if abend {
        ended.push(Ended {
            step: 0,
            outcome: Outcome::Abend(Abend::User(Code::zero())),
        })?;
    }
    Ok(ended)
}

/// How many lines a step of so many DDs writes at most until it is over: a TAKE and a disposition of each, and its end.
fn lines_of(dds: usize) -> usize {
    dds.saturating_mul(2).saturating_add(1)
}

/// The own state of a job whose step of so many DDs begins to run on a scene, and no line.
pub(crate) fn course_of(
    alloc: Global,
    scene: &Scene,
    abend: bool,
    dds: usize,
) -> Result<Course, AllocError>
    ensures { IfOk result (λ course. IsBegun scene.now abend course.own) }
{
    Ok(Course {
        own: Own {
            passed: scene.passed.clone()?,
            ended: ended_of(alloc, abend)?,
            faulted: false,
            volumes: scene.volumes.clone()?,
            outputs: Listed::empty(alloc),
            runs: true,
            over: None,
            dds: Listed::new(Vec::with_capacity(alloc, dds)?),
            due: None,
            lines: 0,
        },
        lines: Listed::new(Vec::with_capacity(alloc, lines_of(dds))?),
    })
}
