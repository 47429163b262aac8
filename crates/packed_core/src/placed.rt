//! Where the scenes behind a part stand to which those before it lead: found once for each.
ghost use Rattle.std.specs.Prelude.{◌≡◌, ℕ, false, true, List, IfSome, OnOk, Some, slice_get};
ghost use Rattle.jcl_plan.specs.declared.plan.JobPlan.{JobPlan};
ghost use Rattle.jcl_meaning.specs.States.{Fixed};
ghost use Rattle.view_core.specs.declared.scene.Scene.{Scene};
ghost use Rattle.packed_core.specs.Placed.{AreKnown, HasNoMore, HasPut, IsPlacedAgain, NotesIdle, NotesPlaced};

use jcl_meaning::state::Place;
use plain::shared::Shared;
use std::alloc::{AllocError, Global};
use view_domain::crossed::Stop;

/// What a step that runs comes to on a scene, with the numbers of the scenes behind the step.
#[derive(Drop)]
pub enum Placed {
    /// A take meets this fault.
    Refused(Stop),
    /// It made these sets, and by a code and by an ABEND left a scene each, or a disposition met a fault.
    Ended {
        made: Shared<Place>,
        by_code: Result<usize, Stop>,
        by_abend: Result<usize, Stop>,
    },
}

/// What is known of the scenes before a part: of each its number behind the part's step, if that does not run, and what the step comes to that runs,
/// after no ABEND and after one.
#[derive(Drop)]
pub struct Known {
    pub idle: Vec<Option<usize>>,
    pub calm: Vec<Option<Placed>>,
    pub abended: Vec<Option<Placed>>,
}

/// The same once more.
pub(crate) fn placed_again(placed: &Placed) -> Result<Placed, AllocError>
    ensures { IsPlacedAgain placed.now result }
{
    match placed {
        Placed::Refused(stop) => Ok(Placed::Refused(*stop)),
        Placed::Ended {
            made,
            by_code,
            by_abend,
        } => {
            Ok(Placed::Ended {
                made: made.share()?,
                by_code: *by_code,
                by_abend: *by_abend,
            })
        }
    }
}

/// What is known at a place.
fn at<T: Drop>(list: &[Option<T>], n: usize) -> Option<&T>
    ensures { IfSome result (λ one. slice_get list.now n ≡ Some (Some one.now)) }
{
    match list.get(n) {
        Some(Some(one)) => Some(one),
        _ => None,
    }
}

/// Makes room at a place.
fn lengthen<T: Drop>(list: &mut Vec<Option<T>>, n: usize) -> Result<(), AllocError>
    ensures { OnOk result (HasNoMore list.old.items list.new.items) }
{
    let missing = n.saturating_add(1).saturating_sub(list.len());
    for i in 0..missing {
        list.push(None)?;
    }
    Ok(())
}

/// Notes what is known at a place, if there is room.
fn set_at<T: Drop>(list: &mut Vec<Option<T>>, n: usize, one: T)
    ensures { HasPut list.old.items list.new.items n one }
{
    if n < list.len() {
        list[n] = Some(one);
    }
}

/// Puts what is known at a place.
fn put_at<T: Drop>(list: &mut Vec<Option<T>>, n: usize, one: T) -> Result<(), AllocError>
    ensures { OnOk result (HasPut list.old.items list.new.items n one) }
{
    lengthen(list, n)?;
    set_at(list, n, one);
    Ok(())
}

/// Nothing is known.
pub(crate) fn nothing_known(alloc: Global) -> Known
    ensures { (plan : JobPlan) (fixed : Fixed) (k : ℕ) (before behind : List Scene) → AreKnown plan fixed k before behind result }
{
    Known {
        idle: Vec::new(alloc),
        calm: Vec::new(alloc),
        abended: Vec::new(alloc),
    }
}

impl Known {
    /// The number of a scene behind a step that does not run.
    pub(crate) fn idle_at(&self, n: usize) -> Option<usize>
        ensures { IfSome result (λ number. slice_get self.now.idle.items n ≡ Some (Some number)) }
    {
        match at(self.idle.as_slice(), n) {
            Some(number) => Some(*number),
            None => None,
        }
    }

    /// What a step that runs comes to on a scene while no ABEND came, and after one.
    pub(crate) fn calm_at(&self, n: usize) -> Option<&Placed>
        ensures { IfSome result (λ it. slice_get self.now.calm.items n ≡ Some (Some it.now)) }
    {
        at(self.calm.as_slice(), n)
    }

    pub(crate) fn abended_at(&self, n: usize) -> Option<&Placed>
        ensures { IfSome result (λ it. slice_get self.now.abended.items n ≡ Some (Some it.now)) }
    {
        at(self.abended.as_slice(), n)
    }

    /// Notes a number.
    pub(crate) fn put_idle(&mut self, n: usize, number: usize) -> Result<(), AllocError>
        ensures { NotesIdle n number self.old result self.new }
    {
        put_at(&mut self.idle, n, number)
    }

    /// Notes what a step comes to while no ABEND came, and after one.
    fn put_calm(&mut self, n: usize, placed: Placed) -> Result<(), AllocError>
        ensures { NotesPlaced n false placed self.old result self.new }
    {
        put_at(&mut self.calm, n, placed)
    }

    fn put_abended(&mut self, n: usize, placed: Placed) -> Result<(), AllocError>
        ensures { NotesPlaced n true placed self.old result self.new }
    {
        put_at(&mut self.abended, n, placed)
    }

    pub(crate) fn put_placed(
        &mut self,
        n: usize,
        abended: bool,
        placed: Placed,
    ) -> Result<(), AllocError>
        ensures { NotesPlaced n abended placed self.old result self.new }
    {
        match abended {
            true => self.put_abended(n, placed),
            false => self.put_calm(n, placed),
        }
    }
}
