//! The earliest stop of a part.
ghost use Rattle.std.specs.Prelude.{◌≡◌, ◌∷◌, ◌++◌, [], nat_lt, IfOk, if◌then◌else◌};
ghost use Rattle.path_search.specs.Stops.{IsReport, earlier, with_branch, with_crossed};

use crate::trail::{Link, path_to};
use crate::verdict::RiskReport;
use jcl_plan::outcome::{Abend, Code, Outcome};
use plain::listed::Listed;
use std::alloc::{AllocError, Global};
use view_domain::crossed::{Branch, Crossed, Stop};

/// A stop, the number of a view before the part from which it is met, and how the part's step ends there, if it does.
#[derive(Clone, Copy)]
pub struct Found {
    pub stop: Stop,
    pub parent: usize,
    pub outcome: Outcome,
}

/// Keeps the earlier of two stops, of equal ones the first that was found.
fn note(best: &mut Option<Found>, found: Found)
    ensures { best.new ≡ earlier best.old found }
{
    let is_earlier = match best {
        Some(there) => found.stop.at < there.stop.at,
        None => true,
    };
    if is_earlier {
        *best = Some(found);
    }
}

/// Notes the stop behind a step's end, if there is one.
fn note_branch<V: Drop>(
    best: &mut Option<Found>,
    branch: &Branch<V>,
    parent: usize,
    outcome: Outcome,
)
    ensures { best.new ≡ with_branch parent outcome branch.now best.old }
{
    match branch {
        Branch::Stops(stop) => {
            let found = Found {
                stop: *stop,
                parent,
                outcome,
            };
            note(best, found);
        }
        Branch::Leads(_) => {}
    }
}

/// Notes the stops in what a part comes to from a view.
pub(crate) fn note_crossed<V: Drop>(best: &mut Option<Found>, crossed: &Crossed<V>, parent: usize)
    ensures { best.new ≡ with_crossed parent crossed.now best.old }
{
    match crossed {
        Crossed::Stops(stop) => {
            let found = Found {
                stop: *stop,
                parent,
                outcome: Outcome::Code(Code::zero()),
            };
            note(best, found);
        }
        Crossed::Ends => {}
        Crossed::Passes { fate: _, view: _ } => {}
        Crossed::Runs {
            made: _,
            by_code,
            by_abend,
        } => {
            note_branch(best, by_code, parent, Outcome::Code(Code::zero()));
            note_branch(
                best,
                by_abend,
                parent,
                Outcome::Abend(Abend::User(Code::zero())),
            );
        }
    }
}

/// A path, and behind it the end of the part's step, if that has ended at the stop.
fn with_end(
    alloc: Global,
    path: &[Outcome],
    part: usize,
    ended: usize,
    outcome: Outcome,
) -> Result<Vec<Outcome>, AllocError>
    ensures { IfOk result (λ longer. longer.items ≡ path.now ++ (if nat_lt part ended then outcome ∷ [] else [])) }
{
    let mut longer = Vec::from_slice(alloc, path)?;
    if part < ended {
        longer.push(outcome)?;
    }
    Ok(longer)
}

/// What is told of the fault: the path leads to the view from which it is met, and goes on with the part's step if that has ended.
pub(crate) fn report(
    alloc: Global,
    trail: &[Listed<Link>],
    part: usize,
    found: Found,
) -> Result<RiskReport, AllocError>
    ensures { IfOk result (λ report. IsReport trail.now part found report) }
{
    let Found {
        stop,
        parent,
        outcome,
    } = found;
    let Stop {
        at: _,
        step,
        dd,
        ended,
        fault,
    } = stop;
    let before = path_to(alloc, trail, parent)?;
    let path = with_end(alloc, before.as_slice(), part, ended, outcome)?;
    Ok(RiskReport {
        fault,
        step,
        dd,
        path,
    })
}
