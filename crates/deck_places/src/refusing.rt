//! Which statement brings a refusal of a deck's calls or of its plan.
ghost use Rattle.std.specs.Prelude.{◌≡◌, ◌<◌, ◌+◌, IfOk, true};
ghost use Rattle.deck_places.specs.Cuts.{BringsRefusal, cut, plan_part, refuses, refuses_deck};

use crate::copies::cut;
use crate::part::Part;
use card_core::statement::Statement;
use jcl_deck::deck::Deck;
use jcl_deck::operation::{Operation, operation_of};
use jcl_deck::read::read_deck;
use jcl_plan::fault::{Cause, StatementFault};
use jcl_plan::plan::{MOST_DDS, MOST_STEPS};
use jcl_procs::expansion::{Expansion, Reached, expand, is_over};
use jcl_procs::step::FlatStep;
use jcl_refs::plan::plan_of;
use jcl_refs::units::UnitNames;
use proc_library::library::ProcLibrary;
use std::alloc::{AllocError, Global};
use value_core::refusal::ReadError;

/// What a deck is read with: the names of units, and the procedures of the session.
#[derive(Clone, Copy)]
pub(crate) struct Sources<'a> {
    pub(crate) units: &'a UnitNames,
    pub(crate) library: &'a ProcLibrary,
    /// The statement near which one that brings a refusal is looked for first.
    pub(crate) near: Option<usize>,
}

/// How many statements are tried next of those between two numbers: up to one near which the last that is wanted stands, then ever more behind it; else half.
pub(crate) fn next_count(low: usize, high: usize, near: Option<usize>, width: usize) -> usize
    requires { low + 1 < high }
    ensures above { low < result }
    ensures below { result < high }
{
    let half = low + (high - low) / 2;
    let Some(near) = near else { return half };
    let wanted = if low < near {
        near
    } else {
        low.saturating_add(width)
    };
    if low < wanted && wanted < high {
        wanted
    } else {
        half
    }
}

/// How far from the last one that was tried the next is: one behind the statement that was looked at first, then ever more.
fn next_width(width: usize, tried: usize, near: Option<usize>) -> usize {
    match near {
        Some(near) if tried == near => 1,
        _ => width.saturating_mul(2),
    }
}

/// The EXEC statement of a step of the deck, which counts from 1: those of procedures are not among them.
fn exec_of(statements: &[Statement], step: usize) -> Option<usize> {
    let mut left = step;
    let mut is_inside = false;
    for (k, statement) in statements.iter().enumerate() {
        match operation_of(statement.operation.as_slice()) {
            Operation::IsProc => is_inside = true,
            Operation::IsPend => is_inside = false,
            Operation::IsExec if !is_inside => {
                if left <= 1 {
                    return Some(k);
                }
                left -= 1;
            }
            _ => {}
        }
    }
    None
}

/// The first step of a deck, which counts from 1, by which a step has more DDs than one may have.
fn first_full(steps: &[FlatStep]) -> Option<usize> {
    let mut place: usize = 0;
    for step in steps {
        place = step.call.unwrap_or(place.saturating_add(1));
        if step.dds.len() > MOST_DDS {
            return Some(place);
        }
    }
    None
}

/// The EXEC statement of that step: a refusal of the plan comes with it most likely.
pub(crate) fn full_exec(expansion: &Expansion, statements: &[Statement]) -> Option<usize> {
    let Expansion::Steps(steps) = expansion else {
        return None;
    };
    exec_of(statements, first_full(steps.as_slice())?)
}

/// The first step of a deck with which there may be too many: where none was kept, the deck itself has more than there may be.
fn first_over(reached: Reached) -> usize {
    if reached.kept == 0 {
        MOST_STEPS + 1
    } else {
        reached.kept.saturating_add(1)
    }
}

/// The part of a plan that a refusal of it belongs to.
pub(crate) fn plan_part(cause: Cause) -> u8
    ensures { result ≡ plan_part cause }
{
    match cause {
        Cause::P(StatementFault::TooManySteps) => 1,
        Cause::P(StatementFault::TooManyNames) => 3,
        Cause::P(StatementFault::UnknownUnit) => 4,
        _ => 2,
    }
}

impl<'a> Sources<'a> {
    /// Whether a deck is refused by its calls. None of its steps is kept.
    fn refuses_calls(&self, alloc: Global, deck: Deck) -> Result<bool, AllocError>
        ensures { IfOk result (λ refused. refused ≡ refuses_deck Part.Calls self.now.units.now self.now.library.now deck) }
    {
        let Deck {
            procedures,
            steps,
            ..
        } = deck;
        match expand(alloc, self.library, procedures.as_slice(), steps, 0) {
            Ok(_) => Ok(false),
            Err(ReadError::Refused(_)) => Ok(true),
            Err(ReadError::Memory) => Err(AllocError),
        }
    }

    /// Whether a deck is refused for the number of its steps. None is kept.
    fn refuses_number(&self, alloc: Global, deck: Deck) -> Result<bool, AllocError>
        ensures { IfOk result (λ refused. refused ≡ refuses_deck (Part.Plan 1) self.now.units.now self.now.library.now deck) }
    {
        let Deck {
            procedures,
            steps,
            ..
        } = deck;
        match is_over(
            alloc,
            self.library,
            procedures.as_slice(),
            steps,
            MOST_STEPS,
        ) {
            Ok(over) => Ok(over),
            Err(ReadError::Refused(_)) => Ok(false),
            Err(ReadError::Memory) => Err(AllocError),
        }
    }

    /// Whether a deck is refused by a part of its plan.
    fn refuses_plan(&self, alloc: Global, number: u8, deck: Deck) -> Result<bool, AllocError>
        ensures { IfOk result (λ refused. refused ≡ refuses_deck (Part.Plan number) self.now.units.now self.now.library.now deck) }
    {
        let Deck {
            job,
            procedures,
            steps,
        } = deck;
        let procedures = procedures.as_slice();
        let expansion = match expand(alloc, self.library, procedures, steps, MOST_STEPS) {
            Ok(expansion) => expansion,
            Err(ReadError::Refused(_)) => return Ok(false),
            Err(ReadError::Memory) => return Err(AllocError),
        };
        match plan_of(alloc, self.units, job, expansion) {
            Ok(_) => Ok(false),
            Err(ReadError::Refused(cause)) => Ok(plan_part(cause) == number),
            Err(ReadError::Memory) => Err(AllocError),
        }
    }

    /// Whether a deck is refused by its calls, or by a part of its plan.
    fn refuses_deck(&self, alloc: Global, part: Part, deck: Deck) -> Result<bool, AllocError>
        ensures { IfOk result (λ refused. refused ≡ refuses_deck part self.now.units.now self.now.library.now deck) }
    {
        match part {
            Part::Calls => self.refuses_calls(alloc, deck),
            Part::Plan(1) => self.refuses_number(alloc, deck),
            Part::Plan(number) => self.refuses_plan(alloc, number, deck),
        }
    }

    /// Whether the deck that is cut behind so many statements is refused so.
    fn refuses_cut(
        &self,
        alloc: Global,
        part: Part,
        statements: &[Statement],
        count: usize,
    ) -> Result<bool, AllocError>
        ensures { IfOk result (λ refused. refused ≡ refuses part self.now.units.now self.now.library.now (cut count statements.now)) }
    {
        let kept = cut(alloc, statements, count)?;
        match read_deck(alloc, kept) {
            Ok(deck) => self.refuses_deck(alloc, part, deck),
            Err(ReadError::Refused(_)) => Ok(false),
            Err(ReadError::Memory) => Err(AllocError),
        }
    }

    /// The statement near which the one that brings a refusal is looked for first: where the steps were read to.
    pub(crate) fn near_of(
        &self,
        part: Part,
        statements: &[Statement],
        reached: Reached,
    ) -> Option<usize> {
        match part {
            Part::Calls => exec_of(statements, reached.step),
            Part::Plan(1) => exec_of(statements, first_over(reached)),
            Part::Plan(_) => self.near,
        }
    }

    /// A statement with which a refusal comes that the whole deck has, looked for near this one first.
    pub(crate) fn bringer(
        &self,
        alloc: Global,
        part: Part,
        statements: &[Statement],
        near: Option<usize>,
    ) -> Result<usize, AllocError>
        requires { refuses part self.now.units.now self.now.library.now statements.now ≡ true }
        ensures { IfOk result (BringsRefusal part self.now.units.now self.now.library.now statements.now) }
    {
        let mut low = 0;
        let mut high = statements.len();
        let mut width: usize = 1;
        while low + 1 < high {
            let middle = next_count(low, high, near, width);
            if self.refuses_cut(alloc, part, statements, middle)? {
                high = middle;
            } else {
                low = middle;
            }
            width = next_width(width, middle, near);
        }
        Ok(low)
    }
}
