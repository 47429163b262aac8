//! Why and where a deck is refused.
ghost use Rattle.std.specs.Prelude.{◌≡◌, ℕ, List, Err, IfOk, Ok, Some, is_err, true};
ghost use Rattle.card_core.specs.Deck.{statements_of};
ghost use Rattle.proc_library.specs.declared.library.LibraryProcedure.{LibraryProcedure};
ghost use Rattle.jcl_deck.specs.Decks.{deck_of};
ghost use Rattle.deck_places.specs.Cards.{walk_of};
ghost use Rattle.deck_places.specs.Places.{IsJudged};
ghost use Rattle.deck_places.specs.Judging.{AreJudged, AreRead, Has};

use crate::copies::copy_of;
use crate::part::Part;
use crate::refusing::{Sources, full_exec, plan_part};
use crate::stands::{StepOrigin, origins_in};
use crate::walk::walk_lines;
use card_core::fault::CardFault;
use card_core::read::{ReadError as CardError, read_statements};
use card_core::statement::{Card, Statement};
use jcl_cards::job::JobCard;
use jcl_deck::deck::Deck;
use jcl_deck::place::Place;
use jcl_plan::fault::Cause;
use jcl_plan::plan::{JobPlan, MOST_STEPS};
use jcl_procs::expansion::{Expansion, Reached, expand_to};
use jcl_refs::plan::plan_of;
use jcl_refs::units::UnitNames;
use proc_library::library::ProcLibrary;
use std::alloc::{AllocError, Global};
use value_core::refusal::ReadError;

/// Where a deck is refused. Cards and statements count from 0.
#[derive(Clone, Copy, PartialEq, Eq)]
pub enum At {
    /// A card, of which no statement can be made.
    Card(usize),
    /// A statement, where it stands.
    Statement(usize),
    /// The deck's end.
    End,
    /// A statement with which a refusal of the deck's calls comes: it calls a procedure, or is for a step of one.
    Call(usize),
    /// A part of the plan, and a statement with which a refusal of it comes.
    Planned(u8, usize),
}

/// What a deck is found to be.
#[derive(Drop)]
pub enum Judged {
    /// A job, and where its steps come from.
    Taken(JobPlan, Vec<StepOrigin>),
    /// Refused: its first refusal, and where.
    Refused(Cause, At),
}

/// What statements are found to be one by one.
#[derive(Drop)]
pub(crate) enum Read {
    Taken(Place),
    Refused(usize, Cause),
}

/// Reads statements one by one, to the first that is refused.
pub(crate) fn read_all(alloc: Global, statements: &[Statement]) -> Result<Read, AllocError>
    ensures { IfOk result (AreRead statements.now) }
{
    let mut place = Place::start(alloc);
    for (k, statement) in statements.iter().enumerate() {
        match place.take(alloc, copy_of(alloc, statement)?) {
            Ok(()) => {}
            Err(ReadError::Refused(cause)) => return Ok(Read::Refused(k, cause)),
            Err(ReadError::Memory) => return Err(AllocError),
        }
    }
    Ok(Read::Taken(place))
}

/// Judges the steps of a deck.
fn judge_steps(
    alloc: Global,
    sources: &Sources<'_>,
    statements: &[Statement],
    job: JobCard,
    expansion: Expansion,
    reached: Reached,
) -> Result<Judged, AllocError>
    requires { Has sources.now.library.now statements.now job expansion }
    ensures { IfOk result (AreJudged sources.now.units.now sources.now.library.now statements.now) }
{
    let full = full_exec(&expansion, statements);
    let origins = origins_in(alloc, &expansion)?;
    match plan_of(alloc, sources.units, job, expansion) {
        Ok(plan) => Ok(Judged::Taken(plan, origins)),
        Err(ReadError::Refused(cause)) => {
            let number = plan_part(cause);
            let part = Part::Plan(number);
            let near = sources.near_of(part, statements, reached).or(full);
            let k = sources.bringer(alloc, part, statements, near)?;
            Ok(Judged::Refused(cause, At::Planned(number, k)))
        }
        Err(ReadError::Memory) => Err(AllocError),
    }
}

/// Judges a deck.
fn judge_deck(
    alloc: Global,
    sources: &Sources<'_>,
    statements: &[Statement],
    deck: Deck,
) -> Result<Judged, AllocError>
    requires { deck_of statements.now ≡ Ok deck }
    ensures { IfOk result (AreJudged sources.now.units.now sources.now.library.now statements.now) }
{
    let Deck {
        job,
        procedures,
        steps,
    } = deck;
    let procedures = procedures.as_slice();
    let mut reached = Reached { step: 0, kept: 0 };
    let library = sources.library;
    match expand_to(alloc, library, procedures, steps, MOST_STEPS, &mut reached) {
        Ok(expansion) => judge_steps(alloc, sources, statements, job, expansion, reached),
        Err(ReadError::Refused(cause)) => {
            let near = sources.near_of(Part::Calls, statements, reached);
            let k = sources.bringer(alloc, Part::Calls, statements, near)?;
            Ok(Judged::Refused(cause, At::Call(k)))
        }
        Err(ReadError::Memory) => Err(AllocError),
    }
}

/// Judges statements.
fn judge_statements(
    alloc: Global,
    sources: &Sources<'_>,
    statements: &[Statement],
) -> Result<Judged, AllocError>
    ensures { IfOk result (AreJudged sources.now.units.now sources.now.library.now statements.now) }
{
    let place = match read_all(alloc, statements)? {
        Read::Taken(place) => place,
        Read::Refused(k, cause) => return Ok(Judged::Refused(cause, At::Statement(k))),
    };
    match place.end() {
        Ok(deck) => judge_deck(alloc, sources, statements, deck),
        Err(cause) => Ok(Judged::Refused(cause, At::End)),
    }
}

/// The card that is refused.
fn refused_card(alloc: Global, lines: &[Card<'_>]) -> Result<usize, AllocError>
    requires { is_err (statements_of lines.now) ≡ true }
    ensures { IfOk result (λ n. (walk_of lines.now).refused ≡ Some n) }
{
    match walk_lines(alloc, lines)?.refused {
        Some(n) => Ok(n),
        None => unreachable!(),
    }
}

/// Judges cards of which no statements can be made.
fn judge_cards(alloc: Global, lines: &[Card<'_>], fault: CardFault) -> Result<Judged, AllocError>
    requires { statements_of lines.now ≡ Err fault }
    ensures { (units : List (List ℕ)) (library : List LibraryProcedure) → IfOk result (IsJudged units library lines.now) }
{
    let n = refused_card(alloc, lines)?;
    Ok(Judged::Refused(Cause::C(fault.number()), At::Card(n)))
}

/// The same as of `judge`. A statement that brings a refusal is looked for near this one first, if one is given.
pub fn judge_near(
    alloc: Global,
    units: &UnitNames,
    library: &ProcLibrary,
    lines: &[Card<'_>],
    near: Option<usize>,
) -> Result<Judged, AllocError>
    ensures { IfOk result (IsJudged units.now library.now lines.now) }
{
    let sources = Sources {
        units,
        library,
        near,
    };
    match read_statements(alloc, lines) {
        Ok(statements) => judge_statements(alloc, &sources, statements.as_slice()),
        Err(CardError::Fault(fault)) => judge_cards(alloc, lines, fault),
        Err(CardError::Memory) => Err(AllocError),
    }
}

/// The job that the lines of a deck denote with these names of units and these procedures, or their first refusal, and where it is.
pub fn judge(
    alloc: Global,
    units: &UnitNames,
    library: &ProcLibrary,
    lines: &[Card<'_>],
) -> Result<Judged, AllocError>
    ensures { IfOk result (IsJudged units.now library.now lines.now) }
{
    judge_near(alloc, units, library, lines, None)
}
