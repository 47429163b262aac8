//! The job of a deck.
ghost use Rattle.value_core.specs.Reads.{Gives};
ghost use Rattle.jcl_job.specs.Jobs.{job_in, job_of, statements_in};

use card_core::read::{ReadError as CardError, read_statements};
use card_core::statement::Statement;
use jcl_deck::deck::Deck;
use jcl_deck::read::read_deck;
use jcl_plan::fault::Cause;
use jcl_plan::plan::{JobPlan, MOST_STEPS};
use jcl_procs::expansion::expand;
use jcl_refs::plan::plan_of;
use jcl_refs::units::UnitNames;
use plain::lent::Lent;
use plain::listed::Listed;
use proc_library::library::ProcLibrary;
use std::alloc::Global;
use value_core::refusal::ReadError;

/// The statements that lines are, or the fault of the cards.
fn statements_in(alloc: Global, lines: &[Lent<'_>]) -> Result<Listed<Statement>, ReadError>
    ensures { Gives result (statements_in lines.now) }
{
    match read_statements(alloc, lines) {
        Ok(statements) => Ok(Listed::new(statements)),
        Err(CardError::Fault(fault)) => Err(ReadError::Refused(Cause::C(fault.number()))),
        Err(CardError::Memory) => Err(ReadError::Memory),
    }
}

/// The job of a deck.
fn job_in(
    alloc: Global,
    units: &UnitNames,
    library: &ProcLibrary,
    deck: Deck,
) -> Result<JobPlan, ReadError>
    ensures { Gives result (job_in units.now library.now deck) }
{
    let Deck {
        job,
        procedures,
        steps,
    } = deck;
    let expansion = expand(alloc, library, procedures.as_slice(), steps, MOST_STEPS)?;
    plan_of(alloc, units, job, expansion)
}

/// The job that the lines of a deck denote with these names of units and these procedures, or their first refusal.
pub fn job_of(
    alloc: Global,
    units: &UnitNames,
    library: &ProcLibrary,
    deck: &[Lent<'_>],
) -> Result<JobPlan, ReadError>
    ensures { Gives result (job_of units.now library.now deck.now) }
{
    let statements = statements_in(alloc, deck)?;
    let deck = read_deck(alloc, statements.into_vec())?;
    job_in(alloc, units, library, deck)
}
