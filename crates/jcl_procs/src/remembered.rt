//! Procedures that are called again: of their DDs those are remembered that are the same at each call.
ghost use Rattle.std.specs.Prelude.{◌≡◌, ◌∷◌, ◌++◌, [], All, IfSome, OnOk};
ghost use Rattle.value_core.specs.Reads.{Gives};
ghost use Rattle.jcl_deck.specs.declared.deck.Procedure as in_stream;
ghost use Rattle.jcl_procs.specs.Calling.{call_of};
ghost use Rattle.jcl_procs.specs.Calls.{steps_of};
ghost use Rattle.jcl_procs.specs.Remembering.{IsBody, IsRemembered, IsRememberedOf};

use crate::bodies::Sources;
use crate::calls::{Caller, steps_again, steps_from, steps_remembered};
use crate::step::FlatStep;
use card_core::statement::Statement;
use jcl_cards::exec::Runs;
use jcl_dds::dd::DdCard;
use jcl_deck::deck::DeckStep;
use jname_core::name8::Name8;
use plain::listed::Listed;
use std::alloc::{AllocError, Global};
use std::collections::VecDeque;
use value_core::refusal::ReadError;

/// How many procedures are remembered.
const MOST_REMEMBERED: usize = 64;

/// How many statements a procedure has at least that is remembered. A shorter one is as soon read.
const FEWEST_STATEMENTS: usize = 64;

/// A procedure, and the DDs that its statements bring.
#[derive(Drop)]
pub(crate) struct Remembered {
    pub(crate) name: Name8,
    /// That of each statement, where it is the same at each call.
    pub(crate) dds: Listed<Option<DdCard>>,
}

/// The procedure of a name, if it is remembered.
fn remembered_of<'a>(remembered: &'a [Remembered], name: Name8) -> Option<&'a Remembered>
    ensures { IfSome result (λ found. IsRememberedOf remembered.now name found.now) }
{
    for other in remembered {
        if other.name.as_slice() == name.as_slice() {
            return Some(other);
        }
    }
    None
}

fn calls(step: &DeckStep, procedure: Name8) -> bool {
    match &step.exec.runs {
        Runs::Program(_) => false,
        Runs::Procedure { name, .. } => name.as_slice() == procedure.as_slice(),
    }
}

/// Whether one of the next steps calls a procedure, of as many as there are statements in it at most: so to look for it costs little beside reading it.
fn is_called_soon(later: &VecDeque<DeckStep>, most: usize, procedure: Name8) -> bool {
    let (front, back) = later.as_slices();
    front.iter().take(most).any(|step| calls(step, procedure))
        || back.iter().take(most).any(|step| calls(step, procedure))
}

/// Whether a procedure is to be remembered from now on.
fn is_worth_it(
    remembered: &[Remembered],
    statements: &[Statement],
    procedure: Name8,
    later: &VecDeque<DeckStep>,
) -> bool {
    let count = statements.len();
    count >= FEWEST_STATEMENTS
        && remembered.len() < MOST_REMEMBERED
        && is_called_soon(later, count, procedure)
}

fn keep(
    remembered: &mut Vec<Remembered>,
    name: Name8,
    dds: Listed<Option<DdCard>>,
) -> Result<(), AllocError>
    ensures { OnOk result (remembered.new.items ≡ remembered.old.items ++ record { name = name; dds = dds } ∷ []) }
{
    remembered.push(Remembered { name, dds })?;
    Ok(())
}

/// The steps that the statements of a procedure bring at a call; from then on it is remembered.
fn steps_at_first(
    alloc: Global,
    sources: &Sources<'_>,
    caller: &Caller<'_>,
    statements: &[Statement],
    procedure: Name8,
    remembered: &mut Vec<Remembered>,
) -> Result<Listed<FlatStep>, ReadError>
    requires body { IsBody sources.now.library.now sources.now.procedures.now procedure statements.now }
    requires remembered { All (IsRemembered sources.now.library.now sources.now.procedures.now) remembered.old.items }
    ensures gives { Gives result (steps_of (call_of caller.now) statements.now) }
    ensures remembered { OnOk result (All (IsRemembered sources.now.library.now sources.now.procedures.now) remembered.new.items) }
{
    let mut dds = Vec::with_capacity(alloc, statements.len())?;
    let steps = steps_remembered(alloc, caller, statements, &mut dds)?;
    keep(remembered, procedure, Listed::new(dds))?;
    Ok(steps)
}

/// The steps that the statements of a procedure bring at a call, before these steps of the deck.
pub(crate) fn steps_at(
    alloc: Global,
    sources: &Sources<'_>,
    caller: &Caller<'_>,
    statements: &[Statement],
    procedure: Name8,
    remembered: &mut Vec<Remembered>,
    later: &VecDeque<DeckStep>,
) -> Result<Listed<FlatStep>, ReadError>
    requires body { IsBody sources.now.library.now sources.now.procedures.now procedure statements.now }
    requires remembered { All (IsRemembered sources.now.library.now sources.now.procedures.now) remembered.old.items }
    ensures gives { Gives result (steps_of (call_of caller.now) statements.now) }
    ensures remembered { OnOk result (All (IsRemembered sources.now.library.now sources.now.procedures.now) remembered.new.items) }
{
    if let Some(there) = remembered_of(remembered.as_slice(), procedure) {
        return steps_again(alloc, caller, statements, there.dds.as_slice());
    }
    if is_worth_it(remembered.as_slice(), statements, procedure, later) {
        return steps_at_first(alloc, sources, caller, statements, procedure, remembered);
    }
    steps_from(alloc, caller, statements)
}
