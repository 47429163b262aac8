//! A deck's steps, call by call. (GC28-6704, "Cataloged and in-stream procedures")
ghost use Rattle.std.specs.Prelude.{◌≡◌, ◌+◌, ◌++◌, ℕ, All, IfOk, List, OnOk, map, is_some};
ghost use Rattle.std.specs.Bool.{OnTrue};
ghost use Rattle.std.specs.List.{list_any};
ghost use Rattle.value_core.specs.Reads.{Gives};
ghost use Rattle.jcl_dds.specs.Merging.{by_itself};
ghost use Rattle.jcl_procs.specs.declared.step.FlatStep.{FlatStep};
ghost use Rattle.jcl_procs.specs.Counting.{IsKnown, IsLeft, KeepsFirst, Tells, counted, is_over, up_to, called_with};
ghost use Rattle.jcl_procs.specs.Expansions.{called, flat_from, plain_step, steps_by};
ghost use Rattle.jcl_procs.specs.Remembering.{IsRemembered};

use crate::bodies::{Sources, body_named};
use crate::calls::{Caller, condition_or_none};
use crate::conditions::override_conditions;
use crate::known::{Call, Known, tell_call};
use crate::overriding::override_dds;
use crate::remembered::{Remembered, steps_at};
use crate::step::FlatStep;
use jcl_cards::exec::{ExecCard, Runs};
use jcl_dds::dd::DdCard;
use jcl_dds::merging::settle_dd;
use jcl_deck::deck::{DeckStep, Procedure};
use jcl_plan::fault::{Cause, StatementFault};
use jcl_symbols::symbol::Symbol;
use jname_core::name8::Name8;
use plain::listed::Listed;
use proc_library::library::ProcLibrary;
use std::alloc::{AllocError, Global};
use std::collections::VecDeque;
use value_core::refusal::ReadError;

/// The steps of a deck, up to a number of them.
#[derive(Drop)]
pub enum Expansion {
    Steps(Listed<FlatStep>),
    /// There are more. None is kept.
    TooMany,
}

/// How far the steps of a deck were read, which count from 1. It tells where to look for what brings a refusal, and no more.
#[derive(Clone, Copy)]
pub struct Reached {
    /// The step that was read last.
    pub step: usize,
    /// The last one with which there were not too many.
    pub kept: usize,
}

/// A step of the deck that calls a procedure.
#[derive(Clone, Copy)]
struct StepCall<'a> {
    /// Its place, from 1.
    place: usize,
    exec: &'a ExecCard,
    /// The name of the procedure.
    name: Name8,
    /// The symbols to which it gives values.
    symbols: &'a [Symbol],
}

/// A call: the procedure's steps, then its overrides.
fn called(
    alloc: Global,
    sources: &Sources<'_>,
    remembered: &mut Vec<Remembered>,
    call: &StepCall<'_>,
    dds: Listed<DdCard>,
    later: &VecDeque<DeckStep>,
) -> Result<Listed<FlatStep>, ReadError>
    requires { All (IsRemembered sources.now.library.now sources.now.procedures.now) remembered.old.items }
    ensures gives { Gives result (called_with sources.now.library.now sources.now.procedures.now call.now dds) }
    ensures remembered { OnOk result (All (IsRemembered sources.now.library.now sources.now.procedures.now) remembered.new.items) }
{
    let body = body_named(alloc, sources, call.name)?;
    let caller = Caller {
        name: call.exec.name,
        place: call.place,
        symbols: call.symbols,
        own_symbols: body.symbols.as_slice(),
    };
    let steps = steps_at(
        alloc,
        sources,
        &caller,
        body.statements,
        call.name,
        remembered,
        later,
    )?;
    let changed = override_conditions(steps, call.exec)?;
    override_dds(alloc, changed, dds)
}

/// Whether a DD is for a procedure's step.
fn some_qualified(dds: &[DdCard]) -> bool
    ensures { result ≡ list_any (λ dd. is_some dd.qualifier) dds.now }
{
    dds.iter().any(|dd| dd.qualifier.is_some())
}

fn settle_each(dds: &mut [DdCard])
    ensures { dds.new ≡ map by_itself dds.old }
{
    for dd in dds.iter_mut() {
        settle_dd(dd);
    }
}

/// The DDs of a step of the deck itself.
fn each_by_itself(dds: Listed<DdCard>) -> Listed<DdCard>
    ensures { result ≡ map by_itself dds }
{
    let mut own = dds.into_vec();
    settle_each(own.as_mut_slice());
    Listed::new(own)
}

/// A step of the deck itself: no DD of it is for a procedure's step.
fn plain_step(
    alloc: Global,
    exec: &ExecCard,
    dds: Listed<DdCard>,
    program: Name8,
) -> Result<Listed<FlatStep>, ReadError>
    ensures { Gives result (plain_step exec.now dds program) }
{
    if some_qualified(dds.as_slice()) {
        return Err(ReadError::Refused(Cause::P(StatementFault::NoSuchProcedureStep)));
    }
    let step = FlatStep {
        name: exec.name,
        procedure_step: None,
        call: None,
        program,
        condition: condition_or_none(&exec.condition),
        dds: each_by_itself(dds),
    };
    let mut steps = Vec::with_capacity(alloc, 1)?;
    steps.push_reserved(step);
    Ok(Listed::new(steps))
}

/// The steps of a deck's step, before these others.
fn steps_by(
    alloc: Global,
    sources: &Sources<'_>,
    remembered: &mut Vec<Remembered>,
    place: usize,
    exec: &ExecCard,
    dds: Listed<DdCard>,
    later: &VecDeque<DeckStep>,
) -> Result<Listed<FlatStep>, ReadError>
    requires { All (IsRemembered sources.now.library.now sources.now.procedures.now) remembered.old.items }
    ensures gives { Gives result (steps_by exec.now.runs sources.now.library.now sources.now.procedures.now place (record { exec = exec.now; dds = dds })) }
    ensures remembered { OnOk result (All (IsRemembered sources.now.library.now sources.now.procedures.now) remembered.new.items) }
{
    match &exec.runs {
        Runs::Program(name) => plain_step(alloc, exec, dds, *name),
        Runs::Procedure { name, symbols } => {
            let call = StepCall {
                place,
                exec,
                name: *name,
                symbols: symbols.as_slice(),
            };
            called(alloc, sources, remembered, &call, dds, later)
        }
    }
}

/// How many steps a step of the deck brings, or its refusal. None is kept.
fn tell_step(
    alloc: Global,
    sources: &Sources<'_>,
    known: &mut Vec<Known>,
    remembered: &mut Vec<Remembered>,
    place: usize,
    step: DeckStep,
    later: &VecDeque<DeckStep>,
) -> Result<usize, ReadError>
    requires known { All (IsKnown sources.now.library.now sources.now.procedures.now) known.old.items }
    requires remembered { All (IsRemembered sources.now.library.now sources.now.procedures.now) remembered.old.items }
    ensures tells { Tells result (steps_by step.exec.runs sources.now.library.now sources.now.procedures.now place step) }
    ensures known { OnOk result (All (IsKnown sources.now.library.now sources.now.procedures.now) known.new.items) }
    ensures remembered { OnOk result (All (IsRemembered sources.now.library.now sources.now.procedures.now) remembered.new.items) }
{
    let DeckStep { exec, dds } = step;
    if let Runs::Procedure { name, symbols } = &exec.runs {
        if exec.named_steps.as_slice().is_empty() && dds.as_slice().len() <= 1 {
            let call = Call {
                place,
                exec: &exec,
                dds: dds.as_slice(),
                name: *name,
                symbols: symbols.as_slice(),
            };
            return tell_call(alloc, sources, known, &call);
        }
    }
    let found = steps_by(alloc, sources, remembered, place, &exec, dds, later)?;
    Ok(found.len())
}

/// Whether no steps are kept.
fn is_many(expansion: &Expansion) -> bool
    ensures { OnTrue result (expansion.now ≡ Expansion.TooMany) }
{
    match expansion {
        Expansion::Steps(_) => false,
        Expansion::TooMany => true,
    }
}

/// Puts steps behind others. The first ones are taken over with their memory.
fn put_behind(flat: &mut Vec<FlatStep>, steps: Listed<FlatStep>) -> Result<(), AllocError>
    ensures { OnOk result (flat.new.items ≡ flat.old.items ++ steps) }
{
    if flat.is_empty() {
        *flat = steps.into_vec();
        return Ok(());
    }
    let mut steps = steps.into_vec();
    flat.append(&mut steps)?;
    Ok(())
}

/// The steps so far with those that come next.
fn with_steps(
    expansion: Expansion,
    most: usize,
    steps: Listed<FlatStep>,
) -> Result<Expansion, AllocError>
    ensures few { (so_far : List FlatStep) → expansion ≡ up_to most so_far → IfOk result (λ now. now ≡ up_to most (so_far ++ steps)) }
    ensures many { expansion ≡ Expansion.TooMany → IfOk result (λ now. now ≡ Expansion.TooMany) }
{
    let Expansion::Steps(so_far) = expansion else {
        return Ok(Expansion::TooMany);
    };
    if steps.len() > most.saturating_sub(so_far.len()) {
        return Ok(Expansion::TooMany);
    }
    let mut flat = so_far.into_vec();
    put_behind(&mut flat, steps)?;
    Ok(Expansion::Steps(Listed::new(flat)))
}

/// The last step with which there were not too many, behind the one that was read.
fn kept_to(expansion: &Expansion, place: usize, before: usize) -> usize {
    match expansion {
        Expansion::Steps(_) => place,
        Expansion::TooMany => before,
    }
}

/// What is kept before the first step is read. Each step of a deck brings one at least.
fn kept_first(alloc: Global, most: usize, steps: &[DeckStep]) -> Expansion
    ensures { KeepsFirst most steps.now result }
{
    if steps.len() > most {
        Expansion::TooMany
    } else {
        Expansion::Steps(Listed::empty(alloc))
    }
}

/// The steps of a deck in order, those of the procedures that it calls in their places, up to so many, or the first refusal, call by call.
pub fn expand(
    alloc: Global,
    library: &ProcLibrary,
    procedures: &[Procedure],
    steps: Listed<DeckStep>,
    most: usize,
) -> Result<Expansion, ReadError>
    ensures { Gives result (counted most (flat_from library.now procedures.now 1 steps)) }
{
    let mut reached = Reached { step: 0, kept: 0 };
    expand_to(alloc, library, procedures, steps, most, &mut reached)
}

/// The same, and how far the steps were read.
pub fn expand_to(
    alloc: Global,
    library: &ProcLibrary,
    procedures: &[Procedure],
    steps: Listed<DeckStep>,
    most: usize,
    reached: &mut Reached,
) -> Result<Expansion, ReadError>
    ensures { Gives result (counted most (flat_from library.now procedures.now 1 steps)) }
{
    let sources = Sources {
        library,
        procedures,
    };
    let mut expansion = kept_first(alloc, most, steps.as_slice());
    let mut known = Vec::new(alloc);
    let mut remembered = Vec::new(alloc);
    let mut later = VecDeque::from(steps.into_vec());
    let mut place = 0;
    while let Some(step) = later.pop_front() {
        place += 1;
        reached.step = place;
        if is_many(&expansion) {
            tell_step(
                alloc,
                &sources,
                &mut known,
                &mut remembered,
                place,
                step,
                &later,
            )?;
            continue;
        }
        let DeckStep { exec, dds } = step;
        let found = steps_by(alloc, &sources, &mut remembered, place, &exec, dds, &later)?;
        expansion = with_steps(expansion, most, found)?;
        reached.kept = kept_to(&expansion, place, reached.kept);
    }
    Ok(expansion)
}

/// How many more steps there may be behind some; none where there are too many.
fn left_behind(left: Option<usize>, count: usize) -> Option<usize>
    ensures { (most so_far : ℕ) → IsLeft most so_far left → IsLeft most (so_far + count) result }
{
    match left {
        Some(left) => left.checked_sub(count),
        None => None,
    }
}

/// Whether the steps of a deck are more than so many, or the first refusal, call by call. None is kept.
pub fn is_over(
    alloc: Global,
    library: &ProcLibrary,
    procedures: &[Procedure],
    steps: Listed<DeckStep>,
    most: usize,
) -> Result<bool, ReadError>
    ensures { Gives result (is_over most (flat_from library.now procedures.now 1 steps)) }
{
    let sources = Sources {
        library,
        procedures,
    };
    let mut known = Vec::new(alloc);
    let mut remembered = Vec::new(alloc);
    let mut later = VecDeque::from(steps.into_vec());
    let mut left = Some(most);
    let mut place = 0;
    while let Some(step) = later.pop_front() {
        place += 1;
        let count = tell_step(
            alloc,
            &sources,
            &mut known,
            &mut remembered,
            place,
            step,
            &later,
        )?;
        left = left_behind(left, count);
    }
    Ok(left.is_none())
}
