//! Calls whose steps are not kept: how many they are, or for what the call is refused, where its procedure was read at another call.
ghost use Rattle.std.specs.Prelude.{◌≡◌, ◌≤◌, [], All, IfSome, OnOk, length};
ghost use Rattle.std.specs.Bool.{OnTrue};
ghost use Rattle.value_core.specs.Reads.{Gives};
ghost use Rattle.jcl_deck.specs.declared.deck.Procedure as in_stream;
ghost use Rattle.jcl_procs.specs.Counting.{IsKnown, Tells, WasBrought, brought_by, called_by, IsKeptOf, MayKeep};
ghost use Rattle.jcl_procs.specs.Overrides.{dds_overridden};

use crate::bodies::{Sources, body_named, copied_symbols};
use crate::calls::{Caller, steps_of, tell_steps};
use crate::overriding::override_fault;
use crate::step::FlatStep;
use jcl_cards::exec::ExecCard;
use jcl_dds::dd::DdCard;
use jcl_symbols::symbol::Symbol;
use jname_core::name8::Name8;
use plain::listed::Listed;
use std::alloc::{AllocError, Global};
use value_core::refusal::ReadError;

/// How many procedures are kept that were read at a call.
const MOST_KNOWN: usize = 64;

/// A procedure that was read at a call, and the steps that it brought there, before any was overridden.
#[derive(Drop)]
pub(crate) struct Known {
    pub(crate) name: Name8,
    pub(crate) symbols: Listed<Symbol>,
    pub(crate) steps: Listed<FlatStep>,
}

/// A call of a procedure.
#[derive(Clone, Copy)]
pub(crate) struct Call<'a> {
    /// Its place, from 1.
    pub(crate) place: usize,
    pub(crate) exec: &'a ExecCard,
    pub(crate) dds: &'a [DdCard],
    /// The name of the procedure.
    pub(crate) name: Name8,
    /// The symbols to which it gives values.
    pub(crate) symbols: &'a [Symbol],
}

fn same_symbol(a: &Symbol, b: &Symbol) -> bool
    ensures { OnTrue result (a.now ≡ b.now) }
{
    a.name.as_slice() == b.name.as_slice() && a.value.as_slice() == b.value.as_slice()
}

fn same_symbols(a: &[Symbol], b: &[Symbol]) -> bool
    ensures { OnTrue result (a.now ≡ b.now) }
{
    if a.len() != b.len() {
        return false;
    }
    for i in 0..a.len() {
        if !same_symbol(&a[i], &b[i]) {
            return false;
        }
    }
    true
}

/// The procedure of a name, if it is kept.
fn known_of<'a>(known: &'a [Known], name: Name8) -> Option<&'a Known>
    ensures { IfSome result (λ found. IsKeptOf known.now name found.now) }
{
    for other in known {
        if other.name.as_slice() == name.as_slice() {
            return Some(other);
        }
    }
    None
}

/// The steps that a call brings, before any is overridden.
fn steps_brought(
    alloc: Global,
    sources: &Sources<'_>,
    call: &Call<'_>,
) -> Result<Listed<FlatStep>, ReadError>
    ensures { Gives result (brought_by sources.now.library.now sources.now.procedures.now call.now) }
{
    let body = body_named(alloc, sources, call.name)?;
    let caller = Caller {
        name: call.exec.name,
        place: call.place,
        symbols: call.symbols,
        own_symbols: body.symbols.as_slice(),
    };
    steps_of(alloc, caller, body.statements)
}

/// How many steps a call brings, or its refusal, where another call with the same symbols brings these before any is overridden.
fn tell_overrides(steps: &[FlatStep], dds: &[DdCard]) -> Result<usize, ReadError>
    requires steps { 1 ≤ length steps.now }
    requires dds { length dds.now ≤ 1 }
    ensures { Tells result (dds_overridden steps.now dds.now) }
{
    match override_fault(steps, dds) {
        None => Ok(steps.len()),
        Some(cause) => Err(ReadError::Refused(cause)),
    }
}

/// The same of a call before any is overridden, where another one with other symbols was not refused.
fn tell_statements(
    alloc: Global,
    sources: &Sources<'_>,
    call: &Call<'_>,
) -> Result<usize, ReadError>
    requires { WasBrought sources.now.library.now sources.now.procedures.now call.now.name }
    ensures { Tells result (brought_by sources.now.library.now sources.now.procedures.now call.now) }
{
    let body = body_named(alloc, sources, call.name)?;
    let caller = Caller {
        name: call.exec.name,
        place: call.place,
        symbols: call.symbols,
        own_symbols: body.symbols.as_slice(),
    };
    tell_steps(alloc, &caller, body.statements)
}

/// Keeps what a procedure brought, as long as few are kept.
fn keep(
    alloc: Global,
    known: &mut Vec<Known>,
    call: &Call<'_>,
    steps: Listed<FlatStep>,
) -> Result<(), AllocError>
    ensures { OnOk result (MayKeep known.old.items call.now.name call.now.symbols.now steps known.new.items) }
{
    if known.len() < MOST_KNOWN {
        let symbols = copied_symbols(alloc, call.symbols)?;
        known.push(Known {
            name: call.name,
            symbols,
            steps,
        })?;
    }
    Ok(())
}

/// The same of a call whose procedure was read with other symbols.
fn tell_otherwise(alloc: Global, sources: &Sources<'_>, call: &Call<'_>) -> Result<usize, ReadError>
    requires read { WasBrought sources.now.library.now sources.now.procedures.now call.now.name }
    requires dds { length call.now.dds.now ≤ 1 }
    requires names { call.now.exec.now.named_steps ≡ [] }
    ensures { Tells result (called_by sources.now.library.now sources.now.procedures.now call.now) }
{
    if call.dds.is_empty() {
        return tell_statements(alloc, sources, call);
    }
    let steps = steps_brought(alloc, sources, call)?;
    tell_overrides(steps.as_slice(), call.dds)
}

/// The same of a call whose procedure is read for the first time.
fn tell_first(
    alloc: Global,
    sources: &Sources<'_>,
    known: &mut Vec<Known>,
    call: &Call<'_>,
) -> Result<usize, ReadError>
    requires dds { length call.now.dds.now ≤ 1 }
    requires names { call.now.exec.now.named_steps ≡ [] }
    requires known { All (IsKnown sources.now.library.now sources.now.procedures.now) known.old.items }
    ensures tells { Tells result (called_by sources.now.library.now sources.now.procedures.now call.now) }
    ensures known { OnOk result (All (IsKnown sources.now.library.now sources.now.procedures.now) known.new.items) }
{
    let steps = steps_brought(alloc, sources, call)?;
    let count = tell_overrides(steps.as_slice(), call.dds)?;
    keep(alloc, known, call, steps)?;
    Ok(count)
}

/// How many steps a call brings that overrides one DD at most and has no keyword of a single step, or its refusal.
pub(crate) fn tell_call(
    alloc: Global,
    sources: &Sources<'_>,
    known: &mut Vec<Known>,
    call: &Call<'_>,
) -> Result<usize, ReadError>
    requires dds { length call.now.dds.now ≤ 1 }
    requires names { call.now.exec.now.named_steps ≡ [] }
    requires known { All (IsKnown sources.now.library.now sources.now.procedures.now) known.old.items }
    ensures tells { Tells result (called_by sources.now.library.now sources.now.procedures.now call.now) }
    ensures known { OnOk result (All (IsKnown sources.now.library.now sources.now.procedures.now) known.new.items) }
{
    if let Some(there) = known_of(known.as_slice(), call.name) {
        let own = there.symbols.as_slice();
        if same_symbols(own, call.symbols) {
            return tell_overrides(there.steps.as_slice(), call.dds);
        }
        return tell_otherwise(alloc, sources, call);
    }
    tell_first(alloc, sources, known, call)
}
