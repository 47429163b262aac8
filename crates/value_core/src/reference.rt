//! References to DDs and to steps. (GC28-6704, "Backward references")
ghost use Rattle.std.specs.Prelude.{◌≡◌, ◌∷◌, ◌++◌, drop};
ghost use Rattle.std.specs.Option.{option_copied};
ghost use Rattle.jname_core.specs.Grammar.{components_of};
ghost use Rattle.operand_core.specs.Faults.{name_faults, told};
ghost use Rattle.value_core.specs.Reads.{IsRead};
ghost use Rattle.value_core.specs.References.{components_left, dd_reference, is_reference, parts_faults, step_reference};

use crate::reads::{both, name, with_fault};
use jcl_plan::fault::{Cause, StatementFault};
use jname_core::name8::Name8;
use operand_core::fault::{earlier, name_fault, when};
use operand_core::qualified::head_len;

/// An earlier DD, by its name alone, with that of its step, or with those of the step that called a procedure and the procedure's step.
#[derive(Clone, Copy, PartialEq, Eq)]
pub enum DdReference {
    Dd(Name8),
    OfStep {
        step: Name8,
        dd: Name8,
    },
    OfProcedureStep {
        step: Name8,
        procedure_step: Name8,
        dd: Name8,
    },
}

/// An earlier step, by its name, or by those of the step that called a procedure and the procedure's step.
#[derive(Clone, Copy, PartialEq, Eq)]
pub enum StepReference {
    Step(Name8),
    ProcedureStep { step: Name8, procedure_step: Name8 },
}

/// What stands before the first period, and what stands behind it, where there is one.
fn first_component(text: &[u8]) -> (&[u8], Option<&[u8]>)
    ensures { components_of text.now ≡ result.0.now ∷ components_left (option_copied result.1) }
{
    let (first, behind) = text.split_at(head_len(text));
    match behind.split_first() {
        Some((_, rest)) => (first, Some(rest)),
        None => (first, None),
    }
}

/// The fault of the parts of a reference that are too many.
fn further_fault(rest: Option<&[u8]>) -> Option<Cause>
    ensures { result ≡ told (parts_faults 0 (components_left (option_copied rest.entry))) }
{
    let mut fault = None;
    let mut left = rest;
    while let Some(text) = left {
        let (part, behind) = first_component(text);
        fault = earlier(fault, name_fault(part));
        left = behind;
    }
    earlier(
        fault,
        when(rest.is_some(), Cause::P(StatementFault::BadValue)),
    )
}

/// Whether a text begins as a reference to a DD.
pub fn is_reference(text: &[u8]) -> bool
    ensures { result ≡ is_reference text.now }
{
    text.starts_with(b"*.")
}

/// What stands behind the two characters that begin a reference.
fn behind_star(text: &[u8]) -> &[u8]
    ensures { result.now ≡ drop 2 text.now }
{
    match text {
        [_, _, behind @ ..] => behind,
        _ => &[],
    }
}

/// The DD that a reference names, whose first two characters are `*.`.
pub fn dd_reference(text: &[u8]) -> Result<DdReference, Cause>
    ensures { IsRead result (dd_reference text.now) }
{
    let (first, rest) = first_component(behind_star(text));
    let Some(text) = rest else {
        let dd = name(first)?;
        return Ok(DdReference::Dd(dd));
    };
    let (second, rest) = first_component(text);
    let Some(text) = rest else {
        let (step, dd) = both(name(first), name(second))?;
        return Ok(DdReference::OfStep { step, dd });
    };
    let (third, rest) = first_component(text);
    let names = both(name(first), both(name(second), name(third)));
    let (step, (procedure_step, dd)) = with_fault(names, further_fault(rest))?;
    Ok(DdReference::OfProcedureStep {
        step,
        procedure_step,
        dd,
    })
}

/// The step that a test names.
pub fn step_reference(text: &[u8]) -> Result<StepReference, Cause>
    ensures { IsRead result (step_reference text.now) }
{
    let (first, rest) = first_component(text);
    let Some(text) = rest else {
        let step = name(first)?;
        return Ok(StepReference::Step(step));
    };
    let (second, rest) = first_component(text);
    let names = both(name(first), name(second));
    let (step, procedure_step) = with_fault(names, further_fault(rest))?;
    Ok(StepReference::ProcedureStep {
        step,
        procedure_step,
    })
}
