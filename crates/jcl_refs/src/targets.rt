//! What references mean: of tests to steps, and of DDs to earlier DDs. (GC28-6704, "Backward references", COND parameter)
ghost use Rattle.std.specs.Prelude.{◌≡◌, ◌-◌, drop};
ghost use Rattle.std.specs.List.{list_any, position};
ghost use Rattle.jcl_refs.specs.LaterDds.{has_name};
ghost use Rattle.jcl_refs.specs.Meant.{is_meant};
ghost use Rattle.jcl_refs.specs.Targets.{dds_of, earlier_dd, earlier_named, earlier_step, in_earlier, in_step, is_brought_by, is_call, is_name, is_own_step, is_step_of_call};
ghost use Rattle.jcl_refs.specs.Targets.{latest, looks_forward, may_mean, missing, dd_position, target_of};

use jcl_dds::dd::DdCard;
use jcl_plan::fault::{Cause, StatementFault};
use jcl_procs::step::FlatStep;
use jname_core::name8::Name8;
use value_core::reference::{DdReference, StepReference};

/// A DD by its place: its step and its number in that, each from 1.
#[derive(Clone, Copy, PartialEq, Eq)]
pub struct Target {
    pub step: usize,
    pub dd: usize,
}

/// The steps that a reference to a step may mean.
#[derive(Drop)]
pub enum Meant {
    /// A step that no procedure brought.
    Own(Name8),
    /// A step of a call, by its name in the procedure.
    OfCall { call: usize, name: Name8 },
    /// A step that an EXEC statement of a name brought, by its name in the procedure.
    Brought { step: Name8, procedure_step: Name8 },
}

fn is_name(own: Option<Name8>, name: Name8) -> bool
    ensures { result ≡ is_name own name }
{
    match own {
        None => false,
        Some(own) => own.as_slice() == name.as_slice(),
    }
}

fn is_call(own: Option<usize>, call: usize) -> bool
    ensures { result ≡ is_call own call }
{
    match own {
        None => false,
        Some(own) => own == call,
    }
}

fn is_own_step(name: Name8, step: &FlatStep) -> bool
    ensures { result ≡ is_own_step name step.now }
{
    step.call.is_none() && is_name(step.name, name)
}

fn is_step_of_call(call: usize, name: Name8, step: &FlatStep) -> bool
    ensures { result ≡ is_step_of_call call name step.now }
{
    is_call(step.call, call) && is_name(step.procedure_step, name)
}

fn is_brought_by(name: Name8, procedure_step: Name8, step: &FlatStep) -> bool
    ensures { result ≡ is_brought_by name procedure_step step.now }
{
    step.call.is_some() && is_name(step.name, name) && is_name(step.procedure_step, procedure_step)
}

fn is_meant(meant: &Meant, step: &FlatStep) -> bool
    ensures { result ≡ is_meant meant.now step.now }
{
    match *meant {
        Meant::Own(name) => is_own_step(name, step),
        Meant::OfCall { call, name } => is_step_of_call(call, name, step),
        Meant::Brought {
            step: name,
            procedure_step,
        } => is_brought_by(name, procedure_step, step),
    }
}

/// The latest step before the k-th that is meant; steps count from 1.
fn latest(meant: &Meant, k: usize, steps: &[FlatStep]) -> Option<usize>
    ensures { result ≡ latest (is_meant meant.now) k steps.now }
{
    let mut found = None;
    let mut n = 1;
    for step in steps {
        if n >= k {
            return found;
        }
        if is_meant(meant, step) {
            found = Some(n);
        }
        n += 1;
    }
    found
}

/// The step that a plain name means: first one of the same call, else one that no procedure brought.
fn earlier_named(call: Option<usize>, name: Name8, k: usize, steps: &[FlatStep]) -> Option<usize>
    ensures { result ≡ earlier_named call name k steps.now }
{
    if let Some(call) = call {
        let of_call = latest(&Meant::OfCall { call, name }, k, steps);
        if of_call.is_some() {
            return of_call;
        }
    }
    latest(&Meant::Own(name), k, steps)
}

/// The earlier step that a reference in the k-th step means, which is one of this call; steps count from 1.
pub fn earlier_step(
    call: Option<usize>,
    reference: StepReference,
    k: usize,
    steps: &[FlatStep],
) -> Option<usize>
    ensures { result ≡ earlier_step call reference k steps.now }
{
    match reference {
        StepReference::Step(name) => earlier_named(call, name, k, steps),
        StepReference::ProcedureStep {
            step,
            procedure_step,
        } => latest(
            &Meant::Brought {
                step,
                procedure_step,
            },
            k,
            steps,
        ),
    }
}

/// Whether a reference may mean a step, wherever it stands.
fn may_mean(call: Option<usize>, reference: StepReference, step: &FlatStep) -> bool
    ensures { result ≡ may_mean call reference step.now }
{
    match reference {
        StepReference::Step(name) => match call {
            None => is_own_step(name, step),
            Some(call) => is_step_of_call(call, name, step) || is_own_step(name, step),
        },
        StepReference::ProcedureStep {
            step: name,
            procedure_step,
        } => is_brought_by(name, procedure_step, step),
    }
}

fn has_name(name: Name8, dd: &DdCard) -> bool
    ensures { result ≡ has_name name dd.now }
{
    is_name(dd.name, name)
}

fn has_dd(name: Name8, step: &FlatStep) -> bool
    ensures { result ≡ list_any (has_name name) step.now.dds }
{
    step.dds.as_slice().iter().any(|dd| has_name(name, dd))
}

fn first_of(name: Name8, dds: &[DdCard]) -> Option<usize>
    ensures { result ≡ position (has_name name) dds.now }
{
    dds.iter().position(|dd| has_name(name, dd))
}

/// The place of the first DD of a name, from 1.
fn dd_position(name: Name8, dds: &[DdCard]) -> Option<usize>
    ensures { result ≡ dd_position name dds.now }
{
    match first_of(name, dds) {
        None => None,
        Some(n) => Some(n + 1),
    }
}

/// The steps from the k-th on.
fn from_step(k: usize, steps: &[FlatStep]) -> &[FlatStep]
    ensures { result.now ≡ drop (k - 1) steps.now }
{
    let before = k.saturating_sub(1);
    if before > steps.len() {
        return &[];
    }
    let (_, behind) = steps.split_at(before);
    behind
}

fn dds_of(steps: &[FlatStep], k: usize) -> &[DdCard]
    ensures { result.now ≡ dds_of steps.now k }
{
    match from_step(k, steps).split_first() {
        None => &[],
        Some((step, _)) => step.dds.as_slice(),
    }
}

/// A DD of the same step: an earlier one.
fn in_step(name: Name8, k: usize, d: usize, dds: &[DdCard]) -> Result<Target, Cause>
    ensures { result ≡ in_step name k d dds.now }
{
    let Some(n) = dd_position(name, dds) else {
        return Err(Cause::P(StatementFault::ReferenceToNothing));
    };
    if n >= d {
        return Err(Cause::P(StatementFault::ForwardReference));
    }
    Ok(Target { step: k, dd: n })
}

/// Whether a step from the k-th on has the DD that a reference names.
fn looks_forward(
    call: Option<usize>,
    reference: StepReference,
    name: Name8,
    k: usize,
    steps: &[FlatStep],
) -> bool
    ensures { result ≡ looks_forward call reference name k steps.now }
{
    from_step(k, steps).iter().any(|other| may_mean(call, reference, other) && has_dd(name, other))
}

/// The refusal of a reference that no earlier step meets.
fn missing(
    call: Option<usize>,
    reference: StepReference,
    name: Name8,
    k: usize,
    steps: &[FlatStep],
) -> Cause
    ensures { result ≡ missing (looks_forward call reference name k steps.now) }
{
    if looks_forward(call, reference, name, k, steps) {
        Cause::P(StatementFault::ForwardReference)
    } else {
        Cause::P(StatementFault::ReferenceToNothing)
    }
}

/// The DD of an earlier step that a reference means, where there is one.
fn earlier_dd(
    call: Option<usize>,
    reference: StepReference,
    name: Name8,
    k: usize,
    steps: &[FlatStep],
) -> Option<Target>
    ensures { result ≡ earlier_dd call reference name k steps.now }
{
    let step = earlier_step(call, reference, k, steps)?;
    let dd = dd_position(name, dds_of(steps, step))?;
    Some(Target { step, dd })
}

/// A DD of an earlier step.
fn in_earlier(
    call: Option<usize>,
    reference: StepReference,
    name: Name8,
    k: usize,
    steps: &[FlatStep],
) -> Result<Target, Cause>
    ensures { result ≡ in_earlier call reference name k steps.now }
{
    earlier_dd(call, reference, name, k, steps).ok_or_else(|| missing(
        call, reference, name, k, steps,
    ))
}

/// The DD that a reference means, of the d-th DD of the k-th step, which is one of this call; steps and DDs count from 1.
pub fn target_of(
    call: Option<usize>,
    k: usize,
    d: usize,
    steps: &[FlatStep],
    reference: DdReference,
) -> Result<Target, Cause>
    ensures { result ≡ target_of call k d steps.now reference }
{
    match reference {
        DdReference::Dd(name) => in_step(name, k, d, dds_of(steps, k)),
        DdReference::OfStep { step, dd } => in_earlier(
            call,
            StepReference::Step(step),
            dd,
            k,
            steps,
        ),
        DdReference::OfProcedureStep {
            step,
            procedure_step,
            dd,
        } => {
            let reference = StepReference::ProcedureStep {
                step,
                procedure_step,
            };
            in_earlier(call, reference, dd, k, steps)
        }
    }
}
