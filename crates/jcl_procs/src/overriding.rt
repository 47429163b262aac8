//! DDs behind an EXEC statement that calls a procedure. (GC28-6704, "Overriding, adding, and nullifying parameters on DD statements")
ghost use Rattle.std.specs.Prelude.{◌≡◌, ◌+◌, ◌≤◌, ◌<◌, IfOk, IfSome, OnOk, [], length, slice_get};
ghost use Rattle.std.specs.List.{list_any, position};
ghost use Rattle.value_core.specs.Reads.{Gives};
ghost use Rattle.jcl_procs.specs.Overrides.{is_named, is_of_name, is_step, step_at, with_dd, with_dd_between, with_dds};
ghost use Rattle.jcl_procs.specs.Overrides.{dds_at, dds_overridden, overrides_member, overrides_from, overrides_named, overrides_one};
ghost use Rattle.jcl_procs.specs.StepDds.{fault_of, first_fault};
ghost use Rattle.jcl_procs.specs.StepDds.{AreMembers, IsPlace, added, continues, inserted, merged_there, names_step, placed, with_member, with_named};
ghost use Rattle.jcl_dds.specs.declared.dd.DdCard.{DdCard};

use crate::step::FlatStep;
use jcl_dds::dd::{DdCard, bare_dd};
use jcl_dds::merging::{by_itself, merged, merging_fault};
use jcl_plan::fault::{Cause, StatementFault};
use jname_core::name8::Name8;
use plain::listed::Listed;
use std::alloc::{AllocError, Global};
use std::collections::VecDeque;
use std::mem::replace;
use value_core::refusal::ReadError;

/// Where the overrides are.
#[derive(Drop)]
struct Place {
    steps: Listed<FlatStep>,
    /// The step of the override before, from 0.
    at: usize,
    /// In it, the next member of the concatenation.
    member: usize,
}

/// The DDs of a step, and the next member of the concatenation.
#[derive(Drop)]
struct Members {
    dds: Listed<DdCard>,
    member: usize,
}

fn is_named(own: Option<Name8>, name: Name8) -> bool
    ensures { result ≡ is_named own name }
{
    match own {
        None => false,
        Some(own) => own.as_slice() == name.as_slice(),
    }
}

fn is_step(name: Name8, step: &FlatStep) -> bool
    ensures { result ≡ is_step name step.now }
{
    is_named(step.procedure_step, name)
}

pub(crate) fn has_step(name: Name8, steps: &[FlatStep]) -> bool
    ensures { result ≡ list_any (is_step name) steps.now }
{
    steps.iter().any(|step| is_step(name, step))
}

/// The first step of a name, from 0.
pub(crate) fn step_of(name: Name8, steps: &[FlatStep]) -> Option<usize>
    ensures is { result ≡ position (is_step name) steps.now }
    ensures there { IfSome result (λ n. n < length steps.now) }
{
    steps.iter().position(|step| is_step(name, step))
}

/// The first step of a name at or behind the one reached.
fn step_at(steps: &[FlatStep], at: usize, name: Option<Name8>) -> Result<usize, Cause>
    requires { at < length steps.now }
    ensures is { result ≡ step_at steps.now at name }
    ensures there { IfOk result (λ n. n < length steps.now) }
{
    let Some(name) = name else { return Ok(at) };
    let (_, behind) = steps.split_at(at);
    if let Some(n) = step_of(name, behind) {
        return Ok(at + n);
    }
    if has_step(name, steps) {
        return Err(Cause::P(StatementFault::OverrideOutOfOrder));
    }
    Err(Cause::P(StatementFault::NoSuchProcedureStep))
}

fn is_of_name(name: Option<Name8>, dd: &DdCard) -> bool
    ensures { result ≡ is_of_name name dd.now }
{
    match name {
        None => false,
        Some(name) => is_named(dd.name, name),
    }
}

/// Puts a DD in the place of another.
fn put_dd(dds: &mut [DdCard], n: usize, dd: DdCard)
    requires { n < length dds.old }
    ensures { dds.new ≡ with_dd dds.old n dd }
{
    dds[n] = dd;
}

/// Puts a DD before another, or at the end.
fn put_between(dds: &mut Vec<DdCard>, n: usize, dd: DdCard) -> Result<(), AllocError>
    requires { n ≤ length dds.old.items }
    ensures put { OnOk result (dds.new.items ≡ with_dd_between dds.old.items n dd) }
    ensures len { OnOk result (length dds.new.items ≡ length dds.old.items + 1) }
{
    dds.insert(n, dd)?;
    Ok(())
}

/// Takes the DDs out of a step.
fn take_dds(alloc: Global, steps: &mut [FlatStep], at: usize) -> Listed<DdCard>
    requires { at < length steps.old }
    ensures taken { result ≡ dds_at steps.old at }
    ensures len { length steps.new ≡ length steps.old }
    ensures left { steps.new ≡ with_dds steps.old at [] }
{
    replace(&mut steps[at].dds, Listed::empty(alloc))
}

fn put_dds(steps: &mut [FlatStep], at: usize, dds: Listed<DdCard>)
    requires { at < length steps.old }
    ensures { steps.new ≡ with_dds steps.old at dds }
{
    steps[at].dds = dds;
}

/// Takes a DD out; one that codes nothing stands in its place.
fn take_dd(dds: &mut [DdCard], n: usize) -> DdCard
    requires { n < length dds.old }
    ensures taken { slice_get dds.old n ≡ Some result }
    ensures len { length dds.new ≡ length dds.old }
    ensures others { (dd : DdCard) → with_dd dds.new n dd ≡ with_dd dds.old n dd }
{
    replace(&mut dds[n], bare_dd())
}

/// A DD of a step merged with its override.
fn merged_there(dds: Listed<DdCard>, n: usize, dd: DdCard) -> Result<Members, ReadError>
    requires { n < length dds }
    ensures gives { Gives result (merged_there dds dd n (slice_get dds n)) }
    ensures members { IfOk result AreMembers }
{
    let mut dds = dds.into_vec();
    let there = take_dd(dds.as_mut_slice(), n);
    let both = merged(there, dd)?;
    put_dd(dds.as_mut_slice(), n, both);
    Ok(Members {
        dds: Listed::new(dds),
        member: n + 1,
    })
}

/// The DDs of a step with one more.
fn added(dds: Listed<DdCard>, dd: DdCard) -> Result<Members, AllocError>
    ensures { IfOk result (λ m. m ≡ added dds dd) }
{
    let mut dds = dds;
    dds.push(by_itself(dd))?;
    let member = dds.len();
    Ok(Members { dds, member })
}

fn dd_of(name: Option<Name8>, dds: &[DdCard]) -> Option<usize>
    ensures is { result ≡ position (is_of_name name) dds.now }
    ensures there { IfSome result (λ n. n < length dds.now) }
{
    dds.iter().position(|dd| is_of_name(name, dd))
}

/// The DDs of a step, as an override with a name leaves them.
fn with_named(dds: Listed<DdCard>, dd: DdCard) -> Result<Members, ReadError>
    ensures gives { Gives result (with_named dds dd) }
    ensures members { IfOk result AreMembers }
{
    if let Some(n) = dd_of(dd.name, dds.as_slice()) {
        return merged_there(dds, n, dd);
    }
    let members = added(dds, dd)?;
    Ok(members)
}

/// Whether a DD there continues a concatenation.
fn continues_at(dds: &[DdCard], n: usize) -> bool
    ensures { result ≡ continues (slice_get dds.now n) }
{
    match dds.get(n) {
        None => false,
        Some(there) => there.name.is_none(),
    }
}

/// The DDs of a step with one before another, or at the end.
fn inserted(dds: Listed<DdCard>, n: usize, dd: DdCard) -> Result<Members, AllocError>
    requires { n ≤ length dds }
    ensures is { IfOk result (λ m. m ≡ inserted dds n dd) }
    ensures members { IfOk result AreMembers }
{
    let mut dds = dds.into_vec();
    put_between(&mut dds, n, by_itself(dd))?;
    Ok(Members {
        dds: Listed::new(dds),
        member: n + 1,
    })
}

/// The DDs of a step, as an override without a name leaves them.
fn with_member(dds: Listed<DdCard>, n: usize, dd: DdCard) -> Result<Members, ReadError>
    requires { n ≤ length dds }
    ensures gives { Gives result (with_member dds n dd) }
    ensures members { IfOk result AreMembers }
{
    if continues_at(dds.as_slice(), n) {
        return merged_there(dds, n, dd);
    }
    let members = inserted(dds, n, dd)?;
    Ok(members)
}

/// The steps with the DDs of one.
fn placed(steps: Vec<FlatStep>, at: usize, members: Members) -> Place
    requires there { at < length steps.items }
    requires members { AreMembers members }
    ensures placed { result ≡ placed steps.items at members }
    ensures place { IsPlace result }
{
    let mut steps = steps;
    let Members { dds, member } = members;
    put_dds(steps.as_mut_slice(), at, dds);
    Place {
        steps: Listed::new(steps),
        at,
        member,
    }
}

fn overrides_named(alloc: Global, place: Place, at: usize, dd: DdCard) -> Result<Place, ReadError>
    requires { at < length place.steps }
    ensures gives { Gives result (overrides_named place at dd) }
    ensures place { IfOk result IsPlace }
{
    let mut steps = place.steps.into_vec();
    let dds = take_dds(alloc, steps.as_mut_slice(), at);
    let members = with_named(dds, dd)?;
    Ok(placed(steps, at, members))
}

fn overrides_member(alloc: Global, place: Place, dd: DdCard) -> Result<Place, ReadError>
    requires { IsPlace place }
    ensures gives { Gives result (overrides_member place dd) }
    ensures place { IfOk result IsPlace }
{
    let at = place.at;
    let mut steps = place.steps.into_vec();
    let dds = take_dds(alloc, steps.as_mut_slice(), at);
    let members = with_member(dds, place.member, dd)?;
    Ok(placed(steps, at, members))
}

fn overrides_one(alloc: Global, place: Place, dd: DdCard) -> Result<Place, ReadError>
    requires { IsPlace place }
    ensures gives { Gives result (overrides_one place dd) }
    ensures place { IfOk result IsPlace }
{
    if dd.name.is_none() {
        return overrides_member(alloc, place, dd);
    }
    let at = step_at(place.steps.as_slice(), place.at, dd.qualifier)?;
    overrides_named(alloc, place, at, dd)
}

/// One after another: a DD that one added is found by the next.
fn overrides_from(
    alloc: Global,
    place: Place,
    dds: VecDeque<DdCard>,
) -> Result<Listed<FlatStep>, ReadError>
    requires { IsPlace place }
    ensures { Gives result (overrides_from place dds.items) }
{
    let mut place = place;
    let mut dds = dds;
    while let Some(dd) = dds.pop_front() {
        place = overrides_one(alloc, place, dd)?;
    }
    Ok(place.steps)
}

fn names_step(dd: &DdCard) -> bool
    ensures { result ≡ names_step dd.now }
{
    !dd.name.is_none() && dd.qualifier.is_some()
}

fn some_names_step(dds: &[DdCard]) -> bool
    ensures { result ≡ list_any names_step dds.now }
{
    dds.iter().any(|dd| names_step(dd))
}

/// Where there is no step, nothing is overridden.
fn without_steps(
    steps: Listed<FlatStep>,
    dds: Listed<DdCard>,
) -> Result<Listed<FlatStep>, ReadError>
    requires { steps ≡ [] }
    ensures { Gives result (dds_overridden steps dds) }
{
    if some_names_step(dds.as_slice()) {
        return Err(ReadError::Refused(Cause::P(StatementFault::NoSuchProcedureStep)));
    }
    Ok(steps)
}

/// The steps of a call, with the DDs behind it that override theirs.
pub fn override_dds(
    alloc: Global,
    steps: Listed<FlatStep>,
    dds: Listed<DdCard>,
) -> Result<Listed<FlatStep>, ReadError>
    ensures { Gives result (dds_overridden steps dds) }
{
    if steps.as_slice().is_empty() {
        return without_steps(steps, dds);
    }
    let place = Place {
        steps,
        at: 0,
        member: 0,
    };
    overrides_from(alloc, place, VecDeque::from(dds.into_vec()))
}

/// The fault of an override with a name, which leaves the DDs of the step as they are.
fn named_fault(dds: &[DdCard], dd: &DdCard) -> Option<Cause>
    ensures { result ≡ fault_of (with_named dds.now dd.now) }
{
    match dd_of(dd.name, dds) {
        Some(n) => merging_fault(&dds[n], dd),
        None => None,
    }
}

/// The fault of one without a name.
fn member_fault(dds: &[DdCard], n: usize, dd: &DdCard) -> Option<Cause>
    ensures { result ≡ fault_of (with_member dds.now n dd.now) }
{
    if continues_at(dds, n) {
        merging_fault(&dds[n], dd)
    } else {
        None
    }
}

/// The fault of the first override of a call, which leaves the steps as they are.
fn first_fault(steps: &[FlatStep], dd: &DdCard) -> Option<Cause>
    requires { 0 < length steps.now }
    ensures { result ≡ first_fault steps.now dd.now }
{
    if dd.name.is_none() {
        return member_fault(steps[0].dds.as_slice(), 0, dd);
    }
    match step_at(steps, 0, dd.qualifier) {
        Ok(n) => named_fault(steps[n].dds.as_slice(), dd),
        Err(cause) => Some(cause),
    }
}

/// The fault of a call's one override, if it has one, which leaves the steps as they are.
pub(crate) fn override_fault(steps: &[FlatStep], dds: &[DdCard]) -> Option<Cause>
    requires steps { 0 < length steps.now }
    requires dds { length dds.now ≤ 1 }
    ensures { result ≡ fault_of (dds_overridden steps.now dds.now) }
{
    match dds.first() {
        Some(dd) => first_fault(steps, dd),
        None => None,
    }
}
