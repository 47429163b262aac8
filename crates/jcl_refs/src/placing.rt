//! Units of sets, where names of units are told. (UNIT parameter)
ghost use Rattle.std.specs.Prelude.{◌≡◌, length};
ghost use Rattle.jcl_refs.specs.Plans.{all_of, unit_of, units_of_dds, units_of_step, units_of_steps, with_units};
ghost use Rattle.jcl_refs.specs.Planning.{Puts, counts_in, planned_counts};

use crate::units::UnitNames;
use jcl_cards::coded::Coded;
use jcl_dds::dd::DdCard;
use jcl_plan::fault::{Cause, StatementFault};
use jcl_plan::plan::{DdKind, DdPlan, StepPlan};
use jcl_procs::step::FlatStep;
use jname_core::name8::UnitName;
use plain::listed::Listed;
use std::alloc::Global;
use std::mem::replace;

/// A set is placed on the volumes of a unit.
fn put_units(kind: &mut DdKind, n: u16)
    ensures { kind.new ≡ with_units n kind.old }
{
    if let DdKind::Set(p) = kind {
        p.units = Some(n);
    }
}

/// The unit of a DD.
fn place_dd(units: &UnitNames, unit: &Coded<UnitName>, dd: &mut DdPlan) -> Result<(), Cause>
    ensures { Puts result dd.new (unit_of units.now unit.now dd.old) }
{
    let Coded::Value(name) = unit else {
        return Ok(());
    };
    let Some(n) = units.number(name) else {
        return Err(Cause::P(StatementFault::UnknownUnit));
    };
    put_units(&mut dd.kind, n);
    Ok(())
}

/// The units of a step's DDs.
fn place_dds(units: &UnitNames, cards: &[DdCard], dds: &mut [DdPlan]) -> Result<(), Cause>
    requires { length cards.now ≡ length dds.old }
    ensures { Puts result dds.new (all_of (units_of_dds units.now cards.now dds.old)) }
{
    for (n, card) in cards.iter().enumerate() {
        place_dd(units, &card.unit, &mut dds[n])?;
    }
    Ok(())
}

/// The units of a step.
fn place_step(
    alloc: Global,
    units: &UnitNames,
    step: &FlatStep,
    plan: &mut StepPlan,
) -> Result<(), Cause>
    requires { length step.now.dds ≡ length plan.old.dds }
    ensures { Puts result plan.new (units_of_step units.now step.now plan.old) }
{
    let mut dds = replace(&mut plan.dds, Listed::empty(alloc)).into_vec();
    place_dds(units, step.dds.as_slice(), dds.as_mut_slice())?;
    plan.dds = Listed::new(dds);
    Ok(())
}

fn place_steps(
    alloc: Global,
    units: &UnitNames,
    steps: &[FlatStep],
    plans: &mut [StepPlan],
) -> Result<(), Cause>
    requires { counts_in steps.now ≡ planned_counts plans.old }
    ensures { Puts result plans.new (all_of (units_of_steps units.now steps.now plans.old)) }
{
    for (n, step) in steps.iter().enumerate() {
        place_step(alloc, units, step, &mut plans[n])?;
    }
    Ok(())
}

/// The plans of steps with the units that their DDs name, or the refusal of the first name that is not configured.
pub(crate) fn placed(
    alloc: Global,
    units: &UnitNames,
    steps: &[FlatStep],
    plans: Listed<StepPlan>,
) -> Result<Listed<StepPlan>, Cause>
    requires { counts_in steps.now ≡ planned_counts plans }
    ensures { result ≡ all_of (units_of_steps units.now steps.now plans) }
{
    let mut plans = plans.into_vec();
    place_steps(alloc, units, steps, plans.as_mut_slice())?;
    Ok(Listed::new(plans))
}
