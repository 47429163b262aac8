//! COND of an EXEC statement: each keyword is read once, for its fault and for what it says.
ghost use Rattle.std.specs.Prelude.{◌≡◌, IfOk, None, OnOk};
ghost use Rattle.operand_core.specs.Faults.{told};
ghost use Rattle.jcl_cards.specs.Conditions.{AddsKeyword, AddsRead, ReadsKeywords, with_condition};
ghost use Rattle.jcl_cards.specs.ExecCards.{step_faults};

use crate::exec::StepCondition;
use crate::exec_keyword::{
    ExecKeyword, condition_of, exec_keyword, fault_of, step_fault, step_named,
};
use boxed_core::Boxed;
use jcl_plan::fault::Cause;
use list_values::condition::Condition;
use operand_core::fault::{earlier, valid_name};
use operand_core::operand::Keyword;
use operand_core::qualified::is_qualified;
use plain::listed::Listed;
use std::alloc::{AllocError, Global};

/// What keywords say: COND of the step or of all steps of the procedure, where it is coded, and of single steps, in their order.
#[derive(Drop)]
pub(crate) struct Conditions {
    pub(crate) own: Option<Boxed<Condition>>,
    pub(crate) of_steps: Listed<StepCondition>,
}

/// Adds what one keyword says that has no fault.
fn add(
    alloc: Global,
    conditions: &mut Conditions,
    key: &[u8],
    condition: Condition,
) -> Result<(), AllocError>
    requires { told (step_faults key.now) ≡ None }
    ensures { OnOk result (conditions.new ≡ with_condition key.now condition conditions.old) }
{
    if is_qualified(key) {
        conditions.of_steps.push(StepCondition {
            step: valid_name(step_named(key)),
            condition,
        })?;
    } else if conditions.own.is_none() {
        conditions.own = Some(Boxed::new(alloc, condition)?);
    }
    Ok(())
}

/// Reads one COND and adds what it says, if no fault is told of it.
fn read_condition(
    alloc: Global,
    conditions: &mut Conditions,
    keyword: &Keyword<'_>,
) -> Result<Option<Cause>, AllocError>
    ensures { IfOk result (AddsRead keyword.now conditions.old conditions.new) }
{
    let key = keyword.key();
    let names = step_fault(key);
    match condition_of(keyword.value()) {
        Err(fault) => Ok(earlier(names, Some(fault))),
        Ok(condition) => {
            if names.is_none() {
                add(alloc, conditions, key, condition)?;
            }
            Ok(names)
        }
    }
}

/// Reads one keyword of a statement that calls a procedure or not.
fn read_keyword(
    alloc: Global,
    conditions: &mut Conditions,
    calls: bool,
    keyword: &Keyword<'_>,
) -> Result<Option<Cause>, AllocError>
    ensures { IfOk result (AddsKeyword calls keyword.now conditions.old conditions.new) }
{
    match exec_keyword(calls, keyword.key()) {
        ExecKeyword::Condition => read_condition(alloc, conditions, keyword),
        word => Ok(fault_of(word, keyword)),
    }
}

/// Reads the keywords of a statement that calls a procedure or not. Tells what COND says, and their fault.
pub(crate) fn read_keywords(
    alloc: Global,
    calls: bool,
    keywords: &[Keyword<'_>],
) -> Result<(Conditions, Option<Cause>), AllocError>
    ensures { IfOk result (ReadsKeywords calls keywords.now) }
{
    let mut conditions = Conditions {
        own: None,
        of_steps: Listed::empty(alloc),
    };
    let mut fault = None;
    for keyword in keywords {
        fault = earlier(fault, read_keyword(alloc, &mut conditions, calls, keyword)?);
    }
    Ok((conditions, fault))
}
