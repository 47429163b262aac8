//! One test of COND. (GC28-6704, "COND parameter")
ghost use Rattle.std.specs.Prelude.{◌≡◌, ℕ, List, [], ◌∷◌, true, Bool};
ghost use Rattle.operand_core.specs.Operands.{places_of};
ghost use Rattle.value_core.specs.Reads.{IsRead};
ghost use Rattle.list_values.specs.Conditions.{code_of, operator_of, pair, test_of_items};

use crate::condition::CodedTest;
use jcl_plan::fault::{Cause, StatementFault};
use jcl_plan::outcome::Code;
use jcl_plan::plan::Operator;
use jname_core::decimal::number_within;
use operand_core::places::Places;
use value_core::reads::both;
use value_core::reference::step_reference;

/// The greatest completion code.
const GREATEST_CODE: u16 = 4095;

fn code_of(text: &[u8]) -> Option<Code>
    ensures { result ≡ code_of text.now }
{
    match number_within(0, GREATEST_CODE, text) {
        Some(number) => Code::new(number),
        None => None,
    }
}

fn operator_of(text: &[u8]) -> Option<Operator>
    ensures { result ≡ operator_of text.now }
{
    match text {
        b"GT" => Some(Operator::Gt),
        b"GE" => Some(Operator::Ge),
        b"EQ" => Some(Operator::Eq),
        b"LT" => Some(Operator::Lt),
        b"LE" => Some(Operator::Le),
        b"NE" => Some(Operator::Ne),
        _ => None,
    }
}

/// A code and an operator, where both are good.
fn pair(code: &[u8], operator: &[u8]) -> Result<(Code, Operator), Cause>
    ensures { IsRead result (pair code.now operator.now) }
{
    match (code_of(code), operator_of(operator)) {
        (Some(code), Some(operator)) => Ok((code, operator)),
        _ => Err(Cause::P(StatementFault::BadValue)),
    }
}

/// A test of all steps.
fn unnamed_test(code: &[u8], operator: &[u8]) -> Result<CodedTest, Cause>
    ensures { (steps : Bool) → IsRead result (test_of_items steps (code.now ∷ operator.now ∷ [])) }
{
    let (code, operator) = pair(code, operator)?;
    Ok(CodedTest {
        code,
        operator,
        step: None,
    })
}

/// A test of one step.
fn test_of_step(code: &[u8], operator: &[u8], step: &[u8]) -> Result<CodedTest, Cause>
    ensures { IsRead result (test_of_items true (code.now ∷ operator.now ∷ step.now ∷ [])) }
{
    let ((code, operator), step) = both(pair(code, operator), step_reference(step))?;
    Ok(CodedTest {
        code,
        operator,
        step: Some(step),
    })
}

/// The test whose items these are; `steps` tells whether it may name a step.
pub(crate) fn test_of(steps: bool, items: &[u8]) -> Result<CodedTest, Cause>
    ensures { IsRead result (test_of_items steps (places_of items.now)) }
{
    let bad = Err(Cause::P(StatementFault::BadValue));
    let mut items = Places::of_text(items);
    let Some(code) = items.next() else {
        return bad;
    };
    let Some(operator) = items.next() else {
        return bad;
    };
    let Some(step) = items.next() else {
        return unnamed_test(code, operator);
    };
    if !steps || items.next().is_some() {
        return bad;
    }
    test_of_step(code, operator, step)
}
