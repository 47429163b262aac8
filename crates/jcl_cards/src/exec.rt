//! The EXEC statement. (GC28-6704, "EXEC statement")
ghost use Rattle.std.specs.Prelude.{◌≡◌, true, IfOk};
ghost use Rattle.operand_core.specs.Operands.{operand_of};
ghost use Rattle.operand_core.specs.Reading.{Tells, operand_with};
ghost use Rattle.value_core.specs.Reads.{Gives, answer};
ghost use Rattle.jcl_cards.specs.Conditions.{IsOfKeywords};
ghost use Rattle.jcl_cards.specs.ExecCards.{calls, exec_card, exec_with, is_symbol, procedure_of, runs_badly, runs_of};
ghost use Rattle.jcl_cards.specs.Execs.{AreRead, CanRun, HaveNoFault, named_steps_of, program_of, symbols_of};

use crate::exec_conditions::read_keywords;
use crate::exec_keyword::{ExecKeyword, exec_keyword, step_named};
use crate::rules::{Spelling, long_operand, symbol_of, twice_fault};
use boxed_core::Boxed;
use jcl_plan::fault::{Cause, StatementFault};
use jcl_symbols::symbol::Symbol;
use jname_core::name8::Name8;
use list_values::condition::Condition;
use operand_core::fault::{
    earlier, read_name_fault, valid_name, when, written_name, written_name_fault,
};
use operand_core::keyword::{has_key, is_long, value_of};
use operand_core::operand::{Keyword, Operand, Positional, first_of, operand_of};
use operand_core::qualified::{head_of, is_qualified};
use operand_core::value::value_or_nothing;
use plain::listed::Listed;
use std::alloc::{AllocError, Global};
use value_core::refusal::ReadError;

/// What a step runs.
#[derive(Drop)]
pub enum Runs {
    Program(Name8),
    /// The procedure that is called, and the symbols that the call gives, in their order.
    Procedure {
        name: Name8,
        symbols: Listed<Symbol>,
    },
}

/// COND of one step of a procedure: `COND.step=`.
#[derive(Drop)]
pub struct StepCondition {
    pub step: Name8,
    pub condition: Condition,
}

/// An EXEC statement that was read.
#[derive(Drop)]
pub struct ExecCard {
    pub name: Option<Name8>,
    pub runs: Runs,
    /// COND of the step, or of all steps of the procedure, where it is coded.
    pub condition: Option<Boxed<Condition>>,
    /// Those of single steps of the procedure, in their order.
    pub step_conditions: Listed<StepCondition>,
    /// The steps of the procedure that any keyword names, as PARM.step does.
    pub named_steps: Listed<Name8>,
}

/// Whether a procedure is called, by position or by PROC.
fn calls(positional: &[Positional<'_>], keywords: &[Keyword<'_>]) -> bool
    ensures { result ≡ calls (operand_with positional.now keywords.now) }
{
    !positional.is_empty() || has_key(keywords, b"PROC")
}

/// Whether neither a program nor a procedure is named, or both, or a procedure twice.
fn runs_badly(positional: &[Positional<'_>], keywords: &[Keyword<'_>]) -> bool
    ensures { result ≡ runs_badly (operand_with positional.now keywords.now) }
{
    if has_key(keywords, b"PGM") == calls(positional, keywords) {
        return true;
    }
    !positional.is_empty() && has_key(keywords, b"PROC")
}

/// The fault of a statement, by that of its keywords.
fn exec_fault(name: &[u8], operand: &Operand<'_>, of_keywords: Option<Cause>) -> Option<Cause>
    requires { IsOfKeywords operand.now.positional.items operand.now.keywords.items of_keywords }
    ensures { Tells (λ denoted. (exec_with name.now denoted).faults) operand.now result }
{
    let positional = operand.positional.as_slice();
    let keywords = operand.keywords.as_slice();
    let own = earlier(written_name_fault(name), operand.fault);
    let badly = when(
        runs_badly(positional, keywords),
        Cause::P(StatementFault::NotOneProgram),
    );
    let with_runs = earlier(own, badly);
    let with_name = earlier(with_runs, read_name_fault(first_of(positional)));
    let with_keywords = earlier(with_name, of_keywords);
    earlier(with_keywords, twice_fault(Spelling::One, keywords))
}

fn is_symbol(keyword: &Keyword<'_>) -> bool
    ensures { result ≡ is_symbol keyword.now }
{
    match exec_keyword(true, keyword.key()) {
        ExecKeyword::Symbol => true,
        _ => false,
    }
}

/// The symbols that a call gives, in their order.
fn symbols_of(alloc: Global, keywords: &[Keyword<'_>]) -> Result<Listed<Symbol>, AllocError>
    requires { HaveNoFault true keywords.now }
    ensures { IfOk result (λ symbols. symbols ≡ symbols_of keywords.now) }
{
    let mut symbols = Vec::new(alloc);
    for keyword in keywords {
        if is_symbol(keyword) {
            symbols.push(symbol_of(alloc, keyword)?)?;
        }
    }
    Ok(Listed::new(symbols))
}

fn procedure_of<'a>(positional: &[Positional<'a>], keywords: &[Keyword<'a>]) -> &'a [u8]
    ensures { result.now ≡ procedure_of (operand_with positional.now keywords.now) }
{
    if positional.is_empty() {
        value_or_nothing(value_of(keywords, b"PROC"))
    } else {
        value_or_nothing(first_of(positional))
    }
}

fn program_of<'a>(keywords: &[Keyword<'a>]) -> &'a [u8]
    ensures { result.now ≡ program_of keywords.now }
{
    value_or_nothing(value_of(keywords, b"PGM"))
}

fn runs_of(
    alloc: Global,
    positional: &[Positional<'_>],
    keywords: &[Keyword<'_>],
) -> Result<Runs, AllocError>
    requires { CanRun (operand_with positional.now keywords.now) }
    ensures { IfOk result (λ runs. runs ≡ runs_of (operand_with positional.now keywords.now)) }
{
    if calls(positional, keywords) {
        Ok(Runs::Procedure {
            name: valid_name(procedure_of(positional, keywords)),
            symbols: symbols_of(alloc, keywords)?,
        })
    } else {
        Ok(Runs::Program(valid_name(program_of(keywords))))
    }
}

/// The steps that keywords name, in their order.
fn named_steps_of(alloc: Global, keywords: &[Keyword<'_>]) -> Result<Listed<Name8>, AllocError>
    requires { AreRead keywords.now }
    ensures { IfOk result (λ steps. steps ≡ named_steps_of keywords.now) }
{
    let mut steps = Vec::new(alloc);
    for keyword in keywords {
        let key = keyword.key();
        if is_qualified(key) {
            steps.push(valid_name(step_named(key)))?;
        }
    }
    Ok(Listed::new(steps))
}

fn own_exec_card(alloc: Global, name: &[u8], operand: &[u8]) -> Result<ExecCard, ReadError>
    ensures { Gives result (answer (exec_with name.now (operand_of 1 operand.now))) }
{
    let operand = operand_of(alloc, 1, operand)?;
    let positional = operand.positional.as_slice();
    let keywords = operand.keywords.as_slice();
    let (conditions, of_keywords) = read_keywords(alloc, calls(positional, keywords), keywords)?;
    if let Some(fault) = exec_fault(name, &operand, of_keywords) {
        return Err(ReadError::Refused(fault));
    }
    Ok(ExecCard {
        name: written_name(name),
        runs: runs_of(alloc, positional, keywords)?,
        condition: conditions.own,
        step_conditions: conditions.of_steps,
        named_steps: named_steps_of(alloc, keywords)?,
    })
}

/// The card that an EXEC statement is.
pub fn exec_card(alloc: Global, name: &[u8], operand: &[u8]) -> Result<ExecCard, ReadError>
    ensures { Gives result (answer (exec_card name.now operand.now)) }
{
    if is_long(operand) {
        return Err(ReadError::Refused(long_operand(written_name_fault(name))));
    }
    own_exec_card(alloc, name, operand)
}
