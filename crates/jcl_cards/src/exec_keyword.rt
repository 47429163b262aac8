//! The keywords of an EXEC statement.
ghost use Rattle.std.specs.Prelude.{◌≡◌, ◌≢◌};
ghost use Rattle.std.specs.Option.{option_copied};
ghost use Rattle.operand_core.specs.Faults.{told};
ghost use Rattle.value_core.specs.Reads.{IsRead};
ghost use Rattle.jcl_cards.specs.ExecCards.{condition_of, exec_keyword, faults_of, program_faults, read_parm_faults, step_faults, step_named};
ghost use Rattle.jcl_cards.specs.Execs.{IsExecKeyword, is_form, is_left_out};
ghost use Rattle.jcl_cards.specs.declared.exec_keyword.ExecKeyword.TheVariants as ExecKeyword;

use crate::rules::symbol_fault;
use jcl_plan::fault::{Cause, StatementFault};
use jcl_plan::plan::AfterAbend;
use list_values::condition::{CodedTests, Condition};
use list_values::tests_of::condition;
use operand_core::fault::{earlier, name_fault, read_name_fault};
use operand_core::operand::Keyword;
use operand_core::qualified::{head_len, head_of, is_qualified};
use value_core::parm_fault::parm_fault;

/// What a keyword of an EXEC statement is.
#[derive(Clone, Copy, PartialEq, Eq)]
pub(crate) enum ExecKeyword {
    Program,
    Procedure,
    Condition,
    Parm,
    /// It is read for its form alone.
    Form,
    /// It gives a value to a symbol.
    Symbol,
    LeftOut,
    Unknown,
}

fn is_left_out(head: &[u8]) -> bool
    ensures { result ≡ is_left_out head.now }
{
    head == b"RD".as_slice() || head == b"ROLL".as_slice() || head == b"DPRTY".as_slice()
}

fn is_form(head: &[u8]) -> bool
    ensures { result ≡ is_form head.now }
{
    head == b"REGION".as_slice() || head == b"TIME".as_slice() || head == b"ACCT".as_slice()
}

/// What a keyword is on a statement that calls a procedure or not.
pub(crate) fn exec_keyword(calls: bool, key: &[u8]) -> ExecKeyword
    ensures { IsExecKeyword result (exec_keyword calls key.now) }
{
    let head = head_of(key);
    if key == b"PGM".as_slice() {
        ExecKeyword::Program
    } else if key == b"PROC".as_slice() {
        ExecKeyword::Procedure
    } else if is_qualified(key) && !calls {
        ExecKeyword::Unknown
    } else if is_left_out(head) {
        ExecKeyword::LeftOut
    } else if head == b"COND".as_slice() {
        ExecKeyword::Condition
    } else if head == b"PARM".as_slice() {
        ExecKeyword::Parm
    } else if is_form(head) {
        ExecKeyword::Form
    } else if is_qualified(key) || !calls {
        ExecKeyword::Unknown
    } else {
        ExecKeyword::Symbol
    }
}

/// The step that a keyword names.
pub(crate) fn step_named(key: &[u8]) -> &[u8]
    ensures { result.now ≡ step_named key.now }
{
    let (_, behind) = key.split_at(head_len(key));
    match behind.split_first() {
        Some((_, step)) => step,
        None => behind,
    }
}

pub(crate) fn step_fault(key: &[u8]) -> Option<Cause>
    ensures { result ≡ told (step_faults key.now) }
{
    if is_qualified(key) {
        name_fault(step_named(key))
    } else {
        None
    }
}

fn program_fault(value: Option<&[u8]>) -> Option<Cause>
    ensures { result ≡ told (program_faults (option_copied value.entry)) }
{
    match value {
        None => None,
        Some(name) => {
            if name.starts_with(b"*.") {
                Some(Cause::P(StatementFault::LeftOut))
            } else {
                name_fault(name)
            }
        }
    }
}

fn read_parm_fault(value: Option<&[u8]>) -> Option<Cause>
    ensures { result ≡ told (read_parm_faults (option_copied value.entry)) }
{
    match value {
        None => None,
        Some(value) => parm_fault(value),
    }
}

/// What COND says, or that it says nothing where it is not read.
pub(crate) fn condition_of(value: Option<&[u8]>) -> Result<Condition, Cause>
    ensures { IsRead result (condition_of (option_copied value.entry)) }
{
    match value {
        None => Ok(Condition {
            tests: CodedTests::new(),
            after_abend: AfterAbend::Unsaid,
        }),
        Some(text) => condition(true, text),
    }
}

/// The fault of a keyword that is no COND, by what it is.
#[tactic(auto, using(operand_core::proofs::Told::told_append))]
pub(crate) fn fault_of(word: ExecKeyword, keyword: &Keyword<'_>) -> Option<Cause>
    requires { word ≢ ExecKeyword.Condition }
    ensures { (is : _) → IsExecKeyword word is → result ≡ told (faults_of is keyword.now) }
{
    let key = keyword.key();
    let value = keyword.value();
    match word {
        ExecKeyword::Program => program_fault(value),
        ExecKeyword::Procedure => read_name_fault(value),
        ExecKeyword::Parm => earlier(step_fault(key), read_parm_fault(value)),
        ExecKeyword::Form => step_fault(key),
        ExecKeyword::Symbol => symbol_fault(key),
        ExecKeyword::LeftOut => Some(Cause::P(StatementFault::LeftOut)),
        ExecKeyword::Unknown => Some(Cause::P(StatementFault::UnknownKeyword)),
        ExecKeyword::Condition => unreachable!(),
    }
}
