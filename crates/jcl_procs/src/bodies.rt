//! The body of a procedure: its symbols, and its statements without PROC and PEND.
ghost use Rattle.std.specs.Prelude.{◌≡◌, IfOk};
ghost use Rattle.std.specs.Option.{option_copied};
ghost use Rattle.jcl_deck.specs.declared.operation.Operation.TheVariants.{IsProc};
ghost use Rattle.jcl_procs.specs.Bodies.{Finds, is_proc, statements_by};
ghost use Rattle.jcl_procs.specs.Expansions.{and_then, body_by, body_named, body_of, in_deck};

use card_core::statement::Statement;
use jcl_cards::procedure::procedure_card;
use jcl_deck::deck::Procedure;
use jcl_deck::operation::{Operation, operation_of};
use jcl_plan::fault::{Cause, StatementFault};
use jcl_symbols::symbol::Symbol;
use jname_core::name8::Name8;
use plain::listed::Listed;
use plain::text::Text;
use proc_library::library::ProcLibrary;
use proc_library::reading::Reading;
use std::alloc::{AllocError, Global};
use value_core::refusal::ReadError;

/// Where a call finds its procedure.
#[derive(Drop)]
pub(crate) struct Sources<'a> {
    pub(crate) library: &'a ProcLibrary,
    /// Those of the stream.
    pub(crate) procedures: &'a [Procedure],
}

/// A procedure that is found.
#[derive(Drop)]
pub(crate) struct Body<'a> {
    pub(crate) symbols: Listed<Symbol>,
    pub(crate) statements: &'a [Statement],
}

fn copied_symbol(alloc: Global, symbol: &Symbol) -> Result<Symbol, AllocError>
    ensures { IfOk result (λ copy. copy ≡ symbol.now) }
{
    Ok(Symbol {
        name: symbol.name,
        value: Text::copy_of(alloc, symbol.value.as_slice())?,
    })
}

/// Symbols and their values, copied.
pub(crate) fn copied_symbols(
    alloc: Global,
    symbols: &[Symbol],
) -> Result<Listed<Symbol>, AllocError>
    ensures { IfOk result (λ copies. copies ≡ symbols.now) }
{
    let mut copies = Listed::empty(alloc);
    for symbol in symbols {
        copies.push(copied_symbol(alloc, symbol)?)?;
    }
    Ok(copies)
}

/// That of the statements behind a PROC statement, which gives symbols values where the call gives none.
fn body_behind_proc<'a>(
    alloc: Global,
    first: &Statement,
    behind: &'a [Statement],
) -> Result<Body<'a>, ReadError>
    ensures { Finds result (body_by IsProc first.now behind.now) }
{
    let card = procedure_card(
        alloc,
        false,
        first.name.as_slice(),
        first.operand.as_slice(),
    )?;
    Ok(Body {
        symbols: card.symbols,
        statements: behind,
    })
}

fn is_proc(statement: &Statement) -> bool
    ensures { result ≡ is_proc statement.now }
{
    match operation_of(statement.operation.as_slice()) {
        Operation::IsProc => true,
        _ => false,
    }
}

/// That of a procedure of the library, which may begin with a PROC statement.
fn body_of<'a>(alloc: Global, statements: &'a [Statement]) -> Result<Body<'a>, ReadError>
    ensures { Finds result (body_of statements.now) }
{
    if let Some((first, behind)) = statements.split_first() {
        if is_proc(first) {
            return body_behind_proc(alloc, first, behind);
        }
    }
    Ok(Body {
        symbols: Listed::empty(alloc),
        statements,
    })
}

/// That of a procedure of the library, whose cards were read when it was added; their first fault is told at each call.
fn body_read<'a>(alloc: Global, reading: &'a Reading) -> Result<Body<'a>, ReadError>
    ensures { Finds result (and_then (statements_by reading.now) body_of) }
{
    match reading {
        Ok(statements) => body_of(alloc, statements.as_slice()),
        Err(fault) => Err(ReadError::Refused(Cause::C(fault.number()))),
    }
}

/// The first procedure of a name in the stream.
fn in_deck<'a>(procedures: &'a [Procedure], name: Name8) -> Option<&'a Procedure>
    ensures { option_copied result ≡ in_deck procedures.now name }
{
    for procedure in procedures {
        if procedure.name.as_slice() == name.as_slice() {
            return Some(procedure);
        }
    }
    None
}

/// That of the procedure of a name: the first in the stream, else that of the library.
pub(crate) fn body_named<'a>(
    alloc: Global,
    sources: &Sources<'a>,
    name: Name8,
) -> Result<Body<'a>, ReadError>
    ensures { Finds result (body_named sources.now.library.now sources.now.procedures.now name) }
{
    if let Some(procedure) = in_deck(sources.procedures, name) {
        return Ok(Body {
            symbols: copied_symbols(alloc, procedure.symbols.as_slice())?,
            statements: procedure.statements.as_slice(),
        });
    }
    match sources.library.reading(&name) {
        Some(reading) => body_read(alloc, reading),
        None => Err(ReadError::Refused(Cause::P(StatementFault::NoSuchProcedure))),
    }
}
