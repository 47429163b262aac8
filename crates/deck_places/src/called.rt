//! The statement of a called procedure for which the call is refused.
ghost use Rattle.std.specs.Prelude.{◌≡◌, ◌∷◌, IfOk, Ok, slice_get, true};
ghost use Rattle.std.specs.Option.{option_copied};
ghost use Rattle.std.specs.Result.{result_ok};
ghost use Rattle.card_core.specs.Deck.{statements_of};
ghost use Rattle.jcl_deck.specs.Decks.{deck_of};
ghost use Rattle.jcl_procs.specs.Bodies.{is_proc};
ghost use Rattle.jcl_procs.specs.Calling.{call_of};
ghost use Rattle.jcl_procs.specs.Expansions.{in_deck};
ghost use Rattle.deck_places.specs.Called.{IsCalled, IsCalledFor, IsCalledIn, IsFirst, StandsAmong, called_among, called_in, calling_by, calling_of};
ghost use Rattle.deck_places.specs.Called.{found_in_deck, found_in_session, found_on, if_some, proc_of};
ghost use Rattle.deck_places.specs.Calling.{StandsOnCards, called_of, denoted};
ghost use Rattle.deck_places.specs.Tried.{AreTried, IsRefusal};

use crate::copies::cut;
use crate::same::is_same;
use crate::short::{short_of, with_more};
use crate::walk::walk_lines;
use card_core::read::{ReadError as CardError, read_statements};
use card_core::statement::{Card, Statement};
use jcl_cards::exec::{ExecCard, Runs, exec_card};
use jcl_cards::procedure::procedure_card;
use jcl_deck::deck::{Deck, Procedure};
use jcl_deck::operation::{Operation, operation_of};
use jcl_deck::read::read_deck;
use jcl_plan::fault::{Cause, StatementFault};
use jcl_procs::calls::{Caller, steps_of};
use jcl_symbols::symbol::Symbol;
use jname_core::name8::Name8;
use plain::listed::Listed;
use proc_library::library::ProcLibrary;
use std::alloc::{AllocError, Global};
use value_core::refusal::ReadError;

/// A statement of a called procedure, and where it stands. Statements and cards count from 0.
#[derive(Clone, Copy, PartialEq, Eq)]
pub struct CalledPlace {
    /// The procedure's name.
    pub procedure: Name8,
    /// The card of the deck on which its PROC statement begins; none of a procedure of the session.
    pub head: Option<usize>,
    /// The number of the statement among those of the procedure without PROC and PEND.
    pub statement: usize,
    /// The card on which the statement begins: of the deck, or of the procedure of the session.
    pub card: usize,
}

/// A call of a procedure: the name on the EXEC statement, and the symbols to which it gives values.
#[derive(Drop)]
pub(crate) struct Calling {
    pub(crate) procedure: Name8,
    pub(crate) name: Option<Name8>,
    pub(crate) symbols: Listed<Symbol>,
}

/// A procedure that is called.
#[derive(Clone, Copy)]
struct Found<'a> {
    symbols: &'a [Symbol],
    statements: &'a [Statement],
    /// The number of its PROC statement in the deck.
    proc: Option<usize>,
    /// The lines on which it stands.
    lines: &'a [Card<'a>],
    /// The number of its first statement among those of the lines.
    first: usize,
}

/// The call that an EXEC statement is.
fn calling_by(card: ExecCard) -> Option<Calling>
    ensures { result ≡ calling_by card.name card.runs }
{
    let ExecCard { name, runs, .. } = card;
    match runs {
        Runs::Program(_) => None,
        Runs::Procedure {
            name: procedure,
            symbols,
        } => Some(Calling {
            procedure,
            name,
            symbols,
        }),
    }
}

/// The call that a statement is.
pub(crate) fn calling_of(
    alloc: Global,
    statement: &Statement,
) -> Result<Option<Calling>, AllocError>
    ensures { IfOk result (λ calling. calling ≡ calling_of statement.now) }
{
    match operation_of(statement.operation.as_slice()) {
        Operation::IsExec => {}
        _ => return Ok(None),
    }
    match exec_card(
        alloc,
        statement.name.as_slice(),
        statement.operand.as_slice(),
    ) {
        Ok(card) => Ok(calling_by(card)),
        Err(ReadError::Refused(_)) => Ok(None),
        Err(ReadError::Memory) => Err(AllocError),
    }
}

/// The deck that statements are.
pub(crate) fn deck_in(alloc: Global, statements: &[Statement]) -> Result<Option<Deck>, AllocError>
    ensures { IfOk result (λ deck. deck ≡ result_ok (deck_of statements.now)) }
{
    let copies = cut(alloc, statements, statements.len())?;
    match read_deck(alloc, copies) {
        Ok(deck) => Ok(Some(deck)),
        Err(ReadError::Refused(_)) => Ok(None),
        Err(ReadError::Memory) => Err(AllocError),
    }
}

/// The first procedure of a name in the deck.
fn in_deck<'a>(procedures: &'a [Procedure], name: Name8) -> Option<&'a Procedure>
    ensures { option_copied result ≡ in_deck procedures.now name }
{
    for procedure in procedures {
        if procedure.name.as_slice() == name.as_slice() {
            return Some(procedure);
        }
    }
    None
}

pub(crate) fn is_proc(statement: &Statement) -> bool
    ensures { result ≡ is_proc statement.now }
{
    match operation_of(statement.operation.as_slice()) {
        Operation::IsProc => true,
        _ => false,
    }
}

/// The number of the first PROC statement of a name.
fn proc_of(name: Name8, statements: &[Statement]) -> Option<usize>
    ensures { result ≡ proc_of name statements.now }
{
    for (n, statement) in statements.iter().enumerate() {
        if is_proc(statement) && statement.name.as_slice() == name.as_slice() {
            return Some(n);
        }
    }
    None
}

/// What statements that are read at a call are found to be.
#[derive(Drop)]
enum Tried {
    /// They are taken so far: these stand for them.
    Taken(Vec<Statement>),
    Refused(Cause),
}

/// Reads statements at a call.
fn read_part(
    alloc: Global,
    caller: &Caller<'_>,
    statements: Vec<Statement>,
) -> Result<Tried, AllocError>
    ensures { IfOk result (AreTried (call_of caller.now) statements.items) }
{
    let own = Caller { ..*caller };
    match steps_of(alloc, own, statements.as_slice()) {
        Ok(_) => Ok(Tried::Taken(short_of(alloc, statements.as_slice())?)),
        Err(ReadError::Refused(cause)) => {
            if is_same(cause, Cause::P(StatementFault::NoStep)) {
                Ok(Tried::Taken(statements))
            } else {
                Ok(Tried::Refused(cause))
            }
        }
        Err(ReadError::Memory) => Err(AllocError),
    }
}

/// A statement of a procedure with which a call is refused, and for what.
#[derive(Clone, Copy)]
pub(crate) struct Refusal {
    pub(crate) statement: usize,
    pub(crate) cause: Cause,
}

/// The first statement with which those of a procedure are refused at a call. What stands for those that are taken is read before the next.
pub(crate) fn first_refusal(
    alloc: Global,
    caller: &Caller<'_>,
    statements: &[Statement],
) -> Result<Option<Refusal>, AllocError>
    ensures { IfOk result (IsRefusal (call_of caller.now) statements.now) }
{
    let mut short = Vec::new(alloc);
    let mut low = 0;
    let mut high = statements.len() + 1;
    let mut found = None;
    while low + 1 < high {
        let middle = low + (high - low) / 2;
        let more = with_more(alloc, short.as_slice(), statements, low, middle)?;
        match read_part(alloc, caller, more)? {
            Tried::Taken(next) => {
                short = next;
                low = middle;
            }
            Tried::Refused(cause) => {
                found = Some(cause);
                high = middle;
            }
        }
    }
    match found {
        Some(cause) => Ok(Some(Refusal {
            statement: low,
            cause,
        })),
        None => Ok(None),
    }
}

/// The first statement with which those of a procedure are refused for this at a call.
fn first_refused(
    alloc: Global,
    caller: &Caller<'_>,
    statements: &[Statement],
    cause: Cause,
) -> Result<Option<usize>, AllocError>
    ensures { IfOk result (IsFirst (call_of caller.now) statements.now cause) }
{
    let Some(refusal) = first_refusal(alloc, caller, statements)? else {
        return Ok(None);
    };
    if is_same(refusal.cause, cause) {
        Ok(Some(refusal.statement))
    } else {
        Ok(None)
    }
}

/// The card on which a statement begins, if one is asked for.
fn head_card(begun: &[usize], proc: Option<usize>) -> Option<usize>
    ensures { result ≡ if_some proc (slice_get begun.now) }
{
    match proc {
        Some(n) => begun.get(n).copied(),
        None => None,
    }
}

/// The statement of a procedure for which a call of it is refused for this.
fn called_in(
    alloc: Global,
    calling: &Calling,
    found: &Found<'_>,
    cause: Cause,
) -> Result<Option<CalledPlace>, AllocError>
    requires { StandsOnCards (denoted found.now) }
    ensures { IfOk result (IsCalledIn (called_of calling.now found.now) cause) }
{
    let caller = Caller {
        name: calling.name,
        place: 1,
        symbols: calling.symbols.as_slice(),
        own_symbols: found.symbols,
    };
    let Some(statement) = first_refused(alloc, &caller, found.statements, cause)? else {
        return Ok(None);
    };
    let begun = walk_lines(alloc, found.lines)?.begun;
    let begun = begun.as_slice();
    Ok(Some(CalledPlace {
        procedure: calling.procedure,
        head: head_card(begun, found.proc),
        statement,
        card: begun[found.first + statement],
    }))
}

/// The same of a procedure of the deck.
fn called_in_deck(
    alloc: Global,
    lines: &[Card<'_>],
    statements: &[Statement],
    calling: &Calling,
    procedure: &Procedure,
    cause: Cause,
) -> Result<Option<CalledPlace>, AllocError>
    requires read { statements_of lines.now ≡ Ok statements.now }
    requires stands { StandsAmong statements.now calling.now.procedure procedure.now }
    ensures { IfOk result (IsCalledFor (called_in calling.now (found_in_deck lines.now statements.now calling.now.procedure procedure.now)) cause) }
{
    let Some(n) = proc_of(calling.procedure, statements) else {
        return Ok(None);
    };
    let found = Found {
        symbols: procedure.symbols.as_slice(),
        statements: procedure.statements.as_slice(),
        proc: Some(n),
        lines,
        first: n + 1,
    };
    called_in(alloc, calling, &found, cause)
}

/// The same of the statements of a procedure of the session behind its PROC statement.
fn called_behind(
    alloc: Global,
    lines: &[Card<'_>],
    proc: &Statement,
    behind: &[Statement],
    calling: &Calling,
    cause: Cause,
) -> Result<Option<CalledPlace>, AllocError>
    requires read { statements_of lines.now ≡ Ok (proc.now ∷ behind.now) }
    requires head { is_proc proc.now ≡ true }
    ensures { IfOk result (IsCalledFor (called_in calling.now (found_on lines.now (proc.now ∷ behind.now))) cause) }
{
    let card = match procedure_card(alloc, false, proc.name.as_slice(), proc.operand.as_slice()) {
        Ok(card) => card,
        Err(ReadError::Refused(_)) => return Ok(None),
        Err(ReadError::Memory) => return Err(AllocError),
    };
    let found = Found {
        symbols: card.symbols.as_slice(),
        statements: behind,
        proc: None,
        lines,
        first: 1,
    };
    called_in(alloc, calling, &found, cause)
}

/// The same of the statements of a procedure of the session.
fn called_on(
    alloc: Global,
    lines: &[Card<'_>],
    statements: &[Statement],
    calling: &Calling,
    cause: Cause,
) -> Result<Option<CalledPlace>, AllocError>
    requires { statements_of lines.now ≡ Ok statements.now }
    ensures { IfOk result (IsCalledFor (called_in calling.now (found_on lines.now statements.now)) cause) }
{
    if let Some((proc, behind)) = statements.split_first() {
        if is_proc(proc) {
            return called_behind(alloc, lines, proc, behind, calling, cause);
        }
    }
    let found = Found {
        symbols: &[],
        statements,
        proc: None,
        lines,
        first: 0,
    };
    called_in(alloc, calling, &found, cause)
}

/// The same of a procedure of the session.
pub(crate) fn called_in_session(
    alloc: Global,
    library: &ProcLibrary,
    calling: &Calling,
    cause: Cause,
) -> Result<Option<CalledPlace>, AllocError>
    ensures { IfOk result (IsCalledFor (called_in calling.now (found_in_session library.now calling.now.procedure)) cause) }
{
    let Some(procedure) = library.find(&calling.procedure) else {
        return Ok(None);
    };
    let lines = procedure.lines.lent(alloc)?;
    match read_statements(alloc, lines.as_slice()) {
        Ok(statements) => called_on(
            alloc,
            lines.as_slice(),
            statements.as_slice(),
            calling,
            cause,
        ),
        Err(CardError::Fault(_)) => Ok(None),
        Err(CardError::Memory) => Err(AllocError),
    }
}

/// The same of the call that the k-th of a deck's statements is.
fn called_among(
    alloc: Global,
    library: &ProcLibrary,
    lines: &[Card<'_>],
    statements: &[Statement],
    k: usize,
    cause: Cause,
) -> Result<Option<CalledPlace>, AllocError>
    requires { statements_of lines.now ≡ Ok statements.now }
    ensures { IfOk result (IsCalledFor (called_among library.now lines.now statements.now k) cause) }
{
    let Some(deck) = deck_in(alloc, statements)? else {
        return Ok(None);
    };
    let Some(statement) = statements.get(k) else {
        return Ok(None);
    };
    let Some(calling) = calling_of(alloc, statement)? else {
        return Ok(None);
    };
    match in_deck(deck.procedures.as_slice(), calling.procedure) {
        Some(procedure) => called_in_deck(alloc, lines, statements, &calling, procedure, cause),
        None => called_in_session(alloc, library, &calling, cause),
    }
}

/// The statement of the procedure that the k-th statement of a deck, from 0, calls, for which the call is refused for this. None where that statement
/// calls no procedure that can be read, or the call is refused for something else.
pub fn called_statement(
    alloc: Global,
    library: &ProcLibrary,
    lines: &[Card<'_>],
    k: usize,
    cause: Cause,
) -> Result<Option<CalledPlace>, AllocError>
    ensures { IfOk result (IsCalled library.now lines.now k cause) }
{
    match read_statements(alloc, lines) {
        Ok(statements) => called_among(alloc, library, lines, statements.as_slice(), k, cause),
        Err(CardError::Fault(_)) => Ok(None),
        Err(CardError::Memory) => Err(AllocError),
    }
}
