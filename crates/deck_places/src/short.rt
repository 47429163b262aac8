//! The first statements of a procedure in short.
ghost use Rattle.std.specs.Prelude.{◌≡◌, ◌++◌, ◌-◌, ◌≤◌, IfOk, OnOk, drop, length, take};
ghost use Rattle.deck_places.specs.Short.{is_exec, short_of, with_next};

use crate::copies::copy_of;
use card_core::statement::Statement;
use jcl_deck::operation::{Operation, operation_of};
use std::alloc::{AllocError, Global};

pub(crate) fn is_exec(statement: &Statement) -> bool
    ensures { result ≡ is_exec statement.now }
{
    match operation_of(statement.operation.as_slice()) {
        Operation::IsExec => true,
        _ => false,
    }
}

/// Puts one more statement behind those that stand for the ones before it.
fn put_next(
    alloc: Global,
    short: &mut Vec<Statement>,
    statement: &Statement,
) -> Result<(), AllocError>
    ensures { OnOk result (short.new.items ≡ with_next short.old.items statement.now) }
{
    if is_exec(statement) {
        short.clear();
        short.push(copy_of(alloc, statement)?)?;
    } else if short.len() == 1 {
        short.push(copy_of(alloc, statement)?)?;
    }
    Ok(())
}

/// What stands for the first statements of a procedure: the last EXEC statement of them, and the one behind it.
pub(crate) fn short_of(
    alloc: Global,
    statements: &[Statement],
) -> Result<Vec<Statement>, AllocError>
    ensures { IfOk result (λ short. short.items ≡ short_of statements.now) }
{
    let mut short = Vec::new(alloc);
    for statement in statements {
        put_next(alloc, &mut short, statement)?;
    }
    Ok(short)
}

/// Puts copies of statements behind others.
fn put_copies(
    alloc: Global,
    kept: &mut Vec<Statement>,
    statements: &[Statement],
) -> Result<(), AllocError>
    ensures { OnOk result (kept.new.items ≡ kept.old.items ++ statements.now) }
{
    for statement in statements {
        kept.push(copy_of(alloc, statement)?)?;
    }
    Ok(())
}

/// Statements, and behind them those from one to before another.
pub(crate) fn with_more(
    alloc: Global,
    short: &[Statement],
    statements: &[Statement],
    from: usize,
    to: usize,
) -> Result<Vec<Statement>, AllocError>
    requires order { from ≤ to }
    requires within { to ≤ length statements.now }
    ensures { IfOk result (λ more. more.items ≡ short.now ++ take (to - from) (drop from statements.now)) }
{
    let mut more = Vec::new(alloc);
    put_copies(alloc, &mut more, short)?;
    let (_, behind) = statements.split_at(from);
    let (between, _) = behind.split_at(to - from);
    put_copies(alloc, &mut more, between)?;
    Ok(more)
}
