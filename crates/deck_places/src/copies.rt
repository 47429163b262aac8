//! Copies of statements.
ghost use Rattle.std.specs.Prelude.{◌≡◌, IfOk};
ghost use Rattle.deck_places.specs.Cuts.{cut, inside_behind};

use card_core::statement::{DataCard, Statement};
use jcl_deck::operation::{Operation, operation_of};
use plain::listed::Listed;
use plain::small::SmallText;
use std::alloc::{AllocError, Global};

fn copy_of_cards(
    alloc: Global,
    cards: &Option<Listed<DataCard>>,
) -> Result<Option<Listed<DataCard>>, AllocError>
    ensures { IfOk result (λ copy. copy ≡ cards.now) }
{
    match cards {
        None => Ok(None),
        Some(cards) => Ok(Some(Listed::copy_of(alloc, cards.as_slice())?)),
    }
}

/// A statement, copied.
pub fn copy_of(alloc: Global, statement: &Statement) -> Result<Statement, AllocError>
    ensures { IfOk result (λ copy. copy ≡ statement.now) }
{
    Ok(Statement {
        name: SmallText::copy_of(alloc, statement.name.as_slice())?,
        operation: SmallText::copy_of(alloc, statement.operation.as_slice())?,
        operand: SmallText::copy_of(alloc, statement.operand.as_slice())?,
        cards: copy_of_cards(alloc, &statement.cards)?,
    })
}

/// Whether what follows a statement is inside a procedure a statement.
pub(crate) fn inside_behind(statement: &Statement, inside: bool) -> bool
    ensures { result ≡ inside_behind statement.now inside }
{
    match operation_of(statement.operation.as_slice()) {
        Operation::IsProc => true,
        Operation::IsPend => false,
        _ => inside,
    }
}

/// The first of a deck's statements, and of those behind them the procedures, copied.
pub(crate) fn cut(
    alloc: Global,
    statements: &[Statement],
    count: usize,
) -> Result<Vec<Statement>, AllocError>
    ensures { IfOk result (λ kept. kept.items ≡ cut count statements.now) }
{
    let mut kept = Vec::new(alloc);
    let mut inside = false;
    let mut left = count;
    for statement in statements {
        let opens = inside_behind(statement, inside);
        if 0 < left || inside || opens {
            kept.push(copy_of(alloc, statement)?)?;
        }
        inside = opens;
        left = left.saturating_sub(1);
    }
    Ok(kept)
}
