//! What the cards of a procedure are.
ghost use Rattle.std.specs.Prelude.{◌≡◌, IfOk};
ghost use Rattle.card_core.specs.Deck.{statements_of};

use card_core::fault::CardFault;
use card_core::read::{ReadError, read_statements};
use card_core::statement::Statement;
use plain::lent::Lent;
use plain::listed::Listed;
use std::alloc::{AllocError, Global};

/// What the cards of a procedure are: its statements, or the first fault of its cards.
pub type Reading = Result<Listed<Statement>, CardFault>;

/// Statements in as much memory as they take.
fn kept(statements: Vec<Statement>) -> Listed<Statement>
    ensures { result ≡ statements.items }
{
    let mut statements = statements;
    statements.shrink_to_fit();
    Listed::new(statements)
}

/// What lines are as cards.
pub(crate) fn reading_of(alloc: Global, lines: &[Lent<'_>]) -> Result<Reading, AllocError>
    ensures { IfOk result (λ reading. reading ≡ statements_of lines.now) }
{
    match read_statements(alloc, lines) {
        Ok(statements) => Ok(Ok(kept(statements))),
        Err(ReadError::Fault(fault)) => Ok(Err(fault)),
        Err(ReadError::Memory) => Err(AllocError),
    }
}
