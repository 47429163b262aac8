//! What a deck is made of.
use card_core::statement::Statement;
use jcl_cards::exec::ExecCard;
use jcl_cards::job::JobCard;
use jcl_dds::dd::DdCard;
use jcl_symbols::symbol::Symbol;
use jname_core::name8::Name8;
use plain::listed::Listed;

/// A procedure in the stream. Its statements are read at each call.
#[derive(Drop)]
pub struct Procedure {
    pub name: Name8,
    /// Symbols and the values that they have where a call gives none.
    pub symbols: Listed<Symbol>,
    /// EXEC and DD statements.
    pub statements: Listed<Statement>,
}

/// An EXEC statement and the DD statements behind it.
#[derive(Drop)]
pub struct DeckStep {
    pub exec: ExecCard,
    pub dds: Listed<DdCard>,
}

/// A deck that was read.
#[derive(Drop)]
pub struct Deck {
    pub job: JobCard,
    /// At most 15. Of two of one name the first is called.
    pub procedures: Listed<Procedure>,
    pub steps: Listed<DeckStep>,
}
