//! Decks at the edges of the rules, and what they are: laws that are computed.
ghost use Rattle.text_rows.specs.Cards.{ReadsContinuations, ReadsData, ReadsFields, ReadsLines};

/// Lines: their length and their bytes, before all other faults.
pub fn reads_lines()
    ensures { ReadsLines }
{}

/// Continued operands and comments.
pub fn reads_continuations()
    ensures { ReadsContinuations }
{}

/// Fields to column 71, apostrophes and absent fields.
pub fn reads_fields()
    ensures { ReadsFields }
{}

/// Data cards.
pub fn reads_data()
    ensures { ReadsData }
{}
