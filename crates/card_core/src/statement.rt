//! What cards are and what they say.
use plain::lent::Lent;
use plain::listed::Listed;
use plain::small::SmallText;

/// A line of a deck as it was read; it is taken as filled with blanks to 80 columns.
pub type Card<'a> = Lent<'a>;

/// A data card: all 80 columns.
pub type DataCard = [u8; 80];

/// A statement: its name field, operation and operand, and the data cards behind it where it is `DD *` or `DD DATA`.
///
/// A data card that no statement opens stands behind a statement `SYSIN DD *`. An absent field is empty.
#[derive(Drop)]
pub struct Statement {
    pub name: SmallText<14>,
    pub operation: SmallText<14>,
    pub operand: SmallText<22>,
    pub cards: Option<Listed<DataCard>>,
}
