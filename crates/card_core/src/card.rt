//! One card by its columns.
ghost use Rattle.std.specs.Prelude.{◌≡◌, ◌≤◌, length, not};
ghost use Rattle.std.specs.List.{list_any};
ghost use Rattle.card_core.specs.Cards.{is_blank, is_printable, filled, columns, are_blank, kind_of, line_fault, is_marked};
ghost use Rattle.card_core.specs.Reading.{Images};

use crate::fault::CardFault;
use crate::image::CardImage;
use crate::statement::DataCard;

const COLUMNS: usize = 80;

/// A card of blanks.
const BLANKS: DataCard = [b' '; COLUMNS];

/// What a card is.
#[derive(Clone, Copy, PartialEq, Eq)]
pub enum Kind {
    /// `//*`
    Comment,
    /// `/*`
    Delimiter,
    /// `//` and blanks to column 71.
    Null,
    /// `//` and more.
    Jcl,
    /// Any other.
    Data,
}

pub fn is_blank(c: u8) -> bool
    ensures { result ≡ is_blank c }
{
    c == b' '
}

fn is_printable(c: u8) -> bool
    ensures { result ≡ is_printable c }
{
    0x20 <= c && c <= 0x7e
}

/// The card of a line of at most 80 columns, filled with blanks.
pub(crate) fn filled(line: &[u8]) -> DataCard
    requires { length line.now ≤ 80 }
    ensures { result ≡ filled line.now }
{
    let mut card = BLANKS;
    card[..line.len()].copy_from_slice(line);
    card
}

/// Whether some byte of the line is no printable character.
fn has_bad_byte(line: &[u8]) -> bool
    ensures { result ≡ list_any (λ c. not (is_printable c)) line.now }
{
    let mut found = false;
    for c in line.iter() {
        found |= !is_printable(*c);
    }
    found
}

/// The fault of a line.
pub fn line_fault(line: &[u8]) -> Option<CardFault>
    ensures { result ≡ line_fault line.now }
{
    if line.len() > COLUMNS {
        return Some(CardFault::LineTooLong);
    }
    if has_bad_byte(line) {
        return Some(CardFault::BadByte);
    }
    None
}

/// The card of a line, filled with blanks.
pub fn card_of(line: &[u8]) -> Result<DataCard, CardFault>
    ensures { Images result line.now }
{
    match line_fault(line) {
        Some(fault) => Err(fault),
        None => Ok(filled(line)),
    }
}

/// The columns from the first to the last, which count from 1.
pub fn columns(card: &DataCard, first: usize, last: usize) -> &[u8]
    requires from { 1 ≤ first }
    requires order { first ≤ last }
    requires to { last ≤ 80 }
    ensures { result.now ≡ columns first last card.now }
{
    &card[first - 1..last]
}

fn are_blank(text: &[u8]) -> bool
    ensures { result ≡ are_blank text.now }
{
    text.iter().all(|c| is_blank(*c))
}

/// What a card is.
pub fn kind_of(card: &DataCard) -> Kind
    ensures { result ≡ kind_of card.now }
{
    CardImage::of_card(card).kind()
}

/// Whether column 72 says that a comment goes on.
pub fn is_marked(card: &DataCard) -> bool
    ensures { result ≡ is_marked card.now }
{
    !are_blank(columns(card, 72, 72))
}
