//! A card as a line of a deck lends it.
ghost use Rattle.std.specs.Prelude.{◌≡◌, ◌≤◌, codes, drop, length, nat_eq, take};
ghost use Rattle.std.specs.List.{list_all, starts_with};
ghost use Rattle.card_core.specs.Cards.{are_blank, columns, filled, is_blank, is_delimiter, is_jcl, is_null, kind_of, may_continue};
ghost use Rattle.card_core.specs.Reading.{Images};

use crate::card::{Kind, filled, is_blank, line_fault};
use crate::fault::CardFault;
use crate::statement::DataCard;
use std::marker::Model;

/// A card that lies in memory as its line, without the blanks that fill it.
#[derive(Drop)]
pub struct CardImage<'a> {
    line: &'a [u8],
}

impl<'a> Model for CardImage<'a> {
    ghost use Rattle.std.specs.Prelude.{◌≤◌, ℕ, List, length};
    ghost use Rattle.card_core.specs.Cards.{filled};

    ghost Value = { List ℕ };

    ghost view = { λ i. filled i.line.now };

    ghost invariant = { λ i. length i.line.now ≤ 80 };
}

/// Whether what the line has behind so many characters, up to the last, is blank.
fn are_blank_there(line: &[u8], before: usize, last: usize) -> bool
    ensures { result ≡ list_all is_blank (drop before (take last line.now)) }
{
    line.iter().take(last).skip(before).all(|c| is_blank(*c))
}

impl<'a> CardImage<'a> {
    /// The card of a line, or the line's fault.
    pub fn of_line(line: &'a [u8]) -> Result<CardImage<'a>, CardFault>
        ensures { Images result line.now }
    {
        match line_fault(line) {
            Some(fault) => Err(fault),
            None => Ok(CardImage::short(line)),
        }
    }

    /// The card of a line of at most 80 columns.
    pub(crate) fn short(line: &'a [u8]) -> CardImage<'a>
        requires { length line.now ≤ 80 }
        ensures { result ≡ filled line.now }
    {
        CardImage { line }
    }

    pub fn of_card(card: &'a DataCard) -> CardImage<'a>
        ensures { result ≡ card.now }
    {
        CardImage {
            line: card.as_slice(),
        }
    }

    /// All its columns.
    pub fn filled(&self) -> DataCard
        ensures { result ≡ self.now }
    {
        filled(self.line)
    }

    pub fn is_jcl(&self) -> bool
        ensures { result ≡ is_jcl self.now }
    {
        self.line.starts_with(b"//")
    }

    pub fn is_delimiter(&self) -> bool
        ensures { result ≡ is_delimiter self.now }
    {
        self.line.starts_with(b"/*")
    }

    fn is_comment(&self) -> bool
        ensures { result ≡ starts_with nat_eq self.now (codes "//*") }
    {
        self.line.starts_with(b"//*")
    }

    /// Whether the columns from the first to the last, which count from 1, are blank.
    fn is_blank_from(&self, first: usize, last: usize) -> bool
        requires from { 1 ≤ first }
        requires order { first ≤ last }
        ensures { result ≡ are_blank (columns first last self.now) }
    {
        are_blank_there(self.line, first - 1, last)
    }

    fn is_null(&self) -> bool
        ensures { result ≡ is_null self.now }
    {
        self.is_jcl() && self.is_blank_from(3, 71)
    }

    /// What the card is.
    pub fn kind(&self) -> Kind
        ensures { result ≡ kind_of self.now }
    {
        if self.is_comment() {
            Kind::Comment
        } else if self.is_delimiter() {
            Kind::Delimiter
        } else if self.is_null() {
            Kind::Null
        } else if self.is_jcl() {
            Kind::Jcl
        } else {
            Kind::Data
        }
    }

    /// Whether the card may continue the one before it.
    pub fn may_continue(&self) -> bool
        ensures { result ≡ may_continue self.now }
    {
        self.is_jcl() && self.is_blank_from(3, 3) && !self.is_null()
    }
}
