//! The cards of a deck as its lines lend them.
ghost use Rattle.std.specs.Prelude.{◌≡◌, ◌∷◌, [], ◌<◌, ◌≤◌, ◌^◌, ◌++◌, MatchOption, OnOk, drop, length, take};
ghost use Rattle.card_core.specs.Cards.{first_line_fault};
ghost use Rattle.card_core.specs.Reading.{cards_of};

use crate::card::{filled, line_fault};
use crate::fault::CardFault;
use crate::image::CardImage;
use crate::statement::{Card, DataCard};
use std::alloc::AllocError;
use std::marker::Model;

/// Cards that lie in memory as their lines, each of at most 80 columns.
#[derive(Drop)]
pub struct CardImages<'a, 'b> {
    lines: &'a [Card<'b>],
}

impl<'a, 'b> Model for CardImages<'a, 'b> {
    ghost use Rattle.std.specs.Prelude.{◌≤◌, ℕ, List, length, map};
    ghost use Rattle.std.specs.List.{All};
    ghost use Rattle.card_core.specs.Cards.{filled};

    ghost Value = { List (List ℕ) };

    ghost view = { λ i. map filled i.lines.now };

    ghost invariant = { λ i. All (λ line. length line ≤ 80) i.lines.now };
}

/// The first fault of a line.
fn first_line_fault(lines: &[Card<'_>]) -> Option<CardFault>
    ensures { result ≡ first_line_fault lines.now }
{
    for line in lines {
        if let Some(fault) = line_fault(line.as_slice()) {
            return Some(fault);
        }
    }
    None
}

impl<'a, 'b> CardImages<'a, 'b> {
    /// The cards of these lines, or the first fault of a line.
    pub fn of_lines(lines: &'a [Card<'b>]) -> Result<CardImages<'a, 'b>, CardFault>
        ensures { result ≡ cards_of lines.now }
    {
        match first_line_fault(lines) {
            Some(fault) => Err(fault),
            None => Ok(CardImages { lines }),
        }
    }

    pub fn len(&self) -> usize
        ensures { result ≡ length self.now }
    {
        self.lines.len()
    }

    /// The first card, and those behind it.
    pub fn split_first(&self) -> Option<(CardImage<'b>, CardImages<'a, 'b>)>
        ensures { MatchOption result (self.now ≡ []) (λ p. self.now ≡ p.0 ∷ p.1) }
    {
        match self.lines.split_first() {
            Some((line, lines)) => Some((CardImage::short(line.as_slice()), CardImages { lines })),
            None => None,
        }
    }

    /// The cards behind so many.
    pub fn behind(&self, count: usize) -> CardImages<'a, 'b>
        requires { count ≤ length self.now }
        ensures rest { result ≡ drop count self.now }
        ensures bound { length self.now < 2 ^ 64 }
    {
        let (_, lines) = self.lines.split_at(count);
        CardImages { lines }
    }

    /// Puts so many cards from the first on behind others, with all their columns. After an `Err` the list is of no use.
    pub fn push_filled(&self, count: usize, out: &mut Vec<DataCard>) -> Result<(), AllocError>
        requires { count ≤ length self.now }
        ensures { OnOk result (out.new.items ≡ out.old.items ++ take count self.now) }
    {
        out.reserve(count)?;
        let (lines, _) = self.lines.split_at(count);
        for line in lines {
            out.push(filled(line.as_slice()))?;
        }
        Ok(())
    }
}
