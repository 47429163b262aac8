//! The cards that lines are.
ghost use Rattle.std.specs.Prelude.{◌≡◌};
ghost use Rattle.deck_places.specs.Cards.{bad_line};
ghost use Rattle.deck_places.specs.Walks.{AreLined};

use card_core::card::line_fault;
use card_core::images::CardImages;
use card_core::statement::Card;

/// What lines are: cards, or the first of them that is none.
#[derive(Drop)]
pub(crate) enum Lined<'a, 'b> {
    Cards(CardImages<'a, 'b>),
    Bad(usize),
}

/// The first line that is no card.
fn bad_line(lines: &[Card<'_>]) -> Option<usize>
    ensures { result ≡ bad_line lines.now }
{
    for (n, line) in lines.iter().enumerate() {
        if line_fault(line.as_slice()).is_some() {
            return Some(n);
        }
    }
    None
}

/// The cards that lines are.
pub(crate) fn cards_of<'a, 'b>(lines: &'a [Card<'b>]) -> Lined<'a, 'b>
    ensures { AreLined lines.now result }
{
    match CardImages::of_lines(lines) {
        Ok(cards) => Lined::Cards(cards),
        Err(_) => match bad_line(lines) {
            Some(n) => Lined::Bad(n),
            None => unreachable!(),
        },
    }
}
