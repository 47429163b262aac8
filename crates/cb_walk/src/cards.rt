//! The faults of a record of cards.
ghost use Rattle.std.specs.Prelude.{◌≡◌, ◌||◌, ◌&&◌, ◌==◌, nat_lt, not};
ghost use Rattle.cb_meaning.specs.Fields.{byte_at, is_zero_but, part};
ghost use Rattle.cb_meaning.specs.Spelled.{card_fields};
ghost use Rattle.cb_meaning.specs.Walks.{are_printable, card_faults, lowest};
ghost use Rattle.cb_walk.specs.Faults.{second_card_bad};

use crate::fields::{field, is_zero_but};
use crate::texts::{are_printable, is_zero};
use cb_meaning::layout::{Field, Layout};
use cb_records::cards;
use cb_records::rec::Rec;

fn card_fields(layout: &Layout) -> [Field; 6]
    ensures { result ≡ card_fields layout.now }
{
    [
        field(0, 1),
        field(2, 2),
        layout.link,
        layout.next_cards,
        field(cards::COUNT, 1),
        cards::CARDS,
    ]
}

/// Of a record of one card the second one's place is zero.
fn is_second_bad(r: &Rec) -> bool
    ensures { result ≡ second_card_bad r.now }
{
    let second = r.text(cards::SECOND);
    r.byte(cards::COUNT) == 2 && !are_printable(second)
        || r.byte(cards::COUNT) == 1 && !is_zero(second)
}

fn are_cards_bad(r: &Rec) -> bool
    ensures { result ≡ (nat_lt (byte_at r.now 10) 1 || nat_lt 2 (byte_at r.now 10) || not (are_printable (part r.now 16 80))) }
{
    r.byte(cards::COUNT) < 1 || r.byte(cards::COUNT) > 2 || !are_printable(r.text(cards::FIRST))
}

/// The number of the fault of a record of cards, or none.
pub(crate) fn card_fault(layout: &Layout, r: &Rec) -> Option<u8>
    ensures { result ≡ lowest (card_faults layout.now r.now) }
{
    if are_cards_bad(r) || is_second_bad(r) || !is_zero_but(&card_fields(layout), r) {
        Some(12)
    } else {
        None
    }
}
