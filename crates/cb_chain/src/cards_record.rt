//! A record of one card or two.
ghost use Rattle.std.specs.Prelude.{◌≡◌, ◌≤◌, length};
ghost use Rattle.std.specs.List.{flat_map};
ghost use Rattle.cb_meaning.specs.Fields.{then_zeros};
ghost use Rattle.cb_chain.specs.Composed.{IsCards};
ghost use Rattle.cb_chain.specs.Written.{HoldsJobs};

use crate::head::headed;
use crate::texts::put_behind;
use cb_meaning::layout::Layout;
use cb_records::cards;
use cb_records::rec::Rec;
use jcl_plan::plan::Record;

/// One card or two, and zeros behind them.
fn card_bytes(cards: &[Record]) -> [u8; 160]
    requires { length cards.now ≤ 2 }
    ensures { result ≡ then_zeros 160 (flat_map (λ card. card) cards.now) }
{
    let mut own = [0; 160];
    for (i, card) in cards.iter().enumerate() {
        put_behind(&mut own, 80 * i, card);
    }
    own
}

/// A record of one card or two, with the number of the next such record.
pub(crate) fn cards_record(layout: &Layout, job: u16, cards: &[Record], next: u32) -> Rec
    requires holds { HoldsJobs layout.now }
    requires some { 1 ≤ length cards.now }
    requires most { length cards.now ≤ 2 }
    requires next { next ≤ layout.now.most_records }
    ensures { IsCards layout.now job cards.now next result }
{
    let mut rec = headed(5, job);
    rec.write_number(layout.next_cards, next);
    rec.write_byte(cards::COUNT, cards.len() as u8);
    rec.write_part(cards::CARDS, &card_bytes(cards));
    rec
}
