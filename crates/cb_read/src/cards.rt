//! The cards of a DD.
ghost use Rattle.std.specs.Prelude.{◌≡◌, ◌+◌, ◌++◌, IfOk, OnOk, length};
ghost use Rattle.cb_meaning.specs.Readings.{cards_of_record};
ghost use Rattle.cb_read.specs.Chains.{cards_from};
ghost use Rattle.cb_read.specs.Kinds.{AreCards};

use cb_queue::store::RecordStore;
use cb_records::cards::CardsView;
use cb_records::rec::Rec;
use cb_walk::arrival::bring;
use jcl_plan::plan::Record;
use plain::listed::Listed;
use std::alloc::{AllocError, Global};

/// A card of its own.
pub fn card(text: &[u8]) -> Record
    requires { length text.now ≡ 80 }
    ensures { result ≡ text.now }
{
    let mut card = [0; 80];
    card.copy_from_slice(text);
    card
}

/// Adds the cards of one record.
fn add_cards(cards: &mut Listed<Record>, r: &CardsView<'_>) -> Result<(), AllocError>
    ensures { OnOk result (cards.new ≡ cards.old ++ cards_of_record r.now.bytes.now) }
{
    cards.push(card(r.first()))?;
    if r.count() == 2 {
        cards.push(card(r.second()))?;
    }
    Ok(())
}

/// The cards of the records from one on.
pub(crate) fn cards_read<S: RecordStore>(
    alloc: Global,
    store: &S,
    first: u32,
) -> Result<Listed<Record>, AllocError>
    requires { AreCards (S.queue store.now) ((S.queue store.now).layout.most_records + 1) first }
    ensures { IfOk result (λ cards. cards ≡ cards_from (S.queue store.now) first) }
{
    let layout = store.layout();
    let mut cards = Listed::empty(alloc);
    let mut r = Rec::zeroed();
    let mut n = first;
    let mut left = u64::from(layout.most_records) + 1;
    while left > 0 {
        if n == 0 {
            return Ok(cards);
        }
        bring(store, n, &mut r);
        let view = CardsView { bytes: &r, layout };
        add_cards(&mut cards, &view)?;
        n = view.next();
        left -= 1;
    }
    Ok(cards)
}
