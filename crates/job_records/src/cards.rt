//! A card of a chain of records, which have one card or two each.
ghost use Rattle.std.specs.Prelude.{◌≡◌, ◌<◌, length};
ghost use Rattle.cb_meaning.specs.Layouts.{HasOwnFields};
ghost use Rattle.cb_meaning.specs.Readings.{cards_of_record};
ghost use Rattle.cb_meaning.specs.Spelled.{card_record};
ghost use Rattle.cb_queue.specs.RecordQueues.{shown};
ghost use Rattle.cb_read.specs.Kinds.{IsOfKind};
ghost use Rattle.job_records.specs.Fields.{fields_of_cards};
ghost use Rattle.job_records.specs.Recorded.{HasCard, IsCardPlace};
ghost use Rattle.job_records.specs.Said.{cards_said};
ghost use Rattle.job_text.specs.Places.{card_at};

use crate::lent::cards_of;
use cb_queue::store::RecordStore;
use cb_read::cards::card;
use cb_records::cards::CardsView;
use jcl_plan::plan::Record;

/// Where a card stands: in the record of this number, and at this place of it, from 0.
#[derive(Clone, Copy)]
pub(crate) struct CardPlace {
    pub(crate) n: u32,
    pub(crate) place: usize,
}

/// How many cards a record has.
fn count(r: &CardsView<'_>) -> usize
    ensures { result ≡ length (cards_said (fields_of_cards r.now.layout.now r.now.bytes.now)) }
{
    if r.count() == 2 { 2 } else { 1 }
}

/// One of them, from 0.
fn card_in(r: &CardsView<'_>, place: usize) -> Record
    requires { place < length (cards_said (fields_of_cards r.now.layout.now r.now.bytes.now)) }
    ensures { result ≡ card_at (cards_said (fields_of_cards r.now.layout.now r.now.bytes.now)) place }
{
    if place == 0 {
        card(r.first())
    } else {
        card(r.second())
    }
}

/// Where the card of a place stands, from 0, of the records from one on.
pub(crate) fn find_card<S: RecordStore>(store: &S, first: u32, place: usize) -> CardPlace
    requires own { HasOwnFields (S.queue store.now).layout }
    requires there { HasCard (S.queue store.now) first place }
    ensures { IsCardPlace (S.queue store.now) first place result }
{
    let mut n = first;
    let mut left = place;
    while left > 0 {
        let view = cards_of(store, n);
        let here = count(&view);
        if left < here {
            return CardPlace { n, place: left };
        }
        left -= here;
        n = view.next();
    }
    CardPlace { n, place: 0 }
}

/// The card that stands there.
pub(crate) fn card_there<S: RecordStore>(store: &S, at: CardPlace) -> Record
    requires own { HasOwnFields (S.queue store.now).layout }
    requires kind { IsOfKind (S.queue store.now) card_record at.n }
    requires there { at.place < length (cards_of_record ((shown (S.queue store.now)).at at.n)) }
    ensures { result ≡ card_at (cards_of_record ((shown (S.queue store.now)).at at.n)) at.place }
{
    card_in(&cards_of(store, at.n), at.place)
}
