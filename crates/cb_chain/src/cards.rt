//! The cards of a DD are written, two in a record.
ghost use Rattle.std.specs.Prelude.{◌≡◌, ◌≢◌, ◌+◌, ◌≤◌, IsTrue, length};
ghost use Rattle.cb_chain.specs.Taking.{CardsFrom, IsReady, IsTaken, Links, OfKind, Writes, cards_needed};

use crate::cards_record::cards_record;
use crate::take::{is_more, take_if};
use cb_meaning::layout::Layout;
use cb_queue::store::RecordStore;
use jcl_plan::plan::{DdKind, Record};

/// Writes one card or two into a record that was taken, and takes the next one where more cards follow. Tells its number.
fn write_pair<S: RecordStore>(
    store: &mut S,
    layout: &Layout,
    job: u16,
    here: u32,
    cards: &[Record],
    more: bool,
) -> u32
    requires owner { job ≢ 0 }
    requires ready { IsReady (S.queue store.old) }
    requires layout { layout.now ≡ (S.queue store.old).layout }
    requires taken { IsTaken job (S.queue store.old) here }
    requires room { IsTrue more → S.lacking store.old + 1 ≤ length (S.queue store.old).free }
    requires some { 1 ≤ length cards.now }
    requires most { length cards.now ≤ 2 }
    requires full { IsTrue more → length cards.now ≡ 2 }
    ensures value { Links job 0 (CardsFrom layout.now job) cards.now more here (S.queue store.old) (S.queue store.new) result }
    ensures room { S.lacking store.new ≡ S.lacking store.old }
{
    let next = take_if(store, job, more);
    store.put(here, &cards_record(layout, job, cards, next));
    next
}

/// Writes cards into free records. Tells the number of the first, 0 without any card.
pub(crate) fn write_cards<S: RecordStore>(
    store: &mut S,
    layout: &Layout,
    job: u16,
    cards: &[Record],
) -> u32
    requires owner { job ≢ 0 }
    requires ready { IsReady (S.queue store.old) }
    requires layout { layout.now ≡ (S.queue store.old).layout }
    requires room { S.lacking store.old + cards_needed cards.now ≤ length (S.queue store.old).free }
    ensures value { Writes (cards_needed cards.now) (OfKind layout.now job (DdKind.Cards cards.now)) (S.queue store.old) (S.queue store.new) result }
    ensures room { S.lacking store.new ≡ S.lacking store.old }
{
    let first = take_if(store, job, is_more(cards));
    let mut here = first;
    let mut rest = cards;
    while is_more(rest) {
        let (pair, behind) = rest.split_at(rest.len().min(2));
        here = write_pair(store, layout, job, here, pair, is_more(behind));
        rest = behind;
    }
    first
}
