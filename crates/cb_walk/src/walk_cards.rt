//! The walk over the records of a DD's cards.
ghost use Rattle.std.specs.Prelude.{◌≡◌, ◌<◌, ◌*◌, ◌≢◌, ◌≤◌, length};
ghost use Rattle.cb_queue.specs.RecordQueues.{last_in_use};
ghost use Rattle.cb_walk.specs.Follows.{Ends, Passes, cards_from};

use crate::arrival::arrive;
use crate::cards::card_fault;
use cb_queue::store::RecordStore;
use cb_records::cards;
use cb_records::rec::Rec;

/// Passes one record of cards. Tells how many cards were read then, and the number of the next record, or a fault.
fn pass_cards<S: RecordStore>(
    store: &S,
    marks: &mut [u64],
    job: u16,
    stated: u32,
    read: u64,
    n: u32,
) -> Result<(u64, u32), u8>
    requires marks { last_in_use (S.queue store.now).records < 64 * length marks.old }
    requires within { read ≤ stated }
    requires some { n ≢ 0 }
    ensures { Passes (S.queue store.now) job stated read n marks.old marks.new result }
{
    let layout = store.layout();
    let mut r = Rec::zeroed();
    match arrive(store, marks, job, 5, n, &mut r) {
        Ok(()) => {}
        Err(fault) => return Err(fault),
    }
    match card_fault(layout, &r) {
        Some(fault) => return Err(fault),
        None => {}
    }
    let more = read + u64::from(r.byte(cards::COUNT));
    if u64::from(stated) < more {
        return Err(10);
    }
    Ok((more, r.number(layout.next_cards)))
}

/// Walks over the cards of a DD, so many as it states, and over so many records less one at most.
pub(crate) fn walk_cards<S: RecordStore>(
    store: &S,
    marks: &mut [u64],
    job: u16,
    fuel: u64,
    stated: u32,
    first: u32,
) -> Result<(), u8>
    requires { last_in_use (S.queue store.now).records < 64 * length marks.old }
    ensures { Ends marks.old marks.new (cards_from (S.queue store.now) job fuel stated 0 first) result }
{
    let mut n = first;
    let mut read = 0;
    let mut left = fuel;
    while left > 0 {
        if n == 0 {
            return if read == u64::from(stated) {
                Ok(())
            } else {
                Err(5)
            };
        }
        match pass_cards(store, marks, job, stated, read, n) {
            Ok((more, next)) => {
                read = more;
                n = next;
            }
            Err(fault) => return Err(fault),
        }
        left -= 1;
    }
    Err(4)
}
