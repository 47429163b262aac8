//! What stands below an SIOT: the JFCB of a set, or cards.
ghost use Rattle.std.specs.Prelude.{◌≡◌, ◌<◌, ◌*◌, length};
ghost use Rattle.cb_queue.specs.RecordQueues.{last_in_use};
ghost use Rattle.cb_walk.specs.Below.{below_from, jfcb_from};
ghost use Rattle.cb_walk.specs.Follows.{Ends};

use crate::arrival::arrive;
use crate::set::jfcb_fault;
use crate::walk_cards::walk_cards;
use cb_queue::store::RecordStore;
use cb_records::rec::Rec;
use cb_records::siot::{has_cards, is_set};
use plain::listed::Listed;

/// Walks over the JFCB of a DD, which stands behind these DDs and steps.
fn walk_jfcb<S: RecordStore>(
    store: &S,
    marks: &mut [u64],
    job: u16,
    steps: &[Listed<bool>],
    dds: &[bool],
    siot: &Rec,
    n: u32,
) -> Result<(), u8>
    requires { last_in_use (S.queue store.now).records < 64 * length marks.old }
    ensures { Ends marks.old marks.new (jfcb_from (S.queue store.now) job steps.now dds.now siot.now n) result }
{
    let layout = store.layout();
    let mut r = Rec::zeroed();
    match arrive(store, marks, job, 4, n, &mut r) {
        Ok(()) => {}
        Err(fault) => return Err(fault),
    }
    match jfcb_fault(layout, steps, dds, siot, &r) {
        Some(fault) => Err(fault),
        None => Ok(()),
    }
}

/// Walks over what stands below an SIOT.
pub(crate) fn walk_below<S: RecordStore>(
    store: &S,
    marks: &mut [u64],
    job: u16,
    fuel: u64,
    steps: &[Listed<bool>],
    dds: &[bool],
    siot: &Rec,
) -> Result<(), u8>
    requires { last_in_use (S.queue store.now).records < 64 * length marks.old }
    ensures { Ends marks.old marks.new (below_from (S.queue store.now) job fuel steps.now dds.now siot.now) result }
{
    let layout = store.layout();
    let below = siot.number(layout.below);
    if is_set(siot) {
        walk_jfcb(store, marks, job, steps, dds, siot, below)
    } else if has_cards(siot) {
        walk_cards(store, marks, job, fuel, siot.number(layout.cards), below)
    } else {
        Ok(())
    }
}
