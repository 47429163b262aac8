//! The DDs of a step are written, each with what stands below it.
ghost use Rattle.std.specs.Prelude.{◌≡◌, ◌≢◌, ◌≤◌, ◌+◌, [], ◌∷◌, IsTrue, length};
ghost use Rattle.cb_meaning.specs.Needs.{records_below};
ghost use Rattle.cb_chain.specs.Taking.{DdsFrom, IsReady, IsTaken, Links, OfDds, OfKind, Writes, dds_needed};
ghost use Rattle.cb_chain.specs.Written.{HoldsDds, HoldsExpiry, HoldsKind};

use crate::cards::write_cards;
use crate::dd_record::siot_record;
use crate::set_record::jfcb_record;
use crate::take::{is_more, take_if};
use cb_meaning::layout::Layout;
use cb_queue::store::RecordStore;
use jcl_plan::plan::{DdKind, DdPlan, SetPlan};

/// Writes a data set into a free record. Tells its number.
fn write_set<S: RecordStore>(store: &mut S, layout: &Layout, job: u16, set: &SetPlan) -> u32
    requires owner { job ≢ 0 }
    requires ready { IsReady (S.queue store.old) }
    requires layout { layout.now ≡ (S.queue store.old).layout }
    requires expiry { HoldsExpiry layout.now set.now.expiry }
    requires room { S.lacking store.old + 1 ≤ length (S.queue store.old).free }
    ensures value { Writes 1 (OfKind layout.now job (DdKind.Set set.now)) (S.queue store.old) (S.queue store.new) result }
    ensures room { S.lacking store.new ≡ S.lacking store.old }
{
    let here = take_if(store, job, true);
    store.put(here, &jfcb_record(layout, job, set));
    here
}

/// Writes what stands below a DD into free records. Tells the number of the first, 0 without any.
fn write_below<S: RecordStore>(store: &mut S, layout: &Layout, job: u16, kind: &DdKind) -> u32
    requires owner { job ≢ 0 }
    requires ready { IsReady (S.queue store.old) }
    requires layout { layout.now ≡ (S.queue store.old).layout }
    requires days { HoldsKind layout.now kind.now }
    requires room { S.lacking store.old + records_below kind.now ≤ length (S.queue store.old).free }
    ensures value { Writes (records_below kind.now) (OfKind layout.now job kind.now) (S.queue store.old) (S.queue store.new) result }
    ensures room { S.lacking store.new ≡ S.lacking store.old }
{
    match kind {
        DdKind::Sysout(_) => 0,
        DdKind::Dummy => 0,
        DdKind::Cards(cards) => write_cards(store, layout, job, cards.as_slice()),
        DdKind::Set(set) => write_set(store, layout, job, set),
    }
}

/// Writes a DD into a record that was taken, and what stands below it into free ones, and takes the next one where more DDs follow. Tells its
/// number.
fn write_dd<S: RecordStore>(
    store: &mut S,
    layout: &Layout,
    job: u16,
    here: u32,
    dd: &DdPlan,
    more: bool,
) -> u32
    requires owner { job ≢ 0 }
    requires ready { IsReady (S.queue store.old) }
    requires layout { layout.now ≡ (S.queue store.old).layout }
    requires taken { IsTaken job (S.queue store.old) here }
    requires days { HoldsKind layout.now dd.now.kind }
    requires room { S.lacking store.old + records_below dd.now.kind ≤ length (S.queue store.old).free }
    requires next { IsTrue more → S.lacking store.old + records_below dd.now.kind + 1 ≤ length (S.queue store.old).free }
    ensures value { Links job (records_below dd.now.kind) (DdsFrom layout.now job) (dd.now ∷ []) more here (S.queue store.old) (S.queue store.new) result }
    ensures room { S.lacking store.new ≡ S.lacking store.old }
{
    let below = write_below(store, layout, job, &dd.kind);
    let next = take_if(store, job, more);
    store.put(here, &siot_record(layout, job, dd, below, next));
    next
}

/// Writes DDs into free records. Tells the number of the first, 0 without any DD.
pub(crate) fn write_dds<S: RecordStore>(
    store: &mut S,
    layout: &Layout,
    job: u16,
    dds: &[DdPlan],
) -> u32
    requires owner { job ≢ 0 }
    requires ready { IsReady (S.queue store.old) }
    requires layout { layout.now ≡ (S.queue store.old).layout }
    requires days { HoldsDds layout.now dds.now }
    requires room { S.lacking store.old + dds_needed dds.now ≤ length (S.queue store.old).free }
    ensures value { Writes (dds_needed dds.now) (OfDds layout.now job dds.now) (S.queue store.old) (S.queue store.new) result }
    ensures room { S.lacking store.new ≡ S.lacking store.old }
{
    let first = take_if(store, job, is_more(dds));
    let mut here = first;
    let mut rest = dds;
    while let Some((dd, behind)) = rest.split_first() {
        here = write_dd(store, layout, job, here, dd, is_more(behind));
        rest = behind;
    }
    first
}
