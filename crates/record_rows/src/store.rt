//! Records that are taken and given back, and what stands in them.
ghost use Rattle.std.specs.Prelude.{◌≡◌, ◌≢◌, [], true};

use crate::record::{tell_record, with_bytes};
use cb_meaning::layout::{LAYOUT_1, Layout};
use cb_queue::list_store::ListStore;
use cb_queue::store::RecordStore;
use cb_records::rec::Rec;
use chain_store::store::ChainStore;
use row_table::desk::Line;
use row_table::told::Told;
use std::alloc::{AllocError, Global};

#[derive(Clone, Copy)]
pub(crate) enum StoreVerb {
    Take,
    Give,
    GiveAll,
    Set,
    Status,
    Record,
    Free,
    Most,
}

/// A store of so few records.
const FEW: Layout = Layout {
    most_records: 9,
    ..LAYOUT_1
};

/// A store as the rows begin with.
pub(crate) trait RowStore: RecordStore + Drop {
    /// All records of the first layout, free.
    fn whole(alloc: Global) -> Result<Self, AllocError>;

    /// 9 records of the first layout, free.
    fn few(alloc: Global) -> Result<Self, AllocError>;
}

impl RowStore for ListStore {
    fn whole(alloc: Global) -> Result<ListStore, AllocError> {
        ListStore::new(alloc, LAYOUT_1)
    }

    fn few(alloc: Global) -> Result<ListStore, AllocError> {
        ListStore::new(alloc, FEW)
    }
}

impl RowStore for ChainStore {
    fn whole(alloc: Global) -> Result<ChainStore, AllocError> {
        ChainStore::new(alloc, LAYOUT_1)
    }

    fn few(alloc: Global) -> Result<ChainStore, AllocError> {
        ChainStore::new(alloc, FEW)
    }
}

/// Takes a record for a job, if one is free.
fn take_one<S: RecordStore>(store: &mut S, owner: u16) -> Result<Option<u32>, AllocError>
    requires { owner ≢ 0 }
{
    if store.free_count() == 0 {
        return Ok(None);
    }
    store.make_room(1)?;
    Ok(store.take_free(owner))
}

/// Takes so many records for a job, and tells their numbers.
fn take<S: RecordStore>(store: &mut S, owner: u16, count: u16, told: &mut Told)
    requires { owner ≢ 0 }
{
    told.word(b"TAKEN");
    for _ in 0..count {
        match told.got(take_one(store, owner)) {
            None => return,
            Some(None) => told.word(b" NONE"),
            Some(Some(n)) => told.numbered(b" ", u64::from(n)),
        }
    }
    told.end_line();
}

/// Writes a record in use anew, if it keeps its owner.
pub(crate) fn put<S: RecordStore>(store: &mut S, n: u32, rec: &Rec) -> bool {
    let layout = *store.layout();
    let Some(was) = store.get(n) else {
        return false;
    };
    if n > layout.most_records || was.owner() != rec.owner() {
        return false;
    }
    store.put(n, rec);
    true
}

/// Writes bytes of a record in use from a place on, if it keeps its owner.
pub(crate) fn set_bytes<S: RecordStore>(store: &mut S, n: u32, at: u8, bytes: &[u8]) -> bool {
    let Some(was) = store.get(n) else {
        return false;
    };
    let Some(rec) = with_bytes(was, at, bytes) else {
        return false;
    };
    put(store, n, &rec)
}

/// Writes the status of a record, if it is in use.
fn write_status<S: RecordStore>(store: &mut S, n: u32, text: &[u8]) -> bool {
    if store.get(n).is_none() || text.len() != 8 {
        return false;
    }
    let mut status = [0; 8];
    status.copy_from_slice(text);
    store.write_status(n, &status);
    true
}

/// Whether nobody waits.
pub(crate) fn nobody_waits<S: RecordStore>(store: &S) -> bool
    ensures { result ≡ true → (S.queue store.now).waiting ≡ [] }
{
    store.waiting_count() == 0
}

/// Gives a record back, if it is in use, where nobody waits.
fn give_back<S: RecordStore>(store: &mut S, n: u32, told: &mut Told) {
    if store.get(n).is_none() {
        return told.not_allowed();
    }
    if nobody_waits(store) {
        store.give_back(n);
    } else {
        told.not_allowed();
    }
}

/// Gives every record of an owner back, where nobody waits.
fn give_all_back<S: RecordStore>(store: &mut S, owner: u16, told: &mut Told)
    requires { owner ≢ 0 }
{
    if nobody_waits(store) {
        store.give_back_all(owner);
    } else {
        told.not_allowed();
    }
}

/// The bytes of a record in use. What stands in its link is the store's own, and not shown.
pub(crate) fn tell_record_of<S: RecordStore>(store: &S, n: u32, told: &mut Told) {
    match store.get(n) {
        None => told.line(b"NONE"),
        Some(rec) => {
            let link = store.layout().link;
            let zeros = [0; 4];
            let width = usize::from(link.width).min(4);
            if let Some(unlinked) = with_bytes(rec, link.at, &zeros[..width]) {
                tell_record(told, unlinked.bytes());
            }
        }
    }
}

/// Takes records for an owner, or gives all of its records back.
fn on_owner<S: RecordStore>(store: &mut S, takes: bool, line: &mut Line<'_>) {
    let owner = line.words.short();
    if owner == 0 {
        return line.told.not_allowed();
    }
    if takes {
        take(store, owner, line.words.short(), &mut line.told);
    } else {
        give_all_back(store, owner, &mut line.told);
    }
}

/// Writes bytes of a record from a place on.
fn set<S: RecordStore>(alloc: Global, store: &mut S, line: &mut Line<'_>) {
    let n = line.words.number();
    let at = line.words.byte();
    if let Some(bytes) = line.told.got(line.words.text(alloc))
        && !set_bytes(store, n, at, bytes.as_slice())
    {
        line.told.not_allowed();
    }
}

fn set_status<S: RecordStore>(alloc: Global, store: &mut S, line: &mut Line<'_>) {
    let n = line.words.number();
    if let Some(status) = line.told.got(line.words.text(alloc))
        && !write_status(store, n, status.as_slice())
    {
        line.told.not_allowed();
    }
}

/// Does a command about the records of a store.
pub(crate) fn on_store<S: RecordStore>(
    alloc: Global,
    store: &mut S,
    verb: StoreVerb,
    line: &mut Line<'_>,
) {
    match verb {
        StoreVerb::Take => on_owner(store, true, line),
        StoreVerb::Give => give_back(store, line.words.number(), &mut line.told),
        StoreVerb::GiveAll => on_owner(store, false, line),
        StoreVerb::Set => set(alloc, store, line),
        StoreVerb::Status => set_status(alloc, store, line),
        StoreVerb::Record => tell_record_of(store, line.words.number(), &mut line.told),
        StoreVerb::Free => line
            .told
            .numbered_line(b"FREE ", u64::from(store.free_count())),
        StoreVerb::Most => line
            .told
            .numbered_line(b"MOST ", u64::from(store.layout().most_records)),
    }
}
