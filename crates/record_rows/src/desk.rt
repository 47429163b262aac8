//! What the commands of a row are about, and which of them there are.
use crate::image::{Image, ImageVerb, no_image, on_image};
use crate::job::{DeckVerb, JobVerb, on_deck, on_job};
use crate::names::{CancelVerb, on_cancels, tell_held, tell_listings};
use crate::record::{RecordVerb, on_record};
use crate::store::{RowStore, StoreVerb, on_store};
use crate::sweep::tell_sweep;
use crate::waiting::{WaitingVerb, on_waiting};
use cb_queue::list_store::ListStore;
use cb_records::rec::Rec;
use chain_store::store::ChainStore;
use queued_job::cancels::Cancels;
use row_table::desk::Line;
use row_table::told::Told;
use std::alloc::Global;

/// What a line says.
#[derive(Clone, Copy)]
enum Verb {
    Record(RecordVerb),
    Store(StoreVerb),
    Few,
    Deck(DeckVerb),
    Job(JobVerb),
    Hold,
    Sweep,
    Waiting(WaitingVerb),
    Cancels(CancelVerb),
    Listings,
    Image(ImageVerb),
}

const VERBS: [(&str, Verb); 41] = [
    ("ZEROS", Verb::Record(RecordVerb::Zeros)),
    ("PLACES", Verb::Record(RecordVerb::Places)),
    ("ALL", Verb::Record(RecordVerb::All)),
    ("BYTE", Verb::Record(RecordVerb::Byte)),
    ("NUMBER", Verb::Record(RecordVerb::Number)),
    ("TEXT", Verb::Record(RecordVerb::Text)),
    ("FIELD", Verb::Record(RecordVerb::Field)),
    ("FIELDS", Verb::Record(RecordVerb::Fields)),
    ("SHOW", Verb::Record(RecordVerb::Show)),
    ("FEW", Verb::Few),
    ("TAKE", Verb::Store(StoreVerb::Take)),
    ("GIVE", Verb::Store(StoreVerb::Give)),
    ("GIVE-ALL", Verb::Store(StoreVerb::GiveAll)),
    ("SET", Verb::Store(StoreVerb::Set)),
    ("STATUS", Verb::Store(StoreVerb::Status)),
    ("RECORD", Verb::Store(StoreVerb::Record)),
    ("FREE", Verb::Store(StoreVerb::Free)),
    ("MOST", Verb::Store(StoreVerb::Most)),
    ("PLAN", Verb::Deck(DeckVerb::Plan)),
    ("ROOM", Verb::Deck(DeckVerb::Room)),
    ("WRITE", Verb::Deck(DeckVerb::Write)),
    ("ENTER", Verb::Deck(DeckVerb::Enter)),
    ("HOLD", Verb::Hold),
    ("READ", Verb::Job(JobVerb::Read)),
    ("FAULT", Verb::Job(JobVerb::Fault)),
    ("TRY", Verb::Job(JobVerb::Try)),
    ("RELEASE", Verb::Job(JobVerb::Release)),
    ("SWEEP", Verb::Sweep),
    ("WAIT", Verb::Waiting(WaitingVerb::Wait)),
    ("WAITING", Verb::Waiting(WaitingVerb::Waiting)),
    ("FIRST", Verb::Waiting(WaitingVerb::First)),
    ("SELECT", Verb::Waiting(WaitingVerb::Select)),
    ("REMOVE", Verb::Waiting(WaitingVerb::Remove)),
    ("CANCEL", Verb::Cancels(CancelVerb::Cancel)),
    ("ACTED", Verb::Cancels(CancelVerb::Acted)),
    ("CANCELLED", Verb::Cancels(CancelVerb::Cancelled)),
    ("LISTINGS", Verb::Listings),
    ("IMAGE", Verb::Image(ImageVerb::Size)),
    ("BYTES", Verb::Image(ImageVerb::Bytes)),
    ("WAITS", Verb::Image(ImageVerb::Job)),
    ("MIGRATE", Verb::Image(ImageVerb::Migrate)),
];

/// A record in hand, records in a store with the jobs that wait, the cancels that have not acted yet, and an image.
#[derive(Drop)]
struct Desk<S: RowStore> {
    rec: Rec,
    store: S,
    cancels: Cancels,
    image: Image,
}

/// A store of 9 records in place of the one so far.
fn take_few<S: RowStore>(alloc: Global, store: &mut S, told: &mut Told) {
    if let Some(few) = told.got(S::few(alloc)) {
        *store = few;
    }
}

/// Does a command.
fn act<S: RowStore>(alloc: Global, desk: &mut Desk<S>, line: &mut Line<'_>) {
    let store = &mut desk.store;
    match line.words.one_of(&VERBS) {
        Some(Verb::Record(verb)) => on_record(alloc, &mut desk.rec, verb, line),
        Some(Verb::Store(verb)) => on_store(alloc, store, verb, line),
        Some(Verb::Few) => take_few(alloc, store, &mut line.told),
        Some(Verb::Deck(verb)) => on_deck(alloc, store, verb, line),
        Some(Verb::Job(verb)) => on_job(alloc, store, verb, line),
        Some(Verb::Hold) => tell_held(alloc, line),
        Some(Verb::Sweep) => tell_sweep(alloc, store, line),
        Some(Verb::Waiting(verb)) => on_waiting(alloc, store, verb, line),
        Some(Verb::Cancels(verb)) => on_cancels(&mut desk.cancels, verb, line),
        Some(Verb::Listings) => tell_listings(alloc, line),
        Some(Verb::Image(verb)) => on_image(alloc, &mut desk.image, verb, line),
        None => {}
    }
}

/// What the commands of a row tell, in turn, over a store of a kind.
fn answer_over<S: RowStore>(alloc: Global, input: &[u8], store: S) -> Told {
    let mut desk = Desk {
        rec: Rec::zeroed(),
        store,
        cancels: Cancels::new(alloc),
        image: no_image(alloc),
    };
    let mut line = Line::new(alloc, input);
    for _ in 0..input.len() {
        if !line.next() {
            break;
        }
        act(alloc, &mut desk, &mut line);
        if line.words.is_wrong() {
            let text = line.text();
            line.told.line_of_two(b"?", text);
        }
    }
    line.told
}

/// What the commands of a row tell, in turn. They are done over each kind of store, and where these tell something else, that is told.
pub fn answer(alloc: Global, input: &[u8], told: &mut Told) {
    let Some(list) = told.got(ListStore::whole(alloc)) else {
        return;
    };
    let Some(chains) = told.got(ChainStore::whole(alloc)) else {
        return;
    };
    let of_list = answer_over(alloc, input, list);
    let of_chains = answer_over(alloc, input, chains);
    told.append(&of_list);
    if of_chains.as_slice() != of_list.as_slice() {
        told.line(b"THE STORES DIFFER");
        told.append(&of_chains);
    }
}
