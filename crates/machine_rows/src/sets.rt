//! What jobs do to the sets of one store, each to what it sees.
ghost use Rattle.std.specs.Prelude.{◌≤◌};

use jcl_meaning::state::Place;
use jcl_plan::plan::MOST_TRACKS;
use jname_core::key::{Key, Sign};
use jname_core::serial::Serial;
use mount_core::mounted::Mounted;
use row_table::desk::Line;
use row_table::names::{ds_name, name8, serial};
use row_table::told::Told;
use row_table::words::Words;
use shared_core::store::SharedStore;
use std::alloc::Global;
use store_core::job_store::{JobStore, RoomFault, SetFacts};
use vtoc_core::entry::Extent;

/// What is done to a set.
#[derive(Clone, Copy)]
pub(crate) enum SetVerb {
    Make,
    Grow,
    Append,
    Record,
    Empty,
    Trim,
    Scratch,
    Set,
}

#[derive(Clone, Copy)]
enum Kind {
    Named,
    Temporary,
    Unnamed,
    Newer,
}

const KINDS: [(&str, Kind); 4] = [
    ("NAMED", Kind::Named),
    ("TEMP", Kind::Temporary),
    ("DD", Kind::Unnamed),
    ("NEWER", Kind::Newer),
];

/// Takes the next words as the key of a set.
fn key(words: &mut Words<'_>) -> Option<Key> {
    match words.one_of(&KINDS)? {
        Kind::Named => Some(Key::Named(ds_name(words)?)),
        Kind::Temporary => Some(Key::Temporary(name8(words)?)),
        Kind::Unnamed => {
            let step = words.short();
            let dd = words.short();
            Some(Key::Unnamed { step, dd })
        }
        Kind::Newer => {
            let base = ds_name(words)?;
            let (sign, amount) = (Sign::Plus, words.byte());
            Some(Key::Relative { base, sign, amount })
        }
    }
}

/// Takes all further words as tracks that are never free.
fn holes(alloc: Global, line: &mut Line<'_>) -> Vec<Extent> {
    let mut holes = Vec::new(alloc);
    for _ in 0..64u8 {
        if line.words.is_empty() {
            break;
        }
        let start = line.words.short();
        if holes.push(Extent { start, tracks: 1 }).is_err() {
            line.told.want();
        }
    }
    holes
}

/// Mounts a volume of so many tracks.
pub(crate) fn mount(alloc: Global, store: &mut SharedStore, line: &mut Line<'_>) {
    let Some(serial) = serial(&mut line.words) else {
        return;
    };
    let tracks = line.words.short();
    let holes = holes(alloc, line);
    if tracks > MOST_TRACKS {
        return line.told.not_allowed();
    }
    if let Some(mounted) = line
        .told
        .got(Mounted::new(alloc, serial, tracks, holes.as_slice()))
    {
        line.told.over(store.volumes.push(mounted));
    }
}

fn tell_facts(told: &mut Told, facts: Option<SetFacts>) {
    let Some(facts) = facts else {
        return told.line(b"NONE");
    };
    told.numbered(b"TRACKS ", facts.tracks);
    if let Some(day) = facts.expires {
        told.numbered(b" EXPIRES ", u64::from(day));
    }
    told.numbered_line(b" RECORDS ", facts.records as u64);
}

/// The byte that stands in all columns of a record.
fn tell_columns(told: &mut Told, record: Option<[u8; 80]>) {
    let Some(record) = record else {
        return told.line(b"NONE");
    };
    let first = record[0];
    if record == [first; 80] {
        told.numbered_line(b"ALL ", u64::from(first));
    } else {
        told.line(b"COLUMNS DIFFER");
    }
}

fn tell_room(told: &mut Told, answer: Result<(), RoomFault>) {
    match answer {
        Ok(()) => {}
        Err(RoomFault::NotGranted) => told.line(b"NOT GRANTED"),
        Err(RoomFault::Memory) => told.want(),
    }
}

/// Makes a set of a job where it has none of that key.
fn make(
    store: &mut SharedStore,
    job: u16,
    key: &Key,
    serial: Serial,
    tracks: u16,
    told: &mut Told,
) {
    if store.set(job, key, serial).is_some() {
        return told.not_allowed();
    }
    let place = Place {
        step: 0,
        dd: 0,
        serial,
    };
    tell_room(told, store.make(job, key, &place, tracks, None));
}

/// Does a command about the set of a job, by its key and its volume.
pub(crate) fn on_set(store: &mut SharedStore, verb: SetVerb, line: &mut Line<'_>) {
    let job = line.words.short();
    let (Some(key), Some(serial)) = (key(&mut line.words), serial(&mut line.words)) else {
        return;
    };
    match verb {
        SetVerb::Make => make(store, job, &key, serial, line.words.short(), &mut line.told),
        SetVerb::Grow => tell_room(
            &mut line.told,
            store.grow(job, &key, serial, line.words.short()),
        ),
        SetVerb::Append => line
            .told
            .over(store.append(job, &key, serial, &[line.words.byte(); 80])),
        SetVerb::Record => {
            let place = usize::from(line.words.short());
            tell_columns(&mut line.told, store.record(job, &key, serial, place));
        }
        SetVerb::Empty => store.empty(job, &key, serial),
        SetVerb::Trim => store.trim(job, &key, serial),
        SetVerb::Scratch => store.scratch(job, &key, serial),
        SetVerb::Set => tell_facts(&mut line.told, store.set(job, &key, serial)),
    }
}
