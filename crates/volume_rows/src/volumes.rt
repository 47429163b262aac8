//! A volume and its sets.
ghost use Rattle.std.specs.Prelude.{◌≤◌};

use crate::keys::{column, holes, key, keys_in, volume_tracks};
use crate::tells::{tell_answer, tell_counts, tell_extents, tell_fault, tell_set};
use row_table::desk::{Desk, Line};
use row_table::told::Told;
use std::alloc::Global;
use vtoc_core::entry::SetKey;
use vtoc_core::volume::Volume;

/// What is done to a set.
#[derive(Clone, Copy)]
enum SetVerb {
    Make,
    From,
    Grow,
    Trim,
    Scratch,
    Append,
    Write,
    Clear,
    Show,
    Order,
}

#[derive(Clone, Copy)]
enum Verb {
    Reserve,
    Counts,
    Set(SetVerb),
}

const VERBS: [(&str, Verb); 12] = [
    ("RESERVE", Verb::Reserve),
    ("COUNTS", Verb::Counts),
    ("MAKE", Verb::Set(SetVerb::Make)),
    ("FROM", Verb::Set(SetVerb::From)),
    ("GROW", Verb::Set(SetVerb::Grow)),
    ("TRIM", Verb::Set(SetVerb::Trim)),
    ("SCRATCH", Verb::Set(SetVerb::Scratch)),
    ("APPEND", Verb::Set(SetVerb::Append)),
    ("WRITE", Verb::Set(SetVerb::Write)),
    ("CLEAR", Verb::Set(SetVerb::Clear)),
    ("SHOW", Verb::Set(SetVerb::Show)),
    ("ORDER", Verb::Set(SetVerb::Order)),
];

/// Makes a set of so many tracks, not to be deleted before a day.
fn make(alloc: Global, volume: &mut Volume, key: &SetKey, line: &mut Line<'_>) {
    let tracks = line.words.short();
    let expires = if line.words.is_empty() {
        None
    } else {
        Some(line.words.number())
    };
    tell_answer(
        &mut line.told,
        volume.make_set(alloc, *key, tracks, expires),
    );
}

/// Makes a set of tracks that are set aside first, and tells those that are given back.
fn make_from(alloc: Global, volume: &mut Volume, key: &SetKey, tracks: u16, told: &mut Told) {
    let list = match volume.reserve(tracks) {
        Ok(list) => list,
        Err(fault) => return tell_fault(told, b"V", fault.number()),
    };
    match volume.make_from(alloc, list, *key, None) {
        Ok(()) => told.line(b"OK"),
        Err((list, fault)) => {
            tell_fault(told, b"V", fault.number());
            told.word(b"GIVEN BACK ");
            tell_extents(told, list.extents());
            told.end_line();
            volume.give_back(list);
        }
    }
}

/// Sets tracks aside, tells them and gives them back.
fn reserve(volume: &mut Volume, tracks: u16, told: &mut Told) {
    match volume.reserve(tracks) {
        Ok(list) => {
            tell_extents(told, list.extents());
            told.end_line();
            volume.give_back(list);
        }
        Err(fault) => tell_fault(told, b"V", fault.number()),
    }
}

/// Whether the keys are of one set, and else which is before the other.
fn tell_order(own: &SetKey, line: &mut Line<'_>) {
    let Some(other) = key(&mut line.words) else {
        return;
    };
    if own.is_same(&other) {
        line.told.line(b"SAME");
    } else if own < &other {
        line.told.line(b"BEFORE");
    } else {
        line.told.line(b"BEHIND");
    }
}

/// Does a command about a set.
fn on_set(alloc: Global, volume: &mut Volume, verb: SetVerb, key: &SetKey, line: &mut Line<'_>) {
    match verb {
        SetVerb::Make => make(alloc, volume, key, line),
        SetVerb::From => make_from(alloc, volume, key, line.words.short(), &mut line.told),
        SetVerb::Grow => tell_answer(&mut line.told, volume.grow(key, line.words.short())),
        SetVerb::Trim => tell_answer(
            &mut line.told,
            volume.trim(key, usize::from(line.words.short())),
        ),
        SetVerb::Scratch => tell_answer(&mut line.told, volume.scratch(key)),
        SetVerb::Append => tell_answer(
            &mut line.told,
            volume.append(key, [column(&mut line.words); 80]),
        ),
        SetVerb::Write => tell_answer(
            &mut line.told,
            volume.write_first(key, [column(&mut line.words); 80]),
        ),
        SetVerb::Clear => tell_answer(&mut line.told, volume.clear(key)),
        SetVerb::Show => tell_set(&mut line.told, volume.find(key)),
        SetVerb::Order => tell_order(key, line),
    }
}

/// A volume, and the keys of its row.
#[derive(Drop)]
pub(crate) struct Sets {
    volume: Volume,
    keys: Vec<SetKey>,
}

impl Desk for Sets {
    fn show(&mut self, _alloc: Global, told: &mut Told) {
        tell_counts(told, &self.volume.track_counts());
        for key in self.keys.as_slice() {
            tell_set(told, self.volume.find(key));
        }
    }

    fn act(&mut self, alloc: Global, line: &mut Line<'_>) {
        match line.words.one_of(&VERBS) {
            Some(Verb::Reserve) => reserve(&mut self.volume, line.words.short(), &mut line.told),
            Some(Verb::Counts) => tell_counts(&mut line.told, &self.volume.track_counts()),
            Some(Verb::Set(verb)) => {
                if let Some(key) = key(&mut line.words) {
                    on_set(alloc, &mut self.volume, verb, &key, line);
                }
            }
            None => {}
        }
    }
}

/// A volume of so many tracks, beside the keys that the lines say.
pub(crate) fn new_sets(alloc: Global, line: &mut Line<'_>) -> Option<Sets> {
    let tracks = volume_tracks(&mut line.words);
    let holes = holes(alloc, line);
    let volume = line.told.got(Volume::new(alloc, tracks, holes.as_slice()))?;
    let keys = keys_in(alloc, line);
    Some(Sets { volume, keys })
}
