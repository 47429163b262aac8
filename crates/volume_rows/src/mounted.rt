//! A mounted volume, and the tracks that are kept on it.
ghost use Rattle.std.specs.Prelude.{◌≤◌};

use crate::keys::{holes, key, keys_in, volume_tracks};
use crate::tells::{tell_answer, tell_counts, tell_set};
use jname_core::serial::Serial;
use mount_core::mounted::Mounted;
use mount_core::place::KeptPlace;
use row_table::desk::{Desk, Line};
use row_table::told::Told;
use row_table::words::Words;
use std::alloc::Global;
use vtoc_core::entry::SetKey;

#[derive(Clone, Copy)]
enum Verb {
    Keep,
    Make,
    Give,
    Counts,
    Show,
}

const VERBS: [(&str, Verb); 5] = [
    ("KEEP", Verb::Keep),
    ("MAKE", Verb::Make),
    ("GIVE", Verb::Give),
    ("COUNTS", Verb::Counts),
    ("SHOW", Verb::Show),
];

/// Takes the next words as the place of a DD: its job, its step and its number.
fn place(words: &mut Words<'_>) -> KeptPlace {
    let job = words.short();
    let step = usize::from(words.short());
    let dd = usize::from(words.short());
    KeptPlace { job, step, dd }
}

/// Keeps tracks for a place.
fn keep(mounted: &mut Mounted, line: &mut Line<'_>) {
    let place = place(&mut line.words);
    tell_answer(&mut line.told, mounted.keep(place, line.words.short()));
}

/// Makes a set of the tracks that are kept for a place, or of free ones.
fn make(alloc: Global, mounted: &mut Mounted, line: &mut Line<'_>) {
    let place = place(&mut line.words);
    if let Some(key) = key(&mut line.words) {
        tell_answer(
            &mut line.told,
            mounted.make(alloc, &place, key, line.words.short(), None),
        );
    }
}

fn give(mounted: &mut Mounted, line: &mut Line<'_>) {
    let place = place(&mut line.words);
    mounted.give_back(&place);
    line.told.line(b"OK");
}

fn show(mounted: &Mounted, line: &mut Line<'_>) {
    if let Some(key) = key(&mut line.words) {
        tell_set(&mut line.told, mounted.volume().find(&key));
    }
}

/// A mounted volume, and the keys of its row.
#[derive(Drop)]
pub(crate) struct Kept {
    mounted: Mounted,
    keys: Vec<SetKey>,
}

impl Desk for Kept {
    fn show(&mut self, _alloc: Global, told: &mut Told) {
        let volume = self.mounted.volume();
        tell_counts(told, &volume.track_counts());
        for key in self.keys.as_slice() {
            tell_set(told, volume.find(key));
        }
    }

    fn act(&mut self, alloc: Global, line: &mut Line<'_>) {
        let mounted = &mut self.mounted;
        match line.words.one_of(&VERBS) {
            Some(Verb::Keep) => keep(mounted, line),
            Some(Verb::Make) => make(alloc, mounted, line),
            Some(Verb::Give) => give(mounted, line),
            Some(Verb::Counts) => tell_counts(&mut line.told, &mounted.volume().track_counts()),
            Some(Verb::Show) => show(mounted, line),
            None => {}
        }
    }
}

/// A volume of so many tracks, beside the keys that the lines say.
pub(crate) fn new_kept(alloc: Global, line: &mut Line<'_>) -> Option<Kept> {
    let serial = Serial::read(b"VOL001")?;
    let tracks = volume_tracks(&mut line.words);
    let holes = holes(alloc, line);
    let mounted = line
        .told
        .got(Mounted::new(alloc, serial, tracks, holes.as_slice()))?;
    let keys = keys_in(alloc, line);
    Some(Kept { mounted, keys })
}
