//! Names, keys and tracks as words.
ghost use Rattle.std.specs.Prelude.{◌≤◌};
ghost use Rattle.jcl_plan.specs.declared.plan.TheConstants.{MOST_TRACKS};

use jcl_plan::plan::MOST_TRACKS;
use jname_core::ds_name::{DsName, read_ds_name};
use row_table::desk::Line;
use row_table::names::{ds_name, name8};
use row_table::told::Told;
use row_table::words::Words;
use std::alloc::Global;
use vtoc_core::entry::{Extent, SetKey};

/// Takes the next word as the name of a data set, or behind `BASE:` as one whose base is meant.
pub(crate) fn base_or_name(words: &mut Words<'_>) -> Option<DsName> {
    let mut ahead = *words;
    let Some(name) = ahead.next_word().strip_prefix(b"BASE:") else {
        return ds_name(words);
    };
    *words = ahead;
    let name = words.some(read_ds_name(name).ok())?;
    Some(name.base_of())
}

#[derive(Clone, Copy)]
enum Kind {
    Named,
    Temporary,
    Unnamed,
}

const KINDS: [(&str, Kind); 3] = [
    ("NAMED", Kind::Named),
    ("TEMP", Kind::Temporary),
    ("DD", Kind::Unnamed),
];

/// Takes the next words as the key of a set: NAMED and a name, TEMP with a job and a name, or DD with a job, a step and a DD.
pub(crate) fn key(words: &mut Words<'_>) -> Option<SetKey> {
    match words.one_of(&KINDS)? {
        Kind::Named => Some(SetKey::Named(ds_name(words)?)),
        Kind::Temporary => {
            let job = words.short();
            let name = name8(words)?;
            Some(SetKey::Temporary { job, name })
        }
        Kind::Unnamed => {
            let job = words.short();
            let step = words.short();
            let dd = words.short();
            Some(SetKey::Unnamed { job, step, dd })
        }
    }
}

/// Adds the keys that a line says.
fn add_keys(keys: &mut Vec<SetKey>, line: &[u8], told: &mut Told) {
    let mut words = Words::new(line);
    for _ in 0..line.len() {
        let mut ahead = words;
        if let Some(key) = key(&mut ahead)
            && keys.push(key).is_err()
        {
            told.want();
        }
        words.next_word();
    }
}

/// The keys that all further lines say.
pub(crate) fn keys_in(alloc: Global, line: &mut Line<'_>) -> Vec<SetKey> {
    let mut keys = Vec::new(alloc);
    let mut lines = line.lines;
    for _ in 0..lines.len() {
        let Some(text) = lines.next_line() else {
            break;
        };
        add_keys(&mut keys, text, &mut line.told);
    }
    keys
}

/// Takes the next word as the tracks of a volume, 4,000 at most.
pub(crate) fn volume_tracks(words: &mut Words<'_>) -> u16
    ensures { result ≤ MOST_TRACKS }
{
    let tracks = words.short();
    if tracks <= MOST_TRACKS {
        return tracks;
    }
    words.refuse();
    0
}

/// Takes all further words as tracks that are never free.
pub(crate) fn holes(alloc: Global, line: &mut Line<'_>) -> Vec<Extent> {
    let mut holes = Vec::new(alloc);
    for _ in 0..64u8 {
        if line.words.is_empty() {
            break;
        }
        let start = line.words.short();
        if holes.push(Extent { start, tracks: 1 }).is_err() {
            line.told.want();
        }
    }
    holes
}

/// Takes the next word as the byte that stands in all columns of a record.
pub(crate) fn column(words: &mut Words<'_>) -> u8 {
    match words.next_word() {
        [byte] => *byte,
        _ => {
            words.refuse();
            b' '
        }
    }
}
