//! Free extents, beside a slow search of tracks that is changed alike.
ghost use Rattle.std.specs.Prelude.{◌≡◌, ◌<◌, ◌≤◌};

use crate::compared::{free_both, is_same, take_both};
use crate::keys::volume_tracks;
use crate::tells::tell_place;
use extent_core::extent::Extent;
use extent_core::free::FreeExtents;
use row_table::desk::Line;
use row_table::told::Told;
use std::alloc::Global;

#[derive(Clone, Copy)]
enum Verb {
    Free,
    Take,
    First,
    Largest,
    At,
    Tracks,
    Change,
}

const VERBS: [(&str, Verb); 7] = [
    ("FREE", Verb::Free),
    ("TAKE", Verb::Take),
    ("FIRST", Verb::First),
    ("LARGEST", Verb::Largest),
    ("AT", Verb::At),
    ("TRACKS", Verb::Tracks),
    ("CHANGE", Verb::Change),
];

/// A number that follows another, as if by chance.
fn next_number(number: u32) -> u32 {
    (number % 65_536 * 25_173 + 13_849) % 65_536
}

/// A small number of it.
fn small(number: u32, below: u32) -> u16
    requires low { 0 < below }
    requires high { below < 65_536 }
{
    (number / 256 % below) as u16
}

/// Takes tracks, or frees these, and tells whether some were freed.
fn change(fast: &mut FreeExtents, slow: &mut [bool], takes: bool, extent: Extent) -> bool
    requires { fast.old ≡ slow.old }
    ensures { fast.new ≡ slow.new }
{
    if takes {
        let _ = take_both(fast, slow, extent.tracks);
        return false;
    }
    free_both(fast, slow, extent)
}

/// Changes both so many times as if by chance. It tells how often tracks were freed, or none where the slow search found another extent.
fn change_often(fast: &mut FreeExtents, slow: &mut [bool], rounds: u16) -> Option<u16>
    requires { fast.old ≡ slow.old }
    ensures { fast.new ≡ slow.new }
{
    let mut number = 1;
    let mut freed = 0u16;
    'rounds: for _ in 0..rounds {
        number = next_number(number);
        let tracks = small(number, 9);
        let takes = number % 5 < 2;
        if !takes {
            number = next_number(number);
        }
        let start = small(number, 70);
        if change(fast, slow, takes, Extent { start, tracks }) {
            freed = freed.saturating_add(1);
        }
        if !is_same(fast, slow, tracks) {
            return None;
        }
    }
    Some(freed)
}

/// Tells whether over 100 extents were freed, and the slow search always found the same.
fn tell_often(told: &mut Told, freed: Option<u16>) {
    match freed {
        None => told.line(b"DIFFERS"),
        Some(freed) if freed > 100 => told.line(b"OVER 100 FREED"),
        Some(freed) => told.numbered_line(b"FREED ", freed.into()),
    }
}

/// Frees tracks of which none is free.
fn free(fast: &mut FreeExtents, slow: &mut [bool], line: &mut Line<'_>)
    requires { fast.old ≡ slow.old }
    ensures { fast.new ≡ slow.new }
{
    let start = line.words.short();
    let tracks = line.words.short();
    if free_both(fast, slow, Extent { start, tracks }) {
        line.told.line(b"OK");
    } else {
        line.told.not_allowed();
    }
}

/// Does a command about free extents.
fn on_extents(fast: &mut FreeExtents, slow: &mut [bool], line: &mut Line<'_>)
    requires { fast.old ≡ slow.old }
    ensures { fast.new ≡ slow.new }
{
    match line.words.one_of(&VERBS) {
        Some(Verb::Free) => free(fast, slow, line),
        Some(Verb::Take) => tell_place(&mut line.told, take_both(fast, slow, line.words.short())),
        Some(Verb::First) => tell_place(&mut line.told, fast.first(line.words.short())),
        Some(Verb::Largest) => tell_place(&mut line.told, fast.largest()),
        Some(Verb::At) => tell_place(&mut line.told, fast.extent_at(line.words.short())),
        Some(Verb::Tracks) => line.told.numbered_line(b"", fast.tracks() as u64),
        Some(Verb::Change) => tell_often(
            &mut line.told,
            change_often(fast, slow, line.words.short()),
        ),
        None => {}
    }
    if !is_same(fast, slow, 1) {
        line.told.line(b"DIFFERS");
    }
}

/// Answers commands about the free extents of a volume of which no track is free at first.
pub(crate) fn answer_extents(alloc: Global, line: &mut Line<'_>) {
    let tracks = volume_tracks(&mut line.words);
    let fast = line.told.got(FreeExtents::new(alloc, tracks));
    let slow = line.told.got(vec![in alloc; false; usize::from(tracks)]);
    let (Some(mut fast), Some(mut slow)) = (fast, slow) else {
        return;
    };
    'commands: for _ in 0..line.lines.len() {
        if !line.next() {
            break;
        }
        on_extents(&mut fast, slow.as_mut_slice(), line);
        line.end();
    }
}
