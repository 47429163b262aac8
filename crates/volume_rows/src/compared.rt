//! A slow search of tracks, and changes that are made both ways.
ghost use Rattle.std.specs.Prelude.{◌≡◌, ◌+◌, ◌≤◌, false, true, length, IsTrue};
ghost use Rattle.extent_core.specs.Extents.{IsTaken, marked};

use extent_core::extent::Extent;
use extent_core::free::FreeExtents;

/// Makes the tracks of an extent free, or not free.
fn mark(tracks: &mut [bool], free: bool, extent: Extent)
    requires { extent.start + extent.tracks ≤ length tracks.old }
    ensures { tracks.new ≡ marked free extent tracks.old }
{
    let start = usize::from(extent.start);
    for at in start..start + usize::from(extent.tracks) {
        tracks[at] = free;
    }
}

/// Whether the tracks of an extent are tracks of the volume, and none is free.
fn is_taken(tracks: &[bool], extent: Extent) -> bool
    ensures within { IsTrue result → extent.start + extent.tracks ≤ length tracks.now }
    ensures taken { IsTrue result → IsTaken tracks.now extent }
{
    let start = usize::from(extent.start);
    let end = start + usize::from(extent.tracks);
    if end > tracks.len() {
        return false;
    }
    for at in start..end {
        if tracks[at] {
            return false;
        }
    }
    true
}

/// Frees tracks both ways, if none of them is free, and tells whether it was done.
pub(crate) fn free_both(fast: &mut FreeExtents, slow: &mut [bool], extent: Extent) -> bool
    requires { fast.old ≡ slow.old }
    ensures { fast.new ≡ slow.new }
{
    if !is_taken(slow, extent) {
        return false;
    }
    fast.free(extent);
    mark(slow, true, extent);
    true
}

/// Takes the first tracks that are found, both ways.
pub(crate) fn take_both(fast: &mut FreeExtents, slow: &mut [bool], tracks: u16) -> Option<Extent>
    requires { fast.old ≡ slow.old }
    ensures { fast.new ≡ slow.new }
{
    let first = fast.first(tracks)?;
    fast.take_front(first, tracks);
    let front = Extent {
        start: first.start,
        tracks,
    };
    mark(slow, false, front);
    Some(front)
}

/// How many tracks from one on are free.
fn run_from(tracks: &[bool], from: usize) -> usize
    requires { from ≤ length tracks.now }
{
    tracks[from..].iter().take_while(|free| **free).count()
}

fn begins(tracks: &[bool], at: usize) -> bool {
    at < tracks.len() && tracks[at] && (at == 0 || !tracks[at - 1])
}

/// The first free extent of so many tracks, by its place and its tracks.
fn slow_first(tracks: &[bool], least: usize) -> Option<(usize, usize)> {
    for at in 0..tracks.len() {
        if begins(tracks, at) && run_from(tracks, at) >= least {
            return Some((at, run_from(tracks, at)));
        }
    }
    None
}

/// The largest free extent, of equals the first.
fn slow_largest(tracks: &[bool]) -> Option<(usize, usize)> {
    let mut largest: Option<(usize, usize)> = None;
    for at in 0..tracks.len() {
        if begins(tracks, at) && largest.is_none_or(|(_, most)| run_from(tracks, at) > most) {
            largest = Some((at, run_from(tracks, at)));
        }
    }
    largest
}

fn parts(extent: Option<Extent>) -> Option<(usize, usize)> {
    match extent {
        Some(extent) => Some((usize::from(extent.start), usize::from(extent.tracks))),
        None => None,
    }
}

/// Whether the slow search finds the same.
pub(crate) fn is_same(fast: &FreeExtents, slow: &[bool], tracks: u16) -> bool {
    parts(fast.first(tracks)) == slow_first(slow, usize::from(tracks))
        && parts(fast.largest()) == slow_largest(slow)
}
