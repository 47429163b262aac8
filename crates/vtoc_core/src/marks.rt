//! Marking tracks, and counting them.
ghost use Rattle.std.specs.Prelude.{◌≡◌, ◌≤◌, ◌∷◌, [], length};
ghost use Rattle.vtoc_core.specs.Extents.{tracks_in};
ghost use Rattle.vtoc_core.specs.Volumes.{count_of, is_kind, marked};

use crate::entry::Extent;
use crate::volume::Track;

/// Makes the tracks of an extent, as far as there are such, tracks of this kind.
fn mark_one(tracks: &mut [Track], kind: Track, extent: Extent)
    ensures { tracks.new ≡ marked kind (extent ∷ []) tracks.old }
{
    let start = usize::from(extent.start);
    let end = (start + usize::from(extent.tracks)).min(tracks.len());
    for at in start..end {
        tracks[at] = kind;
    }
}

/// Makes the tracks of these extents, as far as there are such, tracks of this kind.
pub(crate) fn mark(tracks: &mut [Track], kind: Track, extents: &[Extent])
    ensures { tracks.new ≡ marked kind extents.now tracks.old }
{
    for extent in extents {
        mark_one(tracks, kind, *extent);
    }
}

fn is_kind(kind: Track, track: Track) -> bool
    ensures { result ≡ is_kind kind track }
{
    kind == track
}

/// How many tracks are of a kind.
pub(crate) fn count_of(tracks: &[Track], kind: Track) -> usize
    ensures { result ≡ count_of kind tracks.now }
{
    tracks.iter().filter(|t| is_kind(kind, **t)).count()
}

/// How many tracks these extents have.
pub(crate) fn tracks_in(extents: &[Extent]) -> usize
    requires { length extents.now ≤ 16 }
    ensures { result ≡ tracks_in extents.now }
{
    extents.iter().map(|e| usize::from(e.tracks)).sum()
}
