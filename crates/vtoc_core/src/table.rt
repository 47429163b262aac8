//! The tracks of a volume. Where they are free, and how many are of each kind, is kept beside them.
ghost use Rattle.std.specs.Prelude.{◌≡◌, ◌≢◌, ◌≤◌, ◌+◌, ◌-◌, IfOk, MatchOption, length, if◌then◌else◌};
ghost use Rattle.jcl_plan.specs.declared.plan.TheConstants.{MOST_TRACKS};
ghost use Rattle.vtoc_core.specs.Extents.{tracks_in};
ghost use Rattle.vtoc_core.specs.Volumes.{AreOf, Counted, IsSpace, LacksSpace, Moves, count_in, first_tracks, is_kind, marked, shifted_count};
ghost use Rattle.vtoc_core.specs.declared.volume.Track.{Track};
ghost use Rattle.vtoc_core.specs.declared.volume.Track.TheVariants.{Free, Aside, InSet};

use crate::entry::Extent;
use crate::marks::{count_of, mark, tracks_in};
use crate::space::{self, free_all, free_among};
use crate::volume::{Track, TrackCounts};
use arrayvec::ArrayVec;
use extent_core::free::FreeExtents;
use std::alloc::{AllocError, Global};
use std::marker::Model;

/// How many tracks are of each kind.
fn count_all(tracks: &[Track]) -> TrackCounts
    ensures { Counted result tracks.now }
{
    TrackCounts {
        free: count_of(tracks, Track::Free),
        aside: count_of(tracks, Track::Aside),
        in_sets: count_of(tracks, Track::InSet),
        unusable: count_of(tracks, Track::Unusable),
    }
}

/// The counts with so many tracks of a kind fewer.
fn fewer(counts: TrackCounts, kind: Track, tracks: usize) -> TrackCounts
    requires { tracks ≤ count_in counts kind }
    ensures { (other : Track) → count_in result other ≡ count_in counts other - (if is_kind other kind then tracks else 0) }
{
    let mut left = counts;
    match kind {
        Track::Free => left.free -= tracks,
        Track::Aside => left.aside -= tracks,
        Track::InSet => left.in_sets -= tracks,
        Track::Unusable => left.unusable -= tracks,
    }
    left
}

/// The counts with so many tracks of a kind more.
fn more(counts: TrackCounts, kind: Track, tracks: usize) -> TrackCounts
    requires few { tracks ≤ MOST_TRACKS }
    requires counted { count_in counts kind ≤ MOST_TRACKS }
    ensures { (other : Track) → count_in result other ≡ count_in counts other + (if is_kind other kind then tracks else 0) }
{
    let mut all = counts;
    match kind {
        Track::Free => all.free += tracks,
        Track::Aside => all.aside += tracks,
        Track::InSet => all.in_sets += tracks,
        Track::Unusable => all.unusable += tracks,
    }
    all
}

/// The counts once so many tracks of one kind are of another.
fn shifted(counts: TrackCounts, from: Track, to: Track, tracks: usize) -> TrackCounts
    requires there { tracks ≤ count_in counts from }
    requires few { tracks ≤ MOST_TRACKS }
    requires counted { (kind : Track) → count_in counts kind ≤ MOST_TRACKS }
    ensures { (other : Track) → count_in result other ≡ shifted_count counts from to tracks other }
{
    more(fewer(counts, from, tracks), to, tracks)
}

/// Makes the tracks of these extents, which are all of one kind, tracks of another, and counts them so.
fn change(
    tracks: &mut [Track],
    counts: TrackCounts,
    from: Track,
    to: Track,
    extents: &[Extent],
) -> TrackCounts
    requires few { length extents.now ≤ 16 }
    requires size { length tracks.old ≤ MOST_TRACKS }
    requires counted { Counted counts tracks.old }
    requires kinds { AreOf from tracks.old extents.now }
    requires apart { from ≢ to }
    ensures tracks { tracks.new ≡ marked to extents.now tracks.old }
    ensures counted { Counted result tracks.new }
{
    mark(tracks, to, extents);
    shifted(counts, from, to, tracks_in(extents))
}

/// What each track is, of 4,000 at most, where they are free, and how many are of each kind.
#[derive(Drop)]
pub(crate) struct TrackTable {
    tracks: Vec<Track>,
    free: FreeExtents,
    counts: TrackCounts,
}

impl Model for TrackTable {
    ghost use Rattle.std.specs.Prelude.{List, ◌≡◌, ◌≤◌, length};
    ghost use Rattle.jcl_plan.specs.declared.plan.TheConstants.{MOST_TRACKS};
    ghost use Rattle.vtoc_core.specs.Extents.{are_free};
    ghost use Rattle.vtoc_core.specs.Volumes.{Counted};
    ghost use Rattle.vtoc_core.specs.declared.volume.Track.{Track};

    ghost Value = { List Track };

    ghost view = { λ t. t.tracks.items };

    ghost invariant = { λ t. Counted t.counts t.tracks.items × (length t.tracks.items ≤ MOST_TRACKS) × (t.free ≡ are_free t.tracks.items) };
}

impl TrackTable {
    /// So many free tracks but for those of these extents, which are never free.
    pub(crate) fn new(
        alloc: Global,
        tracks: u16,
        unusable: &[Extent],
    ) -> Result<TrackTable, AllocError>
        requires { tracks ≤ MOST_TRACKS }
        ensures { IfOk result (λ t. t ≡ first_tracks tracks unusable.now) }
    {
        let mut all = vec![in alloc; Track::Free; usize::from(tracks)]?;
        mark(all.as_mut_slice(), Track::Unusable, unusable);
        let free = free_among(alloc, all.as_slice())?;
        let counts = count_all(all.as_slice());
        Ok(TrackTable {
            tracks: all,
            free,
            counts,
        })
    }

    pub(crate) fn counts(&self) -> TrackCounts
        ensures counted { Counted result self.now }
        ensures size { length self.now ≤ MOST_TRACKS }
    {
        let _ = &self.tracks;
        self.counts
    }

    /// Makes so many free tracks tracks of another kind, and tells which. It changes nothing where there is no space for them.
    pub(crate) fn take(&mut self, to: Track, wanted: u16) -> Option<ArrayVec<Extent, 5>>
        requires { Free ≢ to }
        ensures { MatchOption result (LacksSpace wanted self.old self.new) (λ t. IsSpace to wanted self.old t.items self.new) }
    {
        let Some(taken) = space::take(&mut self.free, wanted) else {
            return None;
        };
        self.counts = change(
            self.tracks.as_mut_slice(),
            self.counts,
            Track::Free,
            to,
            taken.as_slice(),
        );
        Some(taken)
    }

    /// Makes the tracks of these extents, which are all of one kind, free.
    pub(crate) fn set_free(&mut self, from: Track, extents: &[Extent])
        requires few { length extents.now ≤ 16 }
        requires kinds { AreOf from self.old extents.now }
        requires apart { from ≢ Free }
        ensures tracks { self.new ≡ marked Free extents.now self.old }
        ensures counts { Moves from Free (tracks_in extents.now) self.old self.new }
    {
        free_all(&mut self.free, extents);
        self.counts = change(
            self.tracks.as_mut_slice(),
            self.counts,
            from,
            Track::Free,
            extents,
        );
    }

    /// Makes the tracks of these extents, which were set aside, tracks of a set.
    pub(crate) fn assign(&mut self, extents: &[Extent])
        requires few { length extents.now ≤ 16 }
        requires kinds { AreOf Aside self.old extents.now }
        ensures tracks { self.new ≡ marked InSet extents.now self.old }
        ensures counts { Moves Aside InSet (tracks_in extents.now) self.old self.new }
    {
        self.counts = change(
            self.tracks.as_mut_slice(),
            self.counts,
            Track::Aside,
            Track::InSet,
            extents,
        );
    }
}
