//! The free extents of a volume.
ghost use Rattle.std.specs.Prelude.{◌≡◌, ◌≤◌, ◌==◌, false, true, find, length, replicate, Contains, IfOk};
ghost use Rattle.jcl_plan.specs.declared.plan.TheConstants.{MOST_TRACKS};
ghost use Rattle.extent_core.specs.Extents.{AreApart, IsTaken, first_of, free_extents, largest_of, marked};
ghost use Rattle.extent_core.specs.declared.extent.Extent.{Extent};

use crate::extent::Extent;
use crate::maxima::Maxima;
use std::alloc::{AllocError, Global};
use std::marker::Model;

/// The free extents of a volume. A contract sees of each track whether it is free; the free extents are as many neighbouring free tracks
/// as there are.
#[derive(Drop)]
pub struct FreeExtents {
    /// How many tracks the volume has.
    count: usize,
    /// For each track how many tracks the free extent has that begins there, or 0. There is one number more, which is 0.
    sizes: Maxima,
    /// For each track, and behind the last, how many tracks the free extent has that ends in front of it, or 0.
    ends: Vec<u16>,
}

impl Model for FreeExtents {
    ghost use Rattle.std.specs.Prelude.{Bool, List};
    ghost use Rattle.extent_core.specs.Sizes.{AreKept, tracks_of};

    ghost Value = { List Bool };

    ghost view = { λ f. tracks_of f.count f.sizes };

    ghost invariant = { λ f. AreKept f.count f.sizes f.ends.items };
}

impl FreeExtents {
    /// A volume of so many tracks of which none is free. No other call takes memory.
    pub fn new(alloc: Global, tracks: u16) -> Result<FreeExtents, AllocError>
        requires { tracks ≤ MOST_TRACKS }
        ensures { IfOk result (λ f. f ≡ replicate tracks false) }
    {
        let count = usize::from(tracks);
        let sizes = Maxima::new(alloc, count + 1)?;
        let ends = vec![in alloc; 0u16; count + 1]?;
        Ok(FreeExtents { count, sizes, ends })
    }

    /// How many tracks the volume has.
    pub fn tracks(&self) -> usize
        ensures { result ≡ length self.now }
    {
        self.count
    }

    /// The free extent that begins at a track.
    pub fn extent_at(&self, start: u16) -> Option<Extent>
        ensures { result ≡ find (λ e. e.start == start) (free_extents self.now) }
    {
        let place = usize::from(start);
        if place >= self.count {
            return None;
        }
        let tracks = self.sizes.get(place);
        if tracks == 0 {
            return None;
        }
        Some(Extent { start, tracks })
    }

    /// The first free extent by place that has at least so many tracks.
    pub fn first(&self, tracks: u16) -> Option<Extent>
        ensures { result ≡ first_of tracks (free_extents self.now) }
    {
        let place = self.sizes.first(tracks.max(1))?;
        Some(Extent {
            start: place as u16,
            tracks: self.sizes.get(place),
        })
    }

    /// The largest free extent, of equals the first by place.
    pub fn largest(&self) -> Option<Extent>
        ensures { result ≡ largest_of (free_extents self.now) }
    {
        let place = self.sizes.largest();
        let tracks = self.sizes.get(place);
        if tracks == 0 {
            return None;
        }
        Some(Extent {
            start: place as u16,
            tracks,
        })
    }

    /// Takes the front of a free extent, so many tracks. What is left of it stays free.
    pub fn take_front(&mut self, extent: Extent, tracks: u16)
        requires listed { Contains (free_extents self.old) extent }
        requires within { tracks ≤ extent.tracks }
        ensures { self.new ≡ marked false (record extent { tracks = tracks }) self.old }
    {
        let start = usize::from(extent.start);
        let left = extent.tracks - tracks;
        self.sizes.set(start, 0);
        self.sizes.set(start + usize::from(tracks), left);
        self.ends[start + usize::from(extent.tracks)] = left;
    }

    /// Frees the tracks of an extent. They are joined with the free extents in front and behind that they touch.
    pub fn free(&mut self, extent: Extent)
        requires { IsTaken self.old extent }
        ensures { self.new ≡ marked true extent self.old }
    {
        if extent.tracks == 0 {
            return;
        }
        let start = usize::from(extent.start);
        let end = start + usize::from(extent.tracks);
        let front = self.ends[start];
        let behind = self.sizes.get(end);
        let size = front + extent.tracks + behind;
        self.sizes.set(end, 0);
        self.sizes.set(start - usize::from(front), size);
        self.ends[start] = 0;
        self.ends[end + usize::from(behind)] = size;
    }
}
