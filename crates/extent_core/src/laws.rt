//! Laws of free extents. They have no code: a law is a function that does nothing, and its contract is the law.
ghost use Rattle.extent_core.specs.ExtentLaws.{FirstIsFirst, FreeExtentsAreApart, FreeTracksAreListed, FreedIsJoined, LargestIsLargest, TakenFrontIsTaken, TakenFrontLeavesTheRest};

/// Free extents stand by place, have a track at least each, do not touch, and lie within the volume.
pub fn free_extents_are_apart()
    ensures { FreeExtentsAreApart }
{}

/// A track is free exactly where it lies in a free extent.
pub fn free_tracks_are_listed()
    ensures { FreeTracksAreListed }
{}

/// The first extent that has so many tracks is one of them, those in front of it have fewer, and where there is none all have fewer.
pub fn first_is_first()
    ensures { FirstIsFirst }
{}

/// The largest extent is one of them, none has more tracks, those in front of it have fewer, and there is one where there is an extent.
pub fn largest_is_largest()
    ensures { LargestIsLargest }
{}

/// What is taken of the front of a free extent is not free, and once it is freed the same tracks are free as before.
pub fn taken_front_is_taken()
    ensures { TakenFrontIsTaken }
{}

/// Where the front of a free extent is taken, what is left of it stands in its place among the free extents.
pub fn taken_front_leaves_the_rest()
    ensures { TakenFrontLeavesTheRest }
{}

/// Where an extent is freed, it is one more free extent, as one with those that it touches.
pub fn freed_is_joined()
    ensures { FreedIsJoined }
{}
