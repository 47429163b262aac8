//! The tracks of the volumes add up, and each is what its sets and what is kept say.
ghost use Rattle.shared_core.specs.LaidOut.{IsLaidOut, VolumesAreLaidOut};
ghost use Rattle.shared_core.specs.Sizes.{VolumesHaveTheirSizes};
ghost use Rattle.shared_core.specs.Tracks.{AddsUp, VolumesAddUp};

use crate::store::SharedStore;
use mount_core::mounted::Mounted;
use vtoc_core::volume::volumes_are_sound;

fn adds_up(mounted: &Mounted)
    ensures { AddsUp mounted.now }
{
    volumes_are_sound(mounted.volume());
    mounted.tracks_add_up();
}

/// On each volume the tracks that are aside are those that are kept, and those in sets are those of the sets.
pub fn volumes_add_up(store: &SharedStore)
    ensures { VolumesAddUp store.now }
{
    for mounted in store.volumes.as_slice() {
        adds_up(mounted);
    }
}

/// On each volume the tracks that are free, those that are kept, those of sets and those that are never free add up to its size.
pub fn volumes_have_their_sizes(store: &SharedStore)
    ensures { VolumesHaveTheirSizes store.now }
{
    for mounted in store.volumes.as_slice() {
        mounted.tracks_add_up();
    }
}

fn is_laid_out(mounted: &Mounted)
    ensures { IsLaidOut mounted.now }
{
    volumes_are_sound(mounted.volume());
    mounted.kept_is_aside();
}

/// On each volume no track is in two extents and no extent is without a track; the tracks of sets and those that are kept are marked so, and no others.
pub fn volumes_are_laid_out(volumes: &[Mounted])
    ensures { VolumesAreLaidOut volumes.now }
{
    for mounted in volumes {
        is_laid_out(mounted);
    }
}
