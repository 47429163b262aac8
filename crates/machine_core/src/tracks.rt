//! The tracks of a volume, as they are shown.
ghost use Rattle.std.specs.Prelude.{◌≡◌, Some, sum_by};
ghost use Rattle.shared_core.specs.Tracks.{free_on, free_tracks, kept_shown, kept_tracks};
ghost use Rattle.world_meaning.specs.Tracks.{kept_on};

use jname_core::serial::Serial;
use mount_core::mounted::Mounted;

/// How many tracks of a volume are free, and how many are kept.
#[derive(Clone, Copy)]
pub struct VolumeTracks {
    pub free: usize,
    pub kept: usize,
}

pub(crate) fn tracks_of(m: &Mounted) -> VolumeTracks
    ensures free { result.free ≡ free_tracks (Some m.now) }
    ensures kept { result.kept ≡ sum_by (λ k. k.tracks) (kept_tracks (Some m.now)) }
{
    VolumeTracks {
        free: m.volume().track_counts().free,
        kept: m.kept_tracks(),
    }
}

/// Those of the volume of a serial; none where no volume has it.
pub fn tracks_on(volumes: &[Mounted], serial: Serial) -> VolumeTracks
    ensures free { result.free ≡ free_on volumes.now serial }
    ensures kept { result.kept ≡ kept_on (kept_shown volumes.now) serial }
{
    match volumes.split_first() {
        None => VolumeTracks { free: 0, kept: 0 },
        Some((m, others)) => {
            if m.serial().as_slice() == serial.as_slice() {
                tracks_of(m)
            } else {
                tracks_on(others, serial)
            }
        }
    }
}
