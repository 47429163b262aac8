//! The volume of a serial, and what is done to its sets.
ghost use Rattle.std.specs.Prelude.{◌≡◌, ◌↔◌, None, Some, Err, IfNone, IfSome, OnErr, OnOk, true, false};
ghost use Rattle.std.specs.List.{position};
ghost use Rattle.jcl_meaning.specs.Programs.{appended, emptied, grown_by};
ghost use Rattle.jcl_meaning.specs.Stores.{cut};
ghost use Rattle.shared_core.specs.Rooms.{holds_more, holds_new};
ghost use Rattle.shared_core.specs.Extents.{GiveUpOn, StayOn, TakeOn};
ghost use Rattle.shared_core.specs.Shown.{kept_extents, set_on, mounted_in};
ghost use Rattle.shared_core.specs.Writes.{Changes, ChangesOn, GiveUpTracks, GrowsSet, IsFirstMounted, Keeps, KeepsOn, MakesSet, MakesSetOn, Stay, TakeTracks, TakeTracksAt, Writes, WritesOn, is_mounted};

use jcl_plan::plan::Record;
use jname_core::serial::Serial;
use mount_core::mounted::Mounted;
use mount_core::place::KeptPlace;
use plain::listed::Listed;
use std::alloc::{AllocError, Global};
use std::mem;
use store_core::job_store::RoomFault;
use vtoc_core::entry::SetKey;
use vtoc_core::fault::VolumeFault;
use vtoc_core::volume::volumes_are_sound;

/// The first place of a volume of the serial.
pub fn position_of(volumes: &[Mounted], serial: Serial) -> Option<usize>
    ensures { result ≡ position (is_mounted serial) volumes.now }
{
    volumes
        .iter()
        .position(|m| m.serial().as_slice() == serial.as_slice())
}

/// Where the volume of a serial stands, from 0.
pub(crate) fn place_of(volumes: &[Mounted], serial: Serial) -> Option<usize>
    ensures there { IfSome result (IsFirstMounted volumes.now serial) }
    ensures missing { IfNone result (mounted_in volumes.now serial ≡ None) }
{
    position_of(volumes, serial)
}

/// Takes the records of a set away.
fn empty_on(mounted: &mut Mounted, key: &SetKey)
    ensures changes { ChangesOn (emptied true) mounted.old mounted.new key.now }
    ensures extents { StayOn (Some mounted.old) (Some mounted.new) }
{
    match mounted.clear(key) {
        Ok(()) => {}
        Err(_) => {}
    }
}

/// Takes the records of a set on the volume of a serial away.
pub(crate) fn empty_set(alloc: Global, volumes: &mut Listed<Mounted>, serial: Serial, key: &SetKey)
    ensures changes { Changes (emptied true) volumes.old volumes.new key.now serial }
    ensures extents { Stay volumes.old volumes.new }
{
    let Some(at) = place_of(volumes.as_slice(), serial) else {
        return;
    };
    let mut all = mem::replace(volumes, Listed::empty(alloc)).into_vec();
    empty_on(&mut all[at], key);
    *volumes = Listed::new(all);
}

/// Puts a record behind those of a set, where it is there. An `Err` changes nothing.
fn append_on(mounted: &mut Mounted, key: &SetKey, text: &Record) -> Result<(), AllocError>
    ensures ok { OnOk result (ChangesOn (appended text.now) mounted.old mounted.new key.now) }
    ensures extents { StayOn (Some mounted.old) (Some mounted.new) }
    ensures err { OnErr result (mounted.new ≡ mounted.old) }
{
    match mounted.append(key, *text) {
        Ok(()) => Ok(()),
        Err(VolumeFault::NameMissing) => Ok(()),
        Err(_) => Err(AllocError),
    }
}

/// Puts a record behind those of a set on the volume of a serial, where it is there. An `Err` changes nothing.
pub(crate) fn append_to(
    alloc: Global,
    volumes: &mut Listed<Mounted>,
    serial: Serial,
    key: &SetKey,
    text: &Record,
) -> Result<(), AllocError>
    ensures ok { OnOk result (Changes (appended text.now) volumes.old volumes.new key.now serial) }
    ensures extents { OnOk result (Stay volumes.old volumes.new) }
    ensures err { OnErr result (volumes.new ≡ volumes.old) }
{
    let Some(at) = place_of(volumes.as_slice(), serial) else {
        return Ok(());
    };
    let mut all = mem::replace(volumes, Listed::empty(alloc)).into_vec();
    let done = append_on(&mut all[at], key, text);
    *volumes = Listed::new(all);
    done
}

/// Takes a set off its volume.
fn scratch_on(mounted: &mut Mounted, key: &SetKey)
    ensures changes { WritesOn mounted.old mounted.new key.now None × KeepsOn mounted.old mounted.new }
    ensures extents { GiveUpOn (Some mounted.old) (Some mounted.new) }
{
    volumes_are_sound(mounted.volume());
    match mounted.scratch(key) {
        Ok(()) => {}
        Err(_) => {}
    }
}

/// Takes a set off the volume of a serial.
pub(crate) fn scratch_set(
    alloc: Global,
    volumes: &mut Listed<Mounted>,
    serial: Serial,
    key: &SetKey,
)
    ensures changes { Writes volumes.old volumes.new key.now serial None × Keeps volumes.old volumes.new }
    ensures extents { GiveUpTracks volumes.old volumes.new }
{
    let Some(at) = place_of(volumes.as_slice(), serial) else {
        return;
    };
    let mut all = mem::replace(volumes, Listed::empty(alloc)).into_vec();
    scratch_on(&mut all[at], key);
    *volumes = Listed::new(all);
}

/// Cuts a set to the tracks that its records fill.
fn trim_on(mounted: &mut Mounted, key: &SetKey)
    ensures changes { ChangesOn cut mounted.old mounted.new key.now }
    ensures extents { GiveUpOn (Some mounted.old) (Some mounted.new) }
{
    volumes_are_sound(mounted.volume());
    let Some(entry) = mounted.volume().find(key) else {
        return;
    };
    let used = entry.records.tracks_used();
    match mounted.trim(key, used) {
        Ok(()) => {}
        Err(_) => {}
    }
}

/// Cuts a set on the volume of a serial to the tracks that its records fill.
pub(crate) fn trim_set(alloc: Global, volumes: &mut Listed<Mounted>, serial: Serial, key: &SetKey)
    ensures changes { Changes cut volumes.old volumes.new key.now serial }
    ensures extents { GiveUpTracks volumes.old volumes.new }
{
    let Some(at) = place_of(volumes.as_slice(), serial) else {
        return;
    };
    let mut all = mem::replace(volumes, Listed::empty(alloc)).into_vec();
    trim_on(&mut all[at], key);
    *volumes = Listed::new(all);
}

/// Makes a set without records where there is none. An `Err` changes nothing.
fn make_on(
    alloc: Global,
    mounted: &mut Mounted,
    place: &KeptPlace,
    key: &SetKey,
    tracks: u16,
    expires: Option<u32>,
) -> Result<(), RoomFault>
    requires { set_on (Some mounted.old) key.now ≡ None }
    ensures ok { OnOk result (MakesSetOn mounted.old mounted.new key.now place.now tracks expires) }
    ensures extents { OnOk result (TakeOn (kept_extents (Some mounted.old) place.now) (Some mounted.old) (Some mounted.new)) }
    ensures refused { result ≡ Err RoomFault.NotGranted ↔ holds_new (Some key.now) (Some mounted.old) place.now tracks ≡ false }
    ensures err { OnErr result (mounted.new ≡ mounted.old) }
{
    mounted.kept_is_aside();
    match mounted.make(alloc, place, *key, tracks, expires) {
        Ok(()) => Ok(()),
        Err(VolumeFault::NoSpace) => Err(RoomFault::NotGranted),
        Err(_) => Err(RoomFault::Memory),
    }
}

/// Makes a set without records on the volume of a serial where there is none: of the tracks that are kept at a place, or of free ones. An `Err` changes
/// nothing.
pub(crate) fn make_set(
    alloc: Global,
    volumes: &mut Listed<Mounted>,
    serial: Serial,
    place: &KeptPlace,
    key: &SetKey,
    tracks: u16,
    expires: Option<u32>,
) -> Result<(), RoomFault>
    requires { set_on (mounted_in volumes.old serial) key.now ≡ None }
    ensures ok { OnOk result (MakesSet volumes.old volumes.new key.now serial place.now tracks expires) }
    ensures extents { OnOk result (TakeTracksAt serial place.now volumes.old volumes.new) }
    ensures refused { result ≡ Err RoomFault.NotGranted ↔ holds_new (Some key.now) (mounted_in volumes.old serial) place.now tracks ≡ false }
    ensures err { OnErr result (volumes.new ≡ volumes.old) }
{
    let Some(at) = place_of(volumes.as_slice(), serial) else {
        return Err(RoomFault::NotGranted);
    };
    let mut all = mem::replace(volumes, Listed::empty(alloc)).into_vec();
    let made = make_on(alloc, &mut all[at], place, key, tracks, expires);
    *volumes = Listed::new(all);
    made
}

/// Adds tracks to a set, where it is there. An `Err` changes nothing.
fn grow_on(mounted: &mut Mounted, key: &SetKey, tracks: u16) -> Result<(), RoomFault>
    ensures ok { OnOk result (ChangesOn (grown_by tracks) mounted.old mounted.new key.now
        × (holds_more (Some key.now) (Some mounted.old) tracks ≡ true)) }
    ensures extents { OnOk result (TakeOn None (Some mounted.old) (Some mounted.new)) }
    ensures refused { result ≡ Err RoomFault.NotGranted ↔ holds_more (Some key.now) (Some mounted.old) tracks ≡ false }
    ensures err { OnErr result (mounted.new ≡ mounted.old) }
{
    match mounted.grow(key, tracks) {
        Ok(()) => Ok(()),
        Err(VolumeFault::NameMissing) => Ok(()),
        Err(VolumeFault::NoSpace) => Err(RoomFault::NotGranted),
        Err(VolumeFault::TooManyExtents) => Err(RoomFault::NotGranted),
        Err(_) => Err(RoomFault::Memory),
    }
}

/// Adds tracks to a set on the volume of a serial, where it is there. An `Err` changes nothing.
pub(crate) fn grow_set(
    alloc: Global,
    volumes: &mut Listed<Mounted>,
    serial: Serial,
    key: &SetKey,
    tracks: u16,
) -> Result<(), RoomFault>
    ensures ok { OnOk result (GrowsSet tracks volumes.old volumes.new key.now serial) }
    ensures extents { OnOk result (TakeTracks volumes.old volumes.new) }
    ensures refused { result ≡ Err RoomFault.NotGranted ↔ holds_more (Some key.now) (mounted_in volumes.old serial) tracks ≡ false }
    ensures err { OnErr result (volumes.new ≡ volumes.old) }
{
    let Some(at) = place_of(volumes.as_slice(), serial) else {
        return Ok(());
    };
    let mut all = mem::replace(volumes, Listed::empty(alloc)).into_vec();
    let grown = grow_on(&mut all[at], key, tracks);
    *volumes = Listed::new(all);
    grown
}
