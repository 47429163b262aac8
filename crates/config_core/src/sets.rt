//! A set that is there at the start.
ghost use Rattle.std.specs.Prelude.{◌≡◌, ◌++◌, ◌∷◌, None, IfNone, IfSome, OnErr, OnOk, Some};
ghost use Rattle.mount_core.specs.Mounts.{MountedState};
ghost use Rattle.shared_core.specs.Shown.{mounted_in};
ghost use Rattle.config_core.specs.Configs.{catalog_with, extents_on, has_room, with_set_in};
ghost use Rattle.config_core.specs.Sets.{CanHold, GivesRecords, IsMade, IsPlaceOf, TakesOff};

use cat_core::catalog::Catalog;
use jcl_plan::day::Day;
use jname_core::serial::Serial;
use mount_core::mounted::Mounted;
use mount_core::place::KeptPlace;
use plain::listed::Listed;
use session_input::statement::SetStatement;
use set_core::records::Records;
use shared_core::volumes::position_of;
use std::alloc::{AllocError, Global};
use std::mem;
use vtoc_core::entry::SetKey;

/// A place of no job, at which nothing is kept.
fn no_place() -> KeptPlace
    ensures { result ≡ record { job = 0; step = 0; dd = 0 } }
{
    KeptPlace {
        job: 0,
        step: 0,
        dd: 0,
    }
}

/// Gives a set that was just made its records.
fn fill(mounted: &mut Mounted, key: &SetKey, records: Records)
    ensures { GivesRecords mounted.old key.now records mounted.new }
{
    match mounted.put_records(key, records) {
        Ok(()) => {}
        Err(_) => {}
    }
}

/// Takes a set off its volume, where it is there.
fn take_off(mounted: &mut Mounted, key: &SetKey)
    ensures { TakesOff mounted.old key.now mounted.new }
{
    match mounted.scratch(key) {
        Ok(()) => {}
        Err(_) => {}
    }
}

/// The number of a day, if there is one.
fn day_number(expires: Option<Day>) -> Option<u32>
    ensures { result ≡ expires }
{
    match expires {
        None => None,
        Some(day) => Some(day.number()),
    }
}

/// Makes a set with its records on a volume that has room for it. An `Err` changes nothing.
fn make_on(alloc: Global, mounted: &mut Mounted, set: &SetStatement) -> Result<(), AllocError>
    requires { CanHold mounted.old set.now }
    ensures ok { OnOk result (IsMade mounted.old set.now mounted.new) }
    ensures err { OnErr result (mounted.new ≡ mounted.old) }
{
    let key = SetKey::Named(set.name);
    let records = set.records.copied(alloc)?;
    match mounted.make(alloc, &no_place(), key, set.tracks, day_number(set.expires)) {
        Ok(()) => {}
        Err(_) => return Err(AllocError),
    }
    fill(mounted, &key, records);
    Ok(())
}

/// Enters a set's name, where it is to be catalogued. An `Err` changes nothing.
fn catalog_name(catalog: &mut Catalog, set: &SetStatement) -> Result<(), AllocError>
    ensures ok { OnOk result (catalog.new ≡ catalog_with catalog.old set.now) }
    ensures err { OnErr result (catalog.new ≡ catalog.old) }
{
    if !set.catalogued {
        return Ok(());
    }
    match catalog.enter(set.name, set.serial) {
        Ok(_) => Ok(()),
        Err(_) => Err(AllocError),
    }
}

/// Makes a set on a volume that has room for it, and enters its name where that is to be catalogued. An `Err` changes nothing.
fn enter_on(
    alloc: Global,
    mounted: &mut Mounted,
    catalog: &mut Catalog,
    set: &SetStatement,
) -> Result<(), AllocError>
    requires { CanHold mounted.old set.now }
    ensures made { OnOk result (IsMade mounted.old set.now mounted.new) }
    ensures entered { OnOk result (catalog.new ≡ catalog_with catalog.old set.now) }
    ensures err { OnErr result ((mounted.new ≡ mounted.old) × (catalog.new ≡ catalog.old)) }
{
    make_on(alloc, mounted, set)?;
    match catalog_name(catalog, set) {
        Ok(()) => Ok(()),
        Err(error) => {
            take_off(mounted, &SetKey::Named(set.name));
            Err(error)
        }
    }
}

/// Where the volume of a serial stands, from 0.
pub(crate) fn place_of(volumes: &[Mounted], serial: Serial) -> Option<usize>
    ensures there { IfSome result (IsPlaceOf volumes.now serial) }
    ensures missing { IfNone result (mounted_in volumes.now serial ≡ None) }
{
    position_of(volumes, serial)
}

/// Whether a volume has room for so many tracks. It stays as it is.
fn has_room_on(mounted: &mut Mounted, tracks: u16) -> bool
    ensures answer { result ≡ has_room (Some mounted.old) tracks }
    ensures same { mounted.new ≡ mounted.old }
{
    mounted.has_room(tracks)
}

/// Makes a set on its volume, which has room for it, and enters its name where that is to be catalogued. An `Err` changes nothing.
pub(crate) fn enter_set(
    alloc: Global,
    volumes: &mut Listed<Mounted>,
    catalog: &mut Catalog,
    set: &SetStatement,
) -> Result<(), AllocError>
    requires { (its_volume : MountedState) × (mounted_in volumes.old set.now.serial ≡ Some its_volume) × CanHold its_volume set.now }
    ensures made { OnOk result (volumes.new ≡ with_set_in volumes.old (extents_on (mounted_in volumes.old set.now.serial) set.now.tracks) set.now) }
    ensures entered { OnOk result (catalog.new ≡ catalog_with catalog.old set.now) }
    ensures err { OnErr result ((volumes.new ≡ volumes.old) × (catalog.new ≡ catalog.old)) }
{
    let Some(at) = place_of(volumes.as_slice(), set.serial) else {
        unreachable!();
    };
    let mut all = mem::replace(volumes, Listed::empty(alloc)).into_vec();
    let done = enter_on(alloc, &mut all[at], catalog, set);
    *volumes = Listed::new(all);
    done
}

/// Whether the volume of a serial has room for so many tracks. Nothing changes.
pub(crate) fn has_room(
    alloc: Global,
    volumes: &mut Listed<Mounted>,
    serial: Serial,
    tracks: u16,
) -> bool
    ensures answer { result ≡ has_room (mounted_in volumes.old serial) tracks }
    ensures same { volumes.new ≡ volumes.old }
{
    let Some(at) = place_of(volumes.as_slice(), serial) else {
        return false;
    };
    let mut all = mem::replace(volumes, Listed::empty(alloc)).into_vec();
    let room = has_room_on(&mut all[at], tracks);
    *volumes = Listed::new(all);
    room
}
