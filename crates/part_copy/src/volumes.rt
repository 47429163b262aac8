//! The sets that a job sees on all volumes.
ghost use Rattle.std.specs.Prelude.{◌≡◌, ◌&&◌, IfOk, OnOk, true};
ghost use Rattle.std.specs.List.{find};
ghost use Rattle.std.specs.Option.{option_copied};
ghost use Rattle.std.specs.Str.{bytes_eq};
ghost use Rattle.jcl_meaning.specs.Parts.{sees_key};
ghost use Rattle.shared_core.specs.Writes.{is_mounted};
ghost use Rattle.part_copy.specs.Copies.{AddsSets, Spot, bare_at, is_seen_on, set_at};

use crate::sets::copy_volume;
use jcl_meaning::names::HeldName;
use jcl_meaning::store::SoloSet;
use jname_core::serial::Serial;
use mount_core::mounted::Mounted;
use plain::listed::Listed;
use std::alloc::{AllocError, Global};

/// The first volume of a serial.
fn mounted_of(volumes: &[Mounted], serial: Serial) -> Option<&Mounted>
    ensures { option_copied result ≡ find (is_mounted serial) volumes.now }
{
    volumes
        .iter()
        .find(|m| m.serial().as_slice() == serial.as_slice())
}

/// Adds the copies of the sets on the volume of a serial that a job with these names sees.
fn copy_mounted(
    alloc: Global,
    sets: &mut Listed<SoloSet>,
    job: u16,
    names: &[HeldName],
    volumes: &[Mounted],
    serial: Serial,
) -> Result<(), AllocError>
    ensures { OnOk result (AddsSets (bare_at job volumes.now) (λ spot. sees_key names.now spot.0 && bytes_eq serial spot.1) sets.old sets.new) }
{
    match mounted_of(volumes, serial) {
        Some(mounted) => copy_volume(alloc, sets, job, names, mounted),
        None => Ok(()),
    }
}

/// Adds the copies of the sets on all volumes that a job with these names sees.
fn copy_all(
    alloc: Global,
    sets: &mut Listed<SoloSet>,
    job: u16,
    names: &[HeldName],
    volumes: &[Mounted],
) -> Result<(), AllocError>
    ensures { OnOk result (AddsSets (bare_at job volumes.now) (is_seen_on names.now volumes.now) sets.old sets.new) }
{
    for mounted in volumes {
        copy_mounted(alloc, sets, job, names, volumes, mounted.serial())?;
    }
    Ok(())
}

/// The copies of the sets that a job with these names sees.
pub(crate) fn sets_seen(
    alloc: Global,
    job: u16,
    names: &[HeldName],
    volumes: &[Mounted],
) -> Result<Listed<SoloSet>, AllocError>
    ensures { IfOk result (λ sets. (spot : Spot) → sees_key names.now spot.0 ≡ true → set_at sets spot ≡ bare_at job volumes.now spot) }
{
    let mut sets = Listed::empty(alloc);
    copy_all(alloc, &mut sets, job, names, volumes)?;
    Ok(sets)
}
