//! The sets that a step may make.
ghost use Rattle.std.specs.Prelude.{◌≡◌, ◌+◌, ◌-◌, ◌≤◌, ◌<◌, All, OnOk, if◌then◌else◌, length, ◌++◌, ◌∷◌, ◌&&◌, []};
ghost use Rattle.std.specs.List.{list_any, position};
ghost use Rattle.std.specs.Str.{bytes_eq};
ghost use Rattle.path_search.specs.Makings.{AreAdded, AreMarked, IsOfDd, IsRowAdded, is_some_of, made_of};

use jcl_meaning::state::Place;
use jname_core::serial::{Serial, is_among};
use plain::listed::Listed;
use std::alloc::AllocError;
use view_domain::crossed::Crossed;

/// Puts a volume among those of a DD, once.
fn mark_volume(row: &mut Listed<Serial>, serial: Serial) -> Result<(), AllocError>
    ensures { OnOk result (row.new ≡ (if list_any (bytes_eq serial) row.old then row.old else row.old ++ serial ∷ [])) }
{
    if !is_among(row.as_slice(), serial) {
        row.push(serial)?;
    }
    Ok(())
}

/// Puts the volumes of these places among those of their DDs.
fn mark_places(rows: &mut Vec<Listed<Serial>>, places: &[Place]) -> Result<(), AllocError>
    requires dds { All (IsOfDd (length rows.old.items)) places.now }
    ensures marked { OnOk result (AreMarked places.now rows.old.items rows.new.items) }
{
    for place in places {
        mark_volume(&mut rows[place.dd - 1], place.serial)?;
    }
    Ok(())
}

/// Puts the volumes on which sets are made, in what a part comes to from a view, among those of the DDs.
pub(crate) fn mark_crossed<V: Drop>(
    rows: &mut Vec<Listed<Serial>>,
    crossed: &Crossed<V>,
) -> Result<(), AllocError>
    requires dds { All (IsOfDd (length rows.old.items)) (made_of crossed.now) }
    ensures marked { OnOk result (AreMarked (made_of crossed.now) rows.old.items rows.new.items) }
{
    match crossed {
        Crossed::Runs {
            made,
            by_code: _,
            by_abend: _,
        } => mark_places(rows, made.as_slice()),
        _ => Ok(()),
    }
}

/// The first place of a volume of the serial, as configured.
fn position_of(volumes: &[Serial], serial: Serial) -> Option<usize>
    ensures { result ≡ position (bytes_eq serial) volumes.now }
{
    volumes
        .iter()
        .position(|v| serial.as_slice() == v.as_slice())
}

/// Whether the volume of this serial stands there first, and is in a row.
fn is_first_in(row: &[Serial], volumes: &[Serial], at: usize, serial: Serial) -> bool
    ensures { result ≡ (is_some_of at (position (bytes_eq serial) volumes.now) && list_any (bytes_eq serial) row.now) }
{
    match position_of(volumes, serial) {
        Some(first) => first == at && is_among(row, serial),
        None => false,
    }
}

/// Puts the places of a DD in the order of the volumes as configured.
fn add_row(
    places: &mut Vec<Place>,
    step: usize,
    dd: usize,
    row: &[Serial],
    volumes: &[Serial],
) -> Result<(), AllocError>
    ensures added { OnOk result (IsRowAdded volumes.now step dd row.now places.old.items places.new.items) }
{
    for (at, serial) in volumes.iter().enumerate() {
        if is_first_in(row, volumes, at, *serial) {
            places.push(Place {
                step,
                dd,
                serial: *serial,
            })?;
        }
    }
    Ok(())
}

/// Puts the places where a step may make sets, by DD and by volume as configured.
pub(crate) fn add_places(
    places: &mut Vec<Place>,
    step: usize,
    rows: &[Listed<Serial>],
    volumes: &[Serial],
) -> Result<(), AllocError>
    ensures added { OnOk result (AreAdded volumes.now step rows.now places.old.items places.new.items) }
{
    for (at, row) in rows.iter().enumerate() {
        add_row(places, step, at + 1, row.as_slice(), volumes)?;
    }
    Ok(())
}
