//! Space that a volume never has.
use itoa::Buffer;
use jcl_plan::plan::{DdKind, SetPlan, Status, StepPlan, VolumePlan};
use jname_core::serial::Serial;
use plain::listed::Listed;
use std::alloc::{AllocError, Global};

/// How many tracks a volume has for sets.
#[derive(Clone, Copy)]
pub struct Room {
    pub serial: Serial,
    pub tracks: usize,
}

/// How many tracks the volume of this serial has, if it is configured.
fn tracks_of(rooms: &[Room], serial: Serial) -> Option<usize> {
    match rooms.iter().find(|room| room.serial == serial) {
        Some(room) => Some(room.tracks),
        None => None,
    }
}

/// The set of a DD that is made, and how many tracks it asks for.
fn made_by(kind: &DdKind) -> Option<(&SetPlan, usize)> {
    match kind {
        DdKind::Set(set) => match (set.status, &set.space) {
            (Status::New, Some(space)) => Some((set, usize::from(space.primary))),
            _ => None,
        },
        _ => None,
    }
}

/// The volumes of a set's unit, if it asks for one.
fn volumes_of<'a>(set: &SetPlan, units: &'a [Listed<Serial>]) -> Option<&'a [Serial]> {
    let number = set.units?;
    match units.get(usize::from(number).saturating_sub(1)) {
        Some(volumes) => Some(volumes.as_slice()),
        None => Some(&[]),
    }
}

/// The only volume of a session.
fn only_room(rooms: &[Room]) -> Option<Serial> {
    match rooms {
        [room] => Some(room.serial),
        _ => None,
    }
}

/// The only volume on which a set may be made, if there is only one.
fn only_volume(set: &SetPlan, units: &[Listed<Serial>], rooms: &[Room]) -> Option<Serial> {
    match (&set.volume, volumes_of(set, units)) {
        (VolumePlan::Serial(serial), _) => Some(*serial),
        (VolumePlan::NotCoded, Some([serial])) => Some(*serial),
        (VolumePlan::NotCoded, None) => only_room(rooms),
        _ => None,
    }
}

/// The most tracks that a volume of the session has.
fn most_in(rooms: &[Room]) -> usize {
    let mut most = 0;
    for room in rooms {
        most = room.tracks.max(most);
    }
    most
}

/// The most tracks that one of these volumes has.
fn most_of(rooms: &[Room], volumes: &[Serial]) -> usize {
    let mut most = 0;
    for serial in volumes {
        most = tracks_of(rooms, *serial).unwrap_or(0).max(most);
    }
    most
}

/// The most tracks that a volume has on which a set without VOL may be made, where there are several.
fn most_for(set: &SetPlan, units: &[Listed<Serial>], rooms: &[Room]) -> Option<usize> {
    match (&set.volume, volumes_of(set, units)) {
        (VolumePlan::NotCoded, Some([_, _, ..])) => {
            Some(most_of(rooms, volumes_of(set, units).unwrap_or(&[])))
        }
        (VolumePlan::NotCoded, None) if rooms.len() > 1 => Some(most_in(rooms)),
        _ => None,
    }
}

/// How many tracks the sets ask a volume for that the first so many DDs of a step make.
fn asked_of(
    step: &StepPlan,
    count: usize,
    units: &[Listed<Serial>],
    rooms: &[Room],
    serial: Serial,
) -> usize {
    let mut asked: usize = 0;
    for dd in step.dds.as_slice().iter().take(count) {
        if let Some((set, tracks)) = made_by(&dd.kind) {
            if only_volume(set, units, rooms) == Some(serial) {
                asked = asked.saturating_add(tracks);
            }
        }
    }
    asked
}

fn push_number(words: &mut Vec<u8>, number: usize) -> Result<(), AllocError> {
    let mut buffer = Buffer::new();
    words.extend_from_slice(buffer.format(number as u64).as_bytes())
}

/// What is written of space that is asked for in vain.
fn words_of(
    alloc: Global,
    asked: usize,
    serial: Option<Serial>,
    most: usize,
) -> Result<Vec<u8>, AllocError> {
    let mut words = Vec::from_slice(
        alloc,
        match serial {
            Some(_) => b"the sets that the step makes up to this DD ask for ".as_slice(),
            None => b"the set asks for ".as_slice(),
        },
    )?;
    push_number(&mut words, asked)?;
    match serial {
        Some(serial) => {
            words.extend_from_slice(b" tracks of volume ")?;
            words.extend_from_slice(serial.as_slice())?;
            words.extend_from_slice(b", which has ")?;
        }
        None => words.extend_from_slice(
            b" tracks, and no volume on which it may be made has more than ",
        )?,
    }
    push_number(&mut words, most)?;
    words.extend_from_slice(match serial {
        Some(_) => b": they can never fit".as_slice(),
        None => b": it can never fit".as_slice(),
    })?;
    Ok(words)
}

/// What a DD of a step asks for in vain, and of which volume, if it is of one: so many tracks, of which there are never more than so many.
fn in_vain(
    step: &StepPlan,
    d: usize,
    set: &SetPlan,
    tracks: usize,
    units: &[Listed<Serial>],
    rooms: &[Room],
) -> Option<(usize, Option<Serial>, usize)> {
    if let Some(serial) = only_volume(set, units, rooms) {
        let asked = asked_of(step, d.saturating_add(1), units, rooms, serial);
        let most = tracks_of(rooms, serial)?;
        return if asked > most {
            Some((asked, Some(serial), most))
        } else {
            None
        };
    }
    let most = most_for(set, units, rooms)?;
    if tracks > most {
        Some((tracks, None, most))
    } else {
        None
    }
}

/// The first DD of a step, from 0, with whose set the step asks for more than a volume ever has, and what is said of it.
pub(crate) fn never_fits(
    alloc: Global,
    step: &StepPlan,
    units: &[Listed<Serial>],
    rooms: &[Room],
) -> Result<Option<(usize, Vec<u8>)>, AllocError> {
    for (d, dd) in step.dds.as_slice().iter().enumerate() {
        if let Some((set, tracks)) = made_by(&dd.kind) {
            if let Some((asked, serial, most)) = in_vain(step, d, set, tracks, units, rooms) {
                return Ok(Some((d, words_of(alloc, asked, serial, most)?)));
            }
        }
    }
    Ok(None)
}
