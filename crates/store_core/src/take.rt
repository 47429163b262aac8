//! What a DD goes for, and what taking it decides.
ghost use Rattle.std.specs.Prelude.{◌≡◌, Some};
ghost use Rattle.jcl_meaning.specs.Takes.{at_or_lost, day_of, dd_volume, decide, first_passed, found_or_made, is_known, looked_at, on_volume};
ghost use Rattle.jcl_meaning.specs.Takes.{primary_of, taken, target_of, there_or};
ghost use Rattle.jcl_meaning.specs.declared.take.Target.TheVariants as target;

use jcl_meaning::names::same_key;
use jcl_meaning::state::{DdVolume, Passed, TakenSet};
use jcl_meaning::take::{Decision, How, Target, Where};
use jcl_plan::day::Day;
use jcl_plan::fault::Fault;
use jcl_plan::plan::{Expiry, Space, Status};
use jname_core::key::Key;
use jname_core::serial::{Serial, is_among};

/// A place on a volume, if there is one.
pub fn at_or_lost(serial: Option<Serial>) -> Where
    ensures { result ≡ at_or_lost serial }
{
    match serial {
        None => Where::Lost,
        Some(serial) => Where::At(serial),
    }
}

/// The first passed set of a key.
pub fn first_passed(passed: &[Passed], key: &Key) -> Option<Passed>
    ensures { result ≡ first_passed passed.now key.now }
{
    for p in passed {
        if same_key(&p.key, key) {
            return Some(*p);
        }
    }
    None
}

/// The volume on which a DD's set was taken.
pub fn dd_volume(volumes: &[DdVolume], step: usize, dd: usize) -> Option<Serial>
    ensures { result ≡ dd_volume volumes.now step dd }
{
    for x in volumes {
        if x.step == step && x.dd == dd {
            return Some(x.serial);
        }
    }
    None
}

fn on_volume(status: Status, serial: Serial) -> Target
    ensures { result ≡ on_volume status serial }
{
    match status {
        Status::New => Target::Makes(Some(serial)),
        Status::Old => Target::Finds(serial),
        Status::Shr => Target::Finds(serial),
        Status::Mod => Target::Finds(serial),
    }
}

fn found_or_made(
    status: Status,
    passed: Option<Passed>,
    entered: Option<Serial>,
    place: Option<Serial>,
) -> Target
    ensures { result ≡ found_or_made status passed entered place }
{
    match status {
        Status::New => Target::Makes(place),
        Status::Old => there_or(passed, entered, Target::Misses),
        Status::Shr => there_or(passed, entered, Target::Misses),
        Status::Mod => there_or(passed, entered, Target::Makes(place)),
    }
}

/// A set that is there, as passed or in the catalog, or else.
fn there_or(passed: Option<Passed>, entered: Option<Serial>, other: Target) -> Target
    ensures { result ≡ there_or passed entered other }
{
    match passed {
        Some(p) => Target::Receives(p),
        None => match entered {
            Some(serial) => Target::FindsByCatalog(serial),
            None => other,
        },
    }
}

/// What a DD goes for: by its status, VOL, the first passed set of its key, the catalog's volume, and its place.
pub fn target_of(
    status: Status,
    volume: Where,
    passed: Option<Passed>,
    entered: Option<Serial>,
    place: Option<Serial>,
) -> Target
    ensures { result ≡ target_of status volume passed entered place }
{
    match volume {
        Where::Lost => Target::Misses,
        Where::At(serial) => on_volume(status, serial),
        Where::Anywhere => found_or_made(status, passed, entered, place),
    }
}

/// The volume that is looked at.
pub fn looked_at(target: &Target) -> Option<Serial>
    ensures { result ≡ looked_at target.now }
{
    match target {
        Target::Makes(place) => *place,
        Target::Finds(serial) => Some(*serial),
        Target::Receives(p) => Some(p.serial),
        Target::FindsByCatalog(serial) => Some(*serial),
        Target::Misses => None,
    }
}

fn decide_made(serial: Serial, known: bool, there: bool, space: bool, granted: bool) -> Decision
    ensures { result ≡ decide (target.Makes (Some serial)) known there space granted }
{
    if !known {
        Decision::Refuses(Fault::F10)
    } else if there {
        Decision::Refuses(Fault::F2)
    } else if !space {
        Decision::Refuses(Fault::F7)
    } else if !granted {
        Decision::Refuses(Fault::F6)
    } else {
        Decision::Takes(serial, How::Made)
    }
}

/// What a take decides: whether the volume is known, the set is there, SPACE is coded, and a primary is granted.
pub fn decide(target: &Target, known: bool, there: bool, space: bool, granted: bool) -> Decision
    ensures { result ≡ decide target.now known there space granted }
{
    match target {
        Target::Makes(None) => Decision::Refuses(Fault::F10),
        Target::Makes(Some(serial)) => decide_made(*serial, known, there, space, granted),
        Target::Finds(serial) => {
            if !known {
                Decision::Refuses(Fault::F10)
            } else if !there {
                Decision::Refuses(Fault::F1)
            } else {
                Decision::Takes(*serial, How::Found)
            }
        }
        Target::Receives(p) => {
            if !there {
                Decision::Refuses(Fault::F1)
            } else {
                let how = How::Received {
                    made: p.made,
                    by_catalog: p.by_catalog,
                };
                Decision::Takes(p.serial, how)
            }
        }
        Target::FindsByCatalog(serial) => {
            if !there {
                Decision::Refuses(Fault::F1)
            } else {
                Decision::Takes(*serial, How::FoundByCatalog)
            }
        }
        Target::Misses => Decision::Refuses(Fault::F1),
    }
}

/// What is known of a set that was taken.
pub fn taken(key: &Key, serial: Serial, how: How) -> TakenSet
    ensures { result ≡ taken key.now serial how }
{
    let (made, by_catalog) = match how {
        How::Made => (true, false),
        How::Found => (false, false),
        How::FoundByCatalog => (false, true),
        How::Received { made, by_catalog } => (made, by_catalog),
    };
    TakenSet {
        key: *key,
        serial,
        made,
        by_catalog,
        made_here: how == How::Made,
    }
}

/// Whether the volume that is looked at is one of these.
pub fn is_known(volumes: &[Serial], serial: &Option<Serial>) -> bool
    ensures { result ≡ is_known volumes.now serial.now }
{
    match serial {
        None => false,
        Some(serial) => is_among(volumes, *serial),
    }
}

/// The tracks that a set asks for when it is made: 0 without SPACE.
pub fn primary_of(space: &Option<Space>) -> u16
    ensures { result ≡ primary_of space.now }
{
    match space {
        None => 0,
        Some(space) => space.primary,
    }
}

/// The day of a set that is made; temporary sets have none.
pub fn day_of(expiry: Expiry, temporary: bool, date: Day) -> Option<u32>
    ensures { result ≡ day_of expiry temporary date }
{
    if temporary {
        return None;
    }
    match expiry {
        Expiry::NotCoded => None,
        Expiry::Day(day) => Some(day.number()),
        Expiry::DaysFromToday(days) => Some(date.number() + u32::from(days)),
    }
}
