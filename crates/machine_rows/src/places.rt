//! Places of the sets that a job may make, on volumes of a few tracks.
ghost use Rattle.std.specs.Prelude.{◌≡◌, ◌≤◌, IfOk, OnOk};
ghost use Rattle.std.specs.FinMap as map;
ghost use Rattle.std.specs.List.{All};
ghost use Rattle.jcl_plan.specs.declared.plan.TheConstants.{MOST_TRACKS};
ghost use Rattle.place_core.specs.Placings.{NothingKeptFor};

use cat_core::catalog::Catalog;
use jcl_meaning::places::Places;
use jcl_meaning::state::Place;
use jcl_plan::plan::{
    AfterAbend, DdKind, DdPlan, Expiry, JobPlan, SetPlan, Space, Status, StepPlan, VolumePlan,
    no_tests,
};
use jname_core::ds_name::read_ds_name;
use jname_core::key::Key;
use jname_core::name8::Name8;
use jname_core::serial::Serial;
use mount_core::mounted::Mounted;
use place_core::place::place_sets;
use plain::listed::Listed;
use plain::shared::Shared;
use row_table::desk::Line;
use row_table::names::{name8, serial};
use row_table::told::Told;
use row_table::words::Words;
use shared_core::laws::new_volumes_keep_nothing;
use shared_core::store::SharedStore;
use std::alloc::{AllocError, Global};
use vtoc_core::entry::Extent;

const STATUSES: [(&str, Status); 4] = [
    ("NEW", Status::New),
    ("OLD", Status::Old),
    ("SHR", Status::Shr),
    ("MOD", Status::Mod),
];

/// Takes the next word as what VOL says: nothing, the DD 1.1, the serial of six characters, or a name.
fn volume(words: &mut Words<'_>) -> Option<VolumePlan> {
    let mut ahead = *words;
    if let Some(plan) = ahead.one_of(&PLANS) {
        *words = ahead;
        return Some(plan);
    }
    let word = words.next_word();
    if let Some(serial) = Serial::read(word) {
        return Some(VolumePlan::Serial(serial));
    }
    let name = words.some(read_ds_name(word).ok())?;
    Some(VolumePlan::OfName(name))
}

const PLANS: [(&str, VolumePlan); 2] = [
    ("-", VolumePlan::NotCoded),
    ("*", VolumePlan::OfDd { step: 1, dd: 1 }),
];

/// Takes the next word as a number of two bytes, or none of `-`.
fn some_short(words: &mut Words<'_>) -> Option<u16> {
    let number = words.some_number()?;
    words.some(u16::try_from(number).ok())
}

fn space_of(primary: Option<u16>) -> Option<Space> {
    Some(Space {
        primary: primary?,
        secondary: 0,
        release: false,
    })
}

/// A DD for a set: its status, its volume, its list of volumes and its primary.
fn set_in(words: &mut Words<'_>) -> Option<DdKind> {
    let status = words.one_of(&STATUSES)?;
    let volume = volume(words)?;
    let units = some_short(words);
    let space = space_of(some_short(words));
    Some(DdKind::Set(SetPlan {
        key: Key::Unnamed { step: 1, dd: 1 },
        status,
        normal: None,
        conditional: None,
        volume,
        units,
        space,
        expiry: Expiry::NotCoded,
    }))
}

/// What a DD is that needs no further word.
#[derive(Clone, Copy)]
enum Plain {
    Sysout,
    Dummy,
    Cards,
}

const PLAIN: [(&str, Plain); 3] = [
    ("SYSOUT", Plain::Sysout),
    ("DUMMY", Plain::Dummy),
    ("CARDS", Plain::Cards),
];

/// The DD of a line.
fn kind_in(alloc: Global, words: &mut Words<'_>) -> Option<DdKind> {
    let mut ahead = *words;
    let Some(plain) = ahead.one_of(&PLAIN) else {
        return set_in(words);
    };
    *words = ahead;
    Some(match plain {
        Plain::Sysout => DdKind::Sysout(b'A'),
        Plain::Dummy => DdKind::Dummy,
        Plain::Cards => DdKind::Cards(Shared::new(alloc, Listed::empty(alloc)).ok()?),
    })
}

/// Whether the line is `STEP` or `/END`, which is taken then.
fn is_end(line: &mut Line<'_>) -> bool {
    let mut words = line.words;
    let ends = words.one_of(&[("STEP", ()), ("/END", ())]).is_some();
    if ends {
        line.words = words;
    }
    ends
}

/// The DDs of the lines up to the one that says `STEP` or `/END`.
fn dds_in(alloc: Global, line: &mut Line<'_>) -> Listed<DdPlan> {
    let mut dds = Listed::empty(alloc);
    for _ in 0..line.lines.len() {
        if !line.next() || is_end(line) {
            break;
        }
        if let Some(kind) = kind_in(alloc, &mut line.words) {
            line.told.over(dds.push(DdPlan { name: None, kind }));
        }
        line.end();
    }
    dds
}

/// A job of two steps with these DDs, named as its program.
fn job_of(alloc: Global, program: Name8, line: &mut Line<'_>) -> JobPlan {
    let mut steps = Listed::empty(alloc);
    for _ in 0..2u8 {
        let dds = dds_in(alloc, line);
        line.told.over(steps.push(StepPlan {
            name: None,
            procedure_step: None,
            program,
            after_abend: AfterAbend::Unsaid,
            tests: no_tests(),
            dds,
        }));
    }
    JobPlan {
        name: program,
        class: b'A',
        priority: 6,
        message_class: b'A',
        tests: no_tests(),
        steps,
    }
}

/// The serials of the volumes, of which the last is not there.
#[derive(Clone, Copy)]
struct Serials {
    first: Serial,
    second: Serial,
    third: Serial,
    missing: Serial,
}

fn mount(
    alloc: Global,
    volumes: &mut Listed<Mounted>,
    serial: Serial,
    tracks: u16,
    unusable: &[Extent],
) -> Result<(), AllocError>
    requires fits { tracks ≤ MOST_TRACKS }
    requires before { All (λ m. m.kept ≡ map.empty) volumes.old }
    ensures { OnOk result (All (λ m. m.kept ≡ map.empty) volumes.new) }
{
    let mounted = Mounted::new(alloc, serial, tracks, unusable)?;
    volumes.push(mounted)?;
    Ok(())
}

/// Three volumes: 111111 of 10 tracks, 222222 with free extents of 9 and 10, and 333333 of 30.
fn store_of(alloc: Global, serials: &Serials) -> Result<SharedStore, AllocError>
    ensures { IfOk result (NothingKeptFor 7) }
{
    let hole = [Extent {
        start: 9,
        tracks: 1,
    }];
    let mut volumes = Listed::empty(alloc);
    mount(alloc, &mut volumes, serials.first, 10, &[])?;
    mount(alloc, &mut volumes, serials.second, 20, &hole)?;
    mount(alloc, &mut volumes, serials.third, 30, &[])?;
    new_volumes_keep_nothing();
    Ok(SharedStore {
        alloc,
        catalog: Catalog::new(alloc),
        volumes,
    })
}

/// The lists of three unit names: the second volume and the first; one that is not there and the third; none.
fn units_of(alloc: Global, serials: &Serials) -> Result<Vec<Listed<Serial>>, AllocError> {
    let mut units = Vec::new(alloc);
    let first = [serials.second, serials.first];
    let second = [serials.missing, serials.third];
    units.push(Listed::copy_of(alloc, &first)?)?;
    units.push(Listed::copy_of(alloc, &second)?)?;
    units.push(Listed::empty(alloc))?;
    Ok(units)
}

/// The places of job 7, found again where memory was wanting and where it was not: nothing stays set aside.
fn found_again(alloc: Global, job: &JobPlan, serials: &Serials) -> Result<Places, AllocError> {
    let mut store = store_of(alloc, serials)?;
    let units = units_of(alloc, serials)?;
    let _ = place_sets(alloc, &mut store, 7, job, units.as_slice());
    match place_sets(alloc, &mut store, 7, job, units.as_slice()) {
        Ok(places) => Ok(places),
        Err(_) => place_sets(alloc, &mut store, 7, job, units.as_slice()),
    }
}

/// A line for each place: the step, the DD and the serial.
fn tell_found(told: &mut Told, places: &[Place]) {
    for place in places {
        told.numbered(b"", place.step as u64);
        told.numbered(b".", place.dd as u64);
        told.line_of_two(b" ", place.serial.as_slice());
    }
}

fn serials_in(words: &mut Words<'_>) -> Option<Serials> {
    Some(Serials {
        first: serial(words)?,
        second: serial(words)?,
        third: serial(words)?,
        missing: serial(words)?,
    })
}

/// The places of the sets of the DDs that the next lines say, up to `/END`.
pub(crate) fn tell_places(alloc: Global, line: &mut Line<'_>) {
    let serials = serials_in(&mut Words::new(b"111111 222222 333333 999999"));
    let program = name8(&mut Words::new(b"IEFBR14"));
    let (Some(serials), Some(program)) = (serials, program) else {
        return;
    };
    let job = job_of(alloc, program, line);
    if let Some(places) = line.told.got(found_again(alloc, &job, &serials)) {
        tell_found(&mut line.told, places.as_slice());
    }
}
