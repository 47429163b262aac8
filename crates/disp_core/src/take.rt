//! The taking of a DD. (GC28-6704, DISP parameter)
ghost use Rattle.std.specs.Prelude.{◌≡◌, ◌<◌, Err, IfNone, IfOk, IfSome, None, OnErr, OnOk, Some, is_some, length, remove, true};
ghost use Rattle.jcl_plan.specs.declared.entry.JobLine.{JobLine};
ghost use Rattle.jcl_meaning.specs.TakeActs.{new_dd, passed_left, take_word};
ghost use Rattle.jcl_meaning.specs.Takes.{is_there, primary_of, where_of, without_passed};
ghost use Rattle.job_text.specs.Texts.{take_as};
ghost use Rattle.disp_core.specs.Acting.{MakesAs, MakesWith};
ghost use Rattle.disp_core.specs.Choices.{IsNotGranted, Took, TookChosen, TookKey, TookSet, course_kept, course_taken, course_taken_without};
ghost use Rattle.disp_core.specs.Choices.{granted_at, made_at, store_taken};
ghost use Rattle.disp_core.specs.Courses.{fixed_by};
ghost use Rattle.disp_core.specs.Grants.{made_of};
ghost use Rattle.disp_core.specs.Takings.{decision_in, target_in};
ghost use Rattle.disp_core.specs.declared.course.Course.{Course};
ghost use Rattle.jcl_meaning.specs.declared.state.DdState.{DdState};
ghost use Rattle.jcl_meaning.specs.declared.state.DdVolume.{DdVolume};

use crate::change::{catalogued, is_on};
use crate::course::{Course, Given, drop_last};
use crate::refuse::refuse;
use crate::site::Site;
use jcl_meaning::names::{is_temporary, same_key};
use jcl_meaning::state::{DdState, DdVolume, Own, Passed, Place, Resolution, TakenSet};
use jcl_meaning::take::{Decision, How, Target, Where};
use jcl_plan::entry::JobLine;
use jcl_plan::fault::Fault;
use jcl_plan::plan::VolumePlan;
use jcl_plan::words::TakeWord;
use jname_core::key::Key;
use jname_core::name8::Name8;
use jname_core::serial::Serial;
use job_text::texts::{TakeSet, TakeText};
use plain::listed::Listed;
use std::alloc::{AllocError, Global};
use store_core::job_store::{JobStore, RoomFault};
use store_core::take::{
    at_or_lost, day_of, dd_volume, decide, first_passed, is_known, looked_at, taken, target_of,
};

/// What taking a DD met and made.
#[derive(Clone, Copy)]
pub struct Taken {
    /// The fault that ended the job's running.
    pub meets: Option<Fault>,
    /// Where a set was made.
    pub made: Option<Place>,
}

/// The set that a DD takes: its key, its volume, and how it comes to the DD.
#[derive(Clone, Copy)]
pub(crate) struct Chosen {
    pub(crate) key: Key,
    pub(crate) serial: Serial,
    pub(crate) how: How,
}

fn new_dd(alloc: Global, dd: usize, name: &Option<Name8>, taken: Option<TakenSet>) -> DdState
    ensures { result ≡ new_dd dd name.now taken }
{
    DdState {
        number: dd,
        name: *name,
        taken,
        member: 0,
        position: 0,
        written: false,
        spooled: Listed::empty(alloc),
    }
}

/// Takes a DD that has no set. An `Err` changes nothing.
fn take_no_set(
    alloc: Global,
    course: &mut Course,
    at: &Site,
    word: TakeWord,
) -> Result<Taken, AllocError>
    ensures told { IfOk result (λ told. told ≡ record { meets = None; made = None }) }
    ensures course { OnOk result (course.new ≡ course_taken_without at.now word course.old) }
    ensures err { OnErr result (course.new ≡ course.old) }
{
    course.say(JobLine::Take {
        dd: at.dd,
        name: at.name,
        word,
    })?;
    match course.own.dds.push(new_dd(alloc, at.dd, &at.name, None)) {
        Ok(()) => Ok(Taken {
            meets: None,
            made: None,
        }),
        Err(error) => {
            course.unsay();
            Err(error)
        }
    }
}

/// Enters a set that is taken in the job's own part, with its line. An `Err` changes nothing.
fn keep_taken(
    course: &mut Course,
    volume: DdVolume,
    state: DdState,
    line: JobLine,
) -> Result<(), AllocError>
    ensures ok { OnOk result (course.new ≡ course_kept volume state line course.old) }
    ensures err { OnErr result (course.new ≡ course.old) }
{
    course.say(line)?;
    match course.own.volumes.push(volume) {
        Ok(()) => {}
        Err(error) => {
            course.unsay();
            return Err(error);
        }
    }
    match course.own.dds.push(state) {
        Ok(()) => Ok(()),
        Err(error) => {
            drop_last(&mut course.own.volumes);
            course.unsay();
            Err(error)
        }
    }
}

/// Takes that back.
fn forget_taken(course: &mut Course)
    requires lines { 0 < length course.old.lines }
    requires volumes { 0 < length course.old.own.volumes }
    requires dds { 0 < length course.old.own.dds }
    ensures { (before : Course) (volume : DdVolume) (state : DdState) (line : JobLine) →
        course.old ≡ course_kept volume state line before → course.new ≡ before }
{
    drop_last(&mut course.own.dds);
    drop_last(&mut course.own.volumes);
    course.unsay();
}

fn take_word(how: How, serial: Serial) -> TakeWord
    ensures { result ≡ take_word how serial }
{
    match how {
        How::Made => TakeWord::Made(serial),
        How::Found => TakeWord::Found(serial),
        How::FoundByCatalog => TakeWord::Found(serial),
        How::Received { .. } => TakeWord::Received(serial),
    }
}

/// The place of the first passed set of a key, from 0.
fn passed_place(passed: &[Passed], key: &Key) -> Option<usize>
    ensures found { IfSome result (λ i. (i < length passed.now) × (remove passed.now i ≡ without_passed passed.now key.now)) }
    ensures nowhere { IfNone result (without_passed passed.now key.now ≡ passed.now) }
{
    for (i, p) in passed.iter().enumerate() {
        if same_key(&p.key, key) {
            return Some(i);
        }
    }
    None
}

/// Takes the first passed set of a key off the list.
fn drop_passed(passed: &mut Listed<Passed>, key: &Key)
    ensures { passed.new ≡ without_passed passed.old key.now }
{
    if let Some(place) = passed_place(passed.as_slice(), key) {
        passed.remove(place);
    }
}

/// Takes a set that is received off the passed list.
fn receive(passed: &mut Listed<Passed>, how: How, key: &Key)
    ensures { passed.new ≡ passed_left how passed.old key.now }
{
    match how {
        How::Received { .. } => drop_passed(passed, key),
        How::Made => {}
        How::Found => {}
        How::FoundByCatalog => {}
    }
}

/// Where a set was made, if it was.
fn place_made(at: &Site, chosen: &Chosen) -> Option<Place>
    ensures { made_of result ≡ made_at at.now chosen.now }
{
    match chosen.how {
        How::Made => Some(Place {
            step: at.step,
            dd: at.dd,
            serial: chosen.serial,
        }),
        How::Found => None,
        How::FoundByCatalog => None,
        How::Received { .. } => None,
    }
}

/// The volume that VOL names, after these passes and takes.
fn where_of<S: JobStore>(
    store: &S,
    job: u16,
    volume: &VolumePlan,
    passed: &[Passed],
    volumes: &[DdVolume],
) -> Where
    ensures { result ≡ where_of volume.now (S.seen job store.now) passed.now volumes.now }
{
    match volume {
        VolumePlan::NotCoded => Where::Anywhere,
        VolumePlan::Serial(serial) => Where::At(*serial),
        VolumePlan::OfName(name) => match first_passed(passed, &Key::Named(*name)) {
            Some(p) => Where::At(p.serial),
            None => at_or_lost(store.volume(job, name)),
        },
        VolumePlan::OfDd { step, dd } => {
            at_or_lost(dd_volume(volumes, usize::from(*step), usize::from(*dd)))
        }
    }
}

/// The tracks that a set asks for when it is made: 0 without SPACE.
fn primary_of(p: &TakeSet) -> u16
    ensures { result ≡ primary_of (take_as p.now).space }
{
    match p.primary {
        None => 0,
        Some(primary) => primary,
    }
}

/// Whether SPACE is coded.
fn has_space(p: &TakeSet) -> bool
    ensures { result ≡ is_some (take_as p.now).space }
{
    match p.primary {
        None => false,
        Some(_) => true,
    }
}

/// Makes the set of a DD where its take makes one. An `Err` changes nothing.
fn make_for<S: JobStore>(
    store: &mut S,
    given: &Given,
    at: &Site,
    p: &TakeSet,
    chosen: &Chosen,
) -> Result<(), RoomFault>
    requires { chosen.now.how ≡ How.Made → (S.seen at.now.job store.old).set chosen.now.key chosen.now.serial ≡ None }
    ensures seen { OnOk result (S.seen at.now.job store.new ≡ store_taken (fixed_by given.now) (take_as p.now) chosen.now (S.seen at.now.job store.old)) }
    ensures rest { OnOk result (S.takes at.now.job (made_at at.now chosen.now) (S.rest at.now.job store.old) (S.rest at.now.job store.new)) }
    ensures granted { OnOk result (chosen.now.how ≡ How.Made → granted_at (S.grants_new at.now.job store.old) at.now (take_as p.now) chosen.now ≡ true) }
    ensures refused { result ≡ Err RoomFault.NotGranted → IsNotGranted S.JobStore at.now (take_as p.now) chosen.now store.old }
    ensures err { OnErr result (store.new ≡ store.old) }
{
    match chosen.how {
        How::Made => {
            let place = Place {
                step: at.step,
                dd: at.dd,
                serial: chosen.serial,
            };
            let day = day_of(p.expiry, is_temporary(&chosen.key), given.date);
            store.make(at.job, &chosen.key, &place, primary_of(p), day)
        }
        How::Found => Ok(()),
        How::FoundByCatalog => Ok(()),
        How::Received { .. } => Ok(()),
    }
}

/// Takes a set. An `Err` changes nothing.
fn accept<S: JobStore>(
    alloc: Global,
    store: &mut S,
    given: &Given,
    course: &mut Course,
    at: &Site,
    p: &TakeSet,
    chosen: &Chosen,
) -> Result<(), RoomFault>
    requires { chosen.now.how ≡ How.Made → (S.seen at.now.job store.old).set chosen.now.key chosen.now.serial ≡ None }
    ensures seen { OnOk result (S.seen at.now.job store.new ≡ store_taken (fixed_by given.now) (take_as p.now) chosen.now (S.seen at.now.job store.old)) }
    ensures course { OnOk result (course.new ≡ course_taken at.now chosen.now course.old) }
    ensures rest { OnOk result (S.takes at.now.job (made_at at.now chosen.now) (S.rest at.now.job store.old) (S.rest at.now.job store.new)) }
    ensures granted { OnOk result (chosen.now.how ≡ How.Made → granted_at (S.grants_new at.now.job store.old) at.now (take_as p.now) chosen.now ≡ true) }
    ensures refused { result ≡ Err RoomFault.NotGranted → IsNotGranted S.JobStore at.now (take_as p.now) chosen.now store.old }
    ensures err { OnErr result ((store.new ≡ store.old) × (course.new ≡ course.old)) }
{
    let volume = DdVolume {
        step: at.step,
        dd: at.dd,
        serial: chosen.serial,
    };
    let set = taken(&chosen.key, chosen.serial, chosen.how);
    let state = new_dd(alloc, at.dd, &at.name, Some(set));
    let line = JobLine::Take {
        dd: at.dd,
        name: at.name,
        word: take_word(chosen.how, chosen.serial),
    };
    let Ok(()) = keep_taken(course, volume, state, line) else {
        return Err(RoomFault::Memory);
    };
    match make_for(store, given, at, p, chosen) {
        Ok(()) => {
            receive(&mut course.own.passed, chosen.how, &chosen.key);
            Ok(())
        }
        Err(fault) => {
            forget_taken(course);
            Err(fault)
        }
    }
}

/// What a DD goes for.
fn target<S: JobStore>(
    store: &S,
    given: &Given,
    own: &Own,
    at: &Site,
    p: &TakeSet,
    key: &Key,
) -> Target
    ensures { result ≡ target_in (fixed_by given.now) at.now.step at.now.dd (take_as p.now) key.now (S.seen at.now.job store.now) own.now }
{
    let passed = own.passed.as_slice();
    target_of(
        p.status,
        where_of(store, at.job, &p.volume, passed, own.volumes.as_slice()),
        first_passed(passed, key),
        catalogued(store, at.job, key),
        given.places.of(at.step, at.dd),
    )
}

/// Whether a set stands on a volume, where one is named.
fn is_there<S: JobStore>(store: &S, job: u16, key: &Key, serial: &Option<Serial>) -> bool
    ensures { result ≡ is_there (S.seen job store.now) key.now serial.now }
{
    match serial {
        None => false,
        Some(serial) => is_on(store, job, key, *serial),
    }
}

/// What a take decides where the primary is granted.
fn decision<S: JobStore>(
    store: &S,
    job: u16,
    given: &Given,
    p: &TakeSet,
    key: &Key,
    target: &Target,
) -> Decision
    ensures { result ≡ decision_in (fixed_by given.now) (take_as p.now) key.now (S.seen job store.now) target.now true }
{
    let serial = looked_at(target);
    let known = is_known(given.volumes, &serial);
    let there = is_there(store, job, key, &serial);
    let space = has_space(p);
    decide(target, known, there, space, true)
}

/// Takes a set, where its primary is granted if it is to be made; else the fault is F6. An `Err` changes nothing.
fn accept_or_refuse<S: JobStore>(
    alloc: Global,
    store: &mut S,
    given: &Given,
    course: &mut Course,
    at: &Site,
    p: &TakeSet,
    chosen: &Chosen,
) -> Result<Taken, AllocError>
    requires { chosen.now.how ≡ How.Made → (S.seen at.now.job store.old).set chosen.now.key chosen.now.serial ≡ None }
    ensures { MakesWith S.JobStore at.now.job (λ g. TookChosen g given.now at.now (take_as p.now) chosen.now)
        result store.old course.old store.new course.new }
{
    match accept(alloc, store, given, course, at, p, chosen) {
        Ok(()) => Ok(Taken {
            meets: None,
            made: place_made(at, chosen),
        }),
        Err(RoomFault::NotGranted) => refuse(alloc, store, course, at, Fault::F6),
        Err(RoomFault::Memory) => Err(AllocError),
    }
}

/// Takes the set of a DD whose key means this. An `Err` changes nothing.
fn take_key<S: JobStore>(
    alloc: Global,
    store: &mut S,
    given: &Given,
    course: &mut Course,
    at: &Site,
    p: &TakeSet,
    key: &Key,
) -> Result<Taken, AllocError>
    ensures { MakesWith S.JobStore at.now.job (λ grants. TookKey grants given.now at.now (take_as p.now) key.now)
        result store.old course.old store.new course.new }
{
    let target = target(store, given, &course.own, at, p, key);
    match decision(store, at.job, given, p, key, &target) {
        Decision::Refuses(fault) => refuse(alloc, store, course, at, fault),
        Decision::Takes(serial, how) => {
            let chosen = Chosen {
                key: *key,
                serial,
                how,
            };
            accept_or_refuse(alloc, store, given, course, at, p, &chosen)
        }
    }
}

/// Takes the set of a DD by what its key means. An `Err` changes nothing.
fn take_set<S: JobStore>(
    alloc: Global,
    store: &mut S,
    given: &Given,
    course: &mut Course,
    at: &Site,
    p: &TakeSet,
) -> Result<Taken, AllocError>
    ensures { MakesWith S.JobStore at.now.job (λ grants. TookSet grants given.now at.now (take_as p.now)) result store.old course.old store.new course.new }
{
    match given.meanings.at(at.step, at.dd) {
        Resolution::Fails(fault) => refuse(alloc, store, course, at, fault),
        Resolution::Means(key) => take_key(alloc, store, given, course, at, p, &key),
    }
}

/// The taking of a DD. A step that does not run passes it over. What it does is its definition's where the answer to its primary is that of the store.
/// An `Err` changes nothing.
pub fn take<S: JobStore>(
    alloc: Global,
    store: &mut S,
    given: &Given,
    course: &mut Course,
    at: &Site,
    text: &TakeText,
) -> Result<Taken, AllocError>
    ensures { MakesAs S.JobStore at.now.job text.now (λ dd grants. Took grants given.now at.now dd) result store.old course.old store.new course.new }
{
    if !course.own.runs {
        return Ok(Taken {
            meets: None,
            made: None,
        });
    }
    match text {
        TakeText::Sysout(class) => take_no_set(alloc, course, at, TakeWord::Sysout(*class)),
        TakeText::Dummy => take_no_set(alloc, course, at, TakeWord::Dummy),
        TakeText::Cards(count) => take_no_set(alloc, course, at, TakeWord::Cards(*count)),
        TakeText::Set(p) => take_set(alloc, store, given, course, at, p),
    }
}
