//! What a word does to a set, and what it changes.
ghost use Rattle.std.specs.Prelude.{◌≡◌, ◌<◌, ◌≤◌, ◌∷◌, ◌++◌, [], IfSome, OnErr, OnOk, OnSome, is_some, length};
ghost use Rattle.group_core.specs.Entries.{volume_in};
ghost use Rattle.jname_core.specs.Generations.{base_of};
ghost use Rattle.jcl_meaning.specs.Dispositions.{catalogs, catalogs_by, catalogs_in_group, changed, disposed_by, is_entered_on};
ghost use Rattle.jcl_meaning.specs.Lists.{member_copied};
ghost use Rattle.jcl_meaning.specs.Stores.{catalogued, generation_entered, group_of, is_unexpired, member_of, name_entered, uncatalogued};
ghost use Rattle.store_core.specs.EnteredNumbers.{TakesNumber};
ghost use Rattle.disp_core.specs.Entering.{EntersNumber};

use crate::course::Course;
use group_core::group::{Group, GroupFault, Rolled};
use jcl_meaning::state::{Change, Disposed, TakenSet};
use jcl_plan::day::Day;
use jcl_plan::entry::JobLine;
use jcl_plan::plan::Word;
use jcl_plan::words::DispWord;
use jname_core::ds_name::DsName;
use jname_core::key::Key;
use jname_core::serial::Serial;
use std::alloc::AllocError;
use store_core::disposition::{catalogs_name, deletes, does, is_entered_on, uncatalogs};
use store_core::job_store::JobStore;
use store_core::store::is_later;

/// The number of a name in the group of its base, and that group.
fn member<'a, S: JobStore>(store: &'a S, job: u16, name: &DsName) -> Option<(u16, &'a Group)>
    ensures member { member_copied result ≡ member_of (S.seen job store.now) name.now }
    ensures range { IfSome result (λ m. (0 < m.0) × (m.0 ≤ 9999)) }
    ensures short { OnSome result (length (base_of name.now) ≤ 35) }
{
    let number = name.generation_of()?;
    if number == 0 {
        return None;
    }
    let group = store.group(job, &name.base_of())?;
    Some((number, group))
}

/// The volume that the catalog has for a key; temporary sets are in no catalog.
pub(crate) fn catalogued<S: JobStore>(store: &S, job: u16, key: &Key) -> Option<Serial>
    ensures { result ≡ catalogued (S.seen job store.now) key.now }
{
    match key {
        Key::Named(name) => store.volume(job, name),
        Key::Relative { .. } => None,
        Key::Temporary(_) => None,
        Key::Unnamed { .. } => None,
    }
}

/// Whether a set stands on a volume.
pub(crate) fn is_on<S: JobStore>(store: &S, job: u16, key: &Key, serial: Serial) -> bool
    ensures { result ≡ is_some ((S.seen job store.now).set key.now serial) }
{
    store.set(job, key, serial).is_some()
}

/// Whether the day of a set, if it has one, is later than today.
fn is_unexpired<S: JobStore>(store: &S, job: u16, key: &Key, serial: Serial, date: Day) -> bool
    ensures { result ≡ is_unexpired ((S.seen job store.now).set key.now serial) date }
{
    match store.set(job, key, serial) {
        None => false,
        Some(facts) => is_later(facts.expires, date),
    }
}

/// What CATLG does to a generation, by what its group answers.
fn catalogs_in_group(entered: Result<Rolled, GroupFault>) -> Disposed
    ensures { result ≡ catalogs_in_group entered }
{
    match entered {
        Ok(Rolled::Entered) => does(DispWord::Cataloged, Change::EnterGeneration),
        Ok(Rolled::Removed { .. }) => does(DispWord::Cataloged, Change::EnterGeneration),
        Ok(Rolled::Same) => does(DispWord::Cataloged, Change::EnterGeneration),
        Ok(Rolled::Lowest) => does(DispWord::Kept, Change::Nothing),
        Err(_) => does(DispWord::F3, Change::Nothing),
    }
}

/// What CATLG does to a name that is no group's base.
fn catalogs_name_or_number<S: JobStore>(
    store: &S,
    job: u16,
    name: &DsName,
    serial: Serial,
) -> Disposed
    ensures { result ≡ catalogs_by (member_of (S.seen job store.now) name.now) (volume_in ((S.seen job store.now).catalog name.now)) serial }
{
    match member(store, job, name) {
        Some((number, group)) => catalogs_in_group(group.would_enter(number, serial)),
        None => catalogs_name(store.volume(job, name), serial),
    }
}

/// What CATLG does.
fn catalogs<S: JobStore>(store: &S, job: u16, key: &Key, serial: Serial) -> Disposed
    ensures { result ≡ catalogs (S.seen job store.now) key.now serial }
{
    match key {
        Key::Named(name) => {
            if store.group(job, name).is_some() {
                does(DispWord::F3, Change::Nothing)
            } else {
                catalogs_name_or_number(store, job, name, serial)
            }
        }
        Key::Relative { .. } => does(DispWord::F3, Change::Nothing),
        Key::Temporary(_) => does(DispWord::F3, Change::Nothing),
        Key::Unnamed { .. } => does(DispWord::F3, Change::Nothing),
    }
}

/// Whether the catalog has a set here.
fn is_here<S: JobStore>(store: &S, job: u16, t: &TakenSet) -> bool
    ensures { result ≡ is_entered_on (catalogued (S.seen job store.now) t.now.key) t.now.serial }
{
    is_entered_on(catalogued(store, job, &t.key), t.serial)
}

/// What a word does to a set. Only what the word asks is looked up.
pub fn disposed_by<S: JobStore>(
    store: &S,
    job: u16,
    word: Word,
    t: &TakenSet,
    date: Day,
) -> Disposed
    ensures { result ≡ disposed_by word (S.seen job store.now) t.now date }
{
    if !is_on(store, job, &t.key, t.serial) {
        return does(DispWord::F8, Change::Nothing);
    }
    match word {
        Word::Delete => {
            let stays = !t.made_here && is_unexpired(store, job, &t.key, t.serial, date);
            let ours = t.by_catalog && is_here(store, job, t);
            deletes(stays, ours)
        }
        Word::Keep => does(DispWord::Kept, Change::Nothing),
        Word::Pass => Disposed {
            word: DispWord::Passed,
            change: Change::Nothing,
            passes: true,
        },
        Word::Catlg => catalogs(store, job, &t.key, t.serial),
        Word::Uncatlg => uncatalogs(is_here(store, job, t)),
    }
}

/// Takes the entry of a key out of the catalog.
fn uncatalog<S: JobStore>(store: &mut S, job: u16, key: &Key)
    ensures seen { S.seen job store.new ≡ uncatalogued (S.seen job store.old) key.now }
    ensures rest { S.rest job store.new ≡ S.rest job store.old }
{
    match key {
        Key::Named(name) => store.uncatalog(job, name),
        Key::Relative { .. } => {}
        Key::Temporary(_) => {}
        Key::Unnamed { .. } => {}
    }
}

/// Enters a number in a group that takes it; the set of one that rolls off is scratched where the group says so and it is expired.
fn enter_number<S: JobStore>(
    store: &mut S,
    job: u16,
    base: &DsName,
    number: u16,
    serial: Serial,
    scratches: bool,
    date: Day,
)
    requires base { length base.now ≤ 35 }
    requires range { (0 < number) × (number ≤ 9999) }
    requires group { TakesNumber (group_of (S.seen job store.old) base.now) number serial }
    ensures seen { EntersNumber base.now number serial scratches date (S.seen job store.old) (S.seen job store.new) }
    ensures rest { S.gives_up (S.rest job store.old) (S.rest job store.new) }
{
    let Rolled::Removed {
        number: low,
        serial: its,
    } = store.enter_number(job, base, number, serial)
    else {
        return;
    };
    let Some(name) = base.generation(low) else {
        return;
    };
    let key = Key::Named(name);
    if scratches && !is_unexpired(store, job, &key, its, date) {
        store.scratch(job, &key, its);
    }
}

/// Enters a generation in its group.
fn enter_generation<S: JobStore>(store: &mut S, job: u16, key: &Key, serial: Serial, date: Day)
    ensures seen { S.seen job store.new ≡ generation_entered (S.seen job store.old) key.now serial date }
    ensures rest { S.gives_up (S.rest job store.old) (S.rest job store.new) }
{
    let Key::Named(name) = key else {
        return;
    };
    let Some((number, group)) = member(store, job, name) else {
        return;
    };
    if group.would_enter(number, serial).is_err() {
        return;
    }
    let scratches = group.scratches();
    enter_number(store, job, &name.base_of(), number, serial, scratches, date);
}

/// Enters a key for a volume. An `Err` changes nothing.
fn catalog<S: JobStore>(
    store: &mut S,
    job: u16,
    key: &Key,
    serial: Serial,
) -> Result<(), AllocError>
    ensures ok { OnOk result (S.seen job store.new ≡ name_entered (S.seen job store.old) key.now serial) }
    ensures err { OnErr result (store.new ≡ store.old) }
    ensures rest { S.rest job store.new ≡ S.rest job store.old }
{
    match key {
        Key::Named(name) => store.enter(job, name, serial),
        Key::Relative { .. } => Ok(()),
        Key::Temporary(_) => Ok(()),
        Key::Unnamed { .. } => Ok(()),
    }
}

/// Writes a line and carries a change out on a set. An `Err` is want of memory and changes nothing.
pub(crate) fn change<S: JobStore>(
    store: &mut S,
    job: u16,
    date: Day,
    course: &mut Course,
    line: JobLine,
    what: Change,
    t: &TakenSet,
) -> Result<(), AllocError>
    ensures seen { OnOk result (S.seen job store.new ≡ changed what (S.seen job store.old) t.now.key t.now.serial date) }
    ensures said { OnOk result (course.new ≡ record course.old { lines = course.old.lines ++ line ∷ [] }) }
    ensures err { OnErr result ((store.new ≡ store.old) × (course.new ≡ course.old)) }
    ensures rest { S.gives_up (S.rest job store.old) (S.rest job store.new) }
{
    course.say(line)?;
    match what {
        Change::Nothing => Ok(()),
        Change::Scratch => {
            store.scratch(job, &t.key, t.serial);
            Ok(())
        }
        Change::ScratchAndUncatalog => {
            store.scratch(job, &t.key, t.serial);
            uncatalog(store, job, &t.key);
            Ok(())
        }
        Change::Catalog => match catalog(store, job, &t.key, t.serial) {
            Ok(()) => Ok(()),
            Err(error) => {
                course.unsay();
                Err(error)
            }
        },
        Change::Uncatalog => {
            uncatalog(store, job, &t.key);
            Ok(())
        }
        Change::EnterGeneration => {
            enter_generation(store, job, &t.key, t.serial, date);
            Ok(())
        }
    }
}
