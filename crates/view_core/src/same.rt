//! Whether two views are one.
ghost use Rattle.std.specs.Prelude.{◌≡◌, ◌&&◌, Some, Contains, Decides, drop, length, map, take, zip};
ghost use Rattle.std.specs.List.{list_all, list_any};
ghost use Rattle.std.specs.Option.{option_copied};
ghost use Rattle.jname_core.specs.Generations.{base_of};
ghost use Rattle.jcl_meaning.specs.Parts.{is_among, sees_key};
ghost use Rattle.std.specs.Str.{bytes_eq};
ghost use Rattle.jcl_meaning.specs.Stores.{entry_in, set_in};
ghost use Rattle.seen_store.specs.Listing.{entries_of, sets_of};
ghost use Rattle.jcl_meaning.specs.Views.{shown_set};
ghost use Rattle.view_core.specs.Same.{all_same_passed, both_sets_alike, entries_alike, entry_alike, same_generation, same_group, same_passed, same_place};
ghost use Rattle.view_core.specs.Same.{same_seen, set_alike};
ghost use Rattle.view_core.specs.Same.{sets_alike, shown_alike};
ghost use Rattle.view_core.specs.Same.{same_bits, same_by_step, same_for_dds, same_for_kind, same_met, same_scene, same_shown, same_view, same_volume};
ghost use Rattle.view_core.specs.Same.{same_volumes};
ghost use Rattle.view_core.specs.Same.{shown_alone, shown_under};

use crate::scene::{PlainView, Scene};
use group_core::entry::CatEntry;
use group_core::group::{Generation, Group};
use jcl_meaning::names::{HeldName, same_key};
use jcl_meaning::state::{DdVolume, Passed};
use jcl_meaning::store::DataSet;
use jcl_plan::day::Day;
use jcl_plan::plan::{DdKind, DdPlan, StepPlan, VolumePlan};
use jname_core::ds_name::DsName;
use jname_core::key::Key;
use seen_store::place::SetPlace;
use seen_store::store::SeenStore;
use std::collections::btree_map::Iter;
use store_core::store::is_later;
use store_core::take::dd_volume;

/// A name is one of these.
pub(crate) fn is_among(names: &[HeldName], name: &DsName) -> bool
    ensures { result ≡ is_among names.now name.now }
{
    names
        .iter()
        .any(|held| held.name.as_slice() == name.as_slice())
}

/// A key that a job with these names sees.
pub(crate) fn sees_key(names: &[HeldName], key: &Key) -> bool
    ensures { result ≡ sees_key names.now key.now }
{
    match key {
        Key::Named(name) => is_among(names, &name.base_of()),
        Key::Relative { base, .. } => is_among(names, base),
        Key::Temporary(_) => true,
        Key::Unnamed { .. } => true,
    }
}

/// What is shown of a set: whether it is there, and unexpired.
fn shown_set(set: Option<&DataSet>, date: Day) -> Option<bool>
    ensures { result ≡ shown_set (option_copied set.entry) date }
{
    match set {
        None => None,
        Some(set) => Some(is_later(set.expires, date)),
    }
}

fn same_shown(a: Option<bool>, b: Option<bool>) -> bool
    ensures { result ≡ same_shown a b }
{
    match (a, b) {
        (None, None) => true,
        (Some(x), Some(y)) => x == y,
        _ => false,
    }
}

/// What is shown of the sets of a key on one volume is the same, or the key is not seen.
fn shown_alike(
    names: &[HeldName],
    date: Day,
    key: &Key,
    x: Option<&DataSet>,
    y: Option<&DataSet>,
) -> bool
    ensures { result ≡ shown_alike names.now date key.now (option_copied x.entry) (option_copied y.entry) }
{
    same_shown(shown_set(x, date), shown_set(y, date)) || !sees_key(names, key)
}

/// A set, if it is seen, is shown alike in both stores.
fn set_alike(names: &[HeldName], date: Day, a: &SeenStore, b: &SeenStore, place: &SetPlace) -> bool
    ensures { result ≡ set_alike names.now date a.now b.now place.now.key place.now.serial }
{
    shown_alike(
        names,
        date,
        &place.key,
        a.set_at(&place.key, place.serial),
        b.set_at(&place.key, place.serial),
    )
}

fn same_place(p: &SetPlace, q: &SetPlace) -> bool
    ensures { result ≡ same_place p.now q.now }
{
    same_key(&p.key, &q.key) && p.serial.as_slice() == q.serial.as_slice()
}

/// A set of the one store and one of the other, each if it is seen, are shown alike in both. Where they stand in one place nothing is looked up.
fn two_sets_alike(
    names: &[HeldName],
    date: Day,
    a: &SeenStore,
    b: &SeenStore,
    x: (&SetPlace, &DataSet),
    y: (&SetPlace, &DataSet),
) -> bool
    requires first { set_in a.now.sets x.0.now.key x.0.now.serial ≡ Some x.1.now }
    requires other { set_in b.now.sets y.0.now.key y.0.now.serial ≡ Some y.1.now }
    ensures { result ≡ both_sets_alike names.now date a.now b.now x.entry.0.now y.entry.0.now }
{
    if same_place(x.0, y.0) {
        shown_alike(names, date, &x.0.key, Some(x.1), Some(y.1))
    } else {
        set_alike(names, date, a, b, x.0) && set_alike(names, date, a, b, y.0)
    }
}

/// Each of these sets that is seen is shown alike in both stores.
fn each_set_alike(
    names: &[HeldName],
    date: Day,
    a: &SeenStore,
    b: &SeenStore,
    sets: Iter<'_, SetPlace, DataSet>,
) -> bool
    ensures { result ≡ sets_alike names.now date a.now b.now (sets_of sets.entry) }
{
    let mut sets = sets;
    while let Some((place, _)) = sets.next() {
        if !set_alike(names, date, a, b, place) {
            return false;
        }
    }
    true
}

/// Each set of both stores that is seen is shown alike in both. The sets of the one are gone through beside those of the other.
fn sets_alike(names: &[HeldName], date: Day, a: &SeenStore, b: &SeenStore) -> bool
    ensures { result ≡ (sets_alike names.now date a.now b.now a.now.sets && sets_alike names.now date a.now b.now b.now.sets) }
{
    let mut xs = a.sets();
    let mut ys = b.sets();
    while let Some(x) = xs.next() {
        match ys.next() {
            Some(y) => {
                if !two_sets_alike(names, date, a, b, x, y) {
                    return false;
                }
            }
            None => {
                if !set_alike(names, date, a, b, x.0) {
                    return false;
                }
            }
        }
    }
    each_set_alike(names, date, a, b, ys)
}

fn same_generation(a: &Generation, b: &Generation) -> bool
    ensures { result ≡ same_generation a.now b.now }
{
    a.number == b.number && a.serial.as_slice() == b.serial.as_slice()
}

/// Generations in one place are the same, as far as both lists go.
fn generations_alike(a: &[Generation], b: &[Generation]) -> bool
    ensures { result ≡ list_all (λ p. same_generation p.0 p.1) (zip a.now b.now) }
{
    a.iter().zip(b.iter()).all(|(x, y)| same_generation(x, y))
}

fn same_group(a: &Group, b: &Group) -> bool
    ensures { result ≡ same_group a.now b.now }
{
    let generations = a.generations();
    let others = b.generations();
    a.limit() == b.limit()
        && a.scratches() == b.scratches()
        && generations.len() == others.len()
        && generations_alike(generations, others)
}

/// What is seen of two entries of a name is the same, where the name and its base are held or not.
fn same_seen(whole: bool, base: bool, a: Option<&CatEntry>, b: Option<&CatEntry>) -> bool
    ensures { result ≡ same_seen whole base (option_copied a.entry) (option_copied b.entry) }
{
    match (a, b) {
        (None, None) => true,
        (None, Some(CatEntry::Volume(_))) => !base,
        (Some(CatEntry::Volume(_)), None) => !base,
        (Some(CatEntry::Volume(x)), Some(CatEntry::Volume(y))) => !base
            || x.as_slice() == y.as_slice(),
        (Some(CatEntry::Group(x)), Some(CatEntry::Group(y))) => !whole || same_group(x, y),
        _ => !whole && !base,
    }
}

/// What a job with these names sees of two entries of a name is the same.
fn seen_alike(names: &[HeldName], name: &DsName, x: Option<&CatEntry>, y: Option<&CatEntry>) -> bool
    ensures { result ≡ same_seen (is_among names.now name.now) (is_among names.now (base_of name.now)) (option_copied x.entry) (option_copied y.entry) }
{
    same_seen(true, true, x, y)
        || same_seen(
            is_among(names, name),
            is_among(names, &name.base_of()),
            x,
            y,
        )
}

/// It sees the same of a name's entries in both stores.
fn entry_alike(names: &[HeldName], a: &SeenStore, b: &SeenStore, name: &DsName) -> bool
    ensures { result ≡ entry_alike names.now a.now b.now name.now }
{
    seen_alike(names, name, a.entry_of(name), b.entry_of(name))
}

fn same_name(n: &DsName, m: &DsName) -> bool
    ensures { result ≡ bytes_eq n.now m.now }
{
    n.as_slice() == m.as_slice()
}

/// Of the name of an entry of the one store, and of one of the other, it sees the same in both. Where they are one name nothing is looked up.
fn two_entries_alike(
    names: &[HeldName],
    a: &SeenStore,
    b: &SeenStore,
    x: (&DsName, &CatEntry),
    y: (&DsName, &CatEntry),
) -> bool
    requires first { entry_in a.now.catalog x.0.now ≡ Some x.1.now }
    requires other { entry_in b.now.catalog y.0.now ≡ Some y.1.now }
    ensures { result ≡ (entry_alike names.now a.now b.now x.entry.0.now && entry_alike names.now a.now b.now y.entry.0.now) }
{
    if same_name(x.0, y.0) {
        seen_alike(names, x.0, Some(x.1), Some(y.1))
    } else {
        entry_alike(names, a, b, x.0) && entry_alike(names, a, b, y.0)
    }
}

/// Of each of these entries' names it sees the same in both stores.
fn each_entry_alike(
    names: &[HeldName],
    a: &SeenStore,
    b: &SeenStore,
    entries: Iter<'_, DsName, CatEntry>,
) -> bool
    ensures { result ≡ entries_alike names.now a.now b.now (entries_of entries.entry) }
{
    let mut entries = entries;
    while let Some((name, _)) = entries.next() {
        if !entry_alike(names, a, b, name) {
            return false;
        }
    }
    true
}

/// Of each name that is entered in one of both stores it sees the same in both. The entries of the one are gone through beside those of the other.
fn entries_alike(names: &[HeldName], a: &SeenStore, b: &SeenStore) -> bool
    ensures { result ≡ (entries_alike names.now a.now b.now a.now.catalog && entries_alike names.now a.now b.now b.now.catalog) }
{
    let mut xs = a.entries();
    let mut ys = b.entries();
    while let Some(x) = xs.next() {
        match ys.next() {
            Some(y) => {
                if !two_entries_alike(names, a, b, x, y) {
                    return false;
                }
            }
            None => {
                if !entry_alike(names, a, b, x.0) {
                    return false;
                }
            }
        }
    }
    each_entry_alike(names, a, b, ys)
}

fn same_passed(a: &Passed, b: &Passed) -> bool
    ensures { result ≡ same_passed a.now b.now }
{
    same_key(&a.key, &b.key)
        && a.serial.as_slice() == b.serial.as_slice()
        && a.made == b.made
        && a.by_catalog == b.by_catalog
        && a.step == b.step
        && a.dd == b.dd
        && a.abend_later == b.abend_later
}

/// Passed sets in one place are the same, as far as both lists go.
fn passed_alike(a: &[Passed], b: &[Passed]) -> bool
    ensures { result ≡ list_all (λ p. same_passed p.0 p.1) (zip a.now b.now) }
{
    a.iter().zip(b.iter()).all(|(x, y)| same_passed(x, y))
}

fn all_same_passed(a: &[Passed], b: &[Passed]) -> bool
    ensures { result ≡ all_same_passed a.now b.now }
{
    a.len() == b.len() && passed_alike(a, b)
}

fn same_volume(a: &[DdVolume], b: &[DdVolume], step: usize, dd: usize) -> bool
    ensures { result ≡ same_volume a.now b.now step dd }
{
    match (dd_volume(a, step, dd), dd_volume(b, step, dd)) {
        (None, None) => true,
        (Some(x), Some(y)) => x.as_slice() == y.as_slice(),
        _ => false,
    }
}

/// The volume that a DD's VOL=REF asks for is the same.
fn same_for_dd(a: &[DdVolume], b: &[DdVolume], d: &DdPlan) -> bool
    ensures { result ≡ same_for_kind a.now b.now d.now.kind }
{
    match &d.kind {
        DdKind::Set(p) => match p.volume {
            VolumePlan::OfDd { step, dd } => same_volume(a, b, usize::from(step), usize::from(dd)),
            _ => true,
        },
        _ => true,
    }
}

fn same_for_dds(a: &[DdVolume], b: &[DdVolume], dds: &[DdPlan]) -> bool
    ensures { result ≡ same_for_dds a.now b.now dds.now }
{
    dds.iter().all(|d| same_for_dd(a, b, d))
}

fn same_volumes(a: &[DdVolume], b: &[DdVolume], later: &[StepPlan]) -> bool
    ensures { result ≡ same_volumes a.now b.now later.now }
{
    later
        .iter()
        .all(|step| same_for_dds(a, b, step.dds.as_slice()))
}

/// The scenes are alike in all that shows, before these steps.
fn scene_alike(names: &[HeldName], date: Day, later: &[StepPlan], a: &Scene, b: &Scene) -> bool
    ensures { result ≡ same_scene names.now date later.now a.now b.now }
{
    all_same_passed(a.passed.as_slice(), b.passed.as_slice())
        && same_volumes(a.volumes.as_slice(), b.volumes.as_slice(), later)
        && sets_alike(names, date, &a.store, &b.store)
        && entries_alike(names, &a.store, &b.store)
}

/// Two scenes show a job with these names the same, before these steps.
pub fn same_scene(names: &[HeldName], date: Day, later: &[StepPlan], a: &Scene, b: &Scene) -> bool
    ensures { Decides result (shown_alone names.now date later.now a.now ≡ shown_alone names.now date later.now b.now) }
{
    scene_alike(names, date, later, a, b)
}

fn same_bits(a: &[bool], b: &[bool]) -> bool
    ensures { result ≡ same_bits a.now b.now }
{
    a == b
}

/// The first of a list, so many.
pub fn take_first<T>(list: &[T], count: usize) -> &[T]
    ensures { result.now ≡ take count list.now }
{
    if count < list.len() {
        &list[..count]
    } else {
        list
    }
}

/// Those behind them.
pub fn drop_first<T>(list: &[T], count: usize) -> &[T]
    ensures { result.now ≡ drop count list.now }
{
    if count < list.len() {
        &list[count..]
    } else {
        &[]
    }
}

/// The tests of each of these steps are met alike.
fn same_by_step(later: &[StepPlan], a: &[bool], b: &[bool]) -> bool
    ensures { result ≡ same_by_step later.now a.now b.now }
{
    let mut rest = later;
    let mut a = a;
    let mut b = b;
    while let Some((step, tail)) = rest.split_first() {
        let count = step.tests.as_slice().len();
        if !same_bits(take_first(a, count), take_first(b, count)) {
            return false;
        }
        a = drop_first(a, count);
        b = drop_first(b, count);
        rest = tail;
    }
    true
}

/// So many tests of the JOB statement, and those of each of these steps, are met alike.
fn same_met(tests: usize, later: &[StepPlan], a: &[bool], b: &[bool]) -> bool
    ensures { result ≡ same_met tests later.now a.now b.now }
{
    same_bits(take_first(a, tests), take_first(b, tests))
        && same_by_step(later, drop_first(a, tests), drop_first(b, tests))
}

/// Two views show the same to a job with these names, this date and so many tests of its JOB statement, before these steps.
fn same_view(
    names: &[HeldName],
    date: Day,
    tests: usize,
    later: &[StepPlan],
    a: &PlainView,
    b: &PlainView,
) -> bool
    ensures { result ≡ same_view names.now date tests later.now a.now b.now }
{
    a.abended == b.abended
        && same_met(tests, later, a.met.as_slice(), b.met.as_slice())
        && scene_alike(names, date, later, &a.scene, &b.scene)
}

fn any_same(
    names: &[HeldName],
    date: Day,
    tests: usize,
    later: &[StepPlan],
    views: &[PlainView],
    view: &PlainView,
) -> bool
    ensures { result ≡ list_any (λ other. same_view names.now date tests later.now other view.now) views.now }
{
    views
        .iter()
        .any(|other| same_view(names, date, tests, later, other, view))
}

/// One of these views shows the same as another.
pub fn is_shown(
    names: &[HeldName],
    date: Day,
    tests: usize,
    later: &[StepPlan],
    views: &[PlainView],
    view: &PlainView,
) -> bool
    ensures { Decides result (Contains (map (shown_under names.now date tests later.now) views.now) (shown_under names.now date tests later.now view.now)) }
{
    any_same(names, date, tests, later, views, view)
}
