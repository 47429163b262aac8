//! What jobs do to the catalog of one store.
ghost use Rattle.std.specs.Prelude.{◌<◌, ◌≤◌};

use cat_core::fault::CatFault;
use group_core::group::Rolled;
use jname_core::ds_name::DsName;
use jname_core::serial::Serial;
use row_table::desk::Line;
use row_table::names::{ds_name, serial};
use row_table::told::Told;
use shared_core::store::SharedStore;
use std::alloc::Global;
use store_core::job_store::JobStore;

#[derive(Clone, Copy)]
pub(crate) enum CatalogVerb {
    Enter,
    Uncatalog,
    Cataloged,
    Group,
    Number,
    Generations,
}

fn tell_volume(told: &mut Told, volume: Option<Serial>) {
    match volume {
        None => told.line(b"NONE"),
        Some(serial) => told.line_of_two(b"ON ", serial.as_slice()),
    }
}

fn tell_rolled(told: &mut Told, rolled: Rolled) {
    match rolled {
        Rolled::Entered => told.line(b"ENTERED"),
        Rolled::Removed { number, serial } => {
            told.numbered(b"REMOVED ", u64::from(number));
            told.line_of_two(b" ON ", serial.as_slice());
        }
        _ => told.line(b"ANOTHER ANSWER"),
    }
}

/// Enters a number that is not in the group of a base.
fn enter_for(store: &mut SharedStore, base: &DsName, number: u16, serial: Serial, told: &mut Told) {
    if number == 0 || number > 9999 {
        return told.not_allowed();
    }
    match store.group(1, base) {
        None => return told.not_allowed(),
        Some(group) => {
            if group.find(number).is_some() {
                return told.not_allowed();
            }
        }
    }
    tell_rolled(told, store.enter_number(1, base, number, serial));
}

fn enter_number(store: &mut SharedStore, base: &DsName, line: &mut Line<'_>) {
    let number = line.words.short();
    if let Some(serial) = serial(&mut line.words) {
        enter_for(store, base, number, serial, &mut line.told);
    }
}

/// Enters a name for a volume.
fn enter(store: &mut SharedStore, name: &DsName, line: &mut Line<'_>) {
    let job = line.words.short();
    if let Some(serial) = serial(&mut line.words) {
        line.told.over(store.enter(job, name, serial));
    }
}

/// Makes a group with room for so many generations.
fn make_group(alloc: Global, store: &mut SharedStore, base: DsName, limit: u8, told: &mut Told) {
    match store.catalog.make_group(alloc, base, limit, true) {
        Ok(()) => {}
        Err(CatFault::Memory) => told.want(),
        Err(_) => told.not_allowed(),
    }
}

fn tell_generations(told: &mut Told, store: &SharedStore, base: &DsName) {
    let count = match store.group(1, base) {
        None => 0,
        Some(group) => group.generations().len(),
    };
    told.numbered_line(b"GENERATIONS ", count as u64);
}

/// Does a command about the catalog.
pub(crate) fn on_catalog(
    alloc: Global,
    store: &mut SharedStore,
    verb: CatalogVerb,
    line: &mut Line<'_>,
) {
    let Some(name) = ds_name(&mut line.words) else {
        return;
    };
    match verb {
        CatalogVerb::Enter => enter(store, &name, line),
        CatalogVerb::Uncatalog => store.uncatalog(line.words.short(), &name),
        CatalogVerb::Cataloged => tell_volume(
            &mut line.told,
            store.volume(line.words.short(), &name),
        ),
        CatalogVerb::Group => make_group(alloc, store, name, line.words.byte(), &mut line.told),
        CatalogVerb::Number => enter_number(store, &name, line),
        CatalogVerb::Generations => tell_generations(&mut line.told, store, &name),
    }
}
