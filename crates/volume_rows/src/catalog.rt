//! The catalog.
ghost use Rattle.std.specs.Prelude.{◌<◌, ◌≤◌};

use crate::keys::base_or_name;
use crate::tells::{tell_fault, tell_found, tell_group, tell_rolled};
use cat_core::catalog::Catalog;
use cat_core::fault::CatFault;
use group_core::group::Rolled;
use jname_core::ds_name::DsName;
use jname_core::key::Sign;
use row_table::desk::{Desk, Line};
use row_table::names::serial;
use row_table::told::Told;
use row_table::words::Words;
use std::alloc::Global;

#[derive(Clone, Copy)]
enum Verb {
    Enter,
    Put,
    Remove,
    Clear,
    Group,
    Number,
    Plus,
    Minus,
    Find,
    Show,
    Member,
}

const VERBS: [(&str, Verb); 11] = [
    ("ENTER", Verb::Enter),
    ("PUT", Verb::Put),
    ("REMOVE", Verb::Remove),
    ("CLEAR", Verb::Clear),
    ("GROUP", Verb::Group),
    ("NUMBER", Verb::Number),
    ("PLUS", Verb::Plus),
    ("MINUS", Verb::Minus),
    ("FIND", Verb::Find),
    ("SHOW", Verb::Show),
    ("MEMBER", Verb::Member),
];

/// The group of a base, or NO GROUP.
fn tell_group_of(told: &mut Told, catalog: &Catalog, base: &DsName) {
    match catalog.group(base) {
        Some(group) => tell_group(told, group),
        None => told.line(b"NO GROUP"),
    }
}

fn tell_done(told: &mut Told, answer: Result<(), CatFault>) {
    match answer {
        Ok(()) => told.line(b"OK"),
        Err(fault) => tell_fault(told, b"K", fault.number()),
    }
}

fn tell_entered(told: &mut Told, answer: Result<Rolled, CatFault>) {
    match answer {
        Ok(rolled) => tell_rolled(told, rolled),
        Err(fault) => tell_fault(told, b"K", fault.number()),
    }
}

/// Enters a name for a volume.
fn enter(catalog: &mut Catalog, name: DsName, line: &mut Line<'_>) {
    if let Some(serial) = serial(&mut line.words) {
        tell_entered(&mut line.told, catalog.enter(name, serial));
    }
}

/// Puts a name, whatever is there.
fn put(catalog: &mut Catalog, name: DsName, line: &mut Line<'_>) {
    if let Some(serial) = serial(&mut line.words) {
        line.told.over(catalog.put(name, serial));
        line.told.line(b"OK");
    }
}

/// Makes a group.
fn make_group(alloc: Global, catalog: &mut Catalog, base: DsName, line: &mut Line<'_>) {
    let limit = line.words.byte();
    let scratches = !line.words.is_empty();
    if scratches {
        line.words.one_of(&[("SCRATCH", ())]);
    }
    tell_done(
        &mut line.told,
        catalog.make_group(alloc, base, limit, scratches),
    );
}

/// Enters a number in the group of a base.
fn enter_number(catalog: &mut Catalog, base: &DsName, line: &mut Line<'_>) {
    let number = line.words.short();
    let Some(serial) = serial(&mut line.words) else {
        return;
    };
    if number == 0 || number > 9999 {
        return line.told.not_allowed();
    }
    tell_entered(
        &mut line.told,
        catalog.enter_generation(base, number, serial),
    );
}

/// Tells the number that a relative number means.
fn resolve(catalog: &Catalog, base: &DsName, sign: Sign, amount: u8, told: &mut Told) {
    match catalog.resolve_relative(base, sign, amount) {
        Ok(number) => told.numbered_line(b"", number.into()),
        Err(fault) => tell_fault(told, b"K", fault.number()),
    }
}

/// The number of a generation, and its group, or NONE.
fn tell_member(told: &mut Told, catalog: &Catalog, name: &DsName) {
    match catalog.member(name) {
        Some((number, group)) => {
            told.numbered(b"", number.into());
            told.word(b" OF ");
            tell_group(told, group);
        }
        None => told.line(b"NONE"),
    }
}

/// A catalog, and the names of its row.
#[derive(Drop)]
pub(crate) struct Cataloged {
    catalog: Catalog,
    names: Vec<DsName>,
}

impl Desk for Cataloged {
    fn show(&mut self, _alloc: Global, told: &mut Told) {
        for name in self.names.as_slice() {
            tell_found(told, self.catalog.find(name));
            tell_group_of(told, &self.catalog, name);
        }
    }

    fn act(&mut self, alloc: Global, line: &mut Line<'_>) {
        let verb = line.words.one_of(&VERBS);
        let Some(name) = base_or_name(&mut line.words) else {
            return;
        };
        let catalog = &mut self.catalog;
        match verb {
            Some(Verb::Enter) => enter(catalog, name, line),
            Some(Verb::Put) => put(catalog, name, line),
            Some(Verb::Remove) => tell_done(&mut line.told, catalog.remove(&name)),
            Some(Verb::Clear) => {
                catalog.clear(&name);
                line.told.line(b"OK");
            }
            Some(Verb::Group) => make_group(alloc, catalog, name, line),
            Some(Verb::Number) => enter_number(catalog, &name, line),
            Some(Verb::Plus) => resolve(
                catalog,
                &name,
                Sign::Plus,
                line.words.byte(),
                &mut line.told,
            ),
            Some(Verb::Minus) => resolve(
                catalog,
                &name,
                Sign::Minus,
                line.words.byte(),
                &mut line.told,
            ),
            Some(Verb::Find) => tell_found(&mut line.told, catalog.find(&name)),
            Some(Verb::Show) => tell_group_of(&mut line.told, catalog, &name),
            Some(Verb::Member) => tell_member(&mut line.told, catalog, &name),
            None => {}
        }
    }
}

/// Adds the name that a line says behind its verb.
fn add_name(names: &mut Vec<DsName>, text: &[u8], told: &mut Told) {
    let mut words = Words::new(text);
    words.next_word();
    if let Some(name) = base_or_name(&mut words)
        && names.push(name).is_err()
    {
        told.want();
    }
}

/// An empty catalog, beside the names that all further lines say.
pub(crate) fn new_catalog(alloc: Global, line: &mut Line<'_>) -> Cataloged {
    let mut names = Vec::new(alloc);
    let mut lines = line.lines;
    for _ in 0..lines.len() {
        let Some(text) = lines.next_line() else {
            break;
        };
        add_name(&mut names, text, &mut line.told);
    }
    Cataloged {
        catalog: Catalog::new(alloc),
        names,
    }
}
