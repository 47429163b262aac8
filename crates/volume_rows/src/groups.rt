//! Generation data groups by themselves.
use crate::tells::{tell_found, tell_group, tell_rolled};
use group_core::group::{Group, GroupFault};
use jname_core::key::Sign;
use row_table::desk::{Desk, Line};
use row_table::names::serial;
use row_table::told::Told;
use std::alloc::Global;

#[derive(Clone, Copy)]
enum Verb {
    Enter,
    Remove,
    Plus,
    Minus,
    Find,
    Show,
    Copy,
    Copied,
}

const VERBS: [(&str, Verb); 8] = [
    ("ENTER", Verb::Enter),
    ("REMOVE", Verb::Remove),
    ("PLUS", Verb::Plus),
    ("MINUS", Verb::Minus),
    ("FIND", Verb::Find),
    ("SHOW", Verb::Show),
    ("COPY", Verb::Copy),
    ("COPIED", Verb::Copied),
];

fn tell_fault(told: &mut Told, fault: GroupFault) {
    match fault {
        GroupFault::Elsewhere => told.line(b"ELSEWHERE"),
        GroupFault::NoGeneration => told.line(b"NO GENERATION"),
        GroupFault::TooHigh => told.line(b"TOO HIGH"),
    }
}

/// Enters a number for a volume.
fn enter(group: &mut Group, line: &mut Line<'_>) {
    let number = line.words.short();
    let Some(serial) = serial(&mut line.words) else {
        return;
    };
    if number == 0 || number > 9999 {
        return line.told.not_allowed();
    }
    match group.enter(number, serial) {
        Ok(rolled) => tell_rolled(&mut line.told, rolled),
        Err(fault) => tell_fault(&mut line.told, fault),
    }
}

/// Tells the number that a relative number means.
fn resolve(group: &Group, sign: Sign, amount: u8, told: &mut Told) {
    match group.resolve(sign, amount) {
        Ok(number) => told.numbered_line(b"", number.into()),
        Err(fault) => tell_fault(told, fault),
    }
}

fn remove(group: &mut Group, number: u16, told: &mut Told) {
    match group.remove(number) {
        Ok(()) => told.line(b"OK"),
        Err(fault) => tell_fault(told, fault),
    }
}

/// A group, and a copy of it.
#[derive(Drop)]
pub(crate) struct Groups {
    group: Group,
    copy: Group,
}

impl Groups {
    fn copy_group(&mut self, told: &mut Told) {
        if let Some(copy) = told.got(self.group.clone()) {
            self.copy = copy;
        }
    }
}

impl Desk for Groups {
    fn show(&mut self, _alloc: Global, told: &mut Told) {
        tell_group(told, &self.group);
    }

    fn act(&mut self, _alloc: Global, line: &mut Line<'_>) {
        match line.words.one_of(&VERBS) {
            Some(Verb::Enter) => enter(&mut self.group, line),
            Some(Verb::Remove) => remove(&mut self.group, line.words.short(), &mut line.told),
            Some(Verb::Plus) => resolve(&self.group, Sign::Plus, line.words.byte(), &mut line.told),
            Some(Verb::Minus) => resolve(
                &self.group,
                Sign::Minus,
                line.words.byte(),
                &mut line.told,
            ),
            Some(Verb::Find) => tell_found(&mut line.told, self.group.find(line.words.short())),
            Some(Verb::Show) => tell_group(&mut line.told, &self.group),
            Some(Verb::Copy) => self.copy_group(&mut line.told),
            Some(Verb::Copied) => tell_group(&mut line.told, &self.copy),
            None => {}
        }
    }
}

/// A group of the limit that comes next, which scratches what rolls off where the word behind it is SCRATCH.
pub(crate) fn new_groups(alloc: Global, line: &mut Line<'_>) -> Option<Groups> {
    let limit = line.words.byte();
    let scratches = !line.words.is_empty();
    if scratches {
        line.words.one_of(&[("SCRATCH", ())])?;
    }
    let group = line.told.got(Group::new(alloc, limit, scratches))?;
    let copy = line.told.got(Group::new(alloc, 0, false))?;
    Some(Groups { group, copy })
}
