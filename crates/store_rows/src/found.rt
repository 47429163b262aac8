//! The store that a job finds: volumes, their sets, and the catalog.
use crate::case::columns;
use group_core::entry::CatEntry;
use group_core::group::Group;
use jcl_meaning::store::{DataSet, SoloEntry, SoloSet, SoloStore};
use jcl_plan::plan::Record;
use jname_core::ds_name::DsName;
use jname_core::key::Key;
use jname_core::serial::Serial;
use plain::listed::Listed;
use row_table::desk::Line;
use row_table::names::{ds_name, serial};
use row_table::told::Told;
use row_table::words::Words;
use std::alloc::Global;
use std::mem;

/// Tracks of a volume that are in use by others, the first and the last.
#[derive(Clone, Copy)]
pub(crate) struct Used {
    pub(crate) first: u16,
    pub(crate) last: u16,
}

/// A volume, its tracks, and those that no set of the job may have.
#[derive(Drop)]
pub(crate) struct CaseVolume {
    pub(crate) serial: Serial,
    pub(crate) tracks: u16,
    pub(crate) used: Listed<Used>,
}

/// A generation of the group that comes next.
#[derive(Clone, Copy)]
struct Member {
    number: u16,
    serial: Serial,
}

/// What a job finds, and what no line took yet.
#[derive(Drop)]
pub(crate) struct Found {
    pub(crate) volumes: Listed<CaseVolume>,
    /// The serials of the volumes, their sets, and the catalog.
    pub(crate) store: SoloStore,
    records: Listed<Record>,
    members: Listed<Member>,
    used: Listed<Used>,
}

#[derive(Clone, Copy)]
pub(crate) enum FoundVerb {
    Used,
    Volume,
    Record,
    Records,
    Set,
    Entry,
    Member,
    Group,
}

pub(crate) fn nothing_found(alloc: Global) -> Found {
    Found {
        volumes: Listed::empty(alloc),
        store: SoloStore {
            volumes: Listed::empty(alloc),
            sets: Listed::empty(alloc),
            catalog: Listed::empty(alloc),
        },
        records: Listed::empty(alloc),
        members: Listed::empty(alloc),
        used: Listed::empty(alloc),
    }
}

/// Adds so many records.
fn add_records(records: &mut Listed<Record>, line: &mut Line<'_>) {
    let count = line.words.short();
    let record = columns(line.words.next_word());
    for _ in 0..count {
        line.told.over(records.push(record));
    }
}

/// Enters the members of a group.
fn enter_members(group: &mut Group, members: &[Member], words: &mut Words<'_>) {
    for member in members {
        if member.number == 0
            || member.number > 9999
            || group.enter(member.number, member.serial).is_err()
        {
            words.refuse();
        }
    }
}

impl Found {
    fn add_used(&mut self, line: &mut Line<'_>) {
        let first = line.words.short();
        let last = line.words.short();
        line.told.over(self.used.push(Used { first, last }));
    }

    fn add_volume(&mut self, alloc: Global, line: &mut Line<'_>) {
        let Some(serial) = serial(&mut line.words) else {
            return;
        };
        let tracks = line.words.short();
        let used = mem::replace(&mut self.used, Listed::empty(alloc));
        line.told.over(self.store.volumes.push(serial));
        line.told.over(
            self.volumes.push(CaseVolume {
                serial,
                tracks,
                used,
            }),
        );
    }

    fn add_set(&mut self, alloc: Global, line: &mut Line<'_>) {
        let (Some(serial), Some(name)) = (serial(&mut line.words), ds_name(&mut line.words)) else {
            return;
        };
        let tracks = u64::from(line.words.short());
        let expires = line.words.some_number();
        let records = mem::replace(&mut self.records, Listed::empty(alloc));
        line.told.over(
            self.store.sets.push(SoloSet {
                serial,
                key: Key::Named(name),
                set: DataSet {
                    tracks,
                    expires,
                    records,
                },
            }),
        );
    }

    fn add_entry(&mut self, name: DsName, entry: CatEntry, told: &mut Told) {
        told.over(self.store.catalog.push(SoloEntry { name, entry }));
    }

    fn add_name(&mut self, line: &mut Line<'_>) {
        if let (Some(name), Some(serial)) = (ds_name(&mut line.words), serial(&mut line.words)) {
            self.add_entry(name, CatEntry::Volume(serial), &mut line.told);
        }
    }

    fn add_member(&mut self, line: &mut Line<'_>) {
        let number = line.words.short();
        if let Some(serial) = serial(&mut line.words) {
            line.told.over(self.members.push(Member { number, serial }));
        }
    }

    fn add_group(&mut self, alloc: Global, line: &mut Line<'_>) {
        let Some(base) = ds_name(&mut line.words) else {
            return;
        };
        let limit = line.words.byte();
        let Some(scratches) = line.words.one_of(&[("SCRATCH", true), ("KEEP", false)]) else {
            return;
        };
        if let Some(mut group) = line.told.got(Group::new(alloc, limit, scratches)) {
            enter_members(&mut group, self.members.as_slice(), &mut line.words);
            self.members.clear();
            self.add_entry(base, CatEntry::Group(group), &mut line.told);
        }
    }

    /// Takes a line of the store.
    pub(crate) fn take(&mut self, alloc: Global, verb: FoundVerb, line: &mut Line<'_>) {
        match verb {
            FoundVerb::Used => self.add_used(line),
            FoundVerb::Volume => self.add_volume(alloc, line),
            FoundVerb::Record => {
                let record = columns(line.words.left());
                line.told.over(self.records.push(record));
            }
            FoundVerb::Records => add_records(&mut self.records, line),
            FoundVerb::Set => self.add_set(alloc, line),
            FoundVerb::Entry => self.add_name(line),
            FoundVerb::Member => self.add_member(line),
            FoundVerb::Group => self.add_group(alloc, line),
        }
    }
}
