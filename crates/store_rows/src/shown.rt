//! The lines of a job, and what its store holds, as text.
use crate::kept::Known;
use crate::run::JOB;
use group_core::group::Group;
use jcl_meaning::names::HeldName;
use jcl_meaning::state::Output;
use jcl_plan::entry::JobLine;
use jcl_plan::plan::Record;
use jname_core::ds_name::DsName;
use jname_core::key::Key;
use jname_core::serial::Serial;
use mount_core::mounted::Mounted;
use plain::draft::Draft;
use row_table::told::Told;
use std::alloc::Global;
use store_core::job_store::{JobStore, SetFacts};

/// The lines of a job.
pub(crate) fn tell_lines(alloc: Global, told: &mut Told, lines: &[JobLine]) {
    let mut draft = Draft::empty(alloc);
    for line in lines {
        told.over(line.write_to(&mut draft));
        told.over(draft.push(b"\n"));
    }
    draft.keep();
    told.word(draft.kept());
}

/// A record without the blanks at its end.
fn tell_record(told: &mut Told, text: &Record) {
    let mut length = 0;
    for (place, byte) in text.iter().enumerate() {
        if *byte != b' ' {
            length = place + 1;
        }
    }
    told.line_of_two(b"RECORD ", text.split_at(length.min(80)).0);
}

/// A key as `A.B`, `&T` of a temporary set, or `*1.2` of an unnamed one.
fn tell_key(told: &mut Told, key: &Key) {
    match key {
        Key::Named(name) => told.two(b" ", name.as_slice()),
        Key::Temporary(name) => told.two(b" &", name.as_slice()),
        Key::Unnamed { step, dd } => {
            told.numbered(b" * ", u64::from(*step));
            told.numbered(b" ", u64::from(*dd));
        }
        Key::Relative { base, .. } => told.two(b" relative ", base.as_slice()),
    }
}

/// A set: its volume, its key, its tracks, its day or `-`, and how many records it has.
fn tell_facts(told: &mut Told, key: &Key, serial: Serial, facts: &SetFacts) {
    told.two(b"SET ", serial.as_slice());
    tell_key(told, key);
    told.numbered(b" ", facts.tracks);
    match facts.expires {
        None => told.word(b" -"),
        Some(day) => told.numbered(b" ", u64::from(day)),
    }
    told.numbered_line(b" ", facts.records as u64);
}

/// The records of a set.
fn tell_records<S: JobStore>(told: &mut Told, store: &S, key: &Key, serial: Serial, count: usize) {
    for place in 0..count {
        match store.record(JOB, key, serial, place) {
            None => told.line(b"RECORD MISSING"),
            Some(text) => tell_record(told, &text),
        }
    }
}

/// The sets of a key on these volumes.
fn tell_sets<S: JobStore>(told: &mut Told, store: &S, key: &Key, serials: &[Serial]) {
    for serial in serials {
        if let Some(facts) = store.set(JOB, key, *serial) {
            tell_facts(told, key, *serial, &facts);
            tell_records(told, store, key, *serial, facts.records);
        }
    }
}

/// A group: its base, its limit, whether it scratches, and its generations.
fn tell_group(told: &mut Told, base: &DsName, group: &Group) {
    told.two(b"GROUP ", base.as_slice());
    told.numbered(b" ", u64::from(group.limit()));
    told.line(if group.scratches() {
        b" SCRATCH"
    } else {
        b" KEEP"
    });
    for generation in group.generations() {
        told.numbered(b"MEMBER ", u64::from(generation.number));
        told.line_of_two(b" ", generation.serial.as_slice());
    }
}

/// What a SYSOUT DD was put: its step, its number, its class, and its records.
fn tell_output(told: &mut Told, output: &Output) {
    told.numbered(b"OUTPUT ", output.step as u64);
    told.numbered(b" ", output.dd as u64);
    told.two(b" ", &[output.class]);
    told.numbered_line(b" ", output.records.len() as u64);
    for text in output.records.as_slice() {
        tell_record(told, text);
    }
}

/// What the SYSOUT DDs of a job were put.
pub(crate) fn tell_outputs(told: &mut Told, outputs: &[Output]) {
    for output in outputs {
        tell_output(told, output);
    }
}

/// What the catalog has for a name.
fn tell_entry<S: JobStore>(told: &mut Told, store: &S, name: &DsName) {
    if let Some(group) = store.group(JOB, name) {
        tell_group(told, name, group);
    }
    if let Some(serial) = store.volume(JOB, name) {
        told.two(b"ENTRY ", name.as_slice());
        told.line_of_two(b" ", serial.as_slice());
    }
}

/// What a job sees of its store under these keys and names: sets with their records, then entries.
pub(crate) fn tell_seen<S: JobStore>(
    told: &mut Told,
    store: &S,
    known: &Known,
    serials: &[Serial],
) {
    for key in known.keys.as_slice() {
        tell_sets(told, store, key, serials);
    }
    for name in known.names.as_slice() {
        tell_entry(told, store, name);
    }
}

/// How many tracks of each volume are free.
pub(crate) fn tell_free(told: &mut Told, volumes: &[Mounted]) {
    for mounted in volumes {
        told.two(b"FREE ", mounted.serial().as_slice());
        told.numbered_line(b" ", mounted.volume().free_tracks() as u64);
    }
}

/// The names that a job holds.
pub(crate) fn tell_names(told: &mut Told, names: &[HeldName]) {
    for held in names {
        told.two(b"NAME ", held.name.as_slice());
        told.line(if held.exclusive {
            b" EXCLUSIVE"
        } else {
            b" SHARED"
        });
    }
}
