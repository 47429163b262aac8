//! Each byte of a record, from the eighth on, set to a value.
use crate::job::tell_read;
use crate::store::{put, set_bytes};
use cb_queue::store::RecordStore;
use row_table::desk::Line;
use row_table::told::Told;
use row_table::words::Lines;
use std::alloc::Global;

/// The lines that are others than those before.
fn tell_others(told: &mut Told, before: &[u8], now: &[u8]) {
    told.line(b"reads");
    let mut before = Lines::new(before);
    let mut now = Lines::new(now);
    for _ in 0..now.len() {
        let was = before.next_line();
        let Some(line) = now.next_line() else {
            break;
        };
        if was != Some(line) {
            told.line_of_two(b"  ", line);
        }
    }
}

/// What is told of job 1 from record 1 on, with two lists of volumes.
fn read<S: RecordStore>(alloc: Global, store: &S) -> Told {
    let mut told = Told::new(alloc);
    tell_read(alloc, store, 2, 1, 1, &mut told);
    told
}

/// What is told of the job: `same` as before, its other lines, or its fault.
fn now_told<S: RecordStore>(alloc: Global, store: &S, before: &[u8]) -> Told {
    let mut told = Told::new(alloc);
    let now = read(alloc, store);
    if now.as_slice() == before {
        told.line(b"same");
    } else if now.as_slice().starts_with(b"job ") {
        tell_others(&mut told, before, now.as_slice());
    } else {
        told.word(now.as_slice());
    }
    if now.is_wanting() {
        told.want();
    }
    told
}

/// What is told where a byte of a record is another; it is as it was again.
fn told_with<S: RecordStore>(
    alloc: Global,
    store: &mut S,
    n: u32,
    at: u8,
    value: u8,
    before: &[u8],
) -> Told {
    let was = match store.get(n) {
        None => return Told::new(alloc),
        Some(rec) => *rec,
    };
    set_bytes(store, n, at, &[value]);
    let told = now_told(alloc, store, before);
    put(store, n, &was);
    told
}

/// Neighbouring bytes, and what is told of each.
fn tell_run(told: &mut Told, from: u8, to: u8, run: &Told) {
    told.numbered(b"", u64::from(from));
    if from != to {
        told.numbered(b"-", u64::from(to));
    }
    told.two(b" ", run.as_slice());
    if run.is_wanting() {
        told.want();
    }
}

/// What is told where each byte of a record in turn has a value.
fn tell_bytes<S: RecordStore>(alloc: Global, store: &mut S, n: u32, value: u8, told: &mut Told) {
    let before = read(alloc, store);
    let mut from = 8u8;
    let mut run = told_with(alloc, store, n, from, value, before.as_slice());
    for at in 9..176u8 {
        let now = told_with(alloc, store, n, at, value, before.as_slice());
        if now.as_slice() != run.as_slice() {
            tell_run(told, from, at - 1, &run);
            from = at;
            run = now;
        }
    }
    tell_run(told, from, 175, &run);
}

/// Sets each byte of a record in turn to a value.
pub(crate) fn tell_sweep<S: RecordStore>(alloc: Global, store: &mut S, line: &mut Line<'_>) {
    let n = line.words.number();
    let value = line.words.byte();
    if store.get(n).is_none() {
        return line.told.not_allowed();
    }
    line.told.numbered(b"RECORD ", u64::from(n));
    line.told.numbered_line(b" VALUE ", u64::from(value));
    tell_bytes(alloc, store, n, value, &mut line.told);
}
