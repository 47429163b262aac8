//! A session run as the program `mvt` runs it.
use crate::sessions::commands::{Asked, Failing};
use crate::sessions::each::Answers;
use crate::sessions::streams::{Page, Parts};
use row_table::told::Told;
use session_core::{SessionEnd, SessionFault, run_session};
use std::alloc::Global;

/// What came of a session: its listing, how often its streams were called, and how it ended.
#[derive(Drop)]
struct Outcome {
    page: Page,
    reads: usize,
    end: Result<SessionEnd, SessionFault>,
}

/// Runs a session once.
fn run_once(alloc: Global, asked: &Asked, text: &[u8], told: &mut Told) -> Option<Outcome> {
    let mut reader = Parts::new(text, asked.reads);
    let mut page = told.got(Page::new(alloc, asked.writes))?;
    let end = run_session(alloc, &mut reader, &mut page, asked.options);
    Some(Outcome {
        page,
        reads: reader.calls,
        end,
    })
}

/// Whether a text is a beginning of another, in whole lines.
fn is_beginning(text: &[u8], whole: &[u8]) -> bool {
    whole.starts_with(text) && (text.is_empty() || text.ends_with(b"\n"))
}

/// Runs a session. Where memory is missing, whole lines of its listing were written, which is told if it is not so, and it is run again.
fn run_whole(alloc: Global, asked: &Asked, text: &[u8], told: &mut Told) -> Option<Outcome> {
    let first = run_once(alloc, asked, text, told)?;
    if first.end != Err(SessionFault::Memory) {
        return Some(first);
    }
    let second = run_once(alloc, asked, text, told)?;
    if !is_beginning(first.page.held.as_slice(), second.page.held.as_slice()) {
        told.line(b"CHANGED");
    }
    Some(second)
}

/// How many lines a text has.
fn lines_in(text: &[u8]) -> usize {
    let mut lines = 0usize;
    for byte in text {
        if *byte == b'\n' {
            lines = lines.saturating_add(1);
        }
    }
    lines
}

/// The sum of all bytes times their places, which count from 1, modulo 2 ^ 32.
fn digest_of(text: &[u8]) -> u32 {
    let mut place = 0u32;
    let mut sum = 0u32;
    for byte in text {
        place = place.wrapping_add(1);
        sum = sum.wrapping_add(place.wrapping_mul(u32::from(*byte)));
    }
    sum
}

/// What stands behind so many lines.
fn tell_behind(told: &mut Told, listing: &[u8], lines: usize) {
    let mut left = lines;
    for (at, byte) in listing.iter().enumerate() {
        if left == 0 {
            return told.word(&listing[at..]);
        }
        if *byte == b'\n' {
            left = left.saturating_sub(1);
        }
    }
}

/// The last lines of a listing, behind how many it has and its digest.
fn tell_last(told: &mut Told, listing: &[u8], last: usize) {
    let lines = lines_in(listing);
    told.numbered(b"LINES ", lines as u64);
    told.numbered_line(b" DIGEST ", u64::from(digest_of(listing)));
    tell_behind(told, listing, lines.saturating_sub(last));
}

/// How the program ends, where it does not end well.
fn tell_end(told: &mut Told, end: &Result<SessionEnd, SessionFault>) {
    let Err(fault) = end else {
        return;
    };
    match fault.number_and_line() {
        None => told.line(b"status 3: out of memory"),
        Some((number, line)) => {
            told.numbered(b"status 1: session fault S", u64::from(number));
            told.numbered_line(b" at line ", line as u64);
        }
    }
}

/// Runs a session, and tells its listing, or the end of it where that is asked for, and how the program ends.
fn list(alloc: Global, asked: &Asked, text: &[u8], told: &mut Told) {
    let Some(outcome) = run_whole(alloc, asked, text, told) else {
        return;
    };
    match asked.last {
        None => told.word(outcome.page.held.as_slice()),
        Some(last) => tell_last(told, outcome.page.held.as_slice(), last),
    }
    tell_end(told, &outcome.end);
    if asked.counts {
        told.numbered(b"READS ", outcome.reads as u64);
        told.numbered_line(b" WRITES ", outcome.page.calls as u64);
    }
}

/// What came of a session of which a call failed: how often its stream was called, where that is not the call which failed, how many bytes
/// of the listing were written, and how the program ends.
fn tell_failed(told: &mut Told, outcome: &Outcome, call: usize, calls: usize, whole: &[u8]) {
    let held = outcome.page.held.as_slice();
    if calls != call {
        told.numbered(b"calls ", calls as u64);
        told.word(b", ");
    }
    told.numbered(b"bytes ", held.len() as u64);
    if !whole.starts_with(held) {
        told.word(b" that are no beginning");
    }
    told.word(b", ");
    tell_end(told, &outcome.end);
}

/// How often the stream whose calls fail was called.
fn calls_of(failing: Failing, outcome: &Outcome) -> usize {
    match failing {
        Failing::Reads => outcome.reads,
        Failing::Writes => outcome.page.calls,
    }
}

/// What is asked for where a call fails.
fn failing_at(asked: &Asked, failing: Failing, call: usize) -> Asked {
    let mut asked = *asked;
    match failing {
        Failing::Reads => asked.reads.fails_at = call,
        Failing::Writes => asked.writes.fails_at = call,
    }
    asked
}

/// What is told of a session of which a call fails, or none where there is no such call.
fn told_failing(
    alloc: Global,
    asked: &Asked,
    text: &[u8],
    failing: Failing,
    call: usize,
    whole: &[u8],
) -> Option<Told> {
    let mut told = Told::new(alloc);
    let asked = failing_at(asked, failing, call);
    if let Some(outcome) = run_whole(alloc, &asked, text, &mut told) {
        let calls = calls_of(failing, &outcome);
        if calls < call {
            return None;
        }
        tell_failed(&mut told, &outcome, call, calls, whole);
    }
    Some(told)
}

/// Runs a session once for each call, which fails.
fn list_each(alloc: Global, asked: &Asked, text: &[u8], failing: Failing, told: &mut Told) {
    let Some(whole) = run_whole(alloc, asked, text, told) else {
        return;
    };
    let whole = whole.page.held.as_slice();
    let mut answers = Answers::new(alloc, b": ");
    for call in 1..u16::MAX {
        let Some(answer) = told_failing(alloc, asked, text, failing, usize::from(call), whole)
        else {
            break;
        };
        answers.take(call, answer, told);
    }
    answers.tell(told);
}

/// Runs a session as it is asked for, and tells what came.
pub(crate) fn tell_runs(alloc: Global, asked: &Asked, text: &[u8], told: &mut Told) {
    match asked.failing {
        None => list(alloc, asked, text, told),
        Some(failing) => list_each(alloc, asked, text, failing, told),
    }
}
