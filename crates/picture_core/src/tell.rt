//! What is told where the pointer is on a shape.
use crate::cut::Piece;
use crate::style::word_of;
use history_core::jobs::Jobs;
use history_core::lane::{Run, What};
use history_core::look::Look;
use plain::text::Text;
use std::alloc::{AllocError, Global};

/// A text that is written up to a limit.
#[derive(Drop)]
pub(crate) struct Telling {
    bytes: Vec<u8>,
    /// How many bytes of a picture's text may follow.
    room: usize,
}

/// The most bytes that stand for a byte in a picture's text.
fn most_written(byte: u8) -> usize {
    match byte {
        b'&' | b'<' | b'>' | b'"' => 6,
        _ => 1,
    }
}

impl Telling {
    pub(crate) fn empty(alloc: Global, limit: usize) -> Telling {
        Telling {
            bytes: Vec::new(alloc),
            room: limit,
        }
    }

    pub(crate) fn push(&mut self, text: &[u8]) -> Result<(), AllocError> {
        for byte in text {
            let written = most_written(*byte);
            if written > self.room {
                self.room = 0;
                return Ok(());
            }
            self.bytes.push(*byte)?;
            self.room -= written;
        }
        Ok(())
    }

    pub(crate) fn push_number(&mut self, number: u64) -> Result<(), AllocError> {
        let mut buffer = itoa::Buffer::new();
        self.push(buffer.format(number).as_bytes())
    }

    /// A job's number, in four digits.
    pub(crate) fn push_job(&mut self, job: u16) -> Result<(), AllocError> {
        if job < 1_000 {
            self.push(b"0")?;
        }
        if job < 100 {
            self.push(b"0")?;
        }
        if job < 10 {
            self.push(b"0")?;
        }
        self.push_number(u64::from(job))
    }

    /// Events, counted from 1, of which the last is before this one.
    fn push_events(&mut self, from: u32, to: u32) -> Result<(), AllocError> {
        let first = from.saturating_add(1);
        if to <= first {
            self.push(b", event ")?;
            return self.push_number(u64::from(first));
        }
        self.push(b", events ")?;
        self.push_number(u64::from(first))?;
        self.push(b" to ")?;
        self.push_number(u64::from(to))
    }

    /// A job's number and name.
    fn push_named(&mut self, job: u16, jobs: &Jobs) -> Result<(), AllocError> {
        self.push(b"job ")?;
        self.push_job(job)?;
        let name = jobs.name_of(job);
        if name.is_empty() {
            return Ok(());
        }
        self.push(b" ")?;
        self.push(name)
    }

    /// How a name is held.
    fn push_held(&mut self, what: What, jobs: &Jobs) -> Result<(), AllocError> {
        self.push(word_of(what.look))?;
        self.push(b", ")?;
        self.push_named(what.job, jobs)?;
        if what.number > 1 {
            self.push(b" the first of ")?;
            self.push_number(what.number as u64)?;
        }
        Ok(())
    }

    /// What a job does.
    fn push_doing(&mut self, run: &Run, jobs: &Jobs) -> Result<(), AllocError> {
        self.push_named(run.what.job, jobs)?;
        if run.what.number > 0 {
            self.push(b" step ")?;
            self.push_number(run.what.number as u64)?;
            self.push(b" ")?;
            self.push(run.step.as_slice())?;
        }
        self.push(b" ")?;
        self.push(word_of(run.what.look))
    }

    /// What a run is.
    fn push_what(&mut self, run: &Run, jobs: &Jobs) -> Result<(), AllocError> {
        let what = run.what;
        match what.look {
            Look::Busy => self.push(word_of(what.look)),
            Look::Several => {
                self.push_number(what.number as u64)?;
                self.push(b" more jobs wait")
            }
            Look::Alone | Look::Shared => self.push_held(what, jobs),
            Look::Together => {
                self.push_named(what.job, jobs)?;
                self.push(b" holds ")?;
                self.push_number(what.number as u64)?;
                self.push(b" of the other names")
            }
            _ => self.push_doing(run, jobs),
        }
    }

    pub(crate) fn as_slice(&self) -> &[u8] {
        self.bytes.as_slice()
    }

    pub(crate) fn into_text(self) -> Text {
        let Telling { bytes, .. } = self;
        Text::new(bytes)
    }
}

/// The last event of runs: the first that is in none of them.
fn end_of(runs: &[Run], events: u32) -> u32 {
    match runs.last() {
        Some(run) => run.to.min(events),
        None => events,
    }
}

/// The title of a run.
fn run_title(
    alloc: Global,
    jobs: &Jobs,
    run: &Run,
    events: u32,
    limit: usize,
) -> Result<Text, AllocError> {
    let mut telling = Telling::empty(alloc, limit);
    telling.push_what(run, jobs)?;
    telling.push_events(run.from, run.to.min(events))?;
    telling.push(b"\n")?;
    telling.push(run.lines.as_slice())?;
    Ok(telling.into_text())
}

/// The title of several.
fn runs_title(alloc: Global, runs: &[Run], events: u32, limit: usize) -> Result<Text, AllocError> {
    let mut telling = Telling::empty(alloc, limit);
    telling.push_number(runs.len() as u64)?;
    telling.push(b" periods")?;
    if let Some(first) = runs.first() {
        telling.push_events(first.from, end_of(runs, events))?;
    }
    telling.push(b"\n")?;
    for run in runs {
        telling.push(run.lines.as_slice())?;
    }
    Ok(telling.into_text())
}

/// The runs of a piece.
pub(crate) fn runs_in<'a>(piece: &Piece, runs: &'a [Run]) -> &'a [Run] {
    let first = piece.first.min(runs.len());
    let (_, rest) = runs.split_at(first);
    let (own, _) = rest.split_at(piece.count.min(rest.len()));
    own
}

/// The title of a piece.
pub(crate) fn piece_title(
    alloc: Global,
    jobs: &Jobs,
    runs: &[Run],
    events: u32,
    limit: usize,
) -> Result<Text, AllocError> {
    match runs {
        [run] => run_title(alloc, jobs, run, events, limit),
        _ => runs_title(alloc, runs, events, limit),
    }
}
