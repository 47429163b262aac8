//! A lane: what was there from event to event, and what happened at one event. Events count from 0.
use crate::look::Look;
use plain::short::Short;
use std::alloc::{AllocError, Global};

/// The name of a step, and behind a period that of a procedure's step.
pub type StepName = Short<17>;

/// What is told of a run: how it is drawn, the job, and the step or the number of jobs.
#[derive(Clone, Copy, PartialEq, Eq)]
pub struct What {
    pub look: Look,
    pub job: u16,
    pub number: usize,
}

/// The same from an event on, up to another: the number of the first that is not in it.
#[derive(Drop)]
pub struct Run {
    pub from: u32,
    pub to: u32,
    pub what: What,
    /// The step's name, empty where there is none.
    pub step: StepName,
    /// Its lines, a part of them where they are long.
    pub lines: Vec<u8>,
}

/// A mark of one event, as an ABEND.
#[derive(Drop)]
pub struct Flag {
    pub event: u32,
    pub look: Look,
    pub line: Vec<u8>,
}

/// Words on what happened at an event.
#[derive(Drop)]
pub struct Note {
    pub event: u32,
    /// Whether they come before others that have no room beside them.
    pub first: bool,
    pub words: Vec<u8>,
}

/// The end of a run that goes on.
const OPEN: u32 = u32::MAX;

/// So many bytes of lines are kept of a run.
const MOST_LINES: usize = 1_000;

/// Runs in their order, none over another, flags, and notes.
#[derive(Drop)]
pub struct Lane {
    pub runs: Vec<Run>,
    pub flags: Vec<Flag>,
    pub notes: Vec<Note>,
}

impl Lane {
    pub fn empty(alloc: Global) -> Lane {
        Lane {
            runs: Vec::new(alloc),
            flags: Vec::new(alloc),
            notes: Vec::new(alloc),
        }
    }

    /// What goes on.
    pub fn now(&self) -> Option<What> {
        match self.runs.last() {
            Some(run) if run.to == OPEN => Some(run.what),
            _ => None,
        }
    }

    /// Whether all that there is ends before this event.
    pub fn is_free(&self, event: u32) -> bool {
        match self.runs.last() {
            Some(run) => run.to <= event,
            None => true,
        }
    }

    /// What goes on ends before this event.
    pub fn close(&mut self, event: u32) {
        if let Some(run) = self.runs.last_mut() {
            run.to = run.to.min(event);
        }
    }

    /// What began at this event is this. `false` where nothing began then.
    fn replace(&mut self, event: u32, what: What) -> bool {
        match self.runs.last_mut() {
            Some(run) if run.from == event && run.to == OPEN => {
                run.what = what;
                true
            }
            _ => false,
        }
    }

    /// There was this, from an event on up to another.
    pub fn push(
        &mut self,
        alloc: Global,
        from: u32,
        to: u32,
        what: What,
    ) -> Result<(), AllocError> {
        self.runs.push(Run {
            from,
            to,
            what,
            step: Short::new(b""),
            lines: Vec::new(alloc),
        })?;
        Ok(())
    }

    /// From this event on there is this, or nothing.
    pub fn set(&mut self, alloc: Global, event: u32, what: Option<What>) -> Result<(), AllocError> {
        if self.now() == what {
            return Ok(());
        }
        let Some(what) = what else {
            self.close(event);
            return Ok(());
        };
        if self.replace(event, what) {
            return Ok(());
        }
        self.close(event);
        self.push(alloc, event, OPEN, what)
    }

    /// There is this at an event, and since the last event at which there was.
    pub fn extend(&mut self, alloc: Global, event: u32, what: What) -> Result<(), AllocError> {
        match self.runs.last_mut() {
            Some(run) if run.what == what => {
                run.to = event.saturating_add(1);
                Ok(())
            }
            _ => self.push(alloc, event, event.saturating_add(1), what),
        }
    }

    /// The step of what goes on.
    pub fn in_step(&mut self, step: StepName) {
        if let Some(run) = self.runs.last_mut() {
            run.step = step;
        }
    }

    /// A line of what goes on.
    pub fn tell(&mut self, line: &[u8]) -> Result<(), AllocError> {
        if let Some(run) = self.runs.last_mut() {
            let kept = run.lines.len();
            if kept < MOST_LINES {
                run.lines.extend_from_slice(line)?;
            }
        }
        Ok(())
    }

    pub fn flag(
        &mut self,
        alloc: Global,
        event: u32,
        look: Look,
        line: &[u8],
    ) -> Result<(), AllocError> {
        let line = Vec::from_slice(alloc, line)?;
        self.flags.push(Flag { event, look, line })?;
        Ok(())
    }

    /// Whether these were the last words already, of what goes on.
    fn is_told(&self, words: &[u8]) -> bool {
        match (self.notes.last(), self.runs.last()) {
            (Some(note), Some(run)) => run.from <= note.event && note.words.as_slice() == words,
            _ => false,
        }
    }

    /// Words on an event, but for those that were told of what goes on.
    pub fn note(
        &mut self,
        alloc: Global,
        event: u32,
        first: bool,
        words: &[u8],
    ) -> Result<(), AllocError> {
        if self.is_told(words) {
            return Ok(());
        }
        let words = Vec::from_slice(alloc, words)?;
        self.notes.push(Note {
            event,
            first,
            words,
        })?;
        Ok(())
    }
}
