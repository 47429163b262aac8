//! A set that waits for its writer.
ghost use Rattle.std.specs.Prelude.{◌≡◌, ◌==◌, ◌∷◌, [], IfNone, IfSome, length, map};
ghost use Rattle.jcl_plan.specs.declared.entry.Written.TheVariants as written;
ghost use Rattle.machine_meaning.specs.Spools.{has_lines, output_set};
ghost use Rattle.spool_core.specs.Rests.{lines_of};

use jcl_meaning::state;
use jcl_plan::entry::{JobLine, Written};
use jcl_plan::plan::Record;
use plain::listed::Listed;
use std::collections::VecDeque;
use std::marker::Model;

/// What is left of a set: it lies as the job left it, and is taken from one after another.
#[derive(Drop)]
pub(crate) enum Rest {
    Listing(VecDeque<JobLine>),
    Output(VecDeque<Record>),
}

impl Rest {
    fn is_empty(&self) -> bool
        ensures { result ≡ (length (lines_of self.now) == 0) }
    {
        match self {
            Rest::Listing(lines) => lines.is_empty(),
            Rest::Output(records) => records.is_empty(),
        }
    }

    /// Takes the first line.
    fn pop(&mut self) -> Option<Written>
        ensures some { IfSome result (λ line. lines_of self.old ≡ line ∷ lines_of self.new) }
        ensures none { IfNone result (lines_of self.old ≡ []) }
    {
        match self {
            Rest::Listing(lines) => match lines.pop_front() {
                None => None,
                Some(line) => Some(Written::Line(line)),
            },
            Rest::Output(records) => match records.pop_front() {
                None => None,
                Some(record) => Some(Written::Record(record)),
            },
        }
    }
}

/// A set, the lines of which are taken one after another.
#[derive(Drop)]
pub(crate) struct Queued {
    class: u8,
    job: u16,
    rest: Rest,
}

impl Model for Queued {
    ghost use Rattle.machine_meaning.specs.declared.machine.SpoolSet.{SpoolSet};
    ghost use Rattle.spool_core.specs.Rests.{lines_of};

    ghost Value = { SpoolSet };

    ghost view = { λ q. record { class = q.class; job = q.job; lines = lines_of q.rest } };
}

impl Queued {
    /// A job's listing, taken over with its memory.
    pub(crate) fn listing(job: u16, class: u8, lines: Listed<JobLine>) -> Queued
        ensures { result ≡ record { class = class; job = job; lines = map written.Line lines } }
    {
        Queued {
            class,
            job,
            rest: Rest::Listing(VecDeque::from(lines.into_vec())),
        }
    }

    /// The records of a SYSOUT DD, taken over with their memory.
    pub(crate) fn output(job: u16, output: state::Output) -> Queued
        ensures { result ≡ output_set job output }
    {
        Queued {
            class: output.class,
            job,
            rest: Rest::Output(VecDeque::from(output.records.into_vec())),
        }
    }

    pub(crate) fn class(&self) -> u8
        ensures { result ≡ self.now.class }
    {
        self.class
    }

    pub(crate) fn has_lines(&self) -> bool
        ensures { result ≡ has_lines self.now }
    {
        !self.rest.is_empty()
    }

    /// Takes the first line.
    pub(crate) fn pop(&mut self) -> Option<(u16, Written)>
        ensures some { IfSome result (λ r. (self.old.lines ≡ r.1 ∷ self.new.lines) × (r.0 ≡ self.old.job)
            × (self.new ≡ record self.old { lines = self.new.lines })) }
        ensures none { IfNone result (self.old.lines ≡ []) }
    {
        match self.rest.pop() {
            None => None,
            Some(line) => Some((self.job, line)),
        }
    }
}
