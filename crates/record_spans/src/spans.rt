//! From which record to which the records of a job lie, by its number.
ghost use Rattle.std.specs.Prelude.{◌≡◌, ℕ, ◌-◌, ◌<◌, ◌≤◌};
ghost use Rattle.record_spans.specs.Spans.{IsIn, MayOwn, Widens};

use std::alloc::{AllocError, Global};
use std::marker::Model;

/// Of so many jobs, by their numbers from 0, it is known where their records are; of more than a session may have.
const PIECE: usize = 64;

const PIECES: usize = 157;

/// Records behind one number, up to another.
#[derive(Clone, Copy)]
pub struct Span {
    pub low: u32,
    pub high: u32,
}

/// For each job the records among which its own are; a job behind the last may have them anywhere.
#[derive(Drop)]
pub struct Spans {
    spans: Vec<Span>,
}

impl Model for Spans {
    ghost use Rattle.std.specs.Prelude.{List};
    ghost use Rattle.record_spans.specs.declared.spans.Span.{Span};

    ghost Value = { List Span };

    ghost view = { λ s. s.spans.items };
}

/// A span with a further record.
fn widened(span: Span, n: u32) -> Span
    requires { 0 < n }
    ensures { Widens span n result }
{
    if span.high == 0 {
        return Span {
            low: n - 1,
            high: n,
        };
    }
    Span {
        low: span.low.min(n - 1),
        high: span.high.max(n),
    }
}

impl Spans {
    /// No job has a record. Filled by pieces, as a span alone costs some instructions.
    pub fn new(alloc: Global) -> Result<Spans, AllocError> {
        let piece = [Span { low: 0, high: 0 }; PIECE];
        let mut spans = Vec::with_capacity(alloc, PIECE * PIECES)?;
        for _ in 0..PIECES {
            spans.extend_from_slice(piece.as_slice())?;
        }
        Ok(Spans { spans })
    }

    /// A job has a further record.
    pub fn widen(&mut self, owner: u16, n: u32)
        requires { 0 < n }
        ensures still { (o k : ℕ) → MayOwn self.old o k → MayOwn self.new o k }
        ensures further { MayOwn self.new owner (n - 1) }
    {
        let place = usize::from(owner);
        if place < self.spans.len() {
            self.spans[place] = widened(self.spans[place], n);
        }
    }

    /// Where the records of a job are, of so many records.
    pub fn span(&self, owner: u16, most: u32) -> Span
        ensures has { (k : ℕ) → k < most → MayOwn self.now owner k → IsIn result k }
        ensures within { result.high ≤ most }
    {
        match self.spans.get(usize::from(owner)) {
            Some(span) => Span {
                low: span.low.min(most),
                high: span.high.min(most),
            },
            None => Span { low: 0, high: most },
        }
    }
}
