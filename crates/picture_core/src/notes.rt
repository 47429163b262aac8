//! Words below a lane, none over others.
ghost use Rattle.std.specs.Prelude.{◌≤◌, IfSome};

use crate::canvas::Canvas;
use crate::label::pixels_of;
use crate::sheet::Sheet;
use history_core::lane::Note;
use plain::short::Short;
use std::alloc::AllocError;
use svg_text::shape::Point;

/// Where a note would stand, and whether it comes before others.
#[derive(Clone, Copy)]
struct Span {
    place: usize,
    from: u32,
    to: u32,
    first: bool,
}

/// The note that is written next, unless one that comes before it stands there.
#[derive(Drop)]
struct Row {
    waiting: Option<Span>,
}

impl Row {
    /// The next note came. What is given out is written.
    fn take(&mut self, span: Span) -> Option<Span>
        ensures { IfSome result (λ given. given.to ≤ span.from) }
    {
        let Some(waiting) = self.waiting else {
            self.waiting = Some(span);
            return None;
        };
        if waiting.to <= span.from {
            self.waiting = Some(span);
            return Some(waiting);
        }
        if span.first && !waiting.first {
            self.waiting = Some(span);
        }
        None
    }
}

impl Canvas<'_> {
    fn span_of(&self, note: &Note, place: usize) -> Span {
        let from = self.left.saturating_add(self.axis.before(note.event));
        Span {
            place,
            from,
            to: from.saturating_add(pixels_of(note.words.len())),
            first: note.first,
        }
    }

    fn add_note(
        &self,
        sheet: &mut Sheet,
        notes: &[Note],
        span: Span,
        below: u32,
    ) -> Result<(), AllocError> {
        let Some(note) = notes.get(span.place) else {
            return Ok(());
        };
        let at = Point {
            x: span.from,
            y: self.top.saturating_add(below),
        };
        sheet.text(Short::new(b"note"), at, note.words.as_slice())
    }

    /// The notes that have room, on a base line so far below the top of the lane.
    pub(crate) fn add_notes(
        &self,
        sheet: &mut Sheet,
        notes: &[Note],
        below: u32,
    ) -> Result<(), AllocError> {
        let mut row = Row { waiting: None };
        for (place, note) in notes.iter().enumerate() {
            let span = self.span_of(note, place);
            if let Some(ready) = row.take(span) {
                self.add_note(sheet, notes, ready, below)?;
            }
        }
        match row.waiting {
            Some(last) => self.add_note(sheet, notes, last, below),
            None => Ok(()),
        }
    }
}
