//! The lines that are not written yet, and which statements wrote them.
ghost use Rattle.std.specs.Prelude.{◌≡◌, ◌++◌, [], IfErr, OnErr, OnOk, false, true};
ghost use Rattle.std.specs.Io.KnownBytes.{Appends};
ghost use Rattle.std.specs.List.{flat_map};
ghost use Rattle.jcl_plan.specs.Lines.{text_of};
ghost use Rattle.session_core.specs.Listings.{past_limit};
ghost use Rattle.session_core.specs.Marks.{IsEndByMarks, IsFaultByMarks, IsLineAt};
ghost use Rattle.session_core.specs.Outcomes.{is_write_fault};
ghost use Rattle.session_core.specs.Streams.{sink_state};

use crate::stream::Sink;
use crate::transfer::write_text;
use crate::{SessionEnd, SessionFault};
use jcl_plan::entry::Entry;
use jcl_plan::fault::{Cause, EventFault};
use plain::draft::Draft;
use plain::listed::Listed;
use std::alloc::{AllocError, Global};
use std::io::Write;

/// So many bytes of lines are written out before the next statement runs.
pub const MOST_HELD: usize = 65_536;

/// The line of an event past the last that is done.
const PAST_LIMIT: &[u8] = b"-- REFUSED A5\n";

/// Where the lines of a statement begin in the held text, and its own first line.
#[derive(Clone, Copy)]
pub struct Mark {
    pub line: usize,
    pub start: usize,
}

/// The text that is held, and the statements that wrote it, in order; and room for the lines of an event.
#[derive(Drop)]
pub struct Listing {
    pub text: Draft,
    pub marks: Vec<Mark>,
    pub room: Vec<Entry>,
}

impl Listing {
    pub fn empty(alloc: Global) -> Listing
        ensures text { result.text.kept ≡ [] }
        ensures marks { result.marks.items ≡ [] }
    {
        Listing {
            text: Draft::empty(alloc),
            marks: Vec::new(alloc),
            room: Vec::new(alloc),
        }
    }

    /// Holds the lines too, or none of them.
    pub fn add(&mut self, entries: &[Entry]) -> Result<(), AllocError>
        ensures ok { OnOk result (self.new.text.kept ≡ self.old.text.kept ++ flat_map text_of entries.now) }
        ensures err { OnErr result (self.new.text.kept ≡ self.old.text.kept) }
        ensures marks { self.new.marks.items ≡ self.old.marks.items }
    {
        if is_past_limit(entries) {
            return self.add_past_limit();
        }
        write_lines(entries, &mut self.text)?;
        self.text.keep();
        Ok(())
    }

    /// Holds the lines of an event too, or none of them, and keeps their room for those of the next event.
    pub fn take(&mut self, entries: Listed<Entry>) -> Result<(), AllocError>
        ensures ok { OnOk result (self.new.text.kept ≡ self.old.text.kept ++ flat_map text_of entries) }
        ensures err { OnErr result (self.new.text.kept ≡ self.old.text.kept) }
        ensures marks { self.new.marks.items ≡ self.old.marks.items }
    {
        if entries.as_slice().is_empty() {
            return Ok(());
        }
        let added = self.add(entries.as_slice());
        self.room = entries.into_vec();
        added
    }

    /// Holds the line of an event past the last that is done, whose text is always the same.
    fn add_past_limit(&mut self) -> Result<(), AllocError>
        ensures ok { OnOk result (self.new.text.kept ≡ self.old.text.kept ++ flat_map text_of past_limit) }
        ensures err { OnErr result (self.new.text.kept ≡ self.old.text.kept) }
        ensures marks { self.new.marks.items ≡ self.old.marks.items }
    {
        self.text.discard();
        self.text.push(PAST_LIMIT)?;
        self.text.keep();
        Ok(())
    }

    /// Writes what is held, and holds nothing then. An `Err` is what the session comes to where the writer takes a part of it alone.
    pub fn write_out<W: Write>(&mut self, sink: &mut Sink<'_, W>) -> Result<(), SessionFault>
        requires { sink.old.failed ≡ false }
        ensures ok { OnOk result (Appends (W.contents sink.old.writer.now) (W.contents sink.new.writer.now) self.old.text.kept) }
        ensures text { OnOk result (self.new.text.kept ≡ []) }
        ensures marks { OnOk result (self.new.marks.items ≡ []) }
        ensures fault { OnErr result (is_write_fault result ≡ true) }
        ensures err { IfErr result
            (IsFaultByMarks (sink_state W.contents sink.old) (sink_state W.contents sink.new) self.old.marks.items self.old.text.kept) }
        ensures failed { sink.new.failed ≡ is_write_fault result }
        ensures same_writer { sink.new.writer.ghost_name ≡ sink.old.writer.ghost_name }
    {
        match write_text(sink, self.text.kept()) {
            Ok(()) => {
                self.text.clear();
                self.marks.clear();
                Ok(())
            }
            Err(taken) => {
                let line = line_at(self.marks.as_slice(), taken);
                Err(SessionFault::WriteFailed(line))
            }
        }
    }

    /// Writes what is held, and then answers with what the session came to.
    pub fn end<W: Write>(
        &mut self,
        sink: &mut Sink<'_, W>,
        outcome: Result<SessionEnd, SessionFault>,
    ) -> Result<SessionEnd, SessionFault>
        requires unfailed { sink.old.failed ≡ false }
        requires no_write_fault { is_write_fault outcome ≡ false }
        ensures outcome { IsEndByMarks (sink_state W.contents sink.old) (sink_state W.contents sink.new)
            self.old.marks.items self.old.text.kept outcome result }
        ensures written { is_write_fault result ≡ false → Appends (W.contents sink.old.writer.now) (W.contents sink.new.writer.now) self.old.text.kept }
        ensures failed { sink.new.failed ≡ is_write_fault result }
        ensures same_writer { sink.new.writer.ghost_name ≡ sink.old.writer.ghost_name }
    {
        match self.write_out(sink) {
            Ok(()) => outcome,
            Err(fault) => Err(fault),
        }
    }
}

/// Whether lines are those of an event past the last that is done, of which a session may have millions.
fn is_past_limit(entries: &[Entry]) -> bool
    ensures { result ≡ true → entries.now ≡ past_limit }
{
    match entries {
        [Entry::Refused(Cause::A(EventFault::PastLimit))] => true,
        _ => false,
    }
}

/// The text of the lines is begun, in place of what was begun before.
fn write_lines(entries: &[Entry], text: &mut Draft) -> Result<(), AllocError>
    ensures kept { text.new.kept ≡ text.old.kept }
    ensures ok { OnOk result (text.new.begun ≡ flat_map text_of entries.now) }
{
    text.discard();
    for entry in entries {
        entry.write_to(text)?;
    }
    Ok(())
}

/// The line of the statement whose lines have the byte behind these.
fn line_at(marks: &[Mark], taken: usize) -> usize
    ensures { IsLineAt marks.now taken result }
{
    let mut line = 0;
    for mark in marks {
        if taken < mark.start {
            return line;
        }
        line = mark.line;
    }
    line
}
