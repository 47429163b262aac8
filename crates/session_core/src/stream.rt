//! The two streams of a session. Nothing else calls the reader or the writer, and neither is called again once a call of it has failed.
ghost use Rattle.std.specs.Prelude.{◌≡◌, ◌<◌, ◌≤◌, [], IfOk, OnErr, false, is_err, length, take};
ghost use Rattle.std.specs.Io.{ReadsAtMost};
ghost use Rattle.std.specs.Io.KnownBytes.{Appends, Keeps, ReadConsumes};

use std::io::{Read, Write};

/// A call of the reader failed. What the reader gave as the reason is not kept.
#[derive(Clone, Copy, PartialEq, Eq)]
pub struct ReadFailed;

/// A call of the writer failed, or took no byte of a text that has one.
#[derive(Clone, Copy, PartialEq, Eq)]
pub struct WriteFailed;

/// A reader, and whether a call of it has failed.
#[derive(Drop)]
pub struct Source<'a, R> {
    reader: &'a mut R,
    failed: bool,
}

impl<'a, R: Read> Source<'a, R> {
    /// No call has failed yet.
    pub fn new(reader: &'a mut R) -> Source<'a, R>
        ensures same_reader { result.reader.ghost_name ≡ reader.entry.ghost_name }
        ensures reader { result.reader.now ≡ reader.old }
        ensures failed { result.failed ≡ false }
    {
        Source {
            reader,
            failed: false,
        }
    }

    /// Calls the reader once. `Ok` tells how many bytes it gave, 0 at its end. An error of any kind is a failed call, an interrupted one too.
    pub fn read(&mut self, buffer: &mut [u8]) -> Result<usize, ReadFailed>
        requires { self.old.failed ≡ false }
        ensures bound { ReadsAtMost result buffer.new }
        ensures bytes { ReadConsumes (R.remaining self.old.reader.now) (R.remaining self.new.reader.now) result buffer.new }
        ensures failed { self.new.failed ≡ is_err result }
        ensures same_reader { self.new.reader.ghost_name ≡ self.old.reader.ghost_name }
    {
        match self.reader.read(buffer) {
            Ok(count) => Ok(count),
            Err(_) => {
                self.failed = true;
                Err(ReadFailed)
            }
        }
    }
}

/// A writer, and whether a call of it has failed.
#[derive(Drop)]
pub struct Sink<'a, W> {
    writer: &'a mut W,
    failed: bool,
}

impl<'a, W: Write> Sink<'a, W> {
    /// No call has failed yet.
    pub fn new(writer: &'a mut W) -> Sink<'a, W>
        ensures same_writer { result.writer.ghost_name ≡ writer.entry.ghost_name }
        ensures writer { result.writer.now ≡ writer.old }
        ensures failed { result.failed ≡ false }
    {
        Sink {
            writer,
            failed: false,
        }
    }

    /// Calls the writer once. `Ok` tells how many bytes it took, at least one. An error of any kind is a failed call, an interrupted one too.
    pub fn write(&mut self, text: &[u8]) -> Result<usize, WriteFailed>
        requires unfailed { self.old.failed ≡ false }
        requires some { 0 < length text.now }
        ensures bound { IfOk result (λ n. (0 < n) × (n ≤ length text.now)) }
        ensures bytes { IfOk result (λ n. Appends (W.contents self.old.writer.now) (W.contents self.new.writer.now) (take n text.now)) }
        ensures err { OnErr result (Appends (W.contents self.old.writer.now) (W.contents self.new.writer.now) []) }
        ensures failed { self.new.failed ≡ is_err result }
        ensures same_writer { self.new.writer.ghost_name ≡ self.old.writer.ghost_name }
    {
        match self.writer.write(text) {
            Ok(count) if count > 0 => Ok(count),
            _ => {
                self.failed = true;
                Err(WriteFailed)
            }
        }
    }
}
