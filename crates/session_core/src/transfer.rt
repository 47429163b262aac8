//! Reading a text of a source, and writing one to a sink.
ghost use Rattle.std.specs.Prelude.{◌≡◌, ◌<◌, false, IfErr, IfOk, OnErr, OnOk, is_err, length, take};
ghost use Rattle.std.specs.Io.KnownBytes.{Appends};
ghost use Rattle.session_core.specs.Streams.{IsRead, IsReadInPart, sink_state, source_state};

use crate::MOST_BYTES;
use crate::stream::{Sink, Source};
use session_text::statement::Ending;
use std::alloc::{AllocError, Global};
use std::io::{Read, Write};

/// The most bytes of a call.
const MOST_OF_A_CALL: usize = 65_536;

/// A text, and how it ended.
#[derive(Drop)]
pub struct Input {
    pub text: Vec<u8>,
    pub ending: Ending,
}

/// The bytes that are filled at once.
const PIECE: usize = 4_096;

/// A buffer of zeros, filled by pieces, as a byte alone costs an instruction.
fn blank(alloc: Global) -> Result<Vec<u8>, AllocError>
    ensures { IfOk result (λ v. length v.items ≡ 65536) }
{
    let piece = [0u8; PIECE];
    let mut buffer = Vec::with_capacity(alloc, MOST_OF_A_CALL)?;
    while buffer.len() < MOST_OF_A_CALL {
        buffer.extend_from_slice(&piece)?;
    }
    Ok(buffer)
}

/// Reads to the end, to a failure, or to the first byte past the limit.
pub fn read_text<R: Read>(alloc: Global, source: &mut Source<'_, R>) -> Result<Input, AllocError>
    requires { source.old.failed ≡ false }
    ensures ok { IfOk result (λ i. IsRead (source_state R.remaining source.old) (source_state R.remaining source.new) i.text.items i.ending) }
    ensures err { OnErr result (IsReadInPart (source_state R.remaining source.old) (source_state R.remaining source.new)) }
    ensures same_reader { source.new.reader.ghost_name ≡ source.old.reader.ghost_name }
{
    let mut text = Vec::new(alloc);
    let mut held = blank(alloc)?;
    let buffer = held.as_mut_slice();
    while text.len() <= MOST_BYTES {
        let room = (MOST_BYTES + 1 - text.len()).min(buffer.len());
        match source.read(&mut buffer[..room]) {
            Ok(0) => {
                let ending = Ending::Whole;
                return Ok(Input { text, ending });
            }
            Ok(count) => text.extend_from_slice(&buffer[..count])?,
            Err(_) => {
                let ending = Ending::ReadFailed;
                return Ok(Input { text, ending });
            }
        }
    }
    text.truncate(MOST_BYTES);
    let ending = Ending::TooLong;
    Ok(Input { text, ending })
}

/// Writes the text. An `Err` tells how many of its bytes were taken before a call failed.
pub fn write_text<W: Write>(sink: &mut Sink<'_, W>, text: &[u8]) -> Result<(), usize>
    requires { sink.old.failed ≡ false }
    ensures ok { OnOk result (Appends (W.contents sink.old.writer.now) (W.contents sink.new.writer.now) text.now) }
    ensures bound { IfErr result (λ taken. taken < length text.now) }
    ensures err { IfErr result (λ taken. Appends (W.contents sink.old.writer.now) (W.contents sink.new.writer.now) (take taken text.now)) }
    ensures failed { sink.new.failed ≡ is_err result }
    ensures same_writer { sink.new.writer.ghost_name ≡ sink.old.writer.ghost_name }
{
    let mut at = 0;
    while at < text.len() {
        match sink.write(&text[at..]) {
            Ok(count) => at += count,
            Err(_) => return Err(at),
        }
    }
    Ok(())
}
