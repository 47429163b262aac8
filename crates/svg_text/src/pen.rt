//! What is written of a picture is held, and given to the writer in pieces.
ghost use Rattle.std.specs.Prelude.{◌≡◌, ◌<◌, ◌≤◌, ◌++◌, [], IfOk, OnErr, OnOk, codes, length, take};
ghost use Rattle.std.specs.Io.KnownBytes.{Appends};
ghost use Rattle.svg_text.specs.Elements.{content_text};
ghost use Rattle.svg_text.specs.Pictures.{line_text, mark_element, marks_content};
ghost use Rattle.svg_text.specs.Writing.{GivesFront, Puts};

use crate::element::push_mark;
use crate::picture::WriteFault;
use crate::shape::Mark;
use crate::text::push;
use plain::draft::Draft;
use std::alloc::AllocError;
use std::io::Write;

/// So many bytes are given to the writer at once, and a shape's more.
const MOST_HELD: usize = 65_536;

/// Calls the writer once. `Ok` tells how many bytes it took, at least one. An error of any kind is a failed call, an interrupted one too.
fn give_some<W: Write>(writer: &mut W, text: &[u8]) -> Result<usize, WriteFault>
    requires { 0 < length text.now }
    ensures bound { IfOk result (λ n. (0 < n) × (n ≤ length text.now)) }
    ensures bytes { IfOk result (λ n. Appends (W.contents writer.old) (W.contents writer.new) (take n text.now)) }
    ensures err { OnErr result (Appends (W.contents writer.old) (W.contents writer.new) []) }
{
    match writer.write(text) {
        Ok(count) if count > 0 => Ok(count),
        _ => Err(WriteFault::WriteFailed),
    }
}

/// Gives the text to the writer.
fn give<W: Write>(writer: &mut W, text: &[u8]) -> Result<(), WriteFault>
    ensures ok { OnOk result (Appends (W.contents writer.old) (W.contents writer.new) text.now) }
    ensures err { OnErr result (GivesFront (W.contents writer.old) (W.contents writer.new) text.now) }
{
    let mut at = 0;
    while at < text.len() {
        match give_some(writer, &text[at..]) {
            Ok(count) => at += count,
            Err(fault) => return Err(fault),
        }
    }
    Ok(())
}

/// Gives what is held to the writer.
pub(crate) fn give_held<W: Write>(out: &mut Draft, writer: &mut W) -> Result<(), WriteFault>
    ensures ok { OnOk result (Appends (W.contents writer.old) (W.contents writer.new) out.old.kept) }
    ensures kept { OnOk result (out.new.kept ≡ []) }
    ensures begun { OnOk result (out.new.begun ≡ []) }
    ensures err { OnErr result (GivesFront (W.contents writer.old) (W.contents writer.new) out.old.kept) }
{
    give(writer, out.kept())?;
    out.clear();
    Ok(())
}

/// What is begun is held, and where that is much it is given to the writer.
pub(crate) fn put<W: Write>(out: &mut Draft, writer: &mut W) -> Result<(), WriteFault>
    ensures begun { OnOk result (out.new.begun ≡ []) }
    ensures ok { OnOk result (Puts (W.contents writer.old) (W.contents writer.new) out.old.kept out.new.kept out.old.begun) }
    ensures err { OnErr result (GivesFront (W.contents writer.old) (W.contents writer.new) (out.old.kept ++ out.old.begun)) }
{
    out.keep();
    if out.len() < MOST_HELD {
        return Ok(());
    }
    give_held(out, writer)
}

/// A shape on a line of its own.
fn push_mark_line(out: &mut Draft, mark: &Mark) -> Result<(), AllocError>
    ensures kept { out.new.kept ≡ out.old.kept }
    ensures ok { OnOk result (out.new.begun ≡ out.old.begun ++ line_text (mark_element mark.now)) }
{
    push_mark(out, mark)?;
    push(out, b"\n")
}

fn put_mark<W: Write>(out: &mut Draft, writer: &mut W, mark: &Mark) -> Result<(), WriteFault>
    requires { out.old.begun ≡ [] }
    ensures begun { OnOk result (out.new.begun ≡ []) }
    ensures ok { OnOk result (Puts (W.contents writer.old) (W.contents writer.new) out.old.kept out.new.kept (line_text (mark_element mark.now))) }
    ensures err { OnErr result (GivesFront (W.contents writer.old) (W.contents writer.new) (out.old.kept ++ line_text (mark_element mark.now))) }
{
    push_mark_line(out, mark)?;
    put(out, writer)
}

pub(crate) fn put_marks<W: Write>(
    out: &mut Draft,
    writer: &mut W,
    marks: &[Mark],
) -> Result<(), WriteFault>
    requires { out.old.begun ≡ [] }
    ensures begun { OnOk result (out.new.begun ≡ []) }
    ensures ok { OnOk result (Puts (W.contents writer.old) (W.contents writer.new) out.old.kept out.new.kept (content_text (marks_content marks.now))) }
    ensures err { OnErr result (GivesFront (W.contents writer.old) (W.contents writer.new) (out.old.kept ++ content_text (marks_content marks.now))) }
{
    for mark in marks {
        put_mark(out, writer, mark)?;
    }
    Ok(())
}
