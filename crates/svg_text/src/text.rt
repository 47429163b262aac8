//! Texts between tags and in attributes.
ghost use Rattle.std.specs.Prelude.{◌≡◌, ◌++◌, OnOk, decimal};
ghost use Rattle.svg_text.specs.Elements.{byte_text, escaped};
ghost use Rattle.svg_text.specs.Pictures.{point_text, points_text};

use crate::shape::Point;
use itoa::Buffer;
use plain::draft::Draft;
use std::alloc::AllocError;

pub(crate) fn push(out: &mut Draft, text: &[u8]) -> Result<(), AllocError>
    ensures kept { out.new.kept ≡ out.old.kept }
    ensures ok { OnOk result (out.new.begun ≡ out.old.begun ++ text.now) }
{
    out.push(text)
}

/// The text that stands for a byte.
fn push_byte(out: &mut Draft, byte: u8) -> Result<(), AllocError>
    ensures kept { out.new.kept ≡ out.old.kept }
    ensures ok { OnOk result (out.new.begun ≡ out.old.begun ++ byte_text byte) }
{
    match byte {
        b'&' => push(out, b"&amp;"),
        b'<' => push(out, b"&lt;"),
        b'>' => push(out, b"&gt;"),
        b'"' => push(out, b"&quot;"),
        b'\n' | b' '..=b'~' => out.push_byte(byte),
        _ => push(out, b"?"),
    }
}

pub(crate) fn push_escaped(out: &mut Draft, text: &[u8]) -> Result<(), AllocError>
    ensures kept { out.new.kept ≡ out.old.kept }
    ensures ok { OnOk result (out.new.begun ≡ out.old.begun ++ escaped text.now) }
{
    for byte in text {
        push_byte(out, *byte)?;
    }
    Ok(())
}

pub(crate) fn push_number(out: &mut Draft, number: u32) -> Result<(), AllocError>
    ensures kept { out.new.kept ≡ out.old.kept }
    ensures ok { OnOk result (out.new.begun ≡ out.old.begun ++ escaped (decimal number)) }
{
    let mut buffer = Buffer::new();
    push_escaped(out, buffer.format(number).as_bytes())
}

fn push_point(out: &mut Draft, point: Point) -> Result<(), AllocError>
    ensures kept { out.new.kept ≡ out.old.kept }
    ensures ok { OnOk result (out.new.begun ≡ out.old.begun ++ escaped (point_text point)) }
{
    push_number(out, point.x)?;
    push_escaped(out, b",")?;
    push_number(out, point.y)?;
    push_escaped(out, b" ")
}

pub(crate) fn push_points(out: &mut Draft, points: &[Point]) -> Result<(), AllocError>
    ensures kept { out.new.kept ≡ out.old.kept }
    ensures ok { OnOk result (out.new.begun ≡ out.old.begun ++ escaped (points_text points.now)) }
{
    for point in points {
        push_point(out, *point)?;
    }
    Ok(())
}
