//! A picture is written.
ghost use Rattle.std.specs.Prelude.{◌≡◌, ◌++◌, [], OnErr, OnOk, codes};
ghost use Rattle.std.specs.Io.KnownBytes.{Appends};
ghost use Rattle.svg_text.specs.Elements.{attributes_text, content_text};
ghost use Rattle.svg_text.specs.Pictures.{group_element, groups_content, head_text, line_text, picture_text, svg_attributes, tail_text, top_text};
ghost use Rattle.svg_text.specs.Writing.{GivesFront, Puts};

use crate::attribute::{push_said, push_size, push_view_box};
use crate::element::{push_head, push_tail, push_whole};
use crate::pen::{give_held, put, put_marks};
use crate::shape::{Group, Head, Picture, Size};
use crate::text::push;
use plain::draft::Draft;
use std::alloc::{AllocError, Global};
use std::io::Write;
use thiserror::Error;

/// Why a picture is not written whole.
#[derive(Clone, Copy, Debug, PartialEq, Eq, Error)]
pub enum WriteFault {
    #[error("the picture cannot be written further")]
    WriteFailed,
    #[error("out of memory")]
    Memory,
}

impl From<AllocError> for WriteFault {
    fn from(_: AllocError) -> WriteFault {
        WriteFault::Memory
    }
}

fn put_head<W: Write>(out: &mut Draft, writer: &mut W, head: &Head) -> Result<(), WriteFault>
    requires { out.old.begun ≡ [] }
    ensures begun { OnOk result (out.new.begun ≡ []) }
    ensures ok { OnOk result (Puts (W.contents writer.old) (W.contents writer.new) out.old.kept out.new.kept (head_text head.now)) }
    ensures err { OnErr result (GivesFront (W.contents writer.old) (W.contents writer.new) (out.old.kept ++ (head_text head.now))) }
{
    push_head(out, head)?;
    put(out, writer)
}

fn put_tail<W: Write>(out: &mut Draft, writer: &mut W, head: &Head) -> Result<(), WriteFault>
    requires { out.old.begun ≡ [] }
    ensures begun { OnOk result (out.new.begun ≡ []) }
    ensures ok { OnOk result (Puts (W.contents writer.old) (W.contents writer.new) out.old.kept out.new.kept (tail_text head.now)) }
    ensures err { OnErr result (GivesFront (W.contents writer.old) (W.contents writer.new) (out.old.kept ++ (tail_text head.now))) }
{
    push_tail(out, head)?;
    put(out, writer)
}

fn put_group<W: Write>(out: &mut Draft, writer: &mut W, group: &Group) -> Result<(), WriteFault>
    requires { out.old.begun ≡ [] }
    ensures begun { OnOk result (out.new.begun ≡ []) }
    ensures ok { OnOk result (Puts (W.contents writer.old) (W.contents writer.new) out.old.kept out.new.kept (line_text (group_element group.now))) }
    ensures err { OnErr result (GivesFront (W.contents writer.old) (W.contents writer.new) (out.old.kept ++ line_text (group_element group.now))) }
{
    put_head(out, writer, &group.head)?;
    put_marks(out, writer, group.marks.as_slice())?;
    put_tail(out, writer, &group.head)
}

fn put_groups<W: Write>(out: &mut Draft, writer: &mut W, groups: &[Group]) -> Result<(), WriteFault>
    requires { out.old.begun ≡ [] }
    ensures begun { OnOk result (out.new.begun ≡ []) }
    ensures ok { OnOk result (Puts (W.contents writer.old) (W.contents writer.new) out.old.kept out.new.kept (content_text (groups_content groups.now))) }
    ensures err { OnErr result (GivesFront (W.contents writer.old) (W.contents writer.new) (out.old.kept ++ (content_text (groups_content groups.now)))) }
{
    for group in groups {
        put_group(out, writer, group)?;
    }
    Ok(())
}

fn push_svg(out: &mut Draft, size: Size) -> Result<(), AllocError>
    ensures kept { out.new.kept ≡ out.old.kept }
    ensures ok { OnOk result (out.new.begun ≡ out.old.begun ++ (codes "<svg" ++ attributes_text (svg_attributes size))) }
{
    push(out, b"<svg")?;
    push_said(out, b"xmlns", b"http://www.w3.org/2000/svg")?;
    push_size(out, size)?;
    push_view_box(out, size)
}

/// What stands before the groups.
fn push_top(out: &mut Draft, picture: &Picture) -> Result<(), AllocError>
    ensures kept { out.new.kept ≡ out.old.kept }
    ensures ok { OnOk result (out.new.begun ≡ out.old.begun ++ top_text picture.now) }
{
    push_svg(out, picture.size)?;
    push(out, b">")?;
    push_whole(out, b"title", picture.title.as_slice())?;
    push_whole(out, b"style", picture.style.as_slice())?;
    push(out, b"\n")
}

fn put_top<W: Write>(out: &mut Draft, writer: &mut W, picture: &Picture) -> Result<(), WriteFault>
    requires { out.old.begun ≡ [] }
    ensures begun { OnOk result (out.new.begun ≡ []) }
    ensures ok { OnOk result (Puts (W.contents writer.old) (W.contents writer.new) out.old.kept out.new.kept (top_text picture.now)) }
    ensures err { OnErr result (GivesFront (W.contents writer.old) (W.contents writer.new) (out.old.kept ++ (top_text picture.now))) }
{
    push_top(out, picture)?;
    put(out, writer)
}

fn put_end<W: Write>(out: &mut Draft, writer: &mut W, text: &[u8]) -> Result<(), WriteFault>
    requires { out.old.begun ≡ [] }
    ensures begun { OnOk result (out.new.begun ≡ []) }
    ensures ok { OnOk result (Puts (W.contents writer.old) (W.contents writer.new) out.old.kept out.new.kept (text.now)) }
    ensures err { OnErr result (GivesFront (W.contents writer.old) (W.contents writer.new) (out.old.kept ++ (text.now))) }
{
    push(out, text)?;
    put(out, writer)
}

fn put_picture<W: Write>(
    out: &mut Draft,
    writer: &mut W,
    picture: &Picture,
) -> Result<(), WriteFault>
    requires { out.old.begun ≡ [] }
    ensures begun { OnOk result (out.new.begun ≡ []) }
    ensures ok { OnOk result (Puts (W.contents writer.old) (W.contents writer.new) out.old.kept out.new.kept (picture_text picture.now)) }
    ensures err { OnErr result (GivesFront (W.contents writer.old) (W.contents writer.new) (out.old.kept ++ (picture_text picture.now))) }
{
    put_top(out, writer, picture)?;
    put_groups(out, writer, picture.groups.as_slice())?;
    put_end(out, writer, b"</svg>\n")
}

/// Writes the picture's text, piece by piece. After an `Err` a front of it may be written.
pub fn write_picture<W: Write>(
    alloc: Global,
    picture: &Picture,
    writer: &mut W,
) -> Result<(), WriteFault>
    ensures ok { OnOk result (Appends (W.contents writer.old) (W.contents writer.new) (picture_text picture.now)) }
    ensures err { OnErr result (GivesFront (W.contents writer.old) (W.contents writer.new) (picture_text picture.now)) }
{
    let mut out = Draft::empty(alloc);
    put_picture(&mut out, writer, picture)?;
    give_held(&mut out, writer)
}
