//! Attributes and tags.
ghost use Rattle.std.specs.Prelude.{◌≡◌, ◌++◌, OnOk, codes};
ghost use Rattle.svg_text.specs.Elements.{attribute_text, escaped};
ghost use Rattle.svg_text.specs.Pictures.{box_text, class_of, counted, pair_text, points_text, said, view_box};

use crate::shape::{Name, Point, Size};
use crate::text::{push, push_escaped, push_number, push_points};
use plain::draft::Draft;
use std::alloc::AllocError;

/// A blank, an attribute's name, and the quotation mark before its value.
fn push_name(out: &mut Draft, name: &[u8]) -> Result<(), AllocError>
    ensures kept { out.new.kept ≡ out.old.kept }
    ensures ok { OnOk result (out.new.begun ≡ out.old.begun ++ (codes " " ++ name.now ++ codes "=\"")) }
{
    push(out, b" ")?;
    push(out, name)?;
    push(out, b"=\"")
}

pub(crate) fn push_said(out: &mut Draft, name: &[u8], value: &[u8]) -> Result<(), AllocError>
    ensures kept { out.new.kept ≡ out.old.kept }
    ensures ok { OnOk result (out.new.begun ≡ out.old.begun ++ attribute_text (said name.now value.now)) }
{
    push_name(out, name)?;
    push_escaped(out, value)?;
    push(out, b"\"")
}

pub(crate) fn push_counted(out: &mut Draft, name: &[u8], number: u32) -> Result<(), AllocError>
    ensures kept { out.new.kept ≡ out.old.kept }
    ensures ok { OnOk result (out.new.begun ≡ out.old.begun ++ attribute_text (counted name.now number)) }
{
    push_name(out, name)?;
    push_number(out, number)?;
    push(out, b"\"")
}

/// A start tag without its end, with a class.
pub(crate) fn push_start(out: &mut Draft, tag: &[u8], class: &Name) -> Result<(), AllocError>
    ensures kept { out.new.kept ≡ out.old.kept }
    ensures ok { OnOk result (out.new.begun ≡ out.old.begun ++ (codes "<" ++ tag.now ++ attribute_text (class_of class.now))) }
{
    push(out, b"<")?;
    push(out, tag)?;
    push_said(out, b"class", class.as_slice())
}

pub(crate) fn push_points_attribute(out: &mut Draft, points: &[Point]) -> Result<(), AllocError>
    ensures kept { out.new.kept ≡ out.old.kept }
    ensures ok { OnOk result (out.new.begun ≡ out.old.begun ++ attribute_text (said (codes "points") (points_text points.now))) }
{
    push_name(out, b"points")?;
    push_points(out, points)?;
    push(out, b"\"")
}

fn push_box(out: &mut Draft, size: Size) -> Result<(), AllocError>
    ensures kept { out.new.kept ≡ out.old.kept }
    ensures ok { OnOk result (out.new.begun ≡ out.old.begun ++ escaped (box_text size)) }
{
    push_escaped(out, b"0 0 ")?;
    push_number(out, size.width)?;
    push_escaped(out, b" ")?;
    push_number(out, size.height)
}

pub(crate) fn push_view_box(out: &mut Draft, size: Size) -> Result<(), AllocError>
    ensures kept { out.new.kept ≡ out.old.kept }
    ensures ok { OnOk result (out.new.begun ≡ out.old.begun ++ attribute_text (view_box size)) }
{
    push_name(out, b"viewBox")?;
    push_box(out, size)?;
    push(out, b"\"")
}

pub(crate) fn push_size(out: &mut Draft, size: Size) -> Result<(), AllocError>
    ensures kept { out.new.kept ≡ out.old.kept }
    ensures ok { OnOk result (out.new.begun ≡ out.old.begun ++ pair_text (codes "width") size.width (codes "height") size.height) }
{
    push_counted(out, b"width", size.width)?;
    push_counted(out, b"height", size.height)
}
