//! The elements of shapes.
ghost use Rattle.std.specs.Prelude.{◌≡◌, ◌∷◌, ◌++◌, OnOk, codes};
ghost use Rattle.svg_text.specs.Elements.{attribute_text, attributes_text, content_text, element_text, nothing};
ghost use Rattle.svg_text.specs.declared.shape.Head.TheVariants as head;
ghost use Rattle.svg_text.specs.Pictures.{head_attributes, head_text, mark_element, pair_text, rest_text, said, start_text, tail_text, text_element, titled};

use crate::attribute::{push_counted, push_points_attribute, push_said, push_size, push_start};
use crate::shape::{Form, Head, Mark, Name, Point, Size};
use crate::text::{push, push_escaped};
use plain::draft::Draft;
use plain::text::Text;
use std::alloc::AllocError;

/// What a viewer tells, an element of its own where there is some.
pub(crate) fn push_title(out: &mut Draft, title: &Option<Text>) -> Result<(), AllocError>
    ensures kept { out.new.kept ≡ out.old.kept }
    ensures ok { OnOk result (out.new.begun ≡ out.old.begun ++ content_text (titled title.now nothing)) }
{
    match title {
        None => Ok(()),
        Some(title) => push_whole(out, b"title", title.as_slice()),
    }
}

/// An element that has a text alone.
pub(crate) fn push_whole(out: &mut Draft, tag: &[u8], text: &[u8]) -> Result<(), AllocError>
    ensures kept { out.new.kept ≡ out.old.kept }
    ensures ok { OnOk result (out.new.begun ≡ out.old.begun
        ++ element_text (text_element tag.now text.now)) }
{
    push(out, b"<")?;
    push(out, tag)?;
    push(out, b">")?;
    push_escaped(out, text)?;
    push_end(out, tag)
}

pub(crate) fn push_end(out: &mut Draft, tag: &[u8]) -> Result<(), AllocError>
    ensures kept { out.new.kept ≡ out.old.kept }
    ensures ok { OnOk result (out.new.begun ≡ out.old.begun ++ (codes "</" ++ tag.now ++ codes ">")) }
{
    push(out, b"</")?;
    push(out, tag)?;
    push(out, b">")
}

fn push_place(out: &mut Draft, at: Point) -> Result<(), AllocError>
    ensures kept { out.new.kept ≡ out.old.kept }
    ensures ok { OnOk result (out.new.begun ≡ out.old.begun ++ pair_text (codes "x") at.x (codes "y") at.y) }
{
    push_counted(out, b"x", at.x)?;
    push_counted(out, b"y", at.y)
}

/// Where a line begins.
fn push_from(out: &mut Draft, from: Point) -> Result<(), AllocError>
    ensures kept { out.new.kept ≡ out.old.kept }
    ensures ok { OnOk result (out.new.begun ≡ out.old.begun ++ pair_text (codes "x1") from.x (codes "y1") from.y) }
{
    push_counted(out, b"x1", from.x)?;
    push_counted(out, b"y1", from.y)
}

/// Where a line ends.
fn push_to(out: &mut Draft, to: Point) -> Result<(), AllocError>
    ensures kept { out.new.kept ≡ out.old.kept }
    ensures ok { OnOk result (out.new.begun ≡ out.old.begun ++ pair_text (codes "x2") to.x (codes "y2") to.y) }
{
    push_counted(out, b"x2", to.x)?;
    push_counted(out, b"y2", to.y)
}

/// What stands behind the attributes of an element that has a title and this text.
fn push_rest(
    out: &mut Draft,
    tag: &[u8],
    title: &Option<Text>,
    text: &[u8],
) -> Result<(), AllocError>
    ensures kept { out.new.kept ≡ out.old.kept }
    ensures ok { OnOk result (out.new.begun ≡ out.old.begun ++ rest_text tag.now title.now text.now) }
{
    push(out, b">")?;
    push_title(out, title)?;
    push_escaped(out, text)?;
    push_end(out, tag)
}

fn push_form(out: &mut Draft, class: &Name, form: &Form) -> Result<(), AllocError>
    ensures kept { out.new.kept ≡ out.old.kept }
    ensures ok { OnOk result (out.new.begun ≡ out.old.begun ++ start_text class.now form.now) }
{
    match form {
        Form::Rectangle { at, size } => {
            push_start(out, b"rect", class)?;
            push_place(out, *at)?;
            push_size(out, *size)
        }
        Form::Line { from, to } => {
            push_start(out, b"line", class)?;
            push_from(out, *from)?;
            push_to(out, *to)
        }
        Form::Polyline(points) => {
            push_start(out, b"polyline", class)?;
            push_points_attribute(out, points.as_slice())
        }
        Form::Text { at, .. } => {
            push_start(out, b"text", class)?;
            push_place(out, *at)
        }
    }
}

#[tactic(auto, using(crate::proofs::Titled::titled_text))]
pub(crate) fn push_mark(out: &mut Draft, mark: &Mark) -> Result<(), AllocError>
    ensures kept { out.new.kept ≡ out.old.kept }
    ensures ok { OnOk result (out.new.begun ≡ out.old.begun ++ element_text (mark_element mark.now)) }
{
    push_form(out, &mark.class, &mark.form)?;
    match &mark.form {
        Form::Rectangle { .. } => push_rest(out, b"rect", &mark.title, b""),
        Form::Line { .. } => push_rest(out, b"line", &mark.title, b""),
        Form::Polyline(_) => push_rest(out, b"polyline", &mark.title, b""),
        Form::Text { text, .. } => push_rest(out, b"text", &mark.title, text.as_slice()),
    }
}

/// A tile's units are those of the picture.
fn push_units(out: &mut Draft) -> Result<(), AllocError>
    ensures kept { out.new.kept ≡ out.old.kept }
    ensures ok { OnOk result (out.new.begun ≡ out.old.begun ++ attribute_text (said (codes "patternUnits") (codes "userSpaceOnUse"))) }
{
    push_said(out, b"patternUnits", b"userSpaceOnUse")
}

fn push_pattern(out: &mut Draft, name: &Name, size: Size) -> Result<(), AllocError>
    ensures kept { out.new.kept ≡ out.old.kept }
    ensures ok { OnOk result (out.new.begun ≡ out.old.begun ++ (codes "<pattern" ++ attributes_text (head_attributes (head.Pattern name.now size)))) }
{
    push(out, b"<pattern")?;
    push_said(out, b"id", name.as_slice())?;
    push_units(out)?;
    push_size(out, size)
}

/// What stands before the shapes of a group.
pub(crate) fn push_head(out: &mut Draft, head: &Head) -> Result<(), AllocError>
    ensures kept { out.new.kept ≡ out.old.kept }
    ensures ok { OnOk result (out.new.begun ≡ out.old.begun ++ head_text head.now) }
{
    match head {
        Head::Plain { class, title } => {
            push_start(out, b"g", class)?;
            push(out, b">")?;
            push_title(out, title)
        }
        Head::Pattern { name, size } => {
            push_pattern(out, name, *size)?;
            push(out, b">")
        }
    }
}

/// What stands behind them.
pub(crate) fn push_tail(out: &mut Draft, head: &Head) -> Result<(), AllocError>
    ensures kept { out.new.kept ≡ out.old.kept }
    ensures ok { OnOk result (out.new.begun ≡ out.old.begun ++ tail_text head.now) }
{
    match head {
        Head::Plain { .. } => push(out, b"</g>\n"),
        Head::Pattern { .. } => push(out, b"</pattern>\n"),
    }
}
