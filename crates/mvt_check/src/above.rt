//! What is told of the lines of a session above a deck that stands alone.
ghost use Rattle.std.specs.Prelude.{◌≡◌, ◌++◌, ◌∷◌, drop, IfOk, OnOk};
ghost use Rattle.mvt_check.specs.Above.{end_of, is_above, line_above, text_above, told_line};

use crate::brief::{begins_finding, lines_of};
use std::alloc::{AllocError, Global};

/// Whether a line is above a deck that stands alone, where so many lines are.
pub(crate) fn is_above(above: usize, line: usize) -> bool
    ensures { result ≡ is_above above line }
{
    line < above
}

/// The number that is told of a line.
pub(crate) fn told_line(above: usize, line: usize) -> usize
    ensures { result ≡ told_line above line }
{
    if line < above { line } else { line - above }
}

/// What is written at the end of a line.
fn end_of(line: &[u8]) -> &'static [u8]
    ensures { result.now ≡ end_of line.now }
{
    if begins_finding(line) {
        b", above the deck"
    } else {
        b""
    }
}

/// Writes a line feed, and a line, which says that it is above the deck if it begins a finding.
fn push_above(text: &mut Vec<u8>, line: &[u8]) -> Result<(), AllocError>
    ensures { OnOk result (text.new.items ≡ text.old.items ++ 10 ∷ line_above line.now) }
{
    text.push(b'\n')?;
    text.extend_from_slice(line)?;
    text.extend_from_slice(end_of(line))
}

/// What is behind the first character.
fn behind_first(text: &[u8]) -> &[u8]
    ensures { result.now ≡ drop 1 text.now }
{
    match text.split_first() {
        Some((_, behind)) => behind,
        None => text,
    }
}

/// A text whose findings say that they are above the deck.
pub(crate) fn text_above(alloc: Global, own: &[u8]) -> Result<Vec<u8>, AllocError>
    ensures { IfOk result (λ text. text.items ≡ text_above own.now) }
{
    let lines = lines_of(alloc, own)?;
    let mut told = Vec::new(alloc);
    for line in lines.as_slice() {
        push_above(&mut told, *line)?;
    }
    Vec::from_slice(alloc, behind_first(told.as_slice()))
}
