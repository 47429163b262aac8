//! The lines of a session's text.
ghost use Rattle.std.specs.Prelude.{◌≡◌, ◌^◌, ◌≤◌, IfOk, length};
ghost use Rattle.play_core.specs.Texts.{ended, feeds_in, is_open, line_behind, with_events};

use crate::given::Given;
use std::alloc::{AllocError, Global};

/// Whether the last line has no line feed.
fn is_open(text: &[u8]) -> bool
    ensures { result ≡ is_open text.now }
{
    let mut open = false;
    for byte in text {
        open = *byte != b'\n';
    }
    open
}

/// The text, with a line feed behind its last line.
fn ended(alloc: Global, text: &[u8]) -> Result<Vec<u8>, AllocError>
    ensures { IfOk result (λ v. v.items ≡ ended text.now) }
{
    let mut out = Vec::from_slice(alloc, text)?;
    if is_open(text) {
        out.push(b'\n')?;
    }
    Ok(out)
}

fn feeds_in(text: &[u8]) -> usize
    ensures feeds { result ≡ feeds_in text.now }
    ensures few { result ≤ length text.now }
{
    let mut feeds = 0;
    for byte in text {
        if *byte == b'\n' {
            feeds += 1;
        }
    }
    feeds
}

/// The number of the line behind the text.
pub(crate) fn line_behind(alloc: Global, text: &[u8]) -> Result<usize, AllocError>
    ensures line { IfOk result (λ line. line ≡ line_behind text.now) }
    ensures few { IfOk result (λ line. line ≤ 2 ^ 63) }
{
    let whole = ended(alloc, text)?;
    Ok(feeds_in(whole.as_slice()) + 1)
}

/// The text, and behind it the lines of these events.
pub(crate) fn with_events(
    alloc: Global,
    text: &[u8],
    given: &[Given],
) -> Result<Vec<u8>, AllocError>
    ensures { IfOk result (λ v. v.items ≡ with_events text.now given.now) }
{
    let mut out = ended(alloc, text)?;
    for next in given {
        next.write_to(&mut out)?;
    }
    Ok(out)
}
