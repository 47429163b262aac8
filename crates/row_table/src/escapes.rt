//! Texts of which a table cannot show each byte.
use std::alloc::{AllocError, Global};

/// The value of a digit of sixteen.
fn digit(byte: u8) -> u8 {
    match byte {
        b'0'..=b'9' => byte - b'0',
        b'A'..=b'F' => byte - b'A' + 10,
        _ => 0,
    }
}

/// A text in which `\XY` stands for the byte of these two digits of sixteen, and a `\` at the end of a line takes the line's end away.
pub fn unescaped(alloc: Global, text: &[u8]) -> Result<Vec<u8>, AllocError> {
    let mut out = Vec::with_capacity(alloc, text.len())?;
    let mut rest = text;
    for _ in 0..text.len() {
        match rest {
            [] => return Ok(out),
            [b'\\', b'\n', more @ ..] => rest = more,
            [b'\\', high, low, more @ ..] => {
                out.push(digit(*high) << 4 | digit(*low))?;
                rest = more;
            }
            [byte, more @ ..] => {
                out.push(*byte)?;
                rest = more;
            }
        }
    }
    Ok(out)
}
