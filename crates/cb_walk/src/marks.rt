//! Marks of the records that were met: a bit for each number.
ghost use Rattle.std.specs.Prelude.{◌≡◌, ◌≢◌, ◌*◌, ◌<◌, ℕ, IfOk, false, length, true};
ghost use Rattle.cb_walk.specs.Marks.{is_marked};

use std::alloc::{AllocError, Global};

/// How many words of marks are made at once.
const PIECE: usize = 256;

/// Marks for the numbers from 0 to this one, none of which is set. They are made by pieces, as a word alone costs some instructions.
pub(crate) fn no_marks(alloc: Global, last: u32) -> Result<Vec<u64>, AllocError>
    ensures none { IfOk result (λ marks. (n : ℕ) → is_marked marks.items n ≡ false) }
    ensures room { IfOk result (λ marks. last < 64 * length marks.items) }
{
    let piece = [0; PIECE];
    let count = last as usize / 64 + 1;
    let mut marks = Vec::with_capacity(alloc, count)?;
    while marks.len() < count {
        let some = (count - marks.len()).min(PIECE);
        marks.extend_from_slice(&piece[..some])?;
    }
    Ok(marks)
}

/// Whether a number has a mark.
pub(crate) fn is_marked(marks: &[u64], n: u32) -> bool
    ensures { result ≡ is_marked marks.now n }
{
    let word = n as usize / 64;
    if word < marks.len() {
        (marks[word] >> (n % 64)) & 1 == 1
    } else {
        false
    }
}

/// Marks a number.
pub(crate) fn mark(marks: &mut [u64], n: u32)
    requires { n < 64 * length marks.old }
    ensures here { is_marked marks.new n ≡ true }
    ensures others { (k : ℕ) → k ≢ n → is_marked marks.new k ≡ is_marked marks.old k }
{
    marks[n as usize / 64] |= 1 << (n % 64);
}
