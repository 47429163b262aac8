//! The lines of a procedure, kept.
ghost use Rattle.std.specs.Prelude.{◌≡◌, ◌++◌, ◌∷◌, [], IfOk, OnErr, OnOk, length};
ghost use Rattle.proc_library.specs.Lines.{cut, total};

use plain::lent::Lent;
use std::alloc::{AllocError, Global};
use std::marker::Model;

/// Lines in one block of memory.
#[derive(Drop)]
pub struct Lines {
    bytes: Vec<u8>,
    /// How many bytes each line has.
    lengths: Vec<usize>,
}

impl Model for Lines {
    ghost use Rattle.std.specs.Prelude.{◌≡◌, ℕ, List, length};
    ghost use Rattle.proc_library.specs.Lines.{cut, total};

    ghost Value = { List (List ℕ) };

    ghost view = { λ l. cut l.lengths.items l.bytes.items };

    ghost invariant = { λ l. total l.lengths.items ≡ length l.bytes.items };
}

impl Lines {
    fn empty(alloc: Global) -> Lines
        ensures { result ≡ [] }
    {
        Lines {
            bytes: Vec::new(alloc),
            lengths: Vec::new(alloc),
        }
    }

    /// Puts a line behind the others. An `Err` changes nothing.
    fn push(&mut self, line: &[u8]) -> Result<(), AllocError>
        ensures ok { OnOk result (self.new ≡ self.old ++ line.now ∷ []) }
        ensures err { OnErr result (self.new ≡ self.old) }
    {
        self.lengths.reserve(1)?;
        self.bytes.extend_from_slice(line)?;
        let Ok(()) = self.lengths.push(line.len()) else {
            unreachable!();
        };
        Ok(())
    }

    /// Makes room for so many more lines.
    fn make_room(&mut self, lines: usize) -> Result<(), AllocError>
        ensures { self.new ≡ self.old }
    {
        self.lengths.reserve(lines)?;
        Ok(())
    }

    /// Lines that outlive those that lend them.
    pub fn copy_of(alloc: Global, lines: &[Lent<'_>]) -> Result<Lines, AllocError>
        ensures { IfOk result (λ copies. copies ≡ lines.now) }
    {
        let mut copies = Lines::empty(alloc);
        copies.make_room(lines.len())?;
        for line in lines {
            copies.push(line.as_slice())?;
        }
        Ok(copies)
    }

    /// How many lines there are.
    #[tactic(auto, using(crate::proofs::Cuts::as_many))]
    pub fn len(&self) -> usize
        ensures { result ≡ length self.now }
    {
        self.lengths.len()
    }

    /// The lines, each lent.
    pub fn lent(&self, alloc: Global) -> Result<Vec<Lent<'_>>, AllocError>
        ensures { IfOk result (λ lent. lent.items ≡ self.now) }
    {
        lines_in(alloc, self.lengths.as_slice(), self.bytes.as_slice())
    }
}

/// The lines that have these lengths, one behind the other in a block.
fn lines_in<'a>(
    alloc: Global,
    lengths: &[usize],
    bytes: &'a [u8],
) -> Result<Vec<Lent<'a>>, AllocError>
    requires { total lengths.now ≡ length bytes.now }
    ensures { IfOk result (λ lent. lent.items ≡ cut lengths.now bytes.now) }
{
    let mut lent = Vec::new(alloc);
    let mut rest = bytes;
    for length in lengths {
        lent.push(Lent::new(&rest[..*length]))?;
        rest = &rest[*length..];
    }
    Ok(lent)
}
