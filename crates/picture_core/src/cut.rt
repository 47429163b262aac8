//! Runs are cut into columns: those that are shorter than a column are drawn together.
ghost use Rattle.std.specs.Prelude.{◌≡◌, ◌<◌, ◌≤◌, ◌+◌, IfOk, None, OnOk, length};
ghost use Rattle.picture_core.specs.Cuts.{IsCut};
ghost use Rattle.picture_core.specs.Scales.{last_column};

use crate::axis::Axis;
use history_core::lane::Run;
use std::alloc::{AllocError, Global};

/// Columns in which one run is drawn, or several together.
#[derive(Clone, Copy)]
pub(crate) struct Piece {
    pub(crate) from: u32,
    pub(crate) to: u32,
    /// The place of the first of the runs.
    pub(crate) first: usize,
    /// How many runs there are.
    pub(crate) count: usize,
}

/// Runs that begin and end in one column.
#[derive(Clone, Copy)]
struct Short {
    column: u32,
    first: usize,
    count: usize,
}

#[derive(Drop)]
struct Cutter {
    pieces: Vec<Piece>,
    /// The first column in which nothing is drawn.
    free: u32,
    /// The last column.
    last: u32,
    short: Option<Short>,
}

impl Cutter {
    fn push(&mut self, piece: Piece) -> Result<(), AllocError>
        requires cut { IsCut self.old }
        requires no_short { self.old.short ≡ None }
        requires behind { self.old.free ≤ piece.from }
        requires some { piece.from < piece.to }
        requires within { piece.to ≤ self.old.last + 1 }
        ensures cut { OnOk result (IsCut self.new) }
        ensures last { self.new.last ≡ self.old.last }
        ensures free { OnOk result (self.new.free ≡ piece.to) }
        ensures short { self.new.short ≡ self.old.short }
    {
        self.pieces.push(piece)?;
        self.free = piece.to;
        Ok(())
    }

    /// The short runs are drawn in their column.
    fn end_short(&mut self) -> Result<(), AllocError>
        requires { IsCut self.old }
        ensures cut { OnOk result (IsCut self.new) }
        ensures last { self.new.last ≡ self.old.last }
        ensures short { self.new.short ≡ None }
    {
        match self.short {
            None => Ok(()),
            Some(short) => {
                self.short = None;
                self.push(Piece {
                    from: short.column,
                    to: short.column + 1,
                    first: short.first,
                    count: short.count,
                })
            }
        }
    }

    /// A run at this place is drawn, from the first free column on up to another.
    fn push_rest(&mut self, place: usize, to: u32) -> Result<(), AllocError>
        requires cut { IsCut self.old }
        requires no_short { self.old.short ≡ None }
        requires within { to ≤ self.old.last }
        ensures cut { OnOk result (IsCut self.new) }
        ensures last { self.new.last ≡ self.old.last }
    {
        let from = self.free;
        if to <= from {
            return Ok(());
        }
        self.push(Piece {
            from,
            to,
            first: place,
            count: 1,
        })
    }

    /// One more run begins in the column of the short ones.
    fn join(&mut self, short: Short, place: usize, to: u32) -> Result<(), AllocError>
        requires cut { IsCut self.old }
        requires waits { (self.old.free ≤ short.column) × (short.column ≤ self.old.last) }
        requires within { to ≤ self.old.last }
        ensures cut { OnOk result (IsCut self.new) }
        ensures last { self.new.last ≡ self.old.last }
    {
        self.short = Some(Short {
            column: short.column,
            first: short.first,
            count: short.count.saturating_add(1),
        });
        if to <= short.column {
            return Ok(());
        }
        self.end_short()?;
        self.push_rest(place, to)
    }

    /// A run at this place that begins in a free column: it is drawn, or waits with other short ones.
    fn begin(&mut self, place: usize, from: u32, to: u32) -> Result<(), AllocError>
        requires cut { IsCut self.old }
        requires no_short { self.old.short ≡ None }
        requires behind { self.old.free ≤ from }
        requires start { from ≤ self.old.last }
        requires within { to ≤ self.old.last }
        ensures cut { OnOk result (IsCut self.new) }
        ensures last { self.new.last ≡ self.old.last }
    {
        if from < to {
            return self.push(Piece {
                from,
                to,
                first: place,
                count: 1,
            });
        }
        self.short = Some(Short {
            column: from,
            first: place,
            count: 1,
        });
        Ok(())
    }

    /// A run at this place, from this column on up to another.
    fn add(&mut self, place: usize, from: u32, to: u32) -> Result<(), AllocError>
        requires { IsCut self.old }
        ensures cut { OnOk result (IsCut self.new) }
        ensures last { self.new.last ≡ self.old.last }
    {
        let to = to.min(self.last);
        let from = from.max(self.free).min(self.last);
        if let Some(short) = self.short {
            if short.column >= from {
                return self.join(short, place, to);
            }
        }
        self.end_short()?;
        if from < self.free {
            return Ok(());
        }
        self.begin(place, from, to)
    }
}

/// What is drawn of runs, in order, none over another, at most a piece in each column.
pub(crate) fn pieces_of(alloc: Global, axis: &Axis, runs: &[Run]) -> Result<Vec<Piece>, AllocError>
    ensures { IfOk result (λ pieces. length pieces.items ≤ last_column axis.now.scale + 1) }
{
    let mut cutter = Cutter {
        pieces: Vec::new(alloc),
        free: 0,
        last: axis.scale.last_column(),
        short: None,
    };
    for (place, run) in runs.iter().enumerate() {
        let from = axis.column_of(run.from);
        let to = axis.column_of(run.to);
        cutter.add(place, from, to)?;
    }
    cutter.end_short()?;
    let Cutter { pieces, .. } = cutter;
    Ok(pieces)
}
