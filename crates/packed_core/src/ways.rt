//! Ways into the views behind a part: by which classes of codes its rows were told.
ghost use Rattle.std.specs.Prelude.{◌≡◌, ℕ, All, IfSome, List, OnOk, Some, map, true, slice_get};
ghost use Rattle.packed_core.specs.Ways.{AreKept, AreLooked, AreOffered, HasNoOther, HasNoOthers, IsThere};

use crate::classes::{Class, Classes};
use crate::index::{hash_of, is_joined};
use crate::row_list::RowList;
use std::alloc::{AllocError, Global};
use std::rc::Rc;

/// A class that was looked at, and the number of its row: of one that stands, or that which it is to have.
#[derive(Clone, Copy)]
pub struct Looked {
    pub class: usize,
    pub row: usize,
}

/// What was told last: the row from which it was, and the classes that were looked at.
#[derive(Drop)]
pub struct Pending {
    pub base: Vec<u64>,
    pub looked: Vec<Looked>,
}

/// The classes by which the step before a part may end, and of rows before the part a class each by which it is told from a row of which all stands to
/// which it leads.
#[derive(Drop)]
pub struct Ways {
    pub classes: Rc<Classes>,
    pub notes: Vec<Option<usize>>,
    pub pending: Option<Box<Pending>>,
}

/// Whether the row of a class that was looked at stands at its number.
fn is_there(rows: &RowList, list: &[Class], base: &[u64], looked: Looked) -> bool
    ensures { result ≡ true → IsThere rows.now list.now base.now looked }
{
    if looked.class >= list.len() || looked.row >= rows.len() {
        return false;
    }
    let class = &list[looked.class];
    if class.mask.len() != base.len() {
        return false;
    }
    is_joined(rows.at(looked.row), base, class.mask.as_slice())
}

/// The number of the row of a class that was looked at, if it stands.
fn place_of(rows: &RowList, list: &[Class], base: &[u64], looked: Looked) -> Option<usize>
    ensures { IfSome result (λ n. IsThere rows.now list.now base.now (record { class = looked.class; row = n })) }
{
    if is_there(rows, list, base, looked) {
        return Some(looked.row);
    }
    if looked.class >= list.len() {
        return None;
    }
    let class = &list[looked.class];
    if class.mask.len() != base.len() {
        return None;
    }
    rows.find_joined(base, class.mask.as_slice())
}

/// Finds the rows of all of them, if they stand.
fn place_all(rows: &RowList, list: &[Class], base: &[u64], looked: &mut Vec<Looked>) -> bool
    ensures there { result ≡ true → All (IsThere rows.now list.now base.now) looked.new.items }
    ensures same { map (λ l. l.class) looked.new.items ≡ map (λ l. l.class) looked.old.items }
{
    for i in 0..looked.len() {
        let class = looked[i].class;
        match place_of(rows, list, base, looked[i]) {
            Some(row) => looked[i] = Looked { class, row },
            None => return false,
        }
    }
    true
}

/// Makes room for notes of so many rows.
fn lengthen(notes: &mut Vec<Option<usize>>, count: usize) -> Result<(), AllocError>
    ensures { OnOk result ((i c : ℕ) → slice_get notes.new.items i ≡ Some (Some c) → slice_get notes.old.items i ≡ Some (Some c)) }
{
    let missing = count.saturating_sub(notes.len());
    for i in 0..missing {
        notes.push(None)?;
    }
    Ok(())
}

/// Notes the class at its row, where none is noted.
fn note(notes: &mut Vec<Option<usize>>, looked: Looked)
    ensures { HasNoOther notes.old.items notes.new.items looked }
{
    if looked.row < notes.len() && notes[looked.row].is_none() {
        notes[looked.row] = Some(looked.class);
    }
}

/// Notes all of them.
fn note_all(notes: &mut Vec<Option<usize>>, looked: &[Looked])
    ensures { HasNoOthers notes.old.items notes.new.items looked.now }
{
    for one in looked {
        note(notes, *one);
    }
}

/// With fewer classes nothing is noted.
const SOME: usize = 3;

impl Ways {
    /// Whether the classes are so few that nothing is noted.
    pub(crate) fn are_few(&self) -> bool {
        self.classes.list.len() < SOME
    }

    /// Notes what was told last, if it stands by now.
    pub(crate) fn settle(&mut self, rows: &RowList) -> Result<(), AllocError>
        requires kept { AreKept rows.now self.old }
        ensures kept { OnOk result (AreKept rows.now self.new) }
        ensures classes { self.new.classes ≡ self.old.classes }
    {
        let Some(pending) = self.pending.take() else {
            return Ok(());
        };
        let Pending { base, mut looked } = Box::into_inner(pending);
        let list = self.classes.list.as_slice();
        if place_all(rows, list, base.as_slice(), &mut looked) {
            lengthen(&mut self.notes, rows.len())?;
            note_all(&mut self.notes, looked.as_slice());
        }
        Ok(())
    }

    /// The class that is noted at a row.
    fn noted(&self, rows: &RowList, base: &[u64]) -> Option<usize>
        ensures { IfSome result (λ c. (i : ℕ) × (slice_get rows.now i ≡ Some base.now) × (slice_get self.now.notes.items i ≡ Some (Some c))) }
    {
        if self.notes.is_empty() {
            return None;
        }
        let n = rows.find(base, hash_of(base))?;
        if n < self.notes.len() {
            self.notes[n]
        } else {
            None
        }
    }

    /// The numbers of the classes that may lead from a row to one that does not stand.
    pub(crate) fn offered(&self, rows: &RowList, base: &[u64]) -> &[usize]
        requires kept { AreKept rows.now self.now }
        ensures { AreOffered rows.now self.now.classes.value.list.items base.now result.now }
    {
        let Some(c) = self.noted(rows, base) else {
            return self.classes.every.as_slice();
        };
        if c >= self.classes.apart.len() {
            return self.classes.every.as_slice();
        }
        self.classes.apart[c].as_slice()
    }

    /// Keeps what is told now.
    pub(crate) fn keep_pending(
        &mut self,
        alloc: Global,
        base: &[u64],
        looked: Vec<Looked>,
    ) -> Result<(), AllocError>
        ensures kept { (rows : List (List ℕ)) → AreLooked rows self.old.classes.value.list.items base.now looked.items → AreKept rows self.old →
            AreKept rows self.new }
        ensures classes { self.new.classes ≡ self.old.classes }
    {
        if looked.is_empty() {
            return Ok(());
        }
        let base = Vec::from_slice(alloc, base)?;
        self.pending = Some(Box::new(alloc, Pending { base, looked })?);
        Ok(())
    }
}
