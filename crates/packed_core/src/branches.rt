//! Where a step that ended leads: the views that do not stand behind it yet.
ghost use Rattle.std.specs.Prelude.{◌≡◌, ◌++◌, All, IfOk, OnOk, false, is_some};
ghost use Rattle.packed_core.specs.Classes.{IsMask, codes_of, tests_before};
ghost use Rattle.packed_core.specs.Moving.{AreMovesByAbend, AreMovesByCode, LeadsTo, TellsOneCode, listed};
ghost use Rattle.packed_core.specs.Rooms.{room_at};
ghost use Rattle.packed_core.specs.Ways.{AreLooked, AreOffered, AreWays, IsLookedAt, Stands, codes_by};
ghost use Rattle.packed_core.specs.Words.{IsRow};

use crate::classes::Class;
use crate::domain::PackedDomain;
use crate::index::hash_of;
use crate::job::Job;
use crate::view::PackedView;
use crate::views::PackedViews;
use crate::ways::{Looked, Ways};
use crate::words::{joined, mark};
use jcl_plan::outcome::{Abend, Code, Outcome};
use std::alloc::{AllocError, Global};
use std::marker::PhantomData;
use view_domain::crossed::Move;

/// Moves to views, and the classes that were looked at.
#[derive(Drop)]
pub struct Offer<V: Drop> {
    pub moves: Vec<Move<V>>,
    pub looked: Vec<Looked>,
}

/// The move to the view of a row.
fn move_of<J: Job + Drop>(
    outcome: Outcome,
    row: Vec<u64>,
    behind: &PackedViews<'_, J>,
) -> Move<PackedView<J>>
    requires row { IsRow (room_at J.plan behind.now.part) row.items }
    ensures outcome { result.outcome ≡ outcome }
    ensures row { result.view.row ≡ row }
{
    Move {
        outcome,
        view: PackedView {
            part: behind.part,
            row,
            job: PhantomData,
        },
    }
}

/// The move to the view of a row, but where it stands.
fn move_to<J: Job + Drop>(
    outcome: Outcome,
    row: Vec<u64>,
    behind: &PackedViews<'_, J>,
) -> Option<Move<PackedView<J>>>
    requires row { IsRow (room_at J.plan behind.now.part) row.items }
    ensures leads { LeadsTo (λ v. v.row.items) behind.now.rows outcome row.items result }
{
    let hash = hash_of(row.as_slice());
    if behind.rows.has(row.as_slice(), hash) {
        return None;
    }
    Some(move_of(outcome, row, behind))
}

/// Puts a move behind others, where there is one.
fn push_told<V: Drop>(moves: &mut Vec<Move<V>>, told: Option<Move<V>>) -> Result<(), AllocError>
    ensures pushed { OnOk result (moves.new.items ≡ moves.old.items ++ listed told) }
{
    match told {
        Some(told) => {
            moves.push(told)?;
            Ok(())
        }
        None => Ok(()),
    }
}

/// Puts a class behind those that were looked at, but where nothing is told by it and its row has a note.
fn push_looked(
    looked: &mut Vec<Looked>,
    one: Looked,
    told: bool,
    notes: &[Option<usize>],
) -> Result<(), AllocError>
    ensures { OnOk result (IsLookedAt looked.old.items looked.new.items one told) }
{
    if !told && one.row < notes.len() && notes[one.row].is_some() {
        return Ok(());
    }
    looked.push(one)?;
    Ok(())
}

impl<'a, J: Job + Drop> PackedDomain<'a, J> {
    /// The move to the view of a scene behind a step that ended by one of these classes, but where it stands. So many were told before. It is told too
    /// which number its row has, or is to have.
    fn move_by_code(
        &self,
        alloc: Global,
        base: &[u64],
        class: &Class,
        told: usize,
        behind: &PackedViews<'_, J>,
    ) -> Result<(Option<Move<PackedView<J>>>, usize), AllocError>
        requires base { IsRow (room_at J.plan behind.now.part) base.now }
        requires class { IsMask behind.now.part (tests_before J.plan behind.now.part) (room_at J.plan behind.now.part) class.now.code class.now.mask.items }
        ensures tells { IfOk result (λ r. TellsOneCode (λ v. v.row.items) J.plan J.fixed.date behind.now base.now class.now.code r.0) }
        ensures stands { IfOk result (λ r. is_some r.0 ≡ false → Stands behind.now.rows base.now class.now) }
    {
        let mask = class.mask.as_slice();
        match behind.standing().find_joined(base, mask) {
            Some(number) => Ok((None, number)),
            None => {
                let row = joined(alloc, base, mask)?;
                let next = move_of(Outcome::Code(class.code), row, behind);
                let number = behind.standing().len().saturating_add(told);
                Ok((Some(next), number))
            }
        }
    }

    /// Moves to the views of a scene behind a step that ended by each of these classes, but for those that stand there.
    fn moves_by_code(
        &self,
        alloc: Global,
        base: &[u64],
        classes: &[Class],
        behind: &PackedViews<'_, J>,
    ) -> Result<Vec<Move<PackedView<J>>>, AllocError>
        requires base { IsRow (room_at J.plan behind.now.part) base.now }
        requires classes { All
            (λ c. IsMask behind.now.part (tests_before J.plan behind.now.part) (room_at J.plan behind.now.part) c.code c.mask.items) classes.now }
        ensures { IfOk result (λ moves. AreMovesByCode (λ v. v.row.items) J.plan J.fixed.date behind.now base.now (codes_of classes.now) moves.items) }
    {
        let mut moves = Vec::new(alloc);
        for class in classes {
            let (told, _row) = self.move_by_code(alloc, base, class, 0, behind)?;
            push_told(&mut moves, told)?;
        }
        Ok(moves)
    }

    /// The same, where only the classes of these numbers are looked at.
    fn moves_offered(
        &self,
        alloc: Global,
        base: &[u64],
        classes: &[Class],
        numbers: &[usize],
        notes: &[Option<usize>],
        behind: &PackedViews<'_, J>,
    ) -> Result<Offer<PackedView<J>>, AllocError>
        requires base { IsRow (room_at J.plan behind.now.part) base.now }
        requires classes { All
            (λ c. IsMask behind.now.part (tests_before J.plan behind.now.part) (room_at J.plan behind.now.part) c.code c.mask.items) classes.now }
        requires offered { AreOffered behind.now.rows classes.now base.now numbers.now }
        ensures moves { IfOk result (λ offer.
            AreMovesByCode (λ v. v.row.items) J.plan J.fixed.date behind.now base.now (codes_of classes.now) offer.moves.items) }
        ensures looked { IfOk result (λ offer. AreLooked behind.now.rows classes.now base.now offer.looked.items) }
    {
        let mut moves = Vec::new(alloc);
        let mut looked = Vec::new(alloc);
        for number in numbers {
            let class = &classes[*number];
            let (told, row) = self.move_by_code(alloc, base, class, moves.len(), behind)?;
            let one = Looked {
                class: *number,
                row,
            };
            push_looked(&mut looked, one, told.is_some(), notes)?;
            push_told(&mut moves, told)?;
        }
        Ok(Offer { moves, looked })
    }

    /// The same of the classes by which the step may end, but for those of which it is known that they lead to none that is new.
    fn leads_noted(
        &self,
        alloc: Global,
        ways: &mut Ways,
        base: &[u64],
        behind: &PackedViews<'_, J>,
    ) -> Result<Vec<Move<PackedView<J>>>, AllocError>
        requires ways { AreWays J.plan behind.now.part behind.now.rows ways.old }
        requires base { IsRow (room_at J.plan behind.now.part) base.now }
        ensures ways { OnOk result (AreWays J.plan behind.now.part behind.now.rows ways.new) }
        ensures classes { ways.new.classes ≡ ways.old.classes }
        ensures moves { IfOk result (λ moves. AreMovesByCode (λ v. v.row.items) J.plan J.fixed.date behind.now base.now (codes_by ways.old) moves.items) }
    {
        let rows = behind.standing();
        ways.settle(rows)?;
        let numbers = ways.offered(rows, base);
        let list = ways.classes.list.as_slice();
        let notes = ways.notes.as_slice();
        let offer = self.moves_offered(alloc, base, list, numbers, notes, behind)?;
        let Offer { moves, looked } = offer;
        ways.keep_pending(alloc, base, looked)?;
        Ok(moves)
    }

    /// Moves to the views of a scene behind a step that ended by a code, but for those that stand there.
    pub(crate) fn leads_by_code(
        &self,
        alloc: Global,
        ways: &mut Ways,
        base: &[u64],
        behind: &PackedViews<'_, J>,
    ) -> Result<Vec<Move<PackedView<J>>>, AllocError>
        requires ways { AreWays J.plan behind.now.part behind.now.rows ways.old }
        requires base { IsRow (room_at J.plan behind.now.part) base.now }
        ensures ways { OnOk result (AreWays J.plan behind.now.part behind.now.rows ways.new) }
        ensures classes { ways.new.classes ≡ ways.old.classes }
        ensures moves { IfOk result (λ moves. AreMovesByCode (λ v. v.row.items) J.plan J.fixed.date behind.now base.now (codes_by ways.old) moves.items) }
    {
        if ways.are_few() {
            let list = ways.classes.list.as_slice();
            return self.moves_by_code(alloc, base, list, behind);
        }
        self.leads_noted(alloc, ways, base, behind)
    }

    /// The move to the view of a scene behind a step that ended by an ABEND, but where it stands there.
    pub(crate) fn moves_by_abend(
        &self,
        alloc: Global,
        base: Vec<u64>,
        behind: &PackedViews<'_, J>,
    ) -> Result<Vec<Move<PackedView<J>>>, AllocError>
        requires base { IsRow (room_at J.plan behind.now.part) base.items }
        ensures { IfOk result (λ moves. AreMovesByAbend (λ v. v.row.items) J.plan J.fixed.date behind.now base.items moves.items) }
    {
        let mut row = base;
        mark(row.as_mut_slice(), 0, true);
        let told = move_to(Outcome::Abend(Abend::User(Code::zero())), row, behind);
        let mut moves = Vec::new(alloc);
        push_told(&mut moves, told)?;
        Ok(moves)
    }
}
