//! The packed domain meets what a search asks of a way to keep views.
ghost use Rattle.std.specs.Prelude.{◌≡◌, ◌∷◌, [], IfOk, OnOk, false};
ghost use Rattle.jcl_meaning.specs.Stores.{store_of};
ghost use Rattle.view_domain.specs.Crossings.{view_at_start};
ghost use Rattle.packed_core.specs.Moving.{IsRowPut, all_shown};
ghost use Rattle.packed_core.specs.Rooms.{room_at};
ghost use Rattle.packed_core.specs.Starting.{IsBlank};

use crate::cross::{renumbered, view_of};
use crate::domain::PackedDomain;
use crate::index::hash_of;
use crate::job::Job;
use crate::masks::blank;
use crate::placed::nothing_known;
use crate::rooms::room_of;
use crate::row_list::RowList;
use crate::view::PackedView;
use crate::views::PackedViews;
use crate::words::number_in;
use std::alloc::{AllocError, Global};
use std::marker::PhantomData;
use view_domain::crossed::Crossed;
use view_domain::domain::ViewDomain;

impl<'a, J: Job + Drop> PackedDomain<'a, J> {
    /// No view, before a part.
    fn none_before(&self, alloc: Global, part: usize) -> PackedViews<'a, J>
        ensures none { result ≡ record { part = part; scenes = []; rows = [] } }
    {
        PackedViews {
            part,
            room: room_of(self.plain.plan, part),
            entries: Vec::new(alloc),
            sight: None,
            from: None,
            known: nothing_known(alloc),
            rows: RowList::none(alloc),
            ways: None,
            job: PhantomData,
        }
    }

    /// A row before the part of these views without bits.
    fn blank_row(&self, alloc: Global, views: &PackedViews<'a, J>) -> Result<Vec<u64>, AllocError>
        ensures blank { IfOk result (λ row. IsBlank (room_at J.plan views.now.part) row.items) }
    {
        blank(alloc, views.room)
    }

    /// Puts a view that is told before the same part among these, and says whether it stood there.
    fn put(
        &self,
        alloc: Global,
        views: &mut PackedViews<'a, J>,
        view: PackedView<J>,
    ) -> Result<bool, AllocError>
        ensures put { IfOk result (λ stood. IsRowPut J.plan J.fixed.date views.old view.row.items stood views.new) }
        ensures scenes { OnOk result (views.new.scenes ≡ views.old.scenes) }
        ensures part { OnOk result (views.new.part ≡ views.old.part) }
    {
        let PackedView { part, row, job: _ } = view;
        let words = row.as_slice();
        let number = number_in(words);
        if part != views.part || number >= views.entries.len() {
            return Err(AllocError);
        }
        let hash = hash_of(words);
        if views.rows.has(words, hash) {
            return Ok(true);
        }
        views.rows.push(alloc, words, hash)?;
        Ok(false)
    }

    /// The view before the first step.
    fn first(&self, alloc: Global) -> Result<PackedViews<'a, J>, AllocError>
        ensures first { IfOk
            result
            (λ views. all_shown J.plan J.fixed.date views ≡ view_at_start J.plan J.fixed.date (store_of self.now.plain.store.now) ∷ []) }
        ensures part { IfOk result (λ views. views.part ≡ 0) }
    {
        let mut views = self.none_before(alloc, 0);
        let scene = self.plain.first_scene(alloc)?;
        let number = self.put_scene(&mut views, &scene, 0)?;
        let row = renumbered(self.blank_row(alloc, &views)?, number);
        self.put(alloc, &mut views, view_of(0, row))?;
        Ok(views)
    }
}

impl<'a, J: Job + Drop> ViewDomain for PackedDomain<'a, J> {
    ghost use Rattle.std.specs.Prelude.{map};
    ghost use Rattle.disp_core.specs.Courses.{fixed_by};
    ghost use Rattle.jcl_meaning.specs.Stores.{store_of};
    ghost use Rattle.packed_core.specs.Shown.{row_shown};

    type View = PackedView<J>;

    type Views = PackedViews<'a, J>;

    ghost plan = { λ d. d.plain.plan.now };

    ghost fixed = { λ d. fixed_by d.plain.given };

    ghost store = { λ d. store_of d.plain.store.now };

    ghost members = { λ d views. map (row_shown d.plain.plan.now d.plain.given.date views.part views.scenes) views.rows };

    ghost meaning = { λ d views view. row_shown d.plain.plan.now d.plain.given.date views.part views.scenes view.row.items };

    ghost stands = { λ d views. views.part };

    fn start(&self, alloc: Global) -> Result<PackedViews<'a, J>, AllocError> {
        self.first(alloc)
    }

    fn none(&self, alloc: Global, part: usize) -> Result<PackedViews<'a, J>, AllocError> {
        Ok(self.none_before(alloc, part))
    }

    fn transfer(
        &self,
        alloc: Global,
        part: usize,
        before: &mut PackedViews<'a, J>,
        number: usize,
        behind: &mut PackedViews<'a, J>,
    ) -> Result<Crossed<PackedView<J>>, AllocError> {
        let _behind = behind.part;
        let _part = part;
        self.cross(alloc, before, number, behind)
    }

    fn merge(
        &self,
        alloc: Global,
        behind: &mut PackedViews<'a, J>,
        view: PackedView<J>,
    ) -> Result<bool, AllocError> {
        self.put(alloc, behind, view)
    }
}
