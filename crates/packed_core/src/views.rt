//! Views as rows, and the scenes that they show.
use crate::entries::Entry;
use crate::job::Job;
use crate::placed::Known;
use crate::room::Room;
use crate::row_list::RowList;
use crate::sights::Sight;
use crate::ways::Ways;
use std::marker::{Model, PhantomData};

/// The views before a part: where their bits stand, the scenes that they show, each once and with what the job's end comes to on it, a row for each
/// view, and the ways that lead to them. A contract sees the part, the scenes and the rows.
#[derive(Drop)]
pub struct PackedViews<'a, J: Job> {
    pub(crate) part: usize,
    pub(crate) room: Room,
    pub(crate) entries: Vec<Entry<J>>,
    /// These scenes, if it was told that they stand here.
    pub(crate) sight: Option<Sight<'a, J>>,
    /// The scenes before the part in front, and where those stand here to which they lead.
    pub(crate) from: Option<Sight<'a, J>>,
    pub(crate) known: Known,
    pub(crate) rows: RowList,
    pub(crate) ways: Option<Ways>,
    pub(crate) job: PhantomData<J>,
}

impl<'a, J: Job> Model for PackedViews<'a, J> {
    ghost use Rattle.packed_core.specs.Entries.{scenes_of};
    ghost use Rattle.packed_core.specs.Views.{AreViews, Views};

    ghost Value = { Views };

    ghost view = { λ v. record { part = v.part; scenes = scenes_of v.entries.items; rows = v.rows } };

    ghost invariant = { λ v. AreViews J.plan J.fixed v.part v.room v.entries.items v.sight v.from v.known v.rows v.ways };
}
