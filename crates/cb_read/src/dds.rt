//! The DDs of a step.
ghost use Rattle.std.specs.Prelude.{◌≡◌, ◌+◌, All, IfOk};
ghost use Rattle.cb_read.specs.Chains.{dd_of, dds_from, kind_of};
ghost use Rattle.cb_read.specs.Kinds.{AreDds, IsBelowOfKind};
ghost use Rattle.cb_read.specs.Ranges.{IsDdInRange, IsKindInRange};

use crate::cards::cards_read;
use crate::names::name_read;
use crate::records::record;
use crate::set::set_read;
use cb_queue::store::RecordStore;
use cb_records::jfcb::JfcbView;
use cb_records::rec::Rec;
use cb_records::siot::{SiotView, has_cards, is_set, is_sysout};
use cb_walk::arrival::bring;
use jcl_plan::plan::{DdKind, DdPlan};
use plain::listed::Listed;
use plain::shared::Shared;
use std::alloc::{AllocError, Global};

/// What a DD is, by its SIOT.
fn kind_read<S: RecordStore>(
    alloc: Global,
    store: &S,
    s: &SiotView<'_>,
) -> Result<DdKind, AllocError>
    requires layout { s.now.layout.now ≡ (S.queue store.now).layout }
    requires range { IsKindInRange (kind_of (S.queue store.now) s.now.bytes.now) }
    requires kinds { IsBelowOfKind (S.queue store.now) s.now.bytes.now }
    ensures { IfOk result (λ kind. kind ≡ kind_of (S.queue store.now) s.now.bytes.now) }
{
    if is_set(s.bytes) {
        let bytes = record(store, s.below());
        let jfcb = JfcbView {
            bytes: &bytes,
            layout: s.layout,
        };
        Ok(DdKind::Set(set_read(s, &jfcb)))
    } else if is_sysout(s.bytes) {
        Ok(DdKind::Sysout(s.class()))
    } else if has_cards(s.bytes) {
        let cards = cards_read(alloc, store, s.below())?;
        Ok(DdKind::Cards(Shared::new(alloc, cards)?))
    } else {
        Ok(DdKind::Dummy)
    }
}

/// A DD, of its SIOT.
fn dd_read<S: RecordStore>(alloc: Global, store: &S, s: &SiotView<'_>) -> Result<DdPlan, AllocError>
    requires layout { s.now.layout.now ≡ (S.queue store.now).layout }
    requires range { IsDdInRange (dd_of (S.queue store.now) s.now.bytes.now) }
    requires kinds { IsBelowOfKind (S.queue store.now) s.now.bytes.now }
    ensures { IfOk result (λ dd. dd ≡ dd_of (S.queue store.now) s.now.bytes.now) }
{
    Ok(DdPlan {
        name: name_read(s.name()),
        kind: kind_read(alloc, store, s)?,
    })
}

/// The DDs of the records from one on.
pub(crate) fn dds_read<S: RecordStore>(
    alloc: Global,
    store: &S,
    first: u32,
) -> Result<Listed<DdPlan>, AllocError>
    requires range { All IsDdInRange (dds_from (S.queue store.now) first) }
    requires kinds { AreDds (S.queue store.now) ((S.queue store.now).layout.most_records + 1) first }
    ensures { IfOk result (λ dds. dds ≡ dds_from (S.queue store.now) first) }
{
    let layout = store.layout();
    let mut dds = Listed::empty(alloc);
    let mut r = Rec::zeroed();
    let mut n = first;
    let mut left = u64::from(layout.most_records) + 1;
    while left > 0 {
        if n == 0 {
            return Ok(dds);
        }
        bring(store, n, &mut r);
        let view = SiotView { bytes: &r, layout };
        dds.push(dd_read(alloc, store, &view)?)?;
        n = view.next();
        left -= 1;
    }
    Ok(dds)
}
