//! Records in use, lent without a second look at their kinds. What stands in their links is the store's own.
ghost use Rattle.std.specs.Prelude.{◌≡◌};
ghost use Rattle.cb_meaning.specs.Layouts.{HasOwnFields};
ghost use Rattle.cb_meaning.specs.Spelled.{card_record, jct, jfcb, sct, siot};
ghost use Rattle.cb_read.specs.Kinds.{IsOfKind};
ghost use Rattle.job_records.specs.Recorded.{ShowsCards, ShowsJct, ShowsJfcb, ShowsSct, ShowsSiot};

use cb_queue::store::RecordStore;
use cb_records::cards::CardsView;
use cb_records::jct::JctView;
use cb_records::jfcb::JfcbView;
use cb_records::sct::SctView;
use cb_records::siot::SiotView;

/// The JCT of this number.
pub(crate) fn jct_of<'a, S: RecordStore>(store: &'a S, n: u32) -> JctView<'a>
    requires own { HasOwnFields (S.queue store.now).layout }
    requires kind { IsOfKind (S.queue store.now) jct n }
    ensures layout { result.layout.now ≡ (S.queue store.now).layout }
    ensures fields { ShowsJct (S.queue store.now) n result.bytes.now }
{
    let layout = store.layout();
    match store.get(n) {
        Some(bytes) => JctView { bytes, layout },
        None => unreachable!(),
    }
}

/// The SCT of this number.
pub(crate) fn sct_of<'a, S: RecordStore>(store: &'a S, n: u32) -> SctView<'a>
    requires own { HasOwnFields (S.queue store.now).layout }
    requires kind { IsOfKind (S.queue store.now) sct n }
    ensures layout { result.layout.now ≡ (S.queue store.now).layout }
    ensures fields { ShowsSct (S.queue store.now) n result.bytes.now }
{
    let layout = store.layout();
    match store.get(n) {
        Some(bytes) => SctView { bytes, layout },
        None => unreachable!(),
    }
}

/// The SIOT of this number.
pub(crate) fn siot_of<'a, S: RecordStore>(store: &'a S, n: u32) -> SiotView<'a>
    requires own { HasOwnFields (S.queue store.now).layout }
    requires kind { IsOfKind (S.queue store.now) siot n }
    ensures layout { result.layout.now ≡ (S.queue store.now).layout }
    ensures fields { ShowsSiot (S.queue store.now) n result.bytes.now }
{
    let layout = store.layout();
    match store.get(n) {
        Some(bytes) => SiotView { bytes, layout },
        None => unreachable!(),
    }
}

/// The JFCB of this number.
pub(crate) fn jfcb_of<'a, S: RecordStore>(store: &'a S, n: u32) -> JfcbView<'a>
    requires own { HasOwnFields (S.queue store.now).layout }
    requires kind { IsOfKind (S.queue store.now) jfcb n }
    ensures layout { result.layout.now ≡ (S.queue store.now).layout }
    ensures fields { ShowsJfcb (S.queue store.now) n result.bytes.now }
{
    let layout = store.layout();
    match store.get(n) {
        Some(bytes) => JfcbView { bytes, layout },
        None => unreachable!(),
    }
}

/// The record of cards of this number.
pub(crate) fn cards_of<'a, S: RecordStore>(store: &'a S, n: u32) -> CardsView<'a>
    requires own { HasOwnFields (S.queue store.now).layout }
    requires kind { IsOfKind (S.queue store.now) card_record n }
    ensures layout { result.layout.now ≡ (S.queue store.now).layout }
    ensures fields { ShowsCards (S.queue store.now) n result.bytes.now }
{
    let layout = store.layout();
    match store.get(n) {
        Some(bytes) => CardsView { bytes, layout },
        None => unreachable!(),
    }
}
