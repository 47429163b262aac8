//! A job that a store of records holds.
ghost use Rattle.std.specs.Prelude.{◌≡◌, ◌+◌, ◌<◌, ◌≤◌, ℕ, length};
ghost use Rattle.cb_meaning.specs.Spelled.{jfcb};
ghost use Rattle.cb_queue.specs.RecordQueues.{RecordQueue};
ghost use Rattle.cb_read.specs.Chains.{plan_of};
ghost use Rattle.cb_read.specs.Kinds.{IsOfKind};
ghost use Rattle.job_records.specs.Fields.{fields_of_siot};
ghost use Rattle.job_records.specs.Recorded.{CanBeRead, IsAtHand, IsCardPlace, ShowsJct, ShowsJfcb, ShowsSct, ShowsSiot, first_below, sct_at, siot_at};
ghost use Rattle.job_text.specs.Places.{dd_at, step_at};
ghost use Rattle.job_text.specs.Texts.{cards_in};

use crate::cards::{CardPlace, card_there, find_card};
use crate::lent::{jct_of, jfcb_of, sct_of, siot_of};
use crate::places::{dd_behind, step_behind};
use crate::said::{
    continues, disp_said, is_named, put_said, set_passes, source_said, step_said, take_other_said,
    take_set_said, test_said,
};
use cb_queue::store::RecordStore;
use cb_read::names::{name_read, name8};
use cb_read::tests_read::{TestsOf, tests_read};
use cb_records::jct::JctView;
use cb_records::jfcb::JfcbView;
use cb_records::sct::SctView;
use cb_records::siot::{SiotView, is_set};
use jcl_plan::plan::{Record, Test, Tests};
use jname_core::name8::Name8;
use job_text::text::JobText;
use job_text::texts::{DispText, PutText, SourceText, StepText, TakeText};

/// Numbers of records that need not be looked for: the SCT of a step, the SIOT of one of its DDs, and a record of that DD's cards; 0 is none. Steps, DDs
/// and cards count from 0.
#[derive(Clone, Copy)]
pub struct AtHand {
    pub step: usize,
    pub sct: u32,
    pub dd: usize,
    pub siot: u32,
    /// The first card of the record of cards.
    pub card: usize,
    pub cards: u32,
}

/// No record is at hand, whatever the job.
pub fn none_at_hand() -> AtHand
    ensures at_hand { (q : RecordQueue) (n : ℕ) → IsAtHand q n result }
    ensures sct { result.sct ≡ 0 }
    ensures siot { result.siot ≡ 0 }
    ensures cards { result.cards ≡ 0 }
{
    AtHand {
        step: 0,
        sct: 0,
        dd: 0,
        siot: 0,
        card: 0,
        cards: 0,
    }
}

/// The job whose JCT has this number in a store. What comes after a record at hand is found from there.
#[derive(Clone, Copy)]
pub struct JobRecords<'a, S> {
    pub store: &'a S,
    pub jct: u32,
    pub at_hand: AtHand,
}

impl<'a, S: RecordStore> JobRecords<'a, S> {
    fn head(&self) -> JctView<'a>
        requires { CanBeRead (S.queue self.now.store.now) self.now.jct self.now.at_hand }
        ensures layout { result.layout.now ≡ (S.queue self.now.store.now).layout }
        ensures fields { ShowsJct (S.queue self.now.store.now) self.now.jct result.bytes.now }
    {
        jct_of(self.store, self.jct)
    }

    fn sct_number(&self, step: usize) -> u32
        requires reads { CanBeRead (S.queue self.now.store.now) self.now.jct self.now.at_hand }
        requires step { step < length (plan_of (S.queue self.now.store.now) self.now.jct).steps }
        ensures { result ≡ sct_at (S.queue self.now.store.now) self.now.jct step }
    {
        let hand = self.at_hand;
        if hand.sct != 0 && hand.step <= step {
            return step_behind(self.store, hand.sct, step - hand.step);
        }
        step_behind(self.store, self.head().first_step(), step)
    }

    fn sct(&self, step: usize) -> SctView<'a>
        requires reads { CanBeRead (S.queue self.now.store.now) self.now.jct self.now.at_hand }
        requires step { step < length (plan_of (S.queue self.now.store.now) self.now.jct).steps }
        ensures layout { result.layout.now ≡ (S.queue self.now.store.now).layout }
        ensures fields { ShowsSct (S.queue self.now.store.now) (sct_at (S.queue self.now.store.now) self.now.jct step) result.bytes.now }
    {
        sct_of(self.store, self.sct_number(step))
    }

    fn siot_number(&self, step: usize, dd: usize) -> u32
        requires reads { CanBeRead (S.queue self.now.store.now) self.now.jct self.now.at_hand }
        requires step { step < length (plan_of (S.queue self.now.store.now) self.now.jct).steps }
        requires dd { dd < length (step_at (plan_of (S.queue self.now.store.now) self.now.jct).steps step).dds }
        ensures { result ≡ siot_at (S.queue self.now.store.now) self.now.jct step dd }
    {
        let hand = self.at_hand;
        if hand.siot != 0 && hand.step == step && hand.dd <= dd {
            return dd_behind(self.store, hand.siot, dd - hand.dd);
        }
        dd_behind(self.store, self.sct(step).first_dd(), dd)
    }

    fn siot(&self, step: usize, dd: usize) -> SiotView<'a>
        requires reads { CanBeRead (S.queue self.now.store.now) self.now.jct self.now.at_hand }
        requires step { step < length (plan_of (S.queue self.now.store.now) self.now.jct).steps }
        requires dd { dd < length (step_at (plan_of (S.queue self.now.store.now) self.now.jct).steps step).dds }
        ensures layout { result.layout.now ≡ (S.queue self.now.store.now).layout }
        ensures fields { ShowsSiot (S.queue self.now.store.now) (siot_at (S.queue self.now.store.now) self.now.jct step dd) result.bytes.now }
    {
        siot_of(self.store, self.siot_number(step, dd))
    }

    /// The JFCB of a DD that is a set, of its SIOT.
    fn jfcb(&self, s: &SiotView<'_>) -> JfcbView<'a>
        requires reads { CanBeRead (S.queue self.now.store.now) self.now.jct self.now.at_hand }
        requires kind { IsOfKind (S.queue self.now.store.now) jfcb (fields_of_siot s.now.layout.now s.now.bytes.now).below }
        ensures layout { result.layout.now ≡ (S.queue self.now.store.now).layout }
        ensures fields { ShowsJfcb (S.queue self.now.store.now) (fields_of_siot s.now.layout.now s.now.bytes.now).below result.bytes.now }
    {
        jfcb_of(self.store, s.below())
    }

    /// The SCT of a step is at hand.
    pub fn step_at_hand(&self, step: usize) -> AtHand
        requires reads { CanBeRead (S.queue self.now.store.now) self.now.jct self.now.at_hand }
        requires step { step < length (plan_of (S.queue self.now.store.now) self.now.jct).steps }
        ensures is { IsAtHand (S.queue self.now.store.now) self.now.jct result }
        ensures step { result.step ≡ step }
        ensures found { result.sct ≡ sct_at (S.queue self.now.store.now) self.now.jct step }
    {
        AtHand {
            step,
            sct: self.sct_number(step),
            ..none_at_hand()
        }
    }

    /// The SCT of a step and the SIOT of one of its DDs are at hand.
    pub fn dd_at_hand(&self, step: usize, dd: usize) -> AtHand
        requires reads { CanBeRead (S.queue self.now.store.now) self.now.jct self.now.at_hand }
        requires step { step < length (plan_of (S.queue self.now.store.now) self.now.jct).steps }
        requires dd { dd < length (step_at (plan_of (S.queue self.now.store.now) self.now.jct).steps step).dds }
        ensures is { IsAtHand (S.queue self.now.store.now) self.now.jct result }
        ensures step { result.step ≡ step }
        ensures dd { result.dd ≡ dd }
        ensures found { result.siot ≡ siot_at (S.queue self.now.store.now) self.now.jct step dd }
    {
        let sct = self.sct_number(step);
        let siot = self.siot_number(step, dd);
        AtHand {
            step,
            sct,
            dd,
            siot,
            ..none_at_hand()
        }
    }

    fn card_place(&self, step: usize, dd: usize, card: usize) -> CardPlace
        requires reads { CanBeRead (S.queue self.now.store.now) self.now.jct self.now.at_hand }
        requires step { step < length (plan_of (S.queue self.now.store.now) self.now.jct).steps }
        requires dd { dd < length (step_at (plan_of (S.queue self.now.store.now) self.now.jct).steps step).dds }
        requires card { card < length (cards_in (dd_at (step_at (plan_of (S.queue self.now.store.now) self.now.jct).steps step).dds dd).kind) }
        ensures { IsCardPlace (S.queue self.now.store.now) (first_below (S.queue self.now.store.now) self.now.jct step dd) card result }
    {
        let hand = self.at_hand;
        if hand.cards != 0 && hand.step == step && hand.dd == dd && hand.card <= card {
            return find_card(self.store, hand.cards, card - hand.card);
        }
        find_card(self.store, self.siot(step, dd).below(), card)
    }

    /// The SCT of a step, the SIOT of one of its DDs, and the record of one of its cards are at hand.
    pub fn card_at_hand(&self, step: usize, dd: usize, card: usize) -> AtHand
        requires reads { CanBeRead (S.queue self.now.store.now) self.now.jct self.now.at_hand }
        requires step { step < length (plan_of (S.queue self.now.store.now) self.now.jct).steps }
        requires dd { dd < length (step_at (plan_of (S.queue self.now.store.now) self.now.jct).steps step).dds }
        requires card { card < length (cards_in (dd_at (step_at (plan_of (S.queue self.now.store.now) self.now.jct).steps step).dds dd).kind) }
        ensures is { IsAtHand (S.queue self.now.store.now) self.now.jct result }
        ensures step { result.step ≡ step }
        ensures dd { result.dd ≡ dd }
        ensures found { (result.card ≤ card) × (card ≤ result.card + 1) }
    {
        let hand = self.dd_at_hand(step, dd);
        let at = self.card_place(step, dd, card);
        AtHand {
            card: card - at.place,
            cards: at.n,
            ..hand
        }
    }

    /// The tests of the JOB statement.
    pub fn job_tests(&self) -> Tests
        requires { CanBeRead (S.queue self.now.store.now) self.now.jct self.now.at_hand }
        ensures { result ≡ (plan_of (S.queue self.now.store.now) self.now.jct).tests }
    {
        let head = self.head();
        tests_read(TestsOf::Job, head.tests(), head.test_count())
    }

    /// The class of the job's listing.
    pub fn message_class(&self) -> u8
        requires { CanBeRead (S.queue self.now.store.now) self.now.jct self.now.at_hand }
        ensures { result ≡ (plan_of (S.queue self.now.store.now) self.now.jct).message_class }
    {
        self.head().message_class()
    }
}

impl<'a, S: RecordStore> JobText for JobRecords<'a, S> {
    ghost plan = { λ v. plan_of (S.queue v.store.now) v.jct };

    ghost reads = { λ v. CanBeRead (S.queue v.store.now) v.jct v.at_hand };

    fn step_count(&self) -> usize {
        self.head().steps() as usize
    }

    fn step(&self, step: usize) -> StepText {
        step_said(&self.sct(step))
    }

    fn program(&self, step: usize) -> Name8 {
        name8(self.sct(step).program())
    }

    fn test_count(&self, step: usize) -> usize {
        usize::from(self.sct(step).test_count())
    }

    fn test(&self, step: usize, test: usize) -> Test {
        test_said(&self.sct(step), test)
    }

    fn dd_count(&self, step: usize) -> usize {
        self.sct(step).dds() as usize
    }

    fn dd_name(&self, step: usize, dd: usize) -> Option<Name8> {
        name_read(self.siot(step, dd).name())
    }

    fn dd_named(&self, step: usize, name: &Name8) -> Option<usize> {
        let sct = self.sct(step);
        let count = sct.dds() as usize;
        let mut n = sct.first_dd();
        let mut dd = 0;
        while dd < count {
            let siot = siot_of(self.store, n);
            if is_named(&siot, name) {
                return Some(dd);
            }
            n = siot.next();
            dd += 1;
        }
        None
    }

    fn continues(&self, step: usize, dd: usize) -> bool {
        continues(&self.siot(step, dd))
    }

    fn members_end(&self, step: usize, dd: usize) -> usize {
        let count = self.dd_count(step);
        let mut n = self.siot(step, dd).next();
        let mut end = dd + 1;
        while end < count {
            let siot = siot_of(self.store, n);
            if !continues(&siot) {
                return end;
            }
            n = siot.next();
            end += 1;
        }
        end
    }

    fn take_text(&self, step: usize, dd: usize) -> TakeText {
        let siot = self.siot(step, dd);
        if is_set(siot.bytes) {
            return TakeText::Set(take_set_said(&siot, &self.jfcb(&siot)));
        }
        take_other_said(&siot)
    }

    fn put_text(&self, step: usize, dd: usize) -> PutText {
        put_said(&self.siot(step, dd))
    }

    fn disp_text(&self, step: usize, dd: usize) -> DispText {
        disp_said(&self.siot(step, dd))
    }

    fn source(&self, step: usize, dd: usize) -> SourceText {
        source_said(&self.siot(step, dd))
    }

    fn passes(&self, step: usize, dd: usize) -> bool {
        let siot = self.siot(step, dd);
        if is_set(siot.bytes) {
            return set_passes(&siot, &self.jfcb(&siot));
        }
        false
    }

    fn card(&self, step: usize, dd: usize, card: usize) -> Record {
        card_there(self.store, self.card_place(step, dd, card))
    }
}
