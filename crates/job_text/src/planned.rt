//! A job that stands in memory as its plan.
ghost use Rattle.std.specs.Prelude.{◌≡◌, ◌<◌, length};
ghost use Rattle.job_text.specs.Places.{card_at};
ghost use Rattle.job_text.specs.Texts.{cards_in};

use crate::dds::{dd_of, is_continued, members_end};
use crate::text::JobText;
use crate::texts::{
    DispText, PutText, SourceText, StepText, TakeText, disp_text, put_text, source_text, step_text,
    take_text,
};
use jcl_meaning::words::passes;
use jcl_plan::plan::{DdKind, JobPlan, Record, Test};
use jname_core::name8::Name8;

/// A card of a DD.
fn card_of(kind: &DdKind, card: usize) -> Record
    requires { card < length (cards_in kind.now) }
    ensures { result ≡ card_at (cards_in kind.now) card }
{
    match kind {
        DdKind::Cards(cards) => cards.as_slice()[card],
        DdKind::Sysout(_) => unreachable!(),
        DdKind::Dummy => unreachable!(),
        DdKind::Set(_) => unreachable!(),
    }
}

impl JobText for JobPlan {
    ghost plan = { λ p. p };

    ghost reads = { λ _. Unit {0} };

    fn step_count(&self) -> usize {
        self.steps.len()
    }

    fn step(&self, step: usize) -> StepText {
        step_text(&self.steps.as_slice()[step])
    }

    fn program(&self, step: usize) -> Name8 {
        self.steps.as_slice()[step].program
    }

    fn test_count(&self, step: usize) -> usize {
        self.steps.as_slice()[step].tests.len()
    }

    fn test(&self, step: usize, test: usize) -> Test {
        self.steps.as_slice()[step].tests.as_slice()[test]
    }

    fn dd_count(&self, step: usize) -> usize {
        self.steps.as_slice()[step].dds.len()
    }

    fn dd_name(&self, step: usize, dd: usize) -> Option<Name8> {
        self.steps.as_slice()[step].dds.as_slice()[dd].name
    }

    fn dd_named(&self, step: usize, name: &Name8) -> Option<usize> {
        dd_of(self.steps.as_slice()[step].dds.as_slice(), name)
    }

    fn continues(&self, step: usize, dd: usize) -> bool {
        is_continued(&self.steps.as_slice()[step].dds.as_slice()[dd])
    }

    fn members_end(&self, step: usize, dd: usize) -> usize {
        members_end(self.steps.as_slice()[step].dds.as_slice(), dd)
    }

    fn take_text(&self, step: usize, dd: usize) -> TakeText {
        take_text(&self.steps.as_slice()[step].dds.as_slice()[dd].kind)
    }

    fn put_text(&self, step: usize, dd: usize) -> PutText {
        put_text(&self.steps.as_slice()[step].dds.as_slice()[dd].kind)
    }

    fn disp_text(&self, step: usize, dd: usize) -> DispText {
        disp_text(&self.steps.as_slice()[step].dds.as_slice()[dd].kind)
    }

    fn source(&self, step: usize, dd: usize) -> SourceText {
        source_text(&self.steps.as_slice()[step].dds.as_slice()[dd].kind)
    }

    fn passes(&self, step: usize, dd: usize) -> bool {
        passes(&self.steps.as_slice()[step].dds.as_slice()[dd].kind)
    }

    fn card(&self, step: usize, dd: usize, card: usize) -> Record {
        card_of(&self.steps.as_slice()[step].dds.as_slice()[dd].kind, card)
    }
}
