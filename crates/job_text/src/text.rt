//! A job as its actions read it.
ghost use Rattle.std.specs.Prelude.{◌≡◌, ◌≤◌, ◌-◌, ◌<◌, drop, length, take};
ghost use Rattle.jcl_plan.specs.declared.plan.JobPlan.{JobPlan};
ghost use Rattle.jcl_meaning.specs.Plans.{passes};
ghost use Rattle.jcl_meaning.specs.Programs.{dd_of, is_continued, members_at};
ghost use Rattle.job_text.specs.Places.{card_at, dd_at, step_at, test_at};
ghost use Rattle.job_text.specs.Texts.{cards_in, disp_text, put_text, source_text, step_text, take_text};

use crate::texts::{DispText, PutText, SourceText, StepText, TakeText};
use jcl_plan::plan::{Record, Test};
use jname_core::name8::Name8;

/// A job, wherever it stands. It is asked by numbers, and answers by value. Steps, tests, DDs and cards count from 0.
pub trait JobText {
    /// The job.
    ghost plan: { Self → JobPlan };

    /// It can be read.
    ghost reads: { Self → Type 0 };

    /// How many steps it has.
    fn step_count(&self) -> usize
        requires { reads self.now }
        ensures { result ≡ length (plan self.now).steps };

    /// A step, but for its tests and its DDs.
    fn step(&self, step: usize) -> StepText
        requires reads { reads self.now }
        requires step { step < length (plan self.now).steps }
        ensures { result ≡ step_text (step_at (plan self.now).steps step) };

    /// The name of a step's program alone.
    fn program(&self, step: usize) -> Name8
        requires reads { reads self.now }
        requires step { step < length (plan self.now).steps }
        ensures { result ≡ (step_at (plan self.now).steps step).program };

    /// How many tests a step has.
    fn test_count(&self, step: usize) -> usize
        requires reads { reads self.now }
        requires step { step < length (plan self.now).steps }
        ensures { result ≡ length (step_at (plan self.now).steps step).tests.items };

    /// A test of a step.
    fn test(&self, step: usize, test: usize) -> Test
        requires reads { reads self.now }
        requires step { step < length (plan self.now).steps }
        requires test { test < length (step_at (plan self.now).steps step).tests.items }
        ensures { result ≡ test_at (step_at (plan self.now).steps step).tests.items test };

    /// How many DDs a step has.
    fn dd_count(&self, step: usize) -> usize
        requires reads { reads self.now }
        requires step { step < length (plan self.now).steps }
        ensures { result ≡ length (step_at (plan self.now).steps step).dds };

    /// The name of a DD, if it has one.
    fn dd_name(&self, step: usize, dd: usize) -> Option<Name8>
        requires reads { reads self.now }
        requires step { step < length (plan self.now).steps }
        requires dd { dd < length (step_at (plan self.now).steps step).dds }
        ensures { result ≡ (dd_at (step_at (plan self.now).steps step).dds dd).name };

    /// The first DD of a name in a step. DDs without a name have none.
    fn dd_named(&self, step: usize, name: &Name8) -> Option<usize>
        requires reads { reads self.now }
        requires step { step < length (plan self.now).steps }
        ensures { result ≡ dd_of (step_at (plan self.now).steps step).dds name.now };

    /// Whether a DD continues the concatenation of the one before.
    fn continues(&self, step: usize, dd: usize) -> bool
        requires reads { reads self.now }
        requires step { step < length (plan self.now).steps }
        requires dd { dd < length (step_at (plan self.now).steps step).dds }
        ensures { result ≡ is_continued (dd_at (step_at (plan self.now).steps step).dds dd).name };

    /// The first DD after this one that does not continue its concatenation, or the number of the step's DDs.
    fn members_end(&self, step: usize, dd: usize) -> usize
        requires reads { reads self.now }
        requires step { step < length (plan self.now).steps }
        requires dd { dd < length (step_at (plan self.now).steps step).dds }
        ensures members { take (result - dd) (drop dd (step_at (plan self.now).steps step).dds) ≡ members_at (drop dd (step_at (plan self.now).steps step).dds) }
        ensures within { (dd < result) × (result ≤ length (step_at (plan self.now).steps step).dds) };

    /// What the taking of a DD reads.
    fn take_text(&self, step: usize, dd: usize) -> TakeText
        requires reads { reads self.now }
        requires step { step < length (plan self.now).steps }
        requires dd { dd < length (step_at (plan self.now).steps step).dds }
        ensures { result ≡ take_text (dd_at (step_at (plan self.now).steps step).dds dd).kind };

    /// What a PUT to a DD reads.
    fn put_text(&self, step: usize, dd: usize) -> PutText
        requires reads { reads self.now }
        requires step { step < length (plan self.now).steps }
        requires dd { dd < length (step_at (plan self.now).steps step).dds }
        ensures { result ≡ put_text (dd_at (step_at (plan self.now).steps step).dds dd).kind };

    /// What the disposition of a DD reads, and the job's end.
    fn disp_text(&self, step: usize, dd: usize) -> DispText
        requires reads { reads self.now }
        requires step { step < length (plan self.now).steps }
        requires dd { dd < length (step_at (plan self.now).steps step).dds }
        ensures { result ≡ disp_text (dd_at (step_at (plan self.now).steps step).dds dd).kind };

    /// What a GET may read of a DD.
    fn source(&self, step: usize, dd: usize) -> SourceText
        requires reads { reads self.now }
        requires step { step < length (plan self.now).steps }
        requires dd { dd < length (step_at (plan self.now).steps step).dds }
        ensures { result ≡ source_text (dd_at (step_at (plan self.now).steps step).dds dd).kind };

    /// Whether a DD may pass the set that it takes.
    fn passes(&self, step: usize, dd: usize) -> bool
        requires reads { reads self.now }
        requires step { step < length (plan self.now).steps }
        requires dd { dd < length (step_at (plan self.now).steps step).dds }
        ensures { result ≡ passes (dd_at (step_at (plan self.now).steps step).dds dd).kind };

    /// A card of a DD.
    fn card(&self, step: usize, dd: usize, card: usize) -> Record
        requires reads { reads self.now }
        requires step { step < length (plan self.now).steps }
        requires dd { dd < length (step_at (plan self.now).steps step).dds }
        requires card { card < length (cards_in (dd_at (step_at (plan self.now).steps step).dds dd).kind) }
        ensures { result ≡ card_at (cards_in (dd_at (step_at (plan self.now).steps step).dds dd).kind) card };
}
