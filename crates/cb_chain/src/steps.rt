//! The steps of a job are written, each with its DDs.
ghost use Rattle.std.specs.Prelude.{◌≡◌, ◌≢◌, ◌≤◌, ◌+◌, [], ◌∷◌, All, IsTrue, length};
ghost use Rattle.cb_meaning.specs.Writable.{most_dds};
ghost use Rattle.cb_chain.specs.Taking.{IsReady, IsTaken, Links, OfSteps, StepsFrom, Writes, dds_needed, steps_needed};
ghost use Rattle.cb_chain.specs.Written.{HoldsDds, HoldsSteps};

use crate::dds::write_dds;
use crate::step_record::sct_record;
use crate::take::{is_more, take_if};
use cb_meaning::layout::Layout;
use cb_queue::store::RecordStore;
use jcl_plan::plan::StepPlan;

/// Writes a step into a record that was taken, and its DDs into free ones, and takes the next one where more steps follow. Tells its number.
fn write_step<S: RecordStore>(
    store: &mut S,
    layout: &Layout,
    job: u16,
    here: u32,
    step: &StepPlan,
    more: bool,
) -> u32
    requires owner { job ≢ 0 }
    requires ready { IsReady (S.queue store.old) }
    requires layout { layout.now ≡ (S.queue store.old).layout }
    requires taken { IsTaken job (S.queue store.old) here }
    requires few { length step.now.dds ≤ most_dds }
    requires days { HoldsDds layout.now step.now.dds }
    requires room { S.lacking store.old + dds_needed step.now.dds ≤ length (S.queue store.old).free }
    requires next { IsTrue more → S.lacking store.old + dds_needed step.now.dds + 1 ≤ length (S.queue store.old).free }
    ensures value { Links job (dds_needed step.now.dds) (StepsFrom layout.now job) (step.now ∷ []) more here (S.queue store.old) (S.queue store.new) result }
    ensures room { S.lacking store.new ≡ S.lacking store.old }
{
    let first_dd = write_dds(store, layout, job, step.dds.as_slice());
    let next = take_if(store, job, more);
    store.put(here, &sct_record(layout, job, step, first_dd, next));
    next
}

/// Writes steps into free records. Tells the number of the first, 0 without any step.
pub(crate) fn write_steps<S: RecordStore>(
    store: &mut S,
    layout: &Layout,
    job: u16,
    steps: &[StepPlan],
) -> u32
    requires owner { job ≢ 0 }
    requires ready { IsReady (S.queue store.old) }
    requires layout { layout.now ≡ (S.queue store.old).layout }
    requires few { All (λ step. length step.dds ≤ most_dds) steps.now }
    requires days { HoldsSteps layout.now steps.now }
    requires room { S.lacking store.old + steps_needed steps.now ≤ length (S.queue store.old).free }
    ensures value { Writes (steps_needed steps.now) (OfSteps layout.now job steps.now) (S.queue store.old) (S.queue store.new) result }
    ensures room { S.lacking store.new ≡ S.lacking store.old }
{
    let first = take_if(store, job, is_more(steps));
    let mut here = first;
    let mut rest = steps;
    while let Some((step, behind)) = rest.split_first() {
        here = write_step(store, layout, job, here, step, is_more(behind));
        rest = behind;
    }
    first
}
