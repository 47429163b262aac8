//! The record of a job: JCT.
ghost use Rattle.std.specs.Prelude.{◌≤◌, length};
ghost use Rattle.cb_chain.specs.Composed.{IsJct, class_entries};
ghost use Rattle.cb_chain.specs.Entries.{AreEntered};
ghost use Rattle.cb_chain.specs.Written.{HoldsJobs};

use crate::head::headed;
use crate::texts::job_tests;
use cb_meaning::layout::Layout;
use cb_records::jct;
use cb_records::rec::Rec;
use jcl_plan::plan::JobPlan;

/// Writes the number of the layout, the job's classes and its priority.
fn write_classes(rec: &mut Rec, number: u8, plan: &JobPlan)
    ensures { AreEntered rec.old (class_entries number plan.now) rec.new }
{
    rec.write_byte(jct::LAYOUT, number);
    rec.write_byte(jct::CLASS, plan.class);
    rec.write_byte(jct::PRIORITY, plan.priority);
    rec.write_byte(jct::MESSAGE_CLASS, plan.message_class);
}

/// The record of a job, with the number of its first step's record.
pub(crate) fn jct_record(layout: &Layout, job: u16, plan: &JobPlan, first_step: u32) -> Rec
    requires holds { HoldsJobs layout.now }
    requires steps { length plan.now.steps ≤ layout.now.most_steps }
    requires first_step { first_step ≤ layout.now.most_records }
    ensures { IsJct layout.now job plan.now first_step result }
{
    let mut rec = headed(1, job);
    write_classes(&mut rec, layout.number, plan);
    rec.write_number(layout.first_step, first_step);
    rec.write_number(layout.steps, plan.steps.len() as u32);
    rec.write_text(jct::NAME, plan.name.as_slice());
    rec.write_byte(jct::TEST_COUNT, plan.tests.len() as u8);
    rec.write_part(jct::TESTS, &job_tests(&plan.tests));
    rec
}
