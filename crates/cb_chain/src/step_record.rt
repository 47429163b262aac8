//! The record of a step: SCT.
ghost use Rattle.std.specs.Prelude.{◌≤◌, length};
ghost use Rattle.cb_meaning.specs.Writable.{most_dds};
ghost use Rattle.cb_chain.specs.Composed.{IsSct, name_entries};
ghost use Rattle.cb_chain.specs.Entries.{AreEntered};
ghost use Rattle.cb_chain.specs.Written.{HoldsJobs};

use crate::codes::after_abend_code;
use crate::head::headed;
use crate::texts::{name_text, step_tests};
use cb_meaning::layout::Layout;
use cb_records::rec::Rec;
use cb_records::sct;
use jcl_plan::plan::StepPlan;

/// Writes the names of a step, and its tests.
fn write_names(rec: &mut Rec, step: &StepPlan)
    ensures { AreEntered rec.old (name_entries step.now) rec.new }
{
    rec.write_text(sct::NAME, name_text(&step.name));
    rec.write_text(sct::PROCEDURE_STEP, name_text(&step.procedure_step));
    rec.write_text(sct::PROGRAM, step.program.as_slice());
    rec.write_part(sct::TESTS, &step_tests(&step.tests));
}

/// The record of a step, with the numbers of its first DD's record and of the next step's.
pub(crate) fn sct_record(
    layout: &Layout,
    job: u16,
    step: &StepPlan,
    first_dd: u32,
    next: u32,
) -> Rec
    requires holds { HoldsJobs layout.now }
    requires dds { length step.now.dds ≤ most_dds }
    requires first_dd { first_dd ≤ layout.now.most_records }
    requires next { next ≤ layout.now.most_records }
    ensures { IsSct layout.now job step.now first_dd next result }
{
    let mut rec = headed(2, job);
    rec.write_number(layout.next_step, next);
    rec.write_number(layout.first_dd, first_dd);
    rec.write_number(layout.dds, step.dds.len() as u32);
    rec.write_byte(sct::AFTER_ABEND, after_abend_code(step.after_abend));
    rec.write_byte(sct::TEST_COUNT, step.tests.len() as u8);
    write_names(&mut rec, step);
    rec
}
