//! What a job has done so far, and what is fixed for it.
ghost use Rattle.std.specs.Prelude.{◌≡◌, ◌++◌, ◌∷◌, [], ◌<◌, List, OnErr, OnOk, length};
ghost use Rattle.jcl_plan.specs.declared.entry.JobLine.{JobLine};

use jcl_meaning::meanings::Meanings;
use jcl_meaning::places::Places;
use jcl_meaning::state::Own;
use jcl_plan::day::Day;
use jcl_plan::entry::JobLine;
use jcl_plan::plan::Test;
use jname_core::serial::Serial;
use plain::listed::Listed;
use std::alloc::AllocError;

/// What is fixed for a job from its admission on: its JOB tests, the volumes as configured, where its DDs' sets are placed, what their keys mean,
/// and its date.
#[derive(Clone, Copy)]
pub struct Given<'a> {
    pub job_tests: &'a [Test],
    pub volumes: &'a [Serial],
    pub places: &'a Places,
    pub meanings: &'a Meanings,
    pub date: Day,
}

/// What is a job's own, and the lines that it has written.
#[derive(Drop)]
pub struct Course {
    pub own: Own,
    pub lines: Listed<JobLine>,
}

impl Course {
    /// Writes a line. An `Err` changes nothing.
    pub fn say(&mut self, line: JobLine) -> Result<(), AllocError>
        ensures ok { OnOk result (self.new ≡ record self.old { lines = self.old.lines ++ line ∷ [] }) }
        ensures err { OnErr result (self.new ≡ self.old) }
    {
        self.lines.push(line)?;
        Ok(())
    }

    /// Takes the last line back.
    pub fn unsay(&mut self)
        requires { 0 < length self.old.lines }
        ensures { (before : List JobLine) (line : JobLine) → self.old.lines ≡ before ++ line ∷ [] → self.new ≡ record self.old { lines = before } }
    {
        drop_last(&mut self.lines);
    }
}

/// Takes the last item of a list off.
pub(crate) fn drop_last<T: Drop>(list: &mut Listed<T>)
    requires { 0 < length list.old }
    ensures { (before : List T) (last : T) → list.old ≡ before ++ last ∷ [] → list.new ≡ before }
{
    list.remove(list.len() - 1);
}
