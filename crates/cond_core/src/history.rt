//! What becomes of a step, by what came before it. (COND parameter)
ghost use Rattle.std.specs.Prelude.{◌≡◌};
ghost use Rattle.cond_core.specs.Fates.{fate_behind};

use jcl_meaning::history::{abended, fate as fate_by, some_satisfied};
use jcl_meaning::state::Ended;
use jcl_plan::outcome::Fate;
use jcl_plan::plan::{AfterAbend, Test};

/// What came before a step of a job.
#[derive(Clone, Copy)]
pub struct History<'a> {
    /// The tests of the JOB statement.
    pub job_tests: &'a [Test],
    /// How the earlier steps came out. One that neither ran to a code nor to an ABEND may be left out.
    pub ended: &'a [Ended],
    /// A fault ended the job.
    pub faulted: bool,
}

/// What becomes of a step, the first that applies: FLUSHED where a fault ended the job; BYPASSED where a JOB test is met; FLUSHED after
/// an ABEND with neither EVEN nor ONLY; BYPASSED with ONLY where no ABEND came; BYPASSED where a test of its own is met; else RUN. Whether one is met is
/// given, since who reads a job from its records tries its tests one by one.
pub fn fate(after_abend: AfterAbend, test_met: bool, history: &History) -> Fate
    ensures { result ≡ fate_behind history.now.faulted history.now.job_tests.now history.now.ended.now after_abend test_met }
{
    fate_by(
        history.faulted,
        some_satisfied(history.ended, history.job_tests),
        after_abend,
        abended(history.ended),
        test_met,
    )
}
