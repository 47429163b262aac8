//! Completion codes of earlier steps, tests on them, and what becomes of a step. (COND parameter)
ghost use Rattle.std.specs.Prelude.{◌≡◌};
ghost use Rattle.jcl_meaning.specs.History.{abended, fate_of, holds, is_abend, is_run, looks_at, met_by, satisfied, some_satisfied};

use crate::state::Ended;
use jcl_plan::outcome::{Fate, Outcome};
use jcl_plan::plan::{AfterAbend, Operator, Test};

/// `code operator completion-code`.
fn holds(operator: Operator, code: u16, completion: u16) -> bool
    ensures { result ≡ holds operator code completion }
{
    match operator {
        Operator::Gt => completion < code,
        Operator::Ge => completion <= code,
        Operator::Eq => code == completion,
        Operator::Lt => code < completion,
        Operator::Le => code <= completion,
        Operator::Ne => code != completion,
    }
}

fn looks_at(named: Option<u16>, step: usize) -> bool
    ensures { result ≡ looks_at named step }
{
    match named {
        None => true,
        Some(named) => usize::from(named) == step,
    }
}

fn met_by(test: &Test, step: usize, outcome: Outcome) -> bool
    ensures { result ≡ met_by test.now step outcome }
{
    match outcome {
        Outcome::Code(code) => {
            looks_at(test.step, step) && holds(test.operator, test.code.number(), code.number())
        }
        Outcome::Abend(_) => false,
        Outcome::Bypassed => false,
        Outcome::Flushed => false,
    }
}

/// Some step that ended meets the test.
pub fn satisfied(ended: &[Ended], test: &Test) -> bool
    ensures { result ≡ satisfied ended.now test.now }
{
    ended.iter().any(|e| met_by(test, e.step, e.outcome))
}

pub fn some_satisfied(ended: &[Ended], tests: &[Test]) -> bool
    ensures { result ≡ some_satisfied ended.now tests.now }
{
    tests.iter().any(|test| satisfied(ended, test))
}

pub fn is_abend(outcome: Outcome) -> bool
    ensures { result ≡ is_abend outcome }
{
    match outcome {
        Outcome::Abend(_) => true,
        Outcome::Code(_) => false,
        Outcome::Bypassed => false,
        Outcome::Flushed => false,
    }
}

pub fn abended(ended: &[Ended]) -> bool
    ensures { result ≡ abended ended.now }
{
    ended.iter().any(|e| is_abend(e.outcome))
}

/// What becomes of a step: by a fault that ended the job, a JOB test that is met, EVEN or ONLY, an earlier ABEND, and a test of its own
/// that is met.
pub fn fate(
    faulted: bool,
    job_test_met: bool,
    after_abend: AfterAbend,
    abended: bool,
    test_met: bool,
) -> Fate
    ensures { result ≡ fate_of faulted job_test_met after_abend abended test_met }
{
    if faulted {
        return Fate::Flushed;
    }
    if job_test_met {
        return Fate::Bypassed;
    }
    match after_abend {
        AfterAbend::Unsaid if abended => Fate::Flushed,
        AfterAbend::Only if !abended => Fate::Bypassed,
        _ if test_met => Fate::Bypassed,
        _ => Fate::Run,
    }
}

pub fn is_run(fate: Fate) -> bool
    ensures { result ≡ is_run fate }
{
    match fate {
        Fate::Run => true,
        Fate::Bypassed => false,
        Fate::Flushed => false,
    }
}
