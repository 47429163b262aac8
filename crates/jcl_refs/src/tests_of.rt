//! The tests of a job and of its steps. (COND parameter)
ghost use Rattle.std.specs.Prelude.{◌≡◌, ◌≤◌, Ok, Err, MatchResult, length, map};
ghost use Rattle.jcl_plan.specs.declared.plan.TheConstants.{MOST_STEPS};
ghost use Rattle.jcl_refs.specs.Plans.{job_test, test_of, test_with, tests_of};
ghost use Rattle.jcl_refs.specs.Targets.{earlier_step};

use crate::targets::earlier_step;
use jcl_plan::fault::{Cause, StatementFault};
use jcl_plan::plan::{Test, Tests, no_tests};
use jcl_procs::step::FlatStep;
use list_values::condition::{CodedTest, CodedTests};
use value_core::reference::StepReference;

/// A test of one step, or of each that ended by a code.
fn test_with(test: &CodedTest, step: Option<u16>) -> Test
    ensures { result ≡ test_with test.now step }
{
    Test {
        code: test.code,
        operator: test.operator,
        step,
    }
}

/// The number of the earlier step that a test names.
fn number_of(
    call: Option<usize>,
    reference: StepReference,
    k: usize,
    steps: &[FlatStep],
) -> Option<u16>
    requires { length steps.now ≤ MOST_STEPS }
    ensures { result ≡ earlier_step call reference k steps.now }
{
    match earlier_step(call, reference, k, steps) {
        None => None,
        Some(n) => Some(n as u16),
    }
}

/// A test of the k-th step: it names an earlier step, or none.
fn test_of(
    call: Option<usize>,
    k: usize,
    steps: &[FlatStep],
    test: &CodedTest,
) -> Result<Test, Cause>
    requires { length steps.now ≤ MOST_STEPS }
    ensures { result ≡ test_of call k steps.now test.now }
{
    let Some(reference) = test.step else {
        return Ok(test_with(test, None));
    };
    match number_of(call, reference, k, steps) {
        None => Err(Cause::P(StatementFault::TestOfNoEarlierStep)),
        Some(n) => Ok(test_with(test, Some(n))),
    }
}

/// The tests of the k-th step, which is one of this call, or the refusal of the first that names no earlier step. Steps count from 1.
pub(crate) fn tests_of(
    call: Option<usize>,
    k: usize,
    steps: &[FlatStep],
    tests: &CodedTests,
) -> Result<Tests, Cause>
    requires { length steps.now ≤ MOST_STEPS }
    ensures { let given = tests_of call k steps.now tests.now.items in MatchResult result (λ found. given ≡ Ok found.items) (λ fault. given ≡ Err fault) }
{
    let coded = tests.as_slice();
    let mut found = no_tests();
    for test in coded {
        found.push(test_of(call, k, steps, test)?);
    }
    Ok(found)
}

/// The tests of the JOB statement, which name no step.
pub(crate) fn job_tests(tests: &CodedTests) -> Tests
    ensures { result.items ≡ map job_test tests.now.items }
{
    let coded = tests.as_slice();
    let mut found = no_tests();
    for test in coded {
        found.push(test_with(test, None));
    }
    found
}
