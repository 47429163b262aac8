//! Which tests are met, as a view keeps it.
ghost use Rattle.std.specs.Prelude.{◌≡◌, ◌++◌, IfOk, OnOk, length, map};
ghost use Rattle.std.specs.List.{flat_map};
ghost use Rattle.cond_core.specs.Classes.{AreClasses};
ghost use Rattle.jcl_meaning.specs.History.{looks_at, met_by};
ghost use Rattle.view_core.specs.Bits.{bits_ended, bits_kept, fate_shown, kept_tests, looking, some_met};
ghost use Rattle.view_core.specs.Shows.{shows};

use crate::same::{drop_first, take_first};
use crate::scene::PlainView;
use cond_core::classes::{CodeClasses, code_classes};
use jcl_meaning::history::{fate, satisfied};
use jcl_meaning::state::Ended;
use jcl_plan::outcome::{Fate, Outcome};
use jcl_plan::plan::{StepPlan, Test};
use std::alloc::{AllocError, Global};

fn some_met(bits: &[bool]) -> bool
    ensures { result ≡ some_met bits.now }
{
    bits.iter().any(|b| *b)
}

/// What becomes of a step, by what a view shows before it, where so many tests stand in the JOB statement.
pub(crate) fn fate_of(tests: usize, step: &StepPlan, view: &PlainView) -> Fate
    ensures { result ≡ fate_shown tests step.now (shows view.now) }
{
    let bits = view.met.as_slice();
    let own = take_first(drop_first(bits, tests), step.tests.as_slice().len());
    fate(
        false,
        some_met(take_first(bits, tests)),
        step.after_abend,
        view.abended,
        some_met(own),
    )
}

/// A step is passed, and with it so many tests of its own, which stand behind those of the JOB statement.
pub(crate) fn bits_kept(
    alloc: Global,
    tests: usize,
    own: usize,
    bits: &[bool],
) -> Result<Vec<bool>, AllocError>
    ensures { IfOk result (λ kept. kept.items ≡ bits_kept tests own bits.now) }
{
    let mut kept = Vec::from_slice(alloc, take_first(bits, tests))?;
    kept.extend_from_slice(drop_first(drop_first(bits, tests), own))?;
    Ok(kept)
}

/// The tests that are kept before these steps.
pub fn kept_tests(alloc: Global, job: &[Test], later: &[StepPlan]) -> Result<Vec<Test>, AllocError>
    ensures { IfOk result (λ kept. kept.items ≡ kept_tests job.now later.now) }
{
    let mut kept = Vec::from_slice(alloc, job)?;
    for step in later {
        kept.extend_from_slice(step.tests.as_slice())?;
    }
    Ok(kept)
}

/// A test looks at a step: it names that one, or none.
fn looks_at(named: Option<u16>, n: usize) -> bool
    ensures { result ≡ looks_at named n }
{
    match named {
        None => true,
        Some(named) => usize::from(named) == n,
    }
}

/// The tests that look at step n.
fn tests_at(alloc: Global, n: usize, tests: &[Test]) -> Result<Vec<Test>, AllocError>
    ensures { IfOk result (λ found. found.items ≡ looking n tests.now) }
{
    let mut found = Vec::from_slice(alloc, tests)?;
    found.retain(|test| looks_at(test.step, n));
    Ok(found)
}

/// Classes of codes that the tests which look at step n cannot tell apart.
pub fn codes_at(alloc: Global, n: usize, tests: &[Test]) -> Result<CodeClasses, AllocError>
    ensures { IfOk result (λ codes. AreClasses (looking n tests.now) codes) }
{
    let found = tests_at(alloc, n, tests)?;
    code_classes(alloc, found.as_slice())
}

/// Step n, which ended so, meets a test.
pub fn met_by(test: &Test, n: usize, outcome: Outcome) -> bool
    ensures { result ≡ met_by test.now n outcome }
{
    satisfied(&[Ended { step: n, outcome }], test)
}

/// Which tests are met behind step n, which ended so.
pub(crate) fn bits_ended(
    alloc: Global,
    n: usize,
    outcome: Outcome,
    tests: &[Test],
    bits: &[bool],
) -> Result<Vec<bool>, AllocError>
    ensures { IfOk result (λ ended. ended.items ≡ bits_ended n outcome tests.now bits.now) }
{
    tests
        .iter()
        .zip(bits.iter())
        .map(|(test, met)| met_by(test, n, outcome) || *met)
        .collect(alloc)
}
