//! The tests of a JOB statement and of a step, so many bytes each.
ghost use Rattle.std.specs.Prelude.{◌≡◌, ◌+◌, ◌*◌, ◌≤◌, All, length, map, take};
ghost use Rattle.jcl_plan.specs.declared.outcome.TheConstants.{GREATEST_CODE};
ghost use Rattle.cb_meaning.specs.Fields.{number_of, part};
ghost use Rattle.cb_meaning.specs.Readings.{job_test_read, step_test_read};
ghost use Rattle.cb_meaning.specs.Walks.{in_parts};
ghost use Rattle.cb_read.specs.Ranges.{IsTestInRange};
ghost use Rattle.cb_read.specs.Tests.{test_read, width_of};

use crate::codes::{number_read, operator_read};
use jcl_plan::outcome::Code;
use jcl_plan::plan::{Test, Tests, no_tests};

/// Whose tests they are.
#[derive(Clone, Copy)]
pub enum TestsOf {
    Job,
    Step,
}

/// A number of two bytes.
fn short_at(bytes: &[u8], at: usize) -> u16
    requires { at + 2 ≤ length bytes.now }
    ensures { result ≡ number_of (part bytes.now at 2) }
{
    u16::from(bytes[at]) * 256 + u16::from(bytes[at + 1])
}

fn code(number: u16) -> Code
    requires { number ≤ GREATEST_CODE }
    ensures { result ≡ number }
{
    Code::new(number).unwrap()
}

fn job_test_read(test: &[u8]) -> Test
    requires size { 3 ≤ length test.now }
    requires range { IsTestInRange (job_test_read test.now) }
    ensures { result ≡ job_test_read test.now }
{
    Test {
        code: code(short_at(test, 1)),
        operator: operator_read(test[0]),
        step: None,
    }
}

/// A test of a step, of its five bytes.
pub fn step_test_read(test: &[u8]) -> Test
    requires size { 5 ≤ length test.now }
    requires range { IsTestInRange (step_test_read test.now) }
    ensures { result ≡ step_test_read test.now }
{
    Test {
        code: code(short_at(test, 1)),
        operator: operator_read(test[0]),
        step: number_read(short_at(test, 3)),
    }
}

/// How many bytes a test has.
fn width_of(kind: TestsOf) -> usize
    ensures { result ≡ width_of kind }
{
    match kind {
        TestsOf::Job => 3,
        TestsOf::Step => 5,
    }
}

fn test_read(kind: TestsOf, test: &[u8]) -> Test
    requires size { width_of kind ≤ length test.now }
    requires range { IsTestInRange (test_read kind test.now) }
    ensures { result ≡ test_read kind test.now }
{
    match kind {
        TestsOf::Job => job_test_read(test),
        TestsOf::Step => step_test_read(test),
    }
}

/// The first so many of the eight tests.
pub fn tests_read(kind: TestsOf, bytes: &[u8], count: u8) -> Tests
    requires size { width_of kind * 8 ≤ length bytes.now }
    requires range { All IsTestInRange (map (test_read kind) (take count (in_parts 8 (width_of kind) bytes.now))) }
    ensures { result.items ≡ map (test_read kind) (take count (in_parts 8 (width_of kind) bytes.now)) }
{
    let width = width_of(kind);
    let mut tests = no_tests();
    let mut rest = bytes;
    let mut left = count.min(8);
    while left > 0 {
        let (test, behind) = rest.split_at(width);
        tests.push(test_read(kind, test));
        rest = behind;
        left -= 1;
    }
    tests
}
