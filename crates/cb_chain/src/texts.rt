//! Bytes of names, numbers, tests and cards, as fields have them.
ghost use Rattle.std.specs.Prelude.{◌≡◌, ◌+◌, ◌≤◌, ◌++◌, List, length, ℕ};
ghost use Rattle.std.specs.List.{flat_map};
ghost use Rattle.cb_meaning.specs.Codes.{job_test_bytes, or_zero, step_test_bytes};
ghost use Rattle.cb_meaning.specs.Fields.{filled, filled_or_blank, then_zeros, two_bytes};

use crate::codes::operator_code;
use jcl_plan::plan::{Test, Tests};
use jname_core::name8::Name8;

/// A number of two bytes, the higher first.
pub(crate) fn two_bytes(number: u16) -> [u8; 2]
    ensures { result ≡ two_bytes number }
{
    [(number / 256) as u8, (number % 256) as u8]
}

/// The text of a name, none where it is absent.
pub(crate) fn name_text(name: &Option<Name8>) -> &[u8]
    ensures text { filled 8 result.now ≡ filled_or_blank 8 name.now }
    ensures short { length result.now ≤ 8 }
{
    match name {
        Some(name) => name.as_slice(),
        None => &[],
    }
}

/// Puts bytes behind those that stand before a place; zeros follow.
pub(crate) fn put_behind(own: &mut [u8], at: usize, bytes: &[u8])
    requires { at + length bytes.now ≤ length own.old }
    ensures { (done : List ℕ) → length done ≡ at → own.old ≡ then_zeros (length own.old) done → own.new ≡ then_zeros (length own.old) (done ++ bytes.now) }
{
    own[at..at + bytes.len()].copy_from_slice(bytes);
}

fn job_test_bytes(test: &Test) -> [u8; 3]
    ensures { result ≡ job_test_bytes test.now }
{
    let [high, low] = two_bytes(test.code.number());
    [operator_code(test.operator), high, low]
}

fn or_zero(step: Option<u16>) -> u16
    ensures { result ≡ or_zero step }
{
    match step {
        Some(step) => step,
        None => 0,
    }
}

fn step_test_bytes(test: &Test) -> [u8; 5]
    ensures { result ≡ step_test_bytes test.now }
{
    let [high, low] = two_bytes(test.code.number());
    let [step_high, step_low] = two_bytes(or_zero(test.step));
    [operator_code(test.operator), high, low, step_high, step_low]
}

/// The tests of a JOB statement, and zeros behind them.
pub(crate) fn job_tests(tests: &Tests) -> [u8; 24]
    ensures bytes { result ≡ then_zeros 24 (flat_map job_test_bytes tests.now.items) }
    ensures few { length tests.now.items ≤ 8 }
{
    let tests = tests.as_slice();
    let mut own = [0; 24];
    for (i, test) in tests.iter().enumerate() {
        put_behind(&mut own, 3 * i, &job_test_bytes(test));
    }
    own
}

/// The tests of a step, and zeros behind them.
pub(crate) fn step_tests(tests: &Tests) -> [u8; 40]
    ensures bytes { result ≡ then_zeros 40 (flat_map step_test_bytes tests.now.items) }
    ensures few { length tests.now.items ≤ 8 }
{
    let tests = tests.as_slice();
    let mut own = [0; 40];
    for (i, test) in tests.iter().enumerate() {
        put_behind(&mut own, 5 * i, &step_test_bytes(test));
    }
    own
}
