//! The tests of a JOB statement and of a step, so many bytes each.
ghost use Rattle.std.specs.Prelude.{◌≡◌, ◌+◌, ◌*◌, ◌≤◌, ◌||◌, drop, length, nat_lt, take};
ghost use Rattle.std.specs.List.{list_any};
ghost use Rattle.cb_meaning.specs.Fields.{number_of, part};
ghost use Rattle.cb_meaning.specs.Walks.{are_zero, in_parts, is_bad_test, looks_forward};

use crate::texts::is_zero;
use jcl_plan::outcome::GREATEST_CODE;

/// A number of two bytes.
fn short_at(bytes: &[u8], at: usize) -> u16
    requires { at + 2 ≤ length bytes.now }
    ensures { result ≡ number_of (part bytes.now at 2) }
{
    u16::from(bytes[at]) * 256 + u16::from(bytes[at + 1])
}

fn is_bad_test(test: &[u8]) -> bool
    requires { 3 ≤ length test.now }
    ensures { result ≡ is_bad_test test.now }
{
    test[0] < 1 || test[0] > 6 || short_at(test, 1) > GREATEST_CODE
}

fn looks_forward(k: u16, test: &[u8]) -> bool
    requires { 5 ≤ length test.now }
    ensures { result ≡ looks_forward k test.now }
{
    k <= short_at(test, 3)
}

#[tactic(auto, using(crate::proofs::Several::any_more))]
fn any_is_bad(bytes: &[u8], width: usize, parts: usize, count: usize) -> bool
    requires wide { 3 ≤ width }
    requires size { parts * width ≤ length bytes.now }
    ensures { result ≡ list_any is_bad_test (take count (in_parts parts width bytes.now)) }
{
    if parts == 0 || count == 0 {
        return false;
    }
    let (test, behind) = bytes.split_at(width);
    is_bad_test(test) || any_is_bad(behind, width, parts - 1, count - 1)
}

/// Whether there are more tests than eight, or one of them is bad.
pub(crate) fn tests_are_bad(bytes: &[u8], width: usize, count: u8) -> bool
    requires wide { 3 ≤ width }
    requires size { 8 * width ≤ length bytes.now }
    ensures { result ≡ (nat_lt 8 count || list_any is_bad_test (take count (in_parts 8 width bytes.now))) }
{
    count > 8 || any_is_bad(bytes, width, 8, usize::from(count))
}

/// Whether one of the tests looks at a step that is not earlier than the k-th.
#[tactic(auto, using(crate::proofs::Several::any_more))]
pub(crate) fn any_looks_forward(
    k: u16,
    bytes: &[u8],
    width: usize,
    parts: usize,
    count: usize,
) -> bool
    requires wide { 5 ≤ width }
    requires size { parts * width ≤ length bytes.now }
    ensures { result ≡ list_any (looks_forward k) (take count (in_parts parts width bytes.now)) }
{
    if parts == 0 || count == 0 {
        return false;
    }
    let (test, behind) = bytes.split_at(width);
    looks_forward(k, test) || any_looks_forward(k, behind, width, parts - 1, count - 1)
}

/// Whether zeros alone stand behind the tests.
#[tactic(auto, using(crate::proofs::Several::zero_more))]
pub(crate) fn are_zero_behind(bytes: &[u8], width: usize, parts: usize, count: usize) -> bool
    requires size { parts * width ≤ length bytes.now }
    ensures { result ≡ are_zero (drop count (in_parts parts width bytes.now)) }
{
    if parts == 0 {
        return true;
    }
    let (test, behind) = bytes.split_at(width);
    (count > 0 || is_zero(test))
        && are_zero_behind(behind, width, parts - 1, count.saturating_sub(1))
}
