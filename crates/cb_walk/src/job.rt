//! The faults of a JCT.
ghost use Rattle.std.specs.Prelude.{◌≡◌, ◌||◌, ◌++◌, drop, nat_lt, not};
ghost use Rattle.jname_core.specs.Characters.{is_job_class, is_letter_or_digit};
ghost use Rattle.cb_meaning.specs.Fields.{byte_at, is_zero_but};
ghost use Rattle.cb_meaning.specs.Spelled.{jct_fields};
ghost use Rattle.cb_meaning.specs.Walks.{are_zero, jct_faults, jct_tests, lowest, told_if};

use crate::fields::{field, is_zero_but};
use crate::parts::{are_zero_behind, tests_are_bad};
use crate::texts::is_name;
use cb_meaning::layout::{Field, Layout};
use cb_records::jct;
use cb_records::rec::{Rec, STATUS};
use jname_core::character::{is_job_class, is_letter_or_digit};

fn jct_fields(layout: &Layout) -> [Field; 9]
    ensures { result ≡ jct_fields layout.now }
{
    [
        field(0, 1),
        field(2, 2),
        layout.link,
        field(8, 4),
        layout.first_step,
        layout.steps,
        field(16, 9),
        jct::TESTS,
        STATUS,
    ]
}

/// The lowest number of those that hold.
fn lowest_of_job(name: bool, tests: bool, layout: bool, other: bool) -> Option<u8>
    ensures { result ≡ lowest (told_if 6 name ++ told_if 8 tests ++ told_if 11 layout ++ told_if 12 other) }
{
    if name {
        Some(6)
    } else if tests {
        Some(8)
    } else if layout {
        Some(11)
    } else if other {
        Some(12)
    } else {
        None
    }
}

fn are_classes_bad(r: &Rec) -> bool
    ensures { result ≡ (not (is_job_class (byte_at r.now 9)) || nat_lt 13 (byte_at r.now 10) || not (is_letter_or_digit (byte_at r.now 11))) }
{
    !is_job_class(r.byte(jct::CLASS))
        || r.byte(jct::PRIORITY) > 13
        || !is_letter_or_digit(r.byte(jct::MESSAGE_CLASS))
}

/// The number of the first fault of a JCT, or none.
pub(crate) fn jct_fault(layout: &Layout, r: &Rec) -> Option<u8>
    ensures { result ≡ lowest (jct_faults layout.now r.now) }
{
    let tests = r.text(jct::TESTS);
    let count = r.byte(jct::TEST_COUNT);
    let other = are_classes_bad(r)
        || !are_zero_behind(tests, 3, 8, usize::from(count))
        || !is_zero_but(&jct_fields(layout), r);
    lowest_of_job(
        !is_name(r.text(jct::NAME)),
        tests_are_bad(tests, 3, count),
        r.byte(jct::LAYOUT) != layout.number,
        other,
    )
}
