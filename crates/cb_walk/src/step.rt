//! The faults of an SCT.
ghost use Rattle.std.specs.Prelude.{◌≡◌, ◌||◌, ◌++◌, drop, nat_lt, not, take};
ghost use Rattle.std.specs.List.{list_any};
ghost use Rattle.cb_meaning.specs.Fields.{byte_at, is_zero_but, part};
ghost use Rattle.cb_meaning.specs.Spelled.{sct_fields};
ghost use Rattle.cb_meaning.specs.Walks.{are_zero, is_name, is_name_or_blank, looks_forward, lowest, sct_faults, sct_tests, told_if};

use crate::fields::{field, is_zero_but};
use crate::parts::{any_looks_forward, are_zero_behind, tests_are_bad};
use crate::texts::{is_name, is_name_or_blank};
use cb_meaning::layout::{Field, Layout};
use cb_records::rec::{Rec, STATUS};
use cb_records::sct;

fn sct_fields(layout: &Layout) -> [Field; 10]
    ensures { result ≡ sct_fields layout.now }
{
    [
        field(0, 1),
        field(2, 2),
        layout.link,
        layout.next_step,
        layout.first_dd,
        layout.dds,
        field(14, 2),
        field(16, 24),
        sct::TESTS,
        STATUS,
    ]
}

/// The lowest number of those that hold.
fn lowest_of_step(names: bool, tests: bool, forward: bool, other: bool) -> Option<u8>
    ensures { result ≡ lowest (told_if 6 names ++ told_if 8 tests ++ told_if 9 forward ++ told_if 12 other) }
{
    if names {
        Some(6)
    } else if tests {
        Some(8)
    } else if forward {
        Some(9)
    } else if other {
        Some(12)
    } else {
        None
    }
}

fn are_names_bad(r: &Rec) -> bool
    ensures { result ≡ (not (is_name_or_blank (part r.now 16 8)) || not (is_name_or_blank (part r.now 24 8)) || not (is_name (part r.now 32 8))) }
{
    !is_name_or_blank(r.text(sct::NAME))
        || !is_name_or_blank(r.text(sct::PROCEDURE_STEP))
        || !is_name(r.text(sct::PROGRAM))
}

/// The number of the first fault of the k-th step's SCT, or none.
pub(crate) fn sct_fault(layout: &Layout, k: u16, r: &Rec) -> Option<u8>
    ensures { result ≡ lowest (sct_faults layout.now k r.now) }
{
    let tests = r.text(sct::TESTS);
    let count = r.byte(sct::TEST_COUNT);
    let other = r.byte(sct::AFTER_ABEND) > 2
        || !are_zero_behind(tests, 5, 8, usize::from(count))
        || !is_zero_but(&sct_fields(layout), r);
    lowest_of_step(
        are_names_bad(r),
        tests_are_bad(tests, 5, count),
        any_looks_forward(k, tests, 5, 8, usize::from(count)),
        other,
    )
}
