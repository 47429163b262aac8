//! The faults of an SIOT.
ghost use Rattle.std.specs.Prelude.{◌≡◌, ◌+◌, ◌||◌, ◌&&◌, ◌++◌, ◌==◌, length, nat_lt, not, if◌then◌else◌};
ghost use Rattle.jname_core.specs.Characters.{is_letter_or_digit};
ghost use Rattle.cb_meaning.specs.Fields.{byte_at, field, is_zero_but, number_at, part};
ghost use Rattle.cb_walk.specs.Used.{fields_or_none};
ghost use Rattle.cb_meaning.specs.Walks.{continues, has_cards, has_space, is_blank, is_earlier_set, is_known_kind, is_name, is_set, is_sysout, lowest, releases, set_numbers_bad, set_words_bad, siot_faults, siot_fields_used, told_if, with_dds};
ghost use Rattle.cb_walk.specs.Faults.{numbers_bad, other_bad, volume_forward};

use crate::fields::{field, is_zero_but};
use crate::sets::is_earlier_set;
use crate::texts::{is_blank, is_name};
use cb_meaning::layout::{Field, Layout};
use cb_records::rec::{Rec, STATUS};
use cb_records::siot::{self, continues, has_cards, has_space, is_set, is_sysout, releases};
use jcl_plan::plan::MOST_TRACKS;
use jname_core::character::is_letter_or_digit;
use plain::listed::Listed;

/// The lowest number of those that hold.
fn lowest_of_dd(name: bool, words: bool, volume: bool, other: bool) -> Option<u8>
    ensures { result ≡ lowest (told_if 6 name ++ told_if 7 words ++ told_if 9 volume ++ told_if 12 other) }
{
    if name {
        Some(6)
    } else if words {
        Some(7)
    } else if volume {
        Some(9)
    } else if other {
        Some(12)
    } else {
        None
    }
}

fn is_known_kind(r: &Rec) -> bool
    ensures { result ≡ is_known_kind r.now }
{
    1 <= r.byte(siot::KIND) && r.byte(siot::KIND) <= 4
}

/// A field, or where it is not used one of no bytes.
fn field_if(used: bool, f: Field) -> Field
    ensures { result ≡ (if used then f else field 0 0) }
{
    if used { f } else { field(0, 0) }
}

/// The fields that the kind of an SIOT uses; those that it does not use have no bytes.
fn siot_fields(layout: &Layout, r: &Rec) -> [Field; 15]
    ensures { result ≡ fields_or_none layout.now (is_set r.now) (is_set r.now && byte_at r.now 28 == 3) (is_sysout r.now) (has_cards r.now) }
{
    let set = is_set(r);
    let cards = has_cards(r);
    [
        field(0, 1),
        field(2, 2),
        layout.link,
        layout.next_dd,
        field(12, 1),
        field(16, 9),
        STATUS,
        field_if(set, layout.below),
        field_if(set, field(13, 3)),
        field_if(set, field(28, 1)),
        field_if(set, field(34, 6)),
        field_if(set && r.byte(siot::VOLUME) == 3, field(30, 4)),
        field_if(is_sysout(r), field(25, 1)),
        field_if(cards, layout.below),
        field_if(cards, layout.cards),
    ]
}

/// Whether every byte that the kind of an SIOT does not use is zero.
fn is_rest_zero(layout: &Layout, r: &Rec) -> bool
    ensures { result ≡ is_zero_but (siot_fields_used layout.now r.now) r.now }
{
    is_zero_but(&siot_fields(layout, r), r)
}

fn is_name_bad(r: &Rec) -> bool
    ensures { result ≡ (if continues r.now then not (is_blank (part r.now 16 8)) else not (is_name (part r.now 16 8))) }
{
    let name = r.text(siot::NAME);
    if continues(r) {
        !is_blank(name)
    } else {
        !is_name(name)
    }
}

fn set_words_bad(r: &Rec) -> bool
    ensures { result ≡ set_words_bad r.now }
{
    r.byte(siot::DISPOSITION_STATUS) < 1
        || r.byte(siot::DISPOSITION_STATUS) > 4
        || r.byte(siot::NORMAL) > 5
        || r.byte(siot::CONDITIONAL) > 5
        || r.byte(siot::CONDITIONAL) == 3
}

/// Whether space stands in an SIOT that has no SPACE.
fn has_stray_space(r: &Rec) -> bool
    ensures { result ≡ (not (has_space r.now) && (releases r.now || nat_lt 0 (number_at r.now (field 34 2)) || nat_lt 0 (number_at r.now (field 36 2)))) }
{
    !has_space(r)
        && (releases(r) || r.short(siot::PRIMARY.at) > 0 || r.short(siot::SECONDARY.at) > 0)
}

fn set_numbers_bad(units: u16, r: &Rec) -> bool
    ensures { result ≡ set_numbers_bad units r.now }
{
    r.short(siot::PRIMARY.at) > MOST_TRACKS
        || r.short(siot::SECONDARY.at) > MOST_TRACKS
        || has_stray_space(r)
        || r.short(siot::UNITS.at) > units
        || r.byte(siot::VOLUME) > 3
}

/// Whether VOL refers to a DD that is no earlier set.
fn is_volume_forward(steps: &[Listed<bool>], dds: &[bool], r: &Rec) -> bool
    ensures { result ≡ volume_forward (with_dds steps.now dds.now) (length steps.now + 1) (length dds.now + 1) r.now }
{
    is_set(r)
        && r.byte(siot::VOLUME) == 3
        && !is_earlier_set(
            steps,
            dds,
            r.short(siot::VOLUME_STEP.at),
            r.short(siot::VOLUME_DD.at),
        )
}

/// Whether one that is no set has SPACE, or the release of space.
fn is_space_stray(r: &Rec) -> bool
    ensures { result ≡ (is_known_kind r.now && not (is_set r.now) && (has_space r.now || releases r.now)) }
{
    is_known_kind(r) && !is_set(r) && (has_space(r) || releases(r))
}

fn are_numbers_bad(units: u16, first: bool, r: &Rec) -> bool
    ensures { result ≡ numbers_bad units first r.now }
{
    r.byte(siot::MARKS) > 7
        || continues(r) && first
        || is_set(r) && set_numbers_bad(units, r)
        || is_sysout(r) && !is_letter_or_digit(r.byte(siot::CLASS))
}

fn are_words_bad(r: &Rec) -> bool
    ensures { result ≡ (not (is_known_kind r.now) || (is_set r.now && set_words_bad r.now)) }
{
    !is_known_kind(r) || is_set(r) && set_words_bad(r)
}

/// Whether no DD of its step stands before it.
fn is_first(dds: &[bool]) -> bool
    ensures { result ≡ (length dds.now + 1 == 1) }
{
    dds.len() < 1
}

fn is_other_bad(layout: &Layout, units: u16, first: bool, r: &Rec) -> bool
    ensures { result ≡ other_bad layout.now units first r.now }
{
    are_numbers_bad(units, first, r)
        || is_space_stray(r)
        || is_known_kind(r) && !is_rest_zero(layout, r)
}

/// The number of the first fault of an SIOT, or none: of the DD behind these of its step, which stands behind these steps.
pub(crate) fn siot_fault(
    layout: &Layout,
    units: u16,
    steps: &[Listed<bool>],
    dds: &[bool],
    r: &Rec,
) -> Option<u8>
    ensures { result ≡ lowest (siot_faults layout.now units (with_dds steps.now dds.now) (length steps.now + 1) (length dds.now + 1) r.now) }
{
    lowest_of_dd(
        is_name_bad(r),
        are_words_bad(r),
        is_volume_forward(steps, dds, r),
        is_other_bad(layout, units, is_first(dds), r),
    )
}
