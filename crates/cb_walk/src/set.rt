//! The faults of a JFCB.
ghost use Rattle.std.specs.Prelude.{◌≡◌, ◌+◌, ◌||◌, ◌&&◌, ◌++◌, ◌==◌, length};
ghost use Rattle.cb_meaning.specs.Fields.{field, is_zero_but};
ghost use Rattle.cb_meaning.specs.Spelled.{jfcb_fields};
ghost use Rattle.cb_meaning.specs.Walks.{expiry_bad, is_blank, is_ds_name, is_name, is_no_expiry, is_relative, is_serial, jfcb_faults, lowest, set_name_bad, stems_forward, told_if, with_dds};
ghost use Rattle.cb_records.specs.Writes.{FitsRecord};
ghost use Rattle.cb_walk.specs.Faults.{amount_bad, names_bad, permanent_name_bad, reference_bad, rest_bad, serial_bad};

use crate::fields::{field, is_zero_but};
use crate::sets::is_earlier_set;
use crate::texts::{
    is_base, is_blank, is_ds_name, is_name, is_no_generation, is_no_plain_name, is_serial, is_zero,
};
use cb_meaning::layout::{Field, LAST_DAY, Layout, MOST_DAYS};
use cb_records::jfcb;
use cb_records::rec::Rec;
use cb_records::siot::VOLUME;
use plain::listed::Listed;

fn jfcb_fields(layout: &Layout) -> [Field; 6]
    ensures { result ≡ jfcb_fields layout.now }
{
    [
        field(0, 1),
        field(2, 2),
        layout.link,
        field(8, 98),
        layout.expiry_kind,
        layout.expiry_days,
    ]
}

/// The lowest number of those that hold.
fn lowest_of_set(names: bool, forward: bool, other: bool) -> Option<u8>
    ensures { result ≡ lowest (told_if 6 names ++ told_if 9 forward ++ told_if 12 other) }
{
    if names {
        Some(6)
    } else if forward {
        Some(9)
    } else if other {
        Some(12)
    } else {
        None
    }
}

fn is_relative(r: &Rec) -> bool
    ensures { result ≡ is_relative r.now }
{
    r.byte(jfcb::KEY_KIND) == 3
}

/// Whether the name is none of a permanent set.
fn is_named_badly(r: &Rec) -> bool
    ensures { result ≡ permanent_name_bad r.now }
{
    let name = r.text(jfcb::NAME);
    r.byte(jfcb::KEY_KIND) == 1 && is_no_plain_name(name)
        || r.byte(jfcb::KEY_KIND) == 2 && is_no_generation(name)
}

fn set_name_bad(r: &Rec) -> bool
    ensures { result ≡ set_name_bad r.now }
{
    is_named_badly(r)
        || is_relative(r) && !is_base(r.text(jfcb::NAME))
        || r.byte(jfcb::KEY_KIND) == 4 && !is_name(r.text(jfcb::NAME))
        || r.byte(jfcb::KEY_KIND) == 5 && !is_blank(r.text(jfcb::BEHIND_UNNAMED))
}

/// Whether the serial is none, or stands where none is coded. The SIOT says how the volume is found.
fn is_serial_bad(siot: &Rec, r: &Rec) -> bool
    ensures { result ≡ serial_bad siot.now r.now }
{
    let serial = r.text(jfcb::SERIAL);
    if siot.byte(VOLUME) == 1 {
        !is_serial(serial)
    } else {
        !is_blank(serial)
    }
}

/// The same of the name that VOL refers to.
fn is_reference_bad(siot: &Rec, r: &Rec) -> bool
    ensures { result ≡ reference_bad siot.now r.now }
{
    let name = r.text(jfcb::VOLUME_NAME);
    if siot.byte(VOLUME) == 2 {
        !is_ds_name(name)
    } else {
        !is_blank(name)
    }
}

/// Whether a step and a DD, each counted from 1, are those of the DD behind these.
fn is_this_dd(steps: &[Listed<bool>], dds: &[bool], step: u16, dd: u16) -> bool
    ensures { result ≡ (step == length steps.now + 1 && dd == length dds.now + 1) }
{
    step > 0 && usize::from(step) - 1 == steps.len() && dd > 0 && usize::from(dd) - 1 == dds.len()
}

fn stems_forward(steps: &[Listed<bool>], dds: &[bool], r: &Rec) -> bool
    ensures { result ≡ stems_forward (with_dds steps.now dds.now) (length steps.now + 1) (length dds.now + 1) r.now }
{
    let step = r.short(jfcb::UNNAMED_STEP.at);
    let dd = r.short(jfcb::UNNAMED_DD.at);
    r.byte(jfcb::KEY_KIND) == 5
        && !(is_this_dd(steps, dds, step, dd) || is_earlier_set(steps, dds, step, dd))
}

fn is_amount_bad(r: &Rec) -> bool
    ensures { result ≡ amount_bad r.now }
{
    is_relative(r) && (r.byte(jfcb::SIGN) > 1 || r.short(jfcb::AMOUNT.at) > 255)
        || !is_relative(r) && !is_zero(r.text(jfcb::RELATIVE))
}

/// Whether a number of a kind is no day and no number of days.
fn is_no_expiry(kind: u32, days: u32) -> bool
    ensures { result ≡ is_no_expiry kind days }
{
    kind > 2
        || kind == 0 && days > 0
        || kind == 1 && days > LAST_DAY
        || kind == 2 && days > u32::from(MOST_DAYS)
}

fn is_expiry_bad(layout: &Layout, r: &Rec) -> bool
    requires { FitsRecord layout.now }
    ensures { result ≡ expiry_bad layout.now r.now }
{
    is_no_expiry(r.number(layout.expiry_kind), r.number(layout.expiry_days))
}

fn is_rest_bad(layout: &Layout, r: &Rec) -> bool
    requires { FitsRecord layout.now }
    ensures { result ≡ rest_bad layout.now r.now }
{
    r.byte(jfcb::KEY_KIND) < 1
        || r.byte(jfcb::KEY_KIND) > 5
        || is_amount_bad(r)
        || is_expiry_bad(layout, r)
        || !is_zero_but(&jfcb_fields(layout), r)
}

fn are_names_bad(siot: &Rec, r: &Rec) -> bool
    ensures { result ≡ names_bad siot.now r.now }
{
    set_name_bad(r) || is_serial_bad(siot, r) || is_reference_bad(siot, r)
}

/// The number of the first fault of a JFCB, or none: of the DD behind these of its step, which stands behind these steps.
pub(crate) fn jfcb_fault(
    layout: &Layout,
    steps: &[Listed<bool>],
    dds: &[bool],
    siot: &Rec,
    r: &Rec,
) -> Option<u8>
    requires { FitsRecord layout.now }
    ensures { result ≡ lowest (jfcb_faults layout.now (with_dds steps.now dds.now) (length steps.now + 1) (length dds.now + 1) siot.now r.now) }
{
    lowest_of_set(
        are_names_bad(siot, r),
        stems_forward(steps, dds, r),
        is_rest_bad(layout, r),
    )
}
