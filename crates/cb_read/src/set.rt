//! A set, of its SIOT and its JFCB.
ghost use Rattle.std.specs.Prelude.{◌≡◌, ◌≤◌};
ghost use Rattle.cb_meaning.specs.declared.layout.TheConstants.{LAST_DAY};
ghost use Rattle.cb_meaning.specs.Readings.{expiry_read, key_read, set_read, space_read, volume_read};
ghost use Rattle.cb_meaning.specs.Writable.{IsExpiry};
ghost use Rattle.cb_read.specs.Ranges.{IsKeyInRange, IsSetInRange, IsVolumeInRange};

use crate::codes::{conditional_read, normal_read, number_read, sign_read, status_read};
use crate::names::{base, ds_name, name8, serial};
use cb_records::jfcb::JfcbView;
use cb_records::siot::{SiotView, has_space, releases};
use jcl_plan::day::Day;
use jcl_plan::plan::{Expiry, SetPlan, Space, VolumePlan};
use jname_core::key::Key;

fn key_read(r: &JfcbView<'_>) -> Key
    requires { IsKeyInRange (key_read r.now.bytes.now) }
    ensures { result ≡ key_read r.now.bytes.now }
{
    let text = r.name();
    if r.key_kind() == 3 {
        Key::Relative {
            base: base(text),
            sign: sign_read(r.sign()),
            amount: r.amount() as u8,
        }
    } else if r.key_kind() == 4 {
        Key::Temporary(name8(text))
    } else if r.key_kind() == 5 {
        Key::Unnamed {
            step: r.unnamed_step(),
            dd: r.unnamed_dd(),
        }
    } else {
        Key::Named(ds_name(text))
    }
}

/// Where a set is looked for, of its SIOT and its JFCB.
pub fn volume_read(s: &SiotView<'_>, r: &JfcbView<'_>) -> VolumePlan
    requires { IsVolumeInRange (volume_read s.now.bytes.now r.now.bytes.now) }
    ensures { result ≡ volume_read s.now.bytes.now r.now.bytes.now }
{
    if s.volume() == 1 {
        VolumePlan::Serial(serial(r.serial()))
    } else if s.volume() == 2 {
        VolumePlan::OfName(ds_name(r.volume_name()))
    } else if s.volume() == 3 {
        VolumePlan::OfDd {
            step: s.volume_step(),
            dd: s.volume_dd(),
        }
    } else {
        VolumePlan::NotCoded
    }
}

fn space_read(s: &SiotView<'_>) -> Option<Space>
    ensures { result ≡ space_read s.now.bytes.now }
{
    if has_space(s.bytes) {
        Some(Space {
            primary: s.primary(),
            secondary: s.secondary(),
            release: releases(s.bytes),
        })
    } else {
        None
    }
}

fn day_read(number: u32) -> Expiry
    requires { number ≤ LAST_DAY }
    ensures { result ≡ Expiry.Day number }
{
    match Day::new(number) {
        Some(day) => Expiry::Day(day),
        None => Expiry::NotCoded,
    }
}

/// The day of a set, or how many days it is kept from the job's date.
pub fn expiry_read(kind: u32, days: u32) -> Expiry
    requires { IsExpiry (expiry_read kind days) }
    ensures { result ≡ expiry_read kind days }
{
    if kind == 1 {
        day_read(days)
    } else if kind == 2 {
        Expiry::DaysFromToday(days as u16)
    } else {
        Expiry::NotCoded
    }
}

/// A set, of its SIOT and its JFCB.
pub(crate) fn set_read(s: &SiotView<'_>, r: &JfcbView<'_>) -> SetPlan
    requires { IsSetInRange (set_read r.now.layout.now s.now.bytes.now r.now.bytes.now) }
    ensures { result ≡ set_read r.now.layout.now s.now.bytes.now r.now.bytes.now }
{
    SetPlan {
        key: key_read(r),
        status: status_read(s.status()),
        normal: normal_read(s.normal()),
        conditional: conditional_read(s.conditional()),
        volume: volume_read(s, r),
        units: number_read(s.units()),
        space: space_read(s),
        expiry: expiry_read(r.expiry_kind(), r.expiry_days()),
    }
}
