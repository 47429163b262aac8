//! The record of a data set: JFCB.
ghost use Rattle.std.specs.Prelude.{◌≡◌, ◌≤◌, length};
ghost use Rattle.cb_meaning.specs.Fields.{filled, filled_or_blank};
ghost use Rattle.cb_meaning.specs.Spelled.{key_code, name_referred, relative_bytes, serial_coded, sign_code};
ghost use Rattle.cb_chain.specs.Composed.{IsJfcb, key_entries};
ghost use Rattle.cb_chain.specs.Entries.{AreEntered};
ghost use Rattle.cb_chain.specs.Written.{HoldsExpiry, HoldsJobs};

use crate::codes::{expiry_code, expiry_number};
use crate::dd_words::pair_bytes;
use crate::head::headed;
use crate::texts::two_bytes;
use cb_meaning::layout::Layout;
use cb_records::jfcb;
use cb_records::rec::Rec;
use jcl_plan::plan::{SetPlan, VolumePlan};
use jname_core::ds_name::DsName;
use jname_core::key::{Key, Sign};

/// 2 of a name that has the form of a generation, 1 of another.
fn name_code(name: &DsName) -> u8
    ensures { result ≡ key_code (Key.Named name.now) }
{
    if name.generation_of().is_some() { 2 } else { 1 }
}

fn key_code(key: &Key) -> u8
    ensures { result ≡ key_code key.now }
{
    match key {
        Key::Named(name) => name_code(name),
        Key::Relative {
            base: _,
            sign: _,
            amount: _,
        } => 3,
        Key::Temporary(_) => 4,
        Key::Unnamed { step: _, dd: _ } => 5,
    }
}

fn sign_code(sign: Sign) -> u8
    ensures { result ≡ sign_code sign }
{
    match sign {
        Sign::Plus => 0,
        Sign::Minus => 1,
    }
}

/// The sign and the amount of a relative number, zeros of another name.
fn relative_bytes(key: &Key) -> [u8; 3]
    ensures { result ≡ relative_bytes key.now }
{
    match key {
        Key::Named(_) => [0; 3],
        Key::Relative {
            base: _,
            sign,
            amount,
        } => {
            let [high, low] = two_bytes(u16::from(*amount));
            [sign_code(*sign), high, low]
        }
        Key::Temporary(_) => [0; 3],
        Key::Unnamed { step: _, dd: _ } => [0; 3],
    }
}

/// Writes a set's name, or what stands in its place.
fn write_name(rec: &mut Rec, key: &Key)
    ensures { AreEntered rec.old (key_entries key.now) rec.new }
{
    let place = jfcb::NAME;
    match key {
        Key::Named(name) => rec.write_text(place, name.as_slice()),
        Key::Relative {
            base,
            sign: _,
            amount: _,
        } => rec.write_text(place, base.as_slice()),
        Key::Temporary(name) => rec.write_text(place, name.as_slice()),
        Key::Unnamed { step, dd } => rec.write_text(place, &pair_bytes(*step, *dd)),
    }
}

/// The serial that VOL tells, or nothing.
fn serial_text(volume: &VolumePlan) -> &[u8]
    ensures text { filled 6 result.now ≡ filled_or_blank 6 (serial_coded volume.now) }
    ensures short { length result.now ≤ 6 }
{
    match volume {
        VolumePlan::NotCoded => &[],
        VolumePlan::Serial(serial) => serial.as_slice(),
        VolumePlan::OfName(_) => &[],
        VolumePlan::OfDd { step: _, dd: _ } => &[],
    }
}

/// The name that VOL refers to, or nothing.
fn referred_text(volume: &VolumePlan) -> &[u8]
    ensures text { filled 44 result.now ≡ filled_or_blank 44 (name_referred volume.now) }
    ensures short { length result.now ≤ 44 }
{
    match volume {
        VolumePlan::NotCoded => &[],
        VolumePlan::Serial(_) => &[],
        VolumePlan::OfName(name) => name.as_slice(),
        VolumePlan::OfDd { step: _, dd: _ } => &[],
    }
}

/// The record of a data set.
pub(crate) fn jfcb_record(layout: &Layout, job: u16, set: &SetPlan) -> Rec
    requires holds { HoldsJobs layout.now }
    requires expiry { HoldsExpiry layout.now set.now.expiry }
    ensures { IsJfcb layout.now job set.now result }
{
    let mut rec = headed(4, job);
    rec.write_byte(jfcb::KEY_KIND, key_code(&set.key));
    rec.write_part(jfcb::RELATIVE, &relative_bytes(&set.key));
    write_name(&mut rec, &set.key);
    rec.write_text(jfcb::SERIAL, serial_text(&set.volume));
    rec.write_text(jfcb::VOLUME_NAME, referred_text(&set.volume));
    rec.write_number(layout.expiry_kind, expiry_code(set.expiry));
    rec.write_number(layout.expiry_days, expiry_number(set.expiry));
    rec
}
