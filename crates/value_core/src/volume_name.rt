//! The VOLUME parameter. (GC28-6704, "VOLUME parameter")
ghost use Rattle.std.specs.Prelude.{◌≡◌, ◌==◌, None};
ghost use Rattle.std.specs.List.{list_any};
ghost use Rattle.jname_core.specs.Faults.{is_no_serial};
ghost use Rattle.operand_core.specs.Operands.{keyword_of};
ghost use Rattle.operand_core.specs.Subparameters.{subparameters_of};
ghost use Rattle.value_core.specs.Reads.{IsRead, with_fault};
ghost use Rattle.value_core.specs.VolumeNames.{by_key, first_named, is_dropped, is_other_name, of_dd, of_name, or_later, volume_place, reference, serial, volume_name, with_later};

use crate::decimal::are_digits;
use crate::places::together_fault;
use crate::reads::both;
use crate::reference::{dd_reference, is_reference};
use crate::set::VolumeName;
use crate::set_name::ds_name;
use jcl_plan::fault::{Cause, StatementFault};
use jname_core::serial::Serial;
use operand_core::fault::lower;
use operand_core::parts::keyword_of;
use operand_core::places::Places;
use operand_core::subparameter::{first_subparameter, subparameter_count};

fn is_no_serial(text: &[u8]) -> bool
    ensures { result ≡ is_no_serial text.now }
{
    match Serial::read(text) {
        Some(_) => false,
        None => true,
    }
}

/// Whether a place of a value is no serial.
fn has_no_serial(text: &[u8]) -> bool
    ensures { result ≡ list_any is_no_serial (subparameters_of text.now) }
{
    let mut places = Places::of_value(text);
    while let Some(place) = places.next() {
        if is_no_serial(place) {
            return true;
        }
    }
    false
}

/// The volume that SER names, which has one serial.
fn serial(text: &[u8]) -> Result<VolumeName, Cause>
    ensures { IsRead result (serial text.now) }
{
    if has_no_serial(text) {
        return Err(Cause::P(StatementFault::BadValue));
    }
    if subparameter_count(text) > 1 {
        return Err(Cause::P(StatementFault::SeveralSerials));
    }
    match Serial::read(first_subparameter(text)) {
        Some(serial) => Ok(VolumeName::Serial(serial)),
        None => Err(Cause::P(StatementFault::BadValue)),
    }
}

fn has_parenthesis(text: &[u8]) -> bool
    ensures { result ≡ list_any (λ c. c == 40) text.now }
{
    text.iter().any(|c| *c == b'(')
}

/// Whether a name begins with an ampersand or has a parenthesis.
fn is_other_name(text: &[u8]) -> bool
    ensures { result ≡ is_other_name text.now }
{
    text.starts_with(b"&") || has_parenthesis(text)
}

/// The volume of a data set, which is neither relative nor temporary.
fn of_name(text: &[u8]) -> Result<VolumeName, Cause>
    ensures { IsRead result (of_name text.now) }
{
    if is_other_name(text) {
        return Err(Cause::P(StatementFault::BadValue));
    }
    let name = ds_name(text)?;
    Ok(VolumeName::OfName(name))
}

fn of_dd(text: &[u8]) -> Result<VolumeName, Cause>
    ensures { IsRead result (of_dd text.now) }
{
    let dd = dd_reference(text)?;
    Ok(VolumeName::OfDd(dd))
}

/// The volume that REF names.
fn reference(text: &[u8]) -> Result<VolumeName, Cause>
    ensures { IsRead result (reference text.now) }
{
    if is_reference(text) {
        return of_dd(text);
    }
    of_name(text)
}

/// Whether a place is a count, or a word without an effect.
fn is_dropped(text: &[u8]) -> bool
    ensures { result ≡ is_dropped text.now }
{
    are_digits(text) || text == b"PRIVATE".as_slice() || text == b"RETAIN".as_slice()
}

/// What a keyword of VOLUME names.
fn by_key(key: &[u8], text: &[u8]) -> Result<VolumeName, Cause>
    ensures { IsRead result (by_key key.now text.now) }
{
    if key == b"SER".as_slice() {
        return serial(text);
    }
    if key == b"REF".as_slice() {
        return reference(text);
    }
    Err(Cause::P(StatementFault::BadValue))
}

/// What a place without a keyword names, which is none.
fn without_key(place: &[u8]) -> Result<VolumeName, Cause>
    ensures { IsRead result (volume_place place.now None) }
{
    if is_dropped(place) {
        Ok(VolumeName::Any)
    } else {
        Err(Cause::P(StatementFault::BadValue))
    }
}

/// What a place of VOLUME names.
fn volume_place(place: &[u8]) -> Result<VolumeName, Cause>
    ensures { IsRead result (volume_place place.now (keyword_of place.now)) }
{
    match keyword_of(place) {
        Some((key, text)) => by_key(key, text),
        None => without_key(place),
    }
}

/// The volume that was named, or else the later one.
fn or_later(volume: VolumeName, later: VolumeName) -> VolumeName
    ensures { result ≡ or_later volume later }
{
    match volume {
        VolumeName::Any => later,
        _ => volume,
    }
}

/// The volume that was named, or else the later one, with the faults of both.
fn with_later(
    volume: Result<VolumeName, Cause>,
    later: Result<VolumeName, Cause>,
) -> Result<VolumeName, Cause>
    ensures { result ≡ with_later volume later }
{
    let (volume, later) = both(volume, later)?;
    Ok(or_later(volume, later))
}

/// The volume that the first place which names one names.
fn named_in(text: &[u8]) -> Result<VolumeName, Cause>
    ensures { IsRead result (first_named (subparameters_of text.now)) }
{
    let mut volume = Ok(VolumeName::Any);
    let mut places = Places::of_value(text);
    while let Some(place) = places.next() {
        volume = with_later(volume, volume_place(place));
    }
    volume
}

/// The volume, or of its fault and one more the one that is told.
fn with_together(
    volume: Result<VolumeName, Cause>,
    fault: Option<Cause>,
) -> Result<VolumeName, Cause>
    ensures { result ≡ with_fault volume fault }
{
    match (volume, fault) {
        (volume, None) => volume,
        (Ok(_), Some(fault)) => Err(fault),
        (Err(fault), Some(other)) => Err(lower(fault, other)),
    }
}

/// The volume that VOLUME names; PRIVATE, RETAIN and counts are dropped.
pub fn volume_name(text: &[u8]) -> Result<VolumeName, Cause>
    ensures { IsRead result (volume_name text.now) }
{
    let volume = named_in(text);
    let together = together_fault(b"SER", b"REF", text);
    with_together(volume, together)
}
