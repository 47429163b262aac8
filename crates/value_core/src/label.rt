//! The LABEL parameter. (GC28-6704, "LABEL parameter")
ghost use Rattle.std.specs.Prelude.{◌≡◌};
ghost use Rattle.std.specs.List.{flat_map};
ghost use Rattle.operand_core.specs.Faults.{told};
ghost use Rattle.operand_core.specs.Operands.{keyword_of};
ghost use Rattle.operand_core.specs.Subparameters.{subparameters_of};
ghost use Rattle.value_core.specs.Labels.{expiry_at, expiry_by, expiry_day, expiry_in, is_crowded, label, label_faults, period, place_faults};
ghost use Rattle.value_core.specs.Reads.{IsRead};

use crate::places::together_fault;
use date_core::written::{short_day, written_day};
use jcl_plan::day::Day;
use jcl_plan::fault::{Cause, StatementFault};
use jcl_plan::plan::Expiry;
use jname_core::decimal::number_within;
use operand_core::fault::{earlier, when};
use operand_core::parts::keyword_of;
use operand_core::places::Places;

/// The most places before EXPDT or RETPD.
const MOST_POSITIONAL: usize = 4;

/// The most digits of RETPD.
const MOST_DIGITS: usize = 4;

/// The day that EXPDT means, which is written yyddd or yyyy/ddd.
fn expiry_day(text: &[u8]) -> Option<Day>
    ensures { result ≡ expiry_day text.now }
{
    if text.len() == 5 {
        short_day(text)
    } else {
        written_day(text)
    }
}

/// The days of RETPD, a number of at most four digits.
fn period(text: &[u8]) -> Option<u16>
    ensures { result ≡ period text.now }
{
    if text.len() > MOST_DIGITS {
        return None;
    }
    number_within(0, 9999, text)
}

/// What a keyword says, where its value is a good one.
fn expiry_by(key: &[u8], text: &[u8]) -> Option<Expiry>
    ensures { result ≡ expiry_by key.now text.now }
{
    if key == b"EXPDT".as_slice() {
        match expiry_day(text) {
            None => None,
            Some(day) => Some(Expiry::Day(day)),
        }
    } else if key == b"RETPD".as_slice() {
        match period(text) {
            None => None,
            Some(days) => Some(Expiry::DaysFromToday(days)),
        }
    } else {
        None
    }
}

fn expiry_at(place: &[u8]) -> Option<Expiry>
    ensures { result ≡ expiry_at (keyword_of place.now) }
{
    match keyword_of(place) {
        None => None,
        Some((key, text)) => expiry_by(key, text),
    }
}

fn place_fault(place: &[u8]) -> Option<Cause>
    ensures { result ≡ told (place_faults (keyword_of place.now)) }
{
    match keyword_of(place) {
        None => None,
        Some((key, text)) => when(
            expiry_by(key, text).is_none(),
            Cause::P(StatementFault::BadValue),
        ),
    }
}

fn places_fault(text: &[u8]) -> Option<Cause>
    ensures { result ≡ told (flat_map (λ place. place_faults (keyword_of place)) (subparameters_of text.now)) }
{
    let mut fault = None;
    let mut places = Places::of_value(text);
    while let Some(place) = places.next() {
        fault = earlier(fault, place_fault(place));
    }
    fault
}

/// Whether more than four places stand before the first keyword, one without a keyword behind it, or no keyword at all.
fn is_crowded(text: &[u8]) -> bool
    ensures { result ≡ is_crowded (subparameters_of text.now) }
{
    let mut positional: usize = 0;
    let mut has_keyword = false;
    let mut places = Places::of_value(text);
    while let Some(place) = places.next() {
        if keyword_of(place).is_some() {
            has_keyword = true;
        } else if has_keyword {
            return true;
        } else {
            positional = positional.saturating_add(1);
        }
    }
    positional > MOST_POSITIONAL || !has_keyword
}

/// The fault of LABEL, which has EXPDT or RETPD behind at most four places.
#[tactic(auto, using(operand_core::proofs::Told::told_append))]
fn label_fault(text: &[u8]) -> Option<Cause>
    ensures { result ≡ told (label_faults text.now) }
{
    let crowded = when(is_crowded(text), Cause::P(StatementFault::BadValue));
    let together = together_fault(b"EXPDT", b"RETPD", text);
    earlier(places_fault(text), earlier(crowded, together))
}

/// What the first place says that says something.
fn expiry_in(text: &[u8]) -> Expiry
    ensures { result ≡ expiry_in (subparameters_of text.now) }
{
    let mut places = Places::of_value(text);
    while let Some(place) = places.next() {
        if let Some(said) = expiry_at(place) {
            return said;
        }
    }
    Expiry::NotCoded
}

/// LABEL: the day or the days until which a set that is made is kept.
pub fn label(text: &[u8]) -> Result<Expiry, Cause>
    ensures { IsRead result (label text.now) }
{
    match label_fault(text) {
        None => Ok(expiry_in(text)),
        Some(fault) => Err(fault),
    }
}
