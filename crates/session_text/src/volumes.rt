//! What a line says of a volume.
ghost use Rattle.std.specs.Prelude.{◌≡◌, ◌==◌, ◌<◌, IfOk, IfSome, length, position};
ghost use Rattle.jcl_plan.specs.declared.plan.TheConstants.{MOST_TRACKS};
ghost use Rattle.session_text.specs.Fields.{fields_of, listed_in};
ghost use Rattle.session_text.specs.Statements.{volume_of, volume_with};
ghost use Rattle.session_text.specs.Volumes.{extent_of, extent_with, extents_in, first_track, hyphen_in, last_track, track_in, used_of};

use crate::fault::Fault;
use crate::fields::{next_field, only_field};
use crate::statement::{Says, configures};
use crate::values::{comma_in, serial_in};
use extent_core::extent::Extent;
use jcl_plan::plan::MOST_TRACKS;
use jname_core::decimal::number_within;
use jname_core::serial::Serial;
use plain::listed::Listed;
use session_input::statement::ConfigStatement;
use std::alloc::{AllocError, Global};

fn track_in(text: &[u8]) -> Option<u16>
    ensures track { result ≡ track_in text.now }
    ensures bound { IfSome result (λ track. track < MOST_TRACKS) }
{
    number_within(0, MOST_TRACKS - 1, text)
}

fn hyphen_in(item: &[u8]) -> Option<usize>
    ensures hyphen { result ≡ hyphen_in item.now }
    ensures bound { IfSome result (λ k. k < length item.now) }
{
    item.iter().position(|b| *b == b'-')
}

fn first_track(item: &[u8]) -> Option<u16>
    ensures track { result ≡ first_track (hyphen_in item.now) item.now }
    ensures bound { IfSome result (λ track. track < MOST_TRACKS) }
{
    match hyphen_in(item) {
        None => track_in(item),
        Some(hyphen) => track_in(&item[..hyphen]),
    }
}

fn last_track(item: &[u8]) -> Option<u16>
    ensures track { result ≡ last_track (hyphen_in item.now) item.now }
    ensures bound { IfSome result (λ track. track < MOST_TRACKS) }
{
    match hyphen_in(item) {
        None => track_in(item),
        Some(hyphen) => track_in(&item[hyphen + 1..]),
    }
}

/// The tracks `a` or `a-b`.
fn extent_of(item: &[u8]) -> Option<Extent>
    ensures { result ≡ extent_of item.now }
{
    let Some(first) = first_track(item) else {
        return None;
    };
    match last_track(item) {
        None => None,
        Some(last) => {
            if first <= last {
                Some(Extent {
                    start: first,
                    tracks: last - first + 1,
                })
            } else {
                None
            }
        }
    }
}

/// The extents between commas, or none where one is no extent.
fn extents_in(alloc: Global, text: &[u8]) -> Result<Option<Listed<Extent>>, AllocError>
    ensures { IfOk result (λ r. r ≡ extents_in (listed_in text.now)) }
{
    let mut extents = Listed::empty(alloc);
    let mut rest = text;
    while let Some(comma) = comma_in(rest) {
        let (part, behind) = rest.split_at(comma);
        match extent_of(part) {
            None => return Ok(None),
            Some(extent) => extents.push(extent)?,
        }
        rest = &behind[1..];
    }
    match extent_of(rest) {
        None => Ok(None),
        Some(extent) => {
            extents.push(extent)?;
            Ok(Some(extents))
        }
    }
}

/// The tracks that are never free: `USED` and their list, or nothing.
fn used_in(alloc: Global, text: &[u8]) -> Result<Option<Listed<Extent>>, AllocError>
    ensures { IfOk result (λ r. r ≡ used_of (fields_of text.now)) }
{
    let Some((word, behind)) = next_field(text) else {
        return Ok(Some(Listed::empty(alloc)));
    };
    match only_field(behind) {
        None => Ok(None),
        Some(list) => {
            if word.bytes == b"USED".as_slice() {
                extents_in(alloc, list.bytes)
            } else {
                Ok(None)
            }
        }
    }
}

fn with_values<'a>(
    alloc: Global,
    serial: Option<Serial>,
    tracks: Option<u16>,
    used: Option<Listed<Extent>>,
) -> Result<Says<'a>, AllocError>
    ensures { IfOk result (λ s. s ≡ volume_with serial tracks used) }
{
    let Some(serial) = serial else {
        return Ok(Says::Refused(Fault::BadValue));
    };
    let Some(tracks) = tracks else {
        return Ok(Says::Refused(Fault::BadValue));
    };
    match used {
        None => Ok(Says::Refused(Fault::BadValue)),
        Some(used) => configures(
            alloc,
            ConfigStatement::Volume {
                serial,
                tracks,
                used,
            },
        ),
    }
}

/// A volume, its tracks, and those that are never free.
pub(crate) fn volume<'a>(alloc: Global, operands: &[u8]) -> Result<Says<'a>, AllocError>
    ensures { IfOk result (λ s. s ≡ volume_of (fields_of operands.now)) }
{
    let Some((serial, behind)) = next_field(operands) else {
        return Ok(Says::Refused(Fault::BadValue));
    };
    let Some((tracks, rest)) = next_field(behind) else {
        return Ok(Says::Refused(Fault::BadValue));
    };
    let serial = serial_in(serial.bytes);
    let tracks = number_within(0, u16::MAX, tracks.bytes);
    let used = used_in(alloc, rest)?;
    with_values(alloc, serial, tracks, used)
}
