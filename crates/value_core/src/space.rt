//! The SPACE parameter. (GC28-6704, "SPACE parameter")
ghost use Rattle.std.specs.Prelude.{◌≡◌, ◌&&◌, ◌||◌, ◌==◌, ℕ, List, false, is_none, length, not, MatchOption, Some};
ghost use Rattle.std.specs.Option.{option_copied, option_to_list};
ghost use Rattle.operand_core.specs.Faults.{told};
ghost use Rattle.operand_core.specs.Subparameters.{subparameters_of};
ghost use Rattle.value_core.specs.Reads.{IsRead};
ghost use Rattle.value_core.specs.Spaces.{IsUnit, directory_faults, further, further_place_faults, is_left_out, is_quantity, is_unit, pair, quantities, quantity_in, releases, space, space_with, tracks_in};

use crate::decimal::capped;
use crate::reads::both;
use jcl_plan::fault::{Cause, StatementFault};
use jcl_plan::plan::{MOST_TRACKS, Space};
use jname_core::decimal::number_within;
use operand_core::fault::{earlier, when};
use operand_core::places::Places;
use operand_core::subparameter::{inside, is_wrapped};

/// How many bytes fill a track.
const BYTES_A_TRACK: u64 = 7294;

const TRACKS_A_CYLINDER: u64 = 20;

/// What SPACE is asked in.
#[derive(Clone, Copy, PartialEq, Eq)]
pub enum SpaceUnit {
    Tracks,
    Cylinders,
    /// Blocks of so many bytes.
    Blocks(u16),
}

/// The unit that a text names.
fn unit_of(text: &[u8]) -> Option<SpaceUnit>
    ensures { MatchOption result (is_unit text.now ≡ false) (λ unit. IsUnit text.now unit) }
{
    match text {
        b"TRK" => Some(SpaceUnit::Tracks),
        b"CYL" => Some(SpaceUnit::Cylinders),
        _ => match number_within(1, 7294, text) {
            Some(length) => Some(SpaceUnit::Blocks(length)),
            None => None,
        },
    }
}

/// How many tracks so many are.
fn tracks_in(unit: SpaceUnit, count: u32) -> u64
    ensures { result ≡ tracks_in unit count }
{
    let count = u64::from(count);
    match unit {
        SpaceUnit::Tracks => count,
        SpaceUnit::Cylinders => count * TRACKS_A_CYLINDER,
        SpaceUnit::Blocks(length) => (count * u64::from(length) + (BYTES_A_TRACK - 1))
            / BYTES_A_TRACK,
    }
}

/// The tracks of a quantity, where it is one of at most 4,000 tracks.
fn quantity(unit: SpaceUnit, text: &[u8]) -> Option<u16>
    ensures { (name : List ℕ) → IsUnit name unit → result ≡ quantity_in name text.now }
{
    let tracks = tracks_in(unit, capped(text)?);
    if tracks <= u64::from(MOST_TRACKS) {
        Some(tracks as u16)
    } else {
        None
    }
}

/// Whether the primary quantity is bad, or a secondary one that is not empty.
fn has_bad_quantity(unit: SpaceUnit, primary: Option<u16>, secondary: &[u8]) -> bool
    ensures { (name : List ℕ) → IsUnit name unit → result ≡ (is_none primary || (not (length secondary.now == 0) && not (is_quantity name secondary.now))) }
{
    if primary.is_none() {
        return true;
    }
    if secondary.is_empty() {
        return false;
    }
    quantity(unit, secondary).is_none()
}

/// The fault of three quantities, of which the last counts blocks of a directory, and the second may be empty.
fn directory_fault(
    unit: SpaceUnit,
    primary: Option<u16>,
    secondary: &[u8],
    directory: &[u8],
) -> Cause
    ensures { (name : List ℕ) → IsUnit name unit → Some result ≡ told (directory_faults name primary secondary.now directory.now) }
{
    if has_bad_quantity(unit, primary, secondary) || directory.is_empty() {
        Cause::P(StatementFault::BadValue)
    } else {
        Cause::P(StatementFault::LeftOut)
    }
}

/// Both quantities, where both are good.
fn pair(primary: Option<u16>, secondary: Option<u16>) -> Result<(u16, u16), Cause>
    ensures { IsRead result (pair primary secondary) }
{
    match (primary, secondary) {
        (Some(primary), Some(secondary)) => Ok((primary, secondary)),
        _ => Err(Cause::P(StatementFault::BadValue)),
    }
}

/// The primary and the secondary quantity in tracks, 0 where there is no secondary one.
fn quantities(unit: SpaceUnit, text: &[u8]) -> Result<(u16, u16), Cause>
    ensures { (name : List ℕ) → IsUnit name unit → IsRead result (quantities name (subparameters_of text.now)) }
{
    let mut places = Places::of_value(text);
    let primary = match places.next() {
        Some(text) => quantity(unit, text),
        None => None,
    };
    let Some(secondary) = places.next() else {
        return pair(primary, Some(0));
    };
    let Some(directory) = places.next() else {
        return pair(primary, quantity(unit, secondary));
    };
    match places.next() {
        Some(_) => Err(Cause::P(StatementFault::BadValue)),
        None => Err(directory_fault(unit, primary, secondary, directory)),
    }
}

fn is_left_out(text: &[u8]) -> bool
    ensures { result ≡ is_left_out text.now }
{
    text == b"CONTIG".as_slice()
        || text == b"MXIG".as_slice()
        || text == b"ALX".as_slice()
        || text == b"ROUND".as_slice()
}

/// The fault of a place behind the quantities, which is counted from 0.
fn further_place_fault(place: usize, text: &[u8], is_last: bool) -> Option<Cause>
    ensures { result ≡ told (further_place_faults place text.now is_last) }
{
    if is_left_out(text) {
        return Some(Cause::P(StatementFault::LeftOut));
    }
    let releases = place == 2 && text == b"RLSE".as_slice();
    let is_read = text.is_empty() && !is_last && place <= 4;
    when(!releases && !is_read, Cause::P(StatementFault::BadValue))
}

/// Whether RLSE stands in the first of the places behind the quantities.
fn further(places: &mut Places<'_>) -> Result<bool, Cause>
    ensures { IsRead result (further places.old) }
{
    let mut next = places.next();
    let release = releases(next);
    let mut fault = None;
    let mut at: usize = 2;
    while let Some(text) = next {
        next = places.next();
        fault = earlier(fault, further_place_fault(at, text, next.is_none()));
        at = at.saturating_add(1);
    }
    match fault {
        Some(fault) => Err(fault),
        None => Ok(release),
    }
}

fn releases(place: Option<&[u8]>) -> bool
    ensures { result ≡ releases (option_to_list (option_copied place.entry)) }
{
    match place {
        Some(text) => text == b"RLSE".as_slice(),
        None => false,
    }
}

fn space_with(unit: SpaceUnit, text: &[u8], places: &mut Places<'_>) -> Result<Space, Cause>
    ensures { (name : List ℕ) → IsUnit name unit → IsRead result (space_with name (subparameters_of text.now) places.old) }
{
    let ((primary, secondary), release) = both(quantities(unit, text), further(places))?;
    Ok(Space {
        primary,
        secondary,
        release,
    })
}

/// The space that is asked for, in tracks.
pub fn space(text: &[u8]) -> Result<Space, Cause>
    ensures { IsRead result (space text.now) }
{
    let bad = Err(Cause::P(StatementFault::BadValue));
    if !is_wrapped(text) {
        return bad;
    }
    let mut places = Places::of_text(inside(text));
    let Some(name) = places.next() else {
        return bad;
    };
    if name == b"ABSTR".as_slice() {
        return Err(Cause::P(StatementFault::LeftOut));
    }
    let Some(quantities) = places.next() else {
        return bad;
    };
    match unit_of(name) {
        Some(unit) => space_with(unit, quantities, &mut places),
        None => bad,
    }
}
