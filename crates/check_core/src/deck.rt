//! What is wrong with a deck.
ghost use Rattle.std.specs.Prelude.{◌≡◌, IfOk, false};
ghost use Rattle.check_core.specs.Insides.{IsInsideAt};
ghost use Rattle.check_core.specs.Reports.{AreTold};
ghost use Rattle.check_core.specs.Spots.{HasSpot, IfRefusedAt};

use crate::advice::{guess_inside, hint_at};
use crate::called::brought_in;
use crate::guess::guess_of;
use crate::inside::inside_at;
use crate::known::is_known;
use crate::mark::spot_of;
use crate::mended::Mended;
use crate::report::{Checked, Report, Spot};
use card_core::statement::Card;
use deck_places::judge::{At, Judged, judge, judge_near};
use jcl_plan::fault::Cause;
use jcl_refs::units::UnitNames;
use plain::text::Text;
use proc_library::library::ProcLibrary;
use std::alloc::{AllocError, Global};

/// The most refusals of one deck that are mended.
pub const MOST_REPORTS: usize = 100;

/// The most cards that are read to find those behind the first, with those that calls bring in: of a deck of 10,000 cards a hundred refused statements are
/// told, or ten or twenty refused calls.
pub const MOST_READ: usize = 1_000_000;

/// What a deck is read with: the names of units, and the procedures of the session. The names of both stand beside them once more, from which one is
/// guessed that may have been meant, and the lines of the session on which the procedures begin.
#[derive(Clone, Copy)]
pub struct Sources<'a> {
    pub units: &'a UnitNames,
    pub library: &'a ProcLibrary,
    pub unit_names: &'a [Text],
    pub procedure_names: &'a [Text],
    pub procedure_lines: &'a [usize],
}

/// A card of the deck as it was.
fn own_card(mended: &Mended, card: Option<usize>) -> Option<usize>
    ensures { mended.now.has_job_in_front ≡ false → result ≡ card }
{
    match card {
        Some(n) => Some(mended.own_card(n)),
        None => None,
    }
}

/// What is told of a refusal.
fn report_of(
    alloc: Global,
    sources: &Sources<'_>,
    mended: &Mended,
    cause: Cause,
    at: At,
) -> Result<Report, AllocError>
    ensures told { IfOk result (λ r. (r.cause ≡ cause) × (r.at ≡ at)) }
    ensures inside { IfOk result (λ r. IsInsideAt sources.now.library.now mended.now.lines.items cause at r.inside) }
    ensures spot { mended.now.has_job_in_front ≡ false →
        IfRefusedAt mended.now.lines.items cause at (IfOk result (HasSpot mended.now.lines.items cause at)) }
{
    let spot = spot_of(alloc, mended, cause, at)?;
    let inside = inside_at(alloc, sources, mended, cause, at)?;
    let guess = match &inside {
        Some(inside) => guess_inside(alloc, cause, inside)?,
        None => guess_of(alloc, sources, mended, cause, spot)?,
    };
    let hint = hint_at(alloc, mended, cause, spot, &inside)?;
    let spot = Spot {
        card: own_card(mended, spot.card),
        column: spot.column,
    };
    Ok(Report {
        cause,
        at,
        spot,
        inside,
        guess,
        hint,
    })
}

/// How often a deck is read, about, to find what comes behind a refusal there: the statement that brings that of a call or of a plan is tried for.
fn readings_behind(at: At) -> usize {
    match at {
        At::Call(_) | At::Planned(_, _) => 5,
        At::Card(_) | At::Statement(_) | At::End => 1,
    }
}

/// The statement that brings a refusal of a call or of a plan.
fn bringer_of(at: At) -> Option<usize> {
    match at {
        At::Call(k) | At::Planned(_, k) => Some(k),
        At::Card(_) | At::Statement(_) | At::End => None,
    }
}

/// How many cards are read to find what comes behind a refusal there, about: those of the deck, and those that calls bring in up to a refused call, or at all
/// calls before a plan is looked at.
fn cards_behind(
    alloc: Global,
    sources: &Sources<'_>,
    mended: &Mended,
    at: At,
) -> Result<usize, AllocError> {
    let cards = mended.lines.len();
    let to = match at {
        At::Card(_) | At::Statement(_) | At::End => return Ok(cards),
        At::Planned(_, _) => cards,
        At::Call(_) => match mended.span_at(alloc, at)? {
            Some(span) => span.to,
            None => cards,
        },
    };
    let brought = brought_in(alloc, sources.library, mended, to)?;
    Ok(cards.saturating_add(brought))
}

/// The first refusal of a deck in which this place was mended, unless it is too far to read: what is left to be read is as much less.
fn next_refusal(
    alloc: Global,
    sources: &Sources<'_>,
    mended: &Mended,
    at: At,
    left: &mut usize,
) -> Result<Option<(Cause, At)>, AllocError> {
    let lent = mended.lent(alloc)?;
    let lines = lent.as_slice();
    let cards = cards_behind(alloc, sources, mended, at)?.saturating_mul(readings_behind(at));
    if *left < cards {
        return Ok(None);
    }
    *left -= cards;
    match judge_near(alloc, sources.units, sources.library, lines, bringer_of(at))? {
        Judged::Taken(_, _) => Ok(None),
        Judged::Refused(cause, at) => Ok(Some((cause, at))),
    }
}

/// Whether two refusals are for the same statement of a procedure.
fn is_same(one: &Report, other: &Report) -> bool {
    match (&one.inside, &other.inside) {
        (Some(one_of), Some(other_of)) => {
            one.cause == other.cause
                && one_of.line == other_of.line
                && one_of.procedure.as_slice() == other_of.procedure.as_slice()
        }
        _ => false,
    }
}

/// Puts a report behind those of the same card and of cards before it, unless it is for a statement of a procedure that one of them is for.
fn push_report(later: &mut Vec<Report>, first: &Report, report: Report) -> Result<(), AllocError> {
    if is_same(first, &report) || later.iter().any(|other| is_same(other, &report)) {
        return Ok(());
    }
    let card = report.spot.card.unwrap_or(0);
    let place = later
        .iter()
        .take_while(|other| other.spot.card.unwrap_or(0) <= card)
        .count();
    later.insert(place.min(later.len()), report)?;
    Ok(())
}

/// What else is wrong, once the first refusal is mended.
fn later_of(
    alloc: Global,
    sources: &Sources<'_>,
    mended: &mut Mended,
    first: &Report,
) -> Result<Vec<Report>, AllocError> {
    let mut later = Vec::new(alloc);
    let mut left = MOST_READ;
    let mut cause = first.cause;
    let mut at = first.at;
    for _ in 0..MOST_REPORTS {
        if !mended.mend(alloc, cause, at)? {
            break;
        }
        let Some((next, place)) = next_refusal(alloc, sources, mended, at, &mut left)? else {
            break;
        };
        cause = next;
        at = place;
        let is_known = match mended.span_at(alloc, at)? {
            Some(span) => is_known(alloc, mended, cause, span)?,
            None => true,
        };
        if !is_known {
            let report = report_of(alloc, sources, mended, cause, at)?;
            push_report(&mut later, first, report)?;
        }
    }
    Ok(later)
}

/// All that is wrong with a deck: first that for which it is refused.
pub fn check_deck(
    alloc: Global,
    sources: &Sources<'_>,
    lines: &[Card<'_>],
) -> Result<Checked, AllocError>
    ensures { IfOk result (AreTold sources.now.units.now sources.now.library.now lines.now) }
{
    let (cause, at) = match judge(alloc, sources.units, sources.library, lines)? {
        Judged::Taken(plan, origins) => return Ok(Checked::Taken(plan, origins)),
        Judged::Refused(cause, at) => (cause, at),
    };
    let mut mended = Mended::of(alloc, lines)?;
    let first = report_of(alloc, sources, &mended, cause, at)?;
    let later = later_of(alloc, sources, &mut mended, &first)?;
    Ok(Checked::Refused { first, later })
}
