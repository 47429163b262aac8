//! Events and their places: long rows of events that do nothing are cut.
ghost use Rattle.std.specs.Prelude.{◌≡◌, ◌+◌, ◌≤◌, IfOk, length};
ghost use Rattle.picture_core.specs.Places.{AreInOrder};

use crate::scale::{Scale, part};
use history_core::history::History;
use history_core::still::Still;
use std::alloc::{AllocError, Global};

/// A row of more events that do nothing is cut: it has two places.
const LONGEST: u32 = 6;

/// The fewest pixels between two numbers on the axis.
const LEAST_TICK: u32 = 44;

/// The places of events, and how they are drawn.
#[derive(Drop)]
pub(crate) struct Axis {
    pub(crate) events: u32,
    pub(crate) scale: Scale,
    places: Vec<u32>,
}

pub(crate) fn is_cut(row: &Still) -> bool {
    row.to.saturating_sub(row.from) > LONGEST
}

/// Whether the event behind this one has the same place.
fn is_left_out(row: &Still, event: u32) -> bool {
    is_cut(row) && row.from < event && event.saturating_add(1) < row.to
}

/// The row that this event is in or before, where that of the event before it was here.
fn row_at(rows: &[Still], at: usize, event: u32) -> usize {
    match rows.get(at) {
        Some(row) if row.to <= event => at.saturating_add(1),
        _ => at,
    }
}

/// The place of the next event.
fn next_place(place: u32, left_out: bool) -> u32
    ensures behind { place ≤ result }
    ensures near { result ≤ place + 1 }
{
    if left_out {
        place
    } else {
        place.saturating_add(1)
    }
}

/// Whether the event behind this one has the same place, by the row that this one is in or before.
fn is_out_at(rows: &[Still], at: usize, event: u32) -> bool {
    match rows.get(at) {
        Some(row) => is_left_out(row, event),
        None => false,
    }
}

/// The place of each of so many events, and behind them how many places there are.
fn places_of(alloc: Global, events: u32, rows: &[Still]) -> Result<Vec<u32>, AllocError>
    ensures each { IfOk result (λ places. length places.items ≡ events + 1) }
    ensures order { IfOk result (λ places. AreInOrder places.items) }
{
    let mut places = Vec::new(alloc);
    let mut place: u32 = 0;
    let mut at: usize = 0;
    for event in 0..events {
        places.push(place)?;
        at = row_at(rows, at, event);
        place = next_place(place, is_out_at(rows, at, event));
    }
    places.push(place)?;
    Ok(places)
}

impl Axis {
    /// For a session that is drawn in so many lanes.
    pub(crate) fn new(alloc: Global, history: &History, lanes: u32) -> Result<Axis, AllocError> {
        let events = history.events;
        let places = places_of(alloc, events, history.stills.rows.as_slice())?;
        let all = match places.last() {
            Some(all) => *all,
            None => 0,
        };
        Ok(Axis {
            events,
            scale: Scale::new(all, lanes),
            places,
        })
    }

    /// The place of an event. All behind the last have one place.
    pub(crate) fn place_of(&self, event: u32) -> u32 {
        match self.places.get(event as usize) {
            Some(place) => *place,
            None => self.scale.events,
        }
    }

    pub(crate) fn column_of(&self, event: u32) -> u32 {
        self.scale.column_of(self.place_of(event))
    }

    /// The pixels before an event.
    pub(crate) fn before(&self, event: u32) -> u32 {
        let place = self.place_of(event);
        part(
            self.scale.width,
            u64::from(place),
            u64::from(self.scale.events),
        )
    }

    /// Whether an event is in the middle of a row that is cut.
    pub(crate) fn is_hidden(&self, event: u32) -> bool {
        let place = self.place_of(event);
        place == self.place_of(event.saturating_add(1))
            || (event > 0 && place == self.place_of(event.saturating_sub(1)))
    }

    /// The events whose numbers are written.
    pub(crate) fn ticks(&self, alloc: Global) -> Result<Vec<u32>, AllocError> {
        let between = self.scale.between_ticks();
        let steps = match self.events.checked_div(between) {
            Some(steps) => steps.saturating_add(1),
            None => 0,
        };
        let mut ticks = Vec::new(alloc);
        let mut free: u32 = 0;
        for step in 0..steps {
            let event = step.saturating_mul(between);
            let before = self.before(event);
            let last = event == self.events;
            if before >= free && (last || !self.is_hidden(event)) {
                ticks.push(event)?;
                free = before.saturating_add(LEAST_TICK);
            }
        }
        Ok(ticks)
    }
}
