//! Places of events, columns and pixels.
ghost use Rattle.std.specs.Prelude.{◌≡◌};
ghost use Rattle.picture_core.specs.Scales.{column_in, last_column};

/// The most pixels of all events.
const MOST_WIDTH: u32 = 1_600;

/// The most pixels of one event.
const MOST_EVENT: u32 = 40;

/// The fewest pixels of a column that holds more than one event.
const LEAST_COLUMN: u32 = 4;

/// So many shapes are drawn of all lanes, or a few more.
const MOST_SHAPES: u32 = 16_000;

/// How many columns there are, how many events are in each, and how wide all of them are.
#[derive(Clone, Copy)]
pub(crate) struct Scale {
    /// The places of events, of which each has one in this file.
    pub(crate) events: u32,
    /// At least 1.
    pub(crate) each: u32,
    pub(crate) width: u32,
}

/// The part n of a whole, of so many parts.
pub(crate) fn part(whole: u32, n: u64, parts: u64) -> u32 {
    if parts == 0 {
        return 0;
    }
    let product = u64::from(whole).saturating_mul(n);
    match u32::try_from(product / parts) {
        Ok(part) => part.min(whole),
        Err(_) => whole,
    }
}

impl Scale {
    /// For so many events in so many lanes.
    pub(crate) fn new(events: u32, lanes: u32) -> Scale {
        let width = events.saturating_mul(MOST_EVENT).min(MOST_WIDTH);
        let fitting = MOST_WIDTH / LEAST_COLUMN;
        let columns = match MOST_SHAPES.checked_div(lanes) {
            Some(columns) => columns.min(fitting).max(1),
            None => fitting,
        };
        let each = if events <= columns {
            1
        } else {
            events.div_ceil(columns)
        };
        Scale {
            events,
            each: each.max(1),
            width,
        }
    }

    /// The column of an event.
    pub(crate) fn column_of(&self, event: u32) -> u32
        ensures { result ≡ column_in self.now.each event }
    {
        if self.each == 0 {
            event
        } else {
            event / self.each
        }
    }

    /// The column behind the last event.
    pub(crate) fn last_column(&self) -> u32
        ensures { result ≡ last_column self.now }
    {
        self.column_of(self.events).min(u32::MAX - 1)
    }

    /// The pixels before a column.
    pub(crate) fn before(&self, column: u32) -> u32 {
        let event = u64::from(column).saturating_mul(u64::from(self.each));
        part(self.width, event, u64::from(self.events))
    }

    /// How many events lie between two marks of the axis.
    pub(crate) fn between_ticks(&self) -> u32 {
        let mut ten: u32 = 1;
        for _ in 0..9 {
            for times in [1u32, 2, 5] {
                let events = ten.saturating_mul(times);
                if part(self.width, u64::from(events), u64::from(self.events)) >= 60 {
                    return events;
                }
            }
            ten = ten.saturating_mul(10);
        }
        ten
    }
}
