//! The events that brought a new date.
use jcl_plan::entry::Entry;
use std::alloc::{AllocError, Global};

/// A new date, by its year and the day of the year.
#[derive(Clone, Copy)]
pub struct DateMark {
    pub event: u32,
    pub year: u16,
    pub day: u16,
}

/// The new dates, in the order of their events.
#[derive(Drop)]
pub struct Dates {
    pub marks: Vec<DateMark>,
}

impl Dates {
    pub fn empty(alloc: Global) -> Dates {
        Dates {
            marks: Vec::new(alloc),
        }
    }

    /// An event's lines.
    pub fn add(&mut self, event: u32, lines: &[Entry]) -> Result<(), AllocError> {
        for entry in lines {
            if let Entry::Date { year, day } = entry {
                self.marks.push(DateMark {
                    event,
                    year: *year,
                    day: *day,
                })?;
            }
        }
        Ok(())
    }
}
