//! Events that did nothing.
use std::alloc::{AllocError, Global};

/// Events in a row that did nothing, from one on up to another.
#[derive(Clone, Copy)]
pub struct Still {
    pub from: u32,
    pub to: u32,
}

/// The events that did nothing, row by row.
#[derive(Drop)]
pub struct Stills {
    pub rows: Vec<Still>,
}

impl Stills {
    pub fn empty(alloc: Global) -> Stills {
        Stills {
            rows: Vec::new(alloc),
        }
    }

    /// This event did nothing. Events come in their order.
    pub fn add(&mut self, event: u32) -> Result<(), AllocError> {
        let end = event.saturating_add(1);
        if let Some(last) = self.rows.last_mut() {
            if last.to == event {
                last.to = end;
                return Ok(());
            }
        }
        self.rows.push(Still {
            from: event,
            to: end,
        })?;
        Ok(())
    }
}
