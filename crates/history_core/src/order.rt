//! Which names have a lane of their own in a picture, and in which order.
ghost use Rattle.std.specs.Prelude.{◌≡◌, ◌≤◌, [], IfOk, OnOk, length};

use crate::lane::{Lane, What};
use crate::look::Look;
use crate::names::{JobHolds, NameLane, Names};
use std::alloc::{AllocError, Global};

/// So many names have a lane of their own, and so many lanes the jobs that hold others.
const MOST_NAMES: usize = 60;

const MOST_TOGETHER: usize = 16;

/// The places of the names that have a lane of their own, in their order, and the lanes of jobs that hold other names.
#[derive(Drop)]
pub struct Drawn {
    pub places: Vec<usize>,
    pub together: Vec<Lane>,
}

/// Whether a name comes before another: more events were waited for it, or as many, and it was held first.
fn is_before(waited: usize, place: usize, other: (usize, usize)) -> bool {
    waited > other.0 || (waited == other.0 && place < other.1)
}

/// Whether a name may come behind the last that was taken.
fn is_behind(last: Option<(usize, usize)>, waited: usize, place: usize) -> bool {
    match last {
        Some((before, at)) => is_before(before, at, (waited, place)),
        None => true,
    }
}

/// The wanted name that comes behind the last one, with its events.
fn next_name(lanes: &[NameLane], last: Option<(usize, usize)>) -> Option<(usize, usize)> {
    let mut best: Option<(usize, usize)> = None;
    for (place, lane) in lanes.iter().enumerate() {
        if !lane.wanted || !is_behind(last, lane.waited, place) {
            continue;
        }
        let better = match best {
            Some(best) => is_before(lane.waited, place, best),
            None => true,
        };
        if better {
            best = Some((lane.waited, place));
        }
    }
    best
}

/// Adds the names that a job holds and that have no lane of their own: how many, and their text.
fn names_together(
    names: &Names,
    holds: &JobHolds,
    own: &[usize],
    text: &mut Vec<u8>,
) -> Result<usize, AllocError> {
    let mut count: usize = 0;
    text.clear();
    for place in &holds.names {
        if own.contains(place) {
            continue;
        }
        if let Some(lane) = names.lanes.get(*place) {
            count = count.saturating_add(1);
            text.extend_from_slice(lane.name.as_slice())?;
            text.push(b'\n')?;
        }
    }
    Ok(count)
}

impl Drawn {
    /// The first lane that is free at an event. Where none is, that behind the last.
    fn free_lane(&self, event: u32) -> usize {
        let mut place: usize = 0;
        for lane in &self.together {
            if lane.is_free(event) {
                return place;
            }
            place = place.saturating_add(1);
        }
        place
    }

    fn add_job(
        &mut self,
        alloc: Global,
        holds: &JobHolds,
        count: usize,
        text: &[u8],
    ) -> Result<(), AllocError>
        requires { length self.old.together.items ≤ MOST_TOGETHER }
        ensures few { OnOk result (length self.new.together.items ≤ MOST_TOGETHER) }
        ensures places { self.new.places ≡ self.old.places }
    {
        let place = self.free_lane(holds.from);
        if place >= self.together.len() {
            if place >= MOST_TOGETHER {
                return Ok(());
            }
            self.together.push(Lane::empty(alloc))?;
        }
        let what = What {
            look: Look::Together,
            job: holds.job,
            number: count,
        };
        match self.together.get_mut(place) {
            Some(lane) => {
                lane.push(alloc, holds.from, holds.to, what)?;
                lane.tell(text)
            }
            None => Ok(()),
        }
    }

    fn add_own(&mut self, names: &Names) -> Result<(), AllocError>
        requires { self.old.places.items ≡ [] }
        ensures few { OnOk result (length self.new.places.items ≤ MOST_NAMES) }
        ensures together { self.new.together ≡ self.old.together }
    {
        let mut last: Option<(usize, usize)> = None;
        for _taken in 0..MOST_NAMES {
            let next = next_name(names.lanes.as_slice(), last);
            let Some((_, place)) = next else {
                return Ok(());
            };
            self.places.push(place)?;
            last = next;
        }
        Ok(())
    }

    /// Of these names.
    pub fn of(alloc: Global, names: &Names) -> Result<Drawn, AllocError>
        ensures own { IfOk result (λ drawn. length drawn.places.items ≤ MOST_NAMES) }
        ensures together { IfOk result (λ drawn. length drawn.together.items ≤ MOST_TOGETHER) }
    {
        let mut drawn = Drawn {
            places: Vec::new(alloc),
            together: Vec::new(alloc),
        };
        drawn.add_own(names)?;
        let mut text = Vec::new(alloc);
        for holds in &names.jobs {
            let count = names_together(names, holds, drawn.places.as_slice(), &mut text)?;
            if count > 0 {
                drawn.add_job(alloc, holds, count, text.as_slice())?;
            }
        }
        Ok(drawn)
    }
}
