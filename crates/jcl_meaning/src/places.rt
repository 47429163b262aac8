//! Where the sets of a job's DDs are made, each place found without going through them all.
ghost use Rattle.std.specs.Prelude.{◌≡◌, ◌++◌, ◌∷◌, [], OnErr, OnOk};
ghost use Rattle.jcl_meaning.specs.Resolutions.{place_of};

use crate::in_order::{OfDd, keeps_order, said_of};
use crate::state::Place;
use jname_core::serial::Serial;
use plain::listed::Listed;
use std::alloc::{AllocError, Global};
use std::marker::Model;

impl OfDd for Place {
    ghost step_of = { λ p. p.step };

    ghost dd_of = { λ p. p.dd };

    fn spot(&self) -> (usize, usize) {
        (self.step, self.dd)
    }
}

/// A list of places. They are added in the order of steps and DDs; where they are not, one is found by going through them.
#[derive(Drop)]
pub struct Places {
    list: Listed<Place>,
    in_order: bool,
}

impl Model for Places {
    ghost use Rattle.std.specs.Prelude.{◌≡◌, List, true};
    ghost use Rattle.jcl_meaning.specs.declared.state.Place.{Place};
    ghost use Rattle.jcl_meaning.specs.InOrder.{AreInOrder};

    ghost Value = { List Place };

    ghost view = { λ p. p.list };

    ghost invariant = { λ p. p.in_order ≡ true → AreInOrder (λ x. x.step) (λ x. x.dd) p.list };
}

impl Clone for Places {
    ghost use Rattle.std.specs.Prelude.{◌≡◌};

    ghost is_clone = { λ places copy. copy ≡ places };

    fn clone(&self) -> Result<Places, AllocError> {
        Ok(Places {
            list: self.list.clone()?,
            in_order: self.in_order,
        })
    }
}

impl Places {
    /// No place.
    pub fn empty(alloc: Global) -> Places
        ensures { result ≡ [] }
    {
        Places {
            list: Listed::empty(alloc),
            in_order: true,
        }
    }

    /// Adds one at the end. An `Err` changes nothing.
    pub fn push(&mut self, place: Place) -> Result<(), AllocError>
        ensures ok { OnOk result (self.new ≡ self.old ++ place ∷ []) }
        ensures err { OnErr result (self.new ≡ self.old) }
    {
        let keeps = self.in_order && keeps_order(self.list.as_slice(), &place);
        self.list.push(place)?;
        self.in_order = keeps;
        Ok(())
    }

    pub fn as_slice(&self) -> &[Place]
        ensures { result.now ≡ self.now }
    {
        self.list.as_slice()
    }

    /// The volume on which the set of a DD is made, if it has a place; of two places the first counts.
    pub fn of(&self, step: usize, dd: usize) -> Option<Serial>
        ensures { result ≡ place_of self.now step dd }
    {
        match said_of(self.list.as_slice(), self.in_order, step, dd) {
            Some(place) => Some(place.serial),
            None => None,
        }
    }
}
