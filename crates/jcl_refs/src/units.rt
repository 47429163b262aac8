//! The names of units with their numbers, found without going through them all. (UNIT parameter)
ghost use Rattle.std.specs.Prelude.{◌≡◌, ◌<◌, ◌++◌, ◌∷◌, [], length, None, OnOk, OnErr};
ghost use Rattle.jcl_refs.specs.Plans.{unit_number};

use jname_core::name8::UnitName;
use name_places::places::NamePlaces;
use std::alloc::{AllocError, Global};
use std::marker::Model;

/// The names of units in the order of the configuration. They count from 1.
#[derive(Drop)]
pub struct UnitNames {
    places: NamePlaces,
}

impl Model for UnitNames {
    ghost use Rattle.std.specs.Prelude.{◌≤◌, ℕ, List, length};

    ghost Value = { List (List ℕ) };

    ghost view = { λ u. u.places };

    ghost invariant = { λ u. length u.places ≤ 65535 };
}

impl UnitNames {
    /// No names.
    pub fn new(alloc: Global) -> UnitNames
        ensures { result ≡ [] }
    {
        UnitNames {
            places: NamePlaces::new(alloc),
        }
    }

    /// How many names there are.
    pub fn len(&self) -> usize
        ensures { result ≡ length self.now }
    {
        self.places.len()
    }

    /// The number of a name, where it is configured.
    pub fn number(&self, name: &UnitName) -> Option<u16>
        ensures { result ≡ unit_number self.now name.now }
    {
        let place = self.places.find(name.as_slice())?;
        Some(place as u16 + 1)
    }

    /// Adds a name that is not there yet. An `Err` changes nothing.
    pub fn add(&mut self, name: UnitName) -> Result<(), AllocError>
        requires new { unit_number self.old name ≡ None }
        requires room { length self.old < 65535 }
        ensures ok { OnOk result (self.new ≡ self.old ++ name ∷ []) }
        ensures err { OnErr result (self.new ≡ self.old) }
    {
        self.places.add(name.as_slice())?;
        Ok(())
    }
}
