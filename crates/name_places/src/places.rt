//! The names of a list, and the place of each.
ghost use Rattle.std.specs.Prelude.{◌≡◌, ◌≤◌, ◌++◌, ◌∷◌, [], None, OnOk, OnErr, length};
ghost use Rattle.name_places.specs.Places.{place_of};

use plain::short::Short;
use std::alloc::{AllocError, Global};
use std::collections::BTreeMap;
use std::marker::Model;

/// The names of a list in its order, each found by its place. None is there twice.
#[derive(Drop)]
pub struct NamePlaces {
    names: Vec<Short<8>>,
    places: BTreeMap<Short<8>, usize>,
}

impl Model for NamePlaces {
    ghost use Rattle.std.specs.Prelude.{ℕ, List};
    ghost use Rattle.name_places.specs.Places.{ArePlacesOf};

    ghost Value = { List (List ℕ) };

    ghost view = { λ p. p.names.items };

    ghost invariant = { λ p. ArePlacesOf p.places p.names.items };
}

impl NamePlaces {
    /// No names.
    pub fn new(alloc: Global) -> NamePlaces
        ensures { result ≡ [] }
    {
        NamePlaces {
            names: Vec::new(alloc),
            places: BTreeMap::new(alloc),
        }
    }

    /// How many names there are.
    pub fn len(&self) -> usize
        ensures { result ≡ length self.now }
    {
        self.names.len()
    }

    /// The place of a name, from 0.
    pub fn find(&self, name: &[u8]) -> Option<usize>
        requires { length name.now ≤ 8 }
        ensures { result ≡ place_of self.now name.now }
    {
        self.places.get(&Short::new(name)).copied()
    }

    /// Adds a name that is not there yet, behind the others. An `Err` changes nothing.
    pub fn add(&mut self, name: &[u8]) -> Result<(), AllocError>
        requires short { length name.now ≤ 8 }
        requires new { place_of self.old name.now ≡ None }
        ensures ok { OnOk result (self.new ≡ self.old ++ name.now ∷ []) }
        ensures err { OnErr result (self.new ≡ self.old) }
    {
        let name = Short::new(name);
        self.names.reserve(1)?;
        let Ok(_) = self.places.insert(name, self.names.len()) else {
            return Err(AllocError);
        };
        let Ok(()) = self.names.push(name) else {
            unreachable!();
        };
        Ok(())
    }
}
