//! Places by name, of which the last of a name is found without going through them all.
ghost use Rattle.std.specs.Prelude.{◌≡◌, ◌++◌, ℕ, List, IfOk, MatchOption, OnOk, Some, []};
ghost use Rattle.std.specs.Str.{bytes_eq};
ghost use Rattle.name_places.specs.Places.{place_of};
ghost use Rattle.jcl_refs.specs.Waiting.{AreAligned, own, places_at, LosesPlace};

use jname_core::name8::Name8;
use name_places::places::NamePlaces;
use std::alloc::{AllocError, Global};

/// The places of each name, in their order.
#[derive(Drop)]
pub(crate) struct Places {
    names: NamePlaces,
    places: Vec<Vec<usize>>,
}

impl Places {
    /// No places.
    pub(crate) fn new(alloc: Global) -> Places
        ensures aligned { AreAligned result }
        ensures none { (x : List ℕ) → places_at result x ≡ [] }
    {
        Places {
            names: NamePlaces::new(alloc),
            places: Vec::new(alloc),
        }
    }

    /// The number of a name, which gets one where it has none.
    fn number(&mut self, alloc: Global, name: Name8) -> Result<usize, AllocError>
        requires { AreAligned self.old }
        ensures aligned { OnOk result (AreAligned self.new) }
        ensures found { IfOk result (λ n. place_of self.new.names name ≡ Some n) }
        ensures same { OnOk result ((x : List ℕ) → places_at self.new x ≡ places_at self.old x) }
    {
        if let Some(number) = self.names.find(name.as_slice()) {
            return Ok(number);
        }
        let number = self.names.len();
        self.names.add(name.as_slice())?;
        self.places.push(Vec::new(alloc))?;
        Ok(number)
    }

    /// Puts a place after those of a name.
    pub(crate) fn push(
        &mut self,
        alloc: Global,
        name: Name8,
        place: usize,
    ) -> Result<(), AllocError>
        requires { AreAligned self.old }
        ensures aligned { OnOk result (AreAligned self.new) }
        ensures more { OnOk result ((x : List ℕ) → places_at self.new x ≡ places_at self.old x ++ own (bytes_eq name x) place) }
    {
        let number = self.number(alloc, name)?;
        self.places[number].push(place)?;
        Ok(())
    }

    /// Takes the last place of a name.
    pub(crate) fn pop(&mut self, name: Name8) -> Option<usize>
        requires { AreAligned self.old }
        ensures aligned { AreAligned self.new }
        ensures none { MatchOption result (places_at self.old name ≡ []) (λ place. LosesPlace self.old name place self.new) }
        ensures same { MatchOption result ((x : List ℕ) → places_at self.new x ≡ places_at self.old x) (λ place. place ≡ place) }
    {
        let number = self.names.find(name.as_slice())?;
        self.places[number].pop()
    }
}
