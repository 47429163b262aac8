//! Procedures of the library.
ghost use Rattle.std.specs.Prelude.{◌≡◌, ◌++◌, ◌∷◌, [], false, IfOk, OnOk, OnErr};
ghost use Rattle.std.specs.Option.{option_copied};
ghost use Rattle.card_core.specs.Deck.{statements_of};
ghost use Rattle.proc_library.specs.Libraries.{has_procedure, in_library, reading_in};

use crate::lines::Lines;
use crate::reading::{Reading, reading_of};
use jname_core::name8::Name8;
use name_places::places::NamePlaces;
use plain::lent::Lent;
use std::alloc::{AllocError, Global};
use std::marker::Model;

/// A procedure of the library, by its name: its lines.
#[derive(Drop)]
pub struct LibraryProcedure {
    pub name: Name8,
    pub lines: Lines,
}

/// A procedure, and what its cards are.
#[derive(Drop)]
struct Entry {
    procedure: LibraryProcedure,
    reading: Reading,
}

/// Lines that outlive those that lend them, and what they are as cards.
fn read_lines(alloc: Global, lines: &[Lent<'_>]) -> Result<(Lines, Reading), AllocError>
    ensures lines { IfOk result (λ r. r.0 ≡ lines.now) }
    ensures reading { IfOk result (λ r. r.1 ≡ statements_of r.0) }
{
    let reading = reading_of(alloc, lines)?;
    Ok((Lines::copy_of(alloc, lines)?, reading))
}

/// The library in the order in which its procedures were added; one is found by its name without going through them all.
/// The cards of each are read once, when it is added.
#[derive(Drop)]
pub struct ProcLibrary {
    list: Vec<Entry>,
    /// The names of the procedures, in the same order.
    places: NamePlaces,
}

impl Model for ProcLibrary {
    ghost use Rattle.std.specs.Prelude.{◌≡◌, List, map};
    ghost use Rattle.proc_library.specs.declared.library.LibraryProcedure.{LibraryProcedure};
    ghost use Rattle.proc_library.specs.Entries.{AreRead};

    ghost Value = { List LibraryProcedure };

    ghost view = { λ l. map (λ e. e.procedure) l.list.items };

    ghost invariant = { λ l. (map (λ e. e.procedure.name) l.list.items ≡ l.places) × AreRead l.list.items };
}

impl ProcLibrary {
    /// A library without procedures.
    pub fn new(alloc: Global) -> ProcLibrary
        ensures { result ≡ [] }
    {
        ProcLibrary {
            list: Vec::new(alloc),
            places: NamePlaces::new(alloc),
        }
    }

    pub fn has(&self, name: &Name8) -> bool
        ensures { result ≡ has_procedure self.now name.now }
    {
        self.places.find(name.as_slice()).is_some()
    }

    /// The procedure of a name.
    pub fn find(&self, name: &Name8) -> Option<&LibraryProcedure>
        ensures { option_copied result ≡ in_library self.now name.now }
    {
        match self.places.find(name.as_slice()) {
            Some(place) => match self.list.get(place) {
                Some(entry) => Some(&entry.procedure),
                None => None,
            },
            None => None,
        }
    }

    /// What the cards of the procedure of a name are.
    pub fn reading(&self, name: &Name8) -> Option<&Reading>
        ensures { option_copied result ≡ reading_in self.now name.now }
    {
        match self.places.find(name.as_slice()) {
            Some(place) => match self.list.get(place) {
                Some(entry) => Some(&entry.reading),
                None => None,
            },
            None => None,
        }
    }

    /// Adds a procedure of a new name: its lines are kept, and its cards are read. An `Err` changes nothing.
    pub fn add(&mut self, alloc: Global, name: Name8, lines: &[Lent<'_>]) -> Result<(), AllocError>
        requires { has_procedure self.old name ≡ false }
        ensures ok { OnOk result (self.new ≡ self.old ++ record { name = name; lines = lines.now } ∷ []) }
        ensures err { OnErr result (self.new ≡ self.old) }
    {
        let (lines, reading) = read_lines(alloc, lines)?;
        self.list.reserve(1)?;
        self.places.add(name.as_slice())?;
        let procedure = LibraryProcedure { name, lines };
        let Ok(()) = self.list.push(Entry { procedure, reading }) else {
            unreachable!();
        };
        Ok(())
    }
}
