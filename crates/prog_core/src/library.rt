//! The programs of a session, each by its name.
ghost use Rattle.std.specs.Prelude.{◌≡◌, ◌<◌, ◌++◌, ◌∷◌, [], None, IfSome, OnOk, OnErr, is_some, length, slice_get};
ghost use Rattle.std.specs.Option.{option_map};
ghost use Rattle.jcl_meaning.specs.Programs.{ending_of, moves_of, program_of};

use crate::counted::CountedProgram;
use jcl_meaning::program::{Move, is_iefbr14};
use jcl_plan::outcome::{Abend, Code, Outcome};
use jname_core::name8::Name8;
use kept_requests::requests::SharedRequests;
use name_places::places::NamePlaces;
use std::alloc::{AllocError, Global};
use std::marker::Model;

/// The programs in the order in which they were added; one is found by its name without going through them all, and so is each record
/// that it moves.
#[derive(Drop)]
pub struct ProgramLibrary {
    list: Vec<CountedProgram>,
    /// The names of the programs, in the same order.
    places: NamePlaces,
}

impl Model for ProgramLibrary {
    ghost use Rattle.std.specs.Prelude.{◌≡◌, List, map};
    ghost use Rattle.jcl_meaning.specs.declared.program.SoloProgram.{SoloProgram};

    ghost Value = { List SoloProgram };

    ghost view = { λ l. l.list.items };

    ghost invariant = { λ l. map (λ p. p.name) l.list.items ≡ l.places };
}

impl ProgramLibrary {
    /// A library without programs.
    pub fn new(alloc: Global) -> ProgramLibrary
        ensures { result ≡ [] }
    {
        ProgramLibrary {
            list: Vec::new(alloc),
            places: NamePlaces::new(alloc),
        }
    }

    pub fn has(&self, name: &Name8) -> bool
        ensures { result ≡ is_some (program_of self.now name.now) }
    {
        self.places.find(name.as_slice()).is_some()
    }

    /// Adds a program of a new name. An `Err` changes nothing.
    pub fn add(&mut self, name: Name8, requests: SharedRequests) -> Result<(), AllocError>
        requires { program_of self.old name ≡ None }
        ensures ok { OnOk result (self.new ≡ self.old ++ record { name = name; requests = requests } ∷ []) }
        ensures err { OnErr result (self.new ≡ self.old) }
    {
        let counted = CountedProgram::new(name, requests);
        self.list.reserve(1)?;
        self.places.add(name.as_slice())?;
        let Ok(()) = self.list.push(counted) else {
            unreachable!();
        };
        Ok(())
    }

    fn find(&self, name: &Name8) -> Option<&CountedProgram>
        ensures { option_map (λ p. p.now.requests) result ≡ program_of self.now name.now }
    {
        match self.places.find(name.as_slice()) {
            Some(place) => self.list.get(place),
            None => None,
        }
    }

    /// How many records a step's program moves.
    pub fn move_count(&self, name: &Name8) -> usize
        ensures { result ≡ length (moves_of self.now name.now) }
    {
        if is_iefbr14(name) {
            return 0;
        }
        match self.find(name) {
            None => 0,
            Some(program) => program.move_count(),
        }
    }

    /// The move at a place of a step's program, from 0.
    pub fn move_at(&self, name: &Name8, place: usize) -> Option<Move>
        ensures value { result ≡ slice_get (moves_of self.now name.now) place }
        ensures fits { IfSome result (λ _. place < usize.MAX) }
    {
        if is_iefbr14(name) {
            return None;
        }
        match self.find(name) {
            None => None,
            Some(program) => program.move_at(place),
        }
    }

    /// How a step's program ends by itself: IEFBR14 with code 0, and one that is not there with S806.
    pub fn ending_of(&self, name: &Name8) -> Outcome
        ensures { result ≡ ending_of self.now name.now }
    {
        if is_iefbr14(name) {
            return Outcome::Code(Code::zero());
        }
        match self.find(name) {
            None => Outcome::Abend(Abend::S806),
            Some(program) => program.ending(),
        }
    }
}
