//! The spool.
ghost use Rattle.std.specs.Prelude.{ℕ, List, ◌≡◌, ◌+◌, ◌≤◌, ◌∷◌, ◌++◌, [], IfNone, IfSome, OnErr, OnOk, length, map, vec_capacity};
ghost use Rattle.machine_meaning.specs.Spools.{HasNoSet, Takes, output_set, sets_of, with_sets};
ghost use Rattle.spool_core.specs.declared.spool.Place.{Place};
ghost use Rattle.spool_core.specs.Places.{AddsSets, AreStarts, HasRoom, IsFirst, MovesStart, NoneBefore, Stand, TakesRoom, filled_places};
ghost use Rattle.spool_core.specs.Sets.{has_set};

use crate::queued::Queued;
use jcl_meaning::state::Output;
use jcl_plan::entry::{JobLine, Written};
use plain::listed::Listed;
use slab::Slab;
use std::alloc::{AllocError, Global};
use std::marker::Model;
use std::mem::replace;

/// The class of a set, the key under which it lies, and whether it is still there: it is written out else.
#[derive(Clone, Copy)]
struct Place {
    class: u8,
    key: usize,
    filled: bool,
}

/// The classes, by their byte.
const CLASSES: usize = 256;

/// Sets of lines, in the order in which their jobs ended.
#[derive(Drop)]
pub struct Spool {
    alloc: Global,
    sets: Slab<Queued>,
    places: Vec<Place>,
    /// Of each class a place before which none of its sets lies: where its queue begins, when it was last looked at.
    starts: Vec<usize>,
}

impl Model for Spool {
    ghost use Rattle.std.specs.Prelude.{List};
    ghost use Rattle.machine_meaning.specs.declared.machine.SpoolSet.{SpoolSet};
    ghost use Rattle.spool_core.specs.declared.spool.Place.{Place};
    ghost use Rattle.spool_core.specs.Places.{AreStarts, Stand, filled_places, sets_at};

    ghost Value = { List SpoolSet };

    ghost view = { λ s. sets_at s.sets (filled_places s.places.items) };

    ghost invariant = { λ s. Stand s.sets (filled_places s.places.items) × AreStarts s.starts.items s.places.items };
}

impl Spool {
    pub fn new(alloc: Global) -> Spool
        ensures { result ≡ [] }
    {
        Spool {
            alloc,
            sets: Slab::new(alloc),
            places: Vec::new(alloc),
            starts: Vec::new(alloc),
        }
    }

    /// Takes over what a job that is over gives to the writers: its listing with this last line, and its SYSOUT sets, behind the others. Each goes over with
    /// its memory. An `Err` changes nothing.
    pub fn enter(
        &mut self,
        job: u16,
        class: u8,
        listing: &mut Listed<JobLine>,
        last: JobLine,
        outputs: &mut Listed<Output>,
    ) -> Result<(), AllocError>
        ensures ok { OnOk result (self.new ≡ with_sets self.old (sets_of job class (listing.old ++ last ∷ []) outputs.old)) }
        ensures err { OnErr result (self.new ≡ self.old) }
        ensures listing { OnErr result (listing.new ≡ listing.old) }
        ensures outputs { OnErr result (outputs.new ≡ outputs.old) }
    {
        let count = outputs.as_slice().len() + 1;
        let alloc = self.alloc;
        make_starts(&mut self.starts)?;
        self.sets.reserve(count)?;
        self.places.reserve(count)?;
        listing.push(last)?;
        let lines = replace(listing, Listed::empty(alloc));
        let queued = Queued::listing(job, class, lines);
        put(&mut self.sets, &mut self.places, queued);
        let outputs = replace(outputs, Listed::empty(alloc));
        put_outputs(&mut self.sets, &mut self.places, job, outputs);
        Ok(())
    }

    /// Whether a class has a line.
    pub fn has_set(&self, class: u8) -> bool
        ensures { result ≡ has_set self.now class }
    {
        let from = start_of(self.starts.as_slice(), class);
        match index_of(self.places.as_slice(), class, from) {
            Some(_) => true,
            None => false,
        }
    }

    /// Takes the first line of a class, and tells whose it is.
    pub fn write(&mut self, class: u8) -> Option<(u16, Written)>
        ensures some { IfSome result (λ r. Takes self.old class r.0 r.1 self.new) }
        ensures none { IfNone result (HasNoSet self.old class × (self.new ≡ self.old)) }
    {
        let from = start_of(self.starts.as_slice(), class);
        let Some(index) = index_of(self.places.as_slice(), class, from) else {
            let behind = self.places.len();
            set_start(&mut self.starts, class, behind);
            return None;
        };
        set_start(&mut self.starts, class, index);
        let key = self.places[index].key;
        let Some(set) = self.sets.get_mut(key) else {
            unreachable!();
        };
        let Some(taken) = set.pop() else {
            unreachable!();
        };
        if set.has_lines() {
            return Some(taken);
        }
        self.sets.remove(key);
        self.places[index].filled = false;
        Some(taken)
    }
}

/// Has a start for each class. An `Err` leaves some.
fn make_starts(starts: &mut Vec<usize>) -> Result<(), AllocError>
    ensures { (places : List Place) → AreStarts starts.old.items places → AreStarts starts.new.items places }
{
    for class in starts.len()..CLASSES {
        let _ = class;
        starts.push(0)?;
    }
    Ok(())
}

/// Where the search for a class begins.
fn start_of(starts: &[usize], class: u8) -> usize
    ensures { (places : List Place) → AreStarts starts.now places → NoneBefore class result places }
{
    match starts.get(usize::from(class)) {
        None => 0,
        Some(start) => *start,
    }
}

/// From here on it begins at this place.
fn set_start(starts: &mut Vec<usize>, class: u8, start: usize)
    ensures { MovesStart class start starts.old.items starts.new.items }
{
    if usize::from(class) < starts.len() {
        starts[usize::from(class)] = start;
    }
}

/// Puts a set behind the others, if it has lines.
fn put(sets: &mut Slab<Queued>, places: &mut Vec<Place>, queued: Queued)
    requires stand { Stand sets.old (filled_places places.old.items) }
    requires room { HasRoom sets.old (length places.old.items) (vec_capacity places.old) 1 }
    ensures stand { Stand sets.new (filled_places places.new.items) }
    ensures entered { AddsSets sets.old places.old.items (queued ∷ []) sets.new places.new.items }
    ensures starts { (starts : List ℕ) → AreStarts starts places.old.items → AreStarts starts places.new.items }
    ensures sets { TakesRoom sets.old sets.new }
    ensures places { length places.new.items ≤ length places.old.items + 1 }
    ensures room { vec_capacity places.new ≡ vec_capacity places.old }
{
    if queued.has_lines() {
        let class = queued.class();
        let key = sets.insert_reserved(queued);
        places.push_reserved(Place {
            class,
            key,
            filled: true,
        });
    }
}

/// Puts the SYSOUT sets of a job behind the others.
fn put_outputs(sets: &mut Slab<Queued>, places: &mut Vec<Place>, job: u16, outputs: Listed<Output>)
    requires stand { Stand sets.old (filled_places places.old.items) }
    requires room { HasRoom sets.old (length places.old.items) (vec_capacity places.old) (length outputs) }
    ensures stand { Stand sets.new (filled_places places.new.items) }
    ensures entered { AddsSets sets.old places.old.items (map (output_set job) outputs) sets.new places.new.items }
    ensures starts { (starts : List ℕ) → AreStarts starts places.old.items → AreStarts starts places.new.items }
{
    for output in outputs.into_vec() {
        let queued = Queued::output(job, output);
        put(sets, places, queued);
    }
}

/// Where the first place of a class stands, behind those before which there is none.
fn index_of(places: &[Place], class: u8, from: usize) -> Option<usize>
    requires { NoneBefore class from places.now }
    ensures some { IfSome result (IsFirst places.now class) }
    ensures none { IfNone result (NoneBefore class (length places.now) places.now) }
{
    let mut index = from;
    while index < places.len() {
        if places[index].filled && places[index].class == class {
            return Some(index);
        }
        index += 1;
    }
    None
}
