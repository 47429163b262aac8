//! A group and its generations.
ghost use Rattle.std.specs.Prelude.{◌≡◌, ◌<◌, ◌≤◌, ◌==◌, [], None, OnOk, OnErr, IsSome, IfOk, IfSome, Ok, Err, MatchResult, nat_lt, length, vec_len, vec_capacity, slice_get, Some};
ghost use Rattle.std.specs.List.{position, insert, remove};
ghost use Rattle.group_core.specs.declared.group.Generation.{Generation};
ghost use Rattle.group_core.specs.Groups.{GroupState, IsFalling, entered, entered_again, inserted, lowest_of, newest_of, number_or_fault, rolled_off, serial_of, resolved, RollsInRange, with_entered, without, IsRolled, LacksGeneration};

use jname_core::key::Sign;
use jname_core::serial::Serial;
use std::alloc::{AllocError, Global};
use std::marker::Model;
use thiserror::Error;

/// A generation that is entered: its number, 1 to 9999, and the volume of its set.
#[derive(Clone, Copy, PartialEq, Eq)]
pub struct Generation {
    pub number: u16,
    pub serial: Serial,
}

/// A generation data group: how many generations it holds at most, whether the set of one that rolls off is scratched, and its
/// generations, the newest first. Room for all that it may hold is taken when it is made.
#[derive(Drop)]
pub struct Group {
    limit: u8,
    scratch: bool,
    generations: Vec<Generation>,
}

impl Model for Group {
    ghost use Rattle.std.specs.Prelude.{◌<◌, ◌≤◌};
    ghost use Rattle.std.specs.Vec.{vec_capacity};
    ghost use Rattle.group_core.specs.Groups.{GroupState, IsFalling};

    ghost Value = { GroupState };

    ghost view = { λ g. record { limit = g.limit; scratch = g.scratch; generations = g.generations.items } };

    ghost invariant = { λ g. IsFalling 10000 g.generations.items × (g.limit ≤ vec_capacity g.generations) };
}

/// What entering a generation did.
#[derive(Clone, Copy, PartialEq, Eq)]
pub enum Rolled {
    /// It was entered.
    Entered,
    /// It was entered in place of the lowest, which had this number and volume.
    Removed { number: u16, serial: Serial },
    /// The group is full and it would be the lowest: nothing was entered.
    Lowest,
    /// It was there already, on that volume.
    Same,
}

/// Where a generation stands.
fn place_of(generations: &[Generation], number: u16) -> Option<usize>
    ensures { result ≡ position (λ g. g.number == number) generations.now }
{
    generations.iter().position(|g| g.number == number)
}

fn first_older(generations: &[Generation], number: u16) -> Option<usize>
    ensures { result ≡ position (λ g. nat_lt g.number number) generations.now }
{
    generations.iter().position(|g| g.number < number)
}

/// Where a new generation goes: behind those that are newer.
fn place_for(generations: &[Generation], new: &Generation) -> usize
    ensures value { insert generations.now result new.now ≡ inserted new.now generations.now }
    ensures range { result ≤ length generations.now }
{
    match first_older(generations, new.number) {
        Some(place) => place,
        None => generations.len(),
    }
}

/// Puts a new generation in its place, where there is room.
fn add(generations: &mut Vec<Generation>, new: Generation)
    requires number { (0 < new.number) × (new.number ≤ 9999) }
    requires other { serial_of generations.old.items new.number ≡ None }
    requires falling { IsFalling 10000 generations.old.items }
    requires room { vec_len generations.old < vec_capacity generations.old }
    ensures value { generations.new.items ≡ inserted new generations.old.items }
    ensures falling { IsFalling 10000 generations.new.items }
    ensures room { vec_capacity generations.old ≤ vec_capacity generations.new }
{
    let place = place_for(generations.as_slice(), &new);
    if generations.insert(place, new).is_err() {
        unreachable!();
    }
}

/// Takes the lowest generation away and puts a new one in its place.
fn roll(generations: &mut Vec<Generation>, new: Generation)
    requires number { (0 < new.number) × (new.number ≤ 9999) }
    requires other { serial_of generations.old.items new.number ≡ None }
    requires falling { IsFalling 10000 generations.old.items }
    requires some { 0 < vec_len generations.old }
    ensures rolled { IsRolled generations.old.items new generations.new.items }
    ensures falling { IsFalling 10000 generations.new.items }
    ensures room { vec_capacity generations.old ≤ vec_capacity generations.new }
{
    generations.pop();
    add(generations, new);
}

/// What entering a new number answers in a full group, of which this is the lowest generation.
fn rolled_off(lowest: Option<Generation>, number: u16) -> Rolled
    ensures { result ≡ rolled_off lowest number }
{
    match lowest {
        Some(low) if low.number <= number => Rolled::Removed {
            number: low.number,
            serial: low.serial,
        },
        _ => Rolled::Lowest,
    }
}

/// What entering a number answers that is there already, on this volume.
fn entered_again(there: &Serial, serial: &Serial) -> Result<Rolled, GroupFault>
    ensures { result ≡ entered_again there.now serial.now }
{
    if there == serial {
        Ok(Rolled::Same)
    } else {
        Err(GroupFault::Elsewhere)
    }
}

/// What a group refuses.
#[derive(Clone, Copy, Debug, PartialEq, Eq, Error)]
pub enum GroupFault {
    #[error("the generation is entered for another volume")]
    Elsewhere,
    #[error("there is no such generation")]
    NoGeneration,
    #[error("a generation's number would be above 9999")]
    TooHigh,
}

impl Clone for Group {
    ghost use Rattle.std.specs.Prelude.{◌≡◌};

    ghost is_clone = { λ g copy. copy ≡ g };

    fn clone(&self) -> Result<Group, AllocError> {
        let alloc = *self.generations.allocator();
        let mut generations = Vec::from_slice(alloc, self.generations.as_slice())?;
        let more = usize::from(self.limit).saturating_sub(generations.len());
        generations.reserve(more)?;
        Ok(Group {
            limit: self.limit,
            scratch: self.scratch,
            generations,
        })
    }
}

impl Group {
    /// A group without a generation, with room for all that it may hold. A limit of 0 holds none.
    pub fn new(alloc: Global, limit: u8, scratch: bool) -> Result<Group, AllocError>
        ensures { IfOk result (λ group. group ≡ record { limit = limit; scratch = scratch; generations = [] }) }
    {
        Ok(Group {
            limit,
            scratch,
            generations: Vec::with_capacity(alloc, usize::from(limit))?,
        })
    }

    /// How many generations it holds at most.
    pub fn limit(&self) -> u8
        ensures { result ≡ self.now.limit }
    {
        self.limit
    }

    /// Whether the set of a generation that rolls off is scratched.
    pub fn scratches(&self) -> bool
        ensures { result ≡ self.now.scratch }
    {
        self.scratch
    }

    /// The generations, the newest first.
    pub fn generations(&self) -> &[Generation]
        ensures value { result.now ≡ self.now.generations }
        ensures falling { IsFalling 10000 self.now.generations }
    {
        self.generations.as_slice()
    }

    /// The volume of a generation.
    pub fn find(&self, number: u16) -> Option<Serial>
        ensures { result ≡ serial_of self.now.generations number }
    {
        match place_of(self.generations.as_slice(), number) {
            Some(place) => Some(self.generations[place].serial),
            None => None,
        }
    }

    /// The number that a relative number means: +n is n after the newest, of an empty group n; 0 the newest; -n the n-th before it.
    pub fn resolve(&self, sign: Sign, amount: u8) -> Result<u16, GroupFault>
        ensures value { result ≡ resolved self.now.generations sign amount }
        ensures range { IfOk result (λ n. (0 < n) × (n ≤ 9999)) }
    {
        match sign {
            Sign::Plus if amount > 0 => {
                let number = self.newest() + u16::from(amount);
                if number > 9999 {
                    return Err(GroupFault::TooHigh);
                }
                Ok(number)
            }
            _ => self.number_at(amount),
        }
    }

    /// What entering a generation would answer.
    pub fn would_enter(&self, number: u16, serial: Serial) -> Result<Rolled, GroupFault>
        ensures { result ≡ entered self.now number serial }
    {
        if let Some(there) = self.find(number) {
            return entered_again(&there, &serial);
        }
        if usize::from(self.limit) <= self.generations.len() {
            return Ok(rolled_off(self.lowest(), number));
        }
        Ok(Rolled::Entered)
    }

    /// Enters a generation: in a full group in place of the lowest. It takes no memory. An `Err` changes nothing.
    pub fn enter(&mut self, number: u16, serial: Serial) -> Result<Rolled, GroupFault>
        requires { (0 < number) × (number ≤ 9999) }
        ensures answer { result ≡ entered self.old number serial }
        ensures ok { OnOk result (self.new ≡ with_entered self.old number serial) }
        ensures range { IfOk result RollsInRange }
        ensures err { OnErr result (self.new ≡ self.old) }
    {
        if let Some(there) = self.find(number) {
            return entered_again(&there, &serial);
        }
        let new = Generation { number, serial };
        if self.generations.len() < usize::from(self.limit) {
            add(&mut self.generations, new);
            return Ok(Rolled::Entered);
        }
        match self.lowest() {
            Some(lowest) if lowest.number <= number => {
                roll(&mut self.generations, new);
                Ok(Rolled::Removed {
                    number: lowest.number,
                    serial: lowest.serial,
                })
            }
            _ => Ok(Rolled::Lowest),
        }
    }

    /// Removes a generation. An `Err` changes nothing.
    pub fn remove(&mut self, number: u16) -> Result<(), GroupFault>
        ensures ok { OnOk result (self.new ≡ record self.old { generations = without self.old.generations number }) }
        ensures err { OnErr result (self.new ≡ self.old) }
        ensures answer { MatchResult result (λ _. IsSome (serial_of self.old.generations number)) (LacksGeneration self.old.generations number) }
    {
        match place_of(self.generations.as_slice(), number) {
            Some(place) => {
                self.generations.remove(place);
                Ok(())
            }
            None => Err(GroupFault::NoGeneration),
        }
    }

    /// The number of a generation by its place, the newest at 0.
    fn number_at(&self, place: u8) -> Result<u16, GroupFault>
        ensures value { result ≡ number_or_fault (slice_get self.now.generations place) }
        ensures range { IfOk result (λ n. (0 < n) × (n ≤ 9999)) }
    {
        match self.generations.get(usize::from(place)) {
            Some(generation) => Ok(generation.number),
            None => Err(GroupFault::NoGeneration),
        }
    }

    /// The newest number, or 0 of an empty group.
    fn newest(&self) -> u16
        ensures value { result ≡ newest_of self.now.generations }
        ensures range { result ≤ 9999 }
    {
        match self.generations.first() {
            Some(generation) => generation.number,
            None => 0,
        }
    }

    fn lowest(&self) -> Option<Generation>
        ensures lowest { result ≡ lowest_of self.now.generations }
        ensures range { IfSome result (λ g. (0 < g.number) × (g.number ≤ 9999)) }
    {
        self.generations.last().copied()
    }
}
