//! The DDs of a step that are not looked at yet. One that is taken from among them is found by its name without going through them all.
ghost use Rattle.std.specs.Prelude.{◌≡◌, ◌∷◌, [], IfOk, MatchOption, OnOk, Some};
ghost use Rattle.jcl_refs.specs.Waiting.{IsWaiting, Takes, waiting};

use crate::places::Places;
use jcl_dds::dd::DdCard;
use jname_core::name8::Name8;
use std::alloc::{AllocError, Global};
use std::mem::replace;

/// A DD with a name, unless it is taken, and those that continue it, the last first.
#[derive(Drop)]
struct Named {
    name: Name8,
    first: Option<DdCard>,
    continued: Vec<DdCard>,
}

/// DDs in their order, the last first: those before the first with a name, and those with a name. What is taken out leaves its place, and nothing moves.
#[derive(Drop)]
pub(crate) struct Waiting {
    next: Vec<DdCard>,
    named: Vec<Named>,
    places: Places,
}

impl Waiting {
    /// None.
    fn empty(alloc: Global) -> Waiting
        ensures is { IsWaiting result }
        ensures none { waiting result ≡ [] }
    {
        Waiting {
            next: Vec::new(alloc),
            named: Vec::new(alloc),
            places: Places::new(alloc),
        }
    }

    /// Puts a DD that has a name before the others.
    fn put_named(&mut self, alloc: Global, dd: DdCard, name: Name8) -> Result<(), AllocError>
        requires is { IsWaiting self.old }
        requires named { dd.name ≡ Some name }
        ensures is { OnOk result (IsWaiting self.new) }
        ensures put { OnOk result (waiting self.new ≡ dd ∷ waiting self.old) }
    {
        self.places.push(alloc, name, self.named.len())?;
        let continued = replace(&mut self.next, Vec::new(alloc));
        self.named.push(Named {
            name,
            first: Some(dd),
            continued,
        })?;
        Ok(())
    }

    /// Puts a DD before the others.
    fn put(&mut self, alloc: Global, dd: DdCard) -> Result<(), AllocError>
        requires { IsWaiting self.old }
        ensures is { OnOk result (IsWaiting self.new) }
        ensures put { OnOk result (waiting self.new ≡ dd ∷ waiting self.old) }
    {
        match dd.name {
            Some(name) => self.put_named(alloc, dd, name),
            None => {
                self.next.push(dd)?;
                Ok(())
            }
        }
    }

    /// These DDs.
    pub(crate) fn of(alloc: Global, dds: Vec<DdCard>) -> Result<Waiting, AllocError>
        ensures is { IfOk result IsWaiting }
        ensures all { IfOk result (λ w. waiting w ≡ dds.items) }
    {
        let mut dds = dds;
        let mut all = Waiting::empty(alloc);
        while let Some(dd) = dds.pop() {
            all.put(alloc, dd)?;
        }
        Ok(all)
    }

    /// The first with a name, where none stands before it.
    fn next_named(&mut self) -> Option<DdCard>
        requires is { IsWaiting self.old }
        requires none { self.old.next.items ≡ [] }
        ensures is { IsWaiting self.new }
        ensures next { MatchOption result (waiting self.old ≡ []) (λ dd. waiting self.old ≡ dd ∷ waiting self.new) }
    {
        while let Some(
            Named {
                name,
                first,
                continued,
            },
        ) = self.named.pop()
        {
            if let Some(dd) = first {
                self.places.pop(name);
                self.next = continued;
                return Some(dd);
            }
        }
        None
    }

    /// The first.
    pub(crate) fn next(&mut self) -> Option<DdCard>
        requires { IsWaiting self.old }
        ensures is { IsWaiting self.new }
        ensures next { MatchOption result (waiting self.old ≡ []) (λ dd. waiting self.old ≡ dd ∷ waiting self.new) }
    {
        match self.next.pop() {
            Some(dd) => Some(dd),
            None => self.next_named(),
        }
    }

    /// Takes the first of a name out. Those that continue it come before all others.
    pub(crate) fn take(&mut self, alloc: Global, name: Name8) -> Result<Option<DdCard>, AllocError>
        requires { IsWaiting self.old }
        ensures is { OnOk result (IsWaiting self.new) }
        ensures takes { IfOk result (λ found. Takes name (waiting self.old) found (waiting self.new)) }
    {
        let Some(place) = self.places.pop(name) else {
            return Ok(None);
        };
        let none = Named {
            name,
            first: None,
            continued: Vec::new(alloc),
        };
        let Named {
            name: _,
            first,
            mut continued,
        } = replace(&mut self.named[place], none);
        self.next.append(&mut continued)?;
        Ok(first)
    }
}
