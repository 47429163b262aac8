//! Values of which there are few, kept by a pointer, so that those of which there are many stay small.
#![tactic(auto)]

ghost use Rattle.std.specs.Prelude.{◌≡◌, IfOk};

use std::alloc::{AllocError, Global};
use std::marker::Model;

/// A value kept by a pointer that a contract sees as the value itself.
#[derive(Drop)]
pub struct Boxed<T> {
    place: Box<T>,
}

impl<T> Model for Boxed<T> {
    ghost Value = { T };

    ghost view = { λ b. b.place.value };
}

impl<T> Boxed<T> {
    /// Puts a value there.
    pub fn new(alloc: Global, value: T) -> Result<Boxed<T>, AllocError>
    where
        T: Drop,
        ensures { IfOk result (λ b. b ≡ value) }
    {
        let place = Box::new(alloc, value)?;
        Ok(Boxed { place })
    }

    pub fn get(&self) -> &T
        ensures { result.now ≡ self.now }
    {
        &self.place
    }
}
