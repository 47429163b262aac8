//! Lists that several values share.
ghost use Rattle.std.specs.Prelude.{◌≡◌, IfOk, length};

use crate::listed::Listed;
use std::alloc::{AllocError, Global};
use std::marker::Model;
use std::rc::Rc;

/// A list that does not change, and of which a second one is no copy. A contract sees it as the list.
#[derive(Drop)]
pub struct Shared<T> {
    list: Rc<Listed<T>>,
}

impl<T> Model for Shared<T> {
    ghost use Rattle.std.specs.Prelude.{List};

    ghost Value = { List T };

    ghost view = { λ s. s.list.value };
}

impl<T> Shared<T> {
    /// These items, taken over with their memory.
    pub fn new(alloc: Global, items: Listed<T>) -> Result<Shared<T>, AllocError>
    where
        T: Drop,
        ensures { IfOk result (λ s. s ≡ items) }
    {
        let list = Rc::new(alloc, items)?;
        Ok(Shared { list })
    }

    /// The same items, in the same memory.
    pub fn share(&self) -> Result<Shared<T>, AllocError>
    where
        T: Drop,
        ensures { IfOk result (λ s. s ≡ self.now) }
    {
        let list = self.list.clone()?;
        Ok(Shared { list })
    }

    pub fn as_slice(&self) -> &[T]
        ensures { result.now ≡ self.now }
    {
        self.list.as_slice()
    }

    pub fn len(&self) -> usize
        ensures { result ≡ length self.now }
    {
        self.list.len()
    }
}
