//! Texts that mostly are short.
ghost use Rattle.std.specs.Prelude.{◌≡◌, IfOk};
ghost use Rattle.plain.specs.Smalls.{bytes_in};

use crate::short::Short;
use crate::text::Text;
use std::alloc::{AllocError, Global};
use std::marker::Model;

/// Where the bytes are.
#[derive(Drop)]
enum Bytes<const N: usize> {
    Inside(Short<N>),
    Outside(Text),
}

/// Bytes that a contract sees as their list. Up to `N` lie in the value itself.
#[derive(Drop)]
pub struct SmallText<const N: usize> {
    bytes: Bytes<N>,
}

impl<const N: usize> Model for SmallText<N> {
    ghost use Rattle.std.specs.Prelude.{ℕ, List};
    ghost use Rattle.plain.specs.Smalls.{bytes_in};

    ghost Value = { List ℕ };

    ghost view = { λ t. bytes_in t.bytes };
}

impl<const N: usize> SmallText<N> {
    /// These bytes, taken over with their memory.
    pub fn new(bytes: Vec<u8>) -> SmallText<N>
        ensures { result ≡ bytes.items }
    {
        SmallText {
            bytes: Bytes::Outside(Text::new(bytes)),
        }
    }

    pub fn copy_of(alloc: Global, bytes: &[u8]) -> Result<SmallText<N>, AllocError>
        ensures { IfOk result (λ t. t ≡ bytes.now) }
    {
        if bytes.len() <= N {
            let bytes = Bytes::Inside(Short::new(bytes));
            return Ok(SmallText { bytes });
        }
        let bytes = Bytes::Outside(Text::copy_of(alloc, bytes)?);
        Ok(SmallText { bytes })
    }

    pub fn as_slice(&self) -> &[u8]
        ensures { result.now ≡ self.now }
    {
        match &self.bytes {
            Bytes::Inside(bytes) => bytes.as_slice(),
            Bytes::Outside(bytes) => bytes.as_slice(),
        }
    }
}
