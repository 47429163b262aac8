//! Text that is written in parts.
ghost use Rattle.std.specs.Prelude.{◌≡◌, ◌∷◌, [], ◌++◌, IfOk, OnErr, OnOk, length};

use std::alloc::{AllocError, Global};
use std::marker::Model;

/// Text that is kept, and after it text that is begun, which is kept whole or not at all.
#[derive(Drop)]
pub struct Draft {
    bytes: Vec<u8>,
    /// How many of them are kept.
    kept: usize,
}

impl Model for Draft {
    ghost use Rattle.std.specs.Prelude.{◌≤◌, drop, length, take};
    ghost use Rattle.plain.specs.Drafts.{Drafted};

    ghost Value = { Drafted };

    ghost view = { λ d. record { kept = take d.kept d.bytes.items; begun = drop d.kept d.bytes.items } };

    ghost invariant = { λ d. d.kept ≤ length d.bytes.items };
}

impl Draft {
    /// No text.
    pub fn empty(alloc: Global) -> Draft
        ensures kept { result.kept ≡ [] }
        ensures begun { result.begun ≡ [] }
    {
        Draft {
            bytes: Vec::new(alloc),
            kept: 0,
        }
    }

    /// No text, with room for so many bytes.
    pub fn with_room(alloc: Global, bytes: usize) -> Result<Draft, AllocError>
        ensures { IfOk result (λ d. d ≡ record { kept = []; begun = [] }) }
    {
        let bytes = Vec::with_capacity(alloc, bytes)?;
        Ok(Draft { bytes, kept: 0 })
    }

    /// Puts a text after what is begun. An `Err` changes nothing.
    pub fn push(&mut self, text: &[u8]) -> Result<(), AllocError>
        ensures kept { self.new.kept ≡ self.old.kept }
        ensures ok { OnOk result (self.new.begun ≡ self.old.begun ++ text.now) }
        ensures err { OnErr result (self.new.begun ≡ self.old.begun) }
    {
        self.bytes.extend_from_slice(text)
    }

    /// Puts a byte after what is begun. An `Err` changes nothing.
    pub fn push_byte(&mut self, byte: u8) -> Result<(), AllocError>
        ensures kept { self.new.kept ≡ self.old.kept }
        ensures ok { OnOk result (self.new.begun ≡ self.old.begun ++ byte ∷ []) }
        ensures err { OnErr result (self.new.begun ≡ self.old.begun) }
    {
        self.bytes.push(byte)?;
        Ok(())
    }

    /// What is begun is kept from now on.
    pub fn keep(&mut self)
        ensures kept { self.new.kept ≡ self.old.kept ++ self.old.begun }
        ensures begun { self.new.begun ≡ [] }
    {
        self.kept = self.bytes.len();
    }

    /// Takes away what is begun.
    pub fn discard(&mut self)
        ensures kept { self.new.kept ≡ self.old.kept }
        ensures begun { self.new.begun ≡ [] }
    {
        self.bytes.truncate(self.kept);
    }

    /// Takes all away.
    pub fn clear(&mut self)
        ensures kept { self.new.kept ≡ [] }
        ensures begun { self.new.begun ≡ [] }
    {
        self.bytes.clear();
        self.kept = 0;
    }

    /// The text that is kept.
    pub fn kept(&self) -> &[u8]
        ensures { result.now ≡ self.now.kept }
    {
        let (kept, _) = self.bytes.as_slice().split_at(self.kept);
        kept
    }

    /// How many bytes are kept.
    pub fn len(&self) -> usize
        ensures { result ≡ length self.now.kept }
    {
        self.kept
    }
}
