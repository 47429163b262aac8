//! Lent bytes.
ghost use Rattle.std.specs.Prelude.{◌≡◌};

use std::marker::Model;

/// Bytes that another text lends, which a contract sees as their list.
#[derive(Drop)]
pub struct Lent<'a> {
    bytes: &'a [u8],
}

impl<'a> Model for Lent<'a> {
    ghost use Rattle.std.specs.Prelude.{ℕ, List};

    ghost Value = { List ℕ };

    ghost view = { λ l. l.bytes.now };
}

impl<'a> Lent<'a> {
    pub fn new(bytes: &'a [u8]) -> Lent<'a>
        ensures { result ≡ bytes.now }
    {
        Lent { bytes }
    }

    pub fn as_slice(&self) -> &'a [u8]
        ensures { result.now ≡ self.now }
    {
        self.bytes
    }
}
