//! One record, byte by byte.
ghost use Rattle.std.specs.Prelude.{◌≡◌, ◌+◌, ◌*◌, ◌^◌, ◌<◌, ◌≤◌, length, replicate, SomeIff};
ghost use Rattle.cb_meaning.specs.Fields.{byte_at, field, filled, number_at, part};
ghost use Rattle.cb_records.specs.Writes.{ChangesOnly, HoldsNumber, IsWithin};

use cb_meaning::layout::{Field, RECORD_BYTES};
use std::marker::Model;

/// The kind of a record.
pub const KIND: u8 = 0;

/// The number of the job that owns it.
pub const OWNER: Field = Field { at: 2, width: 2 };

/// The status of a job, a step or a DD, which is the scheduler's own.
pub const STATUS: Field = Field { at: 168, width: 8 };

/// A record, which a contract sees as its bytes.
#[derive(Clone, Copy)]
pub struct Rec {
    bytes: [u8; RECORD_BYTES],
}

impl Model for Rec {
    ghost use Rattle.std.specs.Prelude.{◌≡◌, ℕ, List, length};

    ghost Value = { List ℕ };

    ghost view = { λ r. r.bytes };

    ghost invariant = { λ r. length r.bytes ≡ 176 };

    ghost inverse = { λ bytes. record { bytes = bytes } };
}

/// The record that these bytes are, where there are 176 of them.
pub fn read_rec(bytes: &[u8]) -> Option<Rec>
    ensures { SomeIff result (length bytes.now ≡ RECORD_BYTES) bytes.now }
{
    if bytes.len() != RECORD_BYTES {
        return None;
    }
    let mut own = [0; RECORD_BYTES];
    own.copy_from_slice(bytes);
    Some(Rec { bytes: own })
}

/// A text, and blanks behind it.
fn with_blanks(text: &[u8]) -> [u8; RECORD_BYTES]
    requires { length text.now ≤ RECORD_BYTES }
    ensures { result ≡ filled RECORD_BYTES text.now }
{
    let mut own = [b' '; RECORD_BYTES];
    own[..text.len()].copy_from_slice(text);
    own
}

impl Rec {
    /// A record of zeros.
    pub fn zeroed() -> Rec
        ensures { result ≡ replicate RECORD_BYTES 0 }
    {
        Rec {
            bytes: [0; RECORD_BYTES],
        }
    }

    /// All of its bytes.
    pub fn bytes(&self) -> &[u8]
        ensures value { result.now ≡ self.now }
        ensures size { length result.now ≡ RECORD_BYTES }
    {
        self.bytes.as_slice()
    }

    /// One byte.
    pub fn byte(&self, at: u8) -> u8
        requires { at < RECORD_BYTES }
        ensures { result ≡ byte_at self.now at }
    {
        self.bytes[usize::from(at)]
    }

    /// The bytes of a field, which are lent.
    pub fn text(&self, f: Field) -> &[u8]
        requires { IsWithin f }
        ensures value { result.now ≡ part self.now f.at f.width }
        ensures size { length result.now ≡ f.width }
    {
        let at = usize::from(f.at);
        &self.bytes[at..at + usize::from(f.width)]
    }

    /// A number, its highest byte first.
    pub fn number(&self, f: Field) -> u32
        requires { HoldsNumber f }
        ensures value { result ≡ number_at self.now f }
        ensures small { result < 256 ^ f.width }
    {
        let mut number: u32 = 0;
        for byte in self.text(f) {
            number = number * 256 + u32::from(*byte);
        }
        number
    }

    /// A number of two bytes, the higher first.
    pub fn short(&self, at: u8) -> u16
        requires { at + 2 ≤ RECORD_BYTES }
        ensures { result ≡ number_at self.now (field at 2) }
    {
        self.number(Field { at, width: 2 }) as u16
    }

    /// 0 of a free record, 1 of a JCT, 2 of an SCT, 3 of an SIOT, 4 of a JFCB, 5 of cards.
    pub fn kind(&self) -> u8
        ensures { result ≡ byte_at self.now 0 }
    {
        self.byte(KIND)
    }

    /// The number of the job that owns the record, 0 of a free one.
    pub fn owner(&self) -> u16
        ensures { result ≡ number_at self.now (field 2 2) }
    {
        self.short(OWNER.at)
    }

    /// Writes one byte.
    pub fn write_byte(&mut self, at: u8, value: u8)
        requires { at < RECORD_BYTES }
        ensures value { byte_at self.new at ≡ value }
        ensures others { ChangesOnly (field at 1) self.old self.new }
    {
        self.bytes[usize::from(at)] = value;
    }

    /// Writes a field's bytes.
    pub fn write_part(&mut self, f: Field, bytes: &[u8])
        requires within { IsWithin f }
        requires size { length bytes.now ≡ f.width }
        ensures whole { length self.new ≡ RECORD_BYTES }
        ensures value { part self.new f.at f.width ≡ bytes.now }
        ensures others { ChangesOnly f self.old self.new }
    {
        let at = usize::from(f.at);
        self.bytes[at..at + bytes.len()].copy_from_slice(bytes);
    }

    /// Writes a number, its highest byte first.
    pub fn write_number(&mut self, f: Field, number: u32)
        requires holds { HoldsNumber f }
        requires fits { number < 256 ^ f.width }
        ensures value { number_at self.new f ≡ number }
        ensures others { ChangesOnly f self.old self.new }
    {
        let bytes = number.to_be_bytes();
        self.write_part(f, &bytes[4 - usize::from(f.width)..]);
    }

    /// Writes a text, and blanks to the end of its field.
    pub fn write_text(&mut self, f: Field, text: &[u8])
        requires within { IsWithin f }
        requires fits { length text.now ≤ f.width }
        ensures value { part self.new f.at f.width ≡ filled f.width text.now }
        ensures others { ChangesOnly f self.old self.new }
    {
        let own = with_blanks(text);
        self.write_part(f, &own[..usize::from(f.width)]);
    }
}
