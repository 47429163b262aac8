//! The fields of a record, outside of which it is zero.
ghost use Rattle.std.specs.Prelude.{◌≡◌, ℕ, ◌==◌, length, if◌then◌else◌};
ghost use Rattle.std.specs.List.{list_all};
ghost use Rattle.cb_meaning.specs.Fields.{byte_at, field, is_in, is_zero_but};

use cb_meaning::layout::{Field, RECORD_BYTES};
use cb_records::rec::Rec;

/// A field by its first byte and its bytes.
pub(crate) fn field(at: u8, width: u8) -> Field
    ensures { result ≡ field at width }
{
    Field { at, width }
}

/// Fills a field of a record with zeros, as far as it lies in the record.
fn clear(bytes: &mut [u8], f: &Field)
    ensures size { length bytes.new ≡ length bytes.old }
    ensures bytes { (k : ℕ) → byte_at bytes.new k ≡ (if is_in f.now k then 0 else byte_at bytes.old k) }
{
    let from = usize::from(f.at).min(bytes.len());
    let to = (from + usize::from(f.width)).min(bytes.len());
    bytes[from..to].fill(0);
}

/// Whether each of these bytes is zero. None is passed over, so that many are looked at at once.
fn are_zeros(bytes: &[u8]) -> bool
    ensures { result ≡ list_all (λ b. b == 0) bytes.now }
{
    let mut zero = true;
    for byte in bytes {
        zero &= *byte == 0;
    }
    zero
}

/// Whether every byte outside of these fields is zero. In a copy these fields are filled with zeros, and then it is to be zero as a whole.
pub(crate) fn is_zero_but(named: &[Field], r: &Rec) -> bool
    ensures { result ≡ is_zero_but named.now r.now }
{
    let mut own = [0; RECORD_BYTES];
    own.copy_from_slice(r.bytes());
    for f in named {
        clear(&mut own, f);
    }
    are_zeros(&own)
}
