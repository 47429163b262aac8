//! What holds of any record, and what a write leaves as it was: laws, which do nothing.
ghost use Rattle.cb_records.specs.Laws.{AreBytes, OtherFieldsStay, UnusedStayZero};

use crate::rec::Rec;

/// A field that has no byte in common with the one that is written has the bytes that it had.
pub fn other_fields_stay()
    ensures { OtherFieldsStay }
{}

/// Where every byte but those of some fields is zero, so it is after a write to one of them.
pub fn unused_stay_zero()
    ensures { UnusedStayZero }
{}

fn slice_bytes(bytes: &[u8])
    ensures { AreBytes bytes.now }
{}

/// The bytes of a record are below 256.
pub fn are_bytes(rec: &Rec)
    ensures { AreBytes rec.now }
{
    slice_bytes(rec.bytes());
}
