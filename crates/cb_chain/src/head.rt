//! What each record of a job begins with.
ghost use Rattle.std.specs.Prelude.{◌≡◌, replicate};
ghost use Rattle.cb_meaning.specs.declared.layout.Field.{Field};
ghost use Rattle.cb_meaning.specs.Fields.{field, part};
ghost use Rattle.cb_records.specs.Laws.{AreApart};
ghost use Rattle.cb_records.specs.Writes.{IsWithin};
ghost use Rattle.cb_chain.specs.Composed.{head_entries};
ghost use Rattle.cb_chain.specs.Entries.{AreEntered, zeros};

use cb_records::rec::{KIND, OWNER, Rec};

/// A record of zeros but for its kind and the job that owns it.
pub(crate) fn headed(kind: u8, job: u16) -> Rec
    ensures entered { AreEntered zeros (head_entries kind job) result }
    ensures rest { (f : Field) → IsWithin f → AreApart f (field 0 1) → AreApart f (field 2 2) → part result f.at f.width ≡ replicate f.width 0 }
{
    let mut rec = Rec::zeroed();
    rec.write_byte(KIND, kind);
    rec.write_number(OWNER, u32::from(job));
    rec
}
