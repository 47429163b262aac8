//! The records of a set in order.
ghost use Rattle.std.specs.Prelude.{◌≡◌, ◌≤◌, ◌<◌, ◌+◌, ◌-◌, ◌*◌, ◌∷◌, ◌++◌, [], IfOk, OnOk, OnErr, IsTrue, ◌↔◌, drop, get_or, length, slice_get, take};
ghost use Rattle.jcl_plan.specs.declared.plan.TheConstants.{RECORDS_A_TRACK};
ghost use Rattle.jcl_plan.specs.Tracks.{tracks_for};
ghost use Rattle.std.specs.Vec.{vec_capacity};
ghost use Rattle.set_core.specs.Texts.{AreEnds, filled, records_from, start_of};

use jcl_plan::plan::RECORDS_A_TRACK;
use jcl_plan::text::trimmed_len;
use std::alloc::{AllocError, Global};
use std::marker::Model;

/// A record: 80 columns.
pub type DataRecord = [u8; 80];

/// How many columns a record has.
const COLUMNS: usize = 80;

/// The records of a set. Each is kept to its last column that is not blank.
#[derive(Drop)]
pub struct Records {
    /// The texts of all records, one after another. Where there is a record, there is room for a whole one.
    text: Vec<u8>,
    /// Where the text of each record ends.
    ends: Vec<usize>,
}

impl Model for Records {
    ghost use Rattle.std.specs.Prelude.{◌<◌, ◌≤◌, ℕ, List, length};
    ghost use Rattle.std.specs.Vec.{vec_capacity};
    ghost use Rattle.set_core.specs.Texts.{AreEnds, records_from};

    ghost Value = { List (List ℕ) };

    ghost view = { λ r. records_from 0 r.text.items r.ends.items };

    ghost invariant = { λ r. AreEnds 0 (length r.text.items) r.ends.items × (0 < length r.ends.items → 80 ≤ vec_capacity r.text) };
}

/// How long a record's text is: what follows it is blank.
fn text_len(columns: &DataRecord) -> usize
    ensures within { result ≤ length columns.now }
    ensures blank { columns.now ≡ filled (take result columns.now) }
{
    trimmed_len(columns)
}

/// The record that a text spells.
fn filled(text: &[u8]) -> DataRecord
    requires { length text.now ≤ 80 }
    ensures { result ≡ filled text.now }
{
    let mut columns = [b' '; COLUMNS];
    columns[..text.len()].copy_from_slice(text);
    columns
}

/// The record that the text from a place up to another spells.
fn record_between(text: &[u8], start: usize, end: usize) -> DataRecord
    requires order { start ≤ end }
    requires few { end ≤ start + 80 }
    requires within { end ≤ length text.now }
    ensures { result ≡ filled (take (end - start) (drop start text.now)) }
{
    filled(&text[start..end])
}

/// Where the text of a record ends.
fn end_of(ends: &[usize], place: usize) -> usize
    requires { place < length ends.now }
    ensures { result ≡ get_or ends.now place 0 }
{
    ends[place]
}

/// Where the text of a record begins.
#[tactic(auto, using(crate::proofs::Ends::begins_above))]
fn start_of(ends: &[usize], place: usize) -> usize
    requires { place < length ends.now }
    ensures { result ≡ start_of 0 ends.now place }
{
    if place == 0 {
        0
    } else {
        end_of(ends, place - 1)
    }
}

#[tactic(auto, using(crate::proofs::Ends::lies, crate::proofs::Ends::record_at, crate::proofs::Ends::no_record_at))]
/// The record of a place that counts from 0, of the records that have these texts.
fn record_of(text: &[u8], ends: &[usize], place: usize) -> Option<DataRecord>
    requires { AreEnds 0 (length text.now) ends.now }
    ensures { result ≡ slice_get (records_from 0 text.now ends.now) place }
{
    if place >= ends.len() {
        return None;
    }
    let start = start_of(ends, place);
    let end = end_of(ends, place);
    Some(record_between(text, start, end))
}

/// Puts one more text behind the others. An `Err` changes neither.
fn push_text(text: &mut Vec<u8>, ends: &mut Vec<usize>, more: &[u8]) -> Result<(), AllocError>
    requires { length more.now ≤ 80 }
    ensures text { OnOk result (text.new.items ≡ text.old.items ++ more.now) }
    ensures ends { OnOk result (ends.new.items ≡ ends.old.items ++ (length text.old.items + length more.now) ∷ []) }
    ensures room { OnOk result (80 ≤ vec_capacity text.new) }
    ensures same_text { OnErr result (text.new.items ≡ text.old.items) }
    ensures same_ends { OnErr result (ends.new.items ≡ ends.old.items) }
    ensures same_room { vec_capacity text.old ≤ vec_capacity text.new }
{
    ends.reserve(1)?;
    text.reserve(COLUMNS)?;
    let Ok(()) = text.extend_from_slice(more) else {
        unreachable!();
    };
    let Ok(()) = ends.push(text.len()) else {
        unreachable!();
    };
    Ok(())
}

/// Puts a text in place of all, for which there is room.
fn write_over(text: &mut Vec<u8>, ends: &mut Vec<usize>, first: &[u8])
    requires room { 80 ≤ vec_capacity text.old }
    requires some { 0 < length ends.old.items }
    requires few { length first.now ≤ 80 }
    ensures text { text.new.items ≡ first.now }
    ensures ends { ends.new.items ≡ length first.now ∷ [] }
    ensures room { 80 ≤ vec_capacity text.new }
{
    text.clear();
    let Ok(()) = text.extend_from_slice(first) else {
        unreachable!();
    };
    ends.clear();
    let Ok(()) = ends.push(first.len()) else {
        unreachable!();
    };
}

impl Records {
    pub fn new(alloc: Global) -> Records
        ensures { result ≡ [] }
    {
        Records {
            text: Vec::new(alloc),
            ends: Vec::new(alloc),
        }
    }

    /// The same records once more, in as much memory as they take.
    pub fn copied(&self, alloc: Global) -> Result<Records, AllocError>
        ensures { IfOk result (λ copy. copy ≡ self.now) }
    {
        if self.ends.is_empty() {
            return Ok(Records::new(alloc));
        }
        let mut text = Vec::with_capacity(alloc, self.text.len().max(COLUMNS))?;
        text.extend_from_slice(self.text.as_slice())?;
        let ends = Vec::from_slice(alloc, self.ends.as_slice())?;
        Ok(Records { text, ends })
    }

    #[tactic(auto, using(crate::proofs::Ends::as_many))]
    pub fn len(&self) -> usize
        ensures { result ≡ length self.now }
    {
        self.ends.len()
    }

    /// Takes all records away.
    pub fn clear(&mut self)
        ensures { self.new ≡ [] }
    {
        self.text.clear();
        self.ends.clear();
    }

    /// Puts a record in place of all. An `Err` changes nothing, and comes only where there was no record.
    pub fn write_first(&mut self, columns: DataRecord) -> Result<(), AllocError>
        ensures ok { OnOk result (self.new ≡ columns ∷ []) }
        ensures err { OnErr result (self.new ≡ self.old) }
        ensures memory { OnErr result (self.old ≡ []) }
    {
        if self.ends.is_empty() {
            return self.append(columns);
        }
        let len = text_len(&columns);
        write_over(&mut self.text, &mut self.ends, &columns[..len]);
        Ok(())
    }

    /// Puts a record behind the others. An `Err` changes nothing.
    pub fn append(&mut self, columns: DataRecord) -> Result<(), AllocError>
        ensures ok { OnOk result (self.new ≡ self.old ++ columns ∷ []) }
        ensures err { OnErr result (self.new ≡ self.old) }
    {
        let len = text_len(&columns);
        self.append_text(&columns[..len])
    }

    /// Puts the record behind the others that a text of at most 80 columns spells with blanks after it. An `Err` changes nothing.
    pub fn append_text(&mut self, text: &[u8]) -> Result<(), AllocError>
        requires { length text.now ≤ 80 }
        ensures ok { OnOk result (self.new ≡ self.old ++ filled text.now ∷ []) }
        ensures err { OnErr result (self.new ≡ self.old) }
    {
        push_text(&mut self.text, &mut self.ends, text)?;
        Ok(())
    }

    /// The record at a place that counts from 0.
    pub fn read_at(&self, place: usize) -> Option<DataRecord>
        ensures { result ≡ slice_get self.now place }
    {
        record_of(self.text.as_slice(), self.ends.as_slice(), place)
    }

    /// How many tracks the records fill, the last in part.
    pub fn tracks_used(&self) -> usize
        ensures { result ≡ tracks_for (length self.now) }
    {
        self.len().div_ceil(RECORDS_A_TRACK)
    }

    /// Whether no further record fits on so many tracks.
    pub fn fills(&self, tracks: usize) -> bool
        ensures { IsTrue result ↔ (RECORDS_A_TRACK * tracks ≤ length self.now) }
    {
        tracks <= self.len() / RECORDS_A_TRACK
    }
}
