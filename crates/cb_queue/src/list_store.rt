//! A store of records in one table.
ghost use Rattle.std.specs.Prelude.{◌≡◌, ◌≢◌, ◌<◌, ◌≤◌, ◌^◌, IfOk, None, length, replicate, reverse, true};
ghost use Rattle.cb_meaning.specs.declared.layout.TheConstants.{RECORD_BYTES};
ghost use Rattle.cb_queue.specs.RecordQueues.{HasNoneBetween, HasOwnLink, empty_queue, owner_at, record_at, zero_record};
ghost use Rattle.cb_records.specs.Laws.{AreBytes};
ghost use Rattle.cb_records.specs.Writes.{HoldsNumber};
ghost use Rattle.plain.specs.Lists.{numbers_from};
ghost use Rattle.cb_meaning.specs.Fields.{with_part};

use crate::store::RecordStore;
use cb_meaning::layout::{Field, Layout};
use cb_records::laws::are_bytes;
use cb_records::rec::{OWNER, Rec, STATUS};
use queue_core::queue::{JobQueue, Queued};
use record_spans::spans::{Span, Spans};
use std::alloc::{AllocError, Global};
use std::marker::Model;

/// How many owners are looked at together.
const BLOCK: u32 = 64;

/// A store of records in one table, got when it is made.
#[derive(Drop)]
pub struct ListStore {
    layout: Layout,
    records: Vec<Rec>,
    /// The owner of each record, 0 of a free one.
    owners: Vec<u16>,
    /// Of these the first `free_count` are the numbers of the free records, the one that is taken next last.
    free: Vec<u32>,
    free_count: u32,
    spans: Spans,
    waiting: JobQueue,
}

impl Model for ListStore {
    ghost use Rattle.cb_queue.specs.RecordQueues.{RecordQueue};

    ghost Value = { RecordQueue };

    ghost use Rattle.cb_queue.specs.Stored.{IsSpanned, seen};

    ghost view = { seen };

    ghost invariant = { IsSpanned };
}

/// The numbers of as many records, 1 last.
fn all_numbers(alloc: Global, count: u32) -> Result<Vec<u32>, AllocError>
    ensures numbers { IfOk result (λ v. v.items ≡ reverse (numbers_from 1 count)) }
    ensures few { count < 2 ^ 32 }
{
    let mut numbers = Vec::with_capacity(alloc, count as usize)?;
    let mut n = count;
    while n > 0 {
        numbers.push(n)?;
        n -= 1;
    }
    Ok(numbers)
}

/// How many records are filled at once.
const PIECE: usize = 16;

/// As many records of zeros, filled by pieces, as a byte alone costs an instruction.
fn blank_records(alloc: Global, count: usize) -> Result<Vec<Rec>, AllocError>
    ensures { IfOk result (λ v. v.items ≡ replicate count (replicate RECORD_BYTES 0)) }
{
    let piece = [Rec::zeroed(); PIECE];
    let mut records = Vec::with_capacity(alloc, count)?;
    while records.len() < count {
        let some = (count - records.len()).min(PIECE);
        records.extend_from_slice(&piece[..some])?;
    }
    Ok(records)
}

/// Writes zeros in the place of a record, and its owner.
fn write_zero_record(own: &mut Rec, owner: u16)
    ensures value { own.new ≡ zero_record owner }
    ensures bytes { AreBytes own.new }
{
    *own = Rec::zeroed();
    own.write_part(OWNER, &[(owner / 256) as u8, (owner % 256) as u8]);
    are_bytes(own);
}

/// Writes a record in the place of another, with a link of zeros.
fn write_unlinked(own: &mut Rec, rec: &Rec, link: Field)
    requires { HoldsNumber link }
    ensures value { own.new ≡ with_part rec.now link.at (replicate link.width 0) }
    ensures whole { length rec.now ≡ RECORD_BYTES }
    ensures bytes { AreBytes own.new }
{
    let zeros = [0; 4];
    *own = *rec;
    own.write_part(link, &zeros[..usize::from(link.width)]);
    are_bytes(own);
}

impl ListStore {
    /// A store in which all records are free, 1 first, and nobody waits.
    pub fn new(alloc: Global, layout: Layout) -> Result<ListStore, AllocError>
        requires { HasOwnLink layout }
        ensures { IfOk result (λ store. store ≡ empty_queue layout) }
    {
        let count = layout.most_records as usize;
        Ok(ListStore {
            layout,
            records: blank_records(alloc, count)?,
            owners: vec![in alloc; 0; count]?,
            free: all_numbers(alloc, layout.most_records)?,
            free_count: layout.most_records,
            spans: Spans::new(alloc)?,
            waiting: JobQueue::new(alloc),
        })
    }

    /// The number of the job that owns a record, 0 where it is free or there is none.
    fn owner(&self, n: u32) -> u16
        ensures value { result ≡ owner_at self.now n }
        ensures none { result ≡ 0 → record_at self.now n ≡ None }
    {
        if n == 0 {
            return 0;
        }
        match self.owners.get(n as usize - 1) {
            Some(owner) => *owner,
            None => 0,
        }
    }

    /// The records among which a job's are, and that the others are not.
    fn span(&self, owner: u16) -> Span
        requires { owner ≢ 0 }
        ensures none_before { HasNoneBetween self.now owner 0 result.low }
        ensures none_behind { HasNoneBetween self.now owner result.high (length self.now.records) }
        ensures within { result.high ≤ length self.now.records }
    {
        self.spans.span(owner, self.layout.most_records)
    }

    /// Whether none of the records behind one number, up to another, is a job's.
    fn has_none(&self, low: u32, high: u32, owner: u16) -> bool
        ensures { result ≡ true → HasNoneBetween self.now owner low high }
    {
        match self.owners.get(low as usize..high as usize) {
            Some(owners) => !owners.contains(&owner),
            None => false,
        }
    }

    /// A record before one that is not a job's, from which on up to that one none is the job's.
    fn passed(&self, low: u32, n: u32, owner: u16) -> u32
        requires before { low < n }
        requires other { owner_at self.now n ≢ owner }
        ensures lower { result < n }
        ensures none { HasNoneBetween self.now owner result n }
    {
        let from = n.saturating_sub(BLOCK).max(low);
        if self.has_none(from, n, owner) {
            return from;
        }
        n - 1
    }
}

impl RecordStore for ListStore {
    ghost queue = { λ store. store };

    ghost lacking = { λ store. 0 };

    fn layout(&self) -> &Layout {
        &self.layout
    }

    fn get(&self, n: u32) -> Option<&Rec> {
        if self.owner(n) == 0 {
            return None;
        }
        Some(&self.records[n as usize - 1])
    }

    fn put(&mut self, n: u32, rec: &Rec) {
        write_unlinked(&mut self.records[n as usize - 1], rec, self.layout.link);
    }

    fn write_status(&mut self, n: u32, status: &[u8; 8]) {
        let rec = &mut self.records[n as usize - 1];
        rec.write_part(STATUS, status.as_slice());
        are_bytes(rec);
    }

    fn last_in_use(&self) -> u32 {
        self.layout.most_records
    }

    fn free_count(&self) -> u32 {
        self.free_count
    }

    fn next_free(&self) -> Option<u32> {
        if self.free_count == 0 {
            return None;
        }
        Some(self.free[self.free_count as usize - 1])
    }

    fn make_room(&mut self, _count: u32) -> Result<(), AllocError> {
        Ok(())
    }

    fn take_free(&mut self, owner: u16) -> Option<u32> {
        if self.free_count == 0 {
            return None;
        }
        self.free_count -= 1;
        let n = self.free[self.free_count as usize];
        write_zero_record(&mut self.records[n as usize - 1], owner);
        self.owners[n as usize - 1] = owner;
        self.spans.widen(owner, n);
        Some(n)
    }

    fn give_back(&mut self, n: u32) {
        self.owners[n as usize - 1] = 0;
        self.free[self.free_count as usize] = n;
        self.free_count += 1;
    }

    fn give_back_all(&mut self, owner: u16) {
        let _layout = self.layout();
        let span = self.span(owner);
        let mut n = span.high;
        while n > span.low {
            if self.owner(n) == owner {
                self.give_back(n);
                n -= 1;
            } else {
                n = self.passed(span.low, n, owner);
            }
        }
    }

    fn enter(&mut self, queued: Queued) -> Result<(), AllocError> {
        self.waiting.enter(queued)
    }

    fn first(&self, class: u8) -> Option<Queued> {
        self.waiting.first(class)
    }

    fn remove_first(&mut self, queued: Queued) {
        self.waiting.remove(queued.job);
    }

    fn remove(&mut self, job: u16) -> Option<Queued> {
        self.waiting.remove(job)
    }

    fn waiting_count(&self) -> usize {
        self.waiting.len()
    }
}
