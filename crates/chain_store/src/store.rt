//! A store of records that are linked through their own bytes.
ghost use Rattle.std.specs.Prelude.{◌≡◌, ◌≢◌, ◌+◌, ◌^◌, ◌<◌, ◌≤◌, ◌-◌, ◌%◌, ◌/◌, IfOk, None, length, true};
ghost use Rattle.cb_queue.specs.RecordQueues.{HasNoneBetween, HasOwnLink, empty_queue, owner_at, record_at};

use crate::chains::{Chain, first_used, is_occupied, without};
use crate::records::{
    more_owners, more_records, relink, relink_before, renew, rewrite, rewrite_status,
};
use crate::spots::{Spot, find, leave, more_spots};
use cb_meaning::layout::Layout;
use cb_queue::store::RecordStore;
use cb_records::rec::Rec;
use queue_core::queue::Queued;
use record_spans::spans::{Span, Spans};
use std::alloc::{AllocError, Global};
use std::marker::Model;

/// How many owners are looked at together.
const BLOCK: u32 = 64;

/// The classes of jobs, A to O, and their priorities, 0 to 13, have a chain each.
const FIRST_CLASS: u8 = b'A';

const LAST_CLASS: u8 = b'O';

const HIGHEST_PRIORITY: u8 = 13;

const PRIORITIES: usize = 14;

const CLASSES: usize = 15;

const CHAINS: usize = CLASSES * PRIORITIES;

/// Where the chain of a class and a priority is.
fn place_of(class: u8, priority: u8) -> usize
    requires class { (65 ≤ class) × (class ≤ 79) }
    requires priority { priority ≤ 13 }
    ensures within { result < 210 }
    ensures class { 65 + result / 14 ≡ class }
    ensures priority { 13 - result % 14 ≡ priority }
{
    usize::from(class - FIRST_CLASS) * PRIORITIES + usize::from(HIGHEST_PRIORITY - priority)
}

/// The job whose first record this is, in the chain at a place.
fn queued_at(owner: u16, n: u32, place: usize) -> Queued
    requires { place < 210 }
    ensures job { result.job ≡ owner }
    ensures jct { result.jct ≡ n }
    ensures class { result.class ≡ 65 + place / 14 }
    ensures priority { result.priority ≡ 13 - place % 14 }
{
    Queued {
        job: owner,
        jct: n,
        class: FIRST_CLASS + (place / PRIORITIES) as u8,
        priority: HIGHEST_PRIORITY - (place % PRIORITIES) as u8,
    }
}

/// A store of records. The free ones and the jobs that wait are linked through the records themselves.
#[derive(Drop)]
pub struct ChainStore {
    layout: Layout,
    /// The first records of the queue: those for which there is memory.
    records: Vec<Rec>,
    /// The owner of each of them, 0 of a free one.
    owners: Vec<u16>,
    /// The record that was given back last, and how many were; the link of each but the first leads to the one that was given back before it.
    first_free: u32,
    free_count: u32,
    /// No record behind this one was ever taken.
    reached: u32,
    spans: Spans,
    /// Where each record stands that is in one of the chains.
    spots: Vec<Option<Spot>>,
    /// The first records of the jobs that wait, by class and priority: class A first, and in a class the highest priority.
    chains: Vec<Chain>,
    /// The classes of which a job waits.
    occupied: [bool; CLASSES],
    waiting: usize,
}

impl Model for ChainStore {
    ghost use Rattle.chain_store.specs.Values.{Linked};

    ghost Value = { Linked };

    ghost use Rattle.chain_store.specs.Chained.{IsChained, view_of};

    ghost view = { view_of };

    ghost invariant = { IsChained };
}

impl ChainStore {
    /// A store in which all records are free, 1 first, and nobody waits.
    pub fn new(alloc: Global, layout: Layout) -> Result<ChainStore, AllocError>
        requires own_link { HasOwnLink layout }
        requires links { layout.most_records < 256 ^ layout.link.width }
        ensures { IfOk result (λ store. store ≡ record { queue = empty_queue layout; lacking = layout.most_records }) }
    {
        Ok(ChainStore {
            layout,
            records: Vec::new(alloc),
            owners: Vec::new(alloc),
            first_free: 0,
            free_count: 0,
            reached: 0,
            spans: Spans::new(alloc)?,
            spots: Vec::new(alloc),
            chains: vec![in alloc; Chain {
                first: 0,
                last: 0,
                count: 0
            }; CHAINS]?,
            occupied: [false; CLASSES],
            waiting: 0,
        })
    }

    /// The number of the job that owns a record, 0 where it is free or there is none.
    fn owner(&self, n: u32) -> u16
        ensures value { result ≡ owner_at self.now.queue n }
        ensures none { result ≡ 0 → record_at self.now.queue n ≡ None }
    {
        if n == 0 {
            return 0;
        }
        match self.owners.get(n as usize - 1) {
            Some(owner) => *owner,
            None => 0,
        }
    }

    /// Whether none of the records behind one number, up to another, is a job's.
    fn has_none(&self, low: u32, high: u32, owner: u16) -> bool
        ensures { result ≡ true → HasNoneBetween self.now.queue owner low high }
    {
        match self.owners.get(low as usize..high as usize) {
            Some(owners) => !owners.contains(&owner),
            None => false,
        }
    }

    /// A record before one that is not a job's, from which on up to that one none is the job's.
    fn passed(&self, low: u32, n: u32, owner: u16) -> u32
        requires before { low < n }
        requires other { owner_at self.now.queue n ≢ owner }
        ensures lower { result < n }
        ensures none { HasNoneBetween self.now.queue owner result n }
    {
        let from = n.saturating_sub(BLOCK).max(low);
        if self.has_none(from, n, owner) {
            return from;
        }
        n - 1
    }

    /// The records among which a job's are, and that the others are not.
    fn span(&self, owner: u16) -> Span
        requires { owner ≢ 0 }
        ensures none_before { HasNoneBetween self.now.queue owner 0 result.low }
        ensures none_behind { HasNoneBetween self.now.queue owner result.high (length self.now.queue.records) }
        ensures within { result.high ≤ length self.now.queue.records }
        ensures known { result.high + self.now.lacking ≤ length self.now.queue.records }
    {
        self.spans.span(owner, self.owners.len() as u32)
    }
}

impl RecordStore for ChainStore {
    ghost queue = { λ store. store.queue };

    ghost lacking = { λ store. store.lacking };

    fn layout(&self) -> &Layout {
        &self.layout
    }

    fn get(&self, n: u32) -> Option<&Rec> {
        if self.owner(n) == 0 {
            return None;
        }
        Some(&self.records[n as usize - 1])
    }

    fn put(&mut self, n: u32, rec: &Rec) {
        rewrite(&mut self.records, &self.layout, n, rec);
    }

    fn write_status(&mut self, n: u32, status: &[u8; 8]) {
        rewrite_status(&mut self.records, &self.layout, n, status);
    }

    fn last_in_use(&self) -> u32 {
        self.owners.len() as u32
    }

    fn free_count(&self) -> u32 {
        self.free_count + (self.layout.most_records - self.reached)
    }

    fn next_free(&self) -> Option<u32> {
        if self.free_count != 0 {
            return Some(self.first_free);
        }
        if self.reached == self.layout.most_records {
            return None;
        }
        Some(self.reached + 1)
    }

    fn make_room(&mut self, count: u32) -> Result<(), AllocError> {
        let wanted = (self.reached + count.saturating_sub(self.free_count)) as usize;
        more_records(&mut self.records, wanted)?;
        more_spots(&mut self.spots, wanted)?;
        more_owners(&mut self.owners, wanted)
    }

    fn take_free(&mut self, owner: u16) -> Option<u32> {
        if self.free_count != 0 {
            let n = self.first_free;
            self.first_free = self.records[n as usize - 1].number(self.layout.link);
            self.free_count -= 1;
            renew(&mut self.records, &self.layout, n, owner);
            self.owners[n as usize - 1] = owner;
            self.spans.widen(owner, n);
            return Some(n);
        }
        if self.reached == self.layout.most_records {
            return None;
        }
        let n = self.reached + 1;
        self.reached = n;
        renew(&mut self.records, &self.layout, n, owner);
        self.owners[n as usize - 1] = owner;
        self.spans.widen(owner, n);
        Some(n)
    }

    fn give_back(&mut self, n: u32) {
        relink(&mut self.records, &self.layout, n, self.first_free);
        self.owners[n as usize - 1] = 0;
        self.first_free = n;
        self.free_count += 1;
    }

    fn give_back_all(&mut self, owner: u16) {
        let _layout = self.layout();
        let span = self.span(owner);
        let mut n = span.high;
        while n > span.low {
            if self.owner(n) == owner {
                self.give_back(n);
                n -= 1;
            } else {
                n = self.passed(span.low, n, owner);
            }
        }
    }

    fn enter(&mut self, queued: Queued) -> Result<(), AllocError> {
        let place = place_of(queued.class, queued.priority);
        let chain = self.chains[place];
        self.occupied[place / PRIORITIES] = true;
        if chain.count == 0 {
            self.spots[queued.jct as usize - 1] = Some(Spot {
                place: place as u8,
                before: 0,
            });
            self.chains[place] = Chain {
                first: queued.jct,
                last: queued.jct,
                count: 1,
            };
            self.waiting += 1;
            return Ok(());
        }
        relink(&mut self.records, &self.layout, chain.last, queued.jct);
        self.spots[queued.jct as usize - 1] = Some(Spot {
            place: place as u8,
            before: chain.last,
        });
        self.chains[place] = Chain {
            first: chain.first,
            last: queued.jct,
            count: chain.count + 1,
        };
        self.waiting += 1;
        Ok(())
    }

    fn first(&self, class: u8) -> Option<Queued> {
        if self.waiting == 0 || class < FIRST_CLASS || class > LAST_CLASS {
            return None;
        }
        let from = place_of(class, HIGHEST_PRIORITY);
        if !self.occupied[from / PRIORITIES] {
            return None;
        }
        match first_used(&self.chains, from) {
            Some(place) => {
                let n = self.chains[place].first;
                Some(queued_at(self.owners[n as usize - 1], n, place))
            }
            None => None,
        }
    }

    fn remove_first(&mut self, queued: Queued) {
        let _layout = self.layout();
        let place = place_of(queued.class, queued.priority);
        let chain = self.chains[place];
        let next = self.records[chain.first as usize - 1].number(self.layout.link);
        self.chains[place] = without(chain, chain.first, 0, next);
        leave(&mut self.spots, chain.first, chain.last, next);
        self.occupied[place / PRIORITIES] = is_occupied(&self.chains, place);
        self.waiting -= 1;
    }

    fn remove(&mut self, job: u16) -> Option<Queued> {
        let _layout = self.layout();
        if job == 0 {
            return None;
        }
        let span = self.span(job);
        match find(&self.owners, &self.spots, job, span.low, span.high) {
            Some(found) => {
                let place = usize::from(found.spot.place);
                let chain = self.chains[place];
                let next = self.records[found.n as usize - 1].number(self.layout.link);
                relink_before(&mut self.records, &self.layout, found.spot.before, next);
                self.chains[place] = without(chain, found.n, found.spot.before, next);
                leave(&mut self.spots, found.n, chain.last, next);
                self.occupied[place / PRIORITIES] = is_occupied(&self.chains, place);
                self.waiting -= 1;
                Some(queued_at(job, found.n, place))
            }
            None => None,
        }
    }

    fn waiting_count(&self) -> usize {
        self.waiting
    }
}
