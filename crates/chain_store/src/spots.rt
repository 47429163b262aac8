//! Where the first records of the jobs that wait stand, by their numbers.
ghost use Rattle.std.specs.Prelude.{◌≡◌, ◌≢◌, ◌-◌, ◌<◌, ◌≤◌, ◌++◌, IfNone, IfSome, None, OnOk, length, replicate, slice_set, true};
ghost use Rattle.chain_store.specs.Spots.{HasNoSpot, IsFound, OwnsNone, spot_of};

use std::alloc::AllocError;

/// Where a record stands that is in a chain.
#[derive(Clone, Copy)]
pub(crate) struct Spot {
    /// The place of its chain.
    pub(crate) place: u8,
    /// The record before it, 0 if it is the first.
    pub(crate) before: u32,
}

/// A record that is in a chain.
#[derive(Clone, Copy)]
pub(crate) struct Found {
    pub(crate) n: u32,
    pub(crate) spot: Spot,
}

/// How many records are passed at once where a job owns none of them.
const BLOCK: u32 = 64;

/// Whether a job owns none of the records behind one number, up to another.
fn owns_none(owners: &[u16], job: u16, low: u32, high: u32) -> bool
    requires order { low ≤ high }
    requires there { high ≤ length owners.now }
    ensures { result ≡ true → OwnsNone owners.now job low high }
{
    !owners[low as usize..high as usize].contains(&job)
}

/// Of the records behind one number, up to another, the first that a job owns and that is in a chain.
pub(crate) fn find(
    owners: &[u16],
    spots: &[Option<Spot>],
    job: u16,
    low: u32,
    high: u32,
) -> Option<Found>
    requires owned { high ≤ length owners.now }
    requires there { high ≤ length spots.now }
    ensures some { IfSome result (IsFound owners.now spots.now job) }
    ensures none { IfNone result (HasNoSpot owners.now spots.now job low high) }
{
    let mut n = low;
    while n < high {
        let end = n.saturating_add(BLOCK).min(high);
        if owns_none(owners, job, n, end) {
            n = end;
        } else {
            if owners[n as usize] == job {
                match spots[n as usize] {
                    Some(spot) => return Some(Found { n: n + 1, spot }),
                    None => (),
                }
            }
            n += 1;
        }
    }
    None
}

/// A record leaves its chain, whose last one is given, and the one to which its link led: if it is not the last, that one stands where it stood.
pub(crate) fn leave(spots: &mut Vec<Option<Spot>>, n: u32, last: u32, next: u32)
    requires from_one { 0 < n }
    requires there { n ≤ length spots.old.items }
    requires next { n ≢ last → 0 < next }
    requires next_there { n ≢ last → next ≤ length spots.old.items }
    ensures last { n ≡ last → spots.new.items ≡ slice_set spots.old.items (n - 1) None }
    ensures middle { n ≢ last → spots.new.items ≡ slice_set (slice_set spots.old.items (n - 1) None) (next - 1) (spot_of spots.old.items n) }
{
    let spot = spots[n as usize - 1];
    spots[n as usize - 1] = None;
    if n != last {
        spots[next as usize - 1] = spot;
    }
}

/// Adds records that are in no chain, up to so many.
pub(crate) fn more_spots(spots: &mut Vec<Option<Spot>>, wanted: usize) -> Result<(), AllocError>
    ensures none { spots.new.items ≡ spots.old.items ++ replicate (length spots.new.items - length spots.old.items) None }
    ensures ok { OnOk result (wanted ≤ length spots.new.items) }
{
    while spots.len() < wanted {
        spots.push(None)?;
    }
    Ok(())
}
