//! Records with their links, and their owners, as they are changed one by one.
ghost use Rattle.std.specs.Prelude.{◌≡◌, ◌≢◌, ℕ, ◌-◌, ◌^◌, ◌<◌, ◌≤◌, ◌++◌, OnOk, length, replicate, take};
ghost use Rattle.cb_meaning.specs.declared.layout.TheConstants.{RECORD_BYTES};
ghost use Rattle.cb_meaning.specs.Fields.{number_at, with_part};
ghost use Rattle.cb_queue.specs.RecordQueues.{HasOwnLink, unlinked, zero_record};
ghost use Rattle.cb_records.specs.Laws.{AreBytes};
ghost use Rattle.chain_store.specs.Links.{AreWhole, Changes, link_at, record_of};

use cb_meaning::layout::Layout;
use cb_records::laws::are_bytes;
use cb_records::rec::{OWNER, Rec, STATUS};
use std::alloc::AllocError;

/// Lets the link of a record lead to another.
pub(crate) fn relink(records: &mut Vec<Rec>, layout: &Layout, n: u32, next: u32)
    requires layout { HasOwnLink layout.now }
    requires from_one { 0 < n }
    requires there { n ≤ length records.old.items }
    requires whole { AreWhole records.old.items }
    requires fits { next < 256 ^ layout.now.link.width }
    ensures change { Changes layout.now records.old.items records.new.items (n - 1) (record_of layout.now records.old.items (n - 1)) }
    ensures link { link_at layout.now records.new.items n ≡ next }
{
    records[n as usize - 1].write_number(layout.link, next);
}

/// Lets the record before one lead to the one behind it, where there is one before it.
pub(crate) fn relink_before(records: &mut Vec<Rec>, layout: &Layout, before: u32, next: u32)
    requires layout { HasOwnLink layout.now }
    requires there { before ≤ length records.old.items }
    requires whole { AreWhole records.old.items }
    requires fits { next < 256 ^ layout.now.link.width }
    ensures none { before ≡ 0 → records.new.items ≡ records.old.items }
    ensures change { before ≢ 0 → Changes layout.now records.old.items records.new.items (before - 1) (record_of layout.now records.old.items (before - 1)) }
    ensures link { before ≢ 0 → link_at layout.now records.new.items before ≡ next }
{
    if before != 0 {
        relink(records, layout, before, next);
    }
}

/// Writes a record in the place of another, whose link stays.
fn write_beside_link(own: &mut Rec, layout: &Layout, rec: &Rec)
    requires { HasOwnLink layout.now }
    ensures value { unlinked layout.now own.new ≡ unlinked layout.now rec.now }
    ensures link { number_at own.new layout.now.link ≡ number_at own.old layout.now.link }
    ensures whole { length own.new ≡ RECORD_BYTES }
{
    let next = own.number(layout.link);
    let _whole = rec.bytes();
    *own = *rec;
    own.write_number(layout.link, next);
}

/// Writes a record anew, but for its link.
pub(crate) fn rewrite(records: &mut Vec<Rec>, layout: &Layout, n: u32, rec: &Rec)
    requires layout { HasOwnLink layout.now }
    requires from_one { 0 < n }
    requires there { n ≤ length records.old.items }
    requires whole { AreWhole records.old.items }
    ensures change { Changes layout.now records.old.items records.new.items (n - 1) (unlinked layout.now rec.now) }
    ensures link { link_at layout.now records.new.items n ≡ link_at layout.now records.old.items n }
    ensures bytes { AreBytes rec.now }
    ensures whole { length rec.now ≡ RECORD_BYTES }
{
    let _whole = rec.bytes();
    are_bytes(rec);
    write_beside_link(&mut records[n as usize - 1], layout, rec);
}

/// Writes the status of a record.
pub(crate) fn rewrite_status(records: &mut Vec<Rec>, layout: &Layout, n: u32, status: &[u8; 8])
    requires layout { HasOwnLink layout.now }
    requires from_one { 0 < n }
    requires there { n ≤ length records.old.items }
    requires whole { AreWhole records.old.items }
    ensures change { Changes layout.now records.old.items records.new.items (n - 1) (with_part (record_of layout.now records.old.items (n - 1)) 168 status.now) }
    ensures link { link_at layout.now records.new.items n ≡ link_at layout.now records.old.items n }
    ensures bytes { AreBytes (with_part (record_of layout.now records.old.items (n - 1)) 168 status.now) }
{
    let own = &mut records[n as usize - 1];
    own.write_part(STATUS, status.as_slice());
    are_bytes(own);
}

/// A record of zeros but for its owner.
fn owned_record(owner: u16) -> Rec
    ensures value { result ≡ zero_record owner }
    ensures bytes { AreBytes result }
{
    let mut own = Rec::zeroed();
    own.write_part(OWNER, &[(owner / 256) as u8, (owner % 256) as u8]);
    are_bytes(&own);
    own
}

/// Makes a record that of an owner, with nothing in it.
pub(crate) fn renew(records: &mut Vec<Rec>, layout: &Layout, n: u32, owner: u16)
    requires layout { HasOwnLink layout.now }
    requires owner { owner ≢ 0 }
    requires from_one { 0 < n }
    requires there { n ≤ length records.old.items }
    ensures change { Changes layout.now records.old.items records.new.items (n - 1) (zero_record owner) }
    ensures bytes { AreBytes (zero_record owner) }
{
    records[n as usize - 1] = owned_record(owner);
}

/// Adds records of zeros, up to so many.
pub(crate) fn more_records(records: &mut Vec<Rec>, wanted: usize) -> Result<(), AllocError>
    ensures kept { take (length records.old.items) records.new.items ≡ records.old.items }
    ensures whole { AreWhole records.old.items → AreWhole records.new.items }
    ensures ok { OnOk result (wanted ≤ length records.new.items) }
{
    while records.len() < wanted {
        records.push(Rec::zeroed())?;
    }
    Ok(())
}

/// Adds records without an owner, up to so many.
pub(crate) fn more_owners(owners: &mut Vec<u16>, wanted: usize) -> Result<(), AllocError>
    ensures zeros { owners.new.items ≡ owners.old.items ++ replicate (length owners.new.items - length owners.old.items) 0 }
    ensures ok { OnOk result (wanted ≤ length owners.new.items) }
    ensures most { (m : ℕ) → length owners.old.items ≤ m → wanted ≤ m → length owners.new.items ≤ m }
{
    while owners.len() < wanted {
        owners.push(0)?;
    }
    Ok(())
}
