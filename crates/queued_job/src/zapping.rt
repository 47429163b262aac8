//! Bytes of a record are overwritten.
ghost use Rattle.std.specs.Prelude.{◌≡◌, ◌+◌, ◌≤◌, true, IfNone, IfSome, length};
ghost use Rattle.std.specs.Prelude.{is_some};
ghost use Rattle.cb_meaning.specs.declared.layout.TheConstants.{RECORD_BYTES};
ghost use Rattle.cb_meaning.specs.Walks.{is_free};
ghost use Rattle.cb_queue.specs.RecordQueues.{record_at, shown};
ghost use Rattle.queued_job.specs.Zapping.{IsOwner, Overwrites};

use cb_meaning::layout::Field;
use cb_queue::laws::shows_records;
use cb_queue::store::RecordStore;

/// The number of the job that has a record, if one has.
pub fn owner_of<Q: RecordStore>(queue: &Q, n: u32) -> Option<u16>
    requires from { 1 ≤ n }
    requires to { n ≤ (Q.queue queue.now).layout.most_records }
    ensures some { IfSome result (IsOwner (Q.queue queue.now) n) }
    ensures none { IfNone result (is_free (shown (Q.queue queue.now)) n ≡ true) }
{
    let _layout = queue.layout();
    shows_records();
    match queue.get(n) {
        None => None,
        Some(rec) => Some(rec.owner()),
    }
}

/// Overwrites bytes of a record in use, from an offset behind its owner on. What stands in its link stays the store's own.
pub fn overwrite<Q: RecordStore>(queue: &mut Q, n: u32, offset: u8, bytes: &[u8])
    requires there { is_some (record_at (Q.queue queue.old) n) ≡ true }
    requires behind { 4 ≤ offset }
    requires within { offset + length bytes.now ≤ RECORD_BYTES }
    ensures { Overwrites n offset bytes.now (Q.queue queue.old) (Q.queue queue.new) }
{
    let _layout = queue.layout();
    let Some(rec) = queue.get(n) else {
        unreachable!();
    };
    let mut own = *rec;
    let width = bytes.len() as u8;
    own.write_part(Field { at: offset, width }, bytes);
    queue.put(n, &own);
}
