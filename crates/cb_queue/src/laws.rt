//! What a reader of a store may rely on: laws, which have no code.
ghost use Rattle.cb_queue.specs.RecordQueues.{ShowsRecords};

/// What is shown of a sound store has its free records, and its owners.
pub fn shows_records()
    ensures { ShowsRecords }
{}
