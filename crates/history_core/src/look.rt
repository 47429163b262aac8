//! What a stretch of a lane shows.

#[derive(Clone, Copy, PartialEq, Eq)]
pub enum Look {
    /// A job waits in the queue.
    Queued,
    /// An initiator selected a job, which is not admitted yet.
    Selected,
    /// The job waits for names or for space.
    Waits,
    /// The job is admitted, and no step of it has begun.
    Admitted,
    Runs,
    /// A step waits for a device.
    Device,
    Bypassed,
    Flushed,
    /// A name is held by one job alone.
    Alone,
    /// A name is held by jobs that share it.
    Shared,
    /// The free tracks of a volume.
    Free,
    /// The tracks that are kept on it for jobs.
    Kept,
    /// An operation is under way on a volume.
    Busy,
    /// More than one of these: too short to be drawn, or beyond those that have a lane.
    Several,
    /// A job holds names that no other wants.
    Together,
    /// A writer writes a job's lines.
    Writes,
    Abend,
    Fault,
    /// The operator cancelled a job.
    Cancel,
    /// A deck was rejected.
    Rejected,
}
