//! What is given of a queue, and what is told of its jobs.

/// The bytes of an image: 4,096 records of 176 bytes, record 1 first.
pub const IMAGE_BYTES: usize = 720_896;

/// The number of a job that waits, and that of its JCT.
#[derive(Clone, Copy)]
pub struct WaitingJob {
    pub job: u16,
    pub jct: u32,
}

/// The number of a job that records do not denote, and that of the fault which strict reading tells first.
#[derive(Clone, Copy)]
pub struct DroppedJob {
    pub job: u16,
    pub fault: u8,
}
