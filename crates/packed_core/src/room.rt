//! Where the bits of tests stand in a row.
/// The bits before a part: those of the JOB statement's tests come first, then those of the steps that are behind, which are clear, and
/// those of the steps to come.
#[derive(Clone, Copy)]
pub struct Room {
    pub job: usize,
    pub passed: usize,
    pub left: usize,
}
