//! What a GET reads. (This profile)
use jcl_plan::plan::Record;
use jname_core::serial::Serial;
use plain::listed::Listed;

/// What a member of a concatenation has to read. Cards and sets have records and are read past; DUMMY and SYSOUT have none and are not.
#[derive(Drop)]
pub struct Source {
    pub records: Listed<Record>,
    pub read_past: bool,
    /// The volume of a set.
    pub serial: Option<Serial>,
}

/// Where a GET reads: the member, from 0, the record in it, the record there, and the volume of its set.
#[derive(Clone, Copy)]
pub struct FoundRecord {
    pub member: usize,
    pub position: usize,
    pub text: Option<Record>,
    pub serial: Option<Serial>,
}
