//! A job alone: what it is answered, and what it did.
use crate::store::SoloStore;
use jcl_plan::entry::JobLine;
use plain::listed::Listed;

/// What a job alone does not decide itself: for each growth asked whether it is granted (a missing answer grants it), and for each step
/// none or the number of program lines before a cancel.
#[derive(Drop)]
pub struct SoloAnswers {
    pub grants: Listed<bool>,
    pub cancels: Listed<Option<u32>>,
}

/// What a job alone did: its lines, the store that it left, and whether it met no fault.
#[derive(Drop)]
pub struct SoloRun {
    pub lines: Listed<JobLine>,
    pub store: SoloStore,
    pub clean: bool,
}
