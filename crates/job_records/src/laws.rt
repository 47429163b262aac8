//! Which jobs can be read where they stand: a law, which has no code.
ghost use Rattle.job_records.specs.Recorded.{DenotedIsRecorded};

use record_laws::one_job_is_denoted;
use walk_laws::{denoted_has_no_fault, faultless_denotes};

/// A job that records denote is recorded, and is the one that is read from them.
pub fn denoted_is_recorded()
    ensures { DenotedIsRecorded }
{
    denoted_has_no_fault();
    faultless_denotes();
    one_job_is_denoted();
}
