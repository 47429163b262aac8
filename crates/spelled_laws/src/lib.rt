//! Laws of what READ writes in the records of the queue. They have no code: a law is a function that does nothing, and its contract is the law.
#![tactic(auto)]

ghost use Rattle.spelled_laws.specs.Once.{JobIsSpelledOnce, ReadsAreDecided};

use open_laws::sameness_is_kept;

/// By the numbers of its records a job has one spelling, where its cards stand two in a record, but for what is open.
pub fn job_is_spelled_once()
    ensures { JobIsSpelledOnce }
{}

/// READ leaves nothing open but what is open in records.
pub fn reads_are_decided()
    ensures { ReadsAreDecided }
{
    sameness_is_kept();
}
