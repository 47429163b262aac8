//! Laws of what an event leaves. They have no code: a law is a function that does nothing, and its contract is the law.
#![tactic(auto)]

ghost use Rattle.event_laws.specs.Decided.{EventsAreDecided};
ghost use Rattle.event_laws.specs.Named.{AnswersMeet};

use spelled_laws::reads_are_decided;
use turn_laws::turns_are_decided;

/// From one machine an event, at which no job asks for its admission, leads to the same, where a store decides what is granted: the same lines, and the same
/// machine but for what is open in records and for the free tracks, which the volumes have.
pub fn events_are_decided()
    ensures { EventsAreDecided }
{
    turns_are_decided();
    reads_are_decided();
}

/// Where a job is answered by an event, it is so, and the same job, in each transition by that event.
pub fn answers_meet()
    ensures { AnswersMeet }
{}
