//! Laws of whole runs of the machine. They have no code: a law is a function that does nothing, and its contract is the law.
#![tactic(auto)]

ghost use Rattle.law_core.specs.KeepsPart.{KeepsPart};
ghost use Rattle.law_core.specs.Promises.{PromisesAreKept};
ghost use Rattle.law_core.specs.Soundness.{SoundnessIsKept, StartsSound};
ghost use Rattle.law_core.specs.Waits.{WaitsChangeNothing};
ghost use Rattle.part_laws.specs.PartLaws.{SameLines};
ghost use Rattle.world_meaning.specs.Headlines.{AssuredRun};

/// The machine of a configuration is sound.
pub fn starts_sound()
    ensures { StartsSound }
{}

/// Each event leaves a sound machine sound.
pub fn soundness_is_kept()
    ensures { SoundnessIsKept }
{}

/// What a job sees of the store stays as it is while it holds its names, but for its own turns.
pub fn keeps_part()
    ensures { KeepsPart }
{}

/// From any place of its agenda, in states that it cannot tell apart, a job writes the same lines and meets the same faults.
pub fn same_lines()
    ensures { SameLines }
{
    part_laws::same_lines();
}

/// A turn that tells that a job waits, for its names or for space, changes nothing but the count of events and the job's listing.
pub fn waits_change_nothing()
    ensures { WaitsChangeNothing }
{}

/// Whatever the events, a job that is answered ASSURED writes from there on a prefix of its solo meaning, which meets no fault, and at its end the
/// whole, a line at each of its actions, of which there are no more than were stated.
pub fn assured_run()
    ensures { AssuredRun }
{}

/// So it is for each ASSURED line among the lines of an event, whatever came before it.
pub fn promises_are_kept()
    ensures { PromisesAreKept }
{}
