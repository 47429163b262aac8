//! Laws of the volumes after an event. They have no code: a law is a function that does nothing, and its contract is the law.
#![tactic(auto)]

ghost use Rattle.next_laws.specs.Next.{NextStoreIsDecided, NextVolumeIsDecided};

/// Where an event keeps nothing, a volume behind it is known by what is shown of it.
pub fn next_volume_is_decided()
    ensures { NextVolumeIsDecided }
{}

/// So is the store.
pub fn next_store_is_decided()
    ensures { NextStoreIsDecided }
{}
