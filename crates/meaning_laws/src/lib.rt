//! Laws of what jobs mean alone. They have no code: a law is a function that does nothing, and its contract is the law.
#![tactic(auto)]

ghost use Rattle.meaning_laws.specs.Laws.{CompatibleBothWays, EqualPartsChain, SharedByBoth, Splits};

/// Two lists of actions one after another are one run after another.
pub fn splits()
    ensures { Splits }
{}

/// Where a job is compatible with another, so is the other with it.
pub fn compatible_both_ways()
    ensures { CompatibleBothWays }
{}

/// A name that two compatible jobs both hold is shared by both.
pub fn shared_by_both()
    ensures { SharedByBoth }
{}

/// That two stores have equal parts holds of a store and itself, both ways, and along a third.
pub fn equal_parts_chain()
    ensures { EqualPartsChain }
{}
