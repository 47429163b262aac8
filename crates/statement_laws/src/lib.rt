//! Laws of the cards that statements are. They have no code: a law is a function that does nothing, and its contract is the law.
#![tactic(auto)]

ghost use Rattle.statement_laws.specs.CardLaws.{ByItselfIsSound, DdCardsAreSound, ExecCardsAreSound, JobCardsAreSound};
ghost use Rattle.statement_laws.specs.CardLaws.{MergedIsSound, MergedKeepsName};
ghost use Rattle.statement_laws.specs.Examples.{Ends};

/// A JOB of which no fault is told has a name, a class from A to O, a priority up to 13, a class of its listing, and tests of codes up to 4095.
pub fn job_cards_are_sound()
    ensures { JobCardsAreSound }
{}

/// An EXEC of which no fault is told names its step by a name or not at all, names the program that it runs, where it calls no procedure, and the
/// steps that its conditions are for; the codes of its tests are up to 4095.
pub fn exec_cards_are_sound()
    ensures { ExecCardsAreSound }
{}

/// A DD of which no fault is told has a name or none; its set and its volume are named in their grammars, its space is up to 4000 tracks, its class
/// is a letter or a digit, and the cards behind it are cards.
pub fn dd_cards_are_sound()
    ensures { DdCardsAreSound }
{}

/// A DD with its override is sound where both are.
pub fn merged_is_sound()
    ensures { MergedIsSound }
{}

/// It keeps its name.
pub fn merged_keeps_name()
    ensures { MergedKeepsName }
{}

/// A DD that overrides none, and is taken by itself, is sound where it is.
pub fn by_itself_is_sound()
    ensures { ByItselfIsSound }
{}

/// There are such cards, with values at the ends of their ranges.
pub fn ends()
    ensures { Ends }
{}
