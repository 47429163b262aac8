//! Laws of what is kept on volumes, and of the volumes after any event. They have no code: a law is a function that does nothing, and its contract is the law.
#![tactic(auto)]

ghost use Rattle.keep_laws.specs.Keeping.{EventsKeepNoMore, KeepingIsDecided, NextOfIsDecided};

use next_laws::next_store_is_decided;

/// What the volumes are behind an event at which primaries are kept is decided by what is seen of it.
pub fn keeping_is_decided()
    ensures { KeepingIsDecided }
{
    next_store_is_decided();
}

/// So are they behind an event at which nothing more is kept.
pub fn next_of_is_decided()
    ensures { NextOfIsDecided }
{
    next_store_is_decided();
}

/// At an event that assures no job nothing more is kept.
pub fn events_keep_no_more()
    ensures { EventsKeepNoMore }
{}
