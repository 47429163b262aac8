//! Laws of the cases of the machine's table. They have no code: a law is a function that does nothing, and its contract is the law.
#![tactic(auto)]

ghost use Rattle.case_laws.specs.Cases.{EachEventHasACase, NextEventHasACase, StartsSupplied, SuppliesAreKept};
ghost use Rattle.case_laws.specs.Gains.{ActGains};
ghost use Rattle.case_laws.specs.Lines.{LinesAreDetermined};

/// Whatever the event, a sound machine that is supplied has a case of the table for it.
pub fn each_event_has_a_case()
    ensures { EachEventHasACase }
{}

/// The machine of a configuration is supplied.
pub fn starts_supplied()
    ensures { StartsSupplied }
{}

/// Each event leaves a sound machine that is supplied so.
pub fn supplies_are_kept()
    ensures { SuppliesAreKept }
{}

/// Whatever the events so far, the next one has a case of the table.
pub fn next_event_has_a_case()
    ensures { NextEventHasACase }
{}

/// No action gives a set more tracks, but for a growth that is granted and the set that it makes.
pub fn act_gains()
    ensures { ActGains }
{}

/// The table leaves no freedom in the lines of an event, where nothing is open that the machine decides.
pub fn lines_are_determined()
    ensures { LinesAreDetermined }
{}
