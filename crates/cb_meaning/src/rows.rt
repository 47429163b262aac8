//! Worked examples: records, and what they spell.
ghost use Rattle.cb_meaning.specs.Damages.{TellsDamages, TellsNoDays};
ghost use Rattle.cb_meaning.specs.Examples.{ReadsBack, SpellsADay, SpellsAJobOfOneSet, SpellsTwoDummies};

/// A job that catalogs a set takes four records.
pub fn spells_a_job_of_one_set()
    ensures { SpellsAJobOfOneSet }
{}

/// A job of two dummies takes four records.
pub fn spells_two_dummies()
    ensures { SpellsTwoDummies }
{}

/// One change in the records of a job, and the fault that is told of it.
pub fn tells_damages()
    ensures { TellsDamages }
{}

/// The day of a set, in its JFCB.
pub fn spells_a_day()
    ensures { SpellsADay }
{}

/// Bytes of a JFCB that are no day, and the fault that is told of them.
pub fn tells_no_days()
    ensures { TellsNoDays }
{}

/// Their plans read back from the records.
pub fn reads_back()
    ensures { ReadsBack }
{}
