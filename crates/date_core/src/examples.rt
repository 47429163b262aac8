//! Days as calendars have them, and as they are read: laws that are computed.
ghost use Rattle.date_core.specs.Examples.{CountsDays, ReadsDays};

/// The first and the last day, leap years and centuries.
pub fn counts_days()
    ensures { CountsDays }
{}

/// yyddd and yyyy/ddd.
pub fn reads_days()
    ensures { ReadsDays }
{}
