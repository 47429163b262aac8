//! Laws of what is open in records: links, status bytes, and what stands in free ones. They have no code: a law is a function that does nothing, and its contract
//! is the law.
#![tactic(auto)]

ghost use Rattle.open_laws.specs.Open.{SamenessIsKept};
ghost use Rattle.open_laws.specs.Reading.{FirstFaultStays};

/// Whatever stands in links and status bytes, and whichever other job owns a record, strict reading tells the same of a job.
pub fn first_fault_stays()
    ensures { FirstFaultStays }
{}

/// Records that are the same but for what is open are so both ways, and one after another.
pub fn sameness_is_kept()
    ensures { SamenessIsKept }
{}
