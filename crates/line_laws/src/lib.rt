//! Laws of the text of a listing: which of its lines stand in it, and where. They have no code: a law is a function that does nothing, and its contract is the
//! law.
#![tactic(auto)]

ghost use Rattle.line_laws.specs.LineLaws.{AreAlone, LinesAreTexts, LinesOfJobs, LinesStand, WholeTextIsLines};

/// A front of a listing's text has the first of its lines.
pub fn lines_are_texts()
    ensures { LinesAreTexts }
{}

/// The whole text has all of them.
pub fn whole_text_is_lines()
    ensures { WholeTextIsLines }
{}

/// A line begins with a job's number and a blank exactly where it is a line of that job.
pub fn lines_of_jobs()
    ensures { LinesOfJobs }
{}

/// No other line has the text of an ASSURED line, of END, of the ABENDs S222 and SB37, or of a CANCEL.
pub fn texts_are_alone()
    ensures { AreAlone }
{}

/// Each line of the text is one of the listing's.
pub fn lines_stand()
    ensures { LinesStand }
{}
