//! Lines that no machine writes there.
ghost use Rattle.world_rows.specs.Wrong.{AtARead, AtASelectedJob, AtItsEnd};

/// Where a record is to be read from an idle volume the turn does not wait, nothing is cancelled, and no line is skipped.
pub fn at_a_read()
    ensures { AtARead }
{}

/// A job that is selected is not selected again, and is not broken where its records are good.
pub fn at_a_selected_job()
    ensures { AtASelectedJob }
{}

/// Behind its END a job holds no name.
pub fn at_its_end()
    ensures { AtItsEnd }
{}
