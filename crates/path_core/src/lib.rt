//! What may become of a job that starts in a store, and whether a path that is reported leads to its fault.
#![tactic(auto)]

pub mod analyse;
pub mod check;
pub mod explain;
mod fates;
pub mod keeping;
mod marks;
pub mod start;

ghost use Rattle.path_core.specs.Endings.{ExplanationsEnd};
ghost use Rattle.path_core.specs.Reports.{ReportsPass};

/// The path of each report that an analysis may give is one that [`check::check_path`] takes.
pub fn report_passes()
    ensures { ReportsPass }
{}

/// The lines that explain a report end in the fault that it tells.
pub fn explanations_end()
    ensures { ExplanationsEnd }
{}
