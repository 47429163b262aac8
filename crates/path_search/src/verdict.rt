//! What an analysis answers.
use jcl_meaning::state::Place;
use jcl_plan::fault::Fault;
use jcl_plan::outcome::Outcome;

/// What may go wrong first: the fault, the step and the DD that meet it, and how the steps end on a path that leads there. The path has an outcome
/// for each step that has ended there: a code or an ABEND of a step that runs, of another its fate.
#[derive(Drop)]
pub struct RiskReport {
    pub fault: Fault,
    pub step: usize,
    pub dd: usize,
    pub path: Vec<Outcome>,
}

/// What may become of a job.
#[derive(Drop)]
pub enum Verdict {
    /// However its steps end, it meets no fault. It may make sets at these places, by step, DD and volume as configured.
    Safe(Vec<Place>),
    /// Some path meets a fault: one at the earliest place.
    Risk(RiskReport),
    /// Behind this step there are more views than the limit, and up to its end no path meets a fault.
    TooMany { step: usize },
}
