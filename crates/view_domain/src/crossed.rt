//! What a part of a job's path comes to from a view.
use jcl_meaning::state::Place;
use jcl_plan::fault::Fault;
use jcl_plan::outcome::{Fate, Outcome};
use plain::shared::Shared;

/// The first fault that a part meets. Steps and DDs count from 1.
#[derive(Clone, Copy)]
pub struct Stop {
    /// How many actions of the part come before it, those that write nothing too.
    pub at: usize,
    /// The step and the DD that meet it; at the job's end those that passed the set.
    pub step: usize,
    pub dd: usize,
    /// How many steps have ended there: at a take those before its own, at a disposition its own too, at the job's end all.
    pub ended: usize,
    pub fault: Fault,
}

/// A view behind a part, and an outcome of the part's step that leads to it.
#[derive(Drop)]
pub struct Move<V: Drop> {
    pub outcome: Outcome,
    pub view: V,
}

/// What a step that runs comes to behind its end: by a code, or by an ABEND.
#[derive(Drop)]
pub enum Branch<V: Drop> {
    /// A disposition meets a fault, whatever the code or the ABEND is.
    Stops(Stop),
    /// The views that stand behind the step, but for those that stood there already.
    Leads(Vec<Move<V>>),
}

/// What a part comes to from a view.
#[derive(Drop)]
pub enum Crossed<V: Drop> {
    /// A fault is met whatever the outcomes are: at a take, or at the job's end.
    Stops(Stop),
    /// It is the job's end, and no fault is met.
    Ends,
    /// The step does not run.
    Passes {
        fate: Fate,
        view: V,
    },
    /// The step runs: these sets are made, and then its end counts.
    Runs {
        made: Shared<Place>,
        by_code: Branch<V>,
        by_abend: Branch<V>,
    },
}
