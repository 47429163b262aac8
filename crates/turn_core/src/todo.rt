//! Where a job is in its agenda, and what it does there.
use jcl_meaning::program::Move;

/// Where a job is in its agenda. Steps, DDs and requests count from 0.
#[derive(Clone, Copy, PartialEq, Eq)]
pub enum Todo {
    /// The start of a step; behind the last step what its DDs passed.
    Start { step: usize },
    /// The taking of a DD; behind the last DD the first request.
    Take { step: usize, dd: usize },
    /// A request; behind the last request the step's end.
    Ask { step: usize, request: usize },
    /// What is due of the request before this one.
    Receive { step: usize, request: usize },
    /// The disposition of a DD; behind the last DD the next step.
    Dispose { step: usize, dd: usize },
    /// What a DD passed and no DD received; behind the last DD the job's end.
    Left { step: usize, dd: usize },
}

/// An action of a job's agenda, but for the last. Steps and DDs count from 1.
#[derive(Clone, Copy)]
pub(crate) enum Task {
    Start { n: usize },
    Take { n: usize, dd: usize },
    Ask { n: usize, wants: Move },
    Receive,
    Finish { n: usize },
    Dispose { n: usize, dd: usize },
    Left { n: usize, dd: usize },
}

/// What a job does at a place of its agenda.
#[derive(Clone, Copy)]
pub(crate) enum Next {
    /// An action, and the place behind it.
    Does(Task, Todo),
    /// The job's end.
    Over,
}
