//! How a session is run: what the command line may ask for. (This profile)
#![tactic(auto)]

/// What becomes of a job that is at risk.
#[derive(Clone, Copy, PartialEq, Eq)]
pub enum RiskChoice {
    Run,
    Refuse,
}

/// How a session is run.
#[derive(Clone, Copy, PartialEq, Eq)]
pub struct Options {
    pub risk: RiskChoice,
    /// The most views of the verifier.
    pub views: u16,
    /// The path of a risk is shown.
    pub explains: bool,
}
