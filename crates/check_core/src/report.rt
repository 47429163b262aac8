//! What is told of a refusal.
use deck_places::judge::At;
use deck_places::stands::StepOrigin;
use jcl_plan::fault::Cause;
use jcl_plan::plan::JobPlan;
use plain::text::Text;

/// A card of a deck, which counts from 0, or none where the deck has none; and a column of it, which counts from 0 too.
#[derive(Clone, Copy, PartialEq, Eq)]
pub struct Spot {
    pub card: Option<usize>,
    pub column: Option<usize>,
}

/// A statement of a called procedure: the procedure's name, on which of its lines it begins, which count from 1, that line, and the line of the session
/// that it is, where the procedure is the session's.
#[derive(Drop)]
pub struct Inside {
    pub procedure: Text,
    pub line: usize,
    pub card: Text,
    pub of_session: Option<usize>,
}

/// A refusal, where it is, the place that is marked, the statement of a called procedure for which it is, a word that may have been meant, and what else is
/// said of it.
#[derive(Drop)]
pub struct Report {
    pub cause: Cause,
    pub at: At,
    pub spot: Spot,
    pub inside: Option<Inside>,
    pub guess: Option<Text>,
    /// Sentences, a line each; nothing where all is said.
    pub hint: Text,
}

/// What is told of a deck.
#[derive(Drop)]
pub enum Checked {
    /// It denotes this job, whose steps come from there.
    Taken(JobPlan, Vec<StepOrigin>),
    /// It is refused: for what it is refused first, and what else is wrong.
    Refused { first: Report, later: Vec<Report> },
}
