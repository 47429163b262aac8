//! Laws of cancels. They have no code: a law is a function that does nothing, and its contract is the law.
#![tactic(auto)]

ghost use Rattle.cancel_laws.specs.Cancels.{CancelsAreUsedOnce, CancelsComeFirst};

/// A job ends by S222 no more often than it was cancelled, whatever the events.
pub fn cancels_are_used_once()
    ensures { CancelsAreUsedOnce }
{}

/// Each S222 of a job stands behind a CANCEL of it that no earlier one used.
pub fn cancels_come_first()
    ensures { CancelsComeFirst }
{
    cancels_are_used_once();
}
