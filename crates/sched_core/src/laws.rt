//! Laws of chains of machines, without code.
ghost use Rattle.sched_core.specs.Promised.{ChainsAreRuns, ChainsKeepPromises};

use law_core::promises_are_kept;

/// A chain of machines, step by step, is a run of the machine's definitions.
pub fn chains_are_runs()
    ensures { ChainsAreRuns }
{}

/// From a machine with no event yet, what a chain promises of each job that it answers ASSURED is kept.
pub fn chains_keep_promises()
    ensures { ChainsKeepPromises }
{
    promises_are_kept();
}
