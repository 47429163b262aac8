//! What the machine may rely on of names, and of jobs that wait: laws, which have no code.
ghost use Rattle.queued_job.specs.Cancelled.{AddsCancel};
ghost use Rattle.queued_job.specs.Listed.{HasOneListing, ListedAreQueued, ListsLast, ListsOthers};
ghost use Rattle.queued_job.specs.Naming.{HoldingLeavesOthers, ReleasingLeavesNone, ReleasingLeavesOthers, WantsAreInOrder};
ghost use Rattle.queued_job.specs.Layouts.{ReadsWhatItHolds};
ghost use Rattle.queued_job.specs.Selecting.{FindsWaiting, MissesWaiting, RemovesWaiting};

/// The names that a job wants stand in byte order, each once.
pub fn wants_are_in_order()
    ensures { WantsAreInOrder }
{}

/// The names of one job are none of another's, and those that are given free are nobody's.
pub fn holds_are_apart()
    ensures held { HoldingLeavesOthers }
    ensures gone { ReleasingLeavesNone }
    ensures kept { ReleasingLeavesOthers }
{}

/// A cancel that is added to the list is the world's.
pub fn adds_cancel()
    ensures { AddsCancel }
{}

/// The jobs that wait in the queue are those that wait in the world, also once one is taken out.
pub fn waiting_are_queued()
    ensures removed { RemovesWaiting }
    ensures found { FindsWaiting }
    ensures missing { MissesWaiting }
{}

/// The jobs of the queue with their listings are those that wait.
pub fn waiting_are_listed()
    ensures queued { ListedAreQueued }
    ensures last { ListsLast }
    ensures others { ListsOthers }
    ensures one { HasOneListing }
{}

/// In a layout that can hold jobs they can be read.
pub fn layout_reads_what_it_holds()
    ensures { ReadsWhatItHolds }
{}
