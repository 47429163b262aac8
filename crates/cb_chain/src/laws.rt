//! Which layouts can hold jobs: laws, which have no code.
ghost use Rattle.cb_meaning.specs.declared.layout.TheConstants.{LAYOUT_1, LAYOUT_2};
ghost use Rattle.cb_chain.specs.Written.{HasDays, HoldsJobs};

/// The fields of each layout are apart in each record, and wide enough; a set can have a day in the second.
pub fn the_layouts_hold_jobs()
    ensures first { HoldsJobs LAYOUT_1 }
    ensures second { HoldsJobs LAYOUT_2 }
    ensures days { HasDays LAYOUT_2 }
{}
