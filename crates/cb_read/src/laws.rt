//! Which layouts jobs can be read in: a law, which has no code.
ghost use Rattle.cb_meaning.specs.declared.layout.TheConstants.{LAYOUT_1, LAYOUT_2};
ghost use Rattle.cb_meaning.specs.Layouts.{HasOwnFields};

/// No two fields of a record have a byte in common, in either layout.
pub fn the_layouts_have_own_fields()
    ensures first { HasOwnFields LAYOUT_1 }
    ensures second { HasOwnFields LAYOUT_2 }
{}
