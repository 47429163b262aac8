//! What follows from the definitions alone.
ghost use Rattle.place_core.specs.Placings.{SetsArePlacedAsConfigured};

/// Each DD that makes a set is placed among the volumes that are configured for it.
pub fn sets_are_placed_as_configured()
    ensures { SetsArePlacedAsConfigured }
{}
