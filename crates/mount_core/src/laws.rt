//! What follows from the definitions alone.
ghost use Rattle.mount_core.specs.Mounts.{KeptIsGivenBack};

/// Tracks that are kept and given back leave the volume as it was.
pub fn what_is_kept_can_be_given_back()
    ensures { KeptIsGivenBack }
{}
