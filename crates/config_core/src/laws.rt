//! Configurations and the starts of the machine: laws, which do nothing.
ghost use Rattle.config_core.specs.Starts.{StartsOfConfigurations, StartsWithJobs};

/// The machine of a configuration, before its first event, is at a start.
pub fn configuration_is_start()
    ensures { StartsOfConfigurations }
{}

/// So is that of a configuration with jobs that wait, if these records in use are theirs.
pub fn jobs_may_wait_at_the_start()
    ensures { StartsWithJobs }
{}
