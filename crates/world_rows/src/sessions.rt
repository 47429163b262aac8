//! Sessions on one volume with two initiators.
ghost use Rattle.world_rows.specs.Cancels.{IsCancelled};
ghost use Rattle.world_rows.specs.Devices.{WaitsForADevice};
ghost use Rattle.world_rows.specs.Generations.{RollsOff};
ghost use Rattle.world_rows.specs.Growths.{IsRefusedGrowth};
ghost use Rattle.world_rows.specs.Names.{WaitsForNames};
ghost use Rattle.world_rows.specs.Zaps.{IsBroken, IsRefused};

/// A job that deletes a set waits until the one that reads it has ended.
pub fn waits_for_names()
    ensures { WaitsForNames }
{}

/// A job waits while another has an operation under way on the volume.
pub fn waits_for_a_device()
    ensures { WaitsForADevice }
{}

/// A set does not grow into tracks that are kept for another job.
pub fn is_refused_growth()
    ensures { IsRefusedGrowth }
{}

/// A cancel acts at the next line of the job's program.
pub fn is_cancelled()
    ensures { IsCancelled }
{}

/// A generation that makes another roll off gives its volume as many tracks as it takes.
pub fn rolls_off()
    ensures { RollsOff }
{}

/// A Zap before selection damages the chain of a job's records.
pub fn is_broken()
    ensures { IsBroken }
{}

/// A Zap is refused where the job is selected, and where the record is free.
pub fn is_refused()
    ensures { IsRefused }
{}
