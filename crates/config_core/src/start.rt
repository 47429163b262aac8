//! The configuration taken apart, for the machine to begin with.
ghost use Rattle.std.specs.Prelude.{◌≡◌, ◌≤◌, IfOk, length};
ghost use Rattle.shared_core.specs.Tracks.{NothingKept};
ghost use Rattle.config_core.specs.Configured.{IsConfigured, serials_of};
ghost use Rattle.config_core.specs.Starts.{IsTakenApart};

use crate::config::Config;
use crate::units::Units;
use jname_core::serial::Serial;
use machine_meaning::config::{ConfiguredInitiator, MOST_VOLUMES};
use mount_core::mounted::Mounted;
use plain::listed::Listed;
use proc_library::library::ProcLibrary;
use prog_core::library::ProgramLibrary;
use shared_core::store::SharedStore;
use std::alloc::{AllocError, Global};

/// What stays fixed while the machine runs.
#[derive(Drop)]
pub struct Fixed {
    /// The serials of the volumes, in the order of their statements.
    pub serials: Listed<Serial>,
    pub units: Units,
    pub library: ProcLibrary,
    pub programs: ProgramLibrary,
    pub initiators: Listed<ConfiguredInitiator>,
}

fn serials_of(alloc: Global, volumes: &[Mounted]) -> Result<Listed<Serial>, AllocError>
    ensures { IfOk result (λ serials. serials ≡ serials_of volumes.now) }
{
    let mut serials = Listed::empty(alloc);
    for mounted in volumes {
        serials.push(mounted.serial())?;
    }
    Ok(serials)
}

impl Config {
    /// What holds of every configuration.
    pub fn is_configured(&self)
        ensures { IsConfigured self.now }
    {
        let _ = &self.volumes;
    }

    /// Takes the configuration apart: the store with which the machine begins, and what stays fixed. Want of memory takes all with it.
    pub fn take_apart(self) -> Result<(SharedStore, Fixed), AllocError>
        ensures sound { IsConfigured self }
        ensures apart { IfOk result (λ r. IsTakenApart self r.0 r.1) }
        ensures kept { IfOk result (λ r. NothingKept r.0) }
        ensures serials { IfOk result (λ r. serials_of r.0.volumes ≡ r.1.serials) }
        ensures few { IfOk result (λ r. length r.1.serials ≤ MOST_VOLUMES) }
    {
        let serials = serials_of(self.alloc, self.volumes.as_slice())?;
        let Config {
            alloc,
            volumes,
            catalog,
            units,
            library,
            programs,
            initiators,
        } = self;
        let store = SharedStore {
            alloc,
            catalog,
            volumes,
        };
        let fixed = Fixed {
            serials,
            units,
            library,
            programs,
            initiators,
        };
        Ok((store, fixed))
    }
}
