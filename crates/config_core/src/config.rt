//! What was configured so far.
ghost use Rattle.std.specs.Prelude.{◌≡◌, None, OnOk, OnErr, IfErr, IfOk};
ghost use Rattle.cat_core.specs.Catalogs.{member_of};
ghost use Rattle.shared_core.specs.Shown.{mounted_in};
ghost use Rattle.config_core.specs.Configs.{config_fault, configured, group_fault, initiator_fault, is_full_for, nothing_configured, procedure_fault, program_fault, set_fault};
ghost use Rattle.config_core.specs.Configs.{stands_on, unit_fault, unit_names, volume_fault, with_group_of, with_initiator, with_procedure, with_program, with_set, with_unit, with_volume};
ghost use Rattle.config_core.specs.Refusals.{IsRefusal};

use crate::faults::{
    are_classes, are_rising, has_initiator, has_program, has_volume, has_volumes, refused_by,
};
use crate::known::is_name;
use crate::sets::{enter_set, has_room, place_of};
use crate::units::Units;
use cat_core::catalog::Catalog;
use extent_core::extent::Extent;
use jcl_plan::plan::{MOST_TRACKS, RECORDS_A_TRACK};
use jcl_refs::units::UnitNames;
use jname_core::ds_name::{DsName, MOST_OF_A_BASE};
use jname_core::name8::{Name8, UnitName};
use jname_core::serial::Serial;
use kept_requests::requests::{Requests, SharedRequests};
use machine_meaning::config::{
    ConfigFault, ConfiguredInitiator, LAST_INITIATOR, MOST_UNITS, MOST_VOLUMES,
};
use mount_core::mounted::Mounted;
use plain::lent::Lent;
use plain::listed::Listed;
use plain::short::Short;
use proc_library::library::ProcLibrary;
use prog_core::library::ProgramLibrary;
use session_input::statement::{ConfigStatement, MOST_GENERATIONS, MOST_REQUESTS, SetStatement};
use shared_core::sums::volumes_are_laid_out;
use std::alloc::{AllocError, Global};
use std::marker::Model;
use vtoc_core::entry::SetKey;

/// Why a statement of the configuration changed nothing.
#[derive(Clone, Copy, PartialEq, Eq)]
pub enum ConfigError {
    Refused(ConfigFault),
    Memory,
}

impl From<AllocError> for ConfigError {
    ghost use Rattle.std.specs.Prelude.{◌≡◌};
    ghost use Rattle.config_core.specs.declared.config.ConfigError.TheVariants.{Memory};

    ghost from_gives = { λ _ e. e ≡ Memory };

    fn from(_error: AllocError) -> ConfigError {
        ConfigError::Memory
    }
}

/// What was configured so far.
#[derive(Drop)]
pub struct Config {
    pub(crate) alloc: Global,
    pub(crate) volumes: Listed<Mounted>,
    pub(crate) catalog: Catalog,
    pub(crate) units: Units,
    pub(crate) library: ProcLibrary,
    pub(crate) programs: ProgramLibrary,
    pub(crate) initiators: Listed<ConfiguredInitiator>,
}

impl Model for Config {
    ghost use Rattle.std.specs.Coded.{codes};
    ghost use Rattle.cat_core.specs.Catalogs.{coded_contents};
    ghost use Rattle.mount_core.specs.Mounts.{coded_mounted};
    ghost use Rattle.config_core.specs.Configs.{Configuration};
    ghost use Rattle.config_core.specs.Configured.{IsConfigured};

    ghost Value = { Configuration };

    ghost coded = { Prim.hlevel (codes, coded_mounted, coded_contents) };

    ghost view = { λ c. record {
      volumes = c.volumes;
      catalog = c.catalog;
      units = c.units;
      library = c.library;
      programs = c.programs;
      initiators = c.initiators;
    } };

    ghost invariant = { λ c. IsConfigured (record {
      volumes = c.volumes;
      catalog = c.catalog;
      units = c.units;
      library = c.library;
      programs = c.programs;
      initiators = c.initiators;
    }) };
}

/// Whether a set of the name stands on the volume of a serial.
fn stands_on(volumes: &[Mounted], serial: Serial, name: &DsName) -> bool
    ensures { result ≡ stands_on (mounted_in volumes.now serial) name.now }
{
    let Some(at) = place_of(volumes, serial) else {
        return false;
    };
    volumes[at].volume().find(&SetKey::Named(*name)).is_some()
}

/// Whether a name's group has no room for it.
fn is_full_for(catalog: &Catalog, name: &DsName) -> bool
    ensures { result ≡ is_full_for (member_of catalog.now name.now) }
{
    match catalog.member(name) {
        None => false,
        Some((_, group)) => usize::from(group.limit()) <= group.generations().len(),
    }
}

impl Config {
    /// Nothing is configured.
    pub fn new(alloc: Global) -> Config
        ensures { result ≡ nothing_configured }
    {
        Config {
            alloc,
            volumes: Listed::empty(alloc),
            catalog: Catalog::new(alloc),
            units: Units::new(alloc),
            library: ProcLibrary::new(alloc),
            programs: ProgramLibrary::new(alloc),
            initiators: Listed::empty(alloc),
        }
    }

    fn volume_fault(&self, serial: &Serial, tracks: u16, used: &[Extent]) -> Option<ConfigFault>
        ensures { result ≡ volume_fault self.now serial.now tracks used.now }
    {
        refused_by(
            tracks < 1
                || MOST_TRACKS < tracks
                || !are_rising(tracks, used)
                || MOST_VOLUMES <= self.volumes.len(),
            has_volume(self.volumes.as_slice(), serial),
        )
    }

    fn unit_fault(&self, name: &UnitName, serials: &[Serial]) -> Option<ConfigFault>
        ensures { result ≡ unit_fault self.now name.now serials.now }
    {
        refused_by(
            MOST_UNITS <= self.units.len()
                || serials.is_empty()
                || !has_volumes(self.volumes.as_slice(), serials),
            self.units.has(name),
        )
    }

    fn group_fault(&self, base: &DsName, limit: u16) -> Option<ConfigFault>
        ensures { result ≡ group_fault self.now base.now limit }
    {
        refused_by(
            limit < 1 || MOST_GENERATIONS < limit || MOST_OF_A_BASE < base.as_slice().len(),
            self.catalog.is_entered(base) || self.catalog.has_generation_of(base),
        )
    }

    fn set_fault(&mut self, set: &SetStatement) -> Option<ConfigFault>
        ensures answer { result ≡ set_fault self.old set.now }
        ensures same { self.new ≡ self.old }
    {
        let room = has_room(self.alloc, &mut self.volumes, set.serial, set.tracks);
        let stands = stands_on(self.volumes.as_slice(), set.serial, &set.name);
        refused_by(
            !room
                || usize::from(set.tracks) * RECORDS_A_TRACK < set.records.len()
                || (set.catalogued && is_full_for(&self.catalog, &set.name)),
            stands || (set.catalogued && self.catalog.is_entered(&set.name)),
        )
    }

    fn procedure_fault(&self, name: &Name8) -> Option<ConfigFault>
        ensures { result ≡ procedure_fault self.now name.now }
    {
        refused_by(false, self.library.has(name))
    }

    fn program_fault(&self, name: &Name8, requests: &Requests) -> Option<ConfigFault>
        ensures { result ≡ program_fault self.now name.now requests.now }
    {
        refused_by(
            MOST_REQUESTS < requests.len(),
            has_program(&self.programs, name),
        )
    }

    fn initiator_fault(&self, number: u16, classes: &[u8]) -> Option<ConfigFault>
        ensures { result ≡ initiator_fault self.now number classes.now }
    {
        refused_by(
            number < 1 || LAST_INITIATOR < number || !are_classes(classes),
            has_initiator(self.initiators.as_slice(), number),
        )
    }

    fn add_volume(
        &mut self,
        serial: Serial,
        tracks: u16,
        used: &[Extent],
    ) -> Result<(), ConfigError>
        ensures sound { OnOk result (volume_fault self.old serial tracks used.now ≡ None) }
        ensures ok { OnOk result (self.new ≡ with_volume self.old serial tracks used.now) }
        ensures refused { IfErr result (IsRefusal (volume_fault self.old serial tracks used.now)) }
        ensures err { OnErr result (self.new ≡ self.old) }
    {
        if let Some(fault) = self.volume_fault(&serial, tracks, used) {
            return Err(ConfigError::Refused(fault));
        }
        self.volumes
            .push(Mounted::new(self.alloc, serial, tracks, used)?)?;
        volumes_are_laid_out(self.volumes.as_slice());
        Ok(())
    }

    fn add_unit(&mut self, name: UnitName, serials: &[Serial]) -> Result<(), ConfigError>
        ensures sound { OnOk result (unit_fault self.old name serials.now ≡ None) }
        ensures ok { OnOk result (self.new ≡ with_unit self.old name serials.now) }
        ensures refused { IfErr result (IsRefusal (unit_fault self.old name serials.now)) }
        ensures err { OnErr result (self.new ≡ self.old) }
    {
        if let Some(fault) = self.unit_fault(&name, serials) {
            return Err(ConfigError::Refused(fault));
        }
        let serials = Listed::copy_of(self.alloc, serials)?;
        self.units.push(name, serials)?;
        Ok(())
    }

    fn add_group(&mut self, base: DsName, limit: u16, scratch: bool) -> Result<(), ConfigError>
        ensures sound { OnOk result (group_fault self.old base limit ≡ None) }
        ensures ok { OnOk result (self.new ≡ with_group_of self.old base limit scratch) }
        ensures refused { IfErr result (IsRefusal (group_fault self.old base limit)) }
        ensures err { OnErr result (self.new ≡ self.old) }
    {
        if let Some(fault) = self.group_fault(&base, limit) {
            return Err(ConfigError::Refused(fault));
        }
        is_name(&base);
        match self
            .catalog
            .make_group(self.alloc, base, limit as u8, scratch)
        {
            Ok(()) => Ok(()),
            Err(_) => Err(ConfigError::Memory),
        }
    }

    fn add_set(&mut self, set: &SetStatement) -> Result<(), ConfigError>
        ensures sound { OnOk result (set_fault self.old set.now ≡ None) }
        ensures ok { OnOk result (self.new ≡ with_set self.old set.now) }
        ensures refused { IfErr result (IsRefusal (set_fault self.old set.now)) }
        ensures err { OnErr result (self.new ≡ self.old) }
    {
        if let Some(fault) = self.set_fault(set) {
            return Err(ConfigError::Refused(fault));
        }
        is_name(&set.name);
        enter_set(self.alloc, &mut self.volumes, &mut self.catalog, set)?;
        volumes_are_laid_out(self.volumes.as_slice());
        Ok(())
    }

    fn add_procedure(&mut self, name: Name8, lines: &[Lent<'_>]) -> Result<(), ConfigError>
        ensures sound { OnOk result (procedure_fault self.old name ≡ None) }
        ensures ok { OnOk result (self.new ≡ with_procedure self.old name lines.now) }
        ensures refused { IfErr result (IsRefusal (procedure_fault self.old name)) }
        ensures err { OnErr result (self.new ≡ self.old) }
    {
        if let Some(fault) = self.procedure_fault(&name) {
            return Err(ConfigError::Refused(fault));
        }
        self.library.add(self.alloc, name, lines)?;
        Ok(())
    }

    fn add_program(&mut self, name: Name8, requests: &SharedRequests) -> Result<(), ConfigError>
        ensures sound { OnOk result (program_fault self.old name requests.now ≡ None) }
        ensures ok { OnOk result (self.new ≡ with_program self.old name requests.now) }
        ensures refused { IfErr result (IsRefusal (program_fault self.old name requests.now)) }
        ensures err { OnErr result (self.new ≡ self.old) }
    {
        if let Some(fault) = self.program_fault(&name, requests.get()) {
            return Err(ConfigError::Refused(fault));
        }
        requests.get().are_requests();
        let requests = requests.clone()?;
        self.programs.add(name, requests)?;
        Ok(())
    }

    fn add_initiator(&mut self, number: u16, classes: &[u8]) -> Result<(), ConfigError>
        ensures sound { OnOk result (initiator_fault self.old number classes.now ≡ None) }
        ensures ok { OnOk result (self.new ≡ with_initiator self.old number classes.now) }
        ensures refused { IfErr result (IsRefusal (initiator_fault self.old number classes.now)) }
        ensures err { OnErr result (self.new ≡ self.old) }
    {
        if let Some(fault) = self.initiator_fault(number, classes) {
            return Err(ConfigError::Refused(fault));
        }
        let number = number as u8;
        let classes = Short::new(classes);
        self.initiators
            .push(ConfiguredInitiator { number, classes })?;
        Ok(())
    }

    /// The names of the units, with their numbers.
    pub fn unit_names(&self) -> &UnitNames
        ensures { result.now ≡ unit_names self.now.units }
    {
        self.units.names()
    }

    /// The procedures, in the order of their statements.
    pub fn library(&self) -> &ProcLibrary
        ensures { result.now ≡ self.now.library }
    {
        &self.library
    }

    /// What refuses a statement. It changes nothing and takes no memory.
    pub fn fault(&mut self, statement: &ConfigStatement<'_>) -> Option<ConfigFault>
        ensures answer { result ≡ config_fault self.old statement.now }
        ensures same { self.new ≡ self.old }
    {
        match statement {
            ConfigStatement::Volume {
                serial,
                tracks,
                used,
            } => self.volume_fault(serial, *tracks, used.as_slice()),
            ConfigStatement::Unit { name, serials } => self.unit_fault(name, serials.as_slice()),
            ConfigStatement::Group { base, limit, .. } => self.group_fault(base, *limit),
            ConfigStatement::Set(set) => self.set_fault(set),
            ConfigStatement::Procedure { name, .. } => self.procedure_fault(name),
            ConfigStatement::Program { name, requests } => {
                self.program_fault(name, requests.get())
            }
            ConfigStatement::Initiator { number, classes } => {
                self.initiator_fault(*number, classes.as_slice())
            }
        }
    }

    /// A statement. A refusal, and want of memory, change nothing.
    pub fn add(&mut self, statement: &ConfigStatement<'_>) -> Result<(), ConfigError>
        ensures sound { OnOk result (config_fault self.old statement.now ≡ None) }
        ensures ok { OnOk result (self.new ≡ configured self.old statement.now) }
        ensures refused { IfErr result (IsRefusal (config_fault self.old statement.now)) }
        ensures err { OnErr result (self.new ≡ self.old) }
    {
        match statement {
            ConfigStatement::Volume {
                serial,
                tracks,
                used,
            } => self.add_volume(*serial, *tracks, used.as_slice()),
            ConfigStatement::Unit { name, serials } => self.add_unit(*name, serials.as_slice()),
            ConfigStatement::Group {
                base,
                limit,
                scratch,
            } => self.add_group(*base, *limit, *scratch),
            ConfigStatement::Set(set) => self.add_set(set),
            ConfigStatement::Procedure { name, lines } => {
                self.add_procedure(*name, lines.as_slice())
            }
            ConfigStatement::Program { name, requests } => { self.add_program(*name, requests) }
            ConfigStatement::Initiator { number, classes } => {
                self.add_initiator(*number, classes.as_slice())
            }
        }
    }
}
