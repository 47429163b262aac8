//! The units, found by their names without going through them all.
ghost use Rattle.std.specs.Prelude.{◌≡◌, ◌<◌, ◌++◌, ◌∷◌, [], false, length, map, OnOk, OnErr};
ghost use Rattle.config_core.specs.Configs.{has_unit, unit_names, unit_volumes};

use jcl_refs::units::UnitNames;
use jname_core::name8::UnitName;
use jname_core::serial::Serial;
use plain::listed::Listed;
use std::alloc::{AllocError, Global};
use std::marker::Model;

/// The units in the order of their statements: their names, and the volumes of each.
#[derive(Drop)]
pub struct Units {
    names: UnitNames,
    volumes: Vec<Listed<Serial>>,
}

impl Model for Units {
    ghost use Rattle.std.specs.Prelude.{◌≡◌, List, length};
    ghost use Rattle.machine_meaning.specs.declared.config.ConfiguredUnit.{ConfiguredUnit};
    ghost use Rattle.config_core.specs.Units.{units_of};

    ghost Value = { List ConfiguredUnit };

    ghost view = { λ u. units_of u.names u.volumes.items };

    ghost invariant = { λ u. length u.names ≡ length u.volumes.items };
}

impl Units {
    pub fn new(alloc: Global) -> Units
        ensures { result ≡ [] }
    {
        Units {
            names: UnitNames::new(alloc),
            volumes: Vec::new(alloc),
        }
    }

    /// The volumes of each unit, each list at the unit's number less 1.
    pub fn volumes(&self) -> &[Listed<Serial>]
        ensures { result.now ≡ unit_volumes self.now }
    {
        self.volumes.as_slice()
    }

    pub fn len(&self) -> usize
        ensures { result ≡ length self.now }
    {
        self.names.len()
    }

    pub fn has(&self, name: &UnitName) -> bool
        ensures { result ≡ has_unit self.now name.now }
    {
        self.names.number(name).is_some()
    }

    /// The names, with their numbers.
    pub fn names(&self) -> &UnitNames
        ensures { result.now ≡ unit_names self.now }
    {
        &self.names
    }

    /// Adds a unit of a new name. An `Err` changes nothing.
    pub fn push(&mut self, name: UnitName, volumes: Listed<Serial>) -> Result<(), AllocError>
        requires new { has_unit self.old name ≡ false }
        requires room { length self.old < 65535 }
        ensures ok { OnOk result (self.new ≡ self.old ++ record { name = name; serials = volumes } ∷ []) }
        ensures err { OnErr result (self.new ≡ self.old) }
    {
        self.volumes.reserve(1)?;
        self.names.add(name)?;
        let Ok(()) = self.volumes.push(volumes) else {
            unreachable!();
        };
        Ok(())
    }
}
