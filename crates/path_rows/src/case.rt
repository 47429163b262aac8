//! A job and what it finds, read from a text of one item a line.
use crate::repeat::Repeat;
use crate::words::{count_in, fault_in, path_in, serial_in, set_name_in, short_in, wanted};
use jcl_meaning::places::Places;
use jcl_meaning::state::Place;
use jcl_meaning::store::{DataSet, SoloSet};
use jcl_refs::units::UnitNames;
use jname_core::ds_name::DsName;
use jname_core::key::Key;
use jname_core::name8::UnitName;
use jname_core::serial::Serial;
use path_search::verdict::RiskReport;
use plain::lent::Lent;
use plain::listed::Listed;
use std::alloc::{AllocError, Global};

/// Why a line is not read.
#[derive(Clone, Copy)]
pub enum Unread {
    /// It is unknown, or a value of it is wrong.
    Wrong,
    Memory,
}

impl From<AllocError> for Unread {
    fn from(_error: AllocError) -> Unread {
        Unread::Memory
    }
}

/// A job's deck, what the job finds, and paths that are told with faults.
#[derive(Drop)]
pub struct Case<'a> {
    pub volumes: Listed<Serial>,
    pub sets: Listed<SoloSet>,
    /// Names of the catalog, each with its volume.
    pub entries: Listed<(DsName, Serial)>,
    pub places: Places,
    /// The volume of each set that may be made and has no other place.
    pub every_place: Option<Serial>,
    pub most_views: usize,
    /// Whether it is analysed over packed views alone.
    pub only_packed: bool,
    pub units: UnitNames,
    pub repeats: Listed<Repeat>,
    pub deck: Listed<Lent<'a>>,
    pub reports: Listed<RiskReport>,
}

/// What was read so far.
#[derive(Drop)]
pub struct Reader<'a> {
    alloc: Global,
    case: Case<'a>,
}

impl<'a> Reader<'a> {
    pub fn new(alloc: Global) -> Reader<'a> {
        Reader {
            alloc,
            case: Case {
                volumes: Listed::empty(alloc),
                sets: Listed::empty(alloc),
                entries: Listed::empty(alloc),
                places: Places::empty(alloc),
                every_place: None,
                most_views: 1024,
                only_packed: false,
                repeats: Listed::empty(alloc),
                units: UnitNames::new(alloc),
                deck: Listed::empty(alloc),
                reports: Listed::empty(alloc),
            },
        }
    }

    fn add_set(&mut self, serial: &str, name: &str) -> Result<(), Unread> {
        self.case.sets.push(SoloSet {
            serial: serial_in(serial)?,
            key: Key::Named(set_name_in(name)?),
            set: DataSet {
                tracks: 1,
                expires: None,
                records: Listed::empty(self.alloc),
            },
        })?;
        Ok(())
    }

    fn add_unit(&mut self, name: &str) -> Result<(), Unread> {
        let name = wanted(UnitName::read(name.as_bytes()).ok())?;
        let units = &mut self.case.units;
        if units.number(&name).is_some() || units.len() >= 65_535 {
            return Err(Unread::Wrong);
        }
        units.add(name)?;
        Ok(())
    }

    fn add_repeat(&mut self, step: &str, times: &str, rise: &str) -> Result<(), Unread> {
        self.case.repeats.push(Repeat {
            step: short_in(step)?,
            times: short_in(times)?,
            rise: short_in(rise)?,
        })?;
        Ok(())
    }

    fn add_report(
        &mut self,
        fault: &str,
        step: &str,
        dd: &str,
        path: &[&str],
    ) -> Result<(), Unread> {
        let report = RiskReport {
            fault: fault_in(fault)?,
            step: count_in(step)?,
            dd: count_in(dd)?,
            path: path_in(self.alloc, path)?.into_vec(),
        };
        self.case.reports.push(report)?;
        Ok(())
    }

    fn take_words(&mut self, words: &[&str]) -> Result<(), Unread> {
        match *words {
            ["VOLUME", serial] => self.case.volumes.push(serial_in(serial)?)?,
            ["SET", serial, name] => self.add_set(serial, name)?,
            ["ENTRY", name, serial] => {
                let entry = (set_name_in(name)?, serial_in(serial)?);
                self.case.entries.push(entry)?;
            }
            ["PLACE", step, dd, serial] => self.case.places.push(Place {
                step: count_in(step)?,
                dd: count_in(dd)?,
                serial: serial_in(serial)?,
            })?,
            ["UNIT", name] => self.add_unit(name)?,
            ["PLACES", serial] => self.case.every_place = Some(serial_in(serial)?),
            ["TIMES", step, times] => self.add_repeat(step, times, "0")?,
            ["TIMES", step, times, rise] => self.add_repeat(step, times, rise)?,
            ["PACKED"] => self.case.only_packed = true,
            ["VIEWS", count] => self.case.most_views = count_in(count)?,
            ["REPORT", fault, step, dd, ref path @ ..] => self.add_report(fault, step, dd, path)?,
            [] => {}
            _ => return Err(Unread::Wrong),
        }
        Ok(())
    }

    /// Takes a line.
    pub fn take_line(&mut self, line: &'a str) -> Result<(), Unread> {
        match line.strip_prefix("CARD ") {
            Some(text) => {
                self.case.deck.push(Lent::new(text.as_bytes()))?;
                Ok(())
            }
            None => {
                let words: Vec<&str> = line.split_whitespace().collect(self.alloc)?;
                self.take_words(words.as_slice())
            }
        }
    }

    /// The job and what it finds.
    pub fn into_case(self) -> Case<'a> {
        self.case
    }
}
