//! What refuses a statement.
ghost use Rattle.std.specs.Prelude.{◌≡◌, ◌≤◌};
ghost use Rattle.std.specs.List.{list_all};
ghost use Rattle.jname_core.specs.Characters.{is_job_class};
ghost use Rattle.config_core.specs.Configs.{are_classes, are_rising, has_class, has_initiator, has_program, has_volume, refused_by};
ghost use Rattle.plain.specs.Lists.{are_different};

use extent_core::extent::Extent;
use jcl_meaning::program::is_iefbr14;
use jname_core::character::is_job_class;
use jname_core::name8::Name8;
use jname_core::serial::Serial;
use machine_meaning::config::{ConfigFault, ConfiguredInitiator};
use mount_core::mounted::Mounted;
use prog_core::library::ProgramLibrary;

pub(crate) fn refused_by(value: bool, twice: bool) -> Option<ConfigFault>
    ensures { result ≡ refused_by value twice }
{
    if value {
        Some(ConfigFault::BadValue)
    } else if twice {
        Some(ConfigFault::DefinedTwice)
    } else {
        None
    }
}

pub(crate) fn has_volume(volumes: &[Mounted], serial: &Serial) -> bool
    ensures { result ≡ has_volume volumes.now serial.now }
{
    volumes
        .iter()
        .any(|m| m.serial().as_slice() == serial.as_slice())
}

pub(crate) fn has_volumes(volumes: &[Mounted], serials: &[Serial]) -> bool
    ensures { result ≡ list_all (has_volume volumes.now) serials.now }
{
    serials.iter().all(|serial| has_volume(volumes, serial))
}

/// Whether extents rise from a track on, and lie on a volume of so many.
fn are_rising_from(from: u32, tracks: u16, extents: &[Extent]) -> bool
    ensures { result ≡ are_rising from tracks extents.now }
{
    match extents.split_first() {
        None => true,
        Some((e, others)) => {
            let start = u32::from(e.start);
            let behind = start + u32::from(e.tracks);
            from <= start
                && 0 < e.tracks
                && behind <= u32::from(tracks)
                && are_rising_from(behind, tracks, others)
        }
    }
}

pub(crate) fn are_rising(tracks: u16, extents: &[Extent]) -> bool
    ensures { result ≡ are_rising 0 tracks extents.now }
{
    are_rising_from(0, tracks, extents)
}

pub(crate) fn has_program(programs: &ProgramLibrary, name: &Name8) -> bool
    ensures { result ≡ has_program programs.now name.now }
{
    is_iefbr14(name) || programs.has(name)
}

fn has_class(classes: &[u8], class: u8) -> bool
    ensures { result ≡ has_class classes.now class }
{
    classes.iter().any(|other| *other == class)
}

fn are_different(classes: &[u8]) -> bool
    ensures { result ≡ are_different classes.now }
{
    match classes.split_first() {
        None => true,
        Some((class, others)) => !has_class(others, *class) && are_different(others),
    }
}

fn are_job_classes(classes: &[u8]) -> bool
    ensures { result ≡ list_all is_job_class classes.now }
{
    classes.iter().all(|class| is_job_class(*class))
}

/// Whether these are one to eight different classes.
pub(crate) fn are_classes(classes: &[u8]) -> bool
    ensures { result ≡ are_classes classes.now }
{
    !classes.is_empty() && classes.len() <= 8 && are_job_classes(classes) && are_different(classes)
}

pub(crate) fn has_initiator(initiators: &[ConfiguredInitiator], number: u16) -> bool
    ensures { result ≡ has_initiator initiators.now number }
{
    initiators.iter().any(|x| u16::from(x.number) == number)
}
