//! Tracks set aside on the volume of a serial, and given back.
ghost use Rattle.std.specs.Prelude.{◌≡◌, ℕ, ◌<◌, None, true, IsErr, IfNone, IfOk, IfSome, OnErr, OnOk, Some, false};
ghost use Rattle.shared_core.specs.Rooms.{kept_place};
ghost use Rattle.shared_core.specs.Shown.{kept_extents, mounted_in};
ghost use Rattle.place_core.specs.Keepings.{keep_on};
ghost use Rattle.place_core.specs.Placings.{chosen};
ghost use Rattle.place_core.specs.Vain.{AreVain, LacksRoom};
ghost use Rattle.place_core.specs.Volumes.{IsClear, IsMissing, StandsAt, all_back, aside_at, aside_on, back_on, changed_on, has_room};

use jcl_meaning::state::Place;
use jname_core::serial::Serial;
use mount_core::mounted::Mounted;
use mount_core::place::KeptPlace;
use shared_core::volumes::position_of;
use std::alloc::AllocError;
use vtoc_core::fault::VolumeFault;

/// Where the volume of a serial stands, from 0.
fn place_of(volumes: &[Mounted], serial: Serial) -> Option<usize>
    ensures there { IfSome result (StandsAt volumes.now serial) }
    ensures missing { IfNone result (IsMissing volumes.now serial) }
{
    position_of(volumes, serial)
}

/// Whether fewer tracks are free on a volume than are asked for, so that no look for extents is needed.
fn has_too_few(m: &Mounted, tracks: u16) -> bool
    ensures { result ≡ true → has_room tracks (Some m.now) ≡ false }
{
    m.volume().track_counts().free < usize::from(tracks)
}

/// Keeps tracks at a place on the volume of a serial if it has room for them, and tells whether it has. An `Err` changes nothing.
pub(crate) fn keep_at(
    volumes: &mut [Mounted],
    serial: Serial,
    at: KeptPlace,
    tracks: u16,
) -> Result<bool, AllocError>
    requires { kept_extents (mounted_in volumes.old serial) at ≡ None }
    ensures room { IfOk result (λ room. room ≡ has_room tracks (mounted_in volumes.old serial)) }
    ensures ok { OnOk result (volumes.new ≡ changed_on (keep_on at tracks) serial volumes.old) }
    ensures memory { IsErr result → has_room tracks (mounted_in volumes.old serial) ≡ true }
    ensures err { OnErr result (volumes.new ≡ volumes.old) }
{
    let Some(place) = place_of(volumes, serial) else {
        return Ok(false);
    };
    if has_too_few(&volumes[place], tracks) {
        return Ok(false);
    }
    match volumes[place].keep(at, tracks) {
        Ok(()) => Ok(true),
        Err(VolumeFault::NoSpace) => Ok(false),
        Err(_) => Err(AllocError),
    }
}

/// Sets tracks aside on the volume of a serial if it has room for them, and tells whether it has. An `Err` changes nothing.
fn set_aside(
    volumes: &mut [Mounted],
    serial: Serial,
    at: KeptPlace,
    tracks: u16,
) -> Result<bool, AllocError>
    requires some { 0 < tracks }
    requires clear { kept_extents (mounted_in volumes.old serial) at ≡ None }
    ensures room { IfOk result (λ room. room ≡ has_room tracks (mounted_in volumes.old serial)) }
    ensures ok { OnOk result (volumes.new ≡ changed_on (aside_on at tracks) serial volumes.old) }
    ensures memory { IsErr result → has_room tracks (mounted_in volumes.old serial) ≡ true }
    ensures err { OnErr result (volumes.new ≡ volumes.old) }
{
    keep_at(volumes, serial, at, tracks)
}

/// How many volumes are noted: as many as a session has.
const MOST_TRIED: usize = 16;

/// Which volumes have no room for so many tracks, as far as that was tried.
#[derive(Drop)]
struct Vain {
    /// The serial that was tried last.
    last: Option<Serial>,
    /// Which of the first volumes were tried.
    tried: [bool; MOST_TRIED],
}

/// Whether a serial is the one that was tried last.
fn is_last(last: &Option<Serial>, serial: Serial) -> bool
    ensures { result ≡ true → last.now ≡ Some serial }
{
    match last {
        Some(last) => *last == serial,
        None => false,
    }
}

/// Whether it is known that the volume of a serial has no room for so many tracks.
fn is_vain(volumes: &[Mounted], vain: &Vain, serial: Serial, tracks: u16) -> bool
    requires { AreVain volumes.now tracks vain.now }
    ensures { result ≡ true → LacksRoom volumes.now tracks serial }
{
    if is_last(&vain.last, serial) {
        return true;
    }
    match place_of(volumes, serial) {
        Some(place) => place < MOST_TRIED && vain.tried[place],
        None => true,
    }
}

/// Notes that the volume of a serial has no room for so many tracks.
fn note_vain(volumes: &[Mounted], vain: &mut Vain, serial: Serial, tracks: u16)
    requires vain { AreVain volumes.now tracks vain.old }
    requires lacks { LacksRoom volumes.now tracks serial }
    ensures { AreVain volumes.now tracks vain.new }
{
    vain.last = Some(serial);
    if let Some(place) = place_of(volumes, serial) {
        if place < MOST_TRIED {
            vain.tried[place] = true;
        }
    }
}

/// Sets tracks aside on the first of these volumes that has room for them, and tells which that is, or else the first: each is tried once. An `Err` changes
/// nothing.
fn aside_on_each(
    volumes: &mut [Mounted],
    among: &[Serial],
    at: KeptPlace,
    tracks: u16,
) -> Result<Option<Serial>, AllocError>
    requires some { 0 < tracks }
    requires clear { IsClear volumes.old at }
    ensures chosen { IfOk result (λ serial. serial ≡ chosen volumes.old tracks among.now) }
    ensures ok { IfOk result (λ serial. volumes.new ≡ aside_at serial at tracks volumes.old) }
    ensures err { OnErr result (volumes.new ≡ volumes.old) }
{
    for serial in among {
        if set_aside(volumes, *serial, at, tracks)? {
            return Ok(Some(*serial));
        }
    }
    Ok(among.first().copied())
}

/// The same, where no volume is tried twice.
fn aside_on_other(
    volumes: &mut [Mounted],
    among: &[Serial],
    at: KeptPlace,
    tracks: u16,
) -> Result<Option<Serial>, AllocError>
    requires some { 0 < tracks }
    requires clear { IsClear volumes.old at }
    ensures chosen { IfOk result (λ serial. serial ≡ chosen volumes.old tracks among.now) }
    ensures ok { IfOk result (λ serial. volumes.new ≡ aside_at serial at tracks volumes.old) }
    ensures err { OnErr result (volumes.new ≡ volumes.old) }
{
    let mut vain = Vain {
        last: None,
        tried: [false; MOST_TRIED],
    };
    for serial in among {
        if !is_vain(&*volumes, &vain, *serial, tracks) {
            if set_aside(volumes, *serial, at, tracks)? {
                return Ok(Some(*serial));
            }
            note_vain(&*volumes, &mut vain, *serial, tracks);
        }
    }
    Ok(among.first().copied())
}

/// Sets tracks aside on the first of these volumes that has room for them, and tells which that is, or else the first. An `Err` changes nothing. Of more serials
/// than there are volumes some repeat: then no volume is tried twice.
pub(crate) fn aside_among(
    volumes: &mut [Mounted],
    among: &[Serial],
    at: KeptPlace,
    tracks: u16,
) -> Result<Option<Serial>, AllocError>
    requires { IsClear volumes.old at }
    ensures chosen { IfOk result (λ serial. serial ≡ chosen volumes.old tracks among.now) }
    ensures ok { IfOk result (λ serial. volumes.new ≡ aside_at serial at tracks volumes.old) }
    ensures err { OnErr result (volumes.new ≡ volumes.old) }
{
    if tracks == 0 {
        return Ok(among.first().copied());
    }
    if among.len() <= volumes.len() {
        aside_on_each(volumes, among, at, tracks)
    } else {
        aside_on_other(volumes, among, at, tracks)
    }
}

/// Gives back what is set aside at a place on the volume of a serial.
pub(crate) fn give_back(volumes: &mut [Mounted], serial: Serial, at: &KeptPlace)
    ensures { volumes.new ≡ changed_on (back_on at.now) serial volumes.old }
{
    if let Some(place) = place_of(volumes, serial) {
        volumes[place].give_back(at);
    }
}

/// The place at which tracks are set aside for a set of a job.
pub(crate) fn kept_place(job: u16, place: &Place) -> KeptPlace
    ensures { result ≡ kept_place job place.now }
{
    KeptPlace {
        job,
        step: place.step,
        dd: place.dd,
    }
}

/// Gives back what is set aside for the sets of a job at these places, the last first.
pub(crate) fn give_all_back(volumes: &mut [Mounted], places: &[Place], job: u16)
    ensures { volumes.new ≡ all_back job places.now volumes.old }
{
    for i in 0..places.len() {
        let place = &places[places.len() - 1 - i];
        give_back(volumes, place.serial, &kept_place(job, place));
    }
}
