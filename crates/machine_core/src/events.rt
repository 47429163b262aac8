//! The events that change no job at an initiator.
ghost use Rattle.std.specs.Prelude.{◌≡◌, ◌+◌, ◌++◌, ◌∷◌, [], IfErr, IfOk, IfSome, IfNone, OnErr, OnOk, map};
ghost use Rattle.jcl_plan.specs.declared.entry.Entry.TheVariants as entry;
ghost use Rattle.plain.specs.Lists.{Differ};
ghost use Rattle.place_core.specs.Placings.{serials_of};
ghost use Rattle.machine_core.specs.Events.{DeviceEnds, DeviceIsRefused, Shows, WriterWrites, line_of};

use crate::parts::Parts;
use crate::tracks::{VolumeTracks, tracks_of};
use cb_queue::store::RecordStore;
use jcl_plan::entry::{Entry, Written};
use jcl_plan::fault::EventFault;
use jname_core::serial::{Serial, is_among};
use mount_core::mounted::Mounted;
use plain::listed::Listed;
use std::alloc::AllocError;

/// The operation under way on a volume is over. A refusal changes nothing.
pub fn end_device<Q: RecordStore>(
    parts: &mut Parts<Q>,
    volumes: &[Serial],
    serial: Serial,
) -> Result<(), EventFault>
    ensures ends { OnOk result (DeviceEnds Q.queue volumes.now parts.old serial parts.new) }
    ensures refused { IfErr result (DeviceIsRefused Q.queue volumes.now parts.old serial) }
    ensures rest { parts.new ≡ record parts.old { units = parts.new.units } }
    ensures err { OnErr result (parts.new ≡ parts.old) }
{
    if !is_among(volumes, serial) {
        return Err(EventFault::NoSuchVolume);
    }
    match parts.units.device_end(serial) {
        Ok(()) => Ok(()),
        Err(_) => Err(EventFault::NothingUnderWay),
    }
}

/// A writer takes the first line of its class, if there is one, and tells whose it is.
pub fn write<Q: RecordStore>(parts: &mut Parts<Q>, class: u8) -> Option<(u16, Written)>
    ensures writes { WriterWrites Q.queue parts.old class result parts.new }
    ensures rest { parts.new ≡ record parts.old { spool = parts.new.spool } }
{
    parts.spool.write(class)
}

/// What is shown of a volume: its free tracks, and those that are kept.
fn volume_line(m: &Mounted) -> Entry
    ensures { result ≡ line_of m.now }
{
    let VolumeTracks { free, kept } = tracks_of(m);
    Entry::Volume {
        serial: m.serial(),
        free,
        kept,
    }
}

/// What is shown: a line for each volume, of which no two have the same serial, and one of the queue, with so many jobs at initiators. The lines are in the
/// room, where that is enough.
pub fn show<Q: RecordStore>(
    parts: &Parts<Q>,
    running: usize,
    room: Vec<Entry>,
) -> Result<Listed<Entry>, AllocError>
    requires { Differ (serials_of parts.now.store.volumes) }
    ensures { IfOk result (Shows Q.queue (serials_of parts.now.store.volumes) parts.now running) }
{
    let volumes = parts.store.volumes.as_slice();
    let mut lines = room;
    lines.clear();
    lines.reserve(volumes.len() + 1)?;
    for m in volumes {
        lines.push_reserved(volume_line(m));
    }
    lines.push_reserved(Entry::Queue {
        queued: parts.queue.waiting_count(),
        running,
        records: parts.queue.free_count() as usize,
    });
    Ok(Listed::new(lines))
}
