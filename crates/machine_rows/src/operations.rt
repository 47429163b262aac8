//! Operations on volumes.
ghost use Rattle.std.specs.Prelude.{◌+◌, ◌<◌, ◌≤◌, length};

use jname_core::serial::Serial;
use prog_core::fault::UnitFault;
use prog_core::units::Units;
use row_table::desk::Line;
use row_table::names::serial;
use row_table::told::Told;
use std::alloc::Global;

#[derive(Clone, Copy)]
enum Verb {
    Start,
    DeviceEnd,
    Finish,
    Abandon,
    State,
}

const VERBS: [(&str, Verb); 5] = [
    ("START", Verb::Start),
    ("DEVICE-END", Verb::DeviceEnd),
    ("FINISH", Verb::Finish),
    ("ABANDON", Verb::Abandon),
    ("STATE", Verb::State),
];

/// A call's answer: the number of its fault and its text.
fn tell_answer(alloc: Global, told: &mut Told, answer: Result<(), UnitFault>) {
    let Err(fault) = answer else {
        return told.line(b"DONE");
    };
    told.numbered(b"", u64::from(fault.number()));
    if let Some(text) = told.got(fault.to_string(alloc)) {
        told.line_of_two(b" ", text.as_bytes());
    }
}

/// The operation on a volume is over.
fn end_operation(units: &mut Units, serial: Serial) -> Result<(), UnitFault>
    ensures { length units.new ≤ length units.old }
{
    units.device_end(serial)
}

/// Does a command about the operation on a volume.
fn on_volume(alloc: Global, units: &mut Units, verb: Verb, line: &mut Line<'_>)
    requires { length units.old < 16 }
    ensures { length units.new ≤ length units.old + 1 }
{
    let Some(serial) = serial(&mut line.words) else {
        return;
    };
    match verb {
        Verb::Start => tell_answer(
            alloc,
            &mut line.told,
            units.start(serial, line.words.short()),
        ),
        Verb::DeviceEnd => tell_answer(alloc, &mut line.told, end_operation(units, serial)),
        _ => line.told.line(if units.is_busy(serial) {
            b"BUSY"
        } else {
            b"FREE"
        }),
    }
}

/// Does a command about operations.
fn act(alloc: Global, units: &mut Units, line: &mut Line<'_>)
    requires { length units.old < 16 }
    ensures { length units.new ≤ length units.old + 1 }
{
    match line.words.one_of(&VERBS) {
        Some(Verb::Finish) => tell_answer(alloc, &mut line.told, units.finish(line.words.short())),
        Some(Verb::Abandon) => units.abandon(line.words.short()),
        Some(verb) => on_volume(alloc, units, verb, line),
        None => {}
    }
}

/// Whether the line is `/END`, which is taken then.
fn is_end(line: &mut Line<'_>) -> bool {
    let mut words = line.words;
    let ends = words.one_of(&[("/END", ())]).is_some();
    if ends {
        line.words = words;
    }
    ends
}

/// Does the commands of the next lines up to `/END`, of which there are sixteen at most.
pub(crate) fn tell_operations(alloc: Global, line: &mut Line<'_>) {
    let mut units = Units::new();
    for started in 0..16u8 {
        if !line.next() || is_end(line) {
            break;
        }
        act(alloc, &mut units, line);
        line.end();
    }
}
