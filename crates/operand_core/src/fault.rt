//! The fault that is told of a statement.
ghost use Rattle.std.specs.Prelude.{◌≡◌, Some, None};
ghost use Rattle.std.specs.Option.{option_copied};
ghost use Rattle.operand_core.specs.Faults.{earlier, long_faults, lower, name_faults, rank, read_name_faults, told, when, written_name, written_name_faults};

use jcl_plan::fault::{Cause, StatementFault};
use jname_core::name8::Name8;

fn rank(cause: Cause) -> u16
    ensures { result ≡ rank cause }
{
    match cause {
        Cause::C(n) => u16::from(n),
        Cause::N(n) => 256 + u16::from(n),
        Cause::P(fault) => 512 + u16::from(fault.number()),
        Cause::Q(fault) => 768 + u16::from(fault.number()),
        Cause::B(n) => 1024 + u16::from(n),
        Cause::A(fault) => 1280 + u16::from(fault.number()),
    }
}

/// Of two faults the one that is told.
pub fn lower(a: Cause, b: Cause) -> Cause
    ensures { result ≡ lower a b }
{
    if rank(b) < rank(a) { b } else { a }
}

/// Of two faults, either of which may be absent, the one that is told.
pub fn earlier(a: Option<Cause>, b: Option<Cause>) -> Option<Cause>
    ensures { result ≡ earlier a b }
{
    match (a, b) {
        (None, _) => b,
        (Some(_), None) => a,
        (Some(a), Some(b)) => Some(lower(a, b)),
    }
}

/// The fault, where it holds.
pub fn when(holds: bool, fault: Cause) -> Option<Cause>
    ensures { result ≡ told (when holds fault) }
{
    if holds { Some(fault) } else { None }
}

/// The fault of a text that has to be a name.
pub fn name_fault(text: &[u8]) -> Option<Cause>
    ensures { result ≡ told (name_faults text.now) }
{
    match Name8::read(text) {
        Ok(_) => None,
        Err(fault) => Some(Cause::N(fault.number())),
    }
}

/// The fault of a name that may be absent.
pub fn written_name_fault(name: &[u8]) -> Option<Cause>
    ensures { result ≡ told (written_name_faults name.now) }
{
    if name.is_empty() {
        None
    } else {
        name_fault(name)
    }
}

/// The fault of a statement whose operand is too long, by that of its name.
pub fn long_fault(name: Option<Cause>) -> Option<Cause>
    ensures { result ≡ earlier name (Some ((Cause.P StatementFault.OperandTooLong))) }
{
    earlier(name, Some(Cause::P(StatementFault::OperandTooLong)))
}

/// The name that a text is, of which no fault is told.
pub fn valid_name(text: &[u8]) -> Name8
    requires { told (name_faults text.now) ≡ None }
    ensures { result ≡ text.now }
{
    match Name8::read(text) {
        Ok(name) => name,
        Err(_) => unreachable!(),
    }
}

/// The name, or none where the field is empty.
pub fn written_name(text: &[u8]) -> Option<Name8>
    requires { told (written_name_faults text.now) ≡ None }
    ensures { result ≡ written_name text.now }
{
    if text.is_empty() {
        None
    } else {
        Some(valid_name(text))
    }
}

/// The fault of a value that has to be a name; none of one that is not read.
pub fn read_name_fault(value: Option<&[u8]>) -> Option<Cause>
    ensures { result ≡ told (read_name_faults (option_copied value.entry)) }
{
    match value {
        None => None,
        Some(name) => name_fault(name),
    }
}
