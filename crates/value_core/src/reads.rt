//! Answers of readers, put together.
ghost use Rattle.std.specs.Prelude.{◌≡◌};
ghost use Rattle.value_core.specs.Reads.{IsRead, both, name, with_fault};

use jcl_plan::fault::Cause;
use jname_core::name8::Name8;
use operand_core::fault::lower;

/// Both values, or of the faults the one that is told.
pub fn both<A: Drop, B: Drop>(a: Result<A, Cause>, b: Result<B, Cause>) -> Result<(A, B), Cause>
    ensures { result ≡ both a b }
{
    match (a, b) {
        (Ok(a), Ok(b)) => Ok((a, b)),
        (Ok(_), Err(fault)) => Err(fault),
        (Err(fault), Ok(_)) => Err(fault),
        (Err(fault), Err(other)) => Err(lower(fault, other)),
    }
}

/// The value, or of its fault and one more the one that is told.
pub fn with_fault<A: Drop>(a: Result<A, Cause>, fault: Option<Cause>) -> Result<A, Cause>
    ensures { result ≡ with_fault a fault }
{
    match (a, fault) {
        (a, None) => a,
        (Ok(_), Some(fault)) => Err(fault),
        (Err(fault), Some(other)) => Err(lower(fault, other)),
    }
}

/// The name that the text is.
pub fn name(text: &[u8]) -> Result<Name8, Cause>
    ensures { IsRead result (name text.now) }
{
    match Name8::read(text) {
        Ok(name) => Ok(name),
        Err(fault) => Err(Cause::N(fault.number())),
    }
}
