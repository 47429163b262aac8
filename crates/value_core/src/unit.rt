//! The UNIT parameter. (GC28-6704, "UNIT parameter")
ghost use Rattle.std.specs.Prelude.{◌≡◌};
ghost use Rattle.value_core.specs.Reads.{IsRead};
ghost use Rattle.value_core.specs.Units.{unit};

use jcl_plan::fault::{Cause, StatementFault};
use jname_core::name8::UnitName;
use operand_core::subparameter::first_subparameter;

/// The name of the list of volumes; further places are dropped.
pub fn unit(text: &[u8]) -> Result<UnitName, Cause>
    ensures { IsRead result (unit text.now) }
{
    if text.starts_with(b"AFF=") || text.starts_with(b"(AFF=") {
        return Err(Cause::P(StatementFault::LeftOut));
    }
    match UnitName::read(first_subparameter(text)) {
        Ok(name) => Ok(name),
        Err(fault) => Err(Cause::N(fault.number())),
    }
}
