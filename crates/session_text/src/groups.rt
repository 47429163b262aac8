//! What a line says of a generation group.
ghost use Rattle.std.specs.Prelude.{◌≡◌, IfOk};
ghost use Rattle.session_text.specs.Fields.{fields_of};
ghost use Rattle.session_text.specs.Statements.{group_of, group_with};

use crate::fault::Fault;
use crate::fields::{flag_in, next_field};
use crate::statement::{Says, configures};
use crate::values::base_in;
use jname_core::decimal::number_within;
use jname_core::ds_name::DsName;
use session_input::statement::ConfigStatement;
use std::alloc::{AllocError, Global};

fn with_values<'a>(
    alloc: Global,
    base: Option<DsName>,
    limit: Option<u16>,
    scratch: Option<bool>,
) -> Result<Says<'a>, AllocError>
    ensures { IfOk result (λ s. s ≡ group_with base limit scratch) }
{
    let Some(base) = base else {
        return Ok(Says::Refused(Fault::BadValue));
    };
    let Some(limit) = limit else {
        return Ok(Says::Refused(Fault::BadValue));
    };
    match scratch {
        None => Ok(Says::Refused(Fault::BadValue)),
        Some(scratch) => configures(
            alloc,
            ConfigStatement::Group {
                base,
                limit,
                scratch,
            },
        ),
    }
}

/// A group, how many generations it holds, and whether it scratches what rolls off.
pub(crate) fn group<'a>(alloc: Global, operands: &[u8]) -> Result<Says<'a>, AllocError>
    ensures { IfOk result (λ s. s ≡ group_of (fields_of operands.now)) }
{
    let Some((base, behind)) = next_field(operands) else {
        return Ok(Says::Refused(Fault::BadValue));
    };
    let Some((limit, rest)) = next_field(behind) else {
        return Ok(Says::Refused(Fault::BadValue));
    };
    let limit = number_within(0, u16::MAX, limit.bytes);
    let scratch = flag_in(b"SCRATCH", rest);
    with_values(alloc, base_in(base.bytes), limit, scratch)
}
