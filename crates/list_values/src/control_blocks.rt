//! The DCB parameter. (GC28-6704, "DCB parameter")
ghost use Rattle.value_core.specs.Reads.{Gives, answer};
ghost use Rattle.list_values.specs.ControlBlocks.{control_blocks};

use operand_core::fault::earlier;
use operand_core::places::Places;
use plain::listed::Listed;
use std::alloc::Global;
use value_core::reference::{DdReference, dd_reference, is_reference};
use value_core::refusal::ReadError;

/// The references of DCB; the rest is read for its form alone.
pub fn control_blocks(alloc: Global, text: &[u8]) -> Result<Listed<DdReference>, ReadError>
    ensures { Gives result (answer (control_blocks text.now)) }
{
    let mut references = Listed::empty(alloc);
    let mut fault = None;
    let mut places = Places::of_value(text);
    while let Some(place) = places.next() {
        if is_reference(place) {
            match dd_reference(place) {
                Ok(reference) => references.push(reference)?,
                Err(other) => fault = earlier(fault, Some(other)),
            }
        }
    }
    match fault {
        None => Ok(references),
        Some(fault) => Err(ReadError::Refused(fault)),
    }
}
