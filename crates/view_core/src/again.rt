//! A step under way, copied, so that it can end in two ways.
ghost use Rattle.std.specs.Prelude.{◌≡◌, IfOk};

use crate::walk::Under;
use disp_core::course::Course;
use jcl_meaning::state::{DdState, Output, Own};
use plain::listed::Listed;
use std::alloc::{AllocError, Global};

fn dd_again(dd: &DdState) -> Result<DdState, AllocError>
    ensures { IfOk result (λ copy. copy ≡ dd.now) }
{
    Ok(DdState {
        number: dd.number,
        name: dd.name,
        taken: dd.taken,
        member: dd.member,
        position: dd.position,
        written: dd.written,
        spooled: dd.spooled.clone()?,
    })
}

fn dds_again(alloc: Global, dds: &[DdState]) -> Result<Listed<DdState>, AllocError>
    ensures { IfOk result (λ copy. copy ≡ dds.now) }
{
    let mut copy = Listed::new(Vec::with_capacity(alloc, dds.len())?);
    for dd in dds {
        copy.push(dd_again(dd)?)?;
    }
    Ok(copy)
}

fn output_again(output: &Output) -> Result<Output, AllocError>
    ensures { IfOk result (λ copy. copy ≡ output.now) }
{
    Ok(Output {
        step: output.step,
        dd: output.dd,
        class: output.class,
        records: output.records.clone()?,
    })
}

fn outputs_again(alloc: Global, outputs: &[Output]) -> Result<Listed<Output>, AllocError>
    ensures { IfOk result (λ copy. copy ≡ outputs.now) }
{
    let mut copy = Listed::new(Vec::with_capacity(alloc, outputs.len())?);
    for output in outputs {
        copy.push(output_again(output)?)?;
    }
    Ok(copy)
}

fn own_again(alloc: Global, own: &Own) -> Result<Own, AllocError>
    ensures { IfOk result (λ copy. copy ≡ own.now) }
{
    Ok(Own {
        passed: own.passed.clone()?,
        ended: own.ended.clone()?,
        faulted: own.faulted,
        volumes: own.volumes.clone()?,
        outputs: outputs_again(alloc, own.outputs.as_slice())?,
        runs: own.runs,
        over: own.over,
        dds: dds_again(alloc, own.dds.as_slice())?,
        due: own.due,
        lines: own.lines,
    })
}

/// The same step under way once more, without the lines that it wrote, and with room for so many.
pub(crate) fn again(alloc: Global, under: &Under, lines: usize) -> Result<Under, AllocError>
    ensures { IfOk result (λ copy. (copy.store ≡ under.now.store) × (copy.course.own ≡ under.now.course.own)) }
{
    Ok(Under {
        store: under.store.copy_of()?,
        course: Course {
            own: own_again(alloc, &under.course.own)?,
            lines: Listed::new(Vec::with_capacity(alloc, lines)?),
        },
    })
}
