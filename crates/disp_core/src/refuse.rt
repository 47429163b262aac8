//! A fault that ends a job's running: the sets that the step had taken are given back. (This profile)
ghost use Rattle.std.specs.Prelude.{◌≡◌, ◌++◌, ◌∷◌, List, OnErr, OnOk, take};
ghost use Rattle.jcl_plan.specs.declared.entry.JobLine.{JobLine};
ghost use Rattle.jcl_plan.specs.declared.entry.JobLine.TheVariants as line;
ghost use Rattle.jcl_meaning.specs.TakeActs.{all_given_back, back_line, back_lines, refused};
ghost use Rattle.disp_core.specs.Acting.{Makes, MeetsAndMakes};

use crate::course::Course;
use crate::site::Site;
use crate::take::Taken;
use jcl_meaning::state::DdState;
use jcl_plan::entry::JobLine;
use jcl_plan::fault::Fault;
use plain::listed::Listed;
use std::alloc::{AllocError, Global};
use std::mem;
use store_core::disposition::{back_word, is_deleted_back};
use store_core::job_store::JobStore;

/// Keeps so many items of a list, the first.
fn keep_first<T: Drop>(alloc: Global, list: &mut Listed<T>, count: usize)
    ensures { list.new ≡ take count list.old }
{
    let mut items = mem::replace(list, Listed::empty(alloc)).into_vec();
    items.truncate(count);
    *list = Listed::new(items);
}

/// Writes that the set of a DD is given back. An `Err` changes nothing.
fn say_back(lines: &mut Listed<JobLine>, x: &DdState) -> Result<(), AllocError>
    ensures ok { OnOk result (lines.new ≡ lines.old ++ back_line x.now) }
    ensures err { OnErr result (lines.new ≡ lines.old) }
{
    match &x.taken {
        None => Ok(()),
        Some(t) => lines.push(JobLine::Back {
            dd: x.number,
            name: x.name,
            word: back_word(is_deleted_back(t)),
        }),
    }
}

/// Writes that the sets of these DDs are given back. On an `Err` some lines more may stand behind those before.
fn say_backs(lines: &mut Listed<JobLine>, dds: &[DdState]) -> Result<(), AllocError>
    ensures ok { OnOk result (lines.new ≡ lines.old ++ back_lines dds.now) }
    ensures err { OnErr result ((more : List JobLine) × (lines.new ≡ lines.old ++ more)) }
{
    for x in dds {
        say_back(lines, x)?;
    }
    Ok(())
}

/// Writes a fault, and that the sets of these DDs are given back. An `Err` changes nothing.
fn say_refusal(
    alloc: Global,
    lines: &mut Listed<JobLine>,
    dds: &[DdState],
    at: &Site,
    fault: Fault,
) -> Result<(), AllocError>
    ensures ok { OnOk result (lines.new ≡ lines.old ++ line.Fault fault at.now.step at.now.dd ∷ back_lines dds.now) }
    ensures err { OnErr result (lines.new ≡ lines.old) }
{
    let count = lines.len();
    lines.push(JobLine::Fault {
        fault,
        step: at.step,
        dd: at.dd,
    })?;
    match say_backs(lines, dds) {
        Ok(()) => Ok(()),
        Err(error) => {
            keep_first(alloc, lines, count);
            Err(error)
        }
    }
}

/// Gives back what these DDs had taken, where they took a set.
fn give_back<S: JobStore>(store: &mut S, job: u16, dds: &[DdState])
    ensures seen { S.seen job store.new ≡ all_given_back dds.now (S.seen job store.old) }
    ensures rest { S.gives_up (S.rest job store.old) (S.rest job store.new) }
{
    for x in dds {
        if let Some(t) = &x.taken {
            if is_deleted_back(t) {
                store.scratch(job, &t.key, t.serial);
            }
        }
    }
}

/// Ends a job's running by a fault at a DD, and tells it. An `Err` changes nothing.
pub(crate) fn refuse<S: JobStore>(
    alloc: Global,
    store: &mut S,
    course: &mut Course,
    at: &Site,
    fault: Fault,
) -> Result<Taken, AllocError>
    ensures { Makes S.JobStore at.now.job (MeetsAndMakes (refused at.now.step at.now.dd fault)) result store.old course.old store.new course.new }
{
    say_refusal(
        alloc,
        &mut course.lines,
        course.own.dds.as_slice(),
        at,
        fault,
    )?;
    give_back(store, at.job, course.own.dds.as_slice());
    course.own.dds.clear();
    course.own.faulted = true;
    course.own.runs = false;
    Ok(Taken {
        meets: Some(fault),
        made: None,
    })
}
