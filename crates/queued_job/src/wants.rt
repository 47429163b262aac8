//! The names that a job wants, as the table of held names takes them.
ghost use Rattle.std.specs.Prelude.{◌≡◌, IfOk, map, take};
ghost use Rattle.world_meaning.specs.Holdings.{wants_of};
ghost use Rattle.queued_job.specs.Naming.{want_of};

use enq_core::table::Want;
use jcl_meaning::names::{HeldName, names_of};
use jcl_plan::plan::JobPlan;
use plain::listed::Listed;
use std::alloc::{AllocError, Global};

fn want_of(held: &HeldName) -> Want
    ensures { result ≡ want_of held.now }
{
    Want {
        name: held.name,
        exclusive: held.exclusive,
    }
}

/// A want for each name that a job holds.
fn wants_for(alloc: Global, names: &[HeldName]) -> Result<Listed<Want>, AllocError>
    ensures { IfOk result (λ wants. wants ≡ map want_of names.now) }
{
    let mut wants = Vec::with_capacity(alloc, names.len())?;
    for held in names {
        wants.push(want_of(held))?;
    }
    Ok(Listed::new(wants))
}

/// The names that a job wants, each once, in byte order.
pub fn wants_of(alloc: Global, plan: &JobPlan) -> Result<Listed<Want>, AllocError>
    ensures { IfOk result (λ wants. wants ≡ wants_of plan.now) }
{
    let names = names_of(alloc, plan)?;
    wants_for(alloc, names.as_slice())
}
