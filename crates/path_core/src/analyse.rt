//! What may become of a job.
ghost use Rattle.std.specs.Prelude.{◌≡◌, IfOk};
ghost use Rattle.jcl_meaning.specs.Names.{names_of};
ghost use Rattle.jcl_meaning.specs.Resolutions.{meanings_of};
ghost use Rattle.jcl_meaning.specs.Stores.{store_of};
ghost use Rattle.jcl_meaning.specs.WellFormed.{IsWellFormedPlan};
ghost use Rattle.part_laws.specs.Keeping.{HasSoundGroups};
ghost use Rattle.packed_core.specs.Sights.{AreSeals};
ghost use Rattle.path_core.specs.Starts.{fixed_from};
ghost use Rattle.path_search.specs.Verdicts.{IsVerdict};

use crate::start::StartView;
use disp_core::course::Given;
use jcl_meaning::meanings::Meanings;
use jcl_meaning::names::{HeldName, names_of};
use jcl_plan::plan::JobPlan;
use packed_core::asking::asking_steps;
use packed_core::domain::PackedDomain;
use packed_core::job::Job;
use packed_core::sights::{Seal, seals_of};
use part_laws::start_fits;
use path_search::search::analyse_over;
use path_search::verdict::Verdict;
use std::alloc::{AllocError, Global};
use std::marker::{Brand, PhantomData};
use store_core::meanings::meanings_of;
use view_core::domain::PlainDomain;

/// The analysis of a job that holds these names, and whose keys mean this. A type tells the job, so that its views are kept apart from others.
fn analyse_holding<'a, J: Job + Drop>(
    alloc: Global,
    plan: &'a JobPlan,
    start: &'a StartView,
    names: &'a [HeldName],
    meanings: &'a Meanings,
    seals: &'a [Seal],
) -> Result<Verdict, AllocError>
    requires planned { plan.now ≡ J.plan }
    requires so_fixed { fixed_from start.now plan.now ≡ J.fixed }
    requires plan { IsWellFormedPlan plan.now }
    requires groups { HasSoundGroups (store_of start.now.store) }
    requires names { names.now ≡ names_of plan.now }
    requires meanings { meanings.now ≡ meanings_of (store_of start.now.store) plan.now }
    requires seals { AreSeals J.seals seals.now }
    ensures { IfOk result (λ v. IsVerdict (fixed_from start.now plan.now) plan.now (store_of start.now.store) start.now.most_views v) }
{
    start_fits();
    let given = Given {
        job_tests: plan.tests.as_slice(),
        volumes: start.store.volumes.as_slice(),
        places: &start.places,
        meanings,
        date: start.date,
    };
    let plain = PlainDomain {
        plan,
        names,
        store: &start.store,
        given,
    };
    let domain: PackedDomain<'_, J> = PackedDomain {
        plain,
        asked: asking_steps(plan.steps.as_slice()),
        seals,
        job: PhantomData,
    };
    analyse_over(
        alloc,
        &domain,
        plan,
        start.store.volumes.as_slice(),
        start.most_views,
    )
}

/// What may become of a job that starts so, however its steps end: by any code up to 4095, or by an ABEND. Its names are these, and its keys mean this.
pub fn analyse_named(
    alloc: Global,
    plan: &JobPlan,
    start: &StartView,
    names: &[HeldName],
    meanings: &Meanings,
) -> Result<Verdict, AllocError>
    requires plan { IsWellFormedPlan plan.now }
    requires groups { HasSoundGroups (store_of start.now.store) }
    requires names { names.now ≡ names_of plan.now }
    requires meanings { meanings.now ≡ meanings_of (store_of start.now.store) plan.now }
    ensures verdict { IfOk result (λ v. IsVerdict (fixed_from start.now plan.now) plan.now (store_of start.now.store) start.now.most_views v) }
{
    let seals = seals_of(alloc, plan.steps.len())?;
    analyse_holding::<Brand>(alloc, plan, start, names, meanings, seals.as_slice())
}

/// What may become of a job that starts so.
pub fn analyse(alloc: Global, plan: &JobPlan, start: &StartView) -> Result<Verdict, AllocError>
    requires plan { IsWellFormedPlan plan.now }
    requires groups { HasSoundGroups (store_of start.now.store) }
    ensures verdict { IfOk result (λ v. IsVerdict (fixed_from start.now plan.now) plan.now (store_of start.now.store) start.now.most_views v) }
{
    let meanings = meanings_of(alloc, plan, &start.store)?;
    let names = names_of(alloc, plan)?;
    analyse_named(alloc, plan, start, names.as_slice(), &meanings)
}
