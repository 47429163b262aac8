//! What may become of a job, by views that are not packed.
ghost use Rattle.std.specs.Prelude.{◌≡◌, IfOk};
ghost use Rattle.jcl_meaning.specs.Names.{names_of};
ghost use Rattle.jcl_meaning.specs.Resolutions.{meanings_of};
ghost use Rattle.jcl_meaning.specs.Stores.{store_of};
ghost use Rattle.jcl_meaning.specs.WellFormed.{IsWellFormedPlan};
ghost use Rattle.part_laws.specs.Keeping.{HasSoundGroups};
ghost use Rattle.path_core.specs.Starts.{fixed_from};
ghost use Rattle.path_search.specs.Verdicts.{IsVerdict};

use disp_core::course::Given;
use jcl_meaning::meanings::Meanings;
use jcl_meaning::names::{HeldName, names_of};
use jcl_plan::plan::JobPlan;
use part_laws::start_fits;
use path_core::start::StartView;
use path_search::search::analyse_over;
use path_search::verdict::Verdict;
use std::alloc::{AllocError, Global};
use store_core::meanings::meanings_of;
use view_core::domain::PlainDomain;

/// The same of a job that holds these names, and whose keys mean this.
fn analyse_holding(
    alloc: Global,
    plan: &JobPlan,
    start: &StartView,
    names: &[HeldName],
    meanings: &Meanings,
) -> Result<Verdict, AllocError>
    requires plan { IsWellFormedPlan plan.now }
    requires groups { HasSoundGroups (store_of start.now.store) }
    requires names { names.now ≡ names_of plan.now }
    requires meanings { meanings.now ≡ meanings_of (store_of start.now.store) plan.now }
    ensures { IfOk result (λ v. IsVerdict (fixed_from start.now plan.now) plan.now (store_of start.now.store) start.now.most_views v) }
{
    start_fits();
    let given = Given {
        job_tests: plan.tests.as_slice(),
        volumes: start.store.volumes.as_slice(),
        places: &start.places,
        meanings,
        date: start.date,
    };
    let domain = PlainDomain {
        plan,
        names,
        store: &start.store,
        given,
    };
    analyse_over(
        alloc,
        &domain,
        plan,
        start.store.volumes.as_slice(),
        start.most_views,
    )
}

/// What may become of a job that starts so, as [`path_core::analyse::analyse`] answers it, by views that are kept as lists.
pub(crate) fn analyse_plainly(
    alloc: Global,
    plan: &JobPlan,
    start: &StartView,
) -> Result<Verdict, AllocError>
    requires plan { IsWellFormedPlan plan.now }
    requires groups { HasSoundGroups (store_of start.now.store) }
    ensures { IfOk result (λ v. IsVerdict (fixed_from start.now plan.now) plan.now (store_of start.now.store) start.now.most_views v) }
{
    let meanings = meanings_of(alloc, plan, &start.store)?;
    let names = names_of(alloc, plan)?;
    analyse_holding(alloc, plan, start, names.as_slice(), &meanings)
}
