//! The analysis of a job over any domain of views.
ghost use Rattle.std.specs.Prelude.{◌≡◌, IfOk};
ghost use Rattle.jcl_meaning.specs.Agendas.{path_agenda};
ghost use Rattle.jcl_meaning.specs.Names.{names_of};
ghost use Rattle.jcl_meaning.specs.Solo.{nothing_own};
ghost use Rattle.part_laws.specs.Fits.{Fits};
ghost use Rattle.path_search.specs.Verdicts.{IsVerdict};

use crate::behind::{Behind, nothing_behind};
use crate::crossing::{cross_all, cross_end};
use crate::laws::path_laws;
use crate::makings::add_places;
use crate::stops::report;
use crate::verdict::Verdict;
use jcl_plan::plan::JobPlan;
use jname_core::serial::Serial;
use plain::listed::Listed;
use std::alloc::{AllocError, Global};
use view_domain::domain::ViewDomain;

/// What may become of a job: step by step, over the views behind each, with at most one view more than the limit.
pub fn analyse_over<D: ViewDomain>(
    alloc: Global,
    domain: &D,
    plan: &JobPlan,
    volumes: &[Serial],
    most_views: usize,
) -> Result<Verdict, AllocError>
    requires plan { D.plan domain.now ≡ plan.now }
    requires volumes { (D.fixed domain.now).volumes ≡ volumes.now }
    requires job_tests { (D.fixed domain.now).job_tests ≡ plan.now.tests.items }
    requires fits { Fits (names_of plan.now) (D.fixed domain.now).meanings (path_agenda plan.now) nothing_own }
    ensures { IfOk result (λ verdict. IsVerdict (D.fixed domain.now) plan.now (D.store domain.now) most_views verdict) }
{
    path_laws();
    let mut views = domain.start(alloc)?;
    let mut count = 1;
    let mut trail = Listed::empty(alloc);
    let mut places = Vec::new(alloc);
    for (part, step) in plan.steps.as_slice().iter().enumerate() {
        let mut behind = nothing_behind(alloc, domain, part + 1, step.dds.len())?;
        cross_all(
            alloc,
            domain,
            part,
            &mut views,
            count,
            &mut behind,
            most_views,
        )?;
        let Behind {
            views: views_behind,
            links,
            best,
            made,
        } = behind;
        match best {
            Some(found) => return Ok(Verdict::Risk(report(alloc, trail.as_slice(), part, found)?)),
            None => {}
        }
        count = links.len();
        if count > most_views {
            return Ok(Verdict::TooMany { step: part + 1 });
        }
        add_places(&mut places, part + 1, made.as_slice(), volumes)?;
        trail.push(links)?;
        views = views_behind;
    }
    let part = plan.steps.len();
    let mut behind = domain.none(alloc, part + 1)?;
    match cross_end(alloc, domain, part, &mut views, count, &mut behind)? {
        Some(found) => Ok(Verdict::Risk(report(alloc, trail.as_slice(), part, found)?)),
        None => Ok(Verdict::Safe(places)),
    }
}
