//! Views are led over a part.
ghost use Rattle.std.specs.Prelude.{◌≡◌, ◌+◌, ◌∷◌, ◌<◌, ◌≤◌, ◌++◌, List, [], All, IfOk, OnOk, drop, length};
ghost use Rattle.jcl_plan.specs.declared.outcome.Outcome.TheVariants as outcome;
ghost use Rattle.jcl_meaning.specs.Agendas.{path_agenda};
ghost use Rattle.jcl_meaning.specs.Names.{names_of};
ghost use Rattle.jcl_meaning.specs.Solo.{nothing_own};
ghost use Rattle.jcl_meaning.specs.Views.{IsViewAfter};
ghost use Rattle.part_laws.specs.Fits.{Fits};
ghost use Rattle.path_meaning.specs.Paths.{shown_code, shown_of};
ghost use Rattle.path_search.specs.Puts.{AreMovesPut, IsBranchPut, IsCrossedPut, IsViewPut};
ghost use Rattle.path_search.specs.Crossings.{AreLedOver, AreStopsNoted, HasRows, IsLedOver, IsNothing, known_of};

use crate::behind::Behind;
use crate::laws::path_laws;
use crate::makings::mark_crossed;
use crate::stops::{Found, note_crossed};
use crate::trail::Link;
use jcl_plan::outcome::{Abend, Code, Fate, Outcome};
use plain::listed::Listed;
use std::alloc::{AllocError, Global};
use view_domain::crossed::{Branch, Crossed, Move};
use view_domain::domain::ViewDomain;

/// Puts a view and its link behind a part, where the view does not stand there and those behind are within the limit.
fn put<D: ViewDomain>(
    alloc: Global,
    domain: &D,
    views: &mut D::Views,
    links: &mut Listed<Link>,
    view: D::View,
    link: Link,
    limit: usize,
) -> Result<(), AllocError>
    requires counted { length links.old ≡ length (D.members domain.now views.old) }
    ensures put { OnOk result (IsViewPut (D.members domain.now) (D.meaning domain.now) limit views.old links.old view link views.new links.new) }
    ensures meaning { OnOk result (D.meaning domain.now views.new ≡ D.meaning domain.now views.old) }
    ensures stands { OnOk result (D.stands domain.now views.new ≡ D.stands domain.now views.old) }
{
    if links.len() > limit {
        return Ok(());
    }
    if !domain.merge(alloc, views, view)? {
        links.push(link)?;
    }
    Ok(())
}

/// What a path shows of a step that ends so: its code, or an ABEND as U0000.
fn shown_code(outcome: Outcome) -> Outcome
    ensures { result ≡ shown_code outcome }
{
    match outcome {
        Outcome::Code(code) => Outcome::Code(code),
        Outcome::Abend(_) => Outcome::Abend(Abend::User(Code::zero())),
        Outcome::Bypassed | Outcome::Flushed => Outcome::Code(Code::zero()),
    }
}

/// What a path shows of a step of this fate, with code 0 if it runs.
fn shown_fate(fate: Fate) -> Outcome
    ensures { result ≡ shown_of fate (outcome.Code 0) }
{
    match fate {
        Fate::Run => Outcome::Code(Code::zero()),
        Fate::Bypassed => Outcome::Bypassed,
        Fate::Flushed => Outcome::Flushed,
    }
}

/// Puts the views of a step's end behind its part, in their order.
fn put_moves<D: ViewDomain>(
    alloc: Global,
    domain: &D,
    views: &mut D::Views,
    links: &mut Listed<Link>,
    moves: Vec<Move<D::View>>,
    parent: usize,
    limit: usize,
) -> Result<(), AllocError>
    requires counted { length links.old ≡ length (D.members domain.now views.old) }
    ensures put { OnOk
        result
        (AreMovesPut (D.members domain.now) (D.meaning domain.now) limit views.old links.old parent moves.items views.new links.new) }
    ensures meaning { OnOk result (D.meaning domain.now views.new ≡ D.meaning domain.now views.old) }
    ensures stands { OnOk result (D.stands domain.now views.new ≡ D.stands domain.now views.old) }
{
    for next in moves {
        let Move { outcome, view } = next;
        let link = Link {
            parent,
            outcome: shown_code(outcome),
        };
        put(alloc, domain, views, links, view, link, limit)?;
    }
    Ok(())
}

/// Puts the views behind a step's end by a code or by an ABEND, if a stop does not come first.
fn put_branch<D: ViewDomain>(
    alloc: Global,
    domain: &D,
    views: &mut D::Views,
    links: &mut Listed<Link>,
    branch: Branch<D::View>,
    parent: usize,
    limit: usize,
) -> Result<(), AllocError>
    requires counted { length links.old ≡ length (D.members domain.now views.old) }
    ensures put { OnOk result (IsBranchPut (D.members domain.now) (D.meaning domain.now) limit views.old links.old parent branch views.new links.new) }
    ensures meaning { OnOk result (D.meaning domain.now views.new ≡ D.meaning domain.now views.old) }
    ensures stands { OnOk result (D.stands domain.now views.new ≡ D.stands domain.now views.old) }
{
    match branch {
        Branch::Stops(_) => Ok(()),
        Branch::Leads(moves) => put_moves(alloc, domain, views, links, moves, parent, limit),
    }
}

/// Puts the views to which a part leads from a view.
fn put_crossed<D: ViewDomain>(
    alloc: Global,
    domain: &D,
    views: &mut D::Views,
    links: &mut Listed<Link>,
    crossed: Crossed<D::View>,
    parent: usize,
    limit: usize,
) -> Result<(), AllocError>
    requires counted { length links.old ≡ length (D.members domain.now views.old) }
    ensures put { OnOk result (IsCrossedPut (D.members domain.now) (D.meaning domain.now) limit views.old links.old parent crossed views.new links.new) }
    ensures meaning { OnOk result (D.meaning domain.now views.new ≡ D.meaning domain.now views.old) }
    ensures stands { OnOk result (D.stands domain.now views.new ≡ D.stands domain.now views.old) }
{
    match crossed {
        Crossed::Stops(_) => Ok(()),
        Crossed::Ends => Ok(()),
        Crossed::Passes { fate, view } => {
            let link = Link {
                parent,
                outcome: shown_fate(fate),
            };
            put(alloc, domain, views, links, view, link, limit)
        }
        Crossed::Runs {
            made: _,
            by_code,
            by_abend,
        } => {
            put_branch(alloc, domain, views, links, by_code, parent, limit)?;
            put_branch(alloc, domain, views, links, by_abend, parent, limit)
        }
    }
}

/// Leads a view over a part.
fn cross<D: ViewDomain>(
    alloc: Global,
    domain: &D,
    part: usize,
    before: &mut D::Views,
    number: usize,
    behind: &mut Behind<D::Views>,
    limit: usize,
) -> Result<(), AllocError>
    requires part { part < length (D.plan domain.now).steps }
    requires stands_before { D.stands domain.now before.old ≡ part }
    requires stands_behind { D.stands domain.now behind.old.views ≡ part + 1 }
    requires number { number < length (D.members domain.now before.old) }
    requires job_tests { (D.fixed domain.now).job_tests ≡ (D.plan domain.now).tests.items }
    requires fits { Fits (names_of (D.plan domain.now)) (D.fixed domain.now).meanings (path_agenda (D.plan domain.now)) nothing_own }
    requires seen { All (IsViewAfter (D.fixed domain.now) (D.plan domain.now) (D.store domain.now) part) (D.members domain.now before.old) }
    requires counted { length behind.old.links ≡ length (D.members domain.now behind.old.views) }
    requires rows { HasRows (D.plan domain.now) part behind.old.made.items }
    ensures before { OnOk result (D.members domain.now before.new ≡ D.members domain.now before.old) }
    ensures stands { OnOk result ((D.stands domain.now before.new ≡ part) × (D.stands domain.now behind.new.views ≡ part + 1)) }
    ensures crossed { OnOk
        result
        (IsLedOver D.members D.meaning D.plan D.fixed domain.now part limit number before.old behind.old behind.new) }
{
    path_laws();
    let crossed = domain.transfer(alloc, part, before, number, &mut behind.views)?;
    note_crossed(&mut behind.best, &crossed, number);
    mark_crossed(&mut behind.made, &crossed)?;
    put_crossed(
        alloc,
        domain,
        &mut behind.views,
        &mut behind.links,
        crossed,
        number,
        limit,
    )
}

/// Leads the views before a part over it.
pub(crate) fn cross_all<D: ViewDomain>(
    alloc: Global,
    domain: &D,
    part: usize,
    before: &mut D::Views,
    count: usize,
    behind: &mut Behind<D::Views>,
    limit: usize,
) -> Result<(), AllocError>
    requires part { part < length (D.plan domain.now).steps }
    requires stands_before { D.stands domain.now before.old ≡ part }
    requires stands_behind { D.stands domain.now behind.old.views ≡ part + 1 }
    requires count { count ≡ length (D.members domain.now before.old) }
    requires job_tests { (D.fixed domain.now).job_tests ≡ (D.plan domain.now).tests.items }
    requires fits { Fits (names_of (D.plan domain.now)) (D.fixed domain.now).meanings (path_agenda (D.plan domain.now)) nothing_own }
    requires seen { All (IsViewAfter (D.fixed domain.now) (D.plan domain.now) (D.store domain.now) part) (D.members domain.now before.old) }
    requires begins { IsNothing (D.plan domain.now) part (known_of (D.members domain.now) behind.old) }
    ensures stands { OnOk result (D.stands domain.now behind.new.views ≡ part + 1) }
    ensures across { OnOk result (AreLedOver D.members D.fixed D.plan D.store domain.now part limit before.old count behind.new) }
{
    path_laws();
    for number in 0..count {
        cross(alloc, domain, part, before, number, behind, limit)?;
    }
    Ok(())
}

/// Leads the views behind the last step over the job's end.
pub(crate) fn cross_end<D: ViewDomain>(
    alloc: Global,
    domain: &D,
    part: usize,
    before: &mut D::Views,
    count: usize,
    behind: &mut D::Views,
) -> Result<Option<Found>, AllocError>
    requires part { part ≡ length (D.plan domain.now).steps }
    requires stands_before { D.stands domain.now before.old ≡ part }
    requires stands_behind { D.stands domain.now behind.old ≡ part + 1 }
    requires count { count ≡ length (D.members domain.now before.old) }
    requires job_tests { (D.fixed domain.now).job_tests ≡ (D.plan domain.now).tests.items }
    requires fits { Fits (names_of (D.plan domain.now)) (D.fixed domain.now).meanings (path_agenda (D.plan domain.now)) nothing_own }
    requires seen { All (IsViewAfter (D.fixed domain.now) (D.plan domain.now) (D.store domain.now) part) (D.members domain.now before.old) }
    ensures ended { IfOk result (AreStopsNoted (D.fixed domain.now) (D.plan domain.now) (D.store domain.now) part (D.members domain.now before.old) count) }
{
    path_laws();
    let mut best = None;
    for number in 0..count {
        let crossed = domain.transfer(alloc, part, before, number, behind)?;
        note_crossed(&mut best, &crossed, number);
    }
    Ok(best)
}
