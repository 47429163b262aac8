//! A job on its way: each action of its agenda carried out.
ghost use Rattle.std.specs.Prelude.{◌≡◌, ◌-◌, ◌∷◌, ◌++◌, [], true, OnOk};
ghost use Rattle.jcl_plan.specs.declared.outcome.Outcome.TheVariants as outcome;
ghost use Rattle.jcl_meaning.specs.Agendas.{Ask, Dispose, Finish, Left, Over, Receive, Start, Take};
ghost use Rattle.jcl_meaning.specs.RequestActs.{head_or};
ghost use Rattle.jcl_meaning.specs.States.{cancel_due, others};
ghost use Rattle.job_text.specs.Places.{IsDd, IsStep, dd_at, step_at};
ghost use Rattle.solo_core.specs.Runners.{Does};

use disp_core::course::{Course, Given};
use disp_core::site::site_of;
use disp_core::{dispose, step, take};
use jcl_meaning::program::Move;
use jcl_plan::fault::Fault;
use jcl_plan::outcome::{Code, Outcome};
use job_text::text::JobText;
use plain::listed::Listed;
use request_core::here::Asking;
use request_core::{ask, request};
use std::alloc::{AllocError, Global};
use store_core::alone::Alone;

/// The number of a job that has its store alone.
const JOB: u16 = 1;

/// A job on its way: what is fixed for it, the answers that are left, and what it has done.
#[derive(Drop)]
pub(crate) struct Runner<'a> {
    pub(crate) alloc: Global,
    pub(crate) given: Given<'a>,
    pub(crate) outcomes: &'a [Outcome],
    pub(crate) cancels: &'a [Option<u32>],
    pub(crate) grants: &'a [bool],
    pub(crate) store: Alone,
    pub(crate) course: Course,
    /// What each action met.
    pub(crate) meets: Listed<Option<Fault>>,
}

/// Answers without the first.
fn others<T>(answers: &[T]) -> &[T]
    ensures { result.now ≡ others answers.now }
{
    match answers.split_first() {
        None => answers,
        Some((_, others)) => others,
    }
}

/// Whether a cancel stands in the place of the next program line.
fn cancel_due(cancels: &[Option<u32>], lines: usize) -> bool
    ensures { result ≡ cancel_due cancels.now lines }
{
    match cancels.first() {
        Some(Some(after)) => *after as usize == lines,
        Some(None) => false,
        None => false,
    }
}

/// The outcome that is given for a step.
fn next_outcome(outcomes: &[Outcome]) -> Outcome
    ensures { result ≡ head_or (outcome.Code 0) outcomes.now }
{
    match outcomes.first() {
        None => Outcome::Code(Code::zero()),
        Some(outcome) => *outcome,
    }
}

/// Whether the next growth is granted; a missing answer grants it.
fn next_grant(grants: &[bool]) -> bool
    ensures { result ≡ head_or true grants.now }
{
    match grants.first() {
        None => true,
        Some(granted) => *granted,
    }
}

impl<'a> Runner<'a> {
    /// An action is done: enters the fault that it met, if it met one.
    fn met(&mut self, fault: Option<Fault>) -> Result<(), AllocError>
        ensures { OnOk result (self.new ≡ record self.old { meets = self.old.meets ++ fault ∷ [] }) }
    {
        self.meets.push(fault)?;
        Ok(())
    }

    /// The n-th step begins, or is passed over.
    pub(crate) fn begin<T: JobText>(&mut self, text: &T, n: usize) -> Result<(), AllocError>
        requires reads { T.reads text.now }
        requires step { IsStep (T.plan text.now).steps n }
        ensures { OnOk result (Does (Start n (step_at (T.plan text.now).steps (n - 1))) self.old self.new) }
    {
        step::begin(text, &self.given, &mut self.course, n)?;
        self.met(None)?;
        Ok(())
    }

    /// A DD taken. A step that does not run passes it over.
    pub(crate) fn take<T: JobText>(
        &mut self,
        text: &T,
        n: usize,
        dd: usize,
    ) -> Result<(), AllocError>
        requires reads { T.reads text.now }
        requires dd { IsDd (T.plan text.now).steps n dd }
        ensures { OnOk result (Does (Take n dd (dd_at (step_at (T.plan text.now).steps (n - 1)).dds (dd - 1))) self.old self.new) }
    {
        let at = site_of(text, JOB, n, dd);
        let reads = text.take_text(n - 1, dd - 1);
        let taken = take::take(
            self.alloc,
            &mut self.store,
            &self.given,
            &mut self.course,
            &at,
            &reads,
        )?;
        self.met(taken.meets)?;
        Ok(())
    }

    /// The end of a step, which uses its answers up.
    pub(crate) fn finish(&mut self, n: usize) -> Result<(), AllocError>
        ensures { OnOk result (Does (Finish n) self.old self.new) }
    {
        let outcome = next_outcome(self.outcomes);
        let cancelled = cancel_due(self.cancels, self.course.own.lines);
        step::finish(self.alloc, &mut self.course, n, &outcome, cancelled)?;
        self.outcomes = others(self.outcomes);
        self.cancels = others(self.cancels);
        self.met(None)?;
        Ok(())
    }

    /// The disposition of a DD. A step that does not run passes it over.
    pub(crate) fn dispose<T: JobText>(
        &mut self,
        text: &T,
        n: usize,
        dd: usize,
    ) -> Result<(), AllocError>
        requires reads { T.reads text.now }
        requires dd { IsDd (T.plan text.now).steps n dd }
        ensures { OnOk result (Does (Dispose n dd (dd_at (step_at (T.plan text.now).steps (n - 1)).dds (dd - 1))) self.old self.new) }
    {
        let at = site_of(text, JOB, n, dd);
        let reads = text.disp_text(n - 1, dd - 1);
        let meets = dispose::dispose(&mut self.store, &self.given, &mut self.course, &at, &reads)?;
        self.met(meets)?;
        Ok(())
    }

    /// The job's end for what a DD passed and no DD received.
    pub(crate) fn leave<T: JobText>(
        &mut self,
        text: &T,
        n: usize,
        dd: usize,
    ) -> Result<(), AllocError>
        requires reads { T.reads text.now }
        requires dd { IsDd (T.plan text.now).steps n dd }
        ensures { OnOk result (Does (Left n dd (dd_at (step_at (T.plan text.now).steps (n - 1)).dds (dd - 1))) self.old self.new) }
    {
        let at = site_of(text, JOB, n, dd);
        let reads = text.disp_text(n - 1, dd - 1);
        let meets = dispose::leave(&mut self.store, &self.given, &mut self.course, &at, &reads)?;
        self.met(meets)?;
        Ok(())
    }

    /// The job's end.
    pub(crate) fn end(&mut self) -> Result<(), AllocError>
        ensures { OnOk result (Does Over self.old self.new) }
    {
        step::end(&mut self.course)?;
        self.met(None)?;
        Ok(())
    }

    /// A request's first action, of the n-th step; where it asks for tracks, an answer is used up.
    pub(crate) fn ask<T: JobText>(
        &mut self,
        text: &T,
        n: usize,
        wants: &Move,
    ) -> Result<(), AllocError>
        requires reads { T.reads text.now }
        requires step { IsStep (T.plan text.now).steps n }
        ensures { OnOk result (Does (Ask (step_at (T.plan text.now).steps (n - 1)) wants.now) self.old self.new) }
    {
        self.store.growth = next_grant(self.grants);
        let asking = Asking {
            job: JOB,
            step: n - 1,
            wants,
            cancelled: cancel_due(self.cancels, self.course.own.lines),
        };
        let asked = ask::ask(self.alloc, text, &mut self.store, &mut self.course, &asking)?;
        if asked {
            self.grants = others(self.grants);
        }
        self.met(None)?;
        Ok(())
    }

    /// What is due of a request.
    pub(crate) fn receive(&mut self) -> Result<(), AllocError>
        ensures { OnOk result (Does Receive self.old self.new) }
    {
        let cancelled = cancel_due(self.cancels, self.course.own.lines);
        request::receive(&mut self.store, JOB, &mut self.course, cancelled)?;
        self.met(None)?;
        Ok(())
    }
}
