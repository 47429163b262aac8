//! A job's plan, with what was found of it before.
ghost use Rattle.std.specs.Prelude.{◌≡◌, IfOk, IfSome, OnErr, OnOk};
ghost use Rattle.verdict_core.specs.Known.{IsFreeFrom};

use crate::same::is_same_start;
use boxed_core::Boxed;
use jcl_meaning::state::Place;
use jcl_plan::plan::JobPlan;
use path_core::start::StartView;
use std::alloc::{AllocError, Global};
use std::marker::Model;

/// How a job started, as it was free, and where it may make its sets.
#[derive(Drop)]
pub struct Found {
    start: StartView,
    made: Vec<Place>,
}

/// A job's plan, with what was found of it as it was looked at last, where it was free. A contract sees the plan alone.
#[derive(Drop)]
pub struct KnownPlan {
    plan: JobPlan,
    found: Option<Boxed<Found>>,
}

impl Model for KnownPlan {
    ghost use Rattle.jcl_plan.specs.declared.plan.JobPlan.{JobPlan};
    ghost use Rattle.verdict_core.specs.Known.{IsKnown};

    ghost Value = { JobPlan };

    ghost view = { λ k. k.plan };

    ghost invariant = { λ k. IsKnown k.plan k.found };
}

impl KnownPlan {
    /// A plan of which nothing is found yet.
    pub fn new(plan: JobPlan) -> KnownPlan
        ensures { result ≡ plan }
    {
        KnownPlan { plan, found: None }
    }

    pub fn plan(&self) -> &JobPlan
        ensures { result.now ≡ self.now }
    {
        &self.plan
    }

    /// Where the job may make its sets, if it was free as it started in this way before.
    pub(crate) fn free_as_before(
        &self,
        alloc: Global,
        start: &StartView,
    ) -> Result<Option<Vec<Place>>, AllocError>
        ensures { IfOk result (λ made. IfSome made (λ places. IsFreeFrom self.now start.now places.items)) }
    {
        match &self.found {
            Some(found) => {
                let found = found.get();
                if is_same_start(&found.start, start) {
                    let made = Vec::from_slice(alloc, found.made.as_slice())?;
                    Ok(Some(made))
                } else {
                    Ok(None)
                }
            }
            None => Ok(None),
        }
    }

    /// Keeps that the job is free where it starts so, and where it may make its sets. An `Err` changes nothing.
    pub(crate) fn remember(
        &mut self,
        alloc: Global,
        start: StartView,
        made: &[Place],
    ) -> Result<(), AllocError>
        requires { IsFreeFrom self.old start made.now }
        ensures { self.new ≡ self.old }
    {
        let made = Vec::from_slice(alloc, made)?;
        self.found = Some(Boxed::new(alloc, Found { start, made })?);
        Ok(())
    }

    /// Lets go of what was found.
    pub fn forget(&mut self)
        ensures { self.new ≡ self.old }
    {
        self.found = None;
    }
}
