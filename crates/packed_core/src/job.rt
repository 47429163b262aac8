//! A job as a type tells it.
use std::marker::Brand;

/// What is analysed, told by a type: views of one job are kept apart from those of another.
pub trait Job {
    ghost use Rattle.std.specs.Prelude.{ℕ};
    ghost use Rattle.jcl_plan.specs.declared.plan.JobPlan.{JobPlan};
    ghost use Rattle.jcl_meaning.specs.States.{Fixed};

    /// Its plan, and what is fixed for it.
    ghost plan: { JobPlan };

    ghost fixed: { Fixed };

    /// Where the scenes before each part are told.
    ghost seals: { ℕ → ℕ };
}

impl Job for Brand {
    ghost use Rattle.packed_core.specs.Jobs.{no_job, nothing_fixed};

    ghost plan = { no_job };

    ghost fixed = { nothing_fixed };

    ghost seals = { λ part. 0 };
}
