//! Laws of the most lines that a job writes. (This profile)
ghost use Rattle.std.specs.Prelude.{◌≡◌, List, length};
ghost use Rattle.jcl_plan.specs.declared.plan.JobPlan.{JobPlan};
ghost use Rattle.jcl_meaning.specs.declared.program.SoloProgram.{SoloProgram};
ghost use Rattle.jcl_meaning.specs.Agendas.{agenda, budget_of};
ghost use Rattle.jcl_meaning.specs.LineCounts.{CleanJobsKeepToTheirBudgets, CleanRunsKeepToTheirActions, RunsKeepToTheirActions};

/// A job's budget is the length of its agenda.
pub fn budget_is_exact()
    ensures { (plan : JobPlan) (programs : List SoloProgram) → budget_of plan programs ≡ length (agenda plan programs) }
{}

/// A run writes no more lines than it has actions, beside the lines of a fault; without a fault no more at all, and so a job that meets
/// none keeps to its budget.
pub fn runs_keep_to_their_actions()
    ensures lines { RunsKeepToTheirActions }
    ensures clean { CleanRunsKeepToTheirActions }
    ensures budget { CleanJobsKeepToTheirBudgets }
{}
