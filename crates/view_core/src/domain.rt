//! The plain domain: a view is a scene that shows it, and views are kept in a list.
ghost use Rattle.std.specs.Prelude.{◌≡◌};
ghost use Rattle.jcl_meaning.specs.Names.{names_of};

use disp_core::course::Given;
use jcl_meaning::names::HeldName;
use jcl_meaning::store::SoloStore;
use jcl_plan::plan::JobPlan;

/// A job that is analysed: its plan, the names that it holds, the store that it finds, and what is fixed for it.
#[derive(Clone, Copy)]
pub struct PlainDomain<'a> {
    pub plan: &'a JobPlan,
    pub names: &'a [HeldName],
    pub store: &'a SoloStore,
    pub given: Given<'a>,
    pub ghost named: { names.now ≡ names_of plan.now },
    pub ghost tested: { given.job_tests.now ≡ plan.now.tests.items },
}
