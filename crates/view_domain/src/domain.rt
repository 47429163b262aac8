//! A way to keep views.
ghost use Rattle.std.specs.Prelude.{◌≡◌, ◌<◌, ◌≤◌, ◌+◌, ℕ, List, [], ◌∷◌, length, IfOk, OnOk};
ghost use Rattle.jcl_plan.specs.declared.plan.JobPlan.{JobPlan};
ghost use Rattle.jcl_meaning.specs.States.{Fixed};
ghost use Rattle.jcl_meaning.specs.Stores.{Store};
ghost use Rattle.jcl_meaning.specs.Views.{View};
ghost use Rattle.view_domain.specs.Crossings.{IsCrossedFrom, IsPut, IsViewBefore, view_at_start};

use crate::crossed::Crossed;
use std::alloc::{AllocError, Global};

/// A way to keep what a job sees before each part of its path. Part k is the step with number k + 1, and behind the last step the job's end.
///
/// An analysis asks for the view before the first step, leads each view of a part over it, and puts what it comes to among the views behind the
/// part. It knows views by their numbers alone, so a domain may keep them as it likes.
pub trait ViewDomain {
    /// A view that is told and not yet put among others.
    type View: Drop;

    /// The views before a part, each once, numbered from 0 in the order in which they were put.
    type Views: Drop;

    /// The job that is analysed, what is fixed for it, and the store that it finds.
    ghost plan: { Self → JobPlan };

    ghost fixed: { Self → Fixed };

    ghost store: { Self → Store };

    /// What the job sees where one of its views is met: of those that are put by their numbers, of another beside the views that it is told for.
    ghost members: { Self → Self.Views → List View };

    ghost meaning: { Self → Self.Views → Self.View → View };

    /// The part before which views stand.
    ghost stands: { Self → Self.Views → ℕ };

    /// The view before the first step.
    fn start(&self, alloc: Global) -> Result<Self::Views, AllocError>
        ensures first { IfOk result (λ views. members self.now views ≡ view_at_start (plan self.now) (fixed self.now).date (store self.now) ∷ []) }
        ensures part { IfOk result (λ views. stands self.now views ≡ 0) };

    /// No view yet, before a part.
    fn none(&self, alloc: Global, part: usize) -> Result<Self::Views, AllocError>
        ensures none { IfOk result (λ views. members self.now views ≡ []) }
        ensures part { IfOk result (λ views. stands self.now views ≡ part) };

    /// Where a part leads from a view, for all that its step may come to. A view that stands behind the part already need not be told again.
    fn transfer(
        &self,
        alloc: Global,
        part: usize,
        before: &mut Self::Views,
        number: usize,
        behind: &mut Self::Views,
    ) -> Result<Crossed<Self::View>, AllocError>
        requires part { part ≤ length (plan self.now).steps }
        requires stands_before { stands self.now before.old ≡ part }
        requires stands_behind { stands self.now behind.old ≡ part + 1 }
        requires number { number < length (members self.now before.old) }
        requires met { IsViewBefore (fixed self.now) (plan self.now) (store self.now) part (members self.now before.old) number }
        ensures before { OnOk result ((members self.now before.new ≡ members self.now before.old) × (stands self.now before.new ≡ stands self.now before.old)) }
        ensures behind { OnOk result ((members self.now behind.new ≡ members self.now behind.old) × (stands self.now behind.new ≡ stands self.now behind.old)) }
        ensures crossed { IfOk
            result
            (IsCrossedFrom (members self.now) (meaning self.now) (plan self.now) (fixed self.now) part before.old number behind.new) };

    /// Puts a view among those behind a part, and says whether it stood there.
    fn merge(
        &self,
        alloc: Global,
        behind: &mut Self::Views,
        view: Self::View,
    ) -> Result<bool, AllocError>
        ensures put { IfOk
            result
            (λ stood. IsPut (members self.now behind.old) (meaning self.now behind.old view) stood (members self.now behind.new)) }
        ensures meaning { OnOk result (meaning self.now behind.new ≡ meaning self.now behind.old) }
        ensures part { OnOk result (stands self.now behind.new ≡ stands self.now behind.old) };
}
