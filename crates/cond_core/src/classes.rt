//! Classes of completion codes of which each test holds alike. (This profile)
ghost use Rattle.std.specs.Prelude.{◌≡◌, ◌≤◌, ◌++◌, All, IfOk, OnOk};
ghost use Rattle.cond_core.specs.Breaks.{breaks_of, changes_at, changes_behind, starts_of};
ghost use Rattle.cond_core.specs.Classes.{AreClasses, IsInClass};

use jcl_plan::outcome::Code;
use jcl_plan::plan::{Operator, Test};
use std::alloc::{AllocError, Global};
use std::marker::Model;

/// The codes 0 to 4095 in classes, of which contracts see the representatives: the least code of each class, rising.
#[derive(Drop)]
pub struct CodeClasses {
    representatives: Vec<Code>,
}

impl Model for CodeClasses {
    ghost use Rattle.std.specs.Prelude.{◌≡◌, ℕ, List, slice_get, Some};
    ghost use Rattle.std.specs.List.Sorted.{IsStrictlyIncreasing};

    ghost Value = { List ℕ };

    ghost view = { λ c. c.representatives.items };

    ghost invariant = { λ c. (slice_get c.representatives.items 0 ≡ Some 0) × IsStrictlyIncreasing c.representatives.items };
}

impl CodeClasses {
    /// The least code of each class, in order.
    pub fn representatives(&self) -> &[Code]
        ensures { result.now ≡ self.now }
    {
        self.representatives.as_slice()
    }

    /// The representative of a code's class.
    pub fn class_of(&self, code: Code) -> Code
        ensures { IsInClass self.now result code }
    {
        let number = code.number();
        let above = self
            .representatives
            .partition_point(|least| least.number() <= number);
        self.representatives[above - 1]
    }
}

/// The answer of a test is another at its code than before it.
fn changes_at(operator: Operator) -> bool
    ensures { result ≡ changes_at operator }
{
    match operator {
        Operator::Gt => true,
        Operator::Ge => false,
        Operator::Eq => true,
        Operator::Lt => false,
        Operator::Le => true,
        Operator::Ne => true,
    }
}

/// The answer of a test is another behind its code than at it.
fn changes_behind(operator: Operator) -> bool
    ensures { result ≡ changes_behind operator }
{
    match operator {
        Operator::Gt => false,
        Operator::Ge => true,
        Operator::Eq => true,
        Operator::Lt => true,
        Operator::Le => false,
        Operator::Ne => true,
    }
}

/// The codes at which the answer of a test changes.
fn push_breaks(starts: &mut Vec<Code>, test: &Test) -> Result<(), AllocError>
    ensures items { OnOk result (starts.new.items ≡ starts.old.items ++ breaks_of test.now) }
    ensures codes { All (λ n. n ≤ 4095) (breaks_of test.now) }
{
    let code = test.code.number();
    if changes_at(test.operator) {
        starts.push(test.code)?;
    }
    if changes_behind(test.operator)
        && let Some(next) = Code::new(code + 1)
    {
        starts.push(next)?;
    }
    Ok(())
}

/// The codes at which the answer of some test changes, and code 0.
fn starts(alloc: Global, tests: &[Test]) -> Result<Vec<Code>, AllocError>
    ensures items { IfOk result (λ v. v.items ≡ starts_of tests.now) }
    ensures codes { IfOk result (λ v. All (λ n. n ≤ 4095) v.items) }
{
    let mut starts = Vec::new(alloc);
    starts.push(Code::zero())?;
    for test in tests {
        push_breaks(&mut starts, test)?;
    }
    Ok(starts)
}

/// Classes of codes of which each of these tests holds alike, whatever steps the tests look at. Two neighbouring classes differ in some
/// test. There are at most twice as many classes as tests, and one more.
pub fn code_classes(alloc: Global, tests: &[Test]) -> Result<CodeClasses, AllocError>
    ensures { IfOk result (λ classes. AreClasses tests.now classes) }
{
    let mut representatives = starts(alloc, tests)?;
    representatives.sort_unstable();
    representatives.dedup();
    Ok(CodeClasses { representatives })
}
