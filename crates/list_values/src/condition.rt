//! Tests of completion codes. (COND parameter)
ghost use Rattle.std.specs.Prelude.{◌≡◌};

use arrayvec::ArrayVec;
use jcl_plan::outcome::Code;
use jcl_plan::plan::{AfterAbend, Operator};
use value_core::reference::StepReference;

/// A test of the steps that ended by a code, or of one of them.
#[derive(Clone, Copy)]
pub struct CodedTest {
    pub code: Code,
    pub operator: Operator,
    pub step: Option<StepReference>,
}

/// What fills the unused places of a list of tests.
impl Default for CodedTest {
    fn default() -> CodedTest {
        CodedTest {
            code: Code::zero(),
            operator: Operator::Gt,
            step: None,
        }
    }
}

/// At most eight tests.
pub type CodedTests = ArrayVec<CodedTest, 8>;

/// What COND says. On a JOB statement no test names a step, and neither EVEN nor ONLY is known.
#[derive(Drop)]
pub struct Condition {
    pub tests: CodedTests,
    pub after_abend: AfterAbend,
}

fn copied_tests(tests: &CodedTests) -> CodedTests
    ensures { result ≡ tests.now }
{
    let mut copy = CodedTests::new();
    let Ok(()) = copy.try_extend_from_slice(tests.as_slice()) else {
        unreachable!();
    };
    copy
}

/// The condition again, for another step.
pub fn copied(condition: &Condition) -> Condition
    ensures { result ≡ condition.now }
{
    Condition {
        tests: copied_tests(&condition.tests),
        after_abend: condition.after_abend,
    }
}
