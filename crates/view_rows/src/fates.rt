//! What becomes of a step after what came before it: laws that are computed.
ghost use Rattle.view_rows.specs.StepFates.{LooksAtAbends, MeetsNoTest, TellsTheFirst, TestsTheGreatestCode};

/// A code of 4095 is tested.
pub fn tests_the_greatest_code()
    ensures { TestsTheGreatestCode }
{}

/// A fault comes first, and then the tests of the job.
pub fn tells_the_first()
    ensures { TellsTheFirst }
{}

/// EVEN and ONLY look at an ABEND.
pub fn looks_at_abends()
    ensures { LooksAtAbends }
{}

/// Steps that did not run meet no test.
pub fn meets_no_test()
    ensures { MeetsNoTest }
{}
