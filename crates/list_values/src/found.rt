//! What is found in COND, place by place. (GC28-6704, "COND parameter")
ghost use Rattle.std.specs.Prelude.{◌≡◌, ◌||◌, ◌∷◌, ◌++◌, [], ℕ, List, Bool, false, nat_le, nat_lt, length, MatchOption, if◌then◌else◌};
ghost use Rattle.value_core.specs.Reads.{IsRead, Read};
ghost use Rattle.list_values.specs.Conditions.{condition_of_places, is_word};
ghost use Rattle.list_values.specs.Found.{Continues, HasTests, IsWordOf, first_said, is_said};

use crate::coded_test::test_of;
use crate::condition::{CodedTest, CodedTests, Condition};
use jcl_plan::fault::{Cause, StatementFault};
use jcl_plan::plan::AfterAbend;
use operand_core::fault::{earlier, when};
use operand_core::subparameter::{inside, is_wrapped};

/// EVEN or ONLY, which are known on a statement of a step.
pub(crate) fn word_of(steps: bool, text: &[u8]) -> Option<AfterAbend>
    ensures { MatchOption result (is_word steps text.now ≡ false) (IsWordOf steps text.now) }
{
    if !steps {
        return None;
    }
    match text {
        b"EVEN" => Some(AfterAbend::Even),
        b"ONLY" => Some(AfterAbend::Only),
        _ => None,
    }
}

/// The tests that were met, of which eight are kept, and the fault of all that is told.
#[derive(Drop)]
pub(crate) struct FoundTests {
    tests: CodedTests,
    fault: Option<Cause>,
    has_ninth: bool,
}

impl FoundTests {
    fn new() -> FoundTests
        ensures items { result.tests.items ≡ [] }
        ensures fault { result.fault ≡ None }
        ensures ninth { result.has_ninth ≡ false }
    {
        FoundTests {
            tests: CodedTests::new(),
            fault: None,
            has_ninth: false,
        }
    }

    /// Keeps a test, where there are not yet eight.
    fn keep(&mut self, test: CodedTest)
        ensures tests { let had = self.old.tests.items in self.new.tests.items ≡ (if nat_le 8 (length had) then had else had ++ test ∷ []) }
        ensures ninth { self.new.has_ninth ≡ (self.old.has_ninth || nat_le 8 (length self.old.tests.items)) }
        ensures fault { self.new.fault ≡ self.old.fault }
    {
        let CodedTest {
            code,
            operator,
            step,
        } = test;
        if self.tests.is_full() {
            self.has_ninth = true;
        } else {
            self.tests.push(CodedTest {
                code,
                operator,
                step,
            });
        }
    }

    /// Takes the next test, or its fault.
    fn take(&mut self, test: Result<CodedTest, Cause>)
        ensures { (r : Read CodedTest) (left all : List (Read CodedTest)) → IsRead test r → HasTests self.old (r ∷ left) all → HasTests self.new left all }
    {
        match test {
            Ok(test) => self.keep(test),
            Err(fault) => {
                self.fault = earlier(self.fault, Some(fault));
                self.keep(CodedTest::default());
            }
        }
    }
}

/// The first of EVEN and ONLY that was met, and whether another one was.
#[derive(Drop)]
pub(crate) struct FoundWords {
    after_abend: AfterAbend,
    has_second: bool,
}

impl FoundWords {
    /// Takes the next word.
    fn take(&mut self, word: AfterAbend)
        ensures first { self.new.after_abend ≡ first_said self.old.after_abend word }
        ensures second { self.new.has_second ≡ (self.old.has_second || is_said self.old.after_abend) }
    {
        match self.after_abend {
            AfterAbend::Unsaid => self.after_abend = word,
            AfterAbend::Even | AfterAbend::Only => self.has_second = true,
        }
    }
}

/// What was found in places of COND.
#[derive(Drop)]
pub(crate) struct Found {
    tests: FoundTests,
    words: FoundWords,
    /// A place was neither a test nor a word.
    has_other: bool,
}

impl Found {
    /// Nothing yet.
    pub(crate) fn new() -> Found
        ensures { (steps : Bool) (places : List (List ℕ)) → Continues steps result places places }
    {
        Found {
            tests: FoundTests::new(),
            words: FoundWords {
                after_abend: AfterAbend::Unsaid,
                has_second: false,
            },
            has_other: false,
        }
    }

    /// Takes the next place.
    pub(crate) fn take(&mut self, steps: bool, place: &[u8])
        ensures { (left all : List (List ℕ)) → Continues steps self.old (place.now ∷ left) all → Continues steps self.new left all }
    {
        if let Some(word) = word_of(steps, place) {
            self.words.take(word);
        } else if is_wrapped(place) {
            self.tests.take(test_of(steps, inside(place)));
        } else {
            self.has_other = true;
        }
    }

    /// The condition, or of its faults the one that is told, where no place is left.
    pub(crate) fn condition(self) -> Result<Condition, Cause>
        ensures { (steps : Bool) (places : List (List ℕ)) → Continues steps self [] places → IsRead result (condition_of_places steps places) }
    {
        let Found {
            tests: FoundTests {
                tests,
                fault,
                has_ninth,
            },
            words: FoundWords {
                after_abend,
                has_second,
            },
            has_other,
        } = self;
        let other = when(has_other, Cause::P(StatementFault::BadValue));
        let ninth = when(has_ninth, Cause::P(StatementFault::TooManyTests));
        let second = when(has_second, Cause::P(StatementFault::ExcludeOneAnother));
        match earlier(fault, earlier(other, earlier(ninth, second))) {
            None => Ok(Condition { tests, after_abend }),
            Some(fault) => Err(fault),
        }
    }
}
