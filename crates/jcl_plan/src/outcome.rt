//! How a step ends.
ghost use Rattle.std.specs.Prelude.{◌≡◌, ◌≤◌, ◌<◌, MatchOption};

use std::marker::Model;

/// The greatest completion code, and the greatest code of a test. (COND parameter)
pub const GREATEST_CODE: u16 = 4095;

/// A completion code, or the code of a test: 0 to 4095. (COND parameter)
#[derive(Clone, Copy, PartialEq, Eq, PartialOrd, Ord)]
pub struct Code {
    value: u16,
}

impl Model for Code {
    ghost use Rattle.std.specs.Prelude.{ℕ, ◌≤◌};

    ghost Value = { ℕ };

    ghost view = { λ c. c.value };

    ghost invariant = { λ c. c.value ≤ 4095 };

    ghost inverse = { λ n. record { value = n } };
}

impl Code {
    /// Code 0.
    pub fn zero() -> Code
        ensures { result ≡ 0 }
    {
        Code { value: 0 }
    }

    /// The code of this number, or none above 4095.
    pub fn new(number: u16) -> Option<Code>
        ensures { MatchOption result (4095 < number) (λ c. (c ≡ number) × (number ≤ 4095)) }
    {
        if number <= GREATEST_CODE {
            Some(Code { value: number })
        } else {
            None
        }
    }

    pub fn number(&self) -> u16
        ensures value { result ≡ self.now }
        ensures range { result ≤ 4095 }
    {
        self.value
    }
}

/// What ends a step abnormally, by its completion code.
#[derive(Clone, Copy, PartialEq, Eq)]
pub enum Abend {
    /// The job was cancelled.
    S222,
    /// The program was not found.
    S806,
    /// A set could not be given more space.
    SB37,
    /// A set was full and asked for no more space.
    SD37,
    /// A request names no DD of the step.
    SFF0,
    /// A record may not be put to the DD.
    SFF1,
    /// The program ended itself.
    User(Code),
}

/// How a step came out. (COND parameter)
#[derive(Clone, Copy, PartialEq, Eq)]
pub enum Outcome {
    Code(Code),
    Abend(Abend),
    Bypassed,
    Flushed,
}

/// What becomes of a step. (COND parameter)
#[derive(Clone, Copy, PartialEq, Eq)]
pub enum Fate {
    Run,
    Bypassed,
    Flushed,
}
