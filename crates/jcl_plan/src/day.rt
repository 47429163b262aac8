//! Days.
ghost use Rattle.std.specs.Prelude.{◌≡◌, ◌≤◌, ◌<◌, MatchOption};

use std::marker::Model;

/// A day from 1900/001, which is 0, to 2155/365, which is 93,501.
#[derive(Clone, Copy, PartialEq, Eq, PartialOrd, Ord)]
pub struct Day {
    number: u32,
}

impl Model for Day {
    ghost use Rattle.std.specs.Prelude.{ℕ, ◌≤◌};

    ghost Value = { ℕ };

    ghost view = { λ d. d.number };

    ghost invariant = { λ d. d.number ≤ 93501 };

    ghost inverse = { λ n. record { number = n } };
}

impl Day {
    /// The day of this number, or none above 93,501.
    pub fn new(number: u32) -> Option<Day>
        ensures { MatchOption result (93501 < number) (λ d. (d ≡ number) × (number ≤ 93501)) }
    {
        if number <= 93_501 {
            Some(Day { number })
        } else {
            None
        }
    }

    pub fn number(&self) -> u32
        ensures value { result ≡ self.now }
        ensures range { result ≤ 93501 }
    {
        self.number
    }
}
