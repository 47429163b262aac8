//! The terms on which a job runs: its places, its answers, how its steps end, and its date.
use jcl_meaning::places::Places;
use jcl_meaning::solo::SoloAnswers;
use jcl_meaning::state::Place;
use jcl_plan::day::Day;
use jcl_plan::outcome::{Abend, Code, Outcome};
use plain::listed::Listed;
use row_table::desk::Line;
use row_table::names::serial;
use row_table::words::Words;
use std::alloc::{AllocError, Global};

/// For how many days the set of a DD is to be kept.
#[derive(Clone, Copy)]
pub(crate) struct Period {
    pub(crate) step: usize,
    pub(crate) dd: usize,
    pub(crate) days: u16,
}

/// What a job is given.
#[derive(Drop)]
pub(crate) struct Terms {
    pub(crate) places: Places,
    pub(crate) answers: SoloAnswers,
    /// How the steps end, where that is given.
    pub(crate) path: Option<Listed<Outcome>>,
    pub(crate) periods: Listed<Period>,
    pub(crate) date: Day,
}

#[derive(Clone, Copy)]
pub(crate) enum TermsVerb {
    Place,
    Grant,
    Cancel,
    Date,
    Retpd,
    Path,
}

const OUTCOMES: [(&str, Outcome); 3] = [
    ("S222", Outcome::Abend(Abend::S222)),
    ("B", Outcome::Bypassed),
    ("F", Outcome::Flushed),
];

pub(crate) fn no_terms(alloc: Global, date: Day) -> Terms {
    Terms {
        places: Places::empty(alloc),
        answers: SoloAnswers {
            grants: Listed::empty(alloc),
            cancels: Listed::empty(alloc),
        },
        path: None,
        periods: Listed::empty(alloc),
        date,
    }
}

/// One more outcome.
fn push_outcome(path: &mut Listed<Outcome>, outcome: Outcome) -> Result<(), AllocError> {
    match outcome {
        Outcome::Code(code) => path.push(Outcome::Code(code)),
        Outcome::Abend(abend) => path.push(Outcome::Abend(abend)),
        Outcome::Bypassed => path.push(Outcome::Bypassed),
        Outcome::Flushed => path.push(Outcome::Flushed),
    }
}

/// Takes the next word as how a step ends: as `C0004` or `U0000` by itself; `S222` is a step that is cancelled, `B` one that is bypassed, and
/// `F` one that is flushed.
fn outcome(words: &mut Words<'_>) -> Option<Outcome> {
    let mut ahead = *words;
    if let Some(outcome) = ahead.one_of(&OUTCOMES) {
        *words = ahead;
        return Some(outcome);
    }
    let word = words.next_word();
    let (letter, digits) = words.some(word.split_first())?;
    let code = words.some(Code::new(Words::new(digits).short()))?;
    match *letter {
        b'C' => Some(Outcome::Code(code)),
        b'U' => Some(Outcome::Abend(Abend::User(code))),
        _ => words.some(None),
    }
}

impl Terms {
    fn add_place(&mut self, line: &mut Line<'_>) {
        let step = usize::from(line.words.short());
        let dd = usize::from(line.words.short());
        if let Some(serial) = serial(&mut line.words) {
            line.told.over(self.places.push(Place { step, dd, serial }));
        }
    }

    fn add_grant(&mut self, line: &mut Line<'_>) {
        if let Some(granted) = line.words.one_of(&[("YES", true), ("NO", false)]) {
            line.told.over(self.answers.grants.push(granted));
        }
    }

    fn set_date(&mut self, words: &mut Words<'_>) {
        let date = Day::new(words.number());
        if let Some(date) = words.some(date) {
            self.date = date;
        }
    }

    fn add_period(&mut self, line: &mut Line<'_>) {
        let step = usize::from(line.words.short());
        let dd = usize::from(line.words.short());
        let days = line.words.short();
        line.told.over(self.periods.push(Period { step, dd, days }));
    }

    /// Takes all further words as how the steps end.
    fn set_path(&mut self, alloc: Global, line: &mut Line<'_>) {
        let mut path = Listed::empty(alloc);
        for _ in 0..255u8 {
            if line.words.is_empty() {
                break;
            }
            if let Some(outcome) = outcome(&mut line.words) {
                line.told.over(push_outcome(&mut path, outcome));
            }
        }
        self.path = Some(path);
    }

    /// Takes a line of what a job is given.
    pub(crate) fn take(&mut self, alloc: Global, verb: TermsVerb, line: &mut Line<'_>) {
        match verb {
            TermsVerb::Place => self.add_place(line),
            TermsVerb::Grant => self.add_grant(line),
            TermsVerb::Cancel => {
                let lines = line.words.some_number();
                line.told.over(self.answers.cancels.push(lines));
            }
            TermsVerb::Date => self.set_date(&mut line.words),
            TermsVerb::Retpd => self.add_period(line),
            TermsVerb::Path => self.set_path(alloc, line),
        }
    }
}
