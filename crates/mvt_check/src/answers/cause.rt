//! What was done last with a data set, on the way to a fault.
use crate::answers::names::{Shown, key_at, push_count, push_date, push_subject, set_at};
use jcl_plan::day::Day;
use jcl_plan::entry::JobLine;
use jcl_plan::fault::Fault;
use jcl_plan::plan::{Expiry, JobPlan};
use jcl_plan::words::{DispWord, TakeWord};
use jname_core::key::Key;
use jname_core::serial::Serial;
use std::alloc::{AllocError, Global};
use std::collections::BTreeMap;

/// What is done with a data set.
#[derive(Clone, Copy, PartialEq, Eq)]
pub(crate) enum Deed {
    Makes,
    Receives,
    Deletes,
    Keeps,
    KeepsUnexpired,
    Passes,
    Catalogs,
    Uncatalogs,
}

/// Who does it: the step of this number, or the end of the job.
#[derive(Clone, Copy, PartialEq, Eq)]
enum Doer {
    Step(usize),
    JobEnd,
}

/// What lines tell of the data set of a DD, whose step and own number count from 1.
#[derive(Clone, Copy)]
struct Told {
    step: usize,
    dd: usize,
    doer: Doer,
    /// Nothing, where the set was found alone.
    deed: Option<Deed>,
    /// The volume that a line of taking tells.
    volume: Option<Serial>,
}

/// Until when a data set is not to be deleted.
#[derive(Clone, Copy)]
pub(crate) enum Until {
    /// No DD on the way tells it.
    Untold,
    /// Up to this day, counted from 1900/001 as 0.
    Day(u32),
    /// So many days from the date of the job that made it.
    Days(u16),
}

/// What was done last with a data set, and on which volume, where that is known.
#[derive(Clone, Copy)]
pub(crate) struct Done {
    doer: Doer,
    pub(crate) deed: Deed,
    pub(crate) volume: Option<Serial>,
    /// Until when the set is kept, as the DD says that made it, where it was made on the way.
    pub(crate) until: Until,
}

/// What taking a DD did with its data set, and on which volume.
fn of_take(word: &TakeWord) -> (Option<Deed>, Option<Serial>) {
    match word {
        TakeWord::Made(serial) => (Some(Deed::Makes), Some(*serial)),
        TakeWord::Received(serial) => (Some(Deed::Receives), Some(*serial)),
        TakeWord::Found(serial) => (None, Some(*serial)),
        TakeWord::Sysout(_) | TakeWord::Dummy | TakeWord::Cards(_) => (None, None),
    }
}

/// What a disposition did with a data set, unless it failed.
fn of_disp(word: DispWord) -> Option<Deed> {
    match word {
        DispWord::Kept => Some(Deed::Keeps),
        DispWord::Deleted => Some(Deed::Deletes),
        DispWord::Passed => Some(Deed::Passes),
        DispWord::Cataloged => Some(Deed::Catalogs),
        DispWord::Uncataloged => Some(Deed::Uncatalogs),
        DispWord::Unexpired => Some(Deed::KeepsUnexpired),
        DispWord::F3 | DispWord::F4 | DispWord::F8 | DispWord::Spooled(_) | DispWord::Nothing => {
            None
        }
    }
}

/// What a line of this step tells, if it takes a data set or disposes of one.
fn told_by(line: &JobLine, running: usize) -> Option<Told> {
    match line {
        JobLine::Take { dd, name: _, word } => {
            let (deed, volume) = of_take(word);
            Some(Told {
                step: running,
                dd: *dd,
                doer: Doer::Step(running),
                deed,
                volume,
            })
        }
        JobLine::Disp { dd, name: _, word } => Some(Told {
            step: running,
            dd: *dd,
            doer: Doer::Step(running),
            deed: of_disp(*word),
            volume: None,
        }),
        JobLine::Left {
            step,
            dd,
            name: _,
            word,
        } => Some(Told {
            step: *step,
            dd: *dd,
            doer: Doer::JobEnd,
            deed: of_disp(*word),
            volume: None,
        }),
        _ => None,
    }
}

/// The volume on which these lines last took the set of a DD.
pub(crate) fn volume_of(lines: &[JobLine], step: usize, dd: usize) -> Option<Serial> {
    let mut running = 0;
    let mut found = None;
    for line in lines {
        if let JobLine::Step { step, .. } = line {
            running = *step;
        }
        if let Some(told) = told_by(line, running) {
            if told.step == step && told.dd == dd && told.volume.is_some() {
                found = told.volume;
            }
        }
    }
    found
}

/// Whether it is told of the data set that has this name in the plan.
fn is_of(told: &Told, plan: &JobPlan, key: &Key) -> bool {
    match key_at(plan, told.step, told.dd) {
        Some(other) => *other == *key,
        None => false,
    }
}

/// Whether it may be on this volume; each may where none is asked for.
fn is_on(volume: &Option<Serial>, wanted: &Option<Serial>) -> bool {
    match (volume, wanted) {
        (Some(volume), Some(wanted)) => *volume == *wanted,
        _ => true,
    }
}

/// Whether a line tells that the set of a DD was made.
fn is_made(told: &Told) -> bool {
    match told.deed {
        Some(Deed::Makes) => true,
        _ => false,
    }
}

/// Until when its set is kept, as the DD of a line says.
fn coded_of(plan: &JobPlan, told: &Told) -> Until {
    match set_at(plan, told.step, told.dd) {
        Some(set) => match set.expiry {
            Expiry::NotCoded => Until::Untold,
            Expiry::Day(day) => Until::Day(day.number()),
            Expiry::DaysFromToday(days) => Until::Days(days),
        },
        None => Until::Untold,
    }
}

/// A DD, by its step and its own number.
#[derive(Clone, Copy, PartialEq, Eq, PartialOrd, Ord)]
struct DdPlace {
    step: usize,
    dd: usize,
}

/// What is known behind some lines of the data set that has this name in the plan: on which volumes DDs took it, until when it is kept as the DD says
/// that made it last, and what was done last with it, on this volume where one is asked for.
#[derive(Drop)]
struct History<'a> {
    plan: &'a JobPlan,
    key: &'a Key,
    wanted: Option<Serial>,
    volumes: BTreeMap<DdPlace, Serial>,
    until: Until,
    last: Option<Done>,
}

impl<'a> History<'a> {
    /// The volume on which the DD of a line took the set, where that is known by then.
    fn volume_by(&self, told: &Told) -> Option<Serial> {
        match told.volume {
            Some(volume) => Some(volume),
            None => self.volumes.get(&place_of(told)).copied(),
        }
    }

    /// Adds what a line does with the set, on this volume.
    fn add_deed(&mut self, told: &Told, volume: Option<Serial>) {
        if is_made(told) {
            self.until = coded_of(self.plan, told);
        }
        if !is_on(&volume, &self.wanted) {
            return;
        }
        if let Some(deed) = told.deed {
            self.last = Some(Done {
                doer: told.doer,
                deed,
                volume,
                until: Until::Untold,
            });
        }
    }

    /// Adds what a line tells, if it is of the set.
    fn add(&mut self, told: &Told) -> Result<(), AllocError> {
        if !is_of(told, self.plan, self.key) {
            return Ok(());
        }
        let volume = self.volume_by(told);
        if let Some(volume) = told.volume {
            self.volumes.insert(place_of(told), volume)?;
        }
        self.add_deed(told, volume);
        Ok(())
    }

    /// What was done last.
    fn done(&self) -> Option<Done> {
        match self.last {
            Some(done) => Some(Done {
                until: self.until,
                ..done
            }),
            None => None,
        }
    }
}

/// The DD of a line.
fn place_of(told: &Told) -> DdPlace {
    DdPlace {
        step: told.step,
        dd: told.dd,
    }
}

/// What these lines do last with the data set that has this name in the plan, on this volume where one is asked for. It is found in one walk over them.
pub(crate) fn last_done(
    alloc: Global,
    plan: &JobPlan,
    lines: &[JobLine],
    key: &Key,
    wanted: &Option<Serial>,
) -> Result<Option<Done>, AllocError> {
    let mut history = History {
        plan,
        key,
        wanted: *wanted,
        volumes: BTreeMap::new(alloc),
        until: Until::Untold,
        last: None,
    };
    let mut running = 0;
    for line in lines {
        if let JobLine::Step { step, .. } = line {
            running = *step;
        }
        if let Some(told) = told_by(line, running) {
            history.add(&told)?;
        }
    }
    Ok(history.done())
}

/// Whether a deed explains a fault: what is missing is not so because it was kept.
pub(crate) fn explains(deed: Deed, fault: Fault) -> bool {
    match fault {
        Fault::F1 | Fault::F4 | Fault::F5 => deed == Deed::Deletes || deed == Deed::Uncatalogs,
        Fault::F8 => deed == Deed::Deletes,
        Fault::F2 => deed != Deed::Deletes && deed != Deed::Uncatalogs,
        Fault::F3 => deed == Deed::Catalogs,
        Fault::F6 | Fault::F7 | Fault::F9 | Fault::F10 => false,
    }
}

fn words_of(deed: Deed) -> &'static [u8] {
    match deed {
        Deed::Makes => b" makes it",
        Deed::Receives => b" receives it",
        Deed::Deletes => b" deletes it",
        Deed::Keeps => b" keeps it",
        Deed::KeepsUnexpired => b" keeps it, since it ",
        Deed::Passes => b" passes it",
        Deed::Catalogs => b" catalogs it",
        Deed::Uncatalogs => b" uncatalogs it",
    }
}

/// On which day a set expires. Those past the last that a date has are not written out.
fn push_day(text: &mut Vec<u8>, day: u32) -> Result<(), AllocError> {
    match Day::new(day) {
        Some(day) => {
            text.extend_from_slice(b"expires on ")?;
            push_date(text, day)
        }
        None => text.extend_from_slice(b"expires after 2155"),
    }
}

/// When a set expires that was kept: as the deck says it, or on the day that the machine had for it.
fn push_until(text: &mut Vec<u8>, until: Until, day: Option<u32>) -> Result<(), AllocError> {
    match until {
        Until::Untold => match day {
            Some(day) => push_day(text, day),
            None => text.extend_from_slice(b"has not expired"),
        },
        Until::Day(day) => push_day(text, day),
        Until::Days(days) => {
            text.extend_from_slice(b"expires ")?;
            push_count(text, usize::from(days), b"day")?;
            text.extend_from_slice(b" after the job's date")
        }
    }
}

/// That the run before left a data set which has not expired, where that is what was done.
pub(crate) fn push_left(
    text: &mut Vec<u8>,
    done: &Done,
    day: Option<u32>,
) -> Result<(), AllocError> {
    match done.deed {
        Deed::KeepsUnexpired => {
            text.extend_from_slice(b"; the run before keeps it, since it ")?;
            push_until(text, done.until, day)
        }
        _ => Ok(()),
    }
}

/// What was done with a data set, and by whom.
pub(crate) fn push_done(
    text: &mut Vec<u8>,
    shown: Shown<'_, '_>,
    done: &Done,
    day: Option<u32>,
) -> Result<(), AllocError> {
    text.extend_from_slice(b"; ")?;
    match done.doer {
        Doer::Step(number) => push_subject(text, shown, number)?,
        Doer::JobEnd => text.extend_from_slice(b"the job's end")?,
    }
    text.extend_from_slice(words_of(done.deed))?;
    match done.deed {
        Deed::KeepsUnexpired => push_until(text, done.until, day),
        _ => Ok(()),
    }
}
