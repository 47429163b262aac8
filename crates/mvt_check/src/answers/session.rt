//! What admission answers the jobs of a session.
ghost use Rattle.std.specs.Prelude.{◌≡◌, ◌≤◌, ◌∷◌, ◌++◌, [], IfOk, OnOk, drop, length, map, replicate};
ghost use Rattle.play_core.specs.Given.{event_of};
ghost use Rattle.mvt_check.specs.Answers.{first_of};
ghost use Rattle.mvt_check.specs.Reading.{is_read};
ghost use Rattle.play_core.specs.Playing.{IsFound};
ghost use Rattle.session_core.specs.Opening.{IsOpened};
ghost use Rattle.session_core.specs.Sessions.{session_behind};
ghost use Rattle.mvt_check.specs.Telling.{AreAnswered, AreAnsweredFrom, Tells, TellsAll, TellsOwn, deck_if, deck_of, decks_from};

use crate::answers::answer::{Answer, Answers, DeckRead};
use crate::answers::noted::note_answer;
use crate::answers::stays::{Days, Reads, note_day};
use crate::answers::told::told_by;
use chain_store::store::ChainStore;
use config_core::start::Fixed;
use play_core::given::Given;
use play_core::play::added_events;
use run_options::Options;
use sched_core::system::System;
use session_core::SessionFault;
use session_core::open::{Opened, open, start};
use session_input::event::Event;
use session_text::statement::{Says, Statement};
use std::alloc::{AllocError, Global};

/// Whether the event reads a deck.
fn is_read(event: &Event<'_>) -> bool
    ensures { result ≡ is_read event.now }
{
    matches!(event, Event::Read(_))
}

/// Adds the deck of a statement, if its event reads one, whose job got this number.
fn add_deck(
    decks: &mut Vec<DeckRead>,
    statement: usize,
    event: &Event<'_>,
    job: Option<u16>,
) -> Result<(), AllocError>
    ensures { OnOk result (decks.new.items ≡ decks.old.items ++ deck_if (is_read event.now) statement job) }
{
    if !is_read(event) {
        return Ok(());
    }
    decks.push(DeckRead { statement, job })?;
    Ok(())
}

/// Adds the deck of a statement that is not reached, if it has one.
fn add_unread(decks: &mut Vec<DeckRead>, at: usize, says: &Says<'_>) -> Result<(), AllocError>
    ensures { OnOk result (decks.new.items ≡ decks.old.items ++ deck_of at says.now []) }
{
    match says {
        Says::Events(event, _) => add_deck(decks, at, event, None),
        _ => Ok(()),
    }
}

/// Adds the decks of the statements from this one on, none of which is reached.
fn add_all_unread(
    decks: &mut Vec<DeckRead>,
    statements: &[Statement<'_>],
    from: usize,
) -> Result<(), AllocError>
    requires { from ≤ length statements.now }
    ensures { OnOk result (decks.new.items ≡ decks.old.items ++ decks_from from (drop from statements.now) []) }
{
    for at in from..statements.len() {
        add_unread(decks, at, &statements[at].says)?;
    }
    Ok(())
}

/// The first of two numbers, where there is one.
fn first_of(one: Option<u16>, later: Option<u16>) -> Option<u16>
    ensures { result ≡ first_of one later }
{
    match one {
        Some(number) => Some(number),
        None => later,
    }
}

/// Gives an event to the machine, notes what it answers, and tells the number that a job gets.
fn apply(
    alloc: Global,
    event: &Event<'_>,
    reads: Reads<'_, '_>,
    system: &mut System<'_, ChainStore>,
    by_job: &mut Vec<Option<Answer>>,
    days: &mut Days,
) -> Result<Option<u16>, AllocError>
    ensures { IfOk result (Tells system.old by_job.old.items (event.now ∷ []) system.new by_job.new.items) }
{
    let lines = system.apply_shown(event)?;
    let told = told_by(alloc, lines)?;
    let answered = told.answered();
    note_answer(by_job, told.answer, told.path)?;
    note_day(alloc, days, &*system, reads, answered, by_job.as_slice())?;
    Ok(told.number)
}

/// Gives an event so many times, and tells the first number that a job gets.
fn repeat(
    alloc: Global,
    event: &Event<'_>,
    times: u16,
    reads: Reads<'_, '_>,
    system: &mut System<'_, ChainStore>,
    by_job: &mut Vec<Option<Answer>>,
    days: &mut Days,
) -> Result<Option<u16>, AllocError>
    ensures { IfOk result (Tells system.old by_job.old.items (replicate times event.now) system.new by_job.new.items) }
{
    let mut number = None;
    for done in 0..times {
        let _ = done;
        let next = apply(alloc, event, reads, system, by_job, days)?;
        number = first_of(number, next);
    }
    Ok(number)
}

/// Gives the events of the statements from this one on, up to the first statement that is none.
fn run_own(
    alloc: Global,
    statements: &[Statement<'_>],
    from: usize,
    fixed: &Fixed,
    system: &mut System<'_, ChainStore>,
    decks: &mut Vec<DeckRead>,
    by_job: &mut Vec<Option<Answer>>,
    days: &mut Days,
) -> Result<(), AllocError>
    requires within { from ≤ length statements.now }
    requires empty { decks.old.items ≡ [] }
    ensures { OnOk result (TellsOwn statements.now from system.old system.new decks.new.items by_job.old.items by_job.new.items) }
{
    for at in from..statements.len() {
        match &statements[at].says {
            Says::Events(event, times) => {
                let reads = Reads {
                    statements,
                    decks: decks.as_slice(),
                    fixed,
                };
                let job = repeat(alloc, event, *times, reads, system, by_job, days)?;
                add_deck(decks, at, event, job)?;
            }
            Says::Config { .. } => return add_all_unread(decks, statements, at),
            Says::Refused(_) => return add_all_unread(decks, statements, at),
        }
    }
    Ok(())
}

/// Gives the events that are added.
fn run_added(
    alloc: Global,
    given: &[Given],
    reads: Reads<'_, '_>,
    system: &mut System<'_, ChainStore>,
    by_job: &mut Vec<Option<Answer>>,
    days: &mut Days,
) -> Result<Option<u16>, AllocError>
    ensures { IfOk result (Tells system.old by_job.old.items (map event_of given.now) system.new by_job.new.items) }
{
    let mut number = None;
    for next in given {
        let told = apply(alloc, &next.event(), reads, system, by_job, days)?;
        number = first_of(number, told);
    }
    Ok(number)
}

/// Gives a machine the events of the statements from this one on, and then those that are added.
fn run_all(
    alloc: Global,
    statements: &[Statement<'_>],
    from: usize,
    given: &[Given],
    fixed: &Fixed,
    system: &mut System<'_, ChainStore>,
    answers: &mut Answers,
) -> Result<(), AllocError>
    requires within { from ≤ length statements.now }
    requires empty { answers.old.decks.items ≡ [] }
    ensures { OnOk result (TellsAll statements.now from given.now system.old system.new answers.old.by_job.items answers.new) }
{
    run_own(
        alloc,
        statements,
        from,
        fixed,
        system,
        &mut answers.decks,
        &mut answers.by_job,
        &mut answers.days,
    )?;
    let reads = Reads {
        statements,
        decks: answers.decks.as_slice(),
        fixed,
    };
    let (by_job, days) = (&mut answers.by_job, &mut answers.days);
    run_added(alloc, given, reads, system, by_job, days)?;
    Ok(())
}

/// Runs a session that is opened, and then the events that are added.
fn run_opened(
    alloc: Global,
    statements: &[Statement<'_>],
    options: Options,
    opened: Opened,
    given: &[Given],
    answers: &mut Answers,
) -> Result<(), AllocError>
    requires opened { IsOpened statements.now opened }
    requires given { IsFound options (session_behind [] statements.now) given.now }
    requires empty { (answers.old.decks.items ≡ []) × (answers.old.by_job.items ≡ []) }
    ensures { OnOk result (AreAnsweredFrom options statements.now answers.new) }
{
    let Opened {
        store,
        fixed,
        queue,
        from,
        late: _,
    } = opened;
    let explaining = Options {
        explains: true,
        ..options
    };
    let mut system = start(alloc, store, queue, &fixed, explaining)?;
    let ran = run_all(alloc, statements, from, given, &fixed, &mut system, answers);
    system.close();
    ran
}

/// What became of the decks of a session: as the session's events leave it, and those by which `mvt-play` plays it on. A session whose configuration has a
/// fault reads none; one with a later fault is not played on.
pub fn answers_of(
    alloc: Global,
    statements: &[Statement<'_>],
    options: Options,
) -> Result<Answers, AllocError>
    ensures { IfOk result (AreAnswered options statements.now) }
{
    let mut answers = Answers {
        decks: Vec::new(alloc),
        by_job: Vec::new(alloc),
        days: Days::new(alloc),
    };
    let given = added_events(alloc, statements, options)?;
    match open(alloc, statements) {
        Ok(opened) => {
            let added = given.as_slice();
            run_opened(alloc, statements, options, opened, added, &mut answers)?;
            Ok(answers)
        }
        Err(SessionFault::Stopped(_, _)) => Ok(answers),
        Err(_) => Err(AllocError),
    }
}
