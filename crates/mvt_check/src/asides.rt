//! What is told of a deck beside its refusals, card by card: what its job asks for in vain, and what admission answers it.
ghost use Rattle.std.specs.Prelude.{◌≡◌, ◌^◌, ◌≤◌, IfOk, OnErr, OnOk, option_map, Some};
ghost use Rattle.mvt_check.specs.Cards.{BeginsWith, OneAnswers, answer_to, card_told, head_of, line_at, stood_of, IsPutAmong};

use crate::answers::answer::{Answer, Answers, DeckRead};
use crate::answers::words::push_answer;
use crate::known::Known;
use crate::trials::deck::deck_of;
use crate::trials::run::{Played, Trial, Tried, run_trial};
use crate::trials::same::is_idle_of;
use crate::trials::words::trial_words;
use check_core::warnings::push_warning;
use config_core::start::Fixed;
use deck_places::judge::{Judged, judge};
use deck_places::stands::{Stands, StepOrigin};
use jcl_meaning::program::is_iefbr14;
use jcl_plan::plan::JobPlan;
use jname_core::name8::Name8;
use job_warnings::warned::{Configured, JobWarning, warnings_of};
use plain::lent::Lent;
use plain::text::Text;
use std::alloc::{AllocError, Global};

/// Whether an initiator selects from the class.
fn is_taken(fixed: &Fixed, class: u8) -> bool {
    fixed
        .initiators
        .as_slice()
        .iter()
        .any(|initiator| initiator.classes.as_slice().contains(&class))
}

/// Whether an initiator that selects from the class has a turn behind the statement at this place.
fn has_turn_behind(known: Known<'_, '_, '_, '_, '_>, class: u8, place: usize) -> bool {
    known.fixed.initiators.as_slice().iter().any(|initiator| {
        initiator.classes.as_slice().contains(&class)
            && known.site.has_turn_behind(initiator.number, place)
    })
}

/// A deck that denotes a job: the line of the session on which its first card stands, its lines, the job, and where its steps come from.
#[derive(Clone, Copy)]
pub(crate) struct Taken<'a, 'b> {
    pub(crate) first: usize,
    pub(crate) lines: &'a [Lent<'b>],
    pub(crate) plan: &'a JobPlan,
    pub(crate) origins: &'a [StepOrigin],
}

/// What is told of a job at a card of its deck, which counts from 0.
#[derive(Drop)]
pub(crate) struct Aside {
    pub(crate) card: usize,
    pub(crate) text: Vec<u8>,
}

/// Puts it behind what is told at this card or before it.
fn put_aside(asides: &mut Vec<Aside>, aside: Aside) -> Result<(), AllocError>
    ensures { OnOk result (IsPutAmong aside asides.new.items) }
{
    let behind = asides
        .iter()
        .take_while(|other| other.card <= aside.card)
        .count();
    asides.insert(behind.min(asides.len()), aside)?;
    Ok(())
}

/// A warning at this card of a deck whose first card stands on this line.
fn warning_at(alloc: Global, first: usize, card: usize, words: &[u8]) -> Result<Aside, AllocError> {
    let mut text = Vec::new(alloc);
    push_warning(&mut text, first.saturating_add(card), words)?;
    Ok(Aside { card, text })
}

/// Warns of a class that no initiator takes, and of one whose initiators have no turn behind the deck, though others have.
fn warn_of_class(
    alloc: Global,
    known: Known<'_, '_, '_, '_, '_>,
    deck: Taken<'_, '_>,
    statement: Option<usize>,
    asides: &mut Vec<Aside>,
) -> Result<(), AllocError> {
    let class = deck.plan.class;
    if !is_taken(known.fixed, class) {
        let mut words = *b"no initiator takes class ?: the job waits for one";
        words[25] = class;
        return put_aside(asides, warning_at(alloc, deck.first, 0, words.as_slice())?);
    }
    let Some(place) = statement else {
        return Ok(());
    };
    if known.site.has_turns() && !has_turn_behind(known, class, place) {
        let mut words =
            *b"no ./ TURN after the deck is of an initiator that takes class ?: mvt does not start the job";
        words[62] = class;
        put_aside(asides, warning_at(alloc, deck.first, 0, words.as_slice())?)?;
    }
    Ok(())
}

/// What is said of a program that is not there.
fn no_program(alloc: Global, program: &Name8) -> Result<Vec<u8>, AllocError> {
    let mut words = Vec::from_slice(alloc, b"there is no program ")?;
    words.extend_from_slice(program.as_slice())?;
    words.extend_from_slice(b": its step ends with ABEND S806")?;
    Ok(words)
}

/// Whether a program is not there.
fn is_missing(fixed: &Fixed, program: &Name8) -> bool {
    !is_iefbr14(program) && !fixed.programs.has(program)
}

/// Warns of each program that is not there, at the EXEC statement that runs it.
fn warn_of_programs(
    alloc: Global,
    fixed: &Fixed,
    deck: Taken<'_, '_>,
    stands: &Stands<'_>,
    asides: &mut Vec<Aside>,
) -> Result<(), AllocError> {
    for (n, step) in deck.plan.steps.as_slice().iter().enumerate() {
        if is_missing(fixed, &step.program) {
            let words = no_program(alloc, &step.program)?;
            let card = stands.step_card(n.saturating_add(1)).unwrap_or(0);
            put_aside(
                asides,
                warning_at(alloc, deck.first, card, words.as_slice())?,
            )?;
        }
    }
    Ok(())
}

/// Warns of what a job asks for that is never given, or that is rarely meant.
fn warn_of_job(
    alloc: Global,
    first: usize,
    stands: &Stands<'_>,
    warnings: Vec<JobWarning>,
    asides: &mut Vec<Aside>,
) -> Result<(), AllocError> {
    for warning in warnings {
        let card = match warning.dd {
            Some(dd) => stands.dd_card(alloc, warning.step, dd)?,
            None => stands.step_card(warning.step),
        };
        let words = warning.words.as_slice();
        put_aside(asides, warning_at(alloc, first, card.unwrap_or(0), words)?)?;
    }
    Ok(())
}

/// Warns of what stands at cards of steps and DDs. Where these stand is looked for if there is something to warn of.
fn warn_at_cards(
    alloc: Global,
    known: Known<'_, '_, '_, '_, '_>,
    deck: Taken<'_, '_>,
    asides: &mut Vec<Aside>,
) -> Result<(), AllocError> {
    let configured = Configured {
        programs: &known.fixed.programs,
        units: known.fixed.units.volumes(),
        rooms: known.site.rooms.as_slice(),
    };
    let warnings = warnings_of(alloc, deck.plan, configured)?;
    let steps = deck.plan.steps.as_slice();
    if warnings.is_empty()
        && !steps
            .iter()
            .any(|step| is_missing(known.fixed, &step.program))
    {
        return Ok(());
    }
    let stands = Stands::of(alloc, deck.lines, deck.origins)?;
    warn_of_programs(alloc, known.fixed, deck, &stands, asides)?;
    warn_of_job(alloc, deck.first, &stands, warnings, asides)
}

/// What admission answers the job of a deck, if it came so far.
fn answer_of<'a>(answers: &'a Answers, deck: &DeckRead) -> Option<&'a Answer>
    ensures { option_map (λ a. a.now) result ≡ answer_to answers.now deck.now.job }
{
    match deck.job {
        Some(job) => answers.of_job(job),
        None => None,
    }
}

/// The card of which an answer tells, if it tells of one: that of the DD which may fail, or of the step that has too many paths.
fn card_of(
    alloc: Global,
    deck: Taken<'_, '_>,
    answer: Option<&Answer>,
) -> Result<Option<usize>, AllocError>
    ensures { IfOk result (λ card. card ≡ card_told (stood_of deck.entry) (option_map (λ a. a.now) answer.entry)) }
{
    match answer {
        Some(Answer::Risk { step, dd, .. }) => {
            let stands = Stands::of(alloc, deck.lines, deck.origins)?;
            stands.dd_card(alloc, *step, *dd)
        }
        Some(Answer::TooMany(step)) => {
            let stands = Stands::of(alloc, deck.lines, deck.origins)?;
            Ok(stands.step_card(*step))
        }
        _ => Ok(None),
    }
}

/// The line of a card, of a deck whose first card stands on this line.
fn line_at(first: usize, card: Option<usize>) -> Result<usize, AllocError>
    ensures ok { IfOk result (λ line. line ≡ line_at first card) }
    ensures err { OnErr result (2 ^ 64 ≤ line_at first card) }
{
    match first.checked_add(card.unwrap_or(0)) {
        Some(line) => Ok(line),
        None => Err(AllocError),
    }
}

/// A card of a deck, where there is one.
fn shown_of<'a>(lines: &'a [Lent<'_>], card: Option<usize>) -> Option<&'a [u8]> {
    match lines.get(card?) {
        Some(line) => Some(line.as_slice()),
        None => None,
    }
}

/// Whether these cards denote the job with IEFBR14 in place of its programs.
fn are_for(
    alloc: Global,
    known: Known<'_, '_, '_, '_, '_>,
    plan: &JobPlan,
    cards: &[Text],
) -> Result<bool, AllocError> {
    let mut lines = Vec::new(alloc);
    for card in cards {
        lines.push(Lent::new(card.as_slice()))?;
    }
    let units = known.fixed.units.names();
    match judge(alloc, units, &known.fixed.library, lines.as_slice())? {
        Judged::Taken(own, _) => Ok(is_idle_of(plan, &own)),
        Judged::Refused(_, _) => Ok(false),
    }
}

/// What comes of the job of a deck where each of its steps ends with code 0, if it is tried.
fn tried_by(
    alloc: Global,
    known: Known<'_, '_, '_, '_, '_>,
    plan: &JobPlan,
    read: &DeckRead,
) -> Result<Option<Tried>, AllocError> {
    let Some(job) = read.job else {
        return Ok(None);
    };
    if !known.site.tries(job) {
        return Ok(None);
    }
    let cards = deck_of(alloc, plan, known.site.units.as_slice())?;
    if !are_for(alloc, known, plan, cards.as_slice())? {
        return Ok(None);
    }
    let again = matches!(answer_of(known.answers, read), Some(Answer::Assured { .. }));
    let tried = run_trial(
        alloc,
        Played {
            statements: known.statements,
            options: known.site.options,
            given: known.site.given.as_slice(),
        },
        Trial {
            statement: read.statement,
            job,
            cards: cards.as_slice(),
            plan,
            again,
        },
    )?;
    Ok(tried)
}

/// What admission answers the job of a deck, at the card of which it tells, or at the first.
fn answer_at(
    alloc: Global,
    known: Known<'_, '_, '_, '_, '_>,
    deck: Taken<'_, '_>,
    read: &DeckRead,
) -> Result<Aside, AllocError>
    ensures { IfOk result (λ aside. BeginsWith (head_of deck.entry known.entry.answers.now read.now) aside.text.items) }
{
    let answer = answer_of(known.answers, read);
    let card = card_of(alloc, deck, answer)?;
    let line = line_at(deck.first, card)?;
    let mut text = Vec::new(alloc);
    let shown = shown_of(deck.lines, card);
    let day = known.answers.days.of_job(read.job);
    push_answer(&mut text, line, deck.plan, read.job, answer, day, shown)?;
    let tried = tried_by(alloc, known, deck.plan, read)?;
    let said = trial_words(alloc, deck.plan, answer, tried.as_ref())?;
    text.extend_from_slice(said.as_slice())?;
    Ok(Aside {
        card: card.unwrap_or(0),
        text,
    })
}

/// Puts what admission answers the job of a deck that is read among what is told of it.
fn put_read(
    alloc: Global,
    known: Known<'_, '_, '_, '_, '_>,
    deck: Taken<'_, '_>,
    read: &DeckRead,
    asides: &mut Vec<Aside>,
) -> Result<(), AllocError>
    ensures { OnOk result (OneAnswers deck.entry known.entry.answers.now (Some read.now) asides.new.items) }
{
    let aside = answer_at(alloc, known, deck, read)?;
    put_aside(asides, aside)
}

/// The same, if the deck is read.
fn put_answer(
    alloc: Global,
    known: Known<'_, '_, '_, '_, '_>,
    deck: Taken<'_, '_>,
    read: Option<DeckRead>,
    asides: &mut Vec<Aside>,
) -> Result<(), AllocError>
    ensures { OnOk result (OneAnswers deck.entry known.entry.answers.now read asides.new.items) }
{
    match read {
        Some(one) => put_read(alloc, known, deck, &one, asides),
        None => Ok(()),
    }
}

/// What else is told of a job, card by card: what is not configured for it, and what admission answers it.
pub(crate) fn job_asides(
    alloc: Global,
    known: Known<'_, '_, '_, '_, '_>,
    deck: Taken<'_, '_>,
    read: Option<DeckRead>,
) -> Result<Vec<Aside>, AllocError>
    ensures { IfOk result (λ asides. OneAnswers deck.entry known.entry.answers.now read asides.items) }
{
    let mut asides = Vec::new(alloc);
    let statement = match &read {
        Some(read) if read.job.is_some() => Some(read.statement),
        _ => None,
    };
    warn_of_class(alloc, known, deck, statement, &mut asides)?;
    warn_at_cards(alloc, known, deck, &mut asides)?;
    put_answer(alloc, known, deck, read, &mut asides)?;
    Ok(asides)
}
