//! On which card each statement begins, and which card is refused.
ghost use Rattle.std.specs.Prelude.{◌≡◌, ◌<◌, ◌≤◌, ◌+◌, ◌^◌, ℕ, IfOk, Ok, false, length};
ghost use Rattle.std.specs.Option.{option_copied};
ghost use Rattle.card_core.specs.Fields.{operand_behind};
ghost use Rattle.card_core.specs.Deck.{comment_cards};
ghost use Rattle.deck_places.specs.Cards.{continued_at, goes_on, operand_at, statement_by, step_of, used_before_data, walk_from, walk_of};
ghost use Rattle.deck_places.specs.Walks.{Fits, GoesWithin, LeadsOn, walked};
ghost use Rattle.deck_places.specs.declared.walk.Step.TheVariants.{Refused};

use crate::lines::{Lined, cards_of};
use card_core::card::{Kind, is_marked};
use card_core::data::{Opens, data_of, is_early, opened_by, used_by_data};
use card_core::field::{
    continuation_of, ends_with_comma, fields_of, operand_text, resumes_outside,
};
use card_core::image::CardImage;
use card_core::images::CardImages;
use card_core::operand::{Operand, operand_behind};
use card_core::read::ReadError;
use card_core::statement::{Card, DataCard};
use std::alloc::{AllocError, Global};

/// What begins with a card.
#[derive(Clone, Copy, PartialEq, Eq)]
pub enum Step {
    /// The null statement, which ends the deck.
    Over,
    /// A comment, or a delimiter that ends nothing.
    Passed,
    /// A statement: whether an EXEC statement stands before what follows, and how many cards behind this one it takes.
    Begins(bool, usize),
    /// A statement that is refused, so many cards behind this one.
    Refused(usize),
}

/// Where a walk goes on.
#[derive(Clone, Copy, PartialEq, Eq)]
enum Onward {
    /// Behind a card and so many more, and whether an EXEC statement stands before that.
    Goes(bool, usize),
    /// Nowhere, and the card that is refused.
    Ends(Option<usize>),
}

/// The cards on which statements begin, and the card that is refused.
#[derive(Drop)]
pub struct Walk {
    pub begun: Vec<usize>,
    pub refused: Option<usize>,
}

/// Whether an operand goes on behind this text.
fn goes_on(text: Option<&[u8]>) -> bool
    ensures { result ≡ goes_on (option_copied text.entry) }
{
    match text {
        None => false,
        Some(text) => ends_with_comma(text),
    }
}

/// How many cards behind its first an operand is refused, which ended with a comma there.
fn continued_at(cards: &CardImages<'_, '_>) -> usize
    ensures at { result ≡ continued_at 0 cards.now }
    ensures bound { result ≤ length cards.now }
{
    let mut rest = cards.behind(0);
    while let Some((card, behind)) = rest.split_first() {
        if !card.may_continue() {
            break;
        }
        let card = card.filled();
        if resumes_outside(&card) || !goes_on(operand_text(continuation_of(&card))) {
            return cards.len() - behind.len();
        }
        rest = behind;
    }
    cards.len() - rest.len()
}

/// How many cards behind its first a statement is refused for its operand.
fn operand_at(card: &DataCard, cards: &CardImages<'_, '_>) -> usize
    ensures at { result ≡ operand_at card.now cards.now }
    ensures bound { result ≤ length cards.now }
{
    let fields = fields_of(card);
    if fields.operation.is_empty() || fields.operation == b"PEND".as_slice() {
        return 0;
    }
    if goes_on(operand_text(fields.behind)) {
        continued_at(cards)
    } else {
        0
    }
}

/// How many cards at the front continue the comment of a statement that ends on the last card.
fn comment_cards(last: &DataCard, cards: &CardImages<'_, '_>) -> usize
    ensures count { result ≡ comment_cards last.now cards.now }
    ensures bound { result ≤ length cards.now }
{
    match cards.split_first() {
        Some((card, _)) if is_marked(last) && card.may_continue() => 1,
        _ => 0,
    }
}

/// How many cards behind its first a statement takes before its data.
fn used_before_data(cards: &CardImages<'_, '_>, operand: &Operand) -> usize
    requires { operand.now.cards ≤ length cards.now }
    ensures used { result ≡ used_before_data cards.now operand.now }
    ensures bound { result ≤ length cards.now }
{
    operand.cards + comment_cards(&operand.last, &cards.behind(operand.cards))
}

/// What begins with a card that has an operand.
fn begins_with(
    alloc: Global,
    called: bool,
    card: &DataCard,
    cards: &CardImages<'_, '_>,
    operand: &Operand,
) -> Result<Step, AllocError>
    requires { operand.now.cards ≤ length cards.now }
    ensures step { IfOk result (λ step. step ≡ statement_by called card.now cards.now (Ok operand.now)) }
    ensures bound { IfOk result (Fits (length cards.now)) }
{
    let operation = fields_of(card).operation;
    let used = used_before_data(cards, operand);
    let behind = cards.behind(used);
    let opens = opened_by(operation, operand.text.as_slice());
    let found = data_of(alloc, opens, &behind)?;
    if is_early(called, &found) {
        return Ok(Step::Refused(0));
    }
    let used = used + used_by_data(opens, &behind);
    Ok(Step::Begins(called || operation == b"EXEC".as_slice(), used))
}

/// What begins with a card with `//`.
fn statement_step(
    alloc: Global,
    called: bool,
    card: &CardImage<'_>,
    cards: &CardImages<'_, '_>,
) -> Result<Step, AllocError>
    ensures step { IfOk result (λ step. step ≡ statement_by called card.now cards.now (operand_behind card.now cards.now)) }
    ensures bound { IfOk result (Fits (length cards.now)) }
{
    let card = card.filled();
    let fields = fields_of(&card);
    match operand_behind(alloc, &fields, &card, cards) {
        Ok(operand) => begins_with(alloc, called, &card, cards, &operand),
        Err(ReadError::Fault(_)) => Ok(Step::Refused(operand_at(&card, cards))),
        Err(ReadError::Memory) => Err(AllocError),
    }
}

/// What begins with a card.
fn step_of(
    alloc: Global,
    called: bool,
    card: &CardImage<'_>,
    cards: &CardImages<'_, '_>,
) -> Result<Step, AllocError>
    ensures step { IfOk result (λ step. step ≡ step_of called card.now cards.now) }
    ensures bound { IfOk result (Fits (length cards.now)) }
{
    match card.kind() {
        Kind::Comment | Kind::Delimiter => Ok(Step::Passed),
        Kind::Null => Ok(Step::Over),
        Kind::Jcl => statement_step(alloc, called, card, cards),
        Kind::Data if called => Ok(Step::Begins(called, used_by_data(Opens::ToStatement, cards))),
        Kind::Data => Ok(Step::Refused(0)),
    }
}

/// Notes a statement that begins on a card, and tells where the walk goes on.
fn take_step(
    begun: &mut Vec<usize>,
    called: bool,
    at: usize,
    step: Step,
) -> Result<Onward, AllocError>
    requires { (more : ℕ) → step ≡ Refused more → at + more < 2 ^ 64 }
    ensures leads { IfOk result (LeadsOn called at step begun.old.items begun.new.items) }
    ensures bound { (count : ℕ) → Fits count step → IfOk result (GoesWithin count) }
{
    match step {
        Step::Over => Ok(Onward::Ends(None)),
        Step::Passed => Ok(Onward::Goes(called, 0)),
        Step::Begins(calls, used) => {
            begun.push(at)?;
            Ok(Onward::Goes(calls, used))
        }
        Step::Refused(more) => {
            begun.push(at)?;
            Ok(Onward::Ends(Some(at + more)))
        }
    }
}

/// The cards on which statements begin, and the card that is refused.
pub fn walk_cards(alloc: Global, cards: &CardImages<'_, '_>) -> Result<Walk, AllocError>
    ensures { IfOk result (λ w. walked w ≡ walk_from false 0 0 cards.now) }
{
    let mut begun = Vec::new(alloc);
    let mut called = false;
    let mut rest = cards.behind(0);
    while let Some((card, behind)) = rest.split_first() {
        let at = cards.len() - rest.len();
        let step = step_of(alloc, called, &card, &behind)?;
        match take_step(&mut begun, called, at, step)? {
            Onward::Ends(refused) => return Ok(Walk { begun, refused }),
            Onward::Goes(calls, used) => {
                called = calls;
                rest = behind.behind(used);
            }
        }
    }
    Ok(Walk {
        begun,
        refused: None,
    })
}

/// The same of the lines of a deck.
pub fn walk_lines(alloc: Global, lines: &[Card<'_>]) -> Result<Walk, AllocError>
    ensures { IfOk result (λ w. walked w ≡ walk_of lines.now) }
{
    match cards_of(lines) {
        Lined::Cards(cards) => walk_cards(alloc, &cards),
        Lined::Bad(n) => Ok(Walk {
            begun: Vec::new(alloc),
            refused: Some(n),
        }),
    }
}
