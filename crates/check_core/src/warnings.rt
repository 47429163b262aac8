//! What is accepted of a deck and rarely meant.
ghost use Rattle.std.specs.Prelude.{◌≡◌, ◌≤◌, ◌+◌, ◌++◌, IfOk, OnOk, length};
ghost use Rattle.std.specs.List.{list_any};
ghost use Rattle.card_warnings.specs.Warnings.{words_of};
ghost use Rattle.check_core.specs.Warnings.{count_before, is_before, is_told, listed, tells_hint, warned_at, warned_of, warning_text, warnings_text};

use crate::report::{Checked, Report};
use card_core::statement::Card;
use card_warnings::warning::{Warning, warning_of, words_of};
use itoa::Buffer;
use std::alloc::{AllocError, Global};

/// Writes a warning, with its line of the session, which counts from 1.
pub fn push_warning(text: &mut Vec<u8>, line: usize, words: &[u8]) -> Result<(), AllocError>
    ensures { OnOk result (text.new.items ≡ text.old.items ++ warning_text line words.now) }
{
    let mut buffer = Buffer::new();
    text.extend_from_slice(b"line ")?;
    text.extend_from_slice(buffer.format(line as u64).as_bytes())?;
    text.extend_from_slice(b": warning: ")?;
    text.extend_from_slice(words)?;
    text.push(b'\n')?;
    Ok(())
}

/// Whether a report has a sentence for its card, and is at this one.
fn tells_hint(report: &Report, n: usize) -> bool
    ensures { result ≡ tells_hint n report.now }
{
    match report.spot.card {
        Some(card) => card == n && !report.hint.as_slice().is_empty(),
        None => false,
    }
}

fn some_hint(reports: &[Report], n: usize) -> bool
    ensures { result ≡ list_any (tells_hint n) reports.now }
{
    reports.iter().any(|report| tells_hint(report, n))
}

/// Whether a refusal at this card tells already of what the card warns of.
fn is_told(checked: &Checked, n: usize) -> bool
    ensures { result ≡ is_told checked.now n }
{
    match checked {
        Checked::Taken(_, _) => false,
        Checked::Refused { first, later } => {
            tells_hint(first, n) || some_hint(later.as_slice(), n)
        }
    }
}

/// A card, which counts from 0, and what it warns of.
#[derive(Clone, Copy)]
pub struct Warned {
    pub card: usize,
    pub warning: Warning,
}

/// What a card of a deck warns of, of which this is told.
fn warned_at(line: &[u8], checked: &Checked, card: usize) -> Option<Warned>
    ensures { result ≡ warned_at checked.now card line.now }
{
    if is_told(checked, card) {
        return None;
    }
    let warning = warning_of(line)?;
    Some(Warned { card, warning })
}

fn push_if(warned: &mut Vec<Warned>, one: Option<Warned>) -> Result<(), AllocError>
    ensures { OnOk result (warned.new.items ≡ warned.old.items ++ listed one) }
{
    if let Some(one) = one {
        warned.push(one)?;
    }
    Ok(())
}

/// What the cards of a deck warn of, of which this is told, in their order.
#[tactic(auto, using(crate::proofs::Warned::warned_next))]
pub(crate) fn warnings_of(
    alloc: Global,
    lines: &[Card<'_>],
    checked: &Checked,
) -> Result<Vec<Warned>, AllocError>
    ensures { IfOk result (λ warned. warned.items ≡ warned_of checked.now lines.now) }
{
    let mut warned = Vec::new(alloc);
    for (card, line) in lines.iter().enumerate() {
        push_if(&mut warned, warned_at(line.as_slice(), checked, card))?;
    }
    Ok(warned)
}

/// Writes a warning of a card of a deck whose first card stands on this line.
fn push_one(text: &mut Vec<u8>, first: usize, warned: Warned) -> Result<(), AllocError>
    ensures { OnOk result (text.new.items ≡ text.old.items ++ warning_text (first + warned.card) (words_of warned.warning)) }
{
    let Some(line) = first.checked_add(warned.card) else {
        return Err(AllocError);
    };
    push_warning(text, line, words_of(warned.warning))
}

/// Writes warnings of cards of a deck whose first card stands on this line.
#[tactic(auto, using(crate::proofs::Warned::text_from))]
pub fn push_warned(text: &mut Vec<u8>, first: usize, warned: &[Warned]) -> Result<(), AllocError>
    ensures { OnOk result (text.new.items ≡ text.old.items ++ warnings_text first warned.now) }
{
    for warning in warned {
        push_one(text, first, *warning)?;
    }
    Ok(())
}

/// Whether a warning is of a card before this one.
fn is_before(card: Option<usize>, warned: &Warned) -> bool
    ensures { result ≡ is_before card warned.now }
{
    match card {
        Some(card) => warned.card < card,
        None => false,
    }
}

/// How many warnings in front are of cards before this one.
pub(crate) fn count_before(card: Option<usize>, warned: &[Warned]) -> usize
    ensures count { result ≡ count_before card warned.now }
    ensures bound { result ≤ length warned.now }
{
    warned
        .iter()
        .take_while(|one| is_before(card, *one))
        .count()
}
