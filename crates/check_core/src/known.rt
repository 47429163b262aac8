//! Refusals that follow from others, and are left out.
use crate::hint::seems_to_continue;
use crate::mended::{Mended, Replaced, Span, card_at};
use card_core::card::{Kind, kind_of};
use card_core::field::fields_of;
use jcl_plan::fault::{Cause, StatementFault};
use jname_core::name8::is_name_character;
use plain::text::Text;
use std::alloc::{AllocError, Global};

/// The name with which a text begins.
fn name_in(text: &[u8]) -> &[u8] {
    let len = text.iter().take_while(|c| is_name_character(**c)).count();
    text.split_at(len.min(text.len())).0
}

/// Whether a text has this name with a period and another name behind it, as a step of a call is named.
fn has_step_of(text: &[u8], name: &[u8]) -> bool {
    text.split(|c| *c != b'.' && !is_name_character(*c))
        .any(|piece| piece.contains(&b'.') && name_in(piece) == name)
}

/// The names of a reference behind its asterisk and period: the step's, if it has one, and the DD's, which is the last.
fn parts_of(text: &[u8]) -> (&[u8], &[u8]) {
    let mut first: &[u8] = b"";
    let mut last = name_in(text);
    let mut rest = text.split_at(last.len().min(text.len())).1;
    for _ in 0..2 {
        let Some((b'.', more)) = rest.split_first() else {
            break;
        };
        if first.is_empty() {
            first = last;
        }
        last = name_in(more);
        rest = more.split_at(last.len().min(more.len())).1;
    }
    (first, last)
}

/// Whether a reference, behind its asterisk and period, leads to what was replaced. One without a step is to a DD of its own step.
fn leads_to(reference: &[u8], own_step: &[u8], replaced: &Replaced) -> bool {
    let (step, dd) = parts_of(reference);
    let step = if step.is_empty() { own_step } else { step };
    if step != replaced.step.as_slice() {
        return false;
    }
    match &replaced.dd {
        Some(name) => dd == name.as_slice(),
        None => true,
    }
}

/// Whether one of the references on a card leads there.
fn card_leads_to(line: &[u8], own_step: &[u8], replaced: &Replaced) -> bool {
    for (at, pair) in line.windows(2).enumerate() {
        if pair == b"*.".as_slice() {
            let (_, behind) = line.split_at((at + 2).min(line.len()));
            if leads_to(behind, own_step, replaced) {
                return true;
            }
        }
    }
    false
}

/// Whether a card of these has a reference to what was replaced.
fn refers_to_replaced(alloc: Global, mended: &Mended, span: Span) -> Result<bool, AllocError> {
    let own = mended.step_before(alloc, span.from)?;
    for n in span.from..span.to {
        if let Some(line) = mended.lines.get(n) {
            for replaced in &mended.replaced {
                if card_leads_to(line.as_slice(), own.as_slice(), replaced) {
                    return Ok(true);
                }
            }
        }
    }
    Ok(false)
}

/// Whether a card of these tests a step of a call that was replaced.
fn tests_replaced(mended: &Mended, span: Span) -> bool {
    for n in span.from..span.to {
        if let Some(card) = card_at(mended.lines.as_slice(), n) {
            let fields = fields_of(&card);
            for replaced in &mended.replaced {
                if replaced.dd.is_none() && has_step_of(fields.behind, replaced.step.as_slice()) {
                    return true;
                }
            }
        }
    }
    false
}

/// Whether the last EXEC statement before a card was replaced.
fn is_behind_replaced(mended: &Mended, card: usize) -> bool {
    let mut found = false;
    for n in 0..card {
        if let Some(card) = card_at(mended.lines.as_slice(), n) {
            if kind_of(&card) == Kind::Jcl && fields_of(&card).operation == b"EXEC".as_slice() {
                let to = n + 1;
                found = mended.is_touched(Span { from: n, to });
            }
        }
    }
    found
}

/// Whether a card seems to continue a statement that was replaced since nothing continues it.
fn continues_replaced(mended: &Mended, from: usize) -> bool {
    match card_at(mended.lines.as_slice(), from) {
        Some(card) => seems_to_continue(&card) && mended.is_behind_open(from),
        None => false,
    }
}

/// Whether a statement begins with EXEC.
fn is_exec(lines: &[Text], from: usize) -> bool {
    match card_at(lines, from) {
        Some(card) => fields_of(&card).operation == b"EXEC".as_slice(),
        None => false,
    }
}

/// Whether a refusal is at a statement that was replaced, or of a reference to one.
pub(crate) fn is_known(
    alloc: Global,
    mended: &Mended,
    cause: Cause,
    span: Span,
) -> Result<bool, AllocError> {
    if mended.is_touched(span) {
        return Ok(true);
    }
    match cause {
        Cause::P(StatementFault::ReferenceToNothing | StatementFault::ForwardReference) => {
            refers_to_replaced(alloc, mended, span)
        }
        Cause::P(StatementFault::TestOfNoEarlierStep) => Ok(tests_replaced(mended, span)),
        Cause::P(StatementFault::UnknownOperation) | Cause::C(6) => {
            Ok(continues_replaced(mended, span.from))
        }
        Cause::P(StatementFault::NoSuchProcedureStep | StatementFault::OverrideOutOfOrder) => Ok(
            !is_exec(mended.lines.as_slice(), span.from) && is_behind_replaced(mended, span.from),
        ),
        _ => Ok(false),
    }
}
