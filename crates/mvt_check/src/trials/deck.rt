//! A deck that denotes a job with IEFBR14 in place of its programs.
use crate::trials::field::{piece_of, push_condition, push_number, push_numbered, push_set};
use jcl_plan::plan::{AfterAbend, DdKind, DdPlan, JobPlan, StepPlan};
use plain::text::Text;
use std::alloc::{AllocError, Global};

/// Puts the cards of a statement behind others: one for each piece of its operand.
fn push_statement(
    alloc: Global,
    cards: &mut Vec<Text>,
    begins: &[u8],
    pieces: &[Text],
) -> Result<(), AllocError> {
    let count = pieces.len();
    for (place, piece) in pieces.iter().enumerate() {
        let front = if place == 0 {
            begins
        } else {
            b"//  ".as_slice()
        };
        let mut card = Vec::from_slice(alloc, front)?;
        card.extend_from_slice(piece.as_slice())?;
        if place.saturating_add(1) < count {
            card.push(b',')?;
        }
        cards.push(Text::new(card))?;
    }
    Ok(())
}

/// The JOB statement.
fn push_job(alloc: Global, cards: &mut Vec<Text>, plan: &JobPlan) -> Result<(), AllocError> {
    let mut begins = Vec::from_slice(alloc, b"//")?;
    begins.extend_from_slice(plan.name.as_slice())?;
    begins.extend_from_slice(b" JOB ")?;
    let mut pieces = Vec::new(alloc);
    pieces.push(Text::copy_of(alloc, b"1")?)?;
    pieces.push(piece_of(alloc, b"CLASS=", &[plan.class])?)?;
    let mut priority = Vec::from_slice(alloc, b"PRTY=")?;
    push_number(&mut priority, usize::from(plan.priority))?;
    pieces.push(Text::new(priority))?;
    pieces.push(piece_of(alloc, b"MSGCLASS=", &[plan.message_class])?)?;
    push_condition(
        alloc,
        &mut pieces,
        plan.tests.as_slice(),
        AfterAbend::Unsaid,
    )?;
    push_statement(alloc, cards, begins.as_slice(), pieces.as_slice())
}

/// The pieces of a DD of a step, which both count from 1. Cards are left out.
fn pieces_of(
    alloc: Global,
    kind: &DdKind,
    units: &[Text],
    step: usize,
    dd: usize,
) -> Result<Vec<Text>, AllocError> {
    let mut pieces = Vec::new(alloc);
    match kind {
        DdKind::Sysout(class) => pieces.push(piece_of(alloc, b"SYSOUT=", &[*class])?)?,
        DdKind::Dummy | DdKind::Cards(_) => pieces.push(Text::copy_of(alloc, b"DUMMY")?)?,
        DdKind::Set(set) => push_set(alloc, &mut pieces, set, units, step, dd)?,
    }
    Ok(pieces)
}

/// A DD statement of a step, which both count from 1.
fn push_dd(
    alloc: Global,
    cards: &mut Vec<Text>,
    dd: &DdPlan,
    units: &[Text],
    step: usize,
    number: usize,
) -> Result<(), AllocError> {
    let mut begins = Vec::from_slice(alloc, b"//")?;
    if dd.name.is_some() {
        push_numbered(&mut begins, b'D', number)?;
    }
    begins.extend_from_slice(b" DD ")?;
    let pieces = pieces_of(alloc, &dd.kind, units, step, number)?;
    push_statement(alloc, cards, begins.as_slice(), pieces.as_slice())
}

/// A step, which counts from 1.
fn push_step(
    alloc: Global,
    cards: &mut Vec<Text>,
    step: &StepPlan,
    units: &[Text],
    number: usize,
) -> Result<(), AllocError> {
    let mut begins = Vec::from_slice(alloc, b"//")?;
    push_numbered(&mut begins, b'S', number)?;
    begins.extend_from_slice(b" EXEC ")?;
    let mut pieces = Vec::new(alloc);
    pieces.push(Text::copy_of(alloc, b"PGM=IEFBR14")?)?;
    push_condition(alloc, &mut pieces, step.tests.as_slice(), step.after_abend)?;
    push_statement(alloc, cards, begins.as_slice(), pieces.as_slice())?;
    for (place, dd) in step.dds.as_slice().iter().enumerate() {
        push_dd(alloc, cards, dd, units, number, place.saturating_add(1))?;
    }
    Ok(())
}

/// The cards of a deck that denotes this job, but for names of steps and DDs, and for cards of data, with IEFBR14 in place of its programs. Units have these
/// names. Whether it does so is to be looked at.
pub(crate) fn deck_of(
    alloc: Global,
    plan: &JobPlan,
    units: &[Text],
) -> Result<Vec<Text>, AllocError> {
    let mut cards = Vec::new(alloc);
    push_job(alloc, &mut cards, plan)?;
    for (place, step) in plan.steps.as_slice().iter().enumerate() {
        push_step(alloc, &mut cards, step, units, place.saturating_add(1))?;
    }
    Ok(cards)
}
