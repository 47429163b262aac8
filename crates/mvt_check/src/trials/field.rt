//! Pieces of the operands of a deck that is made.
use crate::answers::names::push_date;
use itoa::Buffer;
use jcl_plan::plan::{
    AfterAbend, ConditionalWord, Expiry, Operator, SetPlan, Space, Status, Test, VolumePlan, Word,
};
use jname_core::key::{Key, Sign};
use plain::text::Text;
use std::alloc::{AllocError, Global};

pub(crate) fn push_number(text: &mut Vec<u8>, number: usize) -> Result<(), AllocError> {
    let mut buffer = Buffer::new();
    text.extend_from_slice(buffer.format(number as u64).as_bytes())
}

/// A name made of a letter and a number.
pub(crate) fn push_numbered(
    text: &mut Vec<u8>,
    letter: u8,
    number: usize,
) -> Result<(), AllocError> {
    text.push(letter)?;
    push_number(text, number)
}

/// A piece made of two texts.
pub(crate) fn piece_of(alloc: Global, front: &[u8], behind: &[u8]) -> Result<Text, AllocError> {
    let mut text = Vec::from_slice(alloc, front)?;
    text.extend_from_slice(behind)?;
    Ok(Text::new(text))
}

fn operator_of(operator: Operator) -> &'static [u8] {
    match operator {
        Operator::Gt => b"GT",
        Operator::Ge => b"GE",
        Operator::Eq => b"EQ",
        Operator::Lt => b"LT",
        Operator::Le => b"LE",
        Operator::Ne => b"NE",
    }
}

/// A test between its parentheses.
fn test_of(alloc: Global, test: &Test) -> Result<Text, AllocError> {
    let mut text = Vec::from_slice(alloc, b"(")?;
    push_number(&mut text, usize::from(test.code.number()))?;
    text.push(b',')?;
    text.extend_from_slice(operator_of(test.operator))?;
    if let Some(step) = test.step {
        text.push(b',')?;
        push_numbered(&mut text, b'S', usize::from(step))?;
    }
    text.push(b')')?;
    Ok(Text::new(text))
}

/// The parts of a COND operand.
fn parts_of(
    alloc: Global,
    tests: &[Test],
    after_abend: AfterAbend,
) -> Result<Vec<Text>, AllocError> {
    let mut parts = Vec::new(alloc);
    for test in tests {
        parts.push(test_of(alloc, test)?)?;
    }
    match after_abend {
        AfterAbend::Unsaid => {}
        AfterAbend::Even => parts.push(Text::copy_of(alloc, b"EVEN")?)?,
        AfterAbend::Only => parts.push(Text::copy_of(alloc, b"ONLY")?)?,
    }
    Ok(parts)
}

/// Puts the pieces of a COND operand behind others, if there is anything to say.
pub(crate) fn push_condition(
    alloc: Global,
    pieces: &mut Vec<Text>,
    tests: &[Test],
    after_abend: AfterAbend,
) -> Result<(), AllocError> {
    let parts = parts_of(alloc, tests, after_abend)?;
    if let [part] = parts.as_slice() {
        pieces.push(piece_of(alloc, b"COND=", part.as_slice())?)?;
        return Ok(());
    }
    let count = parts.len();
    for (place, part) in parts.iter().enumerate() {
        let front = if place == 0 {
            b"COND=(".as_slice()
        } else {
            b"".as_slice()
        };
        let mut text = Vec::from_slice(alloc, front)?;
        text.extend_from_slice(part.as_slice())?;
        if place.saturating_add(1) == count {
            text.push(b')')?;
        }
        pieces.push(Text::new(text))?;
    }
    Ok(())
}

/// A reference to a DD: `*.S3.D2`.
fn push_reference(text: &mut Vec<u8>, step: u16, dd: u16) -> Result<(), AllocError> {
    text.extend_from_slice(b"*.S")?;
    push_number(text, usize::from(step))?;
    text.extend_from_slice(b".D")?;
    push_number(text, usize::from(dd))
}

/// A reference to a DD, where one in the same step has no step's name.
fn push_reference_in(text: &mut Vec<u8>, own: usize, step: u16, dd: u16) -> Result<(), AllocError> {
    if usize::from(step) == own {
        text.extend_from_slice(b"*.D")?;
        return push_number(text, usize::from(dd));
    }
    push_reference(text, step, dd)
}

/// The DSN of a DD of this step, if it has one. Steps and DDs count from 1.
pub(crate) fn push_name(
    alloc: Global,
    pieces: &mut Vec<Text>,
    key: &Key,
    step: usize,
    dd: usize,
) -> Result<(), AllocError> {
    let mut text = Vec::from_slice(alloc, b"DSN=")?;
    match key {
        Key::Named(name) => text.extend_from_slice(name.as_slice())?,
        Key::Relative { base, sign, amount } => {
            text.extend_from_slice(base.as_slice())?;
            text.push(b'(')?;
            if *amount > 0 {
                text.push(match sign {
                    Sign::Plus => b'+',
                    Sign::Minus => b'-',
                })?;
            }
            push_number(&mut text, usize::from(*amount))?;
            text.push(b')')?;
        }
        Key::Temporary(name) => {
            text.extend_from_slice(b"&&")?;
            text.extend_from_slice(name.as_slice())?;
        }
        Key::Unnamed {
            step: of_step,
            dd: of_dd,
        } => {
            if usize::from(*of_step) == step && usize::from(*of_dd) == dd {
                return Ok(());
            }
            push_reference_in(&mut text, step, *of_step, *of_dd)?;
        }
    }
    pieces.push(Text::new(text))?;
    Ok(())
}

fn status_of(status: Status) -> &'static [u8] {
    match status {
        Status::New => b"NEW",
        Status::Old => b"OLD",
        Status::Shr => b"SHR",
        Status::Mod => b"MOD",
    }
}

fn word_of(word: Option<Word>) -> &'static [u8] {
    match word {
        None => b"",
        Some(Word::Delete) => b",DELETE",
        Some(Word::Keep) => b",KEEP",
        Some(Word::Pass) => b",PASS",
        Some(Word::Catlg) => b",CATLG",
        Some(Word::Uncatlg) => b",UNCATLG",
    }
}

fn conditional_of(word: Option<ConditionalWord>) -> &'static [u8] {
    match word {
        None => b"",
        Some(ConditionalWord::Delete) => b",DELETE",
        Some(ConditionalWord::Keep) => b",KEEP",
        Some(ConditionalWord::Catlg) => b",CATLG",
        Some(ConditionalWord::Uncatlg) => b",UNCATLG",
    }
}

/// The DISP of a set.
fn push_disposition(
    alloc: Global,
    pieces: &mut Vec<Text>,
    set: &SetPlan,
) -> Result<(), AllocError> {
    let mut text = Vec::from_slice(alloc, b"DISP=(")?;
    text.extend_from_slice(status_of(set.status))?;
    text.extend_from_slice(word_of(set.normal))?;
    if set.normal.is_none() && set.conditional.is_some() {
        text.push(b',')?;
    }
    text.extend_from_slice(conditional_of(set.conditional))?;
    text.push(b')')?;
    pieces.push(Text::new(text))?;
    Ok(())
}

/// The VOL of a set of a DD of this step, if it has one.
fn push_volume(
    alloc: Global,
    pieces: &mut Vec<Text>,
    volume: &VolumePlan,
    step: usize,
) -> Result<(), AllocError> {
    let mut text = Vec::new(alloc);
    match volume {
        VolumePlan::NotCoded => return Ok(()),
        VolumePlan::Serial(serial) => {
            text.extend_from_slice(b"VOL=SER=")?;
            text.extend_from_slice(serial.as_slice())?;
        }
        VolumePlan::OfName(name) => {
            text.extend_from_slice(b"VOL=REF=")?;
            text.extend_from_slice(name.as_slice())?;
        }
        VolumePlan::OfDd {
            step: of_step,
            dd: of_dd,
        } => {
            text.extend_from_slice(b"VOL=REF=")?;
            push_reference_in(&mut text, step, *of_step, *of_dd)?;
        }
    }
    pieces.push(Text::new(text))?;
    Ok(())
}

/// The SPACE of a set.
fn push_space(alloc: Global, pieces: &mut Vec<Text>, space: &Space) -> Result<(), AllocError> {
    let mut text = Vec::from_slice(alloc, b"SPACE=(TRK,(")?;
    push_number(&mut text, usize::from(space.primary))?;
    if space.secondary > 0 {
        text.push(b',')?;
        push_number(&mut text, usize::from(space.secondary))?;
    }
    text.push(b')')?;
    if space.release {
        text.extend_from_slice(b",RLSE")?;
    }
    text.push(b')')?;
    pieces.push(Text::new(text))?;
    Ok(())
}

/// The LABEL of a set, if its DD says until when it is kept.
fn push_label(alloc: Global, pieces: &mut Vec<Text>, expiry: Expiry) -> Result<(), AllocError> {
    let mut text = Vec::from_slice(alloc, b"LABEL=")?;
    match expiry {
        Expiry::NotCoded => return Ok(()),
        Expiry::Day(day) => {
            text.extend_from_slice(b"EXPDT=")?;
            push_date(&mut text, day)?;
        }
        Expiry::DaysFromToday(days) => {
            text.extend_from_slice(b"RETPD=")?;
            push_number(&mut text, usize::from(days))?;
        }
    }
    pieces.push(Text::new(text))?;
    Ok(())
}

/// The pieces of a DD for a set, by the names of the units.
pub(crate) fn push_set(
    alloc: Global,
    pieces: &mut Vec<Text>,
    set: &SetPlan,
    units: &[Text],
    step: usize,
    dd: usize,
) -> Result<(), AllocError> {
    push_name(alloc, pieces, &set.key, step, dd)?;
    push_disposition(alloc, pieces, set)?;
    if let Some(number) = set.units {
        if let Some(unit) = units.get(usize::from(number).saturating_sub(1)) {
            pieces.push(piece_of(alloc, b"UNIT=", unit.as_slice())?)?;
        }
    }
    push_volume(alloc, pieces, &set.volume, step)?;
    push_label(alloc, pieces, set.expiry)?;
    match &set.space {
        Some(space) => push_space(alloc, pieces, space),
        None => Ok(()),
    }
}
