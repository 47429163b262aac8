//! A word that may have been meant.
use crate::deck::Sources;
use crate::hint::value_of;
use crate::mended::{Mended, card_at};
use crate::report::Spot;
use card_core::card::{Kind, card_of, kind_of};
use card_core::field::fields_of;
use card_core::statement::DataCard;
use card_warnings::keywords::keywords_of;
use jcl_plan::fault::{Cause, StatementFault};
use jname_core::name8::{Name8, is_name_character};
use plain::lent::Lent;
use plain::text::Text;
use std::alloc::{AllocError, Global};
use strsim::generic_levenshtein;

static OPERATIONS: [&[u8]; 5] = [b"JOB", b"EXEC", b"DD", b"PROC", b"PEND"];

/// The word that is most like another: at most two letters differ, and fewer than it has.
#[derive(Drop)]
struct Nearest {
    word: Option<Text>,
    distance: usize,
}

/// Whether two words have the same letters, as where two of them are exchanged.
fn has_same_letters(word: &[u8], other: &[u8]) -> bool {
    word.len() == other.len()
        && word.iter().all(|c| other.contains(c))
        && other.iter().all(|c| word.contains(c))
}

impl Nearest {
    fn none(word: &[u8]) -> Nearest {
        let distance = if word.len() < 3 { word.len() } else { 3 };
        Nearest {
            word: None,
            distance,
        }
    }

    fn look_at(&mut self, alloc: Global, word: &[u8], other: &[u8]) -> Result<(), AllocError> {
        let distance = if has_same_letters(word, other) {
            usize::from(word != other)
        } else {
            generic_levenshtein(alloc, word, other)?
        };
        if 0 < distance && distance < self.distance {
            self.word = Some(Text::copy_of(alloc, other)?);
            self.distance = distance;
        }
        Ok(())
    }

    fn look_at_all(
        &mut self,
        alloc: Global,
        word: &[u8],
        others: &[Text],
    ) -> Result<(), AllocError> {
        for other in others {
            self.look_at(alloc, word, other.as_slice())?;
        }
        Ok(())
    }

    /// Looks at the names of the statements with an operation.
    fn look_at_names(
        &mut self,
        alloc: Global,
        mended: &Mended,
        word: &[u8],
        operation: &[u8],
    ) -> Result<(), AllocError> {
        for n in 0..mended.lines.len() {
            if let Some(card) = card_at(mended.lines.as_slice(), n) {
                if is_named(&card, operation) {
                    self.look_at(alloc, word, fields_of(&card).name)?;
                }
            }
        }
        Ok(())
    }
}

/// Whether a card begins a statement with this operation, and a name.
fn is_named(card: &DataCard, operation: &[u8]) -> bool {
    kind_of(card) == Kind::Jcl
        && fields_of(card).operation == operation
        && !fields_of(card).name.is_empty()
}

/// Whether a statement with this operation has this name.
fn has_name(mended: &Mended, name: &[u8], operation: &[u8]) -> bool {
    for n in 0..mended.lines.len() {
        if let Some(card) = card_at(mended.lines.as_slice(), n) {
            if is_named(&card, operation) && fields_of(&card).name == name {
                return true;
            }
        }
    }
    false
}

/// The nearest of these words.
fn nearest_of(alloc: Global, word: &[u8], others: &[&[u8]]) -> Result<Option<Text>, AllocError> {
    let mut nearest = Nearest::none(word);
    for other in others {
        nearest.look_at(alloc, word, *other)?;
    }
    Ok(nearest.word)
}

/// The operation that is nearest to a word.
pub(crate) fn nearest_operation(alloc: Global, word: &[u8]) -> Result<Option<Text>, AllocError> {
    nearest_of(alloc, word, OPERATIONS.as_slice())
}

/// The nearest procedure of the deck, or of the session.
fn nearest_procedure(
    alloc: Global,
    sources: &Sources<'_>,
    mended: &Mended,
    word: &[u8],
) -> Result<Option<Text>, AllocError> {
    let mut nearest = Nearest::none(word);
    nearest.look_at_names(alloc, mended, word, b"PROC")?;
    nearest.look_at_all(alloc, word, sources.procedure_names)?;
    Ok(nearest.word)
}

/// The nearest of these names.
pub fn nearest_among(
    alloc: Global,
    word: &[u8],
    names: &[Text],
) -> Result<Option<Text>, AllocError> {
    let mut nearest = Nearest::none(word);
    nearest.look_at_all(alloc, word, names)?;
    Ok(nearest.word)
}

/// The nearest name of a statement with this operation, unless one has this name.
fn nearest_name(
    alloc: Global,
    mended: &Mended,
    word: &[u8],
    operation: &[u8],
) -> Result<Option<Text>, AllocError> {
    if has_name(mended, word, operation) {
        return Ok(None);
    }
    let mut nearest = Nearest::none(word);
    nearest.look_at_names(alloc, mended, word, operation)?;
    Ok(nearest.word)
}

/// Of a reference to a step and a DD of it, the first name that no statement has: the nearest to it.
fn nearest_in_reference(
    alloc: Global,
    mended: &Mended,
    reference: &[u8],
) -> Result<Option<Text>, AllocError> {
    let count = reference.split(|c| *c == b'.').count();
    for (n, piece) in reference.split(|c| *c == b'.').enumerate() {
        let operation: &[u8] = if n.saturating_add(1) == count {
            b"DD"
        } else {
            b"EXEC"
        };
        if let Some(found) = nearest_name(alloc, mended, piece, operation)? {
            return Ok(Some(found));
        }
    }
    Ok(None)
}

/// Of a text that names steps, the first word that is nearly one.
fn nearest_step(alloc: Global, mended: &Mended, text: &[u8]) -> Result<Option<Text>, AllocError> {
    for piece in text.split(|c| !is_name_character(*c)) {
        if piece.len() > 2 {
            if let Some(found) = nearest_name(alloc, mended, piece, b"EXEC")? {
                return Ok(Some(found));
            }
        }
    }
    Ok(None)
}

/// Whether a word stands before an equals sign, as a keyword does.
pub(crate) fn is_keyword(card: &DataCard, column: usize, word: &[u8]) -> bool {
    card.get(column.saturating_add(word.len())) == Some(&b'=')
}

/// The text of a card behind so many columns from a column on.
fn behind(card: &DataCard, column: usize, count: usize) -> &[u8] {
    let (_, behind) = card
        .as_slice()
        .split_at(column.saturating_add(count).min(80));
    behind
}

/// The text as far as it is a name, or names with periods between them.
fn name_in(text: &[u8], with_periods: bool) -> &[u8] {
    let len = text
        .iter()
        .take_while(|c| is_name_character(**c) || (with_periods && **c == b'.'))
        .count();
    let (name, _) = text.split_at(len);
    name
}

/// The word of a card from a column on.
pub(crate) fn word_at(card: &DataCard, column: usize) -> &[u8] {
    let (_, behind) = card.as_slice().split_at(column.min(80));
    let len = behind.iter().take_while(|c| is_name_character(**c)).count();
    let (word, _) = behind.split_at(len);
    word
}

/// The name of the procedure that an operand calls, behind `PROC=` too.
pub(crate) fn procedure_at(card: &DataCard, column: usize) -> &[u8] {
    let word = word_at(card, column);
    if word == b"PROC".as_slice() && is_keyword(card, column, word) {
        name_in(behind(card, column, 5), false)
    } else {
        word
    }
}

/// A text up to its first blank.
fn operand_of(text: &[u8]) -> &[u8] {
    let len = text.iter().take_while(|c| **c != b' ').count();
    let (operand, _) = text.split_at(len);
    operand
}

/// The operation of the statement that a card belongs to: its own, or that of the last card before it that has a name field or an operation.
fn operation_at(alloc: Global, mended: &Mended, n: usize) -> Result<Text, AllocError> {
    let mut found = Text::copy_of(alloc, b"")?;
    for at in 0..n.saturating_add(1) {
        if let Some(card) = card_at(mended.lines.as_slice(), at) {
            let operation = fields_of(&card).operation;
            if kind_of(&card) == Kind::Jcl && OPERATIONS.iter().any(|known| *known == operation) {
                found = Text::copy_of(alloc, operation)?;
            }
        }
    }
    Ok(found)
}

/// The keyword of a statement with this operation that is nearest to the word of a card.
pub(crate) fn nearest_keyword(
    alloc: Global,
    operation: &[u8],
    card: &DataCard,
    column: usize,
) -> Result<Option<Text>, AllocError> {
    nearest_of(alloc, word_at(card, column), keywords_of(operation))
}

/// Of the words of a value the first that is nearly one that it may have.
fn nearest_in_value(alloc: Global, words: &str, text: &[u8]) -> Result<Option<Text>, AllocError> {
    for piece in operand_of(text).split(|c| !is_name_character(*c)) {
        let mut nearest = Nearest::none(piece);
        for word in words.as_bytes().split(|c| *c == b' ') {
            if word == piece {
                nearest = Nearest::none(b"");
            }
            nearest.look_at(alloc, piece, word)?;
        }
        if piece.len() > 1 && nearest.word.is_some() {
            return Ok(nearest.word);
        }
    }
    Ok(None)
}

/// The nearest word that the value of the operand at a column may have, or the nearest keyword.
pub(crate) fn nearest_value(
    alloc: Global,
    operation: &[u8],
    card: &DataCard,
    column: usize,
) -> Result<Option<Text>, AllocError> {
    let word = word_at(card, column);
    if !is_keyword(card, column, word) {
        return nearest_keyword(alloc, operation, card, column);
    }
    match value_of(word) {
        Some(value) if !value.words.is_empty() => {
            let text = behind(card, column, word.len().saturating_add(1));
            nearest_in_value(alloc, value.words, text)
        }
        _ => Ok(None),
    }
}

/// Looks at the names of the steps on these lines.
fn look_at_steps(
    alloc: Global,
    nearest: &mut Nearest,
    word: &[u8],
    lines: &[Lent<'_>],
) -> Result<(), AllocError> {
    for line in lines {
        if let Ok(card) = card_of(line.as_slice()) {
            if is_named(&card, b"EXEC") {
                nearest.look_at(alloc, word, fields_of(&card).name)?;
            }
        }
    }
    Ok(())
}

/// The nearest step of the procedures of the deck and of the session.
fn nearest_procedure_step(
    alloc: Global,
    sources: &Sources<'_>,
    mended: &Mended,
    word: &[u8],
) -> Result<Option<Text>, AllocError> {
    let mut nearest = Nearest::none(word);
    let own = mended.lent(alloc)?;
    look_at_steps(alloc, &mut nearest, word, own.as_slice())?;
    for name in sources.procedure_names {
        if let Ok(name) = Name8::read(name.as_slice()) {
            if let Some(procedure) = sources.library.find(&name) {
                let lines = procedure.lines.lent(alloc)?;
                look_at_steps(alloc, &mut nearest, word, lines.as_slice())?;
            }
        }
    }
    Ok(nearest.word)
}

/// A word that may have been meant in place of the one that is refused.
pub(crate) fn guess_of(
    alloc: Global,
    sources: &Sources<'_>,
    mended: &Mended,
    cause: Cause,
    spot: Spot,
) -> Result<Option<Text>, AllocError> {
    let Some(n) = spot.card else { return Ok(None) };
    let Some(card) = card_at(mended.lines.as_slice(), n) else {
        return Ok(None);
    };
    let column = match spot.column {
        Some(column) => column,
        None => 80,
    };
    match cause {
        Cause::P(StatementFault::UnknownOperation) => {
            nearest_operation(alloc, fields_of(&card).operation)
        }
        Cause::P(StatementFault::UnknownKeyword) => {
            let operation = operation_at(alloc, mended, n)?;
            nearest_keyword(alloc, operation.as_slice(), &card, column)
        }
        Cause::P(StatementFault::BadValue) => {
            let operation = operation_at(alloc, mended, n)?;
            nearest_value(alloc, operation.as_slice(), &card, column)
        }
        Cause::P(StatementFault::NoSuchProcedureStep)
            if fields_of(&card).operation == b"DD".as_slice() => {
            let step = name_in(fields_of(&card).name, false);
            nearest_procedure_step(alloc, sources, mended, step)
        }
        Cause::P(StatementFault::NoSuchProcedure) => {
            nearest_procedure(alloc, sources, mended, procedure_at(&card, column))
        }
        Cause::P(StatementFault::UnknownUnit) => {
            let name = name_in(behind(&card, column, 5), false);
            nearest_among(alloc, name, sources.unit_names)
        }
        Cause::P(StatementFault::ReferenceToNothing) => {
            nearest_in_reference(alloc, mended, name_in(behind(&card, column, 2), true))
        }
        Cause::P(StatementFault::TestOfNoEarlierStep) => {
            nearest_step(alloc, mended, operand_of(behind(&card, column, 5)))
        }
        _ => Ok(None),
    }
}
