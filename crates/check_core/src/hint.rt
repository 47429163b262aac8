//! What is said beside a refusal: the form of a value, and a mistake that looks like another one.

use card_core::card::{Kind, kind_of};
use card_core::field::fields_of;
use card_core::statement::DataCard;
use card_warnings::keywords::is_keyword_of;
use card_warnings::warning::is_cut;
use jcl_plan::fault::{Cause, StatementFault};
use jname_core::name8::{is_first, is_name_character};
use std::alloc::AllocError;

/// A keyword's value: the words that it may have, with blanks between them, and its form.
pub(crate) struct Value {
    pub(crate) keyword: &'static str,
    pub(crate) words: &'static str,
    pub(crate) form: &'static str,
}

/// In the order of docs/JCL.md.
static VALUES: [Value; 14] = [
    Value {
        keyword: "CLASS",
        words: "",
        form: "CLASS is a letter, A to O",
    },
    Value {
        keyword: "PRTY",
        words: "",
        form: "PRTY is a number, 0 to 13",
    },
    Value {
        keyword: "MSGCLASS",
        words: "",
        form: "MSGCLASS is a letter or a digit",
    },
    Value {
        keyword: "COND",
        words: "GT GE EQ LT LE NE EVEN ONLY",
        form: "COND is (code,operator) or ((code,operator,step),..): codes 0 to 4095; GT, GE, EQ, LT, LE, NE; on EXEC also EVEN or ONLY",
    },
    Value {
        keyword: "PARM",
        words: "",
        form: "PARM has at most 100 characters",
    },
    Value {
        keyword: "DSN",
        words: "",
        form: "DSN is a name, BASE(+1), BASE(0), BASE(-1), &&NAME or *.dd",
    },
    Value {
        keyword: "DSNAME",
        words: "",
        form: "DSNAME is a name, BASE(+1), BASE(0), BASE(-1), &&NAME or *.dd",
    },
    Value {
        keyword: "DISP",
        words: "NEW OLD SHR MOD DELETE KEEP PASS CATLG UNCATLG",
        form: "DISP is (status,normal,conditional): NEW, OLD, SHR, MOD; then DELETE, KEEP, CATLG, UNCATLG; the normal word also PASS",
    },
    Value {
        keyword: "UNIT",
        words: "",
        form: "UNIT is a unit name of the session",
    },
    Value {
        keyword: "VOL",
        words: "SER REF PRIVATE RETAIN",
        form: "VOL is SER=serial of 1 to 6 characters, REF=name or REF=*.dd",
    },
    Value {
        keyword: "VOLUME",
        words: "SER REF PRIVATE RETAIN",
        form: "VOLUME is SER=serial of 1 to 6 characters, REF=name or REF=*.dd",
    },
    Value {
        keyword: "SPACE",
        words: "TRK CYL RLSE",
        form: "SPACE is (TRK,(primary,secondary),RLSE); CYL or a block's length for TRK; at most 4000 tracks",
    },
    Value {
        keyword: "LABEL",
        words: "EXPDT RETPD",
        form: "LABEL is EXPDT=yyddd, EXPDT=yyyy/ddd or RETPD=nnnn",
    },
    Value {
        keyword: "SYSOUT",
        words: "",
        form: "SYSOUT is a letter or a digit, or (class,program,form)",
    },
];

/// The value of this keyword.
pub(crate) fn value_of(keyword: &[u8]) -> Option<&'static Value> {
    VALUES
        .iter()
        .find(|value| value.keyword.as_bytes() == keyword)
}

/// The keyword with which a text begins, and its value behind the equals sign.
fn keyword_and_value(text: &[u8]) -> Option<(&'static Value, &[u8])> {
    let len = text.iter().take_while(|c| is_name_character(**c)).count();
    let (keyword, behind) = text.split_at(len.min(text.len()));
    let value = value_of(keyword)?;
    match behind.split_first() {
        Some((b'=', behind)) => Some((value, behind)),
        _ => None,
    }
}

/// Whether a value consists of words, names and numbers apart.
fn is_of_words(value: &Value) -> bool {
    value.keyword == "DISP" || value.keyword == "SPACE"
}

/// Whether a word is one of these, which have blanks between them.
fn is_among(words: &str, word: &[u8]) -> bool {
    words
        .as_bytes()
        .split(|c| *c == b' ')
        .any(|other| other == word)
}

/// A value with what stands behind it, up to a comma outside its parentheses or a blank.
fn own_value(text: &[u8]) -> &[u8] {
    let mut depth: usize = 0;
    for (len, c) in text.iter().enumerate() {
        if *c == b' ' || (*c == b',' && depth == 0) {
            let (value, _) = text.split_at(len.min(text.len()));
            return value;
        }
        if *c == b'(' {
            depth = depth.saturating_add(1);
        } else if *c == b')' {
            depth = depth.saturating_sub(1);
        }
    }
    text
}

/// Whether a word begins as a name does.
fn begins_name(word: &[u8]) -> bool {
    match word.first() {
        Some(c) => is_first(*c),
        None => false,
    }
}

/// The first word of a value that it may not have.
pub(crate) fn wrong_word<'a>(value: &Value, text: &'a [u8]) -> Option<&'a [u8]> {
    if !is_of_words(value) {
        return None;
    }
    own_value(text)
        .split(|c| !is_name_character(*c))
        .find(|word| begins_name(*word) && !is_among(value.words, *word))
}

/// Puts the form of the value behind a text, that begins at a column of a card, and the word of it that is wrong.
fn push_form(sentences: &mut Vec<u8>, text: &[u8]) -> Result<(), AllocError> {
    let Some((value, behind)) = keyword_and_value(text) else {
        return Ok(());
    };
    begin(sentences)?;
    if let Some(word) = wrong_word(value, behind) {
        sentences.extend_from_slice(word)?;
        sentences.extend_from_slice(b" is none of its words: ")?;
    }
    sentences.extend_from_slice(value.form.as_bytes())
}

/// Whether a word is an operand, or the beginning of one.
fn is_operand(word: &[u8]) -> bool {
    word.iter().any(|c| *c == b'=' || *c == b'(' || *c == b',')
        || word == b"DUMMY".as_slice()
        || word == b"*".as_slice()
}

/// Whether a card begins a statement without a name whose operation is an operand, as one that should continue another does.
fn continues_nothing(card: &DataCard) -> bool {
    let fields = fields_of(card);
    kind_of(card) == Kind::Jcl && fields.name.is_empty() && is_operand(fields.operation)
}

/// Whether an operand stands in a card's columns of a name.
fn has_operand_for_name(card: &DataCard) -> bool {
    kind_of(card) == Kind::Jcl && is_operand(fields_of(card).name)
}

/// Whether a card looks like one that continues the statement before it.
pub(crate) fn seems_to_continue(card: &DataCard) -> bool {
    continues_nothing(card) || has_operand_for_name(card)
}

/// What is said of a name's characters. It begins behind the column at which its part of the operand does.
fn push_of_characters(sentences: &mut Vec<u8>, text: &[u8]) -> Result<(), AllocError> {
    let value = match text.iter().position(|c| *c == b'=') {
        Some(place) => text.split_at(place.saturating_add(1).min(text.len())).1,
        None => text,
    };
    match value.first() {
        Some(b'\'') => push_sentence(
            sentences,
            "a name in apostrophes is left out of this profile: drop them",
        ),
        Some(c) if c.is_ascii_lowercase() => push_sentence(sentences, "letters are capitals"),
        _ => Ok(()),
    }
}

/// What is said of a keyword that is one of another statement.
fn push_other_statement(sentences: &mut Vec<u8>, text: &[u8]) -> Result<(), AllocError> {
    let len = text.iter().take_while(|c| is_name_character(**c)).count();
    let (word, _) = text.split_at(len.min(text.len()));
    for operation in ["JOB", "EXEC", "DD"] {
        if is_keyword_of(operation.as_bytes(), word) {
            begin(sentences)?;
            sentences.extend_from_slice(word)?;
            sentences.extend_from_slice(b" is a keyword of ")?;
            return sentences.extend_from_slice(operation.as_bytes());
        }
    }
    Ok(())
}

/// Begins a sentence on a line of its own.
fn begin(sentences: &mut Vec<u8>) -> Result<(), AllocError> {
    if !sentences.is_empty() {
        sentences.extend_from_slice(b"\n    ")?;
    }
    Ok(())
}

pub(crate) fn push_sentence(
    sentences: &mut Vec<u8>,
    sentence: &'static str,
) -> Result<(), AllocError> {
    begin(sentences)?;
    sentences.extend_from_slice(sentence.as_bytes())
}

/// The symbol that a value of the operand begins with, by its name behind `=&`.
fn symbol_in(text: &[u8]) -> Option<&[u8]> {
    let place = text.windows(2).position(|pair| pair == b"=&".as_slice())?;
    let (_, behind) = text.split_at(place.saturating_add(2).min(text.len()));
    if behind.first() == Some(&b'&') {
        return None;
    }
    let len = behind.iter().take_while(|c| is_name_character(**c)).count();
    let (name, _) = behind.split_at(len.min(behind.len()));
    Some(name)
}

/// A symbol where there are none.
fn push_symbol(sentences: &mut Vec<u8>, name: &[u8]) -> Result<(), AllocError> {
    begin(sentences)?;
    sentences.extend_from_slice(b"the symbol &")?;
    sentences.extend_from_slice(name)?;
    sentences.extend_from_slice(
        b" has no value here: outside a procedure & begins a temporary name",
    )
}

/// Puts behind these sentences what else is said of a refusal on a card, at a column of it; nothing where it is clear.
pub(crate) fn push_hint(
    sentences: &mut Vec<u8>,
    cause: Cause,
    card: &DataCard,
    column: usize,
) -> Result<(), AllocError> {
    let (_, text) = card.as_slice().split_at(column.min(card.len()));
    match cause {
        Cause::C(7) if card.starts_with(b"/") => {
            push_sentence(sentences, "a statement begins with two slashes")?;
        }
        Cause::P(StatementFault::UnknownOperation) if continues_nothing(card) => {
            push_sentence(
                sentences,
                "if it continues the card before it, that one lacks a comma at its end",
            )?;
        }
        Cause::C(6) if has_operand_for_name(card) => {
            push_sentence(
                sentences,
                "if it continues the card before it, a blank is missing in column 3",
            )?;
        }
        Cause::N(number) => {
            if let Some(name) = symbol_in(text) {
                push_symbol(sentences, name)?;
            }
            if number == 3 {
                push_of_characters(sentences, text)?;
            }
        }
        Cause::P(StatementFault::UnknownKeyword) => push_other_statement(sentences, text)?,
        Cause::P(StatementFault::TooManyPositional) => {
            push_sentence(
                sentences,
                "positional operands come first; a value of several parts has parentheses: KEY=(first,second)",
            )?;
        }
        Cause::P(StatementFault::BadValue) => push_form(sentences, text)?,
        _ => {}
    }
    if is_cut(card) && kind_of(card) == Kind::Jcl {
        push_sentence(sentences, "the text after column 71 is not read")?;
    }
    Ok(())
}
