//! The lines of an input, and the words of a line.
use crate::escapes::unescaped;
use crate::table::place_of_byte;
use crate::told::Told;
use std::alloc::{AllocError, Global};

/// What stands before the first such byte, and what stands behind it.
fn split_first(text: &[u8], byte: u8) -> (&[u8], &[u8]) {
    match place_of_byte(text, byte) {
        None => (text, &[]),
        Some(at) => (&text[..at], &text[at + 1..]),
    }
}

/// The lines that are still to come.
#[derive(Clone, Copy)]
pub struct Lines<'a> {
    rest: &'a [u8],
}

impl<'a> Lines<'a> {
    pub fn new(text: &'a [u8]) -> Lines<'a> {
        Lines { rest: text }
    }

    /// How many bytes are still to come, so that there are at most so many lines.
    pub fn len(&self) -> usize {
        self.rest.len()
    }

    /// Takes the next line.
    pub fn next_line(&mut self) -> Option<&'a [u8]> {
        if self.rest.is_empty() {
            return None;
        }
        let (line, rest) = split_first(self.rest, b'\n');
        self.rest = rest;
        Some(line)
    }
}

/// The words of a line that are still to come, and whether one so far was not understood.
#[derive(Clone, Copy)]
pub struct Words<'a> {
    rest: &'a [u8],
    is_wrong: bool,
}

/// The value of a text, where the table has it.
pub fn value_of<V: Copy>(table: &[(&str, V)], text: &[u8]) -> Option<V> {
    for (name, value) in table {
        if name.as_bytes() == text {
            return Some(*value);
        }
    }
    None
}

/// The number that a text of digits is.
fn number_of(text: &[u8]) -> Option<u32> {
    let mut number: u32 = 0;
    for byte in text {
        if !byte.is_ascii_digit() {
            return None;
        }
        number = number.checked_mul(10)?.checked_add(u32::from(byte & 15))?;
    }
    if text.is_empty() { None } else { Some(number) }
}

impl<'a> Words<'a> {
    pub fn new(line: &'a [u8]) -> Words<'a> {
        Words {
            rest: line,
            is_wrong: false,
        }
    }

    /// Whether no word is left.
    pub fn is_empty(&self) -> bool {
        self.rest.is_empty()
    }

    /// Whether a word was not understood.
    pub fn is_wrong(&self) -> bool {
        self.is_wrong
    }

    /// The line is not understood.
    pub fn refuse(&mut self) {
        self.is_wrong = true;
    }

    /// Takes the next word, which is empty where none is left.
    pub fn next_word(&mut self) -> &'a [u8] {
        let (word, rest) = split_first(self.rest, b' ');
        self.rest = rest;
        word
    }

    /// What a word was understood as. Where there is none, the line is not understood.
    pub fn some<V>(&mut self, value: Option<V>) -> Option<V> {
        self.is_wrong |= value.is_none();
        value
    }

    /// Takes the next word as one of a table.
    pub fn one_of<V: Copy>(&mut self, table: &[(&str, V)]) -> Option<V> {
        let word = self.next_word();
        self.some(value_of(table, word))
    }

    /// Takes the next word as a number, 0 where it is none.
    pub fn number(&mut self) -> u32 {
        match number_of(self.next_word()) {
            Some(number) => number,
            None => {
                self.is_wrong = true;
                0
            }
        }
    }

    /// Takes the next word as a number, or none of `-`.
    pub fn some_number(&mut self) -> Option<u32> {
        let mut ahead = *self;
        if ahead.next_word() == b"-".as_slice() {
            *self = ahead;
            return None;
        }
        Some(self.number())
    }

    /// Takes the next word as a number of two bytes, 0 where it is none.
    pub fn short(&mut self) -> u16 {
        match u16::try_from(self.number()) {
            Ok(number) => number,
            Err(_) => {
                self.is_wrong = true;
                0
            }
        }
    }

    /// Takes the next word as a number of one byte, 0 where it is none.
    pub fn byte(&mut self) -> u8 {
        match u8::try_from(self.number()) {
            Ok(number) => number,
            Err(_) => {
                self.is_wrong = true;
                0
            }
        }
    }

    /// Takes what is left of the line, as it stands.
    pub fn left(&mut self) -> &'a [u8] {
        let left = self.rest;
        self.rest = &[];
        left
    }

    /// Takes what is left of the line as a text, in which `\XY` stands for the byte of these two digits of sixteen.
    pub fn text(&mut self, alloc: Global) -> Result<Vec<u8>, AllocError> {
        let text = unescaped(alloc, self.rest)?;
        self.rest = &[];
        Ok(text)
    }

    /// Ends the line: a word of it that was not understood, or that is left, is told.
    pub fn end(&self, line: &[u8], told: &mut Told) {
        if self.is_wrong || !self.rest.is_empty() {
            told.not_understood(line);
        }
    }
}
