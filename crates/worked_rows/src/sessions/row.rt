//! The input of a row: lines of a session, and commands, which are lines that begin with `!`.
use crate::sessions::commands::{Asked, asked_first};
use itoa::Buffer;
use row_table::told::Told;
use row_table::words::{Lines, Words};
use std::alloc::Global;

/// What was read of a row.
#[derive(Drop)]
pub(crate) struct Row {
    pub(crate) asked: Asked,
    pub(crate) text: Told,
    /// The lines between `!times N` and `!end`.
    block: Told,
    /// How often these stand in the session; none outside of a block.
    times: Option<u16>,
}

#[derive(Clone, Copy)]
enum Mark {
    Times,
    End,
}

const MARKS: [(&str, Mark); 2] = [("times", Mark::Times), ("end", Mark::End)];

/// A number in so many digits at least.
fn tell_padded(text: &mut Told, number: u16, digits: usize) {
    let mut buffer = Buffer::new();
    let shown = buffer.format(u64::from(number)).as_bytes();
    for _ in shown.len()..digits {
        text.word(b"0");
    }
    text.word(shown);
}

/// How many `#` a text begins with.
fn hashes(text: &[u8]) -> usize {
    for (at, byte) in text.iter().enumerate() {
        if *byte != b'#' {
            return at;
        }
    }
    text.len()
}

/// A line in which `\#` stands for a number, and `\###` for one in three digits.
fn tell_numbered(text: &mut Told, line: &[u8], number: u16) {
    let mut rest = line;
    for _ in 0..line.len() {
        let Some((byte, more)) = rest.split_first() else {
            break;
        };
        let digits = hashes(more);
        if *byte == b'\\' && digits > 0 {
            tell_padded(text, number, digits);
            rest = more.split_at(digits.min(more.len())).1;
        } else {
            text.word(&[*byte]);
            rest = more;
        }
    }
    text.end_line();
}

/// Lines in which a number stands.
pub(crate) fn tell_block(text: &mut Told, block: &[u8], number: u16) {
    let mut lines = Lines::new(block);
    for _ in 0..block.len() {
        let Some(line) = lines.next_line() else {
            break;
        };
        tell_numbered(text, line, number);
    }
}

pub(crate) fn new_row(alloc: Global) -> Row {
    Row {
        asked: asked_first(),
        text: Told::new(alloc),
        block: Told::new(alloc),
        times: None,
    }
}

impl Row {
    /// Ends a block, which stands in the session as often as it says.
    fn end_block(&mut self, words: &mut Words<'_>) {
        let Some(times) = self.times else {
            return words.refuse();
        };
        for number in 0..times {
            tell_block(&mut self.text, self.block.as_slice(), number + 1);
        }
        if self.block.is_wanting() {
            self.text.want();
        }
        self.block.go_back(0);
        self.times = None;
    }

    /// Takes a command.
    fn take_command(&mut self, words: &mut Words<'_>) {
        let mut ahead = *words;
        match ahead.one_of(&MARKS) {
            Some(Mark::Times) => {
                *words = ahead;
                self.times = Some(words.short());
            }
            Some(Mark::End) => {
                *words = ahead;
                self.end_block(words);
            }
            None => self.asked.take(words),
        }
    }

    /// Takes a line. A command that is none is told.
    fn take_line(&mut self, line: &[u8], told: &mut Told) {
        if let Some((b'!', command)) = line.split_first() {
            let mut words = Words::new(command);
            self.take_command(&mut words);
            return words.end(line, told);
        }
        if self.times.is_some() {
            self.block.line(line);
        } else {
            self.text.line(line);
        }
    }

    /// Takes the lines of a row.
    pub(crate) fn take(&mut self, input: &[u8], told: &mut Told) {
        let mut lines = Lines::new(input);
        for _ in 0..input.len() {
            let Some(line) = lines.next_line() else {
                break;
            };
            self.take_line(line, told);
        }
    }
}
