//! Commands that are done surely: where one wants memory, it is done again.
use crate::told::Told;
use crate::words::{Lines, Words};
use std::alloc::Global;

/// Room for what one command tells, so that telling takes no memory once a call is done.
const ROOM: usize = 4096;

/// The line of a command: its words, the lines behind it, and what is told so far.
#[derive(Drop)]
pub struct Line<'a> {
    text: &'a [u8],
    pub words: Words<'a>,
    pub lines: Lines<'a>,
    pub told: Told,
}

impl<'a> Line<'a> {
    /// The lines of an input, of which none is taken yet.
    pub fn new(alloc: Global, input: &'a [u8]) -> Line<'a> {
        Line {
            text: b"",
            words: Words::new(b""),
            lines: Lines::new(input),
            told: Told::new(alloc),
        }
    }

    /// The line as it stands.
    pub fn text(&self) -> &'a [u8] {
        self.text
    }

    /// Takes the next line, if there is one.
    pub fn next(&mut self) -> bool {
        match self.lines.next_line() {
            None => false,
            Some(line) => {
                self.text = line;
                self.words = Words::new(line);
                true
            }
        }
    }

    /// Ends the line: a word of it that was not understood, or that is left, is told.
    pub fn end(&mut self) {
        if self.words.is_wrong() || !self.words.is_empty() {
            self.told.not_understood(self.text);
        }
    }
}

/// What the commands of a row act on.
pub trait Desk {
    /// Tells all that a command which wants memory has to leave as it was.
    fn show(&mut self, alloc: Global, told: &mut Told);

    /// Does the command of a line, which may take further lines.
    fn act(&mut self, alloc: Global, line: &mut Line<'_>);
}

/// What a desk shows.
fn shown<D: Desk>(alloc: Global, desk: &mut D) -> Told {
    let mut told = Told::new(alloc);
    desk.show(alloc, &mut told);
    told
}

/// Tells that memory was wanting for a command, and whether it changed something.
fn tell_wanting<D: Desk>(alloc: Global, desk: &mut D, before: &Told, told: &mut Told) {
    let after = shown(alloc, desk);
    let same = before.as_slice() == after.as_slice();
    told.line(if same { b"MEMORY" } else { b"CHANGED" });
    if after.is_wanting() {
        told.want();
    }
}

/// Does a command, a second time where memory was wanting.
fn act_surely<D: Desk>(alloc: Global, desk: &mut D, line: &mut Line<'_>) {
    let before = shown(alloc, desk);
    line.told.reserve(ROOM);
    if before.is_wanting() || line.told.is_wanting() {
        return line.told.want();
    }
    let (text, words, lines) = (line.text, line.words, line.lines);
    let length = line.told.as_slice().len();
    desk.act(alloc, line);
    if line.told.is_wanting() {
        line.told.go_back(length);
        tell_wanting(alloc, desk, &before, &mut line.told);
        line.text = text;
        line.words = words;
        line.lines = lines;
        desk.act(alloc, line);
    }
}

/// Does the commands of all lines that are left.
pub fn answer_lines<D: Desk>(alloc: Global, desk: &mut D, line: &mut Line<'_>) {
    for _ in 0..line.lines.len() {
        if !line.next() {
            break;
        }
        act_surely(alloc, desk, line);
        line.end();
    }
}
