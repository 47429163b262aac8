//! What is told of a row.
ghost use Rattle.std.specs.Prelude.{◌≡◌, IfSome, Ok};

use itoa::Buffer;
use std::alloc::{AllocError, Global};

/// What is told of a row so far, and whether memory was wanting for it or for a call that it is about.
#[derive(Drop)]
pub struct Told {
    bytes: Vec<u8>,
    is_wanting: bool,
}

impl Told {
    /// Nothing is told yet.
    pub fn new(alloc: Global) -> Told {
        Told {
            bytes: Vec::new(alloc),
            is_wanting: false,
        }
    }

    pub fn as_slice(&self) -> &[u8] {
        self.bytes.as_slice()
    }

    /// Whether memory was wanting.
    pub fn is_wanting(&self) -> bool {
        self.is_wanting
    }

    /// Memory was wanting.
    pub fn want(&mut self) {
        self.is_wanting = true;
    }

    /// What a call gave, or none where it wanted memory.
    pub fn got<T>(&mut self, answer: Result<T, AllocError>) -> Option<T>
        ensures { IfSome result (λ value. answer ≡ Ok value) }
    {
        match answer {
            Ok(value) => Some(value),
            Err(_) => {
                self.is_wanting = true;
                None
            }
        }
    }

    /// A call that gives nothing is over.
    pub fn over(&mut self, answer: Result<(), AllocError>) {
        if answer.is_err() {
            self.is_wanting = true;
        }
    }

    /// Room for so many further bytes.
    pub fn reserve(&mut self, room: usize) {
        let reserved = self.bytes.reserve(room);
        self.over(reserved);
    }

    /// Nothing was told behind so many bytes, and no memory was wanting.
    pub fn go_back(&mut self, length: usize) {
        self.bytes.truncate(length);
        self.is_wanting = false;
    }

    pub fn word(&mut self, word: &[u8]) {
        let pushed = self.bytes.extend_from_slice(word);
        self.over(pushed);
    }

    /// Two words, one behind the other.
    pub fn two(&mut self, first: &[u8], second: &[u8]) {
        self.word(first);
        self.word(second);
    }

    /// What is told elsewhere, and whether memory was wanting for it.
    pub fn append(&mut self, other: &Told) {
        self.word(other.as_slice());
        self.is_wanting |= other.is_wanting;
    }

    pub fn end_line(&mut self) {
        self.word(b"\n");
    }

    /// A line of a word.
    pub fn line(&mut self, word: &[u8]) {
        self.word(word);
        self.end_line();
    }

    /// A line of two words, one behind the other.
    pub fn line_of_two(&mut self, first: &[u8], second: &[u8]) {
        self.word(first);
        self.line(second);
    }

    /// A word, and a number behind it.
    pub fn numbered(&mut self, word: &[u8], number: u64) {
        let mut buffer = Buffer::new();
        self.word(word);
        self.word(buffer.format(number).as_bytes());
    }

    /// A line of a word, and a number behind it.
    pub fn numbered_line(&mut self, word: &[u8], number: u64) {
        self.numbered(word, number);
        self.end_line();
    }

    /// A call that its contract does not allow was not made.
    pub fn not_allowed(&mut self) {
        self.line(b"NOT ALLOWED");
    }

    /// A line that was not understood.
    pub fn not_understood(&mut self, line: &[u8]) {
        self.line_of_two(b"? ", line);
    }

    /// A byte, as two digits of sixteen.
    fn byte(&mut self, byte: u8) {
        let digits = b"0123456789ABCDEF";
        let (high, low) = (usize::from(byte / 16), usize::from(byte % 16));
        self.two(&digits[high..high + 1], &digits[low..low + 1]);
    }

    /// Bytes, each as two digits of sixteen.
    pub fn bytes(&mut self, bytes: &[u8]) {
        for byte in bytes {
            self.byte(*byte);
        }
    }
}
