//! What is told of numbers that follow one another: where their answers are equal, once.
use crate::sessions::commands::{Asked, Span};
use crate::sessions::row::tell_block;
use crate::sessions::tell_text;
use row_table::told::Told;
use std::alloc::Global;

/// The last numbers whose answers are equal, and that answer. Those before them are told.
#[derive(Drop)]
pub(crate) struct Answers<'a> {
    span: Option<Span>,
    /// What stands between the numbers and their answer.
    between: &'a [u8],
    answer: Told,
}

impl<'a> Answers<'a> {
    /// There is no number yet.
    pub(crate) fn new(alloc: Global, between: &'a [u8]) -> Answers<'a> {
        Answers {
            span: None,
            between,
            answer: Told::new(alloc),
        }
    }

    /// Tells the last numbers, and their answer.
    pub(crate) fn tell(&self, told: &mut Told) {
        let Some(span) = self.span else {
            return;
        };
        told.numbered(b"", u64::from(span.first));
        if span.first != span.last {
            told.numbered(b" to ", u64::from(span.last));
        }
        told.word(self.between);
        told.append(&self.answer);
    }

    /// Takes the answer to the next number.
    pub(crate) fn take(&mut self, number: u16, answer: Told, told: &mut Told) {
        let mut first = number;
        match self.span {
            Some(span) if answer.as_slice() == self.answer.as_slice() => first = span.first,
            _ => {
                self.tell(told);
                self.answer = answer;
            }
        }
        self.span = Some(Span {
            first,
            last: number,
        });
    }
}

/// What is told of the session in which a number stands.
fn told_at(alloc: Global, asked: &Asked, text: &[u8], number: u16) -> Told {
    let mut session = Told::new(alloc);
    let mut told = Told::new(alloc);
    tell_block(&mut session, text, number);
    if session.is_wanting() {
        told.want();
    }
    tell_text(alloc, asked, session.as_slice(), &mut told);
    told
}

/// Runs a session once for each number of a span, which stands in it.
pub(crate) fn tell_each(alloc: Global, asked: &Asked, text: &[u8], span: Span, told: &mut Told) {
    let mut answers = Answers::new(alloc, b":\n");
    for number in span.first..=span.last {
        let answer = told_at(alloc, asked, text, number);
        answers.take(number, answer, told);
    }
    answers.tell(told);
}
