//! How much the calls of a deck bring in, by which it is known how much is read.
use crate::mended::{Mended, card_at};
use card_core::card::{Kind, kind_of};
use card_core::field::fields_of;
use card_core::statement::DataCard;
use jname_core::name8::Name8;
use proc_library::library::ProcLibrary;
use std::alloc::{AllocError, Global};

/// A procedure of the deck, and how many cards stand behind its PROC statement.
#[derive(Clone, Copy)]
struct Own {
    name: Name8,
    cards: usize,
}

/// What a walk over the cards of a deck has found.
#[derive(Drop)]
struct Brought<'a> {
    library: &'a ProcLibrary,
    /// Its procedures so far.
    own: Vec<Own>,
    /// Whether a PEND statement is still to come.
    is_inside: bool,
    /// The cards that calls bring in.
    cards: usize,
}

/// The first part of an operand.
pub(crate) fn first_part(behind: &[u8]) -> &[u8] {
    match behind.split(|c| *c == b',' || *c == b' ').next() {
        Some(part) => part,
        None => b"",
    }
}

/// The procedure that an EXEC statement calls by the first part of its operand.
pub(crate) fn procedure_called(part: &[u8]) -> Option<Name8> {
    let name = if part.starts_with(b"PROC=") {
        &part[5..]
    } else {
        part
    };
    match Name8::read(name) {
        Ok(name) => Some(name),
        Err(_) => None,
    }
}

impl<'a> Brought<'a> {
    /// How many cards a call of this procedure brings in.
    fn cards_of(&self, name: &Name8) -> usize {
        for own in &self.own {
            if own.name.as_slice() == name.as_slice() {
                return own.cards;
            }
        }
        match self.library.find(name) {
            Some(procedure) => procedure.lines.len(),
            None => 0,
        }
    }

    /// A procedure begins.
    fn begin(&mut self, name: &[u8]) -> Result<(), AllocError> {
        self.is_inside = true;
        if let Ok(name) = Name8::read(name) {
            self.own.push(Own { name, cards: 0 })?;
        }
        Ok(())
    }

    /// One more card of the procedure that is open.
    fn count(&mut self) {
        if let Some(own) = self.own.last_mut() {
            own.cards = own.cards.saturating_add(1);
        }
    }

    /// Takes the next card.
    fn take(&mut self, card: &DataCard) -> Result<(), AllocError> {
        let fields = fields_of(card);
        if fields.operation == b"PROC".as_slice() {
            return self.begin(fields.name);
        }
        if self.is_inside {
            self.is_inside = fields.operation != b"PEND".as_slice();
            self.count();
        } else if fields.operation == b"EXEC".as_slice() {
            if let Some(name) = procedure_called(first_part(fields.behind)) {
                self.cards = self.cards.saturating_add(self.cards_of(&name));
            }
        }
        Ok(())
    }
}

/// How many cards the calls on the first cards of a deck bring in, about.
pub(crate) fn brought_in(
    alloc: Global,
    library: &ProcLibrary,
    mended: &Mended,
    count: usize,
) -> Result<usize, AllocError> {
    let mut brought = Brought {
        library,
        own: Vec::new(alloc),
        is_inside: false,
        cards: 0,
    };
    for n in 0..count.min(mended.lines.len()) {
        if let Some(card) = card_at(mended.lines.as_slice(), n) {
            if kind_of(&card) == Kind::Jcl {
                brought.take(&card)?;
            }
        }
    }
    Ok(brought.cards)
}
