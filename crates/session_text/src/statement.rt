//! The statements of a session.
ghost use Rattle.std.specs.Prelude.{◌≡◌, IfOk};
ghost use Rattle.session_text.specs.Statements.{configures};

use crate::fault::Fault;
use boxed_core::Boxed;
use jname_core::name8::Name8;
use session_input::event::Event;
use session_input::statement::{ConfigStatement, SetStatement};
use std::alloc::{AllocError, Global};

/// How a text ended: whole, or cut where it was too long or could not be read further.
#[derive(Clone, Copy, PartialEq, Eq)]
pub enum Ending {
    Whole,
    TooLong,
    ReadFailed,
}

/// What a statement says.
#[derive(Drop)]
pub enum Says<'a> {
    /// Configuration, and whether its block has an END; what is no block lacks none.
    Config {
        statement: Boxed<ConfigStatement<'a>>,
        has_end: bool,
    },
    /// An event, so many times over.
    Events(Event<'a>, u16),
    /// The statement itself is refused.
    Refused(Fault),
}

/// A statement, and its first line, which counts from 1.
#[derive(Drop)]
pub struct Statement<'a> {
    pub line: usize,
    pub says: Says<'a>,
}

/// A block, by the line that opens it.
#[derive(Drop)]
pub enum Block {
    /// A deck that is read.
    Deck,
    /// A procedure of the library.
    Procedure(Name8),
    /// A set, without records yet.
    Set(Boxed<SetStatement>),
    Program(Name8),
    /// The line has a fault of its own.
    Faulty(Fault),
}

/// What a line outside a block says.
#[derive(Drop)]
pub enum LineSays<'a> {
    Blank,
    One(Says<'a>),
    /// It opens a block.
    Opens(Block),
}

/// Configuration on one line.
pub(crate) fn configures<'a>(
    alloc: Global,
    statement: ConfigStatement<'a>,
) -> Result<Says<'a>, AllocError>
    ensures { IfOk result (λ s. s ≡ configures statement.entry) }
{
    Ok(Says::Config {
        statement: Boxed::new(alloc, statement)?,
        has_end: true,
    })
}
