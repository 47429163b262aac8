//! The numbers of refusals.
ghost use Rattle.std.specs.Prelude.{◌≡◌};
ghost use Rattle.jcl_plan.specs.RefusalNumbers.{event_number, number_of, queue_number};

use thiserror::Error;

/// A fault of a job.
#[derive(Clone, Copy, PartialEq, Eq)]
pub enum Fault {
    /// A set is missing.
    F1,
    /// A set of the name is on the volume already.
    F2,
    /// The catalog has an entry for another volume.
    F3,
    /// The catalog has no entry to remove.
    F4,
    /// There is no such generation.
    F5,
    /// There is no primary space.
    F6,
    /// SPACE is missing for a set to be made.
    F7,
    /// A set is gone at its disposition.
    F8,
    /// A generation's number would be above 9999.
    F9,
    /// The volume is unknown.
    F10,
}

/// A fault of a deck's statements, and of what they refer to.
#[derive(Clone, Copy, Debug, PartialEq, Eq, Error)]
pub enum StatementFault {
    #[error("the first statement is no JOB statement, or a second one follows")]
    NotOneJob,
    #[error("a JOB statement, or a procedure in the stream, has no name")]
    MissingName,
    #[error("an operation is unknown, or a PEND statement ends no procedure")]
    UnknownOperation,
    #[error("a keyword is unknown on its statement")]
    UnknownKeyword,
    #[error("a keyword is given twice")]
    KeywordTwice,
    #[error("a value has the wrong form or is out of its range")]
    BadValue,
    #[error("two keywords or words exclude one another")]
    ExcludeOneAnother,
    #[error("parentheses are not balanced")]
    UnbalancedParentheses,
    #[error("there are too many positional operands, or one follows a keyword")]
    TooManyPositional,
    #[error("an EXEC statement has neither a program nor a procedure, or both")]
    NotOneProgram,
    #[error("the job has no step")]
    NoStep,
    #[error("a DD statement other than JOBLIB is before the first EXEC statement")]
    DdBeforeExec,
    #[error("there are more than 8 tests")]
    TooManyTests,
    #[error("a procedure has cards of data")]
    CardsInProcedure,
    #[error("a DD statement without a name has none before it")]
    NothingToContinue,
    #[error("a unit name is unknown")]
    UnknownUnit,
    #[error("there is more than one serial")]
    SeveralSerials,
    #[error("a data set has the name of a member after it")]
    MemberName,
    #[error("a keyword or a form is left out of this profile")]
    LeftOut,
    #[error("there is no such procedure")]
    NoSuchProcedure,
    #[error("a procedure calls a procedure")]
    ProcedureCallsProcedure,
    #[error("a procedure in the stream has no PEND statement")]
    MissingPend,
    #[error("an override is out of order")]
    OverrideOutOfOrder,
    #[error("there is no such step of a procedure")]
    NoSuchProcedureStep,
    #[error("there are more than 15 procedures in the stream")]
    TooManyProcedures,
    #[error("a symbol has no value")]
    SymbolWithoutValue,
    #[error("an operand has over 1,024 characters")]
    OperandTooLong,
    #[error("a reference leads to nothing")]
    ReferenceToNothing,
    #[error("a reference leads forward")]
    ForwardReference,
    #[error("a condition names no earlier step")]
    TestOfNoEarlierStep,
    #[error("there are more than 255 steps")]
    TooManySteps,
    #[error("a step has more than 64 DD statements")]
    TooManyDds,
    #[error("there are more than 5 DDNAME keywords")]
    TooManyDdNames,
    #[error("the job holds more than 255 names")]
    TooManyNames,
}

impl StatementFault {
    /// Its number, n of `Pn`. Not all numbers are given.
    pub fn number(self) -> u8
        ensures { result ≡ number_of self }
    {
        match self {
            StatementFault::NotOneJob => 1,
            StatementFault::MissingName => 2,
            StatementFault::UnknownOperation => 3,
            StatementFault::UnknownKeyword => 4,
            StatementFault::KeywordTwice => 5,
            StatementFault::BadValue => 6,
            StatementFault::ExcludeOneAnother => 7,
            StatementFault::UnbalancedParentheses => 8,
            StatementFault::TooManyPositional => 9,
            StatementFault::NotOneProgram => 10,
            StatementFault::NoStep => 11,
            StatementFault::DdBeforeExec => 12,
            StatementFault::TooManyTests => 13,
            StatementFault::CardsInProcedure => 14,
            StatementFault::NothingToContinue => 15,
            StatementFault::UnknownUnit => 16,
            StatementFault::SeveralSerials => 17,
            StatementFault::MemberName => 18,
            StatementFault::LeftOut => 19,
            StatementFault::NoSuchProcedure => 20,
            StatementFault::ProcedureCallsProcedure => 21,
            StatementFault::MissingPend => 22,
            StatementFault::OverrideOutOfOrder => 23,
            StatementFault::NoSuchProcedureStep => 24,
            StatementFault::TooManyProcedures => 25,
            StatementFault::SymbolWithoutValue => 31,
            StatementFault::OperandTooLong => 32,
            StatementFault::ReferenceToNothing => 40,
            StatementFault::ForwardReference => 41,
            StatementFault::TestOfNoEarlierStep => 42,
            StatementFault::TooManySteps => 43,
            StatementFault::TooManyDds => 44,
            StatementFault::TooManyDdNames => 45,
            StatementFault::TooManyNames => 46,
        }
    }
}

/// A fault of the queue of records.
#[derive(Clone, Copy, Debug, PartialEq, Eq, Error)]
pub enum QueueFault {
    #[error("too few records are free")]
    Full,
    #[error("the record has no owner")]
    NotOwner,
    #[error("the record's job is selected")]
    Selected,
}

impl QueueFault {
    /// Its number, n of `Qn`.
    pub fn number(self) -> u8
        ensures { result ≡ queue_number self }
    {
        match self {
            QueueFault::Full => 1,
            QueueFault::NotOwner => 2,
            QueueFault::Selected => 3,
        }
    }
}

/// A fault of an event.
#[derive(Clone, Copy, Debug, PartialEq, Eq, Error)]
pub enum EventFault {
    #[error("there is no such initiator")]
    NoSuchInitiator,
    #[error("there is no such job, or it is over")]
    NoSuchJob,
    #[error("there is no such volume")]
    NoSuchVolume,
    #[error("no operation is under way on the volume")]
    NothingUnderWay,
    #[error("there are no more events, or no more jobs")]
    PastLimit,
}

impl EventFault {
    /// Its number, n of `An`.
    pub fn number(self) -> u8
        ensures { result ≡ event_number self }
    {
        match self {
            EventFault::NoSuchInitiator => 1,
            EventFault::NoSuchJob => 2,
            EventFault::NoSuchVolume => 3,
            EventFault::NothingUnderWay => 4,
            EventFault::PastLimit => 5,
        }
    }
}

/// Why a job, an event or a chain of records was refused: its letter and its number, as in `P11`.
#[derive(Clone, Copy, PartialEq, Eq)]
pub enum Cause {
    /// Cards.
    C(u8),
    /// Names.
    N(u8),
    /// Statements and what they refer to.
    P(StatementFault),
    /// The queue.
    Q(QueueFault),
    /// The chain of a job's records.
    B(u8),
    /// Events.
    A(EventFault),
}
