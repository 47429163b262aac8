//! What is a job's own while it runs. Steps and DDs count from 1.
ghost use Rattle.std.specs.Prelude.{◌≡◌, IfOk};
ghost use Rattle.jcl_meaning.specs.Solo.{nothing_own};

use jcl_plan::fault::Fault;
use jcl_plan::outcome::Outcome;
use jcl_plan::plan::Record;
use jcl_plan::words::DispWord;
use jname_core::key::Key;
use jname_core::name8::Name8;
use jname_core::serial::Serial;
use plain::listed::Listed;
use std::alloc::{AllocError, Global};

/// A set that was passed and not yet received. (DISP parameter, PASS)
#[derive(Clone, Copy)]
pub struct Passed {
    pub key: Key,
    pub serial: Serial,
    /// The job made it.
    pub made: bool,
    /// It was first found through the catalog.
    pub by_catalog: bool,
    /// The DD that passed it.
    pub step: usize,
    pub dd: usize,
    /// An ABEND came in a later step.
    pub abend_later: bool,
}

/// How a step ended, by a code or an ABEND.
#[derive(Clone, Copy)]
pub struct Ended {
    pub step: usize,
    pub outcome: Outcome,
}

/// A set that a DD took.
#[derive(Clone, Copy)]
pub struct TakenSet {
    pub key: Key,
    pub serial: Serial,
    /// The job made it.
    pub made: bool,
    /// It was found through the catalog, at first.
    pub by_catalog: bool,
    /// This very DD made it.
    pub made_here: bool,
}

/// A DD of the step at hand, once it is taken.
#[derive(Clone, Drop)]
pub struct DdState {
    pub number: usize,
    pub name: Option<Name8>,
    /// Its set; none of SYSOUT, DUMMY and cards.
    pub taken: Option<TakenSet>,
    /// Where the next GET reads: the member of the concatenation, from 0, and the record in it.
    pub member: usize,
    pub position: usize,
    /// A record was put.
    pub written: bool,
    /// The records put to SYSOUT.
    pub spooled: Listed<Record>,
}

/// What is due at a device's end.
#[derive(Clone, Copy)]
pub enum Due {
    /// The record that a GET reads.
    Data {
        name: Name8,
        text: Record,
    },
    /// The record that a PUT writes, and its DD, from 0.
    Put {
        name: Name8,
        dd: usize,
        text: Record,
    },
}

/// The volume on which a DD's set was taken.
#[derive(Clone, Copy)]
pub struct DdVolume {
    pub step: usize,
    pub dd: usize,
    pub serial: Serial,
}

/// The records of a SYSOUT DD whose step is over.
#[derive(Drop)]
pub struct Output {
    pub step: usize,
    pub dd: usize,
    pub class: u8,
    pub records: Listed<Record>,
}

/// What is a job's own.
#[derive(Drop)]
pub struct Own {
    /// The passed sets, in the order of passing.
    pub passed: Listed<Passed>,
    /// The steps that ended, the latest first.
    pub ended: Listed<Ended>,
    /// A fault ended the job's running.
    pub faulted: bool,
    pub volumes: Listed<DdVolume>,
    pub outputs: Listed<Output>,
    /// The step at hand runs.
    pub runs: bool,
    /// How its program ended, once it has.
    pub over: Option<Outcome>,
    /// Its DDs that were taken, in order.
    pub dds: Listed<DdState>,
    pub due: Option<Due>,
    /// The lines that its program has written; none again once it has ended.
    pub lines: usize,
}

/// What is a job's own before its first step.
pub fn nothing_own(alloc: Global) -> Own
    ensures { result ≡ nothing_own }
{
    Own {
        passed: Listed::empty(alloc),
        ended: Listed::empty(alloc),
        faulted: false,
        volumes: Listed::empty(alloc),
        outputs: Listed::empty(alloc),
        runs: false,
        over: None,
        dds: Listed::empty(alloc),
        due: None,
        lines: 0,
    }
}

/// A DD on a volume.
#[derive(Clone, Copy)]
pub struct Place {
    pub step: usize,
    pub dd: usize,
    pub serial: Serial,
}

/// What a key means, by what admission found.
#[derive(Clone, Copy)]
pub enum Resolution {
    Means(Key),
    Fails(Fault),
}

/// What the key of a DD means, from admission on.
#[derive(Clone, Copy)]
pub struct KeyMeaning {
    pub step: usize,
    pub dd: usize,
    pub means: Resolution,
}

/// What a disposition changes.
#[derive(Clone, Copy, PartialEq, Eq)]
pub enum Change {
    Nothing,
    Scratch,
    ScratchAndUncatalog,
    Catalog,
    Uncatalog,
    EnterGeneration,
}

/// What a disposition does: its word, what it changes, and whether the set is passed.
#[derive(Clone, Copy, PartialEq, Eq)]
pub struct Disposed {
    pub word: DispWord,
    pub change: Change,
    pub passes: bool,
}
