//! A job as its deck or its records denote it.
ghost use Rattle.std.specs.Prelude.{◌≡◌, []};

use crate::day::Day;
use crate::outcome::Code;
use arrayvec::ArrayVec;
use jname_core::ds_name::DsName;
use jname_core::key::Key;
use jname_core::name8::Name8;
use jname_core::serial::Serial;
use plain::listed::Listed;
use plain::shared::Shared;

/// A record or a card: 80 columns.
pub type Record = [u8; 80];

/// How many records a track holds. (This profile)
pub const RECORDS_A_TRACK: usize = 32;

/// The most steps of a job. (This profile)
pub const MOST_STEPS: usize = 255;

/// The most DDs of a step. (This profile)
pub const MOST_DDS: usize = 64;

/// The most data set names that a job holds. (This profile)
pub const MOST_NAMES: usize = 255;

/// The most tracks of a volume, and so of a space. (This profile)
pub const MOST_TRACKS: u16 = 4_000;

/// How a test compares its code with a completion code. (COND parameter)
#[derive(Clone, Copy, PartialEq, Eq)]
pub enum Operator {
    Gt,
    Ge,
    Eq,
    Lt,
    Le,
    Ne,
}

/// A test of completion codes: of one step, counted from 1, or of each step that ended by a code. A test of the JOB statement names
/// no step. (COND parameter)
#[derive(Clone, Copy)]
pub struct Test {
    pub code: Code,
    pub operator: Operator,
    pub step: Option<u16>,
}

/// What fills the unused places of a list of tests.
impl Default for Test {
    fn default() -> Test {
        Test {
            code: Code::zero(),
            operator: Operator::Gt,
            step: None,
        }
    }
}

/// Whether a step runs after an ABEND. (COND parameter)
#[derive(Clone, Copy, PartialEq, Eq)]
pub enum AfterAbend {
    /// It does not.
    Unsaid,
    /// It does too.
    Even,
    /// Then alone.
    Only,
}

/// Whether a set is to be made or is there. (DISP parameter)
#[derive(Clone, Copy, PartialEq, Eq)]
pub enum Status {
    New,
    Old,
    Shr,
    Mod,
}

/// What becomes of a set at the step's end. (DISP parameter)
#[derive(Clone, Copy, PartialEq, Eq)]
pub enum Word {
    Delete,
    Keep,
    Pass,
    Catlg,
    Uncatlg,
}

/// What becomes of it after an ABEND. (DISP parameter)
#[derive(Clone, Copy, PartialEq, Eq)]
pub enum ConditionalWord {
    Delete,
    Keep,
    Catlg,
    Uncatlg,
}

/// The way to a set's volume. Steps and DDs count from 1. (VOLUME parameter)
#[derive(Clone, Copy)]
pub enum VolumePlan {
    NotCoded,
    Serial(Serial),
    /// The volume of the set of this name.
    OfName(DsName),
    /// The volume on which that DD's set was taken.
    OfDd { step: u16, dd: u16 },
}

/// What a set that is made gets, in tracks. (SPACE parameter)
#[derive(Clone, Copy, PartialEq, Eq)]
pub struct Space {
    pub primary: u16,
    pub secondary: u16,
    /// RLSE: tracks without records are released.
    pub release: bool,
}

/// Before which day a set that is made is not to be deleted. Days count from 1900/001 as 0. (LABEL parameter)
#[derive(Clone, Copy, PartialEq, Eq)]
pub enum Expiry {
    NotCoded,
    Day(Day),
    /// So many days from the job's date.
    DaysFromToday(u16),
}

/// A DD for a set. (DD statement)
#[derive(Clone, Copy)]
pub struct SetPlan {
    pub key: Key,
    pub status: Status,
    pub normal: Option<Word>,
    pub conditional: Option<ConditionalWord>,
    pub volume: VolumePlan,
    /// Its list of volumes, which count from 1 as configured.
    pub units: Option<u16>,
    pub space: Option<Space>,
    pub expiry: Expiry,
}

/// What a DD is. (DD statement)
#[derive(Drop)]
pub enum DdKind {
    /// Output of this class.
    Sysout(u8),
    Dummy,
    /// Input from the deck, which the statement shares.
    Cards(Shared<Record>),
    Set(SetPlan),
}

/// A DD. One without a name continues the concatenation of the one before. (DD statement)
#[derive(Drop)]
pub struct DdPlan {
    pub name: Option<Name8>,
    pub kind: DdKind,
}

/// A step. (EXEC statement)
#[derive(Drop)]
pub struct StepPlan {
    pub name: Option<Name8>,
    /// The name of the procedure's step, where a procedure brought it.
    pub procedure_step: Option<Name8>,
    pub program: Name8,
    pub after_abend: AfterAbend,
    pub tests: Tests,
    pub dds: Listed<DdPlan>,
}

/// At most eight tests.
pub type Tests = ArrayVec<Test, 8>;

/// No test.
pub fn no_tests() -> Tests
    ensures { result.items ≡ [] }
{
    Tests::new()
}

/// A job. (JOB statement)
#[derive(Drop)]
pub struct JobPlan {
    pub name: Name8,
    /// A to O.
    pub class: u8,
    /// 0 to 13, 13 first.
    pub priority: u8,
    /// The class of its listing, a letter or a digit.
    pub message_class: u8,
    pub tests: Tests,
    pub steps: Listed<StepPlan>,
}
