//! The lines of the listing.
use crate::fault::{Cause, Fault};
use crate::outcome::{Abend, Code, Fate, Outcome};
use crate::plan::Record;
use crate::words::{BackWord, DispWord, TakeWord};
use jname_core::ds_name::DsName;
use jname_core::name8::Name8;
use jname_core::serial::Serial;
use plain::listed::Listed;

/// A job's line without its number. Steps and DDs count from 1; a step or a DD without a name is shown as `-`.
#[derive(Drop)]
pub enum JobLine {
    /// Taken into the queue.
    Read {
        name: Name8,
        class: u8,
        priority: u8,
    },
    /// Refused by the reader.
    Rejected(Cause),
    /// By this initiator.
    Selected(u8),
    /// The records denote no job: n of `Bn`.
    Broken(u8),
    /// So many names are held.
    Names(usize),
    /// The first name in conflict and its lowest holder.
    WaitNames {
        holder: u16,
        name: DsName,
    },
    WaitSpace(Serial),
    /// Kept tracks, and the budget.
    Assured {
        tracks: usize,
        actions: usize,
    },
    /// The earliest fault, and outcomes that lead to it.
    Risk {
        fault: Fault,
        step: usize,
        dd: usize,
        path: Listed<Outcome>,
    },
    /// More views than the limit after this step.
    TooMany(usize),
    /// Risky or too many, and such jobs are not run.
    Refused,
    /// Cancelled before admission.
    Cancelled,
    Step {
        step: usize,
        name: Option<Name8>,
        procedure_step: Option<Name8>,
        fate: Fate,
    },
    Take {
        dd: usize,
        name: Option<Name8>,
        word: TakeWord,
    },
    Fault {
        fault: Fault,
        step: usize,
        dd: usize,
    },
    Back {
        dd: usize,
        name: Option<Name8>,
        word: BackWord,
    },
    GetStart {
        name: Name8,
        serial: Serial,
    },
    GetData {
        name: Name8,
        text: Record,
    },
    GetEnd {
        name: Name8,
    },
    /// With the tracks of secondary space that were granted.
    PutStart {
        name: Name8,
        serial: Serial,
        grown: Option<u16>,
    },
    PutDone {
        name: Name8,
    },
    Code(Code),
    Abend(Abend),
    Disp {
        dd: usize,
        name: Option<Name8>,
        word: DispWord,
    },
    /// A passed set that was not received, by the DD that passed it.
    Left {
        step: usize,
        dd: usize,
        name: Option<Name8>,
        word: DispWord,
    },
    End,
}

/// What a writer writes of a job.
#[derive(Drop)]
pub enum Written {
    /// A line of its listing.
    Line(JobLine),
    /// A record of its output.
    Record(Record),
}

/// A line of the listing.
#[derive(Drop)]
pub enum Entry {
    /// A job's line, by the job's number.
    Job(u16, JobLine),
    /// A line of the path that the RISK line before it tells, by the job's number: the job would write it on the way to its fault.
    Path(u16, JobLine),
    /// A cancel was taken.
    Cancel(u16),
    /// A writer of this class wrote a line of a job.
    Writer {
        class: u8,
        job: u16,
        written: Written,
    },
    /// An event was refused.
    Refused(Cause),
    /// A volume's free tracks, and those kept for jobs.
    Volume {
        serial: Serial,
        free: usize,
        kept: usize,
    },
    /// Jobs not selected, jobs with an initiator, and free records.
    Queue {
        queued: usize,
        running: usize,
        records: usize,
    },
    /// The date, by its year and the day of the year.
    Date {
        year: u16,
        day: u16,
    },
}
