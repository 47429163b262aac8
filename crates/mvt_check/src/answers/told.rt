//! What an event tells of a deck's number and of an admission.
ghost use Rattle.std.specs.Prelude.{◌≡◌, ◌++◌, IfOk, OnOk, None, fold, if◌then◌else◌};
ghost use Rattle.mvt_check.specs.Answers.{answer_behind, answer_by, has_number, is_answer, number_behind, path_in, path_of};

use crate::answers::answer::Answer;
use jcl_plan::entry::{Entry, JobLine};
use plain::listed::Listed;
use std::alloc::{AllocError, Global};

/// What is kept of an event's lines.
#[derive(Drop)]
pub(crate) struct Told {
    /// The number that a deck's job got.
    pub(crate) number: Option<u16>,
    /// A job, by its number, and the line that answers its admission.
    pub(crate) answer: Option<(u16, JobLine)>,
    /// The lines that explain it.
    pub(crate) path: Listed<JobLine>,
}

/// Whether the line tells that a deck was read, or that it was refused.
fn has_number(line: &JobLine) -> bool
    ensures { result ≡ has_number line.now }
{
    matches!(line, JobLine::Read { .. } | JobLine::Rejected(_))
}

/// Whether the line answers an admission.
fn is_answer(line: &JobLine) -> bool
    ensures { result ≡ is_answer line.now }
{
    matches!(
        line,
        JobLine::Assured { .. } | JobLine::Risk { .. } | JobLine::TooMany(_) | JobLine::WaitSpace(_)
    )
}

/// The answer that a line tells, with the lines that explain it.
pub(crate) fn answer_by(line: JobLine, path: Listed<JobLine>) -> Option<Answer>
    ensures { result ≡ answer_by path line }
{
    match line {
        JobLine::Assured { tracks, actions } => Some(Answer::Assured { tracks, actions }),
        JobLine::Risk {
            fault,
            step,
            dd,
            path: outcomes,
        } => Some(Answer::Risk {
            fault,
            step,
            dd,
            path: outcomes,
            lines: path,
        }),
        JobLine::TooMany(step) => Some(Answer::TooMany(step)),
        JobLine::WaitSpace(serial) => Some(Answer::SpaceWait(serial)),
        _ => None,
    }
}

impl Told {
    /// The job whose admission is answered.
    pub(crate) fn answered(&self) -> Option<u16> {
        match &self.answer {
            Some((job, _)) => Some(*job),
            None => None,
        }
    }

    /// Keeps what a job's line tells.
    fn add_line(&mut self, job: u16, line: JobLine)
        ensures number { self.new.number ≡ (if has_number line then Some job else self.old.number) }
        ensures answer { self.new.answer ≡ (if is_answer line then Some (job, line) else self.old.answer) }
        ensures path { self.new.path ≡ self.old.path }
    {
        if has_number(&line) {
            self.number = Some(job);
        }
        if is_answer(&line) {
            self.answer = Some((job, line));
        }
    }

    /// Keeps what a line tells.
    fn add(&mut self, entry: Entry) -> Result<(), AllocError>
        ensures number { OnOk result (self.new.number ≡ number_behind self.old.number entry) }
        ensures answer { OnOk result (self.new.answer ≡ answer_behind self.old.answer entry) }
        ensures path { OnOk result (self.new.path ≡ self.old.path ++ path_of entry) }
    {
        match entry {
            Entry::Job(job, line) => {
                self.add_line(job, line);
                Ok(())
            }
            Entry::Path(_, line) => self.path.push(line),
            _ => Ok(()),
        }
    }
}

/// What is kept of these lines of an event.
pub(crate) fn told_by(alloc: Global, lines: Listed<Entry>) -> Result<Told, AllocError>
    ensures number { IfOk result (λ t. t.number ≡ fold number_behind None lines) }
    ensures answer { IfOk result (λ t. t.answer ≡ fold answer_behind None lines) }
    ensures path { IfOk result (λ t. t.path ≡ path_in lines) }
{
    let mut told = Told {
        number: None,
        answer: None,
        path: Listed::empty(alloc),
    };
    for entry in lines.into_vec() {
        told.add(entry)?;
    }
    Ok(told)
}
