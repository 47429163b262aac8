//! The lanes of initiators.
use crate::jobs::Jobs;
use crate::lane::{Lane, StepName, What};
use crate::look::Look;
use crate::moment::InitiatorSeen;
use crate::words::{first_words, step_name, text_of, wait_text, words_below};
use jcl_plan::entry::{Entry, JobLine};
use jcl_plan::outcome::Fate;
use jname_core::ds_name::DsName;
use plain::draft::Draft;
use plain::short::Short;
use std::alloc::{AllocError, Global};

/// An initiator, its job if it has one, and what it does.
#[derive(Drop)]
pub struct InitiatorLane {
    pub number: u8,
    pub lane: Lane,
    doing: Option<What>,
    step: StepName,
    /// The name that it waits for.
    pub wants: Option<DsName>,
}

/// What a job does after a line, where the line changes it.
fn after_line(line: &JobLine, before: What) -> What {
    let look = match line {
        JobLine::WaitNames { .. } | JobLine::WaitSpace(_) => Look::Waits,
        JobLine::Names(_) => Look::Selected,
        JobLine::Assured { .. } | JobLine::Risk { .. } | JobLine::TooMany(_) => Look::Admitted,
        JobLine::GetStart { .. } | JobLine::PutStart { .. } => Look::Device,
        JobLine::GetData { .. } | JobLine::GetEnd { .. } | JobLine::PutDone { .. } => Look::Runs,
        JobLine::Abend(_) => Look::Runs,
        JobLine::Step { step, fate, .. } => return of_step(*step, *fate, before),
        _ => before.look,
    };
    What { look, ..before }
}

fn of_step(step: usize, fate: Fate, before: What) -> What {
    let look = match fate {
        Fate::Run => Look::Runs,
        Fate::Bypassed => Look::Bypassed,
        Fate::Flushed => Look::Flushed,
    };
    What {
        look,
        job: before.job,
        number: step,
    }
}

/// The flag of a line.
fn flag_of(line: &JobLine) -> Option<Look> {
    match line {
        JobLine::Abend(_) => Some(Look::Abend),
        JobLine::Fault { .. } => Some(Look::Fault),
        _ => None,
    }
}

impl InitiatorLane {
    pub fn new(alloc: Global, number: u8) -> InitiatorLane {
        InitiatorLane {
            number,
            lane: Lane::empty(alloc),
            doing: None,
            step: Short::new(b""),
            wants: None,
        }
    }

    /// The job that it has after an event, or had before it.
    fn take_up(&mut self, seen: &InitiatorSeen) {
        if let Some(job) = seen.job {
            if !self.is_of(job) {
                self.step = Short::new(b"");
                self.wants = None;
                self.doing = Some(What {
                    look: Look::Selected,
                    job,
                    number: 0,
                });
            }
        }
    }

    /// The step and the name that a line speaks of.
    fn take_names(&mut self, line: &JobLine, draft: &mut Draft) -> Result<(), AllocError> {
        match line {
            JobLine::Step {
                name,
                procedure_step,
                ..
            } => self.step = step_name(name, procedure_step, draft)?,
            JobLine::WaitNames { name, .. } => self.wants = Some(*name),
            JobLine::Names(_) | JobLine::Cancelled => self.wants = None,
            _ => {}
        }
        Ok(())
    }

    fn add_line(
        &mut self,
        alloc: Global,
        event: u32,
        line: &JobLine,
        text: &[u8],
    ) -> Result<(), AllocError> {
        if let Some(what) = self.doing {
            self.doing = Some(after_line(line, what));
        }
        self.lane.set(alloc, event, self.doing)?;
        self.lane.in_step(self.step);
        self.lane.tell(text)?;
        if let Some((words, first)) = words_below(line) {
            self.lane
                .note(alloc, event, first, first_words(text, words))?;
        }
        match flag_of(line) {
            Some(look) => self.lane.flag(alloc, event, look, text),
            None => Ok(()),
        }
    }

    fn is_of(&self, job: u16) -> bool {
        match self.doing {
            Some(what) => what.job == job,
            None => false,
        }
    }

    /// What its job waits for behind a line: a name, or the device of a volume.
    fn add_wait(
        &mut self,
        alloc: Global,
        event: u32,
        line: &JobLine,
        jobs: &Jobs,
        draft: &mut Draft,
    ) -> Result<(), AllocError> {
        match line {
            JobLine::WaitNames { holder, name } => {
                wait_text(*holder, *name, jobs, draft)?;
                self.lane.note(alloc, event, true, draft.kept())
            }
            JobLine::GetStart { serial, .. } | JobLine::PutStart { serial, .. } => {
                self.lane.note(alloc, event, false, serial.as_slice())
            }
            _ => Ok(()),
        }
    }

    /// A line of its job.
    fn add_own(
        &mut self,
        alloc: Global,
        event: u32,
        entry: &Entry,
        jobs: &Jobs,
        draft: &mut Draft,
    ) -> Result<(), AllocError> {
        match entry {
            Entry::Job(_, line) => {
                self.take_names(line, draft)?;
                text_of(entry, draft)?;
                self.add_line(alloc, event, line, draft.kept())?;
                self.add_wait(alloc, event, line, jobs, draft)
            }
            Entry::Cancel(_) => {
                text_of(entry, draft)?;
                self.lane.note(alloc, event, true, b"CANCEL")?;
                self.lane.flag(alloc, event, Look::Cancel, draft.kept())
            }
            _ => Ok(()),
        }
    }

    /// An event's lines, and the initiator after it. A job that is over at the event has the event still.
    pub fn add(
        &mut self,
        alloc: Global,
        event: u32,
        seen: &InitiatorSeen,
        lines: &[Entry],
        jobs: &Jobs,
        draft: &mut Draft,
    ) -> Result<(), AllocError> {
        self.take_up(seen);
        for entry in lines {
            if let Entry::Job(job, _) | Entry::Cancel(job) = entry {
                if self.is_of(*job) {
                    self.add_own(alloc, event, entry, jobs, draft)?;
                }
            }
        }
        self.lane.set(alloc, event, self.doing)?;
        self.lane.in_step(self.step);
        if seen.job.is_none() {
            self.doing = None;
            self.wants = None;
            self.lane.close(event.saturating_add(1));
        }
        Ok(())
    }
}
