//! Words within a rectangle, as far as there is room.
ghost use Rattle.std.specs.Prelude.{◌≡◌, ◌+◌, ◌≤◌, IfOk, length};

use crate::tell::Telling;
use history_core::jobs::Jobs;
use history_core::lane::Run;
use history_core::look::Look;
use plain::text::Text;
use std::alloc::{AllocError, Global};

/// The pixels of a letter, and those beside the words.
const LETTER: u32 = 7;

const MARGIN: u32 = 6;

/// Words of at most so many letters.
#[derive(Drop)]
struct Label {
    bytes: Vec<u8>,
    letters: usize,
    ghost fits: { length bytes.items ≤ letters },
}

/// How many letters there is room for in so many pixels.
pub(crate) fn letters_in(width: u32) -> usize {
    (width.saturating_sub(MARGIN) / LETTER) as usize
}

/// The pixels of so many letters.
pub(crate) fn pixels_of(letters: usize) -> u32 {
    match u32::try_from(letters) {
        Ok(letters) => letters.saturating_mul(LETTER).saturating_add(MARGIN),
        Err(_) => u32::MAX,
    }
}

impl Label {
    fn empty(alloc: Global, letters: usize) -> Label
        ensures { result.letters ≡ letters }
    {
        Label {
            bytes: Vec::new(alloc),
            letters,
        }
    }

    fn room(&self) -> usize
        ensures { result + length self.now.bytes.items ≤ self.now.letters }
    {
        self.letters - self.bytes.len()
    }

    /// Adds a word behind the others where it fits whole. Whether it does.
    fn push(&mut self, word: &[u8]) -> Result<bool, AllocError>
        ensures { self.new.letters ≡ self.old.letters }
    {
        let blank = !self.bytes.is_empty();
        if word.len() >= self.room() {
            return self.push_last(word, blank);
        }
        if blank {
            self.bytes.push(b' ')?;
        }
        self.bytes.extend_from_slice(word)?;
        Ok(true)
    }

    /// Adds a word for which there may be just enough room.
    fn push_last(&mut self, word: &[u8], blank: bool) -> Result<bool, AllocError>
        ensures { self.new.letters ≡ self.old.letters }
    {
        if blank || word.len() > self.room() {
            return Ok(false);
        }
        self.bytes.extend_from_slice(word)?;
        Ok(true)
    }

    /// A job's name, or its number where the name has no room. Whether either has.
    fn push_job(&mut self, alloc: Global, jobs: &Jobs, job: u16) -> Result<bool, AllocError>
        ensures { self.new.letters ≡ self.old.letters }
    {
        let name = jobs.name_of(job);
        if !name.is_empty() && self.push(name)? {
            return Ok(true);
        }
        let mut number = Telling::empty(alloc, 8);
        number.push_job(job)?;
        self.push(number.as_slice())
    }

    /// How many there are.
    fn push_count(&mut self, alloc: Global, count: usize) -> Result<(), AllocError>
        ensures { self.new.letters ≡ self.old.letters }
    {
        let mut number = Telling::empty(alloc, 24);
        number.push(b"+")?;
        number.push_number(count as u64)?;
        self.push(number.as_slice())?;
        Ok(())
    }

    /// Of these lines those that fit.
    fn push_lines(&mut self, lines: &[u8]) -> Result<(), AllocError>
        ensures { self.new.letters ≡ self.old.letters }
    {
        for line in lines.split(|byte| *byte == b'\n') {
            self.push(line)?;
        }
        Ok(())
    }

    /// What stands behind the job.
    fn push_rest(&mut self, alloc: Global, run: &Run) -> Result<(), AllocError>
        ensures { self.new.letters ≡ self.old.letters }
    {
        match run.what.look {
            Look::Runs | Look::Device | Look::Bypassed | Look::Flushed => {
                self.push(run.step.as_slice())?;
            }
            Look::Alone | Look::Shared if run.what.number > 1 => {
                self.push_count(alloc, run.what.number - 1)?;
            }
            Look::Together => {
                self.push_lines(run.lines.as_slice())?;
            }
            _ => {}
        }
        Ok(())
    }
}

/// The words in a run's rectangle, of at most so many letters: the job, and what it does where there is room; of several, how many.
pub(crate) fn label_of(
    alloc: Global,
    run: &Run,
    jobs: &Jobs,
    letters: usize,
) -> Result<Text, AllocError>
    ensures { IfOk result (λ text. length text ≤ letters) }
{
    let mut label = Label::empty(alloc, letters);
    if run.what.look == Look::Several {
        label.push_count(alloc, run.what.number)?;
    } else if label.push_job(alloc, jobs, run.what.job)? {
        label.push_rest(alloc, run)?;
    }
    let Label { bytes, .. } = label;
    Ok(Text::new(bytes))
}
