//! What writers write.
use jcl_meaning::state::Output;
use jcl_plan::entry;
use jcl_plan::entry::JobLine;
use plain::listed::Listed;
use row_table::desk::Line;
use row_table::told::Told;
use row_table::words::Words;
use spool_core::spool::Spool;
use std::alloc::Global;

/// What is written, and what a job that is over gives to the writers: its lines before the last, and its SYSOUT sets.
#[derive(Drop)]
pub(crate) struct Written {
    spool: Spool,
    lines: Listed<JobLine>,
    outputs: Listed<Output>,
}

/// Nothing is given yet.
pub(crate) fn nothing_written(alloc: Global) -> Written {
    Written {
        spool: Spool::new(alloc),
        lines: Listed::empty(alloc),
        outputs: Listed::empty(alloc),
    }
}

#[derive(Clone, Copy)]
pub(crate) enum SpoolVerb {
    Line,
    Output,
    Over,
    Write,
}

/// A class, the first byte of the next word.
fn class(words: &mut Words<'_>) -> u8 {
    match words.next_word().first() {
        Some(class) => *class,
        None => {
            words.refuse();
            0
        }
    }
}

/// Adds a SYSOUT set of a class, with a record for each byte of a text: the byte in all columns.
fn add_output(alloc: Global, outputs: &mut Listed<Output>, line: &mut Line<'_>) {
    let class = class(&mut line.words);
    let mut records = Listed::empty(alloc);
    for mark in line.words.next_word() {
        line.told.over(records.push([*mark; 80]));
    }
    line.told.over(outputs.push(Output {
        step: 1,
        dd: 1,
        class,
        records,
    }));
}

/// Whose line or record is written, and its mark.
fn tell_written(told: &mut Told, written: Option<(u16, entry::Written)>) {
    let Some((job, written)) = written else {
        return told.line(b"NOTHING");
    };
    told.numbered(b"", u64::from(job));
    match written {
        entry::Written::Line(JobLine::Selected(mark)) => {
            told.numbered_line(b" LINE ", u64::from(mark));
        }
        entry::Written::Line(_) => told.line(b" ANOTHER LINE"),
        entry::Written::Record(columns) => told.line_of_two(b" RECORD ", &columns[..1]),
    }
}

impl Written {
    /// The job is over.
    fn enter(&mut self, alloc: Global, line: &mut Line<'_>) {
        let job = line.words.short();
        let class = class(&mut line.words);
        let last = JobLine::Selected(line.words.byte());
        let (lines, outputs) = (&mut self.lines, &mut self.outputs);
        if line
            .told
            .got(self.spool.enter(job, class, lines, last, outputs))
            .is_some()
        {
            self.lines = Listed::empty(alloc);
            self.outputs = Listed::empty(alloc);
        }
    }
}

/// Does a command about writers.
pub(crate) fn on_spool(alloc: Global, written: &mut Written, verb: SpoolVerb, line: &mut Line<'_>) {
    match verb {
        SpoolVerb::Line => {
            let mark = line.words.byte();
            line.told.over(written.lines.push(JobLine::Selected(mark)));
        }
        SpoolVerb::Output => add_output(alloc, &mut written.outputs, line),
        SpoolVerb::Over => written.enter(alloc, line),
        SpoolVerb::Write => tell_written(
            &mut line.told,
            written.spool.write(class(&mut line.words)),
        ),
    }
}
