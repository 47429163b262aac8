//! What a job would write on a path, up to its fault.
ghost use Rattle.std.specs.Prelude.{◌≡◌, IfOk, take};
ghost use Rattle.std.specs.List.{position};
ghost use Rattle.jcl_meaning.specs.Stores.{store_of};
ghost use Rattle.path_meaning.specs.Explanations.{is_fault_word, path_lines, tells_fault, up_to_fault};
ghost use Rattle.path_core.specs.Starts.{fixed_from};

use crate::start::StartView;
use jcl_plan::entry::JobLine;
use jcl_plan::outcome::Outcome;
use jcl_plan::plan::JobPlan;
use jcl_plan::words::DispWord;
use plain::listed::Listed;
use solo_core::path_run;
use std::alloc::{AllocError, Global};

fn is_fault_word(word: &DispWord) -> bool
    ensures { result ≡ is_fault_word word.now }
{
    match word {
        DispWord::F3 => true,
        DispWord::F4 => true,
        DispWord::F8 => true,
        _ => false,
    }
}

/// Whether a line tells a fault.
fn tells_fault(line: &JobLine) -> bool
    ensures { result ≡ tells_fault line.now }
{
    match line {
        JobLine::Fault { .. } => true,
        JobLine::Disp { word, .. } => is_fault_word(word),
        JobLine::Left { word, .. } => is_fault_word(word),
        _ => false,
    }
}

/// Where the first line stands that tells a fault.
fn first_fault(lines: &[JobLine]) -> Option<usize>
    ensures { result ≡ position tells_fault lines.now }
{
    lines.iter().position(|line| tells_fault(line))
}

/// How many lines there are up to the first that tells a fault, and with it; all where none does.
fn count_to_fault(lines: &[JobLine]) -> usize
    ensures { take result lines.now ≡ up_to_fault lines.now }
{
    match first_fault(lines) {
        Some(place) => place + 1,
        None => lines.len(),
    }
}

/// The lines that a job would write from its first step on, in its store, where its steps end so, up to the first that tells a fault.
pub fn path_lines(
    alloc: Global,
    plan: &JobPlan,
    start: &StartView,
    path: &[Outcome],
) -> Result<Listed<JobLine>, AllocError>
    ensures { IfOk result (λ lines. lines ≡ path_lines (fixed_from start.now plan.now) plan.now (store_of start.now.store) path.now) }
{
    let ran = path_run(alloc, plan, &start.store, &start.places, path, start.date)?;
    let count = count_to_fault(ran.run.lines.as_slice());
    let mut lines = ran.run.lines.into_vec();
    lines.truncate(count);
    Ok(Listed::new(lines))
}
