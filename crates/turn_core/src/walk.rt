//! A job's way through its agenda, and what a turn came to.
ghost use Rattle.std.specs.Prelude.{◌≡◌, List};
ghost use Rattle.jcl_plan.specs.declared.plan.JobPlan.{JobPlan};
ghost use Rattle.jcl_meaning.specs.declared.program.SoloProgram.{SoloProgram};
ghost use Rattle.jcl_meaning.specs.Solo.{nothing_own};
ghost use Rattle.turn_core.specs.Standing.{Stands, count_at};
ghost use Rattle.turn_core.specs.declared.todo.Todo.TheVariants as todo;

use crate::todo::Todo;
use disp_core::course::{Course, Given};
use jcl_meaning::state::{Place, nothing_own};
use jcl_plan::entry::JobLine;
use jname_core::serial::Serial;
use plain::listed::Listed;
use prog_core::library::ProgramLibrary;
use prog_core::units::Units;
use std::alloc::Global;

/// How far a job is: what it does next, its own part, and the lines of its listing so far.
#[derive(Drop)]
pub struct Walk {
    pub todo: Todo,
    pub course: Course,
}

/// What a job's turn goes by: the programs, the operations under way, the job's number, what is fixed for it, and whether a cancel is to act.
#[derive(Clone, Copy)]
pub struct Setting<'a> {
    pub programs: &'a ProgramLibrary,
    pub units: &'a Units,
    pub job: u16,
    pub given: Given<'a>,
    pub cancelled: bool,
}

/// What is to be done for a job whose turn wrote lines.
#[derive(Clone, Copy)]
pub struct Acted {
    /// Where it made a set.
    pub made: Option<Place>,
    /// The volume on which its operation is to start.
    pub starts: Option<Serial>,
    /// A cancel acted: the job waits for no operation any more.
    pub cancelled: bool,
}

/// What a turn came to.
#[derive(Clone, Copy)]
pub enum Turned {
    /// The job waits for a device.
    Waits,
    /// It wrote lines, and goes on.
    Acts(Acted),
    /// Its last line is due: END.
    Ends,
}

/// A job at its first action, with the lines of its listing so far.
pub fn first_walk(alloc: Global, listing: Listed<JobLine>) -> Walk
    ensures is { result ≡ record { todo = todo.Start 0; course = record { own = nothing_own; lines = listing } } }
    ensures first { (plan : JobPlan) (programs : List SoloProgram) → Stands plan programs result.todo × (count_at plan programs result.todo ≡ 0) }
{
    Walk {
        todo: Todo::Start { step: 0 },
        course: Course {
            own: nothing_own(alloc),
            lines: listing,
        },
    }
}
