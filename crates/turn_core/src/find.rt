//! The first action that is not passed over.
ghost use Rattle.jcl_meaning.specs.Programs.{moves_of};
ghost use Rattle.turn_core.specs.Passing.{IsFound};

use crate::idle::is_idle;
use crate::next::next;
use crate::past::past;
use crate::todo::{Next, Todo};
use jcl_meaning::state::Own;
use job_text::text::JobText;
use prog_core::library::ProgramLibrary;

/// The first action from a place of the agenda on that a turn does not pass over.
pub(crate) fn find<T: JobText>(text: &T, programs: &ProgramLibrary, own: &Own, place: Todo) -> Next
    requires { T.reads text.now }
    ensures { IsFound (moves_of programs.now) (T.plan text.now).steps own.now place result }
{
    let mut todo = past(text, programs, own, place);
    loop {
        match next(text, programs, todo) {
            Next::Over => return Next::Over,
            Next::Does(task, behind) => {
                if !is_idle(text, &task, own) {
                    return Next::Does(task, behind);
                }
                todo = past(text, programs, own, behind);
            }
        }
    }
}
