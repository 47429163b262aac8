//! A request of a job's program, and the DD that it goes to.
ghost use Rattle.std.specs.Prelude.{◌≡◌, slice_get};
ghost use Rattle.std.specs.Option.{option_map};
ghost use Rattle.request_core.specs.Requests.{here_at};

use jcl_meaning::program::Move;
use jcl_meaning::state::{DdState, TakenSet};

/// A request of a job's program: of which job, of which step, from 0, and whether a cancel stands in its place.
#[derive(Clone, Copy)]
pub struct Asking<'a> {
    pub job: u16,
    pub step: usize,
    pub wants: &'a Move,
    pub cancelled: bool,
}

/// The DD that a request goes to, from 0, and what the request needs of its state.
#[derive(Clone, Copy)]
pub struct Here {
    pub d: usize,
    pub member: usize,
    pub position: usize,
    pub written: bool,
    pub taken: Option<TakenSet>,
}

/// What a request needs of its DD, if that was taken.
pub fn here_at(dds: &[DdState], d: usize) -> Option<Here>
    ensures { result ≡ option_map (here_at d) (slice_get dds.now d) }
{
    match dds.get(d) {
        None => None,
        Some(x) => Some(Here {
            d,
            member: x.member,
            position: x.position,
            written: x.written,
            taken: x.taken,
        }),
    }
}
