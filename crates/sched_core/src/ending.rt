//! The end of the machine.
use crate::state::{Initiator, State};
use cb_queue::store::RecordStore;
use enq_core::table::EnqTable;
use init_core::running::{NamedJob, Running, Stage};

/// What a job at an initiator holds is given free.
fn spend(names: &mut EnqTable, x: Initiator) {
    let Initiator {
        number: _,
        classes: _,
        running,
    } = x;
    let Some(
        Running {
            job: _,
            walk: _,
            stage,
        },
    ) = running
    else {
        return;
    };
    match stage {
        Stage::Selected { first: _ } => {}
        Stage::Wanting { plan: _, wants: _ } => {}
        Stage::Named(named) => {
            let NamedJob { plan: _, held } = named;
            names.release(held);
        }
        Stage::Admitted(admitted) => names.release(admitted.into_held()),
    }
}

/// The end of the machine, with the jobs that it still has.
pub(crate) fn end<Q: RecordStore + Drop>(state: State<Q>) {
    let State {
        mut parts,
        mut initiators,
        backlog: _,
        jobs: _,
        events: _,
    } = state;
    while let Some(x) = initiators.pop() {
        spend(&mut parts.names, x);
    }
    initiators.destroy_empty();
}
