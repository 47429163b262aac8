//! The volume that a request needs idle. (This profile)
ghost use Rattle.std.specs.Prelude.{◌≡◌, ◌<◌, Some, length};
ghost use Rattle.jcl_plan.specs.declared.plan.DdKind.{DdKind};
ghost use Rattle.job_text.specs.Places.{step_at};
ghost use Rattle.job_text.specs.Texts.{put_text};
ghost use Rattle.turn_core.specs.Waiting.{volume_asked_for, volume_at, volume_found, volume_here, volume_put};

use jcl_meaning::program::Move;
use jcl_meaning::source::FoundRecord;
use jcl_meaning::state::{DdState, TakenSet};
use jname_core::serial::Serial;
use job_text::text::JobText;
use job_text::texts::PutText;
use request_core::ask::{dd_name, is_read_only};
use request_core::here::{Here, here_at};
use request_core::read::reads;
use store_core::job_store::JobStore;
use store_core::source::is_concatenated;

/// The volume of the set that has this record.
fn volume_found(found: &FoundRecord) -> Option<Serial>
    ensures { result ≡ volume_found found.now }
{
    match &found.text {
        None => None,
        Some(_) => found.serial,
    }
}

/// The volume of the set to which a PUT goes.
fn volume_put(text: &PutText, t: &Option<TakenSet>) -> Option<Serial>
    ensures { (dd : DdKind) → put_text dd ≡ text.now → result ≡ volume_put dd t.now }
{
    match text {
        PutText::Sysout => None,
        PutText::Dummy => None,
        PutText::Cards => None,
        PutText::Set(_) => match t {
            None => None,
            Some(t) => Some(t.serial),
        },
    }
}

/// The volume that a request to a DD, whose state is this, needs idle.
fn volume_of<T: JobText, S: JobStore>(
    text: &T,
    store: &S,
    job: u16,
    step: usize,
    wants: &Move,
    states: &[DdState],
    here: &Here,
) -> Option<Serial>
    requires reads { T.reads text.now }
    requires step { step < length (T.plan text.now).steps }
    requires dd { here.now.d < length (step_at (T.plan text.now).steps step).dds }
    ensures { result ≡ volume_here (step_at (T.plan text.now).steps step) wants.now here.now (S.seen job store.now) states.now }
{
    match wants {
        Move::From(_) => {
            let found = reads(text, store, job, step, states, here);
            volume_found(&found)
        }
        Move::To { .. } => {
            let put_text = text.put_text(step, here.d);
            if is_read_only(&put_text) || is_concatenated(text, step, here.d) {
                None
            } else {
                volume_put(&put_text, &here.taken)
            }
        }
    }
}

/// The volume that a request to the d-th DD of its step, from 0, needs idle.
fn volume_at<T: JobText, S: JobStore>(
    text: &T,
    store: &S,
    job: u16,
    step: usize,
    wants: &Move,
    states: &[DdState],
    d: usize,
) -> Option<Serial>
    requires reads { T.reads text.now }
    requires step { step < length (T.plan text.now).steps }
    requires dd { d < length (step_at (T.plan text.now).steps step).dds }
    ensures { result ≡ volume_at (Some d) (step_at (T.plan text.now).steps step) wants.now (S.seen job store.now) states.now }
{
    match here_at(states, d) {
        None => None,
        Some(here) => volume_of(text, store, job, step, wants, states, &here),
    }
}

/// The volume that a request of a step, from 0, needs idle.
pub(crate) fn volume_asked_for<T: JobText, S: JobStore>(
    text: &T,
    store: &S,
    job: u16,
    step: usize,
    wants: &Move,
    states: &[DdState],
) -> Option<Serial>
    requires reads { T.reads text.now }
    requires step { step < length (T.plan text.now).steps }
    ensures { result ≡ volume_asked_for (step_at (T.plan text.now).steps step) wants.now (S.seen job store.now) states.now }
{
    match text.dd_named(step, dd_name(wants)) {
        None => None,
        Some(d) => volume_at(text, store, job, step, wants, states, d),
    }
}
