//! A request of a program. (This profile)
ghost use Rattle.std.specs.Prelude.{◌≡◌, [], ◌<◌, IfOk, OnErr, OnOk, length};
ghost use Rattle.jcl_plan.specs.declared.plan.DdKind.{DdKind};
ghost use Rattle.jcl_meaning.specs.Programs.{is_read_only};
ghost use Rattle.jcl_meaning.specs.RequestActs.{dd_name};
ghost use Rattle.job_text.specs.Places.{step_at};
ghost use Rattle.job_text.specs.Texts.{put_text};
ghost use Rattle.request_core.specs.Requests.{AsksAtOver, AsksOfOver, AsksOver, asks_growth_at, asks_growth_of};

use crate::here::{Asking, Here, here_at};
use crate::put::{Putting, put};
use crate::request::{abend, get, is_open};
use disp_core::course::Course;
use jcl_meaning::names::is_shr;
use jcl_meaning::program::Move;
use jcl_plan::outcome::Abend;
use jname_core::name8::Name8;
use job_text::text::JobText;
use job_text::texts::PutText;
use std::alloc::{AllocError, Global};
use store_core::job_store::JobStore;
use store_core::source::is_concatenated;

/// Whether no record may be put to a DD.
pub fn is_read_only(text: &PutText) -> bool
    ensures { (dd : DdKind) → put_text dd ≡ text.now → result ≡ is_read_only dd }
{
    match text {
        PutText::Sysout => false,
        PutText::Dummy => false,
        PutText::Cards => true,
        PutText::Set(p) => is_shr(p.status),
    }
}

/// The name of the DD that a request goes to.
pub fn dd_name(wants: &Move) -> &Name8
    ensures { result.now ≡ dd_name wants.now }
{
    match wants {
        Move::From(name) => name,
        Move::To { dd, .. } => dd,
    }
}

/// A request to a DD that was taken; it tells whether it asked for tracks. An `Err` changes nothing.
fn ask_of<T: JobText, S: JobStore>(
    alloc: Global,
    text: &T,
    store: &mut S,
    course: &mut Course,
    asking: &Asking<'_>,
    here: &Here,
) -> Result<bool, AllocError>
    requires reads { T.reads text.now }
    requires step { asking.now.step < length (T.plan text.now).steps }
    requires dd { here.now.d < length (step_at (T.plan text.now).steps asking.now.step).dds }
    ensures asked { IfOk result (λ asked. asked ≡ asks_growth_of (T.plan text.now).steps asking.now here.now (S.seen asking.now.job store.old)) }
    ensures ok { OnOk result (AsksOfOver S.JobStore (T.plan text.now).steps asking.now here.now store.old course.old store.new course.new) }
    ensures err { OnErr result ((store.new ≡ store.old) × (course.new ≡ course.old)) }
    ensures rest { OnOk result (S.takes asking.now.job [] (S.rest asking.now.job store.old) (S.rest asking.now.job store.new)) }
{
    match asking.wants {
        Move::From(name) => {
            get(alloc, text, &*store, course, asking, name, here)?;
            Ok(false)
        }
        Move::To { dd, text: record } => {
            let put_text = text.put_text(asking.step, here.d);
            if is_read_only(&put_text) || is_concatenated(text, asking.step, here.d) {
                abend(course, &Abend::SFF1)?;
                Ok(false)
            } else {
                let putting = Putting {
                    job: asking.job,
                    name: dd,
                    text: record,
                    d: here.d,
                };
                put(alloc, store, course, &putting, here, &put_text)
            }
        }
    }
}

/// A request to the d-th DD of its step, from 0; it tells whether it asked for tracks. An `Err` changes nothing.
fn ask_at<T: JobText, S: JobStore>(
    alloc: Global,
    text: &T,
    store: &mut S,
    course: &mut Course,
    asking: &Asking<'_>,
    d: usize,
) -> Result<bool, AllocError>
    requires reads { T.reads text.now }
    requires step { asking.now.step < length (T.plan text.now).steps }
    requires dd { d < length (step_at (T.plan text.now).steps asking.now.step).dds }
    ensures asked { IfOk result (λ asked. asked ≡
        asks_growth_at (T.plan text.now).steps asking.now d course.old.own.dds (S.seen asking.now.job store.old)) }
    ensures ok { OnOk result (AsksAtOver S.JobStore (T.plan text.now).steps asking.now d store.old course.old store.new course.new) }
    ensures err { OnErr result ((store.new ≡ store.old) × (course.new ≡ course.old)) }
    ensures rest { OnOk result (S.takes asking.now.job [] (S.rest asking.now.job store.old) (S.rest asking.now.job store.new)) }
{
    let Some(here) = here_at(course.own.dds.as_slice(), d) else {
        abend(course, &Abend::SFF0)?;
        return Ok(false);
    };
    ask_of(alloc, text, store, course, asking, &here)
}

/// A request's first action, unless a cancel stands in its place; it tells whether it asked its store for tracks. An `Err` changes nothing.
pub fn ask<T: JobText, S: JobStore>(
    alloc: Global,
    text: &T,
    store: &mut S,
    course: &mut Course,
    asking: &Asking<'_>,
) -> Result<bool, AllocError>
    requires reads { T.reads text.now }
    requires step { asking.now.step < length (T.plan text.now).steps }
    ensures { AsksOver S.JobStore (T.plan text.now).steps asking.now result store.old course.old store.new course.new }
{
    if !is_open(&course.own) {
        return Ok(false);
    }
    if asking.cancelled {
        abend(course, &Abend::S222)?;
        return Ok(false);
    }
    match text.dd_named(asking.step, dd_name(asking.wants)) {
        None => {
            abend(course, &Abend::SFF0)?;
            Ok(false)
        }
        Some(d) => ask_at(alloc, text, store, course, asking, d),
    }
}
