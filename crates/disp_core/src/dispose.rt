//! The disposition of a DD at the end of its step, and the job's end for a set that was passed and not received. (GC28-6704, DISP parameter; LEFT is
//! this profile's)
ghost use Rattle.std.specs.Prelude.{◌≡◌, ◌<◌, ◌==◌, ◌&&◌, ◌∷◌, ◌++◌, [], IfNone, IfOk, IfSome, None, OnErr, OnOk, Some, length, remove, slice_get};
ghost use Rattle.jcl_plan.specs.declared.entry.JobLine.TheVariants as line;
ghost use Rattle.jcl_plan.specs.declared.words.DispWord.TheVariants as disp;
ghost use Rattle.jcl_meaning.specs.Dispositions.{disposed_by};
ghost use Rattle.jcl_meaning.specs.EndActs.{after_abend, disposes_at, leaves, left_at, left_disposed, passed_by, passed_with};
ghost use Rattle.jcl_meaning.specs.EndActs.{tracks_released, without_pass};
ghost use Rattle.job_text.specs.Texts.{disp_as};
ghost use Rattle.disp_core.specs.Acting.{Acts, ActsAs, Meets, at_site, course_put_out, disposed_as, disposition, word_in};

use crate::change::{change, disposed_by};
use crate::course::{Course, Given, drop_last};
use crate::site::Site;
use jcl_meaning::history::is_abend;
use jcl_meaning::names::is_temporary;
use jcl_meaning::state::{DdState, Disposed, Output, Passed, TakenSet};
use jcl_meaning::words::{conditional_meaning, normal_meaning, word_done};
use jcl_plan::day::Day;
use jcl_plan::entry::JobLine;
use jcl_plan::fault::Fault;
use jcl_plan::outcome::Outcome;
use jcl_plan::plan::{Record, Word};
use jcl_plan::words::DispWord;
use job_text::texts::{DispSet, DispText};
use plain::listed::Listed;
use std::alloc::AllocError;
use store_core::disposition::{as_taken, fault_in, left_word};
use store_core::job_store::JobStore;

fn after_abend(over: &Option<Outcome>) -> bool
    ensures { result ≡ after_abend over.now }
{
    match over {
        None => false,
        Some(outcome) => is_abend(*outcome),
    }
}

/// Cuts a set whose SPACE has RLSE.
fn release<S: JobStore>(store: &mut S, job: u16, releases: bool, t: &TakenSet)
    ensures seen { S.seen job store.new ≡ tracks_released releases t.now.key t.now.serial (S.seen job store.old) }
    ensures rest { S.gives_up (S.rest job store.old) (S.rest job store.new) }
{
    if releases {
        store.trim(job, &t.key, t.serial);
    }
}

/// Passes a set on, or not. An `Err` changes nothing.
fn pass(
    passed: &mut Listed<Passed>,
    passes: bool,
    at: &Site,
    t: &TakenSet,
) -> Result<(), AllocError>
    ensures ok { OnOk result (passed.new ≡ passed_with passes at.now.step at.now.dd t.now passed.old) }
    ensures err { OnErr result (passed.new ≡ passed.old) }
{
    if passes {
        passed.push(Passed {
            key: t.key,
            serial: t.serial,
            made: t.made,
            by_catalog: t.by_catalog,
            step: at.step,
            dd: at.dd,
            abend_later: false,
        })?;
    }
    Ok(())
}

/// Does with a set what its disposition decided. An `Err` changes nothing.
fn set_disposed<S: JobStore>(
    store: &mut S,
    given: &Given,
    course: &mut Course,
    at: &Site,
    p: &DispSet,
    t: &TakenSet,
    disposed: Disposed,
) -> Result<Option<Fault>, AllocError>
    ensures { Acts S.JobStore at.now.job (Meets (disposed_as given.now at.now (disp_as p.now) t.now disposed))
        result store.old course.old store.new course.new }
{
    pass(&mut course.own.passed, disposed.passes, at, t)?;
    let line = JobLine::Disp {
        dd: at.dd,
        name: at.name,
        word: disposed.word,
    };
    match change(store, at.job, given.date, course, line, disposed.change, t) {
        Ok(()) => {
            release(store, at.job, p.release, t);
            Ok(fault_in(disposed.word))
        }
        Err(error) => {
            if disposed.passes {
                drop_last(&mut course.own.passed);
            }
            Err(error)
        }
    }
}

/// The word done on a set at the end of its step.
fn word_at(over: &Option<Outcome>, p: &DispSet, t: &TakenSet) -> Word
    ensures { result ≡ word_in over.now (disp_as p.now) t.now }
{
    let temporary = is_temporary(&t.key);
    word_done(
        normal_meaning(temporary, p.normal),
        conditional_meaning(temporary, p.conditional),
        after_abend(over),
        t.made,
    )
}

/// What the disposition of a set decides.
fn disposal<S: JobStore>(
    store: &S,
    job: u16,
    date: Day,
    over: &Option<Outcome>,
    p: &DispSet,
    t: &TakenSet,
) -> Disposed
    ensures { result ≡ disposed_by (word_in over.now (disp_as p.now) t.now) (S.seen job store.now) t.now date }
{
    disposed_by(store, job, word_at(over, p, t), t, date)
}

/// Says that nothing becomes of a DD. An `Err` changes nothing.
fn say_nothing(course: &mut Course, at: &Site) -> Result<Option<Fault>, AllocError>
    ensures meets { IfOk result (λ meets. meets ≡ None) }
    ensures course { OnOk result (course.new ≡ record course.old { lines = course.old.lines ++ line.Disp at.now.dd at.now.name disp.Nothing ∷ [] }) }
    ensures err { OnErr result (course.new ≡ course.old) }
{
    course.say(JobLine::Disp {
        dd: at.dd,
        name: at.name,
        word: DispWord::Nothing,
    })?;
    Ok(None)
}

/// Hands the records of a SYSOUT DD to the writers. An `Err` changes nothing.
fn put_out(
    course: &mut Course,
    at: &Site,
    class: u8,
    records: Listed<Record>,
) -> Result<Option<Fault>, AllocError>
    ensures meets { IfOk result (λ meets. meets ≡ None) }
    ensures course { OnOk result (course.new ≡ course_put_out at.now class records course.old) }
    ensures err { OnErr result (course.new ≡ course.old) }
{
    let count = records.len();
    course.say(JobLine::Disp {
        dd: at.dd,
        name: at.name,
        word: DispWord::Spooled(count),
    })?;
    let output = Output {
        step: at.step,
        dd: at.dd,
        class,
        records,
    };
    match course.own.outputs.push(output) {
        Ok(()) => Ok(None),
        Err(error) => {
            course.unsay();
            Err(error)
        }
    }
}

/// A copy of the state of a DD, from 0.
fn dd_state(dds: &[DdState], d: usize) -> Result<Option<DdState>, AllocError>
    ensures { IfOk result (λ x. x ≡ slice_get dds.now d) }
{
    match dds.get(d) {
        None => Ok(None),
        Some(x) => Ok(Some(x.clone()?)),
    }
}

/// The disposition of a DD whose state is this. An `Err` changes nothing.
fn dispose_at<S: JobStore>(
    store: &mut S,
    given: &Given,
    course: &mut Course,
    at: &Site,
    text: &DispText,
    x: DdState,
) -> Result<Option<Fault>, AllocError>
    ensures { ActsAs S.JobStore at.now.job text.now (λ dd. Meets (at_site disposes_at given.now at.now dd x)) result store.old course.old store.new course.new }
{
    match text {
        DispText::Sysout(class) => put_out(course, at, *class, x.spooled),
        DispText::Nothing => say_nothing(course, at),
        DispText::Set(p) => match &x.taken {
            None => say_nothing(course, at),
            Some(t) => {
                let disposed = disposal(store, at.job, given.date, &course.own.over, p, t);
                set_disposed(store, given, course, at, p, t, disposed)
            }
        },
    }
}

/// The disposition of a DD. A step that does not run passes it over. An `Err` changes nothing.
pub fn dispose<S: JobStore>(
    store: &mut S,
    given: &Given,
    course: &mut Course,
    at: &Site,
    text: &DispText,
) -> Result<Option<Fault>, AllocError>
    requires { 0 < at.now.dd }
    ensures { ActsAs S.JobStore at.now.job text.now (λ dd. Meets (disposition given.now at.now dd)) result store.old course.old store.new course.new }
{
    if !course.own.runs {
        return Ok(None);
    }
    let Some(x) = dd_state(course.own.dds.as_slice(), at.dd - 1)? else {
        return Ok(None);
    };
    dispose_at(store, given, course, at, text, x)
}

/// What a DD passed and no DD received.
fn passed_by(passed: &[Passed], n: usize, dd: usize) -> Option<Passed>
    ensures { result ≡ passed_by passed.now n dd }
{
    for p in passed {
        if p.step == n && p.dd == dd {
            return Some(*p);
        }
    }
    None
}

fn is_pass_of(p: &Passed, n: usize, dd: usize) -> bool
    ensures { result ≡ (p.now.step == n && p.now.dd == dd) }
{
    p.step == n && p.dd == dd
}

fn pass_place(passed: &[Passed], n: usize, dd: usize) -> Option<usize>
    ensures found { IfSome result (λ i. (i < length passed.now) × (remove passed.now i ≡ without_pass passed.now n dd)) }
    ensures nowhere { IfNone result (without_pass passed.now n dd ≡ passed.now) }
{
    for (i, p) in passed.iter().enumerate() {
        if is_pass_of(p, n, dd) {
            return Some(i);
        }
    }
    None
}

/// Takes what a DD passed off the list.
fn drop_pass(passed: &mut Listed<Passed>, n: usize, dd: usize)
    ensures { passed.new ≡ without_pass passed.old n dd }
{
    if let Some(place) = pass_place(passed.as_slice(), n, dd) {
        passed.remove(place);
    }
}

/// Does with a set that was not received what its disposition decided. An `Err` changes nothing.
fn left_disposed<S: JobStore>(
    store: &mut S,
    given: &Given,
    course: &mut Course,
    at: &Site,
    q: &Passed,
    disposed: Disposed,
) -> Result<Option<Fault>, AllocError>
    ensures { Acts S.JobStore at.now.job (Meets (λ s. at_site left_disposed given.now at.now q.now s disposed))
        result store.old course.old store.new course.new }
{
    let line = JobLine::Left {
        step: at.step,
        dd: at.dd,
        name: at.name,
        word: disposed.word,
    };
    let t = as_taken(q);
    change(store, at.job, given.date, course, line, disposed.change, &t)?;
    drop_pass(&mut course.own.passed, at.step, at.dd);
    Ok(fault_in(disposed.word))
}

/// The job's end for this set, which a DD passed and no DD received. An `Err` changes nothing.
fn leave_set<S: JobStore>(
    store: &mut S,
    given: &Given,
    course: &mut Course,
    at: &Site,
    p: &DispSet,
    q: &Passed,
) -> Result<Option<Fault>, AllocError>
    ensures { Acts S.JobStore at.now.job (Meets (at_site leaves given.now at.now (disp_as p.now) (Some q.now)))
        result store.old course.old store.new course.new }
{
    let temporary = is_temporary(&q.key);
    let conditional = conditional_meaning(temporary, p.conditional);
    let word = left_word(temporary, q.abend_later, conditional, q.made);
    let disposed = disposed_by(store, at.job, word, &as_taken(q), given.date);
    left_disposed(store, given, course, at, q, disposed)
}

/// The job's end for what a DD passed and no DD received. An `Err` changes nothing.
pub fn leave<S: JobStore>(
    store: &mut S,
    given: &Given,
    course: &mut Course,
    at: &Site,
    text: &DispText,
) -> Result<Option<Fault>, AllocError>
    ensures { ActsAs S.JobStore at.now.job text.now (λ dd. Meets (at_site left_at given.now at.now dd)) result store.old course.old store.new course.new }
{
    let DispText::Set(p) = text else {
        return Ok(None);
    };
    let passed = passed_by(course.own.passed.as_slice(), at.step, at.dd);
    match &passed {
        None => Ok(None),
        Some(q) => leave_set(store, given, course, at, p, q),
    }
}
