//! A job carried out over a store, action by action. Where memory is missing for an action, nothing that the job sees has changed, and the
//! action is carried out again.
use crate::kept::Known;
use crate::shown::{tell_lines, tell_outputs, tell_seen};
use disp_core::course::{Course, Given};
use disp_core::dispose::{dispose, leave};
use disp_core::site::Site;
use disp_core::step::{begin, end, finish};
use disp_core::take::take;
use jcl_meaning::program::{Move, SoloProgram, moves_of};
use jcl_meaning::state::nothing_own;
use jcl_meaning::words::passes;
use jcl_plan::outcome::{Code, Outcome};
use jcl_plan::plan::{DdPlan, JobPlan, StepPlan};
use jname_core::serial::Serial;
use job_text::texts::{disp_text, take_text};
use plain::listed::Listed;
use request_core::ask::ask;
use request_core::here::Asking;
use request_core::request::receive;
use row_table::told::Told;
use shared_core::store::SharedStore;
use std::alloc::{AllocError, Global};
use store_core::alone::Alone;
use store_core::job_store::JobStore;

/// The number of the job.
pub(crate) const JOB: u16 = 1;

/// Room for what is seen of a store before an action, and after it, so that few requests of memory are made for what is told.
const ROOM: usize = 65_536;

/// A store that may be told whether it is to grant the next growth.
pub(crate) trait Growths: JobStore {
    /// Before each request: whether the next growth is granted. A store that has its own answer passes over it.
    fn next_growth(&mut self, granted: bool);
}

impl Growths for Alone {
    fn next_growth(&mut self, granted: bool) {
        self.growth = granted;
    }
}

impl Growths for SharedStore {
    fn next_growth(&mut self, _granted: bool) {}
}

/// What a job is given while it runs: how its steps end, whether a cancel stands in the place of a program line, and whether growths are granted.
#[derive(Clone, Copy)]
pub(crate) struct Answers<'a> {
    pub(crate) outcomes: &'a [Outcome],
    pub(crate) cancels: &'a [Option<u32>],
    pub(crate) grants: &'a [bool],
}

/// What is looked at in a store.
#[derive(Clone, Copy)]
pub(crate) struct Looked<'a> {
    pub(crate) known: &'a Known,
    pub(crate) serials: &'a [Serial],
}

/// A job on its way.
#[derive(Drop)]
pub(crate) struct Way<'a> {
    pub(crate) alloc: Global,
    pub(crate) plan: &'a JobPlan,
    pub(crate) programs: &'a [SoloProgram],
    pub(crate) given: Given<'a>,
    pub(crate) answers: Answers<'a>,
    pub(crate) looked: Looked<'a>,
    pub(crate) course: Course,
    /// Whether an action that wanted memory changed something.
    pub(crate) changed: bool,
    /// Whether memory was wanting for more than one action.
    pub(crate) wanting: bool,
}

/// A job before its first action.
pub(crate) fn fresh(alloc: Global) -> Course {
    Course {
        own: nothing_own(alloc),
        lines: Listed::empty(alloc),
    }
}

/// An action of a step. DDs count from 1.
#[derive(Clone, Copy)]
enum Action<'a> {
    Start,
    Take(usize, &'a DdPlan),
    /// A request's first action.
    Ask(&'a Move),
    /// What is due of it.
    Receive,
    Finish,
    Dispose(usize, &'a DdPlan),
    Left(usize, &'a DdPlan),
    /// The job's end.
    Over,
}

/// A step, and its number from 1.
#[derive(Clone, Copy)]
struct At<'a> {
    n: usize,
    step: &'a StepPlan,
}

impl At<'_> {
    /// A DD of the step.
    fn site(&self, dd: usize, d: &DdPlan) -> Site {
        Site {
            job: JOB,
            step: self.n,
            dd,
            name: d.name,
        }
    }
}

/// All behind the first.
fn others<T>(answers: &[T]) -> &[T] {
    match answers.split_first() {
        None => answers,
        Some((_, others)) => others,
    }
}

impl Answers<'_> {
    /// Whether a cancel stands in the place of the next program line, behind so many.
    fn is_cancelled(&self, lines: usize) -> bool {
        match self.cancels.first() {
            Some(Some(after)) => *after as usize == lines,
            _ => false,
        }
    }

    /// How the step ends that runs now.
    fn outcome(&self) -> Outcome {
        match self.outcomes.first() {
            None => Outcome::Code(Code::zero()),
            Some(outcome) => *outcome,
        }
    }

    fn is_granted(&self) -> bool {
        match self.grants.first() {
            None => true,
            Some(granted) => *granted,
        }
    }

    /// The end of a step, which uses its answers up.
    fn finish(&mut self, alloc: Global, course: &mut Course, n: usize) -> Result<(), AllocError> {
        let cancelled = self.is_cancelled(course.own.lines);
        let outcome = self.outcome();
        finish(alloc, course, n, &outcome, cancelled)?;
        self.outcomes = others(self.outcomes);
        self.cancels = others(self.cancels);
        Ok(())
    }
}

impl Way<'_> {
    fn is_cancelled(&self) -> bool {
        self.answers.is_cancelled(self.course.own.lines)
    }

    /// The start of a step.
    fn begin(&mut self, n: usize) -> Result<(), AllocError> {
        if n == 0 || n > self.plan.steps.len() {
            return Ok(());
        }
        begin(self.plan, &self.given, &mut self.course, n)
    }

    /// A request of a step; where it asks for tracks, an answer is used up.
    fn ask<S: Growths>(&mut self, store: &mut S, n: usize, wants: &Move) -> Result<(), AllocError> {
        if n == 0 || n > self.plan.steps.len() {
            return Ok(());
        }
        let asking = Asking {
            job: JOB,
            step: n - 1,
            wants,
            cancelled: self.is_cancelled(),
        };
        store.next_growth(self.answers.is_granted());
        if ask(self.alloc, self.plan, store, &mut self.course, &asking)? {
            self.answers.grants = others(self.answers.grants);
        }
        Ok(())
    }

    /// An action of a step. An `Err` changes nothing.
    fn act<S: Growths>(
        &mut self,
        store: &mut S,
        at: At<'_>,
        action: Action<'_>,
    ) -> Result<(), AllocError> {
        let given = &self.given;
        let course = &mut self.course;
        match action {
            Action::Start => self.begin(at.n),
            Action::Take(dd, d) => {
                let site = at.site(dd, d);
                take(self.alloc, store, given, course, &site, &take_text(&d.kind))?;
                Ok(())
            }
            Action::Ask(wants) => self.ask(store, at.n, wants),
            Action::Receive => {
                let cancelled = self.answers.is_cancelled(course.own.lines);
                receive(store, JOB, course, cancelled)
            }
            Action::Finish => self.answers.finish(self.alloc, course, at.n),
            Action::Dispose(dd, d) => dispose_of(store, given, course, &at.site(dd, d), d),
            Action::Left(dd, d) => {
                leave(store, given, course, &at.site(dd, d), &disp_text(&d.kind))?;
                Ok(())
            }
            Action::Over => end(course),
        }
    }
}

/// What becomes of a DD at its step's end. DDs count from 1.
fn dispose_of<S: JobStore>(
    store: &mut S,
    given: &Given<'_>,
    course: &mut Course,
    site: &Site,
    d: &DdPlan,
) -> Result<(), AllocError> {
    if site.dd > 0 {
        dispose(store, given, course, site, &disp_text(&d.kind))?;
    }
    Ok(())
}

/// What a job did over a store: its lines, what it leaves, and what its SYSOUT DDs were put.
#[derive(Drop)]
pub(crate) struct Run {
    pub(crate) shown: Told,
    /// How much of it are the lines, and what is left.
    pub(crate) alone: usize,
}

/// What a job has written, and what it sees of a store.
fn look<S: JobStore>(way: &Way<'_>, store: &S) -> Run {
    let mut shown = Told::new(way.alloc);
    shown.reserve(ROOM);
    tell_lines(way.alloc, &mut shown, way.course.lines.as_slice());
    tell_seen(&mut shown, store, way.looked.known, way.looked.serials);
    let alone = shown.as_slice().len();
    tell_outputs(&mut shown, way.course.own.outputs.as_slice());
    Run { shown, alone }
}

/// Carries an action out, a second time where memory is missing.
fn act_twice<S: Growths>(way: &mut Way<'_>, store: &mut S, at: At<'_>, action: Action<'_>) {
    let before = look(&*way, &*store).shown;
    if way.act(store, at, action).is_ok() {
        return;
    }
    let after = look(&*way, &*store).shown;
    way.changed |= before.as_slice() != after.as_slice();
    way.wanting |= before.is_wanting() || after.is_wanting();
    way.wanting |= way.act(store, at, action).is_err();
}

/// The requests of a step's program.
fn run_requests<S: Growths>(way: &mut Way<'_>, store: &mut S, at: At<'_>) {
    let Ok(moves) = moves_of(way.alloc, way.programs, &at.step.program) else {
        way.wanting = true;
        return;
    };
    for wants in moves.as_slice() {
        act_twice(way, store, at, Action::Ask(wants));
        act_twice(way, store, at, Action::Receive);
    }
}

/// A step: its start, its takes, its program's requests, its end, its dispositions. One that does not run passes over its own actions.
fn run_step<S: Growths>(way: &mut Way<'_>, store: &mut S, at: At<'_>) {
    act_twice(way, store, at, Action::Start);
    for (i, d) in at.step.dds.as_slice().iter().enumerate() {
        act_twice(way, store, at, Action::Take(i + 1, d));
    }
    run_requests(way, store, at);
    act_twice(way, store, at, Action::Finish);
    for (i, d) in at.step.dds.as_slice().iter().enumerate() {
        act_twice(way, store, at, Action::Dispose(i + 1, d));
    }
}

/// What the DDs of a step may have passed.
fn run_lefts<S: Growths>(way: &mut Way<'_>, store: &mut S, at: At<'_>) {
    for (i, d) in at.step.dds.as_slice().iter().enumerate() {
        if passes(&d.kind) {
            act_twice(way, store, at, Action::Left(i + 1, d));
        }
    }
}

/// A job from its first action to its end.
pub(crate) fn run_job<S: Growths>(way: &mut Way<'_>, store: &mut S) -> Run {
    let steps = way.plan.steps.as_slice();
    for (i, step) in steps.iter().enumerate() {
        run_step(way, store, At { n: i + 1, step });
    }
    for (i, step) in steps.iter().enumerate() {
        run_lefts(way, store, At { n: i + 1, step });
    }
    if let Some(step) = steps.last() {
        act_twice(way, store, At { n: 0, step }, Action::Over);
    }
    let run = look(&*way, &*store);
    way.wanting |= run.shown.is_wanting();
    run
}
