//! A job's agenda carried out: its steps, then what is left of its passed sets.
ghost use Rattle.std.specs.Prelude.{◌+◌, ◌<◌, OnOk, length};
ghost use Rattle.jcl_meaning.specs.Agendas.{agenda, disposes_from, left_by, lefts_from, lefts_in, moves_from, step_actions, steps_from, takes_from};
ghost use Rattle.jcl_meaning.specs.Programs.{moves_of};
ghost use Rattle.job_text.specs.Places.{dd_at, step_at};
ghost use Rattle.solo_core.specs.Runners.{Acts};

use crate::runner::Runner;
use jcl_meaning::program::{Move, SoloProgram, moves_of};
use job_text::text::JobText;
use std::alloc::AllocError;

impl<'a> Runner<'a> {
    fn run_takes<T: JobText>(&mut self, text: &T, step: usize) -> Result<(), AllocError>
        requires reads { T.reads text.now }
        requires step { step < length (T.plan text.now).steps }
        requires fits { step < usize.MAX }
        ensures { OnOk result (Acts (takes_from (step + 1) 1 (step_at (T.plan text.now).steps step).dds) self.old self.new) }
    {
        for i in 0..text.dd_count(step) {
            self.take(text, step + 1, i + 1)?;
        }
        Ok(())
    }

    fn run_moves<T: JobText>(
        &mut self,
        text: &T,
        step: usize,
        moves: &[Move],
    ) -> Result<(), AllocError>
        requires reads { T.reads text.now }
        requires step { step < length (T.plan text.now).steps }
        requires fits { step < usize.MAX }
        ensures { OnOk result (Acts (moves_from (step_at (T.plan text.now).steps step) moves.now) self.old self.new) }
    {
        for wants in moves {
            self.ask(text, step + 1, wants)?;
            self.receive()?;
        }
        Ok(())
    }

    fn run_disposes<T: JobText>(&mut self, text: &T, step: usize) -> Result<(), AllocError>
        requires reads { T.reads text.now }
        requires step { step < length (T.plan text.now).steps }
        requires fits { step < usize.MAX }
        ensures { OnOk result (Acts (disposes_from (step + 1) 1 (step_at (T.plan text.now).steps step).dds) self.old self.new) }
    {
        for i in 0..text.dd_count(step) {
            self.dispose(text, step + 1, i + 1)?;
        }
        Ok(())
    }

    fn run_step<T: JobText>(
        &mut self,
        text: &T,
        step: usize,
        moves: &[Move],
    ) -> Result<(), AllocError>
        requires reads { T.reads text.now }
        requires step { step < length (T.plan text.now).steps }
        requires fits { step < usize.MAX }
        ensures { OnOk result (Acts (step_actions (step + 1) (step_at (T.plan text.now).steps step) moves.now) self.old self.new) }
    {
        self.begin(text, step + 1)?;
        self.run_takes(text, step)?;
        self.run_moves(text, step, moves)?;
        self.finish(step + 1)?;
        self.run_disposes(text, step)?;
        Ok(())
    }

    /// The steps.
    pub(crate) fn run_steps<T: JobText>(
        &mut self,
        text: &T,
        programs: &[SoloProgram],
    ) -> Result<(), AllocError>
        requires { T.reads text.now }
        ensures { OnOk result (Acts (steps_from (moves_of programs.now) 1 (T.plan text.now).steps) self.old self.new) }
    {
        for i in 0..text.step_count() {
            let moves = moves_of(self.alloc, programs, &text.step(i).program)?;
            self.run_step(text, i, moves.as_slice())?;
        }
        Ok(())
    }

    /// What a DD passed, by its number from 0 in its step, and no DD received.
    fn leave_if<T: JobText>(&mut self, text: &T, step: usize, i: usize) -> Result<(), AllocError>
        requires reads { T.reads text.now }
        requires step { step < length (T.plan text.now).steps }
        requires dd { i < length (step_at (T.plan text.now).steps step).dds }
        requires fits { (step < usize.MAX) × (i < usize.MAX) }
        ensures { OnOk result (Acts (left_by (step + 1) (i + 1) (dd_at (step_at (T.plan text.now).steps step).dds i)) self.old self.new) }
    {
        if !text.passes(step, i) {
            return Ok(());
        }
        self.leave(text, step + 1, i + 1)?;
        Ok(())
    }

    fn run_lefts_in<T: JobText>(&mut self, text: &T, step: usize) -> Result<(), AllocError>
        requires reads { T.reads text.now }
        requires step { step < length (T.plan text.now).steps }
        requires fits { step < usize.MAX }
        ensures { OnOk result (Acts (lefts_in (step + 1) 1 (step_at (T.plan text.now).steps step).dds) self.old self.new) }
    {
        for i in 0..text.dd_count(step) {
            self.leave_if(text, step, i)?;
        }
        Ok(())
    }

    /// What the steps' DDs passed and no DD received.
    pub(crate) fn run_lefts<T: JobText>(&mut self, text: &T) -> Result<(), AllocError>
        requires { T.reads text.now }
        ensures { OnOk result (Acts (lefts_from 1 (T.plan text.now).steps) self.old self.new) }
    {
        for i in 0..text.step_count() {
            self.run_lefts_in(text, i)?;
        }
        Ok(())
    }

    /// The agenda of a job.
    pub(crate) fn run_agenda<T: JobText>(
        &mut self,
        text: &T,
        programs: &[SoloProgram],
    ) -> Result<(), AllocError>
        requires { T.reads text.now }
        ensures { OnOk result (Acts (agenda (T.plan text.now) programs.now) self.old self.new) }
    {
        self.run_steps(text, programs)?;
        self.run_lefts(text)?;
        self.end()?;
        Ok(())
    }
}
