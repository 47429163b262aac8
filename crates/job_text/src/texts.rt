//! What an action reads of a step and of a DD, by value: all but tests, DDs and cards, which are read one at a time.
ghost use Rattle.std.specs.Prelude.{◌≡◌};
ghost use Rattle.jcl_meaning.specs.Takes.{releases, secondary_of};
ghost use Rattle.job_text.specs.Texts.{disp_text, primary_in, put_text, source_text, step_text, take_text};

use jcl_plan::plan::{
    AfterAbend, ConditionalWord, DdKind, Expiry, Space, Status, StepPlan, VolumePlan, Word,
};
use jname_core::name8::Name8;

/// What the taking of a DD reads. (DD statement)
#[derive(Clone, Copy)]
pub enum TakeText {
    /// Output of this class.
    Sysout(u8),
    Dummy,
    /// So many cards.
    Cards(usize),
    Set(TakeSet),
}

/// What a take reads of a set, but for its key: what that means is known from admission on. (DD statement)
#[derive(Clone, Copy)]
pub struct TakeSet {
    pub status: Status,
    pub volume: VolumePlan,
    /// The tracks that it gets where it is made; none where no SPACE is coded.
    pub primary: Option<u16>,
    pub expiry: Expiry,
}

/// What a PUT to a DD reads. (DD statement)
#[derive(Clone, Copy)]
pub enum PutText {
    Sysout,
    Dummy,
    Cards,
    Set(PutSet),
}

/// What a PUT reads of a set. (DD statement)
#[derive(Clone, Copy)]
pub struct PutSet {
    pub status: Status,
    /// The tracks that it gets where it is full; 0 where no SPACE is coded.
    pub secondary: u16,
}

/// What the disposition of a DD reads, and the job's end. (DD statement)
#[derive(Clone, Copy)]
pub enum DispText {
    /// Output of this class.
    Sysout(u8),
    /// There is nothing to dispose of.
    Nothing,
    Set(DispSet),
}

/// What a disposition reads of a set. (DD statement)
#[derive(Clone, Copy)]
pub struct DispSet {
    pub normal: Option<Word>,
    pub conditional: Option<ConditionalWord>,
    /// RLSE: tracks without records are released.
    pub release: bool,
}

/// What a program's GET may read of a DD: nothing, so many cards, or the records of a set. (DD statement)
#[derive(Clone, Copy)]
pub enum SourceText {
    Nothing,
    Cards(usize),
    Set,
}

/// A step, but for its tests and its DDs. (EXEC statement)
#[derive(Clone, Copy)]
pub struct StepText {
    pub name: Option<Name8>,
    /// The name of the procedure's step, where a procedure brought it.
    pub procedure_step: Option<Name8>,
    pub program: Name8,
    pub after_abend: AfterAbend,
}

fn primary_in(space: &Option<Space>) -> Option<u16>
    ensures { result ≡ primary_in space.now }
{
    match space {
        None => None,
        Some(space) => Some(space.primary),
    }
}

fn secondary_of(space: &Option<Space>) -> u16
    ensures { result ≡ secondary_of space.now }
{
    match space {
        None => 0,
        Some(space) => space.secondary,
    }
}

fn releases(space: &Option<Space>) -> bool
    ensures { result ≡ releases space.now }
{
    match space {
        None => false,
        Some(space) => space.release,
    }
}

/// What the taking of a DD of a plan reads.
pub fn take_text(kind: &DdKind) -> TakeText
    ensures { result ≡ take_text kind.now }
{
    match kind {
        DdKind::Sysout(class) => TakeText::Sysout(*class),
        DdKind::Dummy => TakeText::Dummy,
        DdKind::Cards(cards) => TakeText::Cards(cards.len()),
        DdKind::Set(p) => TakeText::Set(TakeSet {
            status: p.status,
            volume: p.volume,
            primary: primary_in(&p.space),
            expiry: p.expiry,
        }),
    }
}

/// What a PUT to a DD of a plan reads.
pub(crate) fn put_text(kind: &DdKind) -> PutText
    ensures { result ≡ put_text kind.now }
{
    match kind {
        DdKind::Sysout(_) => PutText::Sysout,
        DdKind::Dummy => PutText::Dummy,
        DdKind::Cards(_) => PutText::Cards,
        DdKind::Set(p) => PutText::Set(PutSet {
            status: p.status,
            secondary: secondary_of(&p.space),
        }),
    }
}

/// What the disposition of a DD of a plan reads, and the job's end.
pub fn disp_text(kind: &DdKind) -> DispText
    ensures { result ≡ disp_text kind.now }
{
    match kind {
        DdKind::Sysout(class) => DispText::Sysout(*class),
        DdKind::Dummy => DispText::Nothing,
        DdKind::Cards(_) => DispText::Nothing,
        DdKind::Set(p) => DispText::Set(DispSet {
            normal: p.normal,
            conditional: p.conditional,
            release: releases(&p.space),
        }),
    }
}

/// What a GET may read of a DD of a plan.
pub(crate) fn source_text(kind: &DdKind) -> SourceText
    ensures { result ≡ source_text kind.now }
{
    match kind {
        DdKind::Sysout(_) => SourceText::Nothing,
        DdKind::Dummy => SourceText::Nothing,
        DdKind::Cards(cards) => SourceText::Cards(cards.len()),
        DdKind::Set(_) => SourceText::Set,
    }
}

/// A step of a plan.
pub(crate) fn step_text(step: &StepPlan) -> StepText
    ensures { result ≡ step_text step.now }
{
    StepText {
        name: step.name,
        procedure_step: step.procedure_step,
        program: step.program,
        after_abend: step.after_abend,
    }
}
