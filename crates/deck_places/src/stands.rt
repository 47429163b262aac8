//! On which card of a deck a step of its job stands, or a DD. Where a call brings it, that is the card of the call, or of what overrides the DD.
ghost use Rattle.std.specs.Prelude.{◌≡◌, IfOk, drop, false, map, take};
ghost use Rattle.jcl_deck.specs.Decks.{operation_of};
ghost use Rattle.deck_places.specs.Stands.{card_by, card_of_dd, card_of_step, dd_behind, dd_number, exec_at, exec_number, exec_of, exec_or_dd};
ghost use Rattle.deck_places.specs.Stands.{head_of, is_same_call, named_behind, next_exec, no_stood, number_of_dd, origin_of, origins_in};
ghost use Rattle.deck_places.specs.Stands.{overriding_by, overriding_name, own_from, stood_with};

use crate::copies::inside_behind;
use crate::walk::walk_lines;
use card_core::read::{ReadError as CardError, read_statements};
use card_core::statement::{Card, Statement};
use jcl_dds::dd::DdCard;
use jcl_deck::operation::{Operation, operation_of};
use jcl_procs::expansion::Expansion;
use jcl_procs::step::FlatStep;
use jname_core::name8::Name8;
use plain::listed::Listed;
use plain::text::Text;
use std::alloc::{AllocError, Global};
use std::marker::Model;

/// An EXEC or DD statement of a deck outside its procedures.
#[derive(Drop)]
pub(crate) struct Own {
    /// Its number among the deck's statements, from 0.
    number: usize,
    is_exec: bool,
    name: Text,
}

/// Where a step of a job comes from: the call that brings it, if one does, its name in the procedure, and the names of its DDs.
#[derive(Drop)]
pub struct StepOrigin {
    call: Option<usize>,
    procedure_step: Option<Name8>,
    dd_names: Listed<Option<Name8>>,
}

/// What a deck tells of where its job's steps and DDs stand.
#[derive(Drop)]
pub struct Stands<'a> {
    own: Vec<Own>,
    steps: &'a [StepOrigin],
    /// The card on which each statement begins.
    begun: Vec<usize>,
}

impl<'a> Model for Stands<'a> {
    ghost use Rattle.deck_places.specs.Stands.{Stood};

    ghost Value = { Stood };

    ghost view = { λ s. record { own = s.own.items; steps = s.steps.now; begun = s.begun.items } };
}

/// The names of DDs.
fn names_of(alloc: Global, dds: &[DdCard]) -> Result<Listed<Option<Name8>>, AllocError>
    ensures { IfOk result (λ names. names ≡ map (λ dd. dd.name) dds.now) }
{
    let mut names = Listed::empty(alloc);
    for dd in dds {
        names.push(dd.name)?;
    }
    Ok(names)
}

/// Where a step comes from.
fn origin_of(alloc: Global, step: &FlatStep) -> Result<StepOrigin, AllocError>
    ensures { IfOk result (λ origin. origin ≡ origin_of step.now) }
{
    Ok(StepOrigin {
        call: step.call,
        procedure_step: step.procedure_step,
        dd_names: names_of(alloc, step.dds.as_slice())?,
    })
}

/// Where these steps come from.
fn origins_of(alloc: Global, steps: &[FlatStep]) -> Result<Vec<StepOrigin>, AllocError>
    ensures { IfOk result (λ origins. origins.items ≡ map origin_of steps.now) }
{
    let mut origins = Vec::new(alloc);
    for step in steps {
        origins.push(origin_of(alloc, step)?)?;
    }
    Ok(origins)
}

/// Where the steps of a job come from, unless there are too many.
pub(crate) fn origins_in(
    alloc: Global,
    expansion: &Expansion,
) -> Result<Vec<StepOrigin>, AllocError>
    ensures { IfOk result (λ origins. origins.items ≡ origins_in expansion.now) }
{
    match expansion {
        Expansion::Steps(steps) => origins_of(alloc, steps.as_slice()),
        Expansion::TooMany => Ok(Vec::new(alloc)),
    }
}

/// Whether a statement is an EXEC statement, where it is that or a DD statement.
fn exec_or_dd(statement: &Statement) -> Option<bool>
    ensures { result ≡ exec_or_dd (operation_of statement.now.operation) }
{
    match operation_of(statement.operation.as_slice()) {
        Operation::IsExec => Some(true),
        Operation::IsDd => Some(false),
        _ => None,
    }
}

/// The EXEC and DD statements outside procedures.
fn own_of(alloc: Global, statements: &[Statement]) -> Result<Vec<Own>, AllocError>
    ensures { IfOk result (λ own. own.items ≡ own_from false 0 statements.now) }
{
    let mut own = Vec::new(alloc);
    let mut inside = false;
    for (number, statement) in statements.iter().enumerate() {
        if !inside {
            if let Some(is_exec) = exec_or_dd(statement) {
                let name = Text::copy_of(alloc, statement.name.as_slice())?;
                own.push(Own {
                    number,
                    is_exec,
                    name,
                })?;
            }
        }
        inside = inside_behind(statement, inside);
    }
    Ok(own)
}

/// From the next EXEC statement on.
fn next_exec<'a>(own: &'a [Own]) -> &'a [Own]
    ensures { result.now ≡ next_exec own.now }
{
    let mut rest = own;
    while let Some((first, behind)) = rest.split_first() {
        if first.is_exec {
            return rest;
        }
        rest = behind;
    }
    rest
}

/// What is behind the first.
fn behind_first<'a>(own: &'a [Own]) -> &'a [Own]
    ensures { result.now ≡ drop 1 own.now }
{
    match own.split_first() {
        Some((_, behind)) => behind,
        None => own,
    }
}

/// Whether two steps are of one call.
fn is_same_call(one: Option<usize>, other: Option<usize>) -> bool
    ensures { result ≡ is_same_call one other }
{
    match (one, other) {
        (Some(one), Some(other)) => one == other,
        _ => false,
    }
}

/// From the EXEC statement on that brings the last of these steps, which are all up to it.
fn exec_of<'a>(steps: &[StepOrigin], own: &'a [Own]) -> &'a [Own]
    ensures { result.now ≡ exec_of steps.now own.now }
{
    let Some((first, more)) = steps.split_first() else {
        return &[];
    };
    let mut call = first.call;
    let mut rest = next_exec(own);
    for step in more {
        if !is_same_call(call, step.call) {
            rest = next_exec(behind_first(rest));
        }
        call = step.call;
    }
    rest
}

/// The number of the n-th DD statement before the next EXEC statement, from 0.
fn dd_behind(n: usize, own: &[Own]) -> Option<usize>
    ensures { result ≡ dd_behind n own.now }
{
    let mut left = n;
    for statement in own {
        if statement.is_exec {
            return None;
        }
        if left == 0 {
            return Some(statement.number);
        }
        left -= 1;
    }
    None
}

/// The number of the DD statement that is so many behind the first of a name.
fn named_behind(name: &[u8], n: usize, own: &[Own]) -> Option<usize>
    ensures { result ≡ named_behind name.now n own.now }
{
    let mut rest = own;
    while let Some((first, behind)) = rest.split_first() {
        if first.is_exec {
            return None;
        }
        if first.name.as_slice() == name {
            return dd_behind(n, rest);
        }
        rest = behind;
    }
    None
}

/// The name with which the concatenation of the last of these DDs begins, of which these are the names, and where.
fn head_of(dds: &[Option<Name8>]) -> (Option<Name8>, usize)
    ensures { record { name = result.0; at = result.1 } ≡ head_of dds.now }
{
    let mut name = None;
    let mut at = 0;
    for (n, dd) in dds.iter().enumerate() {
        if dd.is_some() {
            name = *dd;
            at = n;
        }
    }
    (name, at)
}

/// The name of what overrides a DD of a procedure's step.
fn overriding_name(alloc: Global, step: &Name8, dd: &Name8) -> Result<Vec<u8>, AllocError>
    ensures { IfOk result (λ name. name.items ≡ overriding_name step.now dd.now) }
{
    let mut name = Vec::from_slice(alloc, step.as_slice())?;
    name.push(b'.')?;
    name.extend_from_slice(dd.as_slice())?;
    Ok(name)
}

/// The number of the statement that overrides a DD of a procedure's step, which counts from 1.
fn overriding(
    alloc: Global,
    step: &StepOrigin,
    dd: usize,
    own: &[Own],
) -> Result<Option<usize>, AllocError>
    ensures { IfOk result (λ number. number ≡ overriding_by step.now.procedure_step (head_of (take dd step.now.dd_names)) dd own.now) }
{
    let dds = step.dd_names.as_slice();
    let (front, _) = dds.split_at(dd.min(dds.len()));
    let (name, at) = head_of(front);
    match (&step.procedure_step, &name) {
        (Some(step), Some(name)) => {
            let wanted = overriding_name(alloc, step, name)?;
            let behind = dd.saturating_sub(1).saturating_sub(at);
            Ok(named_behind(wanted.as_slice(), behind, own))
        }
        _ => Ok(None),
    }
}

/// The number of the statement that brings a DD of a step, of those behind the step's EXEC statement. DDs count from 1.
fn dd_number(
    alloc: Global,
    step: &StepOrigin,
    dd: usize,
    own: &[Own],
) -> Result<Option<usize>, AllocError>
    ensures { IfOk result (λ number. number ≡ dd_number step.now.call step.now dd own.now) }
{
    match step.call {
        None => Ok(dd_behind(dd.saturating_sub(1), own)),
        Some(_) => overriding(alloc, step, dd, own),
    }
}

/// The number of the first.
fn exec_number(own: &[Own]) -> Option<usize>
    ensures { result ≡ exec_number own.now }
{
    match own.split_first() {
        Some((first, _)) => Some(first.number),
        None => None,
    }
}

/// What cards tell of which no statements can be made.
fn no_stands<'a>(alloc: Global) -> Stands<'a>
    ensures { result ≡ no_stood }
{
    Stands {
        own: Vec::new(alloc),
        steps: &[],
        begun: Vec::new(alloc),
    }
}

impl<'a> Stands<'a> {
    /// What the deck of these lines tells, whose job's steps come from there.
    pub fn of(
        alloc: Global,
        lines: &[Card<'_>],
        steps: &'a [StepOrigin],
    ) -> Result<Stands<'a>, AllocError>
        ensures { IfOk result (λ s. s ≡ stood_with lines.now steps.now) }
    {
        let statements = match read_statements(alloc, lines) {
            Ok(statements) => statements,
            Err(CardError::Fault(_)) => return Ok(no_stands(alloc)),
            Err(CardError::Memory) => return Err(AllocError),
        };
        let own = own_of(alloc, statements.as_slice())?;
        let walk = walk_lines(alloc, lines)?;
        Ok(Stands {
            own,
            steps,
            begun: walk.begun,
        })
    }

    /// From the EXEC statement on that brings a step.
    fn exec_at(&self, step: usize) -> &[Own]
        ensures { result.now ≡ exec_at self.now step }
    {
        let steps = self.steps;
        let (front, _) = steps.split_at(step.min(steps.len()));
        exec_of(front, self.own.as_slice())
    }

    /// The card on which a statement begins.
    fn card_by(&self, number: Option<usize>) -> Option<usize>
        ensures { result ≡ card_by self.now number }
    {
        match number {
            Some(number) => self.begun.get(number).copied(),
            None => None,
        }
    }

    /// The number of the statement that brings a DD of a step.
    fn number_of_dd(
        &self,
        alloc: Global,
        step: usize,
        dd: usize,
    ) -> Result<Option<usize>, AllocError>
        ensures { IfOk result (λ number. number ≡ number_of_dd self.now step dd) }
    {
        match self.steps.get(step.saturating_sub(1)) {
            Some(flat) => dd_number(alloc, flat, dd, behind_first(self.exec_at(step))),
            None => Ok(None),
        }
    }

    /// The card of the EXEC statement that brings a step, which counts from 1.
    pub fn step_card(&self, step: usize) -> Option<usize>
        ensures { result ≡ card_of_step self.now step }
    {
        self.card_by(exec_number(self.exec_at(step)))
    }

    /// The card of the statement that brings a DD, or overrides it, or else of its step's EXEC statement. Both count from 1.
    pub fn dd_card(
        &self,
        alloc: Global,
        step: usize,
        dd: usize,
    ) -> Result<Option<usize>, AllocError>
        ensures { IfOk result (λ card. card ≡ card_of_dd self.now step dd) }
    {
        let number = match self.number_of_dd(alloc, step, dd)? {
            Some(number) => Some(number),
            None => exec_number(self.exec_at(step)),
        };
        Ok(self.card_by(number))
    }
}
