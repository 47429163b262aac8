//! The steps that a procedure brings at a call. (GC28-6704, "PROC statement", "Symbolic parameters")
ghost use Rattle.std.specs.Prelude.{◌≡◌, ◌∷◌, ◌++◌, IfOk, IfSome, OnOk, Some, [], false, length, true, map, unwrap_or};
ghost use Rattle.std.specs.Bool.{OnTrue};
ghost use Rattle.std.specs.Option.{option_copied};
ghost use Rattle.operand_core.specs.Faults.{told, written_name_faults};
ghost use Rattle.operand_core.specs.Operands.{first_of, operand_of};
ghost use Rattle.value_core.specs.Reads.{Gives, answer};
ghost use Rattle.list_values.specs.Conditions.{no_condition};
ghost use Rattle.jcl_symbols.specs.Substitutions.{substituted};
ghost use Rattle.jcl_cards.specs.ExecCards as execs;
ghost use Rattle.jcl_dds.specs.declared.dd.DdCard.{DdCard};
ghost use Rattle.jcl_dds.specs.Dds.{is_data_word};
ghost use Rattle.jcl_dds.specs.Merging.{by_itself};
ghost use Rattle.jcl_deck.specs.declared.operation.Operation.TheVariants.{IsDd};
ghost use Rattle.jcl_deck.specs.Decks.{dd_place_faults, last_has_dd, operation_of};
ghost use Rattle.jcl_procs.specs.Calls.{calls, program_of, step_of, steps_of, steps_with, takes_dd, takes_exec};
ghost use Rattle.jcl_procs.specs.Calling.{Moves, behind, TellsCalls, TellsData, call_of, dd_faults_with, dd_placed, dd_read, denoted};
ghost use Rattle.jcl_procs.specs.Counting.{IsSettled, Tells, WereRead, has_symbol};
ghost use Rattle.jcl_procs.specs.Calling.{exec_placed, exec_read, or_earliest, with_dd, with_step};
ghost use Rattle.jcl_procs.specs.Remembering.{AreDdsOf, BringsDd, dd_at, kept_dd, last_dd};

use crate::copies::copied_dd;
use crate::step::FlatStep;
use boxed_core::Boxed;
use card_core::statement::{DataCard, Statement};
use jcl_cards::exec::{ExecCard, Runs, exec_card};
use jcl_dds::dd::{DdCard, dd_card, dd_name_fault, has_data};
use jcl_dds::given::is_data_word;
use jcl_dds::merging::by_itself;
use jcl_deck::dd_place::dd_place_fault;
use jcl_deck::operation::{Operation, operation_of};
use jcl_deck::place::{earliest, with_fault};
use jcl_plan::fault::{Cause, StatementFault};
use jcl_plan::plan::AfterAbend;
use jcl_symbols::substitution::substituted;
use jcl_symbols::symbol::Symbol;
use jname_core::name8::Name8;
use list_values::condition::{CodedTests, Condition, copied};
use operand_core::fault::{earlier, when, written_name_fault};
use operand_core::keyword::has_key;
use operand_core::operand::{first_of, operand_of};
use operand_core::qualified::is_qualified;
use plain::listed::Listed;
use plain::text::Text;
use std::alloc::{AllocError, Global};
use value_core::refusal::ReadError;

/// A call of a procedure: what is the same for all its steps.
#[derive(Clone, Copy)]
pub struct Caller<'a> {
    /// The name on the EXEC statement that calls.
    pub name: Option<Name8>,
    /// Its place among the deck's EXEC statements, from 1.
    pub place: usize,
    /// The symbols of the call; they stand before the procedure's own.
    pub symbols: &'a [Symbol],
    /// The symbols of the procedure.
    pub own_symbols: &'a [Symbol],
}

/// The steps so far.
#[derive(Drop)]
struct Place {
    /// A JOBLIB stands before the first step.
    job_library: bool,
    steps: Vec<FlatStep>,
}

/// An operand with the values of symbols. Where it has a fault, that of the statement's name may be told.
fn operand_with(
    alloc: Global,
    caller: &Caller<'_>,
    dd: bool,
    name: Option<Cause>,
    operand: &[u8],
) -> Result<Text, ReadError>
    ensures { Gives result (or_earliest name (answer (substituted (call_of caller.now).symbols dd operand.now))) }
{
    match substituted(alloc, caller.symbols, caller.own_symbols, dd, operand) {
        Err(ReadError::Refused(fault)) => Err(ReadError::Refused(earliest(name, fault))),
        text => text,
    }
}

fn calls(card: &ExecCard) -> bool
    ensures { result ≡ calls card.now }
{
    match &card.runs {
        Runs::Program(_) => false,
        Runs::Procedure { .. } => true,
    }
}

/// Whether the operand of an EXEC statement calls a procedure.
fn operand_calls(alloc: Global, operand: &[u8]) -> Result<bool, AllocError>
    ensures { IfOk result (λ calls. calls ≡ execs.calls (operand_of 1 operand.now)) }
{
    let operand = operand_of(alloc, 1, operand)?;
    Ok(!operand.positional.is_empty() || has_key(operand.keywords.as_slice(), b"PROC"))
}

/// Whether an EXEC statement calls a procedure, be it refused or not.
fn tells_calls(
    alloc: Global,
    card: &Result<ExecCard, ReadError>,
    operand: &[u8],
) -> Result<bool, AllocError>
    ensures { IfOk result (TellsCalls card.now operand.now) }
{
    match card {
        Ok(card) => Ok(calls(card)),
        Err(_) => operand_calls(alloc, operand),
    }
}

/// The card of an EXEC statement of a procedure, which calls none.
fn placed_exec(alloc: Global, name: &[u8], operand: &[u8]) -> Result<ExecCard, ReadError>
    ensures { Gives result (answer (exec_placed name.now operand.now)) }
{
    let card = exec_card(alloc, name, operand);
    let calls = tells_calls(alloc, &card, operand)?;
    let fault = when(calls, Cause::P(StatementFault::ProcedureCallsProcedure));
    with_fault(card, fault)
}

fn read_exec(
    alloc: Global,
    caller: &Caller<'_>,
    statement: &Statement,
) -> Result<ExecCard, ReadError>
    ensures { Gives result (answer (exec_read (call_of caller.now) statement.now)) }
{
    let name = statement.name.as_slice();
    let operand = statement.operand.as_slice();
    let operand = operand_with(alloc, caller, false, written_name_fault(name), operand)?;
    placed_exec(alloc, name, operand.as_slice())
}

fn program_of(runs: Runs) -> Name8
    ensures { result ≡ program_of runs }
{
    match runs {
        Runs::Program(name) => name,
        Runs::Procedure { name, .. } => name,
    }
}

fn no_condition() -> Condition
    ensures { result ≡ no_condition }
{
    Condition {
        tests: CodedTests::new(),
        after_abend: AfterAbend::Unsaid,
    }
}

/// COND of a step, which may be absent.
pub(crate) fn condition_or_none(condition: &Option<Boxed<Condition>>) -> Condition
    ensures { result ≡ unwrap_or condition.now no_condition }
{
    match condition {
        Some(condition) => copied(condition.get()),
        None => no_condition(),
    }
}

/// The step that an EXEC statement of the procedure brings, which has no DD yet.
fn step_of(alloc: Global, caller: &Caller<'_>, card: ExecCard) -> FlatStep
    ensures { result ≡ step_of (call_of caller.now) card }
{
    FlatStep {
        name: caller.name,
        procedure_step: card.name,
        call: Some(caller.place),
        program: program_of(card.runs),
        condition: condition_or_none(&card.condition),
        dds: Listed::empty(alloc),
    }
}

/// Whether data stands behind a DD statement, by its operand.
fn operand_has_data(alloc: Global, operand: &[u8]) -> Result<bool, AllocError>
    ensures { IfOk result (λ found. found ≡ is_data_word (first_of (operand_of 1 operand.now).positional)) }
{
    let operand = operand_of(alloc, 1, operand)?;
    Ok(is_data_word(first_of(operand.positional.as_slice())))
}

/// Whether data stands behind a DD statement, be it refused or not.
fn tells_data(
    alloc: Global,
    card: &Result<DdCard, ReadError>,
    operand: &[u8],
) -> Result<bool, AllocError>
    ensures { IfOk result (TellsData card.now operand.now) }
{
    match card {
        Ok(card) => Ok(has_data(card)),
        Err(_) => operand_has_data(alloc, operand),
    }
}

/// The data cards of a statement, copied where there are some.
fn copy_of_cards(
    alloc: Global,
    cards: &Option<Listed<DataCard>>,
) -> Result<Option<Listed<DataCard>>, AllocError>
    ensures { IfOk result (λ copy. copy ≡ cards.now) }
{
    match cards {
        None => Ok(None),
        Some(cards) => Ok(Some(Listed::copy_of(alloc, cards.as_slice())?)),
    }
}

fn last_has_dd(steps: &[FlatStep]) -> bool
    ensures { result ≡ last_has_dd (map (λ step. step.dds) steps.now) }
{
    match steps.last() {
        Some(step) => step.dds.len() != 0,
        None => false,
    }
}

/// The last DD of the last step.
fn last_dd(steps: &[FlatStep]) -> Option<&DdCard>
    ensures { option_copied result ≡ last_dd steps.now }
{
    match steps.last() {
        Some(step) => step.dds.as_slice().last(),
        None => None,
    }
}

/// The DD that is remembered of a statement.
fn dd_at(dds: &[Option<DdCard>], at: usize) -> Option<&DdCard>
    ensures { option_copied result ≡ dd_at dds.now at }
{
    match dds.get(at) {
        Some(dd) => dd.as_ref(),
        None => None,
    }
}

/// The fault of an operation that has no place there, or of the statement's name.
#[tactic(auto, using(operand_core::proofs::Told::told_append))]
fn refusal(name: &[u8], fault: StatementFault) -> Cause
    ensures { Some result ≡ told (written_name_faults name.now ++ Cause.P fault ∷ []) }
{
    earliest(written_name_fault(name), Cause::P(fault))
}

fn is_dd(statement: &Statement) -> bool
    ensures { OnTrue result (operation_of statement.now.operation ≡ IsDd) }
{
    match operation_of(statement.operation.as_slice()) {
        Operation::IsDd => true,
        _ => false,
    }
}

/// Whether an operand may have a symbol.
fn has_symbol(operand: &[u8]) -> bool
    ensures { result ≡ has_symbol operand.now }
{
    operand.iter().any(|c| *c == b'&')
}

impl Place {
    /// The place before a procedure's first statement.
    fn start(alloc: Global) -> Place
        ensures { denoted result ≡ record { job_library = false; steps = [] } }
    {
        Place {
            job_library: false,
            steps: Vec::new(alloc),
        }
    }

    fn add_step(&mut self, step: FlatStep) -> Result<(), AllocError>
        ensures { OnOk result (denoted self.new ≡ with_step (denoted self.old) step) }
    {
        self.steps.push(step)?;
        Ok(())
    }

    fn take_exec(
        &mut self,
        alloc: Global,
        caller: &Caller<'_>,
        statement: &Statement,
    ) -> Result<(), ReadError>
        ensures { Moves result self.new (takes_exec (call_of caller.now) (denoted self.old) statement.now) }
    {
        let card = read_exec(alloc, caller, statement)?;
        self.add_step(step_of(alloc, caller, card))?;
        Ok(())
    }

    /// The fault of a DD by its place.
    fn place_fault(&self, statement: &Statement) -> Option<Cause>
        ensures { result ≡ told (dd_place_faults self.now.job_library (map (λ step. step.dds) self.now.steps.items) statement.now) }
    {
        dd_place_fault(
            self.job_library,
            self.steps.is_empty(),
            last_has_dd(self.steps.as_slice()),
            statement.name.as_slice(),
        )
    }

    /// The fault of a DD by its place, where no data stands behind it, and by its name, which is not qualified.
    #[tactic(auto, using(operand_core::proofs::Told::told_append))]
    fn dd_fault(&self, has_data: bool, statement: &Statement) -> Option<Cause>
        ensures { result ≡ told (dd_faults_with has_data (denoted self.now) statement.now) }
    {
        let by_data = when(has_data, Cause::P(StatementFault::CardsInProcedure));
        let by_name = when(
            is_qualified(statement.name.as_slice()),
            Cause::P(StatementFault::NoSuchProcedureStep),
        );
        earlier(earlier(by_data, self.place_fault(statement)), by_name)
    }

    /// The card of a DD of the procedure, by its operand with the values of symbols.
    fn placed_dd(
        &self,
        alloc: Global,
        statement: &Statement,
        operand: &[u8],
    ) -> Result<DdCard, ReadError>
        ensures { Gives result (answer (dd_placed (denoted self.now) statement.now operand.now)) }
    {
        let cards = copy_of_cards(alloc, &statement.cards)?;
        let card = dd_card(alloc, statement.name.as_slice(), operand, cards);
        let has_data = tells_data(alloc, &card, operand)?;
        with_fault(card, self.dd_fault(has_data, statement))
    }

    fn read_dd(
        &self,
        alloc: Global,
        caller: &Caller<'_>,
        statement: &Statement,
    ) -> Result<DdCard, ReadError>
        ensures { Gives result (answer (dd_read (call_of caller.now) (denoted self.now) statement.now)) }
    {
        let name = dd_name_fault(statement.name.as_slice());
        let operand = operand_with(alloc, caller, true, name, statement.operand.as_slice())?;
        self.placed_dd(alloc, statement, operand.as_slice())
    }

    fn add_dd(&mut self, dd: DdCard) -> Result<(), AllocError>
        ensures { OnOk result (denoted self.new ≡ with_dd (denoted self.old) dd) }
    {
        if self.steps.is_empty() {
            self.job_library = true;
            return Ok(());
        }
        let last = self.steps.len() - 1;
        self.steps[last].dds.push(by_itself(dd))
    }

    /// Adds a DD that is one of its own already.
    fn add_own(&mut self, dd: DdCard) -> Result<(), AllocError>
        ensures { (card : DdCard) → by_itself card ≡ dd → OnOk result (denoted self.new ≡ with_dd (denoted self.old) card) }
    {
        if self.steps.is_empty() {
            self.job_library = true;
            return Ok(());
        }
        let last = self.steps.len() - 1;
        self.steps[last].dds.push(dd)
    }

    fn take_dd(
        &mut self,
        alloc: Global,
        caller: &Caller<'_>,
        statement: &Statement,
    ) -> Result<(), ReadError>
        ensures { Moves result self.new (takes_dd (call_of caller.now) (denoted self.old) statement.now) }
    {
        let dd = self.read_dd(alloc, caller, statement)?;
        self.add_dd(dd)?;
        Ok(())
    }

    /// Takes the next statement of a procedure.
    fn take(
        &mut self,
        alloc: Global,
        caller: &Caller<'_>,
        statement: &Statement,
    ) -> Result<(), ReadError>
        ensures { Moves result self.new (behind (call_of caller.now) (denoted self.old) statement.now) }
    {
        let fault = match operation_of(statement.operation.as_slice()) {
            Operation::IsExec => return self.take_exec(alloc, caller, statement),
            Operation::IsDd => return self.take_dd(alloc, caller, statement),
            Operation::IsProc => StatementFault::MissingPend,
            Operation::IsJob => StatementFault::NotOneJob,
            Operation::IsPend | Operation::IsOther => StatementFault::UnknownOperation,
        };
        Err(ReadError::Refused(refusal(statement.name.as_slice(), fault)))
    }

    /// Whether a statement is a DD without a symbol behind another one of its step.
    fn settles(&self, statement: &Statement) -> bool
        ensures { OnTrue result (IsSettled (denoted self.now) statement.now) }
    {
        last_has_dd(self.steps.as_slice())
            && is_dd(statement)
            && !has_symbol(statement.operand.as_slice())
    }

    /// Takes the next statement of a procedure, of which this DD is remembered.
    fn take_again(
        &mut self,
        alloc: Global,
        caller: &Caller<'_>,
        statement: &Statement,
        dd: Option<&DdCard>,
    ) -> Result<(), ReadError>
        requires { IfSome (option_copied dd) (BringsDd statement.now) }
        ensures { Moves result self.new (behind (call_of caller.now) (denoted self.old) statement.now) }
    {
        if let Some(dd) = dd {
            if last_has_dd(self.steps.as_slice()) {
                let copy = copied_dd(alloc, dd)?;
                self.add_own(copy)?;
                return Ok(());
            }
        }
        self.take(alloc, caller, statement)
    }

    /// Remembers of a statement the last DD, if it settles.
    fn remember(
        &self,
        alloc: Global,
        settles: bool,
        dds: &mut Vec<Option<DdCard>>,
    ) -> Result<(), AllocError>
        ensures { OnOk result (dds.new.items ≡ dds.old.items ++ kept_dd settles (denoted self.now).steps ∷ []) }
    {
        if settles {
            if let Some(dd) = last_dd(self.steps.as_slice()) {
                dds.push(Some(copied_dd(alloc, dd)?))?;
                return Ok(());
            }
        }
        dds.push(None)?;
        Ok(())
    }

    fn count(&self) -> usize
        ensures { result ≡ length (denoted self.now).steps }
    {
        self.steps.as_slice().len()
    }

    /// The steps, of which there is one at least.
    fn end(self) -> Result<Listed<FlatStep>, Cause>
        ensures { result ≡ steps_with (denoted self) }
    {
        let Place { steps, .. } = self;
        if steps.is_empty() {
            return Err(Cause::P(StatementFault::NoStep));
        }
        Ok(Listed::new(steps))
    }
}

pub(crate) fn steps_from(
    alloc: Global,
    caller: &Caller<'_>,
    statements: &[Statement],
) -> Result<Listed<FlatStep>, ReadError>
    ensures { Gives result (steps_of (call_of caller.now) statements.now) }
{
    let mut place = Place::start(alloc);
    for statement in statements {
        place.take(alloc, caller, statement)?;
    }
    Ok(place.end()?)
}

/// The steps that a procedure's statements bring at a call, or their first refusal.
pub fn steps_of(
    alloc: Global,
    caller: Caller<'_>,
    statements: &[Statement],
) -> Result<Listed<FlatStep>, ReadError>
    ensures { Gives result (steps_of (call_of caller.entry) statements.now) }
{
    let lent = Caller { ..caller };
    steps_from(alloc, &lent, statements)
}

/// The same, and for each statement the DD that it brings, where that is the same at each call.
pub(crate) fn steps_remembered(
    alloc: Global,
    caller: &Caller<'_>,
    statements: &[Statement],
    dds: &mut Vec<Option<DdCard>>,
) -> Result<Listed<FlatStep>, ReadError>
    requires { dds.old.items ≡ [] }
    ensures gives { Gives result (steps_of (call_of caller.now) statements.now) }
    ensures same { OnOk result (AreDdsOf dds.new.items statements.now) }
{
    let mut place = Place::start(alloc);
    for statement in statements {
        let settles = place.settles(statement);
        place.take(alloc, caller, statement)?;
        place.remember(alloc, settles, dds)?;
    }
    Ok(place.end()?)
}

/// The steps that a procedure's statements bring at a call, where these DDs of them are remembered.
pub(crate) fn steps_again(
    alloc: Global,
    caller: &Caller<'_>,
    statements: &[Statement],
    dds: &[Option<DdCard>],
) -> Result<Listed<FlatStep>, ReadError>
    requires { AreDdsOf dds.now statements.now }
    ensures { Gives result (steps_of (call_of caller.now) statements.now) }
{
    let mut place = Place::start(alloc);
    for at in 0..statements.len() {
        place.take_again(alloc, caller, &statements[at], dd_at(dds, at))?;
    }
    Ok(place.end()?)
}

/// How many steps statements bring at this call that another one did not refuse, or their first refusal. A DD without a symbol behind another one of its step is not read again.
pub(crate) fn tell_steps(
    alloc: Global,
    caller: &Caller<'_>,
    statements: &[Statement],
) -> Result<usize, ReadError>
    requires { WereRead statements.now }
    ensures { Tells result (steps_of (call_of caller.now) statements.now) }
{
    let mut place = Place::start(alloc);
    for statement in statements {
        if place.settles(statement) {
            continue;
        }
        place.take(alloc, caller, statement)?;
    }
    Ok(place.count())
}
