//! The place in a deck: what was read of it so far.
ghost use Rattle.std.specs.Prelude.{◌≡◌, [], ◌∷◌, ◌++◌, map, None, Some, OnErr, OnOk, IsSome, if◌then◌else◌};
ghost use Rattle.operand_core.specs.Faults.{or_fault, told, written_name_faults};
ghost use Rattle.operand_core.specs.Keywords.{is_long};
ghost use Rattle.jcl_deck.specs.Decks.{behind, dd_place_faults, ended_with, keeps, last_has_dd, not_first, outside, procedure_with, start};
ghost use Rattle.jcl_deck.specs.Decks.{takes_dd, takes_exec, takes_job, takes_proc, within};
ghost use Rattle.jcl_deck.specs.Places.{GivesWith, Moves, denoted, earliest, error_with, procedure_place_faults, with_dd, with_procedure, with_step};

use crate::dd_place::dd_place_fault;
use crate::deck::{Deck, DeckStep, Procedure};
use crate::operation::{Operation, operation_of};
use card_core::statement::Statement;
use jcl_cards::exec::{ExecCard, exec_card};
use jcl_cards::job::{JobCard, job_card};
use jcl_cards::procedure::{ProcedureCard, procedure_card};
use jcl_dds::dd::{DdCard, bare_dd, read_dd};
use jcl_plan::fault::{Cause, StatementFault};
use operand_core::fault::{earlier, lower, when, written_name_fault};
use operand_core::keyword::is_long;
use plain::listed::Listed;
use std::alloc::{AllocError, Global};
use value_core::refusal::ReadError;

/// What was read of a deck so far.
#[derive(Drop)]
pub struct Place {
    pub job: Option<JobCard>,
    pub procedures: Vec<Procedure>,
    /// The last procedure has no PEND yet.
    pub is_open: bool,
    /// A JOBLIB stands before the first step.
    pub job_library: bool,
    pub steps: Vec<DeckStep>,
}

/// The most procedures of a deck.
const MOST_PROCEDURES: usize = 15;

/// Of two faults, the first of which may be absent, the one that is reported.
pub fn earliest(first: Option<Cause>, fault: Cause) -> Cause
    ensures { result ≡ earliest first fault }
{
    match first {
        None => fault,
        Some(first) => lower(first, fault),
    }
}

/// A card with one more fault of its statement, which may be absent.
pub fn with_fault<A: Drop>(card: Result<A, ReadError>, fault: Option<Cause>) -> Result<A, ReadError>
    ensures { GivesWith fault card result }
{
    match (card, fault) {
        (Err(ReadError::Memory), _) => Err(ReadError::Memory),
        (card, None) => card,
        (Ok(_), Some(fault)) => Err(ReadError::Refused(fault)),
        (Err(ReadError::Refused(own)), Some(other)) => Err(ReadError::Refused(lower(own, other))),
    }
}

/// The fault of a statement's place, which is not told of an operand that is too long.
fn unless_long(operand: &[u8], fault: Option<Cause>) -> Option<Cause>
    ensures { result ≡ (if is_long operand.now then None else fault) }
{
    if is_long(operand) { None } else { fault }
}

/// A card with the fault of its statement's place.
fn at_place<A: Drop>(
    operand: &[u8],
    card: Result<A, ReadError>,
    fault: Option<Cause>,
) -> Result<A, ReadError>
    ensures { GivesWith (if is_long operand.now then None else fault) card result }
{
    with_fault(card, unless_long(operand, fault))
}

/// Why no card was read, with one more fault of its statement, which may be absent.
fn error_with(error: ReadError, fault: Option<Cause>) -> ReadError
    ensures { result ≡ error_with error fault }
{
    match (error, fault) {
        (ReadError::Memory, _) => ReadError::Memory,
        (ReadError::Refused(own), None) => ReadError::Refused(own),
        (ReadError::Refused(own), Some(other)) => ReadError::Refused(lower(own, other)),
    }
}

/// The procedure in the stream that a PROC statement begins.
fn procedure_with(alloc: Global, card: ProcedureCard) -> Procedure
    requires { IsSome card.name }
    ensures { result ≡ procedure_with card }
{
    let ProcedureCard { name, symbols } = card;
    match name {
        Some(name) => Procedure {
            name,
            symbols,
            statements: Listed::empty(alloc),
        },
        None => unreachable!(),
    }
}

fn last_has_dd(steps: &[DeckStep]) -> bool
    ensures { result ≡ last_has_dd (map (λ step. step.dds) steps.now) }
{
    match steps.last() {
        Some(step) => step.dds.len() != 0,
        None => false,
    }
}

impl Place {
    /// The place before a deck's first statement.
    pub fn start(alloc: Global) -> Place
        ensures { denoted result ≡ start }
    {
        Place {
            job: None,
            procedures: Vec::new(alloc),
            is_open: false,
            job_library: false,
            steps: Vec::new(alloc),
        }
    }

    fn not_first(&self) -> Option<Cause>
        ensures { result ≡ told (not_first (denoted self.now)) }
    {
        when(self.job.is_none(), Cause::P(StatementFault::NotOneJob))
    }

    fn take_job(&mut self, alloc: Global, statement: &Statement) -> Result<(), ReadError>
        ensures moves { Moves result self.new (takes_job (denoted self.old) statement.now) }
        ensures same { OnErr result (denoted self.new ≡ denoted self.old) }
    {
        let operand = statement.operand.as_slice();
        let second = when(self.job.is_some(), Cause::P(StatementFault::NotOneJob));
        let card = job_card(alloc, statement.name.as_slice(), operand);
        let job = at_place(operand, card, second)?;
        self.job = Some(job);
        Ok(())
    }

    fn add_step(&mut self, alloc: Global, exec: ExecCard) -> Result<(), AllocError>
        ensures ok { OnOk result (denoted self.new ≡ with_step (denoted self.old) exec) }
        ensures same { OnErr result (denoted self.new ≡ denoted self.old) }
    {
        let dds = Listed::empty(alloc);
        self.steps.push(DeckStep { exec, dds })?;
        Ok(())
    }

    fn take_exec(&mut self, alloc: Global, statement: &Statement) -> Result<(), ReadError>
        ensures moves { Moves result self.new (takes_exec (denoted self.old) statement.now) }
        ensures same { OnErr result (denoted self.new ≡ denoted self.old) }
    {
        let operand = statement.operand.as_slice();
        let card = exec_card(alloc, statement.name.as_slice(), operand);
        let exec = at_place(operand, card, self.not_first())?;
        self.add_step(alloc, exec)?;
        Ok(())
    }

    fn add_procedure(&mut self, procedure: Procedure) -> Result<(), AllocError>
        ensures ok { OnOk result (denoted self.new ≡ with_procedure (denoted self.old) procedure) }
        ensures same { OnErr result (denoted self.new ≡ denoted self.old) }
    {
        self.procedures.push(procedure)?;
        self.is_open = true;
        Ok(())
    }

    #[tactic(auto, using(operand_core::proofs::Told::told_append))]
    fn procedure_fault(&self) -> Option<Cause>
        ensures { result ≡ told (procedure_place_faults (denoted self.now)) }
    {
        let too_many = when(
            MOST_PROCEDURES <= self.procedures.len(),
            Cause::P(StatementFault::TooManyProcedures),
        );
        earlier(self.not_first(), too_many)
    }

    fn take_proc(&mut self, alloc: Global, statement: &Statement) -> Result<(), ReadError>
        ensures moves { Moves result self.new (takes_proc (denoted self.old) statement.now) }
        ensures same { OnErr result (denoted self.new ≡ denoted self.old) }
    {
        let operand = statement.operand.as_slice();
        let card = procedure_card(alloc, true, statement.name.as_slice(), operand);
        let card = at_place(operand, card, self.procedure_fault())?;
        self.add_procedure(procedure_with(alloc, card))?;
        Ok(())
    }

    #[tactic(auto, using(operand_core::proofs::Told::told_append))]
    fn dd_fault(&self, statement: &Statement) -> Option<Cause>
        ensures { result ≡ told (not_first (denoted self.now)
            ++ dd_place_faults self.now.job_library (map (λ step. step.dds) self.now.steps.items) statement.now) }
    {
        let by_place = dd_place_fault(
            self.job_library,
            self.steps.is_empty(),
            last_has_dd(self.steps.as_slice()),
            statement.name.as_slice(),
        );
        earlier(self.not_first(), by_place)
    }

    fn add_dd(&mut self, dd: DdCard) -> Result<(), AllocError>
        ensures ok { OnOk result (denoted self.new ≡ with_dd (denoted self.old) dd) }
        ensures same { OnErr result (denoted self.new ≡ denoted self.old) }
    {
        if self.steps.is_empty() {
            self.job_library = true;
            return Ok(());
        }
        let last = self.steps.len() - 1;
        self.steps[last].dds.push(dd)
    }

    /// Adds a DD, unless its place has a fault.
    fn add_placed(&mut self, dd: DdCard, fault: Option<Cause>) -> Result<(), ReadError>
        ensures moves { Moves result self.new (or_fault fault (with_dd (denoted self.old) dd)) }
        ensures same { OnErr result (denoted self.new ≡ denoted self.old) }
    {
        match fault {
            None => {
                self.add_dd(dd)?;
                Ok(())
            }
            Some(fault) => Err(ReadError::Refused(fault)),
        }
    }

    fn take_dd(&mut self, alloc: Global, statement: Statement) -> Result<(), ReadError>
        ensures moves { Moves result self.new (takes_dd (denoted self.old) statement) }
        ensures same { OnErr result (denoted self.new ≡ denoted self.old) }
    {
        let fault = self.dd_fault(&statement);
        let Statement {
            name,
            operand,
            cards,
            ..
        } = statement;
        let text = operand.as_slice();
        let at = unless_long(text, fault);
        let mut dd = bare_dd();
        match read_dd(alloc, name.as_slice(), text, cards, &mut dd) {
            Ok(()) => self.add_placed(dd, at),
            Err(error) => Err(error_with(error, at)),
        }
    }

    /// The fault of a statement with another operation.
    #[tactic(auto, using(operand_core::proofs::Told::told_append))]
    fn other_fault(&self, name: &[u8]) -> Cause
        ensures { Some result ≡ told (written_name_faults name.now ++ not_first (denoted self.now) ++ Cause.P StatementFault.UnknownOperation ∷ []) }
    {
        let unknown = Cause::P(StatementFault::UnknownOperation);
        earliest(earlier(written_name_fault(name), self.not_first()), unknown)
    }

    fn take_outside(
        &mut self,
        alloc: Global,
        operation: Operation,
        statement: Statement,
    ) -> Result<(), ReadError>
        ensures moves { Moves result self.new (outside operation (denoted self.old) statement) }
        ensures same { OnErr result (denoted self.new ≡ denoted self.old) }
    {
        match operation {
            Operation::IsJob => self.take_job(alloc, &statement),
            Operation::IsExec => self.take_exec(alloc, &statement),
            Operation::IsDd => self.take_dd(alloc, statement),
            Operation::IsProc => self.take_proc(alloc, &statement),
            Operation::IsPend | Operation::IsOther => Err(ReadError::Refused(self.other_fault(
                statement.name.as_slice(),
            ))),
        }
    }

    /// Adds a statement to the procedure that is open.
    fn keep(&mut self, statement: Statement) -> Result<(), AllocError>
        ensures ok { OnOk result (denoted self.new ≡ keeps (denoted self.old) statement) }
        ensures same { OnErr result (denoted self.new ≡ denoted self.old) }
    {
        if self.procedures.is_empty() {
            return Ok(());
        }
        let last = self.procedures.len() - 1;
        self.procedures[last].statements.push(statement)
    }

    fn take_within(&mut self, operation: Operation, statement: Statement) -> Result<(), ReadError>
        ensures moves { Moves result self.new (within operation (denoted self.old) statement) }
        ensures same { OnErr result (denoted self.new ≡ denoted self.old) }
    {
        let fault = match operation {
            Operation::IsExec | Operation::IsDd => {
                self.keep(statement)?;
                return Ok(());
            }
            Operation::IsPend => {
                self.is_open = false;
                return Ok(());
            }
            Operation::IsJob => StatementFault::NotOneJob,
            Operation::IsProc => StatementFault::MissingPend,
            Operation::IsOther => StatementFault::UnknownOperation,
        };
        Err(ReadError::Refused(Cause::P(fault)))
    }

    /// Takes the next statement of a deck.
    pub fn take(&mut self, alloc: Global, statement: Statement) -> Result<(), ReadError>
        ensures moves { Moves result self.new (behind (denoted self.old) statement) }
        ensures same { OnErr result (denoted self.new ≡ denoted self.old) }
    {
        let operation = operation_of(statement.operation.as_slice());
        if self.is_open {
            self.take_within(operation, statement)
        } else {
            self.take_outside(alloc, operation, statement)
        }
    }

    /// The deck that ends here.
    pub fn end(self) -> Result<Deck, Cause>
        ensures { result ≡ ended_with self.job (denoted self) }
    {
        let Place {
            job,
            procedures,
            is_open,
            steps,
            ..
        } = self;
        let Some(job) = job else {
            return Err(Cause::P(StatementFault::NotOneJob));
        };
        let no_step = when(steps.is_empty(), Cause::P(StatementFault::NoStep));
        let open = when(is_open, Cause::P(StatementFault::MissingPend));
        if let Some(fault) = earlier(no_step, open) {
            return Err(fault);
        }
        Ok(Deck {
            job,
            procedures: Listed::new(procedures),
            steps: Listed::new(steps),
        })
    }
}
