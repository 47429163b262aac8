//! Programs as lists of requests. (This profile)
ghost use Rattle.std.specs.Prelude.{◌≡◌, IfOk, OnOk, map, [], ◌++◌, ◌∷◌};
ghost use Rattle.std.specs.Option.{option_map};
ghost use Rattle.jcl_meaning.specs.Programs.{ending_in, ending_of, is_iefbr14, moves_in, moves_of, program_of};

use jcl_plan::outcome::{Abend, Code, Outcome};
use jcl_plan::plan::{Record, StepPlan};
use jname_core::name8::Name8;
use plain::listed::Listed;
use std::alloc::{AllocError, Global};

/// What a program asks for. A program without an end ends with code 0, and nothing behind its end counts.
#[derive(Clone, Copy)]
pub enum Request {
    /// The next record of a DD.
    Get(Name8),
    /// A record to a DD.
    Put { dd: Name8, text: Record },
    /// The end with a code.
    End(Code),
    /// The end with a user's ABEND.
    Abend(Code),
}

/// A request that moves a record.
#[derive(Clone, Copy)]
pub enum Move {
    /// GET.
    From(Name8),
    /// PUT.
    To { dd: Name8, text: Record },
}

/// A program. Of two of a name the first counts.
#[derive(Drop)]
pub struct SoloProgram {
    pub name: Name8,
    pub requests: Listed<Request>,
}

/// The first program of a name.
fn program_of<'a>(programs: &'a [SoloProgram], name: &Name8) -> Option<&'a SoloProgram>
    ensures { option_map (λ p. p.now.requests) result ≡ program_of programs.now name.now }
{
    for p in programs {
        if p.name.as_slice() == name.as_slice() {
            return Some(p);
        }
    }
    None
}

/// Whether this is the program that does nothing and ends with code 0.
pub fn is_iefbr14(name: &Name8) -> bool
    ensures { result ≡ is_iefbr14 name.now }
{
    name.as_slice() == b"IEFBR14".as_slice()
}

fn moves_in(alloc: Global, requests: &[Request]) -> Result<Vec<Move>, AllocError>
    ensures { IfOk result (λ v. v.items ≡ moves_in requests.now) }
{
    let mut moves = Vec::new(alloc);
    for request in requests {
        match request {
            Request::Get(dd) => moves.push(Move::From(*dd))?,
            Request::Put { dd, text } => moves.push(Move::To {
                dd: *dd,
                text: *text,
            })?,
            Request::End(_) => return Ok(moves),
            Request::Abend(_) => return Ok(moves),
        }
    }
    Ok(moves)
}

/// How a program of these requests ends.
pub fn ending_in(requests: &[Request]) -> Outcome
    ensures { result ≡ ending_in requests.now }
{
    for request in requests {
        match request {
            Request::Get(_) => {}
            Request::Put { .. } => {}
            Request::End(code) => return Outcome::Code(*code),
            Request::Abend(code) => return Outcome::Abend(Abend::User(*code)),
        }
    }
    Outcome::Code(Code::zero())
}

/// The records that a step's program moves, in order.
pub fn moves_of(
    alloc: Global,
    programs: &[SoloProgram],
    name: &Name8,
) -> Result<Vec<Move>, AllocError>
    ensures { IfOk result (λ v. v.items ≡ moves_of programs.now name.now) }
{
    if is_iefbr14(name) {
        return Ok(Vec::new(alloc));
    }
    match program_of(programs, name) {
        None => Ok(Vec::new(alloc)),
        Some(p) => moves_in(alloc, p.requests.as_slice()),
    }
}

/// How a step's program ends by itself.
pub fn ending_of(programs: &[SoloProgram], name: &Name8) -> Outcome
    ensures { result ≡ ending_of programs.now name.now }
{
    if is_iefbr14(name) {
        return Outcome::Code(Code::zero());
    }
    match program_of(programs, name) {
        None => Outcome::Abend(Abend::S806),
        Some(p) => ending_in(p.requests.as_slice()),
    }
}

/// One more outcome.
fn push_outcome(outcomes: &mut Listed<Outcome>, outcome: &Outcome) -> Result<(), AllocError>
    ensures { OnOk result (outcomes.new ≡ outcomes.old ++ (outcome.now ∷ [])) }
{
    match outcome {
        Outcome::Code(code) => outcomes.push(Outcome::Code(*code))?,
        Outcome::Abend(abend) => outcomes.push(Outcome::Abend(*abend))?,
        Outcome::Bypassed => outcomes.push(Outcome::Bypassed)?,
        Outcome::Flushed => outcomes.push(Outcome::Flushed)?,
    }
    Ok(())
}

/// How the programs of steps end by themselves.
pub fn endings(
    alloc: Global,
    steps: &[StepPlan],
    programs: &[SoloProgram],
) -> Result<Listed<Outcome>, AllocError>
    ensures { IfOk result (λ l. l ≡ map (λ step. ending_of programs.now step.program) steps.now) }
{
    let mut outcomes = Listed::empty(alloc);
    for step in steps {
        push_outcome(&mut outcomes, &ending_of(programs, &step.program))?;
    }
    Ok(outcomes)
}
