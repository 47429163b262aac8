//! The job of a deck.
ghost use Rattle.std.specs.Prelude.{ℕ, IfOk, IfSome};
ghost use Rattle.cb_meaning.specs.Writable.{IsWritable};
ghost use Rattle.jcl_plan.specs.declared.plan.TheConstants.{MOST_STEPS};

use jcl_job::job::job_of;
use jcl_plan::fault::Cause;
use jcl_plan::plan::JobPlan;
use jcl_refs::units::UnitNames;
use jname_core::name8::UnitName;
use plain::lent::Lent;
use proc_library::library::ProcLibrary;
use row_table::desk::Line;
use row_table::told::Told;
use std::alloc::Global;
use value_core::refusal::ReadError;

/// The names of the units that decks may say: SYSDA is the first, and DISK the second.
fn unit_names(alloc: Global, told: &mut Told) -> UnitNames {
    let mut names = UnitNames::new(alloc);
    for text in [b"SYSDA".as_slice(), b"DISK"] {
        if let Ok(name) = UnitName::read(text)
            && names.number(&name).is_none()
            && names.len() < 65_535
        {
            told.over(names.add(name));
        }
    }
    names
}

/// The cards up to the line `/ENDDECK`.
fn cards<'a>(alloc: Global, line: &mut Line<'a>) -> Vec<Lent<'a>> {
    let mut cards = Vec::new(alloc);
    for _ in 0..line.lines.len() {
        let Some(card) = line.lines.next_line() else {
            break;
        };
        if card == b"/ENDDECK".as_slice() {
            break;
        }
        if cards.push(Lent::new(card)).is_err() {
            line.told.want();
        }
    }
    cards
}

/// The letter and the number of a refusal.
fn tell_cause(told: &mut Told, cause: Cause) {
    let (letter, number) = match cause {
        Cause::C(number) => (b"REFUSED C", number),
        Cause::N(number) => (b"REFUSED N", number),
        Cause::P(fault) => (b"REFUSED P", fault.number()),
        Cause::Q(fault) => (b"REFUSED Q", fault.number()),
        Cause::B(number) => (b"REFUSED B", number),
        Cause::A(fault) => (b"REFUSED A", fault.number()),
    };
    told.numbered_line(letter, u64::from(number));
}

/// The job of a deck, where no unit's name and no procedure is missing.
fn denoted(alloc: Global, units: &UnitNames, deck: &[Lent<'_>]) -> Result<JobPlan, ReadError>
    ensures { IfOk result (λ job. (units : ℕ) × IsWritable MOST_STEPS units job) }
{
    job_of(alloc, units, &ProcLibrary::new(alloc), deck)
}

/// The job of the deck that comes next, or none, and its refusal is told.
pub(crate) fn next_job(alloc: Global, line: &mut Line<'_>) -> Option<JobPlan>
    ensures { IfSome result (λ job. (units : ℕ) × IsWritable MOST_STEPS units job) }
{
    let units = unit_names(alloc, &mut line.told);
    let deck = cards(alloc, line);
    match denoted(alloc, &units, deck.as_slice()) {
        Ok(job) => Some(job),
        Err(ReadError::Refused(cause)) => {
            tell_cause(&mut line.told, cause);
            None
        }
        Err(ReadError::Memory) => {
            line.told.want();
            None
        }
    }
}
