//! The JOB statement. (GC28-6704, "JOB statement")
ghost use Rattle.std.specs.Prelude.{◌≡◌, None};
ghost use Rattle.operand_core.specs.Faults.{told};
ghost use Rattle.operand_core.specs.Operands.{operand_of};
ghost use Rattle.value_core.specs.Reads.{Gives, IsRead, answer};
ghost use Rattle.jcl_cards.specs.JobCards.{card_with, is_class, job_card, job_name_faults, job_with, known_on_job, left_out_on_job, no_tests, tests_in, unknown_on_job};
ghost use Rattle.jcl_cards.specs.Reading.{ReadsOperand, job_name};

use crate::rules::{KeywordRule, Spelling, each_fault, long_operand, twice_fault};
use crate::value_in::{ValueOr, ValueReader, value_in};
use jcl_plan::fault::{Cause, StatementFault};
use jname_core::character::is_job_class;
use jname_core::decimal::number_within;
use jname_core::name8::Name8;
use list_values::condition::{CodedTests, Condition};
use list_values::tests_of::condition;
use operand_core::fault::written_name_fault;
use operand_core::keyword::{has_key, is_long, unknown_fault};
use operand_core::operand::{Keyword, Operand, operand_of};
use operand_core::value::is_output_class;
use std::alloc::Global;
use value_core::reads::{both, name as read_name, with_fault};
use value_core::refusal::ReadError;

/// A JOB statement that was read.
#[derive(Drop)]
pub struct JobCard {
    pub name: Name8,
    /// A to O.
    pub class: u8,
    /// 0 to 13, 13 first.
    pub priority: u8,
    /// The class of the job's listing.
    pub message_class: u8,
    pub tests: CodedTests,
}

/// The words of a JOB statement but for its tests: name, class, priority and message class.
type Words = (((Name8, u8), u8), u8);

/// The priority of a job that codes none.
const NORMAL_PRIORITY: u8 = 6;

/// CLASS.
struct Class;

impl ValueReader for Class {
    ghost use Rattle.jcl_cards.specs.JobCards.{class};

    type Value = u8;

    ghost reads = { class };

    fn read(text: &[u8]) -> Result<u8, Cause> {
        match text {
            [c] if is_job_class(*c) => Ok(*c),
            _ => Err(Cause::P(StatementFault::BadValue)),
        }
    }
}

impl ValueOr for Class {
    ghost other = { 65 };

    fn other() -> u8 {
        b'A'
    }
}

/// PRTY.
struct Priority;

impl ValueReader for Priority {
    ghost use Rattle.jcl_cards.specs.JobCards.{priority};

    type Value = u8;

    ghost reads = { priority };

    fn read(text: &[u8]) -> Result<u8, Cause> {
        match number_within(0, 13, text) {
            Some(number) => Ok(number as u8),
            None => Err(Cause::P(StatementFault::BadValue)),
        }
    }
}

impl ValueOr for Priority {
    ghost other = { 6 };

    fn other() -> u8 {
        NORMAL_PRIORITY
    }
}

/// MSGCLASS.
struct MessageClass;

impl ValueReader for MessageClass {
    ghost use Rattle.jcl_cards.specs.JobCards.{message_class};

    type Value = u8;

    ghost reads = { message_class };

    fn read(text: &[u8]) -> Result<u8, Cause> {
        match text {
            [c] if is_output_class(text) => Ok(*c),
            _ => Err(Cause::P(StatementFault::BadValue)),
        }
    }
}

impl ValueOr for MessageClass {
    ghost other = { 65 };

    fn other() -> u8 {
        b'A'
    }
}

/// COND of a job.
struct JobTests;

impl ValueReader for JobTests {
    ghost use Rattle.jcl_cards.specs.JobCards.{tests};

    type Value = CodedTests;

    ghost reads = { tests };

    fn read(text: &[u8]) -> Result<CodedTests, Cause> {
        let Condition { tests, .. } = condition(false, text)?;
        Ok(tests)
    }
}

impl ValueOr for JobTests {
    ghost use Rattle.jcl_cards.specs.JobCards.{no_tests};

    ghost other = { no_tests };

    fn other() -> CodedTests {
        CodedTests::new()
    }
}

fn is_known(key: &[u8]) -> bool
    ensures { result ≡ known_on_job key.now }
{
    key == b"CLASS".as_slice()
        || key == b"PRTY".as_slice()
        || key == b"MSGCLASS".as_slice()
        || key == b"COND".as_slice()
        || key == b"MSGLEVEL".as_slice()
        || key == b"NOTIFY".as_slice()
        || key == b"REGION".as_slice()
        || key == b"TIME".as_slice()
}

fn is_left_out(key: &[u8]) -> bool
    ensures { result ≡ left_out_on_job key.now }
{
    key == b"RD".as_slice()
        || key == b"RESTART".as_slice()
        || key == b"TYPRUN".as_slice()
        || key == b"ROLL".as_slice()
}

/// A JOB takes the keywords that it knows.
struct KnownOnJob;

impl KeywordRule for KnownOnJob {
    ghost use Rattle.jcl_cards.specs.JobCards.{unknown_on_job};

    ghost faults = { λ rule k. unknown_on_job k };

    fn fault(&self, keyword: &Keyword<'_>) -> Option<Cause> {
        let key = keyword.key();
        if is_known(key) {
            None
        } else {
            Some(unknown_fault(is_left_out(key)))
        }
    }
}

fn job_name(text: &[u8]) -> Result<Name8, Cause>
    ensures { IsRead result (job_name text.now) }
{
    if text.is_empty() {
        return Err(Cause::P(StatementFault::MissingName));
    }
    read_name(text)
}

/// Puts the tests that COND codes in place of those that were found, or tells their fault.
fn take_tests(keywords: &[Keyword<'_>], found: &mut CodedTests) -> Option<Cause>
    ensures told { result ≡ told (tests_in keywords.now).faults }
    ensures value { result ≡ None → found.new ≡ (tests_in keywords.now).value }
{
    match value_in::<JobTests>(keywords, b"COND") {
        Ok(tests) => {
            *found = tests;
            None
        }
        Err(fault) => Some(fault),
    }
}

/// Puts the tests of a JOB statement where there are none yet, or tells their fault.
fn put_tests(keywords: &[Keyword<'_>], found: &mut CodedTests) -> Option<Cause>
    requires { found.old ≡ no_tests }
    ensures told { result ≡ told (tests_in keywords.now).faults }
    ensures value { result ≡ None → found.new ≡ (tests_in keywords.now).value }
{
    if has_key(keywords, b"COND") {
        take_tests(keywords, found)
    } else {
        None
    }
}

/// What a JOB statement codes: its tests are put where there are none yet, and the other words are given back.
fn words_of(name: &[u8], operand: &Operand<'_>, found: &mut CodedTests) -> Result<Words, Cause>
    requires { found.old ≡ no_tests }
    ensures { ReadsOperand (job_with name.now) operand.now (card_with found.new result) }
{
    let keywords = operand.keywords.as_slice();
    let named = with_fault(job_name(name), operand.fault);
    let classed = both(named, value_in::<Class>(keywords, b"CLASS"));
    let ranked = both(classed, value_in::<Priority>(keywords, b"PRTY"));
    let listed = both(ranked, value_in::<MessageClass>(keywords, b"MSGCLASS"));
    let tested = with_fault(listed, put_tests(keywords, found));
    let known = with_fault(tested, each_fault(&KnownOnJob, keywords));
    with_fault(known, twice_fault(Spelling::One, keywords))
}

fn own_job_card(alloc: Global, name: &[u8], operand: &[u8]) -> Result<JobCard, ReadError>
    ensures { Gives result (answer (job_with name.now (operand_of 2 operand.now))) }
{
    let operand = operand_of(alloc, 2, operand)?;
    let mut tests = CodedTests::new();
    let (((name, class), priority), message_class) = words_of(name, &operand, &mut tests)?;
    Ok(JobCard {
        name,
        class,
        priority,
        message_class,
        tests,
    })
}

/// The card that a JOB statement is.
pub fn job_card(alloc: Global, name: &[u8], operand: &[u8]) -> Result<JobCard, ReadError>
    ensures { Gives result (answer (job_card name.now operand.now)) }
{
    if is_long(operand) {
        return Err(ReadError::Refused(long_operand(written_name_fault(name))));
    }
    own_job_card(alloc, name, operand)
}
