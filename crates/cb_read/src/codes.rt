//! Words by the numbers that tell them.
ghost use Rattle.std.specs.Prelude.{◌≡◌};
ghost use Rattle.cb_meaning.specs.Readings.{after_abend_read, conditional_read, normal_read, number_read, operator_read, sign_read, status_read};

use jcl_plan::plan::{AfterAbend, ConditionalWord, Operator, Status, Word};
use jname_core::key::Sign;

pub(crate) fn operator_read(n: u8) -> Operator
    ensures { result ≡ operator_read n }
{
    if n == 1 {
        Operator::Gt
    } else if n == 2 {
        Operator::Ge
    } else if n == 3 {
        Operator::Eq
    } else if n == 4 {
        Operator::Lt
    } else if n == 5 {
        Operator::Le
    } else {
        Operator::Ne
    }
}

/// When a step runs after an ABEND, by its number.
pub fn after_abend_read(n: u8) -> AfterAbend
    ensures { result ≡ after_abend_read n }
{
    if n == 0 {
        AfterAbend::Unsaid
    } else if n == 1 {
        AfterAbend::Even
    } else {
        AfterAbend::Only
    }
}

/// The status of a set, by its number.
pub fn status_read(n: u8) -> Status
    ensures { result ≡ status_read n }
{
    if n == 1 {
        Status::New
    } else if n == 2 {
        Status::Old
    } else if n == 3 {
        Status::Shr
    } else {
        Status::Mod
    }
}

/// What becomes of a set where its step ends normally, by its number; none where it is omitted.
pub fn normal_read(n: u8) -> Option<Word>
    ensures { result ≡ normal_read n }
{
    if n == 0 {
        None
    } else if n == 1 {
        Some(Word::Delete)
    } else if n == 2 {
        Some(Word::Keep)
    } else if n == 3 {
        Some(Word::Pass)
    } else if n == 4 {
        Some(Word::Catlg)
    } else {
        Some(Word::Uncatlg)
    }
}

/// What becomes of a set where its step ends by an ABEND, by its number; none where it is omitted.
pub fn conditional_read(n: u8) -> Option<ConditionalWord>
    ensures { result ≡ conditional_read n }
{
    if n == 0 {
        None
    } else if n == 1 {
        Some(ConditionalWord::Delete)
    } else if n == 2 {
        Some(ConditionalWord::Keep)
    } else if n == 4 {
        Some(ConditionalWord::Catlg)
    } else {
        Some(ConditionalWord::Uncatlg)
    }
}

pub(crate) fn sign_read(n: u8) -> Sign
    ensures { result ≡ sign_read n }
{
    if n == 0 { Sign::Plus } else { Sign::Minus }
}

/// A number, or none where it is 0.
pub(crate) fn number_read(n: u16) -> Option<u16>
    ensures { result ≡ number_read n }
{
    if n == 0 { None } else { Some(n) }
}
