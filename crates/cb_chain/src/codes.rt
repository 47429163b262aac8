//! The numbers by which records tell words.
ghost use Rattle.std.specs.Prelude.{◌≡◌};
ghost use Rattle.cb_meaning.specs.Codes.{after_abend_code, conditional_code, expiry_code, expiry_number, normal_code, operator_code, status_code};

use jcl_plan::plan::{AfterAbend, ConditionalWord, Expiry, Operator, Status, Word};

pub(crate) fn operator_code(operator: Operator) -> u8
    ensures { result ≡ operator_code operator }
{
    match operator {
        Operator::Gt => 1,
        Operator::Ge => 2,
        Operator::Eq => 3,
        Operator::Lt => 4,
        Operator::Le => 5,
        Operator::Ne => 6,
    }
}

pub(crate) fn after_abend_code(after: AfterAbend) -> u8
    ensures { result ≡ after_abend_code after }
{
    match after {
        AfterAbend::Unsaid => 0,
        AfterAbend::Even => 1,
        AfterAbend::Only => 2,
    }
}

/// What is said of a set's expiry.
pub(crate) fn expiry_code(expiry: Expiry) -> u32
    ensures { result ≡ expiry_code expiry }
{
    match expiry {
        Expiry::NotCoded => 0,
        Expiry::Day(_) => 1,
        Expiry::DaysFromToday(_) => 2,
    }
}

/// The day of a set, or how many days it is kept from the job's date.
pub(crate) fn expiry_number(expiry: Expiry) -> u32
    ensures { result ≡ expiry_number expiry }
{
    match expiry {
        Expiry::NotCoded => 0,
        Expiry::Day(day) => day.number(),
        Expiry::DaysFromToday(days) => u32::from(days),
    }
}

pub(crate) fn status_code(status: Status) -> u8
    ensures { result ≡ status_code status }
{
    match status {
        Status::New => 1,
        Status::Old => 2,
        Status::Shr => 3,
        Status::Mod => 4,
    }
}

pub(crate) fn normal_code(word: Option<Word>) -> u8
    ensures { result ≡ normal_code word }
{
    match word {
        None => 0,
        Some(Word::Delete) => 1,
        Some(Word::Keep) => 2,
        Some(Word::Pass) => 3,
        Some(Word::Catlg) => 4,
        Some(Word::Uncatlg) => 5,
    }
}

pub(crate) fn conditional_code(word: Option<ConditionalWord>) -> u8
    ensures { result ≡ conditional_code word }
{
    match word {
        None => 0,
        Some(ConditionalWord::Delete) => 1,
        Some(ConditionalWord::Keep) => 2,
        Some(ConditionalWord::Catlg) => 4,
        Some(ConditionalWord::Uncatlg) => 5,
    }
}
