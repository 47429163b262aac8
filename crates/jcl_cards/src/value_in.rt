//! What reads the values of keywords, and those of a JOB by their keys.
ghost use Rattle.std.specs.Prelude.{◌≡◌};
ghost use Rattle.std.specs.Option.{option_copied};
ghost use Rattle.value_core.specs.Reads.{IsRead};
ghost use Rattle.jcl_cards.specs.Keywords.{read_or, value_in};
ghost use Rattle.jcl_cards.specs.JobCards.{is_key as is_key_of_job};
ghost use Rattle.jcl_cards.specs.Reading.{IsReadBefore, and_later};

use jcl_plan::fault::Cause;
use operand_core::fault::lower;
use operand_core::operand::Keyword;

/// What reads the values of a keyword.
pub trait ValueReader {
    ghost use Rattle.std.specs.Prelude.{ℕ, List};
    ghost use Rattle.value_core.specs.Reads.{IsRead, Read};

    type Value: Drop;

    ghost reads: { List ℕ → Read Self.Value };

    fn read(text: &[u8]) -> Result<Self::Value, Cause>
        ensures { IsRead result (reads text.now) };
}

/// What reads the values of a keyword for which something stands where it is not coded.
pub(crate) trait ValueOr: ValueReader {
    ghost use Rattle.std.specs.Prelude.{◌≡◌};

    ghost other: { Self.Value };

    fn other() -> Self::Value
        ensures { result ≡ other };
}

/// The first of two values of one keyword, or of their faults the one that is told.
pub(crate) fn and_later<A: Drop>(
    first: Result<A, Cause>,
    later: Result<A, Cause>,
) -> Result<A, Cause>
    ensures { result ≡ and_later first later }
{
    match (first, later) {
        (first, Ok(_)) => first,
        (Ok(_), Err(fault)) => Err(fault),
        (Err(fault), Err(other)) => Err(lower(fault, other)),
    }
}

/// The value of a keyword of a JOB, or what stands where it is not read.
fn read_or<R: ValueOr>(text: Option<&[u8]>) -> Result<R::Value, Cause>
    ensures { IsRead result (read_or R.reads R.other (option_copied text.entry)) }
{
    match text {
        None => Ok(R::other()),
        Some(text) => R::read(text),
    }
}

/// The value of a keyword of a JOB, by one that may be it and the value of the later ones.
fn value_before<R: ValueOr>(
    keyword: &Keyword<'_>,
    key: &[u8],
    later: Result<R::Value, Cause>,
) -> Result<R::Value, Cause>
    ensures { IsReadBefore (value_in (is_key_of_job key.now) R.reads R.other) keyword.now later result }
{
    if keyword.key() == key {
        and_later(read_or::<R>(keyword.value()), later)
    } else {
        later
    }
}

/// The value of a keyword of a JOB: of several the first, and the faults of each.
pub(crate) fn value_in<R: ValueOr>(keywords: &[Keyword<'_>], key: &[u8]) -> Result<R::Value, Cause>
    ensures { IsRead result (value_in (is_key_of_job key.now) R.reads R.other keywords.now) }
{
    let mut found = Ok(R::other());
    let mut at = keywords.len();
    while at > 0 {
        at -= 1;
        found = value_before::<R>(&keywords[at], key, found);
    }
    found
}
