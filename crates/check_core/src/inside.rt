//! The statement of a called procedure for which a call is refused.
ghost use Rattle.std.specs.Prelude.{◌≡◌, ◌+◌, ◌^◌, ◌≤◌, IfOk, OnErr};
ghost use Rattle.proc_library.specs.Libraries.{in_library};
ghost use Rattle.deck_places.specs.Called.{lines_in, lines_of};
ghost use Rattle.check_core.specs.Insides.{IsInsideAt, IsInsideOf, line_in};

use crate::deck::Sources;
use crate::mended::Mended;
use crate::report::Inside;
use deck_places::called::{CalledPlace, called_statement};
use deck_places::judge::At;
use deck_places::laws::each_called_statement_is_on_a_line;
use jcl_plan::fault::Cause;
use jname_core::name8::Name8;
use plain::lent::Lent;
use plain::text::Text;
use proc_library::library::ProcLibrary;
use std::alloc::{AllocError, Global};

/// The line of a statement in its procedure, which counts from 1.
fn line_in(place: &CalledPlace) -> Result<usize, AllocError>
    ensures ok { IfOk result (λ line. line ≡ line_in place.now) }
    ensures err { OnErr result (2 ^ 64 ≤ place.now.card + 1) }
{
    match place.head {
        Some(head) => Ok(place.card.saturating_sub(head)),
        None => match place.card.checked_add(1) {
            Some(line) => Ok(line),
            None => Err(AllocError),
        },
    }
}

/// The lines of a procedure of the session, each lent.
fn lines_of_session<'a>(
    alloc: Global,
    library: &'a ProcLibrary,
    name: &Name8,
) -> Result<Vec<Lent<'a>>, AllocError>
    ensures { IfOk result (λ lines. lines.items ≡ lines_in (in_library library.now name.now)) }
{
    match library.find(name) {
        Some(procedure) => procedure.lines.lent(alloc),
        None => Ok(Vec::new(alloc)),
    }
}

/// The lines on which a procedure stands, each lent.
fn lines_of<'a>(
    alloc: Global,
    library: &'a ProcLibrary,
    mended: &'a Mended,
    place: &CalledPlace,
) -> Result<Vec<Lent<'a>>, AllocError>
    ensures { IfOk result (λ lines. lines.items ≡ lines_of library.now mended.now.lines.items place.now) }
{
    match place.head {
        Some(_) => mended.lent(alloc),
        None => lines_of_session(alloc, library, &place.procedure),
    }
}

/// The line of the session that a line of a procedure is, if the procedure is the session's.
fn line_of_session(sources: &Sources<'_>, place: &CalledPlace) -> Option<usize> {
    if place.head.is_some() {
        return None;
    }
    for (name, line) in sources.procedure_names.iter().zip(sources.procedure_lines) {
        if name.as_slice() == place.procedure.as_slice() {
            return Some(line.saturating_add(place.card).saturating_add(1));
        }
    }
    None
}

/// The statement of the procedure that the k-th statement calls, for which the call is refused.
fn inside_of(
    alloc: Global,
    sources: &Sources<'_>,
    mended: &Mended,
    cause: Cause,
    k: usize,
) -> Result<Option<Inside>, AllocError>
    ensures { IfOk result (IsInsideOf sources.now.library.now mended.now.lines.items cause k) }
{
    let library = sources.library;
    let lent = mended.lent(alloc)?;
    let Some(place) = called_statement(alloc, library, lent.as_slice(), k, cause)? else {
        return Ok(None);
    };
    each_called_statement_is_on_a_line();
    let lines = lines_of(alloc, library, mended, &place)?;
    let Some(card) = lines.get(place.card) else {
        return Ok(None);
    };
    Ok(Some(Inside {
        procedure: Text::copy_of(alloc, place.procedure.as_slice())?,
        line: line_in(&place)?,
        card: Text::copy_of(alloc, card.as_slice())?,
        of_session: line_of_session(sources, &place),
    }))
}

/// The statement of a called procedure for which a deck is refused at a call.
pub(crate) fn inside_at(
    alloc: Global,
    sources: &Sources<'_>,
    mended: &Mended,
    cause: Cause,
    at: At,
) -> Result<Option<Inside>, AllocError>
    ensures { IfOk result (IsInsideAt sources.now.library.now mended.now.lines.items cause at) }
{
    match at {
        At::Call(k) => inside_of(alloc, sources, mended, cause, k),
        _ => Ok(None),
    }
}
