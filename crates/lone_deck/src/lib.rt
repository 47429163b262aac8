//! A session after which a deck comes alone, and the text that is looked at then. (This profile)
#![tactic(auto)]

ghost use Rattle.std.specs.Prelude.{◌≡◌, ◌≤◌, ◌<◌, ◌+◌, length, Some, IfOk, IfSome, true};
ghost use Rattle.session_text.specs.Statements.{statements_of};
ghost use Rattle.lone_deck.specs.Framing.{IsDeckPlace, IsFramed, begins_card, begins_line, end_of, framed, is_card_on, is_refused_line, line_at, lines_above, refused_line};

use session_text::parse::statements;
use session_text::statement::{Ending, Says, Statement};
use std::alloc::{AllocError, Global};

/// A text that is looked at, and how many lines stand above the first card of its deck, where it is a deck that stands alone.
#[derive(Drop)]
pub struct Framed {
    pub text: Vec<u8>,
    pub above: usize,
}

/// Whether a line begins behind so many characters.
fn begins_line(text: &[u8], count: usize) -> bool
    ensures { result ≡ begins_line text.now count }
{
    match count.checked_sub(1) {
        None => true,
        Some(last) => match text.get(last) {
            Some(c) => *c == b'\n',
            None => false,
        },
    }
}

/// Whether a card of a statement begins behind so many characters.
fn begins_card(text: &[u8], count: usize) -> bool
    requires { count ≤ length text.now }
    ensures { result ≡ begins_card text.now count }
{
    let (_, behind) = text.split_at(count);
    begins_line(text, count) && behind.starts_with(b"//".as_slice())
}

/// Whether a card begins behind so many characters, on the line of this number; the place is on this line.
fn is_card_on(text: &[u8], place: usize, line: usize, number: usize) -> bool
    requires within { place ≤ length text.now }
    requires line { line ≡ line_at text.now place }
    ensures { result ≡ is_card_on number text.now place }
{
    begins_card(text, place) && line == number
}

/// The line behind the character at a place, which is on this line.
#[tactic(auto, using(crate::proofs::Places::line_more))]
fn line_behind(text: &[u8], place: usize, line: usize) -> usize
    requires within { place < length text.now }
    requires line { line ≡ line_at text.now place }
    requires few { line ≤ place + 1 }
    ensures line { result ≡ line_at text.now (place + 1) }
    ensures few { result ≤ place + 2 }
{
    if text[place] == b'\n' { line + 1 } else { line }
}

/// Behind how many characters a card begins on the line of this number, if one does.
#[tactic(auto, using(crate::proofs::Places::none_more))]
fn card_place(text: &[u8], number: usize) -> Option<usize>
    ensures { IsDeckPlace (Some number) text.now result }
{
    let mut line: usize = 1;
    for place in 0..text.len() {
        if is_card_on(text, place, line, number) {
            return Some(place);
        }
        line = line_behind(text, place, line);
    }
    None
}

fn is_refused_line(says: &Says<'_>) -> bool
    ensures { result ≡ is_refused_line says.now }
{
    match says {
        Says::Refused(_) => true,
        _ => false,
    }
}

/// The first line that is no statement of a session.
fn refused_line(statements: &[Statement<'_>]) -> Option<usize>
    ensures { result ≡ refused_line statements.now }
{
    for n in 0..statements.len() {
        if is_refused_line(&statements[n].says) {
            return Some(statements[n].line);
        }
    }
    None
}

/// Behind how many characters a deck begins that stands alone, if one does.
fn deck_place(text: &[u8], statements: &[Statement<'_>]) -> Option<usize>
    ensures { IsDeckPlace (refused_line statements.now) text.now result }
{
    match refused_line(statements) {
        Some(number) => card_place(text, number),
        None => None,
    }
}

/// What ends the block of a deck.
fn end_of(deck: &[u8]) -> &'static [u8]
    ensures { result.now ≡ end_of deck.now }
{
    if deck.ends_with(b"\n".as_slice()) {
        b"./ END\n"
    } else {
        b"\n./ END\n"
    }
}

/// A text with `./ READ` and `./ END` round the deck that begins there.
fn framed_at(alloc: Global, text: &[u8], place: usize) -> Result<Vec<u8>, AllocError>
    requires { place ≤ length text.now }
    ensures { IfOk result (λ f. f.items ≡ framed (Some place) text.now) }
{
    let (above, deck) = text.split_at(place);
    let mut framed = Vec::from_slice(alloc, above)?;
    framed.extend_from_slice(b"./ READ\n")?;
    framed.extend_from_slice(deck)?;
    framed.extend_from_slice(end_of(deck))?;
    Ok(framed)
}

/// How many lines stand before the deck that begins there, with its `./ READ`.
fn lines_above(text: &[u8], place: usize) -> usize
    requires { place < length text.now }
    ensures { result ≡ lines_above (Some place) text.now }
{
    let (above, _) = text.split_at(place);
    above.iter().filter(|c| **c == b'\n').count() + 1
}

/// A text with the deck that begins there as a block.
fn framed_by(alloc: Global, text: Vec<u8>, place: Option<usize>) -> Result<Framed, AllocError>
    requires { IfSome place (λ p. p < length text.items) }
    ensures text { IfOk result (λ f. f.text.items ≡ framed place text.items) }
    ensures above { IfOk result (λ f. f.above ≡ lines_above place text.items) }
{
    match place {
        None => Ok(Framed { text, above: 0 }),
        Some(place) => Ok(Framed {
            text: framed_at(alloc, text.as_slice(), place)?,
            above: lines_above(text.as_slice(), place),
        }),
    }
}

/// Where a deck begins that stands alone behind a session of this text.
fn place_in(alloc: Global, text: &[u8], ending: Ending) -> Result<Option<usize>, AllocError>
    ensures { IfOk result (λ place. IsDeckPlace (refused_line (statements_of ending text.now)) text.now place) }
{
    let statements = statements(alloc, text, ending)?;
    Ok(deck_place(text, statements.as_slice()))
}

/// A text with its deck as a block, where a deck stands alone.
fn with_block(alloc: Global, text: Vec<u8>, ending: Ending) -> Result<Framed, AllocError>
    ensures { IfOk result (IsFramed true ending text.items) }
{
    let place = place_in(alloc, text.as_slice(), ending)?;
    framed_by(alloc, text, place)
}

/// The text that is looked at: the session's own, or that with its deck as a block where this is asked for.
pub fn frame(alloc: Global, text: Vec<u8>, ending: Ending, deck: bool) -> Result<Framed, AllocError>
    ensures { IfOk result (IsFramed deck ending text.items) }
{
    if deck {
        with_block(alloc, text, ending)
    } else {
        Ok(Framed { text, above: 0 })
    }
}
