//! What is found, finding by finding: in brief, a line for each with its line and column in front; and how many are warnings.
ghost use Rattle.std.specs.List.{list_all};
ghost use Rattle.std.specs.Prelude.{◌≡◌, ◌≤◌, ◌++◌, length, map, option_map, IfOk, OnOk};
ghost use Rattle.mvt_check.specs.Brief.{Shortens, begins_finding, brief_line, brief_of, column_of, digits_of, finding_of, is_blank, is_mark, is_warning, line_in_brief, lines_of, warnings_in};

use itoa::Buffer;
use std::alloc::{AllocError, Global};

/// How far the text of a card, and the mark below it, stand from the margin.
const MARGIN: usize = 4;

/// How many digits stand in front.
fn count_digits(line: &[u8]) -> usize
    ensures count { result ≡ length (digits_of line.now) }
    ensures bound { result ≤ length line.now }
{
    line.iter().take_while(|c| c.is_ascii_digit()).count()
}

/// The number with which a finding begins, and what stands behind it.
fn finding_of(line: &[u8]) -> Option<(&[u8], &[u8])>
    ensures { option_map (λ finding. (finding.0.now, finding.1.now)) result ≡ finding_of line.now }
{
    let numbered = line.strip_prefix(b"line ".as_slice())?;
    let (number, rest) = numbered.split_at(count_digits(numbered));
    let what = rest.strip_prefix(b": ".as_slice())?;
    Some((number, what))
}

pub(crate) fn begins_finding(line: &[u8]) -> bool
    ensures { result ≡ begins_finding line.now }
{
    finding_of(line).is_some()
}

fn are_blanks(text: &[u8]) -> bool
    ensures { result ≡ list_all is_blank text.now }
{
    text.iter().all(|c| *c == b' ')
}

/// Whether a line marks the place of a finding.
fn is_mark(line: &[u8]) -> bool
    ensures { result ≡ is_mark line.now }
{
    match line.split_last() {
        Some((last, before)) => before.len() >= MARGIN && are_blanks(before) && *last == b'^',
        None => false,
    }
}

/// The column of a finding, by the lines behind its first.
#[tactic(auto, using(crate::proofs::Findings::column_at))]
fn column_of(lines: &[&[u8]]) -> usize
    ensures { result ≡ column_of (map (λ line. line.now) lines.now) }
{
    for line in lines {
        if begins_finding(*line) {
            return 1;
        }
        if is_mark(*line) {
            return line.len() - MARGIN;
        }
    }
    1
}

/// Writes a finding.
fn push_finding(
    text: &mut Vec<u8>,
    number: &[u8],
    column: usize,
    what: &[u8],
) -> Result<(), AllocError>
    ensures { OnOk result (text.new.items ≡ text.old.items ++ brief_line (number.now, what.now) column) }
{
    let mut buffer = Buffer::new();
    text.extend_from_slice(number)?;
    text.push(b':')?;
    text.extend_from_slice(buffer.format(column).as_bytes())?;
    text.extend_from_slice(b": ")?;
    text.extend_from_slice(what)?;
    text.push(b'\n')?;
    Ok(())
}

/// Writes a line in brief, by those behind it: nothing, unless it begins a finding.
fn push_line(text: &mut Vec<u8>, line: &[u8], behind: &[&[u8]]) -> Result<(), AllocError>
    ensures { OnOk result (text.new.items ≡ text.old.items ++ line_in_brief line.now (map (λ line. line.now) behind.now)) }
{
    match finding_of(line) {
        Some((number, what)) => push_finding(text, number, column_of(behind), what),
        None => Ok(()),
    }
}

/// The lines of a text.
pub(crate) fn lines_of<'a>(alloc: Global, text: &'a [u8]) -> Result<Vec<&'a [u8]>, AllocError>
    ensures { IfOk result (λ lines. map (λ line. line.now) lines.items ≡ lines_of text.now) }
{
    text.split(|c| *c == b'\n').collect(alloc)
}

/// The findings of a text in brief.
#[tactic(auto, using(crate::proofs::Findings::lines_at))]
pub(crate) fn brief_of(alloc: Global, text: &[u8]) -> Result<Vec<u8>, AllocError>
    ensures { IfOk result (λ brief. brief.items ≡ brief_of text.now) }
{
    let lines = lines_of(alloc, text)?;
    let mut brief = Vec::new(alloc);
    for (n, line) in lines.iter().enumerate() {
        let (_, behind) = lines.as_slice().split_at(n + 1);
        push_line(&mut brief, *line, behind)?;
    }
    Ok(brief)
}

/// Whether a line begins a finding that is a warning.
fn is_warning(line: &[u8]) -> bool
    ensures { result ≡ is_warning line.now }
{
    match finding_of(line) {
        Some((_, what)) => what.starts_with(b"warning: ".as_slice()),
        None => false,
    }
}

/// How many findings of a text are warnings.
pub(crate) fn count_warnings(alloc: Global, text: &[u8]) -> Result<usize, AllocError>
    ensures { IfOk result (λ count. count ≡ warnings_in text.now) }
{
    let lines = lines_of(alloc, text)?;
    Ok(lines.iter().filter(|line| is_warning(**line)).count())
}

/// Worked examples, each computed.
fn shortens()
    ensures { Shortens }
{}
