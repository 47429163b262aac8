//! A table: what stands before its first row is a remark. A row is a line `== NAME`, what is put in, a line `=>`, and what is wanted,
//! up to the next row; blank lines at the end of either are no part of it.
ghost use Rattle.std.specs.Prelude.{◌<◌, ◌≤◌, ◌+◌, IfSome, length};

/// A row of a table.
#[derive(Clone, Copy)]
pub struct Row<'a> {
    pub name: &'a [u8],
    pub input: &'a [u8],
    pub wanted: &'a [u8],
}

/// The rows of a table that are still to come.
#[derive(Clone, Copy)]
pub struct Table<'a> {
    rest: &'a [u8],
}

/// The place of the first such byte.
pub(crate) fn place_of_byte(text: &[u8], byte: u8) -> Option<usize>
    ensures { IfSome result (λ at. at < length text.now) }
{
    text.iter().position(|b| *b == byte)
}

/// The place behind the first line of a text.
fn line_end(text: &[u8]) -> usize
    ensures within { result ≤ length text.now }
    ensures some { 0 < length text.now → 0 < result }
{
    match place_of_byte(text, b'\n') {
        None => text.len(),
        Some(at) => at + 1,
    }
}

/// The place of the first line that begins so, or of the end.
fn place_of(text: &[u8], start: &[u8]) -> usize
    ensures { result ≤ length text.now }
{
    let mut at = 0;
    while at < text.len() {
        let line = &text[at..];
        if line.starts_with(start) {
            return at;
        }
        at += line_end(line);
    }
    text.len()
}

/// A text without the line feeds at its end but one.
fn trimmed(text: &[u8]) -> &[u8] {
    match text.iter().rposition(|b| *b != b'\n') {
        None => &text[..0],
        Some(last) => &text[..text.len().min(last + 2)],
    }
}

/// What stands behind the first line.
fn behind_line(text: &[u8]) -> &[u8] {
    &text[line_end(text)..]
}

impl<'a> Table<'a> {
    /// The rows of a text.
    pub fn new(text: &'a [u8]) -> Table<'a> {
        Table {
            rest: &text[place_of(text, b"== ")..],
        }
    }

    /// Takes the next row.
    pub fn next_row(&mut self) -> Option<Row<'a>> {
        let text = self.rest;
        if text.is_empty() {
            return None;
        }
        let (line, behind) = text.split_at(line_end(text));
        let (row, rest) = behind.split_at(place_of(behind, b"== "));
        let (input, wanted) = row.split_at(place_of(row, b"=>\n"));
        self.rest = rest;
        Some(Row {
            name: line.strip_prefix(b"== ").unwrap_or(line).trim_ascii(),
            input: trimmed(input),
            wanted: trimmed(behind_line(wanted)),
        })
    }
}
