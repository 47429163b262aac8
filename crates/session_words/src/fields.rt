//! The fields of a line, which blanks part.

/// A field, and the column where it begins, counted from 0.
#[derive(Clone, Copy)]
pub(crate) struct Field<'a> {
    pub(crate) column: usize,
    pub(crate) bytes: &'a [u8],
}

impl Field<'_> {
    /// The column behind it.
    pub(crate) fn end(self) -> usize {
        self.column.saturating_add(self.bytes.len())
    }

    /// The column of its first tab.
    pub(crate) fn tab(self) -> Option<usize> {
        match self.bytes.iter().position(|c| *c == b'\t') {
            Some(at) => Some(self.column.saturating_add(at)),
            None => None,
        }
    }
}

/// The field of a line with this number, counted from 0.
pub(crate) fn field_at<'a>(line: &'a [u8], number: usize) -> Option<Field<'a>> {
    let mut column: usize = 0;
    let mut fields: usize = 0;
    for bytes in line.split(|c| *c == b' ') {
        if !bytes.is_empty() {
            if fields == number {
                return Some(Field { column, bytes });
            }
            fields = fields.saturating_add(1);
        }
        column = column.saturating_add(bytes.len()).saturating_add(1);
    }
    None
}

/// The line without the blanks at its end.
pub(crate) fn without_blanks(line: &[u8]) -> &[u8] {
    let blanks = line.iter().rev().take_while(|c| **c == b' ').count();
    let (text, _) = line.split_at(line.len().saturating_sub(blanks));
    text
}
