//! The fields of a line, which blanks part.
ghost use Rattle.std.specs.Prelude.{◌≡◌, ◌==◌, ◌<◌, ◌≤◌, ◌∷◌, [], not, IfNone, IfSome, length, position, take_while};
ghost use Rattle.session_text.specs.Fields.{behind_word, fields_of, flag_of, is_marked, without_blanks, word_of};
ghost use Rattle.session_text.specs.Rows.{only_of, two_of};

use crate::lines::Row;

/// Whether the first field is exactly `./`.
pub(crate) fn is_marked(line: &[u8]) -> bool
    ensures { result ≡ is_marked line.now }
{
    line.starts_with(b"./ ")
}

fn first_of_field(text: &[u8]) -> Option<usize>
    ensures first { result ≡ position (λ b. not (b == 32)) text.now }
    ensures bound { IfSome result (λ k. k < length text.now) }
{
    text.iter().position(|b| *b != b' ')
}

fn blank_in(text: &[u8]) -> Option<usize>
    ensures blank { result ≡ position (λ b. b == 32) text.now }
    ensures bound { IfSome result (λ k. k < length text.now) }
{
    text.iter().position(|b| *b == b' ')
}

/// The first field, and what stands behind it.
pub(crate) fn next_field<'a>(text: &'a [u8]) -> Option<(Row<'a>, &'a [u8])>
    ensures some { IfSome result (λ r. fields_of text.now ≡ r.0 ∷ fields_of r.1.now) }
    ensures none { IfNone result (fields_of text.now ≡ []) }
{
    let Some(first) = first_of_field(text) else {
        return None;
    };
    let (_, behind) = text.split_at(first);
    match blank_in(behind) {
        None => Some((Row { bytes: behind }, b"".as_slice())),
        Some(blank) => {
            let (field, rest) = behind.split_at(blank);
            Some((Row { bytes: field }, rest))
        }
    }
}

/// The field, where there is one alone.
pub(crate) fn only_field<'a>(text: &'a [u8]) -> Option<Row<'a>>
    ensures { result ≡ only_of (fields_of text.now) }
{
    let Some((field, behind)) = next_field(text) else {
        return None;
    };
    match next_field(behind) {
        None => Some(field),
        Some(_) => None,
    }
}

/// The fields, where there are two.
pub(crate) fn two_fields<'a>(text: &'a [u8]) -> Option<(Row<'a>, Row<'a>)>
    ensures { result ≡ two_of (fields_of text.now) }
{
    let Some((first, behind)) = next_field(text) else {
        return None;
    };
    match next_field(behind) {
        None => None,
        Some((second, rest)) => match next_field(rest) {
            None => Some((first, second)),
            Some(_) => None,
        },
    }
}

/// Whether this word stands alone there; none where anything else does.
pub(crate) fn flag_in(word: &[u8], text: &[u8]) -> Option<bool>
    ensures { result ≡ flag_of word.now (fields_of text.now) }
{
    let Some((field, behind)) = next_field(text) else {
        return Some(false);
    };
    match next_field(behind) {
        None => {
            if field.bytes == word {
                Some(true)
            } else {
                None
            }
        }
        Some(_) => None,
    }
}

/// How many bytes the text has before its first blank.
fn word_len(text: &[u8]) -> usize
    ensures count { result ≡ length (word_of text.now) }
    ensures bound { result ≤ length text.now }
{
    text.iter().take_while(|b| **b != b' ').count()
}

/// What stands before the first blank.
pub(crate) fn word_of(text: &[u8]) -> &[u8]
    ensures { result.now ≡ word_of text.now }
{
    let (word, _) = text.split_at(word_len(text));
    word
}

/// What stands from the first blank on.
pub(crate) fn behind_word(text: &[u8]) -> &[u8]
    ensures { result.now ≡ behind_word text.now }
{
    let (_, behind) = text.split_at(word_len(text));
    behind
}

/// How many blanks the text begins with.
fn blanks(text: &[u8]) -> usize
    ensures count { result ≡ length (take_while (λ b. b == 32) text.now) }
    ensures bound { result ≤ length text.now }
{
    text.iter().take_while(|b| **b == b' ').count()
}

pub(crate) fn without_blanks(text: &[u8]) -> &[u8]
    ensures { result.now ≡ without_blanks text.now }
{
    let (_, behind) = text.split_at(blanks(text));
    behind
}
