//! Fields of several parts, and what is wrong with them.
use crate::values::{
    COUNT, DAY_OF_YEAR, INITIATOR, NameForm, OFFSET, PART, RECORD, TRACK, Wrong, YEAR, name_fault,
    number_fault, number_of, reason_at,
};
use date_core::written::written_day;

/// The text before the first of these bytes, and what stands behind it.
fn cut(text: &[u8], byte: u8) -> (&[u8], Option<&[u8]>) {
    let len = text.iter().take_while(|c| **c != byte).count();
    let (before, from) = text.split_at(len.min(text.len()));
    match from.split_first() {
        Some((_, behind)) => (before, Some(behind)),
        None => (before, None),
    }
}

/// The first wrong one of the names with this byte between them.
pub(crate) fn names_fault(form: &NameForm, text: &[u8], byte: u8) -> Option<Wrong> {
    let mut at: usize = 0;
    for part in text.split(|c| *c == byte) {
        if let Some(wrong) = name_fault(form, part) {
            return Some(wrong.behind(at));
        }
        at = at.saturating_add(part.len()).saturating_add(1);
    }
    None
}

/// The most characters of a data set's name.
pub(crate) const MOST_OF_A_NAME: usize = 44;

/// The most characters of a group's base.
pub(crate) const MOST_OF_A_BASE: usize = 35;

/// What is wrong with the number and the version of a name that ends as a generation does.
fn generation_fault(text: &[u8]) -> Option<Wrong> {
    let from = text.len().saturating_sub(9);
    if from == 0 {
        return None;
    }
    let (_, suffix) = text.split_at(from);
    let [b'.', b'G', a, b, c, d, b'V', e, f] = suffix else {
        return None;
    };
    let digits = [*a, *b, *c, *d, *e, *f];
    if !digits.iter().all(|c| c.is_ascii_digit()) {
        return None;
    }
    if number_of(&digits[..4]) == 0 || number_of(&digits[4..]) > 0 {
        Some(Wrong {
            at: from.saturating_add(1),
            reason: "a generation is G0001V00 to G9999V00",
        })
    } else {
        None
    }
}

/// What is wrong with the name of a data set that may have so many characters.
pub(crate) fn set_name_fault(text: &[u8], most: usize, long: &'static str) -> Option<Wrong> {
    if let Some(wrong) = names_fault(&PART, text, b'.') {
        return Some(wrong);
    }
    if text.len() > most {
        Some(Wrong {
            at: most,
            reason: long,
        })
    } else {
        generation_fault(text)
    }
}

/// What is wrong with `a` or `a-b` where the tracks before one are taken, and those from another on are not there.
fn range_fault(text: &[u8], from: u32, tracks: u32) -> Option<Wrong> {
    let (first, last) = cut(text, b'-');
    if let Some(wrong) = number_fault(&TRACK, first) {
        return Some(wrong);
    }
    let (last, at) = match last {
        Some(last) => (last, first.len().saturating_add(1)),
        None => (first, 0),
    };
    if let Some(wrong) = number_fault(&TRACK, last) {
        return Some(wrong.behind(at));
    }
    if number_of(last) < number_of(first) {
        let reason = "a range rises, as 10-19";
        Some(Wrong { at, reason })
    } else if number_of(first) < from {
        let reason = "the list rises, and no track is in it twice";
        Some(Wrong { at: 0, reason })
    } else if tracks <= number_of(last) {
        let reason = "the volume has no such track: tracks count from 0";
        Some(Wrong { at, reason })
    } else {
        None
    }
}

/// What is wrong with a list of used tracks, on a volume with so many.
pub(crate) fn used_fault(text: &[u8], tracks: u32) -> Option<Wrong> {
    let mut at: usize = 0;
    let mut from: u32 = 0;
    for part in text.split(|c| *c == b',') {
        if let Some(wrong) = range_fault(part, from, tracks) {
            return Some(wrong.behind(at));
        }
        let (first, last) = cut(part, b'-');
        from = number_of(last.unwrap_or(first)).saturating_add(1);
        at = at.saturating_add(part.len()).saturating_add(1);
    }
    None
}

/// What is wrong with a date: a year from 1900 to 2155, a slash, and a day that the year has.
pub(crate) fn date_fault(text: &[u8]) -> Option<Wrong> {
    let (year, of_year) = cut(text, b'/');
    let Some(of_year) = of_year else {
        return Some(Wrong {
            at: 0,
            reason: "a date is yyyy/ddd, as 1975/001",
        });
    };
    if let Some(wrong) = number_fault(&YEAR, year) {
        return Some(wrong);
    }
    let at = year.len().saturating_add(1);
    if let Some(wrong) = number_fault(&DAY_OF_YEAR, of_year) {
        return Some(wrong.behind(at));
    }
    match written_day(text) {
        Some(_) => None,
        None => Some(Wrong {
            at,
            reason: "a day has three digits, and its year has it: 366 is in leap years alone",
        }),
    }
}

/// What is wrong with a list of classes: it has one to eight letters A to O, each once.
pub(crate) fn classes_fault(text: &[u8]) -> Option<Wrong> {
    for (at, c) in text.iter().enumerate() {
        let (before, _) = text.split_at(at.min(text.len()));
        let reason = if at == 8 {
            "an initiator has at most eight classes"
        } else if *c == b',' {
            "classes are written side by side, with no comma"
        } else if !(b'A' <= *c && *c <= b'O') {
            reason_at(*c, "a class is A to O")
        } else if before.contains(c) {
            "each class is given once"
        } else {
            continue;
        };
        return Some(Wrong { at, reason });
    }
    None
}

/// What is wrong with the count behind a star.
fn count_fault(before: &[u8], count: Option<&[u8]>) -> Option<Wrong> {
    let Some(count) = count else { return None };
    match number_fault(&COUNT, count) {
        Some(wrong) => Some(wrong.behind(before.len().saturating_add(1))),
        None => None,
    }
}

/// What is wrong with the turns of an initiator.
pub(crate) fn turns_fault(text: &[u8]) -> Option<Wrong> {
    let (initiator, count) = cut(text, b'*');
    match number_fault(&INITIATOR, initiator) {
        Some(wrong) => Some(wrong),
        None => count_fault(initiator, count),
    }
}

/// What is wrong with the lines of a writer.
pub(crate) fn writes_fault(text: &[u8]) -> Option<Wrong> {
    let (class, count) = cut(text, b'*');
    let other = "a writer's class is one letter or digit";
    let reason = match class {
        [c] if c.is_ascii_uppercase() || c.is_ascii_digit() => return count_fault(class, count),
        [c] => reason_at(*c, other),
        _ => other,
    };
    Some(Wrong { at: 0, reason })
}

/// The bytes of a record of the queue.
const RECORD_BYTES: u32 = 176;

/// What is wrong with the bytes that are put at an offset.
fn bytes_fault(digits: &[u8], offset: u32) -> Option<Wrong> {
    let pairs = "a byte is two hexadecimal digits";
    if let Some(at) = digits.iter().position(|c| !c.is_ascii_hexdigit()) {
        return Some(Wrong { at, reason: pairs });
    }
    if digits.is_empty() || digits.len() > 64 {
        let reason = "a zap has 1 to 32 bytes";
        return Some(Wrong {
            at: digits.len().min(64),
            reason,
        });
    }
    let bytes = (digits.len() / 2) as u32;
    if digits.len() % 2 != 0 {
        Some(Wrong {
            at: digits.len(),
            reason: pairs,
        })
    } else if offset.saturating_add(bytes) > RECORD_BYTES {
        let reason = "the bytes end within the record's 176";
        Some(Wrong { at: 0, reason })
    } else {
        None
    }
}

/// What is wrong with a zap.
pub(crate) fn zap_fault(text: &[u8]) -> Option<Wrong> {
    let parts = "a zap has three parts, record,offset,bytes";
    let (record, behind) = cut(text, b',');
    if let Some(wrong) = number_fault(&RECORD, record) {
        return Some(wrong);
    }
    let missing = Wrong {
        at: text.len(),
        reason: parts,
    };
    let Some(behind) = behind else {
        return Some(missing);
    };
    let (offset, digits) = cut(behind, b',');
    let at = record.len().saturating_add(1);
    if let Some(wrong) = number_fault(&OFFSET, offset) {
        return Some(wrong.behind(at));
    }
    let Some(digits) = digits else {
        return Some(missing);
    };
    let at = at.saturating_add(offset.len()).saturating_add(1);
    match bytes_fault(digits, number_of(offset)) {
        Some(wrong) => Some(wrong.behind(at)),
        None => None,
    }
}
