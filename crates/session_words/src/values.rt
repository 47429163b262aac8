//! Names and numbers, and what is wrong with them.

/// What is wrong with a text, and at which of its bytes.
#[derive(Clone, Copy)]
pub(crate) struct Wrong {
    pub(crate) at: usize,
    pub(crate) reason: &'static str,
}

impl Wrong {
    /// The same of a text behind so many bytes.
    pub(crate) fn behind(self, count: usize) -> Wrong {
        Wrong {
            at: self.at.saturating_add(count),
            reason: self.reason,
        }
    }
}

pub(crate) const CAPITALS: &'static str = "letters are capitals";

pub(crate) const TAB: &'static str = "a tab does not separate fields: write a blank";

const DIGITS: &'static str = "a number is decimal digits alone";

/// The form of a name.
pub(crate) struct NameForm {
    most: usize,
    may_begin_with_digit: bool,
    has_hyphens: bool,
    empty: &'static str,
    long: &'static str,
    other: &'static str,
}

pub(crate) static SERIAL: NameForm = NameForm {
    most: 6,
    may_begin_with_digit: true,
    has_hyphens: true,
    empty: "a serial is missing before or after a comma",
    long: "a serial has at most 6 characters",
    other: "a serial has letters, digits, #, @, $ and hyphens",
};

pub(crate) static UNIT_NAME: NameForm = NameForm {
    most: 8,
    may_begin_with_digit: true,
    has_hyphens: false,
    empty: "the unit's name is missing",
    long: "a unit's name has at most 8 characters",
    other: "a unit's name has letters, digits, #, @ and $",
};

pub(crate) static NAME: NameForm = NameForm {
    most: 8,
    may_begin_with_digit: false,
    has_hyphens: false,
    empty: "the name is missing",
    long: "a name has at most 8 characters",
    other: "a name has letters, digits, #, @ and $, no digit first",
};

/// A part of a data set's name.
pub(crate) static PART: NameForm = NameForm {
    most: 8,
    may_begin_with_digit: false,
    has_hyphens: true,
    empty: "a part of the data set name is missing before or after a period",
    long: "a part of a data set name has at most 8 characters",
    other: "a part of a data set name has letters, digits, #, @, $ and hyphens, no digit or hyphen first",
};

impl NameForm {
    fn allows(&self, c: u8) -> bool {
        c.is_ascii_uppercase()
            || c.is_ascii_digit()
            || c == b'#'
            || c == b'@'
            || c == b'$'
            || (self.has_hyphens && c == b'-')
    }

    fn allows_first(&self, c: u8) -> bool {
        self.may_begin_with_digit || !(c.is_ascii_digit() || c == b'-')
    }
}

/// What is wrong where another character stands than the reason says.
pub(crate) fn reason_at(c: u8, reason: &'static str) -> &'static str {
    if c.is_ascii_lowercase() {
        CAPITALS
    } else {
        reason
    }
}

pub(crate) fn name_fault(form: &NameForm, text: &[u8]) -> Option<Wrong> {
    if text.is_empty() {
        return Some(Wrong {
            at: 0,
            reason: form.empty,
        });
    }
    for (at, c) in text.iter().enumerate() {
        if at == form.most {
            return Some(Wrong {
                at,
                reason: form.long,
            });
        }
        if !form.allows(*c) || (at == 0 && !form.allows_first(*c)) {
            return Some(Wrong {
                at,
                reason: reason_at(*c, form.other),
            });
        }
    }
    None
}

/// The range of a number.
pub(crate) struct NumberForm {
    low: u32,
    high: u32,
    range: &'static str,
}

pub(crate) static TRACKS: NumberForm = NumberForm {
    low: 1,
    high: 4_000,
    range: "a volume has 1 to 4,000 tracks",
};

pub(crate) static SET_TRACKS: NumberForm = NumberForm {
    low: 0,
    high: 4_000,
    range: "a volume has at most 4,000 tracks",
};

pub(crate) static TRACK: NumberForm = NumberForm {
    low: 0,
    high: 3_999,
    range: "a track is 0 to 3999",
};

pub(crate) static LIMIT: NumberForm = NumberForm {
    low: 1,
    high: 255,
    range: "a group keeps 1 to 255 generations",
};

pub(crate) static INITIATOR: NumberForm = NumberForm {
    low: 1,
    high: 15,
    range: "an initiator is 1 to 15",
};

pub(crate) static COUNT: NumberForm = NumberForm {
    low: 1,
    high: 9_999,
    range: "a count after * is 1 to 9999",
};

pub(crate) static YEAR: NumberForm = NumberForm {
    low: 1_900,
    high: 2_155,
    range: "a year is 1900 to 2155",
};

pub(crate) static DAY_OF_YEAR: NumberForm = NumberForm {
    low: 1,
    high: 366,
    range: "a day of a year is 001 to 366",
};

pub(crate) static JOB: NumberForm = NumberForm {
    low: 1,
    high: 9_999,
    range: "a job's number is 1 to 9999",
};

pub(crate) static RECORD: NumberForm = NumberForm {
    low: 1,
    high: 65_536,
    range: "a record of the queue is 1 to 65536",
};

pub(crate) static OFFSET: NumberForm = NumberForm {
    low: 8,
    high: 175,
    range: "an offset is 8 to 175",
};

/// The number that decimal digits are, or the greatest where it is above that.
pub(crate) fn number_of(digits: &[u8]) -> u32 {
    let mut number: u32 = 0;
    for c in digits {
        number = number
            .saturating_mul(10)
            .saturating_add(u32::from(c.saturating_sub(b'0')));
    }
    number
}

pub(crate) fn number_fault(form: &NumberForm, text: &[u8]) -> Option<Wrong> {
    if let Some(at) = text.iter().position(|c| !c.is_ascii_digit()) {
        return Some(Wrong { at, reason: DIGITS });
    }
    let number = number_of(text);
    if text.is_empty() || number < form.low || form.high < number {
        Some(Wrong {
            at: 0,
            reason: form.range,
        })
    } else {
        None
    }
}
