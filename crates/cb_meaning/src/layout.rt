//! Where the fields of a record stand that another layout may have elsewhere, or wider.

/// The bytes of a record.
pub const RECORD_BYTES: usize = 176;

/// The number of the last day that a date has, 2155/365.
pub const LAST_DAY: u32 = 93_501;

/// The most days that a set is kept from the job's date.
pub const MOST_DAYS: u16 = 9_999;

/// A number's first byte, and how many bytes it has, the highest first.
#[derive(Clone, Copy, PartialEq, Eq)]
pub struct Field {
    pub at: u8,
    pub width: u8,
}

/// A layout of the queue's records.
#[derive(Clone, Copy, PartialEq, Eq)]
pub struct Layout {
    /// What a JCT says of it.
    pub number: u8,
    pub most_records: u32,
    pub most_steps: u16,
    /// The link of the class queue or of the free chain, in any record.
    pub link: Field,
    /// In a JCT: the first SCT, and the number of steps.
    pub first_step: Field,
    pub steps: Field,
    /// In an SCT: the next, the first SIOT, and the number of DDs.
    pub next_step: Field,
    pub first_dd: Field,
    pub dds: Field,
    /// In an SIOT: the next, the JFCB or the first record of cards, and the number of cards.
    pub next_dd: Field,
    pub below: Field,
    pub cards: Field,
    /// In a JFCB: what is said of its expiry, and the day or the number of days.
    pub expiry_kind: Field,
    pub expiry_days: Field,
    /// In a record of cards: the next.
    pub next_cards: Field,
}

/// Records of 4,096 and jobs of 32 steps, whose sets have no day: that of images that are carried over.
pub const LAYOUT_1: Layout = Layout {
    number: 1,
    most_records: 4096,
    most_steps: 32,
    link: Field { at: 4, width: 2 },
    first_step: Field { at: 12, width: 2 },
    steps: Field { at: 14, width: 2 },
    next_step: Field { at: 8, width: 2 },
    first_dd: Field { at: 10, width: 2 },
    dds: Field { at: 12, width: 2 },
    next_dd: Field { at: 8, width: 2 },
    below: Field { at: 10, width: 2 },
    cards: Field { at: 26, width: 2 },
    expiry_kind: Field { at: 106, width: 0 },
    expiry_days: Field { at: 106, width: 0 },
    next_cards: Field { at: 8, width: 2 },
};

/// Records of 65,536 and jobs of 255 steps.
pub const LAYOUT_2: Layout = Layout {
    number: 2,
    most_records: 65_536,
    most_steps: 255,
    link: Field { at: 4, width: 4 },
    first_step: Field { at: 12, width: 4 },
    steps: Field { at: 50, width: 2 },
    next_step: Field { at: 8, width: 4 },
    first_dd: Field { at: 80, width: 4 },
    dds: Field { at: 12, width: 2 },
    next_dd: Field { at: 40, width: 4 },
    below: Field { at: 44, width: 4 },
    cards: Field { at: 48, width: 4 },
    expiry_kind: Field { at: 106, width: 1 },
    expiry_days: Field { at: 107, width: 4 },
    next_cards: Field { at: 12, width: 4 },
};

/// The layout of the queue of a session.
pub const QUEUE_LAYOUT: Layout = LAYOUT_2;
