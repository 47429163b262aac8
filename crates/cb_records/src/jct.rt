//! The record of a job: JCT.
ghost use Rattle.std.specs.Prelude.{◌≡◌, ◌≢◌, MatchOption, length, ◌+◌, ◌*◌, ◌<◌};
ghost use Rattle.cb_meaning.specs.Fields.{byte_at, field, number_at, part};
ghost use Rattle.cb_meaning.specs.Spelled.{jct};
ghost use Rattle.cb_records.specs.Writes.{FitsRecord};

use crate::rec::{Rec, STATUS};
use cb_meaning::layout::{Field, Layout};

/// The number of the layout.
pub const LAYOUT: u8 = 8;

/// The class of the job.
pub const CLASS: u8 = 9;

/// The priority of the job.
pub const PRIORITY: u8 = 10;

/// The class of its listing.
pub const MESSAGE_CLASS: u8 = 11;

/// The name of the job.
pub const NAME: Field = Field { at: 16, width: 8 };

/// How many tests the JOB statement has.
pub const TEST_COUNT: u8 = 24;

/// Its tests, of three bytes each.
pub const TESTS: Field = Field { at: 26, width: 24 };

/// A record that is a JCT, read by a layout.
#[derive(Clone, Copy)]
pub struct JctView<'a> {
    pub bytes: &'a Rec,
    pub layout: &'a Layout,
    ghost of_kind: { byte_at bytes.now 0 ≡ jct },
    ghost fits: { FitsRecord layout.now },
}

impl<'a> JctView<'a> {
    /// The view of a JCT, or none of another kind.
    pub fn of(bytes: &'a Rec, layout: &'a Layout) -> Option<JctView<'a>>
        requires { FitsRecord layout.now }
        ensures { MatchOption result (byte_at bytes.now 0 ≢ jct) (λ v. (v.bytes.now ≡ bytes.now) × (v.layout.now ≡ layout.now)) }
    {
        if bytes.kind() == 1 {
            Some(JctView { bytes, layout })
        } else {
            None
        }
    }

    /// The number of the layout.
    pub fn layout_number(&self) -> u8
        ensures { result ≡ byte_at self.now.bytes.now 8 }
    {
        self.bytes.byte(LAYOUT)
    }

    /// The class of the job, a letter.
    pub fn class(&self) -> u8
        ensures { result ≡ byte_at self.now.bytes.now 9 }
    {
        self.bytes.byte(CLASS)
    }

    /// 0 to 13.
    pub fn priority(&self) -> u8
        ensures { result ≡ byte_at self.now.bytes.now 10 }
    {
        self.bytes.byte(PRIORITY)
    }

    /// The class of its listing, a letter or a digit.
    pub fn message_class(&self) -> u8
        ensures { result ≡ byte_at self.now.bytes.now 11 }
    {
        self.bytes.byte(MESSAGE_CLASS)
    }

    /// The number of the first SCT.
    pub fn first_step(&self) -> u32
        ensures { result ≡ number_at self.now.bytes.now self.now.layout.now.first_step }
    {
        self.bytes.number(self.layout.first_step)
    }

    /// How many steps the job has.
    pub fn steps(&self) -> u32
        ensures { result ≡ number_at self.now.bytes.now self.now.layout.now.steps }
    {
        self.bytes.number(self.layout.steps)
    }

    /// The name of the job, with blanks behind it.
    pub fn name(&self) -> &'a [u8]
        ensures { result.now ≡ part self.now.bytes.now 16 8 }
    {
        self.bytes.text(NAME)
    }

    /// How many tests the JOB statement has.
    pub fn test_count(&self) -> u8
        ensures { result ≡ byte_at self.now.bytes.now 24 }
    {
        self.bytes.byte(TEST_COUNT)
    }

    /// The tests, of three bytes each.
    pub fn tests(&self) -> &'a [u8]
        ensures value { result.now ≡ part self.now.bytes.now 26 24 }
        ensures size { length result.now ≡ 24 }
    {
        self.bytes.text(TESTS)
    }

    /// The operator of a test, by its number; the tests count from 0.
    pub fn test_operator(&self, i: u8) -> u8
        requires { i < 8 }
        ensures { result ≡ byte_at self.now.bytes.now (26 + 3 * i) }
    {
        self.bytes.byte(26 + 3 * i)
    }

    /// The code of a test.
    pub fn test_code(&self, i: u8) -> u16
        requires { i < 8 }
        ensures { result ≡ number_at self.now.bytes.now (field (27 + 3 * i) 2) }
    {
        self.bytes.short(27 + 3 * i)
    }

    /// The status of the job, which is the scheduler's own.
    pub fn status_bytes(&self) -> &'a [u8]
        ensures { result.now ≡ part self.now.bytes.now 168 8 }
    {
        self.bytes.text(STATUS)
    }
}
