//! The record of a step: SCT.
ghost use Rattle.std.specs.Prelude.{◌≡◌, ◌≢◌, MatchOption, length, ◌+◌, ◌*◌, ◌<◌};
ghost use Rattle.cb_meaning.specs.Fields.{byte_at, field, number_at, part};
ghost use Rattle.cb_meaning.specs.Spelled.{sct};
ghost use Rattle.cb_records.specs.Writes.{FitsRecord};

use crate::rec::{Rec, STATUS};
use cb_meaning::layout::{Field, Layout};

/// Whether the step runs after an ABEND.
pub const AFTER_ABEND: u8 = 14;

/// How many tests the step has.
pub const TEST_COUNT: u8 = 15;

/// The name of the step.
pub const NAME: Field = Field { at: 16, width: 8 };

/// The name of the procedure's step.
pub const PROCEDURE_STEP: Field = Field { at: 24, width: 8 };

/// The name of the program.
pub const PROGRAM: Field = Field { at: 32, width: 8 };

/// Its tests, of five bytes each.
pub const TESTS: Field = Field { at: 40, width: 40 };

/// A record that is an SCT, read by a layout.
#[derive(Clone, Copy)]
pub struct SctView<'a> {
    pub bytes: &'a Rec,
    pub layout: &'a Layout,
    ghost of_kind: { byte_at bytes.now 0 ≡ sct },
    ghost fits: { FitsRecord layout.now },
}

impl<'a> SctView<'a> {
    /// The view of an SCT, or none of another kind.
    pub fn of(bytes: &'a Rec, layout: &'a Layout) -> Option<SctView<'a>>
        requires { FitsRecord layout.now }
        ensures { MatchOption result (byte_at bytes.now 0 ≢ sct) (λ v. (v.bytes.now ≡ bytes.now) × (v.layout.now ≡ layout.now)) }
    {
        if bytes.kind() == 2 {
            Some(SctView { bytes, layout })
        } else {
            None
        }
    }

    /// The number of the next SCT, 0 of the last.
    pub fn next(&self) -> u32
        ensures { result ≡ number_at self.now.bytes.now self.now.layout.now.next_step }
    {
        self.bytes.number(self.layout.next_step)
    }

    /// The number of the first SIOT, 0 without any.
    pub fn first_dd(&self) -> u32
        ensures { result ≡ number_at self.now.bytes.now self.now.layout.now.first_dd }
    {
        self.bytes.number(self.layout.first_dd)
    }

    /// How many DDs the step has.
    pub fn dds(&self) -> u32
        ensures { result ≡ number_at self.now.bytes.now self.now.layout.now.dds }
    {
        self.bytes.number(self.layout.dds)
    }

    /// 0, 1 for EVEN, 2 for ONLY.
    pub fn after_abend(&self) -> u8
        ensures { result ≡ byte_at self.now.bytes.now 14 }
    {
        self.bytes.byte(AFTER_ABEND)
    }

    /// How many tests the step has.
    pub fn test_count(&self) -> u8
        ensures { result ≡ byte_at self.now.bytes.now 15 }
    {
        self.bytes.byte(TEST_COUNT)
    }

    /// The name of the step, with blanks behind it.
    pub fn name(&self) -> &'a [u8]
        ensures { result.now ≡ part self.now.bytes.now 16 8 }
    {
        self.bytes.text(NAME)
    }

    /// The name of the procedure's step, with blanks behind it.
    pub fn procedure_step(&self) -> &'a [u8]
        ensures { result.now ≡ part self.now.bytes.now 24 8 }
    {
        self.bytes.text(PROCEDURE_STEP)
    }

    /// The name of the program, with blanks behind it.
    pub fn program(&self) -> &'a [u8]
        ensures { result.now ≡ part self.now.bytes.now 32 8 }
    {
        self.bytes.text(PROGRAM)
    }

    /// The tests, of five bytes each.
    pub fn tests(&self) -> &'a [u8]
        ensures value { result.now ≡ part self.now.bytes.now 40 40 }
        ensures size { length result.now ≡ 40 }
    {
        self.bytes.text(TESTS)
    }

    /// The operator of a test, by its number; the tests count from 0.
    pub fn test_operator(&self, i: u8) -> u8
        requires { i < 8 }
        ensures { result ≡ byte_at self.now.bytes.now (40 + 5 * i) }
    {
        self.bytes.byte(40 + 5 * i)
    }

    /// The code of a test.
    pub fn test_code(&self, i: u8) -> u16
        requires { i < 8 }
        ensures { result ≡ number_at self.now.bytes.now (field (41 + 5 * i) 2) }
    {
        self.bytes.short(41 + 5 * i)
    }

    /// The step that a test names, 0 where it looks at all earlier ones.
    pub fn test_step(&self, i: u8) -> u16
        requires { i < 8 }
        ensures { result ≡ number_at self.now.bytes.now (field (43 + 5 * i) 2) }
    {
        self.bytes.short(43 + 5 * i)
    }

    /// The status of the step, which is the scheduler's own.
    pub fn status_bytes(&self) -> &'a [u8]
        ensures { result.now ≡ part self.now.bytes.now 168 8 }
    {
        self.bytes.text(STATUS)
    }
}
