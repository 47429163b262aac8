//! The record of a data set: JFCB.
ghost use Rattle.std.specs.Prelude.{◌≡◌, ◌≢◌, MatchOption};
ghost use Rattle.cb_meaning.specs.Fields.{byte_at, field, number_at, part};
ghost use Rattle.cb_meaning.specs.Spelled.{jfcb};
ghost use Rattle.cb_records.specs.Writes.{FitsRecord};

use crate::rec::Rec;
use cb_meaning::layout::{Field, Layout};

/// What the name is.
pub const KEY_KIND: u8 = 8;

/// The sign of a relative number.
pub const SIGN: u8 = 9;

/// The amount of a relative number.
pub const AMOUNT: Field = Field { at: 10, width: 2 };

/// The sign and the amount.
pub const RELATIVE: Field = Field { at: 9, width: 3 };

/// The name.
pub const NAME: Field = Field { at: 12, width: 44 };

/// The step of the DD that an unnamed set stems from.
pub const UNNAMED_STEP: Field = Field { at: 12, width: 2 };

/// The DD that an unnamed set stems from.
pub const UNNAMED_DD: Field = Field { at: 14, width: 2 };

/// What stands behind these two.
pub const BEHIND_UNNAMED: Field = Field { at: 16, width: 40 };

/// The serial.
pub const SERIAL: Field = Field { at: 56, width: 6 };

/// The name that VOL refers to.
pub const VOLUME_NAME: Field = Field { at: 62, width: 44 };

/// A record that is a JFCB, read by a layout.
#[derive(Clone, Copy)]
pub struct JfcbView<'a> {
    pub bytes: &'a Rec,
    pub layout: &'a Layout,
    ghost of_kind: { byte_at bytes.now 0 ≡ jfcb },
    ghost fits: { FitsRecord layout.now },
}

impl<'a> JfcbView<'a> {
    /// The view of a JFCB, or none of another kind.
    pub fn of(bytes: &'a Rec, layout: &'a Layout) -> Option<JfcbView<'a>>
        requires { FitsRecord layout.now }
        ensures { MatchOption result (byte_at bytes.now 0 ≢ jfcb) (λ v. (v.bytes.now ≡ bytes.now) × (v.layout.now ≡ layout.now)) }
    {
        if bytes.kind() == 4 {
            Some(JfcbView { bytes, layout })
        } else {
            None
        }
    }

    /// 1 permanent, 2 an absolute generation, 3 relative, 4 temporary, 5 unnamed.
    pub fn key_kind(&self) -> u8
        ensures { result ≡ byte_at self.now.bytes.now 8 }
    {
        self.bytes.byte(KEY_KIND)
    }

    /// Of a relative number: 0 plus or zero, 1 minus.
    pub fn sign(&self) -> u8
        ensures { result ≡ byte_at self.now.bytes.now 9 }
    {
        self.bytes.byte(SIGN)
    }

    /// The amount of a relative number.
    pub fn amount(&self) -> u16
        ensures { result ≡ number_at self.now.bytes.now (field 10 2) }
    {
        self.bytes.short(AMOUNT.at)
    }

    /// The name with blanks behind it; of a relative number its base.
    pub fn name(&self) -> &'a [u8]
        ensures { result.now ≡ part self.now.bytes.now 12 44 }
    {
        self.bytes.text(NAME)
    }

    /// The step of the DD that an unnamed set stems from.
    pub fn unnamed_step(&self) -> u16
        ensures { result ≡ number_at self.now.bytes.now (field 12 2) }
    {
        self.bytes.short(UNNAMED_STEP.at)
    }

    /// The DD that an unnamed set stems from.
    pub fn unnamed_dd(&self) -> u16
        ensures { result ≡ number_at self.now.bytes.now (field 14 2) }
    {
        self.bytes.short(UNNAMED_DD.at)
    }

    /// The serial with blanks behind it, all blank where none is coded.
    pub fn serial(&self) -> &'a [u8]
        ensures { result.now ≡ part self.now.bytes.now 56 6 }
    {
        self.bytes.text(SERIAL)
    }

    /// The name that VOL refers to with blanks behind it, all blank without any.
    pub fn volume_name(&self) -> &'a [u8]
        ensures { result.now ≡ part self.now.bytes.now 62 44 }
    {
        self.bytes.text(VOLUME_NAME)
    }

    /// What is said of the set's expiry: 0 nothing, 1 its day, 2 days from the job's date.
    pub fn expiry_kind(&self) -> u32
        ensures { result ≡ number_at self.now.bytes.now self.now.layout.now.expiry_kind }
    {
        self.bytes.number(self.layout.expiry_kind)
    }

    /// The number of the day, or of the days from the job's date.
    pub fn expiry_days(&self) -> u32
        ensures { result ≡ number_at self.now.bytes.now self.now.layout.now.expiry_days }
    {
        self.bytes.number(self.layout.expiry_days)
    }
}
