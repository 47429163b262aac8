//! The record of a DD: SIOT.
ghost use Rattle.std.specs.Prelude.{◌≡◌, ◌≢◌, MatchOption};
ghost use Rattle.cb_meaning.specs.Fields.{byte_at, field, number_at, part};
ghost use Rattle.cb_meaning.specs.Spelled.{siot};
ghost use Rattle.cb_meaning.specs.Walks.{continues, has_cards, has_space, is_set, is_sysout, releases};
ghost use Rattle.cb_records.specs.Writes.{FitsRecord};

use crate::rec::{Rec, STATUS};
use cb_meaning::layout::{Field, Layout};

/// What the DD is.
pub const KIND: u8 = 12;

/// The first word of DISP.
pub const DISPOSITION_STATUS: u8 = 13;

/// The second word of DISP.
pub const NORMAL: u8 = 14;

/// The third word of DISP.
pub const CONDITIONAL: u8 = 15;

/// The name of the DD.
pub const NAME: Field = Field { at: 16, width: 8 };

/// What it has, by bits.
pub const MARKS: u8 = 24;

/// The class of SYSOUT.
pub const CLASS: u8 = 25;

/// How the volume is found.
pub const VOLUME: u8 = 28;

/// The step of the DD that VOL refers to.
pub const VOLUME_STEP: Field = Field { at: 30, width: 2 };

/// The DD that VOL refers to.
pub const VOLUME_DD: Field = Field { at: 32, width: 2 };

/// Both of these numbers.
pub const VOLUME_STEP_AND_DD: Field = Field { at: 30, width: 4 };

/// Primary space.
pub const PRIMARY: Field = Field { at: 34, width: 2 };

/// Secondary space.
pub const SECONDARY: Field = Field { at: 36, width: 2 };

/// The list of volumes.
pub const UNITS: Field = Field { at: 38, width: 2 };

/// Whether it is of a set.
pub fn is_set(r: &Rec) -> bool
    ensures { result ≡ is_set r.now }
{
    r.byte(KIND) == 1
}

/// Whether it is of SYSOUT.
pub fn is_sysout(r: &Rec) -> bool
    ensures { result ≡ is_sysout r.now }
{
    r.byte(KIND) == 3
}

/// Whether cards stand below it.
pub fn has_cards(r: &Rec) -> bool
    ensures { result ≡ has_cards r.now }
{
    r.byte(KIND) == 4
}

/// Whether it stands behind another in a concatenation.
pub fn continues(r: &Rec) -> bool
    ensures { result ≡ continues r.now }
{
    r.byte(MARKS) & 1 == 1
}

/// Whether SPACE is coded.
pub fn has_space(r: &Rec) -> bool
    ensures { result ≡ has_space r.now }
{
    r.byte(MARKS) & 4 == 4
}

/// Whether SPACE has RLSE.
pub fn releases(r: &Rec) -> bool
    ensures { result ≡ releases r.now }
{
    r.byte(MARKS) & 2 == 2
}

/// A record that is an SIOT, read by a layout.
#[derive(Clone, Copy)]
pub struct SiotView<'a> {
    pub bytes: &'a Rec,
    pub layout: &'a Layout,
    ghost of_kind: { byte_at bytes.now 0 ≡ siot },
    ghost fits: { FitsRecord layout.now },
}

impl<'a> SiotView<'a> {
    /// The view of an SIOT, or none of another kind.
    pub fn of(bytes: &'a Rec, layout: &'a Layout) -> Option<SiotView<'a>>
        requires { FitsRecord layout.now }
        ensures { MatchOption result (byte_at bytes.now 0 ≢ siot) (λ v. (v.bytes.now ≡ bytes.now) × (v.layout.now ≡ layout.now)) }
    {
        if bytes.kind() == 3 {
            Some(SiotView { bytes, layout })
        } else {
            None
        }
    }

    /// The number of the next SIOT, 0 of the last.
    pub fn next(&self) -> u32
        ensures { result ≡ number_at self.now.bytes.now self.now.layout.now.next_dd }
    {
        self.bytes.number(self.layout.next_dd)
    }

    /// The number of the JFCB or of the first record of cards, 0 without either.
    pub fn below(&self) -> u32
        ensures { result ≡ number_at self.now.bytes.now self.now.layout.now.below }
    {
        self.bytes.number(self.layout.below)
    }

    /// 1 a set, 2 a dummy, 3 SYSOUT, 4 cards.
    pub fn dd_kind(&self) -> u8
        ensures { result ≡ byte_at self.now.bytes.now 12 }
    {
        self.bytes.byte(KIND)
    }

    /// 1 NEW, 2 OLD, 3 SHR, 4 MOD.
    pub fn status(&self) -> u8
        ensures { result ≡ byte_at self.now.bytes.now 13 }
    {
        self.bytes.byte(DISPOSITION_STATUS)
    }

    /// 0 omitted, 1 DELETE, 2 KEEP, 3 PASS, 4 CATLG, 5 UNCATLG.
    pub fn normal(&self) -> u8
        ensures { result ≡ byte_at self.now.bytes.now 14 }
    {
        self.bytes.byte(NORMAL)
    }

    /// 0 omitted, 1 DELETE, 2 KEEP, 4 CATLG, 5 UNCATLG.
    pub fn conditional(&self) -> u8
        ensures { result ≡ byte_at self.now.bytes.now 15 }
    {
        self.bytes.byte(CONDITIONAL)
    }

    /// The name of the DD with blanks behind it, all blank in a concatenation.
    pub fn name(&self) -> &'a [u8]
        ensures { result.now ≡ part self.now.bytes.now 16 8 }
    {
        self.bytes.text(NAME)
    }

    /// 1 concatenated, 2 RLSE, 4 SPACE coded, added.
    pub fn marks(&self) -> u8
        ensures { result ≡ byte_at self.now.bytes.now 24 }
    {
        self.bytes.byte(MARKS)
    }

    /// The class of SYSOUT.
    pub fn class(&self) -> u8
        ensures { result ≡ byte_at self.now.bytes.now 25 }
    {
        self.bytes.byte(CLASS)
    }

    /// How many cards there are.
    pub fn cards(&self) -> u32
        ensures { result ≡ number_at self.now.bytes.now self.now.layout.now.cards }
    {
        self.bytes.number(self.layout.cards)
    }

    /// 0 not coded, 1 a serial, 2 by a name, 3 by a DD.
    pub fn volume(&self) -> u8
        ensures { result ≡ byte_at self.now.bytes.now 28 }
    {
        self.bytes.byte(VOLUME)
    }

    /// The step of the DD that VOL refers to.
    pub fn volume_step(&self) -> u16
        ensures { result ≡ number_at self.now.bytes.now (field 30 2) }
    {
        self.bytes.short(VOLUME_STEP.at)
    }

    /// The DD that VOL refers to.
    pub fn volume_dd(&self) -> u16
        ensures { result ≡ number_at self.now.bytes.now (field 32 2) }
    {
        self.bytes.short(VOLUME_DD.at)
    }

    /// Primary space in tracks.
    pub fn primary(&self) -> u16
        ensures { result ≡ number_at self.now.bytes.now (field 34 2) }
    {
        self.bytes.short(PRIMARY.at)
    }

    /// Secondary space in tracks.
    pub fn secondary(&self) -> u16
        ensures { result ≡ number_at self.now.bytes.now (field 36 2) }
    {
        self.bytes.short(SECONDARY.at)
    }

    /// The list of volumes by its number, 0 for none.
    pub fn units(&self) -> u16
        ensures { result ≡ number_at self.now.bytes.now (field 38 2) }
    {
        self.bytes.short(UNITS.at)
    }

    /// The status of the DD, which is the scheduler's own.
    pub fn status_bytes(&self) -> &'a [u8]
        ensures { result.now ≡ part self.now.bytes.now 168 8 }
    {
        self.bytes.text(STATUS)
    }
}
