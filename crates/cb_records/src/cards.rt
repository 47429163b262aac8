//! A record of one card or two.
ghost use Rattle.std.specs.Prelude.{◌≡◌, ◌≢◌, MatchOption, length};
ghost use Rattle.cb_meaning.specs.Fields.{byte_at, number_at, part};
ghost use Rattle.cb_meaning.specs.Spelled.{card_record};
ghost use Rattle.cb_records.specs.Writes.{FitsRecord};

use crate::rec::Rec;
use cb_meaning::layout::{Field, Layout};

/// How many cards there are.
pub const COUNT: u8 = 10;

/// Both cards.
pub const CARDS: Field = Field { at: 16, width: 160 };

/// The first card.
pub const FIRST: Field = Field { at: 16, width: 80 };

/// The second card.
pub const SECOND: Field = Field { at: 96, width: 80 };

/// A record of cards, read by a layout.
#[derive(Clone, Copy)]
pub struct CardsView<'a> {
    pub bytes: &'a Rec,
    pub layout: &'a Layout,
    ghost of_kind: { byte_at bytes.now 0 ≡ card_record },
    ghost fits: { FitsRecord layout.now },
}

impl<'a> CardsView<'a> {
    /// The view of a record of cards, or none of another kind.
    pub fn of(bytes: &'a Rec, layout: &'a Layout) -> Option<CardsView<'a>>
        requires { FitsRecord layout.now }
        ensures { MatchOption result (byte_at bytes.now 0 ≢ card_record) (λ v. (v.bytes.now ≡ bytes.now) × (v.layout.now ≡ layout.now)) }
    {
        if bytes.kind() == 5 {
            Some(CardsView { bytes, layout })
        } else {
            None
        }
    }

    /// The number of the next record of cards, 0 of the last.
    pub fn next(&self) -> u32
        ensures { result ≡ number_at self.now.bytes.now self.now.layout.now.next_cards }
    {
        self.bytes.number(self.layout.next_cards)
    }

    /// 1 or 2.
    pub fn count(&self) -> u8
        ensures { result ≡ byte_at self.now.bytes.now 10 }
    {
        self.bytes.byte(COUNT)
    }

    /// The first card.
    pub fn first(&self) -> &'a [u8]
        ensures value { result.now ≡ part self.now.bytes.now 16 80 }
        ensures size { length result.now ≡ 80 }
    {
        self.bytes.text(FIRST)
    }

    /// The second card, zeros where there is none.
    pub fn second(&self) -> &'a [u8]
        ensures value { result.now ≡ part self.now.bytes.now 96 80 }
        ensures size { length result.now ≡ 80 }
    {
        self.bytes.text(SECOND)
    }
}
