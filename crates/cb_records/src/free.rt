//! A free record.
ghost use Rattle.std.specs.Prelude.{◌≡◌, ◌≢◌, MatchOption};
ghost use Rattle.cb_meaning.specs.Fields.{byte_at, number_at};
ghost use Rattle.cb_records.specs.Writes.{FitsRecord};

use crate::rec::Rec;
use cb_meaning::layout::Layout;

/// A free record, read by a layout.
#[derive(Clone, Copy)]
pub struct FreeView<'a> {
    pub bytes: &'a Rec,
    pub layout: &'a Layout,
    ghost of_kind: { byte_at bytes.now 0 ≡ 0 },
    ghost fits: { FitsRecord layout.now },
}

impl<'a> FreeView<'a> {
    /// The view of a free record, or none of another kind.
    pub fn of(bytes: &'a Rec, layout: &'a Layout) -> Option<FreeView<'a>>
        requires { FitsRecord layout.now }
        ensures { MatchOption result (byte_at bytes.now 0 ≢ 0) (λ v. (v.bytes.now ≡ bytes.now) × (v.layout.now ≡ layout.now)) }
    {
        if bytes.kind() == 0 {
            Some(FreeView { bytes, layout })
        } else {
            None
        }
    }

    /// The number of the next free record, 0 of the last.
    pub fn next(&self) -> u32
        ensures { result ≡ number_at self.now.bytes.now self.now.layout.now.link }
    {
        self.bytes.number(self.layout.link)
    }
}
