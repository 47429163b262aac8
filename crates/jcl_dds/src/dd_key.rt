//! Which keyword of a DD a key is.
ghost use Rattle.std.specs.Prelude.{◌≡◌};
ghost use Rattle.jcl_dds.specs.DdKeys.{dd_key};

use jcl_cards::rules::is_same;

/// A keyword of a DD, or none of them.
#[derive(Clone, Copy)]
pub(crate) enum DdKey {
    /// DSN or DSNAME.
    SetName,
    /// DISP.
    Disposition,
    /// UNIT.
    Unit,
    /// VOL or VOLUME.
    Volume,
    /// SPACE.
    Space,
    /// SYSOUT.
    Sysout,
    /// DDNAME.
    DdName,
    /// LABEL.
    Label,
    /// DCB.
    ControlBlocks,
    /// UCS.
    CharacterSet,
    /// FCB.
    FormsControl,
    /// OUTLIM.
    OutputLimit,
    /// A key that a DD does not take.
    Other,
}

/// The keyword that a key is.
pub(crate) fn dd_key(key: &[u8]) -> DdKey
    ensures { result ≡ dd_key key.now }
{
    if is_same(key, b"DSN") || is_same(key, b"DSNAME") {
        DdKey::SetName
    } else if is_same(key, b"DISP") {
        DdKey::Disposition
    } else if is_same(key, b"UNIT") {
        DdKey::Unit
    } else if is_same(key, b"VOL") || is_same(key, b"VOLUME") {
        DdKey::Volume
    } else if is_same(key, b"SPACE") {
        DdKey::Space
    } else if is_same(key, b"SYSOUT") {
        DdKey::Sysout
    } else if is_same(key, b"DDNAME") {
        DdKey::DdName
    } else if is_same(key, b"LABEL") {
        DdKey::Label
    } else if is_same(key, b"DCB") {
        DdKey::ControlBlocks
    } else if is_same(key, b"UCS") {
        DdKey::CharacterSet
    } else if is_same(key, b"FCB") {
        DdKey::FormsControl
    } else if is_same(key, b"OUTLIM") {
        DdKey::OutputLimit
    } else {
        DdKey::Other
    }
}
