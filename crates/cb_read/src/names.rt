//! Names as their fields have them, with blanks behind.
ghost use Rattle.std.specs.Prelude.{◌≡◌};
ghost use Rattle.jname_core.specs.Grammar.{IsDsNameWithin, IsName8, IsSerial};
ghost use Rattle.jcl_plan.specs.Texts.{trimmed};
ghost use Rattle.cb_meaning.specs.Readings.{name_read};
ghost use Rattle.cb_meaning.specs.Writable.{IsName};

use cb_walk::texts::{is_blank, trimmed};
use jname_core::ds_name::DsName;
use jname_core::name8::Name8;
use jname_core::serial::Serial;

/// The name of a field that holds one.
pub fn name8(text: &[u8]) -> Name8
    requires { IsName8 (trimmed text.now) }
    ensures { result ≡ trimmed text.now }
{
    Name8::of(trimmed(text))
}

/// A name, or none of a blank field.
pub fn name_read(text: &[u8]) -> Option<Name8>
    requires { IsName (name_read text.now) }
    ensures { result ≡ name_read text.now }
{
    if is_blank(text) {
        None
    } else {
        Some(name8(text))
    }
}

/// The data set name of a field that holds one.
pub(crate) fn ds_name(text: &[u8]) -> DsName
    requires { IsDsNameWithin 44 (trimmed text.now) }
    ensures { result ≡ trimmed text.now }
{
    DsName::of(trimmed(text))
}

/// The base of a group, of a field that holds one.
pub(crate) fn base(text: &[u8]) -> DsName
    requires { IsDsNameWithin 35 (trimmed text.now) }
    ensures { result ≡ trimmed text.now }
{
    DsName::of_base(trimmed(text))
}

/// The serial of a field that holds one.
pub(crate) fn serial(text: &[u8]) -> Serial
    requires { IsSerial (trimmed text.now) }
    ensures { result ≡ trimmed text.now }
{
    Serial::of(trimmed(text))
}
