//! What types say of their values. These functions do nothing.
ghost use Rattle.config_core.specs.Configured.{IsName};

use jname_core::ds_name::DsName;

/// A name of a data set has at most 44 characters, and the number of a generation at most four digits.
pub(crate) fn is_name(name: &DsName)
    ensures { IsName name.now }
{
    let _ = name.as_slice();
    let _ = name.generation_of();
}
