//! The values of a DD's keywords.
ghost use Rattle.std.specs.Prelude.{◌≡◌};
ghost use Rattle.std.specs.Option.{option_copied};
ghost use Rattle.operand_core.specs.Subparameters.{first_place, subparameters_of};
ghost use Rattle.operand_core.specs.Values.{class_of};
ghost use Rattle.jcl_cards.specs.Keywords.{coded_text};
ghost use Rattle.jcl_dds.specs.DdCards.{any_text, is_sysout};
ghost use Rattle.jcl_dds.specs.Dds.{coding};

use jcl_cards::coded::Coded;
use jcl_cards::rules::{Spelling, is_key};
use jcl_cards::value_in::ValueReader;
use jcl_plan::fault::{Cause, StatementFault};
use jcl_plan::plan::{Expiry, Space};
use jname_core::name8::{Name8, UnitName};
use operand_core::operand::Keyword;
use operand_core::subparameter::{first_subparameter, subparameter_count};
use operand_core::value::{class_of, is_output_class};
use value_core::disposition::disposition;
use value_core::label::label;
use value_core::reads::name as read_name;
use value_core::set::{Disposition, SetName, VolumeName};
use value_core::set_name::set_name;
use value_core::space::space;
use value_core::unit::unit;
use value_core::volume_name::volume_name;

/// DSNAME.
pub(crate) struct OfSetName;

impl ValueReader for OfSetName {
    ghost use Rattle.value_core.specs.SetNames.{set_name};

    type Value = SetName;

    ghost reads = { set_name };

    fn read(text: &[u8]) -> Result<SetName, Cause> {
        set_name(text)
    }
}

/// DISP.
pub(crate) struct OfDisposition;

impl ValueReader for OfDisposition {
    ghost use Rattle.value_core.specs.Dispositions.{disposition};

    type Value = Disposition;

    ghost reads = { disposition };

    fn read(text: &[u8]) -> Result<Disposition, Cause> {
        disposition(text)
    }
}

/// UNIT.
pub(crate) struct OfUnit;

impl ValueReader for OfUnit {
    ghost use Rattle.value_core.specs.Units.{unit};

    type Value = UnitName;

    ghost reads = { unit };

    fn read(text: &[u8]) -> Result<UnitName, Cause> {
        unit(text)
    }
}

/// VOLUME.
pub(crate) struct OfVolume;

impl ValueReader for OfVolume {
    ghost use Rattle.value_core.specs.VolumeNames.{volume_name};

    type Value = VolumeName;

    ghost reads = { volume_name };

    fn read(text: &[u8]) -> Result<VolumeName, Cause> {
        volume_name(text)
    }
}

/// SPACE.
pub(crate) struct OfSpace;

impl ValueReader for OfSpace {
    ghost use Rattle.value_core.specs.Spaces.{space};

    type Value = Space;

    ghost reads = { space };

    fn read(text: &[u8]) -> Result<Space, Cause> {
        space(text)
    }
}

/// SYSOUT.
pub(crate) struct OfSysout;

impl ValueReader for OfSysout {
    ghost use Rattle.jcl_dds.specs.DdCards.{sysout};

    type Value = u8;

    ghost reads = { sysout };

    fn read(text: &[u8]) -> Result<u8, Cause> {
        if is_sysout(text) {
            Ok(class_of(Some(first_subparameter(text))))
        } else {
            Err(Cause::P(StatementFault::BadValue))
        }
    }
}

/// DDNAME.
pub(crate) struct OfDdName;

impl ValueReader for OfDdName {
    ghost use Rattle.jcl_dds.specs.DdCards.{dd_name};

    type Value = Name8;

    ghost reads = { dd_name };

    fn read(text: &[u8]) -> Result<Name8, Cause> {
        read_name(text)
    }
}

/// LABEL.
pub(crate) struct OfLabel;

impl ValueReader for OfLabel {
    ghost use Rattle.value_core.specs.Labels.{label};

    type Value = Expiry;

    ghost reads = { label };

    fn read(text: &[u8]) -> Result<Expiry, Cause> {
        label(text)
    }
}

/// Whether a value begins with a class, and has at most three places.
fn is_sysout(text: &[u8]) -> bool
    ensures { result ≡ is_sysout text.now }
{
    is_output_class(first_subparameter(text)) && subparameter_count(text) <= 3
}

/// Whether a value is coded.
pub(crate) fn coding_of(value: Option<&[u8]>) -> Coded<()>
    ensures { result ≡ (coded_text any_text (option_copied value.entry)).value }
{
    match value {
        None => Coded::NotGiven,
        Some([]) => Coded::Nullified,
        Some(_) => Coded::Value(()),
    }
}

/// Whether a DD codes a keyword, whose value is not looked at.
pub(crate) fn coding(keywords: &[Keyword<'_>], key: &[u8]) -> Coded<()>
    ensures { result ≡ coding key.now keywords.now }
{
    for keyword in keywords {
        if is_key(Spelling::Two, keyword.key(), key) {
            return coding_of(keyword.value());
        }
    }
    Coded::NotGiven
}
