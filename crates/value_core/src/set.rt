//! What a DD statement says of a data set. (DSNAME, DISP and VOLUME parameters)
use crate::reference::DdReference;
use jcl_plan::plan::{ConditionalWord, Status, Word};
use jname_core::ds_name::DsName;
use jname_core::key::Key;
use jname_core::serial::Serial;

/// What DSNAME names.
#[derive(Clone, Copy, PartialEq, Eq)]
pub enum SetName {
    /// NULLFILE, which is no data set.
    Null,
    Of(Key),
    /// The set of an earlier DD.
    OfDd(DdReference),
}

/// The words of DISP.
#[derive(Clone, Copy, PartialEq, Eq)]
pub struct Disposition {
    pub status: Status,
    pub normal: Option<Word>,
    pub conditional: Option<ConditionalWord>,
}

/// The volume that VOLUME names.
#[derive(Clone, Copy, PartialEq, Eq)]
pub enum VolumeName {
    /// None: PRIVATE, RETAIN or counts alone.
    Any,
    Serial(Serial),
    /// That of a data set.
    OfName(DsName),
    /// That of an earlier DD.
    OfDd(DdReference),
}
