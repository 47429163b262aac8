//! The faults that are told of a DD's keywords.
ghost use Rattle.std.specs.Prelude.{◌≡◌};
ghost use Rattle.jcl_dds.specs.DdFaults.{told_of};

use jcl_plan::fault::Cause;
use operand_core::fault::earlier;

/// The fault that is told of each keyword's values, and that of keywords which a DD does not take.
#[derive(Clone, Copy)]
pub(crate) struct DdFaults {
    pub(crate) set_name: Option<Cause>,
    pub(crate) disposition: Option<Cause>,
    pub(crate) unit: Option<Cause>,
    pub(crate) volume: Option<Cause>,
    pub(crate) space: Option<Cause>,
    pub(crate) sysout: Option<Cause>,
    pub(crate) dd_name: Option<Cause>,
    pub(crate) label: Option<Cause>,
    pub(crate) control_blocks: Option<Cause>,
    pub(crate) unknown: Option<Cause>,
}

impl DdFaults {
    /// Of all of them the one that is told.
    pub(crate) fn told(&self) -> Option<Cause>
        ensures { result ≡ told_of self.now }
    {
        let set = earlier(self.set_name, self.disposition);
        let device = earlier(earlier(set, self.unit), self.volume);
        let placed = earlier(earlier(device, self.space), self.sysout);
        let named = earlier(earlier(placed, self.dd_name), self.label);
        earlier(earlier(named, self.control_blocks), self.unknown)
    }
}
