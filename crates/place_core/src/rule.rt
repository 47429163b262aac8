//! On which volumes a DD's set may be placed.
ghost use Rattle.std.specs.Prelude.{◌≡◌, Some};
ghost use Rattle.world_meaning.specs.Admissions.{primary_asked};
ghost use Rattle.world_meaning.specs.Placements.{places};
ghost use Rattle.world_meaning.specs.Placements.{unit_volumes};

use jcl_plan::plan::{DdKind, Status, VolumePlan};
use jname_core::serial::Serial;
use plain::listed::Listed;
use store_core::take::primary_of;

/// Whether a DD with this status and this way to its volume is placed.
pub(crate) fn is_placed(status: Status, volume: &VolumePlan) -> bool
    ensures { result ≡ places status volume.now }
{
    match status {
        Status::New => true,
        Status::Old => false,
        Status::Shr => false,
        Status::Mod => match volume {
            VolumePlan::NotCoded => true,
            VolumePlan::Serial(_) => false,
            VolumePlan::OfName(_) => false,
            VolumePlan::OfDd { .. } => false,
        },
    }
}

/// The volumes of a unit name by its number from 1; without one all.
pub(crate) fn unit_volumes<'a>(
    all: &'a [Serial],
    units: &'a [Listed<Serial>],
    number: Option<u16>,
) -> &'a [Serial]
    ensures { result.now ≡ unit_volumes all.now units.now number }
{
    let Some(number) = number else {
        return all;
    };
    match units.get(usize::from(number.saturating_sub(1))) {
        Some(list) => list.as_slice(),
        None => &[],
    }
}

/// The primary that a DD asks for.
pub(crate) fn primary_asked(kind: &DdKind) -> u16
    ensures { result ≡ primary_asked (Some kind.now) }
{
    match kind {
        DdKind::Set(plan) => primary_of(&plan.space),
        DdKind::Sysout(_) => 0,
        DdKind::Dummy => 0,
        DdKind::Cards(_) => 0,
    }
}
