//! The DDs of a step that a request goes to: the first of its name and those that continue a concatenation. (This profile)
ghost use Rattle.std.specs.Prelude.{◌≡◌, ◌≤◌, ◌-◌, ◌<◌, drop, length, take};
ghost use Rattle.jcl_meaning.specs.Programs.{dd_of, is_continued, is_named, members_at};

use jcl_plan::plan::DdPlan;
use jname_core::name8::Name8;

/// Whether a DD has this name.
fn is_named(name: &Name8, dd: &DdPlan) -> bool
    ensures { result ≡ is_named name.now dd.now }
{
    match &dd.name {
        None => false,
        Some(own) => own.as_slice() == name.as_slice(),
    }
}

/// The first DD of a name, from 0.
pub(crate) fn dd_of(dds: &[DdPlan], name: &Name8) -> Option<usize>
    ensures { result ≡ dd_of dds.now name.now }
{
    dds.iter().position(|dd| is_named(name, dd))
}

/// Whether a DD continues the concatenation of the one before.
pub(crate) fn is_continued(dd: &DdPlan) -> bool
    ensures { result ≡ is_continued dd.now.name }
{
    dd.name.is_none()
}

/// The first DD after this one that does not continue its concatenation, or the number of the DDs.
pub(crate) fn members_end(dds: &[DdPlan], dd: usize) -> usize
    requires { dd < length dds.now }
    ensures members { take (result - dd) (drop dd dds.now) ≡ members_at (drop dd dds.now) }
    ensures within { (dd < result) × (result ≤ length dds.now) }
{
    for next in dd + 1..dds.len() {
        if !is_continued(&dds[next]) {
            return next;
        }
    }
    dds.len()
}
