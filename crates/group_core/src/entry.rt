//! What a catalog has for a name.
use crate::group::Group;
use jname_core::serial::Serial;

/// An entry of the catalog.
#[derive(Clone, Drop)]
pub enum CatEntry {
    /// The volume of the set of that name.
    Volume(Serial),
    /// The name is a group's base.
    Group(Group),
}
