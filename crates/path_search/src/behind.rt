//! What is known behind a part while views are led over it.
ghost use Rattle.std.specs.Prelude.{◌≡◌, [], None, IfOk, length};
ghost use Rattle.path_search.specs.Makings.{no_rows};

use crate::stops::Found;
use crate::trail::Link;
use jname_core::serial::Serial;
use plain::listed::Listed;
use std::alloc::{AllocError, Global};
use view_domain::domain::ViewDomain;

/// The views behind a part and a link for each, the earliest stop in the part, and for each DD of the part's step the volumes on which it may make its
/// set.
#[derive(Drop)]
pub struct Behind<Views: Drop> {
    pub views: Views,
    pub links: Listed<Link>,
    pub best: Option<Found>,
    pub made: Vec<Listed<Serial>>,
}

/// No volume for any of so many DDs.
fn no_rows(alloc: Global, dds: usize) -> Result<Vec<Listed<Serial>>, AllocError>
    ensures { IfOk result (λ rows. rows.items ≡ no_rows dds) }
{
    let mut rows = Vec::new(alloc);
    for dd in 0..dds {
        rows.push(Listed::empty(alloc))?;
    }
    Ok(rows)
}

/// Nothing yet, behind the part before this one.
pub(crate) fn nothing_behind<D: ViewDomain>(
    alloc: Global,
    domain: &D,
    part: usize,
    dds: usize,
) -> Result<Behind<D::Views>, AllocError>
    ensures views { IfOk result (λ behind. D.members domain.now behind.views ≡ []) }
    ensures stands { IfOk result (λ behind. D.stands domain.now behind.views ≡ part) }
    ensures links { IfOk result (λ behind. behind.links ≡ []) }
    ensures best { IfOk result (λ behind. behind.best ≡ None) }
    ensures made { IfOk result (λ behind. behind.made.items ≡ no_rows dds) }
{
    let views = domain.none(alloc, part)?;
    let made = no_rows(alloc, dds)?;
    Ok(Behind {
        views,
        links: Listed::empty(alloc),
        best: None,
        made,
    })
}
