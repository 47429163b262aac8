//! How the views behind each part were reached.
ghost use Rattle.std.specs.Prelude.{◌≡◌, IfOk, length};
ghost use Rattle.path_search.specs.Trails.{link_at, path_at};

use jcl_plan::outcome::{Code, Outcome};
use plain::listed::Listed;
use std::alloc::{AllocError, Global};

/// The first way to a view behind a part: from which view before the part, by its number, and how the part's step comes out on a path.
#[derive(Clone, Copy)]
pub struct Link {
    pub parent: usize,
    pub outcome: Outcome,
}

/// The link of this number.
fn link_at(links: &[Link], number: usize) -> Link
    ensures { result ≡ link_at links.now number }
{
    match links.get(number) {
        Some(link) => *link,
        None => Link {
            parent: 0,
            outcome: Outcome::Code(Code::zero()),
        },
    }
}

/// How the steps come out on the way to a view behind the last of these parts.
pub(crate) fn path_to(
    alloc: Global,
    levels: &[Listed<Link>],
    number: usize,
) -> Result<Vec<Outcome>, AllocError>
    ensures { IfOk result (λ path. path.items ≡ path_at levels.now (length levels.now) number) }
{
    let mut path = Vec::new(alloc);
    let mut at = number;
    let mut left = levels.len();
    while left > 0 {
        left -= 1;
        let link = link_at(levels[left].as_slice(), at);
        path.push(link.outcome)?;
        at = link.parent;
    }
    path.reverse();
    Ok(path)
}
