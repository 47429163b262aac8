//! The laws of paths that the analysis rests on.
ghost use Rattle.path_search.specs.PathLaws.{PathLaws};

use path_laws::{
    agenda_has, are_few, fits_before, made_by_step, none_made_at_end, path_begins, path_ends,
    path_goes_on, path_sees, stands_before, tells_fates,
};

/// The laws of paths, together.
pub(crate) fn path_laws()
    ensures { PathLaws }
{
    path_goes_on();
    path_ends();
    path_begins();
    agenda_has();
    stands_before();
    fits_before();
    tells_fates();
    path_sees();
    are_few();
    made_by_step();
    none_made_at_end();
}
