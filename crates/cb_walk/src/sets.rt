//! Which DDs of a job are sets, as far as it was read.
ghost use Rattle.std.specs.Prelude.{◌≡◌, ◌+◌, false, length, slice_index_or};
ghost use Rattle.cb_meaning.specs.Walks.{is_earlier_set, with_dds};

use plain::listed::Listed;

/// Whether a DD of a step is a set, counted from 0.
fn is_set_in(dds: &[bool], dd: usize) -> bool
    ensures { result ≡ slice_index_or dds.now dd false }
{
    if dd < dds.len() { dds[dd] } else { false }
}

/// Whether a DD of a job is a set that stands before this one. The steps are those behind which this DD's step stands, the DDs those before it.
pub(crate) fn is_earlier_set(steps: &[Listed<bool>], dds: &[bool], step: u16, dd: u16) -> bool
    ensures { result ≡ is_earlier_set (with_dds steps.now dds.now) (length steps.now + 1) (length dds.now + 1) step dd }
{
    if step < 1 || dd < 1 {
        return false;
    }
    let before = usize::from(step) - 1;
    let dds_before = usize::from(dd) - 1;
    if before < steps.len() {
        is_set_in(steps[before].as_slice(), dds_before)
    } else if before == steps.len() {
        is_set_in(dds, dds_before)
    } else {
        false
    }
}
