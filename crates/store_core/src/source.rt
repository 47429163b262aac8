//! The DDs that a request goes to: a DD and those that continue its concatenation. (This profile)
ghost use Rattle.std.specs.Prelude.{◌≡◌, ◌<◌, drop, length};
ghost use Rattle.jcl_meaning.specs.Programs.{is_concatenated};
ghost use Rattle.job_text.specs.Places.{step_at};

use job_text::text::JobText;

/// Whether a DD and those that continue it are several. Steps and DDs count from 0.
pub fn is_concatenated<T: JobText>(text: &T, step: usize, dd: usize) -> bool
    requires reads { T.reads text.now }
    requires step { step < length (T.plan text.now).steps }
    requires dd { dd < length (step_at (T.plan text.now).steps step).dds }
    ensures { result ≡ is_concatenated (drop dd (step_at (T.plan text.now).steps step).dds) }
{
    let count = text.dd_count(step);
    let next = dd + 1;
    if next < count {
        text.continues(step, next)
    } else {
        false
    }
}
