//! Whether two refusals are the same.
ghost use Rattle.std.specs.Prelude.{◌≡◌, ◌≢◌, true, false};

use jcl_plan::fault::Cause;

/// Whether two refusals are the same.
pub(crate) fn is_same(a: Cause, b: Cause) -> bool
    ensures same { result ≡ true → a ≡ b }
    ensures other { result ≡ false → a ≢ b }
{
    a == b
}
