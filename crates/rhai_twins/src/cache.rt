//! What a lookup came to.

ghost use Rattle.std.specs.Prelude.{◌≡◌};

use rhai_functions::function::Function;
use rhai_lookups::cache::Kept;

/// Shows that `Kept::into_found` gives equal functions of equal lookups.
pub fn into_found<H: Drop>(
    kept: (Kept<H>, Kept<H>),
) -> ((Option<Function<H>>, bool), (Option<Function<H>>, bool))
    requires { kept.0 ≡ kept.1 }
    ensures { result.0 ≡ result.1 }
{
    (kept.0.into_found(), kept.1.into_found())
}
