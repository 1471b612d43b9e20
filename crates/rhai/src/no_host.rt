//! A value of a host that has none of its own.

use rhai_eval::base::Host;
use std::alloc::{AllocError, Global};

/// What a host names that has no values of its own: one that scripts never see, unless the host hands it
/// in.
#[derive(Clone, Copy, Debug, PartialEq, Eq)]
pub struct NoHost;

impl Host for NoHost {
    ghost use Rattle.std.specs.Prelude.{codes};

    ghost name_of = { λ value. codes "NoHost" };

    fn try_clone(&self, _alloc: Global) -> Result<NoHost, AllocError> {
        Ok(NoHost)
    }

    fn type_name(&self) -> &str {
        "NoHost"
    }
}
