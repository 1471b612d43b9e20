//! The bench's own type of values.

ghost use Rattle.std.specs.Prelude.{codes};

use rhai_values::base::value::Host;
use std::alloc::{AllocError, Global};

/// The bench's own type of values: two numbers.
#[derive(Clone, Copy, Debug, PartialEq, Eq)]
pub struct Pair(pub i64, pub i64);

impl Host for Pair {
    ghost name_of = { λ p. codes "Pair" };

    fn try_clone(&self, _alloc: Global) -> Result<Pair, AllocError> {
        Ok(*self)
    }

    fn type_name(&self) -> &str {
        "Pair"
    }
}
