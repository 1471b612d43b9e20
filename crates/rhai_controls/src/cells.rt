//! A contract of `rhai_values`.

ghost use Rattle.std.specs.Prelude.{◌≡◌};
ghost use Rattle.rhai_values.specs.Cells.{cells_of, value_of_cell, with_held};

use rhai_values::base::value::{CellId, Dynamic};
use rhai_values::cells::CellStore;

/// `CellStore::take` by its contract.
pub trait Takes<H> {
    fn take(store: &mut CellStore<H>, id: CellId) -> Option<Dynamic<H>>
        ensures value { result ≡ value_of_cell (cells_of store.old) id.number }
        ensures held { cells_of store.new ≡ with_held (cells_of store.old) id.number };
}

/// Shows that two calls of `CellStore::take` on equal stores take equal values and leave equal
/// cells.
pub fn take<H, S: Takes<H>>(
    one: &mut CellStore<H>,
    other: &mut CellStore<H>,
    id: CellId,
) -> (Option<Dynamic<H>>, Option<Dynamic<H>>)
    requires { cells_of one.old ≡ cells_of other.old }
    ensures result { result.0 ≡ result.1 }
    ensures left { cells_of one.new ≡ cells_of other.new }
{
    (S::take(one, id), S::take(other, id))
}
