//! The store of cells.

ghost use Rattle.std.specs.Prelude.{◌≡◌, ◌<◌, is_ok, length};
ghost use Rattle.std.specs.Option.{option_copied};
ghost use Rattle.rhai_values.specs.Cells.{cells_of, IsHeld, IsNoHandle};

use rhai_values::base::value::{CellId, Dynamic};
use rhai_values::cells::{CellStore, put_back};
use std::alloc::{AllocError, Global};

/// Shows that two calls of `CellStore::new` create stores of equal cells.
pub fn new<H>(alloc: Global) -> (CellStore<H>, CellStore<H>)
    ensures { cells_of result.0 ≡ cells_of result.1 }
{
    (CellStore::new(alloc), CellStore::new(alloc))
}

/// Shows that `CellStore::len` counts equal cells alike.
pub fn len<H>(one: &CellStore<H>, other: &CellStore<H>) -> (usize, usize)
    requires { cells_of one.now ≡ cells_of other.now }
    ensures { result.0 ≡ result.1 }
{
    (one.len(), other.len())
}

/// Shows that `CellStore::get` reads equal values from equal cells.
pub fn get<'a, H>(
    one: &'a CellStore<H>,
    other: &'a CellStore<H>,
    id: CellId,
) -> (Option<&'a Dynamic<H>>, Option<&'a Dynamic<H>>)
    requires { cells_of one.now ≡ cells_of other.now }
    ensures { option_copied result.0 ≡ option_copied result.1 }
{
    (one.get(id), other.get(id))
}

/// Shows that `CellStore::add` answers alike and leaves equal cells, from equal cells and values.
pub fn add<H>(
    one: &mut CellStore<H>,
    other: &mut CellStore<H>,
    value: Dynamic<H>,
    also_value: Dynamic<H>,
) -> (
    Result<CellId, (Dynamic<H>, AllocError)>,
    Result<CellId, (Dynamic<H>, AllocError)>,
)
    requires same { cells_of one.old ≡ cells_of other.old }
    requires value { value ≡ also_value }
    requires no_handle { IsNoHandle value.value }
    ensures result { is_ok result.0 ≡ is_ok result.1 → result.0 ≡ result.1 }
    ensures left { is_ok result.0 ≡ is_ok result.1 → cells_of one.new ≡ cells_of other.new }
{
    (one.add(value), other.add(also_value))
}

/// Shows that `CellStore::take` answers equal values and leaves equal cells, from equal cells.
pub fn take<H>(
    one: &mut CellStore<H>,
    other: &mut CellStore<H>,
    id: CellId,
) -> (Option<Dynamic<H>>, Option<Dynamic<H>>)
    requires { cells_of one.old ≡ cells_of other.old }
    ensures result { result.0 ≡ result.1 }
    ensures left { cells_of one.new ≡ cells_of other.new }
{
    (one.take(id), other.take(id))
}

/// Shows that `cells::put_back` leaves equal cells, from equal cells and values.
pub fn put_back_again<H: Drop>(
    one: &mut CellStore<H>,
    other: &mut CellStore<H>,
    id: CellId,
    value: Dynamic<H>,
    also_value: Dynamic<H>,
)
    requires same { cells_of one.old ≡ cells_of other.old }
    requires value { value ≡ also_value }
    requires known { id.number < length (cells_of one.old) }
    ensures { cells_of one.new ≡ cells_of other.new }
{
    put_back(one, id, value);
    put_back(other, id, also_value);
}

/// Shows that `CellStore::put` leaves equal cells, from equal cells and values.
pub fn put<H: Drop>(
    one: &mut CellStore<H>,
    other: &mut CellStore<H>,
    id: CellId,
    value: Dynamic<H>,
    also_value: Dynamic<H>,
)
    requires same { cells_of one.old ≡ cells_of other.old }
    requires value { value ≡ also_value }
    requires held { IsHeld (cells_of one.old) id.number }
    requires no_handle { IsNoHandle value.value }
    ensures { cells_of one.new ≡ cells_of other.new }
{
    one.put(id, value);
    other.put(id, also_value);
}
