//! A table of natives, whatever it is: two that are in the same state answer the same.

ghost use Rattle.std.specs.Prelude.{◌≡◌};
ghost use Rattle.rhai_errors.specs.Native.{reply_of, HasNoHandle};
ghost use Rattle.rhai_twins.specs.Replies.{BothAnswer};

use rhai_errors::table::{Answer, NativeTable};
use rhai_tree::literal::NativeId;
use rhai_tree::position::Position;
use rhai_values::base::value::{Dynamic, Host};
use rhai_values::cells::CellStore;

/// Shows that `NativeTable::call` on equal first arguments answers alike, and leaves equal arguments and
/// states.
pub fn call<H: Host, T: NativeTable<H>>(
    one: &mut T,
    other: &mut T,
    cells: &CellStore<H>,
    name: &str,
    first: &mut Dynamic<H>,
    also_first: &mut Dynamic<H>,
    rest: &[Dynamic<H>],
    position: Position,
) -> (Answer<H>, Answer<H>)
    requires same { T.state one.old ≡ T.state other.old }
    requires first { first.old ≡ also_first.old }
    requires no_handle { HasNoHandle (Some first.old) }
    ensures reply { BothAnswer result.0 result.1 → reply_of result.0 ≡ reply_of result.1 }
    ensures first { BothAnswer result.0 result.1 → first.new ≡ also_first.new }
    ensures left { BothAnswer result.0 result.1 → T.state one.new ≡ T.state other.new }
{
    (
        one.call(cells, name, Some(first), rest, position),
        other.call(cells, name, Some(also_first), rest, position),
    )
}

/// Shows that `NativeTable::call_numbered` on equal first arguments answers alike, and leaves equal
/// arguments and states.
pub fn call_numbered<H: Host, T: NativeTable<H>>(
    one: &mut T,
    other: &mut T,
    cells: &CellStore<H>,
    id: NativeId,
    first: &mut Dynamic<H>,
    also_first: &mut Dynamic<H>,
    rest: &[Dynamic<H>],
    position: Position,
) -> (Answer<H>, Answer<H>)
    requires same { T.state one.old ≡ T.state other.old }
    requires first { first.old ≡ also_first.old }
    requires no_handle { HasNoHandle (Some first.old) }
    ensures reply { BothAnswer result.0 result.1 → reply_of result.0 ≡ reply_of result.1 }
    ensures first { BothAnswer result.0 result.1 → first.new ≡ also_first.new }
    ensures left { BothAnswer result.0 result.1 → T.state one.new ≡ T.state other.new }
{
    (
        one.call_numbered(cells, id, Some(first), rest, position),
        other.call_numbered(cells, id, Some(also_first), rest, position),
    )
}

/// Shows that `NativeTable::is_pure` answers alike for tables in equal states.
pub fn is_pure<H: Host, T: NativeTable<H>>(
    one: &T,
    other: &T,
    name: &str,
    first_type: &str,
    count: usize,
) -> (bool, bool)
    requires { T.state one.now ≡ T.state other.now }
    ensures { result.0 ≡ result.1 }
{
    (
        one.is_pure(name, first_type, count),
        other.is_pure(name, first_type, count),
    )
}

/// Shows that `NativeTable::is_pure_numbered` answers alike for tables in equal states.
pub fn is_pure_numbered<H: Host, T: NativeTable<H>>(
    one: &T,
    other: &T,
    id: NativeId,
) -> (bool, bool)
    requires { T.state one.now ≡ T.state other.now }
    ensures { result.0 ≡ result.1 }
{
    (one.is_pure_numbered(id), other.is_pure_numbered(id))
}
