//! Scopes.

ghost use Rattle.std.specs.Prelude.{◌≡◌, ◌<◌, is_ok, length, string_bytes};
ghost use Rattle.std.specs.Option.{option_map};
ghost use Rattle.rhai_state.specs.Scope.{entries_of, shown_entry, Fits};

use rhai_state::scope;
use rhai_state::scope::{Scope, ScopeEntry};
use rhai_state::slot::Slot;
use rhai_tree::{Items, Shared, Text};
use rhai_values::base::value::{AccessMode, Dynamic};
use std::alloc::{AllocError, Global};
use std::num::NonZeroUsize;

/// Shows that two calls of `Scope::new` create scopes of equal entries.
pub fn new<H>(alloc: Global) -> (Scope<H>, Scope<H>)
    ensures { entries_of result.0 ≡ entries_of result.1 }
{
    (Scope::new(alloc), Scope::new(alloc))
}

/// Shows that `Scope::len` counts equal entries alike.
pub fn len<H>(one: &Scope<H>, other: &Scope<H>) -> (usize, usize)
    requires { entries_of one.now ≡ entries_of other.now }
    ensures { result.0 ≡ result.1 }
{
    (one.len(), other.len())
}

/// Shows that `Scope::is_empty` answers alike for equal entries.
pub fn is_empty<H>(one: &Scope<H>, other: &Scope<H>) -> (bool, bool)
    requires { entries_of one.now ≡ entries_of other.now }
    ensures { result.0 ≡ result.1 }
{
    (one.is_empty(), other.is_empty())
}

/// Shows that `Scope::entries` answers equal entries for equal ones.
pub fn entries<'a, H>(
    one: &'a Scope<H>,
    other: &'a Scope<H>,
) -> (&'a [ScopeEntry<H>], &'a [ScopeEntry<H>])
    requires { entries_of one.now ≡ entries_of other.now }
    ensures { result.0.now ≡ result.1.now }
{
    (one.entries(), other.entries())
}

/// Shows that `Scope::contains` answers alike for equal entries.
pub fn contains<H>(one: &Scope<H>, other: &Scope<H>, name: &str) -> (bool, bool)
    requires { entries_of one.now ≡ entries_of other.now }
    ensures { result.0 ≡ result.1 }
{
    (one.contains(name), other.contains(name))
}

/// Shows that `Scope::search` finds one index in equal entries.
pub fn search<H>(one: &Scope<H>, other: &Scope<H>, name: &str) -> (Option<usize>, Option<usize>)
    requires { entries_of one.now ≡ entries_of other.now }
    ensures { result.0 ≡ result.1 }
{
    (one.search(name), other.search(name))
}

/// Shows that `Scope::place_of` finds one index in equal entries.
pub fn place_of<H>(
    one: &Scope<H>,
    other: &Scope<H>,
    offset: Option<NonZeroUsize>,
    name: &str,
) -> (Option<usize>, Option<usize>)
    requires same { entries_of one.now ≡ entries_of other.now }
    requires fits { Fits offset (length (entries_of one.now)) }
    ensures { result.0 ≡ result.1 }
{
    (one.place_of(offset, name), other.place_of(offset, name))
}

/// Shows that `Scope::get` reads equal parts from equal entries.
pub fn get<'a, H>(
    one: &'a Scope<H>,
    other: &'a Scope<H>,
    index: usize,
) -> (
    Option<(&'a str, &'a Dynamic<H>, &'a [Shared<Text>])>,
    Option<(&'a str, &'a Dynamic<H>, &'a [Shared<Text>])>,
)
    requires { entries_of one.now ≡ entries_of other.now }
    ensures { option_map shown_entry result.0 ≡ option_map shown_entry result.1 }
{
    (one.get(index), other.get(index))
}

/// Shows that `Scope::value_at` reads equal values from equal entries.
pub fn value_at<'a, H>(
    one: &'a Scope<H>,
    other: &'a Scope<H>,
    index: usize,
) -> (&'a Dynamic<H>, &'a Dynamic<H>)
    requires same { entries_of one.now ≡ entries_of other.now }
    requires within { index < length (entries_of one.now) }
    ensures { result.0.now ≡ result.1.now }
{
    (one.value_at(index), other.value_at(index))
}

/// Shows that `Scope::exchange` answers equal entries and leaves equal scopes, from equal entries.
pub fn exchange<H: Drop>(
    one: &mut Scope<H>,
    other: &mut Scope<H>,
    entries: Items<ScopeEntry<H>>,
    also_entries: Items<ScopeEntry<H>>,
) -> (Items<ScopeEntry<H>>, Items<ScopeEntry<H>>)
    requires same { entries_of one.old ≡ entries_of other.old }
    requires entries { entries ≡ also_entries }
    ensures result { result.0 ≡ result.1 }
    ensures scope { one.new ≡ other.new }
{
    (one.exchange(entries), other.exchange(also_entries))
}

/// Shows that `scope::push_variable` leaves equal entries, from equal entries, names and values.
pub fn push_variable<H: Drop>(
    one: &mut Items<ScopeEntry<H>>,
    other: &mut Items<ScopeEntry<H>>,
    name: Shared<Text>,
    also_name: Shared<Text>,
    value: Dynamic<H>,
    also_value: Dynamic<H>,
) -> (Result<(), AllocError>, Result<(), AllocError>)
    requires same { one.old ≡ other.old }
    requires name { name ≡ also_name }
    requires value { value ≡ also_value }
    ensures { is_ok result.0 ≡ is_ok result.1 → one.new ≡ other.new }
{
    (
        scope::push_variable(one, name, value),
        scope::push_variable(other, also_name, also_value),
    )
}

/// Shows that `scope::push_integer` leaves equal entries, from equal entries and names.
pub fn push_integer<H: Drop>(
    one: &mut Items<ScopeEntry<H>>,
    other: &mut Items<ScopeEntry<H>>,
    name: Shared<Text>,
    also_name: Shared<Text>,
    number: i64,
) -> (Result<(), AllocError>, Result<(), AllocError>)
    requires same { one.old ≡ other.old }
    requires name { name ≡ also_name }
    ensures { is_ok result.0 ≡ is_ok result.1 → one.new ≡ other.new }
{
    (
        scope::push_integer(one, name, number),
        scope::push_integer(other, also_name, number),
    )
}

/// Shows that `Scope::value_at_mut` leaves equal entries, from equal entries, whatever equal values are
/// written.
pub fn value_at_mut<H: Drop>(
    one: &mut Scope<H>,
    other: &mut Scope<H>,
    index: usize,
    value: Dynamic<H>,
    also_value: Dynamic<H>,
)
    requires same { entries_of one.old ≡ entries_of other.old }
    requires value { value ≡ also_value }
    requires within { index < length (entries_of one.old) }
    ensures { entries_of one.new ≡ entries_of other.new }
{
    *one.value_at_mut(index) = value;
    *other.value_at_mut(index) = also_value;
}

/// Shows that `Scope::replace_value` answers equal values and leaves equal entries, from equal entries
/// and values.
pub fn replace_value<H>(
    one: &mut Scope<H>,
    other: &mut Scope<H>,
    index: usize,
    value: Dynamic<H>,
    also_value: Dynamic<H>,
) -> (Dynamic<H>, Dynamic<H>)
    requires same { entries_of one.old ≡ entries_of other.old }
    requires value { value ≡ also_value }
    requires within { index < length (entries_of one.old) }
    ensures result { result.0 ≡ result.1 }
    ensures left { entries_of one.new ≡ entries_of other.new }
{
    (
        one.replace_value(index, value),
        other.replace_value(index, also_value),
    )
}

/// Shows that `Scope::push_entry` leaves equal entries, from equal entries, names and values.
pub fn push_entry<H: Drop>(
    one: &mut Scope<H>,
    other: &mut Scope<H>,
    name: String,
    also_name: String,
    mode: AccessMode,
    value: Dynamic<H>,
    also_value: Dynamic<H>,
) -> (Result<(), AllocError>, Result<(), AllocError>)
    requires same { entries_of one.old ≡ entries_of other.old }
    requires name { string_bytes name ≡ string_bytes also_name }
    requires value { value ≡ also_value }
    ensures { is_ok result.0 ≡ is_ok result.1 → entries_of one.new ≡ entries_of other.new }
{
    (
        one.push_entry(name, mode, value),
        other.push_entry(also_name, mode, also_value),
    )
}

/// Shows that `Scope::push_shared` leaves equal entries, from equal entries, names and values.
pub fn push_shared<H: Drop>(
    one: &mut Scope<H>,
    other: &mut Scope<H>,
    name: Shared<Text>,
    also_name: Shared<Text>,
    mode: AccessMode,
    value: Dynamic<H>,
    also_value: Dynamic<H>,
) -> (Result<(), AllocError>, Result<(), AllocError>)
    requires same { entries_of one.old ≡ entries_of other.old }
    requires name { name ≡ also_name }
    requires value { value ≡ also_value }
    ensures { is_ok result.0 ≡ is_ok result.1 → entries_of one.new ≡ entries_of other.new }
{
    (
        one.push_shared(name, mode, value),
        other.push_shared(also_name, mode, also_value),
    )
}

/// Shows that `Scope::add_alias` leaves equal entries, from equal entries and aliases.
pub fn add_alias<H: Drop>(
    one: &mut Scope<H>,
    other: &mut Scope<H>,
    index: usize,
    alias: Shared<Text>,
    also_alias: Shared<Text>,
) -> (Result<(), AllocError>, Result<(), AllocError>)
    requires same { entries_of one.old ≡ entries_of other.old }
    requires known { index < length (entries_of one.old) }
    requires also_known { index < length (entries_of other.old) }
    requires alias { alias ≡ also_alias }
    ensures { is_ok result.0 ≡ is_ok result.1 → entries_of one.new ≡ entries_of other.new }
{
    (
        one.add_alias(index, alias),
        other.add_alias(index, also_alias),
    )
}

/// Shows that `Scope::truncate_aliases` leaves equal entries, from equal entries.
pub fn truncate_aliases<H: Drop>(one: &mut Scope<H>, other: &mut Scope<H>, index: usize, len: usize)
    requires same { entries_of one.old ≡ entries_of other.old }
    requires known { index < length (entries_of one.old) }
    requires also_known { index < length (entries_of other.old) }
    ensures { entries_of one.new ≡ entries_of other.new }
{
    one.truncate_aliases(index, len);
    other.truncate_aliases(index, len);
}

/// Shows that `Scope::rewind` leaves equal entries, from equal entries.
pub fn rewind<H: Drop>(one: &mut Scope<H>, other: &mut Scope<H>, len: usize)
    requires { entries_of one.old ≡ entries_of other.old }
    ensures { entries_of one.new ≡ entries_of other.new }
{
    one.rewind(len);
    other.rewind(len);
}

/// Shows that `Scope::remove_range` leaves equal entries, from equal entries.
pub fn remove_range<H: Drop>(one: &mut Scope<H>, other: &mut Scope<H>, start: usize, len: usize)
    requires { entries_of one.old ≡ entries_of other.old }
    ensures { entries_of one.new ≡ entries_of other.new }
{
    one.remove_range(start, len);
    other.remove_range(start, len);
}

/// Shows that `Scope::spare_mut` leaves equal scopes, from equal scopes, whatever equal values are
/// written.
pub fn spare_mut<H: Drop>(
    one: &mut Scope<H>,
    other: &mut Scope<H>,
    value: Dynamic<H>,
    also_value: Dynamic<H>,
)
    requires { one.old ≡ other.old }
    ensures { one.new ≡ other.new }
{
    *one.spare_mut() = value;
    *other.spare_mut() = also_value;
}

/// Shows that `Slot::lend` leaves equal slots, from equal slots, whatever equal values are written.
pub fn lend<H: Drop>(
    one: &mut Slot<H>,
    other: &mut Slot<H>,
    value: Dynamic<H>,
    also_value: Dynamic<H>,
)
    requires { one.old ≡ other.old }
    ensures { one.new ≡ other.new }
{
    *one.lend() = value;
    *other.lend() = also_value;
}
