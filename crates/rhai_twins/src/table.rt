//! A map.

ghost use Rattle.std.specs.Prelude.{◌≡◌, ◌<◌, is_ok, length};
ghost use Rattle.std.specs.Option.{option_copied};

use rhai_tree::{Items, Shared, Table, Text};
use std::alloc::{AllocError, Global};

/// Shows that two calls of `Table::new` make equal maps.
pub fn new<T>(alloc: Global) -> (Table<T>, Table<T>)
    ensures { result.0 ≡ result.1 }
{
    (Table::new(alloc), Table::new(alloc))
}

/// Shows that two calls of `Table::len` on equal maps answer equally.
pub fn len<T>(one: &Table<T>, other: &Table<T>) -> (usize, usize)
    requires { one.now ≡ other.now }
    ensures { result.0 ≡ result.1 }
{
    (one.len(), other.len())
}

/// Shows that two calls of `Table::keys` on equal maps lend equal keys.
pub fn keys<'a, T>(
    one: &'a Table<T>,
    other: &'a Table<T>,
) -> (&'a [Shared<Text>], &'a [Shared<Text>])
    requires { one.now ≡ other.now }
    ensures { result.0.now ≡ result.1.now }
{
    (one.keys(), other.keys())
}

/// Shows that two calls of `Table::values` on equal maps lend equal values.
pub fn values<'a, T>(one: &'a Table<T>, other: &'a Table<T>) -> (&'a [T], &'a [T])
    requires { one.now ≡ other.now }
    ensures { result.0.now ≡ result.1.now }
{
    (one.values(), other.values())
}

/// Shows that two calls of `Table::values_mut` on equal maps leave equal maps, whatever is written
/// to a value.
pub fn values_mut<T: Drop>(
    one: &mut Table<T>,
    other: &mut Table<T>,
    at: usize,
    value: T,
    also_value: T,
)
    requires same { one.old ≡ other.old }
    requires value { value ≡ also_value }
    requires within { at < length one.old.1 }
    ensures { one.new ≡ other.new }
{
    one.values_mut()[at] = value;
    other.values_mut()[at] = also_value;
}

/// Shows that two calls of `Table::with_values` on equal maps with equal values make equal maps.
pub fn with_values<T, U: Drop>(
    one: &Table<T>,
    other: &Table<T>,
    alloc: Global,
    values: Items<U>,
    also_values: Items<U>,
) -> (Result<Table<U>, AllocError>, Result<Table<U>, AllocError>)
    requires same { one.now ≡ other.now }
    requires values { values ≡ also_values }
    requires many { length values ≡ length one.now.0 }
    ensures { is_ok result.0 ≡ is_ok result.1 → result.0 ≡ result.1 }
{
    (
        one.with_values(alloc, values),
        other.with_values(alloc, also_values),
    )
}

/// Shows that two calls of `Table::value_at` on equal maps find equal values.
pub fn value_at<'a, T>(
    one: &'a Table<T>,
    other: &'a Table<T>,
    at: usize,
) -> (Option<&'a T>, Option<&'a T>)
    requires { one.now ≡ other.now }
    ensures { option_copied result.0 ≡ option_copied result.1 }
{
    (one.value_at(at), other.value_at(at))
}

/// Shows that two calls of `Table::find` on equal maps answer equally.
pub fn find<T>(
    one: &Table<T>,
    other: &Table<T>,
    key: &str,
) -> (Result<usize, usize>, Result<usize, usize>)
    requires { one.now ≡ other.now }
    ensures { result.0 ≡ result.1 }
{
    (one.find(key), other.find(key))
}

/// Shows that two calls of `Table::get` on equal maps find equal values.
pub fn get<'a, T>(
    one: &'a Table<T>,
    other: &'a Table<T>,
    key: &str,
) -> (Option<&'a T>, Option<&'a T>)
    requires { one.now ≡ other.now }
    ensures { option_copied result.0 ≡ option_copied result.1 }
{
    (one.get(key), other.get(key))
}

/// Shows that two calls of `Table::value_mut` on equal maps leave equal maps, whatever is written.
pub fn value_mut<T: Drop>(
    one: &mut Table<T>,
    other: &mut Table<T>,
    at: usize,
    value: T,
    also_value: T,
)
    requires same { one.old ≡ other.old }
    requires value { value ≡ also_value }
    requires within { at < length one.old.1 }
    ensures { one.new ≡ other.new }
{
    *one.value_mut(at) = value;
    *other.value_mut(at) = also_value;
}

/// Shows that two calls of `Table::insert` on equal maps with equal entries leave equal maps.
pub fn insert<T: Drop>(
    one: &mut Table<T>,
    other: &mut Table<T>,
    key: Shared<Text>,
    also_key: Shared<Text>,
    value: T,
    also_value: T,
) -> (Result<(), AllocError>, Result<(), AllocError>)
    requires same { one.old ≡ other.old }
    requires key { key ≡ also_key }
    requires value { value ≡ also_value }
    ensures { is_ok result.0 ≡ is_ok result.1 → one.new ≡ other.new }
{
    (one.insert(key, value), other.insert(also_key, also_value))
}
