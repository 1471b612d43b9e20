//! A list.

ghost use Rattle.std.specs.Prelude.{◌≡◌, ◌<◌, ◌≤◌, is_ok, length, IfOk, IfErr};
ghost use Rattle.std.specs.Option.{option_copied};

use rhai_tree::Items;
use std::alloc::{AllocError, AllocFailed, Global};

/// Shows that two calls of `Items::new` make equal lists.
pub fn new<T>(alloc: Global) -> (Items<T>, Items<T>)
    ensures { result.0 ≡ result.1 }
{
    (Items::new(alloc), Items::new(alloc))
}

/// Shows that two calls of `Items::from_vec` with equal items make equal lists.
pub fn from_vec<T>(items: Vec<T>, also_items: Vec<T>) -> (Items<T>, Items<T>)
    requires { items.items ≡ also_items.items }
    ensures { result.0 ≡ result.1 }
{
    (Items::from_vec(items), Items::from_vec(also_items))
}

/// Shows that two calls of `Items::into_vec` on equal lists give equal items.
pub fn into_vec<T>(one: Items<T>, other: Items<T>) -> (Vec<T>, Vec<T>)
    requires { one ≡ other }
    ensures { result.0.items ≡ result.1.items }
{
    (one.into_vec(), other.into_vec())
}

/// Shows that two calls of `Items::as_slice` on equal lists lend equal items.
pub fn as_slice<'a, T>(one: &'a Items<T>, other: &'a Items<T>) -> (&'a [T], &'a [T])
    requires { one.now ≡ other.now }
    ensures { result.0.now ≡ result.1.now }
{
    (one.as_slice(), other.as_slice())
}

/// Shows that two calls of `Items::as_mut_slice` on equal lists leave equal lists, whatever is
/// written to an item.
pub fn as_mut_slice<T: Drop>(
    one: &mut Items<T>,
    other: &mut Items<T>,
    at: usize,
    item: T,
    also_item: T,
)
    requires same { one.old ≡ other.old }
    requires item { item ≡ also_item }
    requires within { at < length one.old }
    ensures { one.new ≡ other.new }
{
    one.as_mut_slice()[at] = item;
    other.as_mut_slice()[at] = also_item;
}

/// Shows that two calls of `Items::at_mut` on equal lists leave equal lists, whatever is written.
pub fn at_mut<T: Drop>(one: &mut Items<T>, other: &mut Items<T>, at: usize, item: T, also_item: T)
    requires same { one.old ≡ other.old }
    requires item { item ≡ also_item }
    requires within { at < length one.old }
    ensures { one.new ≡ other.new }
{
    *one.at_mut(at) = item;
    *other.at_mut(at) = also_item;
}

/// Shows that two calls of `Items::len` on equal lists answer equally.
pub fn len<T>(one: &Items<T>, other: &Items<T>) -> (usize, usize)
    requires { one.now ≡ other.now }
    ensures { result.0 ≡ result.1 }
{
    (one.len(), other.len())
}

/// Shows that two calls of `Items::is_empty` on equal lists answer equally.
pub fn is_empty<T>(one: &Items<T>, other: &Items<T>) -> (bool, bool)
    requires { one.now ≡ other.now }
    ensures { result.0 ≡ result.1 }
{
    (one.is_empty(), other.is_empty())
}

/// Shows that two calls of `Items::get` on equal lists find equal items.
pub fn get<'a, T>(
    one: &'a Items<T>,
    other: &'a Items<T>,
    at: usize,
) -> (Option<&'a T>, Option<&'a T>)
    requires { one.now ≡ other.now }
    ensures { option_copied result.0 ≡ option_copied result.1 }
{
    (one.get(at), other.get(at))
}

/// Shows that two calls of `Items::try_push` on equal lists with equal items leave equal lists, or
/// return equal items.
pub fn try_push<T>(
    one: &mut Items<T>,
    other: &mut Items<T>,
    item: T,
    also_item: T,
) -> (Result<(), AllocFailed<T>>, Result<(), AllocFailed<T>>)
    requires same { one.old ≡ other.old }
    requires item { item ≡ also_item }
    ensures left { is_ok result.0 ≡ is_ok result.1 → one.new ≡ other.new }
    ensures returned { IfErr result.0 (λ e. IfErr result.1 (λ f. e.value ≡ f.value)) }
{
    (one.try_push(item), other.try_push(also_item))
}

/// Shows that two calls of `Items::pop` on equal lists take equal items and leave equal lists.
pub fn pop<T>(one: &mut Items<T>, other: &mut Items<T>) -> (Option<T>, Option<T>)
    requires { one.old ≡ other.old }
    ensures result { result.0 ≡ result.1 }
    ensures left { one.new ≡ other.new }
{
    (one.pop(), other.pop())
}

/// Shows that two calls of `Items::remove` on equal lists take equal items and leave equal lists.
pub fn remove<T>(one: &mut Items<T>, other: &mut Items<T>, at: usize) -> (T, T)
    requires same { one.old ≡ other.old }
    requires within { at < length one.old }
    ensures result { result.0 ≡ result.1 }
    ensures left { one.new ≡ other.new }
{
    (one.remove(at), other.remove(at))
}

/// Shows that two calls of `Items::push` on equal lists with equal items leave equal lists.
pub fn push<T: Drop>(
    one: &mut Items<T>,
    other: &mut Items<T>,
    item: T,
    also_item: T,
) -> (Result<(), AllocError>, Result<(), AllocError>)
    requires same { one.old ≡ other.old }
    requires item { item ≡ also_item }
    ensures { is_ok result.0 ≡ is_ok result.1 → one.new ≡ other.new }
{
    (one.push(item), other.push(also_item))
}

/// Shows that two calls of `Items::insert` on equal lists with equal items leave equal lists.
pub fn insert<T: Drop>(
    one: &mut Items<T>,
    other: &mut Items<T>,
    at: usize,
    item: T,
    also_item: T,
) -> (Result<(), AllocError>, Result<(), AllocError>)
    requires same { one.old ≡ other.old }
    requires item { item ≡ also_item }
    requires within { at ≤ length one.old }
    ensures { is_ok result.0 ≡ is_ok result.1 → one.new ≡ other.new }
{
    (one.insert(at, item), other.insert(at, also_item))
}

/// Shows that two calls of `Items::truncate` on equal lists leave equal lists.
pub fn truncate<T: Drop>(one: &mut Items<T>, other: &mut Items<T>, count: usize)
    requires { one.old ≡ other.old }
    ensures { one.new ≡ other.new }
{
    one.truncate(count);
    other.truncate(count);
}

/// Shows that two calls of `Items::set` on equal lists with equal items leave equal lists.
pub fn set<T: Drop>(one: &mut Items<T>, other: &mut Items<T>, at: usize, item: T, also_item: T)
    requires same { one.old ≡ other.old }
    requires item { item ≡ also_item }
    requires within { at < length one.old }
    ensures { one.new ≡ other.new }
{
    one.set(at, item);
    other.set(at, also_item);
}

/// Shows that two calls of `Items::append` on equal lists with equal items leave equal lists.
pub fn append<T: Drop>(
    one: &mut Items<T>,
    other: &mut Items<T>,
    more: Items<T>,
    also_more: Items<T>,
) -> (Result<(), AllocError>, Result<(), AllocError>)
    requires same { one.old ≡ other.old }
    requires more { more ≡ also_more }
    ensures { is_ok result.0 ≡ is_ok result.1 → one.new ≡ other.new }
{
    (one.append(more), other.append(also_more))
}

/// Shows that two calls of `Items::from_slice` on one slice make equal lists.
pub fn from_slice<T: Copy>(
    alloc: Global,
    items: &[T],
) -> (Result<Items<T>, AllocError>, Result<Items<T>, AllocError>)
    ensures { is_ok result.0 ≡ is_ok result.1 → result.0 ≡ result.1 }
{
    (
        Items::from_slice(alloc, items),
        Items::from_slice(alloc, items),
    )
}
