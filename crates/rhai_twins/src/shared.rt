//! A shared value.

ghost use Rattle.std.specs.Prelude.{◌≡◌, is_ok};

use rhai_tree::Shared;
use std::alloc::{AllocError, Global};

/// Shows that two calls of `Shared::get` on equal values lend equal values.
pub fn get<'a, T>(one: &'a Shared<T>, other: &'a Shared<T>) -> (&'a T, &'a T)
    requires { one.now ≡ other.now }
    ensures { result.0.now ≡ result.1.now }
{
    (one.get(), other.get())
}

/// Shows that two calls of `Shared::new` with equal values make equal values.
pub fn new<T: Drop>(
    alloc: Global,
    value: T,
    also_value: T,
) -> (Result<Shared<T>, AllocError>, Result<Shared<T>, AllocError>)
    requires { value ≡ also_value }
    ensures { is_ok result.0 ≡ is_ok result.1 → result.0 ≡ result.1 }
{
    (Shared::new(alloc, value), Shared::new(alloc, also_value))
}

/// Shows that two calls of `Shared::share` on equal values give equal values.
pub fn share<T: Drop>(
    one: &Shared<T>,
    other: &Shared<T>,
) -> (Result<Shared<T>, AllocError>, Result<Shared<T>, AllocError>)
    requires { one.now ≡ other.now }
    ensures { is_ok result.0 ≡ is_ok result.1 → result.0 ≡ result.1 }
{
    (one.share(), other.share())
}
