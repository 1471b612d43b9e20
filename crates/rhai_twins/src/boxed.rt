//! A value in a box.

ghost use Rattle.std.specs.Prelude.{◌≡◌, is_ok, IfOk, IfErr};

use rhai_tree::Boxed;
use std::alloc::{AllocError, AllocFailed, Global};

/// Shows that two calls of `Boxed::try_new` with equal values make equal boxes, or return equal
/// values.
pub fn try_new<T>(
    alloc: Global,
    value: T,
    also_value: T,
) -> (
    Result<Boxed<T>, AllocFailed<T>>,
    Result<Boxed<T>, AllocFailed<T>>,
)
    requires { value ≡ also_value }
    ensures made { IfOk result.0 (λ x. IfOk result.1 (λ y. x ≡ y)) }
    ensures returned { IfErr result.0 (λ e. IfErr result.1 (λ f. e.value ≡ f.value)) }
{
    (
        Boxed::try_new(alloc, value),
        Boxed::try_new(alloc, also_value),
    )
}

/// Shows that two calls of `Boxed::get` on equal boxes lend equal values.
pub fn get<'a, T>(one: &'a Boxed<T>, other: &'a Boxed<T>) -> (&'a T, &'a T)
    requires { one.now ≡ other.now }
    ensures { result.0.now ≡ result.1.now }
{
    (one.get(), other.get())
}

/// Shows that two calls of `Boxed::get_mut` on equal boxes leave equal boxes, whatever is written.
pub fn get_mut<T: Drop>(one: &mut Boxed<T>, other: &mut Boxed<T>, value: T, also_value: T)
    requires same { one.old ≡ other.old }
    requires value { value ≡ also_value }
    ensures { one.new ≡ other.new }
{
    *one.get_mut() = value;
    *other.get_mut() = also_value;
}

/// Shows that two calls of `Boxed::into_inner` on equal boxes give equal values.
pub fn into_inner<T>(one: Boxed<T>, other: Boxed<T>) -> (T, T)
    requires { one ≡ other }
    ensures { result.0 ≡ result.1 }
{
    (one.into_inner(), other.into_inner())
}

/// Shows that two calls of `Boxed::new` with equal values make equal boxes.
pub fn new<T: Drop>(
    alloc: Global,
    value: T,
    also_value: T,
) -> (Result<Boxed<T>, AllocError>, Result<Boxed<T>, AllocError>)
    requires { value ≡ also_value }
    ensures { is_ok result.0 ≡ is_ok result.1 → result.0 ≡ result.1 }
{
    (Boxed::new(alloc, value), Boxed::new(alloc, also_value))
}
