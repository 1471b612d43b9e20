//! What the lists of natives are made of.

ghost use Rattle.std.specs.Prelude.{◌≡◌, is_ok, map, option_map};
ghost use Rattle.rhai_natives.specs.Arguments as given;
ghost use Rattle.rhai_natives.specs.Listed.{entry_of};
ghost use Rattle.rhai_twins.specs.Responses.{BothAnswer, BothRespond};

use rhai_natives::{Arguments, Datum, Integers, Listed, ListedNatives, Natives, Response};
use rhai_values::base::value::{Dynamic, Host, Union};
use std::alloc::{AllocError, Global};

/// Shows that two calls of `Arguments::new` have equal values.
pub fn arguments<'a, H>(
    first: Option<&'a Dynamic<H>>,
    rest: &'a [Dynamic<H>],
) -> (Arguments<'a, H>, Arguments<'a, H>)
    ensures { given.values_of result.0 ≡ given.values_of result.1 }
{
    (Arguments::new(first, rest), Arguments::new(first, rest))
}

/// Shows that two calls of `Arguments::none` on equal values answer equally.
pub fn none<'a, H>(one: &Arguments<'a, H>, other: &Arguments<'a, H>) -> (Option<()>, Option<()>)
    requires { given.values_of one.now ≡ given.values_of other.now }
    ensures { result.0 ≡ result.1 }
{
    (one.none(), other.none())
}

/// Shows that two calls of `Arguments::int` on equal values answer equally.
pub fn int<'a, H>(one: &Arguments<'a, H>, other: &Arguments<'a, H>) -> (Option<i64>, Option<i64>)
    requires { given.values_of one.now ≡ given.values_of other.now }
    ensures { result.0 ≡ result.1 }
{
    (one.int(), other.int())
}

/// Shows that two calls of `Arguments::ints` on equal values answer equally.
pub fn ints<'a, H>(
    one: &Arguments<'a, H>,
    other: &Arguments<'a, H>,
) -> (Option<(i64, i64)>, Option<(i64, i64)>)
    requires { given.values_of one.now ≡ given.values_of other.now }
    ensures { result.0 ≡ result.1 }
{
    (one.ints(), other.ints())
}

/// Shows that two calls of `Arguments::host` on equal values answer equally.
pub fn host<'a, H>(
    one: &Arguments<'a, H>,
    other: &Arguments<'a, H>,
) -> (Option<&'a H>, Option<&'a H>)
    requires { given.values_of one.now ≡ given.values_of other.now }
    ensures { option_map (λ found. found.now) result.0 ≡ option_map (λ found. found.now) result.1 }
{
    (one.host(), other.host())
}

/// Shows that two calls of `Arguments::hosts` on equal values answer equally.
pub fn hosts<'a, H>(
    one: &Arguments<'a, H>,
    other: &Arguments<'a, H>,
) -> (Option<(&'a H, &'a H)>, Option<(&'a H, &'a H)>)
    requires { given.values_of one.now ≡ given.values_of other.now }
    ensures first { option_map (λ found. found.0.now) result.0 ≡ option_map
        (λ found. found.0.now) result.1 }
    ensures second { option_map (λ found. found.1.now) result.0 ≡ option_map
        (λ found. found.1.now) result.1 }
{
    (one.hosts(), other.hosts())
}

/// Shows that two calls of `Arguments::host_and_int` on equal values answer equally.
pub fn host_and_int<'a, H>(
    one: &Arguments<'a, H>,
    other: &Arguments<'a, H>,
) -> (Option<(&'a H, i64)>, Option<(&'a H, i64)>)
    requires { given.values_of one.now ≡ given.values_of other.now }
    ensures host { option_map (λ found. found.0.now) result.0 ≡ option_map (λ found. found.0.now) result.1 }
    ensures number { option_map (λ found. found.1) result.0 ≡ option_map (λ found. found.1) result.1 }
{
    (one.host_and_int(), other.host_and_int())
}

/// Shows that two calls of `Arguments::host_and_ints` on equal values answer equally.
pub fn host_and_ints<'a, H>(
    one: &Arguments<'a, H>,
    other: &Arguments<'a, H>,
) -> (Option<(&'a H, i64, i64)>, Option<(&'a H, i64, i64)>)
    requires { given.values_of one.now ≡ given.values_of other.now }
    ensures host { option_map (λ found. found.0.now) result.0 ≡ option_map (λ found. found.0.now) result.1 }
    ensures first { option_map (λ found. found.1) result.0 ≡ option_map (λ found. found.1) result.1 }
    ensures second { option_map (λ found. found.2) result.0 ≡ option_map (λ found. found.2) result.1 }
{
    (one.host_and_ints(), other.host_and_ints())
}

/// Shows that two calls of `Arguments::host_and_array` on equal values answer equally.
pub fn host_and_array<'a, H>(
    one: &Arguments<'a, H>,
    other: &Arguments<'a, H>,
) -> (
    Option<(&'a H, &'a [Dynamic<H>])>,
    Option<(&'a H, &'a [Dynamic<H>])>,
)
    requires { given.values_of one.now ≡ given.values_of other.now }
    ensures host { option_map (λ found. found.0.now) result.0 ≡ option_map (λ found. found.0.now) result.1 }
    ensures items { option_map (λ found. found.1.now) result.0 ≡ option_map
        (λ found. found.1.now) result.1 }
{
    (one.host_and_array(), other.host_and_array())
}

/// Shows that two calls of `Natives::new` on equal natives have equal ones.
pub fn natives<N>(alloc: Global, natives: N, also_natives: N) -> (Natives<N>, Natives<N>)
    requires { natives ≡ also_natives }
    ensures { result.0.natives ≡ result.1.natives }
{
    (
        Natives::new(alloc, natives),
        Natives::new(alloc, also_natives),
    )
}

/// Shows that two calls of `Integers::new` build equal lists, unless memory runs out.
pub fn integers<H: Drop>(
    alloc: Global,
    numbers: &[i64],
) -> (
    Result<Integers<H>, AllocError>,
    Result<Integers<H>, AllocError>,
)
    ensures { is_ok result.0 ≡ is_ok result.1 → result.0 ≡ result.1 }
{
    (Integers::new(alloc, numbers), Integers::new(alloc, numbers))
}

/// Shows that two calls of `Datum::into_union` on equal data answer equally.
pub fn union<H>(one: Datum<H>, other: Datum<H>) -> (Union<H>, Union<H>)
    requires { one ≡ other }
    ensures { result.0 ≡ result.1 }
{
    (one.into_union(), other.into_union())
}

/// Shows that two calls of `Response::changing` on equal data answer equally.
pub fn changing<H>(first: Datum<H>, also_first: Datum<H>) -> (Response<H>, Response<H>)
    requires { first ≡ also_first }
    ensures { result.0 ≡ result.1 }
{
    (Response::changing(first), Response::changing(also_first))
}

/// Shows that two calls of `Response::text` answer equally, unless memory runs out.
pub fn text<H>(alloc: Global, text: &str) -> (Response<H>, Response<H>)
    ensures { BothAnswer result.0 result.1 → result.0 ≡ result.1 }
{
    (Response::text(alloc, text), Response::text(alloc, text))
}

/// Shows that two calls of `Response::arithmetic` answer equally, unless memory runs out.
pub fn arithmetic<H>(alloc: Global, text: &str) -> (Response<H>, Response<H>)
    ensures { BothAnswer result.0 result.1 → result.0 ≡ result.1 }
{
    (
        Response::arithmetic(alloc, text),
        Response::arithmetic(alloc, text),
    )
}

/// Shows that two calls of `Response::integers` answer equally, unless memory runs out.
pub fn response_of_integers<H: Drop>(alloc: Global, numbers: &[i64]) -> (Response<H>, Response<H>)
    ensures { BothAnswer result.0 result.1 → result.0 ≡ result.1 }
{
    (
        Response::integers(alloc, numbers),
        Response::integers(alloc, numbers),
    )
}

/// Shows that two calls of `ListedNatives::listed` lend lists of equal entries.
pub fn listed<'a, H: Host, N: ListedNatives<H>>(
    one: &'a N,
    other: &'a N,
) -> (&'a [Listed<N::Native>], &'a [Listed<N::Native>])
    ensures { map entry_of result.0.now ≡ map entry_of result.1.now }
{
    (one.listed(), other.listed())
}

/// Shows that two calls of `ListedNatives::call` from equal states answer equally and leave equal states,
/// unless memory runs out.
pub fn called<H: Host, N: ListedNatives<H>>(
    one: &mut N,
    other: &mut N,
    alloc: Global,
    native: N::Native,
    arguments: &Arguments<'_, H>,
) -> (Option<Response<H>>, Option<Response<H>>)
    requires { N.state one.old ≡ N.state other.old }
    ensures response { BothRespond result.0 result.1 → result.0 ≡ result.1 }
    ensures left { BothRespond result.0 result.1 → N.state one.new ≡ N.state other.new }
{
    (
        one.call(alloc, native, arguments),
        other.call(alloc, native, arguments),
    )
}

/// Shows that two calls of `Response::host` on equal values answer equally, unless memory runs out.
pub fn host_given<H: Host>(alloc: Global, value: H, also_value: H) -> (Response<H>, Response<H>)
    requires { value ≡ also_value }
    ensures { BothAnswer result.0 result.1 → result.0 ≡ result.1 }
{
    (
        Response::host(alloc, value),
        Response::host(alloc, also_value),
    )
}

/// Shows that two calls of `Response::changing_host` on equal values answer equally, unless memory runs out.
pub fn host_changed<H: Host>(alloc: Global, first: H, also_first: H) -> (Response<H>, Response<H>)
    requires { first ≡ also_first }
    ensures { BothAnswer result.0 result.1 → result.0 ≡ result.1 }
{
    (
        Response::changing_host(alloc, first),
        Response::changing_host(alloc, also_first),
    )
}
