//! The built-in operators.

ghost use Rattle.std.specs.Prelude.{◌≡◌};
ghost use Rattle.rhai_twins.specs.Ends.{option_ran_out};

use rhai_errors::error::EvalAltResult;
use rhai_operators::direct::{assign_integers, compare_integers};
use rhai_operators::{builtin_binary, builtin_op_assign, builtin_unary};
use rhai_tree::token::Token;
use rhai_values::base::value::{Dynamic, Host};
use std::alloc::Global;

/// Shows that two calls of `builtin_unary` answer equally, unless memory runs out.
pub fn unary<H: Host>(
    alloc: Global,
    op: Token,
    x: &Dynamic<H>,
) -> (
    Option<Result<Dynamic<H>, EvalAltResult<H>>>,
    Option<Result<Dynamic<H>, EvalAltResult<H>>>,
)
    ensures { option_ran_out result.0 ≡ option_ran_out result.1 → result.0 ≡ result.1 }
{
    (builtin_unary(alloc, op, x), builtin_unary(alloc, op, x))
}

/// Shows that two calls of `builtin_binary` answer equally, unless memory runs out.
pub fn binary<H: Host>(
    alloc: Global,
    op: Token,
    x: &Dynamic<H>,
    y: &Dynamic<H>,
) -> (
    Option<Result<Dynamic<H>, EvalAltResult<H>>>,
    Option<Result<Dynamic<H>, EvalAltResult<H>>>,
)
    ensures { option_ran_out result.0 ≡ option_ran_out result.1 → result.0 ≡ result.1 }
{
    (
        builtin_binary(alloc, op, x, y),
        builtin_binary(alloc, op, x, y),
    )
}

/// Shows that two calls of `builtin_op_assign` answer equally, unless memory runs out.
pub fn op_assign<H: Host>(
    alloc: Global,
    op: Token,
    x: &Dynamic<H>,
    y: &Dynamic<H>,
) -> (
    Option<Result<Dynamic<H>, EvalAltResult<H>>>,
    Option<Result<Dynamic<H>, EvalAltResult<H>>>,
)
    ensures { option_ran_out result.0 ≡ option_ran_out result.1 → result.0 ≡ result.1 }
{
    (
        builtin_op_assign(alloc, op, x, y),
        builtin_op_assign(alloc, op, x, y),
    )
}

/// Shows that two calls of `direct::compare_integers` answer equally.
pub fn compared<H: Host>(op: Token, x: i64, y: i64) -> (Option<bool>, Option<bool>)
    ensures { result.0 ≡ result.1 }
{
    (
        compare_integers::<H>(op, x, y),
        compare_integers::<H>(op, x, y),
    )
}

/// Shows that two calls of `direct::assign_integers` answer equally.
pub fn assigned<H: Host>(op: Token, x: i64, y: i64) -> (Option<i64>, Option<i64>)
    ensures { result.0 ≡ result.1 }
{
    (
        assign_integers::<H>(op, x, y),
        assign_integers::<H>(op, x, y),
    )
}
