//! A contract of the operators.

ghost use Rattle.std.specs.Prelude.{◌≡◌};
ghost use Rattle.rhai_operators.specs.Answers.{IsAnswer, unary_of};
ghost use Rattle.rhai_twins.specs.Ends.{option_ran_out};

use rhai_errors::error::EvalAltResult;
use rhai_tree::token::Token;
use rhai_values::base::value::{Dynamic, Host};
use std::alloc::Global;

/// `builtin_unary` by its contract.
pub trait Operates<H: Host> {
    fn unary(
        alloc: Global,
        op: Token,
        x: &Dynamic<H>,
    ) -> Option<Result<Dynamic<H>, EvalAltResult<H>>>
        ensures { IsAnswer result (unary_of op x.now) };
}

/// Shows that two calls of `builtin_unary` on one value answer equally, unless memory runs out.
pub fn unary<H: Host, O: Operates<H>>(
    alloc: Global,
    op: Token,
    x: &Dynamic<H>,
) -> (
    Option<Result<Dynamic<H>, EvalAltResult<H>>>,
    Option<Result<Dynamic<H>, EvalAltResult<H>>>,
)
    ensures { option_ran_out result.0 ≡ option_ran_out result.1 → result.0 ≡ result.1 }
{
    (O::unary(alloc, op, x), O::unary(alloc, op, x))
}
