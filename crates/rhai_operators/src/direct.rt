//! Operators on two integers, for a caller that wants a truth value or an integer and no value of a
//! script. Ports the integer rows of upstream's `func/builtin.rs`.

ghost use Rattle.std.specs.Prelude.{◌≡◌};
ghost use Rattle.rhai_values.specs.declared.base.value.Union.TheVariants as value;
ghost use Rattle.rhai_operators.specs.Direct.{truth_given, integer_given};
ghost use Rattle.rhai_operators.specs.Integers as exact;
ghost use Rattle.rhai_operators.specs.Operators as spec;

use crate::integers::{ArithmeticFault, power, quotient, remainder, shifted_left, shifted_right};
use rhai_tree::token::Token;
use rhai_values::base::value::Host;

/// Finds the truth value that an operator gives for two integers, None where it gives none.
#[inline(always)]
pub fn compare_integers<H: Host>(op: Token, x: i64, y: i64) -> Option<bool>
    ensures { result ≡ truth_given {H = H} (spec.of_integers op x y) }
{
    match op {
        Token::EqualsTo => Some(x == y),
        Token::NotEqualsTo => Some(x != y),
        Token::LessThan => Some(x < y),
        Token::LessThanEqualsTo => Some(x <= y),
        Token::GreaterThan => Some(x > y),
        Token::GreaterThanEqualsTo => Some(x >= y),
        _ => None,
    }
}

/// Computes the integer that an operator before an `=` gives for two integers. None where it gives none: it
/// may not stand there, the integer does not fit, or the operands are not allowed.
#[inline(always)]
pub fn assign_integers<H: Host>(op: Token, x: i64, y: i64) -> Option<i64>
    ensures { result ≡ integer_given {H = H} (spec.op_assign_at op (value.Int x) (value.Int y)) }
{
    match op {
        Token::Plus => x.checked_add(y),
        Token::Minus => x.checked_sub(y),
        Token::Multiply => x.checked_mul(y),
        Token::Divide => integer_or_none::<H>(quotient(x, y)),
        Token::Modulo => integer_or_none::<H>(remainder(x, y)),
        Token::PowerOf => integer_or_none::<H>(power(x, y)),
        Token::LeftShift => integer_or_none::<H>(shifted_left(x, y)),
        Token::RightShift => integer_or_none::<H>(shifted_right(x, y)),
        Token::Ampersand => Some(x & y),
        Token::Pipe => Some(x | y),
        Token::XOr => Some(x ^ y),
        _ => None,
    }
}

/// Takes the integer of a result, None where there is none.
fn integer_or_none<H: Host>(value: Result<i64, ArithmeticFault>) -> Option<i64>
    ensures { result ≡ integer_given {H = H} (spec.number value) }
{
    match value {
        Ok(number) => Some(number),
        Err(_) => None,
    }
}
