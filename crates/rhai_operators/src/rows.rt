//! The rows of the built-in operators whose values need no memory. The contracts cite
//! specs/Operators.antt.

ghost use Rattle.std.specs.Prelude.{◌≡◌};
ghost use Rattle.rhai_operators.specs.Compare as kinds;
ghost use Rattle.rhai_operators.specs.Operators as spec;

use crate::compare::{comparison_of_order, comparison_of_types, differ};
use crate::integers::{
    ArithmeticFault, difference, opposite, power, product, quotient, remainder, shifted_left,
    shifted_right, sum,
};
use rhai_tree::token::Token;
use rhai_values::base::value::Union;

/// Wraps a truth value as what an operator gives.
pub(crate) fn truth<H>(value: bool) -> Option<Result<Union<H>, ArithmeticFault>>
    ensures { result ≡ spec.truth value }
{
    Some(Ok(Union::Bool(value)))
}

/// Wraps what a comparison says as what an operator gives, where the operator compares.
pub(crate) fn if_compares<H>(value: Option<bool>) -> Option<Result<Union<H>, ArithmeticFault>>
    ensures { result ≡ spec.if_compares value }
{
    match value {
        Some(value) => truth(value),
        None => None,
    }
}

/// Wraps an integer, or why there is none, as what an operator gives.
fn number<H>(value: Result<i64, ArithmeticFault>) -> Option<Result<Union<H>, ArithmeticFault>>
    ensures { result ≡ spec.number value }
{
    match value {
        Ok(value) => Some(Ok(Union::Int(value))),
        Err(fault) => Some(Err(fault)),
    }
}

/// Computes what an operator gives for two integers.
pub(crate) fn of_integers<H>(op: Token, x: i64, y: i64) -> Option<Result<Union<H>, ArithmeticFault>>
    ensures { result ≡ spec.of_integers op x y }
{
    match op {
        Token::Plus => number(sum(x, y)),
        Token::Minus => number(difference(x, y)),
        Token::Multiply => number(product(x, y)),
        Token::Divide => number(quotient(x, y)),
        Token::Modulo => number(remainder(x, y)),
        Token::PowerOf => number(power(x, y)),
        Token::LeftShift => number(shifted_left(x, y)),
        Token::RightShift => number(shifted_right(x, y)),
        Token::Ampersand => number(Ok(x & y)),
        Token::Pipe => number(Ok(x | y)),
        Token::XOr => number(Ok(x ^ y)),
        Token::EqualsTo => truth(x == y),
        Token::NotEqualsTo => truth(x != y),
        Token::LessThan => truth(x < y),
        Token::LessThanEqualsTo => truth(x <= y),
        Token::GreaterThan => truth(x > y),
        Token::GreaterThanEqualsTo => truth(x >= y),
        Token::ExclusiveRange => Some(Ok(Union::ExclusiveRange(x, y))),
        Token::InclusiveRange => Some(Ok(Union::InclusiveRange(x, y))),
        Token::UnaryMinus | Token::Bang => None,
    }
}

/// Computes what an operator gives for two truth values. False comes before true.
pub(crate) fn of_truths<H>(op: Token, x: bool, y: bool) -> Option<Result<Union<H>, ArithmeticFault>>
    ensures { result ≡ spec.of_truths op x y }
{
    match op {
        Token::Ampersand => truth(x & y),
        Token::Pipe => truth(x | y),
        Token::XOr => truth(x ^ y),
        _ => if_compares(comparison_of_order(op, x.cmp(&y))),
    }
}

/// Tells what an operator gives for two values that have no row of their own.
pub(crate) fn of_types<H>(
    op: Token,
    x: &Union<H>,
    y: &Union<H>,
) -> Option<Result<Union<H>, ArithmeticFault>>
    ensures { result ≡ spec.of_types (kinds.differ (kinds.type_of x.now) (kinds.type_of y.now)) op }
{
    if differ(x, y) {
        if_compares(comparison_of_types(op))
    } else {
        None
    }
}

/// Computes what an operator gives before one operand.
pub(crate) fn unary<H>(op: Token, x: &Union<H>) -> Option<Result<Union<H>, ArithmeticFault>>
    ensures { result ≡ spec.unary_at op x.now }
{
    match op {
        Token::Minus | Token::UnaryMinus => match x {
            Union::Int(n) => number(opposite(*n)),
            _ => None,
        },
        Token::Bang => match x {
            Union::Bool(b) => truth(!*b),
            _ => None,
        },
        _ => None,
    }
}

/// Tells whether an operator on two integers may stand before an `=`.
fn assigns_integers(op: Token) -> bool
    ensures { result ≡ spec.assigns_integers op }
{
    matches!(
        op,
        Token::Plus
            | Token::Minus
            | Token::Multiply
            | Token::Divide
            | Token::Modulo
            | Token::PowerOf
            | Token::LeftShift
            | Token::RightShift
            | Token::Ampersand
            | Token::Pipe
            | Token::XOr
    )
}

/// Tells whether an operator on two truth values may stand before an `=`.
fn assigns_truths(op: Token) -> bool
    ensures { result ≡ spec.assigns_truths op }
{
    matches!(op, Token::Ampersand | Token::Pipe | Token::XOr)
}

/// Tells whether an operator may stand before an `=` for two operands.
pub(crate) fn assigns<H>(op: Token, x: &Union<H>, y: &Union<H>) -> bool
    ensures { result ≡ spec.assigns op x.now y.now }
{
    match (x, y) {
        (Union::Int(_), Union::Int(_)) => assigns_integers(op),
        (Union::Bool(_), Union::Bool(_)) => assigns_truths(op),
        (Union::Str(_), Union::Str(_) | Union::Char(_)) => op == Token::Plus,
        _ => false,
    }
}
