//! Comparisons. The contracts cite specs/Compare.antt.

ghost use Rattle.std.specs.Prelude.{◌≡◌};
ghost use Rattle.rhai_operators.specs.Compare as spec;

use rhai_tree::token::Token;
use rhai_values::base::value::Union;
use std::cmp::Ordering;

/// Tells what a comparison says of an order, `None` for an operator that does not compare.
pub(crate) fn comparison_of_order(op: Token, order: Ordering) -> Option<bool>
    ensures { result ≡ spec.comparison_of_order op order }
{
    match op {
        Token::EqualsTo => Some(order.is_eq()),
        Token::NotEqualsTo => Some(order.is_ne()),
        Token::LessThan => Some(order.is_lt()),
        Token::LessThanEqualsTo => Some(order.is_le()),
        Token::GreaterThan => Some(order.is_gt()),
        Token::GreaterThanEqualsTo => Some(order.is_ge()),
        _ => None,
    }
}

/// Tells what a comparison says of two values of different types, `None` for an operator that does not
/// compare.
pub(crate) fn comparison_of_types(op: Token) -> Option<bool>
    ensures { result ≡ spec.comparison_of_types op }
{
    match op {
        Token::NotEqualsTo => Some(true),
        Token::EqualsTo
        | Token::LessThan
        | Token::LessThanEqualsTo
        | Token::GreaterThan
        | Token::GreaterThanEqualsTo => Some(false),
        _ => None,
    }
}

/// Returns the number of a value's type, `None` for a host value and for a cell's handle.
fn type_of<H>(value: &Union<H>) -> Option<u8>
    ensures { result ≡ spec.type_of value.now }
{
    match value {
        Union::Unit => Some(0),
        Union::Bool(_) => Some(1),
        Union::Int(_) => Some(2),
        Union::Char(_) => Some(3),
        Union::Str(_) => Some(4),
        Union::ExclusiveRange(_, _) => Some(5),
        Union::InclusiveRange(_, _) => Some(6),
        Union::Array(_) => Some(7),
        Union::Blob(_) => Some(8),
        Union::Map(_) => Some(9),
        Union::FnPtr(_) => Some(10),
        Union::Host(_) => None,
        Union::Cell(_) => None,
    }
}

/// Tells whether two values are of different types, both of them known.
pub(crate) fn differ<H>(x: &Union<H>, y: &Union<H>) -> bool
    ensures { result ≡ spec.differ (spec.type_of x.now) (spec.type_of y.now) }
{
    match (type_of(x), type_of(y)) {
        (Some(m), Some(n)) => m != n,
        _ => false,
    }
}
