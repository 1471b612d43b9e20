//! Chains and assignments that the checker refuses. Their variable stands in no scope.

use crate::parts::Part;
use crate::parts::Part::{Assign, Dot, Int, Method, Property, Value, Variable};

/// `x.1`
pub const INTEGER_BEHIND_A_DOT: &[Part<'_>] = &[Variable("x", 0, 1), Int(1, 3), Dot(2), Value];

/// `1 = 2;`
pub const INTEGER_ASSIGNED: &[Part<'_>] = &[Int(1, 1), Int(2, 5), Assign(3)];

/// `x.f() = 2;`
pub const METHOD_ASSIGNED: &[Part<'_>] = &[
    Variable("x", 0, 1),
    Method("f", 0, 3),
    Dot(2),
    Int(2, 9),
    Assign(7),
];

/// `a`, which is a property that stands behind no dot.
pub const PROPERTY_ALONE: &[Part<'_>] = &[Property("a", 1), Value];
