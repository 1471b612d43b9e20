//! Operators, and what they refuse.

use crate::parts::Part;
use crate::parts::Part::{Block, If, Int, Operator, Truth, Value, Variable};
use rhai_tree::token::Token;

/// `40 + 2`
pub const SUM: &[Part<'_>] = &[Int(40, 1), Int(2, 6), Operator(Token::Plus, 4), Value];

/// `1 + true`
pub const SUM_OF_TWO_TYPES: &[Part<'_>] = &[
    Int(1, 1),
    Truth(true, 5),
    Operator(Token::Plus, 3),
    Value,
];

/// `y + 1`
pub const SUM_WITH_UNKNOWN_NAME: &[Part<'_>] = &[
    Variable("y", 0, 1),
    Int(1, 5),
    Operator(Token::Plus, 3),
    Value,
];

/// `if 1 {}`
pub const INTEGER_AS_CONDITION: &[Part<'_>] = &[Int(1, 4), Block(0, 6, 7), If(1)];
