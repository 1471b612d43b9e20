//! Variables and blocks.

use crate::parts::Part;
use crate::parts::Part::{Block, BlockStatement, IfElse, Int, Let, Operator, Value, Variable};
use rhai_tree::token::Token;

/// `let x = 40; { let x = 1; } if x == 40 { x + 2 } else { 0 }`
pub const BLOCK_AND_BRANCH: &[Part<'_>] = &[
    Int(40, 9),
    Let("x", 5, 1),
    Int(1, 23),
    Let("x", 19, 15),
    Block(1, 13, 26),
    BlockStatement,
    Variable("x", 1, 31),
    Int(40, 36),
    Operator(Token::EqualsTo, 33),
    Variable("x", 1, 41),
    Int(2, 45),
    Operator(Token::Plus, 43),
    Value,
    Block(1, 39, 47),
    Int(0, 56),
    Value,
    Block(1, 54, 58),
    IfElse(28),
];

/// `let x = 1; { let x = 2; } x`
pub const HIDDEN_IN_A_BLOCK: &[Part<'_>] = &[
    Int(1, 9),
    Let("x", 5, 1),
    Int(2, 22),
    Let("x", 18, 14),
    Block(1, 12, 25),
    BlockStatement,
    Variable("x", 1, 27),
    Value,
];
