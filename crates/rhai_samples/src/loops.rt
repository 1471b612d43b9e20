//! Loops, and what ends them early.

use crate::parts::Part::{AssignBy, Block, Call, Int, Let, Loop, Operator, Value, Variable, While};
use crate::parts::{Part, statements_of};
use rhai_tree::Items;
use rhai_tree::expr::Stmt;
use rhai_tree::token::Token;
use std::alloc::{AllocError, Global};

/// `loop {}`
pub const EMPTY_LOOP: &[Part<'_>] = &[Block(0, 6, 7), Loop(1)];

/// `let n = 0; while n < 3 { n += 1; } n`
pub const THREE_TURNS: &[Part<'_>] = &[
    Int(0, 9),
    Let("n", 5, 1),
    Variable("n", 1, 18),
    Int(3, 22),
    Operator(Token::LessThan, 20),
    Variable("n", 1, 26),
    Int(1, 31),
    AssignBy(Token::Plus, 28),
    Block(1, 24, 34),
    While(12),
    Variable("n", 1, 36),
    Value,
];

/// Builds a loop that calls a native of one argument.
/// It is `let n = 1000000; while n > 0 { double(n); n -= 1; }`, with `turns` instead of the million.
pub fn doublings(alloc: Global, turns: i64) -> Result<Items<Stmt>, AllocError> {
    statements_of(
        alloc,
        &[
            Int(turns, 9),
            Let("n", 5, 1),
            Variable("n", 1, 24),
            Int(0, 28),
            Operator(Token::GreaterThan, 26),
            Variable("n", 1, 39),
            Call("double", 1, 32),
            Value,
            Variable("n", 1, 43),
            Int(1, 48),
            AssignBy(Token::Minus, 45),
            Block(2, 30, 51),
            While(18),
        ],
    )
}

/// Builds a loop that calls a native of two arguments.
/// It is `let n = 1000000; while n > 0 { pair(n, 1); n -= 1; }`, with `turns` instead of the million.
pub fn pairings(alloc: Global, turns: i64) -> Result<Items<Stmt>, AllocError> {
    statements_of(
        alloc,
        &[
            Int(turns, 9),
            Let("n", 5, 1),
            Variable("n", 1, 24),
            Int(0, 28),
            Operator(Token::GreaterThan, 26),
            Variable("n", 1, 37),
            Int(1, 40),
            Call("pair", 2, 32),
            Value,
            Variable("n", 1, 44),
            Int(1, 49),
            AssignBy(Token::Minus, 46),
            Block(2, 30, 52),
            While(18),
        ],
    )
}
