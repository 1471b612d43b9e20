//! `for`, over ranges, arrays and texts.

use crate::parts::Part::{
    Array, Assign, AssignBy, Block, For, ForCounted, Int, Let, Ones, Operator, Text, Value,
    Variable,
};
use crate::parts::{Part, statements_of};
use rhai_tree::Items;
use rhai_tree::expr::Stmt;
use rhai_tree::token::Token;
use std::alloc::{AllocError, Global};

/// `let a = [1, 2]; let n = 0; for v in a { a = []; n += 1; } n`
pub const ARRAY_EMPTIED_IN_ITS_WALK: &[Part<'_>] = &[
    Int(1, 10),
    Int(2, 13),
    Array(2, 9),
    Let("a", 5, 1),
    Int(0, 25),
    Let("n", 21, 17),
    Variable("a", 2, 37),
    Variable("a", 3, 41),
    Array(0, 45),
    Assign(43),
    Variable("n", 2, 49),
    Int(1, 54),
    AssignBy(Token::Plus, 51),
    Block(2, 39, 57),
    For("v", 32, 28),
    Variable("n", 1, 59),
    Value,
];

/// `for (x, i) in [1] {}`
pub const WALK_WITH_A_COUNTER: &[Part<'_>] = &[
    Int(1, 16),
    Array(1, 15),
    Block(0, 19, 20),
    ForCounted("x", 6, "i", 9, 1),
];

/// `let s = ""; for c in "ab" { s = c + s; } s`
pub const TEXT_REVERSED: &[Part<'_>] = &[
    Text("", 9),
    Let("s", 5, 1),
    Text("ab", 22),
    Variable("s", 2, 29),
    Variable("c", 1, 33),
    Variable("s", 2, 37),
    Operator(Token::Plus, 35),
    Assign(31),
    Block(1, 27, 40),
    For("c", 17, 13),
    Variable("s", 1, 42),
    Value,
];

/// `for v in 3..0 {}`
pub const EMPTY_RANGE_WALKED: &[Part<'_>] = &[
    Int(3, 10),
    Int(0, 13),
    Operator(Token::ExclusiveRange, 11),
    Block(0, 15, 16),
    For("v", 5, 1),
];

/// Builds a `for` that sums up a range.
/// It is `let x = 0; for i in 0..1000000 { x += i; }`, with `turns` instead of the million.
pub fn range_summed(alloc: Global, turns: i64) -> Result<Items<Stmt>, AllocError> {
    statements_of(
        alloc,
        &[
            Int(0, 9),
            Let("x", 5, 1),
            Int(0, 21),
            Int(turns, 24),
            Operator(Token::ExclusiveRange, 22),
            Variable("x", 2, 34),
            Variable("i", 1, 39),
            AssignBy(Token::Plus, 36),
            Block(1, 32, 42),
            For("i", 16, 12),
        ],
    )
}

/// Builds a `for` that sums up an array again and again.
/// It is `let a = [1, 1, 1]; let x = 0; for t in 0..1000 { for i in a { x += i; } }`, with `length` literals,
/// which all stand at one position, and with `times` instead of the thousand.
pub fn array_summed(alloc: Global, length: u32, times: i64) -> Result<Items<Stmt>, AllocError> {
    statements_of(
        alloc,
        &[
            Ones(length, 10, 9),
            Let("a", 5, 1),
            Int(0, 28),
            Let("x", 24, 20),
            Int(0, 40),
            Int(times, 43),
            Operator(Token::ExclusiveRange, 41),
            Variable("a", 3, 59),
            Variable("x", 3, 63),
            Variable("i", 1, 68),
            AssignBy(Token::Plus, 65),
            Block(1, 61, 71),
            For("i", 54, 50),
            Block(1, 48, 73),
            For("t", 35, 31),
        ],
    )
}
