//! Texts and arrays, and what is too large.

use crate::parts::Part::{Array, Int, Let, Ones, Operator, Value};
use crate::parts::{Part, statements_of};
use rhai_tree::Items;
use rhai_tree::expr::Stmt;
use rhai_tree::token::Token;
use std::alloc::{AllocError, Global};

/// `[1, 2, 3]`
pub const THREE_ITEMS: &[Part<'_>] = &[Int(1, 2), Int(2, 5), Int(3, 8), Array(3, 1), Value];

/// `9223372036854775807 + 1`
pub const GREATEST_AND_ONE: &[Part<'_>] = &[
    Int(i64::MAX, 1),
    Int(1, 23),
    Operator(Token::Plus, 21),
    Value,
];

/// Builds `let a = [1, 1, 1];`, with so many literals, which all stand at one position.
pub fn many_items(alloc: Global, count: u32) -> Result<Items<Stmt>, AllocError> {
    statements_of(alloc, &[Ones(count, 10, 9), Let("a", 5, 1)])
}
