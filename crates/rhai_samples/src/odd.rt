//! Calls of natives that fail, leave the script, stand for a sum, or keep a pointer.

use crate::parts::Part;
use crate::parts::Part::{Block, Call, Function, Int, Let, Operator, Text, Try, Value, Variable};
use rhai_tree::token::Token;

/// `let x = 1; try { fail(x); } catch {} x`
pub const CHANGED_AND_FAILED: &[Part<'_>] = &[
    Int(1, 9),
    Let("x", 5, 1),
    Variable("x", 1, 23),
    Call("fail", 1, 18),
    Value,
    Block(1, 16, 27),
    Block(0, 35, 36),
    Try(12),
    Variable("x", 1, 38),
    Value,
];

/// `try { leave(5); } catch {} 1`
pub const LEFT_IN_A_TRY: &[Part<'_>] = &[
    Int(5, 13),
    Call("leave", 1, 7),
    Value,
    Block(1, 5, 17),
    Block(0, 25, 26),
    Try(1),
    Int(1, 28),
    Value,
];

/// `1 + 2`
pub const ONE_AND_TWO: &[Part<'_>] = &[Int(1, 1), Int(2, 5), Operator(Token::Plus, 3), Value];

/// `fn two() { 2 } keep(Fn("two")); call(give())`
pub const KEPT_POINTER_CALLED: &[Part<'_>] = &[
    Int(2, 12),
    Value,
    Block(1, 10, 14),
    Function("two", &[]),
    Text("two", 24),
    Call("Fn", 1, 21),
    Call("keep", 1, 16),
    Value,
    Call("give", 0, 38),
    Call("call", 1, 33),
    Value,
];
