//! Calls by name, keywords and pointers.

use crate::parts::Part;
use crate::parts::Part::{Break, Call, Const, Int, Let, Operator, Text, Value, Variable};
use rhai_tree::token::Token;

/// `break;`
pub const BREAK_AT_THE_TOP: &[Part<'_>] = &[Break(1)];

/// `eval("1")`
pub const CALL_OF_EVAL: &[Part<'_>] = &[Text("1", 6), Call("eval", 1, 1), Value];

/// `let x = 1; inc(x); x`
pub const VARIABLE_PASSED: &[Part<'_>] = &[
    Int(1, 9),
    Let("x", 5, 1),
    Variable("x", 1, 16),
    Call("inc", 1, 12),
    Value,
    Variable("x", 1, 20),
    Value,
];

/// `const x = 1; inc(x); x`
pub const CONSTANT_PASSED: &[Part<'_>] = &[
    Int(1, 11),
    Const("x", 7, 1),
    Variable("x", 1, 18),
    Call("inc", 1, 14),
    Value,
    Variable("x", 1, 22),
    Value,
];

/// `next() + next() * 10`
pub const COUNTED_TWICE: &[Part<'_>] = &[
    Call("next", 0, 1),
    Call("next", 0, 10),
    Int(10, 19),
    Operator(Token::Multiply, 17),
    Operator(Token::Plus, 8),
    Value,
];

/// `call(Fn("double"), 4)`
pub const POINTER_CALLED: &[Part<'_>] = &[
    Text("double", 9),
    Call("Fn", 1, 6),
    Int(4, 20),
    Call("call", 2, 1),
    Value,
];

/// `let f = curry(Fn("double"), 5); call(f)`
pub const CURRIED_POINTER_CALLED: &[Part<'_>] = &[
    Text("double", 18),
    Call("Fn", 1, 15),
    Int(5, 29),
    Call("curry", 2, 9),
    Let("f", 5, 1),
    Variable("f", 1, 38),
    Call("call", 1, 33),
    Value,
];

/// `type_of(1)`
pub const TYPE_OF_INTEGER: &[Part<'_>] = &[Int(1, 9), Call("type_of", 1, 1), Value];

/// `Fn("1x")`
pub const POINTER_OF_NO_NAME: &[Part<'_>] = &[Text("1x", 4), Call("Fn", 1, 1), Value];

/// `nope(1)`
pub const UNKNOWN_FUNCTION: &[Part<'_>] = &[Int(1, 6), Call("nope", 1, 1), Value];
