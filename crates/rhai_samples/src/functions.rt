//! Functions of scripts, and calls of them.

use crate::parts::Part::{
    Array, Assign, AssignBy, Block, Call, Dot, Function, IfElse, Index, IndexOn, Int, Let, Method,
    Operator, This, Value, Variable,
};
use crate::parts::{Part, tree_of};
use rhai_build::functions::TreeParts;
use rhai_tree::token::Token;
use std::alloc::{AllocError, Global};

/// Builds the function `fib`, which calls itself twice, and a call of it.
/// It is `fn fib(n) { if n < 2 { n } else { fib(n-1) + fib(n-2) } } fib(28)`, with `number` instead of 28.
pub fn fibonacci(alloc: Global, number: i64) -> Result<TreeParts, AllocError> {
    tree_of(
        alloc,
        &[
            Variable("n", 1, 16),
            Int(2, 20),
            Operator(Token::LessThan, 18),
            Variable("n", 1, 24),
            Value,
            Block(1, 22, 26),
            Variable("n", 1, 39),
            Int(1, 41),
            Operator(Token::Minus, 40),
            Call("fib", 1, 35),
            Variable("n", 1, 50),
            Int(2, 52),
            Operator(Token::Minus, 51),
            Call("fib", 1, 46),
            Operator(Token::Plus, 44),
            Value,
            Block(1, 33, 55),
            IfElse(13),
            Block(1, 11, 57),
            Function("fib", &["n"]),
            Int(number, 63),
            Call("fib", 1, 59),
            Value,
        ],
    )
}

/// `fn add(n) { this += n; } let a = [1]; a[0].add(4); a[0]`
pub const METHOD_THAT_CHANGES_AN_ITEM: &[Part<'_>] = &[
    This(13),
    Variable("n", 1, 21),
    AssignBy(Token::Plus, 18),
    Block(1, 11, 24),
    Function("add", &["n"]),
    Int(1, 35),
    Array(1, 34),
    Let("a", 30, 26),
    Variable("a", 1, 39),
    Int(0, 41),
    Int(4, 48),
    Method("add", 1, 44),
    Dot(43),
    IndexOn(40),
    Value,
    Variable("a", 1, 52),
    Int(0, 54),
    Index(53),
    Value,
];

/// `fn chg(x) { x = 9; } let v = 1; chg(v); v`
pub const PARAMETER_ASSIGNED: &[Part<'_>] = &[
    Variable("x", 1, 13),
    Int(9, 17),
    Assign(15),
    Block(1, 11, 20),
    Function("chg", &["x"]),
    Int(1, 30),
    Let("v", 26, 22),
    Variable("v", 1, 37),
    Call("chg", 1, 33),
    Value,
    Variable("v", 1, 41),
    Value,
];

/// `fn e() {} e()`
pub const EMPTY_FUNCTION: &[Part<'_>] = &[
    Block(0, 8, 9),
    Function("e", &[]),
    Call("e", 0, 11),
    Value,
];

/// Builds a function that calls itself until its argument is zero.
/// It is `fn f(n) { if n == 0 { 0 } else { f(n-1) } } f(2)`, with `number` instead of 2.
pub fn calls_within_calls(alloc: Global, number: i64) -> Result<TreeParts, AllocError> {
    tree_of(
        alloc,
        &[
            Variable("n", 1, 14),
            Int(0, 19),
            Operator(Token::EqualsTo, 16),
            Int(0, 23),
            Value,
            Block(1, 21, 25),
            Variable("n", 1, 36),
            Int(1, 38),
            Operator(Token::Minus, 37),
            Call("f", 1, 34),
            Value,
            Block(1, 32, 41),
            IfElse(11),
            Block(1, 9, 43),
            Function("f", &["n"]),
            Int(number, 47),
            Call("f", 1, 45),
            Value,
        ],
    )
}

/// `fn f(n) { f(n+1) } f(0)`
pub const CALLS_WITHOUT_END: &[Part<'_>] = &[
    Variable("n", 1, 13),
    Int(1, 15),
    Operator(Token::Plus, 14),
    Call("f", 1, 11),
    Value,
    Block(1, 9, 18),
    Function("f", &["n"]),
    Int(0, 22),
    Call("f", 1, 20),
    Value,
];

/// `fn keep(n) { let y = n; y }`
pub const VARIABLE_DECLARED: &[Part<'_>] = &[
    Variable("n", 1, 22),
    Let("y", 18, 14),
    Variable("y", 1, 25),
    Value,
    Block(2, 12, 27),
    Function("keep", &["n"]),
];

/// `fn m() { is_shared(this) }`
pub const THIS_ASKED: &[Part<'_>] = &[
    This(20),
    Call("is_shared", 1, 10),
    Value,
    Block(1, 8, 26),
    Function("m", &[]),
];

/// `fn g() { 1 }`
pub const FUNCTION_G: &[Part<'_>] = &[Int(1, 10), Value, Block(1, 8, 12), Function("g", &[])];

/// `fn g() { 2 }`
pub const OTHER_FUNCTION_G: &[Part<'_>] = &[Int(2, 10), Value, Block(1, 8, 12), Function("g", &[])];

/// `fn h() { g() }`
pub const FUNCTION_H: &[Part<'_>] = &[Call("g", 0, 10), Value, Block(1, 8, 14), Function("h", &[])];
