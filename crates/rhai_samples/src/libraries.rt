//! A function among others of the same tree.

use crate::making::Making;
use crate::parts::Part;
use crate::parts::Part::{Block, Call, Function, IfElse, Int, Operator, Value, Variable};
use rhai_build::functions::TreeParts;
use rhai_tree::token::Token;
use std::alloc::{AllocError, Global};

/// Builds so many functions, of which the first calls itself twice, and a call of that. Their names differ in the last
/// digits alone, and each has one parameter.
/// It is `fn fib000(n) { if n < 2 { n } else { fib000(n-1) + fib000(n-2) } } fn fib001(n) { n } .. fib000(28)`, with
/// `number` instead of 28.
pub fn fibonacci_among(alloc: Global, count: u32, number: i64) -> Result<TreeParts, AllocError> {
    let mut making = Making::new(alloc);
    making.add_all(CALLED_BY_ITSELF);
    for other in 1..count {
        let name = format!(in alloc; "fib{other:03}")?;
        making.add_all(&[
            Variable("n", 1, 16),
            Value,
            Block(1, 14, 18),
            Function(name.as_str(), &["n"]),
        ]);
    }
    making.add_all(&[Int(number, 75), Call("fib000", 1, 68), Value]);
    making.finish()
}

/// `fn fib000(n) { if n < 2 { n } else { fib000(n-1) + fib000(n-2) } }`
const CALLED_BY_ITSELF: &[Part<'_>] = &[
    Variable("n", 1, 19),
    Int(2, 23),
    Operator(Token::LessThan, 21),
    Variable("n", 1, 27),
    Value,
    Block(1, 25, 29),
    Variable("n", 1, 45),
    Int(1, 47),
    Operator(Token::Minus, 46),
    Call("fib000", 1, 38),
    Variable("n", 1, 59),
    Int(2, 61),
    Operator(Token::Minus, 60),
    Call("fib000", 1, 52),
    Operator(Token::Plus, 50),
    Value,
    Block(1, 36, 64),
    IfElse(16),
    Block(1, 14, 66),
    Function("fib000", &["n"]),
];
