//! Small scripts, each of which just meets a limit.

use crate::parts::Part;
use crate::parts::Part::{
    Array, Block, Call, Function, ImportAs, Int, Let, Map, Operator, Text, Value,
};
use rhai_tree::token::Token;

/// `1`
pub const ONE: &[Part<'_>] = &[Int(1, 1), Value];

/// `let x = 1;`
pub const ONE_VARIABLE: &[Part<'_>] = &[Int(1, 9), Let("x", 5, 1)];

/// `let x = 1; let y = 2;`
pub const TWO_VARIABLES: &[Part<'_>] = &[Int(1, 9), Let("x", 5, 1), Int(2, 20), Let("y", 16, 12)];

/// `fn f(a, b) { 1 } f(1, 2)`
pub const TWO_PARAMETERS: &[Part<'_>] = &[
    Int(1, 14),
    Value,
    Block(1, 12, 16),
    Function("f", &["a", "b"]),
    Int(1, 20),
    Int(2, 23),
    Call("f", 2, 18),
    Value,
];

/// `import "m" as z;`
pub const ONE_IMPORT: &[Part<'_>] = &[Text("m", 8), ImportAs("z", 15, 1)];

/// `fn f() { 1 } f()`
pub const ONE_CALL: &[Part<'_>] = &[
    Int(1, 10),
    Value,
    Block(1, 8, 12),
    Function("f", &[]),
    Call("f", 0, 14),
    Value,
];

/// `[1]`
pub const ONE_ITEM: &[Part<'_>] = &[Int(1, 2), Array(1, 1), Value];

/// `[1, 2]`
pub const TWO_ITEMS: &[Part<'_>] = &[Int(1, 2), Int(2, 5), Array(2, 1), Value];

/// `#{a: 1, b: 2}`
pub const TWO_ENTRIES: &[Part<'_>] = &[Int(1, 6), Int(2, 12), Map(&["a", "b"], 1), Value];

/// `"a" + "b"`
pub const TWO_LETTERS: &[Part<'_>] = &[Text("a", 1), Text("b", 7), Operator(Token::Plus, 5), Value];
