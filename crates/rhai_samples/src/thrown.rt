//! What functions throw, and what they catch.

use crate::parts::Part;
use crate::parts::Part::{Block, Call, Function, Int, ThrowValue, Value};

/// `fn f() { throw 5; } f()`
pub const THROWN_OUT_OF_A_FUNCTION: &[Part<'_>] = &[
    Int(5, 16),
    ThrowValue(10),
    Block(1, 8, 19),
    Function("f", &[]),
    Call("f", 0, 21),
    Value,
];
