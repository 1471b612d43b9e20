//! The constants of a script itself, behind `global`.

use crate::parts::Part;
use crate::parts::Part::{Block, Call, Const, Function, Int, Path, Value, Variable};

/// `const A = 4; fn f() { global::A } f()`
pub const CONSTANT_OF_THE_SCRIPT: &[Part<'_>] = &[
    Int(4, 11),
    Const("A", 7, 1),
    Path(&["global"], 0, 23),
    Variable("A", 0, 31),
    Value,
    Block(1, 21, 33),
    Function("f", &[]),
    Call("f", 0, 35),
    Value,
];
