//! Modules that a script imports, and the functions of those that are there to be imported.

use crate::parts::Part;
use crate::parts::Part::{
    Assign, AssignBy, Block, BlockStatement, Call, Function, ImportAs, Int, Let, PrivateFunction,
    Text, Try, Value, Variable,
};
use rhai_tree::token::Token;

/// `fn two() { 2 } fn glo() { 3 } private fn hid() { 4 }`, of a module.
pub const FUNCTIONS_OF_M: &[Part<'_>] = &[
    Int(2, 12),
    Value,
    Block(1, 10, 14),
    Function("two", &[]),
    Int(3, 27),
    Value,
    Block(1, 25, 29),
    Function("glo", &[]),
    Int(4, 50),
    Value,
    Block(1, 48, 52),
    PrivateFunction("hid", &[]),
];

/// `fn glo() { 5 } fn pub1(x) { x += 1; x } fn dup() { 1 } private fn dup() { 2 }`, of another module.
pub const FUNCTIONS_OF_N: &[Part<'_>] = &[
    Int(5, 12),
    Value,
    Block(1, 10, 14),
    Function("glo", &[]),
    Variable("x", 1, 29),
    Int(1, 34),
    AssignBy(Token::Plus, 31),
    Variable("x", 1, 37),
    Value,
    Block(2, 27, 39),
    Function("pub1", &["x"]),
    Int(1, 52),
    Value,
    Block(1, 50, 54),
    Function("dup", &[]),
    Int(2, 75),
    Value,
    Block(1, 73, 77),
    PrivateFunction("dup", &[]),
];

/// `fn df() { 11 }`, of a module within others.
pub const FUNCTIONS_OF_D: &[Part<'_>] = &[Int(11, 11), Value, Block(1, 9, 14), Function("df", &[])];

/// `fn low() { 6 }`, of a module whose functions are found behind its name alone.
pub const FUNCTIONS_OF_H: &[Part<'_>] = &[
    Int(6, 12),
    Value,
    Block(1, 10, 14),
    Function("low", &[]),
];

/// `fn own() { 9 }`, of a module whose function has the name of one of a module of the engine.
pub const FUNCTIONS_OF_O: &[Part<'_>] = &[
    Int(9, 12),
    Value,
    Block(1, 10, 14),
    Function("own", &[]),
];

/// `import "m" as z; glo()`
pub const IMPORTED: &[Part<'_>] = &[
    Text("m", 8),
    ImportAs("z", 15, 1),
    Call("glo", 0, 18),
    Value,
];

/// `import "no" as z;`
pub const UNKNOWN_IMPORTED: &[Part<'_>] = &[Text("no", 8), ImportAs("z", 16, 1)];

/// `import "m" as z; two()`
pub const UNMARKED_CALLED: &[Part<'_>] = &[
    Text("m", 8),
    ImportAs("z", 15, 1),
    Call("two", 0, 18),
    Value,
];

/// `try { glo(); } catch {} { import "m" as z; glo() }`
pub const TRIED_BEFORE_A_BLOCK: &[Part<'_>] = &[
    Call("glo", 0, 7),
    Value,
    Block(1, 5, 14),
    Block(0, 22, 23),
    Try(1),
    Text("m", 34),
    ImportAs("z", 41, 27),
    Call("glo", 0, 44),
    Value,
    Block(2, 25, 50),
    BlockStatement,
];

/// `let a = 0; { import "m" as z; a = glo(); } try { glo(); } catch { a += 10; } a`
pub const TRIED_AFTER_A_BLOCK: &[Part<'_>] = &[
    Int(0, 9),
    Let("a", 5, 1),
    Text("m", 21),
    ImportAs("z", 28, 14),
    Variable("a", 1, 31),
    Call("glo", 0, 35),
    Assign(33),
    Block(2, 12, 42),
    BlockStatement,
    Call("glo", 0, 50),
    Value,
    Block(1, 48, 57),
    Variable("a", 1, 67),
    Int(10, 72),
    AssignBy(Token::Plus, 69),
    Block(1, 65, 76),
    Try(44),
    Variable("a", 1, 78),
    Value,
];
