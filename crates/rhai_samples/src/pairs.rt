//! Chains over pairs, which are a host's values, and methods on constants.

use crate::parts::Part;
use crate::parts::Part::{
    Assign, AssignBy, Call, Const, Dot, Index, Int, Let, Map, Method, Operator, Property, Value,
    Variable,
};
use rhai_tree::token::Token;

/// `let p = pair(1, 2); p.x += 4; p.x`
pub const PROPERTY_INCREASED: &[Part<'_>] = &[
    Int(1, 14),
    Int(2, 17),
    Call("pair", 2, 9),
    Let("p", 5, 1),
    Variable("p", 1, 21),
    Property("x", 23),
    Dot(22),
    Int(4, 28),
    AssignBy(Token::Plus, 25),
    Variable("p", 1, 31),
    Property("x", 33),
    Dot(32),
    Value,
];

/// `let p = pair(1, 2); p[1] = 9; p.y`
pub const NUMBER_ASSIGNED: &[Part<'_>] = &[
    Int(1, 14),
    Int(2, 17),
    Call("pair", 2, 9),
    Let("p", 5, 1),
    Variable("p", 1, 21),
    Int(1, 23),
    Index(22),
    Int(9, 28),
    Assign(26),
    Variable("p", 1, 31),
    Property("y", 33),
    Dot(32),
    Value,
];

/// `let p = pair(1, 2); p.list[0] = 8; p.x`
pub const ITEM_OF_THE_LIST_ASSIGNED: &[Part<'_>] = &[
    Int(1, 14),
    Int(2, 17),
    Call("pair", 2, 9),
    Let("p", 5, 1),
    Variable("p", 1, 21),
    Property("list", 23),
    Int(0, 28),
    Index(27),
    Dot(22),
    Int(8, 33),
    Assign(31),
    Variable("p", 1, 36),
    Property("x", 38),
    Dot(37),
    Value,
];

/// `let p = pair(1, 2); p.view[0] = 8; p.x`
pub const ITEM_OF_THE_VIEW_ASSIGNED: &[Part<'_>] = &[
    Int(1, 14),
    Int(2, 17),
    Call("pair", 2, 9),
    Let("p", 5, 1),
    Variable("p", 1, 21),
    Property("view", 23),
    Int(0, 28),
    Index(27),
    Dot(22),
    Int(8, 33),
    Assign(31),
    Variable("p", 1, 36),
    Property("x", 38),
    Dot(37),
    Value,
];

/// `let p = pair(1, 2); p[2] += 5; p.x * 10 + p.y`
pub const BOTH_NUMBERS_INCREASED: &[Part<'_>] = &[
    Int(1, 14),
    Int(2, 17),
    Call("pair", 2, 9),
    Let("p", 5, 1),
    Variable("p", 1, 21),
    Int(2, 23),
    Index(22),
    Int(5, 29),
    AssignBy(Token::Plus, 26),
    Variable("p", 1, 32),
    Property("x", 34),
    Dot(33),
    Int(10, 38),
    Operator(Token::Multiply, 36),
    Variable("p", 1, 43),
    Property("y", 45),
    Dot(44),
    Operator(Token::Plus, 41),
    Value,
];

/// `let p = pair(1, 2); let m = #{p: p}; m.p.x = 7; m.p.x * 10 + p.x`
pub const PAIR_IN_A_MAP_ASSIGNED: &[Part<'_>] = &[
    Int(1, 14),
    Int(2, 17),
    Call("pair", 2, 9),
    Let("p", 5, 1),
    Variable("p", 1, 34),
    Map(&["p"], 29),
    Let("m", 25, 21),
    Variable("m", 1, 38),
    Property("p", 40),
    Property("x", 42),
    Dot(41),
    Dot(39),
    Int(7, 46),
    Assign(44),
    Variable("m", 1, 49),
    Property("p", 51),
    Property("x", 53),
    Dot(52),
    Dot(50),
    Int(10, 57),
    Operator(Token::Multiply, 55),
    Variable("p", 2, 62),
    Property("x", 64),
    Dot(63),
    Operator(Token::Plus, 60),
    Value,
];

/// `let p = pair(1, 2); p.sum = 3;`
pub const PROPERTY_WITHOUT_A_SETTER: &[Part<'_>] = &[
    Int(1, 14),
    Int(2, 17),
    Call("pair", 2, 9),
    Let("p", 5, 1),
    Variable("p", 1, 21),
    Property("sum", 23),
    Dot(22),
    Int(3, 29),
    Assign(27),
];

/// `let p = pair(1, 2); p[3] += 1;`
pub const NUMBER_THAT_IS_REFUSED: &[Part<'_>] = &[
    Int(1, 14),
    Int(2, 17),
    Call("pair", 2, 9),
    Let("p", 5, 1),
    Variable("p", 1, 21),
    Int(3, 23),
    Index(22),
    Int(1, 29),
    AssignBy(Token::Plus, 26),
];

/// `const p = pair(1, 2); p.x = 3;`
pub const PROPERTY_OF_A_CONSTANT: &[Part<'_>] = &[
    Int(1, 16),
    Int(2, 19),
    Call("pair", 2, 11),
    Const("p", 7, 1),
    Variable("p", 1, 23),
    Property("x", 25),
    Dot(24),
    Int(3, 29),
    Assign(27),
];

/// `const x = 1; x.inc();`
pub const METHOD_ON_A_CONSTANT: &[Part<'_>] = &[
    Int(1, 11),
    Const("x", 7, 1),
    Variable("x", 1, 14),
    Method("inc", 0, 16),
    Dot(15),
    Value,
];

/// `const x = 1; x.nope();`
pub const UNKNOWN_METHOD_ON_A_CONSTANT: &[Part<'_>] = &[
    Int(1, 11),
    Const("x", 7, 1),
    Variable("x", 1, 14),
    Method("nope", 0, 16),
    Dot(15),
    Value,
];
