//! Chains over arrays, integers, texts and maps.

use crate::making::Making;
use crate::parts::Part::{
    Array, Assign, AssignBy, Block, BlockValue, Character, Const, Dot, DotUnlessUnit, Index, Int,
    Let, Map, Ones, Operator, Property, Text, Unit, Value, Variable, While,
};
use crate::parts::{Part, statements_of};
use rhai_tree::Items;
use rhai_tree::expr::Stmt;
use rhai_tree::token::Token;
use std::alloc::{AllocError, Global};

/// `let a = [1, 2, 3]; a[-1]`
pub const LAST_ITEM: &[Part<'_>] = &[
    Int(1, 10),
    Int(2, 13),
    Int(3, 16),
    Array(3, 9),
    Let("a", 5, 1),
    Variable("a", 1, 20),
    Int(-1, 22),
    Index(21),
    Value,
];

/// `let a = [1, 2, 3]; a[3]`
pub const ITEM_PAST_THE_END: &[Part<'_>] = &[
    Int(1, 10),
    Int(2, 13),
    Int(3, 16),
    Array(3, 9),
    Let("a", 5, 1),
    Variable("a", 1, 20),
    Int(3, 22),
    Index(21),
    Value,
];

/// `let a = [5]; a[0]`
pub const ONLY_ITEM: &[Part<'_>] = &[
    Int(5, 10),
    Array(1, 9),
    Let("a", 5, 1),
    Variable("a", 1, 14),
    Int(0, 16),
    Index(15),
    Value,
];

/// `let x = 10; x[1]`
pub const BIT: &[Part<'_>] = &[
    Int(10, 9),
    Let("x", 5, 1),
    Variable("x", 1, 13),
    Int(1, 15),
    Index(14),
    Value,
];

/// `let x = 10; x[1..=3]`
pub const BITS_WITH_THE_LAST: &[Part<'_>] = &[
    Int(10, 9),
    Let("x", 5, 1),
    Variable("x", 1, 13),
    Int(1, 15),
    Int(3, 19),
    Operator(Token::InclusiveRange, 16),
    Index(14),
    Value,
];

/// `let x = 10; x[0..2]`
pub const LOWEST_BITS: &[Part<'_>] = &[
    Int(10, 9),
    Let("x", 5, 1),
    Variable("x", 1, 13),
    Int(0, 15),
    Int(2, 18),
    Operator(Token::ExclusiveRange, 16),
    Index(14),
    Value,
];

/// `let y = -1; y[60..=63]`
pub const HIGHEST_BITS: &[Part<'_>] = &[
    Int(-1, 9),
    Let("y", 5, 1),
    Variable("y", 1, 13),
    Int(60, 15),
    Int(63, 20),
    Operator(Token::InclusiveRange, 17),
    Index(14),
    Value,
];

/// `let y = -1; y[0..64]`
pub const ALL_BITS: &[Part<'_>] = &[
    Int(-1, 9),
    Let("y", 5, 1),
    Variable("y", 1, 13),
    Int(0, 15),
    Int(64, 18),
    Operator(Token::ExclusiveRange, 16),
    Index(14),
    Value,
];

/// `let s = "hello"; s[1..3]`
pub const SLICE: &[Part<'_>] = &[
    Text("hello", 9),
    Let("s", 5, 1),
    Variable("s", 1, 18),
    Int(1, 20),
    Int(3, 23),
    Operator(Token::ExclusiveRange, 21),
    Index(19),
    Value,
];

/// `let s = "hello"; s[2..=2]`
pub const SLICE_OF_ONE: &[Part<'_>] = &[
    Text("hello", 9),
    Let("s", 5, 1),
    Variable("s", 1, 18),
    Int(2, 20),
    Int(2, 24),
    Operator(Token::InclusiveRange, 21),
    Index(19),
    Value,
];

/// `let s = "hello"; s[1..=9]`
pub const SLICE_PAST_THE_END: &[Part<'_>] = &[
    Text("hello", 9),
    Let("s", 5, 1),
    Variable("s", 1, 18),
    Int(1, 20),
    Int(9, 24),
    Operator(Token::InclusiveRange, 21),
    Index(19),
    Value,
];

/// `let s = "hello"; s[-9..2]`
pub const SLICE_FROM_BEFORE_THE_START: &[Part<'_>] = &[
    Text("hello", 9),
    Let("s", 5, 1),
    Variable("s", 1, 18),
    Int(-9, 20),
    Int(2, 24),
    Operator(Token::ExclusiveRange, 22),
    Index(19),
    Value,
];

/// `let s = "hello"; s[-1] = 'y'; s`
pub const LAST_CHARACTER_ASSIGNED: &[Part<'_>] = &[
    Text("hello", 9),
    Let("s", 5, 1),
    Variable("s", 1, 18),
    Int(-1, 20),
    Index(19),
    Character('y', 26),
    Assign(24),
    Variable("s", 1, 31),
    Value,
];

/// `let i = 0; let a = [1, 2, 3]; a[{ i += 1; i }] = { i += 1; i }; a`
pub const INDEX_THAT_COUNTS: &[Part<'_>] = &[
    Int(0, 9),
    Let("i", 5, 1),
    Int(1, 21),
    Int(2, 24),
    Int(3, 27),
    Array(3, 20),
    Let("a", 16, 12),
    Variable("a", 1, 31),
    Variable("i", 2, 35),
    Int(1, 40),
    AssignBy(Token::Plus, 37),
    Variable("i", 2, 43),
    Value,
    Block(2, 33, 45),
    BlockValue,
    Index(32),
    Variable("i", 2, 52),
    Int(1, 57),
    AssignBy(Token::Plus, 54),
    Variable("i", 2, 60),
    Value,
    Block(2, 50, 62),
    BlockValue,
    Assign(48),
    Variable("a", 1, 65),
    Value,
];

/// `const m = #{}; m.a = 1;`
pub const ENTRY_OF_A_CONSTANT: &[Part<'_>] = &[
    Map(&[], 11),
    Const("m", 7, 1),
    Variable("m", 1, 16),
    Property("a", 18),
    Dot(17),
    Int(1, 22),
    Assign(20),
];

/// `let x = (); x?.a = 5; x`
pub const PROPERTY_OF_UNIT_ASSIGNED: &[Part<'_>] = &[
    Unit(9),
    Let("x", 5, 1),
    Variable("x", 1, 13),
    Property("a", 16),
    DotUnlessUnit(14),
    Int(5, 20),
    Assign(18),
    Variable("x", 1, 23),
    Value,
];

/// `let m = #{}; m.b`
pub const MISSING_ENTRY: &[Part<'_>] = &[
    Map(&[], 9),
    Let("m", 5, 1),
    Variable("m", 1, 14),
    Property("b", 16),
    Dot(15),
    Value,
];

/// Builds a loop that increases the first item of an array by a variable, once in a turn or twice.
/// It is `let a = [1]; let v = 1; let n = 1000000; while n > 0 { a[0] += v; n -= 1; }`, with `turns` instead of the
/// million.
pub fn first_item_increased(
    alloc: Global,
    turns: i64,
    is_twice: bool,
) -> Result<Items<Stmt>, AllocError> {
    let before = [
        Ones(1, 10, 9),
        Let("a", 5, 1),
        Int(1, 22),
        Let("v", 18, 14),
        Int(turns, 33),
        Let("n", 29, 25),
        Variable("n", 1, 48),
        Int(0, 52),
        Operator(Token::GreaterThan, 50),
    ];
    let increase = [
        Variable("a", 3, 56),
        Int(0, 58),
        Index(57),
        Variable("v", 2, 64),
        AssignBy(Token::Plus, 61),
    ];
    let decrease = [Variable("n", 1, 67), Int(1, 72), AssignBy(Token::Minus, 69)];
    let mut making = Making::new(alloc);
    making.add_all(&before);
    making.add_all(&increase);
    if is_twice {
        making.add_all(&increase);
    }
    making.add_all(&decrease);
    making.add(Block(if is_twice { 3 } else { 2 }, 54, 75));
    making.add(While(42));
    making.finish_statements()
}

/// Builds a loop that increases the last item of an array.
/// It is `let a = [1]; let i = 0; let n = 1000000; while n > 0 { a[i] += 1; n -= 1; } a[i]`, with `length`
/// literals, which all stand at one position, with the last index as `i`, and with `turns` instead of the
/// million.
pub fn increments(alloc: Global, length: u32, turns: i64) -> Result<Items<Stmt>, AllocError> {
    statements_of(
        alloc,
        &[
            Ones(length, 10, 9),
            Let("a", 5, 1),
            Int(i64::from(length) - 1, 22),
            Let("i", 18, 14),
            Int(turns, 33),
            Let("n", 29, 25),
            Variable("n", 1, 48),
            Int(0, 52),
            Operator(Token::GreaterThan, 50),
            Variable("a", 3, 56),
            Variable("i", 2, 58),
            Index(57),
            Int(1, 64),
            AssignBy(Token::Plus, 61),
            Variable("n", 1, 67),
            Int(1, 72),
            AssignBy(Token::Minus, 69),
            Block(2, 54, 75),
            While(42),
            Variable("a", 3, 77),
            Variable("i", 2, 79),
            Index(78),
            Value,
        ],
    )
}
