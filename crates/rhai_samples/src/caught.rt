//! `try` and `throw`.

use crate::parts::Part::{
    Array, Assign, AssignBy, Block, Break, Call, Dot, For, If, Int, Let, Loop, Map, Method,
    Operator, Property, Throw, ThrowValue, Try, TryCatching, Unit, Value, Variable,
};
use crate::parts::{Part, statements_of};
use rhai_tree::Items;
use rhai_tree::expr::Stmt;
use rhai_tree::token::Token;
use std::alloc::{AllocError, Global};

/// `try { loop {} } catch {}`
pub const ENDLESS_LOOP_TRIED: &[Part<'_>] = &[
    Block(0, 12, 13),
    Loop(7),
    Block(1, 5, 15),
    Block(0, 23, 24),
    Try(1),
];

/// `let m = #{}; try { m.x += 1; } catch {} m.x`
pub const ENTRY_INCREASED_IN_A_TRY: &[Part<'_>] = &[
    Map(&[], 9),
    Let("m", 5, 1),
    Variable("m", 1, 20),
    Property("x", 22),
    Dot(21),
    Int(1, 27),
    AssignBy(Token::Plus, 24),
    Block(1, 18, 30),
    Block(0, 38, 39),
    Try(14),
    Variable("m", 1, 41),
    Property("x", 43),
    Dot(42),
    Value,
];

/// `try { throw 42; } catch { throw; }`
pub const THROWN_AGAIN: &[Part<'_>] = &[
    Int(42, 13),
    ThrowValue(7),
    Block(1, 5, 17),
    Throw(27),
    Block(1, 25, 34),
    Try(1),
];

/// `try { g(); } catch {} try { g(); } catch {} p.call()`
pub const UNKNOWN_FUNCTION_TRIED_TWICE: &[Part<'_>] = &[
    Call("g", 0, 7),
    Value,
    Block(1, 5, 12),
    Block(0, 20, 21),
    Try(1),
    Call("g", 0, 29),
    Value,
    Block(1, 27, 34),
    Block(0, 42, 43),
    Try(23),
    Variable("p", 0, 45),
    Method("call", 0, 47),
    Dot(46),
    Value,
];

/// `let a = 1; throw 0;`
pub const THROWN_AT_THE_TOP: &[Part<'_>] = &[Int(1, 9), Let("a", 5, 1), Int(0, 18), ThrowValue(12)];

/// `for v in [1] { throw 0; }`
pub const THROWN_IN_A_WALK: &[Part<'_>] = &[
    Int(1, 11),
    Array(1, 10),
    Int(0, 22),
    ThrowValue(16),
    Block(1, 14, 25),
    For("v", 5, 1),
];

/// `let n = 0; loop { try { n += 1; if n == 3 { break; } throw n; } catch {} } n`
pub const BREAK_IN_A_TRY: &[Part<'_>] = &[
    Int(0, 9),
    Let("n", 5, 1),
    Variable("n", 1, 25),
    Int(1, 30),
    AssignBy(Token::Plus, 27),
    Variable("n", 1, 36),
    Int(3, 41),
    Operator(Token::EqualsTo, 38),
    Break(45),
    Block(1, 43, 52),
    If(33),
    Variable("n", 1, 60),
    ThrowValue(54),
    Block(3, 23, 63),
    Block(0, 71, 72),
    Try(19),
    Block(1, 17, 74),
    Loop(12),
    Variable("n", 1, 76),
    Value,
];

/// `let r = (); try { nope(); } catch (e) { r = e.position; } r`
pub const POSITION_OF_WHAT_WAS_CAUGHT: &[Part<'_>] = &[
    Unit(9),
    Let("r", 5, 1),
    Call("nope", 0, 19),
    Value,
    Block(1, 17, 27),
    Variable("e", 0, 36),
    Variable("r", 2, 41),
    Variable("e", 1, 45),
    Property("position", 47),
    Dot(46),
    Assign(43),
    Block(1, 39, 57),
    TryCatching(13),
    Variable("r", 1, 59),
    Value,
];

/// `let r = (); try { nope(); } catch (e) { r = e.message; } r`
pub const MESSAGE_OF_WHAT_WAS_CAUGHT: &[Part<'_>] = &[
    Unit(9),
    Let("r", 5, 1),
    Call("nope", 0, 19),
    Value,
    Block(1, 17, 27),
    Variable("e", 0, 36),
    Variable("r", 2, 41),
    Variable("e", 1, 45),
    Property("message", 47),
    Dot(46),
    Assign(43),
    Block(1, 39, 56),
    TryCatching(13),
    Variable("r", 1, 58),
    Value,
];

/// Builds a `for` whose turns throw and catch.
/// It is `for i in 0..1000000 { try { throw 1; } catch {} }`, with `turns` instead of the million.
pub fn throws_in_turn(alloc: Global, turns: i64) -> Result<Items<Stmt>, AllocError> {
    statements_of(
        alloc,
        &[
            Int(0, 10),
            Int(turns, 13),
            Operator(Token::ExclusiveRange, 11),
            Int(1, 35),
            ThrowValue(29),
            Block(1, 27, 38),
            Block(0, 46, 47),
            Try(23),
            Block(1, 21, 49),
            For("i", 5, 1),
        ],
    )
}
