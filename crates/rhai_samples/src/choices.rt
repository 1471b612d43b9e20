//! `switch`.

use crate::parts::Part::{Always, Block, Character, For, Int, Operator, Switch, Text, Variable};
use crate::parts::{Case, Part, statements_of, tree_of};
use rhai_build::functions::TreeParts;
use rhai_tree::Items;
use rhai_tree::expr::{RangeCase, Stmt};
use rhai_tree::token::Token;
use std::alloc::{AllocError, Global};

/// Builds a `switch` with a case and ranges of integers.
/// It is `switch 1 { 1 => 10, 5..8 => 20, 8..=10 => 30, _ => 99 }`, with `value` instead of the first
/// integer.
pub fn integer_chosen(alloc: Global, value: i64) -> Result<TreeParts, AllocError> {
    tree_of(
        alloc,
        &[
            Int(value, 8),
            Always,
            Int(10, 17),
            Always,
            Int(20, 29),
            Always,
            Int(30, 43),
            Always,
            Int(99, 52),
            Switch(
                4,
                &[Case::OfInt(1, &[0])],
                &[
                    RangeCase::ExclusiveInt(5, 8, 1),
                    RangeCase::InclusiveInt(8, 10, 2),
                ],
                Some(3),
                1,
            ),
        ],
    )
}

/// Builds a `switch` over a text.
/// It is `switch v { "hello" => 10, 'x' => 20, true => 30, _ => 99 }`, with the text instead of `v`.
pub fn text_chosen(alloc: Global, text: &str) -> Result<TreeParts, AllocError> {
    tree_of(
        alloc,
        &[
            Text(text, 8),
            Always,
            Int(10, 23),
            Always,
            Int(20, 34),
            Always,
            Int(30, 46),
            Always,
            Int(99, 55),
            Switch(
                4,
                &[
                    Case::OfText("hello", &[0]),
                    Case::OfCharacter('x', &[1]),
                    Case::OfTruth(true, &[2]),
                ],
                &[],
                Some(3),
                1,
            ),
        ],
    )
}

/// `switch v { "hello" => 10, 'x' => 20, true => 30, _ => 99 }`, with `'x'` instead of `v`.
pub const CHARACTER_CHOSEN: &[Part<'_>] = &[
    Character('x', 8),
    Always,
    Int(10, 23),
    Always,
    Int(20, 34),
    Always,
    Int(30, 46),
    Always,
    Int(99, 55),
    Switch(
        4,
        &[
            Case::OfText("hello", &[0]),
            Case::OfCharacter('x', &[1]),
            Case::OfTruth(true, &[2]),
        ],
        &[],
        Some(3),
        1,
    ),
];

/// Builds a `for` whose turns have a `switch` of ten cases.
/// It is `for i in 0..1000000 { switch i % 10 { 0 => 9, 1 => 8, 2 => 7, 3 => 6, 4 => 5, 5 => 4, 6 => 3, 7 =>
/// 2, 8 => 1, 9 => 0 } }`, with `turns` instead of the million.
pub fn choices_in_turn(alloc: Global, turns: i64) -> Result<Items<Stmt>, AllocError> {
    statements_of(
        alloc,
        &[
            Int(0, 10),
            Int(turns, 13),
            Operator(Token::ExclusiveRange, 11),
            Variable("i", 1, 30),
            Int(10, 34),
            Operator(Token::Modulo, 32),
            Always,
            Int(9, 44),
            Always,
            Int(8, 52),
            Always,
            Int(7, 60),
            Always,
            Int(6, 68),
            Always,
            Int(5, 76),
            Always,
            Int(4, 84),
            Always,
            Int(3, 92),
            Always,
            Int(2, 100),
            Always,
            Int(1, 108),
            Always,
            Int(0, 116),
            Switch(
                10,
                &[
                    Case::OfInt(0, &[0]),
                    Case::OfInt(1, &[1]),
                    Case::OfInt(2, &[2]),
                    Case::OfInt(3, &[3]),
                    Case::OfInt(4, &[4]),
                    Case::OfInt(5, &[5]),
                    Case::OfInt(6, &[6]),
                    Case::OfInt(7, &[7]),
                    Case::OfInt(8, &[8]),
                    Case::OfInt(9, &[9]),
                ],
                &[],
                None,
                23,
            ),
            Block(1, 21, 120),
            For("i", 5, 1),
        ],
    )
}
