//! Texts and characters: their order and their sums. The contracts cite specs/Operators.antt and
//! specs/Texts.antt.

ghost use Rattle.std.specs.Prelude.{◌≡◌, ◌++◌, IfOk};
ghost use Rattle.rhai_operators.specs.Answers.{IsAnswer};
ghost use Rattle.rhai_operators.specs.Answers as spec;
ghost use Rattle.rhai_operators.specs.Operators as rows;
ghost use Rattle.rhai_values.specs.declared.base.value.Union.TheVariants as value;

use crate::answer::answer;
use crate::compare::{comparison_of_order, comparison_of_types};
use crate::rows::if_compares;
use rhai_errors::error::EvalAltResult;
use rhai_tree::position::Position;
use rhai_tree::token::Token;
use rhai_tree::{Shared, Text};
use rhai_values::base::value::{Dynamic, Host, Union};
use std::alloc::{AllocError, Global};

/// Joins two texts into one.
fn joined(alloc: Global, x: &str, y: &str) -> Result<Shared<Text>, AllocError>
    ensures { IfOk result (λ text. text ≡ x.now ++ y.now) }
{
    let mut text = String::with_capacity(alloc, x.len() + y.len())?;
    text.push_str(x)?;
    text.push_str(y)?;
    Shared::new(alloc, Text::from_string(text))
}

/// Adds two texts, for an operator's answer: the first, and behind it the second.
fn sum<H: Host>(alloc: Global, x: &str, y: &str) -> Option<Result<Dynamic<H>, EvalAltResult<H>>>
    ensures { IsAnswer result (spec.answer (rows.gives (value.Str (x.now ++ y.now)))) }
{
    match joined(alloc, x, y) {
        Ok(text) => Some(Ok(Dynamic::new(Union::Str(text)))),
        Err(_) => Some(Err(EvalAltResult::ErrorOutOfMemory(Position::NONE))),
    }
}

/// Computes what an operator gives for two characters.
pub(crate) fn of_characters<H: Host>(
    alloc: Global,
    op: Token,
    x: char,
    y: char,
) -> Option<Result<Dynamic<H>, EvalAltResult<H>>>
    ensures { IsAnswer result (spec.answer (rows.of_characters {H = H} op x y)) }
{
    match op {
        Token::Plus => sum(
            alloc,
            x.encode_utf8(&mut [0; 4]),
            y.encode_utf8(&mut [0; 4]),
        ),
        _ => answer(alloc, if_compares(comparison_of_order(op, x.cmp(&y)))),
    }
}

/// Computes what an operator gives for two texts.
pub(crate) fn of_texts<H: Host>(
    alloc: Global,
    op: Token,
    x: &str,
    y: &str,
) -> Option<Result<Dynamic<H>, EvalAltResult<H>>>
    ensures { IsAnswer result (spec.answer (rows.of_texts {H = H} op x.now y.now)) }
{
    match op {
        Token::Plus => sum(alloc, x, y),
        _ => answer(alloc, if_compares(comparison_of_order(op, x.cmp(&y)))),
    }
}

/// Computes what an operator gives for a text and a character, in either order, both as texts.
pub(crate) fn of_mixed<H: Host>(
    alloc: Global,
    op: Token,
    x: &str,
    y: &str,
) -> Option<Result<Dynamic<H>, EvalAltResult<H>>>
    ensures { IsAnswer result (spec.answer (rows.of_mixed {H = H} op x.now y.now)) }
{
    match op {
        Token::Plus => sum(alloc, x, y),
        _ => answer(alloc, if_compares(comparison_of_types(op))),
    }
}
