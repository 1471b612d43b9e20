//! Positions and functions of a tree.

ghost use Rattle.std.specs.Prelude.{◌≡◌, ◌≢◌, is_ok};

use rhai_tree::expr::{Expr, Stmt};
use rhai_tree::function::{ScriptFuncDef, ScriptFuncPayload};
use rhai_tree::position::Position;
use rhai_tree::signature::ParamName;
use rhai_tree::token::Token;
use rhai_tree::{Shared, Text};
use std::alloc::{AllocError, Global};

/// Shows that `Expr::position` reads equal positions from equal expressions.
pub fn expr_position(one: &Expr, other: &Expr) -> (Position, Position)
    requires { one.now ≡ other.now }
    ensures { result.0 ≡ result.1 }
{
    (one.position(), other.position())
}

/// Shows that `Expr::start_position` finds equal positions in equal expressions.
pub fn expr_start(one: &Expr, other: &Expr) -> (Position, Position)
    requires { one.now ≡ other.now }
    ensures { result.0 ≡ result.1 }
{
    (one.start_position(), other.start_position())
}

/// Shows that `Stmt::position` reads equal positions from equal statements.
pub fn stmt_position(one: &Stmt, other: &Stmt) -> (Position, Position)
    requires { one.now ≡ other.now }
    ensures { result.0 ≡ result.1 }
{
    (one.position(), other.position())
}

/// Shows that `ScriptFuncPayload::start_position` finds equal positions in equal bodies.
pub fn body_start(one: &ScriptFuncPayload, other: &ScriptFuncPayload) -> (Position, Position)
    requires { one.now ≡ other.now }
    ensures { result.0 ≡ result.1 }
{
    (one.start_position(), other.start_position())
}

/// Shows that `ScriptFuncPayload::end_position` finds equal positions in equal bodies.
pub fn body_end(one: &ScriptFuncPayload, other: &ScriptFuncPayload) -> (Position, Position)
    requires { one.now ≡ other.now }
    ensures { result.0 ≡ result.1 }
{
    (one.end_position(), other.end_position())
}

/// Shows that `ScriptFuncDef::clone_function_signatures` copies equal functions alike.
pub fn signatures(
    one: &ScriptFuncDef,
    other: &ScriptFuncDef,
    alloc: Global,
) -> (
    Result<ScriptFuncDef, AllocError>,
    Result<ScriptFuncDef, AllocError>,
)
    requires { one.now ≡ other.now }
    ensures { is_ok result.0 ≡ is_ok result.1 → result.0 ≡ result.1 }
{
    (
        one.clone_function_signatures(alloc),
        other.clone_function_signatures(alloc),
    )
}

/// Shows that two calls of `Position::new` build equal positions.
pub fn position(line: u16, position: u16) -> (Position, Position)
    requires line { line ≢ 0 }
    requires position { position ≢ 0 }
    ensures { result.0 ≡ result.1 }
{
    (Position::new(line, position), Position::new(line, position))
}

/// Shows that `Position::is_none` answers alike for equal positions.
pub fn is_none(one: Position, other: Position) -> (bool, bool)
    requires { one ≡ other }
    ensures { result.0 ≡ result.1 }
{
    (one.is_none(), other.is_none())
}

/// Shows that `Position::line` reads equal lines from equal positions.
pub fn line(one: Position, other: Position) -> (Option<u16>, Option<u16>)
    requires { one ≡ other }
    ensures { result.0 ≡ result.1 }
{
    (one.line(), other.line())
}

/// Shows that `Position::position` reads equal columns from equal positions.
pub fn column(one: Position, other: Position) -> (Option<u16>, Option<u16>)
    requires { one ≡ other }
    ensures { result.0 ≡ result.1 }
{
    (one.position(), other.position())
}

/// Shows that `ParamName::as_name` reads equal names from equal parameters.
pub fn parameter_name<'a>(one: &'a Shared<Text>, other: &'a Shared<Text>) -> (&'a str, &'a str)
    requires { one.now ≡ other.now }
    ensures { result.0.now ≡ result.1.now }
{
    (one.as_name(), other.as_name())
}

/// Shows that `Token::as_str` answers equal texts for equal tokens.
pub fn token_text(one: Token, other: Token) -> (&'static str, &'static str)
    requires { one ≡ other }
    ensures { result.0.now ≡ result.1.now }
{
    (one.as_str(), other.as_str())
}
