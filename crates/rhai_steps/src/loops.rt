//! What a loop makes of its body's outcome, and whether it goes on. Ports these parts of the loops
//! of upstream's `eval/stmt.rs`.

ghost use Rattle.std.specs.Prelude.{◌≡◌, if◌then◌else◌, Err};
ghost use Rattle.rhai_tree.specs.declared.expr.Expr.{out-Expr};
ghost use Rattle.rhai_machine.specs.language.Loops.{is_endless as without_end};
ghost use Rattle.rhai_machine.specs.language.Statements.{has_option};
ghost use Rattle.rhai_steps.specs.Loops.{after_body, after_test, turn_in};

use crate::values::{let_go, unit_value};
use bitflags::Flags;
use rhai_errors::error::{EvalAltResult, WayOut};
use rhai_tree::expr::{Expr, Stmt, StmtBlock};
use rhai_tree::flags::ASTFlags;
use rhai_values::base::value::{Dynamic, Host};

/// How the body of a loop ended, errors that pass aside.
#[derive(Drop)]
pub enum BodyEnd<H> {
    /// At its last statement.
    Done,
    /// By a `continue`.
    Continue,
    /// By a `break`, with its value.
    Break(Dynamic<H>),
}

/// Tells what a loop makes of its body's outcome.
#[inline(always)]
pub fn body_end<H: Host>(
    outcome: Result<Dynamic<H>, EvalAltResult<H>>,
) -> Result<BodyEnd<H>, EvalAltResult<H>>
    ensures { result ≡ turn_in outcome }
{
    match outcome {
        Ok(value) => {
            let_go(value);
            Ok(BodyEnd::Done)
        }
        Err(error) => turn_left(error),
    }
}

/// Tells what a loop makes of an error that comes out of its body.
#[inline(never)]
fn turn_left<H: Host>(error: EvalAltResult<H>) -> Result<BodyEnd<H>, EvalAltResult<H>>
    ensures { result ≡ turn_in (Err error) }
{
    match error.way_out() {
        WayOut::LoopBreak(value, is_break, _) => {
            let value = value.into_inner();
            if is_break {
                Ok(BodyEnd::Break(value))
            } else {
                let_go(value);
                Ok(BodyEnd::Continue)
            }
        }
        WayOut::Return(value, at) => Err(EvalAltResult::Return(value, at)),
        WayOut::Exit(value, at) => Err(EvalAltResult::Exit(value, at)),
        WayOut::Error(error) => Err(error),
    }
}

/// Tells what a `while` makes of its body's outcome: None where another turn follows, else its value.
pub fn while_next<H: Host>(
    outcome: Result<Dynamic<H>, EvalAltResult<H>>,
) -> Result<Option<Dynamic<H>>, EvalAltResult<H>>
    ensures { result ≡ after_body (turn_in outcome) }
{
    match body_end(outcome)? {
        BodyEnd::Break(value) => Ok(Some(value)),
        BodyEnd::Done | BodyEnd::Continue => Ok(None),
    }
}

/// Tells whether a `while` is without a condition, or has the literal `true`.
pub fn is_endless(test: &Expr) -> bool
    ensures { result ≡ without_end (out-Expr test.now) }
{
    match test {
        Expr::BoolConstant(value, _) => *value,
        Expr::Unit(_) => true,
        _ => false,
    }
}

/// Tells whether a way out of a loop is a `break`.
pub fn breaks(options: ASTFlags) -> bool
    ensures { result ≡ has_option 2 options }
{
    options.contains(ASTFlags::BREAK)
}

/// Tells what a `do` makes of its condition: None where another turn follows, else its value.
pub fn do_next<H: Host>(options: ASTFlags, holds: bool) -> Option<Dynamic<H>>
    ensures { result ≡ after_test (has_option 1 options) holds }
{
    let goes_on = if options.contains(ASTFlags::NEGATED) {
        !holds
    } else {
        holds
    };
    if goes_on { None } else { Some(unit_value()) }
}

/// Returns the list that a condition chooses.
pub fn choose_list<'a>(holds: bool, body: &'a StmtBlock, branch: &'a StmtBlock) -> &'a [Stmt]
    ensures { result.now ≡ (if holds then body.now.statements else branch.now.statements) }
{
    let block = if holds { body } else { branch };
    block.statements.as_slice()
}
