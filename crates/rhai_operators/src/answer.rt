//! What the built-in operators answer: read-write values, and errors without a position. The
//! contracts cite specs/Answers.antt.

ghost use Rattle.std.specs.Prelude.{◌≡◌, false};
ghost use Rattle.rhai_tree.specs.Position.{none};
ghost use Rattle.rhai_errors.specs.Errors.{is_out_of_memory, position_of};
ghost use Rattle.rhai_operators.specs.Answers as spec;
ghost use Rattle.rhai_operators.specs.Answers.{IsAnswer};

use crate::integers::ArithmeticFault;
use rhai_errors::error::EvalAltResult;
use rhai_errors::errors::shared_text;
use rhai_tree::position::Position;
use rhai_values::base::value::{Dynamic, Host, Union};
use std::alloc::Global;

/// Returns the text of a fault's error.
fn message<'a>(fault: ArithmeticFault) -> &'a str
    ensures { result.now ≡ spec.message fault }
{
    match fault {
        ArithmeticFault::Overflow => "integer overflow",
        ArithmeticFault::DivisionByZero => "division by zero",
        ArithmeticFault::BadShift => "bad shift",
        ArithmeticFault::BadExponent => "bad exponent",
    }
}

/// Builds the error of a fault, `ErrorOutOfMemory` where there is no memory for its text.
#[cold]
#[inline(never)]
fn arithmetic_error<H: Host>(alloc: Global, fault: ArithmeticFault) -> EvalAltResult<H>
    ensures value { is_out_of_memory result ≡ false → result ≡ spec.arithmetic_error fault }
    ensures unplaced { position_of result ≡ none }
{
    match shared_text(alloc, message(fault)) {
        Ok(text) => EvalAltResult::ErrorArithmetic(text, Position::NONE),
        Err(_) => EvalAltResult::ErrorOutOfMemory(Position::NONE),
    }
}

/// Builds the answer with an operator's value, or with the error of its fault.
pub(crate) fn answer<H: Host>(
    alloc: Global,
    outcome: Option<Result<Union<H>, ArithmeticFault>>,
) -> Option<Result<Dynamic<H>, EvalAltResult<H>>>
    ensures { IsAnswer result (spec.answer outcome) }
{
    match outcome {
        Some(Ok(value)) => Some(Ok(Dynamic::new(value))),
        Some(Err(fault)) => Some(Err(arithmetic_error(alloc, fault))),
        None => None,
    }
}
