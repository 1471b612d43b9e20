//! How a `throw`, a `return`, a `break` and a `continue` leave: as errors. Ports these ways out of upstream's
//! `eval/stmt.rs`.

ghost use Rattle.std.specs.Prelude.{◌≡◌, false};
ghost use Rattle.rhai_errors.specs.Errors.{is_out_of_memory};
ghost use Rattle.rhai_errors.specs.declared.error.EvalAltResult.TheVariants as error;
ghost use Rattle.rhai_machine.specs.language.Statements.{has_option};
ghost use Rattle.rhai_context.specs.Ends.{error_in};
ghost use Rattle.rhai_stmt.specs.Leaving.{left_with};

use rhai_context::ends::{stop, take_value};
use rhai_errors::error::EvalAltResult;
use rhai_errors::errors::{loop_break, returned};
use rhai_steps::loops::breaks;
use rhai_tree::Boxed;
use rhai_tree::flags::ASTFlags;
use rhai_tree::position::Position;
use rhai_values::base::value::{Dynamic, Host};
use std::alloc::Global;

/// Builds the error of a value that is thrown.
fn thrown<H: Host>(alloc: Global, value: Dynamic<H>, pos: Position) -> EvalAltResult<H>
    ensures { is_out_of_memory result ≡ false → result ≡ error.ErrorRuntime value pos }
{
    match Boxed::new(alloc, value) {
        Ok(value) => EvalAltResult::ErrorRuntime(value, pos),
        Err(_) => EvalAltResult::ErrorOutOfMemory(pos),
    }
}

/// Builds the error that a `return` or a `throw` ends by.
fn leaving_error<H: Host>(
    alloc: Global,
    value: Dynamic<H>,
    options: ASTFlags,
    pos: Position,
) -> EvalAltResult<H>
    ensures { is_out_of_memory result ≡ false → result ≡ left_with (has_option 2 options) value pos }
{
    if breaks(options) {
        thrown(alloc, value, pos)
    } else {
        returned(alloc, value, pos)
    }
}

/// Stops the run by a `return` or a `throw` of its value.
pub fn leave_with<H: Host>(
    alloc: Global,
    out: &mut Dynamic<H>,
    place: &mut Option<EvalAltResult<H>>,
    options: ASTFlags,
    pos: Position,
) -> bool
    ensures stopped { result ≡ false }
    ensures told { is_out_of_memory (error_in place.new) ≡ false →
        error_in place.new ≡ left_with (has_option 2 options) out.old pos }
{
    let value = take_value(out);
    stop(place, leaving_error(alloc, value, options, pos))
}

/// Stops the run by a `break` or a `continue` with its value.
pub fn break_with<H: Host>(
    alloc: Global,
    out: &mut Dynamic<H>,
    place: &mut Option<EvalAltResult<H>>,
    options: ASTFlags,
    pos: Position,
) -> bool
    ensures stopped { result ≡ false }
    ensures told { is_out_of_memory (error_in place.new) ≡ false →
        error_in place.new ≡ error.LoopBreak out.old (has_option 2 options) pos }
{
    let value = take_value(out);
    stop(place, loop_break(alloc, value, breaks(options), pos))
}
