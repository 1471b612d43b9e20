//! What a script's end makes of its outcome.

ghost use Rattle.std.specs.Prelude.{◌≡◌, Ok, IfOk, IfErr};
ghost use Rattle.rhai_machine.specs.language.Unwinding.{script_ended};

use rhai_errors::error::{EvalAltResult, WayOut};
use rhai_values::base::value::{Dynamic, Host};

/// Tells what a script's end makes of an error. A `return` gives its value, and so does an exit where that is
/// asked.
fn end_by_error<H: Host>(
    error: EvalAltResult<H>,
    map_exit_to_return_value: bool,
) -> Result<Dynamic<H>, EvalAltResult<H>>
    ensures { result ≡ script_ended map_exit_to_return_value error }
{
    match error.way_out() {
        WayOut::Return(value, _) => Ok(value.into_inner()),
        WayOut::Exit(value, at) => {
            if map_exit_to_return_value {
                Ok(value.into_inner())
            } else {
                Err(EvalAltResult::Exit(value, at))
            }
        }
        WayOut::LoopBreak(value, is_break, at) => Err(EvalAltResult::LoopBreak(
            value, is_break, at,
        )),
        WayOut::Error(error) => Err(error),
    }
}

/// Tells what a script's end makes of its outcome.
pub fn end_script<H: Host>(
    outcome: Result<Dynamic<H>, EvalAltResult<H>>,
    map_exit_to_return_value: bool,
) -> Result<Dynamic<H>, EvalAltResult<H>>
    ensures value { IfOk outcome (λ value. result ≡ Ok value) }
    ensures error { IfErr outcome (λ error. result ≡ script_ended map_exit_to_return_value error) }
{
    match outcome {
        Ok(value) => Ok(value),
        Err(error) => end_by_error(error, map_exit_to_return_value),
    }
}
