//! A body is left. The contracts cite `returned` of the machine's specs/language/Bodies.antt and the crate's
//! own specs/Closing.antt.

ghost use Rattle.std.specs.Prelude.{◌≡◌, false, true, IfErr, IfOk, IsTrue};
ghost use Rattle.std.specs.Option.{option_copied};
ghost use Rattle.rhai_errors.specs.declared.error.EvalAltResult.TheVariants as variant;
ghost use Rattle.rhai_errors.specs.Errors.{at_position, is_out_of_memory, is_system};
ghost use Rattle.rhai_machine.specs.language.Activations as machine;
ghost use Rattle.rhai_machine.specs.language.Bodies.{left_by_error as left_by, library_name as last_library};
ghost use Rattle.rhai_machine.specs.language.Bodies.{returned as returned_by};
ghost use Rattle.rhai_machine.specs.language.State.{Answers};
ghost use Rattle.rhai_context.specs.Ends.{came, error_in};
ghost use Rattle.rhai_bodies.specs.Closing.{is_wrapped, outcome_of, source_under, taken_back, wrapped, Ends};

use crate::opening::{CallExit, leave_surroundings};
use rhai_context::ends::{settle, stopped};
use rhai_errors::error::{EvalAltResult, FunctionCallError, WayOut};
use rhai_lookups::run::RunState;
use rhai_tree::function::ScriptFuncDef;
use rhai_tree::position::Position;
use rhai_tree::{Boxed, Shared, Text};
use rhai_values::base::value::{Dynamic, EncapsulatedEnviron, Host};
use std::alloc::{AllocError, Global};

/// Returns the name of the last library of a function's environment.
fn library_name<H: Host>(environ: Option<&EncapsulatedEnviron<H>>) -> Option<&Shared<Text>>
    ensures { option_copied result ≡ last_library (option_copied environ.entry) }
{
    let last = environ?.lib.as_slice().last()?;
    match &last.get().id {
        Some(id) => Some(id),
        None => None,
    }
}

/// Tells where an error of a function comes from: a library by its name, else the state's source, else
/// nowhere.
fn source_of<H: Host>(
    alloc: Global,
    global: &RunState<H>,
    environ: Option<&EncapsulatedEnviron<H>>,
) -> Result<Shared<Text>, AllocError>
    ensures { IfOk result (λ source. source
        ≡ source_under global.now.source (option_copied environ.entry)) }
{
    if let Some(name) = library_name(environ) {
        return name.share();
    }
    match &global.source {
        Some(source) => source.share(),
        None => Shared::new(alloc, Text::new(alloc)),
    }
}

/// Wraps an error of a body under the function's name and its source. Where memory runs out the error is let
/// go.
fn in_call<H: Host>(
    alloc: Global,
    global: &RunState<H>,
    def: &ScriptFuncDef,
    environ: Option<&EncapsulatedEnviron<H>>,
    error: EvalAltResult<H>,
) -> Result<Boxed<FunctionCallError<H>>, AllocError>
    ensures { IfOk result (λ call. call
        ≡ wrapped global.now.source def.now.name (option_copied environ.entry) error) }
{
    let source = source_of(alloc, global, environ)?;
    let name = def.name.share()?;
    Boxed::new(
        alloc,
        FunctionCallError {
            name,
            source,
            error,
        },
    )
}

/// Ends a body by an error that is no way out of it. One of the system stands at the call, and any other is
/// wrapped.
fn left_by_error<H: Host>(
    alloc: Global,
    global: &RunState<H>,
    def: &ScriptFuncDef,
    environ: Option<&EncapsulatedEnviron<H>>,
    mut error: EvalAltResult<H>,
    pos: Position,
) -> EvalAltResult<H>
    ensures error { (exit : machine.CallExit H) →
        Ends def.now.name (option_copied environ.entry) global.now.source pos exit →
        is_out_of_memory result ≡ false → result ≡ left_by (is_system error) exit error }
    ensures at_once { is_system error ≡ true → result ≡ at_position pos error }
    ensures ran_out { is_out_of_memory result ≡ true → result ≡ variant.ErrorOutOfMemory pos }
{
    let is_system = error.is_system_exception();
    if is_system {
        error.set_position(pos);
        return error;
    }
    match in_call(alloc, global, def, environ, error) {
        Ok(call) => EvalAltResult::ErrorInFunctionCall(call, pos),
        Err(_) => EvalAltResult::ErrorOutOfMemory(pos),
    }
}

/// Ends a body by an error. A `return` gives its value, an exit stands at the call, and so does what the end
/// makes of any other.
fn returned<H: Host>(
    alloc: Global,
    global: &RunState<H>,
    def: &ScriptFuncDef,
    environ: Option<&EncapsulatedEnviron<H>>,
    error: EvalAltResult<H>,
    pos: Position,
) -> Result<Dynamic<H>, EvalAltResult<H>>
    ensures outcome { (exit : machine.CallExit H) →
        Ends def.now.name (option_copied environ.entry) global.now.source pos exit →
        Answers result (returned_by exit error) }
    ensures at_once { (exit : machine.CallExit H) → is_wrapped error ≡ false →
        result ≡ returned_by (record exit { at = pos }) error }
    ensures ran_out { IfErr result (λ e. is_out_of_memory e ≡ true → e ≡ variant.ErrorOutOfMemory pos) }
{
    match error.way_out() {
        WayOut::Return(value, _) => Ok(value.into_inner()),
        WayOut::Exit(value, _) => Err(EvalAltResult::Exit(value, pos)),
        WayOut::LoopBreak(value, is_break, at) => {
            let error = EvalAltResult::LoopBreak(value, is_break, at);
            Err(left_by_error(alloc, global, def, environ, error, pos))
        }
        WayOut::Error(error) => Err(left_by_error(alloc, global, def, environ, error, pos)),
    }
}

/// Leaves a body, on every way out. The libraries and imports that it brought go, and the table of constants
/// and the level are its caller's again. Its value stays, and a `return` gives its own. Ports what upstream's
/// `call_script_fn` does behind the body.
///
/// # Errors
/// The body's: an exit and those of the system at the call, any other in an `ErrorInFunctionCall` there.
pub fn close_function<H: Host>(
    alloc: Global,
    global: &mut RunState<H>,
    def: &ScriptFuncDef,
    environ: Option<&EncapsulatedEnviron<H>>,
    exit: CallExit,
    outcome: Result<Dynamic<H>, EvalAltResult<H>>,
    pos: Position,
) -> Result<Dynamic<H>, EvalAltResult<H>>
    ensures state { global.new ≡ taken_back exit global.old }
    ensures search { global.new.always_search_scope ≡ global.old.always_search_scope }
    ensures outcome { (end : machine.CallExit H) →
        Ends def.now.name (option_copied environ.entry) global.old.source pos end →
        Answers result (outcome_of end outcome) }
    ensures value { IfOk outcome (λ value. result ≡ Ok value) }
    ensures at_once { IfErr outcome (λ e. (end : machine.CallExit H) →
        is_wrapped e ≡ false → result ≡ returned_by (record end { at = pos }) e) }
    ensures ran_out { IfErr result (λ e. is_out_of_memory e ≡ true → e ≡ variant.ErrorOutOfMemory pos) }
{
    leave_surroundings(global, environ, exit);
    match outcome {
        Ok(value) => Ok(value),
        Err(error) => returned(alloc, &*global, def, environ, error, pos),
    }
}

/// Leaves a body that put what came of it into the run's places. What comes of the call goes there too.
///
/// # Errors
/// Those of `close_function`.
#[inline(never)]
pub fn close_body<H: Host>(
    alloc: Global,
    global: &mut RunState<H>,
    out: &mut Dynamic<H>,
    place: &mut Option<EvalAltResult<H>>,
    def: &ScriptFuncDef,
    environ: Option<&EncapsulatedEnviron<H>>,
    exit: CallExit,
    done: bool,
    pos: Position,
) -> bool
    ensures state { global.new ≡ taken_back exit global.old }
    ensures search { global.new.always_search_scope ≡ global.old.always_search_scope }
    ensures outcome { (end : machine.CallExit H) →
        Ends def.now.name (option_copied environ.entry) global.old.source pos end →
        Answers (came result out.new place.new) (outcome_of end (came done out.old place.old)) }
    ensures value { IsTrue done → came result out.new place.new ≡ came done out.old place.old }
    ensures at_once { done ≡ false → (end : machine.CallExit H) → is_wrapped (error_in place.old) ≡ false →
        came result out.new place.new ≡ returned_by (record end { at = pos }) (error_in place.old) }
    ensures ran_out { result ≡ false → is_out_of_memory (error_in place.new) ≡ true →
        error_in place.new ≡ variant.ErrorOutOfMemory pos }
{
    if done {
        leave_surroundings(global, environ, exit);
        return true;
    }
    let outcome = Err(stopped(place));
    settle(
        place,
        out,
        close_function(alloc, global, def, environ, exit, outcome, pos),
    )
}
