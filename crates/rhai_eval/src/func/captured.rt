//! Methods of scripts that run on the caller's variables. Ports what upstream's `exec_fn_call` does with a
//! scope for a method; the contract speaks of the machine's runs.

ghost use Rattle.std.specs.Prelude.{false};
ghost use Rattle.rhai_machine.specs.language.Activations.{TheFocus};
ghost use Rattle.rhai_machine.specs.language.Calls.{entry_of};
ghost use Rattle.rhai_machine.specs.language.Frames.{EnterFunction};
ghost use Rattle.rhai_machine.specs.language.Runs.{Runs};
ghost use Rattle.rhai_steps.specs.OnFocus.{lending};
ghost use Rattle.rhai_steps.specs.States.{local_of, state_of};
ghost use Rattle.rhai_eval_core.specs.States.{under as under_what_is_read};

use rhai_bodies::callers::{environ_in, level_below};
use rhai_context::Context;
use rhai_context::ends::finish;
use rhai_errors::error::EvalAltResult;
use rhai_errors::table::NativeTable;
use rhai_eval_core::evaluator::Evaluator;
use rhai_few::Few;
use rhai_functions::function::Function;
use rhai_links::focus::put_this;
use rhai_steps::values::unit_value;
use rhai_tree::position::Position;
use rhai_values::base::value::{Dynamic, Host};
use std::mem::replace;

/// Enters a function of a script on the run's variables, with a place of the caller as its `this`. What it
/// adds to the variables goes at its end.
///
/// # Errors
/// Those of `call_script_fn`.
pub(crate) fn enter_with_this<H: Host, T: NativeTable<H>>(
    evaluator: &Evaluator<'_, H>,
    run: &mut Context<H>,
    table: &mut T,
    function: Function<H>,
    focus: &mut Dynamic<H>,
    args: Few<Dynamic<H>>,
    pos: Position,
) -> Result<Dynamic<H>, EvalAltResult<H>>
    ensures runs { (held : _) → let caller = local_of run.old.global run.old.scope (lending held focus.old) in
        Runs (under_what_is_read H.name_of evaluator.now T.natives)
        (EnterFunction (entry_of function TheFocus false args pos caller))
        (state_of (T.state table.old) run.old.global run.old.scope (lending held focus.old)) result
        (state_of (T.state table.new) run.new.global run.new.scope (lending held focus.new)) }
{
    let this = replace(focus, unit_value());
    let outer = replace(&mut run.this, Some(this));
    let mut args = args;
    let length = run.scope.len();
    let level = level_below(run.global.level);
    let (def, environ) = (function.def.get(), environ_in(&function));
    let values = args.as_mut_slice();
    let done = evaluator.run_body(run, table, def, environ, values, true, level, pos);
    let result = finish(done, &mut run.value, &mut run.error);
    run.scope.rewind(length);
    let left = replace(&mut run.this, outer);
    put_this(focus, left);
    drop(args);
    drop(function);
    result
}
