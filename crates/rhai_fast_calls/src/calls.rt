//! What stands around the body of a plain call, whose arguments are its parameters already.

ghost use Rattle.std.specs.Prelude.{◌≡◌, ◌≢◌, ◌<◌, ◌≤◌, ◌+◌, [], Err, IsTrue, None, Some, false, length, map, true};
ghost use Rattle.std.specs.Option.{option_copied};
ghost use Rattle.rhai_values.specs.Cells.{cells_of};
ghost use Rattle.rhai_errors.specs.Errors.{is_out_of_memory};
ghost use Rattle.rhai_state.specs.Scope.{entries_of, scope_of, value_of};
ghost use Rattle.rhai_errors.specs.declared.error.EvalAltResult.TheVariants as error;
ghost use Rattle.rhai_machine.specs.language.Activations as machine;
ghost use Rattle.rhai_machine.specs.language.Bodies.{statements_of as statements_in};
ghost use Rattle.rhai_machine.specs.language.Calls.{races};
ghost use Rattle.rhai_machine.specs.language.State.{Answers, deeper};
ghost use Rattle.rhai_steps.specs.Agreement.{KeepsSight};
ghost use Rattle.rhai_context.specs.Ends.{came, error_in, unit};
ghost use Rattle.rhai_bodies.specs.Closing.{outcome_of, taken_back, Ends};
ghost use Rattle.rhai_bodies.specs.Opening.{entered_global, entry, exit_seen, is_deep, is_full};

use crate::parameters::{stop_race, variables_race};
use rhai_bodies::callers::level_below;
use rhai_bodies::closing::close_body;
use rhai_bodies::opening::{CallExit, enter_level, may_run, statements_of, take_back};
use rhai_context::ends::put_unit;
use rhai_context::outcomes::charge;
use rhai_context::{Caller, Context, enter_variables, leave_variables};
use rhai_errors::error::EvalAltResult;
use rhai_lookups::run::RunState;
use rhai_state::limits::Limits;
use rhai_state::scope::ScopeEntry;
use rhai_tree::Items;
use rhai_tree::expr::FnCallExpr;
use rhai_tree::function::ScriptFuncDef;
use rhai_tree::position::Position;
use rhai_values::base::value::{Dynamic, EncapsulatedEnviron, Host};
use rhai_values::cells::CellStore;
use std::alloc::Global;

/// Stops a call where a parameter is the handle of a cell that is held. It tells whether it did: the error
/// stands in its place then.
///
/// # Errors
/// `ErrorDataRace` at the call, under its name.
#[inline(always)]
pub fn stops_by_race<H: Host>(
    alloc: Global,
    cells: &CellStore<H>,
    place: &mut Option<EvalAltResult<H>>,
    variables: &[ScopeEntry<H>],
    call: &FnCallExpr,
    pos: Position,
) -> bool
    ensures races { result ≡ races (cells_of cells.now) (map value_of variables.now) }
    ensures told { IsTrue result → is_out_of_memory (error_in place.new) ≡ false →
        error_in place.new ≡ error.ErrorDataRace call.now.name pos }
{
    if variables_race(cells, variables) {
        stop_race(alloc, place, call, pos);
        return true;
    }
    false
}

/// Ends a call before its body, and answers None where the body is to be entered. The call is charged, and is
/// only so deep and with only so many parameters, and a body without statements makes `()` of it.
///
/// # Errors
/// All at the call: `ErrorTooManyOperations`, `ErrorStackOverflow`, then `ErrorTooManyVariables`.
#[inline(always)]
pub fn ends_before<H: Host>(
    limits: &Limits,
    global: &mut RunState<H>,
    out: &mut Dynamic<H>,
    place: &mut Option<EvalAltResult<H>>,
    def: &ScriptFuncDef,
    pos: Position,
) -> Option<bool>
    ensures spent { limits.now.max_operations ≤ global.old.num_operations →
        (result ≡ Some false) × (error_in place.new ≡ error.ErrorTooManyOperations pos)
        × (global.new ≡ global.old) }
    ensures charged { global.old.num_operations < limits.now.max_operations →
        global.new ≡ record global.old { num_operations = global.old.num_operations + 1 } }
    ensures refused { global.old.num_operations < limits.now.max_operations → result ≡ Some false →
        (entry limits.now (deeper global.old.level) 0 (length def.now.params) pos ≡ Err (error_in place.new))
        × (is_out_of_memory (error_in place.new) ≡ false) }
    ensures passed { result ≡ Some true → (is_deep limits.now (deeper global.old.level) ≡ false)
        × (is_full limits.now 0 (length def.now.params) ≡ false) × (statements_in def.now.body ≡ [])
        × (out.new ≡ unit) }
    ensures enters { result ≡ None → (is_deep limits.now (deeper global.old.level) ≡ false)
        × (is_full limits.now 0 (length def.now.params) ≡ false) × (statements_in def.now.body ≢ []) }
    ensures sight { KeepsSight global.old global.new }
{
    if !charge(limits, global, place, pos) {
        return Some(false);
    }
    let level = level_below(global.level);
    if !may_run(limits, level, place, def, pos) {
        return Some(false);
    }
    if statements_of(def).is_empty() {
        put_unit(out);
        return Some(true);
    }
    None
}

/// What a plain call gives back: what its function brought, and its caller's variables and `this`.
#[derive(Drop)]
pub struct PlainCall<H> {
    pub exit: CallExit,
    pub caller: Caller<H>,
}

/// Enters the body of a plain call, one level deeper. Its parameters are its only variables, and there is no
/// `this`.
#[inline(always)]
pub fn enter_plain<H: Host>(run: &mut Context<H>, variables: Items<ScopeEntry<H>>) -> PlainCall<H>
    ensures exit { (any : _) → result.exit ≡ record (exit_seen run.old.global any) { scope_length = 0 } }
    ensures caller { result.caller ≡ record { variables = entries_of run.old.scope; this = run.old.this } }
    ensures run { run.new ≡ record run.old {
      global = entered_global None (deeper run.old.global.level) run.old.global;
      scope = scope_of variables;
      this = None;
    } }
{
    let level = level_below(run.global.level);
    let exit = enter_level(&mut run.global, level);
    let caller = enter_variables(run, variables);
    PlainCall { exit, caller }
}

/// Returns the environment of a function that has none. A `None` that is handed on as it is written, as an
/// `Option<&T>`, has no lifetime that the borrow checker's part of the proof finds.
#[inline(always)]
fn no_environ<H: Host>(_def: &ScriptFuncDef) -> Option<&EncapsulatedEnviron<H>>
    ensures { option_copied result ≡ None }
{
    None
}

/// Leaves the body of a plain call, which put what came of it into the run's places. What comes of the call
/// goes there too. Its caller's variables and `this` are there again, and the room of its own is kept for
/// another call.
///
/// # Errors
/// Those of `close_function`.
#[inline(always)]
pub fn leave_plain<H: Host>(
    alloc: Global,
    run: &mut Context<H>,
    def: &ScriptFuncDef,
    entered: PlainCall<H>,
    done: bool,
    pos: Position,
) -> bool
    ensures state { run.new.global ≡ taken_back entered.exit run.old.global }
    ensures scope { run.new.scope ≡ scope_of entered.caller.variables }
    ensures this { run.new.this ≡ entered.caller.this }
    ensures outcome { (end : machine.CallExit H) → Ends def.now.name None run.old.global.source pos end →
        Answers (came result run.new.value run.new.error)
        (outcome_of end (came done run.old.value run.old.error)) }
    ensures value { IsTrue done →
        came result run.new.value run.new.error ≡ came done run.old.value run.old.error }
    ensures ran_out { result ≡ false → is_out_of_memory (error_in run.new.error) ≡ true →
        error_in run.new.error ≡ error.ErrorOutOfMemory pos }
{
    let PlainCall { exit, caller } = entered;
    if done {
        take_back(&mut run.global, exit);
        leave_variables(run, caller);
        return true;
    }
    let (global, out, place) = (&mut run.global, &mut run.value, &mut run.error);
    let environ = no_environ(def);
    let done = close_body(alloc, global, out, place, def, environ, exit, done, pos);
    leave_variables(run, caller);
    done
}
