//! Arguments that become a function's variables as they are evaluated.

ghost use Rattle.std.specs.Prelude.{◌≡◌, ◌<◌, IsTrue, Ok, Err, false, true, length, map};
ghost use Rattle.rhai_tree.specs.Positions.{position_of};
ghost use Rattle.rhai_values.specs.Cells.{cells_of};
ghost use Rattle.rhai_values.specs.Copy.{plain};
ghost use Rattle.rhai_values.specs.declared.base.value.Union.TheVariants as kind;
ghost use Rattle.rhai_errors.specs.declared.error.EvalAltResult.TheVariants as error;
ghost use Rattle.rhai_errors.specs.Errors.{is_out_of_memory};
ghost use Rattle.rhai_state.specs.Scope.{value_of};
ghost use Rattle.rhai_machine.specs.language.Calls.{races};
ghost use Rattle.rhai_machine.specs.language.Values.{flat};
ghost use Rattle.rhai_context.specs.Ends.{error_in};
ghost use Rattle.rhai_fast_calls.specs.Filling.{HasFilled};

use rhai_calls::dispatch::is_held;
use rhai_context::ends::{stop, take_value};
use rhai_context::outcomes::flatten_at;
use rhai_errors::error::EvalAltResult;
use rhai_errors::errors::data_race_by;
use rhai_state::scope::{ScopeEntry, push_integer, push_variable};
use rhai_tree::Items;
use rhai_tree::expr::{Expr, FnCallExpr};
use rhai_tree::function::ScriptFuncDef;
use rhai_tree::position::Position;
use rhai_values::base::value::{Dynamic, Host, Union};
use rhai_values::cells::CellStore;
use std::alloc::Global;

/// Stops a run at an argument that finds no memory.
#[cold]
#[inline(never)]
fn stop_without_room<H: Host>(place: &mut Option<EvalAltResult<H>>, arg: &Expr) -> bool
    ensures stopped { result ≡ false }
    ensures told { is_out_of_memory (error_in place.new) ≡ true }
{
    stop(place, EvalAltResult::ErrorOutOfMemory(arg.position()))
}

/// Adds an integer, which is the value of a run, as a function's next parameter, which may be written.
#[inline(always)]
fn push_number<H: Host>(
    place: &mut Option<EvalAltResult<H>>,
    variables: &mut Items<ScopeEntry<H>>,
    def: &ScriptFuncDef,
    arg: &Expr,
    number: &i64,
) -> bool
    requires { length variables.old < length def.now.params }
    ensures filled { IsTrue result →
        HasFilled def.now.params (Ok (plain (kind.Int number.now))) variables.old variables.new }
    ensures refused { result ≡ false → is_out_of_memory (error_in place.new) ≡ true }
{
    let Ok(name) = def.params.as_slice()[variables.len()].share() else {
        return stop_without_room(place, arg);
    };
    match push_integer(variables, name, *number) {
        Ok(()) => true,
        Err(_) => stop_without_room(place, arg),
    }
}

/// Flattens the value of a run and adds it as a function's next parameter, which may be written.
#[inline(never)]
fn push_flattened<H: Host>(
    alloc: Global,
    cells: &CellStore<H>,
    out: &mut Dynamic<H>,
    place: &mut Option<EvalAltResult<H>>,
    variables: &mut Items<ScopeEntry<H>>,
    def: &ScriptFuncDef,
    arg: &Expr,
) -> bool
    requires { length variables.old < length def.now.params }
    ensures filled { IsTrue result → HasFilled def.now.params
        (flat (cells_of cells.now) out.old (position_of arg.now))
        variables.old variables.new }
    ensures refused { result ≡ false → is_out_of_memory (error_in place.new) ≡ false →
        flat (cells_of cells.now) out.old (position_of arg.now) ≡ Err (error_in place.new) }
{
    if !flatten_at(alloc, cells, out, place, arg) {
        return false;
    }
    let Ok(name) = def.params.as_slice()[variables.len()].share() else {
        return stop_without_room(place, arg);
    };
    match push_variable(variables, name, take_value(out)) {
        Ok(()) => true,
        Err(_) => stop_without_room(place, arg),
    }
}

/// Adds the value of a run, flattened, as a function's next parameter, which may be written. It tells whether
/// that went well; an error stands in the run's place. Asked: there is a parameter for it.
///
/// # Errors
/// `ErrorDataRace` at the argument, where it is the handle of a cell that is held.
#[inline(always)]
pub fn push_parameter<H: Host>(
    alloc: Global,
    cells: &CellStore<H>,
    out: &mut Dynamic<H>,
    place: &mut Option<EvalAltResult<H>>,
    variables: &mut Items<ScopeEntry<H>>,
    def: &ScriptFuncDef,
    arg: &Expr,
) -> bool
    requires { length variables.old < length def.now.params }
    ensures filled { IsTrue result → HasFilled def.now.params
        (flat (cells_of cells.now) out.old (position_of arg.now))
        variables.old variables.new }
    ensures refused { result ≡ false → is_out_of_memory (error_in place.new) ≡ false →
        flat (cells_of cells.now) out.old (position_of arg.now) ≡ Err (error_in place.new) }
{
    match &out.value {
        Union::Int(number) => push_number(place, variables, def, arg, number),
        _ => push_flattened(alloc, cells, out, place, variables, def, arg),
    }
}

/// Tells whether a variable is the handle of a cell that is held.
pub fn variables_race<H: Host>(cells: &CellStore<H>, variables: &[ScopeEntry<H>]) -> bool
    ensures { result ≡ races (cells_of cells.now) (map value_of variables.now) }
{
    'entries: for entry in variables {
        if is_held(cells, &entry.value) {
            return true;
        }
    }
    false
}

/// Stops a run since a call's argument is the handle of a cell that is held.
#[cold]
#[inline(never)]
pub fn stop_race<H: Host>(
    alloc: Global,
    place: &mut Option<EvalAltResult<H>>,
    call: &FnCallExpr,
    pos: Position,
) -> bool
    ensures stopped { result ≡ false }
    ensures told { is_out_of_memory (error_in place.new) ≡ false →
        error_in place.new ≡ error.ErrorDataRace call.now.name pos }
{
    stop(place, data_race_by(alloc, call.name.get().as_str(), pos))
}
