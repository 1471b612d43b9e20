//! Calls by name on a scope and a first argument.

ghost use Rattle.std.specs.Prelude.{◌≡◌, ◌||◌, Some, false, true};
ghost use Rattle.std.specs.Option.{option_copied};
ghost use Rattle.rhai_values.specs.Cells.{cells_of};
ghost use Rattle.rhai_lookups.specs.Levels.{CachesFit};
ghost use Rattle.rhai_lookups.specs.Runs.{lists_of};
ghost use Rattle.rhai_machine.specs.language.Calls.{dispatch_core};
ghost use Rattle.rhai_fits.specs.Sealed.{AreSealed};
ghost use Rattle.rhai_steps.specs.Callers.{state_of};
ghost use Rattle.rhai_eval.specs.Places.{by_name, by_value, on_place, with_place};
ghost use Rattle.rhai_eval.specs.States.{under};
ghost use Rattle.rhai_constants_eval.specs.Staying.{StaysChanged};

use rhai_errors::error::EvalAltResult;
use rhai_errors::table::NativeTable;
use rhai_eval::engine::Engine;
use rhai_lookups::caches::Caches;
use rhai_state::scope::Scope;
use rhai_state::state::GlobalRuntimeState;
use rhai_tree::position::Position;
use rhai_tree::token::Token;
use rhai_values::base::value::{Dynamic, Host};
use std::alloc::Global;

/// Shows that constants stay through `Engine::exec_fn_call`, unless its run replaces them. Its first argument
/// is lent: one in a place of the caller, or that of a method.
pub fn exec_fn_call<H: Host, T: NativeTable<H>>(
    engine: &Engine<H>,
    alloc: Global,
    global: &mut GlobalRuntimeState<H>,
    caches: &mut Caches<H>,
    table: &mut T,
    scope: &mut Scope<H>,
    name: &str,
    op_token: Option<&Token>,
    first: &mut Dynamic<H>,
    rest: &mut [Dynamic<H>],
    is_ref_mut: bool,
    is_method_call: bool,
    position: Position,
) -> Result<(Dynamic<H>, bool), EvalAltResult<H>>
    requires fit { CachesFit (lists_of global.old) caches.old }
    requires lent { (is_ref_mut || is_method_call) ≡ true }
    requires sealed { AreSealed (cells_of global.old.cells) }
    ensures stays { (this : _) → let rules = under H.name_of engine.now T.natives in StaysChanged rules
        (dispatch_core rules.setting (by_name is_method_call true) (on_place
        (record { name = name.now; token = option_copied op_token.entry; at = position }) true
        (Some first.old) rest.old))
        (state_of (T.state table.old) global.old scope.old (with_place this (Some first.old))) result
        (state_of (T.state table.new) global.new scope.new (with_place this (Some first.new))) }
{
    engine.exec_fn_call(
        alloc,
        global,
        caches,
        table,
        Some(scope),
        name,
        op_token,
        Some(first),
        rest,
        is_ref_mut,
        is_method_call,
        position,
    )
}

/// Shows that constants stay through `Engine::exec_fn_call`, unless its run replaces them. Its first argument
/// is handed in by value.
pub fn exec_fn_call_by_value<H: Host, T: NativeTable<H>>(
    engine: &Engine<H>,
    alloc: Global,
    global: &mut GlobalRuntimeState<H>,
    caches: &mut Caches<H>,
    table: &mut T,
    scope: &mut Scope<H>,
    name: &str,
    op_token: Option<&Token>,
    first: &mut Dynamic<H>,
    rest: &mut [Dynamic<H>],
    position: Position,
) -> Result<(Dynamic<H>, bool), EvalAltResult<H>>
    requires fit { CachesFit (lists_of global.old) caches.old }
    requires sealed { AreSealed (cells_of global.old.cells) }
    ensures stays { (held : _) → let rules = under H.name_of engine.now T.natives in StaysChanged rules
        (dispatch_core rules.setting (by_name false true) (by_value
        (record { name = name.now; token = option_copied op_token.entry; at = position })
        (Some first.old) rest.old))
        (state_of (T.state table.old) global.old scope.old held) result
        (state_of (T.state table.new) global.new scope.new held) }
{
    engine.exec_fn_call(
        alloc,
        global,
        caches,
        table,
        Some(scope),
        name,
        op_token,
        Some(first),
        rest,
        false,
        false,
        position,
    )
}
