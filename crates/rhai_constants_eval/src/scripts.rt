//! Whole scripts and functions of scripts.

ghost use Rattle.std.specs.Option.{option_copied};
ghost use Rattle.std.specs.Prelude.{None, Some, false};
ghost use Rattle.rhai_values.specs.Cells.{cells_of};
ghost use Rattle.rhai_lookups.specs.Levels.{CachesFit};
ghost use Rattle.rhai_lookups.specs.Runs.{lists_of};
ghost use Rattle.rhai_machine.specs.language.Activations.{OwnThis};
ghost use Rattle.rhai_machine.specs.language.Frames.{EnterFunction};
ghost use Rattle.rhai_fits.specs.Sealed.{AreSealed};
ghost use Rattle.rhai_steps.specs.Callers.{state_of};
ghost use Rattle.rhai_steps.specs.States.{holding};
ghost use Rattle.rhai_eval_steps.specs.Bodies.{entered};
ghost use Rattle.rhai_eval.specs.States.{under};
ghost use Rattle.rhai_constants_eval.specs.Staying.{script, StaysAs, StaysFrom};

use rhai_errors::error::EvalAltResult;
use rhai_errors::table::NativeTable;
use rhai_eval::engine::Engine;
use rhai_lookups::caches::Caches;
use rhai_state::scope::Scope;
use rhai_state::state::GlobalRuntimeState;
use rhai_tree::checked::{CheckedFn, CheckedTree};
use rhai_tree::position::Position;
use rhai_values::base::value::{Dynamic, EncapsulatedEnviron, Host};
use std::alloc::Global;

/// Shows that constants stay through `Engine::eval_global_statements`, unless its run replaces them.
pub fn eval_global_statements<H: Host, T: NativeTable<H>>(
    engine: &Engine<H>,
    alloc: Global,
    global: &mut GlobalRuntimeState<H>,
    caches: &mut Caches<H>,
    table: &mut T,
    scope: &mut Scope<H>,
    tree: &CheckedTree,
    map_exit_to_return_value: bool,
) -> Result<Dynamic<H>, EvalAltResult<H>>
    requires fit { CachesFit (lists_of global.old) caches.old }
    requires sealed { AreSealed (cells_of global.old.cells) }
    ensures stays { StaysFrom (under H.name_of engine.now T.natives)
        (script tree.now.0 map_exit_to_return_value)
        (state_of (T.state table.old) global.old scope.old (holding None)) result
        (state_of (T.state table.new) global.new scope.new (holding None)) }
{
    engine.eval_global_statements(
        alloc,
        global,
        caches,
        table,
        scope,
        tree,
        map_exit_to_return_value,
    )
}

/// Shows that constants stay through `Engine::call_script_fn` on a `this`, unless its run replaces them.
pub fn call_script_fn<H: Host, T: NativeTable<H>>(
    engine: &Engine<H>,
    alloc: Global,
    global: &mut GlobalRuntimeState<H>,
    caches: &mut Caches<H>,
    table: &mut T,
    scope: &mut Scope<H>,
    this: &mut Dynamic<H>,
    env: Option<&EncapsulatedEnviron<H>>,
    def: &CheckedFn,
    args: &mut [Dynamic<H>],
    rewind_scope: bool,
    pos: Position,
) -> Result<Dynamic<H>, EvalAltResult<H>>
    requires fit { CachesFit (lists_of global.old) caches.old }
    requires sealed { AreSealed (cells_of global.old.cells) }
    ensures stays { StaysAs (under H.name_of engine.now T.natives)
        (EnterFunction (entered def.now (option_copied env.entry) OwnThis false rewind_scope args.old
        global.old.level pos))
        (state_of (T.state table.old) global.old scope.old (holding (Some this.old))) result
        (state_of (T.state table.new) global.new scope.new (holding (Some this.new))) }
{
    engine.call_script_fn(
        alloc,
        global,
        caches,
        table,
        scope,
        Some(this),
        env,
        def,
        args,
        rewind_scope,
        pos,
    )
}
