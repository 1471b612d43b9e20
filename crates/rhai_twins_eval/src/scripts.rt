//! Whole scripts and functions of scripts.

ghost use Rattle.std.specs.Prelude.{◌≡◌, None, Some};
ghost use Rattle.rhai_lookups.specs.Levels.{CachesFit, is_on};
ghost use Rattle.rhai_lookups.specs.Runs.{lists_of};
ghost use Rattle.rhai_twins_eval.specs.Same.{SameEnd};
ghost use Rattle.rhai_steps.specs.Callers.{state_of};
ghost use Rattle.rhai_steps.specs.States.{holding};
ghost use Rattle.rhai_twins_eval.specs.Same.{Same};

use rhai_errors::error::EvalAltResult;
use rhai_errors::table::NativeTable;
use rhai_eval::engine::Engine;
use rhai_functions::key::FnKey;
use rhai_lookups::caches::Caches;
use rhai_state::scope::Scope;
use rhai_state::state::GlobalRuntimeState;
use rhai_tree::checked::{CheckedFn, CheckedTree};
use rhai_tree::position::Position;
use rhai_values::base::value::{Dynamic, EncapsulatedEnviron, Host};
use std::alloc::Global;

/// Shows that two calls of `Engine::eval_global_statements` from equal starts end equally.
pub fn eval_global_statements<H: Host, T: NativeTable<H>>(
    engine: &Engine<H>,
    alloc: Global,
    global: &mut GlobalRuntimeState<H>,
    also_global: &mut GlobalRuntimeState<H>,
    caches: &mut Caches<H>,
    also_caches: &mut Caches<H>,
    table: &mut T,
    also_table: &mut T,
    scope: &mut Scope<H>,
    also_scope: &mut Scope<H>,
    tree: &CheckedTree,
    map_exit_to_return_value: bool,
) -> (
    Result<Dynamic<H>, EvalAltResult<H>>,
    Result<Dynamic<H>, EvalAltResult<H>>,
)
    requires global { global.old ≡ also_global.old }
    requires fit { CachesFit (lists_of global.old) caches.old }
    requires also_fit { CachesFit (lists_of also_global.old) also_caches.old }
    requires table { T.state table.old ≡ T.state also_table.old }
    requires scope { scope.old ≡ also_scope.old }
    ensures run { Same result.0 result.1
        (state_of (T.state table.new) global.new scope.new (holding None))
        (state_of (T.state also_table.new) also_global.new also_scope.new (holding None)) }
    ensures on { is_on caches.old ≡ is_on also_caches.old → is_on caches.new ≡ is_on also_caches.new }
    ensures search { global.new.always_search_scope ≡ also_global.new.always_search_scope }
    ensures global { SameEnd result.0 result.1 global.new also_global.new }
    ensures scope { SameEnd result.0 result.1 scope.new also_scope.new }
    ensures table { SameEnd result.0 result.1 (T.state table.new) (T.state also_table.new) }
{
    (
        engine.eval_global_statements(
            alloc,
            global,
            caches,
            table,
            scope,
            tree,
            map_exit_to_return_value,
        ),
        engine.eval_global_statements(
            alloc,
            also_global,
            also_caches,
            also_table,
            also_scope,
            tree,
            map_exit_to_return_value,
        ),
    )
}

/// Shows that two calls of `Engine::call_script_fn` on a `this` from equal starts end equally. What is left
/// of the arguments is equal too.
pub fn call_script_fn<H: Host, T: NativeTable<H>>(
    engine: &Engine<H>,
    alloc: Global,
    global: &mut GlobalRuntimeState<H>,
    also_global: &mut GlobalRuntimeState<H>,
    caches: &mut Caches<H>,
    also_caches: &mut Caches<H>,
    table: &mut T,
    also_table: &mut T,
    scope: &mut Scope<H>,
    also_scope: &mut Scope<H>,
    this: &mut Dynamic<H>,
    also_this: &mut Dynamic<H>,
    env: Option<&EncapsulatedEnviron<H>>,
    def: &CheckedFn,
    args: &mut [Dynamic<H>],
    also_args: &mut [Dynamic<H>],
    rewind_scope: bool,
    pos: Position,
) -> (
    Result<Dynamic<H>, EvalAltResult<H>>,
    Result<Dynamic<H>, EvalAltResult<H>>,
)
    requires global { global.old ≡ also_global.old }
    requires fit { CachesFit (lists_of global.old) caches.old }
    requires also_fit { CachesFit (lists_of also_global.old) also_caches.old }
    requires table { T.state table.old ≡ T.state also_table.old }
    requires scope { scope.old ≡ also_scope.old }
    requires this { this.old ≡ also_this.old }
    requires args { args.old ≡ also_args.old }
    ensures run { Same result.0 result.1
        (state_of (T.state table.new) global.new scope.new (holding (Some this.new)))
        (state_of (T.state also_table.new) also_global.new also_scope.new (holding (Some also_this.new))) }
    ensures args { SameEnd result.0 result.1 args.new also_args.new }
    ensures on { is_on caches.old ≡ is_on also_caches.old → is_on caches.new ≡ is_on also_caches.new }
    ensures search { global.new.always_search_scope ≡ also_global.new.always_search_scope }
{
    (
        engine.call_script_fn(
            alloc,
            global,
            caches,
            table,
            scope,
            Some(this),
            env,
            def,
            args,
            rewind_scope,
            pos,
        ),
        engine.call_script_fn(
            alloc,
            also_global,
            also_caches,
            also_table,
            also_scope,
            Some(also_this),
            env,
            def,
            also_args,
            rewind_scope,
            pos,
        ),
    )
}

/// Shows that two calls of `Engine::has_script_fn` in one state answer equally.
pub fn has_script_fn<H: Host>(
    engine: &Engine<H>,
    state: &GlobalRuntimeState<H>,
    caches: &mut Caches<H>,
    also_caches: &mut Caches<H>,
    key: FnKey<'_>,
) -> (bool, bool)
    requires fit { CachesFit (lists_of state.now) caches.old }
    requires also_fit { CachesFit (lists_of state.now) also_caches.old }
    ensures result { result.0 ≡ result.1 }
    ensures on { is_on caches.old ≡ is_on also_caches.old → is_on caches.new ≡ is_on also_caches.new }
{
    (
        engine.has_script_fn(state, caches, key),
        engine.has_script_fn(state, also_caches, key),
    )
}
