//! Calls on a first argument, on a value that is indexed, or on a target.

ghost use Rattle.std.specs.Prelude.{◌≡◌, Some};
ghost use Rattle.rhai_values.specs.Cells.{IsNoHandle};
ghost use Rattle.rhai_spots.specs.Targets.{shown};
ghost use Rattle.rhai_lookups.specs.Levels.{CachesFit, is_on};
ghost use Rattle.rhai_lookups.specs.Runs.{lists_of};
ghost use Rattle.rhai_machine.specs.language.State.{HasMemory};
ghost use Rattle.rhai_calls.specs.Targets.{value_walked_on};
ghost use Rattle.rhai_eval.specs.Places.{with_place};
ghost use Rattle.rhai_steps.specs.Callers.{state_of};
ghost use Rattle.rhai_steps.specs.States.{holding};
ghost use Rattle.rhai_twins_eval.specs.Same.{Same};

use rhai_errors::error::EvalAltResult;
use rhai_errors::table::NativeTable;
use rhai_eval::engine::Engine;
use rhai_lookups::caches::Caches;
use rhai_places::target::Target;
use rhai_state::scope::Scope;
use rhai_state::state::GlobalRuntimeState;
use rhai_tree::expr::{Expr, OpAssignment};
use rhai_tree::position::Position;
use rhai_tree::token::Token;
use rhai_values::base::value::{Dynamic, Host};
use std::alloc::Global;

/// Shows that two calls of `Engine::exec_native_fn_call` on a first argument from equal starts end equally.
pub fn exec_native_fn_call<H: Host, T: NativeTable<H>>(
    engine: &Engine<H>,
    alloc: Global,
    global: &mut GlobalRuntimeState<H>,
    also_global: &mut GlobalRuntimeState<H>,
    caches: &mut Caches<H>,
    also_caches: &mut Caches<H>,
    table: &mut T,
    also_table: &mut T,
    name: &str,
    op_token: Option<&Token>,
    first: &mut Dynamic<H>,
    also_first: &mut Dynamic<H>,
    rest: &mut [Dynamic<H>],
    also_rest: &mut [Dynamic<H>],
    is_ref_mut: bool,
    position: Position,
) -> (
    Result<(Dynamic<H>, bool), EvalAltResult<H>>,
    Result<(Dynamic<H>, bool), EvalAltResult<H>>,
)
    requires global { global.old ≡ also_global.old }
    requires caches { caches.old ≡ also_caches.old }
    requires table { T.state table.old ≡ T.state also_table.old }
    requires first { first.old ≡ also_first.old }
    requires rest { rest.old ≡ also_rest.old }
    ensures run { (scope : _) (this : _) → Same result.0 result.1
        (state_of (T.state table.new) global.new scope (with_place this (Some first.new)))
        (state_of (T.state also_table.new) also_global.new scope (with_place this (Some also_first.new))) }
    ensures caches { caches.new ≡ also_caches.new }
    ensures search { global.new.always_search_scope ≡ also_global.new.always_search_scope }
    ensures rest { rest.new ≡ also_rest.new }
{
    (
        engine.exec_native_fn_call(
            alloc,
            global,
            caches,
            table,
            name,
            op_token,
            Some(first),
            rest,
            is_ref_mut,
            position,
        ),
        engine.exec_native_fn_call(
            alloc,
            also_global,
            also_caches,
            also_table,
            name,
            op_token,
            Some(also_first),
            also_rest,
            is_ref_mut,
            position,
        ),
    )
}

/// Shows that two calls of `Engine::call_indexer_get` from equal starts end equally.
pub fn call_indexer_get<H: Host, T: NativeTable<H>>(
    engine: &Engine<H>,
    alloc: Global,
    global: &mut GlobalRuntimeState<H>,
    also_global: &mut GlobalRuntimeState<H>,
    caches: &mut Caches<H>,
    also_caches: &mut Caches<H>,
    table: &mut T,
    also_table: &mut T,
    object: &mut Dynamic<H>,
    also_object: &mut Dynamic<H>,
    index: &mut Dynamic<H>,
    also_index: &mut Dynamic<H>,
    pos: Position,
) -> (
    Result<Dynamic<H>, EvalAltResult<H>>,
    Result<Dynamic<H>, EvalAltResult<H>>,
)
    requires global { global.old ≡ also_global.old }
    requires caches { caches.old ≡ also_caches.old }
    requires table { T.state table.old ≡ T.state also_table.old }
    requires object { object.old ≡ also_object.old }
    requires index { index.old ≡ also_index.old }
    ensures run { (scope : _) (this : _) → Same result.0 result.1
        (state_of (T.state table.new) global.new scope (with_place this (Some object.new)))
        (state_of (T.state also_table.new) also_global.new scope (with_place this (Some also_object.new))) }
    ensures caches { caches.new ≡ also_caches.new }
    ensures search { global.new.always_search_scope ≡ also_global.new.always_search_scope }
    ensures index { index.new ≡ also_index.new }
{
    (
        engine.call_indexer_get(alloc, global, caches, table, object, index, pos),
        engine.call_indexer_get(
            alloc,
            also_global,
            also_caches,
            also_table,
            also_object,
            also_index,
            pos,
        ),
    )
}

/// Shows that two calls of `Engine::call_indexer_set` from equal starts end equally.
pub fn call_indexer_set<H: Host, T: NativeTable<H>>(
    engine: &Engine<H>,
    alloc: Global,
    global: &mut GlobalRuntimeState<H>,
    also_global: &mut GlobalRuntimeState<H>,
    caches: &mut Caches<H>,
    also_caches: &mut Caches<H>,
    table: &mut T,
    also_table: &mut T,
    object: &mut Dynamic<H>,
    also_object: &mut Dynamic<H>,
    index: &mut Dynamic<H>,
    also_index: &mut Dynamic<H>,
    new_val: &mut Dynamic<H>,
    also_new_val: &mut Dynamic<H>,
    is_ref_mut: bool,
    pos: Position,
) -> (
    Result<(Dynamic<H>, bool), EvalAltResult<H>>,
    Result<(Dynamic<H>, bool), EvalAltResult<H>>,
)
    requires global { global.old ≡ also_global.old }
    requires caches { caches.old ≡ also_caches.old }
    requires table { T.state table.old ≡ T.state also_table.old }
    requires object { object.old ≡ also_object.old }
    requires index { index.old ≡ also_index.old }
    requires new_val { new_val.old ≡ also_new_val.old }
    ensures run { (scope : _) (this : _) → Same result.0 result.1
        (state_of (T.state table.new) global.new scope (with_place this (Some object.new)))
        (state_of (T.state also_table.new) also_global.new scope (with_place this (Some also_object.new))) }
    ensures caches { caches.new ≡ also_caches.new }
    ensures search { global.new.always_search_scope ≡ also_global.new.always_search_scope }
    ensures index { index.new ≡ also_index.new }
    ensures new_val { new_val.new ≡ also_new_val.new }
{
    (
        engine.call_indexer_set(
            alloc, global, caches, table, object, index, new_val, is_ref_mut, pos,
        ),
        engine.call_indexer_set(
            alloc,
            also_global,
            also_caches,
            also_table,
            also_object,
            also_index,
            also_new_val,
            is_ref_mut,
            pos,
        ),
    )
}

/// Shows that two calls of `Engine::make_method_call` from equal starts end equally.
pub fn make_method_call<H: Host, T: NativeTable<H>>(
    engine: &Engine<H>,
    alloc: Global,
    global: &mut GlobalRuntimeState<H>,
    also_global: &mut GlobalRuntimeState<H>,
    caches: &mut Caches<H>,
    also_caches: &mut Caches<H>,
    table: &mut T,
    also_table: &mut T,
    fn_name: &str,
    target: &mut Target<'_, H>,
    also_target: &mut Target<'_, H>,
    call_args: &mut [Dynamic<H>],
    also_call_args: &mut [Dynamic<H>],
    first_arg_pos: Position,
    pos: Position,
) -> (
    Result<(Dynamic<H>, bool), EvalAltResult<H>>,
    Result<(Dynamic<H>, bool), EvalAltResult<H>>,
)
    requires global { global.old ≡ also_global.old }
    requires fit { CachesFit (lists_of global.old) caches.old }
    requires also_fit { CachesFit (lists_of also_global.old) also_caches.old }
    requires table { T.state table.old ≡ T.state also_table.old }
    requires place { target.old.at.now ≡ also_target.old.at.now }
    requires part { target.old.part ≡ also_target.old.part }
    requires call_args { call_args.old ≡ also_call_args.old }
    ensures run { (scope : _) (this : _) → Same result.0 result.1
        (state_of (T.state table.new) global.new scope
        (with_place this (Some (value_walked_on target.new.part target.new.at.now))))
        (state_of (T.state also_table.new) also_global.new scope
        (with_place this (Some (value_walked_on also_target.new.part also_target.new.at.now)))) }
    ensures shown { HasMemory result.0 → HasMemory result.1 → shown target.new.part target.new.at.now
        ≡ shown also_target.new.part also_target.new.at.now }
    ensures call_args { call_args.new ≡ also_call_args.new }
    ensures on { is_on caches.old ≡ is_on also_caches.old → is_on caches.new ≡ is_on also_caches.new }
    ensures search { global.new.always_search_scope ≡ also_global.new.always_search_scope }
{
    (
        engine.make_method_call(
            alloc,
            global,
            caches,
            table,
            fn_name,
            target,
            call_args,
            first_arg_pos,
            pos,
        ),
        engine.make_method_call(
            alloc,
            also_global,
            also_caches,
            also_table,
            fn_name,
            also_target,
            also_call_args,
            first_arg_pos,
            pos,
        ),
    )
}

/// Shows that two calls of `Engine::eval_op_assignment` from equal starts end equally.
pub fn eval_op_assignment<H: Host, T: NativeTable<H>>(
    engine: &Engine<H>,
    alloc: Global,
    global: &mut GlobalRuntimeState<H>,
    also_global: &mut GlobalRuntimeState<H>,
    caches: &mut Caches<H>,
    also_caches: &mut Caches<H>,
    table: &mut T,
    also_table: &mut T,
    op_info: &OpAssignment,
    root: &Expr,
    target: &mut Target<'_, H>,
    also_target: &mut Target<'_, H>,
    new_val: Dynamic<H>,
    also_new_val: Dynamic<H>,
) -> (Result<(), EvalAltResult<H>>, Result<(), EvalAltResult<H>>)
    requires global { global.old ≡ also_global.old }
    requires caches { caches.old ≡ also_caches.old }
    requires table { T.state table.old ≡ T.state also_table.old }
    requires place { target.old.at.now ≡ also_target.old.at.now }
    requires part { target.old.part ≡ also_target.old.part }
    requires new_val { new_val ≡ also_new_val }
    requires value { IsNoHandle new_val.value }
    ensures run { (scope : _) (this : _) → Same result.0 result.1
        (state_of (T.state table.new) global.new scope
        (with_place this (Some (value_walked_on target.new.part target.new.at.now))))
        (state_of (T.state also_table.new) also_global.new scope
        (with_place this (Some (value_walked_on also_target.new.part also_target.new.at.now)))) }
    ensures shown { HasMemory result.0 → HasMemory result.1 → shown target.new.part target.new.at.now
        ≡ shown also_target.new.part also_target.new.at.now }
    ensures caches { caches.new ≡ also_caches.new }
    ensures search { global.new.always_search_scope ≡ also_global.new.always_search_scope }
{
    (
        engine.eval_op_assignment(alloc, global, caches, table, op_info, root, target, new_val),
        engine.eval_op_assignment(
            alloc,
            also_global,
            also_caches,
            also_table,
            op_info,
            root,
            also_target,
            also_new_val,
        ),
    )
}

/// Shows that two calls of `Engine::exec_fn_call` from equal starts end equally. Each has a scope and a first
/// argument that is a place of the caller.
pub fn exec_fn_call<H: Host, T: NativeTable<H>>(
    engine: &Engine<H>,
    alloc: Global,
    global: &mut GlobalRuntimeState<H>,
    also_global: &mut GlobalRuntimeState<H>,
    caches: &mut Caches<H>,
    also_caches: &mut Caches<H>,
    table: &mut T,
    also_table: &mut T,
    scope: &mut Scope<H>,
    also_scope: &mut Scope<H>,
    name: &str,
    op_token: Option<&Token>,
    first: &mut Dynamic<H>,
    also_first: &mut Dynamic<H>,
    rest: &mut [Dynamic<H>],
    also_rest: &mut [Dynamic<H>],
    is_method_call: bool,
    position: Position,
) -> (
    Result<(Dynamic<H>, bool), EvalAltResult<H>>,
    Result<(Dynamic<H>, bool), EvalAltResult<H>>,
)
    requires global { global.old ≡ also_global.old }
    requires fit { CachesFit (lists_of global.old) caches.old }
    requires also_fit { CachesFit (lists_of also_global.old) also_caches.old }
    requires table { T.state table.old ≡ T.state also_table.old }
    requires scope { scope.old ≡ also_scope.old }
    requires first { first.old ≡ also_first.old }
    requires rest { rest.old ≡ also_rest.old }
    ensures run { (this : _) → Same result.0 result.1
        (state_of (T.state table.new) global.new scope.new (with_place this (Some first.new)))
        (state_of (T.state also_table.new) also_global.new also_scope.new
        (with_place this (Some also_first.new))) }
    ensures rest { rest.new ≡ also_rest.new }
    ensures on { is_on caches.old ≡ is_on also_caches.old → is_on caches.new ≡ is_on also_caches.new }
    ensures search { global.new.always_search_scope ≡ also_global.new.always_search_scope }
{
    (
        engine.exec_fn_call(
            alloc,
            global,
            caches,
            table,
            Some(scope),
            name,
            op_token,
            Some(first),
            rest,
            true,
            is_method_call,
            position,
        ),
        engine.exec_fn_call(
            alloc,
            also_global,
            also_caches,
            also_table,
            Some(also_scope),
            name,
            op_token,
            Some(also_first),
            also_rest,
            true,
            is_method_call,
            position,
        ),
    )
}

/// Shows that two calls of `Engine::exec_fn_call` from equal starts end equally. Each has a scope and a first
/// argument that is handed in by value.
pub fn exec_fn_call_by_value<H: Host, T: NativeTable<H>>(
    engine: &Engine<H>,
    alloc: Global,
    global: &mut GlobalRuntimeState<H>,
    also_global: &mut GlobalRuntimeState<H>,
    caches: &mut Caches<H>,
    also_caches: &mut Caches<H>,
    table: &mut T,
    also_table: &mut T,
    scope: &mut Scope<H>,
    also_scope: &mut Scope<H>,
    name: &str,
    op_token: Option<&Token>,
    first: &mut Dynamic<H>,
    also_first: &mut Dynamic<H>,
    rest: &mut [Dynamic<H>],
    also_rest: &mut [Dynamic<H>],
    position: Position,
) -> (
    Result<(Dynamic<H>, bool), EvalAltResult<H>>,
    Result<(Dynamic<H>, bool), EvalAltResult<H>>,
)
    requires global { global.old ≡ also_global.old }
    requires fit { CachesFit (lists_of global.old) caches.old }
    requires also_fit { CachesFit (lists_of also_global.old) also_caches.old }
    requires table { T.state table.old ≡ T.state also_table.old }
    requires scope { scope.old ≡ also_scope.old }
    requires first { first.old ≡ also_first.old }
    requires rest { rest.old ≡ also_rest.old }
    ensures run { (held : _) → Same result.0 result.1
        (state_of (T.state table.new) global.new scope.new (held))
        (state_of (T.state also_table.new) also_global.new also_scope.new (held)) }
    ensures first { first.new ≡ also_first.new }
    ensures rest { rest.new ≡ also_rest.new }
    ensures on { is_on caches.old ≡ is_on also_caches.old → is_on caches.new ≡ is_on also_caches.new }
    ensures search { global.new.always_search_scope ≡ also_global.new.always_search_scope }
{
    (
        engine.exec_fn_call(
            alloc,
            global,
            caches,
            table,
            Some(scope),
            name,
            op_token,
            Some(first),
            rest,
            false,
            false,
            position,
        ),
        engine.exec_fn_call(
            alloc,
            also_global,
            also_caches,
            also_table,
            Some(also_scope),
            name,
            op_token,
            Some(also_first),
            also_rest,
            false,
            false,
            position,
        ),
    )
}
