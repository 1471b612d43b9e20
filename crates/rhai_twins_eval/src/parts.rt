//! Parts of trees, run with a `this`.

ghost use Rattle.std.specs.Prelude.{◌≡◌, IsTrue, Some, false, is_some, map, true};
ghost use Rattle.std.specs.Option.{option_copied};
ghost use Rattle.rhai_tree.specs.declared.expr.Expr.{out-Expr};
ghost use Rattle.rhai_tree.specs.Forms.{is_unqualified};
ghost use Rattle.rhai_tree.specs.Frame.{all_resolve, all_resolve_exprs, resolves_call, resolves_expr};
ghost use Rattle.rhai_tree.specs.Frame.{resolves_stmt, tests_of};
ghost use Rattle.rhai_lookups.specs.Levels.{CachesFit, is_on};
ghost use Rattle.rhai_lookups.specs.Runs.{lists_of};
ghost use Rattle.rhai_machine.specs.language.Links.{first_in};
ghost use Rattle.rhai_call_forms.specs.Leading.{all_args};
ghost use Rattle.rhai_eval.specs.Chains.{AssignsNoHandle, chain_resolves};
ghost use Rattle.rhai_steps.specs.Callers.{AgreesAt, state_of};
ghost use Rattle.rhai_steps.specs.Agreement.{call_leads, passes};
ghost use Rattle.rhai_steps.specs.States.{holding};
ghost use Rattle.rhai_twins_eval.specs.Same.{Same};

use rhai_errors::error::EvalAltResult;
use rhai_errors::table::NativeTable;
use rhai_eval::engine::Engine;
use rhai_lookups::caches::Caches;
use rhai_state::scope::Scope;
use rhai_state::state::GlobalRuntimeState;
use rhai_tree::expr::{Expr, FnCallExpr, Namespace, OpAssignment, Stmt};
use rhai_tree::position::Position;
use rhai_tree::token::Token;
use rhai_values::base::value::{Dynamic, Host};
use std::alloc::Global;

/// Shows that two calls of `Engine::eval_expr` from equal starts end equally.
pub fn eval_expr<H: Host, T: NativeTable<H>>(
    engine: &Engine<H>,
    alloc: Global,
    global: &mut GlobalRuntimeState<H>,
    also_global: &mut GlobalRuntimeState<H>,
    caches: &mut Caches<H>,
    also_caches: &mut Caches<H>,
    table: &mut T,
    also_table: &mut T,
    scope: &mut Scope<H>,
    also_scope: &mut Scope<H>,
    this: &mut Dynamic<H>,
    also_this: &mut Dynamic<H>,
    expr: &Expr,
) -> (
    Result<Dynamic<H>, EvalAltResult<H>>,
    Result<Dynamic<H>, EvalAltResult<H>>,
)
    requires global { global.old ≡ also_global.old }
    requires fit { CachesFit (lists_of global.old) caches.old }
    requires also_fit { CachesFit (lists_of also_global.old) also_caches.old }
    requires table { T.state table.old ≡ T.state also_table.old }
    requires scope { scope.old ≡ also_scope.old }
    requires this { this.old ≡ also_this.old }
    requires resolves { AgreesAt global.old scope.old (resolves_expr expr.now) }
    ensures run { Same result.0 result.1
        (state_of (T.state table.new) global.new scope.new (holding (Some this.new)))
        (state_of (T.state also_table.new) also_global.new also_scope.new (holding (Some also_this.new))) }
    ensures on { is_on caches.old ≡ is_on also_caches.old → is_on caches.new ≡ is_on also_caches.new }
    ensures search { global.new.always_search_scope ≡ also_global.new.always_search_scope }
{
    (
        engine.eval_expr(alloc, global, caches, table, scope, Some(this), expr),
        engine.eval_expr(
            alloc,
            also_global,
            also_caches,
            also_table,
            also_scope,
            Some(also_this),
            expr,
        ),
    )
}

/// Shows that two calls of `Engine::eval_stmt` from equal starts end equally.
pub fn eval_stmt<H: Host, T: NativeTable<H>>(
    engine: &Engine<H>,
    alloc: Global,
    global: &mut GlobalRuntimeState<H>,
    also_global: &mut GlobalRuntimeState<H>,
    caches: &mut Caches<H>,
    also_caches: &mut Caches<H>,
    table: &mut T,
    also_table: &mut T,
    scope: &mut Scope<H>,
    also_scope: &mut Scope<H>,
    this: &mut Dynamic<H>,
    also_this: &mut Dynamic<H>,
    stmt: &Stmt,
    rewind_scope: bool,
) -> (
    Result<Dynamic<H>, EvalAltResult<H>>,
    Result<Dynamic<H>, EvalAltResult<H>>,
)
    requires global { global.old ≡ also_global.old }
    requires fit { CachesFit (lists_of global.old) caches.old }
    requires also_fit { CachesFit (lists_of also_global.old) also_caches.old }
    requires table { T.state table.old ≡ T.state also_table.old }
    requires scope { scope.old ≡ also_scope.old }
    requires this { this.old ≡ also_this.old }
    requires resolves { AgreesAt global.old scope.old (passes (resolves_stmt stmt.now)) }
    ensures run { Same result.0 result.1
        (state_of (T.state table.new) global.new scope.new (holding (Some this.new)))
        (state_of (T.state also_table.new) also_global.new also_scope.new (holding (Some also_this.new))) }
    ensures on { is_on caches.old ≡ is_on also_caches.old → is_on caches.new ≡ is_on also_caches.new }
    ensures search { global.new.always_search_scope ≡ also_global.new.always_search_scope }
{
    (
        engine.eval_stmt(
            alloc,
            global,
            caches,
            table,
            scope,
            Some(this),
            stmt,
            rewind_scope,
        ),
        engine.eval_stmt(
            alloc,
            also_global,
            also_caches,
            also_table,
            also_scope,
            Some(also_this),
            stmt,
            rewind_scope,
        ),
    )
}

/// Shows that two calls of `Engine::eval_stmt_block` from equal starts end equally.
pub fn eval_stmt_block<H: Host, T: NativeTable<H>>(
    engine: &Engine<H>,
    alloc: Global,
    global: &mut GlobalRuntimeState<H>,
    also_global: &mut GlobalRuntimeState<H>,
    caches: &mut Caches<H>,
    also_caches: &mut Caches<H>,
    table: &mut T,
    also_table: &mut T,
    scope: &mut Scope<H>,
    also_scope: &mut Scope<H>,
    this: &mut Dynamic<H>,
    also_this: &mut Dynamic<H>,
    statements: &[Stmt],
    restore_orig_state: bool,
) -> (
    Result<Dynamic<H>, EvalAltResult<H>>,
    Result<Dynamic<H>, EvalAltResult<H>>,
)
    requires global { global.old ≡ also_global.old }
    requires fit { CachesFit (lists_of global.old) caches.old }
    requires also_fit { CachesFit (lists_of also_global.old) also_caches.old }
    requires table { T.state table.old ≡ T.state also_table.old }
    requires scope { scope.old ≡ also_scope.old }
    requires this { this.old ≡ also_this.old }
    requires resolves { AgreesAt global.old scope.old
        (passes (all_resolve (map resolves_stmt statements.now))) }
    ensures run { Same result.0 result.1
        (state_of (T.state table.new) global.new scope.new (holding (Some this.new)))
        (state_of (T.state also_table.new) also_global.new also_scope.new (holding (Some also_this.new))) }
    ensures on { is_on caches.old ≡ is_on also_caches.old → is_on caches.new ≡ is_on also_caches.new }
    ensures search { global.new.always_search_scope ≡ also_global.new.always_search_scope }
{
    (
        engine.eval_stmt_block(
            alloc,
            global,
            caches,
            table,
            scope,
            Some(this),
            statements,
            restore_orig_state,
        ),
        engine.eval_stmt_block(
            alloc,
            also_global,
            also_caches,
            also_table,
            also_scope,
            Some(also_this),
            statements,
            restore_orig_state,
        ),
    )
}

/// Shows that two calls of `Engine::eval_fn_call_expr` from equal starts end equally.
pub fn eval_fn_call_expr<H: Host, T: NativeTable<H>>(
    engine: &Engine<H>,
    alloc: Global,
    global: &mut GlobalRuntimeState<H>,
    also_global: &mut GlobalRuntimeState<H>,
    caches: &mut Caches<H>,
    also_caches: &mut Caches<H>,
    table: &mut T,
    also_table: &mut T,
    scope: &mut Scope<H>,
    also_scope: &mut Scope<H>,
    this: &mut Dynamic<H>,
    also_this: &mut Dynamic<H>,
    expr: &FnCallExpr,
    pos: Position,
) -> (
    Result<Dynamic<H>, EvalAltResult<H>>,
    Result<Dynamic<H>, EvalAltResult<H>>,
)
    requires global { global.old ≡ also_global.old }
    requires fit { CachesFit (lists_of global.old) caches.old }
    requires also_fit { CachesFit (lists_of also_global.old) also_caches.old }
    requires table { T.state table.old ≡ T.state also_table.old }
    requires scope { scope.old ≡ also_scope.old }
    requires this { this.old ≡ also_this.old }
    requires resolves { AgreesAt global.old scope.old (resolves_call expr.now pos) }
    ensures run { Same result.0 result.1
        (state_of (T.state table.new) global.new scope.new (holding (Some this.new)))
        (state_of (T.state also_table.new) also_global.new also_scope.new (holding (Some also_this.new))) }
    ensures on { is_on caches.old ≡ is_on also_caches.old → is_on caches.new ≡ is_on also_caches.new }
    ensures search { global.new.always_search_scope ≡ also_global.new.always_search_scope }
{
    (
        engine.eval_fn_call_expr(alloc, global, caches, table, scope, Some(this), expr, pos),
        engine.eval_fn_call_expr(
            alloc,
            also_global,
            also_caches,
            also_table,
            also_scope,
            Some(also_this),
            expr,
            pos,
        ),
    )
}

/// Shows that two calls of `Engine::get_arg_value` from equal starts end equally.
pub fn get_arg_value<H: Host, T: NativeTable<H>>(
    engine: &Engine<H>,
    alloc: Global,
    global: &mut GlobalRuntimeState<H>,
    also_global: &mut GlobalRuntimeState<H>,
    caches: &mut Caches<H>,
    also_caches: &mut Caches<H>,
    table: &mut T,
    also_table: &mut T,
    scope: &mut Scope<H>,
    also_scope: &mut Scope<H>,
    this: &mut Dynamic<H>,
    also_this: &mut Dynamic<H>,
    arg_expr: &Expr,
) -> (
    Result<(Dynamic<H>, Position), EvalAltResult<H>>,
    Result<(Dynamic<H>, Position), EvalAltResult<H>>,
)
    requires global { global.old ≡ also_global.old }
    requires fit { CachesFit (lists_of global.old) caches.old }
    requires also_fit { CachesFit (lists_of also_global.old) also_caches.old }
    requires table { T.state table.old ≡ T.state also_table.old }
    requires scope { scope.old ≡ also_scope.old }
    requires this { this.old ≡ also_this.old }
    requires resolves { AgreesAt global.old scope.old (resolves_expr arg_expr.now) }
    ensures run { Same result.0 result.1
        (state_of (T.state table.new) global.new scope.new (holding (Some this.new)))
        (state_of (T.state also_table.new) also_global.new also_scope.new (holding (Some also_this.new))) }
    ensures on { is_on caches.old ≡ is_on also_caches.old → is_on caches.new ≡ is_on also_caches.new }
    ensures search { global.new.always_search_scope ≡ also_global.new.always_search_scope }
{
    (
        engine.get_arg_value(alloc, global, caches, table, scope, Some(this), arg_expr),
        engine.get_arg_value(
            alloc,
            also_global,
            also_caches,
            also_table,
            also_scope,
            Some(also_this),
            arg_expr,
        ),
    )
}

/// Shows that two calls of `Engine::make_function_call` from equal starts end equally.
pub fn make_function_call<H: Host, T: NativeTable<H>>(
    engine: &Engine<H>,
    alloc: Global,
    global: &mut GlobalRuntimeState<H>,
    also_global: &mut GlobalRuntimeState<H>,
    caches: &mut Caches<H>,
    also_caches: &mut Caches<H>,
    table: &mut T,
    also_table: &mut T,
    scope: &mut Scope<H>,
    also_scope: &mut Scope<H>,
    this: &mut Dynamic<H>,
    also_this: &mut Dynamic<H>,
    fn_name: &str,
    op_token: Option<&Token>,
    first_arg: Option<&Expr>,
    args_expr: &[Expr],
    capture_parent_scope: bool,
    pos: Position,
) -> (
    Result<Dynamic<H>, EvalAltResult<H>>,
    Result<Dynamic<H>, EvalAltResult<H>>,
)
    requires global { global.old ≡ also_global.old }
    requires fit { CachesFit (lists_of global.old) caches.old }
    requires also_fit { CachesFit (lists_of also_global.old) also_caches.old }
    requires table { T.state table.old ≡ T.state also_table.old }
    requires scope { scope.old ≡ also_scope.old }
    requires this { this.old ≡ also_this.old }
    requires resolves { AgreesAt global.old scope.old
        (all_resolve_exprs (map tests_of (all_args (option_copied first_arg) args_expr.now))) }
    ensures run { Same result.0 result.1
        (state_of (T.state table.new) global.new scope.new (holding (Some this.new)))
        (state_of (T.state also_table.new) also_global.new also_scope.new (holding (Some also_this.new))) }
    ensures on { is_on caches.old ≡ is_on also_caches.old → is_on caches.new ≡ is_on also_caches.new }
    ensures search { global.new.always_search_scope ≡ also_global.new.always_search_scope }
{
    (
        engine.make_function_call(
            alloc,
            global,
            caches,
            table,
            scope,
            Some(this),
            fn_name,
            op_token,
            first_arg,
            args_expr,
            capture_parent_scope,
            pos,
        ),
        engine.make_function_call(
            alloc,
            also_global,
            also_caches,
            also_table,
            also_scope,
            Some(also_this),
            fn_name,
            op_token,
            first_arg,
            args_expr,
            capture_parent_scope,
            pos,
        ),
    )
}

/// Shows that two calls of `Engine::make_qualified_function_call` from equal starts end equally.
pub fn make_qualified_function_call<H: Host, T: NativeTable<H>>(
    engine: &Engine<H>,
    alloc: Global,
    global: &mut GlobalRuntimeState<H>,
    also_global: &mut GlobalRuntimeState<H>,
    caches: &mut Caches<H>,
    also_caches: &mut Caches<H>,
    table: &mut T,
    also_table: &mut T,
    scope: &mut Scope<H>,
    also_scope: &mut Scope<H>,
    this: &mut Dynamic<H>,
    also_this: &mut Dynamic<H>,
    namespace: &Namespace,
    fn_name: &str,
    args_expr: &[Expr],
    pos: Position,
) -> (
    Result<Dynamic<H>, EvalAltResult<H>>,
    Result<Dynamic<H>, EvalAltResult<H>>,
)
    requires global { global.old ≡ also_global.old }
    requires fit { CachesFit (lists_of global.old) caches.old }
    requires also_fit { CachesFit (lists_of also_global.old) also_caches.old }
    requires table { T.state table.old ≡ T.state also_table.old }
    requires scope { scope.old ≡ also_scope.old }
    requires this { this.old ≡ also_this.old }
    requires resolves { AgreesAt global.old scope.old (call_leads namespace.now args_expr.now) }
    requires behind { is_unqualified namespace.now.path ≡ false }
    ensures run { Same result.0 result.1
        (state_of (T.state table.new) global.new scope.new (holding (Some this.new)))
        (state_of (T.state also_table.new) also_global.new also_scope.new (holding (Some also_this.new))) }
    ensures on { is_on caches.old ≡ is_on also_caches.old → is_on caches.new ≡ is_on also_caches.new }
    ensures search { global.new.always_search_scope ≡ also_global.new.always_search_scope }
{
    (
        engine.make_qualified_function_call(
            alloc,
            global,
            caches,
            table,
            scope,
            Some(this),
            namespace,
            fn_name,
            args_expr,
            pos,
        ),
        engine.make_qualified_function_call(
            alloc,
            also_global,
            also_caches,
            also_table,
            also_scope,
            Some(also_this),
            namespace,
            fn_name,
            args_expr,
            pos,
        ),
    )
}

/// Shows that two calls of `Engine::eval_dot_index_chain` from equal starts end equally.
pub fn eval_dot_index_chain<'a, H: Host, T: NativeTable<H>>(
    engine: &Engine<H>,
    alloc: Global,
    global: &mut GlobalRuntimeState<H>,
    also_global: &mut GlobalRuntimeState<H>,
    caches: &mut Caches<H>,
    also_caches: &mut Caches<H>,
    table: &mut T,
    also_table: &mut T,
    scope: &mut Scope<H>,
    also_scope: &mut Scope<H>,
    this: &mut Dynamic<H>,
    also_this: &mut Dynamic<H>,
    expr: &Expr,
    new_val: Option<(Dynamic<H>, &'a OpAssignment)>,
    also_new_val: Option<(Dynamic<H>, &'a OpAssignment)>,
) -> (
    Result<Dynamic<H>, EvalAltResult<H>>,
    Result<Dynamic<H>, EvalAltResult<H>>,
)
    requires global { global.old ≡ also_global.old }
    requires fit { CachesFit (lists_of global.old) caches.old }
    requires also_fit { CachesFit (lists_of also_global.old) also_caches.old }
    requires table { T.state table.old ≡ T.state also_table.old }
    requires scope { scope.old ≡ also_scope.old }
    requires this { this.old ≡ also_this.old }
    requires new_val { new_val ≡ also_new_val }
    requires chain { is_some (first_in (out-Expr expr.now)) ≡ true }
    requires resolves { AgreesAt global.old scope.old (chain_resolves (is_some new_val) expr.now) }
    requires value { AssignsNoHandle new_val }
    ensures run { Same result.0 result.1
        (state_of (T.state table.new) global.new scope.new (holding (Some this.new)))
        (state_of (T.state also_table.new) also_global.new also_scope.new (holding (Some also_this.new))) }
    ensures on { is_on caches.old ≡ is_on also_caches.old → is_on caches.new ≡ is_on also_caches.new }
    ensures search { global.new.always_search_scope ≡ also_global.new.always_search_scope }
{
    (
        engine.eval_dot_index_chain(
            alloc,
            global,
            caches,
            table,
            scope,
            Some(this),
            expr,
            new_val,
        ),
        engine.eval_dot_index_chain(
            alloc,
            also_global,
            also_caches,
            also_table,
            also_scope,
            Some(also_this),
            expr,
            also_new_val,
        ),
    )
}
