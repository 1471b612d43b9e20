//! Parts of trees, run with a `this`.

ghost use Rattle.std.specs.Prelude.{◌≡◌, IsTrue, Some, false, is_some, map, true};
ghost use Rattle.std.specs.Option.{option_copied};
ghost use Rattle.rhai_tree.specs.declared.expr.Expr.{out-Expr};
ghost use Rattle.rhai_tree.specs.Forms.{is_unqualified};
ghost use Rattle.rhai_tree.specs.Frame.{all_resolve, all_resolve_exprs, resolves_call, resolves_expr};
ghost use Rattle.rhai_tree.specs.Frame.{resolves_stmt, tests_of};
ghost use Rattle.rhai_values.specs.Cells.{cells_of};
ghost use Rattle.rhai_lookups.specs.Levels.{CachesFit};
ghost use Rattle.rhai_lookups.specs.Runs.{lists_of};
ghost use Rattle.rhai_machine.specs.language.Links.{first_in};
ghost use Rattle.rhai_fits.specs.Contents.{Nothing, of_new, of_result};
ghost use Rattle.rhai_fits.specs.Sealed.{AreSealed};
ghost use Rattle.rhai_call_forms.specs.Leading.{all_args};
ghost use Rattle.rhai_steps.specs.Callers.{AgreesAt, state_of};
ghost use Rattle.rhai_steps.specs.Agreement.{call_leads, passes};
ghost use Rattle.rhai_steps.specs.States.{holding};
ghost use Rattle.rhai_eval.specs.ArgumentValues.{value_with};
ghost use Rattle.rhai_eval.specs.Chains.{assigned_in, AssignsNoHandle, chain_resolves};
ghost use Rattle.rhai_eval.specs.States.{under};
ghost use Rattle.rhai_fits_eval.specs.InHand.{FitsAgain};

use rhai_errors::error::EvalAltResult;
use rhai_errors::table::NativeTable;
use rhai_eval::engine::Engine;
use rhai_lookups::caches::Caches;
use rhai_state::scope::Scope;
use rhai_state::state::GlobalRuntimeState;
use rhai_tree::expr::{Expr, FnCallExpr, Namespace, OpAssignment, Stmt};
use rhai_tree::position::Position;
use rhai_tree::token::Token;
use rhai_values::base::value::{Dynamic, Host};
use std::alloc::Global;

/// Shows that `Engine::eval_expr` adds nothing but cells of the store to what is in hand.
pub fn eval_expr<H: Host, T: NativeTable<H>>(
    engine: &Engine<H>,
    alloc: Global,
    global: &mut GlobalRuntimeState<H>,
    caches: &mut Caches<H>,
    table: &mut T,
    scope: &mut Scope<H>,
    this: &mut Dynamic<H>,
    expr: &Expr,
) -> Result<Dynamic<H>, EvalAltResult<H>>
    requires fit { CachesFit (lists_of global.old) caches.old }
    requires resolves { AgreesAt global.old scope.old (resolves_expr expr.now) }
    requires sealed { AreSealed (cells_of global.old.cells) }
    ensures fits { FitsAgain (under H.name_of engine.now T.natives) Nothing
        (state_of (T.state table.old) global.old scope.old (holding (Some this.old))) (of_result result)
        (state_of (T.state table.new) global.new scope.new (holding (Some this.new))) }
{
    engine.eval_expr(alloc, global, caches, table, scope, Some(this), expr)
}

/// Shows that `Engine::eval_stmt` adds nothing but cells of the store to what is in hand.
pub fn eval_stmt<H: Host, T: NativeTable<H>>(
    engine: &Engine<H>,
    alloc: Global,
    global: &mut GlobalRuntimeState<H>,
    caches: &mut Caches<H>,
    table: &mut T,
    scope: &mut Scope<H>,
    this: &mut Dynamic<H>,
    stmt: &Stmt,
    rewind_scope: bool,
) -> Result<Dynamic<H>, EvalAltResult<H>>
    requires fit { CachesFit (lists_of global.old) caches.old }
    requires resolves { AgreesAt global.old scope.old (passes (resolves_stmt stmt.now)) }
    requires sealed { AreSealed (cells_of global.old.cells) }
    ensures fits { FitsAgain (under H.name_of engine.now T.natives) Nothing
        (state_of (T.state table.old) global.old scope.old (holding (Some this.old))) (of_result result)
        (state_of (T.state table.new) global.new scope.new (holding (Some this.new))) }
{
    engine.eval_stmt(
        alloc,
        global,
        caches,
        table,
        scope,
        Some(this),
        stmt,
        rewind_scope,
    )
}

/// Shows that `Engine::eval_stmt_block` adds nothing but cells of the store to what is in hand.
pub fn eval_stmt_block<H: Host, T: NativeTable<H>>(
    engine: &Engine<H>,
    alloc: Global,
    global: &mut GlobalRuntimeState<H>,
    caches: &mut Caches<H>,
    table: &mut T,
    scope: &mut Scope<H>,
    this: &mut Dynamic<H>,
    statements: &[Stmt],
    restore_orig_state: bool,
) -> Result<Dynamic<H>, EvalAltResult<H>>
    requires fit { CachesFit (lists_of global.old) caches.old }
    requires resolves { AgreesAt global.old scope.old
        (passes (all_resolve (map resolves_stmt statements.now))) }
    requires sealed { AreSealed (cells_of global.old.cells) }
    ensures fits { FitsAgain (under H.name_of engine.now T.natives) Nothing
        (state_of (T.state table.old) global.old scope.old (holding (Some this.old))) (of_result result)
        (state_of (T.state table.new) global.new scope.new (holding (Some this.new))) }
{
    engine.eval_stmt_block(
        alloc,
        global,
        caches,
        table,
        scope,
        Some(this),
        statements,
        restore_orig_state,
    )
}

/// Shows that `Engine::eval_fn_call_expr` adds nothing but cells of the store to what is in hand.
pub fn eval_fn_call_expr<H: Host, T: NativeTable<H>>(
    engine: &Engine<H>,
    alloc: Global,
    global: &mut GlobalRuntimeState<H>,
    caches: &mut Caches<H>,
    table: &mut T,
    scope: &mut Scope<H>,
    this: &mut Dynamic<H>,
    expr: &FnCallExpr,
    pos: Position,
) -> Result<Dynamic<H>, EvalAltResult<H>>
    requires fit { CachesFit (lists_of global.old) caches.old }
    requires resolves { AgreesAt global.old scope.old (resolves_call expr.now pos) }
    requires sealed { AreSealed (cells_of global.old.cells) }
    ensures fits { FitsAgain (under H.name_of engine.now T.natives) Nothing
        (state_of (T.state table.old) global.old scope.old (holding (Some this.old))) (of_result result)
        (state_of (T.state table.new) global.new scope.new (holding (Some this.new))) }
{
    engine.eval_fn_call_expr(alloc, global, caches, table, scope, Some(this), expr, pos)
}

/// Shows that `Engine::get_arg_value` adds nothing but cells of the store to what is in hand.
pub fn get_arg_value<H: Host, T: NativeTable<H>>(
    engine: &Engine<H>,
    alloc: Global,
    global: &mut GlobalRuntimeState<H>,
    caches: &mut Caches<H>,
    table: &mut T,
    scope: &mut Scope<H>,
    this: &mut Dynamic<H>,
    arg_expr: &Expr,
) -> Result<(Dynamic<H>, Position), EvalAltResult<H>>
    requires fit { CachesFit (lists_of global.old) caches.old }
    requires resolves { AgreesAt global.old scope.old (resolves_expr arg_expr.now) }
    requires sealed { AreSealed (cells_of global.old.cells) }
    ensures fits { FitsAgain (under H.name_of engine.now T.natives) Nothing
        (state_of (T.state table.old) global.old scope.old (holding (Some this.old)))
        (of_result (value_with result))
        (state_of (T.state table.new) global.new scope.new (holding (Some this.new))) }
{
    engine.get_arg_value(alloc, global, caches, table, scope, Some(this), arg_expr)
}

/// Shows that `Engine::make_function_call` adds nothing but cells of the store to what is in hand.
pub fn make_function_call<H: Host, T: NativeTable<H>>(
    engine: &Engine<H>,
    alloc: Global,
    global: &mut GlobalRuntimeState<H>,
    caches: &mut Caches<H>,
    table: &mut T,
    scope: &mut Scope<H>,
    this: &mut Dynamic<H>,
    fn_name: &str,
    op_token: Option<&Token>,
    first_arg: Option<&Expr>,
    args_expr: &[Expr],
    capture_parent_scope: bool,
    pos: Position,
) -> Result<Dynamic<H>, EvalAltResult<H>>
    requires fit { CachesFit (lists_of global.old) caches.old }
    requires resolves { AgreesAt global.old scope.old
        (all_resolve_exprs (map tests_of (all_args (option_copied first_arg) args_expr.now))) }
    requires sealed { AreSealed (cells_of global.old.cells) }
    ensures fits { FitsAgain (under H.name_of engine.now T.natives) Nothing
        (state_of (T.state table.old) global.old scope.old (holding (Some this.old))) (of_result result)
        (state_of (T.state table.new) global.new scope.new (holding (Some this.new))) }
{
    engine.make_function_call(
        alloc,
        global,
        caches,
        table,
        scope,
        Some(this),
        fn_name,
        op_token,
        first_arg,
        args_expr,
        capture_parent_scope,
        pos,
    )
}

/// Shows that `Engine::make_qualified_function_call` adds nothing but cells of the store to what is in hand.
pub fn make_qualified_function_call<H: Host, T: NativeTable<H>>(
    engine: &Engine<H>,
    alloc: Global,
    global: &mut GlobalRuntimeState<H>,
    caches: &mut Caches<H>,
    table: &mut T,
    scope: &mut Scope<H>,
    this: &mut Dynamic<H>,
    namespace: &Namespace,
    fn_name: &str,
    args_expr: &[Expr],
    pos: Position,
) -> Result<Dynamic<H>, EvalAltResult<H>>
    requires fit { CachesFit (lists_of global.old) caches.old }
    requires resolves { AgreesAt global.old scope.old (call_leads namespace.now args_expr.now) }
    requires behind { is_unqualified namespace.now.path ≡ false }
    requires sealed { AreSealed (cells_of global.old.cells) }
    ensures fits { FitsAgain (under H.name_of engine.now T.natives) Nothing
        (state_of (T.state table.old) global.old scope.old (holding (Some this.old))) (of_result result)
        (state_of (T.state table.new) global.new scope.new (holding (Some this.new))) }
{
    engine.make_qualified_function_call(
        alloc,
        global,
        caches,
        table,
        scope,
        Some(this),
        namespace,
        fn_name,
        args_expr,
        pos,
    )
}

/// Shows that `Engine::eval_dot_index_chain` adds nothing but cells of the store to what is in hand. It has a
/// value to assign, or none.
pub fn eval_dot_index_chain<H: Host, T: NativeTable<H>>(
    engine: &Engine<H>,
    alloc: Global,
    global: &mut GlobalRuntimeState<H>,
    caches: &mut Caches<H>,
    table: &mut T,
    scope: &mut Scope<H>,
    this: &mut Dynamic<H>,
    expr: &Expr,
    new_val: Option<(Dynamic<H>, &OpAssignment)>,
) -> Result<Dynamic<H>, EvalAltResult<H>>
    requires fit { CachesFit (lists_of global.old) caches.old }
    requires chain { is_some (first_in (out-Expr expr.now)) ≡ true }
    requires resolves { AgreesAt global.old scope.old (chain_resolves (is_some new_val) expr.now) }
    requires value { AssignsNoHandle new_val }
    requires sealed { AreSealed (cells_of global.old.cells) }
    ensures fits { FitsAgain (under H.name_of engine.now T.natives) (of_new (assigned_in new_val.entry))
        (state_of (T.state table.old) global.old scope.old (holding (Some this.old))) (of_result result)
        (state_of (T.state table.new) global.new scope.new (holding (Some this.new))) }
{
    engine.eval_dot_index_chain(
        alloc,
        global,
        caches,
        table,
        scope,
        Some(this),
        expr,
        new_val,
    )
}
