//! Places of variables and items, the charge, and a new engine.

ghost use Rattle.std.specs.Prelude.{◌≡◌, false, IfErr, IfOk, IfSome, length, true};
ghost use Rattle.std.specs.Option.{option_copied};
ghost use Rattle.rhai_tree.specs.declared.expr.Expr.{out-Expr};
ghost use Rattle.rhai_values.specs.Cells.{IsNoHandle};
ghost use Rattle.rhai_errors.specs.Errors.{is_out_of_memory};
ghost use Rattle.rhai_state.specs.Scope.{entries_of, in_use, Fits};
ghost use Rattle.rhai_steps.specs.Offsets.{index_in, offset_in};
ghost use Rattle.rhai_eval.specs.Search.{is_variable, names_variable};
ghost use Rattle.rhai_twins.specs.Ends.{SameTarget, SameError};
ghost use Rattle.rhai_twins_eval.specs.Same.{SameEnd};

use rhai_errors::error::EvalAltResult;
use rhai_errors::table::NativeTable;
use rhai_eval::engine::Engine;
use rhai_eval::eval::chaining::ChainType;
use rhai_eval::eval::search::variable_mut;
use rhai_index::indexing;
use rhai_lookups::caches::Caches;
use rhai_places::target::Target;
use rhai_spots::spot::Access;
use rhai_state::scope::Scope;
use rhai_state::session::Session;
use rhai_state::state::GlobalRuntimeState;
use rhai_tree::expr::{Expr, Namespace};
use rhai_tree::position::Position;
use rhai_values::base::value::{Dynamic, Host, Module};
use std::alloc::Global;

/// Shows that two calls of `Engine::new` make equal engines.
pub fn new<H: Host>(alloc: Global) -> (Engine<H>, Engine<H>)
    ensures { result.0 ≡ result.1 }
{
    (Engine::new(alloc), Engine::new(alloc))
}

/// Shows that two calls of `Engine::track_operation` from equal states end equally.
pub fn track_operation<H: Host>(
    engine: &Engine<H>,
    global: &mut GlobalRuntimeState<H>,
    also_global: &mut GlobalRuntimeState<H>,
    pos: Position,
) -> (Result<(), EvalAltResult<H>>, Result<(), EvalAltResult<H>>)
    requires { global.old ≡ also_global.old }
    ensures result { result.0 ≡ result.1 }
    ensures global { global.new ≡ also_global.new }
{
    (
        engine.track_operation(global, pos),
        engine.track_operation(also_global, pos),
    )
}

/// Shows that two calls of `ChainType::from` on one expression answer equally.
pub fn chain_type(expr: &Expr) -> (ChainType, ChainType)
    ensures { result.0 ≡ result.1 }
{
    (ChainType::from(expr), ChainType::from(expr))
}

/// Shows that two calls of `Engine::scope_index` on one expression answer equally.
pub fn scope_index<H: Host>(
    engine: &Engine<H>,
    state: &GlobalRuntimeState<H>,
    expr: &Expr,
    scope_len: usize,
) -> (Option<usize>, Option<usize>)
    requires { Fits (offset_in state.now.always_search_scope (out-Expr expr.now)) scope_len }
    ensures { result.0 ≡ result.1 }
{
    (
        engine.scope_index(state, expr, scope_len),
        engine.scope_index(state, expr, scope_len),
    )
}

/// Shows that two calls of `search::variable_mut` on equal scopes lend equal values. What the scope is when
/// the borrow ends is told by its clause `writes_back`.
pub fn variable<'s, H: Host>(
    scope: &'s mut Scope<H>,
    also_scope: &'s mut Scope<H>,
    global: &GlobalRuntimeState<H>,
    expr: &Expr,
) -> (
    Result<&'s mut Dynamic<H>, EvalAltResult<H>>,
    Result<&'s mut Dynamic<H>, EvalAltResult<H>>,
)
    requires scope { scope.old ≡ also_scope.old }
    requires variable { is_variable (out-Expr expr.now) ≡ true }
    requires fits { Fits (offset_in global.now.always_search_scope (out-Expr expr.now))
        (length (entries_of scope.old)) }
    ensures found { IfOk result.0 (λ place. IfOk result.1 (λ also. place.now ≡ also.now)) }
    ensures missed { IfErr result.0 (λ e. IfErr result.1 (λ f. SameError e f)) }
{
    (
        variable_mut(scope, global, expr),
        variable_mut(also_scope, global, expr),
    )
}

/// Shows that two calls of `Engine::search_scope_only` from equal starts end equally. Their targets show
/// equal parts of equal values.
pub fn search_scope_only<'s, H: Host, T: NativeTable<H>>(
    engine: &Engine<H>,
    alloc: Global,
    global: &mut GlobalRuntimeState<H>,
    also_global: &mut GlobalRuntimeState<H>,
    caches: &mut Caches<H>,
    also_caches: &mut Caches<H>,
    table: &mut T,
    also_table: &mut T,
    scope: &'s mut Scope<H>,
    also_scope: &'s mut Scope<H>,
    this: &'s mut Dynamic<H>,
    also_this: &'s mut Dynamic<H>,
    expr: &Expr,
) -> (
    Result<Target<'s, H>, EvalAltResult<H>>,
    Result<Target<'s, H>, EvalAltResult<H>>,
)
    requires global { global.old ≡ also_global.old }
    requires caches { caches.old ≡ also_caches.old }
    requires table { T.state table.old ≡ T.state also_table.old }
    requires scope { scope.old ≡ also_scope.old }
    requires this { this.old ≡ also_this.old }
    requires variable { is_variable (out-Expr expr.now) ≡ true }
    requires fits { Fits (offset_in global.old.always_search_scope (out-Expr expr.now)) (length
        (entries_of scope.old)) }
    ensures result { SameTarget result.0 result.1 }
    ensures global { global.new ≡ also_global.new }
    ensures table { T.state table.new ≡ T.state also_table.new }
    ensures caches { caches.new ≡ also_caches.new }
{
    (
        engine.search_scope_only(alloc, global, caches, table, scope, Some(this), expr),
        engine.search_scope_only(
            alloc,
            also_global,
            also_caches,
            also_table,
            also_scope,
            Some(also_this),
            expr,
        ),
    )
}

/// Shows that two calls of `Engine::search_namespace` from equal starts end equally. Their targets show equal
/// parts of equal values.
pub fn search_namespace<'s, H: Host, T: NativeTable<H>>(
    engine: &Engine<H>,
    alloc: Global,
    global: &mut GlobalRuntimeState<H>,
    also_global: &mut GlobalRuntimeState<H>,
    caches: &mut Caches<H>,
    also_caches: &mut Caches<H>,
    table: &mut T,
    also_table: &mut T,
    scope: &'s mut Scope<H>,
    also_scope: &'s mut Scope<H>,
    this: &'s mut Dynamic<H>,
    also_this: &'s mut Dynamic<H>,
    expr: &Expr,
) -> (
    Result<Target<'s, H>, EvalAltResult<H>>,
    Result<Target<'s, H>, EvalAltResult<H>>,
)
    requires global { global.old ≡ also_global.old }
    requires caches { caches.old ≡ also_caches.old }
    requires table { T.state table.old ≡ T.state also_table.old }
    requires scope { scope.old ≡ also_scope.old }
    requires this { this.old ≡ also_this.old }
    requires variable { names_variable (out-Expr expr.now) ≡ true }
    requires fits { Fits (offset_in global.old.always_search_scope (out-Expr expr.now)) (length
        (entries_of scope.old)) }
    requires index { Fits (index_in global.old.always_search_scope (out-Expr expr.now))
        (length global.old.imports) }
    ensures result { SameTarget result.0 result.1 }
    ensures global { global.new ≡ also_global.new }
    ensures table { T.state table.new ≡ T.state also_table.new }
    ensures caches { caches.new ≡ also_caches.new }
{
    (
        engine.search_namespace(alloc, global, caches, table, scope, Some(this), expr),
        engine.search_namespace(
            alloc,
            also_global,
            also_caches,
            also_table,
            also_scope,
            Some(also_this),
            expr,
        ),
    )
}

/// Shows that two calls of `Engine::search_imports` in one state find equal modules.
pub fn search_imports<'m, H: Host>(
    engine: &'m Engine<H>,
    global: &'m GlobalRuntimeState<H>,
    namespace: &Namespace,
) -> (Option<&'m Module<H>>, Option<&'m Module<H>>)
    requires { Fits (in_use global.now.always_search_scope namespace.now.index) (length global.now.imports) }
    ensures { option_copied result.0 ≡ option_copied result.1 }
{
    (
        engine.search_imports(global, namespace),
        engine.search_imports(global, namespace),
    )
}

/// Shows that two calls of `Engine::get_indexed_mut` from equal starts end equally. Their targets show equal
/// parts of equal values.
pub fn get_indexed_mut<'t, H: Host, T: NativeTable<H>>(
    engine: &Engine<H>,
    alloc: Global,
    global: &mut GlobalRuntimeState<H>,
    also_global: &mut GlobalRuntimeState<H>,
    caches: &mut Caches<H>,
    also_caches: &mut Caches<H>,
    table: &mut T,
    also_table: &mut T,
    object: &'t mut Dynamic<H>,
    also_object: &'t mut Dynamic<H>,
    idx: &mut Dynamic<H>,
    also_idx: &mut Dynamic<H>,
    idx_pos: Position,
    op_pos: Position,
    add_if_not_found: bool,
    use_indexers: bool,
) -> (
    Result<Target<'t, H>, EvalAltResult<H>>,
    Result<Target<'t, H>, EvalAltResult<H>>,
)
    requires global { global.old ≡ also_global.old }
    requires caches { caches.old ≡ also_caches.old }
    requires table { T.state table.old ≡ T.state also_table.old }
    requires object { object.old ≡ also_object.old }
    requires idx { idx.old ≡ also_idx.old }
    requires no_handle { IsNoHandle object.old.value }
    ensures result { SameTarget result.0 result.1 }
    ensures global { SameEnd result.0 result.1 global.new also_global.new }
    ensures table { SameEnd result.0 result.1 (T.state table.new) (T.state also_table.new) }
    ensures index { idx.new ≡ also_idx.new }
    ensures caches { caches.new ≡ also_caches.new }
{
    (
        engine.get_indexed_mut(
            alloc,
            global,
            caches,
            table,
            object,
            idx,
            idx_pos,
            op_pos,
            add_if_not_found,
            use_indexers,
        ),
        engine.get_indexed_mut(
            alloc,
            also_global,
            also_caches,
            also_table,
            also_object,
            also_idx,
            idx_pos,
            op_pos,
            add_if_not_found,
            use_indexers,
        ),
    )
}

/// Shows that two indexes that are refused, from equal starts, leave equal values of what is indexed. It is
/// told of the function of `rhai_index` that `Engine::get_indexed_mut` calls: it leaves the value as it was,
/// or as the indexer left it.
pub fn refused_index<H: Host, T: NativeTable<H>>(
    session: &Session<'_, H>,
    global: &mut GlobalRuntimeState<H>,
    also_global: &mut GlobalRuntimeState<H>,
    table: &mut T,
    also_table: &mut T,
    object: &mut Dynamic<H>,
    also_object: &mut Dynamic<H>,
    idx: &mut Dynamic<H>,
    also_idx: &mut Dynamic<H>,
    how: Access,
    use_indexers: bool,
) -> Option<(EvalAltResult<H>, EvalAltResult<H>)>
    requires global { global.old ≡ also_global.old }
    requires table { T.state table.old ≡ T.state also_table.old }
    requires object { object.old ≡ also_object.old }
    requires idx { idx.old ≡ also_idx.old }
    requires no_handle { IsNoHandle object.old.value }
    ensures { IfSome result (λ errors. is_out_of_memory errors.0 ≡ false → is_out_of_memory errors.1 ≡ false →
        object.new ≡ also_object.new) }
{
    match indexing::get_indexed_mut(object, session, global, table, idx, how, use_indexers) {
        Ok(_target) => None,
        Err(error) => match indexing::get_indexed_mut(
            also_object,
            session,
            also_global,
            also_table,
            also_idx,
            how,
            use_indexers,
        ) {
            Ok(_target) => None,
            Err(also_error) => Some((error, also_error)),
        },
    }
}
