//! Calls on a first argument, on a value that is indexed, or on a target.

ghost use Rattle.std.specs.Prelude.{◌≡◌, ◌∷◌, ◌||◌, IfSome, Some, false, true};
ghost use Rattle.rhai_values.specs.Cells.{cells_of, IsNoHandle};
ghost use Rattle.rhai_spots.specs.Targets.{shown};
ghost use Rattle.rhai_lookups.specs.Levels.{CachesFit};
ghost use Rattle.rhai_lookups.specs.Runs.{lists_of};
ghost use Rattle.rhai_machine.specs.language.State.{HasMemory};
ghost use Rattle.rhai_fits.specs.Contents.{Both, OneError, OneValue, of_result, of_values};
ghost use Rattle.rhai_fits.specs.Sealed.{AreSealed};
ghost use Rattle.rhai_calls.specs.Targets.{value_walked_on};
ghost use Rattle.rhai_steps.specs.Sessions.{under as under_session};
ghost use Rattle.rhai_steps.specs.Callers.{state_of};
ghost use Rattle.rhai_steps.specs.States.{holding};
ghost use Rattle.rhai_eval.specs.States.{under};
ghost use Rattle.rhai_fits_eval.specs.InHand.{FitsAgain, of_done, of_lent, of_changed, of_target};

use rhai_errors::error::EvalAltResult;
use rhai_errors::table::NativeTable;
use rhai_eval::engine::Engine;
use rhai_index::indexing;
use rhai_lookups::caches::Caches;
use rhai_places::target::Target;
use rhai_spots::spot::Access;
use rhai_state::scope::Scope;
use rhai_state::session::Session;
use rhai_state::state::GlobalRuntimeState;
use rhai_tree::expr::{Expr, OpAssignment};
use rhai_tree::position::Position;
use rhai_tree::token::Token;
use rhai_values::base::value::{Dynamic, Host};
use std::alloc::Global;

/// Shows that `Engine::exec_native_fn_call` on a first argument adds nothing but cells of the store to what
/// is in hand.
pub fn exec_native_fn_call<H: Host, T: NativeTable<H>>(
    engine: &Engine<H>,
    alloc: Global,
    global: &mut GlobalRuntimeState<H>,
    caches: &mut Caches<H>,
    table: &mut T,
    name: &str,
    op_token: Option<&Token>,
    first: &mut Dynamic<H>,
    rest: &mut [Dynamic<H>],
    is_ref_mut: bool,
    position: Position,
) -> Result<(Dynamic<H>, bool), EvalAltResult<H>>
    requires sealed { AreSealed (cells_of global.old.cells) }
    ensures fits { (scope : _) (this : _) → FitsAgain (under H.name_of engine.now T.natives)
        (of_values (first.old ∷ rest.old))
        (state_of (T.state table.old) global.old scope (holding this))
        (Both (of_changed result) (of_values (first.new ∷ rest.new)))
        (state_of (T.state table.new) global.new scope (holding this)) }
{
    engine.exec_native_fn_call(
        alloc,
        global,
        caches,
        table,
        name,
        op_token,
        Some(first),
        rest,
        is_ref_mut,
        position,
    )
}

/// Shows that `Engine::call_indexer_get` adds nothing but cells of the store to what is in hand.
pub fn call_indexer_get<H: Host, T: NativeTable<H>>(
    engine: &Engine<H>,
    alloc: Global,
    global: &mut GlobalRuntimeState<H>,
    caches: &mut Caches<H>,
    table: &mut T,
    object: &mut Dynamic<H>,
    index: &mut Dynamic<H>,
    pos: Position,
) -> Result<Dynamic<H>, EvalAltResult<H>>
    requires sealed { AreSealed (cells_of global.old.cells) }
    ensures fits { (scope : _) (this : _) → FitsAgain (under H.name_of engine.now T.natives)
        (Both (OneValue object.old) (OneValue index.old))
        (state_of (T.state table.old) global.old scope (holding this))
        (Both (of_result result) (Both (OneValue object.new) (OneValue index.new)))
        (state_of (T.state table.new) global.new scope (holding this)) }
{
    engine.call_indexer_get(alloc, global, caches, table, object, index, pos)
}

/// Shows that `Engine::call_indexer_set` adds nothing but cells of the store to what is in hand.
pub fn call_indexer_set<H: Host, T: NativeTable<H>>(
    engine: &Engine<H>,
    alloc: Global,
    global: &mut GlobalRuntimeState<H>,
    caches: &mut Caches<H>,
    table: &mut T,
    object: &mut Dynamic<H>,
    index: &mut Dynamic<H>,
    new_val: &mut Dynamic<H>,
    is_ref_mut: bool,
    pos: Position,
) -> Result<(Dynamic<H>, bool), EvalAltResult<H>>
    requires sealed { AreSealed (cells_of global.old.cells) }
    ensures fits { (scope : _) (this : _) → FitsAgain (under H.name_of engine.now T.natives)
        (Both (OneValue object.old) (Both (OneValue index.old) (OneValue new_val.old)))
        (state_of (T.state table.old) global.old scope (holding this))
        (Both (of_changed result) (Both (OneValue object.new) (Both (OneValue index.new)
        (OneValue new_val.new))))
        (state_of (T.state table.new) global.new scope (holding this)) }
{
    engine.call_indexer_set(
        alloc, global, caches, table, object, index, new_val, is_ref_mut, pos,
    )
}

/// Shows that `Engine::get_indexed_mut` adds nothing but cells of the store to what is in hand. Of the value
/// that is indexed, what the target borrows and shows is known. What is left of it where the index is refused
/// is told by `refused_index`.
pub fn get_indexed_mut<'t, H: Host, T: NativeTable<H>>(
    engine: &Engine<H>,
    alloc: Global,
    global: &mut GlobalRuntimeState<H>,
    caches: &mut Caches<H>,
    table: &mut T,
    target: &'t mut Dynamic<H>,
    idx: &mut Dynamic<H>,
    idx_pos: Position,
    op_pos: Position,
    add_if_not_found: bool,
    use_indexers: bool,
) -> Result<Target<'t, H>, EvalAltResult<H>>
    requires object { IsNoHandle target.old.value }
    requires sealed { AreSealed (cells_of global.old.cells) }
    ensures fits { (scope : _) (this : _) → FitsAgain (under H.name_of engine.now T.natives)
        (Both (OneValue target.old) (OneValue idx.old))
        (state_of (T.state table.old) global.old scope (holding this))
        (Both (of_lent result) (OneValue idx.new))
        (state_of (T.state table.new) global.new scope (holding this)) }
{
    engine.get_indexed_mut(
        alloc,
        global,
        caches,
        table,
        target,
        idx,
        idx_pos,
        op_pos,
        add_if_not_found,
        use_indexers,
    )
}

/// Shows that an index that is refused adds nothing but cells of the store to what is in hand. It is told of
/// the function of `rhai_index` that `Engine::get_indexed_mut` calls, with what is left of the value that is
/// indexed.
pub fn refused_index<H: Host, T: NativeTable<H>>(
    session: &Session<'_, H>,
    global: &mut GlobalRuntimeState<H>,
    table: &mut T,
    object: &mut Dynamic<H>,
    idx: &mut Dynamic<H>,
    how: Access,
    use_indexers: bool,
) -> Option<EvalAltResult<H>>
    requires object { IsNoHandle object.old.value }
    requires sealed { AreSealed (cells_of global.old.cells) }
    ensures fits { (scope : _) (this : _) → IfSome result (λ error.
        FitsAgain (under_session H.name_of session.now T.natives)
        (Both (OneValue object.old) (OneValue idx.old))
        (state_of (T.state table.old) global.old scope (holding this))
        (Both (OneError error) (Both (OneValue object.new) (OneValue idx.new)))
        (state_of (T.state table.new) global.new scope (holding this))) }
{
    match indexing::get_indexed_mut(object, session, global, table, idx, how, use_indexers) {
        Ok(_target) => None,
        Err(error) => Some(error),
    }
}

/// Shows that `Engine::make_method_call` adds nothing but cells of the store to what is in hand. What is left
/// of a part that the target shows is known where memory did not run out.
pub fn make_method_call<H: Host, T: NativeTable<H>>(
    engine: &Engine<H>,
    alloc: Global,
    global: &mut GlobalRuntimeState<H>,
    caches: &mut Caches<H>,
    table: &mut T,
    fn_name: &str,
    target: &mut Target<'_, H>,
    call_args: &mut [Dynamic<H>],
    first_arg_pos: Position,
    pos: Position,
) -> Result<(Dynamic<H>, bool), EvalAltResult<H>>
    requires fit { CachesFit (lists_of global.old) caches.old }
    requires sealed { AreSealed (cells_of global.old.cells) }
    ensures fits { (scope : _) (this : _) → FitsAgain (under H.name_of engine.now T.natives)
        (Both (of_values call_args.old) (of_target target.old.part target.old.at.now))
        (state_of (T.state table.old) global.old scope (holding this))
        (Both (of_changed result) (Both (of_values call_args.new)
        (OneValue (value_walked_on target.new.part target.new.at.now))))
        (state_of (T.state table.new) global.new scope (holding this)) }
    ensures shown { (scope : _) (this : _) → HasMemory result →
        FitsAgain (under H.name_of engine.now T.natives)
        (Both (of_values call_args.old) (of_target target.old.part target.old.at.now))
        (state_of (T.state table.old) global.old scope (holding this))
        (OneValue (shown target.new.part target.new.at.now))
        (state_of (T.state table.new) global.new scope (holding this)) }
{
    engine.make_method_call(
        alloc,
        global,
        caches,
        table,
        fn_name,
        target,
        call_args,
        first_arg_pos,
        pos,
    )
}

/// Shows that `Engine::eval_op_assignment` adds nothing but cells of the store to what is in hand. What is
/// left of a part that the target shows is known where memory did not run out.
pub fn eval_op_assignment<H: Host, T: NativeTable<H>>(
    engine: &Engine<H>,
    alloc: Global,
    global: &mut GlobalRuntimeState<H>,
    caches: &mut Caches<H>,
    table: &mut T,
    op_info: &OpAssignment,
    root: &Expr,
    target: &mut Target<'_, H>,
    new_val: Dynamic<H>,
) -> Result<(), EvalAltResult<H>>
    requires value { IsNoHandle new_val.value }
    requires sealed { AreSealed (cells_of global.old.cells) }
    ensures fits { (scope : _) (this : _) → FitsAgain (under H.name_of engine.now T.natives)
        (Both (OneValue new_val) (of_target target.old.part target.old.at.now))
        (state_of (T.state table.old) global.old scope (holding this))
        (Both (of_done result) (OneValue (value_walked_on target.new.part target.new.at.now)))
        (state_of (T.state table.new) global.new scope (holding this)) }
    ensures shown { (scope : _) (this : _) → HasMemory result →
        FitsAgain (under H.name_of engine.now T.natives)
        (Both (OneValue new_val) (of_target target.old.part target.old.at.now))
        (state_of (T.state table.old) global.old scope (holding this))
        (OneValue (shown target.new.part target.new.at.now))
        (state_of (T.state table.new) global.new scope (holding this)) }
{
    engine.eval_op_assignment(alloc, global, caches, table, op_info, root, target, new_val)
}

/// Shows that `Engine::exec_fn_call` adds nothing but cells of the store to what is in hand. It has a scope
/// and a first argument that is lent: one in a place of the caller, or that of a method.
pub fn exec_fn_call<H: Host, T: NativeTable<H>>(
    engine: &Engine<H>,
    alloc: Global,
    global: &mut GlobalRuntimeState<H>,
    caches: &mut Caches<H>,
    table: &mut T,
    scope: &mut Scope<H>,
    name: &str,
    op_token: Option<&Token>,
    first: &mut Dynamic<H>,
    rest: &mut [Dynamic<H>],
    is_ref_mut: bool,
    is_method_call: bool,
    position: Position,
) -> Result<(Dynamic<H>, bool), EvalAltResult<H>>
    requires fit { CachesFit (lists_of global.old) caches.old }
    requires lent { (is_ref_mut || is_method_call) ≡ true }
    requires sealed { AreSealed (cells_of global.old.cells) }
    ensures fits { (this : _) → FitsAgain (under H.name_of engine.now T.natives)
        (of_values (first.old ∷ rest.old))
        (state_of (T.state table.old) global.old scope.old (holding this))
        (Both (of_changed result) (of_values (first.new ∷ rest.new)))
        (state_of (T.state table.new) global.new scope.new (holding this)) }
{
    engine.exec_fn_call(
        alloc,
        global,
        caches,
        table,
        Some(scope),
        name,
        op_token,
        Some(first),
        rest,
        is_ref_mut,
        is_method_call,
        position,
    )
}

/// Shows that `Engine::exec_fn_call` adds nothing but cells of the store to what is in hand. It has a scope
/// and a first argument that is handed in by value.
pub fn exec_fn_call_by_value<H: Host, T: NativeTable<H>>(
    engine: &Engine<H>,
    alloc: Global,
    global: &mut GlobalRuntimeState<H>,
    caches: &mut Caches<H>,
    table: &mut T,
    scope: &mut Scope<H>,
    name: &str,
    op_token: Option<&Token>,
    first: &mut Dynamic<H>,
    rest: &mut [Dynamic<H>],
    position: Position,
) -> Result<(Dynamic<H>, bool), EvalAltResult<H>>
    requires fit { CachesFit (lists_of global.old) caches.old }
    requires sealed { AreSealed (cells_of global.old.cells) }
    ensures fits { (this : _) → FitsAgain (under H.name_of engine.now T.natives)
        (of_values (first.old ∷ rest.old))
        (state_of (T.state table.old) global.old scope.old (holding this))
        (Both (of_changed result) (of_values (first.new ∷ rest.new)))
        (state_of (T.state table.new) global.new scope.new (holding this)) }
{
    engine.exec_fn_call(
        alloc,
        global,
        caches,
        table,
        Some(scope),
        name,
        op_token,
        Some(first),
        rest,
        false,
        false,
        position,
    )
}
