//! Indexing, with its charge and the host's indexers. Ports upstream's `eval/indexing.rs` as far as it is
//! there. What an index leads to is found by `rhai_index`; the indexers are natives, whose contracts speak
//! of the machine's runs and of specs/Indexing.antt.

ghost use Rattle.std.specs.Prelude.{◌≡◌, ◌∷◌, [], ◌<◌, false, true, length, slice_get, IfErr, IfOk, Some};
ghost use Rattle.rhai_values.specs.Cells.{IsNoHandle};
ghost use Rattle.rhai_machine.specs.language.Frames.{Ask, ended_or_changed};
ghost use Rattle.rhai_machine.specs.language.Members.{get_core, get_item, set_core, set_item};
ghost use Rattle.rhai_machine.specs.language.Runs.{Runs, Steps};
ghost use Rattle.rhai_steps.specs.Sessions.{under as under_session};
ghost use Rattle.rhai_steps.specs.Callers.{state_of};
ghost use Rattle.rhai_steps.specs.States.{state_of as run_state};
ghost use Rattle.rhai_steps.specs.OnFocus.{lending};
ghost use Rattle.rhai_index.specs.Indexes.{Indexes};
ghost use Rattle.rhai_laws.specs.Kept.{Kept};
ghost use Rattle.rhai_eval.specs.Ends.{EndsFrom, EndsChanged};
ghost use Rattle.rhai_eval.specs.Indexing.{access, item_by};
ghost use Rattle.rhai_eval.specs.Places.{with_place};
ghost use Rattle.rhai_eval.specs.States.{limits_of, under};

use crate::engine::Engine;
use rhai_calls::native::{Passing, call_native, pass_native};
use rhai_context::{lend_state, return_state};
use rhai_errors::error::EvalAltResult;
use rhai_errors::table::NativeTable;
use rhai_few::Few;
use rhai_index::indexing;
use rhai_lookups::caches::Caches;
use rhai_lookups::run::RunState;
use rhai_places::target::Target;
use rhai_spots::spot::Access;
use rhai_state::session::Session;
use rhai_state::state::GlobalRuntimeState;
use rhai_steps::operation::Operation;
use rhai_steps::values::{let_go, list_of, unit_value};
use rhai_tree::position::Position;
use rhai_values::base::value::{Dynamic, Host};
use std::alloc::Global;
use std::mem::replace;

/// Takes the first value out of a list.
fn first_of<H: Host>(items: &mut Few<Dynamic<H>>) -> Dynamic<H>
    requires { 0 < length items.old }
    ensures { slice_get items.old 0 ≡ Some result }
{
    items.remove(0)
}

/// Takes the first two values out of a list.
fn both_of<H: Host>(items: &mut Few<Dynamic<H>>) -> (Dynamic<H>, Dynamic<H>)
    requires { 1 < length items.old }
    ensures first { slice_get items.old 0 ≡ Some result.0 }
    ensures second { slice_get items.old 1 ≡ Some result.1 }
{
    let second = items.remove(1);
    (first_of(items), second)
}

/// Makes a list of two values. Where there is no memory they come back.
fn list_of_both<H: Host>(
    alloc: Global,
    first: Dynamic<H>,
    second: Dynamic<H>,
) -> Result<Few<Dynamic<H>>, (Dynamic<H>, Dynamic<H>)>
    ensures ok { IfOk result (λ items. items ≡ first ∷ second ∷ []) }
    ensures err { IfErr result (λ both. both ≡ (first, second)) }
{
    match list_of(alloc, first) {
        Ok(items) => {
            let mut items = items;
            match items.try_push(second) {
                Ok(()) => Ok(items),
                Err(failed) => {
                    let first = first_of(&mut items);
                    drop(items);
                    Err((first, failed.value))
                }
            }
        }
        Err(first) => Err((first, second)),
    }
}

/// Puts two values back where they were taken.
fn put_both<H: Host>(both: (Dynamic<H>, Dynamic<H>), index: &mut Dynamic<H>, new: &mut Dynamic<H>)
    ensures index { index.new ≡ both.0 }
    ensures new { new.new ≡ both.1 }
{
    let (first, second) = both;
    let_go(replace(index, first));
    let_go(replace(new, second));
}

/// Asks the indexer that reads, which `object` is lent to. A constant is kept from one that is not pure.
fn ask_get<H: Host, T: NativeTable<H>>(
    session: &Session<'_, H>,
    global: &mut RunState<H>,
    table: &mut T,
    object: &mut Dynamic<H>,
    index: &mut Dynamic<H>,
    pos: Position,
) -> Result<Dynamic<H>, EvalAltResult<H>>
    ensures runs { (scope : _) (held : _) →
        Runs (under_session H.name_of session.now T.natives) (Ask (get_item pos object.old index.old))
        (run_state (T.state table.old) global.old scope (lending held object.old))
        result (run_state (T.state table.new) global.new scope (lending held object.new)) }
    ensures index { index.new ≡ index.old }
{
    let guarded = true;
    match list_of(session.alloc, replace(index, unit_value())) {
        Ok(items) => {
            let mut items = items;
            let rest = items.as_slice();
            let result = call_native(
                session,
                global,
                table,
                &Operation {
                    name: "index$get$",
                    token: None,
                    at: pos,
                },
                object,
                rest,
                guarded,
            );
            let_go(replace(index, first_of(&mut items)));
            drop(items);
            result
        }
        Err(value) => {
            let_go(replace(index, value));
            Err(EvalAltResult::ErrorOutOfMemory(pos))
        }
    }
}

/// Asks the indexer that writes, which `object` is lent to.
fn ask_set<H: Host, T: NativeTable<H>>(
    session: &Session<'_, H>,
    global: &mut RunState<H>,
    table: &mut T,
    object: &mut Dynamic<H>,
    index: &mut Dynamic<H>,
    new: &mut Dynamic<H>,
    guarded: bool,
    pos: Position,
) -> Result<(Dynamic<H>, bool), EvalAltResult<H>>
    ensures runs { (scope : _) (held : _) →
        Steps (under_session H.name_of session.now T.natives)
        (Ask (set_item pos guarded object.old index.old new.old))
        (run_state (T.state table.old) global.old scope (lending held object.old)) (ended_or_changed result)
        (run_state (T.state table.new) global.new scope (lending held object.new)) }
    ensures index { index.new ≡ index.old }
    ensures new { new.new ≡ new.old }
{
    let passing = Passing {
        guarded,
        marks: true,
    };
    match list_of_both(
        session.alloc,
        replace(index, unit_value()),
        replace(new, unit_value()),
    ) {
        Ok(items) => {
            let mut items = items;
            let rest = items.as_slice();
            let result = pass_native(
                session,
                global,
                table,
                &Operation {
                    name: "index$set$",
                    token: None,
                    at: pos,
                },
                object,
                rest,
                passing,
            );
            put_both(both_of(&mut items), index, new);
            drop(items);
            result
        }
        Err(both) => {
            put_both(both, index, new);
            Err(EvalAltResult::ErrorOutOfMemory(pos))
        }
    }
}

impl<H: Host> Engine<H> {
    /// Finds the target that an index leads to, charged first without a position. Where the value that is
    /// indexed is of a kind that is not indexed here and indexers are allowed, the host's indexer is charged
    /// at the operator and called with the value and the index, and what it gives is a temporary; what the
    /// target borrows then is the value as the indexer left it. Ports upstream's `get_indexed_mut`. Asked:
    /// the value that is indexed is no handle of a cell. What becomes of it is told by
    /// `rhai_index::indexing::get_indexed_mut`, of which this is a call.
    ///
    /// # Errors
    /// `ErrorTooManyOperations` where the count has reached the limit: without a position, and
    /// nothing is changed; or at the operator, before the indexer is called. At the operator too:
    /// `ErrorIndexingType` where there is no indexer, its own fault where that says no position,
    /// and `ErrorDataTooLarge` for a value of it above a limit. All others are those of
    /// `rhai_places::indexing::get_indexed_mut`.
    pub fn get_indexed_mut<'t, T: NativeTable<H>>(
        &self,
        alloc: Global,
        global: &mut GlobalRuntimeState<H>,
        _caches: &mut Caches<H>,
        table: &mut T,
        target: &'t mut Dynamic<H>,
        idx: &mut Dynamic<H>,
        idx_pos: Position,
        op_pos: Position,
        add_if_not_found: bool,
        use_indexers: bool,
    ) -> Result<Target<'t, H>, EvalAltResult<H>>
        requires { IsNoHandle target.old.value }
        ensures indexes { Indexes (limits_of self.now) H.name_of T.natives T.state
            (access self.now idx_pos op_pos add_if_not_found) use_indexers
            global.old table.old target.old idx.old global.new table.new idx.new result }
        ensures caches { _caches.new ≡ _caches.old }
    {
        let how = Access {
            idx_pos,
            op_pos,
            add_if_not_found,
            fail_on_invalid_map_property: self.fail_on_invalid_map_property,
        };
        indexing::get_indexed_mut(
            target,
            &self.session(alloc),
            global,
            table,
            idx,
            how,
            use_indexers,
        )
    }

    /// Charges a call of the indexer that reads at the operator, and calls it. An `object` that is a handle
    /// of a cell stands for the cell's value, and the cell is held so long. What the indexer leaves of
    /// `object` stands there on every way out, and the index stays. Ports upstream's `call_indexer_get`.
    ///
    /// # Errors
    /// At the operator: `ErrorTooManyOperations` where the count has reached the limit, and then
    /// nothing is changed; `ErrorDataRace` where the cell is held, or a handle stands in it;
    /// `ErrorNonPureMethodCallOnConstant` for a constant where the indexer is not pure, which is then
    /// not called; `ErrorIndexingType` where there is no indexer; its own fault, at the operator where
    /// it says no position; `ErrorDataTooLarge` for a value above a limit.
    pub fn call_indexer_get<T: NativeTable<H>>(
        &self,
        alloc: Global,
        global: &mut GlobalRuntimeState<H>,
        _caches: &mut Caches<H>,
        table: &mut T,
        object: &mut Dynamic<H>,
        index: &mut Dynamic<H>,
        pos: Position,
    ) -> Result<Dynamic<H>, EvalAltResult<H>>
        ensures ends { (scope : _) (this : _) → EndsFrom (under H.name_of self.now T.natives)
            (get_core (item_by index.old pos true))
            (state_of (T.state table.old) global.old scope (with_place this (Some object.old))) result
            (state_of (T.state table.new) global.new scope (with_place this (Some object.new))) }
        ensures kept { (scope : _) (this : _) → Kept (under H.name_of self.now T.natives)
            (state_of (T.state table.old) global.old scope (with_place this (Some object.old)))
            (state_of (T.state table.new) global.new scope (with_place this (Some object.new))) }
        ensures index { index.new ≡ index.old }
        ensures caches { _caches.new ≡ _caches.old }
        ensures search { global.new.always_search_scope ≡ global.old.always_search_scope }
    {
        let session = self.session(alloc);
        let mut run = lend_state(alloc, global);
        let result = ask_get(&session, &mut run, table, object, index, pos);
        return_state(alloc, run, global);
        result
    }

    /// Charges a call of the indexer that writes at the operator, and calls it. Answers its value too, and
    /// whether it may have changed `object`. An `object` that is a handle of a cell stands for the cell's
    /// value, and the cell is held so long. What the indexer leaves of `object` stands there on every way
    /// out, and the index and the new value stay. Ports upstream's `call_indexer_set`; `is_ref_mut` says that
    /// `object` is a place of the caller, and a constant there is kept from an indexer that is not pure.
    ///
    /// # Errors
    /// Those of `call_indexer_get`; a constant is refused where it is a place of the caller.
    pub fn call_indexer_set<T: NativeTable<H>>(
        &self,
        alloc: Global,
        global: &mut GlobalRuntimeState<H>,
        _caches: &mut Caches<H>,
        table: &mut T,
        object: &mut Dynamic<H>,
        index: &mut Dynamic<H>,
        new_val: &mut Dynamic<H>,
        is_ref_mut: bool,
        pos: Position,
    ) -> Result<(Dynamic<H>, bool), EvalAltResult<H>>
        ensures ends { (scope : _) (this : _) → EndsChanged (under H.name_of self.now T.natives)
            (set_core false (item_by index.old pos is_ref_mut) new_val.old)
            (state_of (T.state table.old) global.old scope (with_place this (Some object.old))) result
            (state_of (T.state table.new) global.new scope (with_place this (Some object.new))) }
        ensures kept { (scope : _) (this : _) → Kept (under H.name_of self.now T.natives)
            (state_of (T.state table.old) global.old scope (with_place this (Some object.old)))
            (state_of (T.state table.new) global.new scope (with_place this (Some object.new))) }
        ensures index { index.new ≡ index.old }
        ensures new_val { new_val.new ≡ new_val.old }
        ensures caches { _caches.new ≡ _caches.old }
        ensures search { global.new.always_search_scope ≡ global.old.always_search_scope }
    {
        let session = self.session(alloc);
        let mut run = lend_state(alloc, global);
        let result = ask_set(
            &session, &mut run, table, object, index, new_val, is_ref_mut, pos,
        );
        return_state(alloc, run, global);
        result
    }
}
