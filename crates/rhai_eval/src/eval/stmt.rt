//! Statements, and assignment to what a target shows. Ports upstream's `eval/stmt.rs`; the contracts
//! speak of the machine's runs and of specs/Assigned.antt.

ghost use Rattle.std.specs.Prelude.{◌≡◌, ◌≤◌, OnOk, IsTrue, Some, length, map, false};
ghost use Rattle.rhai_tree.specs.Frame.{resolves_stmt, all_resolve};
ghost use Rattle.rhai_tree.specs.Names.{Begins};
ghost use Rattle.rhai_values.specs.Cells.{IsNoHandle};
ghost use Rattle.rhai_errors.specs.Native.{left_by, lent_value};
ghost use Rattle.rhai_state.specs.Scope.{names_in};
ghost use Rattle.rhai_lookups.specs.Levels.{CachesFit, CachesLeft};
ghost use Rattle.rhai_lookups.specs.Runs.{lists_of};
ghost use Rattle.rhai_machine.specs.language.Frames.{Exec, Enter, ended_or_changed};
ghost use Rattle.rhai_steps.specs.Sessions.{under as under_session};
ghost use Rattle.rhai_machine.specs.language.State.{HasMemory};
ghost use Rattle.rhai_machine.specs.language.Chains.{assign_focus};
ghost use Rattle.rhai_spots.specs.Targets.{shown};
ghost use Rattle.rhai_steps.specs.Callers.{AgreesAt, frame_of, state_of};
ghost use Rattle.rhai_steps.specs.Agreement.{passes};
ghost use Rattle.rhai_steps.specs.States.{holding, state_of as run_state};
ghost use Rattle.rhai_tree.specs.declared.expr.Stmt.{out-Stmt};
ghost use Rattle.rhai_laws.specs.Kept.{Grown, Kept, declares, is_import};
ghost use Rattle.rhai_steps.specs.OnFocus.{lending};
ghost use Rattle.rhai_steps.specs.Follows.{Follows};
ghost use Rattle.rhai_calls.specs.Targets.{ComesBack, StaysAlike, value_walked_on};
ghost use Rattle.rhai_eval.specs.Assigned.{assigned, target_assigned, value_assigned, without_value};
ghost use Rattle.rhai_eval.specs.Ends.{EndsAlone, EndsAs, EndsAssigned};
ghost use Rattle.rhai_eval.specs.Places.{with_place};
ghost use Rattle.rhai_eval.specs.States.{under};

use crate::engine::Engine;
use crate::this::{give_back_with_this, take_with_this};
use rhai_assign::focus::assign_focus;
use rhai_context::ends::finish;
use rhai_context::{give_back, lend_state, return_state, take};
use rhai_errors::error::EvalAltResult;
use rhai_errors::table::NativeTable;
use rhai_lookups::caches::Caches;
use rhai_lookups::run::RunState;
use rhai_places::target::Target;
use rhai_spots::part::Part;
use rhai_state::scope::Scope;
use rhai_state::session::Session;
use rhai_state::state::GlobalRuntimeState;
use rhai_steps::values::let_go;
use rhai_tree::expr::{Expr, OpAssignment, Stmt};
use rhai_tree::position::Position;
use rhai_values::base::value::{Dynamic, Host};
use std::alloc::Global;

/// Leaves out the value that an assignment answers, and keeps its error.
fn without_answer<H: Host>(
    outcome: Result<Dynamic<H>, EvalAltResult<H>>,
) -> Result<(), EvalAltResult<H>>
    ensures { result ≡ without_value outcome }
{
    match outcome {
        Ok(value) => {
            let_go(value);
            Ok(())
        }
        Err(error) => Err(error),
    }
}

/// Assigns to a value where it stands.
fn assign_value<H: Host, T: NativeTable<H>>(
    session: &Session<'_, H>,
    global: &mut RunState<H>,
    table: &mut T,
    place: &mut Dynamic<H>,
    root: &Expr,
    op: OpAssignment,
    value: Dynamic<H>,
) -> Result<(), EvalAltResult<H>>
    ensures follows { (scope : _) (held : _) →
        let rules = under_session H.name_of session.now T.natives in
        Follows rules ended_or_changed
        (value_assigned rules.setting root.now (record { op = op; value = value }))
        (run_state (T.state table.old) global.old scope (lending held place.old)) (assigned result)
        (run_state (T.state table.new) global.new scope (lending held place.new)) }
{
    let answer = assign_focus(session, global, table, place, root, op, value);
    without_answer(answer)
}

/// Puts an assigned part back into its place, unless the assignment failed.
fn put_assigned<H: Host>(
    alloc: Global,
    target: &mut Target<'_, H>,
    outcome: Result<(), EvalAltResult<H>>,
    pos: Position,
) -> Result<(), EvalAltResult<H>>
    ensures same_reference { target.new.at.ghost_name ≡ target.old.at.ghost_name }
    ensures part { target.new.part ≡ target.old.part }
    ensures comes { ComesBack H.name_of target.old.part target.old.at.now pos (assigned outcome)
        (assigned result) target.new.at.now }
{
    match outcome {
        Ok(()) => target.propagate_changed_value(alloc, pos),
        Err(error) => Err(error),
    }
}

/// Assigns to what a target shows, and puts a part back into its place.
fn assign_target<H: Host, T: NativeTable<H>>(
    session: &Session<'_, H>,
    global: &mut RunState<H>,
    table: &mut T,
    target: &mut Target<'_, H>,
    root: &Expr,
    op: OpAssignment,
    value: Dynamic<H>,
) -> Result<(), EvalAltResult<H>>
    ensures same_reference { target.new.at.ghost_name ≡ target.old.at.ghost_name }
    ensures part { StaysAlike target.old.part target.old.at.now target.new.part target.new.at.now }
    ensures follows { (scope : _) (held : _) →
        let rules = under_session H.name_of session.now T.natives in
        Follows rules ended_or_changed
        (target_assigned rules.setting root.now (record { op = op; value = value }) target.old.part target.old.at.now)
        (run_state (T.state table.old) global.old scope (lending held (value_walked_on target.old.part target.old.at.now)))
        (assigned result)
        (run_state (T.state table.new) global.new scope (lending held (value_walked_on target.new.part target.new.at.now))) }
    ensures shows { (scope : _) (held : _) → HasMemory result →
        let rules = under_session H.name_of session.now T.natives in
        EndsAlone rules (value_assigned rules.setting root.now (record { op = op; value = value }))
        (run_state (T.state table.old) global.old scope
        (lending held (shown target.old.part target.old.at.now)))
        (run_state (T.state table.new) global.new scope
        (lending held (shown target.new.part target.new.at.now))) }
{
    match &mut target.part {
        Part::Whole => {
            let place = &mut *target.at;
            assign_value(session, global, table, place, root, op, value)
        }
        Part::Temporary(temporary) => assign_value(
            session, global, table, temporary, root, op, value,
        ),
        Part::Of(_, shown) => {
            let outcome = assign_value(session, global, table, shown, root, op, value);
            put_assigned(session.alloc, target, outcome, op.position)
        }
    }
}

impl<H: Host> Engine<H> {
    /// Assigns to what a target shows: a value as it is, or by an operator. For that the built-in is tried
    /// first under fast operators, then the native `op=`, which may change the value where it stands, and
    /// where that is missing the native `op`, which gives the new one. A place or a temporary that is a
    /// handle stands for the value of its cell. A part is put back into its place; after an error the place
    /// of a part is as it was. The root of the chain tells which constant it is that may not be assigned to.
    /// What was assigned to is not measured here. Ports upstream's `eval_op_assignment`.
    ///
    /// A part that its place does not have is assigned to, and put back nowhere. The target shows afterwards
    /// what the assignment made of what it showed. Asked: a value to assign that is no handle of a cell. No
    /// function of a script is called.
    ///
    /// # Errors
    /// At the root's start: `ErrorAssignmentToConstant` for a constant, and `ErrorDataRace` for the handle of
    /// a cell that is held. At the operator: what the operator answers, with `ErrorTooManyOperations` where
    /// the count has reached the limit, `ErrorDataTooLarge` for what it gave, and `ErrorMismatchDataType` for
    /// a part that has become of another type, whose place then stays. At the root `ErrorDataTooLarge` for
    /// what a native left of what the target shows, or gave for it.
    pub fn eval_op_assignment<T: NativeTable<H>>(
        &self,
        alloc: Global,
        global: &mut GlobalRuntimeState<H>,
        _caches: &mut Caches<H>,
        table: &mut T,
        op_info: &OpAssignment,
        root: &Expr,
        target: &mut Target<'_, H>,
        new_val: Dynamic<H>,
    ) -> Result<(), EvalAltResult<H>>
        requires value { IsNoHandle new_val.value }
        ensures ends { (scope : _) (this : _) → let rules = under H.name_of self.now T.natives in
            EndsAssigned rules (target_assigned rules.setting root.now
            (record { op = op_info.now; value = new_val }) target.old.part target.old.at.now)
            (state_of (T.state table.old) global.old scope
            (with_place this (Some (value_walked_on target.old.part target.old.at.now)))) result
            (state_of (T.state table.new) global.new scope
            (with_place this (Some (value_walked_on target.new.part target.new.at.now)))) }
        ensures kept { (scope : _) (this : _) → Kept (under H.name_of self.now T.natives)
            (state_of (T.state table.old) global.old scope
            (with_place this (Some (value_walked_on target.old.part target.old.at.now))))
            (state_of (T.state table.new) global.new scope
            (with_place this (Some (value_walked_on target.new.part target.new.at.now)))) }
        ensures same_reference { target.new.at.ghost_name ≡ target.old.at.ghost_name }
        ensures part { StaysAlike target.old.part target.old.at.now target.new.part target.new.at.now }
        ensures shows { (scope : _) (this : _) → HasMemory result →
            let rules = under H.name_of self.now T.natives in
            EndsAlone rules (value_assigned rules.setting root.now
            (record { op = op_info.now; value = new_val }))
            (state_of (T.state table.old) global.old scope
            (with_place this (Some (shown target.old.part target.old.at.now))))
            (state_of (T.state table.new) global.new scope
            (with_place this (Some (shown target.new.part target.new.at.now)))) }
        ensures caches { _caches.new ≡ _caches.old }
        ensures search { global.new.always_search_scope ≡ global.old.always_search_scope }
    {
        let session = self.session(alloc);
        let op = *op_info;
        let mut run = lend_state(alloc, global);
        let result = assign_target(&session, &mut run, table, target, root, op, new_val);
        return_state(alloc, run, global);
        result
    }

    /// Runs a statement, charged first at its position. In a list that restores, `rewind_scope` is set. Ports
    /// upstream's `eval_stmt`.
    ///
    /// The statement is a part of a checked tree, above the variables that the scope has there.
    /// `this` is taken out of its place meanwhile, and put back on every way out.
    pub fn eval_stmt<T: NativeTable<H>>(
        &self,
        alloc: Global,
        global: &mut GlobalRuntimeState<H>,
        caches: &mut Caches<H>,
        table: &mut T,
        scope: &mut Scope<H>,
        this: Option<&mut Dynamic<H>>,
        stmt: &Stmt,
        rewind_scope: bool,
    ) -> Result<Dynamic<H>, EvalAltResult<H>>
        requires fit { CachesFit (lists_of global.old) caches.old }
        requires resolves { AgreesAt global.old scope.old (passes (resolves_stmt stmt.now)) }
        ensures ends { EndsAs (under H.name_of self.now T.natives) (Exec stmt.now rewind_scope)
            (state_of (T.state table.old) global.old scope.old (holding (lent_value this.entry))) result
            (state_of (T.state table.new) global.new scope.new (holding (left_by this.exit))) }
        ensures kept { Grown (under H.name_of self.now T.natives)
            (state_of (T.state table.old) global.old scope.old (holding (lent_value this.entry)))
            (state_of (T.state table.new) global.new scope.new (holding (left_by this.exit))) }
        ensures begins { Begins (names_in scope.old) (names_in scope.new) }
        ensures names { OnOk result (names_in scope.new
            ≡ (resolves_stmt stmt.now (frame_of global.old scope.old)).1.names) }
        ensures stays { declares (out-Stmt stmt.now) ≡ false → names_in scope.new ≡ names_in scope.old }
        ensures imports { is_import (out-Stmt stmt.now) ≡ false → global.new.imports ≡ global.old.imports }
        ensures variables { length (names_in scope.old) ≤ self.now.max_variables →
            length (names_in scope.new) ≤ self.now.max_variables }
        ensures caches { CachesLeft (lists_of global.new) caches.old caches.new }
        ensures search { global.new.always_search_scope ≡ global.old.always_search_scope }
    {
        let evaluator = self.evaluator(alloc);
        match this {
            Some(place) => {
                let mut run = take_with_this(alloc, global, caches, scope, place);
                let done = evaluator.run_stmt(&mut run, table, stmt, rewind_scope);
                let result = finish(done, &mut run.value, &mut run.error);
                give_back_with_this(run, global, caches, scope, place);
                result
            }
            None => {
                let mut run = take(alloc, global, caches, scope);
                let done = evaluator.run_stmt(&mut run, table, stmt, rewind_scope);
                let result = finish(done, &mut run.value, &mut run.error);
                give_back(run, global, caches, scope);
                result
            }
        }
    }

    /// Runs a list of statements, charged statement by statement. With `restore_orig_state` the variables
    /// that it added, the imports and the scope level are taken back on every way out, also where memory runs
    /// out. Ports upstream's `eval_stmt_block`.
    ///
    /// The statements are a part of a checked tree, above the variables that the scope has there.
    /// `this` is taken out of its place meanwhile, and put back on every way out.
    pub fn eval_stmt_block<T: NativeTable<H>>(
        &self,
        alloc: Global,
        global: &mut GlobalRuntimeState<H>,
        caches: &mut Caches<H>,
        table: &mut T,
        scope: &mut Scope<H>,
        this: Option<&mut Dynamic<H>>,
        statements: &[Stmt],
        restore_orig_state: bool,
    ) -> Result<Dynamic<H>, EvalAltResult<H>>
        requires fit { CachesFit (lists_of global.old) caches.old }
        requires resolves { AgreesAt global.old scope.old
            (passes (all_resolve (map resolves_stmt statements.now))) }
        ensures ends { EndsAs (under H.name_of self.now T.natives) (Enter statements.now restore_orig_state)
            (state_of (T.state table.old) global.old scope.old (holding (lent_value this.entry))) result
            (state_of (T.state table.new) global.new scope.new (holding (left_by this.exit))) }
        ensures kept { Grown (under H.name_of self.now T.natives)
            (state_of (T.state table.old) global.old scope.old (holding (lent_value this.entry)))
            (state_of (T.state table.new) global.new scope.new (holding (left_by this.exit))) }
        ensures begins { Begins (names_in scope.old) (names_in scope.new) }
        ensures restores { IsTrue restore_orig_state → names_in scope.new ≡ names_in scope.old }
        ensures imports { IsTrue restore_orig_state → global.new.imports ≡ global.old.imports }
        ensures variables { length (names_in scope.old) ≤ self.now.max_variables →
            length (names_in scope.new) ≤ self.now.max_variables }
        ensures caches { CachesLeft (lists_of global.new) caches.old caches.new }
        ensures search { global.new.always_search_scope ≡ global.old.always_search_scope }
    {
        let evaluator = self.evaluator(alloc);
        match this {
            Some(place) => {
                let mut run = take_with_this(alloc, global, caches, scope, place);
                let done = evaluator.run_stmt_block(
                    &mut run,
                    table,
                    statements,
                    restore_orig_state,
                );
                let result = finish(done, &mut run.value, &mut run.error);
                give_back_with_this(run, global, caches, scope, place);
                result
            }
            None => {
                let mut run = take(alloc, global, caches, scope);
                let done = evaluator.run_stmt_block(
                    &mut run,
                    table,
                    statements,
                    restore_orig_state,
                );
                let result = finish(done, &mut run.value, &mut run.error);
                give_back(run, global, caches, scope);
                result
            }
        }
    }
}
