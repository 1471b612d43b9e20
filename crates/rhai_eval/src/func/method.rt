//! Methods whose arguments are there, on a target that the caller has. Ports upstream's
//! `make_method_call` of `func/call.rs`; the contracts cite specs/Ends.antt and specs/Places.antt, and the
//! specs/Targets.antt of `rhai_methods`.

ghost use Rattle.std.specs.Prelude.{◌≡◌, length, replicate, Some};
ghost use Rattle.rhai_spots.specs.Targets.{is_shared as shows_handle, shown};
ghost use Rattle.rhai_machine.specs.language.Methods.{method_core};
ghost use Rattle.rhai_machine.specs.language.State.{HasMemory};
ghost use Rattle.rhai_machine.specs.language.Values.{unit_value as unit};
ghost use Rattle.rhai_machine.specs.language.Runs.{Goes};
ghost use Rattle.rhai_machine.specs.language.Frames.{core, ended_or_changed};
ghost use Rattle.rhai_calls.specs.Targets.{on_target, StaysAlike, value_walked_on};
ghost use Rattle.rhai_steps.specs.OnFocus.{lending};
ghost use Rattle.rhai_eval_core.specs.States.{under as under_what_is_read};
ghost use Rattle.rhai_steps.specs.Callers.{state_of};
ghost use Rattle.rhai_steps.specs.States.{state_of as run_state};
ghost use Rattle.rhai_laws.specs.Kept.{Kept};
ghost use Rattle.rhai_eval.specs.Ends.{EndsAlone, EndsChanged};
ghost use Rattle.rhai_eval.specs.Places.{with_place};
ghost use Rattle.rhai_eval.specs.States.{under};
ghost use Rattle.rhai_lookups.specs.Levels.{CachesFit, CachesLeft};
ghost use Rattle.rhai_lookups.specs.Runs.{lists_of};

use crate::engine::Engine;
use crate::func::arguments::empty;
use rhai_context::ends::finish_changed;
use rhai_context::{Context, give_back, take};
use rhai_errors::error::EvalAltResult;
use rhai_errors::table::NativeTable;
use rhai_eval_core::evaluator::Evaluator;
use rhai_lookups::caches::Caches;
use rhai_methods::target::put_back;
use rhai_places::target::Target;
use rhai_spots::part::Part;
use rhai_state::scope::Scope;
use rhai_state::state::GlobalRuntimeState;
use rhai_tree::position::Position;
use rhai_values::base::value::{Dynamic, Host};
use std::alloc::Global;

/// Calls a method on what a target shows, in the state of a run. That is the place, the temporary, or the
/// part's value. A part that the method may have changed is put back into its place.
fn call_on_target<H: Host, T: NativeTable<H>>(
    evaluator: &Evaluator<'_, H>,
    alloc: Global,
    run: &mut Context<H>,
    table: &mut T,
    name: &str,
    target: &mut Target<'_, H>,
    args: &mut [Dynamic<H>],
    first: Option<Position>,
    pos: Position,
) -> Result<(Dynamic<H>, bool), EvalAltResult<H>>
    ensures same_reference { target.new.at.ghost_name ≡ target.old.at.ghost_name }
    ensures part { StaysAlike target.old.part target.old.at.now target.new.part target.new.at.now }
    ensures runs { (scope : _) (held : _) →
        let rules = under_what_is_read H.name_of evaluator.now T.natives in
        Goes rules
        (on_target rules.setting (record { name = name.now; at = pos; first_at = first; was_handle = shows_handle target.old.part target.old.at.now }) args.old target.old.part target.old.at.now)
        (run_state (T.state table.old) run.old.global scope (lending held (shown target.old.part target.old.at.now)))
        (core (ended_or_changed result))
        (run_state (T.state table.new) run.new.global scope (lending held (value_walked_on target.new.part target.new.at.now))) }
    ensures shows { (scope : _) (held : _) → HasMemory result →
        let rules = under_what_is_read H.name_of evaluator.now T.natives in
        EndsAlone rules (method_core rules.setting
        (record {
          name = name.now;
          at = pos;
          first_at = first;
          was_handle = shows_handle target.old.part target.old.at.now;
        }) args.old (shown target.old.part target.old.at.now))
        (run_state (T.state table.old) run.old.global scope
        (lending held (shown target.old.part target.old.at.now)))
        (run_state (T.state table.new) run.new.global scope
        (lending held (shown target.new.part target.new.at.now))) }
{
    let is_handle = target.is_shared();
    match &mut target.part {
        Part::Whole => {
            let place = &mut *target.at;
            let mark = evaluator.run_method(run, table, name, place, args, first, pos, is_handle);
            finish_changed(mark, &mut run.value, &mut run.error)
        }
        Part::Temporary(value) => {
            let mark = evaluator.run_method(run, table, name, value, args, first, pos, is_handle);
            finish_changed(mark, &mut run.value, &mut run.error)
        }
        Part::Of(_, value) => {
            let mark = evaluator.run_method(run, table, name, value, args, first, pos, is_handle);
            let answer = finish_changed(mark, &mut run.value, &mut run.error);
            put_back(alloc, target, answer, pos)
        }
    }
}

impl<H: Host> Engine<H> {
    /// Calls a method on what a target shows, its arguments there. The method is `call`, `curry` or
    /// `is_shared` on a pointer or a handle, a map's own pointer under the name, or else a call by name with
    /// what is shown before the arguments, which is lent, and kept from a native that is not pure where it is
    /// a constant. A function of a script has what is shown as its `this`, in its own place. A part that a
    /// native may have changed is put back into its place. With the value comes whether a native gave it that
    /// is not pure. The arguments are used up, whatever the call comes to: `()` stands in their places. The
    /// target shows what the method has made of the value that it worked on, also of a part that went back or
    /// was refused. Ports upstream's `make_method_call`.
    ///
    /// A part that its place does not have goes nowhere.
    ///
    /// # Errors
    /// At the method: `ErrorDataRace` for an argument that is the handle of a cell which is held, and for
    /// such a handle where a pointer or a map is looked for; `ErrorMismatchDataType` for what is no pointer,
    /// and for a part that has become of another type, whose place then stays; for a first argument that is
    /// to be called both come at its own position. Besides those of `exec_fn_call`.
    pub fn make_method_call<T: NativeTable<H>>(
        &self,
        alloc: Global,
        global: &mut GlobalRuntimeState<H>,
        caches: &mut Caches<H>,
        table: &mut T,
        fn_name: &str,
        target: &mut Target<'_, H>,
        call_args: &mut [Dynamic<H>],
        first_arg_pos: Position,
        pos: Position,
    ) -> Result<(Dynamic<H>, bool), EvalAltResult<H>>
        requires fit { CachesFit (lists_of global.old) caches.old }
        ensures ends { (scope : _) (this : _) → let rules = under H.name_of self.now T.natives in
            EndsChanged rules (on_target rules.setting
            (record {
              name = fn_name.now;
              at = pos;
              first_at = Some first_arg_pos;
              was_handle = shows_handle target.old.part target.old.at.now;
            })
            call_args.old target.old.part target.old.at.now)
            (state_of (T.state table.old) global.old scope
            (with_place this (Some (shown target.old.part target.old.at.now)))) result
            (state_of (T.state table.new) global.new scope
            (with_place this (Some (value_walked_on target.new.part target.new.at.now)))) }
        ensures kept { (scope : _) (this : _) → Kept (under H.name_of self.now T.natives)
            (state_of (T.state table.old) global.old scope
            (with_place this (Some (shown target.old.part target.old.at.now))))
            (state_of (T.state table.new) global.new scope
            (with_place this (Some (value_walked_on target.new.part target.new.at.now)))) }
        ensures same_reference { target.new.at.ghost_name ≡ target.old.at.ghost_name }
        ensures part { StaysAlike target.old.part target.old.at.now target.new.part target.new.at.now }
        ensures shows { (scope : _) (this : _) → HasMemory result →
            let rules = under H.name_of self.now T.natives in
            EndsAlone rules (method_core rules.setting
            (record {
              name = fn_name.now;
              at = pos;
              first_at = Some first_arg_pos;
              was_handle = shows_handle target.old.part target.old.at.now;
            }) call_args.old (shown target.old.part target.old.at.now))
            (state_of (T.state table.old) global.old scope
            (with_place this (Some (shown target.old.part target.old.at.now))))
            (state_of (T.state table.new) global.new scope
            (with_place this (Some (shown target.new.part target.new.at.now)))) }
        ensures args { call_args.new ≡ replicate (length call_args.old) unit }
        ensures caches { CachesLeft (lists_of global.new) caches.old caches.new }
        ensures search { global.new.always_search_scope ≡ global.old.always_search_scope }
    {
        let mut scope = Scope::new(alloc);
        let mut run = take(alloc, global, caches, &mut scope);
        let evaluator = self.evaluator(alloc);
        let first = Some(first_arg_pos);
        let result = call_on_target(
            &evaluator, alloc, &mut run, table, fn_name, target, call_args, first, pos,
        );
        give_back(run, global, caches, &mut scope);
        drop(scope);
        empty(call_args);
        result
    }
}
