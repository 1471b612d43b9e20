//! Calls by name whose arguments are there. Ports what upstream's `exec_fn_call` does; the contracts cite
//! specs/Places.antt, specs/Entering.antt and specs/Ends.antt.

ghost use Rattle.std.specs.Prelude.{◌≡◌, ◌∷◌, [], ◌||◌, IfErr, IfOk, None, Ok, Some, false, if◌then◌else◌};
ghost use Rattle.std.specs.Prelude.{is_some, length, not, replicate, true, unwrap_or};
ghost use Rattle.std.specs.Option.{option_copied, option_map};
ghost use Rattle.rhai_values.specs.Copy.{copy_of};
ghost use Rattle.rhai_errors.specs.Errors.{is_out_of_memory};
ghost use Rattle.rhai_errors.specs.Native.{left_by, lent_value};
ghost use Rattle.rhai_state.specs.Scope.{names_in};
ghost use Rattle.rhai_lookups.specs.Levels.{CachesFit, CachesLeft, EntriesRight};
ghost use Rattle.rhai_lookups.specs.Runs.{lists_of};
ghost use Rattle.rhai_machine.specs.language.Activations.{TheFocus};
ghost use Rattle.rhai_machine.specs.language.Calls.{dispatch_core, entry_of};
ghost use Rattle.rhai_machine.specs.language.Frames.{EnterFunction, core, ended_or_changed};
ghost use Rattle.rhai_machine.specs.language.State.{Answers};
ghost use Rattle.rhai_machine.specs.language.Values.{unit_value as unit};
ghost use Rattle.rhai_machine.specs.language.Runs.{Goes, Steps};
ghost use Rattle.rhai_steps.specs.Operations.{operation_of};
ghost use Rattle.rhai_steps.specs.OnFocus.{lending};
ghost use Rattle.rhai_methods.specs.Methods.{IsEntered};
ghost use Rattle.rhai_methods.specs.declared.calls.MethodEntry.TheVariants.{Alone, OnTarget};
ghost use Rattle.rhai_steps.specs.Callers.{local_of, state_of};
ghost use Rattle.rhai_laws.specs.Kept.{Kept};
ghost use Rattle.rhai_eval.specs.Ends.{EndsChanged};
ghost use Rattle.rhai_eval.specs.Entering.{came_out, IsByItself, came_to};
ghost use Rattle.rhai_eval.specs.Places.{by_name, by_value, left_of, on_place, loan_start, with_place};
ghost use Rattle.rhai_eval.specs.States.{under};

use crate::engine::Engine;
use crate::func::arguments::empty_all;
use crate::func::captured::enter_with_this;
use rhai_calls::dispatch::{Called, Seeks, pass_all, pass_call};
use rhai_calls::native::{Passing, tell_changed};
use rhai_context::ends::finish;
use rhai_context::{give_back, take};
use rhai_errors::error::EvalAltResult;
use rhai_errors::table::NativeTable;
use rhai_few::Few;
use rhai_functions::function::Function;
use rhai_lookups::caches::Caches;
use rhai_lookups::run::take_state;
use rhai_methods::calls::{MethodEntry, on_target};
use rhai_methods::copies::take_out;
use rhai_state::scope::Scope;
use rhai_state::state::GlobalRuntimeState;
use rhai_steps::operation::Operation;
use rhai_steps::values::{copy, let_go, unit_value};
use rhai_tree::Items;
use rhai_tree::position::Position;
use rhai_tree::token::Token;
use rhai_values::base::value::{Dynamic, Host};
use std::alloc::Global;
use std::mem::replace;

/// A call by name that enters no method any more, but may enter a function of a script with its arguments.
type ByItself<H> = Called<(Dynamic<H>, bool), (Function<H>, Few<Dynamic<H>>), H>;

/// Tells whether a constant is kept from a native that is not pure. It is in a place of the caller, and for a
/// method.
fn is_guarded(is_ref_mut: bool, is_method_call: bool) -> bool
    ensures { result ≡ (is_ref_mut || is_method_call) }
{
    is_ref_mut || is_method_call
}

/// Gets the first argument of a function that is called by itself. Of one in a place of the caller it is a
/// copy, and any other is taken out of its place.
fn own_first<H: Host>(
    alloc: Global,
    first: &mut Dynamic<H>,
    is_ref_mut: bool,
    pos: Position,
) -> Result<Dynamic<H>, EvalAltResult<H>>
    ensures value { Answers result (Ok (if is_ref_mut then copy_of first.old else first.old)) }
    ensures same { is_ref_mut ≡ true → first.new ≡ first.old }
{
    if is_ref_mut {
        return copy(alloc, first, pos);
    }
    Ok(replace(first, unit_value()))
}

/// Gets all arguments of a function that is called by itself. Those behind the first are taken out of their
/// places.
///
/// # Errors
/// `ErrorOutOfMemory` at the position alone.
fn own_args<H: Host>(
    alloc: Global,
    first: &mut Dynamic<H>,
    rest: &mut [Dynamic<H>],
    is_ref_mut: bool,
    pos: Position,
) -> Result<Few<Dynamic<H>>, EvalAltResult<H>>
    ensures args { IfOk result (λ args.
        args ≡ (if is_ref_mut then copy_of first.old else first.old) ∷ rest.old) }
    ensures refused { IfErr result (λ e. is_out_of_memory e ≡ true) }
    ensures same { is_ref_mut ≡ true → first.new ≡ first.old }
{
    let value = own_first(alloc, first, is_ref_mut, pos)?;
    let mut all = match take_out(alloc, rest, pos) {
        Ok(all) => all,
        Err(error) => {
            let_go(value);
            return Err(error);
        }
    };
    match all.insert(0, value) {
        Ok(()) => Ok(all),
        Err(_) => {
            drop(all);
            Err(EvalAltResult::ErrorOutOfMemory(pos))
        }
    }
}

/// Decides how a function is entered that a call with arguments has found. For a method that is on its first
/// argument, and else by itself.
fn choose_entry<H: Host>(
    alloc: Global,
    function: Function<H>,
    first: &mut Dynamic<H>,
    rest: &mut [Dynamic<H>],
    is_ref_mut: bool,
    is_method_call: bool,
    pos: Position,
) -> Called<(Dynamic<H>, bool), MethodEntry<H>, H>
    ensures method { is_method_call ≡ true → IsEntered result (OnTarget function rest.old) }
    ensures by_itself { is_method_call ≡ false → IsEntered result
        (Alone function ((if is_ref_mut then copy_of first.old else first.old) ∷ rest.old)) }
    ensures alone { is_method_call ≡ false → IsByItself result }
    ensures same { (is_ref_mut || is_method_call) ≡ true → first.new ≡ first.old }
{
    if is_method_call {
        return on_target(alloc, function, Items::new(alloc), rest, pos);
    }
    match own_args(alloc, first, rest, is_ref_mut, pos) {
        Ok(args) => Called::Enters(MethodEntry::Alone(function, args)),
        Err(error) => {
            drop(function);
            Called::Ended(Err(error))
        }
    }
}

/// How a call has its first argument: lent by its caller, or as the target of a method.
#[derive(Clone, Copy)]
struct Manner {
    is_ref_mut: bool,
    is_method_call: bool,
}

impl<H: Host> Engine<H> {
    /// Makes a call by name with arguments, up to where a function of a script is entered. It answers how the
    /// call ended, or that function, which gets variables of its own or runs on the caller's.
    fn call_first<T: NativeTable<H>>(
        &self,
        global: &mut GlobalRuntimeState<H>,
        caches: &mut Caches<H>,
        table: &mut T,
        operation: &Operation<'_>,
        first: &mut Dynamic<H>,
        rest: &mut [Dynamic<H>],
        manner: Manner,
    ) -> Called<(Dynamic<H>, bool), MethodEntry<H>, H>
        requires fit { CachesFit (lists_of global.old) caches.old }
        ensures by_itself { manner.is_method_call ≡ false → IsByItself result }
        ensures lent { (scope : _) (held : _) (on_scope : _) → (manner.is_ref_mut || manner.is_method_call) ≡ true →
            let rules = under H.name_of self.now T.natives in
            Goes rules
            (dispatch_core rules.setting (by_name manner.is_method_call on_scope) (on_place (operation_of operation.now) true (Some first.old) rest.old))
            (state_of (T.state table.old) global.old scope (lending held first.old))
            (came_to (not on_scope) operation.now.at result)
            (state_of (T.state table.new) global.new scope (lending held first.new)) }
        ensures by_value { (scope : _) (held : _) (on_scope : _) → (manner.is_ref_mut || manner.is_method_call) ≡ false →
            let rules = under H.name_of self.now T.natives in
            Goes rules
            (dispatch_core rules.setting (by_name false on_scope) (by_value (operation_of operation.now) (Some first.old) rest.old))
            (state_of (T.state table.old) global.old scope held)
            (came_to (not on_scope) operation.now.at result)
            (state_of (T.state table.new) global.new scope held) }
        ensures rest { rest.new ≡ replicate (length rest.old) unit }
        ensures taken { (manner.is_ref_mut || manner.is_method_call) ≡ false → first.new ≡ unit }
        ensures caches { CachesLeft (lists_of global.new) caches.old caches.new }
        ensures search { global.new.always_search_scope ≡ global.old.always_search_scope }
    {
        let alloc = global.lib.allocator();
        let session = self.session(alloc);
        let seeks = Seeks {
            of_method: manner.is_method_call,
            natives_alone: false,
        };
        let is_lent = is_guarded(manner.is_ref_mut, manner.is_method_call);
        let passing = Passing {
            guarded: is_lent,
            marks: true,
        };
        let mut run = take_state(alloc, global, caches);
        let dispatched = pass_call(
            &session, &mut run, table, seeks, operation, first, &*rest, passing,
        );
        run.give_state(global, caches);
        match dispatched {
            Called::Ended(result) => {
                empty_all(first, rest, is_lent);
                Called::Ended(result)
            }
            Called::Enters(function) => {
                let call = choose_entry(
                    alloc,
                    function,
                    first,
                    rest,
                    manner.is_ref_mut,
                    manner.is_method_call,
                    operation.at,
                );
                empty_all(first, rest, is_lent);
                call
            }
        }
    }

    /// Makes a call by name with arguments, and runs a method of a script that it finds. The method runs on
    /// the first argument, with variables of its own.
    fn call_with<T: NativeTable<H>>(
        &self,
        global: &mut GlobalRuntimeState<H>,
        caches: &mut Caches<H>,
        table: &mut T,
        operation: &Operation<'_>,
        first: &mut Dynamic<H>,
        rest: &mut [Dynamic<H>],
        manner: Manner,
    ) -> ByItself<H>
        requires fit { CachesFit (lists_of global.old) caches.old }
        ensures lent { (scope : _) (held : _) → (manner.is_ref_mut || manner.is_method_call) ≡ true →
            let rules = under H.name_of self.now T.natives in
            Goes rules
            (dispatch_core rules.setting (by_name manner.is_method_call false) (on_place (operation_of operation.now) true (Some first.old) rest.old))
            (state_of (T.state table.old) global.old scope (lending held first.old))
            (came_out true operation.now.at result)
            (state_of (T.state table.new) global.new scope (lending held first.new)) }
        ensures by_value { (scope : _) (held : _) → (manner.is_ref_mut || manner.is_method_call) ≡ false →
            let rules = under H.name_of self.now T.natives in
            Goes rules
            (dispatch_core rules.setting (by_name false false) (by_value (operation_of operation.now) (Some first.old) rest.old))
            (state_of (T.state table.old) global.old scope held) (came_out true operation.now.at result)
            (state_of (T.state table.new) global.new scope held) }
        ensures rest { rest.new ≡ replicate (length rest.old) unit }
        ensures taken { (manner.is_ref_mut || manner.is_method_call) ≡ false → first.new ≡ unit }
        ensures caches { CachesLeft (lists_of global.new) caches.old caches.new }
        ensures search { global.new.always_search_scope ≡ global.old.always_search_scope }
    {
        let call = self.call_first(global, caches, table, operation, first, rest, manner);
        match call {
            Called::Ended(result) => Called::Ended(result),
            Called::Enters(entry) => match entry {
                MethodEntry::OnTarget(function, args) => Called::Ended(self.enter_method_fresh(
                    global,
                    caches,
                    table,
                    function,
                    first,
                    args,
                    operation.at,
                )),
                MethodEntry::Alone(function, args) => Called::Enters((function, args)),
            },
        }
    }

    /// Makes a call by name with arguments on the caller's variables. A method of a script that it finds runs
    /// on them too.
    fn call_on<T: NativeTable<H>>(
        &self,
        global: &mut GlobalRuntimeState<H>,
        caches: &mut Caches<H>,
        table: &mut T,
        scope: &mut Scope<H>,
        operation: &Operation<'_>,
        first: &mut Dynamic<H>,
        rest: &mut [Dynamic<H>],
        manner: Manner,
    ) -> ByItself<H>
        requires fit { CachesFit (lists_of global.old) caches.old }
        ensures lent { (held : _) → (manner.is_ref_mut || manner.is_method_call) ≡ true →
            let rules = under H.name_of self.now T.natives in
            Goes rules
            (dispatch_core rules.setting (by_name manner.is_method_call true) (on_place (operation_of operation.now) true (Some first.old) rest.old))
            (state_of (T.state table.old) global.old scope.old (lending held first.old))
            (came_out false operation.now.at result)
            (state_of (T.state table.new) global.new scope.new (lending held first.new)) }
        ensures by_value { (held : _) → (manner.is_ref_mut || manner.is_method_call) ≡ false →
            let rules = under H.name_of self.now T.natives in
            Goes rules
            (dispatch_core rules.setting (by_name false true) (by_value (operation_of operation.now) (Some first.old) rest.old))
            (state_of (T.state table.old) global.old scope.old held) (came_out false operation.now.at result)
            (state_of (T.state table.new) global.new scope.new held) }
        ensures rest { rest.new ≡ replicate (length rest.old) unit }
        ensures taken { (manner.is_ref_mut || manner.is_method_call) ≡ false → first.new ≡ unit }
        ensures caches { CachesLeft (lists_of global.new) caches.old caches.new }
        ensures search { global.new.always_search_scope ≡ global.old.always_search_scope }
    {
        let call = self.call_first(global, caches, table, operation, first, rest, manner);
        match call {
            Called::Ended(result) => Called::Ended(result),
            Called::Enters(entry) => match entry {
                MethodEntry::OnTarget(function, args) => Called::Ended(self.enter_on_scope(
                    global,
                    caches,
                    table,
                    scope,
                    function,
                    first,
                    args,
                    operation.at,
                )),
                MethodEntry::Alone(function, args) => Called::Enters((function, args)),
            },
        }
    }

    /// Makes a call by name without arguments, up to where a function of a script is entered.
    fn begin_bare_call<T: NativeTable<H>>(
        &self,
        alloc: Global,
        global: &mut GlobalRuntimeState<H>,
        caches: &mut Caches<H>,
        table: &mut T,
        operation: &Operation<'_>,
    ) -> ByItself<H>
        requires fit { CachesFit (lists_of global.old) caches.old }
        ensures runs { (scope : _) (held : _) (on_scope : _) →
            let rules = under H.name_of self.now T.natives in
            Goes rules
            (dispatch_core rules.setting (by_name false on_scope) (by_value (operation_of operation.now) None []))
            (state_of (T.state table.old) global.old scope held)
            (came_out (not on_scope) operation.now.at result)
            (state_of (T.state table.new) global.new scope held) }
        ensures caches { CachesLeft (lists_of global.new) caches.old caches.new }
        ensures search { global.new.always_search_scope ≡ global.old.always_search_scope }
    {
        let session = self.session(alloc);
        let mut none = Few::new(alloc);
        let args = none.as_mut_slice();
        let mut run = take_state(alloc, global, caches);
        let dispatched = pass_all(&session, &mut run, table, false, operation, args, true);
        run.give_state(global, caches);
        match dispatched {
            Called::Ended(result) => {
                drop(none);
                Called::Ended(result)
            }
            Called::Enters(function) => Called::Enters((function, none)),
        }
    }

    /// Runs a function of a script with a place of the caller as its `this`, and variables of its own.
    fn enter_method_fresh<T: NativeTable<H>>(
        &self,
        global: &mut GlobalRuntimeState<H>,
        caches: &mut Caches<H>,
        table: &mut T,
        function: Function<H>,
        place: &mut Dynamic<H>,
        args: Few<Dynamic<H>>,
        pos: Position,
    ) -> Result<(Dynamic<H>, bool), EvalAltResult<H>>
        requires fit { CachesFit (lists_of global.old) caches.old }
        ensures runs { (scope : _) (held : _) →
            let caller = local_of global.old scope (lending held place.old) in
            Steps (under H.name_of self.now T.natives)
            (EnterFunction (entry_of function TheFocus true args pos caller))
            (state_of (T.state table.old) global.old scope (lending held place.old)) (ended_or_changed result)
            (state_of (T.state table.new) global.new scope (lending held place.new)) }
        ensures caches { CachesLeft (lists_of global.new) caches.old caches.new }
        ensures search { global.new.always_search_scope ≡ global.old.always_search_scope }
    {
        let alloc = global.lib.allocator();
        let mut scope = Scope::new(alloc);
        let mut run = take(alloc, global, caches, &mut scope);
        let evaluator = self.evaluator(alloc);
        let mut args = args;
        let values = args.as_mut_slice();
        let done = evaluator.enter_on_focus(&mut run, table, function, place, values, pos);
        let result = finish(done, &mut run.value, &mut run.error);
        give_back(run, global, caches, &mut scope);
        drop(scope);
        drop(args);
        tell_changed(result, false)
    }

    /// Runs a function of a script with a place of the caller as its `this`, on the caller's variables. What
    /// it adds to them goes at its end.
    fn enter_on_scope<T: NativeTable<H>>(
        &self,
        global: &mut GlobalRuntimeState<H>,
        caches: &mut Caches<H>,
        table: &mut T,
        scope: &mut Scope<H>,
        function: Function<H>,
        place: &mut Dynamic<H>,
        args: Few<Dynamic<H>>,
        pos: Position,
    ) -> Result<(Dynamic<H>, bool), EvalAltResult<H>>
        requires fit { CachesFit (lists_of global.old) caches.old }
        ensures runs { (held : _) → let caller = local_of global.old scope.old (lending held place.old) in
            Steps (under H.name_of self.now T.natives)
            (EnterFunction (entry_of function TheFocus false args pos caller))
            (state_of (T.state table.old) global.old scope.old (lending held place.old))
            (ended_or_changed result)
            (state_of (T.state table.new) global.new scope.new (lending held place.new)) }
        ensures caches { CachesLeft (lists_of global.new) caches.old caches.new }
        ensures search { global.new.always_search_scope ≡ global.old.always_search_scope }
    {
        let alloc = global.lib.allocator();
        let mut run = take(alloc, global, caches, scope);
        let evaluator = self.evaluator(alloc);
        let result = enter_with_this(&evaluator, &mut run, table, function, place, args, pos);
        give_back(run, global, caches, scope);
        tell_changed(result, false)
    }

    /// Finishes a call by name on the caller's variables. It has ended, or its function runs on them, and
    /// leaves none of its own.
    fn finish_on_scope<T: NativeTable<H>>(
        &self,
        alloc: Global,
        global: &mut GlobalRuntimeState<H>,
        caches: &mut Caches<H>,
        table: &mut T,
        scope: &mut Scope<H>,
        outcome: ByItself<H>,
        pos: Position,
    ) -> Result<(Dynamic<H>, bool), EvalAltResult<H>>
        requires fit { CachesFit (lists_of global.old) caches.old }
        requires right { EntriesRight (lists_of global.old) caches.old }
        ensures runs { (held : _) → Goes (under H.name_of self.now T.natives) (came_out false pos outcome)
            (state_of (T.state table.old) global.old scope.old held) (core (ended_or_changed result))
            (state_of (T.state table.new) global.new scope.new held) }
        ensures caches { CachesLeft (lists_of global.new) caches.old caches.new }
        ensures search { global.new.always_search_scope ≡ global.old.always_search_scope }
    {
        match outcome {
            Called::Ended(result) => result,
            Called::Enters((function, args)) => {
                let mut run = take(alloc, global, caches, scope);
                let evaluator = self.evaluator(alloc);
                let mut args = args;
                let values = args.as_mut_slice();
                let done = evaluator.enter_captured(&mut run, table, function, values, pos);
                let result = finish(done, &mut run.value, &mut run.error);
                give_back(run, global, caches, scope);
                drop(args);
                tell_changed(result, false)
            }
        }
    }

    /// Finishes a call by name where there is no scope. It has ended, or its function runs with variables of
    /// its own.
    fn finish_fresh<T: NativeTable<H>>(
        &self,
        alloc: Global,
        global: &mut GlobalRuntimeState<H>,
        caches: &mut Caches<H>,
        table: &mut T,
        outcome: ByItself<H>,
        pos: Position,
    ) -> Result<(Dynamic<H>, bool), EvalAltResult<H>>
        requires fit { CachesFit (lists_of global.old) caches.old }
        requires right { EntriesRight (lists_of global.old) caches.old }
        ensures runs { (scope : _) (held : _) →
            Goes (under H.name_of self.now T.natives) (came_out true pos outcome)
            (state_of (T.state table.old) global.old scope held) (core (ended_or_changed result))
            (state_of (T.state table.new) global.new scope held) }
        ensures caches { CachesLeft (lists_of global.new) caches.old caches.new }
        ensures search { global.new.always_search_scope ≡ global.old.always_search_scope }
    {
        match outcome {
            Called::Ended(result) => result,
            Called::Enters((function, args)) => {
                let mut scope = Scope::new(alloc);
                let mut run = take(alloc, global, caches, &mut scope);
                let evaluator = self.evaluator(alloc);
                let mut args = args;
                let values = args.as_mut_slice();
                let done = evaluator.enter_fresh(&mut run, table, function, values, pos);
                let result = finish(done, &mut run.value, &mut run.error);
                give_back(run, global, caches, &mut scope);
                drop(scope);
                drop(args);
                tell_changed(result, false)
            }
        }
    }

    /// Makes a call by name. It gives the type of a value, tells whether a script has a function, runs a
    /// function of a script, or else calls the native of the name as `exec_native_fn_call` does. With the
    /// value comes whether a native gave it that is not pure. Ports upstream's `exec_fn_call`.
    ///
    /// A function of a script runs one level deeper, on the variables of the scope where there is one; its
    /// own go at its end. For a method it has the first argument as its `this`, in its own place. Otherwise
    /// it gets all arguments, of a first one in a place of the caller (`is_ref_mut`) a copy. All arguments are
    /// used up, whatever the call comes to: `()` stands in their places, but in that of a first one that is
    /// lent. Without a first argument the others stay.
    ///
    /// A method on the handle of a cell holds nothing: its `this` is the handle, which is entered where it is
    /// used. A native holds the cell while it runs, after its charge. So another argument may be a handle of
    /// that cell too.
    ///
    /// Asked: a first argument where `is_ref_mut` or `is_method_call` is set. Where there is no first
    /// argument the call has none.
    ///
    /// # Errors
    /// At the call: `ErrorDataRace` for an argument that is the handle of a cell which is held;
    /// `ErrorFunctionNotFound` for `eval`; and those of `call_script_fn` and `exec_native_fn_call`.
    pub fn exec_fn_call<T: NativeTable<H>>(
        &self,
        alloc: Global,
        global: &mut GlobalRuntimeState<H>,
        caches: &mut Caches<H>,
        table: &mut T,
        scope: Option<&mut Scope<H>>,
        name: &str,
        op_token: Option<&Token>,
        first: Option<&mut Dynamic<H>>,
        rest: &mut [Dynamic<H>],
        is_ref_mut: bool,
        is_method_call: bool,
        position: Position,
    ) -> Result<(Dynamic<H>, bool), EvalAltResult<H>>
        requires fit { CachesFit (lists_of global.old) caches.old }
        requires first { (is_ref_mut || is_method_call) ≡ true → is_some first ≡ true }
        ensures lent { (variables : _) (this : _) → (is_ref_mut || is_method_call) ≡ true →
            let rules = under H.name_of self.now T.natives in EndsChanged rules
            (dispatch_core rules.setting (by_name is_method_call (is_some (loan_start scope.entry))) (on_place
            (record { name = name.now; token = option_copied op_token.entry; at = position }) true
            (lent_value first.entry) rest.old))
            (state_of (T.state table.old) global.old (unwrap_or (loan_start scope.entry) variables)
            (with_place this (lent_value first.entry))) result
            (state_of (T.state table.new) global.new (unwrap_or (left_of scope.exit) variables)
            (with_place this (left_by first.exit))) }
        ensures by_value { (variables : _) (held : _) → (is_ref_mut || is_method_call) ≡ false →
            let rules = under H.name_of self.now T.natives in EndsChanged rules
            (dispatch_core rules.setting (by_name false (is_some (loan_start scope.entry))) (by_value
            (record { name = name.now; token = option_copied op_token.entry; at = position })
            (lent_value first.entry) rest.old))
            (state_of (T.state table.old) global.old (unwrap_or (loan_start scope.entry) variables) held) result
            (state_of (T.state table.new) global.new (unwrap_or (left_of scope.exit) variables) held) }
        ensures kept { (variables : _) (held : _) → Kept (under H.name_of self.now T.natives)
            (state_of (T.state table.old) global.old (unwrap_or (loan_start scope.entry) variables) held)
            (state_of (T.state table.new) global.new (unwrap_or (left_of scope.exit) variables) held) }
        ensures names { (variables : _) → names_in (unwrap_or (left_of scope.exit) variables)
            ≡ names_in (unwrap_or (loan_start scope.entry) variables) }
        ensures rest { rest.new
            ≡ (if is_some first.entry then replicate (length rest.old) unit else rest.old) }
        ensures taken { (is_ref_mut || is_method_call) ≡ false →
            left_by first.exit ≡ option_map (λ v. unit) (lent_value first.entry) }
        ensures caches { CachesLeft (lists_of global.new) caches.old caches.new }
        ensures search { global.new.always_search_scope ≡ global.old.always_search_scope }
    {
        let (token, pos) = (op_token.copied(), position);
        match first {
            Some(first) => match scope {
                Some(scope) => {
                    let outcome = self.call_on(
                        global,
                        caches,
                        table,
                        scope,
                        &Operation {
                            name,
                            token,
                            at: pos,
                        },
                        first,
                        rest,
                        Manner {
                            is_ref_mut,
                            is_method_call,
                        },
                    );
                    return self.finish_on_scope(alloc, global, caches, table, scope, outcome, pos);
                }
                None => {
                    let outcome = self.call_with(
                        global,
                        caches,
                        table,
                        &Operation {
                            name,
                            token,
                            at: pos,
                        },
                        first,
                        rest,
                        Manner {
                            is_ref_mut,
                            is_method_call,
                        },
                    );
                    return self.finish_fresh(alloc, global, caches, table, outcome, pos);
                }
            },
            None => {
                let outcome = self.begin_bare_call(
                    alloc,
                    global,
                    caches,
                    table,
                    &Operation {
                        name,
                        token,
                        at: pos,
                    },
                );
                match scope {
                    Some(scope) => return self.finish_on_scope(
                        alloc, global, caches, table, scope, outcome, pos,
                    ),
                    None => return self.finish_fresh(alloc, global, caches, table, outcome, pos),
                }
            }
        }
    }
}
