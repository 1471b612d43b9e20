//! Functions of scripts that are entered. Ports upstream's `call_script_fn`; the contracts speak of the
//! machine's runs.

ghost use Rattle.std.specs.Prelude.{◌≡◌, ◌≤◌, ◌<◌, IsTrue, Some, false, length, true};
ghost use Rattle.std.specs.Option.{option_copied};
ghost use Rattle.rhai_state.specs.Scope.{entries_of};
ghost use Rattle.rhai_machine.specs.language.Activations.{NoThis, TheFocus};
ghost use Rattle.rhai_machine.specs.language.Bodies.{this_by, variables_before};
ghost use Rattle.rhai_machine.specs.language.Calls.{entry_of};
ghost use Rattle.rhai_machine.specs.language.Frames.{EnterFunction, core, ended, ended_or_changed};
ghost use Rattle.rhai_machine.specs.language.Methods.{method_core};
ghost use Rattle.rhai_machine.specs.language.Runs.{Runs, Goes};
ghost use Rattle.rhai_machine.specs.language.State.{HasMemory};
ghost use Rattle.rhai_steps.specs.Agreement.{KeepsSight};
ghost use Rattle.rhai_steps.specs.States.{local_of, state_of};
ghost use Rattle.rhai_calls.specs.Called.{came_out, with_args};
ghost use Rattle.rhai_context.specs.Ends.{came, came_changed};
ghost use Rattle.rhai_steps.specs.OnFocus.{lending};
ghost use Rattle.rhai_functions.specs.Entering.{TakesSome};
ghost use Rattle.rhai_eval_steps.specs.Agreement.{KeepsNames};
ghost use Rattle.rhai_eval_steps.specs.Bodies.{args_left, behind_call, entered, is_entered};
ghost use Rattle.rhai_eval_steps.specs.States.{state_in};
ghost use Rattle.rhai_eval_core.specs.States.{under};

use crate::evaluator::Evaluator;
use rhai_bodies::callers::{body_of, capture, end_fresh, release};
use rhai_bodies::closing::close_body;
use rhai_bodies::opening::{open_function, statements_of};
use rhai_calls::dispatch::Called;
use rhai_context::ends::{put_unit, settle, settle_changed, stop, unchanged};
use rhai_context::outcomes::charge;
use rhai_context::{Context, put_aside};
use rhai_errors::table::NativeTable;
use rhai_few::Few;
use rhai_functions::function::Function;
use rhai_links::focus::{leave_focus, lend_focus};
use rhai_methods::calls::MethodEntry;
use rhai_methods::methods::call_method;
use rhai_steps::operation::Operation;
use rhai_tree::checked::CheckedFn;
use rhai_tree::position::Position;
use rhai_values::base::value::{Dynamic, EncapsulatedEnviron, Host};

impl<'e, H: Host> Evaluator<'e, H> {
    /// Enters a function at a level, on the variables and with the `this` that the run has. Its call is
    /// charged first. `()` is left of its arguments where its body is entered. Its variables stay. How it
    /// ended stands in the run.
    #[cycle(eval)]
    pub fn run_body<T: NativeTable<H>>(
        &self,
        run: &mut Context<H>,
        table: &mut T,
        def: &CheckedFn,
        environ: Option<&EncapsulatedEnviron<H>>,
        args: &mut [Dynamic<H>],
        restores: bool,
        level: usize,
        pos: Position,
    ) -> bool
        ensures charges { IsTrue result → run.old.global.num_operations < run.new.global.num_operations }
        ensures sight { IsTrue restores → KeepsSight run.old.global run.new.global }
        ensures args { HasMemory (came result run.new.value run.new.error) → args.new ≡ args_left
            (is_entered self.now.session.limits run.old.global.num_operations level
            (length (entries_of run.old.scope)) def.now)
            (length def.now.params) args.old }
        ensures taken { TakesSome args.old args.new }
        ensures runs { (scope : _) (held : _) (object : _) (is_fresh : _) →
            let caller = local_of run.old.global scope held in
            let e = entered def.now (option_copied environ.entry) object is_fresh restores args.old level
            pos in
            entries_of run.old.scope ≡ variables_before is_fresh caller.scope →
            run.old.this ≡ this_by object caller →
            Runs (under H.name_of self.now T.natives) (EnterFunction e)
            (state_of (T.state table.old) run.old.global scope held)
            (came result run.new.value run.new.error)
            (behind_call e caller (state_in (T.state table.new) run.new)) }
    {
        if !charge(&self.session.limits, &mut run.global, &mut run.error, pos) {
            return false;
        }
        let limits = &self.session.limits;
        let (global, scope) = (&mut run.global, &mut run.scope);
        let def = def.def();
        match open_function(limits, level, global, scope, def, environ, args, pos) {
            Ok(None) => {
                put_unit(&mut run.value);
                true
            }
            Ok(Some(exit)) => {
                let statements = statements_of(def);
                let done = self.run_stmt_block(run, table, statements, restores);
                let (global, out, place) = (&mut run.global, &mut run.value, &mut run.error);
                close_body(
                    self.session.alloc,
                    global,
                    out,
                    place,
                    def,
                    environ,
                    exit,
                    done,
                    pos,
                )
            }
            Err(error) => stop(&mut run.error, error),
        }
    }

    /// Enters a function by itself that was called with a list of arguments, with variables of its own.
    #[cycle(eval)]
    pub fn enter_fresh<T: NativeTable<H>>(
        &self,
        run: &mut Context<H>,
        table: &mut T,
        function: Function<H>,
        args: &mut [Dynamic<H>],
        pos: Position,
    ) -> bool
        ensures counts { run.old.global.num_operations ≤ run.new.global.num_operations }
        ensures sight { KeepsSight run.old.global run.new.global }
        ensures scope { run.new.scope ≡ run.old.scope }
        ensures this { run.new.this ≡ run.old.this }
        ensures runs { (scope : _) (held : _) → let caller = local_of run.old.global scope held in
            Runs (under H.name_of self.now T.natives)
            (EnterFunction (entry_of function NoThis true args.old pos caller))
            (state_of (T.state table.old) run.old.global scope held)
            (came result run.new.value run.new.error)
            (state_of (T.state table.new) run.new.global scope held) }
    {
        let aside = put_aside(self.session.alloc, run, None);
        let (def, environ, level) = body_of(&function, run.global.level);
        let done = self.run_body(run, table, def, environ, args, true, level, pos);
        end_fresh(run, aside, function);
        done
    }

    /// Enters a function by itself on the caller's variables, without `this`. Its own variables go at its
    /// end.
    #[cycle(eval)]
    pub fn enter_captured<T: NativeTable<H>>(
        &self,
        run: &mut Context<H>,
        table: &mut T,
        function: Function<H>,
        args: &mut [Dynamic<H>],
        pos: Position,
    ) -> bool
        ensures counts { run.old.global.num_operations ≤ run.new.global.num_operations }
        ensures names { IsTrue result → KeepsNames run.old run.new }
        ensures this { run.new.this ≡ run.old.this }
        ensures runs { (held : _) → let caller = local_of run.old.global run.old.scope held in
            Runs (under H.name_of self.now T.natives)
            (EnterFunction (entry_of function NoThis false args.old pos caller))
            (state_of (T.state table.old) run.old.global run.old.scope held)
            (came result run.new.value run.new.error)
            (state_of (T.state table.new) run.new.global run.new.scope held) }
    {
        let captured = capture(run);
        let (def, environ, level) = body_of(&function, run.global.level);
        let done = self.run_body(run, table, def, environ, args, true, level, pos);
        release(run, captured, function);
        done
    }

    /// Finishes a call that lends nothing. It has ended, or enters a function with the arguments in the list,
    /// which has variables of its own or runs on the caller's.
    #[inline(never)]
    #[cycle(eval)]
    pub(crate) fn finish_call<T: NativeTable<H>>(
        &self,
        run: &mut Context<H>,
        table: &mut T,
        called: Called<Dynamic<H>, Function<H>, H>,
        args: &mut Few<Dynamic<H>>,
        is_fresh: bool,
        pos: Position,
    ) -> bool
        ensures counts { run.old.global.num_operations ≤ run.new.global.num_operations }
        ensures names { IsTrue result → KeepsNames run.old run.new }
        ensures runs { Goes (under H.name_of self.now T.natives) (came_out is_fresh pos (with_args called args.old))
            (state_in (T.state table.old) run.old) (core (ended (came result run.new.value run.new.error)))
            (state_in (T.state table.new) run.new) }
    {
        match called {
            Called::Ended(result) => settle(&mut run.error, &mut run.value, result),
            Called::Enters(function) => {
                let values = args.as_mut_slice();
                if is_fresh {
                    self.enter_fresh(run, table, function, values, pos)
                } else {
                    self.enter_captured(run, table, function, values, pos)
                }
            }
        }
    }

    /// Enters a function on the focus. That is lent to it as its `this`, a handle too, and goes back on every
    /// way out.
    #[cycle(eval)]
    pub fn enter_on_focus<T: NativeTable<H>>(
        &self,
        run: &mut Context<H>,
        table: &mut T,
        function: Function<H>,
        focus: &mut Dynamic<H>,
        args: &mut [Dynamic<H>],
        pos: Position,
    ) -> bool
        ensures counts { run.old.global.num_operations ≤ run.new.global.num_operations }
        ensures sight { KeepsSight run.old.global run.new.global }
        ensures scope { run.new.scope ≡ run.old.scope }
        ensures this { run.new.this ≡ run.old.this }
        ensures runs { (scope : _) (held : _) →
            let caller = local_of run.old.global scope (lending held focus.old) in
            Runs (under H.name_of self.now T.natives)
            (EnterFunction (entry_of function TheFocus true args.old pos caller))
            (state_of (T.state table.old) run.old.global scope (lending held focus.old))
            (came result run.new.value run.new.error)
            (state_of (T.state table.new) run.new.global scope (lending held focus.new)) }
    {
        let aside = lend_focus(self.session.alloc, run, focus);
        let (def, environ, level) = body_of(&function, run.global.level);
        let done = self.run_body(run, table, def, environ, args, true, level, pos);
        leave_focus(run, focus, aside);
        drop(function);
        done
    }

    /// Calls a method on the focus, its arguments there, with the function that it enters. Whether the focus
    /// was a handle before it was entered is what `is_shared` answers. What it came to stands in the run.
    #[cycle(eval)]
    pub fn run_method<T: NativeTable<H>>(
        &self,
        run: &mut Context<H>,
        table: &mut T,
        name: &str,
        focus: &mut Dynamic<H>,
        args: &mut [Dynamic<H>],
        first_arg_pos: Option<Position>,
        pos: Position,
        was_handle: bool,
    ) -> Option<bool>
        ensures counts { run.old.global.num_operations ≤ run.new.global.num_operations }
        ensures sight { KeepsSight run.old.global run.new.global }
        ensures scope { run.new.scope ≡ run.old.scope }
        ensures this { run.new.this ≡ run.old.this }
        ensures runs { (scope : _) (held : _) → let rules = under H.name_of self.now T.natives in
            Goes rules
            (method_core rules.setting (record { name = name.now; at = pos; first_at = first_arg_pos; was_handle = was_handle }) args.old focus.old)
            (state_of (T.state table.old) run.old.global scope (lending held focus.old))
            (core (ended_or_changed (came_changed result run.new.value run.new.error)))
            (state_of (T.state table.new) run.new.global scope (lending held focus.new)) }
    {
        let global = &mut run.global;
        match call_method(
            &self.session,
            global,
            table,
            &Operation {
                name,
                token: None,
                at: pos,
            },
            focus,
            args,
            first_arg_pos,
            was_handle,
        ) {
            Called::Ended(result) => settle_changed(&mut run.error, &mut run.value, result),
            Called::Enters(entry) => match entry {
                MethodEntry::OnTarget(function, args) => {
                    let mut args = args;
                    let values = args.as_mut_slice();
                    let done = self.enter_on_focus(run, table, function, focus, values, pos);
                    drop(args);
                    unchanged(done)
                }
                MethodEntry::Alone(function, args) => {
                    let mut args = args;
                    let values = args.as_mut_slice();
                    let done = self.enter_fresh(run, table, function, values, pos);
                    drop(args);
                    unchanged(done)
                }
            },
        }
    }
}
