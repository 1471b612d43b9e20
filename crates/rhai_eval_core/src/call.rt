//! Calls: operators, plain calls, natives at once, and calls by name. Ports upstream's `func/call.rs`; the
//! contracts speak of the machine's runs and of specs/Calls.antt.

ghost use Rattle.std.specs.Prelude.{◌≤◌, [], IsTrue, map};
ghost use Rattle.std.specs.Option.{option_copied};
ghost use Rattle.rhai_tree.specs.Frame.{all_resolve_exprs, resolves_call, tests_of};
ghost use Rattle.rhai_tree.specs.declared.expr.Expr.TheOpen as layer;
ghost use Rattle.rhai_machine.specs.language.Frames.{OpenExpr, CallNamed, ToCall, core};
ghost use Rattle.rhai_machine.specs.language.Frames.{ended};
ghost use Rattle.rhai_machine.specs.language.Arguments.{arguments_core, is_captured};
ghost use Rattle.rhai_machine.specs.language.Runs.{Runs, Goes};
ghost use Rattle.rhai_steps.specs.Operations.{operation_of};
ghost use Rattle.rhai_call_forms.specs.Forms.{IsForm};
ghost use Rattle.rhai_call_forms.specs.declared.forms.CallForm.TheVariants as form;
ghost use Rattle.rhai_call_forms.specs.Leading.{all_args};
ghost use Rattle.rhai_context.specs.Ends.{came};
ghost use Rattle.rhai_eval_steps.specs.Agreement.{KeepsNames, SuitsNames};
ghost use Rattle.rhai_eval_steps.specs.Calls.{called};
ghost use Rattle.rhai_eval_steps.specs.States.{state_in};
ghost use Rattle.rhai_eval_core.specs.States.{under};
ghost use Rattle.rhai_state.specs.Scope.{entries_of};
ghost use Rattle.rhai_machine.specs.language.Calls.{plainly};

mod arguments;
mod keywords;
mod operators;
mod plain;
mod qualified;

use crate::evaluator::Evaluator;
use rhai_call_forms::arguments::{captures_some, first_variable, this_first};
use rhai_call_forms::forms::may_operate;
use rhai_call_forms::keywords::keyword_of;
use rhai_callees::arguments::parts_of_call;
use rhai_callees::runs::{call_with, call_with_this, call_with_variable};
use rhai_context::Context;
use rhai_context::outcomes::charge;
use rhai_errors::table::NativeTable;
use rhai_fast_calls::at_once::call_at_once;
use rhai_fast_calls::callee::plain_callee;
use rhai_few::Few;
use rhai_names::variables::is_plain;
use rhai_steps::operation::Operation;
use rhai_tree::Items;
use rhai_tree::expr::{Expr, FnCallExpr};
use rhai_tree::position::Position;
use rhai_values::base::value::{Dynamic, Host};

impl<'e, H: Host> Evaluator<'e, H> {
    /// Evaluates a call: an operator on its operands, or of a function. How it ended stands in the run.
    #[inline(always)]
    #[cycle(eval)]
    pub fn run_fn_call_expr<T: NativeTable<H>>(
        &self,
        run: &mut Context<H>,
        table: &mut T,
        call: &FnCallExpr,
        pos: Position,
    ) -> bool
        requires resolves { SuitsNames run.old (resolves_call call.now pos) }
        ensures counts { IsTrue result → run.old.global.num_operations ≤ run.new.global.num_operations }
        ensures names { IsTrue result → KeepsNames run.old run.new }
        ensures runs { Runs (under H.name_of self.now T.natives) (OpenExpr (layer.Expr::FnCall call.now pos))
            (state_in (T.state table.old) run.old)
            (came result run.new.value run.new.error) (state_in (T.state table.new) run.new) }
    {
        if may_operate(self.session.fast_operators, call) {
            return self.run_operation(run, table, call, pos);
        }
        self.run_function(run, table, call, pos)
    }

    /// Evaluates a call that is no operator on operands. How it ended stands in the run.
    #[inline(never)]
    #[cycle(eval)]
    fn run_function<T: NativeTable<H>>(
        &self,
        run: &mut Context<H>,
        table: &mut T,
        call: &FnCallExpr,
        pos: Position,
    ) -> bool
        requires resolves { SuitsNames run.old (resolves_call call.now pos) }
        requires form { IsForm form.Function self.now.session.fast_operators call.now.op_token call.now.args }
        ensures counts { IsTrue result → run.old.global.num_operations ≤ run.new.global.num_operations }
        ensures names { IsTrue result → KeepsNames run.old run.new }
        ensures runs { Runs (under H.name_of self.now T.natives) (OpenExpr (layer.Expr::FnCall call.now pos))
            (state_in (T.state table.old) run.old)
            (came result run.new.value run.new.error) (state_in (T.state table.new) run.new) }
    {
        if let Some(function) = plain_callee(&mut run.global, call) {
            return self.run_plain_call(run, table, call, function, pos);
        }
        if !is_plain(&call.namespace) {
            let (path, name) = (&call.namespace, call.name.get().as_str());
            return self.run_qualified_call(run, table, path, name, call.args.as_slice(), pos);
        }
        let at_once = call_at_once(
            &self.session,
            &mut run.global,
            table,
            &mut run.scope,
            &mut run.value,
            &mut run.error,
            call,
            pos,
        );
        if let Some(done) = at_once {
            return done;
        }
        let (name, first, rest) = parts_of_call(call);
        let captures = call.capture_parent_scope;
        self.run_call(
            run,
            table,
            &Operation {
                name,
                token: call.op_token,
                at: pos,
            },
            first,
            rest,
            captures,
        )
    }

    /// Evaluates a call of a keyword, or of a function by its name. How it ended stands in the run.
    #[inline(never)]
    #[cycle(eval)]
    pub fn run_call<T: NativeTable<H>>(
        &self,
        run: &mut Context<H>,
        table: &mut T,
        operation: &Operation<'_>,
        first: Option<&Expr>,
        rest: &[Expr],
        captures: bool,
    ) -> bool
        requires { SuitsNames run.old
            (all_resolve_exprs (map tests_of (all_args (option_copied first) rest.now))) }
        ensures counts { IsTrue result → run.old.global.num_operations ≤ run.new.global.num_operations }
        ensures names { IsTrue result → KeepsNames run.old run.new }
        ensures runs { Goes (under H.name_of self.now T.natives)
            (called (operation_of operation.now) (all_args (option_copied first.entry) rest.now) captures)
            (state_in (T.state table.old) run.old) (core (ended (came result run.new.value run.new.error)))
            (state_in (T.state table.new) run.new) }
    {
        match first {
            None => {
                let curried = Items::new(self.session.alloc);
                self.run_named(run, table, operation, curried, first, rest, captures, false)
            }
            Some(arg) => match keyword_of(operation.name, operation.token, 1 + rest.len()) {
                Some(word) => self.run_keyword(run, table, word, arg, rest, captures, operation.at),
                None => {
                    let curried = Items::new(self.session.alloc);
                    self.run_named(run, table, operation, curried, first, rest, captures, false)
                }
            },
        }
    }

    /// Makes a call by name. A variable that comes first, or `this`, is charged first and read last, and is
    /// lent to a native where it may be written; any other argument is passed by its value. A call that
    /// captures a scope which is not empty takes each argument by its value, and a function of a script runs
    /// on that scope. How it ended stands in the run.
    #[cycle(eval)]
    pub(crate) fn run_named<T: NativeTable<H>>(
        &self,
        run: &mut Context<H>,
        table: &mut T,
        operation: &Operation<'_>,
        curried: Items<Dynamic<H>>,
        first: Option<&Expr>,
        rest: &[Expr],
        captures: bool,
        natives_alone: bool,
    ) -> bool
        requires { SuitsNames run.old
            (all_resolve_exprs (map tests_of (all_args (option_copied first) rest.now))) }
        ensures counts { IsTrue result → run.old.global.num_operations ≤ run.new.global.num_operations }
        ensures names { IsTrue result → KeepsNames run.old run.new }
        ensures runs { Runs (under H.name_of self.now T.natives)
            (CallNamed (operation_of operation.now) curried
            (all_args (option_copied first.entry) rest.now) captures natives_alone)
            (state_in (T.state table.old) run.old)
            (came result run.new.value run.new.error) (state_in (T.state table.new) run.new) }
    {
        if let Some(this_at) = this_first(
            &run.scope,
            curried.as_slice(),
            first,
            &run.this,
            captures,
        ) {
            drop(curried);
            if !charge(
                &self.session.limits,
                &mut run.global,
                &mut run.error,
                this_at,
            ) {
                return false;
            }
            let mut values = Few::new(self.session.alloc);
            if !self.run_more_args(run, table, &mut values, rest, true) {
                drop(values);
                return false;
            }
            let called = call_with_this(
                &self.session,
                run,
                table,
                operation,
                this_at,
                &mut values,
                natives_alone,
            );
            let done = self.finish_call(run, table, called, &mut values, true, operation.at);
            drop(values);
            return done;
        }
        match first_variable(&run.scope, curried.as_slice(), first, rest, captures) {
            Some(variable) => {
                drop(curried);
                if !charge(
                    &self.session.limits,
                    &mut run.global,
                    &mut run.error,
                    variable.pos,
                ) {
                    return false;
                }
                let mut values = Few::new(self.session.alloc);
                if !self.run_more_args(run, table, &mut values, variable.rest, true) {
                    drop(values);
                    return false;
                }
                let called = call_with_variable(
                    &self.session,
                    run,
                    table,
                    operation,
                    variable,
                    &mut values,
                    natives_alone,
                );
                let done = self.finish_call(run, table, called, &mut values, true, operation.at);
                drop(values);
                done
            }
            None => self.run_on_values(
                run,
                table,
                operation,
                curried,
                first,
                rest,
                captures,
                natives_alone,
            ),
        }
    }

    /// Makes a call by name whose arguments are all passed by their values, behind those that a pointer has.
    /// How it ended stands in the run.
    #[cycle(eval)]
    fn run_on_values<T: NativeTable<H>>(
        &self,
        run: &mut Context<H>,
        table: &mut T,
        operation: &Operation<'_>,
        curried: Items<Dynamic<H>>,
        first: Option<&Expr>,
        rest: &[Expr],
        captures: bool,
        natives_alone: bool,
    ) -> bool
        requires { SuitsNames run.old
            (all_resolve_exprs (map tests_of (all_args (option_copied first) rest.now))) }
        ensures counts { IsTrue result → run.old.global.num_operations ≤ run.new.global.num_operations }
        ensures names { IsTrue result → KeepsNames run.old run.new }
        ensures runs { let rules = under H.name_of self.now T.natives in
            Goes rules
            (arguments_core rules.setting (ToCall (operation_of operation.now) curried (plainly natives_alone (is_captured captures (entries_of run.old.scope)))) [] (all_args (option_copied first.entry) rest.now))
            (state_in (T.state table.old) run.old) (core (ended (came result run.new.value run.new.error)))
            (state_in (T.state table.new) run.new) }
    {
        let on_scope = captures_some(&run.scope, captures);
        let mut values = Few::new(self.session.alloc);
        if !self.run_all_args(run, table, &mut values, first, rest) {
            drop(curried);
            drop(values);
            return false;
        }
        let called = call_with(
            &self.session,
            run,
            table,
            operation,
            curried,
            &mut values,
            natives_alone,
        );
        let done = self.finish_call(run, table, called, &mut values, !on_scope, operation.at);
        drop(values);
        done
    }
}
