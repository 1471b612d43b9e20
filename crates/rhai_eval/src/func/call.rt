//! Calls of a part of a tree: operators, keywords and pointers. Ports upstream's `func/call.rs`; the
//! contracts speak of the machine's runs, of specs/ArgumentValues.antt and of `rhai_eval_core`'s.

ghost use Rattle.std.specs.Prelude.{◌≡◌, IsTrue, IfOk, None, false, map};
ghost use Rattle.std.specs.Option.{option_copied};
ghost use Rattle.rhai_tree.specs.Forms.{is_unqualified};
ghost use Rattle.rhai_tree.specs.Frame.{all_resolve_exprs, resolves_expr, resolves_call, tests_of};
ghost use Rattle.rhai_tree.specs.declared.expr.Expr.TheOpen as layer;
ghost use Rattle.rhai_tree.specs.Positions.{start_of};
ghost use Rattle.rhai_machine.specs.language.Frames.{Argument, OpenExpr};
ghost use Rattle.rhai_errors.specs.Native.{left_by, lent_value};
ghost use Rattle.rhai_state.specs.Scope.{names_in};
ghost use Rattle.rhai_lookups.specs.Levels.{CachesFit, CachesLeft};
ghost use Rattle.rhai_lookups.specs.Runs.{lists_of};
ghost use Rattle.rhai_steps.specs.Callers.{AgreesAt, state_of};
ghost use Rattle.rhai_steps.specs.Agreement.{call_leads};
ghost use Rattle.rhai_steps.specs.States.{holding};
ghost use Rattle.rhai_laws.specs.Kept.{Kept};
ghost use Rattle.rhai_eval.specs.Ends.{EndsAs, EndsFrom};
ghost use Rattle.rhai_call_forms.specs.Leading.{all_args};
ghost use Rattle.rhai_eval_steps.specs.Calls.{called, in_parts};
ghost use Rattle.rhai_eval.specs.ArgumentValues.{value_with};
ghost use Rattle.rhai_eval.specs.States.{under};

use crate::engine::Engine;
use crate::this::{give_back_with_this, take_with_this};
use rhai_context::ends::finish;
use rhai_context::{give_back, take};
use rhai_errors::error::EvalAltResult;
use rhai_errors::table::NativeTable;
use rhai_lookups::caches::Caches;
use rhai_state::scope::Scope;
use rhai_state::state::GlobalRuntimeState;
use rhai_steps::operation::Operation;
use rhai_tree::expr::{Expr, FnCallExpr, Namespace};
use rhai_tree::position::Position;
use rhai_tree::token::Token;
use rhai_values::base::value::{Dynamic, Host};
use std::alloc::Global;

/// Pairs a value with where it starts.
fn with_start<H: Host>(
    outcome: Result<Dynamic<H>, EvalAltResult<H>>,
    start: Position,
) -> Result<(Dynamic<H>, Position), EvalAltResult<H>>
    ensures value { value_with result ≡ outcome }
    ensures position { IfOk result (λ pair. pair.1 ≡ start) }
{
    match outcome {
        Ok(value) => Ok((value, start)),
        Err(error) => Err(error),
    }
}

impl<H: Host> Engine<H> {
    /// Evaluates a call whose charge is made already. It calls an operator on its operands, a keyword, or a
    /// function of a script or a native by its name. Ports upstream's `eval_fn_call_expr`.
    ///
    /// The call is a part of a checked tree, above the variables that the scope has there.
    /// `this` is taken out of its place meanwhile, and put back on every way out.
    pub fn eval_fn_call_expr<T: NativeTable<H>>(
        &self,
        alloc: Global,
        global: &mut GlobalRuntimeState<H>,
        caches: &mut Caches<H>,
        table: &mut T,
        scope: &mut Scope<H>,
        this: Option<&mut Dynamic<H>>,
        expr: &FnCallExpr,
        pos: Position,
    ) -> Result<Dynamic<H>, EvalAltResult<H>>
        requires fit { CachesFit (lists_of global.old) caches.old }
        requires resolves { AgreesAt global.old scope.old (resolves_call expr.now pos) }
        ensures ends { EndsAs (under H.name_of self.now T.natives)
            (OpenExpr (layer.Expr::FnCall expr.now pos))
            (state_of (T.state table.old) global.old scope.old (holding (lent_value this.entry))) result
            (state_of (T.state table.new) global.new scope.new (holding (left_by this.exit))) }
        ensures kept { Kept (under H.name_of self.now T.natives)
            (state_of (T.state table.old) global.old scope.old (holding (lent_value this.entry)))
            (state_of (T.state table.new) global.new scope.new (holding (left_by this.exit))) }
        ensures names { names_in scope.new ≡ names_in scope.old }
        ensures caches { CachesLeft (lists_of global.new) caches.old caches.new }
        ensures search { global.new.always_search_scope ≡ global.old.always_search_scope }
    {
        let evaluator = self.evaluator(alloc);
        match this {
            Some(place) => {
                let mut run = take_with_this(alloc, global, caches, scope, place);
                let done = evaluator.run_fn_call_expr(&mut run, table, expr, pos);
                let result = finish(done, &mut run.value, &mut run.error);
                give_back_with_this(run, global, caches, scope, place);
                result
            }
            None => {
                let mut run = take(alloc, global, caches, scope);
                let done = evaluator.run_fn_call_expr(&mut run, table, expr, pos);
                let result = finish(done, &mut run.value, &mut run.error);
                give_back(run, global, caches, scope);
                result
            }
        }
    }

    /// Evaluates an argument, and tells where it starts. A literal is charged at its start, and anything else
    /// as an expression. Ports upstream's `get_arg_value`.
    ///
    /// The argument is a part of a checked tree, above the variables that the scope has there.
    /// `this` is taken out of its place meanwhile, and put back on every way out.
    pub fn get_arg_value<T: NativeTable<H>>(
        &self,
        alloc: Global,
        global: &mut GlobalRuntimeState<H>,
        caches: &mut Caches<H>,
        table: &mut T,
        scope: &mut Scope<H>,
        this: Option<&mut Dynamic<H>>,
        arg_expr: &Expr,
    ) -> Result<(Dynamic<H>, Position), EvalAltResult<H>>
        requires fit { CachesFit (lists_of global.old) caches.old }
        requires resolves { AgreesAt global.old scope.old (resolves_expr arg_expr.now) }
        ensures position { IfOk result (λ pair. pair.1 ≡ start_of arg_expr.now) }
        ensures ends { EndsAs (under H.name_of self.now T.natives) (Argument arg_expr.now)
            (state_of (T.state table.old) global.old scope.old (holding (lent_value this.entry))) (value_with result)
            (state_of (T.state table.new) global.new scope.new (holding (left_by this.exit))) }
        ensures kept { Kept (under H.name_of self.now T.natives)
            (state_of (T.state table.old) global.old scope.old (holding (lent_value this.entry)))
            (state_of (T.state table.new) global.new scope.new (holding (left_by this.exit))) }
        ensures names { names_in scope.new ≡ names_in scope.old }
        ensures caches { CachesLeft (lists_of global.new) caches.old caches.new }
        ensures search { global.new.always_search_scope ≡ global.old.always_search_scope }
    {
        let evaluator = self.evaluator(alloc);
        match this {
            Some(place) => {
                let mut run = take_with_this(alloc, global, caches, scope, place);
                let done = evaluator.run_arg(&mut run, table, arg_expr);
                let result = finish(done, &mut run.value, &mut run.error);
                give_back_with_this(run, global, caches, scope, place);
                with_start(result, arg_expr.start_position())
            }
            None => {
                let mut run = take(alloc, global, caches, scope);
                let done = evaluator.run_arg(&mut run, table, arg_expr);
                let result = finish(done, &mut run.value, &mut run.error);
                give_back(run, global, caches, scope);
                with_start(result, arg_expr.start_position())
            }
        }
    }

    /// Calls a keyword, or a function of a script or a native by its name. The charge is made already. Its
    /// first argument stands apart; where there is none the others are not read. Ports upstream's
    /// `make_function_call`.
    ///
    /// The arguments are parts of a checked tree, above the variables that the scope has there.
    /// `this` is taken out of its place meanwhile, and put back on every way out.
    pub fn make_function_call<T: NativeTable<H>>(
        &self,
        alloc: Global,
        global: &mut GlobalRuntimeState<H>,
        caches: &mut Caches<H>,
        table: &mut T,
        scope: &mut Scope<H>,
        this: Option<&mut Dynamic<H>>,
        fn_name: &str,
        op_token: Option<&Token>,
        first_arg: Option<&Expr>,
        args_expr: &[Expr],
        capture_parent_scope: bool,
        pos: Position,
    ) -> Result<Dynamic<H>, EvalAltResult<H>>
        requires fit { CachesFit (lists_of global.old) caches.old }
        requires resolves { AgreesAt global.old scope.old
            (all_resolve_exprs (map tests_of (all_args (option_copied first_arg) args_expr.now))) }
        ensures ends { EndsFrom (under H.name_of self.now T.natives)
            (called (record { name = fn_name.now; token = option_copied op_token.entry; at = pos })
            (all_args (option_copied first_arg.entry) args_expr.now) capture_parent_scope)
            (state_of (T.state table.old) global.old scope.old (holding (lent_value this.entry))) result
            (state_of (T.state table.new) global.new scope.new (holding (left_by this.exit))) }
        ensures kept { Kept (under H.name_of self.now T.natives)
            (state_of (T.state table.old) global.old scope.old (holding (lent_value this.entry)))
            (state_of (T.state table.new) global.new scope.new (holding (left_by this.exit))) }
        ensures names { names_in scope.new ≡ names_in scope.old }
        ensures caches { CachesLeft (lists_of global.new) caches.old caches.new }
        ensures search { global.new.always_search_scope ≡ global.old.always_search_scope }
    {
        let token = op_token.copied();
        let captures = capture_parent_scope;
        let evaluator = self.evaluator(alloc);
        match this {
            Some(place) => {
                let mut run = take_with_this(alloc, global, caches, scope, place);
                let done = evaluator.run_call(
                    &mut run,
                    table,
                    &Operation {
                        name: fn_name,
                        token,
                        at: pos,
                    },
                    first_arg,
                    args_expr,
                    captures,
                );
                let result = finish(done, &mut run.value, &mut run.error);
                give_back_with_this(run, global, caches, scope, place);
                result
            }
            None => {
                let mut run = take(alloc, global, caches, scope);
                let done = evaluator.run_call(
                    &mut run,
                    table,
                    &Operation {
                        name: fn_name,
                        token,
                        at: pos,
                    },
                    first_arg,
                    args_expr,
                    captures,
                );
                let result = finish(done, &mut run.value, &mut run.error);
                give_back(run, global, caches, scope);
                result
            }
        }
    }

    /// Evaluates a call behind a path, whose charge is made already. Its arguments come first, and then the
    /// public function that the path leads to. A variable or `this` that stands first is charged first and
    /// read last. A path without a module is `ErrorModuleNotFound` at the path, and one without the function
    /// `ErrorFunctionNotFound` at the call. Ports upstream's `make_qualified_function_call`.
    ///
    /// The path and the arguments are parts of a checked tree, above the variables and the imports that are
    /// there. `this` is taken out of its place meanwhile, and put back on every way out.
    pub fn make_qualified_function_call<T: NativeTable<H>>(
        &self,
        alloc: Global,
        global: &mut GlobalRuntimeState<H>,
        caches: &mut Caches<H>,
        table: &mut T,
        scope: &mut Scope<H>,
        this: Option<&mut Dynamic<H>>,
        namespace: &Namespace,
        fn_name: &str,
        args_expr: &[Expr],
        pos: Position,
    ) -> Result<Dynamic<H>, EvalAltResult<H>>
        requires fit { CachesFit (lists_of global.old) caches.old }
        requires resolves { AgreesAt global.old scope.old (call_leads namespace.now args_expr.now) }
        requires behind { is_unqualified namespace.now.path ≡ false }
        ensures ends { EndsAs (under H.name_of self.now T.natives)
            (OpenExpr (layer.Expr::FnCall (in_parts namespace.now fn_name.now args_expr.now None false) pos))
            (state_of (T.state table.old) global.old scope.old (holding (lent_value this.entry))) result
            (state_of (T.state table.new) global.new scope.new (holding (left_by this.exit))) }
        ensures kept { Kept (under H.name_of self.now T.natives)
            (state_of (T.state table.old) global.old scope.old (holding (lent_value this.entry)))
            (state_of (T.state table.new) global.new scope.new (holding (left_by this.exit))) }
        ensures names { names_in scope.new ≡ names_in scope.old }
        ensures caches { CachesLeft (lists_of global.new) caches.old caches.new }
        ensures search { global.new.always_search_scope ≡ global.old.always_search_scope }
    {
        let evaluator = self.evaluator(alloc);
        match this {
            Some(place) => {
                let mut run = take_with_this(alloc, global, caches, scope, place);
                let done = evaluator.run_qualified_call(
                    &mut run, table, namespace, fn_name, args_expr, pos,
                );
                let result = finish(done, &mut run.value, &mut run.error);
                give_back_with_this(run, global, caches, scope, place);
                result
            }
            None => {
                let mut run = take(alloc, global, caches, scope);
                let done = evaluator.run_qualified_call(
                    &mut run, table, namespace, fn_name, args_expr, pos,
                );
                let result = finish(done, &mut run.value, &mut run.error);
                give_back(run, global, caches, scope);
                result
            }
        }
    }
}
