//! Plain calls of functions of scripts, whose arguments become their variables at once. Ports the part of
//! upstream's `func/call.rs` and `call_script_fn` that such a call takes; the contracts speak of the
//! machine's runs.

ghost use Rattle.std.specs.Prelude.{◌≡◌, ◌≤◌, [], None, IsTrue, false, true, length, map, List};
ghost use Rattle.rhai_tree.specs.Frame.{all_resolve_exprs, tests_of};
ghost use Rattle.rhai_functions.specs.Entering.{parameters};
ghost use Rattle.rhai_machine.specs.language.Arguments.{arguments_core};
ghost use Rattle.rhai_machine.specs.language.Calls.{plainly};
ghost use Rattle.rhai_machine.specs.language.Frames.{ToCall, core, ended};
ghost use Rattle.rhai_machine.specs.language.Runs.{Goes};
ghost use Rattle.rhai_context.specs.Ends.{came};
ghost use Rattle.rhai_fast_calls.specs.Callees.{IsPlain};
ghost use Rattle.rhai_eval_steps.specs.Agreement.{KeepsNames, SuitsNames};
ghost use Rattle.rhai_eval_steps.specs.Calls.{Collects};
ghost use Rattle.rhai_eval_steps.specs.States.{state_in};
ghost use Rattle.rhai_eval_core.specs.States.{under};

use crate::evaluator::Evaluator;
use rhai_bodies::callers::definition_of;
use rhai_bodies::opening::statements_of;
use rhai_context::{Context, keep_variables, lend_variables};
use rhai_errors::table::NativeTable;
use rhai_fast_calls::calls::{ends_before, enter_plain, leave_plain, stops_by_race};
use rhai_fast_calls::parameters::push_parameter;
use rhai_state::scope::ScopeEntry;
use rhai_tree::checked::CheckedFn;
use rhai_tree::expr::{Expr, FnCallExpr};
use rhai_tree::function::ScriptFuncDef;
use rhai_tree::position::Position;
use rhai_tree::{Items, Shared};
use rhai_values::base::value::Host;

impl<'e, H: Host> Evaluator<'e, H> {
    /// Evaluates a call whose function is known before its arguments are evaluated. Its variables keep their
    /// room for another call. How it ended stands in the run.
    #[inline(never)]
    #[cycle(eval)]
    pub(crate) fn run_plain_call<T: NativeTable<H>>(
        &self,
        run: &mut Context<H>,
        table: &mut T,
        call: &FnCallExpr,
        function: Shared<CheckedFn>,
        pos: Position,
    ) -> bool
        requires resolves { SuitsNames run.old (all_resolve_exprs (map tests_of call.now.args)) }
        requires plain { IsPlain call.now run.old.global.lists.0 function }
        ensures counts { IsTrue result → run.old.global.num_operations ≤ run.new.global.num_operations }
        ensures names { IsTrue result → KeepsNames run.old run.new }
        ensures runs { let rules = under H.name_of self.now T.natives in
            Goes rules
            (arguments_core rules.setting (ToCall (record { name = call.now.name; token = None; at = pos }) [] (plainly false false)) [] call.now.args)
            (state_in (T.state table.old) run.old) (core (ended (came result run.new.value run.new.error)))
            (state_in (T.state table.new) run.new) }
    {
        let def = definition_of(&function);
        let mut variables = lend_variables(self.session.alloc, run);
        let args = call.args.as_slice();
        if !self.run_parameters(run, table, &mut variables, def, args) {
            keep_variables(run, variables);
            return false;
        }
        let cells = &run.global.cells;
        if stops_by_race(
            self.session.alloc,
            cells,
            &mut run.error,
            variables.as_slice(),
            call,
            pos,
        ) {
            keep_variables(run, variables);
            return false;
        }
        let (global, out, place) = (&mut run.global, &mut run.value, &mut run.error);
        if let Some(done) = ends_before(&self.session.limits, global, out, place, def, pos) {
            keep_variables(run, variables);
            return done;
        }
        let entered = enter_plain(run, variables);
        let statements = statements_of(def);
        let done = self.run_stmt_block(run, table, statements, true);
        leave_plain(self.session.alloc, run, def, entered, done, pos)
    }

    /// Makes the values of arguments a function's variables, from left to right and flattened. Tells whether
    /// it went well; an error stands in the run. Asked: there is no variable yet, and there are as many
    /// arguments as parameters.
    #[cycle(eval)]
    fn run_parameters<T: NativeTable<H>>(
        &self,
        run: &mut Context<H>,
        table: &mut T,
        variables: &mut Items<ScopeEntry<H>>,
        def: &ScriptFuncDef,
        args: &[Expr],
    ) -> bool
        requires resolves { SuitsNames run.old (all_resolve_exprs (map tests_of args.now)) }
        requires empty { variables.old ≡ [] }
        requires takes { length def.now.params ≡ length args.now }
        ensures counts { IsTrue result → run.old.global.num_operations ≤ run.new.global.num_operations }
        ensures names { IsTrue result → KeepsNames run.old run.new }
        ensures fills { let old = state_in (T.state table.old) run.old in
            let new = state_in (T.state table.new) run.new in
            (values : List _)
            × (Collects (under H.name_of self.now T.natives) true [] args.now old (came result values run.new.error) new)
            × (IsTrue result → variables.new ≡ parameters def.now.params values)
            × (IsTrue result → length values ≡ length args.now)
            × (IsTrue result → new.local.around.lib ≡ old.local.around.lib) }
    {
        'each_arg: for arg in args {
            if !self.run_arg(run, table, arg) {
                return false;
            }
            let cells = &run.global.cells;
            let (out, place) = (&mut run.value, &mut run.error);
            if !push_parameter(self.session.alloc, cells, out, place, variables, def, arg) {
                return false;
            }
        }
        true
    }
}
