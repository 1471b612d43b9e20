//! The arguments of calls. Ports upstream's `get_arg_value`; the contracts speak of the machine's runs and of
//! specs/Calls.antt.

ghost use Rattle.std.specs.Prelude.{◌≡◌, ◌<◌, ◌≤◌, ◌+◌, IsTrue, length, map, true};
ghost use Rattle.std.specs.Option.{option_copied};
ghost use Rattle.rhai_tree.specs.Frame.{all_resolve_exprs, resolves_expr, tests_of};
ghost use Rattle.rhai_machine.specs.language.Frames.{Argument};
ghost use Rattle.rhai_machine.specs.language.Runs.{Runs};
ghost use Rattle.rhai_call_forms.specs.Leading.{all_args};
ghost use Rattle.rhai_context.specs.Ends.{came};
ghost use Rattle.rhai_eval_steps.specs.Agreement.{KeepsNames, SuitsNames};
ghost use Rattle.rhai_eval_steps.specs.States.{state_in};
ghost use Rattle.rhai_eval_core.specs.States.{under};
ghost use Rattle.rhai_eval_steps.specs.Calls.{Collects};

use crate::evaluator::Evaluator;
use rhai_callees::arguments::push_argument;
use rhai_context::Context;
use rhai_errors::table::NativeTable;
use rhai_few::Few;
use rhai_operands::arguments::read_literal;
use rhai_tree::expr::Expr;
use rhai_values::base::value::{Dynamic, Host};

impl<'e, H: Host> Evaluator<'e, H> {
    /// Evaluates an argument. A literal is charged here, anything else as an expression. How it ended stands
    /// in the run.
    #[inline(always)]
    #[cycle(eval)]
    pub fn run_arg<T: NativeTable<H>>(
        &self,
        run: &mut Context<H>,
        table: &mut T,
        arg: &Expr,
    ) -> bool
        requires { SuitsNames run.old (resolves_expr arg.now) }
        ensures charges { IsTrue result → run.old.global.num_operations < run.new.global.num_operations }
        ensures names { IsTrue result → KeepsNames run.old run.new }
        ensures runs { Runs (under H.name_of self.now T.natives) (Argument arg.now)
            (state_in (T.state table.old) run.old)
            (came result run.new.value run.new.error) (state_in (T.state table.new) run.new) }
    {
        let in_place = read_literal(
            &self.session,
            &mut run.global,
            &*table,
            &mut run.value,
            &mut run.error,
            arg,
        );
        match in_place {
            Some(done) => done,
            None => self.run_expr(run, table, arg),
        }
    }

    /// Puts the values of all arguments of a function behind those that are there, from left to right and
    /// flattened. Tells whether it went well; an error stands in the run.
    #[cycle(eval)]
    pub(crate) fn run_all_args<T: NativeTable<H>>(
        &self,
        run: &mut Context<H>,
        table: &mut T,
        values: &mut Few<Dynamic<H>>,
        first: Option<&Expr>,
        rest: &[Expr],
    ) -> bool
        requires { SuitsNames run.old
            (all_resolve_exprs (map tests_of (all_args (option_copied first) rest.now))) }
        ensures counts { IsTrue result → run.old.global.num_operations ≤ run.new.global.num_operations }
        ensures names { IsTrue result → KeepsNames run.old run.new }
        ensures collects { Collects (under H.name_of self.now T.natives) true values.old
            (all_args (option_copied first.entry) rest.now) (state_in (T.state table.old) run.old)
            (came result values.new run.new.error) (state_in (T.state table.new) run.new) }
    {
        let Some(arg) = first else {
            return true;
        };
        if !self.run_arg(run, table, arg) {
            return false;
        }
        let cells = &run.global.cells;
        let (out, place) = (&mut run.value, &mut run.error);
        if !push_argument(self.session.alloc, cells, values, out, place, true, arg) {
            return false;
        }
        self.run_more_args(run, table, values, rest, true)
    }

    /// Puts the values of arguments behind those that are there, from left to right. Those of a function are
    /// flattened. Tells whether it went well; an error stands in the run.
    #[cycle(eval)]
    pub(crate) fn run_more_args<T: NativeTable<H>>(
        &self,
        run: &mut Context<H>,
        table: &mut T,
        values: &mut Few<Dynamic<H>>,
        args: &[Expr],
        flattened: bool,
    ) -> bool
        requires { SuitsNames run.old (all_resolve_exprs (map tests_of args.now)) }
        ensures counts { IsTrue result → run.old.global.num_operations ≤ run.new.global.num_operations }
        ensures names { IsTrue result → KeepsNames run.old run.new }
        ensures more { IsTrue result → length values.new ≡ length values.old + length args.now }
        ensures collects { Collects (under H.name_of self.now T.natives) flattened values.old args.now
            (state_in (T.state table.old) run.old) (came result values.new run.new.error)
            (state_in (T.state table.new) run.new) }
    {
        'each_arg: for arg in args {
            if !self.run_arg(run, table, arg) {
                return false;
            }
            let cells = &run.global.cells;
            let (out, place) = (&mut run.value, &mut run.error);
            if !push_argument(
                self.session.alloc,
                cells,
                values,
                out,
                place,
                flattened,
                arg,
            ) {
                return false;
            }
        }
        true
    }
}
