//! `switch`. Ports this form of upstream's `eval/stmt.rs`; the contracts speak of the machine's runs.

ghost use Rattle.std.specs.Prelude.{◌≤◌, IsTrue, map};
ghost use Rattle.rhai_tree.specs.Frame.{conditionals_resolve, resolves_conditional, resolves_expr};
ghost use Rattle.rhai_tree.specs.declared.expr.Expr.TheOpen as layer;
ghost use Rattle.rhai_machine.specs.language.Frames.{OpenStmt};
ghost use Rattle.rhai_machine.specs.language.Runs.{Runs};
ghost use Rattle.rhai_context.specs.Ends.{came};
ghost use Rattle.rhai_eval_steps.specs.Agreement.{KeepsNames, SuitsNames};
ghost use Rattle.rhai_eval_steps.specs.States.{state_in};
ghost use Rattle.rhai_eval_core.specs.States.{under};

use crate::evaluator::Evaluator;
use rhai_context::Context;
use rhai_context::ends::put_unit;
use rhai_context::outcomes::flatten_at;
use rhai_errors::table::NativeTable;
use rhai_stmt::choices::{candidates_for, default_result, written_truth};
use rhai_tree::expr::{ConditionalExpr, Expr, RangeCase, SwitchCase};
use rhai_values::base::value::Host;

impl<'e, H: Host> Evaluator<'e, H> {
    /// Runs a `switch`: the first of the results that its value leads to whose condition holds, and else its
    /// default. How it ended stands in the run.
    #[inline(never)]
    #[cycle(eval)]
    pub(crate) fn run_switch<T: NativeTable<H>>(
        &self,
        run: &mut Context<H>,
        table: &mut T,
        value: &Expr,
        results: &[ConditionalExpr],
        cases: &[SwitchCase],
        ranges: &[RangeCase],
        default: Option<usize>,
    ) -> bool
        requires resolves_value { SuitsNames run.old (resolves_expr value.now) }
        requires resolves_results { SuitsNames run.old
            (conditionals_resolve (map resolves_conditional results.now)) }
        ensures counts { IsTrue result → run.old.global.num_operations ≤ run.new.global.num_operations }
        ensures names { IsTrue result → KeepsNames run.old run.new }
        ensures runs { (pos : _) (restoring : _) → Runs (under H.name_of self.now T.natives)
            (OpenStmt (layer.Switch value.now results.now cases.now ranges.now default pos) restoring)
            (state_in (T.state table.old) run.old)
            (came result run.new.value run.new.error) (state_in (T.state table.new) run.new) }
    {
        if !self.run_expr(run, table, value) {
            return false;
        }
        if !flatten_at(
            self.session.alloc,
            &run.global.cells,
            &mut run.value,
            &mut run.error,
            value,
        ) {
            return false;
        }
        let mut left = candidates_for(&run.value, cases, ranges);
        put_unit(&mut run.value);
        'each_candidate: while let Some(candidate) = left.next(results) {
            let holds = match written_truth(&candidate.condition) {
                Some(holds) => holds,
                None => match self.run_condition(run, table, &candidate.condition) {
                    Some(holds) => holds,
                    None => return false,
                },
            };
            if holds {
                return self.run_expr(run, table, &candidate.expr);
            }
        }
        match default_result(results, default) {
            Some(result) => self.run_expr(run, table, result),
            None => {
                put_unit(&mut run.value);
                true
            }
        }
    }
}
