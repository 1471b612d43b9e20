//! Expressions that stop early: `&&`, `||` and `??`. Ports these forms of upstream's
//! `eval/expr.rs`; the contracts speak of the machine's runs.

ghost use Rattle.std.specs.Prelude.{◌≤◌, IsTrue, map, if◌then◌else◌};
ghost use Rattle.rhai_tree.specs.Frame.{tests_of, all_resolve_exprs};
ghost use Rattle.rhai_tree.specs.declared.expr.Expr.TheOpen as layer;
ghost use Rattle.rhai_machine.specs.language.Frames.{OpenExpr};
ghost use Rattle.rhai_machine.specs.language.Runs.{Runs};
ghost use Rattle.rhai_context.specs.Ends.{came};
ghost use Rattle.rhai_eval_steps.specs.Agreement.{KeepsNames, SuitsNames};
ghost use Rattle.rhai_eval_steps.specs.States.{state_in};
ghost use Rattle.rhai_eval_core.specs.States.{under};

use crate::evaluator::Evaluator;
use rhai_context::Context;
use rhai_context::ends::{put_truth, put_unit};
use rhai_context::outcomes::unit_left;
use rhai_errors::table::NativeTable;
use rhai_operands::operators::is_same;
use rhai_tree::expr::Expr;
use rhai_values::base::value::Host;

impl<'e, H: Host> Evaluator<'e, H> {
    /// Evaluates the parts of an `&&` or an `||` from left to right. It stops at the first with the truth
    /// value that stops it: false for `&&`, true for `||`. How it ended stands in the run.
    #[inline(never)]
    #[cycle(eval)]
    pub(crate) fn run_until<T: NativeTable<H>>(
        &self,
        run: &mut Context<H>,
        table: &mut T,
        parts: &[Expr],
        stop: bool,
    ) -> bool
        requires resolves { SuitsNames run.old (all_resolve_exprs (map tests_of parts.now)) }
        ensures counts { IsTrue result → run.old.global.num_operations ≤ run.new.global.num_operations }
        ensures names { IsTrue result → KeepsNames run.old run.new }
        ensures runs { (pos : _) → Runs (under H.name_of self.now T.natives)
            (OpenExpr (if stop then layer.Or parts.now pos else layer.And parts.now pos))
            (state_in (T.state table.old) run.old)
            (came result run.new.value run.new.error) (state_in (T.state table.new) run.new) }
    {
        'each_part: for part in parts {
            let Some(holds) = self.run_condition(run, table, part) else {
                return false;
            };
            if is_same(holds, stop) {
                put_truth(&mut run.value, stop);
                return true;
            }
        }
        put_truth(&mut run.value, !stop);
        true
    }

    /// Evaluates the parts of a `??` from left to right, up to the first that is not `()`. Its value comes up
    /// as it is, a handle too. How it ended stands in the run.
    #[inline(never)]
    #[cycle(eval)]
    pub(crate) fn run_coalesce<T: NativeTable<H>>(
        &self,
        run: &mut Context<H>,
        table: &mut T,
        parts: &[Expr],
    ) -> bool
        requires resolves { SuitsNames run.old (all_resolve_exprs (map tests_of parts.now)) }
        ensures counts { IsTrue result → run.old.global.num_operations ≤ run.new.global.num_operations }
        ensures names { IsTrue result → KeepsNames run.old run.new }
        ensures runs { (pos : _) → Runs (under H.name_of self.now T.natives)
            (OpenExpr (layer.Coalesce parts.now pos))
            (state_in (T.state table.old) run.old)
            (came result run.new.value run.new.error) (state_in (T.state table.new) run.new) }
    {
        put_unit(&mut run.value);
        'each_part: for part in parts {
            if !self.run_expr(run, table, part) {
                return false;
            }
            match unit_left(
                self.session.alloc,
                &run.global.cells,
                &run.value,
                &mut run.error,
                part,
            ) {
                Some(true) => {}
                Some(false) => return true,
                None => return false,
            }
        }
        true
    }
}
