//! Expressions. Ports upstream's `eval/expr.rs`; the contracts speak of the machine's runs.

ghost use Rattle.std.specs.Prelude.{◌≡◌, ◌<◌, IfErr, IfSome, IsTrue, None, true, false};
ghost use Rattle.rhai_tree.specs.Frame.{resolves_expr};
ghost use Rattle.rhai_errors.specs.Errors.{is_out_of_memory};
ghost use Rattle.rhai_machine.specs.language.Values.{is_handle, is_truth};
ghost use Rattle.rhai_machine.specs.language.Frames.{Eval};
ghost use Rattle.rhai_machine.specs.language.Runs.{Runs};
ghost use Rattle.rhai_operands.specs.Tests.{Tests};
ghost use Rattle.rhai_context.specs.Ends.{came, came_test, error_in};
ghost use Rattle.rhai_eval_steps.specs.Agreement.{KeepsNames, SuitsNames};
ghost use Rattle.rhai_eval_steps.specs.Memory.{asks_expr};
ghost use Rattle.rhai_eval_steps.specs.States.{state_in};
ghost use Rattle.rhai_eval_core.specs.States.{under};

mod choices;
mod data;

use crate::evaluator::Evaluator;
use rhai_context::Context;
use rhai_context::outcomes::{charge_expr, truth_left};
use rhai_errors::table::NativeTable;
use rhai_operands::operators::holds_at_once;
use rhai_operands::reading::read_expr;
use rhai_tree::expr::Expr;
use rhai_values::base::value::Host;

impl<'e, H: Host> Evaluator<'e, H> {
    /// Evaluates an expression. How it ended stands in the run.
    #[cycle(eval)]
    pub fn run_expr<T: NativeTable<H>>(
        &self,
        run: &mut Context<H>,
        table: &mut T,
        expr: &Expr,
    ) -> bool
        requires resolves { SuitsNames run.old (resolves_expr expr.now) }
        ensures charges { IsTrue result → run.old.global.num_operations < run.new.global.num_operations }
        ensures names { IsTrue result → KeepsNames run.old run.new }
        ensures runs { Runs (under H.name_of self.now T.natives) (Eval expr.now)
            (state_in (T.state table.old) run.old)
            (came result run.new.value run.new.error) (state_in (T.state table.new) run.new) }
        ensures memory { IfErr (came result run.new.value run.new.error) (λ error.
            is_out_of_memory error ≡ true → IsTrue (asks_expr expr.now).0) }
        ensures plain { IsTrue result → is_handle run.new.value.value ≡ true → IsTrue (asks_expr expr.now).0 }
        ensures truth { IsTrue result → is_truth run.new.value.value ≡ false → IsTrue (asks_expr expr.now).1 }
    {
        if !charge_expr(&self.session.limits, &mut run.global, &mut run.error, expr) {
            return false;
        }
        match expr {
            Expr::FnCall(call, pos) => self.run_fn_call_expr(run, table, call, *pos),
            Expr::Stmt(block) => {
                self.run_stmt_block(run, table, block.statements.as_slice(), true)
            }
            Expr::And(parts, _) => self.run_until(run, table, parts.as_slice(), false),
            Expr::Or(parts, _) => self.run_until(run, table, parts.as_slice(), true),
            Expr::Coalesce(parts, _) => self.run_coalesce(run, table, parts.as_slice()),
            Expr::Array(items, pos) => self.run_array(run, table, items.as_slice(), *pos),
            Expr::Map(entries, _, pos) => { self.run_map(run, table, entries.as_slice(), *pos) }
            Expr::InterpolatedString(parts, pos) => {
                self.run_interpolated(run, table, parts.as_slice(), *pos)
            }
            Expr::Dot(root, ..) => self.read_chain(run, table, root.get(), expr),
            Expr::Index(root, ..) => self.read_chain(run, table, root.get(), expr),
            _ => read_expr(
                &self.session,
                &run.global,
                &run.scope,
                &run.this,
                &mut run.value,
                &mut run.error,
                expr,
            ),
        }
    }

    /// Tells whether a condition holds. Under fast operators one that compares operands which stand is
    /// answered at once. None where it stopped the run, whose error stands there.
    #[inline(always)]
    #[cycle(eval)]
    pub(crate) fn run_condition<T: NativeTable<H>>(
        &self,
        run: &mut Context<H>,
        table: &mut T,
        test: &Expr,
    ) -> Option<bool>
        requires resolves { SuitsNames run.old (resolves_expr test.now) }
        ensures charges { IfSome result (λ _.
            run.old.global.num_operations < run.new.global.num_operations) }
        ensures names { IfSome result (λ _. KeepsNames run.old run.new) }
        ensures runs { Tests (under H.name_of self.now T.natives) test.now
            (state_in (T.state table.old) run.old) (came_test result run.new.error)
            (state_in (T.state table.new) run.new) }
        ensures memory { result ≡ None → is_out_of_memory (error_in run.new.error) ≡ true →
            IsTrue (asks_expr test.now).1 }
    {
        match holds_at_once(
            &self.session,
            &mut run.global,
            &*table,
            &run.scope,
            &mut run.error,
            test,
        ) {
            Some(told) => told,
            None => {
                if !self.run_expr(run, table, test) {
                    return None;
                }
                truth_left(
                    self.session.alloc,
                    &run.global.cells,
                    &mut run.value,
                    &mut run.error,
                    test,
                )
            }
        }
    }
}
