//! `try`. Ports this form of upstream's `eval/stmt.rs`; the contracts speak of the machine's runs.

ghost use Rattle.std.specs.Prelude.{◌≤◌, IsSomeAnd, IsTrue};
ghost use Rattle.rhai_tree.specs.Forms.{catch_of};
ghost use Rattle.rhai_tree.specs.Frame.{resolves_block, with_name};
ghost use Rattle.rhai_tree.specs.declared.expr.Expr.{out-Expr};
ghost use Rattle.rhai_tree.specs.declared.expr.Expr.TheOpen as layer;
ghost use Rattle.rhai_machine.specs.language.Frames.{OpenStmt, ended, core};
ghost use Rattle.rhai_machine.specs.language.Runs.{Goes, Runs};
ghost use Rattle.rhai_machine.specs.language.Tries.{branch_core, catch_variable};
ghost use Rattle.rhai_steps.specs.Agreement.{above};
ghost use Rattle.rhai_context.specs.Ends.{came};
ghost use Rattle.rhai_eval_steps.specs.Agreement.{KeepsNames, SuitsNames};
ghost use Rattle.rhai_eval_steps.specs.States.{state_in};
ghost use Rattle.rhai_eval_core.specs.States.{under};
ghost use Rattle.rhai_tree.specs.Names.{naming};

use crate::evaluator::Evaluator;
use rhai_context::Context;
use rhai_context::ends::{may_catch, stopped};
use rhai_errors::error::EvalAltResult;
use rhai_errors::table::NativeTable;
use rhai_stmt::branches::{bind_caught, leave_branch};
use rhai_tree::expr::{Expr, StmtBlock};
use rhai_values::base::value::Host;

impl<'e, H: Host> Evaluator<'e, H> {
    /// Runs a `try`: its body, and where that ends by an error that a script may catch its branch. How it
    /// ended stands in the run.
    #[inline(never)]
    #[cycle(eval)]
    pub(crate) fn run_try<T: NativeTable<H>>(
        &self,
        run: &mut Context<H>,
        table: &mut T,
        body: &StmtBlock,
        variable: &Expr,
        branch: &StmtBlock,
    ) -> bool
        requires resolves_body { SuitsNames run.old (resolves_block body.now) }
        requires resolves_branch { IsSomeAnd (catch_of variable.now) (λ name.
            SuitsNames run.old (above (naming (with_name name)) (resolves_block branch.now))) }
        ensures counts { IsTrue result → run.old.global.num_operations ≤ run.new.global.num_operations }
        ensures names { IsTrue result → KeepsNames run.old run.new }
        ensures runs { (pos : _) (restoring : _) → Runs (under H.name_of self.now T.natives)
            (OpenStmt (layer.TryCatch body.now variable.now branch.now pos) restoring)
            (state_in (T.state table.old) run.old)
            (came result run.new.value run.new.error) (state_in (T.state table.new) run.new) }
    {
        if self.run_stmt_block(run, table, body.statements.as_slice(), true) {
            return true;
        }
        if !may_catch(&run.error) {
            return false;
        }
        let caught = stopped(&mut run.error);
        self.run_branch(run, table, caught, variable, branch)
    }

    /// Runs the branch of a `try`, with the error that it caught in its variable. The variable is gone on
    /// every way out. How it ended stands in the run.
    #[cycle(eval)]
    fn run_branch<T: NativeTable<H>>(
        &self,
        run: &mut Context<H>,
        table: &mut T,
        caught: EvalAltResult<H>,
        variable: &Expr,
        branch: &StmtBlock,
    ) -> bool
        requires resolves { IsSomeAnd (catch_of variable.now) (λ name.
            SuitsNames run.old (above (naming (with_name name)) (resolves_block branch.now))) }
        ensures counts { IsTrue result → run.old.global.num_operations ≤ run.new.global.num_operations }
        ensures names { IsTrue result → KeepsNames run.old run.new }
        ensures runs { let rules = under H.name_of self.now T.natives in
            let old = state_in (T.state table.old) run.old in
            Goes rules (branch_core rules.setting (catch_variable (out-Expr variable.now)) caught branch.now) old
            (core (ended (came result run.new.value run.new.error))) (state_in (T.state table.new) run.new) }
    {
        let base = run.scope.len();
        if !bind_caught(
            &self.session,
            &run.global.source,
            &mut run.scope,
            &mut run.error,
            &caught,
            variable,
        ) {
            drop(caught);
            return false;
        }
        let statements = branch.statements.as_slice();
        let done = self.run_stmt_block(run, table, statements, true);
        leave_branch(
            &run.global.cells,
            &mut run.scope,
            base,
            caught,
            done,
            &mut run.value,
            &mut run.error,
        )
    }
}
