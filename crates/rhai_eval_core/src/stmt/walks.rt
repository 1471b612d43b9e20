//! `for`. Ports this form of upstream's `eval/stmt.rs`; the contracts speak of the machine's runs.

ghost use Rattle.std.specs.Prelude.{◌≡◌, ◌≤◌, ◌<◌, ◌+◌, IsTrue, IfSome, None, length};
ghost use Rattle.rhai_tree.specs.Frame.{resolves_block, resolves_expr, turn_names};
ghost use Rattle.rhai_tree.specs.declared.expr.Expr.TheOpen as layer;
ghost use Rattle.rhai_machine.specs.language.Frames.{ForTurn, OpenStmt};
ghost use Rattle.rhai_machine.specs.language.Runs.{Runs, Steps};
ghost use Rattle.rhai_machine.specs.language.Walks.{counters};
ghost use Rattle.rhai_steps.specs.Agreement.{above};
ghost use Rattle.rhai_steps.specs.Loops.{after_turn};
ghost use Rattle.rhai_stmt.specs.TurnsLeft.{turns_in};
ghost use Rattle.rhai_stmt.specs.Loops.{loop_in};
ghost use Rattle.rhai_context.specs.Ends.{came, came_turn};
ghost use Rattle.rhai_eval_steps.specs.Agreement.{KeepsNames, RestoresNames, SuitsNames};
ghost use Rattle.rhai_eval_steps.specs.States.{names, state_in};
ghost use Rattle.rhai_eval_core.specs.States.{under};
ghost use Rattle.rhai_tree.specs.Names.{naming};

use crate::evaluator::Evaluator;
use rhai_context::Context;
use rhai_context::ends::put_unit;
use rhai_context::outcomes::{charge, flatten_at, turn_end};
use rhai_errors::table::NativeTable;
use rhai_steps::values::let_go;
use rhai_stmt::entering::enter_turn;
use rhai_stmt::parts::{ForParts, has_room, start_turns};
use rhai_stmt::turns::{Turns, next_number};
use rhai_tree::expr::{Expr, Ident, StmtBlock};
use rhai_values::base::value::Host;

impl<'e, H: Host> Evaluator<'e, H> {
    /// Runs a `for`, turn by turn. How it ended stands in the run. Its variables are gone on every way out.
    #[inline(never)]
    #[cycle(eval)]
    pub(crate) fn run_for<T: NativeTable<H>>(
        &self,
        run: &mut Context<H>,
        table: &mut T,
        variable: &Ident,
        counter: &Option<Ident>,
        items: &Expr,
        body: &StmtBlock,
    ) -> bool
        requires resolves_items { SuitsNames run.old (resolves_expr items.now) }
        requires resolves_body { SuitsNames run.old
            (above (naming (turn_names variable.now counter.now)) (resolves_block body.now)) }
        ensures counts { IsTrue result → run.old.global.num_operations ≤ run.new.global.num_operations }
        ensures names { IsTrue result → KeepsNames run.old run.new }
        ensures runs { (pos : _) (restoring : _) → Runs (under H.name_of self.now T.natives)
            (OpenStmt (layer.For variable.now counter.now items.now body.now pos) restoring)
            (state_in (T.state table.old) run.old)
            (came result run.new.value run.new.error) (state_in (T.state table.new) run.new) }
    {
        let parts = ForParts {
            variable,
            counter,
            items,
            body,
        };
        if !has_room(&self.session.limits, &run.scope, &mut run.error, parts) {
            return false;
        }
        if !self.run_expr(run, table, items) {
            return false;
        }
        if !flatten_at(
            self.session.alloc,
            &run.global.cells,
            &mut run.value,
            &mut run.error,
            items,
        ) {
            return false;
        }
        let base = run.scope.len();
        let Some(mut turns) = start_turns(&mut run.scope, parts, &mut run.value, &mut run.error)
        else {
            return false;
        };
        let mut turn = 0;
        'turns: loop {
            if let Some(done) = self.run_for_turn(run, table, parts, &mut turns, turn, base) {
                run.scope.rewind(base);
                return done;
            }
            turn = next_number(turn, run.global.num_operations);
        }
    }

    /// Runs a turn of a `for`, by its number. None where another one follows. An empty body is charged at its
    /// brace, and its variables are left alone.
    #[cycle(eval)]
    fn run_for_turn<T: NativeTable<H>>(
        &self,
        run: &mut Context<H>,
        table: &mut T,
        parts: ForParts<'_>,
        turns: &mut Turns<H>,
        turn: u64,
        base: usize,
    ) -> Option<bool>
        requires resolves { SuitsNames run.old (resolves_block parts.body.now) }
        requires variables { base + counters parts.counter.now + 1 ≡ length (names run.old) }
        ensures charges { result ≡ None → run.old.global.num_operations < run.new.global.num_operations }
        ensures counts { IfSome result (λ done. IsTrue done →
            run.old.global.num_operations ≤ run.new.global.num_operations) }
        ensures names_stay { result ≡ None → RestoresNames run.old run.new }
        ensures names { IfSome result (λ done. IsTrue done → RestoresNames run.old run.new) }
        ensures runs { Steps (under H.name_of self.now T.natives)
            (ForTurn (loop_in parts.entry) (turns_in turns.old) turn base)
            (state_in (T.state table.old) run.old)
            (after_turn (came_turn result run.new.value run.new.error)
            (ForTurn (loop_in parts.entry) (turns_in turns.new) (turn + 1) base))
            (state_in (T.state table.new) run.new) }
    {
        let Some(item) = turns.next() else {
            put_unit(&mut run.value);
            return Some(true);
        };
        if parts.body.statements.is_empty() {
            let_go(item);
            if charge(
                &self.session.limits,
                &mut run.global,
                &mut run.error,
                parts.body.position,
            ) {
                return None;
            }
            return Some(false);
        }
        if !enter_turn(
            &self.session,
            &mut run.global,
            &*table,
            &mut run.scope,
            &mut run.error,
            parts,
            item,
            turn,
            base,
        ) {
            return Some(false);
        }
        let statements = parts.body.statements.as_slice();
        let done = self.run_stmt_block(run, table, statements, true);
        turn_end(done, &mut run.value, &mut run.error)
    }
}
