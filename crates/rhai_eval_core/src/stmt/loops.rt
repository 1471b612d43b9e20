//! Loops, and the ways out of them. Ports the loops of upstream's `eval/stmt.rs`; the contracts
//! speak of the machine's runs.

ghost use Rattle.std.specs.Prelude.{◌≡◌, ◌<◌, ◌≤◌, Err, OnOk, IsTrue, false};
ghost use Rattle.std.specs.Option.{option_map};
ghost use Rattle.rhai_tree.specs.Frame.{tests_of, option_resolves, resolves_expr, resolves_block};
ghost use Rattle.rhai_tree.specs.declared.expr.Expr.TheOpen as layer;
ghost use Rattle.rhai_machine.specs.language.Frames.{OpenStmt, WhileTurn, DoTurn};
ghost use Rattle.rhai_machine.specs.language.Runs.{Steps, Runs};
ghost use Rattle.rhai_steps.specs.Loops.{after_turn};
ghost use Rattle.rhai_context.specs.Ends.{came, came_turn, error_in};
ghost use Rattle.rhai_eval_steps.specs.Agreement.{KeepsNames, SuitsNames};
ghost use Rattle.rhai_eval_steps.specs.States.{state_in};
ghost use Rattle.rhai_eval_core.specs.States.{under};

use crate::evaluator::Evaluator;
use rhai_context::Context;
use rhai_context::ends::{put_unit, settle_turn};
use rhai_context::outcomes::{BodyWay, body_way, charge, flatten_at, turn_end};
use rhai_errors::table::NativeTable;
use rhai_steps::loops::{do_next, is_endless};
use rhai_stmt::leaving::{break_with, leave_with};
use rhai_tree::expr::{Expr, StmtBlock};
use rhai_tree::flags::ASTFlags;
use rhai_tree::position::Position;
use rhai_values::base::value::Host;

impl<'e, H: Host> Evaluator<'e, H> {
    /// Runs a `while`, turn by turn. How it ended stands in the run.
    #[inline(never)]
    #[cycle(eval)]
    pub(crate) fn run_while<T: NativeTable<H>>(
        &self,
        run: &mut Context<H>,
        table: &mut T,
        test: &Expr,
        body: &StmtBlock,
    ) -> bool
        requires resolves_test { SuitsNames run.old (resolves_expr test.now) }
        requires resolves_body { SuitsNames run.old (resolves_block body.now) }
        ensures counts { IsTrue result → run.old.global.num_operations ≤ run.new.global.num_operations }
        ensures names { IsTrue result → KeepsNames run.old run.new }
        ensures runs { Runs (under H.name_of self.now T.natives) (WhileTurn test.now body.now)
            (state_in (T.state table.old) run.old) (came result run.new.value run.new.error)
            (state_in (T.state table.new) run.new) }
    {
        'turns: loop {
            if let Some(done) = self.while_turn(run, table, test, body) {
                return done;
            }
        }
    }

    /// Runs a turn of a `while`. None where another one follows. Without a condition an empty body is charged
    /// at its brace.
    #[cycle(eval)]
    fn while_turn<T: NativeTable<H>>(
        &self,
        run: &mut Context<H>,
        table: &mut T,
        test: &Expr,
        body: &StmtBlock,
    ) -> Option<bool>
        requires resolves_test { SuitsNames run.old (resolves_expr test.now) }
        requires resolves_body { SuitsNames run.old (resolves_block body.now) }
        ensures charges { OnOk (came_turn result run.new.value run.new.error)
            (run.old.global.num_operations < run.new.global.num_operations) }
        ensures names { OnOk (came_turn result run.new.value run.new.error) (KeepsNames run.old run.new) }
        ensures runs { Steps (under H.name_of self.now T.natives) (WhileTurn test.now body.now)
            (state_in (T.state table.old) run.old)
            (after_turn (came_turn result run.new.value run.new.error) (WhileTurn test.now body.now))
            (state_in (T.state table.new) run.new) }
    {
        if is_endless(test) {
            if body.statements.is_empty() {
                if charge(
                    &self.session.limits,
                    &mut run.global,
                    &mut run.error,
                    body.position,
                ) {
                    return None;
                }
                return Some(false);
            }
            let done = self.run_stmt_block(run, table, body.statements.as_slice(), true);
            return turn_end(done, &mut run.value, &mut run.error);
        }
        match self.run_condition(run, table, test) {
            Some(holds) => {
                if holds {
                    let statements = body.statements.as_slice();
                    let done = self.run_stmt_block(run, table, statements, true);
                    turn_end(done, &mut run.value, &mut run.error)
                } else {
                    put_unit(&mut run.value);
                    Some(true)
                }
            }
            None => Some(false),
        }
    }

    /// Runs a `do`, turn by turn. How it ended stands in the run.
    #[inline(never)]
    #[cycle(eval)]
    pub(crate) fn run_do<T: NativeTable<H>>(
        &self,
        run: &mut Context<H>,
        table: &mut T,
        test: &Expr,
        body: &StmtBlock,
        options: ASTFlags,
    ) -> bool
        requires resolves_test { SuitsNames run.old (resolves_expr test.now) }
        requires resolves_body { SuitsNames run.old (resolves_block body.now) }
        ensures counts { IsTrue result → run.old.global.num_operations ≤ run.new.global.num_operations }
        ensures names { IsTrue result → KeepsNames run.old run.new }
        ensures runs { Runs (under H.name_of self.now T.natives) (DoTurn test.now body.now options)
            (state_in (T.state table.old) run.old) (came result run.new.value run.new.error)
            (state_in (T.state table.new) run.new) }
    {
        'turns: loop {
            if let Some(done) = self.do_turn(run, table, test, body, options) {
                return done;
            }
        }
    }

    /// Runs a turn of a `do`: the body, then the condition; a `continue` skips the condition. None where
    /// another turn follows.
    #[cycle(eval)]
    fn do_turn<T: NativeTable<H>>(
        &self,
        run: &mut Context<H>,
        table: &mut T,
        test: &Expr,
        body: &StmtBlock,
        options: ASTFlags,
    ) -> Option<bool>
        requires resolves_test { SuitsNames run.old (resolves_expr test.now) }
        requires resolves_body { SuitsNames run.old (resolves_block body.now) }
        ensures charges { OnOk (came_turn result run.new.value run.new.error)
            (run.old.global.num_operations < run.new.global.num_operations) }
        ensures names { OnOk (came_turn result run.new.value run.new.error) (KeepsNames run.old run.new) }
        ensures runs { Steps (under H.name_of self.now T.natives) (DoTurn test.now body.now options)
            (state_in (T.state table.old) run.old)
            (after_turn (came_turn result run.new.value run.new.error) (DoTurn test.now body.now options))
            (state_in (T.state table.new) run.new) }
    {
        let statements = body.statements.as_slice();
        let done = self.run_stmt_block(run, table, statements, true);
        match body_way(done, &mut run.value, &mut run.error) {
            BodyWay::Stopped => Some(false),
            BodyWay::Break => Some(true),
            BodyWay::Continue => None,
            BodyWay::Done => match self.run_condition(run, table, test) {
                Some(holds) => {
                    let turn = do_next(options, holds);
                    settle_turn(&mut run.error, &mut run.value, Ok(turn))
                }
                None => Some(false),
            },
        }
    }

    /// Runs a `break` or a `continue`: an error on its way to its loop, with its value as it is.
    #[inline(never)]
    #[cycle(eval)]
    pub(crate) fn run_break<T: NativeTable<H>>(
        &self,
        run: &mut Context<H>,
        table: &mut T,
        value: &Option<Expr>,
        options: ASTFlags,
        pos: Position,
    ) -> bool
        requires resolves { SuitsNames run.old (option_resolves (option_map tests_of value.now)) }
        ensures stops { result ≡ false }
        ensures runs { (restoring : _) → Runs (under H.name_of self.now T.natives)
            (OpenStmt (layer.BreakLoop value.now options pos) restoring)
            (state_in (T.state table.old) run.old) (Err (error_in run.new.error))
            (state_in (T.state table.new) run.new) }
    {
        match value {
            None => {
                put_unit(&mut run.value);
                break_with(
                    self.session.alloc,
                    &mut run.value,
                    &mut run.error,
                    options,
                    pos,
                )
            }
            Some(value) => {
                if !self.run_expr(run, table, value) {
                    return false;
                }
                break_with(
                    self.session.alloc,
                    &mut run.value,
                    &mut run.error,
                    options,
                    pos,
                )
            }
        }
    }

    /// Runs a `return` or a `throw`. A `return` is an error on its way to the end of its function or script,
    /// a `throw` one on its way to a `try`.
    #[inline(never)]
    #[cycle(eval)]
    pub(crate) fn run_return<T: NativeTable<H>>(
        &self,
        run: &mut Context<H>,
        table: &mut T,
        value: &Option<Expr>,
        options: ASTFlags,
        pos: Position,
    ) -> bool
        requires resolves { SuitsNames run.old (option_resolves (option_map tests_of value.now)) }
        ensures stops { result ≡ false }
        ensures runs { (restoring : _) → Runs (under H.name_of self.now T.natives)
            (OpenStmt (layer.Return value.now options pos) restoring)
            (state_in (T.state table.old) run.old) (Err (error_in run.new.error))
            (state_in (T.state table.new) run.new) }
    {
        match value {
            None => {
                put_unit(&mut run.value);
                leave_with(
                    self.session.alloc,
                    &mut run.value,
                    &mut run.error,
                    options,
                    pos,
                )
            }
            Some(value) => {
                if !self.run_expr(run, table, value) {
                    return false;
                }
                if !flatten_at(
                    self.session.alloc,
                    &run.global.cells,
                    &mut run.value,
                    &mut run.error,
                    value,
                ) {
                    return false;
                }
                leave_with(
                    self.session.alloc,
                    &mut run.value,
                    &mut run.error,
                    options,
                    pos,
                )
            }
        }
    }
}
