//! Calls of operators on their operands. Ports the fast operators of upstream's `func/call.rs`; the contracts
//! speak of the machine's runs and of specs/Calls.antt.

ghost use Rattle.std.specs.Prelude.{◌≡◌, ◌≤◌, ◌∷◌, [], IsTrue, Some, true};
ghost use Rattle.rhai_tree.specs.Frame.{resolves_expr, resolves_call};
ghost use Rattle.rhai_tree.specs.declared.expr.Expr.TheOpen as layer;
ghost use Rattle.rhai_machine.specs.language.Frames.{OpenExpr};
ghost use Rattle.rhai_machine.specs.language.Runs.{Runs};
ghost use Rattle.rhai_context.specs.Ends.{came};
ghost use Rattle.rhai_eval_steps.specs.Agreement.{KeepsNames, SuitsNames};
ghost use Rattle.rhai_eval_steps.specs.States.{state_in};
ghost use Rattle.rhai_eval_core.specs.States.{under};

use crate::evaluator::Evaluator;
use rhai_call_forms::forms::{CallForm, form_of};
use rhai_callees::runs::{operate_on_one, operate_on_two};
use rhai_context::Context;
use rhai_context::ends::take_value;
use rhai_context::outcomes::flatten_at;
use rhai_errors::table::NativeTable;
use rhai_few::Few;
use rhai_operands::operators::{BinaryCall, operate_in_place, operate_known};
use rhai_steps::values::let_go;
use rhai_tree::expr::{Expr, FnCallExpr};
use rhai_tree::position::Position;
use rhai_tree::token::Token;
use rhai_values::base::value::Host;

impl<'e, H: Host> Evaluator<'e, H> {
    /// Evaluates a call that may be an operator on its operands. How it ended stands in the run.
    #[inline(never)]
    #[cycle(eval)]
    pub(crate) fn run_operation<T: NativeTable<H>>(
        &self,
        run: &mut Context<H>,
        table: &mut T,
        call: &FnCallExpr,
        pos: Position,
    ) -> bool
        requires resolves { SuitsNames run.old (resolves_call call.now pos) }
        ensures counts { IsTrue result → run.old.global.num_operations ≤ run.new.global.num_operations }
        ensures names { IsTrue result → KeepsNames run.old run.new }
        ensures runs { Runs (under H.name_of self.now T.natives) (OpenExpr (layer.Expr::FnCall call.now pos))
            (state_in (T.state table.old) run.old)
            (came result run.new.value run.new.error) (state_in (T.state table.new) run.new) }
    {
        match form_of(self.session.fast_operators, call) {
            CallForm::Unary(token, operand) => {
                self.run_unary(run, table, call, token, operand, pos)
            }
            CallForm::Binary(token, left, right) => {
                let in_place = operate_in_place(
                    &self.session,
                    &mut run.global,
                    &*table,
                    &run.scope,
                    &mut run.value,
                    &mut run.error,
                    BinaryCall {
                        call,
                        token,
                        left,
                        right,
                        at: pos,
                    },
                );
                if let Some(done) = in_place {
                    return done;
                }
                self.run_operator(run, table, call, token, left, right, pos)
            }
            CallForm::Function => self.run_function(run, table, call, pos),
        }
    }

    /// Evaluates an operator on one operand, and the operand first. How it ended stands in the run.
    #[inline(never)]
    #[cycle(eval)]
    fn run_unary<T: NativeTable<H>>(
        &self,
        run: &mut Context<H>,
        table: &mut T,
        call: &FnCallExpr,
        token: Token,
        operand: &Expr,
        pos: Position,
    ) -> bool
        requires token { call.now.op_token ≡ Some token }
        requires args { call.now.args ≡ operand.now ∷ [] }
        requires resolves { SuitsNames run.old (resolves_expr operand.now) }
        requires fast { self.now.session.fast_operators ≡ true }
        ensures counts { IsTrue result → run.old.global.num_operations ≤ run.new.global.num_operations }
        ensures names { IsTrue result → KeepsNames run.old run.new }
        ensures runs { Runs (under H.name_of self.now T.natives) (OpenExpr (layer.Expr::FnCall call.now pos))
            (state_in (T.state table.old) run.old)
            (came result run.new.value run.new.error) (state_in (T.state table.new) run.new) }
    {
        if !self.run_arg(run, table, operand) {
            return false;
        }
        let (out, place) = (&mut run.value, &mut run.error);
        if !flatten_at(self.session.alloc, &run.global.cells, out, place, operand) {
            return false;
        }
        let mut operands = Few::new(self.session.alloc);
        let called = operate_on_one(&self.session, run, table, call, token, &mut operands, pos);
        let done = self.finish_call(run, table, called, &mut operands, true, pos);
        drop(operands);
        done
    }

    /// Evaluates a binary operator, and its operands first, the left one before the right one. How it ended
    /// stands in the run.
    #[inline(never)]
    #[cycle(eval)]
    fn run_operator<T: NativeTable<H>>(
        &self,
        run: &mut Context<H>,
        table: &mut T,
        call: &FnCallExpr,
        token: Token,
        left: &Expr,
        right: &Expr,
        pos: Position,
    ) -> bool
        requires token { call.now.op_token ≡ Some token }
        requires args { call.now.args ≡ left.now ∷ right.now ∷ [] }
        requires resolves_left { SuitsNames run.old (resolves_expr left.now) }
        requires resolves_right { SuitsNames run.old (resolves_expr right.now) }
        requires fast { self.now.session.fast_operators ≡ true }
        ensures counts { IsTrue result → run.old.global.num_operations ≤ run.new.global.num_operations }
        ensures names { IsTrue result → KeepsNames run.old run.new }
        ensures runs { Runs (under H.name_of self.now T.natives) (OpenExpr (layer.Expr::FnCall call.now pos))
            (state_in (T.state table.old) run.old)
            (came result run.new.value run.new.error) (state_in (T.state table.new) run.new) }
    {
        if !self.run_arg(run, table, left) {
            return false;
        }
        let (out, place) = (&mut run.value, &mut run.error);
        if !flatten_at(self.session.alloc, &run.global.cells, out, place, left) {
            return false;
        }
        let first = take_value(&mut run.value);
        if !self.run_arg(run, table, right) {
            let_go(first);
            return false;
        }
        let (out, place) = (&mut run.value, &mut run.error);
        if !flatten_at(self.session.alloc, &run.global.cells, out, place, right) {
            let_go(first);
            return false;
        }
        if operate_known(token, &first, &mut run.value) {
            return true;
        }
        let mut operands = Few::new(self.session.alloc);
        let called = operate_on_two(
            &self.session,
            run,
            table,
            call,
            token,
            first,
            &mut operands,
            pos,
        );
        let done = self.finish_call(run, table, called, &mut operands, true, pos);
        drop(operands);
        done
    }
}
