//! Statements. Ports upstream's `eval/stmt.rs`; the contracts speak of the machine's runs.

ghost use Rattle.std.specs.Prelude.{◌≡◌, ◌<◌, ◌≤◌, IfErr, IsTrue, true};
ghost use Rattle.std.specs.Prelude.{length, map};
ghost use Rattle.rhai_tree.specs.Frame.{tests_of, target_resolves, resolves_expr, resolves_stmt};
ghost use Rattle.rhai_tree.specs.Frame.{all_resolve, resolves_block, var_names, var_resolves};
ghost use Rattle.rhai_tree.specs.declared.expr.Stmt.{out-Stmt};
ghost use Rattle.rhai_tree.specs.declared.expr.Expr.TheOpen as layer;
ghost use Rattle.rhai_errors.specs.Errors.{is_out_of_memory};
ghost use Rattle.rhai_machine.specs.language.Frames.{Exec, OpenStmt, Enter, Run};
ghost use Rattle.rhai_machine.specs.language.Runs.{Runs};
ghost use Rattle.rhai_steps.specs.Agreement.{changes, passes};
ghost use Rattle.rhai_context.specs.Ends.{came};
ghost use Rattle.rhai_eval_steps.specs.Agreement.{ChangesNames, Declared, KeepsNames, RestoresNames, SuitsNames};
ghost use Rattle.rhai_eval_steps.specs.Memory.{asks_if, asks_stmt, may_ask};
ghost use Rattle.rhai_eval_steps.specs.States.{names, state_in};
ghost use Rattle.rhai_eval_core.specs.States.{under};
ghost use Rattle.rhai_tree.specs.Names.{naming, with_import};
ghost use Rattle.rhai_tree.specs.Forms.{name_asked};
ghost use Rattle.rhai_machine.specs.language.Values.{unit_value as unit};

mod loops;
mod switch;
mod tries;
mod walks;

use crate::evaluator::Evaluator;
use rhai_context::Context;
use rhai_context::ends::{leave_unit, put_unit, stop};
use rhai_context::outcomes::{charge_stmt, flatten_at};
use rhai_errors::error::EvalAltResult;
use rhai_errors::table::NativeTable;
use rhai_fast_assign::at_once::assign_at_once;
use rhai_fast_assign::in_place::Assignment;
use rhai_fast_assign::left::{assign_from_run, assign_this_from_run};
use rhai_fast_assign::lists::open_list;
use rhai_names::variables::{Variable, enter_plain_list, leave_list, leave_plain_list};
use rhai_steps::loops::choose_list;
use rhai_stmt::declaring::{Declaration, declare, is_declarable};
use rhai_stmt::exporting::export_variable;
use rhai_stmt::importing::{import_module, may_import};
use rhai_stmt::sharing::share_variables;
use rhai_tree::expr::{Expr, Ident, OpAssignment, Stmt, StmtBlock};
use rhai_tree::position::Position;
use rhai_values::base::value::Host;

impl<'e, H: Host> Evaluator<'e, H> {
    /// Runs a statement, in a list that restores or not. How it ended stands in the run.
    #[cycle(eval)]
    pub fn run_stmt<T: NativeTable<H>>(
        &self,
        run: &mut Context<H>,
        table: &mut T,
        stmt: &Stmt,
        restoring: bool,
    ) -> bool
        requires resolves { SuitsNames run.old (passes (resolves_stmt stmt.now)) }
        ensures charges { IsTrue result → run.old.global.num_operations < run.new.global.num_operations }
        ensures names { IsTrue result → ChangesNames run.old (changes (resolves_stmt stmt.now)) run.new }
        ensures declared { IsTrue result → Declared (out-Stmt stmt.now) (names run.old) (names run.new) }
        ensures runs { Runs (under H.name_of self.now T.natives) (Exec stmt.now restoring)
            (state_in (T.state table.old) run.old) (came result run.new.value run.new.error)
            (state_in (T.state table.new) run.new) }
        ensures memory { IfErr (came result run.new.value run.new.error) (λ error.
            is_out_of_memory error ≡ true → IsTrue (asks_stmt stmt.now)) }
    {
        if !charge_stmt(&self.session.limits, &mut run.global, &mut run.error, stmt) {
            return false;
        }
        match stmt {
            Stmt::Noop(_) => leave_unit(&mut run.value),
            Stmt::Expr(expr) => {
                if !self.run_expr(run, table, expr) {
                    return false;
                }
                flatten_at(
                    self.session.alloc,
                    &run.global.cells,
                    &mut run.value,
                    &mut run.error,
                    expr,
                )
            }
            Stmt::FnCall(call, pos) => self.run_fn_call_expr(run, table, call, *pos),
            Stmt::Block(block) => {
                self.run_stmt_block(run, table, block.statements.as_slice(), true)
            }
            Stmt::Assignment(op, lhs, rhs) => { self.run_assignment(run, table, op, lhs, rhs) }
            Stmt::If(test, body, branch, _) => self.run_if(run, table, test, body, branch),
            Stmt::Var(ident, value, index, options, pos) => self.run_var(
                run,
                table,
                &Declaration {
                    ident,
                    index: *index,
                    options: *options,
                    restoring,
                    at: *pos,
                },
                value,
            ),
            Stmt::While(test, body, _) => self.run_while(run, table, test, body),
            Stmt::Do(test, body, options, _) => { self.run_do(run, table, test, body, *options) }
            Stmt::BreakLoop(value, options, pos) => {
                self.run_break(run, table, value, *options, *pos)
            }
            Stmt::Return(value, options, pos) => {
                self.run_return(run, table, value, *options, *pos)
            }
            Stmt::Switch {
                expr,
                expressions,
                cases,
                ranges,
                def_case,
                ..
            } => self.run_switch(
                run,
                table,
                expr,
                expressions.as_slice(),
                cases.as_slice(),
                ranges.as_slice(),
                *def_case,
            ),
            Stmt::For {
                name,
                counter,
                expr,
                body,
                ..
            } => self.run_for(run, table, name, counter, expr, body),
            Stmt::TryCatch(body, variable, branch, _) => {
                self.run_try(run, table, body, variable, branch)
            }
            Stmt::Share(variables) => {
                let names = variables.as_slice();
                share_variables(
                    &self.session,
                    &mut run.global,
                    &*table,
                    &mut run.scope,
                    &mut run.value,
                    &mut run.error,
                    names,
                )
            }
            Stmt::Export(ident, alias, _) => export_variable(
                &self.session,
                &*table,
                &mut run.scope,
                &mut run.value,
                &mut run.error,
                ident,
                alias,
            ),
            Stmt::Import(path, alias, pos) => { self.run_import(run, table, path, alias, *pos) }
        }
    }

    /// Runs an `if`: its condition, and then the list that it chooses. How it ended stands in the run.
    #[inline(never)]
    #[cycle(eval)]
    fn run_if<T: NativeTable<H>>(
        &self,
        run: &mut Context<H>,
        table: &mut T,
        test: &Expr,
        body: &StmtBlock,
        branch: &StmtBlock,
    ) -> bool
        requires resolves_test { SuitsNames run.old (resolves_expr test.now) }
        requires resolves_body { SuitsNames run.old (resolves_block body.now) }
        requires resolves_branch { SuitsNames run.old (resolves_block branch.now) }
        ensures counts { IsTrue result → run.old.global.num_operations ≤ run.new.global.num_operations }
        ensures names { IsTrue result → KeepsNames run.old run.new }
        ensures runs { (pos : _) (restoring : _) → Runs (under H.name_of self.now T.natives)
            (OpenStmt (layer.If test.now body.now branch.now pos) restoring)
            (state_in (T.state table.old) run.old)
            (came result run.new.value run.new.error) (state_in (T.state table.new) run.new) }
        ensures memory { IfErr (came result run.new.value run.new.error) (λ error.
            is_out_of_memory error ≡ true → IsTrue (asks_if test.now body.now branch.now)) }
    {
        match self.run_condition(run, table, test) {
            Some(holds) => {
                let statements = choose_list(holds, body, branch);
                self.run_stmt_block(run, table, statements, true)
            }
            None => false,
        }
    }

    /// Runs an assignment to a variable, to `this`, or to what a chain leads to. Where it is not done at
    /// once, its value is evaluated first. How it ended stands in the run.
    #[inline(never)]
    #[cycle(eval)]
    fn run_assignment<T: NativeTable<H>>(
        &self,
        run: &mut Context<H>,
        table: &mut T,
        op: &OpAssignment,
        lhs: &Expr,
        rhs: &Expr,
    ) -> bool
        requires resolves_target { SuitsNames run.old (target_resolves (tests_of lhs.now)) }
        requires resolves { SuitsNames run.old (resolves_expr rhs.now) }
        ensures counts { IsTrue result → run.old.global.num_operations ≤ run.new.global.num_operations }
        ensures names { IsTrue result → KeepsNames run.old run.new }
        ensures runs { (restoring : _) → Runs (under H.name_of self.now T.natives)
            (OpenStmt (layer.Assignment op.now lhs.now rhs.now) restoring)
            (state_in (T.state table.old) run.old)
            (came result run.new.value run.new.error) (state_in (T.state table.new) run.new) }
    {
        let at_once = assign_at_once(
            &self.session,
            &mut run.global,
            &*table,
            &mut run.scope,
            &mut run.value,
            &mut run.error,
            &Assignment {
                op,
                left: lhs,
                right: rhs,
            },
        );
        if let Some(done) = at_once {
            return done;
        }
        self.assign_evaluated(run, table, *op, lhs, rhs)
    }

    /// Runs an assignment whose value is evaluated: `this` has to be bound before. How it ended stands in the
    /// run.
    #[inline(never)]
    #[cycle(eval)]
    fn assign_evaluated<T: NativeTable<H>>(
        &self,
        run: &mut Context<H>,
        table: &mut T,
        op: OpAssignment,
        lhs: &Expr,
        rhs: &Expr,
    ) -> bool
        requires resolves_target { SuitsNames run.old (target_resolves (tests_of lhs.now)) }
        requires resolves { SuitsNames run.old (resolves_expr rhs.now) }
        ensures counts { IsTrue result → run.old.global.num_operations ≤ run.new.global.num_operations }
        ensures names { IsTrue result → KeepsNames run.old run.new }
        ensures runs { (restoring : _) → Runs (under H.name_of self.now T.natives)
            (OpenStmt (layer.Assignment op lhs.now rhs.now) restoring) (state_in (T.state table.old) run.old)
            (came result run.new.value run.new.error) (state_in (T.state table.new) run.new) }
    {
        match lhs {
            Expr::Variable {
                offset,
                name,
                namespace,
                pos,
            } => {
                if !self.run_expr(run, table, rhs) {
                    return false;
                }
                let (cells, out, place) = (&run.global.cells, &mut run.value, &mut run.error);
                if !flatten_at(self.session.alloc, cells, out, place, rhs) {
                    return false;
                }
                assign_from_run(
                    &self.session,
                    &mut run.global,
                    table,
                    &mut run.scope,
                    &mut run.value,
                    &mut run.error,
                    &Variable {
                        offset: *offset,
                        name,
                        namespace,
                        at: *pos,
                    },
                    op,
                )
            }
            Expr::ThisPtr(pos) => {
                if run.this.is_none() {
                    return stop(&mut run.error, EvalAltResult::ErrorUnboundThis(*pos));
                }
                if !self.run_expr(run, table, rhs) {
                    return false;
                }
                let (cells, out, place) = (&run.global.cells, &mut run.value, &mut run.error);
                if !flatten_at(self.session.alloc, cells, out, place, rhs) {
                    return false;
                }
                assign_this_from_run(
                    &self.session,
                    &mut run.global,
                    table,
                    &mut run.this,
                    &mut run.value,
                    &mut run.error,
                    *pos,
                    op,
                )
            }
            _ => self.assign_chain(run, table, op, lhs, rhs),
        }
    }

    /// Declares a new variable, or overwrites another one. How it ended stands in the run.
    #[inline(never)]
    #[cycle(eval)]
    fn run_var<T: NativeTable<H>>(
        &self,
        run: &mut Context<H>,
        table: &mut T,
        declaration: &Declaration<'_>,
        value: &Expr,
    ) -> bool
        requires resolves { SuitsNames run.old
            (var_resolves declaration.now.index declaration.now.ident.now (tests_of value.now) declaration.now.options declaration.now.at) }
        ensures counts { IsTrue result → run.old.global.num_operations ≤ run.new.global.num_operations }
        ensures names { IsTrue result → ChangesNames run.old (naming (var_names declaration.now.index declaration.now.ident.now.name)) run.new }
        ensures declared { IsTrue result → names run.new ≡ var_names declaration.now.index declaration.now.ident.now.name (names run.old) }
        ensures runs { Runs (under H.name_of self.now T.natives)
            (OpenStmt (layer.Var declaration.now.ident.now value.now declaration.now.index declaration.now.options declaration.now.at) declaration.now.restoring)
            (state_in (T.state table.old) run.old) (came result run.new.value run.new.error)
            (state_in (T.state table.new) run.new) }
    {
        if !is_declarable(
            &self.session.limits,
            self.session.allow_shadowing,
            &run.scope,
            &mut run.error,
            &declaration.ident.name,
            declaration.index,
            declaration.at,
        ) {
            return false;
        }
        if !self.run_expr(run, table, value) {
            return false;
        }
        if !flatten_at(
            self.session.alloc,
            &run.global.cells,
            &mut run.value,
            &mut run.error,
            value,
        ) {
            return false;
        }
        declare(
            self.session.alloc,
            &mut run.global,
            &mut run.scope,
            &mut run.value,
            &mut run.error,
            declaration,
        )
    }

    /// Runs an `import`: a module is imported under what its path gives. How it ended stands in the run.
    #[inline(never)]
    #[cycle(eval)]
    fn run_import<T: NativeTable<H>>(
        &self,
        run: &mut Context<H>,
        table: &mut T,
        path: &Expr,
        alias: &Option<Ident>,
        pos: Position,
    ) -> bool
        requires resolves { SuitsNames run.old (resolves_expr path.now) }
        ensures counts { IsTrue result → run.old.global.num_operations ≤ run.new.global.num_operations }
        ensures names { IsTrue result → ChangesNames run.old (with_import (name_asked alias.now)) run.new }
        ensures runs { (restoring : _) → Runs (under H.name_of self.now T.natives)
            (OpenStmt (layer.Import path.now alias.now pos) restoring)
            (state_in (T.state table.old) run.old) (came result run.new.value run.new.error)
            (state_in (T.state table.new) run.new) }
    {
        if !may_import(&self.session.limits, &run.global, &mut run.error, pos) {
            return false;
        }
        if !self.run_expr(run, table, path) {
            return false;
        }
        let (modules, out, place) = (self.session.modules, &mut run.value, &mut run.error);
        import_module(
            self.session.alloc,
            modules,
            &mut run.global,
            out,
            place,
            path,
            alias,
        )
    }

    /// Runs a list of statements. A restoring list takes back on every way out the variables that it added,
    /// the imports and the scope level; an empty one has no effect. How it ended stands in the run.
    #[cycle(eval)]
    pub fn run_stmt_block<T: NativeTable<H>>(
        &self,
        run: &mut Context<H>,
        table: &mut T,
        statements: &[Stmt],
        restoring: bool,
    ) -> bool
        requires resolves { SuitsNames run.old (passes (all_resolve (map resolves_stmt statements.now))) }
        ensures counts { IsTrue result → run.old.global.num_operations ≤ run.new.global.num_operations }
        ensures restores { IsTrue restoring → RestoresNames run.old run.new }
        ensures runs { Runs (under H.name_of self.now T.natives) (Enter statements.now restoring)
            (state_in (T.state table.old) run.old) (came result run.new.value run.new.error)
            (state_in (T.state table.new) run.new) }
        ensures memory { IfErr (came result run.new.value run.new.error) (λ error.
            is_out_of_memory error ≡ true → IsTrue (may_ask statements.now)) }
    {
        if statements.is_empty() {
            put_unit(&mut run.value);
            return true;
        }
        if !restoring {
            let mark = enter_plain_list(&mut run.global);
            let ended = self.run_statements(run, table, statements, restoring);
            leave_plain_list(&mut run.global, mark);
            return ended;
        }
        let Some(saved) = open_list(
            &self.session,
            &mut run.global,
            &*table,
            &mut run.scope,
            statements,
        ) else {
            put_unit(&mut run.value);
            return true;
        };
        let done = self.run_statements(run, table, statements, restoring);
        leave_list(&mut run.global, &mut run.scope, saved);
        done
    }

    /// Runs statements, one after the other. How they ended stands in the run. Asked: there is one.
    #[cycle(eval)]
    fn run_statements<T: NativeTable<H>>(
        &self,
        run: &mut Context<H>,
        table: &mut T,
        statements: &[Stmt],
        restoring: bool,
    ) -> bool
        requires some { 1 ≤ length statements.now }
        requires resolves { SuitsNames run.old (passes (all_resolve (map resolves_stmt statements.now))) }
        ensures counts { IsTrue result → run.old.global.num_operations ≤ run.new.global.num_operations }
        ensures runs { Runs (under H.name_of self.now T.natives) (Run statements.now restoring unit)
            (state_in (T.state table.old) run.old) (came result run.new.value run.new.error)
            (state_in (T.state table.new) run.new) }
        ensures memory { IfErr (came result run.new.value run.new.error) (λ error.
            is_out_of_memory error ≡ true → IsTrue (may_ask statements.now)) }
    {
        'each_stmt: for stmt in statements {
            if !self.run_stmt(run, table, stmt, restoring) {
                return false;
            }
        }
        true
    }
}
