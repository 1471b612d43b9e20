//! Chains: what their links ask for, their roots, and assignments to what they lead to. Ports upstream's
//! `eval_dot_index_chain`, up to the walk; the contracts speak of the machine's runs and of
//! specs/Chains.antt.

ghost use Rattle.std.specs.Prelude.{◌≡◌, ◌≤◌, IsTrue, None, true, false, is_some, length};
ghost use Rattle.rhai_tree.specs.declared.expr.Expr.{out-Expr};
ghost use Rattle.rhai_tree.specs.declared.expr.Expr.TheOpen as layer;
ghost use Rattle.rhai_tree.specs.Frame.{resolves_expr, target_resolves, tests_of};
ghost use Rattle.rhai_machine.specs.language.Frames.{ChainRoot, OpenChain, OpenStmt, chain_on, ChainArguments};
ghost use Rattle.rhai_machine.specs.language.Links.{first_in};
ghost use Rattle.rhai_machine.specs.language.Runs.{Runs, Steps};
ghost use Rattle.rhai_links.specs.Chains.{Walks, chain_at, new_of};
ghost use Rattle.rhai_context.specs.Ends.{came};
ghost use Rattle.rhai_eval_steps.specs.Agreement.{KeepsNames, SuitsNames};
ghost use Rattle.rhai_eval_steps.specs.Chains.{gathered, HasAsked, MayWalk, StartsFrom, AsksFirst};
ghost use Rattle.rhai_eval_steps.specs.Chains.{behind_resolves};
ghost use Rattle.rhai_eval_steps.specs.States.{state_in};
ghost use Rattle.rhai_eval_core.specs.States.{under};

mod roots;
mod walk;

use crate::evaluator::Evaluator;
use rhai_chains::roots::take_flat;
use rhai_context::Context;
use rhai_context::ends::put_unit;
use rhai_context::outcomes::charge;
use rhai_errors::table::NativeTable;
use rhai_few::Few;
use rhai_links::arguments::asked;
use rhai_links::chain::NewValue;
use rhai_links::given::take_ready_args;
use rhai_links::links::{first_of, link_of};
use rhai_names::variables::Variable;
use rhai_tree::expr::{Expr, OpAssignment};
use rhai_values::base::value::{Dynamic, Host};

impl<'e, H: Host> Evaluator<'e, H> {
    /// Evaluates a chain that is read or assigned to. What all its links ask for comes first, then its root,
    /// and then the walk. One link alone that asks for nothing, or for a literal, needs no step for what it
    /// asks for. How it ended stands in the run.
    #[cycle(eval)]
    pub fn run_chain<T: NativeTable<H>>(
        &self,
        run: &mut Context<H>,
        table: &mut T,
        root: &Expr,
        chain: &Expr,
        new: Option<NewValue<H>>,
    ) -> bool
        requires root { SuitsNames run.old (resolves_expr root.now) }
        requires behind { SuitsNames run.old (behind_resolves (out-Expr chain.now)) }
        requires walks { MayWalk (is_some new) (out-Expr chain.now) }
        requires starts { StartsFrom (is_some new) (out-Expr root.now) }
        ensures counts { IsTrue result → run.old.global.num_operations ≤ run.new.global.num_operations }
        ensures names { IsTrue result → KeepsNames run.old run.new }
        ensures runs { Runs (under H.name_of self.now T.natives)
            (OpenChain (chain_on root.now (out-Expr chain.now) (new_of new)))
            (state_in (T.state table.old) run.old)
            (came result run.new.value run.new.error) (state_in (T.state table.new) run.new) }
        ensures asks { IsTrue result → AsksFirst (under H.name_of self.now T.natives)
            (chain_on root.now (out-Expr chain.now) (new_of new))
            (state_in (T.state table.old) run.old) }
    {
        let mut values = Few::new(self.session.alloc);
        let Some(asks) = take_ready_args(self.session.alloc, &mut values, &mut run.error, chain)
        else {
            drop(new);
            drop(values);
            return false;
        };
        if asks {
            if !self.run_link_args(run, table, &mut values, chain) {
                drop(new);
                drop(values);
                return false;
            }
            let args = values.as_mut_slice();
            let done = self.run_root(run, table, root, chain, args, new);
            drop(values);
            done
        } else {
            let args = values.as_mut_slice();
            let done = self.run_root(run, table, root, chain, args, new);
            drop(values);
            done
        }
    }

    /// Evaluates a chain that is read. How it ended stands in the run.
    #[inline(never)]
    #[cycle(eval)]
    pub(crate) fn read_chain<T: NativeTable<H>>(
        &self,
        run: &mut Context<H>,
        table: &mut T,
        root: &Expr,
        chain: &Expr,
    ) -> bool
        requires root { SuitsNames run.old (resolves_expr root.now) }
        requires behind { SuitsNames run.old (behind_resolves (out-Expr chain.now)) }
        requires walks { MayWalk false (out-Expr chain.now) }
        requires starts { StartsFrom false (out-Expr root.now) }
        ensures counts { IsTrue result → run.old.global.num_operations ≤ run.new.global.num_operations }
        ensures names { IsTrue result → KeepsNames run.old run.new }
        ensures runs { Runs (under H.name_of self.now T.natives)
            (OpenChain (chain_on root.now (out-Expr chain.now) None))
            (state_in (T.state table.old) run.old)
            (came result run.new.value run.new.error) (state_in (T.state table.new) run.new) }
    {
        self.run_chain(run, table, root, chain, None)
    }

    /// Puts the values that the links of a chain ask for behind those that are there. They come from left to
    /// right and flattened. What stands behind each operator is charged first. Tells whether it went well; an
    /// error stands in the run.
    #[cycle(eval)]
    fn run_link_args<T: NativeTable<H>>(
        &self,
        run: &mut Context<H>,
        table: &mut T,
        values: &mut Few<Dynamic<H>>,
        chain: &Expr,
    ) -> bool
        requires { SuitsNames run.old (behind_resolves (out-Expr chain.now)) }
        ensures counts { IsTrue result → run.old.global.num_operations ≤ run.new.global.num_operations }
        ensures names { IsTrue result → KeepsNames run.old run.new }
        ensures asked { HasAsked (came result values.new run.new.error) (length values.old)
            (out-Expr chain.now) }
        ensures gathers { (whole : _) → Steps (under H.name_of self.now T.natives)
            (ChainArguments whole (out-Expr chain.now) values.old) (state_in (T.state table.old) run.old)
            (gathered whole (came result values.new run.new.error)) (state_in (T.state table.new) run.new) }
    {
        let Some(link) = link_of(chain) else {
            unreachable!()
        };
        if !charge(
            &self.session.limits,
            &mut run.global,
            &mut run.error,
            link.rest_at,
        ) {
            return false;
        }
        if !self.run_more_args(run, table, values, asked(link), true) {
            return false;
        }
        match link.behind {
            Some(rest) => self.run_link_args(run, table, values, rest),
            None => true,
        }
    }

    /// Evaluates a chain from its root on, its arguments there. A variable or `this` is charged, and walked
    /// on where it stands; any other root is evaluated, and its value is walked on. How it ended stands in
    /// the run.
    #[cycle(eval)]
    fn run_root<T: NativeTable<H>>(
        &self,
        run: &mut Context<H>,
        table: &mut T,
        root: &Expr,
        chain: &Expr,
        args: &mut [Dynamic<H>],
        new: Option<NewValue<H>>,
    ) -> bool
        requires root { SuitsNames run.old (resolves_expr root.now) }
        requires walks { Walks (is_some new) (out-Expr chain.now) (length args.old) }
        requires starts { StartsFrom (is_some new) (out-Expr root.now) }
        ensures counts { IsTrue result → run.old.global.num_operations ≤ run.new.global.num_operations }
        ensures names { IsTrue result → KeepsNames run.old run.new }
        ensures runs { (in_place : _) → Runs (under H.name_of self.now T.natives)
            (ChainRoot (chain_at root.now (out-Expr chain.now) args.old new in_place))
            (state_in (T.state table.old) run.old)
            (came result run.new.value run.new.error) (state_in (T.state table.new) run.new) }
    {
        match root {
            Expr::Variable {
                offset,
                name,
                namespace,
                pos,
            } => {
                if !charge(&self.session.limits, &mut run.global, &mut run.error, *pos) {
                    drop(new);
                    return false;
                }
                self.walk_variable(
                    run,
                    table,
                    &Variable {
                        offset: *offset,
                        name,
                        namespace,
                        at: *pos,
                    },
                    root,
                    chain,
                    args,
                    new,
                )
            }
            Expr::ThisPtr(pos) => {
                if !charge(&self.session.limits, &mut run.global, &mut run.error, *pos) {
                    drop(new);
                    return false;
                }
                self.walk_this(run, table, *pos, root, chain, args, new)
            }
            _ => {
                drop(new);
                if !self.run_expr(run, table, root) {
                    return false;
                }
                self.walk_value(run, table, root, chain, args)
            }
        }
    }

    /// Assigns to what a chain leads to. The value is evaluated first. How it ended stands in the run.
    #[cycle(eval)]
    pub(crate) fn assign_chain<T: NativeTable<H>>(
        &self,
        run: &mut Context<H>,
        table: &mut T,
        op: OpAssignment,
        lhs: &Expr,
        rhs: &Expr,
    ) -> bool
        requires chain { is_some (first_in (out-Expr lhs.now)) ≡ true }
        requires resolves_target { SuitsNames run.old (target_resolves (tests_of lhs.now)) }
        requires resolves { SuitsNames run.old (resolves_expr rhs.now) }
        ensures counts { IsTrue result → run.old.global.num_operations ≤ run.new.global.num_operations }
        ensures names { IsTrue result → KeepsNames run.old run.new }
        ensures runs { (restoring : _) → Runs (under H.name_of self.now T.natives)
            (OpenStmt (layer.Assignment op lhs.now rhs.now) restoring)
            (state_in (T.state table.old) run.old)
            (came result run.new.value run.new.error) (state_in (T.state table.new) run.new) }
    {
        let Some(root) = first_of(lhs) else {
            unreachable!()
        };
        if !self.run_expr(run, table, rhs) {
            return false;
        }
        let (cells, out) = (&run.global.cells, &mut run.value);
        let Some(value) = take_flat(self.session.alloc, cells, out, &mut run.error, rhs) else {
            return false;
        };
        let new = Some(NewValue { op, value });
        if !self.run_chain(run, table, root, lhs, new) {
            return false;
        }
        put_unit(&mut run.value);
        true
    }
}
