//! The walk of a chain from its root: a variable, `this` or a value. Ports what upstream's
//! `eval_dot_index_chain` does with the root; the contracts speak of the machine's runs.

ghost use Rattle.std.specs.Prelude.{◌≡◌, ◌≤◌, None, false, is_some, length};
ghost use Rattle.rhai_tree.specs.declared.expr.Expr.{out-Expr};
ghost use Rattle.rhai_machine.specs.language.Chains.{this_root_core};
ghost use Rattle.rhai_machine.specs.language.Frames.{Back, ReadRoot, RootValue, core, ended, core_over};
ghost use Rattle.rhai_machine.specs.language.Runs.{Runs, Goes};
ghost use Rattle.rhai_steps.specs.Agreement.{KeepsSight};
ghost use Rattle.rhai_steps.specs.States.{state_of};
ghost use Rattle.rhai_names.specs.Variables.{offset_is_good, variable_told};
ghost use Rattle.rhai_links.specs.Chains.{chain_at, Walks};
ghost use Rattle.rhai_eval_steps.specs.Agreement.{KeepsNames, SuitsNames};
ghost use Rattle.rhai_context.specs.Ends.{came};
ghost use Rattle.rhai_eval_core.specs.States.{under};

use crate::evaluator::Evaluator;
use rhai_chains::roots::{
    give_this, give_variable, leave_temporary, lend_this, lend_variable, take_flat,
};
use rhai_context::Context;
use rhai_errors::table::NativeTable;
use rhai_links::chain::NewValue;
use rhai_names::variables::Variable;
use rhai_tree::expr::Expr;
use rhai_tree::position::Position;
use rhai_values::base::value::{Dynamic, Host};

impl<'e, H: Host> Evaluator<'e, H> {
    /// Walks a chain from a variable, which is charged already, its arguments there. The value of an entry is
    /// taken out, walked on, and put back on every way out; on what is no entry the walk begins as on a
    /// temporary. Asked: the offset leads to the newest variable of the name.
    ///
    /// # Errors
    /// Those of `lend_variable` and of `walk_chain`.
    #[cycle(eval)]
    pub(crate) fn walk_variable<T: NativeTable<H>>(
        &self,
        run: &mut Context<H>,
        table: &mut T,
        variable: &Variable<'_>,
        root: &Expr,
        rest: &Expr,
        args: &mut [Dynamic<H>],
        new: Option<NewValue<H>>,
    ) -> bool
        requires good { SuitsNames run.old (offset_is_good variable.now) }
        requires walks { Walks (is_some new) (out-Expr rest.now) (length args.old) }
        ensures counts { run.old.global.num_operations ≤ run.new.global.num_operations }
        ensures names { KeepsNames run.old run.new }
        ensures this { run.new.this ≡ run.old.this }
        ensures runs { (held : _) (in_place : _) → Runs (under H.name_of self.now T.natives)
            (ReadRoot (variable_told variable.now)
            (chain_at root.now (out-Expr rest.now) args.old new in_place))
            (state_of (T.state table.old) run.old.global run.old.scope held)
            (came result run.new.value run.new.error)
            (state_of (T.state table.new) run.new.global run.new.scope held) }
    {
        let (global, scope, place) = (&run.global, &mut run.scope, &mut run.error);
        let lent = lend_variable(&self.session, global, scope, place, variable);
        let Some((index, value)) = lent else {
            drop(new);
            return false;
        };
        let mut focus = value;
        let in_place = index.is_some();
        let mark = self.walk_chain(run, table, root, &mut focus, rest, args, new, in_place);
        give_variable(&mut run.scope, index, focus, mark)
    }

    /// Walks a chain from `this`, which is charged already, its arguments there. Its value is taken out,
    /// walked on, and put back on every way out.
    ///
    /// # Errors
    /// At `this`: `ErrorUnboundThis`, and `ErrorDataRace` where it is the handle of a cell that is held. All
    /// others are those of `walk_chain`.
    #[cycle(eval)]
    pub(crate) fn walk_this<T: NativeTable<H>>(
        &self,
        run: &mut Context<H>,
        table: &mut T,
        pos: Position,
        root: &Expr,
        rest: &Expr,
        args: &mut [Dynamic<H>],
        new: Option<NewValue<H>>,
    ) -> bool
        requires walks { Walks (is_some new) (out-Expr rest.now) (length args.old) }
        ensures counts { run.old.global.num_operations ≤ run.new.global.num_operations }
        ensures sight { KeepsSight run.old.global run.new.global }
        ensures scope { run.new.scope ≡ run.old.scope }
        ensures runs { (scope : _) (focus : _) (in_place : _) →
            Goes (under H.name_of self.now T.natives)
            (this_root_core pos (chain_at root.now (out-Expr rest.now) args.old new in_place))
            (state_of (T.state table.old) run.old.global scope (record { this = run.old.this; focus = focus }))
            (core (ended (came result run.new.value run.new.error)))
            (state_of (T.state table.new) run.new.global scope (record { this = run.new.this; focus = focus })) }
    {
        let (cells, this) = (&run.global.cells, &mut run.this);
        let Some(value) = lend_this(self.session.alloc, cells, this, &mut run.error, pos) else {
            drop(new);
            return false;
        };
        let mut focus = value;
        let mark = self.walk_chain(run, table, root, &mut focus, rest, args, new, true);
        give_this(&mut run.this, focus, mark)
    }

    /// Walks a chain from the run's value, which is no variable's, its arguments there. The walk begins on
    /// that as a temporary, of a handle on a copy of the cell's value. What it leaves there is let go.
    ///
    /// # Errors
    /// `ErrorDataRace` at the root for the handle of a cell that is held. All others are those of
    /// `walk_chain`.
    #[cycle(eval)]
    pub(crate) fn walk_value<T: NativeTable<H>>(
        &self,
        run: &mut Context<H>,
        table: &mut T,
        root: &Expr,
        rest: &Expr,
        args: &mut [Dynamic<H>],
    ) -> bool
        requires walks { Walks false (out-Expr rest.now) (length args.old) }
        ensures counts { run.old.global.num_operations ≤ run.new.global.num_operations }
        ensures sight { KeepsSight run.old.global run.new.global }
        ensures scope { run.new.scope ≡ run.old.scope }
        ensures this { run.new.this ≡ run.old.this }
        ensures runs { (scope : _) (held : _) (in_place : _) →
            Goes (under H.name_of self.now T.natives)
            (core_over (Back run.old.value) (RootValue (chain_at root.now (out-Expr rest.now) args.old None in_place)))
            (state_of (T.state table.old) run.old.global scope held)
            (core (ended (came result run.new.value run.new.error)))
            (state_of (T.state table.new) run.new.global scope held) }
    {
        let (cells, out) = (&run.global.cells, &mut run.value);
        let Some(value) = take_flat(self.session.alloc, cells, out, &mut run.error, root) else {
            return false;
        };
        let mut focus = value;
        let mark = self.walk_chain(run, table, root, &mut focus, rest, args, None, false);
        leave_temporary(focus, mark)
    }
}
