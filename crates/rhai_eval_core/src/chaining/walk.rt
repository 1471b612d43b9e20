//! The walk of a chain from link to link. Each part runs as the machine does from where that stands, whatever
//! the caller's variables and `this` are: the walk's root is taken out of its place, and nothing that a link
//! does sees them.

ghost use Rattle.std.specs.Prelude.{◌≡◌, ◌≤◌, length, is_some};
ghost use Rattle.rhai_tree.specs.declared.expr.Expr.{out-Expr};
ghost use Rattle.rhai_machine.specs.language.Runs.{Steps};
ghost use Rattle.rhai_machine.specs.language.Frames.{ended_or_changed, Walk};
ghost use Rattle.rhai_steps.specs.Agreement.{KeepsSight};
ghost use Rattle.rhai_steps.specs.States.{state_of};
ghost use Rattle.rhai_steps.specs.OnFocus.{lending};
ghost use Rattle.rhai_links.specs.Chains.{chain_at, Walks};
ghost use Rattle.rhai_context.specs.Ends.{came_changed};
ghost use Rattle.rhai_eval_core.specs.States.{under};

mod located;
mod members;
mod methods;
mod spots;

use crate::evaluator::Evaluator;
use rhai_context::Context;
use rhai_context::ends::settle_changed;
use rhai_errors::table::NativeTable;
use rhai_links::chain::NewValue;
use rhai_links::links::link_of;
use rhai_links::ways::{Begun, begin_link};
use rhai_tree::expr::Expr;
use rhai_values::base::value::{Dynamic, Host};

impl<'e, H: Host> Evaluator<'e, H> {
    /// Walks what is left of a chain. What it came to stands in the run.
    #[cycle(eval)]
    pub(crate) fn walk_chain<T: NativeTable<H>>(
        &self,
        run: &mut Context<H>,
        table: &mut T,
        root: &Expr,
        focus: &mut Dynamic<H>,
        rest: &Expr,
        args: &mut [Dynamic<H>],
        new: Option<NewValue<H>>,
        in_place: bool,
    ) -> Option<bool>
        requires walks { Walks (is_some new) (out-Expr rest.now) (length args.old) }
        ensures counts { run.old.global.num_operations ≤ run.new.global.num_operations }
        ensures sight { KeepsSight run.old.global run.new.global }
        ensures scope { run.new.scope ≡ run.old.scope }
        ensures this { run.new.this ≡ run.old.this }
        ensures runs { (scope : _) (held : _) →
            Steps (under H.name_of self.now T.natives)
            (Walk (chain_at root.now (out-Expr rest.now) args.old new in_place))
            (state_of (T.state table.old) run.old.global scope (lending held focus.old))
            (ended_or_changed (came_changed result run.new.value run.new.error))
            (state_of (T.state table.new) run.new.global scope (lending held focus.new)) }
    {
        let Some(link) = link_of(rest) else {
            unreachable!()
        };
        match begin_link(&self.session, &mut run.global, &*table, focus, link) {
            Begun::Ended(result) => {
                drop(new);
                settle_changed(&mut run.error, &mut run.value, result)
            }
            Begun::Enters => self.walk_entered(run, table, root, focus, link, args, new, in_place),
        }
    }
}
