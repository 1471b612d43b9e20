//! The walk at a method: what it is asked for, and how the chain goes on from its value.

ghost use Rattle.std.specs.Prelude.{◌≡◌, ◌≤◌, length, is_some, Some, false};
ghost use Rattle.std.specs.Option.{option_copied, option_map};
ghost use Rattle.rhai_tree.specs.declared.expr.Expr.{out-Expr};
ghost use Rattle.rhai_machine.specs.language.Frames.{core, ended_or_changed};
ghost use Rattle.rhai_machine.specs.language.Runs.{Goes};
ghost use Rattle.rhai_context.specs.Ends.{came_changed};
ghost use Rattle.rhai_eval_core.specs.States.{under};
ghost use Rattle.rhai_steps.specs.Agreement.{KeepsSight};
ghost use Rattle.rhai_steps.specs.States.{state_of};
ghost use Rattle.rhai_links.specs.Chains.{BehindWalks, chain_at, form_seen};
ghost use Rattle.rhai_links.specs.Walking.{behind_value};

use crate::evaluator::Evaluator;
use rhai_context::Context;
use rhai_context::ends::take_value;
use rhai_errors::table::NativeTable;
use rhai_links::chain::NewValue;
use rhai_links::links::Link;
use rhai_tree::expr::Expr;
use rhai_values::base::value::{Dynamic, Host};

impl<'e, H: Host> Evaluator<'e, H> {
    /// Goes on behind a method from its value, a temporary that has no way back. Where nothing is behind it,
    /// that value is the answer.
    #[cycle(eval)]
    pub(crate) fn walk_behind<T: NativeTable<H>>(
        &self,
        run: &mut Context<H>,
        table: &mut T,
        root: &Expr,
        mark: Option<bool>,
        link: Link<'_>,
        args: &mut [Dynamic<H>],
        new: Option<NewValue<H>>,
    ) -> Option<bool>
        requires walks { BehindWalks (is_some new) (form_seen link.form)
            (option_map out-Expr (option_copied link.behind)) (length args.old) }
        ensures counts { run.old.global.num_operations ≤ run.new.global.num_operations }
        ensures sight { KeepsSight run.old.global run.new.global }
        ensures scope { run.new.scope ≡ run.old.scope }
        ensures this { run.new.this ≡ run.old.this }
        ensures runs { (scope : _) (held : _) (rest : _) →
            Goes (under H.name_of self.now T.natives)
            (λ k l. core (ended_or_changed (came_changed mark run.old.value run.old.error)) (behind_value (option_map out-Expr (option_copied link.entry.behind)) (chain_at root.now rest args.old new false) k) l)
            (state_of (T.state table.old) run.old.global scope held)
            (core (ended_or_changed (came_changed result run.new.value run.new.error)))
            (state_of (T.state table.new) run.new.global scope held) }
    {
        let Some(rest) = link.behind else {
            drop(new);
            return mark;
        };
        match mark {
            Some(_) => {
                let mut focus = take_value(&mut run.value);
                let result = self.walk_chain(run, table, root, &mut focus, rest, args, new, false);
                drop(focus);
                result
            }
            None => {
                drop(new);
                mark
            }
        }
    }
}
