//! The walk at a member that natives get and set.

ghost use Rattle.std.specs.Prelude.{◌≡◌, ◌≤◌, length, is_some};
ghost use Rattle.std.specs.Option.{option_copied, option_map};
ghost use Rattle.rhai_tree.specs.declared.expr.Expr.{out-Expr};
ghost use Rattle.rhai_machine.specs.language.Chains.{member_core};
ghost use Rattle.rhai_machine.specs.language.Located.{args_behind};
ghost use Rattle.rhai_machine.specs.language.Frames.{ended_or_changed};
ghost use Rattle.rhai_context.specs.Ends.{came_changed};
ghost use Rattle.rhai_eval_core.specs.States.{under};
ghost use Rattle.rhai_steps.specs.Agreement.{KeepsSight};
ghost use Rattle.rhai_steps.specs.States.{state_of};
ghost use Rattle.rhai_steps.specs.OnFocus.{lending};
ghost use Rattle.rhai_steps.specs.Follows.{Follows};
ghost use Rattle.rhai_links.specs.Chains.{BehindWalks, chain_at, form_seen};
ghost use Rattle.rhai_links.specs.Chains.{link_seen, new_of};
ghost use Rattle.rhai_links.specs.Access.{access_of};

use crate::evaluator::Evaluator;
use rhai_chains::ends::end_member;
use rhai_chains::temporaries::{come_back, get_kept, is_property};
use rhai_context::Context;
use rhai_errors::table::NativeTable;
use rhai_links::access::MemberAccess;
use rhai_links::chain::NewValue;
use rhai_links::links::Link;
use rhai_links::walker::Walker;
use rhai_tree::expr::Expr;
use rhai_values::base::value::{Dynamic, Host};

impl<'e, H: Host> Evaluator<'e, H> {
    /// Walks on a member of the focus: the chain ends in it, or goes on from its value. Where that may have
    /// been changed, it is set again.
    #[cycle(eval)]
    pub(crate) fn walk_member<T: NativeTable<H>>(
        &self,
        run: &mut Context<H>,
        table: &mut T,
        root: &Expr,
        source: &mut Dynamic<H>,
        access: MemberAccess<'_, H>,
        link: Link<'_>,
        args: &mut [Dynamic<H>],
        new: Option<NewValue<H>>,
    ) -> Option<bool>
        requires walks { BehindWalks (is_some new) (form_seen link.form)
            (option_map out-Expr (option_copied link.behind)) (length args.old) }
        ensures counts { run.old.global.num_operations ≤ run.new.global.num_operations }
        ensures sight { KeepsSight run.old.global run.new.global }
        ensures scope { run.new.scope ≡ run.old.scope }
        ensures this { run.new.this ≡ run.old.this }
        ensures runs { (scope : _) (held : _) (rest : _) (all : _) (in_place : _) →
            args_behind (form_seen link.entry.form) all ≡ args.old →
            let rules = under H.name_of self.now T.natives in
            Follows rules ended_or_changed
            (member_core rules.setting (option_map out-Expr (option_copied link.entry.behind)) (new_of new) (link_seen link.entry) (access_of access.entry) (chain_at root.now rest all new in_place))
            (state_of (T.state table.old) run.old.global scope (lending held source.old))
            (came_changed result run.new.value run.new.error)
            (state_of (T.state table.new) run.new.global scope (lending held source.new)) }
    {
        let walker = Walker::new(&self.session, &*root);
        let Some(rest) = link.behind else {
            let (global, out, place) = (&mut run.global, &mut run.value, &mut run.error);
            return end_member(&walker, global, out, place, table, source, access, new);
        };
        let in_place = is_property(&access);
        let (global, place) = (&mut run.global, &mut run.error);
        match get_kept(&walker, global, place, table, source, access) {
            Some((value, back)) => {
                let mut value = value;
                let mark = self.walk_chain(run, table, root, &mut value, rest, args, new, in_place);
                let (global, out, place) = (&mut run.global, &run.value, &mut run.error);
                let back = Some(back);
                come_back(
                    &walker, global, out, place, table, source, back, value, mark,
                )
            }
            None => {
                drop(new);
                None
            }
        }
    }
}
