//! The walk at a link, once its focus is entered.

ghost use Rattle.std.specs.Prelude.{◌≡◌, ◌≤◌, length, is_some};
ghost use Rattle.rhai_values.specs.Cells.{cells_of};
ghost use Rattle.rhai_machine.specs.language.Frames.{ended_or_changed};
ghost use Rattle.rhai_context.specs.Ends.{came_changed};
ghost use Rattle.rhai_eval_core.specs.States.{under};
ghost use Rattle.rhai_steps.specs.Agreement.{KeepsSight};
ghost use Rattle.rhai_steps.specs.States.{state_of};
ghost use Rattle.rhai_steps.specs.OnFocus.{lending};
ghost use Rattle.rhai_steps.specs.Follows.{Follows};
ghost use Rattle.rhai_links.specs.Chains.{chain_at};
ghost use Rattle.rhai_links.specs.Chains.{link_seen};
ghost use Rattle.rhai_links.specs.Walking.{entered_core, IsFree};
ghost use Rattle.rhai_links.specs.Walking.{LinkWalks};

use crate::evaluator::Evaluator;
use rhai_chains::calls::asked_by;
use rhai_context::Context;
use rhai_errors::table::NativeTable;
use rhai_links::access::{Member, MemberAccess};
use rhai_links::chain::NewValue;
use rhai_links::links::{Link, LinkForm};
use rhai_links::ways::{is_indexed, is_map, item_access, key_for, step_in, step_out, was_handle};
use rhai_tree::expr::Expr;
use rhai_values::base::value::{Dynamic, Host};

impl<'e, H: Host> Evaluator<'e, H> {
    /// Works on the focus by an index, a property or a method. An index or a property leads to what stands in
    /// the focus, or else to a member by natives; a method is called, and then comes what is behind it. Of a
    /// handle it is the cell's value that is worked on: it is taken from there and goes back whatever comes
    /// of it, once the chain is left.
    #[cycle(eval)]
    pub(crate) fn walk_entered<T: NativeTable<H>>(
        &self,
        run: &mut Context<H>,
        table: &mut T,
        root: &Expr,
        focus: &mut Dynamic<H>,
        link: Link<'_>,
        args: &mut [Dynamic<H>],
        new: Option<NewValue<H>>,
        in_place: bool,
    ) -> Option<bool>
        requires free { IsFree (cells_of run.old.global.cells) focus.old.value }
        requires walks { LinkWalks (is_some new) (link_seen link) (length args.old) }
        ensures counts { run.old.global.num_operations ≤ run.new.global.num_operations }
        ensures sight { KeepsSight run.old.global run.new.global }
        ensures scope { run.new.scope ≡ run.old.scope }
        ensures this { run.new.this ≡ run.old.this }
        ensures runs { (scope : _) (held : _) (rest : _) →
            let rules = under H.name_of self.now T.natives in
            Follows rules ended_or_changed
            (entered_core rules.setting (link_seen link.entry) (chain_at root.now rest args.old new in_place))
            (state_of (T.state table.old) run.old.global scope (lending held focus.old))
            (came_changed result run.new.value run.new.error)
            (state_of (T.state table.new) run.new.global scope (lending held focus.new)) }
    {
        let above = step_in(&mut run.global.cells, focus);
        match link.form {
            LinkForm::Index(_) => {
                let [index, behind @ ..] = args else {
                    unreachable!()
                };
                if is_indexed(focus) {
                    let result = self.walk_spot(
                        run, table, root, focus, index, link, behind, new, in_place,
                    );
                    step_out(&mut run.global.cells, focus, above);
                    result
                } else {
                    let access = item_access(index, link.at, in_place);
                    let result = self.walk_member(
                        run, table, root, focus, access, link, behind, new,
                    );
                    step_out(&mut run.global.cells, focus, above);
                    result
                }
            }
            LinkForm::Property(name, pos) => {
                if is_map(focus) {
                    let Some(key) = key_for(&mut run.error, name, pos) else {
                        drop(new);
                        step_out(&mut run.global.cells, focus, above);
                        return None;
                    };
                    let result = self.walk_spot(
                        run, table, root, focus, &key, link, args, new, in_place,
                    );
                    drop(key);
                    step_out(&mut run.global.cells, focus, above);
                    result
                } else {
                    let access = MemberAccess {
                        member: Member::Property(name, pos),
                        at: link.at,
                        guarded: in_place,
                    };
                    let result = self.walk_member(run, table, root, focus, access, link, args, new);
                    step_out(&mut run.global.cells, focus, above);
                    result
                }
            }
            LinkForm::Method(call, pos) => {
                let on_handle = was_handle(&above);
                let (name, first, count) = asked_by(call);
                let (given, behind) = args.split_at_mut(count);
                let mark = self.run_method(run, table, name, focus, given, first, pos, on_handle);
                let result = self.walk_behind(run, table, root, mark, link, behind, new);
                step_out(&mut run.global.cells, focus, above);
                result
            }
        }
    }
}
