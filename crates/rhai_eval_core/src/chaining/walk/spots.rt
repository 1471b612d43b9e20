//! The walk at what an index or a key leads to: a place, nothing, or a part.

ghost use Rattle.std.specs.Prelude.{◌≡◌, ◌≤◌, length, is_some, None, Some, true, false};
ghost use Rattle.std.specs.Option.{option_copied, option_map};
ghost use Rattle.rhai_tree.specs.declared.expr.Expr.{out-Expr};
ghost use Rattle.rhai_values.specs.Layers.{layer_of};
ghost use Rattle.rhai_spots.specs.Parts.{IsPart};
ghost use Rattle.rhai_machine.specs.language.Chains.{part_core, spot_core};
ghost use Rattle.rhai_machine.specs.language.Links.{link_of as link_in};
ghost use Rattle.rhai_machine.specs.language.Located.{args_behind};
ghost use Rattle.rhai_machine.specs.language.Frames.{ended_or_changed};
ghost use Rattle.rhai_context.specs.Ends.{came_changed};
ghost use Rattle.rhai_eval_core.specs.States.{under};
ghost use Rattle.rhai_steps.specs.Agreement.{KeepsSight};
ghost use Rattle.rhai_steps.specs.States.{state_of};
ghost use Rattle.rhai_steps.specs.OnFocus.{lending};
ghost use Rattle.rhai_steps.specs.Follows.{Follows};
ghost use Rattle.rhai_links.specs.Chains.{BehindWalks, chain_at, form_seen};
ghost use Rattle.rhai_links.specs.Chains.{link_seen, new_of, Walks};

use crate::evaluator::Evaluator;
use rhai_chains::calls::{asked_by, put_back, read_part_for};
use rhai_chains::ends::end_at;
use rhai_chains::temporaries::{access_back, come_back};
use rhai_context::Context;
use rhai_errors::table::NativeTable;
use rhai_links::chain::NewValue;
use rhai_links::links::Link;
use rhai_links::walker::Walker;
use rhai_links::ways::{Descent, find_down, method_in};
use rhai_places::place::place_mut;
use rhai_spots::spot::Spot;
use rhai_steps::values::unit_value;
use rhai_tree::expr::Expr;
use rhai_values::base::value::{Dynamic, Host};

impl<'e, H: Host> Evaluator<'e, H> {
    /// Walks on what an index or a key leads to: the chain ends in it, or goes on there. A place is lent to
    /// it. For a key that is missing it goes on on a temporary `()`, and where an index led there, the
    /// indexer sets what has become of that.
    #[cycle(eval)]
    pub(crate) fn walk_spot<T: NativeTable<H>>(
        &self,
        run: &mut Context<H>,
        table: &mut T,
        root: &Expr,
        source: &mut Dynamic<H>,
        index: &Dynamic<H>,
        link: Link<'_>,
        args: &mut [Dynamic<H>],
        new: Option<NewValue<H>>,
        in_place: bool,
    ) -> Option<bool>
        requires walks { BehindWalks (is_some new) (form_seen link.form)
            (option_map out-Expr (option_copied link.behind)) (length args.old) }
        ensures counts { run.old.global.num_operations ≤ run.new.global.num_operations }
        ensures sight { KeepsSight run.old.global run.new.global }
        ensures scope { run.new.scope ≡ run.old.scope }
        ensures this { run.new.this ≡ run.old.this }
        ensures runs { (scope : _) (held : _) (rest : _) (all : _) →
            args_behind (form_seen link.entry.form) all ≡ args.old →
            let rules = under H.name_of self.now T.natives in
            Follows rules ended_or_changed
            (spot_core rules.setting (option_map out-Expr (option_copied link.entry.behind)) (new_of new) (link_seen link.entry) index.now (chain_at root.now rest all new in_place) source.old)
            (state_of (T.state table.old) run.old.global scope (lending held source.old))
            (came_changed result run.new.value run.new.error)
            (state_of (T.state table.new) run.new.global scope (lending held source.new)) }
    {
        let walker = Walker::new(&self.session, &*root);
        let Some(rest) = link.behind else {
            let (global, out, place) = (&mut run.global, &mut run.value, &mut run.error);
            return end_at(&walker, global, out, place, table, source, index, link, new);
        };
        let (cells, place) = (&run.global.cells, &mut run.error);
        match find_down(&self.session, cells, place, source, index, link) {
            Some(Descent::Place(at)) => {
                let place = place_mut(&mut source.value, at);
                self.walk_chain(run, table, root, place, rest, args, new, true)
            }
            Some(Descent::Missing) => {
                let Some(back) = access_back(
                    self.session.alloc,
                    &mut run.error,
                    link,
                    index,
                    in_place,
                ) else {
                    drop(new);
                    return None;
                };
                let mut temporary = unit_value();
                let mark = self.walk_chain(
                    run,
                    table,
                    root,
                    &mut temporary,
                    rest,
                    args,
                    new,
                    false,
                );
                let (global, out, place) = (&mut run.global, &run.value, &mut run.error);
                come_back(
                    &walker, global, out, place, table, source, back, temporary, mark,
                )
            }
            Some(Descent::Part(at)) => self.walk_part(
                run, table, root, source, at, rest, args, new,
            ),
            None => {
                drop(new);
                None
            }
        }
    }

    /// Goes on with the chain on a part of a value. A method may change it, and it goes back then; any other
    /// link works on a temporary.
    #[cycle(eval)]
    fn walk_part<T: NativeTable<H>>(
        &self,
        run: &mut Context<H>,
        table: &mut T,
        root: &Expr,
        source: &mut Dynamic<H>,
        at: Spot,
        rest: &Expr,
        args: &mut [Dynamic<H>],
        new: Option<NewValue<H>>,
    ) -> Option<bool>
        requires part { IsPart (layer_of source.old) at }
        requires walks { Walks (is_some new) (out-Expr rest.now) (length args.old) }
        ensures counts { run.old.global.num_operations ≤ run.new.global.num_operations }
        ensures sight { KeepsSight run.old.global run.new.global }
        ensures scope { run.new.scope ≡ run.old.scope }
        ensures this { run.new.this ≡ run.old.this }
        ensures runs { (scope : _) (held : _) →
            let rules = under H.name_of self.now T.natives in
            Follows rules ended_or_changed
            (part_core rules.setting (link_in (out-Expr rest.now)) at (chain_at root.now (out-Expr rest.now) args.old new false) source.old)
            (state_of (T.state table.old) run.old.global scope (lending held source.old))
            (came_changed result run.new.value run.new.error)
            (state_of (T.state table.new) run.new.global scope (lending held source.new)) }
    {
        let Some(part) = read_part_for(self.session.alloc, &mut run.error, source, at, rest) else {
            drop(new);
            return None;
        };
        let mut part = part;
        match method_in(rest) {
            Some(method) => {
                let (name, first, count) = asked_by(method.call);
                let (given, behind) = args.split_at_mut(count);
                let answer = self.run_method(
                    run, table, name, &mut part, given, first, method.at, false,
                );
                let (out, place) = (&run.value, &mut run.error);
                let mark = put_back(
                    self.session.alloc,
                    out,
                    place,
                    source,
                    at,
                    &part,
                    answer,
                    method.at,
                );
                drop(part);
                self.walk_behind(run, table, root, mark, method.link, behind, new)
            }
            None => {
                let result = self.walk_chain(run, table, root, &mut part, rest, args, new, false);
                drop(part);
                result
            }
        }
    }
}
