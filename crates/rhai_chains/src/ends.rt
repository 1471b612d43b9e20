//! The end of a walk: what an index, a key or a member gives, or an assignment to it.

ghost use Rattle.std.specs.Prelude.{◌≤◌, None};
ghost use Rattle.rhai_machine.specs.language.Chains.{member_core, spot_core};
ghost use Rattle.rhai_machine.specs.language.Runs.{Goes};
ghost use Rattle.rhai_machine.specs.language.Frames.{core, ended_or_changed};
ghost use Rattle.rhai_steps.specs.Agreement.{KeepsSight};
ghost use Rattle.rhai_steps.specs.Sessions.{under};
ghost use Rattle.rhai_steps.specs.States.{state_of};
ghost use Rattle.rhai_steps.specs.OnFocus.{lending};
ghost use Rattle.rhai_steps.specs.Follows.{Follows};
ghost use Rattle.rhai_links.specs.Chains.{chain_at, link_seen};
ghost use Rattle.rhai_links.specs.Chains.{new_of};
ghost use Rattle.rhai_links.specs.Access.{access_of};
ghost use Rattle.rhai_context.specs.Ends.{came_changed};

use crate::assign::{assign_at, assign_member};
use crate::members::get_member;
use rhai_context::ends::{fail, put, settle_changed};
use rhai_errors::error::EvalAltResult;
use rhai_errors::table::NativeTable;
use rhai_links::access::MemberAccess;
use rhai_links::chain::NewValue;
use rhai_links::links::Link;
use rhai_links::walker::Walker;
use rhai_links::ways::take_below;
use rhai_lookups::run::RunState;
use rhai_values::base::value::{Dynamic, Host};

/// Ends the chain in what an index or a key leads to, which is taken or assigned to. How it ended goes where
/// it belongs.
pub fn end_at<H: Host, T: NativeTable<H>>(
    walker: &Walker<'_, '_, H>,
    global: &mut RunState<H>,
    out: &mut Dynamic<H>,
    place: &mut Option<EvalAltResult<H>>,
    table: &mut T,
    source: &mut Dynamic<H>,
    index: &Dynamic<H>,
    link: Link<'_>,
    new: Option<NewValue<H>>,
) -> Option<bool>
    ensures counts { global.old.num_operations ≤ global.new.num_operations }
    ensures sight { KeepsSight global.old global.new }
    ensures runs { (scope : _) (held : _) (rest : _) (all : _) (in_place : _) →
        let rules = under H.name_of walker.now.session.now T.natives in
        Follows rules ended_or_changed
        (spot_core rules.setting None (new_of new) (link_seen link.entry) index.now (chain_at walker.now.root.now rest all new in_place) source.old)
        (state_of (T.state table.old) global.old scope (lending held source.old))
        (came_changed result out.new place.new)
        (state_of (T.state table.new) global.new scope (lending held source.new)) }
{
    match new {
        Some(new) => {
            let assigned = assign_at(
                walker.session,
                global,
                table,
                source,
                index,
                link,
                walker.root,
                new,
            );
            settle_changed(place, out, assigned)
        }
        None => match take_below(walker.session, &global.cells, source, index, link) {
            Ok(value) => {
                put(out, value);
                Some(false)
            }
            Err(error) => fail(place, error),
        },
    }
}

/// Ends the chain in a member, which is got or assigned to. How it ended goes where it belongs.
pub fn end_member<H: Host, T: NativeTable<H>>(
    walker: &Walker<'_, '_, H>,
    global: &mut RunState<H>,
    out: &mut Dynamic<H>,
    place: &mut Option<EvalAltResult<H>>,
    table: &mut T,
    focus: &mut Dynamic<H>,
    access: MemberAccess<'_, H>,
    new: Option<NewValue<H>>,
) -> Option<bool>
    ensures counts { global.old.num_operations ≤ global.new.num_operations }
    ensures sight { KeepsSight global.old global.new }
    ensures runs { (scope : _) (held : _) (link : _) (rest : _) (all : _) (in_place : _) →
        let rules = under H.name_of walker.now.session.now T.natives in
        Goes rules
        (member_core rules.setting None (new_of new) link (access_of access.entry) (chain_at walker.now.root.now rest all new in_place))
        (state_of (T.state table.old) global.old scope (lending held focus.old))
        (core (ended_or_changed (came_changed result out.new place.new)))
        (state_of (T.state table.new) global.new scope (lending held focus.new)) }
{
    let mut access = access;
    match new {
        Some(new) => {
            let assigned = assign_member(
                walker.session,
                global,
                table,
                focus,
                &mut access,
                walker.root,
                new,
            );
            drop(access);
            settle_changed(place, out, assigned)
        }
        None => {
            let got = get_member(walker.session, global, table, focus, &mut access);
            drop(access);
            settle_changed(place, out, got)
        }
    }
}
