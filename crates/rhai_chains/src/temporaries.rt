//! Temporaries that are the focus of a walk: how they go back to where they came from.

ghost use Rattle.std.specs.Prelude.{◌≡◌, ◌≤◌, ◌∷◌, None, Some, false, true, IfErr, IfOk, IfSome, Err, Ok};
ghost use Rattle.std.specs.Option.{option_map};
ghost use Rattle.rhai_errors.specs.Errors.{is_out_of_memory};
ghost use Rattle.rhai_machine.specs.language.Chains.{is_property as is_property_in, kept_access, way_back};
ghost use Rattle.rhai_machine.specs.language.Frames.{core, ended_or_changed, MemberSet, Temporary};
ghost use Rattle.rhai_machine.specs.language.Members.{focused_on, set_core, get_core};
ghost use Rattle.rhai_machine.specs.language.Runs.{Goes};
ghost use Rattle.rhai_steps.specs.Agreement.{KeepsSight};
ghost use Rattle.rhai_steps.specs.Sessions.{under};
ghost use Rattle.rhai_steps.specs.States.{state_of};
ghost use Rattle.rhai_steps.specs.OnFocus.{lending};
ghost use Rattle.rhai_steps.specs.Follows.{Follows};
ghost use Rattle.rhai_links.specs.Chains.{form_seen, link_seen};
ghost use Rattle.rhai_links.specs.Access.{access_of};
ghost use Rattle.rhai_context.specs.Ends.{came_changed, error_in};

use crate::members::{get_member, set_member};
use rhai_context::ends::{fail, stop};
use rhai_errors::error::EvalAltResult;
use rhai_errors::table::NativeTable;
use rhai_links::access::{Member, MemberAccess};
use rhai_links::links::{Link, LinkForm};
use rhai_links::walker::Walker;
use rhai_lookups::run::RunState;
use rhai_steps::values::copy;
use rhai_values::base::value::{Dynamic, Host};
use std::alloc::Global;

/// Tells how a temporary goes back that stands for a missing item. Of an index it goes back by the indexer,
/// of a property not at all. An error is left in `place`.
pub fn access_back<'e, H: Host>(
    alloc: Global,
    place: &mut Option<EvalAltResult<H>>,
    link: Link<'e>,
    index: &Dynamic<H>,
    in_place: bool,
) -> Option<Option<MemberAccess<'e, H>>>
    ensures some { (chain : _) → IfSome result (λ back. option_map access_of back
        ≡ way_back (form_seen link.entry.form) (link_seen link.entry) index.now (record chain { in_place = in_place })) }
    ensures none { result ≡ None → is_out_of_memory (error_in place.new) ≡ true }
{
    match link.form {
        LinkForm::Index(_) => match copy(alloc, index, link.at) {
            Ok(item) => Some(Some(MemberAccess {
                member: Member::Item(item),
                at: link.at,
                guarded: in_place,
            })),
            Err(error) => {
                stop(place, error);
                None
            }
        },
        LinkForm::Property(_, _) => Some(None),
        LinkForm::Method(_, _) => Some(None),
    }
}

/// Copies an access with its index.
fn keep_access<'e, H: Host>(
    alloc: Global,
    access: &MemberAccess<'e, H>,
) -> Result<MemberAccess<'e, H>, EvalAltResult<H>>
    ensures ok { IfOk result (λ kept. access_of kept ≡ kept_access (access_of access.now)) }
    ensures err { IfErr result (λ e. is_out_of_memory e ≡ true) }
{
    match &access.member {
        Member::Property(name, pos) => Ok(MemberAccess {
            member: Member::Property(*name, *pos),
            at: access.at,
            guarded: access.guarded,
        }),
        Member::Item(index) => Ok(MemberAccess {
            member: Member::Item(copy(alloc, index, access.at)?),
            at: access.at,
            guarded: access.guarded,
        }),
    }
}

/// Gets a member of the focus, and keeps how it is set again. An error is left in `place`.
pub fn get_kept<'e, H: Host, T: NativeTable<H>>(
    walker: &Walker<'_, '_, H>,
    global: &mut RunState<H>,
    place: &mut Option<EvalAltResult<H>>,
    table: &mut T,
    focus: &mut Dynamic<H>,
    access: MemberAccess<'e, H>,
) -> Option<(Dynamic<H>, MemberAccess<'e, H>)>
    ensures counts { global.old.num_operations ≤ global.new.num_operations }
    ensures sight { KeepsSight global.old global.new }
    ensures gets { (scope : _) (held : _) → IfSome result (λ got. Goes (under H.name_of walker.now.session.now T.natives)
        (get_core (access_of access.entry))
        (state_of (T.state table.old) global.old scope (lending held focus.old))
        (core (ended_or_changed (Ok (got.0, false))))
        (state_of (T.state table.new) global.new scope (lending held focus.new))) }
    ensures kept { IfSome result (λ got. access_of got.1 ≡ kept_access (access_of access.entry)) }
    ensures fails { (scope : _) (held : _) → result ≡ None →
        Follows (under H.name_of walker.now.session.now T.natives) ended_or_changed (get_core (access_of access.entry))
        (state_of (T.state table.old) global.old scope (lending held focus.old)) (Err (error_in place.new))
        (state_of (T.state table.new) global.new scope (lending held focus.new)) }
{
    let kept = match keep_access(walker.session.alloc, &access) {
        Ok(kept) => kept,
        Err(error) => {
            drop(access);
            stop(place, error);
            return None;
        }
    };
    let mut access = access;
    let got = get_member(walker.session, global, table, focus, &mut access);
    drop(access);
    match got {
        Ok((value, _)) => Some((value, kept)),
        Err(error) => {
            drop(kept);
            stop(place, error);
            None
        }
    }
}

/// Sets a temporary that may have been changed in the value it came from, where it has a way back. What the
/// walk came to stays where it is, unless that is refused.
pub fn come_back<H: Host, T: NativeTable<H>>(
    walker: &Walker<'_, '_, H>,
    global: &mut RunState<H>,
    out: &Dynamic<H>,
    place: &mut Option<EvalAltResult<H>>,
    table: &mut T,
    source: &mut Dynamic<H>,
    back: Option<MemberAccess<'_, H>>,
    temporary: Dynamic<H>,
    mark: Option<bool>,
) -> Option<bool>
    ensures counts { global.old.num_operations ≤ global.new.num_operations }
    ensures sight { KeepsSight global.old global.new }
    ensures runs { (scope : _) (held : _) →
        Goes (under H.name_of walker.now.session.now T.natives)
        (λ k l. core (ended_or_changed (came_changed mark out.now place.old)) (Temporary (Some source.old) (option_map access_of back.entry) ∷ k) (focused_on (Some temporary) l))
        (state_of (T.state table.old) global.old scope (lending held source.old))
        (core (ended_or_changed (came_changed result out.now place.new)))
        (state_of (T.state table.new) global.new scope (lending held source.new)) }
{
    let Some(access) = back else {
        drop(temporary);
        return mark;
    };
    match mark {
        Some(true) => set_back(walker, global, out, place, table, source, access, temporary),
        Some(false) => {
            drop(access);
            drop(temporary);
            mark
        }
        None => {
            drop(access);
            drop(temporary);
            mark
        }
    }
}

/// Sets a temporary that was changed in the value that it came from. The answer is the walk's value.
fn set_back<H: Host, T: NativeTable<H>>(
    walker: &Walker<'_, '_, H>,
    global: &mut RunState<H>,
    out: &Dynamic<H>,
    place: &mut Option<EvalAltResult<H>>,
    table: &mut T,
    source: &mut Dynamic<H>,
    access: MemberAccess<'_, H>,
    temporary: Dynamic<H>,
) -> Option<bool>
    ensures counts { global.old.num_operations ≤ global.new.num_operations }
    ensures sight { KeepsSight global.old global.new }
    ensures runs { (scope : _) (held : _) →
        Goes (under H.name_of walker.now.session.now T.natives)
        (λ k. set_core true (access_of access.entry) temporary (MemberSet out.now ∷ k))
        (state_of (T.state table.old) global.old scope (lending held source.old))
        (core (ended_or_changed (came_changed result out.now place.new)))
        (state_of (T.state table.new) global.new scope (lending held source.new)) }
{
    let mut access = access;
    let set = set_member(
        walker.session,
        global,
        table,
        source,
        &mut access,
        temporary,
        true,
    );
    drop(access);
    match set {
        Ok((answer, _)) => {
            drop(answer);
            Some(true)
        }
        Err(error) => fail(place, error),
    }
}

/// Tells whether a member is a property.
pub fn is_property<H: Host>(access: &MemberAccess<'_, H>) -> bool
    ensures { result ≡ is_property_in (access_of access.now).member }
{
    matches!(&access.member, Member::Property(_, _))
}
