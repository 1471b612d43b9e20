//! The end of a chain that is assigned to: a place or a part that an index or a key leads to, or a member.
//! Ports what upstream's `eval_dot_index_chain_raw` does with a new value. The contracts cite
//! specs/Assigned.antt.

ghost use Rattle.std.specs.Prelude.{◌≡◌, ◌≤◌, ◌↔◌, false, true, Ok, Err, IfErr, IfOk, IsTrue, None, Some};
ghost use Rattle.rhai_values.specs.Cells.{cells_of};
ghost use Rattle.rhai_values.specs.Layers.{layer_of};
ghost use Rattle.rhai_errors.specs.declared.error.EvalAltResult.TheVariants as error;
ghost use Rattle.rhai_spots.specs.Parts.{IsPart, IsPlace, part_of, value_at};
ghost use Rattle.rhai_machine.specs.language.Chains.{assign_focus as assign_focus_core, spot_core};
ghost use Rattle.rhai_machine.specs.language.Chains.{assign_member as assign_member_core};
ghost use Rattle.rhai_machine.specs.language.Chains.{assign_spot as assign_spot_core};
ghost use Rattle.rhai_machine.specs.language.Chains.{is_property as is_of_property};
ghost use Rattle.rhai_machine.specs.language.Located.{bars_key as is_barred, is_place_spot};
ghost use Rattle.rhai_machine.specs.language.Located.{lacks_key as is_lacking};
ghost use Rattle.rhai_machine.specs.language.State.{Answers};
ghost use Rattle.rhai_machine.specs.language.Unwinding.{as_measured};
ghost use Rattle.rhai_machine.specs.language.Values.{unit_value as unit};
ghost use Rattle.rhai_machine.specs.language.Runs.{Goes};
ghost use Rattle.rhai_machine.specs.language.Frames.{core, ended_or_changed};
ghost use Rattle.rhai_steps.specs.Agreement.{KeepsSight};
ghost use Rattle.rhai_steps.specs.Sessions.{under};
ghost use Rattle.rhai_steps.specs.States.{state_of};
ghost use Rattle.rhai_calls.specs.ToldChanges.{with_changed};
ghost use Rattle.rhai_steps.specs.OnFocus.{lending};
ghost use Rattle.rhai_steps.specs.Follows.{Follows};
ghost use Rattle.rhai_chains.specs.Assigned.{item_assigned, measured_as, none_got, property_assigned};
ghost use Rattle.rhai_chains.specs.Assigned.{set_last, value_got, value_operated};
ghost use Rattle.rhai_chains.specs.Assigned.{FollowsUnless, GoesIn, IsKept};
ghost use Rattle.rhai_links.specs.Chains.{chain_at, link_seen, new_value};
ghost use Rattle.rhai_links.specs.Access.{access_of};

use crate::members::{get_member, lacks_indexer, set_member};
use rhai_assign::focus::{assign_focus, assign_inserted};
use rhai_errors::error::EvalAltResult;
use rhai_errors::errors::{constant_of, data_too_large};
use rhai_errors::table::NativeTable;
use rhai_links::access::{Member, MemberAccess};
use rhai_links::chain::NewValue;
use rhai_links::links::{Link, LinkForm};
use rhai_links::spots::{access_for, find_spot};
use rhai_lookups::run::RunState;
use rhai_places::part::read_part;
use rhai_places::place::place_mut;
use rhai_places::put::put_part;
use rhai_spots::spot::Spot;
use rhai_state::session::Session;
use rhai_steps::replies::sized;
use rhai_steps::values::{let_go, unit_value};
use rhai_tree::expr::Expr;
use rhai_tree::position::Position;
use rhai_values::base::value::{AccessMode, Dynamic, Host, Union};
use rhai_values::cells::CellStore;

/// Tells whether a value is a map that does not have a key.
fn lacks_key<H>(source: &Dynamic<H>, index: &Dynamic<H>) -> bool
    ensures { result ≡ is_lacking (layer_of source.now) (layer_of index.now) }
{
    match (&source.value, &index.value) {
        (Union::Map(entries), Union::Str(key)) => entries.get().find(key.get().as_str()).is_err(),
        _ => false,
    }
}

/// Tells whether a value is a map that may not be changed and does not have a key.
fn bars_key<H>(source: &Dynamic<H>, index: &Dynamic<H>) -> bool
    ensures { result ≡ is_barred source.now index.now }
{
    matches!(source.mode, AccessMode::ReadOnly) && lacks_key(source, index)
}

/// Tells whether a value is a `()` that may be changed, as a key has it that was inserted.
fn is_plain_unit<H>(value: &Dynamic<H>) -> bool
    ensures { IsTrue result ↔ (value.now ≡ unit) }
{
    match &value.value {
        Union::Unit => matches!(value.mode, AccessMode::ReadWrite),
        _ => false,
    }
}

/// Looks at a value as it is measured. A handle is looked through to the value of its cell, unless the cell
/// is held.
fn measured_value<'a, H>(cells: &'a CellStore<H>, value: &'a Dynamic<H>) -> &'a Dynamic<H>
    ensures { result.now ≡ as_measured (cells_of cells.now) value.now }
{
    match &value.value {
        Union::Cell(id) => match cells.get(*id) {
            Some(inner) => inner,
            None => value,
        },
        _ => value,
    }
}

/// Measures what was assigned to. The assignment ends with `()` then, and tells of a change.
fn measure<H: Host>(
    session: &Session<'_, H>,
    value: &Dynamic<H>,
    pos: Position,
) -> Result<(Dynamic<H>, bool), EvalAltResult<H>>
    ensures { Answers result (measured_as session.now.limits value.now pos) }
{
    match value.exceeds(
        session.limits.max_string_size,
        session.limits.max_array_size,
        session.limits.max_map_size,
    ) {
        None => Ok((unit_value(), true)),
        Some(fault) => Err(data_too_large(session.alloc, fault, pos)),
    }
}

/// Measures what was assigned to, through a handle, unless the assignment failed.
fn measure_assigned<H: Host>(
    session: &Session<'_, H>,
    cells: &CellStore<H>,
    target: &Dynamic<H>,
    outcome: Result<Dynamic<H>, EvalAltResult<H>>,
    pos: Position,
) -> Result<(Dynamic<H>, bool), EvalAltResult<H>>
    ensures fits { IfOk outcome (λ _. Answers result
        (measured_as session.now.limits (as_measured (cells_of cells.now) target.now) pos)) }
    ensures fault { IfErr outcome (λ e. result ≡ Err e) }
{
    let_go(outcome?);
    measure(session, measured_value(cells, target), pos)
}

/// Assigns to a value. A `()` may be a key's that was inserted: there memory runs out only where the machine
/// finds none.
fn assign_to<H: Host, T: NativeTable<H>>(
    session: &Session<'_, H>,
    global: &mut RunState<H>,
    table: &mut T,
    target: &mut Dynamic<H>,
    root: &Expr,
    new: NewValue<H>,
) -> Result<Dynamic<H>, EvalAltResult<H>>
    ensures counts { global.old.num_operations ≤ global.new.num_operations }
    ensures sight { KeepsSight global.old global.new }
    ensures runs { (scope : _) (held : _) → let rules = under H.name_of session.now T.natives in
        FollowsUnless (target.old ≡ unit) rules (assign_focus_core rules.setting root.now (new_value new))
        (state_of (T.state table.old) global.old scope (lending held target.old))
        (with_changed false result) (state_of (T.state table.new) global.new scope (lending held target.new)) }
{
    let NewValue { op, value } = new;
    if is_plain_unit(target) {
        return assign_inserted(session, global, table, target, root, op, value);
    }
    assign_focus(session, global, table, target, root, op, value)
}

/// Assigns to an item, which is measured then.
fn assign_item<H: Host, T: NativeTable<H>>(
    session: &Session<'_, H>,
    global: &mut RunState<H>,
    table: &mut T,
    source: &mut Dynamic<H>,
    spot: Spot,
    root: &Expr,
    new: NewValue<H>,
) -> Result<(Dynamic<H>, bool), EvalAltResult<H>>
    requires { IsPlace (layer_of source.old) spot }
    ensures counts { global.old.num_operations ≤ global.new.num_operations }
    ensures sight { KeepsSight global.old global.new }
    ensures runs { (scope : _) (held : _) → let rules = under H.name_of session.now T.natives in
        FollowsUnless (value_at source.old spot ≡ Some unit) rules
        (item_assigned rules.setting root.now (new_value new) spot source.old)
        (state_of (T.state table.old) global.old scope (lending held source.old))
        result (state_of (T.state table.new) global.new scope (lending held source.new)) }
{
    let pos = new.op.position;
    let place = place_mut(&mut source.value, spot);
    let outcome = assign_to(session, global, table, place, root, new);
    measure_assigned(session, &global.cells, place, outcome, pos)
}

/// Assigns to a property of a map, which is measured then.
fn assign_property<H: Host, T: NativeTable<H>>(
    session: &Session<'_, H>,
    global: &mut RunState<H>,
    table: &mut T,
    source: &mut Dynamic<H>,
    spot: Spot,
    root: &Expr,
    new: NewValue<H>,
) -> Result<(Dynamic<H>, bool), EvalAltResult<H>>
    requires { IsPlace (layer_of source.old) spot }
    ensures counts { global.old.num_operations ≤ global.new.num_operations }
    ensures sight { KeepsSight global.old global.new }
    ensures runs { (scope : _) (held : _) → let rules = under H.name_of session.now T.natives in
        FollowsUnless (value_at source.old spot ≡ Some unit) rules
        (property_assigned rules.setting root.now (new_value new) spot source.old)
        (state_of (T.state table.old) global.old scope (lending held source.old))
        result (state_of (T.state table.new) global.new scope (lending held source.new)) }
{
    let pos = new.op.position;
    let place = place_mut(&mut source.value, spot);
    let outcome = assign_to(session, global, table, place, root, new);
    measure_assigned(session, &global.cells, source, outcome, pos)
}

/// Puts an assigned part back into its place, and measures it then. What is refused leaves the place as it
/// was.
fn put_assigned<H: Host>(
    session: &Session<'_, H>,
    source: &mut Dynamic<H>,
    spot: Spot,
    part: &Dynamic<H>,
    pos: Position,
) -> Result<(Dynamic<H>, bool), EvalAltResult<H>>
    requires { IsPart (layer_of source.old) spot }
    ensures { GoesIn session.now.limits H.name_of source.old spot part.now pos source.new result }
{
    match put_part(session.alloc, source, spot, part, pos) {
        Ok(()) => measure(session, part, pos),
        Err(refusal) => Err(refusal),
    }
}

/// Assigns to a part that was read.
fn assign_read<H: Host, T: NativeTable<H>>(
    session: &Session<'_, H>,
    global: &mut RunState<H>,
    table: &mut T,
    source: &mut Dynamic<H>,
    spot: Spot,
    part: Dynamic<H>,
    root: &Expr,
    new: NewValue<H>,
) -> Result<(Dynamic<H>, bool), EvalAltResult<H>>
    requires there { IsPart (layer_of source.old) spot }
    requires read { part ≡ part_of source.old spot }
    ensures counts { global.old.num_operations ≤ global.new.num_operations }
    ensures sight { KeepsSight global.old global.new }
    ensures runs { (scope : _) (held : _) (link : _) → let rules = under H.name_of session.now T.natives in
        Follows rules ended_or_changed
        (assign_spot_core rules.setting false spot link root.now (new_value new) source.old)
        (state_of (T.state table.old) global.old scope (lending held source.old)) result
        (state_of (T.state table.new) global.new scope (lending held source.new)) }
{
    let NewValue { op, value } = new;
    let pos = op.position;
    let mut part = part;
    match assign_focus(session, global, table, &mut part, root, op, value) {
        Ok(done) => {
            let_go(done);
            put_assigned(session, source, spot, &part, pos)
        }
        Err(error) => Err(error),
    }
}

/// Assigns to a part, which goes back into its place and is measured.
fn assign_part<H: Host, T: NativeTable<H>>(
    session: &Session<'_, H>,
    global: &mut RunState<H>,
    table: &mut T,
    source: &mut Dynamic<H>,
    spot: Spot,
    root: &Expr,
    new: NewValue<H>,
) -> Result<(Dynamic<H>, bool), EvalAltResult<H>>
    requires { IsPart (layer_of source.old) spot }
    ensures counts { global.old.num_operations ≤ global.new.num_operations }
    ensures sight { KeepsSight global.old global.new }
    ensures runs { (scope : _) (held : _) (link : _) → let rules = under H.name_of session.now T.natives in
        Follows rules ended_or_changed
        (assign_spot_core rules.setting false spot link root.now (new_value new) source.old)
        (state_of (T.state table.old) global.old scope (lending held source.old)) result
        (state_of (T.state table.new) global.new scope (lending held source.new)) }
{
    match read_part(session.alloc, source, spot) {
        Ok(part) => assign_read(session, global, table, source, spot, part, root, new),
        Err(_) => {
            let pos = new.op.position;
            let_go(new.value);
            Err(EvalAltResult::ErrorOutOfMemory(pos))
        }
    }
}

/// Assigns to a place, by the form of the link that leads there.
fn assign_place<H: Host, T: NativeTable<H>>(
    session: &Session<'_, H>,
    global: &mut RunState<H>,
    table: &mut T,
    source: &mut Dynamic<H>,
    spot: Spot,
    link: Link<'_>,
    root: &Expr,
    new: NewValue<H>,
) -> Result<(Dynamic<H>, bool), EvalAltResult<H>>
    requires { IsPlace (layer_of source.old) spot }
    ensures counts { global.old.num_operations ≤ global.new.num_operations }
    ensures sight { KeepsSight global.old global.new }
    ensures runs { (scope : _) (held : _) → let rules = under H.name_of session.now T.natives in
        FollowsUnless (value_at source.old spot ≡ Some unit) rules
        (assign_spot_core rules.setting true spot (link_seen link.entry) root.now (new_value new) source.old)
        (state_of (T.state table.old) global.old scope (lending held source.old))
        result (state_of (T.state table.new) global.new scope (lending held source.new)) }
{
    match link.form {
        LinkForm::Property(..) => assign_property(session, global, table, source, spot, root, new),
        LinkForm::Index(_) => assign_item(session, global, table, source, spot, root, new),
        LinkForm::Method(..) => assign_item(session, global, table, source, spot, root, new),
    }
}

/// Tells whether a value stands at a spot.
fn is_place(spot: Spot) -> bool
    ensures { result ≡ is_place_spot spot }
{
    matches!(spot, Spot::Item(_) | Spot::Value(_))
}

/// Assigns to a spot that was found.
fn assign_spot<H: Host, T: NativeTable<H>>(
    session: &Session<'_, H>,
    global: &mut RunState<H>,
    table: &mut T,
    source: &mut Dynamic<H>,
    spot: Spot,
    link: Link<'_>,
    root: &Expr,
    new: NewValue<H>,
) -> Result<(Dynamic<H>, bool), EvalAltResult<H>>
    requires { IsKept (layer_of source.old) spot }
    ensures counts { global.old.num_operations ≤ global.new.num_operations }
    ensures sight { KeepsSight global.old global.new }
    ensures runs { (scope : _) (held : _) → let rules = under H.name_of session.now T.natives in
        FollowsUnless (value_at source.old spot ≡ Some unit) rules
        (assign_spot_core rules.setting (is_place_spot spot) spot (link_seen link.entry) root.now
        (new_value new) source.old)
        (state_of (T.state table.old) global.old scope (lending held source.old))
        result (state_of (T.state table.new) global.new scope (lending held source.new)) }
{
    if is_place(spot) {
        return assign_place(session, global, table, source, spot, link, root, new);
    }
    assign_part(session, global, table, source, spot, root, new)
}

/// Assigns to what an index or a key leads to. A place is measured then, or of a property its map; a part
/// goes back into its place and is measured. A key that is missing is inserted, but a map that may not be
/// changed gets none. The answer is `()`, and tells of a change.
///
/// # Errors
/// Those of `rhai_links::spots::find_spot`; at the root's start `ErrorAssignmentToConstant` for a missing key of a
/// map that may not be changed, and those of `rhai_assign::focus::assign_focus`; at the operator
/// `ErrorMismatchDataType` for a part that has become of another type, and `ErrorDataTooLarge`.
pub fn assign_at<H: Host, T: NativeTable<H>>(
    session: &Session<'_, H>,
    global: &mut RunState<H>,
    table: &mut T,
    source: &mut Dynamic<H>,
    index: &Dynamic<H>,
    link: Link<'_>,
    root: &Expr,
    new: NewValue<H>,
) -> Result<(Dynamic<H>, bool), EvalAltResult<H>>
    ensures counts { global.old.num_operations ≤ global.new.num_operations }
    ensures sight { KeepsSight global.old global.new }
    ensures runs { (scope : _) (held : _) (rest : _) (args : _) (in_place : _) →
        let rules = under H.name_of session.now T.natives in
        Follows rules ended_or_changed
        (spot_core rules.setting None (Some (new_value new)) (link_seen link.entry) index.now (chain_at root.now rest args (Some new) in_place) source.old)
        (state_of (T.state table.old) global.old scope (lending held source.old)) result
        (state_of (T.state table.new) global.new scope (lending held source.new)) }
{
    if bars_key(source, index) {
        let_go(new.value);
        return Err(constant_of(session.alloc, root));
    }
    let how = access_for(link, true, session.fail_on_invalid_map_property);
    match find_spot(session.alloc, &global.cells, source, index, how) {
        Ok(spot) => {
            let fast = session.fast_operators;
            assign_spot(session, global, table, source, spot, link, root, new)
        }
        Err(error) => {
            let_go(new.value);
            Err(error)
        }
    }
}

/// Tells whether a member is a property.
fn is_property<H>(access: &MemberAccess<'_, H>) -> bool
    ensures { result ≡ is_of_property (access_of access.now).member }
{
    matches!(access.member, Member::Property(..))
}

/// Ends an assignment in which an item was set. Its answer is `()` for what the item's native gave, and tells
/// of a change.
fn item_set<H: Host>(
    answer: Result<(Dynamic<H>, bool), EvalAltResult<H>>,
) -> Result<(Dynamic<H>, bool), EvalAltResult<H>>
    ensures set { IfOk answer (λ _. result ≡ Ok (unit, true)) }
    ensures fault { IfErr answer (λ e. result ≡ Err e) }
{
    let (value, _) = answer?;
    let_go(value);
    Ok((unit_value(), true))
}

/// Sets a member at the end of an assignment. What a property's setter gives is the answer.
fn set_assigned<H: Host, T: NativeTable<H>>(
    session: &Session<'_, H>,
    global: &mut RunState<H>,
    table: &mut T,
    focus: &mut Dynamic<H>,
    access: &mut MemberAccess<'_, H>,
    value: Dynamic<H>,
) -> Result<(Dynamic<H>, bool), EvalAltResult<H>>
    ensures counts { global.old.num_operations ≤ global.new.num_operations }
    ensures sight { KeepsSight global.old global.new }
    ensures runs { (scope : _) (held : _) →
        Goes (under H.name_of session.now T.natives) (set_last (access_of access.old) value)
        (state_of (T.state table.old) global.old scope (lending held focus.old))
        (core (ended_or_changed result))
        (state_of (T.state table.new) global.new scope (lending held focus.new)) }
{
    let of_property = is_property(access);
    let answer = set_member(session, global, table, focus, access, value, false);
    if of_property {
        answer
    } else {
        item_set(answer)
    }
}

/// Sets a member to what an operator gave; an item is measured first.
fn set_operated<H: Host, T: NativeTable<H>>(
    session: &Session<'_, H>,
    global: &mut RunState<H>,
    table: &mut T,
    focus: &mut Dynamic<H>,
    access: &mut MemberAccess<'_, H>,
    value: Dynamic<H>,
    pos: Position,
) -> Result<(Dynamic<H>, bool), EvalAltResult<H>>
    ensures counts { global.old.num_operations ≤ global.new.num_operations }
    ensures sight { KeepsSight global.old global.new }
    ensures runs { (scope : _) (held : _) (answer : _) →
        Goes (under H.name_of session.now T.natives) (value_operated (access_of access.old) value pos answer)
        (state_of (T.state table.old) global.old scope (lending held focus.old))
        (core (ended_or_changed result))
        (state_of (T.state table.new) global.new scope (lending held focus.new)) }
{
    if is_property(access) {
        return set_assigned(session, global, table, focus, access, value);
    }
    match sized(session, value, pos) {
        Ok(value) => set_assigned(session, global, table, focus, access, value),
        Err(error) => Err(error),
    }
}

/// Operates on the value that was got of a member, and sets the member to it.
fn operate<H: Host, T: NativeTable<H>>(
    session: &Session<'_, H>,
    global: &mut RunState<H>,
    table: &mut T,
    focus: &mut Dynamic<H>,
    access: &mut MemberAccess<'_, H>,
    value: Dynamic<H>,
    root: &Expr,
    new: NewValue<H>,
) -> Result<(Dynamic<H>, bool), EvalAltResult<H>>
    ensures counts { global.old.num_operations ≤ global.new.num_operations }
    ensures sight { KeepsSight global.old global.new }
    ensures runs { (scope : _) (held : _) → Goes (under H.name_of session.now T.natives)
        (value_got (access_of access.old) root.now (new_value new) value)
        (state_of (T.state table.old) global.old scope (lending held focus.old))
        (core (ended_or_changed result))
        (state_of (T.state table.new) global.new scope (lending held focus.new)) }
{
    let NewValue { op, value: operand } = new;
    let mut value = value;
    match assign_focus(session, global, table, &mut value, root, op, operand) {
        Ok(done) => {
            let_go(done);
            set_operated(session, global, table, focus, access, value, op.position)
        }
        Err(error) => {
            let_go(value);
            Err(error)
        }
    }
}

/// Sets an item without an indexer to the right side as it is, where it was not got. Any other member that
/// was not got answers the error.
fn set_ungot<H: Host, T: NativeTable<H>>(
    session: &Session<'_, H>,
    global: &mut RunState<H>,
    table: &mut T,
    focus: &mut Dynamic<H>,
    access: &mut MemberAccess<'_, H>,
    error: EvalAltResult<H>,
    new: NewValue<H>,
) -> Result<(Dynamic<H>, bool), EvalAltResult<H>>
    ensures counts { global.old.num_operations ≤ global.new.num_operations }
    ensures sight { KeepsSight global.old global.new }
    ensures runs { (scope : _) (held : _) (root : _) →
        Goes (under H.name_of session.now T.natives)
        (none_got (access_of access.old) root (new_value new) error)
        (state_of (T.state table.old) global.old scope (lending held focus.old))
        (core (ended_or_changed result))
        (state_of (T.state table.new) global.new scope (lending held focus.new)) }
{
    if is_property(access) {
        let_go(new.value);
        return Err(error);
    }
    if lacks_indexer(&error) {
        drop(error);
        return set_assigned(session, global, table, focus, access, new.value);
    }
    let_go(new.value);
    Err(error)
}

/// Assigns to a member of the focus. The member is set, or by an operator it is got, what was got is operated
/// on, and it is set to that.
pub fn assign_member<H: Host, T: NativeTable<H>>(
    session: &Session<'_, H>,
    global: &mut RunState<H>,
    table: &mut T,
    focus: &mut Dynamic<H>,
    access: &mut MemberAccess<'_, H>,
    root: &Expr,
    new: NewValue<H>,
) -> Result<(Dynamic<H>, bool), EvalAltResult<H>>
    ensures counts { global.old.num_operations ≤ global.new.num_operations }
    ensures sight { KeepsSight global.old global.new }
    ensures runs { (scope : _) (held : _) → let rules = under H.name_of session.now T.natives in
        Goes rules
        (assign_member_core rules.setting new.op.op (access_of access.old) root.now (new_value new))
        (state_of (T.state table.old) global.old scope (lending held focus.old))
        (core (ended_or_changed result))
        (state_of (T.state table.new) global.new scope (lending held focus.new)) }
{
    match new.op.op {
        None => set_assigned(session, global, table, focus, access, new.value),
        Some(_) => match get_member(session, global, table, focus, access) {
            Ok((value, _)) => {
                let fast = session.fast_operators;
                operate(session, global, table, focus, access, value, root, new)
            }
            Err(error) => set_ungot(session, global, table, focus, access, error, new),
        },
    }
}
