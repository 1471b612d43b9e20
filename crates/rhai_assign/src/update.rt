//! An update of a target that is lent goes through its attempts: the built-in, the native `op=`, the
//! native `op`. And an assignment from where its target is found: at a place of a variable, or lent.

ghost use Rattle.std.specs.Prelude.{◌≡◌, ◌∷◌, [], length, true, false};
ghost use Rattle.rhai_values.specs.Cells.{IsNoHandle, cells_of};
ghost use Rattle.rhai_machine.specs.language.Places.{is_constant, target as target_in};
ghost use Rattle.rhai_machine.specs.language.Frames.{AskUpdate, AsValue, InPlace, ended};
ghost use Rattle.rhai_machine.specs.language.Runs.{Runs};
ghost use Rattle.rhai_machine.specs.language.Assignment.{assign_core};
ghost use Rattle.rhai_steps.specs.Agreement.{KeepsSight};
ghost use Rattle.rhai_steps.specs.Follows.{Follows};
ghost use Rattle.rhai_steps.specs.Sessions.{under};
ghost use Rattle.rhai_steps.specs.States.{state_of};
ghost use Rattle.rhai_assign.specs.Follows.{updates, tries};
ghost use Rattle.rhai_assign.specs.Keeps.{Charges, Keeps};
ghost use Rattle.rhai_assign.specs.Lending.{placed, IsFree, IsLentFrom, IsOwnCell};
ghost use Rattle.rhai_assign.specs.Targets.{own_cell, place_in, standing_at, stands_at};
ghost use Rattle.rhai_assign.specs.Updates.{update_of};

use crate::native::{ask_native, assigning_name, outcome_of, unless_missing};
use crate::place::{Place, Update, cell_of, put, take};
use crate::write::{measure_changed, write_lent, write_value};
use rhai_errors::error::EvalAltResult;
use rhai_errors::errors::shared_text;
use rhai_errors::table::{Answer, NativeTable};
use rhai_lookups::run::RunState;
use rhai_operators::builtin_op_assign;
use rhai_state::scope::Scope;
use rhai_state::session::Session;
use rhai_steps::replies::position_if_none as at_call;
use rhai_steps::values::{let_go, list_of, unit_value};
use rhai_tree::expr::OpAssignment;
use rhai_tree::position::Position;
use rhai_values::base::value::{AccessMode, CellId, Dynamic, Host};
use std::mem::replace;

/// Updates a target by the native `op`, which gives its new value.
fn update_by_value<H: Host, T: NativeTable<H>>(
    session: &Session<'_, H>,
    global: &mut RunState<H>,
    table: &mut T,
    target: &mut Dynamic<H>,
    update: Update,
    rest: &[Dynamic<H>],
) -> Result<Dynamic<H>, EvalAltResult<H>>
    requires own { IsOwnCell update.cell (cells_of global.old.cells) }
    requires plain { IsNoHandle target.old.value }
    ensures keeps { Charges global.old global.new }
    ensures sight { KeepsSight global.old global.new }
    ensures runs { (scope : _) (held : _) (place : _) (operand : _) →
        IsLentFrom place update.cell → rest.now ≡ operand ∷ [] →
        Runs (under H.name_of session.now T.natives)
        (AskUpdate (update_of update AsValue place target.old operand))
        (placed place target.old (state_of (T.state table.old) global.old scope held))
        result (placed place target.new (state_of (T.state table.new) global.new scope held)) }
{
    let Ok(name) = shared_text(session.alloc, update.token.as_str()) else {
        return Err(EvalAltResult::ErrorOutOfMemory(update.at));
    };
    let answer = ask_native(session, global, table, target, update, &name, rest)?;
    let cells = &mut global.cells;
    let outcome = outcome_of(session, cells, answer, &name, target, update, rest);
    write_value(session, target, update, outcome)
}

/// Updates a target whose native `op=` is missing. The built-in is tried on the target as that native left
/// it, or else the native `op`.
fn update_again<H: Host, T: NativeTable<H>>(
    session: &Session<'_, H>,
    global: &mut RunState<H>,
    table: &mut T,
    target: &mut Dynamic<H>,
    update: Update,
    rest: &[Dynamic<H>],
) -> Result<Dynamic<H>, EvalAltResult<H>>
    requires own { IsOwnCell update.cell (cells_of global.old.cells) }
    requires plain { IsNoHandle target.old.value }
    requires one { length rest.now ≡ 1 }
    ensures keeps { Charges global.old global.new }
    ensures sight { KeepsSight global.old global.new }
    ensures runs { (scope : _) (held : _) (place : _) (operand : _) →
        IsLentFrom place update.cell → rest.now ≡ operand ∷ [] →
        let rules = under H.name_of session.now T.natives in
        Follows rules ended (updates rules.setting (update_of update AsValue place target.old operand))
        (placed place target.old (state_of (T.state table.old) global.old scope held)) result
        (placed place target.new (state_of (T.state table.new) global.new scope held)) }
{
    match builtin_op_assign(session.alloc, update.token, target, &rest[0]) {
        Some(outcome) => write_lent(session, target, update.at, outcome),
        None => update_by_value(session, global, table, target, update, rest),
    }
}

/// Updates a target by the native `op=`, which changes it. Where it is missing, the update goes on without
/// it.
fn update_in_place<H: Host, T: NativeTable<H>>(
    session: &Session<'_, H>,
    global: &mut RunState<H>,
    table: &mut T,
    target: &mut Dynamic<H>,
    update: Update,
    rest: &[Dynamic<H>],
) -> Result<Dynamic<H>, EvalAltResult<H>>
    requires own { IsOwnCell update.cell (cells_of global.old.cells) }
    requires free { IsFree target.old }
    requires one { length rest.now ≡ 1 }
    ensures keeps { Charges global.old global.new }
    ensures sight { KeepsSight global.old global.new }
    ensures runs { (scope : _) (held : _) (place : _) (operand : _) →
        IsLentFrom place update.cell → rest.now ≡ operand ∷ [] →
        Runs (under H.name_of session.now T.natives)
        (AskUpdate (update_of update InPlace place target.old operand))
        (placed place target.old (state_of (T.state table.old) global.old scope held))
        result (placed place target.new (state_of (T.state table.new) global.new scope held)) }
{
    let Ok(name) = assigning_name(session.alloc, update.token) else {
        return Err(EvalAltResult::ErrorOutOfMemory(update.at));
    };
    match ask_native(session, global, table, target, update, &name, rest)? {
        Answer::Missing => update_again(session, global, table, target, update, rest),
        Answer::Value(value) => measure_changed(session, update, value, target),
        Answer::Fault(error) => match unless_missing(&name, error) {
            Some(error) => Err(at_call(error, update.at)),
            None => update_by_value(session, global, table, target, update, rest),
        },
        Answer::NoMemory => Err(EvalAltResult::ErrorOutOfMemory(update.at)),
    }
}

/// Updates a target by the natives of the operator.
pub(crate) fn update_by_natives<H: Host, T: NativeTable<H>>(
    session: &Session<'_, H>,
    global: &mut RunState<H>,
    table: &mut T,
    target: &mut Dynamic<H>,
    update: Update,
    operand: Dynamic<H>,
) -> Result<Dynamic<H>, EvalAltResult<H>>
    requires own { IsOwnCell update.cell (cells_of global.old.cells) }
    requires free { IsFree target.old }
    ensures keeps { Charges global.old global.new }
    ensures sight { KeepsSight global.old global.new }
    ensures runs { (scope : _) (held : _) (place : _) → IsLentFrom place update.cell →
        Runs (under H.name_of session.now T.natives)
        (AskUpdate (update_of update InPlace place target.old operand))
        (placed place target.old (state_of (T.state table.old) global.old scope held))
        result (placed place target.new (state_of (T.state table.new) global.new scope held)) }
{
    match list_of(session.alloc, operand) {
        Ok(rest) => {
            let rest = rest.as_slice();
            update_in_place(session, global, table, target, update, rest)
        }
        Err(operand) => {
            let_go(operand);
            Err(EvalAltResult::ErrorOutOfMemory(update.at))
        }
    }
}

/// Updates a target by the built-in, or else by the natives.
fn update_by_builtin<H: Host, T: NativeTable<H>>(
    session: &Session<'_, H>,
    global: &mut RunState<H>,
    table: &mut T,
    target: &mut Dynamic<H>,
    update: Update,
    operand: Dynamic<H>,
) -> Result<Dynamic<H>, EvalAltResult<H>>
    requires own { IsOwnCell update.cell (cells_of global.old.cells) }
    requires free { IsFree target.old }
    ensures keeps { Charges global.old global.new }
    ensures sight { KeepsSight global.old global.new }
    ensures runs { (scope : _) (held : _) (place : _) → IsLentFrom place update.cell →
        let rules = under H.name_of session.now T.natives in
        Follows rules ended (updates rules.setting (update_of update InPlace place target.old operand))
        (placed place target.old (state_of (T.state table.old) global.old scope held)) result
        (placed place target.new (state_of (T.state table.new) global.new scope held)) }
{
    match builtin_op_assign(session.alloc, update.token, target, &operand) {
        Some(outcome) => {
            let_go(operand);
            write_lent(session, target, update.at, outcome)
        }
        None => update_by_natives(session, global, table, target, update, operand),
    }
}

/// Updates a target that is lent. The built-in is tried first under fast operators alone.
fn update<H: Host, T: NativeTable<H>>(
    session: &Session<'_, H>,
    global: &mut RunState<H>,
    table: &mut T,
    target: &mut Dynamic<H>,
    update: Update,
    operand: Dynamic<H>,
) -> Result<Dynamic<H>, EvalAltResult<H>>
    requires own { IsOwnCell update.cell (cells_of global.old.cells) }
    requires free { IsFree target.old }
    ensures keeps { Charges global.old global.new }
    ensures sight { KeepsSight global.old global.new }
    ensures runs { (scope : _) (held : _) (place : _) → IsLentFrom place update.cell → let rules = under H.name_of session.now T.natives in
        Follows rules ended (tries rules.setting (update_of update InPlace place target.old operand))
        (placed place target.old (state_of (T.state table.old) global.old scope held)) result
        (placed place target.new (state_of (T.state table.new) global.new scope held)) }
{
    let fast = session.fast_operators;
    if fast {
        update_by_builtin(session, global, table, target, update, operand)
    } else {
        update_by_natives(session, global, table, target, update, operand)
    }
}

/// Assigns a value to a target that is lent, as it is or by an operator. Asked: the cell that it was
/// taken from is held.
pub(crate) fn assign_lent<H: Host, T: NativeTable<H>>(
    session: &Session<'_, H>,
    global: &mut RunState<H>,
    table: &mut T,
    target: &mut Dynamic<H>,
    cell: Option<CellId>,
    pos: Position,
    op: OpAssignment,
    value: Dynamic<H>,
) -> Result<Dynamic<H>, EvalAltResult<H>>
    requires own { IsOwnCell cell (cells_of global.old.cells) }
    requires free { IsFree target.old }
    ensures keeps { Charges global.old global.new }
    ensures sight { KeepsSight global.old global.new }
    ensures runs { (scope : _) (held : _) (path : _) (name : _) (place : _) →
        IsLentFrom place cell →
        let rules = under H.name_of session.now T.natives in
        Follows rules ended
        (assign_core rules.setting op.op (record { path = path; name = name; at = pos; op = op }) (target_in place target.old) value)
        (placed place target.old (state_of (T.state table.old) global.old scope held)) result
        (placed place target.new (state_of (T.state table.new) global.new scope held)) }
{
    match op.op {
        Some(token) => {
            let by = Update {
                token,
                at: op.position,
                cell,
                target_at: pos,
            };
            update(session, global, table, target, by, value)
        }
        None => {
            let mut value = value;
            value.set_access_mode(AccessMode::ReadWrite);
            let_go(replace(target, value));
            Ok(unit_value())
        }
    }
}

/// Updates the value at a place, which is taken from there and goes back whatever comes of it.
fn update_at<H: Host, T: NativeTable<H>>(
    session: &Session<'_, H>,
    global: &mut RunState<H>,
    table: &mut T,
    scope: &mut Scope<H>,
    place: Place,
    by: Update,
    operand: Dynamic<H>,
) -> Result<Dynamic<H>, EvalAltResult<H>>
    requires stands { stands_at place scope.old global.old.cells ≡ true }
    requires writable { is_constant (standing_at place scope.old global.old.cells).mode ≡ false }
    requires lent { by.cell ≡ own_cell place }
    ensures keeps { Keeps global.old global.new scope.old scope.new }
    ensures sight { KeepsSight global.old global.new }
    ensures runs { (held : _) → let rules = under H.name_of session.now T.natives in
        Follows rules ended
        (tries rules.setting (update_of by InPlace (place_in place) (standing_at place scope.old global.old.cells) operand))
        (state_of (T.state table.old) global.old scope.old held) result
        (state_of (T.state table.new) global.new scope.new held) }
{
    let mut target = take(&mut global.cells, scope, place);
    let result = update(session, global, table, &mut target, by, operand);
    put(&mut global.cells, scope, place, target);
    result
}

/// Assigns a value to a place that was found, as it is or by an operator.
pub(crate) fn store<H: Host, T: NativeTable<H>>(
    session: &Session<'_, H>,
    global: &mut RunState<H>,
    table: &mut T,
    scope: &mut Scope<H>,
    place: Place,
    pos: Position,
    op: OpAssignment,
    value: Dynamic<H>,
) -> Result<Dynamic<H>, EvalAltResult<H>>
    requires stands { stands_at place scope.old global.old.cells ≡ true }
    requires writable { is_constant (standing_at place scope.old global.old.cells).mode ≡ false }
    ensures keeps { Keeps global.old global.new scope.old scope.new }
    ensures sight { KeepsSight global.old global.new }
    ensures runs { (held : _) (path : _) (name : _) → let rules = under H.name_of session.now T.natives in
        Follows rules ended
        (assign_core rules.setting op.op (record { path = path; name = name; at = pos; op = op }) (target_in (place_in place) (standing_at place scope.old global.old.cells)) value)
        (state_of (T.state table.old) global.old scope.old held) result
        (state_of (T.state table.new) global.new scope.new held) }
{
    match op.op {
        Some(token) => {
            let by = Update {
                token,
                at: op.position,
                cell: cell_of(place),
                target_at: pos,
            };
            update_at(session, global, table, scope, place, by, value)
        }
        None => {
            let mut value = value;
            value.set_access_mode(AccessMode::ReadWrite);
            put(&mut global.cells, scope, place, value);
            Ok(unit_value())
        }
    }
}
