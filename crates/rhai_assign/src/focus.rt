//! Assignment to the focus of a chain. Ports what upstream's chains ask of `eval_op_assignment`.

ghost use Rattle.std.specs.Prelude.{◌≡◌, Some};
ghost use Rattle.rhai_tree.specs.declared.expr.Expr.{out-Expr};
ghost use Rattle.rhai_tree.specs.Positions.{start_of};
ghost use Rattle.rhai_values.specs.Cells.{cells_of, value_of_cell};
ghost use Rattle.rhai_errors.specs.declared.error.EvalAltResult.TheVariants as error;
ghost use Rattle.rhai_errors.specs.Errors.{root_name};
ghost use Rattle.rhai_machine.specs.language.Places.{InCell, InFocus, focus_in_cell, target as target_in};
ghost use Rattle.rhai_machine.specs.language.Places.{focus_target as focus_target_of};
ghost use Rattle.rhai_machine.specs.language.Values.{unit_value as unit};
ghost use Rattle.rhai_machine.specs.language.Runs.{Goes};
ghost use Rattle.rhai_machine.specs.language.Frames.{core, ended};
ghost use Rattle.rhai_machine.specs.language.Assignment.{assign_core};
ghost use Rattle.rhai_machine.specs.language.Chains.{assign_focus};
ghost use Rattle.rhai_steps.specs.Agreement.{KeepsSight};
ghost use Rattle.rhai_steps.specs.Sessions.{under};
ghost use Rattle.rhai_steps.specs.States.{state_of};
ghost use Rattle.rhai_steps.specs.Follows.{Follows};
ghost use Rattle.rhai_assign.specs.FocusTargets.{FindsFocus, IsWritable};
ghost use Rattle.rhai_assign.specs.Keeps.{KeepsHeld};
ghost use Rattle.rhai_assign.specs.Lending.{placed};

use crate::place::{Update, is_constant};
use crate::update::{assign_lent, update_by_natives};
use rhai_errors::error::EvalAltResult;
use rhai_errors::errors::{constant_of, data_race};
use rhai_errors::table::NativeTable;
use rhai_lookups::run::RunState;
use rhai_state::session::Session;
use rhai_steps::values::{let_go, unit_value};
use rhai_tree::expr::{Expr, OpAssignment};
use rhai_tree::position::Position;
use rhai_values::base::value::{AccessMode, CellId, Dynamic, Host, Union};
use rhai_values::cells::{CellStore, put_back};
use std::alloc::Global;
use std::mem::replace;

/// Finds the target in the cell of a handle, which may make a constant of it too.
fn target_in_cell<H: Host>(
    alloc: Global,
    cells: &CellStore<H>,
    focus: &Dynamic<H>,
    id: CellId,
    root: &Expr,
) -> Result<Option<CellId>, EvalAltResult<H>>
    ensures { FindsFocus result (cells_of cells.now) focus.now (focus_in_cell (root_name (out-Expr root.now))
        (start_of root.now) focus.now.mode id.number (value_of_cell (cells_of cells.now) id.number)) }
{
    let mode = focus.access_mode();
    match cells.get(id) {
        Some(inner) => {
            if is_constant(mode, inner.access_mode()) {
                return Err(constant_of(alloc, root));
            }
            Ok(Some(id))
        }
        None => {
            if is_constant(mode, mode) {
                return Err(constant_of(alloc, root));
            }
            Err(data_race(alloc, root.start_position()))
        }
    }
}

/// Finds where the target of a chain's focus is. It is in the cell that the focus is a handle of, or, for
/// None, the focus itself.
fn focus_target<H: Host>(
    alloc: Global,
    cells: &CellStore<H>,
    focus: &Dynamic<H>,
    root: &Expr,
) -> Result<Option<CellId>, EvalAltResult<H>>
    ensures { FindsFocus result (cells_of cells.now) focus.now (focus_target_of (cells_of cells.now)
        (root_name (out-Expr root.now)) (start_of root.now) focus.now) }
{
    let mode = focus.access_mode();
    match &focus.value {
        Union::Cell(id) => target_in_cell(alloc, cells, focus, *id, root),
        _ => {
            let constant = is_constant(mode, mode);
            if constant {
                return Err(constant_of(alloc, root));
            }
            Ok(None)
        }
    }
}

/// Assigns a value to that of a cell, which is taken from there and goes back whatever comes of it.
pub(crate) fn assign_in_cell<H: Host, T: NativeTable<H>>(
    session: &Session<'_, H>,
    global: &mut RunState<H>,
    table: &mut T,
    id: CellId,
    pos: Position,
    op: OpAssignment,
    value: Dynamic<H>,
) -> Result<Dynamic<H>, EvalAltResult<H>>
    requires { IsWritable (value_of_cell (cells_of global.old.cells) id.number) }
    ensures keeps { KeepsHeld global.old global.new }
    ensures sight { KeepsSight global.old global.new }
    ensures runs { (scope : _) (held : _) (path : _) (name : _) (inner : _) →
        value_of_cell (cells_of global.old.cells) id.number ≡ Some inner →
        let rules = under H.name_of session.now T.natives in
        Follows rules ended
        (assign_core rules.setting op.op (record { path = path; name = name; at = pos; op = op }) (target_in (InCell id.number) inner) value)
        (state_of (T.state table.old) global.old scope held) result
        (state_of (T.state table.new) global.new scope held) }
{
    let mut target = global.cells.take(id).unwrap();
    let result = assign_lent(
        session,
        global,
        table,
        &mut target,
        Some(id),
        pos,
        op,
        value,
    );
    put_back(&mut global.cells, id, target);
    result
}

/// Assigns a value to the focus of a chain: as it is, or by an operator as `assign_variable` does. A handle
/// stands for the value of its cell, which is held so long. The root of the chain tells which constant it is
/// that may not be assigned to.
///
/// # Errors
/// At the root's start: `ErrorAssignmentToConstant` for a constant, by its own mode or for a handle by
/// that of its cell's value, and `ErrorDataRace` for the handle of a cell that is held. At the operator:
/// what the operator answers, and `ErrorDataTooLarge` for a value above a limit; what a native left in
/// the target is measured at the root.
pub fn assign_focus<H: Host, T: NativeTable<H>>(
    session: &Session<'_, H>,
    global: &mut RunState<H>,
    table: &mut T,
    target: &mut Dynamic<H>,
    root: &Expr,
    op: OpAssignment,
    value: Dynamic<H>,
) -> Result<Dynamic<H>, EvalAltResult<H>>
    ensures keeps { KeepsHeld global.old global.new }
    ensures sight { KeepsSight global.old global.new }
    ensures runs { (scope : _) (held : _) → let rules = under H.name_of session.now T.natives in
        Follows rules ended (assign_focus rules.setting root.now (record { op = op; value = value }))
        (placed InFocus target.old (state_of (T.state table.old) global.old scope held)) result
        (placed InFocus target.new (state_of (T.state table.new) global.new scope held)) }
{
    let pos = root.position();
    match focus_target(session.alloc, &global.cells, target, root) {
        Ok(None) => assign_lent(session, global, table, target, None, pos, op, value),
        Ok(Some(id)) => assign_in_cell(session, global, table, id, pos, op, value),
        Err(error) => {
            let_go(value);
            Err(error)
        }
    }
}

/// Assigns a value to a `()` that was just inserted, as `assign_focus` does. No built-in operator takes it,
/// so under either setting of fast operators an operator is its natives' alone, and memory runs out in the
/// assignment only where it may run out in the machine too.
///
/// # Errors
/// What the natives of the operator answer, at the operator, and `ErrorDataTooLarge` for a value above a
/// limit; what a native left in the target is measured at the root.
pub fn assign_inserted<H: Host, T: NativeTable<H>>(
    session: &Session<'_, H>,
    global: &mut RunState<H>,
    table: &mut T,
    target: &mut Dynamic<H>,
    root: &Expr,
    op: OpAssignment,
    value: Dynamic<H>,
) -> Result<Dynamic<H>, EvalAltResult<H>>
    requires { target.old ≡ unit }
    ensures keeps { KeepsHeld global.old global.new }
    ensures sight { KeepsSight global.old global.new }
    ensures runs { (scope : _) (held : _) → let rules = under H.name_of session.now T.natives in
        Goes rules (assign_focus rules.setting root.now (record { op = op; value = value }))
        (placed InFocus target.old (state_of (T.state table.old) global.old scope held)) (core (ended result))
        (placed InFocus target.new (state_of (T.state table.new) global.new scope held)) }
{
    let target_at = root.position();
    match op.op {
        Some(token) => {
            let by = Update {
                token,
                at: op.position,
                cell: None,
                target_at,
            };
            update_by_natives(session, global, table, target, by, value)
        }
        None => {
            let mut value = value;
            value.set_access_mode(AccessMode::ReadWrite);
            let_go(replace(target, value));
            Ok(unit_value())
        }
    }
}
