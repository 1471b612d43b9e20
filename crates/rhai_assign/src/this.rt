//! Assignment to `this`. Ports what upstream's assignments do where the left side is `this`.

ghost use Rattle.std.specs.Prelude.{[], Some};
ghost use Rattle.rhai_values.specs.Cells.{cells_of, value_of_cell};
ghost use Rattle.rhai_machine.specs.language.Places.{focus_in_cell, this_target as this_target_of};
ghost use Rattle.rhai_machine.specs.language.Frames.{ended};
ghost use Rattle.rhai_machine.specs.language.Assignment.{store_this};
ghost use Rattle.rhai_steps.specs.Agreement.{KeepsSight};
ghost use Rattle.rhai_steps.specs.Sessions.{under};
ghost use Rattle.rhai_steps.specs.States.{state_of};
ghost use Rattle.rhai_steps.specs.Follows.{Follows};
ghost use Rattle.rhai_assign.specs.FocusTargets.{FindsThis};
ghost use Rattle.rhai_assign.specs.Keeps.{KeepsHeld};

use crate::focus::assign_in_cell;
use crate::place::is_constant;
use crate::update::assign_lent;
use rhai_errors::error::EvalAltResult;
use rhai_errors::errors::{data_race, nameless_constant};
use rhai_errors::table::NativeTable;
use rhai_lookups::run::RunState;
use rhai_state::session::Session;
use rhai_steps::values::let_go;
use rhai_tree::expr::OpAssignment;
use rhai_tree::position::Position;
use rhai_values::base::value::{CellId, Dynamic, Host, Union};
use rhai_values::cells::CellStore;
use std::alloc::Global;

/// Finds the target in the cell of a handle, which may make a constant of it too.
fn target_in_cell<H: Host>(
    alloc: Global,
    cells: &CellStore<H>,
    this: &Dynamic<H>,
    id: CellId,
    pos: Position,
) -> Result<Option<CellId>, EvalAltResult<H>>
    ensures { FindsThis result (cells_of cells.now) this.now (focus_in_cell [] pos this.now.mode id.number
        (value_of_cell (cells_of cells.now) id.number)) }
{
    let mode = this.access_mode();
    match cells.get(id) {
        Some(inner) => {
            if is_constant(mode, inner.access_mode()) {
                return Err(nameless_constant(alloc, pos));
            }
            Ok(Some(id))
        }
        None => {
            if is_constant(mode, mode) {
                return Err(nameless_constant(alloc, pos));
            }
            Err(data_race(alloc, pos))
        }
    }
}

/// Finds where the target of an assignment to `this` is. It is in the cell that `this` is a handle of, or,
/// for None, `this` itself.
fn this_target<H: Host>(
    alloc: Global,
    cells: &CellStore<H>,
    this: &Dynamic<H>,
    pos: Position,
) -> Result<Option<CellId>, EvalAltResult<H>>
    ensures { FindsThis result (cells_of cells.now) this.now
        (this_target_of (cells_of cells.now) pos (Some this.now)) }
{
    let mode = this.access_mode();
    match &this.value {
        Union::Cell(id) => target_in_cell(alloc, cells, this, *id, pos),
        _ => {
            let constant = is_constant(mode, mode);
            if constant {
                return Err(nameless_constant(alloc, pos));
            }
            Ok(None)
        }
    }
}

/// Assigns a value to `this`, which is charged already: as it is, or by an operator as `assign_variable`
/// does. A handle stands for the value of its cell, which is held so long.
///
/// # Errors
/// At `this`: `ErrorAssignmentToConstant` without a name for a constant, by its own mode or for a handle by
/// that of its cell's value, and `ErrorDataRace` for the handle of a cell that is held. At the operator:
/// what the operator answers, and `ErrorDataTooLarge` for a value above a limit; what a native left in the
/// target is measured at `this`.
pub fn assign_this<H: Host, T: NativeTable<H>>(
    session: &Session<'_, H>,
    global: &mut RunState<H>,
    table: &mut T,
    this: &mut Dynamic<H>,
    pos: Position,
    op: OpAssignment,
    value: Dynamic<H>,
) -> Result<Dynamic<H>, EvalAltResult<H>>
    ensures keeps { KeepsHeld global.old global.new }
    ensures sight { KeepsSight global.old global.new }
    ensures runs { (scope : _) (focus : _) → let rules = under H.name_of session.now T.natives in
        Follows rules ended (store_this rules.setting op pos value)
        (state_of (T.state table.old) global.old scope (record { this = Some this.old; focus = focus }))
        result
        (state_of (T.state table.new) global.new scope (record { this = Some this.new; focus = focus })) }
{
    match this_target(session.alloc, &global.cells, this, pos) {
        Ok(None) => assign_lent(session, global, table, this, None, pos, op, value),
        Ok(Some(id)) => assign_in_cell(session, global, table, id, pos, op, value),
        Err(error) => {
            let_go(value);
            Err(error)
        }
    }
}
