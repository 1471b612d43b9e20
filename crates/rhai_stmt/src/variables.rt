//! The counter and the variable of a `for`, as its turns write them.

ghost use Rattle.std.specs.Prelude.{◌≡◌, ◌<◌, None, false, is_some, length, true};
ghost use Rattle.rhai_values.specs.Cells.{cells_of, value_of_cell, with_value};
ghost use Rattle.rhai_errors.specs.declared.error.EvalAltResult.TheVariants as error;
ghost use Rattle.rhai_errors.specs.Errors.{is_out_of_memory};
ghost use Rattle.rhai_state.specs.Scope.{entries_of};
ghost use Rattle.rhai_machine.specs.language.Walks.{place_of_entry};
ghost use Rattle.rhai_context.specs.Ends.{came, error_in};
ghost use Rattle.rhai_stmt.specs.Variables.{Wrote, cell_in, seen_as};

use rhai_context::ends::{stop, write_number};
use rhai_errors::error::EvalAltResult;
use rhai_errors::errors::data_race_of;
use rhai_state::scope::Scope;
use rhai_steps::values::let_go;
use rhai_tree::position::Position;
use rhai_tree::{Shared, Text};
use rhai_values::base::value::{CellId, Dynamic, Host, Union};
use rhai_values::cells::{CellStore, put_back};

/// Returns the cell that a variable is the handle of, if the body of its `for` shared it.
fn cell_of<H: Host>(value: &Dynamic<H>) -> Option<CellId>
    ensures { result ≡ cell_in value.now.value }
{
    match &value.value {
        Union::Cell(id) => Some(*id),
        _ => None,
    }
}

/// Writes a value into a cell.
///
/// # Errors
/// `ErrorDataRace` at the position where the cell is held. Then nothing was written.
#[inline(never)]
fn write_cell<H: Host>(
    cells: &mut CellStore<H>,
    place: &mut Option<EvalAltResult<H>>,
    id: CellId,
    value: Dynamic<H>,
    name: &Shared<Text>,
    pos: Position,
) -> bool
    ensures known { result ≡ true → is_some (value_of_cell (cells_of cells.old) id.number) ≡ true }
    ensures wrote { result ≡ true → cells_of cells.new ≡ with_value (cells_of cells.old) id.number value }
    ensures held { result ≡ false → value_of_cell (cells_of cells.old) id.number ≡ None }
    ensures told { result ≡ false → is_out_of_memory (error_in place.new) ≡ false →
        error_in place.new ≡ error.ErrorDataRace name.now pos }
    ensures same { result ≡ false → cells_of cells.new ≡ cells_of cells.old }
{
    if cells.get(id).is_none() {
        let_go(value);
        return stop(place, data_race_of(name, pos));
    }
    put_back(cells, id, value);
    true
}

/// Writes a variable of a `for`, as it is. That is the entry, or the cell that the entry is the handle of.
///
/// # Errors
/// `ErrorDataRace` at the position where its cell is held. Then nothing was written.
#[inline(always)]
pub fn write_variable<H: Host>(
    scope: &mut Scope<H>,
    cells: &mut CellStore<H>,
    place: &mut Option<EvalAltResult<H>>,
    index: usize,
    value: Dynamic<H>,
    name: &Shared<Text>,
    pos: Position,
) -> bool
    requires { index < length (entries_of scope.old) }
    ensures wrote { (l : _) → let before = seen_as (entries_of scope.old) (cells_of cells.old) l in
        Wrote (came result tt place.new) (place_of_entry name.now pos index before) value before
        (entries_of scope.new) (cells_of cells.new) }
    ensures scope { result ≡ false → entries_of scope.new ≡ entries_of scope.old }
    ensures cells { result ≡ false → cells_of cells.new ≡ cells_of cells.old }
{
    let Some(id) = cell_of(scope.value_at(index)) else {
        write_number(scope, index, value);
        return true;
    };
    write_cell(cells, place, id, value, name, pos)
}
