//! Where the value of a variable stands, as it is assigned to: it is found, read, taken and
//! written there.

ghost use Rattle.std.specs.Prelude.{◌≡◌, ◌||◌, Err, Some, false, true};
ghost use Rattle.rhai_values.specs.Cells.{cells_of, value_of_cell};
ghost use Rattle.rhai_state.specs.Scope.{entries_of, value_in};
ghost use Rattle.rhai_machine.specs.language.Values.{unit_value as unit};
ghost use Rattle.rhai_machine.specs.language.Names.{temporary, value_beside};
ghost use Rattle.rhai_machine.specs.language.Places.{is_constant as constant_at, target, target_in_cell};
ghost use Rattle.rhai_machine.specs.language.Places.{target_at, target_meant, target_of};
ghost use Rattle.rhai_machine.specs.language.Places.{unless_constant as allowed, while_lent};
ghost use Rattle.rhai_machine.specs.language.Variables.{variable_named};
ghost use Rattle.rhai_steps.specs.Agreement.{AgreesAt, RootStands};
ghost use Rattle.rhai_steps.specs.Offers.{globals_in};
ghost use Rattle.rhai_steps.specs.States.{surroundings_of};
ghost use Rattle.rhai_names.specs.Variables.{offset_is_good, variable_told};
ghost use Rattle.rhai_errors.specs.Errors.{is_out_of_memory};
ghost use Rattle.rhai_assign.specs.Targets.{Finds, FindsNamed, IsKnownAt, IsPut, entries_put, named_target, own_cell};
ghost use Rattle.rhai_assign.specs.Targets.{place_in, stands_at, there, value_standing_at};

use rhai_errors::error::EvalAltResult;
use rhai_errors::errors::{assignment_to_constant, data_race_of};
use rhai_lookups::run::RunState;
use rhai_names::variables::{Variable, entry_of_variable, read_beside};
use rhai_state::scope::Scope;
use rhai_state::session::Session;
use rhai_steps::values::{let_go, unit_value};
use rhai_tree::expr::Namespace;
use rhai_tree::position::Position;
use rhai_tree::token::Token;
use rhai_tree::{Shared, Text};
use rhai_values::base::value::{AccessMode, CellId, Dynamic, Host, Union};
use rhai_values::cells::{CellStore, put_back};

/// Where a variable's value stands: in an entry of the scope, or in a cell.
#[derive(Clone, Copy)]
pub enum Place {
    InEntry(usize),
    InCell(CellId),
}

/// An assignment by an operator to a target that is lent.
#[derive(Clone, Copy)]
pub(crate) struct Update {
    /// The operator without its `=`.
    pub(crate) token: Token,
    /// Where the operator stands.
    pub(crate) at: Position,
    /// The cell that the target was taken from, which is held meanwhile.
    pub(crate) cell: Option<CellId>,
    /// Where the target stands in the script.
    pub(crate) target_at: Position,
}

/// Returns the cell of a place, if it is one.
pub(crate) fn cell_of(place: Place) -> Option<CellId>
    ensures { result ≡ own_cell place }
{
    match place {
        Place::InEntry(_) => None,
        Place::InCell(id) => Some(id),
    }
}

/// Tells whether a target is a constant, by its own mode or by that of its cell's value.
pub(crate) fn is_constant(mode: AccessMode, inner: AccessMode) -> bool
    ensures { result ≡ (constant_at mode || constant_at inner) }
{
    matches!(mode, AccessMode::ReadOnly) || matches!(inner, AccessMode::ReadOnly)
}

/// Refuses a place that is a constant's, and returns any other.
fn unless_constant<H: Host>(
    constant: bool,
    place: Place,
    name: &Shared<Text>,
    pos: Position,
) -> Result<Place, EvalAltResult<H>>
    ensures { (entries : _) (cells : _) (v : _) → there (place_in place) entries cells ≡ Some v →
        Finds result entries cells (allowed constant name.now pos (target (place_in place) v)) }
{
    if constant {
        return Err(assignment_to_constant(name, pos));
    }
    Ok(place)
}

/// Finds the place of a variable whose value is in a cell.
fn find_in_cell<H: Host>(
    cells: &CellStore<H>,
    mode: AccessMode,
    id: CellId,
    name: &Shared<Text>,
    pos: Position,
) -> Result<Place, EvalAltResult<H>>
    ensures { (entries : _) → Finds result entries (cells_of cells.now)
        (target_in_cell name.now pos mode id.number (value_of_cell (cells_of cells.now) id.number)) }
{
    match cells.get(id) {
        Some(inner) => {
            let constant = is_constant(mode, inner.access_mode());
            unless_constant(constant, Place::InCell(id), name, pos)
        }
        None => Err(data_race_of(name, pos)),
    }
}

/// Finds the place of the variable at an entry, as it is assigned to.
fn entry_target<H: Host>(
    cells: &CellStore<H>,
    index: usize,
    value: &Dynamic<H>,
    name: &Shared<Text>,
    pos: Position,
) -> Result<Place, EvalAltResult<H>>
    ensures { (entries : _) → value_in entries (Some index) ≡ Some value.now →
        Finds result entries (cells_of cells.now)
        (target_at (cells_of cells.now) name.now pos index value.now.value value.now) }
{
    let mode = value.access_mode();
    match &value.value {
        Union::Cell(id) => find_in_cell(cells, mode, *id, name, pos),
        _ => unless_constant(is_constant(mode, mode), Place::InEntry(index), name, pos),
    }
}

/// Finds the place of a variable that an entry has and that may be assigned to. None for any other. It is
/// found as `entry_of_variable` says, which asks the same of its offset.
pub fn find_named<H: Host>(
    global: &RunState<H>,
    scope: &Scope<H>,
    variable: &Variable<'_>,
) -> Option<Place>
    requires { AgreesAt global.now scope.now (offset_is_good variable.now) }
    ensures { FindsNamed result (entries_of scope.now) (cells_of global.now.cells)
        (named_target (cells_of global.now.cells) variable.now.namespace.now.path variable.now.name.now variable.now.at (entries_of scope.now)) }
{
    let index = entry_of_variable(
        global,
        scope,
        variable.offset,
        variable.name,
        variable.namespace,
    )?;
    match entry_target(
        &global.cells,
        index,
        scope.value_at(index),
        variable.name,
        variable.at,
    ) {
        Ok(place) => Some(place),
        Err(error) => {
            drop(error);
            None
        }
    }
}

/// Tells why a variable that no entry has is not assigned to: what else it means is a constant.
#[cold]
#[inline(never)]
fn no_target<H: Host>(
    session: &Session<'_, H>,
    global: &RunState<H>,
    name: &Shared<Text>,
    namespace: &Namespace,
    pos: Position,
) -> EvalAltResult<H>
    requires { RootStands global.now namespace.now }
    ensures { is_out_of_memory result ≡ false →
        target_meant (cells_of global.now.cells) name.now pos (temporary (value_beside
        (globals_in session.now.offered) (surroundings_of global.now) (variable_named name.now namespace.now pos)))
        ≡ Err result }
{
    match read_beside(session, global, name, namespace, pos) {
        Ok(value) => {
            let_go(value);
            assignment_to_constant(name, pos)
        }
        Err(error) => error,
    }
}

/// Finds the place of a variable, as it is assigned to. It is found as `entry_of_variable` says, which asks
/// the same of its offset.
pub(crate) fn find_target<H: Host>(
    session: &Session<'_, H>,
    global: &RunState<H>,
    scope: &Scope<H>,
    variable: &Variable<'_>,
) -> Result<Place, EvalAltResult<H>>
    requires { AgreesAt global.now scope.now (offset_is_good variable.now) }
    ensures { Finds result (entries_of scope.now) (cells_of global.now.cells)
        (target_of (globals_in session.now.offered) (surroundings_of global.now) (entries_of scope.now)
        (variable_told variable.now)) }
{
    match entry_of_variable(
        global,
        scope,
        variable.offset,
        variable.name,
        variable.namespace,
    ) {
        Some(index) => entry_target(
            &global.cells,
            index,
            scope.value_at(index),
            variable.name,
            variable.at,
        ),
        None => Err(no_target(
            session,
            global,
            variable.name,
            variable.namespace,
            variable.at,
        )),
    }
}

/// Returns the value at a place. Asked: there is one.
pub fn value_at<'a, H: Host>(
    cells: &'a CellStore<H>,
    scope: &'a Scope<H>,
    place: Place,
) -> &'a Dynamic<H>
    requires { stands_at place scope.now cells.now ≡ true }
    ensures { value_standing_at place scope.now cells.now ≡ Some result.now }
{
    match place {
        Place::InEntry(index) => scope.value_at(index),
        Place::InCell(id) => cells.get(id).unwrap(),
    }
}

/// Writes a value to a place. Asked: the place is known.
pub(crate) fn put<H: Host>(
    cells: &mut CellStore<H>,
    scope: &mut Scope<H>,
    place: Place,
    value: Dynamic<H>,
)
    requires { IsKnownAt place scope.old cells.old }
    ensures { IsPut place value scope.old scope.new cells.old cells.new }
{
    match place {
        Place::InEntry(index) => let_go(scope.replace_value(index, value)),
        Place::InCell(id) => put_back(cells, id, value),
    }
}

/// Takes the value out of a place, whose cell is then held. Asked: there is one.
pub(crate) fn take<H: Host>(
    cells: &mut CellStore<H>,
    scope: &mut Scope<H>,
    place: Place,
) -> Dynamic<H>
    requires { stands_at place scope.old cells.old ≡ true }
    ensures value { value_standing_at place scope.old cells.old ≡ Some result }
    ensures entries { entries_of scope.new ≡ entries_put (place_in place) unit (entries_of scope.old) }
    ensures cells { cells_of cells.new ≡ while_lent (place_in place) (cells_of cells.old) }
{
    match place {
        Place::InEntry(index) => scope.replace_value(index, unit_value()),
        Place::InCell(id) => cells.take(id).unwrap(),
    }
}
