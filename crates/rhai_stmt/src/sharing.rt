//! Variables that a script declares and exports, and those that closures share with it. Ports `Stmt::Share`
//! of upstream's `eval/stmt.rs`; the contracts speak of the machine's runs.

ghost use Rattle.std.specs.Prelude.{◌≡◌, ◌<◌, IfErr, IfSome, OnErr, OnOk, Some, length, true};
ghost use Rattle.rhai_tree.specs.Frame.{shared_resolve};
ghost use Rattle.rhai_values.specs.Cells.{cells_of};
ghost use Rattle.rhai_errors.specs.Errors.{is_out_of_memory};
ghost use Rattle.rhai_state.specs.Scope.{entries_of, names_in, value_in};
ghost use Rattle.rhai_machine.specs.language.Frames.{Share};
ghost use Rattle.rhai_machine.specs.language.Runs.{Runs};
ghost use Rattle.rhai_machine.specs.language.Sharing.{handle_of as handle_to, shared};
ghost use Rattle.rhai_machine.specs.language.Values.{is_handle as leads_to_cell};
ghost use Rattle.rhai_steps.specs.Agreement.{AgreesAt, KeepsSight};
ghost use Rattle.rhai_steps.specs.Sessions.{under};
ghost use Rattle.rhai_steps.specs.States.{local_of, state_of};
ghost use Rattle.rhai_context.specs.Ends.{came};

use rhai_context::ends::settle;
use rhai_errors::error::EvalAltResult;
use rhai_errors::errors::variable_not_found;
use rhai_errors::table::NativeTable;
use rhai_lookups::run::RunState;
use rhai_names::variables::index_of_variable;
use rhai_state::scope::Scope;
use rhai_state::session::Session;
use rhai_steps::values::unit_value;
use rhai_tree::expr::SharedVariable;
use rhai_tree::position::Position;
use rhai_values::base::value::{AccessMode, CellId, Dynamic, Host, Union};
use rhai_values::cells::put_back;

/// Tells whether a value is the handle of a cell.
fn is_handle<H: Host>(value: &Dynamic<H>) -> bool
    ensures { result ≡ leads_to_cell value.now.value }
{
    matches!(value.value, Union::Cell(_))
}

/// Makes the handle of a cell, with a mode of its own.
fn handle_of<H: Host>(id: CellId, mode: AccessMode) -> Dynamic<H>
    ensures { result ≡ handle_to id.number mode }
{
    Dynamic {
        value: Union::Cell(id),
        mode,
    }
}

/// Moves the value of an entry, which a closure and its script share, into a new cell. The cell's handle
/// stands in the entry then. A handle stays.
///
/// # Errors
/// `ErrorOutOfMemory` at the position. Then nothing was changed.
fn share_value<H: Host>(
    global: &mut RunState<H>,
    scope: &mut Scope<H>,
    index: usize,
    pos: Position,
) -> Result<(), EvalAltResult<H>>
    requires { index < length (entries_of scope.old) }
    ensures shared { (held : _) → IfSome (value_in (entries_of scope.old) (Some index)) (λ v.
        OnOk result (local_of global.new scope.new held ≡ shared index v.value v
        (local_of global.old scope.old held))) }
    ensures rest { global.new ≡ record global.old { cells = global.new.cells } }
    ensures sight { KeepsSight global.old global.new }
    ensures names { names_in scope.new ≡ names_in scope.old }
    ensures refused { IfErr result (λ e. is_out_of_memory e ≡ true) }
    ensures same_cells { OnErr result (cells_of global.new.cells ≡ cells_of global.old.cells) }
    ensures same_scope { OnErr result (entries_of scope.new ≡ entries_of scope.old) }
{
    if is_handle(scope.value_at(index)) {
        return Ok(());
    }
    let Ok(id) = global.cells.add(unit_value()) else {
        return Err(EvalAltResult::ErrorOutOfMemory(pos));
    };
    let mode = scope.value_at(index).access_mode();
    let value = scope.replace_value(index, handle_of(id, mode));
    put_back(&mut global.cells, id, value);
    Ok(())
}

/// Shares variables, one after the other, each the newest of its name. The table is not called.
fn share_each<H: Host, T: NativeTable<H>>(
    session: &Session<'_, H>,
    global: &mut RunState<H>,
    table: &T,
    scope: &mut Scope<H>,
    variables: &[SharedVariable],
) -> Result<Dynamic<H>, EvalAltResult<H>>
    requires { AgreesAt global.old scope.old (shared_resolve variables.now) }
    ensures rest { global.new ≡ record global.old { cells = global.new.cells } }
    ensures sight { KeepsSight global.old global.new }
    ensures names { names_in scope.new ≡ names_in scope.old }
    ensures runs { (held : _) → Runs (under H.name_of session.now T.natives)
        (Share variables.now) (state_of (T.state table.now) global.old scope.old held) result
        (state_of (T.state table.now) global.new scope.new held) }
{
    'each_variable: for variable in variables {
        let ident = &variable.ident;
        let Some(index) = index_of_variable(global, scope, variable.offset, &ident.name) else {
            return Err(variable_not_found(&ident.name, ident.pos));
        };
        share_value(global, scope, index, ident.pos)?;
    }
    Ok(unit_value())
}

/// Shares variables, one after the other, each the newest of its name. How that ended stands in the run,
/// whose value is `()` then. The table is not called.
///
/// # Errors
/// `ErrorVariableNotFound` at a variable that is not there, and `ErrorOutOfMemory`. Those before it stay
/// shared.
#[inline(never)]
pub fn share_variables<H: Host, T: NativeTable<H>>(
    session: &Session<'_, H>,
    global: &mut RunState<H>,
    table: &T,
    scope: &mut Scope<H>,
    out: &mut Dynamic<H>,
    place: &mut Option<EvalAltResult<H>>,
    variables: &[SharedVariable],
) -> bool
    requires { AgreesAt global.old scope.old (shared_resolve variables.now) }
    ensures rest { global.new ≡ record global.old { cells = global.new.cells } }
    ensures sight { KeepsSight global.old global.new }
    ensures names { names_in scope.new ≡ names_in scope.old }
    ensures runs { (held : _) → Runs (under H.name_of session.now T.natives)
        (Share variables.now) (state_of (T.state table.now) global.old scope.old held)
        (came result out.new place.new) (state_of (T.state table.now) global.new scope.new held) }
{
    let answer = share_each(session, global, table, scope, variables);
    settle(place, out, answer)
}
