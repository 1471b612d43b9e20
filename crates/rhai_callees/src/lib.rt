//! Calls whose arguments are there: by a name, with a variable that is read last or with `this`, behind a
//! path, of a function that a pointer is linked to, and by a native's number. Ports what upstream's
//! `func/call.rs` does once it has the arguments. The contracts cite the machine's
//! specs/language/Arguments.antt and the crate's own specs/.
#![tactic(auto)]

pub mod arguments;
pub mod path;
pub mod pointers;
pub mod runs;
pub mod this;
pub mod variable;

ghost use Rattle.std.specs.Prelude.{◌≤◌, ◌++◌, [], not};
ghost use Rattle.rhai_values.specs.Cells.{cells_of};
ghost use Rattle.rhai_machine.specs.language.Calls.{plainly};
ghost use Rattle.rhai_machine.specs.language.Frames.{ToCall, ToCallNumber, core, ended};
ghost use Rattle.rhai_machine.specs.language.Runs.{Goes};
ghost use Rattle.rhai_machine.specs.language.Arguments.{arguments_there};
ghost use Rattle.rhai_steps.specs.Operations.{operation_of};
ghost use Rattle.rhai_steps.specs.Agreement.{KeepsSight};
ghost use Rattle.rhai_steps.specs.Sessions.{under};
ghost use Rattle.rhai_steps.specs.States.{state_of};
ghost use Rattle.rhai_calls.specs.Called.{with_args, came_out};
ghost use Rattle.rhai_callees.specs.Linked.{linked_call, Comes};

use rhai_call_forms::arguments::join;
use rhai_calls::dispatch::{Called, call_all, races};
use rhai_calls::native::{call_number as call_number_first, call_number_alone};
use rhai_errors::error::EvalAltResult;
use rhai_errors::errors::data_race_by;
use rhai_errors::table::NativeTable;
use rhai_few::Few;
use rhai_functions::function::Function;
use rhai_lookups::run::RunState;
use rhai_state::session::Session;
use rhai_steps::operation::Operation;
use rhai_steps::values::let_go;
use rhai_tree::Items;
use rhai_tree::literal::NativeId;
use rhai_tree::position::Position;
use rhai_values::base::value::{Dynamic, Host};
use rhai_values::cells::CellStore;
use std::alloc::Global;

/// Makes a call by name with the values that a pointer has already before its arguments.
fn call_curried<H: Host, T: NativeTable<H>>(
    session: &Session<'_, H>,
    global: &mut RunState<H>,
    table: &mut T,
    natives_alone: bool,
    operation: &Operation<'_>,
    curried: Items<Dynamic<H>>,
    args: &mut Few<Dynamic<H>>,
) -> Called<Dynamic<H>, Function<H>, H>
    ensures counts { global.old.num_operations ≤ global.new.num_operations }
    ensures sight { KeepsSight global.old global.new }
    ensures runs { (scope : _) (held : _) (on_scope : _) → let rules = under H.name_of session.now T.natives in
        Goes rules
        (arguments_there rules.setting (ToCall (operation_of operation.now) curried (plainly natives_alone on_scope)) args.old)
        (state_of (T.state table.old) global.old scope held)
        (came_out (not on_scope) operation.now.at (with_args result args.new))
        (state_of (T.state table.new) global.new scope held) }
{
    match join(curried, args, operation.at) {
        Ok(()) => call_all(session, global, table, natives_alone, operation, args),
        Err(error) => Called::Ended(Err(error)),
    }
}

/// Makes a call by name whose arguments are there, behind the values that a pointer has already. For a
/// function of a script all stand in the list then. Ports what upstream's `make_function_call` does where it
/// passes no argument by reference.
///
/// # Errors
/// Those of `rhai_calls::dispatch::pass_call`.
pub fn call_values<H: Host, T: NativeTable<H>>(
    session: &Session<'_, H>,
    global: &mut RunState<H>,
    table: &mut T,
    natives_alone: bool,
    operation: &Operation<'_>,
    curried: Items<Dynamic<H>>,
    args: &mut Few<Dynamic<H>>,
) -> Called<Dynamic<H>, Function<H>, H>
    ensures counts { global.old.num_operations ≤ global.new.num_operations }
    ensures sight { KeepsSight global.old global.new }
    ensures runs { (scope : _) (held : _) (on_scope : _) → let rules = under H.name_of session.now T.natives in
        Goes rules
        (arguments_there rules.setting (ToCall (operation_of operation.now) curried (plainly natives_alone on_scope)) args.old)
        (state_of (T.state table.old) global.old scope held)
        (came_out (not on_scope) operation.now.at (with_args result args.new))
        (state_of (T.state table.new) global.new scope held) }
{
    if curried.is_empty() {
        drop(curried);
        return call_all(session, global, table, natives_alone, operation, args);
    }
    call_curried(
        session,
        global,
        table,
        natives_alone,
        operation,
        curried,
        args,
    )
}

/// Calls a function that a pointer is linked to, whose arguments are there.
fn enter_linked<H: Host>(
    alloc: Global,
    cells: &CellStore<H>,
    function: Function<H>,
    args: &mut Few<Dynamic<H>>,
    pos: Position,
) -> Called<Dynamic<H>, Function<H>, H>
    ensures { Comes (with_args result args.new) (linked_call (cells_of cells.now) function args.old pos) }
{
    if races(cells, args.as_slice()) {
        let error = data_race_by(alloc, function.def.get().def().name.get().as_str(), pos);
        drop(function);
        return Called::Ended(Err(error));
    }
    Called::Enters(function)
}

/// Calls a function that a pointer is linked to, at once. The values that the pointer has already come first,
/// and the arguments behind them. Its body is for the caller to enter, with all of them in the list.
///
/// # Errors
/// `ErrorDataRace` at the call, under the function's name, for an argument that is the handle of a cell which
/// is held.
pub fn call_function<H: Host>(
    alloc: Global,
    cells: &CellStore<H>,
    function: Function<H>,
    curried: Items<Dynamic<H>>,
    args: &mut Few<Dynamic<H>>,
    pos: Position,
) -> Called<Dynamic<H>, Function<H>, H>
    ensures { Comes (with_args result args.new)
        (linked_call (cells_of cells.now) function (curried ++ args.old) pos) }
{
    match join(curried, args, pos) {
        Ok(()) => enter_linked(alloc, cells, function, args, pos),
        Err(error) => Called::Ended(Err(error)),
    }
}

/// Calls a native by its number, whose arguments are there.
fn call_number_all<H: Host, T: NativeTable<H>>(
    session: &Session<'_, H>,
    global: &mut RunState<H>,
    table: &mut T,
    id: NativeId,
    operation: &Operation<'_>,
    args: &mut Few<Dynamic<H>>,
) -> Result<Dynamic<H>, EvalAltResult<H>>
    ensures counts { global.old.num_operations ≤ global.new.num_operations }
    ensures sight { KeepsSight global.old global.new }
    ensures runs { (scope : _) (held : _) → let rules = under H.name_of session.now T.natives in
        Goes rules
        (arguments_there rules.setting (ToCallNumber id.number (operation_of operation.now) []) args.old)
        (state_of (T.state table.old) global.old scope held) (core (ended result))
        (state_of (T.state table.new) global.new scope held) }
{
    if races(&global.cells, args.as_slice()) {
        return Err(data_race_by(session.alloc, operation.name, operation.at));
    }
    if args.is_empty() {
        return call_number_alone(session, global, table, id, operation);
    }
    let mut first = args.remove(0);
    let others = args.as_slice();
    let result = call_number_first(session, global, table, id, operation, &mut first, others);
    let_go(first);
    result
}

/// Calls a native that a pointer leads to by its number, at once. The values that the pointer has already
/// come first, and the arguments behind them. It charges nothing.
///
/// # Errors
/// `ErrorDataRace` at the call for an argument that is the handle of a cell which is held, and those of
/// `rhai_calls::native::call_number`.
pub fn call_number<H: Host, T: NativeTable<H>>(
    session: &Session<'_, H>,
    global: &mut RunState<H>,
    table: &mut T,
    id: NativeId,
    operation: &Operation<'_>,
    curried: Items<Dynamic<H>>,
    args: &mut Few<Dynamic<H>>,
) -> Result<Dynamic<H>, EvalAltResult<H>>
    ensures counts { global.old.num_operations ≤ global.new.num_operations }
    ensures sight { KeepsSight global.old global.new }
    ensures runs { (scope : _) (held : _) → let rules = under H.name_of session.now T.natives in
        Goes rules
        (arguments_there rules.setting (ToCallNumber id.number (operation_of operation.now) curried) args.old)
        (state_of (T.state table.old) global.old scope held) (core (ended result))
        (state_of (T.state table.new) global.new scope held) }
{
    match join(curried, args, operation.at) {
        Ok(()) => call_number_all(session, global, table, id, operation, args),
        Err(error) => Err(error),
    }
}
