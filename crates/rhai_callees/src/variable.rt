//! A call by name whose first argument is a variable, which is read last.

ghost use Rattle.std.specs.Prelude.{◌≡◌, ◌≤◌, ◌<◌, ◌∷◌, None, Some, false, length, not, true};
ghost use Rattle.rhai_values.specs.Cells.{cells_of};
ghost use Rattle.rhai_values.specs.Copy.{copy_of};
ghost use Rattle.rhai_state.specs.Scope.{entries_of, names_in, value_in};
ghost use Rattle.rhai_machine.specs.language.State.{Answers};
ghost use Rattle.rhai_machine.specs.language.Values.{flat};
ghost use Rattle.rhai_machine.specs.language.Calls.{plainly, dispatch_core};
ghost use Rattle.rhai_machine.specs.language.Frames.{FromEntry, ToCallOn};
ghost use Rattle.rhai_machine.specs.language.Names.{entry_named, value_beside};
ghost use Rattle.rhai_machine.specs.language.Variables.{Path, variable_named};
ghost use Rattle.rhai_machine.specs.language.Runs.{Goes};
ghost use Rattle.rhai_machine.specs.language.Arguments.{arguments_there};
ghost use Rattle.rhai_steps.specs.Operations.{operation_of};
ghost use Rattle.rhai_steps.specs.Agreement.{AgreesAt, KeepsSight, RootStands};
ghost use Rattle.rhai_steps.specs.Offers.{globals_in};
ghost use Rattle.rhai_steps.specs.Sessions.{under};
ghost use Rattle.rhai_steps.specs.States.{local_of, state_of, surroundings_of};
ghost use Rattle.rhai_names.specs.Variables.{offset_is_good, variable_told};
ghost use Rattle.rhai_calls.specs.Called.{with_args, came_out};
ghost use Rattle.rhai_calls.specs.declared.dispatch.Called.TheVariants.{Enters};
ghost use Rattle.rhai_steps.specs.Lending.{back_in, lent_call, Stands};
ghost use Rattle.rhai_callees.specs.Linked.{Comes};
ghost use Rattle.rhai_names.specs.Passed.{copy_passed};

use rhai_calls::dispatch::{Called, Seeks, is_held, pass_call};
use rhai_calls::native::{Passing, drop_changed};
use rhai_errors::error::EvalAltResult;
use rhai_errors::errors::data_race_of;
use rhai_errors::table::NativeTable;
use rhai_few::Few;
use rhai_functions::function::Function;
use rhai_lookups::run::RunState;
use rhai_names::variables::{Variable, entry_of_variable, is_lendable, read_beside};
use rhai_state::scope::Scope;
use rhai_state::session::Session;
use rhai_steps::operation::Operation;
use rhai_steps::values::{copy, flatten, let_go, unit_value};
use rhai_tree::expr::Namespace;
use rhai_tree::position::Position;
use rhai_tree::{Shared, Text};
use rhai_values::base::value::{Dynamic, Host};
use rhai_values::cells::CellStore;
use std::alloc::Global;

/// Copies a variable's value as it is passed by itself: of a handle the cell's value.
pub(crate) fn pass_value<H: Host>(
    alloc: Global,
    cells: &CellStore<H>,
    value: &Dynamic<H>,
    pos: Position,
) -> Result<Dynamic<H>, EvalAltResult<H>>
    ensures { Answers result (flat (cells_of cells.now) (copy_of value.now) pos) }
{
    let value = copy(alloc, value, pos)?;
    flatten(alloc, cells, value, pos)
}

/// Copies what a variable means that is no entry, as it is passed by itself.
pub(crate) fn pass_beside<H: Host>(
    session: &Session<'_, H>,
    global: &RunState<H>,
    variable: &Shared<Text>,
    namespace: &Namespace,
    pos: Position,
) -> Result<Dynamic<H>, EvalAltResult<H>>
    requires { RootStands global.now namespace.now }
    ensures { Answers result (copy_passed (cells_of global.now.cells) pos
        (value_beside (globals_in session.now.offered) (surroundings_of global.now)
        (variable_named variable.now namespace.now pos))) }
{
    let value = read_beside(session, global, variable, namespace, pos)?;
    let passed = pass_value(session.alloc, &global.cells, &value, pos);
    let_go(value);
    passed
}

/// Gives a function of a script a value before the other arguments. It is entered if there is memory for that
/// in their list.
pub(crate) fn enter_with<H: Host>(
    function: Function<H>,
    first: Dynamic<H>,
    args: &mut Few<Dynamic<H>>,
    pos: Position,
) -> Called<Dynamic<H>, Function<H>, H>
    ensures { Comes (with_args result args.new) (Enters (function, first ∷ args.old)) }
{
    match args.insert(0, first) {
        Ok(()) => Called::Enters(function),
        Err(_) => {
            drop(function);
            Called::Ended(Err(EvalAltResult::ErrorOutOfMemory(pos)))
        }
    }
}

/// Gives a function of a script a copy of a value that was lent, before the other arguments. It is entered if
/// there is memory for that.
pub(crate) fn enter_with_copy<H: Host>(
    alloc: Global,
    function: Function<H>,
    first: &Dynamic<H>,
    args: &mut Few<Dynamic<H>>,
    pos: Position,
) -> Called<Dynamic<H>, Function<H>, H>
    ensures { Comes (with_args result args.new) (Enters (function, copy_of first.now ∷ args.old)) }
{
    match copy(alloc, first, pos) {
        Ok(first) => enter_with(function, first, args, pos),
        Err(error) => {
            drop(function);
            Called::Ended(Err(error))
        }
    }
}

/// Makes a call whose first argument is lent from the entry of a variable. It is taken out of there, and put
/// back on every way out.
fn call_lent<H: Host, T: NativeTable<H>>(
    session: &Session<'_, H>,
    global: &mut RunState<H>,
    table: &mut T,
    scope: &mut Scope<H>,
    index: usize,
    natives_alone: bool,
    operation: &Operation<'_>,
    args: &mut Few<Dynamic<H>>,
) -> Called<Dynamic<H>, Function<H>, H>
    requires { index < length (entries_of scope.old) }
    ensures counts { global.old.num_operations ≤ global.new.num_operations }
    ensures sight { KeepsSight global.old global.new }
    ensures names { names_in scope.new ≡ names_in scope.old }
    ensures runs { (held : _) (on_scope : _) (v : _) → value_in (entries_of scope.old) (Some index) ≡ Some v →
        let rules = under H.name_of session.now T.natives in
        Goes rules
        (dispatch_core rules.setting (plainly natives_alone on_scope) (lent_call (operation_of operation.now) (Some (FromEntry index)) true (v ∷ args.old)))
        (state_of (T.state table.old) global.old scope.old held)
        (came_out (not on_scope) operation.now.at (with_args result args.new))
        (state_of (T.state table.new) global.new scope.new held) }
{
    let mut first = scope.replace_value(index, unit_value());
    let called = call_first(
        session,
        global,
        table,
        natives_alone,
        operation,
        &mut first,
        args,
    );
    let_go(scope.replace_value(index, first));
    called
}

/// Makes a call by name with its first argument before the others, which may be lent. A function of a script
/// gets a copy of it.
pub(crate) fn call_first<H: Host, T: NativeTable<H>>(
    session: &Session<'_, H>,
    global: &mut RunState<H>,
    table: &mut T,
    natives_alone: bool,
    operation: &Operation<'_>,
    first: &mut Dynamic<H>,
    args: &mut Few<Dynamic<H>>,
) -> Called<Dynamic<H>, Function<H>, H>
    ensures counts { global.old.num_operations ≤ global.new.num_operations }
    ensures sight { KeepsSight global.old global.new }
    ensures runs { (scope : _) (held : _) (lender : _) (on_scope : _) → Stands (Some lender) first.old (local_of global.old scope held) →
        let rules = under H.name_of session.now T.natives in
        Goes rules
        (dispatch_core rules.setting (plainly natives_alone on_scope) (lent_call (operation_of operation.now) (Some lender) true (first.old ∷ args.old)))
        (state_of (T.state table.old) global.old scope held)
        (came_out (not on_scope) operation.now.at (with_args result args.new))
        (back_in (Some lender) first.new (state_of (T.state table.new) global.new scope held)) }
{
    let seeks = Seeks {
        of_method: false,
        natives_alone,
    };
    let passing = Passing {
        guarded: true,
        marks: false,
    };
    let rest = args.as_slice();
    match pass_call(
        session, global, table, seeks, operation, first, rest, passing,
    ) {
        Called::Ended(result) => Called::Ended(drop_changed(result)),
        Called::Enters(function) => enter_with_copy(
            session.alloc,
            function,
            first,
            args,
            operation.at,
        ),
    }
}

/// Makes a call by name with a value of its own before the other arguments.
fn call_passed<H: Host, T: NativeTable<H>>(
    session: &Session<'_, H>,
    global: &mut RunState<H>,
    table: &mut T,
    natives_alone: bool,
    operation: &Operation<'_>,
    first: Dynamic<H>,
    args: &mut Few<Dynamic<H>>,
) -> Called<Dynamic<H>, Function<H>, H>
    ensures counts { global.old.num_operations ≤ global.new.num_operations }
    ensures sight { KeepsSight global.old global.new }
    ensures runs { (scope : _) (held : _) (on_scope : _) → let rules = under H.name_of session.now T.natives in
        Goes rules
        (dispatch_core rules.setting (plainly natives_alone on_scope) (lent_call (operation_of operation.now) None false (first ∷ args.old)))
        (state_of (T.state table.old) global.old scope held)
        (came_out (not on_scope) operation.now.at (with_args result args.new))
        (state_of (T.state table.new) global.new scope held) }
{
    let mut first = first;
    let seeks = Seeks {
        of_method: false,
        natives_alone,
    };
    let passing = Passing {
        guarded: false,
        marks: false,
    };
    let rest = args.as_slice();
    match pass_call(
        session, global, table, seeks, operation, &mut first, rest, passing,
    ) {
        Called::Ended(result) => {
            let_go(first);
            Called::Ended(drop_changed(result))
        }
        Called::Enters(function) => enter_with(function, first, args, operation.at),
    }
}

/// Makes a call on the variable at an entry.
fn call_found<H: Host, T: NativeTable<H>>(
    session: &Session<'_, H>,
    global: &mut RunState<H>,
    table: &mut T,
    scope: &mut Scope<H>,
    index: usize,
    natives_alone: bool,
    operation: &Operation<'_>,
    variable: &Variable<'_>,
    args: &mut Few<Dynamic<H>>,
) -> Called<Dynamic<H>, Function<H>, H>
    requires { index < length (entries_of scope.old) }
    ensures counts { global.old.num_operations ≤ global.new.num_operations }
    ensures sight { KeepsSight global.old global.new }
    ensures names { names_in scope.new ≡ names_in scope.old }
    ensures runs { (held : _) (on_scope : _) (path : Path) → entry_named path.names variable.now.name.now (entries_of scope.old) ≡ Some index →
        let rules = under H.name_of session.now T.natives in
        Goes rules
        (arguments_there rules.setting (ToCallOn (operation_of operation.now) (record { path = path; name = variable.now.name.now; at = variable.now.at }) (plainly natives_alone on_scope)) args.old)
        (state_of (T.state table.old) global.old scope.old held)
        (came_out (not on_scope) operation.now.at (with_args result args.new))
        (state_of (T.state table.new) global.new scope.new held) }
{
    let value = scope.value_at(index);
    if is_held(&global.cells, value) {
        return Called::Ended(Err(data_race_of(variable.name, variable.at)));
    }
    if is_lendable(value) {
        return call_lent(
            session,
            global,
            table,
            scope,
            index,
            natives_alone,
            operation,
            args,
        );
    }
    match pass_value(session.alloc, &global.cells, value, variable.at) {
        Ok(first) => call_passed(
            session,
            global,
            table,
            natives_alone,
            operation,
            first,
            args,
        ),
        Err(error) => Called::Ended(Err(error)),
    }
}

/// Makes a call on a variable that no entry has. Its name means a constant or a function, or a constant
/// behind its path.
fn call_beside<H: Host, T: NativeTable<H>>(
    session: &Session<'_, H>,
    global: &mut RunState<H>,
    table: &mut T,
    natives_alone: bool,
    operation: &Operation<'_>,
    variable: &Variable<'_>,
    args: &mut Few<Dynamic<H>>,
) -> Called<Dynamic<H>, Function<H>, H>
    requires { RootStands global.old variable.now.namespace.now }
    ensures counts { global.old.num_operations ≤ global.new.num_operations }
    ensures sight { KeepsSight global.old global.new }
    ensures runs { (scope : _) (held : _) (on_scope : _) → entry_named variable.now.namespace.now.path variable.now.name.now (entries_of scope) ≡ None →
        let rules = under H.name_of session.now T.natives in
        Goes rules
        (arguments_there rules.setting (ToCallOn (operation_of operation.now) (variable_told variable.now) (plainly natives_alone on_scope)) args.old)
        (state_of (T.state table.old) global.old scope held)
        (came_out (not on_scope) operation.now.at (with_args result args.new))
        (state_of (T.state table.new) global.new scope held) }
{
    match pass_beside(
        session,
        &*global,
        variable.name,
        variable.namespace,
        variable.at,
    ) {
        Ok(first) => call_passed(
            session,
            global,
            table,
            natives_alone,
            operation,
            first,
            args,
        ),
        Err(error) => Called::Ended(Err(error)),
    }
}

/// Makes a call by name with a variable before its arguments, which are there. The variable is read now: a
/// constant or a handle is passed as a copy, and any other is lent, so that a native may change it. A
/// function of a script gets a copy, and is for the caller to enter. Of a variable that no entry has, by
/// itself or behind a path, a copy is passed. Asked: the offset leads to the newest variable of the name, and
/// the index of its path to the newest import of its first name. Ports what upstream's `make_function_call`
/// does with a variable that comes first.
///
/// # Errors
/// At the variable: `ErrorDataRace` where it is the handle of a cell that is held, and those of
/// `rhai_names::variables::read_beside`. All others are those of `rhai_calls::dispatch::pass_call`.
pub fn call_on_variable<H: Host, T: NativeTable<H>>(
    session: &Session<'_, H>,
    global: &mut RunState<H>,
    table: &mut T,
    scope: &mut Scope<H>,
    natives_alone: bool,
    operation: &Operation<'_>,
    variable: &Variable<'_>,
    args: &mut Few<Dynamic<H>>,
) -> Called<Dynamic<H>, Function<H>, H>
    requires { AgreesAt global.old scope.old (offset_is_good variable.now) }
    ensures counts { global.old.num_operations ≤ global.new.num_operations }
    ensures sight { KeepsSight global.old global.new }
    ensures names { names_in scope.new ≡ names_in scope.old }
    ensures runs { (held : _) (on_scope : _) → let rules = under H.name_of session.now T.natives in
        Goes rules
        (arguments_there rules.setting (ToCallOn (operation_of operation.now) (variable_told variable.now) (plainly natives_alone on_scope)) args.old)
        (state_of (T.state table.old) global.old scope.old held)
        (came_out (not on_scope) operation.now.at (with_args result args.new))
        (state_of (T.state table.new) global.new scope.new held) }
{
    match entry_of_variable(
        &*global,
        &*scope,
        variable.offset,
        variable.name,
        variable.namespace,
    ) {
        None => call_beside(
            session,
            global,
            table,
            natives_alone,
            operation,
            variable,
            args,
        ),
        Some(index) => call_found(
            session,
            global,
            table,
            scope,
            index,
            natives_alone,
            operation,
            variable,
            args,
        ),
    }
}
