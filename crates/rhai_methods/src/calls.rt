//! The calls that a method makes: of a pointer by itself, and of a pointer on the focus.

ghost use Rattle.rhai_steps.specs.Operations.{operation_of};
ghost use Rattle.std.specs.Prelude.{◌≤◌, ◌++◌, false};
ghost use Rattle.rhai_machine.specs.language.Methods.{numbered_on};
ghost use Rattle.rhai_machine.specs.language.Runs.{Goes};
ghost use Rattle.rhai_steps.specs.Agreement.{KeepsSight};
ghost use Rattle.rhai_steps.specs.Sessions.{under};
ghost use Rattle.rhai_steps.specs.States.{state_of};
ghost use Rattle.rhai_calls.specs.ToldChanges.{with_changed};
ghost use Rattle.rhai_methods.specs.Calls.{alone_by, named_alone, named_on, number_alone, on_by};
ghost use Rattle.rhai_steps.specs.OnFocus.{lending};
ghost use Rattle.rhai_methods.specs.Methods.{IsEntered, came_from};
ghost use Rattle.rhai_calls.specs.declared.dispatch.Called.TheVariants.{Ended};
ghost use Rattle.rhai_methods.specs.declared.calls.MethodEntry.TheVariants.{Alone, OnTarget};

use crate::copies::{take_behind, take_out};
use rhai_call_forms::names::natives_alone;
use rhai_calls::dispatch::{Called, Seeks, call_races, pass_all, pass_call, races};
use rhai_calls::native::{Passing, call_number, call_number_alone, call_number_on, tell_changed};
use rhai_errors::error::EvalAltResult;
use rhai_errors::errors::data_race_by;
use rhai_errors::table::NativeTable;
use rhai_few::Few;
use rhai_functions::function::Function;
use rhai_lookups::run::RunState;
use rhai_state::session::Session;
use rhai_steps::operation::Operation;
use rhai_tree::Items;
use rhai_tree::literal::NativeId;
use rhai_tree::position::Position;
use rhai_values::base::value::{Dynamic, Host};
use std::alloc::Global;

/// How a method enters a function of a script, and with which arguments.
#[derive(Drop)]
pub enum MethodEntry<H> {
    /// On the focus.
    OnTarget(Function<H>, Few<Dynamic<H>>),
    /// By itself.
    Alone(Function<H>, Few<Dynamic<H>>),
}

/// Calls a native by its number on the focus, which is lent to it. It charges nothing.
///
/// # Errors
/// `ErrorDataRace` at the call for an argument that is the handle of a cell which is held, and those of
/// `rhai_calls::native::call_number_on`.
fn number_on<H: Host, T: NativeTable<H>>(
    session: &Session<'_, H>,
    global: &mut RunState<H>,
    table: &mut T,
    id: NativeId,
    operation: &Operation<'_>,
    target: &mut Dynamic<H>,
    args: &[Dynamic<H>],
) -> Called<(Dynamic<H>, bool), MethodEntry<H>, H>
    ensures counts { global.old.num_operations ≤ global.new.num_operations }
    ensures sight { KeepsSight global.old global.new }
    ensures runs { (scope : _) (held : _) →
        Goes (under H.name_of session.now T.natives)
        (numbered_on id.number (operation_of operation.now) args.now target.old)
        (state_of (T.state table.old) global.old scope (lending held target.old))
        (came_from operation.now.at result)
        (state_of (T.state table.new) global.new scope (lending held target.new)) }
{
    if call_races(&global.cells, target, args) {
        return Called::Ended(Err(data_race_by(session.alloc, operation.name, operation.at)));
    }
    Called::Ended(call_number_on(session, global, table, id, operation, target, args))
}

/// Makes a call by name on the focus, which is lent. It is kept from a native that is not pure where it is a
/// constant. The answer tells whether the focus may have changed. A function of a script is for the caller to
/// enter: the arguments are taken then.
///
/// # Errors
/// Those of `rhai_calls::dispatch::pass_call`.
pub fn call_named_on<H: Host, T: NativeTable<H>>(
    session: &Session<'_, H>,
    global: &mut RunState<H>,
    table: &mut T,
    natives_alone: bool,
    operation: &Operation<'_>,
    target: &mut Dynamic<H>,
    args: &mut [Dynamic<H>],
) -> Called<(Dynamic<H>, bool), MethodEntry<H>, H>
    ensures counts { global.old.num_operations ≤ global.new.num_operations }
    ensures sight { KeepsSight global.old global.new }
    ensures runs { (scope : _) (held : _) → let rules = under H.name_of session.now T.natives in
        Goes rules
        (named_on rules.setting natives_alone operation.now.name.now operation.now.at args.old target.old)
        (state_of (T.state table.old) global.old scope (lending held target.old))
        (came_from operation.now.at result)
        (state_of (T.state table.new) global.new scope (lending held target.new)) }
{
    let passing = Passing {
        guarded: true,
        marks: true,
    };
    let seeks = Seeks {
        of_method: true,
        natives_alone,
    };
    match pass_call(
        session,
        global,
        table,
        seeks,
        &Operation {
            name: operation.name,
            token: None,
            at: operation.at,
        },
        target,
        args,
        passing,
    ) {
        Called::Ended(result) => Called::Ended(result),
        Called::Enters(function) => on_target(
            session.alloc,
            function,
            Items::new(session.alloc),
            args,
            operation.at,
        ),
    }
}

/// Answers that a function of a script is to be entered on the focus. It gets what a pointer has already
/// before its arguments.
pub fn on_target<H: Host>(
    alloc: Global,
    function: Function<H>,
    curried: Items<Dynamic<H>>,
    args: &mut [Dynamic<H>],
    pos: Position,
) -> Called<(Dynamic<H>, bool), MethodEntry<H>, H>
    ensures { IsEntered result (OnTarget function (curried ++ args.old)) }
{
    match take_behind(alloc, curried, args, pos) {
        Ok(all) => Called::Enters(MethodEntry::OnTarget(function, all)),
        Err(error) => {
            drop(function);
            Called::Ended(Err(error))
        }
    }
}

/// Answers that a function of a script is to be entered by itself, with these arguments.
fn enter_by_itself<H: Host>(
    alloc: Global,
    function: Function<H>,
    args: &mut [Dynamic<H>],
    pos: Position,
) -> Called<(Dynamic<H>, bool), MethodEntry<H>, H>
    ensures { IsEntered result (Alone function args.old) }
{
    match take_out(alloc, args, pos) {
        Ok(all) => Called::Enters(MethodEntry::Alone(function, all)),
        Err(error) => {
            drop(function);
            Called::Ended(Err(error))
        }
    }
}

/// Makes a call on the focus by a native's number, or else by a name. A native by its number is called under
/// the name `called`.
fn call_by_on<H: Host, T: NativeTable<H>>(
    session: &Session<'_, H>,
    global: &mut RunState<H>,
    table: &mut T,
    number: Option<NativeId>,
    called: &str,
    operation: &Operation<'_>,
    target: &mut Dynamic<H>,
    args: &mut [Dynamic<H>],
) -> Called<(Dynamic<H>, bool), MethodEntry<H>, H>
    ensures counts { global.old.num_operations ≤ global.new.num_operations }
    ensures sight { KeepsSight global.old global.new }
    ensures runs { (scope : _) (held : _) → let rules = under H.name_of session.now T.natives in
        Goes rules
        (on_by rules.setting number called.now operation.now.name.now operation.now.at args.old target.old)
        (state_of (T.state table.old) global.old scope (lending held target.old))
        (came_from operation.now.at result)
        (state_of (T.state table.new) global.new scope (lending held target.new)) }
{
    match number {
        Some(id) => number_on(
            session,
            global,
            table,
            id,
            &Operation {
                name: called,
                token: None,
                at: operation.at,
            },
            target,
            args,
        ),
        None => {
            let alone = natives_alone(operation.name);
            call_named_on(session, global, table, alone, operation, target, args)
        }
    }
}

/// Makes a call on the focus behind the values that a pointer has already, as `call_by_on` does. Where it has
/// none no list is made.
pub fn call_on<H: Host, T: NativeTable<H>>(
    session: &Session<'_, H>,
    global: &mut RunState<H>,
    table: &mut T,
    number: Option<NativeId>,
    called: &str,
    operation: &Operation<'_>,
    curried: Items<Dynamic<H>>,
    target: &mut Dynamic<H>,
    args: &mut [Dynamic<H>],
) -> Called<(Dynamic<H>, bool), MethodEntry<H>, H>
    ensures counts { global.old.num_operations ≤ global.new.num_operations }
    ensures sight { KeepsSight global.old global.new }
    ensures runs { (scope : _) (held : _) → let rules = under H.name_of session.now T.natives in
        Goes rules
        (on_by rules.setting number called.now operation.now.name.now operation.now.at (curried ++ args.old) target.old)
        (state_of (T.state table.old) global.old scope (lending held target.old))
        (came_from operation.now.at result)
        (state_of (T.state table.new) global.new scope (lending held target.new)) }
{
    if curried.is_empty() {
        drop(curried);
        return call_by_on(
            session, global, table, number, called, operation, target, args,
        );
    }
    match take_behind(session.alloc, curried, args, operation.at) {
        Ok(all) => {
            let mut all = all;
            let values = all.as_mut_slice();
            let call = call_by_on(
                session, global, table, number, called, operation, target, values,
            );
            drop(all);
            call
        }
        Err(error) => Called::Ended(Err(error)),
    }
}

/// Calls a native by its number, with nothing lent. It charges nothing.
///
/// # Errors
/// `ErrorDataRace` at the call for an argument that is the handle of a cell which is held, and those of
/// `rhai_calls::native::call_number`.
fn call_number_by_itself<H: Host, T: NativeTable<H>>(
    session: &Session<'_, H>,
    global: &mut RunState<H>,
    table: &mut T,
    id: NativeId,
    args: &mut [Dynamic<H>],
    pos: Position,
) -> Result<Dynamic<H>, EvalAltResult<H>>
    ensures counts { global.old.num_operations ≤ global.new.num_operations }
    ensures sight { KeepsSight global.old global.new }
    ensures runs { (scope : _) (held : _) →
        Goes (under H.name_of session.now T.natives) (number_alone id.number pos args.old)
        (state_of (T.state table.old) global.old scope held)
        (came_from pos (Ended (with_changed false result)))
        (state_of (T.state table.new) global.new scope held) }
{
    if races(&global.cells, args) {
        return Err(data_race_by(session.alloc, "call", pos));
    }
    let [first, rest @ ..] = args else {
        return call_number_alone(
            session,
            global,
            table,
            id,
            &Operation {
                name: "call",
                token: None,
                at: pos,
            },
        );
    };
    call_number(
        session,
        global,
        table,
        id,
        &Operation {
            name: "call",
            token: None,
            at: pos,
        },
        first,
        rest,
    )
}

/// Makes a call by name, with nothing lent. The answer tells whether the native is not pure.
fn call_named_by_itself<H: Host, T: NativeTable<H>>(
    session: &Session<'_, H>,
    global: &mut RunState<H>,
    table: &mut T,
    name: &str,
    args: &mut [Dynamic<H>],
    pos: Position,
) -> Called<(Dynamic<H>, bool), MethodEntry<H>, H>
    ensures counts { global.old.num_operations ≤ global.new.num_operations }
    ensures sight { KeepsSight global.old global.new }
    ensures runs { (scope : _) (held : _) → let rules = under H.name_of session.now T.natives in
        Goes rules (named_alone rules.setting name.now pos args.old)
        (state_of (T.state table.old) global.old scope held) (came_from pos result)
        (state_of (T.state table.new) global.new scope held) }
{
    let alone = natives_alone(name);
    match pass_all(
        session,
        global,
        table,
        alone,
        &Operation {
            name,
            token: None,
            at: pos,
        },
        args,
        true,
    ) {
        Called::Ended(result) => Called::Ended(result),
        Called::Enters(function) => enter_by_itself(session.alloc, function, args, pos),
    }
}

/// Calls a pointer by itself: a native by its number, or else the pointer's name.
fn call_by_itself<H: Host, T: NativeTable<H>>(
    session: &Session<'_, H>,
    global: &mut RunState<H>,
    table: &mut T,
    number: Option<NativeId>,
    name: &str,
    args: &mut [Dynamic<H>],
    pos: Position,
) -> Called<(Dynamic<H>, bool), MethodEntry<H>, H>
    ensures counts { global.old.num_operations ≤ global.new.num_operations }
    ensures sight { KeepsSight global.old global.new }
    ensures runs { (scope : _) (held : _) → let rules = under H.name_of session.now T.natives in
        Goes rules (alone_by rules.setting number name.now pos args.old)
        (state_of (T.state table.old) global.old scope held) (came_from pos result)
        (state_of (T.state table.new) global.new scope held) }
{
    match number {
        Some(id) => {
            let result = call_number_by_itself(session, global, table, id, args, pos);
            Called::Ended(tell_changed(result, false))
        }
        None => call_named_by_itself(session, global, table, name, args, pos),
    }
}

/// Calls a pointer by itself, behind the values that it has already. Where it has none no list is made.
pub fn call_alone<H: Host, T: NativeTable<H>>(
    session: &Session<'_, H>,
    global: &mut RunState<H>,
    table: &mut T,
    number: Option<NativeId>,
    operation: &Operation<'_>,
    curried: Items<Dynamic<H>>,
    args: &mut [Dynamic<H>],
) -> Called<(Dynamic<H>, bool), MethodEntry<H>, H>
    ensures counts { global.old.num_operations ≤ global.new.num_operations }
    ensures sight { KeepsSight global.old global.new }
    ensures runs { (scope : _) (held : _) → let rules = under H.name_of session.now T.natives in
        Goes rules
        (alone_by rules.setting number operation.now.name.now operation.now.at (curried ++ args.old))
        (state_of (T.state table.old) global.old scope held) (came_from operation.now.at result)
        (state_of (T.state table.new) global.new scope held) }
{
    if curried.is_empty() {
        drop(curried);
        return call_by_itself(
            session,
            global,
            table,
            number,
            operation.name,
            args,
            operation.at,
        );
    }
    match take_behind(session.alloc, curried, args, operation.at) {
        Ok(all) => {
            let mut all = all;
            let values = all.as_mut_slice();
            let call = call_by_itself(
                session,
                global,
                table,
                number,
                operation.name,
                values,
                operation.at,
            );
            drop(all);
            call
        }
        Err(error) => Called::Ended(Err(error)),
    }
}
