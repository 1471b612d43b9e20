//! A method that is called on the focus, by what its name means there.

ghost use Rattle.std.specs.Prelude.{◌≡◌, ◌≤◌, length, None, Ok, IfOk};
ghost use Rattle.std.specs.Option.{option_copied};
ghost use Rattle.rhai_values.specs.Cells.{cells_of};
ghost use Rattle.rhai_machine.specs.language.Arguments.{linked_to};
ghost use Rattle.rhai_machine.specs.language.Methods.{CallWord, call_argument, own_core, word_core, method_core};
ghost use Rattle.rhai_machine.specs.language.Values.{through};
ghost use Rattle.rhai_machine.specs.language.Runs.{Goes};
ghost use Rattle.rhai_steps.specs.Agreement.{KeepsSight};
ghost use Rattle.rhai_steps.specs.Sessions.{under};
ghost use Rattle.rhai_steps.specs.States.{state_of};
ghost use Rattle.rhai_steps.specs.OnFocus.{lending};
ghost use Rattle.rhai_methods.specs.Methods.{came_from};
ghost use Rattle.rhai_methods.specs.Parts.{all_of, alone_as, alone_with, name_called, on_as, on_with};
ghost use Rattle.rhai_methods.specs.Parts.{AreLinked, IsLinked};
ghost use Rattle.rhai_methods.specs.declared.calls.MethodEntry.TheVariants.{Alone, OnTarget};

use crate::calls::{MethodEntry, call_alone, call_named_on, call_on};
use crate::copies::{curried, no_pointer, own_pointer, pointer_copy, take_behind};
use crate::words::{MethodWord, word_of};
use rhai_call_forms::linked::function_linked;
use rhai_call_forms::pointers::{parts_of, pointer_of};
use rhai_calls::dispatch::{Called, races};
use rhai_calls::native::tell_changed;
use rhai_errors::error::EvalAltResult;
use rhai_errors::errors::data_race_by;
use rhai_errors::table::NativeTable;
use rhai_few::Few;
use rhai_functions::function::Function;
use rhai_lookups::lists::Lists;
use rhai_lookups::run::RunState;
use rhai_state::session::Session;
use rhai_steps::operation::Operation;
use rhai_steps::values::{bool_value, unit_value};
use rhai_tree::position::Position;
use rhai_values::base::value::{Dynamic, FnPtr, Host};
use rhai_values::cells::CellStore;
use std::alloc::{AllocError, Global};
use std::mem::replace;

/// Finds the function that a pointer is linked to, where it takes all that the pointer is called with.
fn linked_with<H: Host>(
    pointer: &FnPtr<H>,
    args: &[Dynamic<H>],
    lists: &mut Lists<H>,
) -> Result<Option<Function<H>>, AllocError>
    ensures found { IfOk result (λ found.
        found ≡ linked_to pointer.now (length (all_of pointer.now args.now)) lists.old.0) }
    ensures same { lists.new ≡ lists.old }
{
    function_linked(pointer, args.len(), lists)
}

/// Gets all that a pointer is called with, for the function that it is linked to.
///
/// # Errors
/// All at the call: `ErrorDataRace` under the function's name for an argument that is the handle of a cell
/// which is held, and `ErrorOutOfMemory`.
fn linked_args<H: Host>(
    alloc: Global,
    cells: &CellStore<H>,
    function: &Function<H>,
    pointer: FnPtr<H>,
    args: &mut [Dynamic<H>],
    pos: Position,
) -> Result<Few<Dynamic<H>>, EvalAltResult<H>>
    ensures { AreLinked (cells_of cells.now) function.now (all_of pointer args.old) pos result }
{
    let (name, curried, _) = parts_of(pointer);
    drop(name);
    match take_behind(alloc, curried, args, pos) {
        Err(error) => Err(error),
        Ok(all) => {
            if races(cells, all.as_slice()) {
                let called = function.def.get().def().name.get().as_str();
                let error = data_race_by(alloc, called, pos);
                drop(all);
                return Err(error);
            }
            Ok(all)
        }
    }
}

/// Answers that a function which a pointer is linked to is to be entered by itself. It gets all that the
/// pointer is called with.
fn enter_linked_alone<H: Host>(
    alloc: Global,
    cells: &CellStore<H>,
    function: Function<H>,
    pointer: FnPtr<H>,
    args: &mut [Dynamic<H>],
    pos: Position,
) -> Called<(Dynamic<H>, bool), MethodEntry<H>, H>
    ensures { IsLinked (cells_of cells.now) function (all_of pointer args.old) pos
        (Alone function (all_of pointer args.old)) result }
{
    match linked_args(alloc, cells, &function, pointer, args, pos) {
        Ok(all) => Called::Enters(MethodEntry::Alone(function, all)),
        Err(error) => {
            drop(function);
            Called::Ended(Err(error))
        }
    }
}

/// Calls a pointer that is no function's by itself.
fn unlinked_alone<H: Host, T: NativeTable<H>>(
    session: &Session<'_, H>,
    global: &mut RunState<H>,
    table: &mut T,
    pointer: FnPtr<H>,
    args: &mut [Dynamic<H>],
    pos: Position,
) -> Called<(Dynamic<H>, bool), MethodEntry<H>, H>
    ensures counts { global.old.num_operations ≤ global.new.num_operations }
    ensures sight { KeepsSight global.old global.new }
    ensures runs { (scope : _) (held : _) → let rules = under H.name_of session.now T.natives in
        Goes rules (alone_as rules.setting None pointer pos args.old)
        (state_of (T.state table.old) global.old scope held) (came_from pos result)
        (state_of (T.state table.new) global.new scope held) }
{
    let (name, curried, number) = parts_of(pointer);
    let text = name.get().as_str();
    let call = call_alone(
        session,
        global,
        table,
        number,
        &Operation {
            name: text,
            token: None,
            at: pos,
        },
        curried,
        args,
    );
    drop(name);
    call
}

/// Calls the pointer that the focus is by itself, with all its arguments.
fn call_pointer<H: Host, T: NativeTable<H>>(
    session: &Session<'_, H>,
    global: &mut RunState<H>,
    table: &mut T,
    pointer: FnPtr<H>,
    args: &mut [Dynamic<H>],
    pos: Position,
) -> Called<(Dynamic<H>, bool), MethodEntry<H>, H>
    ensures counts { global.old.num_operations ≤ global.new.num_operations }
    ensures sight { KeepsSight global.old global.new }
    ensures runs { (scope : _) (held : _) → let rules = under H.name_of session.now T.natives in
        Goes rules (alone_with rules.setting pointer pos args.old)
        (state_of (T.state table.old) global.old scope held) (came_from pos result)
        (state_of (T.state table.new) global.new scope held) }
{
    match linked_with(&pointer, args, &mut global.lists) {
        Ok(Some(function)) => enter_linked_alone(
            session.alloc,
            &global.cells,
            function,
            pointer,
            args,
            pos,
        ),
        Ok(None) => unlinked_alone(session, global, table, pointer, args, pos),
        Err(_) => {
            drop(pointer);
            Called::Ended(Err(EvalAltResult::ErrorOutOfMemory(pos)))
        }
    }
}

/// Answers that a function which a pointer is linked to is to be entered on the focus. It gets all that the
/// pointer is called with.
fn enter_linked_on<H: Host>(
    alloc: Global,
    cells: &CellStore<H>,
    function: Function<H>,
    pointer: FnPtr<H>,
    args: &mut [Dynamic<H>],
    pos: Position,
) -> Called<(Dynamic<H>, bool), MethodEntry<H>, H>
    ensures { IsLinked (cells_of cells.now) function (all_of pointer args.old) pos
        (OnTarget function (all_of pointer args.old)) result }
{
    match linked_args(alloc, cells, &function, pointer, args, pos) {
        Ok(all) => Called::Enters(MethodEntry::OnTarget(function, all)),
        Err(error) => {
            drop(function);
            Called::Ended(Err(error))
        }
    }
}

/// Calls a pointer that is no function's on the focus. A native by its number is called under this name, or
/// under the pointer's where there is none.
fn unlinked_on<H: Host, T: NativeTable<H>>(
    session: &Session<'_, H>,
    global: &mut RunState<H>,
    table: &mut T,
    pointer: FnPtr<H>,
    called: Option<&str>,
    target: &mut Dynamic<H>,
    args: &mut [Dynamic<H>],
    pos: Position,
) -> Called<(Dynamic<H>, bool), MethodEntry<H>, H>
    ensures counts { global.old.num_operations ≤ global.new.num_operations }
    ensures sight { KeepsSight global.old global.new }
    ensures runs { (scope : _) (held : _) → let rules = under H.name_of session.now T.natives in
        Goes rules
        (on_as rules.setting None pointer (name_called pointer (option_copied called.entry)) pos args.old target.old)
        (state_of (T.state table.old) global.old scope (lending held target.old)) (came_from pos result)
        (state_of (T.state table.new) global.new scope (lending held target.new)) }
{
    let (name, curried, number) = parts_of(pointer);
    let text = name.get().as_str();
    let called = called.unwrap_or(text);
    let call = call_on(
        session,
        global,
        table,
        number,
        called,
        &Operation {
            name: text,
            token: None,
            at: pos,
        },
        curried,
        target,
        args,
    );
    drop(name);
    call
}

/// Calls a pointer on the focus, with the values that it has already before the arguments.
fn call_pointer_on<H: Host, T: NativeTable<H>>(
    session: &Session<'_, H>,
    global: &mut RunState<H>,
    table: &mut T,
    pointer: FnPtr<H>,
    called: Option<&str>,
    target: &mut Dynamic<H>,
    args: &mut [Dynamic<H>],
    pos: Position,
) -> Called<(Dynamic<H>, bool), MethodEntry<H>, H>
    ensures counts { global.old.num_operations ≤ global.new.num_operations }
    ensures sight { KeepsSight global.old global.new }
    ensures runs { (scope : _) (held : _) → let rules = under H.name_of session.now T.natives in
        Goes rules
        (on_with rules.setting pointer (name_called pointer (option_copied called.entry)) pos args.old target.old)
        (state_of (T.state table.old) global.old scope (lending held target.old)) (came_from pos result)
        (state_of (T.state table.new) global.new scope (lending held target.new)) }
{
    match linked_with(&pointer, args, &mut global.lists) {
        Ok(Some(function)) => enter_linked_on(
            session.alloc,
            &global.cells,
            function,
            pointer,
            args,
            pos,
        ),
        Ok(None) => unlinked_on(session, global, table, pointer, called, target, args, pos),
        Err(_) => {
            drop(pointer);
            Called::Ended(Err(EvalAltResult::ErrorOutOfMemory(pos)))
        }
    }
}

/// Evaluates `call` on what is no pointer: the first argument is one, which is called on the focus.
fn call_argument<H: Host, T: NativeTable<H>>(
    session: &Session<'_, H>,
    global: &mut RunState<H>,
    table: &mut T,
    target: &mut Dynamic<H>,
    args: &mut [Dynamic<H>],
    first_arg_pos: Option<Position>,
    pos: Position,
) -> Called<(Dynamic<H>, bool), MethodEntry<H>, H>
    ensures counts { global.old.num_operations ≤ global.new.num_operations }
    ensures sight { KeepsSight global.old global.new }
    ensures runs { (scope : _) (held : _) (name : _) (was_handle : _) (seen : _) →
        through (cells_of global.old.cells) target.old pos ≡ Ok seen →
        let rules = under H.name_of session.now T.natives in
        Goes rules
        (call_argument rules.setting (record { name = name; at = pos; first_at = first_arg_pos; was_handle = was_handle }) args.old seen target.old)
        (state_of (T.state table.old) global.old scope (lending held target.old)) (came_from pos result)
        (state_of (T.state table.new) global.new scope (lending held target.new)) }
{
    let [first, rest @ ..] = args else {
        return Called::Ended(Err(no_pointer(session.alloc, &global.cells, target, pos)));
    };
    let first = replace(first, unit_value());
    let first_pos = first_arg_pos.unwrap_or(pos);
    match pointer_of(session.alloc, &global.cells, first, first_pos) {
        Ok(pointer) => call_pointer_on(
            session,
            global,
            table,
            pointer,
            Some("call"),
            target,
            rest,
            pos,
        ),
        Err(error) => Called::Ended(Err(error)),
    }
}

/// Evaluates `call` on the focus: a pointer is called by itself, and on any other value the first argument
/// is.
fn call_word<H: Host, T: NativeTable<H>>(
    session: &Session<'_, H>,
    global: &mut RunState<H>,
    table: &mut T,
    target: &mut Dynamic<H>,
    args: &mut [Dynamic<H>],
    first_arg_pos: Option<Position>,
    pos: Position,
) -> Called<(Dynamic<H>, bool), MethodEntry<H>, H>
    ensures counts { global.old.num_operations ≤ global.new.num_operations }
    ensures sight { KeepsSight global.old global.new }
    ensures runs { (scope : _) (held : _) (name : _) (was_handle : _) → let rules = under H.name_of session.now T.natives in
        Goes rules
        (word_core rules.setting CallWord (record { name = name; at = pos; first_at = first_arg_pos; was_handle = was_handle }) args.old target.old)
        (state_of (T.state table.old) global.old scope (lending held target.old)) (came_from pos result)
        (state_of (T.state table.new) global.new scope (lending held target.new)) }
{
    match pointer_copy(session.alloc, &global.cells, target, pos) {
        Ok(Some(pointer)) => { call_pointer(session, global, table, pointer, args, pos) }
        Ok(None) => call_argument(session, global, table, target, args, first_arg_pos, pos),
        Err(error) => Called::Ended(Err(error)),
    }
}

/// Calls a method of any other name. A map's own pointer of the name is called on the map, and else the name
/// is.
fn call_plain<H: Host, T: NativeTable<H>>(
    session: &Session<'_, H>,
    global: &mut RunState<H>,
    table: &mut T,
    name: &str,
    target: &mut Dynamic<H>,
    args: &mut [Dynamic<H>],
    pos: Position,
) -> Called<(Dynamic<H>, bool), MethodEntry<H>, H>
    ensures counts { global.old.num_operations ≤ global.new.num_operations }
    ensures sight { KeepsSight global.old global.new }
    ensures runs { (scope : _) (held : _) (first_at : _) (was_handle : _) →
        let rules = under H.name_of session.now T.natives in
        Goes rules
        (own_core rules.setting (record { name = name.now; at = pos; first_at = first_at; was_handle = was_handle }) args.old target.old)
        (state_of (T.state table.old) global.old scope (lending held target.old)) (came_from pos result)
        (state_of (T.state table.new) global.new scope (lending held target.new)) }
{
    match own_pointer(session.alloc, &global.cells, target, name, pos) {
        Ok(Some(pointer)) => call_pointer_on(
            session, global, table, pointer, None, target, args, pos,
        ),
        Ok(None) => call_named_on(
            session,
            global,
            table,
            false,
            &Operation {
                name,
                token: None,
                at: pos,
            },
            target,
            args,
        ),
        Err(error) => Called::Ended(Err(error)),
    }
}

/// Calls a method on the focus, its arguments there. `call`, `curry` and `is_shared` are of pointers and
/// handles; a map's own pointer under the name is called; and else it is a call by name with the focus before
/// the arguments, which is lent, and kept from a native that is not pure where it is a constant. The answer
/// tells whether a native that is not pure gave it, and so may have changed the focus. `is_shared` is told
/// whether the focus was a handle before it was entered. A function of a script, which a name means or a
/// pointer is linked to, is for the caller to enter. What is left of the arguments afterwards is not told.
/// Where a native is called by the name no memory is taken. Ports upstream's `make_method_call`.
///
/// # Errors
/// At the method: `ErrorDataRace` for a handle whose cell is held, and `ErrorMismatchDataType` for what is
/// no pointer; both at the first argument, where that is to be called; and those of
/// `rhai_calls::dispatch::pass_call` and `rhai_calls::native::call_number_on`.
pub fn call_method<H: Host, T: NativeTable<H>>(
    session: &Session<'_, H>,
    global: &mut RunState<H>,
    table: &mut T,
    operation: &Operation<'_>,
    target: &mut Dynamic<H>,
    args: &mut [Dynamic<H>],
    first_arg_pos: Option<Position>,
    was_handle: bool,
) -> Called<(Dynamic<H>, bool), MethodEntry<H>, H>
    ensures counts { global.old.num_operations ≤ global.new.num_operations }
    ensures sight { KeepsSight global.old global.new }
    ensures runs { (scope : _) (held : _) → let rules = under H.name_of session.now T.natives in
        Goes rules
        (method_core rules.setting (record { name = operation.now.name.now; at = operation.now.at; first_at = first_arg_pos; was_handle = was_handle }) args.old target.old)
        (state_of (T.state table.old) global.old scope (lending held target.old))
        (came_from operation.now.at result)
        (state_of (T.state table.new) global.new scope (lending held target.new)) }
{
    match word_of(operation.name, args.len()) {
        MethodWord::Call => call_word(
            session,
            global,
            table,
            target,
            args,
            first_arg_pos,
            operation.at,
        ),
        MethodWord::Curry => {
            let result = curried(session.alloc, &global.cells, target, args, operation.at);
            Called::Ended(tell_changed(result, false))
        }
        MethodWord::Shared => Called::Ended(Ok((bool_value(was_handle), false))),
        MethodWord::Plain => {
            call_plain(
                session,
                global,
                table,
                operation.name,
                target,
                args,
                operation.at,
            )
        }
    }
}
