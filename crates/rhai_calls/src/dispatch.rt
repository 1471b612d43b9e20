//! Calls by name whose arguments are there. Ports what upstream's `exec_fn_call` does up to where a function
//! of a script is entered. The contracts cite specs/Dispatch.antt, specs/Called.antt and specs/Lending.antt.

ghost use Rattle.std.specs.Prelude.{◌≡◌, ◌≤◌, ◌∷◌, [], Ok, IfOk, None, false, if◌then◌else◌, not};
ghost use Rattle.std.specs.Option.{option_copied};
ghost use Rattle.rhai_values.specs.Cells.{cells_of};
ghost use Rattle.rhai_values.specs.Copy.{plain};
ghost use Rattle.rhai_values.specs.TypeNames.{type_name_of};
ghost use Rattle.rhai_values.specs.declared.base.value.Union.TheVariants as kind;
ghost use Rattle.rhai_machine.specs.language.Calls.{call_of, is_held as held_in, plainly, dispatch_core};
ghost use Rattle.rhai_machine.specs.language.Calls.{races as races_in};
ghost use Rattle.rhai_machine.specs.language.Frames.{Ask, ended_or_changed};
ghost use Rattle.rhai_machine.specs.language.Functions.{key_by};
ghost use Rattle.rhai_machine.specs.language.State.{Answers};
ghost use Rattle.rhai_machine.specs.language.Values.{through};
ghost use Rattle.rhai_machine.specs.language.Runs.{Goes, Steps};
ghost use Rattle.rhai_steps.specs.Operations.{operation_of};
ghost use Rattle.rhai_steps.specs.Agreement.{KeepsSight};
ghost use Rattle.rhai_steps.specs.Sessions.{offer_of, under};
ghost use Rattle.rhai_steps.specs.States.{local_of, state_of, surroundings_of};
ghost use Rattle.rhai_calls.specs.Called.{with_args, came_out};
ghost use Rattle.rhai_calls.specs.Dispatch.{meant, meant_of, meant_of_two, plain_found, came_to};
ghost use Rattle.rhai_calls.specs.Dispatch.{script_function, seen_number, seen_text, how_of};
ghost use Rattle.rhai_calls.specs.Dispatch.{IfEnded, IfEnters};
ghost use Rattle.rhai_calls.specs.Dispatch.{found_among, knows_among, method_among};
ghost use Rattle.rhai_calls.specs.Dispatch.{Means, ResolvesCall};
ghost use Rattle.rhai_steps.specs.Lending.{back_in, passed_call, Stands};

use crate::native::{Passing, drop_changed, pass_native, pass_native_alone, tell_changed};
use rhai_errors::error::EvalAltResult;
use rhai_errors::errors::{data_race_by, shared_text};
use rhai_errors::table::NativeTable;
use rhai_few::Few;
use rhai_functions::function::Function;
use rhai_functions::key::FnKey;
use rhai_lookups::lists::Lists;
use rhai_lookups::run::RunState;
use rhai_state::session::Session;
use rhai_steps::operation::Operation;
use rhai_steps::replies::function_not_found;
use rhai_steps::values::bool_value;
use rhai_tree::Items;
use rhai_tree::position::Position;
use rhai_values::base::value::{Dynamic, Host, Union};
use rhai_values::cells::CellStore;
use std::alloc::{AllocError, Global};

/// Which functions of scripts a call by name looks for.
#[derive(Clone, Copy)]
pub struct Seeks {
    /// Its first argument is the focus of a method.
    pub of_method: bool,
    /// Natives alone are asked.
    pub natives_alone: bool,
}

/// What a call comes to: it has ended, or it enters a function of a script.
#[derive(Drop)]
pub enum Called<A, F, H> {
    /// It has ended with this answer, or with an error.
    Ended(Result<A, EvalAltResult<H>>),
    /// It enters this function, and nothing is done for that yet.
    Enters(F),
}

/// Tells whether a value is the handle of a cell that is held.
pub fn is_held<H: Host>(cells: &CellStore<H>, value: &Dynamic<H>) -> bool
    ensures { result ≡ held_in (cells_of cells.now) value.now.value }
{
    match &value.value {
        Union::Cell(id) => cells.get(*id).is_none(),
        _ => false,
    }
}

/// Tells whether any of some values is the handle of a cell that is held.
pub fn races<H: Host>(cells: &CellStore<H>, values: &[Dynamic<H>]) -> bool
    ensures { result ≡ races_in (cells_of cells.now) values.now }
{
    'values: for value in values {
        if is_held(cells, value) {
            return true;
        }
    }
    false
}

/// Tells whether an argument of a call is the handle of a cell that is held.
pub fn call_races<H: Host>(cells: &CellStore<H>, first: &Dynamic<H>, rest: &[Dynamic<H>]) -> bool
    ensures { result ≡ races_in (cells_of cells.now) (first.now ∷ rest.now) }
{
    is_held(cells, first) || races(cells, rest)
}

/// Returns the text that a value is, through a handle.
fn text_in<'v, H: Host>(cells: &'v CellStore<H>, value: &'v Dynamic<H>) -> Option<&'v str>
    ensures { (pos : _) → option_copied result ≡ seen_text (through (cells_of cells.now) value.now pos) }
{
    match &value.value {
        Union::Str(text) => Some(text.get().as_str()),
        Union::Cell(id) => match &cells.get(*id)?.value {
            Union::Str(text) => Some(text.get().as_str()),
            _ => None,
        },
        _ => None,
    }
}

/// Returns the integer that a value is, through a handle.
fn integer_through<H: Host>(cells: &CellStore<H>, value: &Dynamic<H>) -> Option<i64>
    ensures { (pos : _) → result ≡ seen_number (through (cells_of cells.now) value.now pos) }
{
    match &value.value {
        Union::Int(number) => Some(*number),
        Union::Cell(id) => match &cells.get(*id)?.value {
            Union::Int(number) => Some(*number),
            _ => None,
        },
        _ => None,
    }
}

/// Tells whether a function of a script has a name and so many parameters.
fn is_defined<H: Host>(
    session: &Session<'_, H>,
    lists: &mut Lists<H>,
    name: &str,
    count: i64,
) -> bool
    ensures found { result ≡ knows_among (offer_of session.now) lists.old.0 lists.old.1 name.now count }
    ensures same { lists.new ≡ lists.old }
{
    let Ok(arity) = usize::try_from(count) else {
        return false;
    };
    let key = FnKey {
        name,
        arity,
        this_type: None,
    };
    lists.has(&key, &session.offered)
}

/// Copies the name of a value's type, through a handle, into a text.
fn type_of<H: Host>(
    alloc: Global,
    cells: &CellStore<H>,
    value: &Dynamic<H>,
    pos: Position,
) -> Result<Dynamic<H>, EvalAltResult<H>>
    ensures { Answers result (Ok (plain (kind.Str (type_name_of H.name_of (cells_of cells.now) value.now)))) }
{
    match shared_text(alloc, value.type_name(cells)) {
        Ok(text) => Ok(Dynamic::new(Union::Str(text))),
        Err(_) => Err(EvalAltResult::ErrorOutOfMemory(pos)),
    }
}

/// Tells what a name means with one argument: its type, or a compiler, which is not there. None where it is a
/// native's.
fn meaning_of<H: Host>(
    alloc: Global,
    cells: &CellStore<H>,
    operation: &Operation<'_>,
    value: &Dynamic<H>,
) -> Option<Result<Dynamic<H>, EvalAltResult<H>>>
    ensures { Means result (meant_of (cells_of cells.now)
        (operation_of operation.now) H.name_of value.now) }
{
    if operation.name == "type_of" {
        return Some(type_of(alloc, cells, value, operation.at));
    }
    if operation.name == "eval" {
        let rest = Items::new(alloc);
        let rest = rest.as_slice();
        return Some(Err(function_not_found(
            alloc,
            cells,
            operation.name,
            value,
            rest,
            operation.at,
        )));
    }
    None
}

/// Tells what a name means with two arguments: whether they say a function of the script. None where it is a
/// function's.
fn meaning_of_two<H: Host>(
    session: &Session<'_, H>,
    global: &mut RunState<H>,
    operation: &Operation<'_>,
    first: &Dynamic<H>,
    second: &Dynamic<H>,
) -> Option<Result<Dynamic<H>, EvalAltResult<H>>>
    ensures means { Means result (meant_of_two (offer_of session.now) (surroundings_of global.old)
        (operation_of operation.now) first.now second.now) }
    ensures same { global.new ≡ global.old }
{
    if operation.name != "is_def_fn" {
        return None;
    }
    let asked = text_in(&global.cells, first)?;
    let count = integer_through(&global.cells, second)?;
    let is_there = is_defined(session, &mut global.lists, asked, count);
    Some(Ok(bool_value(is_there)))
}

/// Tells what a name means with these arguments. None where it is a function's.
fn meaning<H: Host>(
    session: &Session<'_, H>,
    global: &mut RunState<H>,
    operation: &Operation<'_>,
    first: &Dynamic<H>,
    rest: &[Dynamic<H>],
) -> Option<Result<Dynamic<H>, EvalAltResult<H>>>
    ensures means { Means result (meant (offer_of session.now) (surroundings_of global.old)
        (operation_of operation.now) H.name_of (first.now ∷ rest.now)) }
    ensures same { global.new ≡ global.old }
{
    match rest {
        [] => meaning_of(session.alloc, &global.cells, operation, first),
        [second] => meaning_of_two(session, global, operation, first, second),
        _ => None,
    }
}

/// Finds the function of a script that has a name and so many parameters.
fn function_by<H: Host>(
    session: &Session<'_, H>,
    lists: &mut Lists<H>,
    name: &str,
    arity: usize,
) -> Result<Option<Function<H>>, AllocError>
    ensures found { IfOk result (λ found. found ≡
        found_among (offer_of session.now) lists.old.0 lists.old.1 (key_by name.now arity None)) }
    ensures same { lists.new ≡ lists.old }
{
    let key = FnKey {
        name,
        arity,
        this_type: None,
    };
    lists.find(&key, &session.offered)
}

/// Finds the function of a script that a method means. One for the type of the focus is looked for first, and
/// then one for any type.
fn method_by<H: Host>(
    session: &Session<'_, H>,
    lists: &mut Lists<H>,
    name: &str,
    this_type: &str,
    arity: usize,
) -> Result<Option<Function<H>>, AllocError>
    ensures found { IfOk result (λ found. found ≡
        method_among (offer_of session.now) lists.old.0 lists.old.1 name.now this_type.now arity) }
    ensures same { lists.new ≡ lists.old }
{
    let key = FnKey {
        name,
        arity,
        this_type: Some(this_type),
    };
    match lists.find(&key, &session.offered)? {
        Some(function) => Ok(Some(function)),
        None => function_by(session, lists, name, arity),
    }
}

/// Finds the function of a script that a call means. None where its native is meant.
fn function_of<H: Host>(
    session: &Session<'_, H>,
    global: &mut RunState<H>,
    seeks: Seeks,
    name: &str,
    first: &Dynamic<H>,
    rest: &[Dynamic<H>],
) -> Result<Option<Function<H>>, AllocError>
    ensures found { IfOk result (λ found.
        found ≡ script_function (offer_of session.now) (surroundings_of global.old) H.name_of seeks name.now
        (first.now ∷ rest.now)) }
    ensures same { global.new ≡ global.old }
{
    if seeks.natives_alone {
        return Ok(None);
    }
    if seeks.of_method {
        let this_type = first.type_name(&global.cells);
        return method_by(session, &mut global.lists, name, this_type, rest.len());
    }
    function_by(session, &mut global.lists, name, 1 + rest.len())
}

/// Decides what a call by name means whose arguments are there, before anything is done for it. None where it
/// is a native's.
fn resolve<H: Host>(
    session: &Session<'_, H>,
    global: &mut RunState<H>,
    seeks: Seeks,
    operation: &Operation<'_>,
    first: &Dynamic<H>,
    rest: &[Dynamic<H>],
) -> Option<Called<Dynamic<H>, Function<H>, H>>
    ensures resolves { ResolvesCall (offer_of session.now) (surroundings_of global.old) H.name_of seeks
        (operation_of operation.now) (first.now ∷ rest.now) result }
    ensures same { global.new ≡ global.old }
{
    if call_races(&global.cells, first, rest) {
        return Some(Called::Ended(Err(data_race_by(session.alloc, operation.name, operation.at))));
    }
    if let Some(result) = meaning(session, global, operation, first, rest) {
        return Some(Called::Ended(result));
    }
    match function_of(session, global, seeks, operation.name, first, rest) {
        Ok(Some(function)) => Some(Called::Enters(function)),
        Ok(None) => None,
        Err(_) => Some(Called::Ended(Err(EvalAltResult::ErrorOutOfMemory(operation.at)))),
    }
}

/// Makes a call by name whose arguments are there. It asks for the type of a value or whether a function is
/// there, or it is of a function of a script, or else of the native of the name. The first argument may be
/// lent, as from a variable's entry or by a chain, and a native may change it. No compiler is there. Where
/// `passing` asks for that, an answer tells whether a native answered that is not pure. A function that is
/// found is for the caller to enter. Ports upstream's `exec_fn_call`.
///
/// # Errors
/// At the call: `ErrorDataRace` for an argument that is the handle of a cell which is held;
/// `ErrorFunctionNotFound` for `eval`; those of `rhai_calls::native::pass_native`.
pub fn pass_call<H: Host, T: NativeTable<H>>(
    session: &Session<'_, H>,
    global: &mut RunState<H>,
    table: &mut T,
    seeks: Seeks,
    operation: &Operation<'_>,
    first: &mut Dynamic<H>,
    rest: &[Dynamic<H>],
    passing: Passing,
) -> Called<(Dynamic<H>, bool), Function<H>, H>
    ensures counts { global.old.num_operations ≤ global.new.num_operations }
    ensures sight { KeepsSight global.old global.new }
    ensures runs { (scope : _) (held : _) (lender : _) (on_scope : _) → Stands lender first.old (local_of global.old scope held) →
        let rules = under H.name_of session.now T.natives in
        Goes rules
        (dispatch_core rules.setting (how_of seeks on_scope) (passed_call (operation_of operation.now) lender passing.guarded passing.marks (first.old ∷ rest.now)))
        (state_of (T.state table.old) global.old scope held)
        (came_to (how_of seeks on_scope) (passed_call (operation_of operation.now) lender passing.guarded passing.marks (first.old ∷ rest.now)) result)
        (back_in lender first.new (state_of (T.state table.new) global.new scope held)) }
    ensures same { IfEnters result (first.new ≡ first.old) }
    ensures untold { IfEnded result (λ answer. passing.marks ≡ false → answer.1 ≡ false) }
{
    match resolve(session, global, seeks, operation, &*first, rest) {
        Some(called) => match called {
            Called::Ended(result) => Called::Ended(tell_changed(result, false)),
            Called::Enters(function) => Called::Enters(function),
        },
        None => Called::Ended(pass_native(session, global, table, operation, first, rest, passing)),
    }
}

/// Finds the function of a script that a call without arguments means. None where its native is meant.
fn function_alone<H: Host>(
    session: &Session<'_, H>,
    global: &mut RunState<H>,
    natives_alone: bool,
    name: &str,
) -> Result<Option<Function<H>>, AllocError>
    ensures found { IfOk result (λ found. found ≡ (if natives_alone then None
        else plain_found (offer_of session.now) (surroundings_of global.old) name.now 0)) }
    ensures same { global.new ≡ global.old }
{
    if natives_alone {
        return Ok(None);
    }
    function_by(session, &mut global.lists, name, 0)
}

/// Decides what a call by name means that is no method's, with any number of arguments. None where it is a
/// native's.
fn resolve_all<H: Host>(
    session: &Session<'_, H>,
    global: &mut RunState<H>,
    natives_alone: bool,
    operation: &Operation<'_>,
    args: &[Dynamic<H>],
) -> Option<Called<Dynamic<H>, Function<H>, H>>
    ensures resolves { ResolvesCall (offer_of session.now) (surroundings_of global.old) H.name_of
        (record { of_method = false; natives_alone = natives_alone })
        (operation_of operation.now) args.now result }
    ensures same { global.new ≡ global.old }
{
    match args {
        [] => match function_alone(session, global, natives_alone, operation.name) {
            Ok(Some(function)) => Some(Called::Enters(function)),
            Ok(None) => None,
            Err(_) => Some(Called::Ended(Err(EvalAltResult::ErrorOutOfMemory(operation.at)))),
        },
        [first, rest @ ..] => {
            let seeks = Seeks {
                of_method: false,
                natives_alone,
            };
            resolve(session, global, seeks, operation, first, rest)
        }
    }
}

/// Calls the native of a name, with any number of arguments, none of which is lent.
fn call_native_all<H: Host, T: NativeTable<H>>(
    session: &Session<'_, H>,
    global: &mut RunState<H>,
    table: &mut T,
    operation: &Operation<'_>,
    args: &mut [Dynamic<H>],
    marks: bool,
) -> Result<(Dynamic<H>, bool), EvalAltResult<H>>
    ensures counts { global.old.num_operations ≤ global.new.num_operations }
    ensures sight { KeepsSight global.old global.new }
    ensures runs { (scope : _) (held : _) →
        Steps (under H.name_of session.now T.natives)
        (Ask (passed_call (operation_of operation.now) None false marks args.old))
        (state_of (T.state table.old) global.old scope held) (ended_or_changed result)
        (state_of (T.state table.new) global.new scope held) }
    ensures untold { IfOk result (λ answer. marks ≡ false → answer.1 ≡ false) }
{
    let [first, rest @ ..] = args else {
        return pass_native_alone(session, global, table, operation, marks);
    };
    let passing = Passing {
        guarded: false,
        marks,
    };
    pass_native(session, global, table, operation, first, rest, passing)
}

/// Makes a call by name as `pass_call` does, with any number of arguments, none of which is lent. Where a
/// function of a script is found they are as they were.
///
/// # Errors
/// Those of `pass_call`.
pub fn pass_all<H: Host, T: NativeTable<H>>(
    session: &Session<'_, H>,
    global: &mut RunState<H>,
    table: &mut T,
    natives_alone: bool,
    operation: &Operation<'_>,
    args: &mut [Dynamic<H>],
    marks: bool,
) -> Called<(Dynamic<H>, bool), Function<H>, H>
    ensures counts { global.old.num_operations ≤ global.new.num_operations }
    ensures sight { KeepsSight global.old global.new }
    ensures runs { (scope : _) (held : _) (on_scope : _) → let rules = under H.name_of session.now T.natives in
        Goes rules
        (dispatch_core rules.setting (plainly natives_alone on_scope) (passed_call (operation_of operation.now) None false marks args.old))
        (state_of (T.state table.old) global.old scope held)
        (came_to (plainly natives_alone on_scope) (passed_call (operation_of operation.now) None false marks args.old) result)
        (state_of (T.state table.new) global.new scope held) }
    ensures same { IfEnters result (args.new ≡ args.old) }
    ensures untold { IfEnded result (λ answer. marks ≡ false → answer.1 ≡ false) }
{
    match resolve_all(session, global, natives_alone, operation, &*args) {
        Some(called) => match called {
            Called::Ended(result) => Called::Ended(tell_changed(result, false)),
            Called::Enters(function) => Called::Enters(function),
        },
        None => Called::Ended(call_native_all(session, global, table, operation, args, marks)),
    }
}

/// Makes a call by name whose arguments are there, none of which is lent. They stay for a function of a
/// script. Ports upstream's `exec_fn_call`.
///
/// # Errors
/// Those of `pass_call`.
pub fn call_all<H: Host, T: NativeTable<H>>(
    session: &Session<'_, H>,
    global: &mut RunState<H>,
    table: &mut T,
    natives_alone: bool,
    operation: &Operation<'_>,
    args: &mut Few<Dynamic<H>>,
) -> Called<Dynamic<H>, Function<H>, H>
    ensures counts { global.old.num_operations ≤ global.new.num_operations }
    ensures sight { KeepsSight global.old global.new }
    ensures runs { (scope : _) (held : _) (on_scope : _) → let rules = under H.name_of session.now T.natives in
        Goes rules
        (dispatch_core rules.setting (plainly natives_alone on_scope) (call_of (operation_of operation.now) args.old))
        (state_of (T.state table.old) global.old scope held)
        (came_out (not on_scope) operation.now.at (with_args result args.new))
        (state_of (T.state table.new) global.new scope held) }
{
    let values = args.as_mut_slice();
    match pass_all(
        session,
        global,
        table,
        natives_alone,
        operation,
        values,
        false,
    ) {
        Called::Ended(result) => Called::Ended(drop_changed(result)),
        Called::Enters(function) => Called::Enters(function),
    }
}
