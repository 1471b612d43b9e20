//! Calls of natives, by their names and by their numbers. Ports upstream's `exec_native_fn_call`. The
//! contracts cite the machine's runs, specs/Lending.antt, specs/ToldChanges.antt and specs/Natives.antt.

ghost use Rattle.std.specs.Prelude.{◌≡◌, ◌≤◌, ◌+◌, ◌&&◌, ◌∷◌, [], None, Some, IfErr, IfOk, not, true, false};
ghost use Rattle.rhai_values.specs.Cells.{cells_of, value_of_cell, IsNoHandle};
ghost use Rattle.rhai_errors.specs.Native.{Leaves, Obeys, purity_of, reply_of, request};
ghost use Rattle.rhai_machine.specs.language.Calls.{call_of};
ghost use Rattle.rhai_machine.specs.language.Frames.{Ask, Question, ended_or_changed};
ghost use Rattle.rhai_machine.specs.language.Runs.{Runs, Steps};
ghost use Rattle.rhai_steps.specs.Operations.{operation_of};
ghost use Rattle.rhai_steps.specs.Agreement.{KeepsSight};
ghost use Rattle.rhai_steps.specs.Sessions.{under};
ghost use Rattle.rhai_steps.specs.States.{local_of, state_of};
ghost use Rattle.rhai_steps.specs.Lending.{back_in, lent_call, passed_call, Stands};
ghost use Rattle.rhai_calls.specs.ToldChanges.{gives, with_changed, without_changed};
ghost use Rattle.rhai_calls.specs.Natives.{Bars, CallsInCell, CallsOn, cell_in, Gives, is_barred_from};
ghost use Rattle.rhai_calls.specs.Natives.{is_pure_on};
ghost use Rattle.rhai_calls.specs.Natives.{lends_from, native_call, native_key, over_cells};

use rhai_errors::error::EvalAltResult;
use rhai_errors::errors::{data_race_by, non_pure};
use rhai_errors::table::{Answer, NativeTable};
use rhai_lookups::run::RunState;
use rhai_state::session::Session;
use rhai_steps::charges::track_operation;
use rhai_steps::operation::Operation;
use rhai_steps::replies::{replied, settle_lone_reply};
use rhai_steps::values::is_bare_handle;
use rhai_tree::Items;
use rhai_tree::literal::NativeId;
use rhai_tree::position::Position;
use rhai_values::base::value::{AccessMode, CellId, Dynamic, Host, Union};
use rhai_values::cells::{CellStore, put_back};
use std::alloc::Global;

/// How a native gets its first argument, and what its answer tells of it.
#[derive(Clone, Copy)]
pub struct Passing {
    /// A constant is kept from a native that is not pure.
    pub guarded: bool,
    /// The answer says whether the native may have changed it.
    pub marks: bool,
}

/// Adds to a result whether the call changed its first argument. An error stays as it is.
pub fn tell_changed<H>(
    answer: Result<Dynamic<H>, EvalAltResult<H>>,
    changed: bool,
) -> Result<(Dynamic<H>, bool), EvalAltResult<H>>
    ensures { result ≡ with_changed changed answer }
{
    match answer {
        Ok(value) => Ok((value, changed)),
        Err(error) => Err(error),
    }
}

/// Drops from a result whether the call changed its first argument.
pub fn drop_changed<H>(
    told: Result<(Dynamic<H>, bool), EvalAltResult<H>>,
) -> Result<Dynamic<H>, EvalAltResult<H>>
    ensures { result ≡ without_changed told }
{
    match told {
        Ok((value, _)) => Ok(value),
        Err(error) => Err(error),
    }
}

/// Tells whether a native, by its number or else by its name, changes nothing.
fn is_pure<H: Host, T: NativeTable<H>>(
    table: &T,
    name: &str,
    id: Option<NativeId>,
    first_type: &str,
    count: usize,
) -> bool
    ensures { result ≡ T.natives.pure (T.state table.now)
        (purity_of (native_key name.now id) first_type.now count) }
{
    match id {
        None => table.is_pure(name, first_type, count),
        Some(id) => table.is_pure_numbered(id),
    }
}

/// Tells whether a native is barred from a first argument, which is no handle. It is where the argument is
/// guarded and a constant, and the native is not pure.
fn is_barred<H: Host, T: NativeTable<H>>(
    table: &T,
    name: &str,
    id: Option<NativeId>,
    first: &Dynamic<H>,
    rest: &[Dynamic<H>],
    guarded: bool,
) -> bool
    ensures { result ≡ is_barred_from T.natives H.name_of (T.state table.now)
        (native_key name.now id) first.now rest.now guarded }
{
    guarded
        && matches!(first.mode, AccessMode::ReadOnly)
        && !is_pure(table, name, id, first.own_type_name(), 1 + rest.len())
}

/// Tells whether a native may change a first argument, which is no handle, where that is to be told.
fn may_change<H: Host, T: NativeTable<H>>(
    table: &T,
    name: &str,
    id: Option<NativeId>,
    first: &Dynamic<H>,
    rest: &[Dynamic<H>],
    marks: bool,
) -> bool
    ensures { result ≡ (marks && not (is_pure_on T.natives H.name_of (T.state table.now)
        (native_key name.now id) first.now rest.now)) }
{
    marks && !is_pure(table, name, id, first.own_type_name(), 1 + rest.len())
}

/// Tells whether a native that is called without arguments is not pure, where that is to be told.
fn alone_may_change<H: Host, T: NativeTable<H>>(
    table: &T,
    name: &str,
    id: Option<NativeId>,
    marks: bool,
) -> bool
    ensures { result ≡ (marks && not (T.natives.pure (T.state table.now)
        (purity_of (native_key name.now id) [] 0))) }
{
    marks && !is_pure(table, name, id, "", 0)
}

/// Tells whether a native that may change its first argument answered with a value.
fn has_changed<H>(may_change: bool, answer: &Answer<H>) -> bool
    ensures { result ≡ (may_change && gives (reply_of answer.now)) }
{
    may_change && matches!(answer, Answer::Value(_))
}

/// Asks a native for its answer, by its number or else by its name.
fn answer_of<H: Host, T: NativeTable<H>>(
    table: &mut T,
    cells: &CellStore<H>,
    name: &str,
    id: Option<NativeId>,
    first: &mut Dynamic<H>,
    rest: &[Dynamic<H>],
    pos: Position,
) -> Answer<H>
    requires { IsNoHandle first.old.value }
    ensures obeys { Obeys (T.natives.gives (T.state table.old)
        (request (cells_of cells.now) (native_key name.now id) (Some first.old) rest.now pos))
        (reply_of result) (Some first.new) (T.state table.new) }
    ensures no_handle { IsNoHandle first.new.value }
    ensures leaves { Leaves H.name_of T.natives (T.state table.old)
        (request (cells_of cells.now) (native_key name.now id) (Some first.old) rest.now pos)
        (Some first.new) (T.state table.new) }
{
    match id {
        None => table.call(cells, name, Some(&mut *first), rest, pos),
        Some(id) => table.call_numbered(cells, id, Some(&mut *first), rest, pos),
    }
}

/// Asks a native for its answer that is called without arguments. The lifetime is one for a first argument,
/// which is none.
fn answer_alone<'a, H: Host, T: NativeTable<H>>(
    alloc: Global,
    table: &mut T,
    cells: &'a CellStore<H>,
    name: &str,
    id: Option<NativeId>,
    pos: Position,
) -> Answer<H>
    ensures obeys { Obeys (T.natives.gives (T.state table.old)
        (request (cells_of cells.now) (native_key name.now id) None [] pos))
        (reply_of result) None (T.state table.new) }
    ensures leaves { Leaves H.name_of T.natives (T.state table.old)
        (request (cells_of cells.now) (native_key name.now id) None [] pos) None (T.state table.new) }
{
    let first: Option<&'a mut Dynamic<H>> = None;
    let rest = Items::new(alloc);
    let rest = rest.as_slice();
    match id {
        None => table.call(cells, name, first, rest, pos),
        Some(id) => table.call_numbered(cells, id, first, rest, pos),
    }
}

/// Asks a native for its answer on a value that is no handle. With it comes whether the native may have
/// changed that value, where this is to be told.
///
/// # Errors
/// `ErrorNonPureMethodCallOnConstant` at the call where the native is barred from the value.
fn ask_native<H: Host, T: NativeTable<H>>(
    alloc: Global,
    cells: &CellStore<H>,
    table: &mut T,
    operation: &Operation<'_>,
    id: Option<NativeId>,
    first: &mut Dynamic<H>,
    rest: &[Dynamic<H>],
    passing: Passing,
) -> Result<(Answer<H>, bool), EvalAltResult<H>>
    requires { IsNoHandle first.old.value }
    ensures barred { IfErr result (λ e. Bars T.natives H.name_of (native_key operation.now.name.now id) passing.guarded
        first.old rest.now (T.state table.old) (T.state table.new) first.new e operation.now.name.now operation.now.at) }
    ensures asked { IfOk result (λ answer. Gives T.natives H.name_of (cells_of cells.now)
        (native_key operation.now.name.now id) passing.guarded passing.marks first.old rest.now operation.now.at
        (T.state table.old) (T.state table.new) (reply_of answer.0) first.new answer.1) }
{
    if is_barred(&*table, operation.name, id, first, rest, passing.guarded) {
        return Err(non_pure(alloc, operation.name, operation.at));
    }
    let changes = may_change(&*table, operation.name, id, first, rest, passing.marks);
    let answer = answer_of(table, cells, operation.name, id, first, rest, operation.at);
    let changed = has_changed(changes, &answer);
    Ok((answer, changed))
}

/// Calls a native on a value that is no handle, unless the native is barred from it.
fn call_value<H: Host, T: NativeTable<H>>(
    session: &Session<'_, H>,
    cells: &CellStore<H>,
    table: &mut T,
    operation: &Operation<'_>,
    id: Option<NativeId>,
    first: &mut Dynamic<H>,
    rest: &[Dynamic<H>],
    passing: Passing,
) -> Result<(Dynamic<H>, bool), EvalAltResult<H>>
    requires { IsNoHandle first.old.value }
    ensures runs { CallsOn (under H.name_of session.now T.natives)
        (cells_of cells.now) (cells_of cells.now) (operation_of operation.now) id
        passing.guarded passing.marks first.old first.new rest.now
        (T.state table.old) (T.state table.new) result }
    ensures untold { IfOk result (λ answer. passing.marks ≡ false → answer.1 ≡ false) }
{
    match ask_native(
        session.alloc,
        cells,
        table,
        operation,
        id,
        first,
        rest,
        passing,
    ) {
        Err(error) => Err(error),
        Ok((answer, changed)) => {
            let by_number = id.is_some();
            let result = replied(session, cells, answer, operation, by_number, first, rest);
            tell_changed(result, changed)
        }
    }
}

/// Returns the cell that a value is a handle of.
fn handle_of<H: Host>(value: &Dynamic<H>) -> Option<CellId>
    ensures { result ≡ cell_in value.now.value }
{
    match &value.value {
        Union::Cell(id) => Some(*id),
        _ => None,
    }
}

/// Tells whether a cell has a value to be lent. It is not held, and its value is no handle again.
fn lends<H: Host>(cells: &CellStore<H>, id: CellId) -> bool
    ensures { result ≡ lends_from (value_of_cell (cells_of cells.now) id.number) }
{
    match cells.get(id) {
        Some(value) => !is_bare_handle(value),
        None => false,
    }
}

/// Calls a native on the value of a cell, which is held so long. What becomes of its answer is told once the
/// value is back.
fn call_in_cell<H: Host, T: NativeTable<H>>(
    session: &Session<'_, H>,
    cells: &mut CellStore<H>,
    table: &mut T,
    operation: &Operation<'_>,
    id: Option<NativeId>,
    cell: CellId,
    rest: &[Dynamic<H>],
    passing: Passing,
) -> Result<(Dynamic<H>, bool), EvalAltResult<H>>
    requires { lends_from (value_of_cell (cells_of cells.old) cell.number) ≡ true }
    ensures runs { CallsInCell (under H.name_of session.now T.natives)
        (operation_of operation.now) id passing.guarded passing.marks cell
        rest.now (cells_of cells.old) (cells_of cells.new) (T.state table.old) (T.state table.new)
        result }
    ensures untold { IfOk result (λ answer. passing.marks ≡ false → answer.1 ≡ false) }
{
    match cells.take(cell) {
        Some(lent) => {
            let mut lent = lent;
            let asked = ask_native(
                session.alloc,
                &*cells,
                table,
                operation,
                id,
                &mut lent,
                rest,
                passing,
            );
            put_back(cells, cell, lent);
            match asked {
                Err(error) => Err(error),
                Ok((answer, changed)) => {
                    let by_number = id.is_some();
                    let left = cells.get(cell).unwrap();
                    let result = replied(
                        session, &*cells, answer, operation, by_number, left, rest,
                    );
                    tell_changed(result, changed)
                }
            }
        }
        None => unreachable!(),
    }
}

/// Calls a native on its first argument. A handle stands for the value of its cell.
fn call_first<H: Host, T: NativeTable<H>>(
    session: &Session<'_, H>,
    global: &mut RunState<H>,
    table: &mut T,
    operation: &Operation<'_>,
    id: Option<NativeId>,
    first: &mut Dynamic<H>,
    rest: &[Dynamic<H>],
    passing: Passing,
) -> Result<(Dynamic<H>, bool), EvalAltResult<H>>
    ensures counts { global.new.num_operations ≡ global.old.num_operations }
    ensures sight { KeepsSight global.old global.new }
    ensures runs { (scope : _) (held : _) (lender : _) →
        Stands lender first.old (local_of global.old scope held) →
        Steps (under H.name_of session.now T.natives)
        (Question (native_call (operation_of operation.now) id lender passing.guarded passing.marks (first.old ∷ rest.now)))
        (state_of (T.state table.old) global.old scope held) (ended_or_changed result)
        (back_in lender first.new (state_of (T.state table.new) global.new scope held)) }
    ensures untold { IfOk result (λ answer. passing.marks ≡ false → answer.1 ≡ false) }
{
    let Some(cell) = handle_of(first) else {
        let cells = &global.cells;
        return call_value(session, cells, table, operation, id, first, rest, passing);
    };
    if !lends(&global.cells, cell) {
        return Err(data_race_by(session.alloc, operation.name, operation.at));
    }
    call_in_cell(
        session,
        &mut global.cells,
        table,
        operation,
        id,
        cell,
        rest,
        passing,
    )
}

/// Calls a native without arguments.
fn call_alone<H: Host, T: NativeTable<H>>(
    session: &Session<'_, H>,
    cells: &CellStore<H>,
    table: &mut T,
    operation: &Operation<'_>,
    id: Option<NativeId>,
    marks: bool,
) -> Result<(Dynamic<H>, bool), EvalAltResult<H>>
    ensures runs { (count : _) (l : _) → let before = over_cells (cells_of cells.now) l in
        Steps (under H.name_of session.now T.natives)
        (Question (native_call (operation_of operation.now) id None false marks []))
        (record { table = T.state table.old; count = count; local = before }) (ended_or_changed result)
        (record { table = T.state table.new; count = count; local = before }) }
    ensures untold { IfOk result (λ answer. marks ≡ false → answer.1 ≡ false) }
{
    let changes = alone_may_change(&*table, operation.name, id, marks);
    let answer = answer_alone(
        session.alloc,
        table,
        cells,
        operation.name,
        id,
        operation.at,
    );
    let changed = has_changed(changes, &answer);
    let by_number = id.is_some();
    let result = settle_lone_reply(session, answer, operation, by_number);
    tell_changed(result, changed)
}

/// Charges a call at its position, and calls the native of its name. A first argument that is a handle stands
/// for the value of its cell, which is held so long. Where it is guarded, it is kept from a native that is
/// not pure where it is a constant. Where no native has the name, the built-in of the operator has the
/// answer. Where `passing` asks for that, an answer tells whether the native is not pure. Ports upstream's
/// `exec_native_fn_call`.
///
/// # Errors
/// At the call: `ErrorTooManyOperations` where the count has reached the limit, and then nothing is
/// changed; `ErrorDataRace` for the handle of a cell that is held;
/// `ErrorNonPureMethodCallOnConstant`; `ErrorDotExpr`, `ErrorIndexingType` or `ErrorFunctionNotFound`
/// where there is no such native; its own fault where that says no position; `ErrorDataTooLarge` for
/// an answer above a limit.
pub fn pass_native<H: Host, T: NativeTable<H>>(
    session: &Session<'_, H>,
    global: &mut RunState<H>,
    table: &mut T,
    operation: &Operation<'_>,
    first: &mut Dynamic<H>,
    rest: &[Dynamic<H>],
    passing: Passing,
) -> Result<(Dynamic<H>, bool), EvalAltResult<H>>
    ensures counts { global.old.num_operations ≤ global.new.num_operations }
    ensures sight { KeepsSight global.old global.new }
    ensures runs { (scope : _) (held : _) (lender : _) →
        Stands lender first.old (local_of global.old scope held) →
        Steps (under H.name_of session.now T.natives)
        (Ask (passed_call (operation_of operation.now) lender passing.guarded passing.marks (first.old ∷ rest.now)))
        (state_of (T.state table.old) global.old scope held) (ended_or_changed result)
        (back_in lender first.new (state_of (T.state table.new) global.new scope held)) }
    ensures untold { IfOk result (λ answer. passing.marks ≡ false → answer.1 ≡ false) }
{
    track_operation(&session.limits, global, operation.at)?;
    call_first(
        session, global, table, operation, None, first, rest, passing,
    )
}

/// Charges a call without arguments at its position, and calls the native of its name.
///
/// # Errors
/// Those of `pass_native` but for a race and a constant.
pub fn pass_native_alone<H: Host, T: NativeTable<H>>(
    session: &Session<'_, H>,
    global: &mut RunState<H>,
    table: &mut T,
    operation: &Operation<'_>,
    marks: bool,
) -> Result<(Dynamic<H>, bool), EvalAltResult<H>>
    ensures counts { global.old.num_operations ≤ global.new.num_operations }
    ensures sight { KeepsSight global.old global.new }
    ensures runs { (scope : _) (held : _) →
        Steps (under H.name_of session.now T.natives)
        (Ask (passed_call (operation_of operation.now) None false marks []))
        (state_of (T.state table.old) global.old scope held) (ended_or_changed result)
        (state_of (T.state table.new) global.new scope held) }
    ensures untold { IfOk result (λ answer. marks ≡ false → answer.1 ≡ false) }
{
    track_operation(&session.limits, global, operation.at)?;
    let cells = &global.cells;
    call_alone(session, cells, table, operation, None, marks)
}

/// Calls a native as `pass_native` does. The answer does not tell whether the native changed its first
/// argument.
///
/// # Errors
/// Those of `pass_native`.
pub fn call_native<H: Host, T: NativeTable<H>>(
    session: &Session<'_, H>,
    global: &mut RunState<H>,
    table: &mut T,
    operation: &Operation<'_>,
    first: &mut Dynamic<H>,
    rest: &[Dynamic<H>],
    guarded: bool,
) -> Result<Dynamic<H>, EvalAltResult<H>>
    ensures counts { global.old.num_operations ≤ global.new.num_operations }
    ensures sight { KeepsSight global.old global.new }
    ensures runs { (scope : _) (held : _) (lender : _) →
        Stands lender first.old (local_of global.old scope held) →
        Runs (under H.name_of session.now T.natives)
        (Ask (lent_call (operation_of operation.now) lender guarded
        (first.old ∷ rest.now)))
        (state_of (T.state table.old) global.old scope held)
        result (back_in lender first.new (state_of (T.state table.new) global.new scope held)) }
{
    let passing = Passing {
        guarded,
        marks: false,
    };
    drop_changed(pass_native(session, global, table, operation, first, rest, passing))
}

/// Calls the native of a number, with the name under which it was called. It charges nothing, and
/// guards no constant.
///
/// # Errors
/// Those of `pass_native` but for the charge and a constant.
pub fn call_number<H: Host, T: NativeTable<H>>(
    session: &Session<'_, H>,
    global: &mut RunState<H>,
    table: &mut T,
    id: NativeId,
    operation: &Operation<'_>,
    first: &mut Dynamic<H>,
    rest: &[Dynamic<H>],
) -> Result<Dynamic<H>, EvalAltResult<H>>
    ensures counts { global.old.num_operations ≤ global.new.num_operations }
    ensures sight { KeepsSight global.old global.new }
    ensures runs { (scope : _) (held : _) → Runs (under H.name_of session.now T.natives)
        (Question (record (call_of (operation_of operation.now)
        (first.old ∷ rest.now)) { number = Some id.number }))
        (state_of (T.state table.old) global.old scope held)
        result (state_of (T.state table.new) global.new scope held) }
{
    let passing = Passing {
        guarded: false,
        marks: false,
    };
    drop_changed(call_first(
        session,
        global,
        table,
        operation,
        Some(id),
        first,
        rest,
        passing,
    ))
}

/// Calls the native of a number on a value that may be lent, and is guarded. Its answer says nothing of
/// that value.
///
/// # Errors
/// Those of `pass_native` but for the charge.
pub fn call_number_on<H: Host, T: NativeTable<H>>(
    session: &Session<'_, H>,
    global: &mut RunState<H>,
    table: &mut T,
    id: NativeId,
    operation: &Operation<'_>,
    first: &mut Dynamic<H>,
    rest: &[Dynamic<H>],
) -> Result<(Dynamic<H>, bool), EvalAltResult<H>>
    ensures counts { global.old.num_operations ≤ global.new.num_operations }
    ensures sight { KeepsSight global.old global.new }
    ensures runs { (scope : _) (held : _) (lender : _) →
        Stands lender first.old (local_of global.old scope held) →
        Steps (under H.name_of session.now T.natives)
        (Question (native_call (operation_of operation.now) (Some id) lender true false (first.old ∷ rest.now)))
        (state_of (T.state table.old) global.old scope held) (ended_or_changed result)
        (back_in lender first.new (state_of (T.state table.new) global.new scope held)) }
{
    let passing = Passing {
        guarded: true,
        marks: false,
    };
    call_first(
        session,
        global,
        table,
        operation,
        Some(id),
        first,
        rest,
        passing,
    )
}

/// Calls the native of a number without arguments, as `call_number` does.
///
/// # Errors
/// Those of `call_number` but for a race.
pub fn call_number_alone<H: Host, T: NativeTable<H>>(
    session: &Session<'_, H>,
    global: &mut RunState<H>,
    table: &mut T,
    id: NativeId,
    operation: &Operation<'_>,
) -> Result<Dynamic<H>, EvalAltResult<H>>
    ensures counts { global.old.num_operations ≤ global.new.num_operations }
    ensures sight { KeepsSight global.old global.new }
    ensures runs { (scope : _) (held : _) → Runs (under H.name_of session.now T.natives)
        (Question (record (call_of (operation_of operation.now) [])
        { number = Some id.number }))
        (state_of (T.state table.old) global.old scope held)
        result (state_of (T.state table.new) global.new scope held) }
{
    let cells = &global.cells;
    drop_changed(call_alone(session, cells, table, operation, Some(id), false))
}
