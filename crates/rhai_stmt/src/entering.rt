//! How a turn of a `for` is entered: its variables are written.

ghost use Rattle.std.specs.Prelude.{◌≡◌, ◌≢◌, ◌+◌, ◌^◌, ◌∷◌, [], IfSome, None, Some};
ghost use Rattle.std.specs.Prelude.{false, length, nat_le, pos, true};
ghost use Rattle.rhai_values.specs.Cells.{cells_of};
ghost use Rattle.rhai_errors.specs.declared.error.EvalAltResult.TheVariants as error;
ghost use Rattle.rhai_errors.specs.Errors.{is_out_of_memory};
ghost use Rattle.rhai_state.specs.Scope.{entries_of, names_in};
ghost use Rattle.rhai_machine.specs.language.Frames.{Enter, Fail, ForBody, ForItem, ForTurn, core};
ghost use Rattle.rhai_machine.specs.language.Runs.{Goes};
ghost use Rattle.rhai_machine.specs.language.Turns.{next_turn};
ghost use Rattle.rhai_machine.specs.language.Walks.{counter_overflow as text_of_overflow, counters, item_core};
ghost use Rattle.rhai_machine.specs.language.Walks.{turn_core};
ghost use Rattle.rhai_steps.specs.Agreement.{KeepsSight};
ghost use Rattle.rhai_steps.specs.Sessions.{under};
ghost use Rattle.rhai_steps.specs.States.{state_of};
ghost use Rattle.rhai_context.specs.Ends.{came, error_in};
ghost use Rattle.rhai_stmt.specs.Loops.{entered_at, loop_in};
ghost use Rattle.rhai_stmt.specs.Variables.{seen_as};

use crate::parts::ForParts;
use crate::variables::write_variable;
use rhai_context::ends::stop;
use rhai_errors::error::EvalAltResult;
use rhai_errors::errors::shared_text;
use rhai_errors::table::NativeTable;
use rhai_lookups::run::RunState;
use rhai_state::scope::Scope;
use rhai_state::session::Session;
use rhai_steps::values::{flatten, is_bare_handle, let_go};
use rhai_tree::position::Position;
use rhai_values::base::value::{Dynamic, Host, Union};
use std::alloc::Global;

/// Makes the error of a counter that no integer counts on.
fn counter_overflow<H>(alloc: Global, pos: Position) -> EvalAltResult<H>
    ensures { is_out_of_memory result ≡ false → result ≡ error.ErrorArithmetic text_of_overflow pos }
{
    match shared_text(alloc, "for-loop counter overflow: 9223372036854775807") {
        Ok(text) => EvalAltResult::ErrorArithmetic(text, pos),
        Err(_) => EvalAltResult::ErrorOutOfMemory(pos),
    }
}

/// Stops the run by a counter that no integer counts on.
#[cold]
#[inline(never)]
fn stop_counting<H: Host>(
    alloc: Global,
    place: &mut Option<EvalAltResult<H>>,
    pos: Position,
) -> bool
    ensures stopped { result ≡ false }
    ensures told { is_out_of_memory (error_in place.new) ≡ false →
        error_in place.new ≡ error.ErrorArithmetic text_of_overflow pos }
{
    stop(place, counter_overflow(alloc, pos))
}

/// Returns the integer that a turn's number is, if there is one.
fn integer_of(turn: u64) -> Option<i64>
    ensures none { result ≡ None → nat_le (2 ^ 63) turn ≡ true }
    ensures some { IfSome result (λ n. n ≡ pos turn) }
    ensures fits { IfSome result (λ _. nat_le (2 ^ 63) turn ≡ false) }
{
    if turn <= i64::MAX as u64 {
        Some(turn as i64)
    } else {
        None
    }
}

/// Writes the number of a turn into the counter, if there is one.
///
/// # Errors
/// `ErrorArithmetic` at the variable where no integer is the number, with or without a counter, and those of
/// `write_variable`.
fn count_turn<H: Host>(
    alloc: Global,
    global: &mut RunState<H>,
    scope: &mut Scope<H>,
    place: &mut Option<EvalAltResult<H>>,
    parts: ForParts<'_>,
    turn: u64,
    base: usize,
) -> bool
    requires { base + counters parts.counter.now + 1 ≡ length (entries_of scope.old) }
    ensures rest { global.new ≡ record global.old { cells = global.new.cells } }
    ensures sight { KeepsSight global.old global.new }
    ensures names { names_in scope.new ≡ names_in scope.old }
    ensures counted { (item : _) (rest : _) (k : _) (l : _) →
        let before = seen_as (entries_of scope.old) (cells_of global.old.cells) l in
        result ≡ true → turn_core (nat_le (2 ^ 63) turn) (loop_in parts.entry) item rest turn base k before
        ≡ core (ForItem (loop_in parts.entry) item rest turn base) k
        (seen_as (entries_of scope.new) (cells_of global.new.cells) l) }
    ensures refused { (item : _) (rest : _) (k : _) (l : _) →
        let before = seen_as (entries_of scope.old) (cells_of global.old.cells) l in
        result ≡ false → is_out_of_memory (error_in place.new) ≡ false →
        turn_core (nat_le (2 ^ 63) turn) (loop_in parts.entry) item rest turn base k before
        ≡ core (Fail (error_in place.new)) k before }
    ensures same_scope { result ≡ false → entries_of scope.new ≡ entries_of scope.old }
    ensures same_cells { result ≡ false → cells_of global.new.cells ≡ cells_of global.old.cells }
{
    let pos = parts.variable.pos;
    let Some(number) = integer_of(turn) else {
        return stop_counting(alloc, place, pos);
    };
    let Some(counter) = parts.counter else {
        return true;
    };
    let number = Dynamic::new(Union::Int(number));
    write_variable(
        scope,
        &mut global.cells,
        place,
        base,
        number,
        &counter.name,
        pos,
    )
}

/// Writes an item that may be a handle into the variable, as `enter_item` does it.
///
/// # Errors
/// Those of `enter_item`.
#[inline(never)]
fn enter_handle<H: Host>(
    alloc: Global,
    global: &mut RunState<H>,
    scope: &mut Scope<H>,
    place: &mut Option<EvalAltResult<H>>,
    parts: ForParts<'_>,
    item: Dynamic<H>,
    base: usize,
) -> bool
    requires { base + counters parts.counter.now + 1 ≡ length (entries_of scope.old) }
    ensures rest { global.new ≡ record global.old { cells = global.new.cells } }
    ensures sight { KeepsSight global.old global.new }
    ensures names { names_in scope.new ≡ names_in scope.old }
    ensures entered { (rest : _) (turn : _) (k : _) (l : _) →
        let before = seen_as (entries_of scope.old) (cells_of global.old.cells) l in
        result ≡ true → item_core (loop_in parts.entry) item rest turn base k before
        ≡ core (Enter parts.entry.body.now.statements true) (ForBody (loop_in parts.entry) rest turn base ∷ k)
        (seen_as (entries_of scope.new) (cells_of global.new.cells) l) }
    ensures refused { (rest : _) (turn : _) (k : _) (l : _) →
        let before = seen_as (entries_of scope.old) (cells_of global.old.cells) l in
        result ≡ false → is_out_of_memory (error_in place.new) ≡ false →
        item_core (loop_in parts.entry) item rest turn base k before ≡ core (Fail (error_in place.new)) k before }
    ensures same_scope { result ≡ false → entries_of scope.new ≡ entries_of scope.old }
    ensures same_cells { result ≡ false → cells_of global.new.cells ≡ cells_of global.old.cells }
{
    let value = match flatten(alloc, &global.cells, item, parts.items.position()) {
        Ok(value) => value,
        Err(error) => return stop(place, error),
    };
    let index = scope.len() - 1;
    let variable = parts.variable;
    write_variable(
        scope,
        &mut global.cells,
        place,
        index,
        value,
        &variable.name,
        variable.pos,
    )
}

/// Writes the item of a turn into the variable, which is the newest, flattened and with its mode.
///
/// # Errors
/// `ErrorDataRace` where the item leads to a cell that is held, and those of `write_variable`.
fn enter_item<H: Host>(
    alloc: Global,
    global: &mut RunState<H>,
    scope: &mut Scope<H>,
    place: &mut Option<EvalAltResult<H>>,
    parts: ForParts<'_>,
    item: Dynamic<H>,
    base: usize,
) -> bool
    requires { base + counters parts.counter.now + 1 ≡ length (entries_of scope.old) }
    ensures rest { global.new ≡ record global.old { cells = global.new.cells } }
    ensures sight { KeepsSight global.old global.new }
    ensures names { names_in scope.new ≡ names_in scope.old }
    ensures entered { (rest : _) (turn : _) (k : _) (l : _) →
        let before = seen_as (entries_of scope.old) (cells_of global.old.cells) l in
        result ≡ true → item_core (loop_in parts.entry) item rest turn base k before
        ≡ core (Enter parts.entry.body.now.statements true) (ForBody (loop_in parts.entry) rest turn base ∷ k)
        (seen_as (entries_of scope.new) (cells_of global.new.cells) l) }
    ensures refused { (rest : _) (turn : _) (k : _) (l : _) →
        let before = seen_as (entries_of scope.old) (cells_of global.old.cells) l in
        result ≡ false → is_out_of_memory (error_in place.new) ≡ false →
        item_core (loop_in parts.entry) item rest turn base k before ≡ core (Fail (error_in place.new)) k before }
    ensures same_scope { result ≡ false → entries_of scope.new ≡ entries_of scope.old }
    ensures same_cells { result ≡ false → cells_of global.new.cells ≡ cells_of global.old.cells }
{
    if is_bare_handle(&item) {
        return enter_handle(alloc, global, scope, place, parts, item, base);
    }
    let index = scope.len() - 1;
    let variable = parts.variable;
    write_variable(
        scope,
        &mut global.cells,
        place,
        index,
        item,
        &variable.name,
        variable.pos,
    )
}

/// Enters a turn whose body is not empty: its counter and then its variable are written. Where that fails the
/// run stops. The table is not called.
///
/// # Errors
/// Those of `count_turn`, and then those of `enter_item`.
pub fn enter_turn<H: Host, T: NativeTable<H>>(
    session: &Session<'_, H>,
    global: &mut RunState<H>,
    table: &T,
    scope: &mut Scope<H>,
    place: &mut Option<EvalAltResult<H>>,
    parts: ForParts<'_>,
    item: Dynamic<H>,
    turn: u64,
    base: usize,
) -> bool
    requires { base + counters parts.counter.now + 1 ≡ length (entries_of scope.old) }
    ensures rest { global.new ≡ record global.old { cells = global.new.cells } }
    ensures sight { KeepsSight global.old global.new }
    ensures names { names_in scope.new ≡ names_in scope.old }
    ensures enters { (held : _) (left : _) (rest : _) →
        next_turn left ≡ Some (item, rest) → parts.entry.body.now.statements ≢ [] →
        Goes (under H.name_of session.now T.natives)
        (core (ForTurn (loop_in parts.entry) left turn base))
        (state_of (T.state table.now) global.old scope.old held)
        (entered_at (came result tt place.new) (loop_in parts.entry) rest turn base)
        (state_of (T.state table.now) global.new scope.new held) }
{
    if !count_turn(session.alloc, global, scope, place, parts, turn, base) {
        let_go(item);
        return false;
    }
    enter_item(session.alloc, global, scope, place, parts, item, base)
}
