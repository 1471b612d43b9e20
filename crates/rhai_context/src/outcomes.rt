//! Parts of a run that end in it: charges, values without their handles, and turns of loops.

ghost use Rattle.std.specs.Prelude.{◌≡◌, ◌<◌, ◌≤◌, ◌+◌, IsTrue, None, false, true};
ghost use Rattle.rhai_tree.specs.Positions.{position_of, stmt_position_of};
ghost use Rattle.rhai_values.specs.Cells.{cells_of};
ghost use Rattle.rhai_errors.specs.declared.error.EvalAltResult.TheVariants as error;
ghost use Rattle.rhai_machine.specs.language.State.{Answers};
ghost use Rattle.rhai_machine.specs.language.Values.{flat, is_handle, is_truth, through, truth};
ghost use Rattle.rhai_steps.specs.Agreement.{KeepsSight};
ghost use Rattle.rhai_steps.specs.Loops.{after_body, turn_in};
ghost use Rattle.rhai_steps.specs.Values.{unit_seen};
ghost use Rattle.rhai_context.specs.Ends.{came, came_test, came_turn, error_in};
ghost use Rattle.rhai_context.specs.Outcomes.{ended_by};

use crate::ends::{put, settle, settle_turn, stop, stopped, take_value};
use rhai_errors::error::EvalAltResult;
use rhai_lookups::run::RunState;
use rhai_state::limits::Limits;
use rhai_steps::charges::charge_one;
use rhai_steps::loops::{BodyEnd, body_end, while_next};
use rhai_steps::values::{flatten, is_unit, truth_value};
use rhai_tree::expr::{Expr, Stmt};
use rhai_tree::position::Position;
use rhai_values::base::value::{Dynamic, Host, Union};
use rhai_values::cells::CellStore;
use std::alloc::Global;

/// Charges one operation. Where the count has reached the limit, it stays and the run stops.
#[inline(always)]
pub fn charge<H: Host>(
    limits: &Limits,
    global: &mut RunState<H>,
    place: &mut Option<EvalAltResult<H>>,
    pos: Position,
) -> bool
    ensures room { IsTrue result → global.old.num_operations < limits.now.max_operations }
    ensures charged { IsTrue result → global.new ≡ record global.old
        { num_operations = global.old.num_operations + 1 } }
    ensures full { result ≡ false → limits.now.max_operations ≤ global.old.num_operations }
    ensures refused { result ≡ false → error_in place.new ≡ error.ErrorTooManyOperations pos }
    ensures same { result ≡ false → global.new ≡ global.old }
    ensures sight { KeepsSight global.old global.new }
{
    if charge_one(limits, global) {
        return true;
    }
    stop_at(place, pos)
}

/// Charges a statement at its position. Where the count has reached the limit, it stays and the run stops.
#[inline(always)]
pub fn charge_stmt<H: Host>(
    limits: &Limits,
    global: &mut RunState<H>,
    place: &mut Option<EvalAltResult<H>>,
    stmt: &Stmt,
) -> bool
    ensures room { IsTrue result → global.old.num_operations < limits.now.max_operations }
    ensures charged { IsTrue result → global.new ≡ record global.old
        { num_operations = global.old.num_operations + 1 } }
    ensures full { result ≡ false → limits.now.max_operations ≤ global.old.num_operations }
    ensures refused { result ≡ false → error_in place.new ≡
        error.ErrorTooManyOperations (stmt_position_of stmt.now) }
    ensures same { result ≡ false → global.new ≡ global.old }
    ensures sight { KeepsSight global.old global.new }
{
    if charge_one(limits, global) {
        return true;
    }
    stop_at(place, stmt.position())
}

/// Charges an expression at its position. Where the count has reached the limit, it stays and the run stops.
#[inline(always)]
pub fn charge_expr<H: Host>(
    limits: &Limits,
    global: &mut RunState<H>,
    place: &mut Option<EvalAltResult<H>>,
    expr: &Expr,
) -> bool
    ensures room { IsTrue result → global.old.num_operations < limits.now.max_operations }
    ensures charged { IsTrue result → global.new ≡ record global.old
        { num_operations = global.old.num_operations + 1 } }
    ensures full { result ≡ false → limits.now.max_operations ≤ global.old.num_operations }
    ensures refused { result ≡ false → error_in place.new ≡
        error.ErrorTooManyOperations (position_of expr.now) }
    ensures same { result ≡ false → global.new ≡ global.old }
    ensures sight { KeepsSight global.old global.new }
{
    if charge_one(limits, global) {
        return true;
    }
    stop_at(place, expr.position())
}

/// Stops a run at a position where the count has reached the limit.
#[cold]
#[inline(never)]
fn stop_at<H: Host>(place: &mut Option<EvalAltResult<H>>, pos: Position) -> bool
    ensures stopped { result ≡ false }
    ensures told { error_in place.new ≡ error.ErrorTooManyOperations pos }
{
    stop(place, EvalAltResult::ErrorTooManyOperations(pos))
}

/// Takes the handle off the value of a run: of a handle it becomes a copy of the cell's value.
///
/// # Errors
/// Those of `flatten`.
#[inline(always)]
pub fn flatten_value<H: Host>(
    alloc: Global,
    cells: &CellStore<H>,
    out: &mut Dynamic<H>,
    place: &mut Option<EvalAltResult<H>>,
    pos: Position,
) -> bool
    ensures exact { Answers (came result out.new place.new) (flat (cells_of cells.now) out.old pos) }
    ensures memory { result ≡ false → is_handle out.old.value ≡ true }
{
    match &out.value {
        Union::Cell(_) => flatten_handle(alloc, cells, out, place, pos),
        _ => true,
    }
}

/// Takes the handle off what an expression gave, at the position of that expression.
#[inline(always)]
pub fn flatten_at<H: Host>(
    alloc: Global,
    cells: &CellStore<H>,
    out: &mut Dynamic<H>,
    place: &mut Option<EvalAltResult<H>>,
    expr: &Expr,
) -> bool
    ensures exact { Answers (came result out.new place.new)
        (flat (cells_of cells.now) out.old (position_of expr.now)) }
    ensures memory { result ≡ false → is_handle out.old.value ≡ true }
{
    match &out.value {
        Union::Cell(_) => flatten_handle(alloc, cells, out, place, expr.position()),
        _ => true,
    }
}

/// Replaces the value of a run that is a handle by a copy of the cell's value.
#[inline(never)]
fn flatten_handle<H: Host>(
    alloc: Global,
    cells: &CellStore<H>,
    out: &mut Dynamic<H>,
    place: &mut Option<EvalAltResult<H>>,
    pos: Position,
) -> bool
    ensures { Answers (came result out.new place.new) (flat (cells_of cells.now) out.old pos) }
{
    let value = take_value(out);
    settle(place, out, flatten(alloc, cells, value, pos))
}

/// Reads the truth value that a condition left in the run, through a handle. None where it is none: then the
/// run stops.
///
/// # Errors
/// Those of `truth_value`.
#[inline(always)]
pub fn truth_left<H: Host>(
    alloc: Global,
    cells: &CellStore<H>,
    out: &mut Dynamic<H>,
    place: &mut Option<EvalAltResult<H>>,
    test: &Expr,
) -> Option<bool>
    ensures exact { Answers (came_test result place.new)
        (truth H.name_of (cells_of cells.now) out.old (position_of test.now)) }
    ensures memory { result ≡ None → is_truth out.old.value ≡ false }
{
    match &out.value {
        Union::Bool(holds) => Some(*holds),
        _ => other_truth(alloc, cells, out, place, test.position()),
    }
}

/// Reads the truth value that a condition left which is perhaps no truth value by itself.
#[inline(never)]
fn other_truth<H: Host>(
    alloc: Global,
    cells: &CellStore<H>,
    out: &mut Dynamic<H>,
    place: &mut Option<EvalAltResult<H>>,
    pos: Position,
) -> Option<bool>
    ensures exact { Answers (came_test result place.new)
        (truth H.name_of (cells_of cells.now) out.old pos) }
    ensures memory { result ≡ None → is_truth out.old.value ≡ false }
{
    match truth_value(alloc, cells, take_value(out), pos) {
        Ok(holds) => Some(holds),
        Err(error) => {
            stop(place, error);
            None
        }
    }
}

/// Tells whether a part left `()` in the run, through a handle. None where that is a cell which is held: then
/// the run stops.
///
/// # Errors
/// Those of `is_unit`.
#[inline(always)]
pub fn unit_left<H: Host>(
    alloc: Global,
    cells: &CellStore<H>,
    out: &Dynamic<H>,
    place: &mut Option<EvalAltResult<H>>,
    part: &Expr,
) -> Option<bool>
    ensures { Answers (came_test result place.new)
        (unit_seen (through (cells_of cells.now) out.now (position_of part.now))) }
{
    match is_unit(alloc, cells, out, part.position()) {
        Ok(is_unit) => Some(is_unit),
        Err(error) => {
            stop(place, error);
            None
        }
    }
}

/// How the body of a loop ended.
#[derive(Clone, Copy)]
pub enum BodyWay {
    /// At its last statement.
    Done,
    /// By a `continue`.
    Continue,
    /// By a `break`, whose value is the run's.
    Break,
    /// By an error, which passes.
    Stopped,
}

/// Tells how the body of a loop ended that left a value or an error in the run.
#[inline(always)]
pub fn body_way<H: Host>(
    done: bool,
    out: &mut Dynamic<H>,
    place: &mut Option<EvalAltResult<H>>,
) -> BodyWay
    ensures { ended_by result out.new place.new ≡ turn_in (came done out.old place.old) }
{
    if done {
        BodyWay::Done
    } else {
        way_by_error(out, place)
    }
}

/// Tells how a body ended that left an error.
#[inline(never)]
fn way_by_error<H: Host>(out: &mut Dynamic<H>, place: &mut Option<EvalAltResult<H>>) -> BodyWay
    ensures { ended_by result out.new place.new ≡ turn_in (came false out.old place.old) }
{
    match body_end(Err(stopped(place))) {
        Ok(BodyEnd::Done) => BodyWay::Done,
        Ok(BodyEnd::Continue) => BodyWay::Continue,
        Ok(BodyEnd::Break(value)) => {
            put(out, value);
            BodyWay::Break
        }
        Err(error) => {
            stop(place, error);
            BodyWay::Stopped
        }
    }
}

/// Tells what a loop makes of its body: None where another turn follows.
#[inline(always)]
pub fn turn_end<H: Host>(
    done: bool,
    out: &mut Dynamic<H>,
    place: &mut Option<EvalAltResult<H>>,
) -> Option<bool>
    ensures { came_turn result out.new place.new ≡ after_body (turn_in (came done out.old place.old)) }
{
    if done { None } else { turn_left(out, place) }
}

/// Tells what a loop makes of a body that left an error.
#[inline(never)]
fn turn_left<H: Host>(out: &mut Dynamic<H>, place: &mut Option<EvalAltResult<H>>) -> Option<bool>
    ensures { came_turn result out.new place.new ≡ after_body (turn_in (came false out.old place.old)) }
{
    let turn = while_next(Err(stopped(place)));
    settle_turn(place, out, turn)
}
