//! Lists of arguments.

ghost use Rattle.std.specs.Prelude.{◌≡◌, IsTrue, Err, true, false};
ghost use Rattle.std.specs.Option.{option_copied};
ghost use Rattle.rhai_tree.specs.Positions.{position_of};
ghost use Rattle.rhai_values.specs.Cells.{cells_of};
ghost use Rattle.rhai_errors.specs.Errors.{is_out_of_memory};
ghost use Rattle.rhai_machine.specs.language.Arguments.{taken as taken_as};
ghost use Rattle.rhai_machine.specs.language.State.{Answers};
ghost use Rattle.rhai_call_forms.specs.Leading.{all_args};
ghost use Rattle.rhai_context.specs.Ends.{came, error_in};
ghost use Rattle.rhai_callees.specs.Kept.{HasKept};

use rhai_call_forms::arguments::split_first;
use rhai_context::ends::{stop, take_value};
use rhai_context::outcomes::flatten_at;
use rhai_errors::error::EvalAltResult;
use rhai_few::Few;
use rhai_tree::expr::{Expr, FnCallExpr};
use rhai_values::base::value::{Dynamic, Host};
use rhai_values::cells::CellStore;
use std::alloc::Global;

/// Splits a call into its name, the first of its arguments, and the others.
#[inline(always)]
pub fn parts_of_call(call: &FnCallExpr) -> (&str, Option<&Expr>, &[Expr])
    ensures name { result.0.now ≡ call.now.name }
    ensures args { call.now.args ≡ all_args (option_copied result.1) result.2.now }
{
    let (first, rest) = split_first(call.args.as_slice());
    (call.name.get().as_str(), first, rest)
}

/// Takes the value of a run as an argument. It is flattened for a function, and stays as it is for what keeps
/// it.
#[inline(always)]
fn flatten_argument<H: Host>(
    alloc: Global,
    cells: &CellStore<H>,
    out: &mut Dynamic<H>,
    place: &mut Option<EvalAltResult<H>>,
    flattened: bool,
    arg: &Expr,
) -> bool
    ensures { Answers (came result out.new place.new)
        (taken_as flattened (cells_of cells.now) out.old (position_of arg.now)) }
{
    if flattened {
        flatten_at(alloc, cells, out, place, arg)
    } else {
        true
    }
}

/// Stops a run at an argument for which there is no memory.
#[cold]
#[inline(never)]
fn stop_without_room<H: Host>(place: &mut Option<EvalAltResult<H>>, arg: &Expr) -> bool
    ensures stopped { result ≡ false }
    ensures told { is_out_of_memory (error_in place.new) ≡ true }
{
    stop(place, EvalAltResult::ErrorOutOfMemory(arg.position()))
}

/// Takes the value of a run as an argument behind those that are there. One of a function is flattened first.
/// Tells whether it went well; an error is left in `place`.
///
/// # Errors
/// `ErrorDataRace` at the argument, where it is the handle of a cell that is held and is flattened.
pub fn push_argument<H: Host>(
    alloc: Global,
    cells: &CellStore<H>,
    made: &mut Few<Dynamic<H>>,
    out: &mut Dynamic<H>,
    place: &mut Option<EvalAltResult<H>>,
    flattened: bool,
    arg: &Expr,
) -> bool
    ensures kept { IsTrue result →
        HasKept (taken_as flattened (cells_of cells.now) out.old (position_of arg.now)) made.old made.new }
    ensures refused { result ≡ false → is_out_of_memory (error_in place.new) ≡ false →
        taken_as flattened (cells_of cells.now) out.old (position_of arg.now) ≡ Err (error_in place.new) }
{
    if !flatten_argument(alloc, cells, out, place, flattened, arg) {
        return false;
    }
    match made.push(take_value(out)) {
        Ok(()) => true,
        Err(_) => stop_without_room(place, arg),
    }
}
