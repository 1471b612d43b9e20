//! What a part of a run came to, which stands in the run. A function of the evaluator answers whether it went
//! well: its value stands in `run.value` then, and else its error in `run.error`. A part of a chain's walk
//! answers in Some whether it may have changed the focus, and None where it failed.

ghost use Rattle.std.specs.Prelude.{◌≡◌, ◌<◌, OnOk, None, false, length, slice_get, true};
ghost use Rattle.rhai_state.specs.Scope.{entries_of, revalued};
ghost use Rattle.rhai_errors.specs.Errors.{is_catchable};
ghost use Rattle.rhai_machine.specs.language.Values.{bool_value as truth_of};
ghost use Rattle.rhai_context.specs.Ends.{came, came_changed, came_turn, error_in, unchanged as unchanged_by, unit};

use rhai_errors::error::EvalAltResult;
use rhai_state::scope::Scope;
use rhai_tree::position::Position;
use rhai_values::base::value::{AccessMode, Dynamic, Host, Union};
use std::mem::replace;

/// Puts a value into its place.
pub fn put<H: Host>(out: &mut Dynamic<H>, value: Dynamic<H>)
    ensures { out.new ≡ value }
{
    drop(replace(out, value));
}

/// Puts `()` into the place of a value, where most often it is already.
pub fn put_unit<H: Host>(out: &mut Dynamic<H>)
    ensures { out.new ≡ unit }
{
    match (&out.value, out.mode) {
        (Union::Unit, AccessMode::ReadWrite) => {}
        _ => put(out, Dynamic::new(Union::Unit)),
    }
}

/// Puts `()` into the place of a value, which a part came to, and answers that the part went well.
#[inline(never)]
pub fn leave_unit<H: Host>(out: &mut Dynamic<H>) -> bool
    ensures done { result ≡ true }
    ensures value { out.new ≡ unit }
{
    put_unit(out);
    true
}

/// Puts a value into the place of another one, where most often both are integers.
#[inline(always)]
pub fn put_number<H: Host>(out: &mut Dynamic<H>, value: Dynamic<H>)
    ensures { out.new ≡ value }
{
    if let Union::Int(new) = &value.value {
        if let Union::Int(old) = &mut out.value {
            *old = *new;
            out.mode = value.mode;
            return;
        }
    }
    put_other(out, value);
}

/// Writes a value to the entry at an index, where most often both are integers.
#[inline(always)]
pub fn write_number<H: Host>(scope: &mut Scope<H>, index: usize, value: Dynamic<H>)
    requires { index < length (entries_of scope.old) }
    ensures { entries_of scope.new ≡ revalued (entries_of scope.old) index
        (slice_get (entries_of scope.old) index) value }
{
    put_number(scope.value_at_mut(index), value);
}

/// Puts a value into the place of another one.
#[inline(never)]
fn put_other<H: Host>(out: &mut Dynamic<H>, value: Dynamic<H>)
    ensures { out.new ≡ value }
{
    put(out, value);
}

/// Puts a truth value into the place of a value.
#[inline(never)]
pub fn put_truth<H: Host>(out: &mut Dynamic<H>, holds: bool)
    ensures { out.new ≡ truth_of holds }
{
    put(out, Dynamic::new(Union::Bool(holds)));
}

/// Takes a value out of its place, which has `()` then.
pub fn take_value<H: Host>(out: &mut Dynamic<H>) -> Dynamic<H>
    ensures taken { result ≡ out.old }
    ensures left { out.new ≡ unit }
{
    replace(out, Dynamic::new(Union::Unit))
}

/// Stops a run by an error.
pub fn stop<H: Host>(place: &mut Option<EvalAltResult<H>>, error: EvalAltResult<H>) -> bool
    ensures stopped { result ≡ false }
    ensures told { error_in place.new ≡ error }
{
    drop(replace(place, Some(error)));
    false
}

/// Takes the error that a run stopped with.
pub fn stopped<H: Host>(place: &mut Option<EvalAltResult<H>>) -> EvalAltResult<H>
    ensures { result ≡ error_in place.old }
{
    match replace(place, None) {
        Some(error) => error,
        None => EvalAltResult::ErrorOutOfMemory(Position::NONE),
    }
}

/// Turns how a part ended into a `Result`, for a caller that answers one.
pub fn finish<H: Host>(
    done: bool,
    out: &mut Dynamic<H>,
    place: &mut Option<EvalAltResult<H>>,
) -> Result<Dynamic<H>, EvalAltResult<H>>
    ensures came { result ≡ came done out.old place.old }
    ensures done { OnOk result (done ≡ true) }
{
    if done {
        Ok(take_value(out))
    } else {
        Err(stopped(place))
    }
}

/// Puts how a turn of a loop ended where it belongs: None where another one follows.
pub fn settle_turn<H: Host>(
    place: &mut Option<EvalAltResult<H>>,
    out: &mut Dynamic<H>,
    turn: Result<Option<Dynamic<H>>, EvalAltResult<H>>,
) -> Option<bool>
    ensures { came_turn result out.new place.new ≡ turn }
{
    match turn {
        Ok(None) => None,
        Ok(Some(value)) => {
            put(out, value);
            Some(true)
        }
        Err(error) => Some(stop(place, error)),
    }
}

/// Puts the `Result` that a part ended with where it belongs.
pub fn settle<H: Host>(
    place: &mut Option<EvalAltResult<H>>,
    out: &mut Dynamic<H>,
    answer: Result<Dynamic<H>, EvalAltResult<H>>,
) -> bool
    ensures { came result out.new place.new ≡ answer }
{
    match answer {
        Ok(value) => {
            put(out, value);
            true
        }
        Err(error) => stop(place, error),
    }
}

/// Stops a run by an error, for a part that answers whether it changed the focus.
pub fn fail<H: Host>(place: &mut Option<EvalAltResult<H>>, error: EvalAltResult<H>) -> Option<bool>
    ensures failed { result ≡ None }
    ensures told { error_in place.new ≡ error }
{
    drop(replace(place, Some(error)));
    None
}

/// Puts the `Result` of a part where it belongs, and answers whether the part changed the focus.
pub fn settle_changed<H: Host>(
    place: &mut Option<EvalAltResult<H>>,
    out: &mut Dynamic<H>,
    answer: Result<(Dynamic<H>, bool), EvalAltResult<H>>,
) -> Option<bool>
    ensures { came_changed result out.new place.new ≡ answer }
{
    match answer {
        Ok((value, changed)) => {
            put(out, value);
            Some(changed)
        }
        Err(error) => fail(place, error),
    }
}

/// Turns how a part ended into a `Result`, with whether the part changed the focus.
pub fn finish_changed<H: Host>(
    mark: Option<bool>,
    out: &mut Dynamic<H>,
    place: &mut Option<EvalAltResult<H>>,
) -> Result<(Dynamic<H>, bool), EvalAltResult<H>>
    ensures { result ≡ came_changed mark out.old place.old }
{
    match mark {
        Some(changed) => Ok((take_value(out), changed)),
        None => Err(stopped(place)),
    }
}

/// Answers for a part that does not count as changing the focus, from whether it went well.
pub fn unchanged(done: bool) -> Option<bool>
    ensures { result ≡ unchanged_by done }
{
    if done { Some(false) } else { None }
}

/// Tells whether a script may catch the error that a run stopped with.
pub fn may_catch<H: Host>(place: &Option<EvalAltResult<H>>) -> bool
    ensures { result ≡ is_catchable (error_in place.now) }
{
    match place {
        Some(error) => error.is_catchable(),
        None => false,
    }
}
