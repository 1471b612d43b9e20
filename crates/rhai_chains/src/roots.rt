//! What stands around the walk of a chain: what it begins on, of a variable, of `this` or of a value, and how
//! that goes back. Ports what upstream's `eval_dot_index_chain` does with the root. The contracts cite
//! specs/Roots.antt.

ghost use Rattle.std.specs.Prelude.{◌≡◌, ◌<◌, IfSome, Some, None, [], true, false, is_some, length};
ghost use Rattle.rhai_tree.specs.Positions.{position_of};
ghost use Rattle.rhai_values.specs.Cells.{cells_of};
ghost use Rattle.rhai_errors.specs.Errors.{is_out_of_memory};
ghost use Rattle.rhai_errors.specs.declared.error.EvalAltResult.TheVariants as error;
ghost use Rattle.rhai_state.specs.Scope.{entries_of};
ghost use Rattle.rhai_machine.specs.language.Calls.{is_held as is_anothers};
ghost use Rattle.rhai_machine.specs.language.State.{Answers};
ghost use Rattle.rhai_machine.specs.language.Values.{flat};
ghost use Rattle.rhai_steps.specs.Agreement.{AgreesAt};
ghost use Rattle.rhai_steps.specs.Offers.{globals_in};
ghost use Rattle.rhai_names.specs.Variables.{offset_is_good, variable_told};
ghost use Rattle.rhai_context.specs.Ends.{came_some, error_in};
ghost use Rattle.rhai_chains.specs.Roots.{GoesBack, LendsVariable, RefusesThis};

use rhai_calls::dispatch::is_held;
use rhai_context::ends::{stop, take_value};
use rhai_context::outcomes::flatten_at;
use rhai_errors::error::EvalAltResult;
use rhai_errors::errors::{data_race, data_race_of};
use rhai_lookups::run::RunState;
use rhai_names::variables::{Variable, entry_of_variable, read_beside};
use rhai_state::scope::Scope;
use rhai_state::session::Session;
use rhai_steps::values::{let_go, unit_value};
use rhai_tree::expr::Expr;
use rhai_tree::position::Position;
use rhai_values::base::value::{Dynamic, Host};
use rhai_values::cells::CellStore;
use std::alloc::Global;
use std::mem::replace;

/// Tells whether a value is the handle of a cell that is held. The error is left in `place` then.
fn refuses_held<H: Host>(
    alloc: Global,
    cells: &CellStore<H>,
    value: &Dynamic<H>,
    place: &mut Option<EvalAltResult<H>>,
    pos: Position,
) -> bool
    ensures seen { result ≡ is_anothers (cells_of cells.now) value.now.value }
    ensures told { result ≡ true → is_out_of_memory (error_in place.new) ≡ false →
        error_in place.new ≡ error.ErrorDataRace [] pos }
{
    let is_anothers = is_held(cells, value);
    if is_anothers {
        stop(place, data_race(alloc, pos));
    }
    is_anothers
}

/// Takes out what the walk of a chain begins on that a variable means. It is an entry's value, with the
/// entry, which has `()` meanwhile, or a temporary. Asked: the offset leads to the newest variable of the
/// name, and the index of its path to the newest import of its first name.
///
/// # Errors
/// `ErrorDataRace` at the name for an entry that is the handle of a cell that is held, and those of
/// `read_beside`. It is left in `place`, and the variables stay.
pub fn lend_variable<H: Host>(
    session: &Session<'_, H>,
    global: &RunState<H>,
    scope: &mut Scope<H>,
    place: &mut Option<EvalAltResult<H>>,
    variable: &Variable<'_>,
) -> Option<(Option<usize>, Dynamic<H>)>
    requires { AgreesAt global.now scope.old (offset_is_good variable.now) }
    ensures lends { LendsVariable (globals_in session.now.offered) global.now
        (variable_told variable.now) (entries_of scope.old) (came_some result place.new)
        (entries_of scope.new) }
    ensures within { IfSome result (λ lent. IfSome lent.0 (λ at. at < length (entries_of scope.new))) }
    ensures kept { result ≡ None → scope.new ≡ scope.old }
{
    match entry_of_variable(
        global,
        scope,
        variable.offset,
        variable.name,
        variable.namespace,
    ) {
        None => match read_beside(
            session,
            global,
            variable.name,
            variable.namespace,
            variable.at,
        ) {
            Ok(value) => Some((None, value)),
            Err(error) => {
                stop(place, error);
                None
            }
        },
        Some(index) => {
            let is_anothers = is_held(&global.cells, scope.value_at(index));
            if is_anothers {
                stop(place, data_race_of(variable.name, variable.at));
                return None;
            }
            Some((Some(index), scope.replace_value(index, unit_value())))
        }
    }
}

/// Puts what a walk began on back into the variable that it was lent from; a temporary is let go. Tells
/// whether the walk went well.
pub fn give_variable<H: Host>(
    scope: &mut Scope<H>,
    index: Option<usize>,
    focus: Dynamic<H>,
    mark: Option<bool>,
) -> bool
    requires { IfSome index (λ at. at < length (entries_of scope.old)) }
    ensures back { GoesBack index focus (entries_of scope.old) (entries_of scope.new) }
    ensures well { result ≡ is_some mark }
{
    match index {
        Some(at) => let_go(scope.replace_value(at, focus)),
        None => let_go(focus),
    }
    mark.is_some()
}

/// Lets go of a temporary that a walk began on. Tells whether the walk went well.
pub fn leave_temporary<H: Host>(focus: Dynamic<H>, mark: Option<bool>) -> bool
    ensures { result ≡ is_some mark }
{
    let_go(focus);
    mark.is_some()
}

/// Takes `this` out, for a walk to begin on.
///
/// # Errors
/// At the position `ErrorUnboundThis`, and `ErrorDataRace` for the handle of a cell that is held. It is left
/// in `place`, and `this` stays.
pub fn lend_this<H: Host>(
    alloc: Global,
    cells: &CellStore<H>,
    this: &mut Option<Dynamic<H>>,
    place: &mut Option<EvalAltResult<H>>,
    pos: Position,
) -> Option<Dynamic<H>>
    ensures lent { IfSome result (λ v.
        (this.old ≡ Some v) × (is_anothers (cells_of cells.now) v.value ≡ false)) }
    ensures kept { result ≡ None → this.new ≡ this.old }
    ensures refused { result ≡ None → RefusesThis (cells_of cells.now) pos this.old (error_in place.new) }
{
    match replace(this, None) {
        None => {
            stop(place, EvalAltResult::ErrorUnboundThis(pos));
            None
        }
        Some(value) => {
            if refuses_held(alloc, cells, &value, place, pos) {
                drop(replace(this, Some(value)));
                return None;
            }
            Some(value)
        }
    }
}

/// Puts what a walk began on back as `this`. Tells whether the walk went well.
pub fn give_this<H: Host>(
    this: &mut Option<Dynamic<H>>,
    focus: Dynamic<H>,
    mark: Option<bool>,
) -> bool
    ensures back { this.new ≡ Some focus }
    ensures well { result ≡ is_some mark }
{
    drop(replace(this, Some(focus)));
    mark.is_some()
}

/// Takes the run's value that an expression gave. Of a handle it is a copy of the cell's value. An error is
/// left in `place`.
#[inline(always)]
pub fn take_flat<H: Host>(
    alloc: Global,
    cells: &CellStore<H>,
    out: &mut Dynamic<H>,
    place: &mut Option<EvalAltResult<H>>,
    expr: &Expr,
) -> Option<Dynamic<H>>
    ensures { Answers (came_some result place.new)
        (flat (cells_of cells.now) out.old (position_of expr.now)) }
{
    if !flatten_at(alloc, cells, out, place, expr) {
        return None;
    }
    Some(take_value(out))
}
