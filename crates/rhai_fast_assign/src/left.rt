//! The value that a part left in the run is assigned, to a variable or to `this`. How that ended stands in
//! the run.

ghost use Rattle.std.specs.Prelude.{◌≡◌, ◌≤◌};
ghost use Rattle.rhai_state.specs.Scope.{names_in};
ghost use Rattle.rhai_machine.specs.language.Assignment.{assignment_to};
ghost use Rattle.rhai_machine.specs.language.Frames.{Assign, AssignThis};
ghost use Rattle.rhai_machine.specs.language.Runs.{Runs};
ghost use Rattle.rhai_steps.specs.Agreement.{AgreesAt, KeepsSight};
ghost use Rattle.rhai_steps.specs.Sessions.{under};
ghost use Rattle.rhai_steps.specs.States.{holding, state_of};
ghost use Rattle.rhai_names.specs.Variables.{offset_is_good, variable_told};
ghost use Rattle.rhai_context.specs.Ends.{came};

use rhai_assign::assign_variable;
use rhai_assign::this::assign_this;
use rhai_context::ends::{settle, stop, take_value};
use rhai_context::outcomes::charge;
use rhai_errors::error::EvalAltResult;
use rhai_errors::table::NativeTable;
use rhai_lookups::run::RunState;
use rhai_names::variables::Variable;
use rhai_state::scope::Scope;
use rhai_state::session::Session;
use rhai_tree::expr::OpAssignment;
use rhai_tree::position::Position;
use rhai_values::base::value::{Dynamic, Host};

/// Assigns the value of a run to a variable as `assign_variable` does, which asks the same of its offset.
///
/// # Errors
/// Those of `assign_variable`.
pub fn assign_from_run<H: Host, T: NativeTable<H>>(
    session: &Session<'_, H>,
    global: &mut RunState<H>,
    table: &mut T,
    scope: &mut Scope<H>,
    out: &mut Dynamic<H>,
    place: &mut Option<EvalAltResult<H>>,
    variable: &Variable<'_>,
    op: OpAssignment,
) -> bool
    requires { AgreesAt global.old scope.old (offset_is_good variable.now) }
    ensures counts { global.old.num_operations ≤ global.new.num_operations }
    ensures sight { KeepsSight global.old global.new }
    ensures names { names_in scope.new ≡ names_in scope.old }
    ensures runs { (held : _) → Runs (under H.name_of session.now T.natives)
        (Assign (assignment_to (variable_told variable.now) op) out.old)
        (state_of (T.state table.old) global.old scope.old held)
        (came result out.new place.new) (state_of (T.state table.new) global.new scope.new held) }
{
    let value = take_value(out);
    let answer = assign_variable(session, global, table, scope, variable, op, value);
    settle(place, out, answer)
}

/// Assigns the value of a run to `this` as `assign_this` does, charged first at `this`.
///
/// # Errors
/// `ErrorTooManyOperations` where the count has reached the limit, then `ErrorUnboundThis` where there is no
/// `this` any more, both at `this`, and those of `assign_this`.
pub fn assign_this_from_run<H: Host, T: NativeTable<H>>(
    session: &Session<'_, H>,
    global: &mut RunState<H>,
    table: &mut T,
    this: &mut Option<Dynamic<H>>,
    out: &mut Dynamic<H>,
    place: &mut Option<EvalAltResult<H>>,
    pos: Position,
    op: OpAssignment,
) -> bool
    ensures counts { global.old.num_operations ≤ global.new.num_operations }
    ensures sight { KeepsSight global.old global.new }
    ensures runs { (scope : _) → Runs (under H.name_of session.now T.natives) (AssignThis op pos out.old)
        (state_of (T.state table.old) global.old scope (holding this.old))
        (came result out.new place.new) (state_of (T.state table.new) global.new scope (holding this.new)) }
{
    if !charge(&session.limits, global, place, pos) {
        return false;
    }
    match this {
        Some(this) => {
            let value = take_value(out);
            let answer = assign_this(session, global, table, this, pos, op, value);
            settle(place, out, answer)
        }
        None => stop(place, EvalAltResult::ErrorUnboundThis(pos)),
    }
}
