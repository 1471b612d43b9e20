//! Assignment to a variable, to `this`, and to the focus of a chain: of a value as it is, or by an operator,
//! for which the built-in is tried first, then the native `op=` on the target, then the native `op`
//! for a new value. The target is lent to an update wherever it stands. Ports upstream's
//! `eval_op_assignment`. The contracts cite the machine's specs/language, Places, Chains and
//! Assignment, and the crate's own specs/.
#![tactic(auto)]

pub mod focus;
mod native;
pub mod place;
pub mod this;
mod update;
pub mod write;

ghost use Rattle.std.specs.Prelude.{◌≡◌, ◌≤◌};
ghost use Rattle.rhai_state.specs.Scope.{names_in};
ghost use Rattle.rhai_machine.specs.language.Assignment.{assignment_to};
ghost use Rattle.rhai_machine.specs.language.Frames.{Assign};
ghost use Rattle.rhai_machine.specs.language.Runs.{Runs};
ghost use Rattle.rhai_steps.specs.Agreement.{AgreesAt, KeepsSight};
ghost use Rattle.rhai_steps.specs.Sessions.{under};
ghost use Rattle.rhai_steps.specs.States.{state_of};
ghost use Rattle.rhai_names.specs.Variables.{offset_is_good, variable_told};

use crate::place::find_target;
use crate::update::store;
use rhai_errors::error::EvalAltResult;
use rhai_errors::table::NativeTable;
use rhai_lookups::run::RunState;
use rhai_names::variables::Variable;
use rhai_state::scope::Scope;
use rhai_state::session::Session;
use rhai_steps::charges::track_operation;
use rhai_steps::values::let_go;
use rhai_tree::expr::OpAssignment;
use rhai_values::base::value::{Dynamic, Host};

/// Assigns a value to a variable, charged first at the variable. By an operator the built-in is tried
/// first under fast operators, then the native `op=`, which may change the target, or its built-in, and
/// where both are missing the native `op`, which gives its new value. The variable is found by its offset
/// where that is given and variables are not searched for, and else by its name. What no entry has, as a name
/// behind a path, is not assigned to. Asked: the offset leads to the newest variable of the name, and the
/// index of its path to the newest import of its first name.
///
/// # Errors
/// At the variable: `ErrorTooManyOperations` where the count has reached the limit,
/// `ErrorVariableNotFound`, `ErrorAssignmentToConstant` for a constant or a function too, and `ErrorDataRace`
/// where its cell is held. At its path: `ErrorModuleNotFound` and `ErrorVariableNotFound`. At the operator:
/// what the operator answers, and `ErrorDataTooLarge` for a value above a limit; what a native left in the
/// target is measured at the variable.
pub fn assign_variable<H: Host, T: NativeTable<H>>(
    session: &Session<'_, H>,
    global: &mut RunState<H>,
    table: &mut T,
    scope: &mut Scope<H>,
    variable: &Variable<'_>,
    op: OpAssignment,
    value: Dynamic<H>,
) -> Result<Dynamic<H>, EvalAltResult<H>>
    requires { AgreesAt global.old scope.old (offset_is_good variable.now) }
    ensures counts { global.old.num_operations ≤ global.new.num_operations }
    ensures sight { KeepsSight global.old global.new }
    ensures names { names_in scope.new ≡ names_in scope.old }
    ensures runs { (held : _) → Runs (under H.name_of session.now T.natives)
        (Assign (assignment_to (variable_told variable.now) op) value)
        (state_of (T.state table.old) global.old scope.old held)
        result (state_of (T.state table.new) global.new scope.new held) }
{
    if let Err(error) = track_operation(&session.limits, global, variable.at) {
        let_go(value);
        return Err(error);
    }
    match find_target(session, global, scope, variable) {
        Ok(place) => store(session, global, table, scope, place, variable.at, op, value),
        Err(error) => {
            let_go(value);
            Err(error)
        }
    }
}
