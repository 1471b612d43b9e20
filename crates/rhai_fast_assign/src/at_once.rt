//! An assignment that is done at once, where that is possible: to an item, or in place.

ghost use Rattle.std.specs.Prelude.{◌≡◌, IfSome, None};
ghost use Rattle.rhai_tree.specs.Frame.{tests_of, target_resolves, resolves_expr};
ghost use Rattle.rhai_machine.specs.language.Frames.{OpenStmt};
ghost use Rattle.rhai_machine.specs.language.Runs.{Runs};
ghost use Rattle.rhai_steps.specs.Agreement.{AgreesAt, KeepsSight};
ghost use Rattle.rhai_steps.specs.Sessions.{under};
ghost use Rattle.rhai_steps.specs.States.{state_of};
ghost use Rattle.rhai_context.specs.Ends.{came};
ghost use Rattle.rhai_assign.specs.Keeps.{Keeps};
ghost use Rattle.rhai_fast_assign.specs.Assignments.{statement_of};

use crate::in_place::{Assignment, assign_in_place};
use crate::items::assign_item;
use rhai_context::ends::put_unit;
use rhai_errors::error::EvalAltResult;
use rhai_errors::table::NativeTable;
use rhai_lookups::run::RunState;
use rhai_state::scope::Scope;
use rhai_state::session::Session;
use rhai_tree::expr::Expr;
use rhai_values::base::value::{Dynamic, Host};

/// Assigns at once under fast operators, where that is possible. It is by an operator to a variable, where
/// its value is an operand that stands and there is a built-in for it, and to an item of an array that a
/// variable has, where all that it works on are integers as they stand. None for any other: then nothing is
/// charged. The table is not called.
///
/// # Errors
/// Those of `assign_in_place`.
pub fn assign_at_once<H: Host, T: NativeTable<H>>(
    session: &Session<'_, H>,
    global: &mut RunState<H>,
    table: &T,
    scope: &mut Scope<H>,
    out: &mut Dynamic<H>,
    place: &mut Option<EvalAltResult<H>>,
    assignment: &Assignment<'_>,
) -> Option<bool>
    requires resolves_target { AgreesAt global.old scope.old (target_resolves (tests_of assignment.now.left.now)) }
    requires resolves { AgreesAt global.old scope.old (resolves_expr assignment.now.right.now) }
    ensures left_global { result ≡ None → global.new ≡ global.old }
    ensures left_scope { result ≡ None → scope.new ≡ scope.old }
    ensures keeps { Keeps global.old global.new scope.old scope.new }
    ensures sight { KeepsSight global.old global.new }
    ensures runs { (held : _) (restoring : _) → IfSome result (λ done.
        Runs (under H.name_of session.now T.natives)
        (OpenStmt (statement_of assignment.now) restoring)
        (state_of (T.state table.now) global.old scope.old held)
        (came done out.new place.new) (state_of (T.state table.now) global.new scope.new held)) }
{
    let is_fast = session.fast_operators;
    if !is_fast {
        return None;
    }
    if let Expr::Index(..) = assignment.left {
        if !assign_item(
            session,
            global,
            table,
            scope,
            assignment.op,
            assignment.left,
            assignment.right,
        ) {
            return None;
        }
        put_unit(out);
        return Some(true);
    }
    assign_in_place(session, global, table, scope, out, place, assignment)
}
