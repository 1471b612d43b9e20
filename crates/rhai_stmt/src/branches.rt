//! The branch of a `try`: its variable, and what comes out of it.

ghost use Rattle.std.specs.Prelude.{◌≡◌, ◌++◌, ◌∷◌, IfErr, IfOk, IsTrue, Ok, OnErr, OnOk, [], false, length, nat_le, take, true};
ghost use Rattle.rhai_tree.specs.declared.expr.Expr.{out-Expr};
ghost use Rattle.rhai_values.specs.Cells.{cells_of};
ghost use Rattle.rhai_state.specs.Scope.{entries_of};
ghost use Rattle.rhai_machine.specs.language.State.{Answers, HasMemory};
ghost use Rattle.rhai_machine.specs.language.Tries.{catch_variable};
ghost use Rattle.rhai_context.specs.Ends.{came};
ghost use Rattle.rhai_stmt.specs.Branches.{bound, left_by, room_for_caught};

use crate::catches::{caught_value, raised};
use rhai_context::ends::{put_unit, stop, stopped};
use rhai_errors::error::EvalAltResult;
use rhai_state::scope::Scope;
use rhai_state::session::Session;
use rhai_tree::expr::Expr;
use rhai_tree::{Shared, Text};
use rhai_values::base::value::{AccessMode, Dynamic, Host};
use rhai_values::cells::CellStore;

/// Adds the catch variable of a branch, if it has one.
///
/// # Errors
/// `ErrorTooManyVariables` at the variable where the scope has no room, and `ErrorOutOfMemory` there.
fn add_caught<H: Host>(
    session: &Session<'_, H>,
    source: &Option<Shared<Text>>,
    scope: &mut Scope<H>,
    caught: &EvalAltResult<H>,
    variable: &Expr,
) -> Result<(), EvalAltResult<H>>
    ensures bound { OnOk result (entries_of scope.new ≡ entries_of scope.old
        ++ bound (catch_variable (out-Expr variable.now)) source.now caught.now) }
    ensures exact { HasMemory result → result ≡ room_for_caught (catch_variable (out-Expr variable.now))
        (nat_le session.now.limits.max_variables (length (entries_of scope.old))) }
    ensures same { OnErr result (entries_of scope.new ≡ entries_of scope.old) }
{
    let Expr::Variable { name, pos, .. } = variable else {
        return Ok(());
    };
    if scope.len() >= session.limits.max_variables {
        return Err(EvalAltResult::ErrorTooManyVariables(*pos));
    }
    let value = caught_value(session.alloc, caught, source, *pos)?;
    let Ok(name) = name.share() else {
        return Err(EvalAltResult::ErrorOutOfMemory(*pos));
    };
    match scope.push_shared(name, AccessMode::ReadWrite, value) {
        Ok(()) => Ok(()),
        Err(_) => Err(EvalAltResult::ErrorOutOfMemory(*pos)),
    }
}

/// Adds the catch variable of a branch, if it has one. Where that fails the run stops.
///
/// # Errors
/// `ErrorTooManyVariables` at the variable where there is no room for it, and `ErrorOutOfMemory`. Then the
/// scope stays.
pub fn bind_caught<H: Host>(
    session: &Session<'_, H>,
    source: &Option<Shared<Text>>,
    scope: &mut Scope<H>,
    place: &mut Option<EvalAltResult<H>>,
    caught: &EvalAltResult<H>,
    variable: &Expr,
) -> bool
    ensures bound { IsTrue result → entries_of scope.new ≡ entries_of scope.old
        ++ bound (catch_variable (out-Expr variable.now)) source.now caught.now }
    ensures exact { Answers (came result tt place.new) (room_for_caught (catch_variable (out-Expr variable.now))
        (nat_le session.now.limits.max_variables (length (entries_of scope.old)))) }
    ensures same { result ≡ false → entries_of scope.new ≡ entries_of scope.old }
{
    match add_caught(session, source, scope, caught, variable) {
        Ok(()) => true,
        Err(error) => stop(place, error),
    }
}

/// Leaves a branch, whose scope began with so many variables and goes back to them. What comes out of it is
/// `()`, or an error as `raised` says.
pub fn leave_branch<H: Host>(
    cells: &CellStore<H>,
    scope: &mut Scope<H>,
    base: usize,
    caught: EvalAltResult<H>,
    done: bool,
    out: &mut Dynamic<H>,
    place: &mut Option<EvalAltResult<H>>,
) -> bool
    ensures left { came result out.new place.new
        ≡ left_by (cells_of cells.now) caught (came done out.old place.old) }
    ensures scope { entries_of scope.new ≡ take base (entries_of scope.old) }
{
    scope.rewind(base);
    if done {
        drop(caught);
        put_unit(out);
        return true;
    }
    let error = stopped(place);
    stop(place, raised(cells, caught, error))
}
