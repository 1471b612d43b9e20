//! What an update writes to its target, and what it measures.

ghost use Rattle.std.specs.Prelude.{◌≡◌, Err, true, IfErr, IfOk};
ghost use Rattle.rhai_state.specs.Scope.{names_in};
ghost use Rattle.rhai_machine.specs.language.State.{Answers};
ghost use Rattle.rhai_machine.specs.language.Calls.{applied as applied_at, sized as sized_at};
ghost use Rattle.rhai_machine.specs.language.Places.{put as put_at};
ghost use Rattle.rhai_machine.specs.language.Assignment.{written_core};
ghost use Rattle.rhai_steps.specs.Agreement.{KeepsSight};
ghost use Rattle.rhai_steps.specs.States.{local_of};
ghost use Rattle.rhai_assign.specs.Targets.{place_in, stands_at};
ghost use Rattle.rhai_assign.specs.Updates.{Becomes, changed_of, finished};

use crate::place::{Place, Update, put};
use rhai_errors::error::EvalAltResult;
use rhai_errors::errors::data_too_large;
use rhai_lookups::run::RunState;
use rhai_state::scope::Scope;
use rhai_state::session::Session;
use rhai_steps::replies::{applied, sized};
use rhai_steps::values::{let_go, unit_value};
use rhai_tree::position::Position;
use rhai_values::base::value::{Dynamic, Host};
use std::mem::replace;

/// Refuses a value whose data is too large, and leaves it where it is.
fn measure<H: Host>(
    session: &Session<'_, H>,
    value: &Dynamic<H>,
    pos: Position,
) -> Result<Dynamic<H>, EvalAltResult<H>>
    ensures { Answers result (finished (sized_at session.now.limits value.now pos)) }
{
    match value.exceeds(
        session.limits.max_string_size,
        session.limits.max_array_size,
        session.limits.max_map_size,
    ) {
        None => Ok(unit_value()),
        Some(fault) => Err(data_too_large(session.alloc, fault, pos)),
    }
}

/// Ends an update whose native changed the target. Its value is measured at the operator, then the target.
pub(crate) fn measure_changed<H: Host>(
    session: &Session<'_, H>,
    update: Update,
    value: Dynamic<H>,
    target: &Dynamic<H>,
) -> Result<Dynamic<H>, EvalAltResult<H>>
    ensures { Answers result
        (changed_of session.now.limits (sized_at session.now.limits value update.at) target.now update.target_at) }
{
    let_go(sized(session, value, update.at)?);
    measure(session, target, update.target_at)
}

/// Writes what a built-in operator gave to a place, measured at the operator; an error leaves the place.
pub fn write_outcome<H: Host>(
    session: &Session<'_, H>,
    global: &mut RunState<H>,
    scope: &mut Scope<H>,
    place: Place,
    at: Position,
    outcome: Result<Dynamic<H>, EvalAltResult<H>>,
) -> Result<Dynamic<H>, EvalAltResult<H>>
    requires { stands_at place scope.old global.old.cells ≡ true }
    ensures counts { global.new.num_operations ≡ global.old.num_operations }
    ensures sight { KeepsSight global.old global.new }
    ensures names { names_in scope.new ≡ names_in scope.old }
    ensures written { (held : _) →
        Becomes (written_core (applied_at session.now.limits outcome at) (place_in place))
        (local_of global.old scope.old held) result (local_of global.new scope.new held) }
    ensures left_global { IfErr result (λ _. global.new ≡ global.old) }
    ensures left_scope { IfErr result (λ _. scope.new ≡ scope.old) }
{
    let value = applied(session, outcome, at)?;
    put(&mut global.cells, scope, place, value);
    Ok(unit_value())
}

/// Writes what a built-in operator gave to a target that is lent, wherever the machine has it. It is measured
/// at the operator; an error leaves the target.
pub(crate) fn write_lent<H: Host>(
    session: &Session<'_, H>,
    target: &mut Dynamic<H>,
    at: Position,
    outcome: Result<Dynamic<H>, EvalAltResult<H>>,
) -> Result<Dynamic<H>, EvalAltResult<H>>
    ensures written { (place : _) (l : _) →
        Becomes (written_core (applied_at session.now.limits outcome at) place)
        (put_at place target.old l) result (put_at place target.new l) }
    ensures left { IfErr result (λ _. target.new ≡ target.old) }
{
    let new = applied(session, outcome, at)?;
    let_go(replace(target, new));
    Ok(unit_value())
}

/// Writes what the native `op` gave to a target that is lent, and measures it. It is measured where the
/// target stands; an error leaves the target.
pub(crate) fn write_value<H: Host>(
    session: &Session<'_, H>,
    target: &mut Dynamic<H>,
    update: Update,
    outcome: Result<Dynamic<H>, EvalAltResult<H>>,
) -> Result<Dynamic<H>, EvalAltResult<H>>
    ensures written { IfOk outcome (λ v. target.new ≡ v) }
    ensures measured { IfOk outcome (λ v.
        Answers result (finished (sized_at session.now.limits v update.target_at))) }
    ensures fault { IfErr outcome (λ e. result ≡ Err e) }
    ensures left { IfErr outcome (λ _. target.new ≡ target.old) }
{
    let value = outcome?;
    let measured = measure(session, &value, update.target_at);
    let_go(replace(target, value));
    measured
}
