//! Restoring lists as they are entered. One whose only statement is an assignment between integers is done at
//! once.

ghost use Rattle.std.specs.Prelude.{◌≡◌, ◌≤◌, IfSome, None, Ok, map, true, false};
ghost use Rattle.rhai_tree.specs.Frame.{all_resolve, resolves_stmt};
ghost use Rattle.rhai_state.specs.Scope.{names_in};
ghost use Rattle.rhai_machine.specs.language.Frames.{Enter};
ghost use Rattle.rhai_machine.specs.language.Runs.{Runs};
ghost use Rattle.rhai_machine.specs.language.Statements.{deeper};
ghost use Rattle.rhai_machine.specs.language.Values.{unit_value as unit};
ghost use Rattle.rhai_steps.specs.Agreement.{AgreesAt, KeepsSight, passes};
ghost use Rattle.rhai_names.specs.Saves.{left_global, saved_in, saved_now};
ghost use Rattle.rhai_steps.specs.Sessions.{under};
ghost use Rattle.rhai_steps.specs.States.{state_of};

use crate::in_place::{Assignment, assign_integer};
use rhai_errors::table::NativeTable;
use rhai_lookups::run::RunState;
use rhai_names::variables::{Saved, enter_list};
use rhai_state::scope::Scope;
use rhai_state::session::Session;
use rhai_tree::expr::Stmt;
use rhai_values::base::value::Host;

/// Runs a restoring list whose only statement is an assignment as `assign_integer` does it, under fast
/// operators. False for any other list, and where the limit has no room for its charges: then nothing is
/// changed.
#[inline(always)]
fn assign_alone<H: Host, T: NativeTable<H>>(
    session: &Session<'_, H>,
    global: &mut RunState<H>,
    table: &T,
    scope: &mut Scope<H>,
    statements: &[Stmt],
) -> bool
    requires resolves { AgreesAt global.old scope.old
        (passes (all_resolve (map resolves_stmt statements.now))) }
    ensures left_global { result ≡ false → global.new ≡ global.old }
    ensures left_scope { result ≡ false → scope.new ≡ scope.old }
    ensures counts { global.old.num_operations ≤ global.new.num_operations }
    ensures sight { KeepsSight global.old global.new }
    ensures names { names_in scope.new ≡ names_in scope.old }
    ensures runs { result ≡ true → (held : _) → Runs (under H.name_of session.now T.natives) (Enter statements.now true)
        (state_of (T.state table.now) global.old scope.old held)
        (Ok unit) (state_of (T.state table.now) global.new scope.new held) }
{
    let is_fast = session.fast_operators;
    if !is_fast {
        return false;
    }
    let [only] = statements else {
        return false;
    };
    let Stmt::Assignment(op, lhs, rhs) = only else {
        return false;
    };
    assign_integer(
        session,
        global,
        table,
        scope,
        &Assignment {
            op,
            left: lhs,
            right: rhs,
        },
        3,
    )
}

/// Enters a restoring list, one level deeper. None where it was done at once: then its value is `()`. Asked:
/// it is not empty. The table is not called.
pub fn open_list<H: Host, T: NativeTable<H>>(
    session: &Session<'_, H>,
    global: &mut RunState<H>,
    table: &T,
    scope: &mut Scope<H>,
    statements: &[Stmt],
) -> Option<Saved>
    requires resolves { AgreesAt global.old scope.old
        (passes (all_resolve (map resolves_stmt statements.now))) }
    ensures saved { IfSome result (λ saved. saved_in saved ≡ saved_now global.old scope.old) }
    ensures searches { IfSome result (λ saved.
        (left_global saved global.old).always_search_scope ≡ global.old.always_search_scope) }
    ensures deeper { IfSome result (λ _. global.new
        ≡ record global.old { scope_level = deeper global.old.scope_level }) }
    ensures scope { IfSome result (λ _. scope.new ≡ scope.old) }
    ensures counts { global.old.num_operations ≤ global.new.num_operations }
    ensures sight { KeepsSight global.old global.new }
    ensures names { names_in scope.new ≡ names_in scope.old }
    ensures done { result ≡ None → (held : _) → Runs (under H.name_of session.now T.natives) (Enter statements.now true)
        (state_of (T.state table.now) global.old scope.old held)
        (Ok unit) (state_of (T.state table.now) global.new scope.new held) }
{
    if assign_alone(session, global, table, scope, statements) {
        global.lists.begin();
        return None;
    }
    Some(enter_list(global, scope))
}
