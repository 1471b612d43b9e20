//! An assignment by a built-in operator whose value is an operand as it stands: the target is changed
//! where it stands, and no operand is copied.

ghost use Rattle.std.specs.Prelude.{◌≡◌, ◌<◌, ◌≤◌, ◌+◌, ◌-◌, IfSome, Some, None, Ok, is_some, true, false};
ghost use Rattle.rhai_tree.specs.declared.expr.Expr.{out-Expr};
ghost use Rattle.rhai_tree.specs.declared.expr.Expr.TheOpen as layer;
ghost use Rattle.rhai_tree.specs.Frame.{tests_of, target_resolves, resolves_expr};
ghost use Rattle.rhai_values.specs.Cells.{cells_of};
ghost use Rattle.rhai_state.specs.Scope.{entries_of};
ghost use Rattle.rhai_machine.specs.language.Frames.{OpenStmt};
ghost use Rattle.rhai_machine.specs.language.Runs.{Runs};
ghost use Rattle.rhai_machine.specs.language.Values.{unit_value as unit};
ghost use Rattle.rhai_steps.specs.Agreement.{AgreesAt, KeepsSight};
ghost use Rattle.rhai_steps.specs.Sessions.{under};
ghost use Rattle.rhai_steps.specs.States.{state_of};
ghost use Rattle.rhai_names.specs.Variables.{offset_is_good};
ghost use Rattle.rhai_context.specs.Ends.{came};
ghost use Rattle.rhai_operands.specs.Standing.{standing};
ghost use Rattle.rhai_fast_assign.specs.Assignments.{statement_of};
ghost use Rattle.rhai_fast_assign.specs.InPlace.{IsReady, assigned, assigned_by, charged_at, writable_in};
ghost use Rattle.rhai_assign.specs.Keeps.{Keeps};
ghost use Rattle.rhai_assign.specs.Targets.{named_target};

use rhai_assign::place::{Place, find_named, value_at};
use rhai_assign::write::write_outcome;
use rhai_context::ends::{put_unit, settle, write_number};
use rhai_errors::error::EvalAltResult;
use rhai_errors::table::NativeTable;
use rhai_lookups::run::RunState;
use rhai_names::variables::{Variable, index_by_offset};
use rhai_operands::operands::{integer_at, integer_in_place, operand_in_place};
use rhai_operands::operators::compute_known;
use rhai_operators::builtin_op_assign;
use rhai_state::scope::Scope;
use rhai_state::session::Session;
use rhai_steps::charges::{charge_all, track_operation};
use rhai_tree::expr::{Expr, OpAssignment};
use rhai_tree::token::Token;
use rhai_values::base::value::{AccessMode, Dynamic, Host};
use std::alloc::Global;

/// An assignment before it is charged: its target's place, and what the built-in gives.
#[derive(Drop)]
pub(crate) struct Ready<H> {
    pub(crate) place: Place,
    pub(crate) outcome: Result<Dynamic<H>, EvalAltResult<H>>,
}

/// An assignment as a statement writes it.
#[derive(Clone, Copy)]
pub struct Assignment<'a> {
    pub op: &'a OpAssignment,
    pub left: &'a Expr,
    pub right: &'a Expr,
}

/// Computes what a built-in gives for a variable and an operand as it stands. None where no entry has the
/// variable or it may not be assigned to, the operand has to be evaluated, or there is no built-in for them.
fn prepare<H: Host>(
    alloc: Global,
    global: &RunState<H>,
    scope: &Scope<H>,
    token: Token,
    variable: &Variable<'_>,
    operand: &Expr,
) -> Option<Ready<H>>
    requires good { AgreesAt global.now scope.now (offset_is_good variable.now) }
    requires resolves { AgreesAt global.now scope.now (resolves_expr operand.now) }
    ensures found { is_some result ≡ is_some (assigned_by (Some token)
        (named_target (cells_of global.now.cells) variable.now.namespace.now.path variable.now.name.now variable.now.at (entries_of scope.now))
        (standing (out-Expr operand.now) (entries_of scope.now))) }
    ensures ready { IfSome result (λ ready. IsReady ready variable.now.namespace.now.path variable.now.name.now variable.now.at token
        (out-Expr operand.now) scope.now global.now.cells) }
{
    let place = find_named(global, scope, variable)?;
    let operand = operand_in_place(global, scope, operand)?;
    let target = value_at(&global.cells, scope, place);
    let outcome = builtin_op_assign(alloc, token, target, operand.value())?;
    Some(Ready { place, outcome })
}

/// Returns the integer that a value is, None where it is a constant or of another type.
fn writable_integer<H: Host>(value: &Dynamic<H>) -> Option<i64>
    ensures { result ≡ writable_in value.now }
{
    match value.access_mode() {
        AccessMode::ReadWrite => integer_at(value),
        AccessMode::ReadOnly => None,
    }
}

/// Assigns to a variable whose value is an integer, by an operator whose operand is an integer as it stands.
/// It makes so many charges at once: those of the operand and of the variable, and what was to be charged
/// before. False where that is not so, or the limit has no room for all of them: then nothing is changed. The
/// table is not called.
#[inline(always)]
pub(crate) fn assign_integer<H: Host, T: NativeTable<H>>(
    session: &Session<'_, H>,
    global: &mut RunState<H>,
    _table: &T,
    scope: &mut Scope<H>,
    assignment: &Assignment<'_>,
    charges: u64,
) -> bool
    requires both { 2 ≤ charges }
    requires resolves_target { AgreesAt global.old scope.old (target_resolves (tests_of assignment.now.left.now)) }
    requires resolves { AgreesAt global.old scope.old (resolves_expr assignment.now.right.now) }
    ensures found { result ≡ true → is_some (assigned assignment.now.op.now.op (out-Expr assignment.now.left.now) (out-Expr assignment.now.right.now)
        (entries_of scope.old) (cells_of global.old.cells)) ≡ true }
    ensures left_global { result ≡ false → global.new ≡ global.old }
    ensures left_scope { result ≡ false → scope.new ≡ scope.old }
    ensures room { result ≡ true → global.old.num_operations + charges ≤ session.now.limits.max_operations }
    ensures charged { result ≡ true → global.new ≡ record global.old
        { num_operations = global.old.num_operations + charges } }
    ensures keeps { Keeps global.old global.new scope.old scope.new }
    ensures sight { KeepsSight global.old global.new }
    ensures runs { result ≡ true → (held : _) (restoring : _) (level : _) →
        session.now.fast_operators ≡ true → Runs (under H.name_of session.now T.natives)
        (OpenStmt (statement_of assignment.now) restoring)
        (state_of (T.state _table.now) (charged_at (charges - 2) level global.old) scope.old held)
        (Ok unit) (state_of (T.state _table.now) (record global.new { scope_level = level }) scope.new held) }
{
    let Expr::Variable {
        offset,
        name,
        namespace,
        ..
    } = assignment.left
    else {
        return false;
    };
    let Some(token) = assignment.op.op else {
        return false;
    };
    let Some(index) = index_by_offset(global, scope, *offset, name, namespace) else {
        return false;
    };
    let target = writable_integer(scope.value_at(index));
    if target.is_none() {
        return false;
    }
    let operand = integer_in_place(global, scope, assignment.right);
    if operand.is_none() {
        return false;
    }
    let Some(value) = compute_known(token, target, operand) else {
        return false;
    };
    if !charge_all(&session.limits, global, charges) {
        drop(value);
        return false;
    }
    write_number(scope, index, value);
    true
}

/// Assigns to a variable by a built-in operator, on values of any type. It is charged at the value and then
/// at the variable.
#[inline(never)]
fn assign_values<H: Host, T: NativeTable<H>>(
    session: &Session<'_, H>,
    global: &mut RunState<H>,
    _table: &T,
    scope: &mut Scope<H>,
    op: OpAssignment,
    lhs: &Expr,
    rhs: &Expr,
) -> Option<Result<Dynamic<H>, EvalAltResult<H>>>
    requires resolves_target { AgreesAt global.old scope.old (target_resolves (tests_of lhs.now)) }
    requires resolves { AgreesAt global.old scope.old (resolves_expr rhs.now) }
    ensures found { is_some result ≡ is_some (assigned op.op (out-Expr lhs.now) (out-Expr rhs.now)
        (entries_of scope.old) (cells_of global.old.cells)) }
    ensures left_global { result ≡ None → global.new ≡ global.old }
    ensures left_scope { result ≡ None → scope.new ≡ scope.old }
    ensures keeps { Keeps global.old global.new scope.old scope.new }
    ensures sight { KeepsSight global.old global.new }
    ensures runs { (held : _) (restoring : _) → session.now.fast_operators ≡ true →
        IfSome result (λ result. Runs (under H.name_of session.now T.natives)
        (OpenStmt (layer.Assignment op lhs.now rhs.now) restoring)
        (state_of (T.state _table.now) global.old scope.old held)
        result (state_of (T.state _table.now) global.new scope.new held)) }
{
    let Expr::Variable {
        offset,
        name,
        namespace,
        pos,
    } = lhs
    else {
        return None;
    };
    let token = op.op?;
    let ready = prepare(
        session.alloc,
        global,
        scope,
        token,
        &Variable {
            offset: *offset,
            name,
            namespace,
            at: *pos,
        },
        rhs,
    )?;
    if let Err(error) = track_operation(&session.limits, global, rhs.position()) {
        drop(ready);
        return Some(Err(error));
    }
    if let Err(error) = track_operation(&session.limits, global, *pos) {
        drop(ready);
        return Some(Err(error));
    }
    let place = ready.place;
    let outcome = ready.outcome;
    Some(write_outcome(session, global, scope, place, op.position, outcome))
}

/// Assigns to a variable as `assign_values` does. How it ended goes into the run's places.
#[inline(never)]
fn assign_others<H: Host, T: NativeTable<H>>(
    session: &Session<'_, H>,
    global: &mut RunState<H>,
    _table: &T,
    scope: &mut Scope<H>,
    out: &mut Dynamic<H>,
    place: &mut Option<EvalAltResult<H>>,
    assignment: &Assignment<'_>,
) -> Option<bool>
    requires resolves_target { AgreesAt global.old scope.old (target_resolves (tests_of assignment.now.left.now)) }
    requires resolves { AgreesAt global.old scope.old (resolves_expr assignment.now.right.now) }
    ensures found { is_some result ≡ is_some (assigned assignment.now.op.now.op (out-Expr assignment.now.left.now) (out-Expr assignment.now.right.now)
        (entries_of scope.old) (cells_of global.old.cells)) }
    ensures left_global { result ≡ None → global.new ≡ global.old }
    ensures left_scope { result ≡ None → scope.new ≡ scope.old }
    ensures keeps { Keeps global.old global.new scope.old scope.new }
    ensures sight { KeepsSight global.old global.new }
    ensures runs { (held : _) (restoring : _) → session.now.fast_operators ≡ true →
        IfSome result (λ done. Runs (under H.name_of session.now T.natives)
        (OpenStmt (statement_of assignment.now) restoring)
        (state_of (T.state _table.now) global.old scope.old held)
        (came done out.new place.new) (state_of (T.state _table.now) global.new scope.new held)) }
{
    match assign_values(
        session,
        global,
        _table,
        scope,
        *assignment.op,
        assignment.left,
        assignment.right,
    ) {
        Some(answer) => Some(settle(place, out, answer)),
        None => None,
    }
}

/// Assigns to a variable by a built-in operator, whose value is an operand as it stands. It is charged at the
/// value and then at the variable; how it ended stands in the run's places. None for any other assignment:
/// then nothing is charged. The table is not called.
///
/// # Errors
/// `ErrorTooManyOperations` at the value or the variable where the count has reached the limit. At the
/// operator: what the operator answers, and `ErrorDataTooLarge` for a value above a limit.
#[inline(always)]
pub fn assign_in_place<H: Host, T: NativeTable<H>>(
    session: &Session<'_, H>,
    global: &mut RunState<H>,
    _table: &T,
    scope: &mut Scope<H>,
    out: &mut Dynamic<H>,
    place: &mut Option<EvalAltResult<H>>,
    assignment: &Assignment<'_>,
) -> Option<bool>
    requires resolves_target { AgreesAt global.old scope.old (target_resolves (tests_of assignment.now.left.now)) }
    requires resolves { AgreesAt global.old scope.old (resolves_expr assignment.now.right.now) }
    ensures found { is_some result ≡ is_some (assigned assignment.now.op.now.op (out-Expr assignment.now.left.now) (out-Expr assignment.now.right.now)
        (entries_of scope.old) (cells_of global.old.cells)) }
    ensures left_global { result ≡ None → global.new ≡ global.old }
    ensures left_scope { result ≡ None → scope.new ≡ scope.old }
    ensures keeps { Keeps global.old global.new scope.old scope.new }
    ensures sight { KeepsSight global.old global.new }
    ensures runs { (held : _) (restoring : _) → session.now.fast_operators ≡ true →
        IfSome result (λ done. Runs (under H.name_of session.now T.natives)
        (OpenStmt (statement_of assignment.now) restoring)
        (state_of (T.state _table.now) global.old scope.old held)
        (came done out.new place.new) (state_of (T.state _table.now) global.new scope.new held)) }
{
    if assign_integer(session, global, _table, scope, assignment, 2) {
        put_unit(out);
        return Some(true);
    }
    assign_others(session, global, _table, scope, out, place, assignment)
}
