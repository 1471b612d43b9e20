//! Binary operators on operands as they stand, and conditions that compare them. Ports the fast
//! operators of upstream's `func/call.rs`.

ghost use Rattle.std.specs.Prelude.{◌≡◌, ◌≤◌, ◌<◌, ◌+◌, ◌&&◌, ◌∷◌, [], IsTrue, IfSome};
ghost use Rattle.std.specs.Prelude.{Some, None, is_some, not, true, false};
ghost use Rattle.rhai_tree.specs.declared.expr.Expr.{out-Expr};
ghost use Rattle.rhai_tree.specs.declared.expr.Expr.TheOpen as layer;
ghost use Rattle.rhai_tree.specs.Frame.{resolves_expr};
ghost use Rattle.rhai_errors.specs.Errors.{is_out_of_memory};
ghost use Rattle.rhai_state.specs.Scope.{entries_of};
ghost use Rattle.rhai_machine.specs.language.Frames.{OpenExpr};
ghost use Rattle.rhai_machine.specs.language.Runs.{Runs};
ghost use Rattle.rhai_steps.specs.Agreement.{AgreesAt, KeepsSight};
ghost use Rattle.rhai_steps.specs.Sessions.{under};
ghost use Rattle.rhai_steps.specs.States.{state_of};
ghost use Rattle.rhai_operators.specs.Direct.{integer_in};
ghost use Rattle.rhai_operands.specs.Standing.{assigned_known, compared, compared_known, integer_of};
ghost use Rattle.rhai_operands.specs.Standing.{operated, condition_truth, standing, truth_answered};
ghost use Rattle.rhai_operands.specs.Tests.{Tests};
ghost use Rattle.rhai_context.specs.Ends.{came, came_test, error_in};

use crate::operands::{integer_at, integer_in_place, operand_in_place, two_operands};
use rhai_context::ends::{put_number, settle};
use rhai_context::outcomes::charge;
use rhai_errors::error::EvalAltResult;
use rhai_errors::table::NativeTable;
use rhai_lookups::run::RunState;
use rhai_operators::builtin_binary;
use rhai_operators::direct::{assign_integers, compare_integers};
use rhai_state::limits::Limits;
use rhai_state::scope::Scope;
use rhai_state::session::Session;
use rhai_steps::charges::{charge_all, track_operation};
use rhai_steps::replies::applied;
use rhai_tree::expr::{Expr, FnCallExpr};
use rhai_tree::position::Position;
use rhai_tree::token::Token;
use rhai_values::base::value::{Dynamic, Host, Union};
use std::alloc::Global;

/// A call that is written as a binary operator, taken apart.
#[derive(Clone, Copy)]
pub struct BinaryCall<'a> {
    pub call: &'a FnCallExpr,
    pub token: Token,
    pub left: &'a Expr,
    pub right: &'a Expr,
    pub at: Position,
}

/// Computes the value that an operator gives for two integers. None where one of them is none, or the
/// operator gives no integer, or may not stand before an `=`.
#[inline(always)]
pub fn compute_known<H: Host>(token: Token, x: Option<i64>, y: Option<i64>) -> Option<Dynamic<H>>
    ensures { result ≡ assigned_known token x y }
{
    let number = assign_integers::<H>(token, x?, y?)?;
    Some(Dynamic::new(Union::Int(number)))
}

/// Applies an operator to two operands as they stand, of any type.
#[inline(never)]
fn operate_values<H: Host, T: NativeTable<H>>(
    session: &Session<'_, H>,
    global: &mut RunState<H>,
    _table: &T,
    scope: &Scope<H>,
    binary: BinaryCall<'_>,
) -> Option<Result<Dynamic<H>, EvalAltResult<H>>>
    requires token { binary.call.now.op_token ≡ Some binary.token }
    requires args { binary.call.now.args ≡ binary.left.now ∷ binary.right.now ∷ [] }
    requires resolves_left { AgreesAt global.old scope.now (resolves_expr binary.left.now) }
    requires resolves_right { AgreesAt global.old scope.now (resolves_expr binary.right.now) }
    ensures found { is_some result ≡ is_some (operated binary.entry.token
        (standing (out-Expr binary.entry.left.now) (entries_of scope.now))
        (standing (out-Expr binary.entry.right.now) (entries_of scope.now))) }
    ensures left_alone { result ≡ None → global.new ≡ global.old }
    ensures counts { global.old.num_operations ≤ global.new.num_operations }
    ensures sight { KeepsSight global.old global.new }
    ensures runs { (held : _) → session.now.fast_operators ≡ true →
        IfSome result (λ result. Runs (under H.name_of session.now T.natives)
        (OpenExpr (layer.Expr::FnCall binary.entry.call.now binary.entry.at))
        (state_of (T.state _table.now) global.old scope.now held)
        result (state_of (T.state _table.now) global.new scope.now held)) }
{
    let first = operand_in_place(global, scope, binary.left)?;
    let second = operand_in_place(global, scope, binary.right)?;
    let outcome = builtin_binary(session.alloc, binary.token, first.value(), second.value())?;
    if let Err(error) = track_operation(&session.limits, global, binary.left.position()) {
        drop(outcome);
        return Some(Err(error));
    }
    if let Err(error) = track_operation(&session.limits, global, binary.right.position()) {
        drop(outcome);
        return Some(Err(error));
    }
    Some(applied(session, outcome, binary.at))
}

/// Applies an operator as `operate_values` does. How it ended goes into the run's places.
#[inline(never)]
fn operate_others<H: Host, T: NativeTable<H>>(
    session: &Session<'_, H>,
    global: &mut RunState<H>,
    _table: &T,
    scope: &Scope<H>,
    out: &mut Dynamic<H>,
    place: &mut Option<EvalAltResult<H>>,
    binary: BinaryCall<'_>,
) -> Option<bool>
    requires token { binary.call.now.op_token ≡ Some binary.token }
    requires args { binary.call.now.args ≡ binary.left.now ∷ binary.right.now ∷ [] }
    requires resolves_left { AgreesAt global.old scope.now (resolves_expr binary.left.now) }
    requires resolves_right { AgreesAt global.old scope.now (resolves_expr binary.right.now) }
    ensures found { is_some result ≡ is_some (operated binary.entry.token
        (standing (out-Expr binary.entry.left.now) (entries_of scope.now))
        (standing (out-Expr binary.entry.right.now) (entries_of scope.now))) }
    ensures left_alone { result ≡ None → global.new ≡ global.old }
    ensures counts { global.old.num_operations ≤ global.new.num_operations }
    ensures sight { KeepsSight global.old global.new }
    ensures runs { (held : _) → session.now.fast_operators ≡ true →
        IfSome result (λ done. Runs (under H.name_of session.now T.natives)
        (OpenExpr (layer.Expr::FnCall binary.entry.call.now binary.entry.at))
        (state_of (T.state _table.now) global.old scope.now held)
        (came done out.new place.new) (state_of (T.state _table.now) global.new scope.now held)) }
{
    let answered = operate_values(session, global, _table, scope, binary);
    match answered {
        Some(answer) => Some(settle(place, out, answer)),
        None => None,
    }
}

/// Tells whether an expression may be an operand as it stands: a literal that takes no memory, or a variable.
fn may_stand<H>(expr: &Expr) -> bool
    ensures { (entries : _) → result ≡ false → standing {H = H} (out-Expr expr.now) entries ≡ None }
{
    matches!(
        expr,
        Expr::BoolConstant(..)
            | Expr::IntegerConstant(..)
            | Expr::CharConstant(..)
            | Expr::Unit(_)
            | Expr::Variable { .. }
    )
}

/// Puts what an operator gives for two operands that are integers as they stand into its place. The operands
/// are charged at once. False where that is not so, or the limit has no room for both: then nothing is
/// charged.
#[inline(always)]
fn operate_integers<H: Host>(
    limits: &Limits,
    global: &mut RunState<H>,
    scope: &Scope<H>,
    out: &mut Dynamic<H>,
    token: Token,
    left: &Expr,
    right: &Expr,
) -> bool
    requires resolves_left { AgreesAt global.old scope.now (resolves_expr left.now) }
    requires resolves_right { AgreesAt global.old scope.now (resolves_expr right.now) }
    ensures known { IsTrue result → assigned_known token
        (integer_of (standing (out-Expr left.now) (entries_of scope.now)))
        (integer_of (standing (out-Expr right.now) (entries_of scope.now))) ≡ Some out.new }
    ensures room { IsTrue result → global.old.num_operations + 2 ≤ limits.now.max_operations }
    ensures charged { IsTrue result → global.new ≡ record global.old
        { num_operations = global.old.num_operations + 2 } }
    ensures left_alone { result ≡ false → global.new ≡ global.old }
    ensures sight { KeepsSight global.old global.new }
{
    let first = integer_in_place(global, scope, left);
    if first.is_none() {
        return false;
    }
    let second = integer_in_place(global, scope, right);
    if second.is_none() {
        return false;
    }
    let Some(value) = compute_known(token, first, second) else {
        return false;
    };
    if !charge_all(limits, global, 2) {
        drop(value);
        return false;
    }
    put_number(out, value);
    true
}

/// Applies a binary operator to two operands as they stand. How it ended stands in the run's places. None
/// where one of them has to be evaluated, or there is no built-in for them: then nothing is charged. The
/// table is not called. Of two integers no value is looked at.
///
/// # Errors
/// `ErrorTooManyOperations` at an operand where the count has reached the limit. At the operator:
/// what the operator answers, and `ErrorDataTooLarge` for a value above a limit.
#[inline(always)]
pub fn operate_in_place<H: Host, T: NativeTable<H>>(
    session: &Session<'_, H>,
    global: &mut RunState<H>,
    _table: &T,
    scope: &Scope<H>,
    out: &mut Dynamic<H>,
    place: &mut Option<EvalAltResult<H>>,
    binary: BinaryCall<'_>,
) -> Option<bool>
    requires token { binary.call.now.op_token ≡ Some binary.token }
    requires args { binary.call.now.args ≡ binary.left.now ∷ binary.right.now ∷ [] }
    requires resolves_left { AgreesAt global.old scope.now (resolves_expr binary.left.now) }
    requires resolves_right { AgreesAt global.old scope.now (resolves_expr binary.right.now) }
    ensures found { is_some result ≡ is_some (operated binary.entry.token
        (standing (out-Expr binary.entry.left.now) (entries_of scope.now))
        (standing (out-Expr binary.entry.right.now) (entries_of scope.now))) }
    ensures left_alone { result ≡ None → global.new ≡ global.old }
    ensures counts { global.old.num_operations ≤ global.new.num_operations }
    ensures sight { KeepsSight global.old global.new }
    ensures runs { (held : _) → session.now.fast_operators ≡ true →
        IfSome result (λ done. Runs (under H.name_of session.now T.natives)
        (OpenExpr (layer.Expr::FnCall binary.entry.call.now binary.entry.at))
        (state_of (T.state _table.now) global.old scope.now held)
        (came done out.new place.new) (state_of (T.state _table.now) global.new scope.now held)) }
{
    if operate_integers(
        &session.limits,
        global,
        scope,
        out,
        binary.token,
        binary.left,
        binary.right,
    ) {
        return Some(true);
    }
    let may_stand = may_stand::<H>(binary.left) && may_stand::<H>(binary.right);
    if !may_stand {
        return None;
    }
    operate_others(session, global, _table, scope, out, place, binary)
}

/// Replaces the value of a run by what an operator gives for another value and that one. It tells whether it
/// did: it does not where one of them is no integer, or the operator gives no integer, or may not stand
/// before an `=`.
#[inline(always)]
pub fn operate_known<H: Host>(token: Token, left: &Dynamic<H>, out: &mut Dynamic<H>) -> bool
    ensures known { IsTrue result →
        assigned_known token (integer_in left.now.value) (integer_in out.old.value) ≡ Some out.new }
    ensures unknown { result ≡ false →
        assigned_known {H = H} token (integer_in left.now.value) (integer_in out.old.value) ≡ None }
    ensures same { result ≡ false → out.new ≡ out.old }
{
    match compute_known(token, integer_at(left), integer_at(&*out)) {
        Some(value) => {
            put_number(out, value);
            true
        }
        None => false,
    }
}

/// Returns the truth value that an operator gave, None where it gave something else.
fn truth_given<H: Host>(outcome: &Result<Dynamic<H>, EvalAltResult<H>>) -> Option<bool>
    ensures { result ≡ truth_answered (Some outcome.now) }
{
    match outcome {
        Ok(value) => match &value.value {
            Union::Bool(holds) => Some(*holds),
            _ => None,
        },
        Err(_) => None,
    }
}

/// Compares two operands that are integers as they stand and need not be searched for. None for others, and
/// where the operator gives no truth value.
#[inline(always)]
fn compare_known<H: Host>(
    global: &RunState<H>,
    scope: &Scope<H>,
    token: Token,
    left: &Expr,
    right: &Expr,
) -> Option<bool>
    requires resolves_left { AgreesAt global.now scope.now (resolves_expr left.now) }
    requires resolves_right { AgreesAt global.now scope.now (resolves_expr right.now) }
    ensures { IfSome result (λ holds. compared_known H token
        (integer_of (standing (out-Expr left.now) (entries_of scope.now)))
        (integer_of (standing (out-Expr right.now) (entries_of scope.now))) ≡ Some holds) }
{
    let x = integer_in_place(global, scope, left)?;
    let y = integer_in_place(global, scope, right)?;
    compare_integers::<H>(token, x, y)
}

/// Compares two operands as they stand. None where one of them has to be evaluated or the operator gives no
/// truth value.
#[inline(never)]
fn compare_values<H: Host>(
    alloc: Global,
    global: &RunState<H>,
    scope: &Scope<H>,
    token: Token,
    left: &Expr,
    right: &Expr,
) -> Option<bool>
    requires resolves_left { AgreesAt global.now scope.now (resolves_expr left.now) }
    requires resolves_right { AgreesAt global.now scope.now (resolves_expr right.now) }
    ensures { result ≡ compared token (standing (out-Expr left.now) (entries_of scope.now))
        (standing (out-Expr right.now) (entries_of scope.now)) }
{
    let first = operand_in_place(global, scope, left)?;
    let second = operand_in_place(global, scope, right)?;
    let outcome = builtin_binary(alloc, token, first.value(), second.value())?;
    let holds = truth_given(&outcome);
    drop(outcome);
    holds
}

/// Compares two operands as `compare_values` does, but tries first whether both are integers. Then no value
/// is made.
#[inline(always)]
fn compare_in_place<H: Host>(
    alloc: Global,
    global: &RunState<H>,
    scope: &Scope<H>,
    token: Token,
    left: &Expr,
    right: &Expr,
) -> Option<bool>
    requires resolves_left { AgreesAt global.now scope.now (resolves_expr left.now) }
    requires resolves_right { AgreesAt global.now scope.now (resolves_expr right.now) }
    ensures { result ≡ compared token (standing (out-Expr left.now) (entries_of scope.now))
        (standing (out-Expr right.now) (entries_of scope.now)) }
{
    if let Some(holds) = compare_known(global, scope, token, left, right) {
        return Some(holds);
    }
    compare_values(alloc, global, scope, token, left, right)
}

/// Tells whether a condition is true that compares two operands as they stand. None in Some where it stopped
/// the run. None where the test is another expression, an operand has to be evaluated, or the operator gives
/// no truth value: then nothing is charged. The table is not called.
///
/// # Errors
/// `ErrorTooManyOperations` at the operator or an operand where the count has reached the limit.
#[inline(always)]
pub fn truth_in_place<H: Host, T: NativeTable<H>>(
    session: &Session<'_, H>,
    global: &mut RunState<H>,
    _table: &T,
    scope: &Scope<H>,
    place: &mut Option<EvalAltResult<H>>,
    test: &Expr,
) -> Option<Option<bool>>
    requires { AgreesAt global.old scope.now (resolves_expr test.now) }
    ensures found { is_some result ≡ is_some (condition_truth (out-Expr test.now) (entries_of scope.now)) }
    ensures left_alone { result ≡ None → global.new ≡ global.old }
    ensures charges { IfSome result (λ told. IfSome told (λ _.
        global.old.num_operations < global.new.num_operations)) }
    ensures sight { KeepsSight global.old global.new }
    ensures memory { IfSome result (λ told. told ≡ None → is_out_of_memory (error_in place.new) ≡ false) }
    ensures runs { (held : _) → session.now.fast_operators ≡ true →
        IfSome result (λ told. Tests (under H.name_of session.now T.natives) test.now
        (state_of (T.state _table.now) global.old scope.now held)
        (came_test told place.new) (state_of (T.state _table.now) global.new scope.now held)) }
{
    let Expr::FnCall(call, pos) = test else {
        return None;
    };
    let token = call.op_token?;
    let (left, right) = two_operands(call)?;
    let holds = compare_in_place(session.alloc, global, scope, token, left, right)?;
    if charge_all(&session.limits, global, 3) {
        return Some(Some(holds));
    }
    if !charge(&session.limits, global, place, *pos) {
        return Some(None);
    }
    if !charge(&session.limits, global, place, left.position()) {
        return Some(None);
    }
    if !charge(&session.limits, global, place, right.position()) {
        return Some(None);
    }
    Some(Some(holds))
}

/// Tells whether a condition holds that is answered at once. Under fast operators that is one that compares
/// operands which stand; None in Some where it stopped the run. None for any other: then nothing is charged.
/// The table is not called.
///
/// # Errors
/// `ErrorTooManyOperations` at the operator or an operand where the count has reached the limit.
#[inline(always)]
pub fn holds_at_once<H: Host, T: NativeTable<H>>(
    session: &Session<'_, H>,
    global: &mut RunState<H>,
    table: &T,
    scope: &Scope<H>,
    place: &mut Option<EvalAltResult<H>>,
    test: &Expr,
) -> Option<Option<bool>>
    requires { AgreesAt global.old scope.now (resolves_expr test.now) }
    ensures found { is_some result ≡ (session.now.fast_operators
        && is_some (condition_truth (out-Expr test.now) (entries_of scope.now))) }
    ensures left_alone { result ≡ None → global.new ≡ global.old }
    ensures charges { IfSome result (λ told. IfSome told (λ _.
        global.old.num_operations < global.new.num_operations)) }
    ensures memory { IfSome result (λ told. told ≡ None → is_out_of_memory (error_in place.new) ≡ false) }
    ensures sight { KeepsSight global.old global.new }
    ensures runs { (held : _) → IfSome result (λ told. Tests (under H.name_of session.now T.natives) test.now
        (state_of (T.state table.now) global.old scope.now held)
        (came_test told place.new) (state_of (T.state table.now) global.new scope.now held)) }
{
    let is_fast = session.fast_operators;
    if is_fast {
        truth_in_place(session, global, table, scope, place, test)
    } else {
        None
    }
}

/// Tells whether two truth values are the same.
pub fn is_same(left: bool, right: bool) -> bool
    ensures same { result ≡ true → left ≡ right }
    ensures other { result ≡ false → left ≡ not right }
{
    if right { left } else { !left }
}
