//! Operators whose operands are there: the built-in, or else a call of the operator's name. Ports what
//! upstream's `func/call.rs` does for operators. The contracts cite specs/Operates.antt and
//! specs/Called.antt.

ghost use Rattle.std.specs.Prelude.{◌≡◌, ◌≤◌, ◌∷◌, [], IsTrue, false, true};
ghost use Rattle.rhai_machine.specs.language.Calls.{call_at, call_of, plainly, dispatch_core};
ghost use Rattle.rhai_machine.specs.language.Runs.{Goes};
ghost use Rattle.rhai_steps.specs.Agreement.{KeepsSight};
ghost use Rattle.rhai_steps.specs.Operations.{operation_of};
ghost use Rattle.rhai_steps.specs.Sessions.{under};
ghost use Rattle.rhai_steps.specs.States.{state_of};
ghost use Rattle.rhai_calls.specs.Called.{with_args, came_out};
ghost use Rattle.rhai_calls.specs.Operates.{operator_there};

use crate::dispatch::{Called, call_all};
use rhai_errors::error::EvalAltResult;
use rhai_errors::table::NativeTable;
use rhai_few::Few;
use rhai_functions::function::Function;
use rhai_lookups::run::RunState;
use rhai_operators::{builtin_binary, builtin_unary};
use rhai_state::session::Session;
use rhai_steps::operation::Operation;
use rhai_steps::replies::applied;
use rhai_steps::values::{let_go, unit_value};
use rhai_tree::expr::FnCallExpr;
use rhai_tree::position::Position;
use rhai_tree::token::Token;
use rhai_values::base::value::{Dynamic, Host};
use std::mem::replace;

/// Puts one value into a list without items. Tells whether there was memory for it.
fn one<H: Host>(list: &mut Few<Dynamic<H>>, value: Dynamic<H>) -> bool
    requires { list.old ≡ [] }
    ensures { IsTrue result → list.new ≡ value ∷ [] }
{
    list.push(value).is_ok()
}

/// Puts two values into a list without items. Tells whether there was memory for them.
fn push_two<H: Host>(list: &mut Few<Dynamic<H>>, left: Dynamic<H>, right: Dynamic<H>) -> bool
    requires { list.old ≡ [] }
    ensures { IsTrue result → list.new ≡ left ∷ right ∷ [] }
{
    if !one(list, left) {
        let_go(right);
        return false;
    }
    list.push(right).is_ok()
}

/// Calls an operator that is no built-in of its operands, if there was memory for their list.
fn call_listed<H: Host, T: NativeTable<H>>(
    session: &Session<'_, H>,
    global: &mut RunState<H>,
    table: &mut T,
    operation: &Operation<'_>,
    operands: &mut Few<Dynamic<H>>,
    are_there: bool,
) -> Called<Dynamic<H>, Function<H>, H>
    ensures counts { global.old.num_operations ≤ global.new.num_operations }
    ensures sight { KeepsSight global.old global.new }
    ensures runs { (scope : _) (held : _) (values : _) → (IsTrue are_there → operands.old ≡ values) →
        let rules = under H.name_of session.now T.natives in
        Goes rules
        (dispatch_core rules.setting (plainly false false) (call_of (operation_of operation.now) values))
        (state_of (T.state table.old) global.old scope held)
        (came_out true operation.now.at (with_args result operands.new))
        (state_of (T.state table.new) global.new scope held) }
{
    if !are_there {
        return Called::Ended(Err(EvalAltResult::ErrorOutOfMemory(operation.at)));
    }
    call_all(session, global, table, false, operation, operands)
}

/// Applies a unary operator whose operand is the value of a run. It is the built-in, or else a call of its
/// name. A function of a script that has it is for the caller to enter, with the operand in the list, which
/// is empty before.
///
/// # Errors
/// The built-in's at the operator. `ErrorDataTooLarge` for a value above a limit. Of the call those
/// of `rhai_calls::dispatch::call_all`, at the operator.
pub fn operate_one<H: Host, T: NativeTable<H>>(
    session: &Session<'_, H>,
    global: &mut RunState<H>,
    table: &mut T,
    call: &FnCallExpr,
    token: Token,
    out: &mut Dynamic<H>,
    operands: &mut Few<Dynamic<H>>,
    pos: Position,
) -> Called<Dynamic<H>, Function<H>, H>
    requires { operands.old ≡ [] }
    ensures counts { global.old.num_operations ≤ global.new.num_operations }
    ensures sight { KeepsSight global.old global.new }
    ensures runs { (scope : _) (held : _) → let rules = under H.name_of session.now T.natives in
        Goes rules (operator_there rules.setting (call_at call.now.name token pos (out.old ∷ [])))
        (state_of (T.state table.old) global.old scope held)
        (came_out true pos (with_args result operands.new))
        (state_of (T.state table.new) global.new scope held) }
{
    match builtin_unary(session.alloc, token, &*out) {
        Some(outcome) => Called::Ended(applied(session, outcome, pos)),
        None => {
            let is_there = one(operands, replace(out, unit_value()));
            let name = call.name.get().as_str();
            call_listed(
                session,
                global,
                table,
                &Operation {
                    name,
                    token: Some(token),
                    at: pos,
                },
                operands,
                is_there,
            )
        }
    }
}

/// Applies a binary operator to a left operand and the value of a run, its right one. It is the built-in, or
/// else a call of its name. A function of a script that has it is for the caller to enter.
///
/// # Errors
/// Those of `operate_one`.
pub fn operate_two<H: Host, T: NativeTable<H>>(
    session: &Session<'_, H>,
    global: &mut RunState<H>,
    table: &mut T,
    call: &FnCallExpr,
    token: Token,
    left: Dynamic<H>,
    out: &mut Dynamic<H>,
    operands: &mut Few<Dynamic<H>>,
    pos: Position,
) -> Called<Dynamic<H>, Function<H>, H>
    requires { operands.old ≡ [] }
    ensures counts { global.old.num_operations ≤ global.new.num_operations }
    ensures sight { KeepsSight global.old global.new }
    ensures runs { (scope : _) (held : _) → let rules = under H.name_of session.now T.natives in
        Goes rules (operator_there rules.setting (call_at call.now.name token pos (left ∷ out.old ∷ [])))
        (state_of (T.state table.old) global.old scope held)
        (came_out true pos (with_args result operands.new))
        (state_of (T.state table.new) global.new scope held) }
{
    match builtin_binary(session.alloc, token, &left, &*out) {
        Some(outcome) => {
            let_go(left);
            Called::Ended(applied(session, outcome, pos))
        }
        None => {
            let are_there = push_two(operands, left, replace(out, unit_value()));
            let name = call.name.get().as_str();
            call_listed(
                session,
                global,
                table,
                &Operation {
                    name,
                    token: Some(token),
                    at: pos,
                },
                operands,
                are_there,
            )
        }
    }
}
