//! Calls and operators whose arguments are there, on what a run has in hand: its variables, its `this` and
//! its value. Ports what upstream's `func/call.rs` does once it has the arguments.

ghost use Rattle.std.specs.Prelude.{◌≡◌, ◌≤◌, ◌∷◌, [], false, not, true};
ghost use Rattle.rhai_state.specs.Scope.{names_in};
ghost use Rattle.rhai_machine.specs.language.Arguments.{arguments_there};
ghost use Rattle.rhai_machine.specs.language.Calls.{call_at, plainly};
ghost use Rattle.rhai_machine.specs.language.Frames.{ToCall, ToCallOn, ToCallOnThis};
ghost use Rattle.rhai_machine.specs.language.Runs.{Goes};
ghost use Rattle.rhai_steps.specs.Agreement.{AgreesAt, KeepsSight, variable_leads};
ghost use Rattle.rhai_steps.specs.Operations.{operation_of};
ghost use Rattle.rhai_steps.specs.Sessions.{under};
ghost use Rattle.rhai_steps.specs.States.{holding, state_of};
ghost use Rattle.rhai_calls.specs.Called.{with_args, came_out};
ghost use Rattle.rhai_calls.specs.Operates.{operator_there};
ghost use Rattle.rhai_call_forms.specs.Leading.{leading_seen, variable_read};

use crate::call_values;
use crate::this::call_on_this;
use crate::variable::call_on_variable;
use rhai_call_forms::arguments::FirstVariable;
use rhai_calls::dispatch::Called;
use rhai_calls::operators::{operate_one, operate_two};
use rhai_context::Context;
use rhai_errors::table::NativeTable;
use rhai_few::Few;
use rhai_functions::function::Function;
use rhai_names::variables::Variable;
use rhai_state::session::Session;
use rhai_steps::operation::Operation;
use rhai_tree::Items;
use rhai_tree::expr::FnCallExpr;
use rhai_tree::position::Position;
use rhai_tree::token::Token;
use rhai_values::base::value::{Dynamic, Host};

/// Makes a call by name of a variable and of values behind it.
pub fn call_with_variable<H: Host, T: NativeTable<H>>(
    session: &Session<'_, H>,
    run: &mut Context<H>,
    table: &mut T,
    operation: &Operation<'_>,
    variable: FirstVariable<'_>,
    values: &mut Few<Dynamic<H>>,
    natives_alone: bool,
) -> Called<Dynamic<H>, Function<H>, H>
    requires { AgreesAt run.old.global run.old.scope (variable_leads variable.offset variable.name.now
        variable.namespace.now) }
    ensures counts { run.old.global.num_operations ≤ run.new.global.num_operations }
    ensures sight { KeepsSight run.old.global run.new.global }
    ensures names { names_in run.new.scope ≡ names_in run.old.scope }
    ensures runs { let rules = under H.name_of session.now T.natives in
        Goes rules
        (arguments_there rules.setting (ToCallOn (operation_of operation.now)
        (variable_read (leading_seen variable.entry)) (plainly natives_alone false)) values.old)
        (state_of (T.state table.old) run.old.global run.old.scope (holding run.old.this))
        (came_out true operation.now.at (with_args result values.new))
        (state_of (T.state table.new) run.new.global run.new.scope (holding run.new.this)) }
{
    call_on_variable(
        session,
        &mut run.global,
        table,
        &mut run.scope,
        natives_alone,
        operation,
        &Variable {
            offset: variable.offset,
            name: variable.name,
            namespace: variable.namespace,
            at: variable.pos,
        },
        values,
    )
}

/// Makes a call by name of `this` and of values behind it.
pub fn call_with_this<H: Host, T: NativeTable<H>>(
    session: &Session<'_, H>,
    run: &mut Context<H>,
    table: &mut T,
    operation: &Operation<'_>,
    this_at: Position,
    values: &mut Few<Dynamic<H>>,
    natives_alone: bool,
) -> Called<Dynamic<H>, Function<H>, H>
    ensures counts { run.old.global.num_operations ≤ run.new.global.num_operations }
    ensures sight { KeepsSight run.old.global run.new.global }
    ensures scope { run.new.scope ≡ run.old.scope }
    ensures runs { let rules = under H.name_of session.now T.natives in
        Goes rules
        (arguments_there rules.setting (ToCallOnThis (operation_of operation.now) this_at
        (plainly natives_alone false)) values.old)
        (state_of (T.state table.old) run.old.global run.old.scope (holding run.old.this))
        (came_out true operation.now.at (with_args result values.new))
        (state_of (T.state table.new) run.new.global run.new.scope (holding run.new.this)) }
{
    call_on_this(
        session,
        &mut run.global,
        table,
        &mut run.this,
        natives_alone,
        operation,
        this_at,
        values,
    )
}

/// Makes a call by name of values, behind those that a pointer has.
pub fn call_with<H: Host, T: NativeTable<H>>(
    session: &Session<'_, H>,
    run: &mut Context<H>,
    table: &mut T,
    operation: &Operation<'_>,
    curried: Items<Dynamic<H>>,
    values: &mut Few<Dynamic<H>>,
    natives_alone: bool,
) -> Called<Dynamic<H>, Function<H>, H>
    ensures counts { run.old.global.num_operations ≤ run.new.global.num_operations }
    ensures sight { KeepsSight run.old.global run.new.global }
    ensures scope { run.new.scope ≡ run.old.scope }
    ensures runs { (on_scope : _) → let rules = under H.name_of session.now T.natives in
        Goes rules
        (arguments_there rules.setting (ToCall (operation_of operation.now) curried
        (plainly natives_alone on_scope)) values.old)
        (state_of (T.state table.old) run.old.global run.old.scope (holding run.old.this))
        (came_out (not on_scope) operation.now.at (with_args result values.new))
        (state_of (T.state table.new) run.new.global run.new.scope (holding run.new.this)) }
{
    call_values(
        session,
        &mut run.global,
        table,
        natives_alone,
        operation,
        curried,
        values,
    )
}

/// Applies a unary operator to the value of a run. A function of a script that has it is for the caller
/// to enter, with the operand in the list, which is empty before.
#[inline(always)]
pub fn operate_on_one<H: Host, T: NativeTable<H>>(
    session: &Session<'_, H>,
    run: &mut Context<H>,
    table: &mut T,
    call: &FnCallExpr,
    token: Token,
    operands: &mut Few<Dynamic<H>>,
    pos: Position,
) -> Called<Dynamic<H>, Function<H>, H>
    requires { operands.old ≡ [] }
    ensures counts { run.old.global.num_operations ≤ run.new.global.num_operations }
    ensures sight { KeepsSight run.old.global run.new.global }
    ensures scope { run.new.scope ≡ run.old.scope }
    ensures runs { let rules = under H.name_of session.now T.natives in
        Goes rules (operator_there rules.setting (call_at call.now.name token pos (run.old.value ∷ [])))
        (state_of (T.state table.old) run.old.global run.old.scope (holding run.old.this))
        (came_out true pos (with_args result operands.new))
        (state_of (T.state table.new) run.new.global run.new.scope (holding run.new.this)) }
{
    let (global, out) = (&mut run.global, &mut run.value);
    operate_one(session, global, table, call, token, out, operands, pos)
}

/// Applies a binary operator to a value and that of a run. A function of a script that has it is for the
/// caller to enter, with the operands in the list, which is empty before.
#[inline(always)]
pub fn operate_on_two<H: Host, T: NativeTable<H>>(
    session: &Session<'_, H>,
    run: &mut Context<H>,
    table: &mut T,
    call: &FnCallExpr,
    token: Token,
    left: Dynamic<H>,
    operands: &mut Few<Dynamic<H>>,
    pos: Position,
) -> Called<Dynamic<H>, Function<H>, H>
    requires { operands.old ≡ [] }
    ensures counts { run.old.global.num_operations ≤ run.new.global.num_operations }
    ensures sight { KeepsSight run.old.global run.new.global }
    ensures scope { run.new.scope ≡ run.old.scope }
    ensures runs { let rules = under H.name_of session.now T.natives in
        Goes rules
        (operator_there rules.setting (call_at call.now.name token pos (left ∷ run.old.value ∷ [])))
        (state_of (T.state table.old) run.old.global run.old.scope (holding run.old.this))
        (came_out true pos (with_args result operands.new))
        (state_of (T.state table.new) run.new.global run.new.scope (holding run.new.this)) }
{
    let (global, out) = (&mut run.global, &mut run.value);
    operate_two(
        session, global, table, call, token, left, out, operands, pos,
    )
}
