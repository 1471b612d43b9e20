//! A call by name whose first argument is `this`, which is read last and lent.

ghost use Rattle.std.specs.Prelude.{◌≡◌, ◌≤◌, not};
ghost use Rattle.rhai_machine.specs.language.Calls.{plainly};
ghost use Rattle.rhai_machine.specs.language.Frames.{ToCallOnThis};
ghost use Rattle.rhai_machine.specs.language.Runs.{Goes};
ghost use Rattle.rhai_machine.specs.language.Arguments.{arguments_there};
ghost use Rattle.rhai_steps.specs.Operations.{operation_of};
ghost use Rattle.rhai_steps.specs.Agreement.{KeepsSight};
ghost use Rattle.rhai_steps.specs.Sessions.{under};
ghost use Rattle.rhai_steps.specs.States.{state_of};
ghost use Rattle.rhai_calls.specs.Called.{with_args, came_out};

use crate::variable::call_first;
use rhai_calls::dispatch::Called;
use rhai_errors::error::EvalAltResult;
use rhai_errors::table::NativeTable;
use rhai_few::Few;
use rhai_functions::function::Function;
use rhai_lookups::run::RunState;
use rhai_state::session::Session;
use rhai_steps::operation::Operation;
use rhai_tree::position::Position;
use rhai_values::base::value::{Dynamic, Host};

/// Makes a call by name with `this` before its arguments, which are there. It is lent, a constant too, so
/// that a native may change it; a function of a script gets a copy. Ports what upstream's
/// `make_function_call` does with `this` that comes first.
///
/// # Errors
/// `ErrorUnboundThis` at `this`. All others are those of `rhai_calls::dispatch::pass_call`.
pub fn call_on_this<H: Host, T: NativeTable<H>>(
    session: &Session<'_, H>,
    global: &mut RunState<H>,
    table: &mut T,
    this: &mut Option<Dynamic<H>>,
    natives_alone: bool,
    operation: &Operation<'_>,
    this_at: Position,
    args: &mut Few<Dynamic<H>>,
) -> Called<Dynamic<H>, Function<H>, H>
    ensures counts { global.old.num_operations ≤ global.new.num_operations }
    ensures sight { KeepsSight global.old global.new }
    ensures runs { (scope : _) (focus : _) (on_scope : _) → let rules = under H.name_of session.now T.natives in
        Goes rules
        (arguments_there rules.setting (ToCallOnThis (operation_of operation.now) this_at (plainly natives_alone on_scope)) args.old)
        (state_of (T.state table.old) global.old scope (record { this = this.old; focus = focus }))
        (came_out (not on_scope) operation.now.at (with_args result args.new))
        (state_of (T.state table.new) global.new scope (record { this = this.new; focus = focus })) }
{
    match this {
        Some(first) => call_first(
            session,
            global,
            table,
            natives_alone,
            operation,
            first,
            args,
        ),
        None => Called::Ended(Err(EvalAltResult::ErrorUnboundThis(this_at))),
    }
}
